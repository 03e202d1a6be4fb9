//! Native floating-point numbers, by themselves and in an `OrderedFloat`.
ghost use Rattle.std.specs.Float.Ieee.{Float};
ghost use Rattle.std.specs.Ordering.{is_eq, nan_last_cmp};
ghost use Rattle.std.specs.Prelude.{◌≡◌, Ok};
ghost use Rattle.std.proofs.Common.{ap, ◌∙◌, refl, sym};
ghost use Rattle.std.proofs.lemmas.Float.{nan_last};
ghost use Rattle.rkyv_btree_compound.specs.Floats.{f32_kind, f64_kind};

use crate::deserialize::{Deserialize, DeserializeFault};
use crate::entry_type::EntryType;
use crate::native_key::DeserializeKey;
use rkyv_btree_compound::floats::{ArchivedF32, ArchivedF64};
use rkyv_btree_view::view::View;
use std::alloc::Global;
use std::cmp::OrderedFloat;

impl Deserialize<f32> for ArchivedF32 {
    ghost Model = { Float };

    ghost model = { λ x. x };

    ghost model_order = { nan_last_cmp };

    ghost decoded = { λ b at. Ok (f32_kind.read b at) };

    /// Returns the number. It never fails.
    fn deserialize(_alloc: Global, view: &View<'_, ArchivedF32>) -> Result<f32, DeserializeFault>
        ensures { result ≡ Ok (f32_kind.read view.now.buf.now view.now.pos) }
    {
        let single = view.to_native();
        Ok(single.into_inner())
    }

    ghost by_meaning = { record { of_value = λ x. Ok x; by_value = λ b at. refl } };

    ghost model_whole = { λ x y same own. ap (⟦<f32 as PartialEq>⟧.eq x) (sym same) ∙ own };
}

impl Deserialize<OrderedFloat<f32>> for ArchivedF32 {
    ghost Model = { Float };

    ghost model = { λ x. x.0 };

    ghost model_order = { nan_last_cmp };

    ghost decoded = { λ b at. Ok (f32_kind.read b at) };

    /// Returns the number. It never fails.
    fn deserialize(
        _alloc: Global,
        view: &View<'_, ArchivedF32>,
    ) -> Result<OrderedFloat<f32>, DeserializeFault>
        ensures { result ≡ Ok (record { 0 = f32_kind.read view.now.buf.now view.now.pos }) }
    {
        Ok(view.to_native())
    }

    ghost by_meaning = { record { of_value = λ x. Ok x; by_value = λ b at. refl } };

    ghost model_whole = { λ x y same own. ap (λ z. is_eq (nan_last_cmp x.0 z)) (sym same) ∙ own };
}

// A 0 and a -0 are equal as keys, and differ.
impl DeserializeKey<OrderedFloat<f32>> for ArchivedF32 {
    ghost ordered_as_model = { λ x y. refl };

    ghost total = { nan_last };
}

impl EntryType for ArchivedF32 {
    type Owned = OrderedFloat<f32>;
}

impl Deserialize<f64> for ArchivedF64 {
    ghost Model = { Float };

    ghost model = { λ x. x };

    ghost model_order = { nan_last_cmp };

    ghost decoded = { λ b at. Ok (f64_kind.read b at) };

    /// Returns the number. It never fails.
    fn deserialize(_alloc: Global, view: &View<'_, ArchivedF64>) -> Result<f64, DeserializeFault>
        ensures { result ≡ Ok (f64_kind.read view.now.buf.now view.now.pos) }
    {
        let double = view.to_native();
        Ok(double.into_inner())
    }

    ghost by_meaning = { record { of_value = λ x. Ok x; by_value = λ b at. refl } };

    ghost model_whole = { λ x y same own. ap (⟦<f64 as PartialEq>⟧.eq x) (sym same) ∙ own };
}

impl Deserialize<OrderedFloat<f64>> for ArchivedF64 {
    ghost Model = { Float };

    ghost model = { λ x. x.0 };

    ghost model_order = { nan_last_cmp };

    ghost decoded = { λ b at. Ok (f64_kind.read b at) };

    /// Returns the number. It never fails.
    fn deserialize(
        _alloc: Global,
        view: &View<'_, ArchivedF64>,
    ) -> Result<OrderedFloat<f64>, DeserializeFault>
        ensures { result ≡ Ok (record { 0 = f64_kind.read view.now.buf.now view.now.pos }) }
    {
        Ok(view.to_native())
    }

    ghost by_meaning = { record { of_value = λ x. Ok x; by_value = λ b at. refl } };

    ghost model_whole = { λ x y same own. ap (λ z. is_eq (nan_last_cmp x.0 z)) (sym same) ∙ own };
}

// A 0 and a -0 are equal as keys, and differ.
impl DeserializeKey<OrderedFloat<f64>> for ArchivedF64 {
    ghost ordered_as_model = { λ x y. refl };

    ghost total = { nan_last };
}

impl EntryType for ArchivedF64 {
    type Owned = OrderedFloat<f64>;
}
