//! Native values from views.
ghost use Rattle.std.specs.Prelude.{◌≡◌, ℕ, List, Some, true, Result, Ok, IsOk, IfOk, IfErr, string_bytes};
ghost use Rattle.std.specs.Cmp.Lexicographic.{slice_cmp};
ghost use Rattle.std.specs.Int.NonZero.{non_zero_u32_get};
ghost use Rattle.std.specs.Ordering.{nat_cmp};
ghost use Rattle.std.specs.declared.cmp.Ordering.{Ordering};
ghost use Rattle.std.proofs.Common.{ap, ◌∙◌, refl, rules, sym};
ghost use Rattle.std.proofs.lemmas.Grind.{common_steps};
ghost use Rattle.rkyv_btree_portable.specs.Scalars.{non_zero_kind};
ghost use Rattle.rkyv_btree_portable.specs.Text.{text_kind};
ghost use Rattle.rkyv_btree_writer.specs.declared.fault.EntryFault.{EntryFault};
ghost use Rattle.rkyv_btree_convert.specs.Deserializing.{IsByMeaning, IsRefused, deserialize_text};

use crate::deserialize_native::DeserializeNative;
use rkyv_btree_portable::check::Portable;
use rkyv_btree_portable::scalars::ArchivedNonZeroU32;
use rkyv_btree_portable::text::ArchivedText;
use rkyv_btree_view::view::View;
use rkyv_btree_writer::fault::EntryFault;
use std::alloc::{AllocError, Global};
use std::error::Error;
use std::fmt;
use std::num::NonZeroU32;

/// Why no native value was made.
#[derive(Clone, Copy, Debug, PartialEq, Eq)]
pub enum DeserializeFault {
    /// An allocation failed.
    Memory(AllocError),
    /// An entry's own error.
    Entry(EntryFault),
}

impl fmt::Display for DeserializeFault {
    ghost output = { λ fault. Some (deserialize_text fault) };

    fn fmt<W: fmt::Write>(&self, f: &mut fmt::Formatter<W>) -> fmt::Result {
        match self {
            DeserializeFault::Memory(_) => write!(f, "out of memory"),
            DeserializeFault::Entry(_) => write!(f, "entry refused"),
        }
    }
}

impl Error for DeserializeFault {}

/// An archived type whose values are deserialized to native ones of type `T`.
pub trait Deserialize<T: PartialEq>: Portable {
    /// The type of models of native values, which contracts speak of: the bytes of a text, the number of a number.
    ghost Model: { Type 0 };

    /// The model of a native value.
    ghost model: { T → Model };

    /// The order of models: that of the native values, if these are keys.
    ghost model_order: { Model → Model → Ordering };

    /// The result of deserializing the bytes at a position of a buffer: the model of the native value, or the entry's own error.
    ghost decoded: { List ℕ → ℕ → Result Model EntryFault };

    /// Returns the native value of what the view reads, in memory of `alloc`.
    ///
    /// # Errors
    ///
    /// `DeserializeFault::Memory` if an allocation fails, and an entry's own error.
    fn deserialize(alloc: Global, view: &View<'_, Self>) -> Result<T, DeserializeFault>
        ensures ok { IfOk result (λ value. decoded view.now.buf.now view.now.pos
            ≡ Ok (model value)) }
        ensures refused { IfErr result (IsRefused (decoded view.now.buf.now view.now.pos)) };

    // The native value depends on the meaning of the bytes alone, at any position.
    ghost by_meaning: { IsByMeaning Self.kind decoded };

    // Values with the same model are equal, if they equal themselves, as all but a NaN do. So the model has all that `==` sees.
    ghost model_whole: { (x y : T) → model x ≡ model y → T.eq x x ≡ true → T.eq x y ≡ true };
}

impl<T: DeserializeNative> Deserialize<T::Native> for T {
    ghost Model = { T.Native };

    ghost model = { λ x. x };

    ghost model_order = { T.Native.cmp };

    ghost decoded = { λ b p. Ok (T.read_native b p) };

    /// Returns the native value. It never fails.
    fn deserialize(_alloc: Global, view: &View<'_, T>) -> Result<T::Native, DeserializeFault>
        ensures { result ≡ Ok (T.read_native view.now.buf.now view.now.pos) }
    {
        Ok(T::native(view))
    }

    ghost by_meaning = { record {
      of_value = λ x. Ok (T.read_as.native x);
      by_value = λ b at. ap Ok (T.read_as.by_value b at);
    } };

    ghost model_whole = { λ x y same _.
        ap (T.Native.eq x) (sym same) ∙ T.Native.Eq.laws.refl x };
}

impl Deserialize<NonZeroU32> for ArchivedNonZeroU32 {
    ghost Model = { ℕ };

    ghost model = { non_zero_u32_get };

    ghost model_order = { nat_cmp };

    ghost decoded = { λ b p. Ok (non_zero_kind.read b p) };

    /// Returns the number. It never fails.
    fn deserialize(
        _alloc: Global,
        view: &View<'_, ArchivedNonZeroU32>,
    ) -> Result<NonZeroU32, DeserializeFault>
        ensures always { IsOk result }
        ensures value { let read = non_zero_kind.read view.now.buf.now view.now.pos in
            IfOk result (λ number. non_zero_u32_get number ≡ read) }
    {
        Ok(view.to_native())
    }

    ghost by_meaning = { record { of_value = λ number. Ok number; by_value = λ b at. refl } };

    ghost model_whole = { λ x y same own. Prim.search (rules, common_steps) };
}

impl Deserialize<String> for ArchivedText {
    ghost Model = { List ℕ };

    ghost model = { string_bytes };

    ghost model_order = { slice_cmp nat_cmp };

    ghost decoded = { λ b p. Ok (text_kind.read b p) };

    /// Returns a copy of the text. The only error is one of memory.
    fn deserialize(
        alloc: Global,
        view: &View<'_, ArchivedText>,
    ) -> Result<String, DeserializeFault> {
        match String::from_str(alloc, view.as_str()) {
            Ok(text) => Ok(text),
            Err(error) => Err(DeserializeFault::Memory(error)),
        }
    }

    ghost by_meaning = { record { of_value = λ text. Ok text; by_value = λ b at. refl } };

    ghost model_whole = { λ x y same own. Prim.search (rules, common_steps) };
}
