//! Archived floating-point numbers.
ghost use Rattle.std.specs.Cmp.{eq_by_cmp_equiv};
ghost use Rattle.std.specs.Ordering.{is_eq, nan_last_cmp};
ghost use Rattle.std.proofs.Common.{refl};
ghost use Rattle.std.proofs.lemmas.Float.{nan_last};
ghost use Rattle.rkyv_btree_compound.specs.Floats.{f32_form, f64_form, f32_kind, f64_kind};
ghost use Rattle.rkyv_btree_compound.specs.laws.FloatLaws.{f32_faithful, f64_faithful};
ghost use Rattle.rkyv_btree_portable.specs.InPlace.{scalar_form};
ghost use Rattle.rkyv_btree_portable.specs.Plain.{plain_kind};
ghost use Rattle.rkyv_btree_portable.specs.Refusing.{RefusesWhole};
ghost use Rattle.rkyv_btree_portable.specs.laws.InPlace.{scalar_in_place};
ghost use Rattle.rkyv_btree_portable.specs.laws.Refusing.{whole_refusals};
ghost use Rattle.rkyv_btree_view.specs.laws.SameAs.{same_tests};

use rkyv_btree_portable::check::{CheckBytes, Portable, Scalar, Window, check_in_place};
use rkyv_btree_portable::in_place::InPlace;
use rkyv_btree_portable::numbers::{ArchivedU32, ArchivedU64};
use rkyv_btree_portable::refusal::Refusal;
use rkyv_btree_view::compare_native::SameAs;
use rkyv_btree_view::native::ToNative;
use rkyv_btree_view::view::View;
use std::cmp::OrderedFloat;
use std::marker::PhantomData;
use std::num::{
    f32_from_bits_with_nan, f32_to_bits_with_nan, f64_from_bits_with_nan, f64_to_bits_with_nan,
};

/// A floating-point number as the number of its bits, the least byte first.
pub struct ArchivedFloat<F> {
    of: PhantomData<F>,
}

/// An `f32` in four bytes, the least first.
pub type ArchivedF32 = ArchivedFloat<f32>;

/// An `f64` in eight bytes, the least first.
pub type ArchivedF64 = ArchivedFloat<f64>;

impl Scalar for ArchivedF32 {
    type Native = f32;

    ghost form = { f32_form };

    ghost faithful = { f32_faithful };

    fn size_and_align() -> (u32, u32) {
        (4, 4)
    }

    fn read(bytes: &[u8]) -> f32 {
        f32_from_bits_with_nan(<ArchivedU32 as Scalar>::read(bytes))
    }

    fn write(value: f32, bytes: &mut [u8]) {
        <ArchivedU32 as Scalar>::write(f32_to_bits_with_nan(value), bytes);
    }

    fn is_value(_buf: &[u8], _pos: u32) -> bool {
        true
    }
}

impl Scalar for ArchivedF64 {
    type Native = f64;

    ghost form = { f64_form };

    ghost faithful = { f64_faithful };

    fn size_and_align() -> (u32, u32) {
        (8, 8)
    }

    fn read(bytes: &[u8]) -> f64 {
        f64_from_bits_with_nan(<ArchivedU64 as Scalar>::read(bytes))
    }

    fn write(value: f64, bytes: &mut [u8]) {
        <ArchivedU64 as Scalar>::write(f64_to_bits_with_nan(value), bytes);
    }

    fn is_value(_buf: &[u8], _pos: u32) -> bool {
        true
    }
}

impl<F> Portable for ArchivedFloat<F>
where
    ArchivedFloat<F>: Scalar,
{
    ghost kind = { plain_kind ⟦<ArchivedFloat<F> as Scalar>⟧.form.plain };

    fn size() -> u32 {
        ArchivedFloat::<F>::size_and_align().0
    }

    fn align() -> u32 {
        ArchivedFloat::<F>::size_and_align().1
    }

    fn fits() -> bool {
        true
    }

    ghost laws = { ⟦<ArchivedFloat<F> as Scalar>⟧.faithful.lawful };
}

impl<F> CheckBytes for ArchivedFloat<F>
where
    ArchivedFloat<F>: Scalar,
{
    ghost Refuses = { RefusesWhole (plain_kind ⟦<ArchivedFloat<F> as Scalar>⟧.form.plain) };

    fn check(buf: &[u8], pos: u32, window: Window) -> Result<Window, Refusal> {
        check_in_place::<ArchivedFloat<F>>(buf, pos, window)
    }

    ghost refusals = { λ _. whole_refusals ⟦<ArchivedFloat<F> as Scalar>⟧.faithful.lawful };
}

impl<F> InPlace for ArchivedFloat<F>
where
    ArchivedFloat<F>: Scalar,
{
    type Native = <ArchivedFloat<F> as Scalar>::Native;

    ghost in_place = { scalar_form ⟦<ArchivedFloat<F> as Scalar>⟧.form };

    #[tactic(auto, using(rkyv_btree_portable::specs::laws::InPlace::plain_is_value))]
    fn read(bytes: &[u8]) -> <ArchivedFloat<F> as Scalar>::Native {
        <ArchivedFloat<F> as Scalar>::read(bytes)
    }

    fn write(value: <ArchivedFloat<F> as Scalar>::Native, bytes: &mut [u8]) {
        <ArchivedFloat<F> as Scalar>::write(value, bytes);
    }

    ghost is_in_place = { scalar_in_place ⟦<ArchivedFloat<F> as Scalar>⟧.faithful };
}

impl ToNative for ArchivedF32 {
    type Native = OrderedFloat<f32>;

    ghost read_native = { λ b at. record { 0 = f32_kind.read b at } };

    /// The number in an `OrderedFloat`, by which it is compared: a NaN is greater than all numbers.
    fn native(view: &View<'_, ArchivedF32>) -> OrderedFloat<f32> {
        let at = view.pos as usize;
        OrderedFloat(<ArchivedF32 as Scalar>::read(&view.buf[at..at + 4]))
    }

    ghost read_as = { record {
      native = λ x. record { 0 = x };
      by_value = λ b at. refl;
      same = λ x y. refl;
      order = λ x y. refl;
      hash_input = λ x. refl;
    } };
}

impl ToNative for ArchivedF64 {
    type Native = OrderedFloat<f64>;

    ghost read_native = { λ b at. record { 0 = f64_kind.read b at } };

    /// The number in an `OrderedFloat`, by which it is compared: a NaN is greater than all numbers.
    fn native(view: &View<'_, ArchivedF64>) -> OrderedFloat<f64> {
        let at = view.pos as usize;
        OrderedFloat(<ArchivedF64 as Scalar>::read(&view.buf[at..at + 8]))
    }

    ghost read_as = { record {
      native = λ x. record { 0 = x };
      by_value = λ b at. refl;
      same = λ x y. refl;
      order = λ x y. refl;
      hash_input = λ x. refl;
    } };
}

impl SameAs<f32> for ArchivedF32 {
    ghost same_at = { λ native b at. is_eq (nan_last_cmp (f32_kind.read b at) native) };

    /// Whether both are the same as `OrderedFloat`s are: a NaN is the same as each NaN, and -0 the same as 0.
    fn same_as(view: &View<'_, ArchivedF32>, native: &f32) -> bool {
        view.to_native() == OrderedFloat(*native)
    }

    ghost tests = { same_tests f32_kind (eq_by_cmp_equiv nan_last) (λ x. x) };
}

impl SameAs<f64> for ArchivedF64 {
    ghost same_at = { λ native b at. is_eq (nan_last_cmp (f64_kind.read b at) native) };

    /// Whether both are the same as `OrderedFloat`s are: a NaN is the same as each NaN, and -0 the same as 0.
    fn same_as(view: &View<'_, ArchivedF64>, native: &f64) -> bool {
        view.to_native() == OrderedFloat(*native)
    }

    ghost tests = { same_tests f64_kind (eq_by_cmp_equiv nan_last) (λ x. x) };
}
