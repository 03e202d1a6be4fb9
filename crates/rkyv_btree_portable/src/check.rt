//! Archived types.
ghost use Rattle.std.specs.Prelude.{◌≡◌, ℕ, ◌+◌, ◌≤◌, ◌<◌, IsTrue, IfOk, IfErr, List, length};
ghost use Rattle.rkyv_btree_portable.specs.declared.refusal.Refusal.{Refusal};
ghost use Rattle.rkyv_btree_portable.specs.Bytes.{bytes_at};
ghost use Rattle.rkyv_btree_portable.specs.InPlace.{NativeForm, IsFaithful};
ghost use Rattle.rkyv_btree_portable.specs.Kind.{Kind, IsLawful};
ghost use Rattle.rkyv_btree_portable.specs.Plain.{MeansPlainly, plain_kind};
ghost use Rattle.rkyv_btree_portable.specs.Refusing.{HasPlace, Misplaced, RefusesWhole, AreRefusals, or_bad};

use crate::refusal::Refusal;

/// A part of a buffer in which a value's outlying bytes may lie: the positions from `lo` up to `hi`, without `hi`.
#[derive(Clone, Copy, Debug, PartialEq, Eq)]
pub struct Window {
    pub lo: u32,
    pub hi: u32,
}

/// An archived type: a layout whose bytes mean a value.
pub trait Portable {
    /// What its bytes mean, and what deciding and reading them gives.
    ghost kind: { Kind };

    /// The number of its own bytes.
    fn size() -> u32
        requires { IsTrue kind.is_fitting }
        ensures { result ≡ kind.size };

    /// The alignment: 1, 2, 4, 8 or 16.
    fn align() -> u32
        ensures value { result ≡ kind.align }
        ensures positive { 0 < result }
        ensures small { result ≤ 16 };

    /// The test that the sizes of its parts fit 32 bits, which every other call over the type asks.
    fn fits() -> bool
        ensures { result ≡ kind.is_fitting };

    ghost laws: { IsLawful kind };
}

/// An archived type of numbers, truth values or characters, in their own bytes alone.
pub trait Scalar {
    /// The type of the values as the program has them.
    type Native: Copy + Drop;

    /// What own bytes mean, and how native values are written.
    ghost form: { NativeForm Self.Native };

    /// The archived type is lawful, and the own bytes of a value mean it.
    ghost faithful: { IsFaithful form };

    /// The number of own bytes, and what their position is a multiple of.
    fn size_and_align() -> (u32, u32)
        ensures size { result.0 ≡ form.plain.size }
        ensures align { result.1 ≡ form.plain.align };

    /// The value that own bytes mean.
    fn read(bytes: &[u8]) -> Self::Native
        requires size { length bytes.now ≡ form.plain.size }
        requires value { IsTrue (form.plain.is_value bytes.now) }
        ensures { form.meaning result ≡ form.plain.value bytes.now };

    /// Writes the own bytes of a value. What they mean is the value.
    fn write(value: Self::Native, bytes: &mut [u8])
        requires { length bytes.old ≡ form.plain.size }
        ensures bytes { bytes.new ≡ form.own_bytes value }
        ensures means { form.plain.value (form.own_bytes value) ≡ form.meaning value };

    /// The test that the own bytes at position `pos` are a value.
    fn is_value(buf: &[u8], pos: u32) -> bool
        requires { pos + form.plain.size ≤ length buf.now }
        ensures { result ≡ form.plain.is_value (bytes_at buf.now pos form.plain.size) };
}

/// An archived type whose bytes can be checked, whoever wrote them.
pub trait CheckBytes: Portable {
    /// Which refusal a value gets that is asked by itself.
    ghost Refuses: { List ℕ → ℕ → ℕ → ℕ → Refusal → Type 0 };

    /// The check of the value at position `pos`, whose outlying bytes may lie in `window`. It returns the window that is
    /// left: its `lo` is moved past the bytes that the value takes from it.
    fn check(buf: &[u8], pos: u32, window: Window) -> Result<Window, Refusal>
        requires fitting { IsTrue Self.kind.is_fitting }
        requires ordered { window.lo ≤ window.hi }
        requires before { window.hi ≤ pos }
        ensures ok { IfOk result (λ left.
            (v : Self.kind.Value) × Self.kind.Means buf.now window.lo window.hi pos left.lo v) }
        ensures hi { IfOk result (λ left. left.hi ≡ window.hi) }
        ensures err { IfErr result (λ refusal. Refuses buf.now window.lo window.hi pos refusal) };

    ghost refusals: { IsTrue Self.kind.is_fitting → AreRefusals Self.kind Refuses };
}

/// Tests that `size` own bytes at position `pos` are in the buffer, at a multiple of `align`.
///
/// # Errors
///
/// `TooLong`, `OutOfRange` or `Misaligned`, whichever comes first in this order.
pub fn check_own_bytes(buf: &[u8], pos: u32, size: u32, align: u32) -> Result<(), Refusal>
    requires { 0 < align }
    ensures ok { IfOk result (λ _. HasPlace buf.now size align pos) }
    ensures err { IfErr result (λ refusal. Misplaced buf.now size align pos refusal) }
{
    if buf.len() > 4294967295 {
        return Err(Refusal::TooLong);
    }
    if buf.len() < pos as usize + size as usize {
        return Err(Refusal::OutOfRange {
            pos: i64::from(pos),
        });
    }
    if pos % align != 0 {
        return Err(Refusal::Misaligned { pos });
    }
    Ok(())
}

/// Tests that the own bytes of a `T` at position `pos` are in the buffer, at a multiple of its alignment.
///
/// # Errors
///
/// Those of `check_own_bytes`.
pub fn check_place<T: Portable>(buf: &[u8], pos: u32) -> Result<(), Refusal>
    requires { IsTrue T.kind.is_fitting }
    ensures ok { IfOk result (λ _. HasPlace buf.now T.kind.size T.kind.align pos) }
    ensures err { IfErr result (λ refusal. Misplaced buf.now T.kind.size T.kind.align pos refusal) }
    ensures whole { IfErr result (λ refusal.
        (lo hi : ℕ) → RefusesWhole T.kind buf.now lo hi pos refusal) }
{
    check_own_bytes(buf, pos, T::size(), T::align())
}

/// Validates a value without outlying bytes, and returns the window that it was given.
///
/// # Errors
///
/// Those of `check_place`, and `BadEntry` if the bytes are no value of the type.
pub fn check_in_place<T: Scalar>(buf: &[u8], pos: u32, window: Window) -> Result<Window, Refusal>
    requires ordered { window.lo ≤ window.hi }
    requires before { window.hi ≤ pos }
    ensures ok { IfOk result (λ left.
        (v : T.form.plain.Value)
        × MeansPlainly T.form.plain buf.now window.lo window.hi pos left.lo v) }
    ensures hi { IfOk result (λ left. left.hi ≡ window.hi) }
    ensures err { IfErr result (λ refusal.
        RefusesWhole (plain_kind T.form.plain) buf.now window.lo window.hi pos refusal) }
{
    let (size, align) = T::size_and_align();
    check_own_bytes(buf, pos, size, align)?;
    if T::is_value(buf, pos) {
        Ok(window)
    } else {
        Err(Refusal::BadEntry { pos })
    }
}

/// Validates a key or value at position `pos`, whose outlying bytes may lie from `lo` up to `hi`, and returns the start of the
/// window that it leaves.
///
/// # Errors
///
/// `BadEntry` at `pos` if the bytes mean no value.
pub fn check_part<T: CheckBytes>(buf: &[u8], pos: u32, lo: u32, hi: u32) -> Result<u32, Refusal>
    requires fitting { IsTrue T.kind.is_fitting }
    requires ordered { lo ≤ hi }
    requires before { hi ≤ pos }
    ensures gives { result ≡ or_bad pos (T.kind.leaves buf.now lo hi pos) }
    ensures within { IfOk result (λ left. (lo ≤ left) × (left ≤ hi)) }
{
    match T::check(buf, pos, Window { lo, hi }) {
        Ok(left) => Ok(left.lo),
        Err(_) => Err(Refusal::BadEntry { pos }),
    }
}
