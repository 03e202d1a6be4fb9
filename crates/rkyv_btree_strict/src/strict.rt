//! Validation of maps and sets whose keys must increase.
ghost use Rattle.std.specs.Prelude.{◌≡◌, ◌↔◌, ◌≤◌, IsTrue, IfOk, Ok, Err};
ghost use Rattle.rkyv_btree_format.specs.Layout.{are_fitting};
ghost use Rattle.rkyv_btree_verify.specs.Map.{map_kind};
ghost use Rattle.rkyv_btree_format.specs.Read.{read_map};
ghost use Rattle.rkyv_btree_portable.specs.declared.refusal.Refusal.{Refusal};
ghost use Rattle.rkyv_btree_format.specs.OwnBytes.{own_at};
ghost use Rattle.rkyv_btree_portable.specs.declared.check.Window.{Window};
ghost use Rattle.rkyv_btree_strict.specs.Strict.{IsStrictIn, IsStrictMap, RefusesStrict};
ghost use Rattle.rkyv_btree_strict.specs.StrictOpening.{IsStrictArchive, IsStrictAccess, IsStrictOpening};
ghost use Rattle.rkyv_btree_view.specs.View.{entries_of};

use crate::order::first_out_of_order;
use crate::strict_map::Strict;
use rkyv_btree_portable::check::{CheckBytes, Window};
use rkyv_btree_portable::refusal::Refusal;
use rkyv_btree_seal::map_seal::MapSeal;
use rkyv_btree_types::map::ArchivedBTreeMap;
use rkyv_btree_types::set::ArchivedBTreeSet;
use rkyv_btree_verify::verify::verify;
use rkyv_btree_view::compare::ViewOrd;
use rkyv_btree_view::map_view::access_valid;
use rkyv_btree_view::view::View;
use rkyv_btree_walk::archived_map::ArchivedMap;
use std::marker::PhantomData;

/// The number of own bytes of a map or a set.
const ROOT_SIZE: u32 = 8;

/// Validates the map at position `pos` as `verify` does, and then that its keys increase. Returns the window that is left.
///
/// # Errors
///
/// Every error of `verify` comes before `Refusal::OutOfOrder`, which has the index of the first entry whose key isn't greater
/// than the key before it. No memory is allocated.
pub fn verify_strict<K: CheckBytes + ViewOrd, V: CheckBytes, const E: usize>(
    buf: &[u8],
    pos: u32,
    window: Window,
) -> Result<Window, Refusal>
    requires fitting { IsTrue (are_fitting K.kind V.kind E) }
    requires ordered { window.lo ≤ window.hi }
    requires before { window.hi ≤ pos }
    // The result is `Ok left` exactly for a map whose keys increase and that leaves this window.
    ensures accepts { (left : Window) →
        (result ≡ Ok left) ↔ IsStrictIn K.kind V.kind E buf.now window pos left }
    // The result is an error exactly for bytes with that error.
    ensures refuses { (e : Refusal) →
        (result ≡ Err e) ↔ RefusesStrict K.kind V.kind E buf.now window.lo window.hi pos e }
{
    let left = match verify::<K, V, E>(buf, pos, window) {
        Ok(left) => left,
        Err(refusal) => return Err(refusal),
    };
    match first_out_of_order(access_valid::<K, V, E>(buf, pos)) {
        None => Ok(left),
        Some(index) => Err(Refusal::OutOfOrder { index }),
    }
}

/// A type of maps or sets whose bytes can be validated together with the order of their keys.
pub trait CheckStrict: ArchivedMap {
    /// Validates the map or set at position `pos` in the window of all bytes before it, and then that its keys increase.
    ///
    /// # Errors
    ///
    /// As of `verify_strict`. No memory is allocated.
    fn check_strict(buf: &[u8], pos: u32) -> Result<(), Refusal>
        requires { IsTrue (are_fitting Self.Key.kind Self.Mapped.kind Self.E) }
        ensures { IsStrictAccess Self.Key.kind Self.Mapped.kind Self.E buf.now pos result };
}

impl<K: CheckBytes + ViewOrd, V: CheckBytes, const E: usize> CheckStrict
    for ArchivedBTreeMap<K, V, E> {
    fn check_strict(buf: &[u8], pos: u32) -> Result<(), Refusal> {
        check_at::<K, V, E>(buf, pos)
    }
}

impl<K: CheckBytes + ViewOrd, const E: usize> CheckStrict for ArchivedBTreeSet<K, E> {
    fn check_strict(buf: &[u8], pos: u32) -> Result<(), Refusal> {
        check_at::<K, (), E>(buf, pos)
    }
}

/// Validates the map at position `pos` in the window of all bytes before it.
fn check_at<K: CheckBytes + ViewOrd, V: CheckBytes, const E: usize>(
    buf: &[u8],
    pos: u32,
) -> Result<(), Refusal>
    requires { IsTrue (are_fitting K.kind V.kind E) }
    ensures { IsStrictAccess K.kind V.kind E buf.now pos result }
{
    match verify_strict::<K, V, E>(buf, pos, Window { lo: 0, hi: pos }) {
        Ok(_) => Ok(()),
        Err(refusal) => Err(refusal),
    }
}

/// Returns the view of the map or set at position `pos`, without validating it.
fn strict_at<'a, M: ArchivedMap>(buf: &'a [u8], pos: u32) -> Strict<'a, M>
    requires fitting { IsTrue (are_fitting M.Key.kind M.Mapped.kind M.E) }
    requires accepted { (m : _) × IsStrictMap M.Key.kind M.Mapped.kind M.E buf.now pos m }
    ensures buffer { result.view.buf.now ≡ buf.now }
    ensures position { result.view.pos ≡ pos }
    ensures entries { IsStrictMap M.Key.kind M.Mapped.kind M.E buf.now pos
        (entries_of M.Key.kind M.Mapped.kind M.E result.view) }
{
    M::closed(buf, pos);
    Strict {
        view: View {
            buf,
            pos,
            of: PhantomData,
        },
    }
}

/// Returns the view of the map or set at position `pos`, if the bytes mean one whose keys increase.
///
/// # Errors
///
/// As of `verify_strict`. No memory is allocated.
pub fn access_strict<'a, M: CheckStrict>(buf: &'a [u8], pos: u32) -> Result<Strict<'a, M>, Refusal>
    requires { IsTrue (are_fitting M.Key.kind M.Mapped.kind M.E) }
    ensures buffer { IfOk result (λ map. map.view.buf.now ≡ buf.now) }
    ensures position { IfOk result (λ map. map.view.pos ≡ pos) }
    // The result is a view exactly for a map whose keys increase, and otherwise the one error of the bytes.
    ensures exact { IsStrictAccess M.Key.kind M.Mapped.kind M.E buf.now pos result }
    // The view reads the map's list.
    ensures entries { IfOk result (λ map. IsStrictMap M.Key.kind M.Mapped.kind M.E buf.now pos
        (entries_of M.Key.kind M.Mapped.kind M.E map.view)) }
{
    match M::check_strict(buf, pos) {
        Ok(_) => Ok(strict_at(buf, pos)),
        Err(refusal) => Err(refusal),
    }
}

/// Returns the view of the map or set whose own bytes are the last of `bytes`, if these are an archive of one whose keys increase.
///
/// # Errors
///
/// Every error of `open` comes before `Refusal::OutOfOrder`. No memory is allocated.
///
/// # Examples
///
/// ```rust
/// let map = open_strict::<Prices>(bytes)?;
/// Ok(map.get_native_by(name))
/// ```
pub fn open_strict<'a, M: CheckStrict>(bytes: &'a [u8]) -> Result<Strict<'a, M>, Refusal>
    requires { IsTrue (are_fitting M.Key.kind M.Mapped.kind M.E) }
    ensures buffer { IfOk result (λ map. map.view.buf.now ≡ bytes.now) }
    ensures position { IfOk result (λ map.
        map.view.pos ≡ own_at (map_kind M.Key.kind M.Mapped.kind M.E) bytes.now) }
    // The result is a view exactly for an archive of a map whose keys increase, and otherwise the one error of the bytes.
    ensures exact { IsStrictOpening M.Key.kind M.Mapped.kind M.E bytes.now result }
    // The view reads the archive's list.
    ensures entries { IfOk result (λ map. IsStrictArchive M.Key.kind M.Mapped.kind M.E bytes.now
        (entries_of M.Key.kind M.Mapped.kind M.E map.view)) }
{
    let Ok(len) = u32::try_from(bytes.len()) else {
        return Err(Refusal::TooLong);
    };
    let at = len.saturating_sub(ROOT_SIZE);
    access_strict(bytes, at)
}

/// Validates a whole archive as `open_strict` does, and returns its map for in-place updates. These change no key, so the keys
/// still increase afterwards.
///
/// # Errors
///
/// As of `open_strict`. All bytes are unchanged.
pub fn open_strict_mut<'a, M: CheckStrict>(bytes: &'a mut [u8]) -> Result<MapSeal<'a, M>, Refusal>
    requires { IsTrue (are_fitting M.Key.kind M.Mapped.kind M.E) }
    ensures same_reference { IfOk result (λ map. map.buf.ghost_name ≡ bytes.entry.ghost_name) }
    ensures buffer { IfOk result (λ map. map.buf.now ≡ bytes.entry.now) }
    ensures position { IfOk result (λ map.
        map.pos ≡ own_at (map_kind M.Key.kind M.Mapped.kind M.E) bytes.entry.now) }
    // The result is a seal exactly for an archive of a map whose keys increase, and otherwise the one error of the bytes.
    ensures exact { IsStrictOpening M.Key.kind M.Mapped.kind M.E bytes.entry.now result }
    // The seal reads the archive's list.
    ensures entries { IfOk result (λ map.
        IsStrictArchive M.Key.kind M.Mapped.kind M.E bytes.entry.now
        (read_map M.Key.kind M.Mapped.kind M.E map.buf.now map.pos)) }
{
    match open_strict::<M>(bytes) {
        Ok(map) => {
            let pos = map.view.pos;
            Ok(MapSeal::at(bytes, pos))
        }
        Err(refusal) => Err(refusal),
    }
}
