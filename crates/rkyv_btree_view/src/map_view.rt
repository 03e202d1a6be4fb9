//! Archived maps, read in place: where a view of one is made, and how many entries it has.
ghost use Rattle.std.specs.Prelude.{◌≡◌, ◌↔◌, ◌≤◌, [], IsTrue, IsOk, IfOk, Err, length};
ghost use Rattle.rkyv_btree_portable.specs.declared.refusal.Refusal.{Refusal};
ghost use Rattle.rkyv_btree_verify.specs.Refusals.{RefusesMap};
ghost use Rattle.rkyv_btree_format.specs.Layout.{are_fitting};
ghost use Rattle.rkyv_btree_view.specs.Map.{IsMap};
ghost use Rattle.rkyv_btree_view.specs.View.{view_value, entries_of};

use crate::view::View;
use rkyv_btree_portable::check::{CheckBytes, Portable};
use rkyv_btree_portable::refusal::Refusal;
use rkyv_btree_types::map::ArchivedBTreeMap;
use rkyv_btree_walk::archived_map::{ArchivedMap, map_len};
use std::marker::PhantomData;

/// A type of maps whose views show entries. A set is a map too, but its views show its keys alone, by calls of the same
/// names.
pub trait ShowsEntries {}

impl<K, V, const E: usize> ShowsEntries for ArchivedBTreeMap<K, V, E> {}

/// Returns the view of the map at position `pos`, if the bytes mean a list of entries in the window of all bytes before it.
///
/// # Errors
///
/// The first error of `verify`. No memory is allocated.
///
/// # Examples
///
/// ```rust
/// let map = access::<K, V, E>(buf, pos)?;
/// ```
pub fn access<'a, K: CheckBytes, V: CheckBytes, const E: usize>(
    buf: &'a [u8],
    pos: u32,
) -> Result<View<'a, ArchivedBTreeMap<K, V, E>>, Refusal>
    requires { IsTrue (are_fitting K.kind V.kind E) }
    ensures buffer { IfOk result (λ map. map.buf.now ≡ buf.now) }
    ensures position { IfOk result (λ map. map.pos ≡ pos) }
    // The result is a view exactly for bytes that mean a list, and the view reads that list.
    ensures accepts { IsOk result ↔ ((m : _) × IsMap K.kind V.kind E buf.now pos m) }
    ensures entries { IfOk result (λ map.
        IsMap K.kind V.kind E buf.now pos (entries_of K.kind V.kind E map)) }
    // The result is an error exactly for bytes with that error.
    ensures refuses { (refusal : Refusal) →
        (result ≡ Err refusal) ↔ RefusesMap K.kind V.kind E buf.now 0 pos pos refusal }
{
    View::<ArchivedBTreeMap<K, V, E>>::check(buf, pos)
}

/// Returns the view of the map at position `pos` without validating it. Requires that the bytes mean a list of entries in the
/// window of all bytes before it: `access` is the test. No byte is read.
pub fn access_valid<'a, K: Portable, V: Portable, const E: usize>(
    buf: &'a [u8],
    pos: u32,
) -> View<'a, ArchivedBTreeMap<K, V, E>>
    requires fitting { IsTrue (are_fitting K.kind V.kind E) }
    requires accepted { (m : _) × IsMap K.kind V.kind E buf.now pos m }
    ensures buffer { result.buf.now ≡ buf.now }
    ensures position { result.pos ≡ pos }
    ensures value { (m : _) → IsMap K.kind V.kind E buf.now pos m → view_value result ≡ m }
{
    View {
        buf,
        pos,
        of: PhantomData,
    }
}

impl<'a, K: Portable, V: Portable, M: ArchivedMap<Key = K, Mapped = V> + ShowsEntries> View<'a, M> {
    /// Returns the number of entries, which is read from the map's own bytes. It has 32 bits.
    pub fn len(self) -> usize
        ensures entries { result ≡ length (entries_of K.kind V.kind M.E self.entry) }
        ensures small { result ≤ 4294967295 }
    {
        map_len::<K, V, M>(self.buf, self.pos) as usize
    }

    /// Returns whether there are no entries.
    pub fn is_empty(self) -> bool
        ensures { IsTrue result ↔ (entries_of K.kind V.kind M.E self.entry ≡ []) }
    {
        self.len() == 0
    }
}
