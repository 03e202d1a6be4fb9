//! The last entry of a map in a source.
ghost use Rattle.std.specs.Prelude.{◌≡◌, ◌+◌, ◌-◌, ◌*◌, ◌≤◌, ◌<◌, ℕ, List, Some, Ok, IfErr, IfOk, IfSome, IsTrue, length};
ghost use Rattle.rkyv_btree_format.specs.Layout.{layout_of, are_fitting, inner_size, leaf_size};
ghost use Rattle.rkyv_btree_source.specs.Known.{AreOf};
ghost use Rattle.rkyv_btree_source.specs.LastEntry.{ReadsLast, most_for_last};
ghost use Rattle.rkyv_btree_source.specs.Reading.{GivesBy, IfRead, IsPart, IsTooSmall, usable};
ghost use Rattle.rkyv_btree_source.specs.Sourced.{LeavesSource};
ghost use Rattle.rkyv_btree_source.specs.mirror.Lasting.{BringsLast, EndGives, LastGives};
ghost use Rattle.rkyv_btree_source.specs.mirror.Walking.{IsHeld};
ghost use Rattle.rkyv_btree_unverified.specs.Steps.{HasRoom, HeadGives};
ghost use Rattle.rkyv_btree_view.specs.Map.{IsMap};
ghost use Rattle.rkyv_btree_walk.specs.mirror.Node.{EntryStands};

use crate::fault::SourceFault;
use crate::fetch::Fetch;
use crate::node::{count_in, node_len, read_head};
use crate::reader::Reader;
use crate::search::child_in;
use crate::source::ReadAt;
use crate::unverified_source::UnverifiedSource;
use crate::walk::{Brought, bring_entry};
use rkyv_btree_portable::refusal::Refusal;
use rkyv_btree_unverified::node::{inner_size, leaf_size};
use rkyv_btree_view::view::View;
use rkyv_btree_walk::archived_map::ArchivedMap;
use rkyv_btree_walk::shows::Shows;

/// Returns the number of entries of the node whose bytes these are, from position `node` on, and the child after them, if it has one.
fn end_in<K: Fetch, V: Fetch, M: ArchivedMap<Key = K, Mapped = V>>(
    bytes: &[u8],
    node: u32,
    hi: u32,
) -> Result<(u32, Option<u32>), Refusal>
    requires fitting { IsTrue (are_fitting K.kind V.kind M.E) }
    requires room { HasRoom K.kind V.kind M.E hi node }
    requires leaf { leaf_size (layout_of K.kind V.kind M.E) ≤ length bytes.now }
    requires inner { node + inner_size (layout_of K.kind V.kind M.E) ≤ hi
        → inner_size (layout_of K.kind V.kind M.E) ≤ length bytes.now }
    requires small { node + length bytes.now ≤ 4294967295 }
    ensures few { IfOk result (λ end. end.0 ≤ M.E) }
    ensures room { IfOk result (λ end. IfSome end.1 (HasRoom K.kind V.kind M.E node)) }
    ensures gives { (b : List ℕ) → IsPart b bytes.now node →
        EndGives K.kind V.kind M.E b hi node result }
{
    match count_in::<K, V, M>(bytes, node, hi) {
        Err(refusal) => Err(refusal),
        Ok(count) => match child_in::<K, V, M>(bytes, node, count) {
            Err(refusal) => Err(refusal),
            Ok(below) => Ok((count, below)),
        },
    }
}

/// Reads the node at `node` into `page`. Returns the number of its entries, and the child after them, if it has one.
fn read_end<S: ReadAt, K: Fetch, V: Fetch, M: ArchivedMap<Key = K, Mapped = V>>(
    node: u32,
    hi: u32,
    reader: &mut Reader<S>,
    page: &mut [u8],
) -> Result<(u32, Option<u32>), SourceFault<S::Error>>
    requires fitting { IsTrue (are_fitting K.kind V.kind M.E) }
    requires room { HasRoom K.kind V.kind M.E hi node }
    requires page { inner_size (layout_of K.kind V.kind M.E) ≤ length page.old }
    requires inside { (b : List ℕ) → AreOf (S.known reader.old.source) b →
        (length b ≤ 4294967295) × (hi ≤ length b) }
    ensures few { IfOk result (λ end. end.0 ≤ M.E) }
    ensures room { IfOk result (λ end. IfSome end.1 (HasRoom K.kind V.kind M.E node)) }
    ensures gives { (b : List ℕ) → AreOf (S.known reader.old.source) b →
        GivesBy (λ end. end) (EndGives K.kind V.kind M.E b hi node) result }
    ensures same { S.known reader.new.source ≡ S.known reader.old.source }
    ensures fails { IfErr result (IfRead (S.Fails (S.known reader.old.source))) }
    ensures caused { (n : ℕ) → IfErr result (IsTooSmall hi 0 n reader.new.left) }
    ensures left { reader.new.left ≤ reader.old.left }
    ensures spent { reader.old.left
        ≤ reader.new.left + inner_size (layout_of K.kind V.kind M.E) }
{
    let bytes = &mut page[..node_len::<K, V, M>(node, hi) as usize];
    match reader.read(node, bytes) {
        Err(fault) => return Err(fault),
        Ok(()) => {}
    }
    match end_in::<K, V, M>(bytes, node, hi) {
        Ok(end) => Ok(end),
        Err(refusal) => Err(SourceFault::Refused(refusal)),
    }
}

/// Returns the last of `count` entries of the node at `node`, or `before` if it has none.
fn last_or(before: Option<(u32, u32)>, node: u32, count: u32) -> Option<(u32, u32)>
    ensures none { count ≡ 0 → result ≡ before }
    ensures some { 0 < count → result ≡ Some (node, count - 1) }
{
    if count == 0 {
        return before;
    }
    Some((node, count - 1))
}

/// Returns the last entry of the map at `pos`, by its node and its number there: that of the lowest of the last children below the
/// root which has one.
fn find_last<S: ReadAt, K: Fetch, V: Fetch, M: ArchivedMap<Key = K, Mapped = V>>(
    pos: u32,
    root: u32,
    reader: &mut Reader<S>,
    page: &mut [u8],
) -> Result<Option<(u32, u32)>, SourceFault<S::Error>>
    requires fitting { IsTrue (are_fitting K.kind V.kind M.E) }
    requires room { HasRoom K.kind V.kind M.E pos root }
    requires page { inner_size (layout_of K.kind V.kind M.E) ≤ length page.old }
    requires inside { (b : List ℕ) → AreOf (S.known reader.old.source) b →
        (length b ≤ 4294967295) × (pos ≤ length b) }
    requires leads { (b : List ℕ) → AreOf (S.known reader.old.source) b →
        HeadGives K.kind V.kind M.E b pos (Ok (Some root)) }
    ensures within { IfOk result (λ last. IfSome last (λ e. (e.1 < M.E)
        × (e.0 + leaf_size (layout_of K.kind V.kind M.E) ≤ pos))) }
    ensures gives { (b : List ℕ) → AreOf (S.known reader.old.source) b →
        LastGives K.kind V.kind M.E b K.Refuses V.Refuses pos result }
    ensures stands { (b : List ℕ) → AreOf (S.known reader.old.source) b → (m : _) →
        IsMap K.kind V.kind M.E b pos m → IfOk result (λ last.
        IfSome last (EntryStands K.kind V.kind M.E b)) }
    ensures same { S.known reader.new.source ≡ S.known reader.old.source }
    ensures fails { IfErr result (IfRead (S.Fails (S.known reader.old.source))) }
    ensures caused { (n : ℕ) → IfErr result (IsTooSmall pos 0 n reader.new.left) }
    ensures left { reader.new.left ≤ reader.old.left }
    ensures spent { reader.old.left
        ≤ reader.new.left + 32 * inner_size (layout_of K.kind V.kind M.E) }
{
    let mut last = None;
    let mut node = root;
    let mut end = pos;
    let mut levels = 32u32;
    'down: loop {
        if levels == 0 {
            return Err(SourceFault::Refused(Refusal::TooDeep {
                pos: i64::from(node),
            }));
        }
        match read_end::<S, K, V, M>(node, end, reader, page) {
            Err(fault) => return Err(fault),
            Ok((count, below)) => {
                last = last_or(last, node, count);
                match below {
                    None => return Ok(last),
                    Some(child) => {
                        end = node;
                        node = child;
                        levels -= 1;
                    }
                }
            }
        }
    }
}

/// Brings the last entry of the map at `pos`, if it has one.
fn bring_last<S: ReadAt, K: Fetch, V: Fetch, M: ArchivedMap<Key = K, Mapped = V>>(
    pos: u32,
    reader: &mut Reader<S>,
    page: &mut [u8],
    room: &mut [u8],
) -> Result<Option<Brought>, SourceFault<S::Error>>
    requires fitting { IsTrue (are_fitting K.kind V.kind M.E) }
    requires page { inner_size (layout_of K.kind V.kind M.E) ≤ length page.old }
    requires short { length room.old ≤ 4294967295 }
    ensures held { IfOk result (λ entry. IfSome entry (IsHeld K.kind V.kind room.new)) }
    ensures brings { (b : List ℕ) → AreOf (S.known reader.old.source) b →
        BringsLast K.kind V.kind M.E b K.Refuses V.Refuses pos room.new result }
    ensures same { S.known reader.new.source ≡ S.known reader.old.source }
    ensures fails { IfErr result (IfRead (S.Fails (S.known reader.old.source))) }
    ensures caused { IfErr result (IsTooSmall (pos + 8) 0 (length room.old) reader.new.left) }
    ensures left { reader.new.left ≤ reader.old.left }
    ensures spent { reader.old.left ≤ reader.new.left
        + most_for_last (inner_size (layout_of K.kind V.kind M.E)) (pos + 8) }
{
    let root = match read_head::<S, K, V, M>(reader, pos) {
        Err(fault) => return Err(fault),
        Ok(None) => return Ok(None),
        Ok(Some(root)) => root,
    };
    match find_last::<S, K, V, M>(pos, root, reader, page) {
        Err(fault) => Err(fault),
        Ok(None) => Ok(None),
        Ok(Some((node, index))) => {
            let len = leaf_size::<K, V, M>();
            match bring_entry::<S, K, V, M>(node, index, len, reader, page, room) {
                Err(fault) => Err(fault),
                Ok(entry) => Ok(Some(entry)),
            }
        }
    }
}

impl<S: ReadAt, K: Fetch, V: Fetch, M: ArchivedMap<Key = K, Mapped = V>> UnverifiedSource<S, M> {
    /// Returns the last entry, or `None` if there is none. One node a level is read on the way to it, and then the entry. What is read
    /// goes into `lent`, where both views are.
    ///
    /// # Errors
    ///
    /// Those of a lookup. `Refused` is the first fault in what is read. `NoRoom` says that `lent` is too short: it needs `node_len`
    /// bytes, and as many as the key and the value take. These are at most twice `pos + 8`. `OverBudget` says that fewer bytes are left
    /// than there are up to the map's end, at `pos + 8`. No memory is allocated.
    ///
    /// # Examples
    ///
    /// ```rust
    /// let mut room = [0u8; 4096];
    /// let Some((name, price)) = prices.last(&mut room)? else {
    ///     return Ok(None);
    /// };
    /// ```
    pub fn last<'r>(
        &mut self,
        lent: &'r mut [u8],
    ) -> Result<Option<(View<'r, K>, View<'r, V>)>, SourceFault<S::Error>>
        ensures reads { (b : List ℕ) → AreOf (S.known self.old.reader.source) b →
            ReadsLast M.E K.Refuses V.Refuses b self.old.pos result }
        ensures source { LeavesSource (S.known self.old.reader.source)
            (S.known self.new.reader.source) S.Fails self.old.pos self.new.pos result }
        ensures caused { IfErr result (IsTooSmall (self.old.pos + 8)
            (inner_size (layout_of K.kind V.kind M.E))
            (usable (inner_size (layout_of K.kind V.kind M.E)) (length lent.old))
            self.new.reader.left) }
        ensures budget { self.new.reader.left ≤ self.old.reader.left }
        ensures spent { self.old.reader.left ≤ self.new.reader.left
            + most_for_last (inner_size (layout_of K.kind V.kind M.E)) (self.old.pos + 8) }
    {
        let page_len = inner_size::<K, V, M>();
        if lent.len() < page_len as usize {
            return Err(SourceFault::NoRoom {
                needed: u64::from(page_len),
            });
        }
        let (page, room) = lent.split_at_mut(page_len as usize);
        // No position reaches further.
        let reach = room.len().min(u32::MAX as usize);
        let room = &mut room[..reach];
        match bring_last::<S, K, V, M>(self.pos, &mut self.reader, page, room) {
            Err(SourceFault::Refused(refusal)) => Err(SourceFault::Refused(refusal)),
            Err(SourceFault::Read(error)) => Err(SourceFault::Read(error)),
            Err(SourceFault::NoRoom { needed }) => Err(SourceFault::NoRoom {
                needed: needed.saturating_add(u64::from(page_len)),
            }),
            Err(SourceFault::OverBudget) => Err(SourceFault::OverBudget),
            Ok(None) => Ok(None),
            Ok(Some(entry)) => {
                let (front, back) = room.split_at(entry.cut);
                let key = View::<K>::at(front, entry.key);
                let value = View::<V>::at(back, entry.value);
                Ok(Some((key, value)))
            }
        }
    }
}
