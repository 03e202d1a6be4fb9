//! Ranges of the entries of maps in a source.
ghost use Rattle.std.specs.Prelude.{◌≡◌, ◌+◌, ◌*◌, ◌≤◌, ◌<◌, ℕ, List, [], IfErr, IfOk, IfSome, IsTrue, false, length};
ghost use Rattle.rkyv_btree_format.specs.Layout.{layout_of, are_fitting, inner_size};
ghost use Rattle.rkyv_btree_source.specs.Known.{AreOf};
ghost use Rattle.rkyv_btree_source.specs.Reading.{IfRead, IfRefused, IsTooSmall, usable};
ghost use Rattle.rkyv_btree_source.specs.laws.Walking.{placed-prop, walks-prop};
ghost use Rattle.rkyv_btree_source.specs.mirror.Walking.{AreWalks, IsHeld, IsPlaced, refuses};
ghost use Rattle.rkyv_btree_unverified.specs.Left.{most_of};
ghost use Rattle.rkyv_btree_unverified.specs.EntriesFrom.{places_from};
ghost use Rattle.rkyv_btree_unverified.specs.Walks.{Fails};
ghost use Rattle.rkyv_btree_unverified.specs.Ways.{places_left};
ghost use Rattle.rkyv_btree_unverified.specs.mirror.Walked.{IsCounted, walk_most};

use crate::fault::SourceFault;
use crate::fetch::Fetch;
use crate::reader::Reader;
use crate::seek::begin;
use crate::source::ReadAt;
use crate::unverified_source::UnverifiedSource;
use crate::walk::{Brought, step};
use rkyv_btree_unverified::node::{inner_size, leaf_size};
use rkyv_btree_unverified::range::is_past;
use rkyv_btree_unverified::walk::{Phase, UnverifiedWalk};
use rkyv_btree_view::compare_native::CompareWith;
use rkyv_btree_view::view::View;
use rkyv_btree_walk::archived_map::ArchivedMap;
use rkyv_btree_walk::path::Path;
use rkyv_btree_walk::shows::Shows;
use std::marker::PhantomData;
use std::ops::RangeBounds;

/// The entries of a map in a source whose keys are in a range, in order. Each entry is read when it is asked for.
#[derive(Drop)]
pub struct SourceRange<S: ReadAt, M: ArchivedMap, T, R> {
    map: UnverifiedSource<S, M>,
    // There is none before the first entry is sought.
    walk: Option<UnverifiedWalk>,
    range: R,
    by: PhantomData<T>,
    ghost placed: { IfSome walk (IsPlaced M.Key.kind M.Mapped.kind M.E map.pos) } by { placed-prop M.Key.kind M.Mapped.kind M.E map.pos walk },
    ghost walks: { AreWalks M.Key.kind M.Mapped.kind M.E (S.known map.reader.source) map.pos walk } by { walks-prop M.Key.kind M.Mapped.kind M.E (S.known map.reader.source) map.pos walk },
}

/// Returns whether a call says that the bytes are no map.
fn is_refused<T, E>(call: &Result<T, SourceFault<E>>) -> bool
    ensures { result ≡ refuses call.now }
{
    match call {
        Err(SourceFault::Refused(_)) => true,
        _ => false,
    }
}

/// Returns a walk along the map at `pos` that begins at the first entry that isn't before a range.
fn begin_walk<
    S: ReadAt,
    T,
    K: Fetch + CompareWith<T>,
    V: Fetch,
    M: ArchivedMap<Key = K, Mapped = V>,
    R: RangeBounds<T>,
>(
    pos: u32,
    range: &R,
    reader: &mut Reader<S>,
    page: &mut [u8],
    room: &mut [u8],
) -> Result<UnverifiedWalk, SourceFault<S::Error>>
    requires fitting { IsTrue (are_fitting K.kind V.kind M.E) }
    requires page { inner_size (layout_of K.kind V.kind M.E) ≤ length page.old }
    requires short { length room.old ≤ 4294967295 }
    ensures placed { IfOk result (IsPlaced K.kind V.kind M.E pos) }
    ensures counted { (b : List ℕ) → AreOf (S.known reader.old.source) b →
        IfOk result (IsCounted K.kind V.kind M.E b pos) }
    ensures sought { (b : List ℕ) → AreOf (S.known reader.old.source) b → R.has_bounds range.now →
        IfOk result (λ walk. places_left K.kind V.kind M.E b pos walk
        ≡ places_from K.kind V.kind M.E K.compared_at b (R.start_bound range.now) pos) }
    ensures refused { (b : List ℕ) → AreOf (S.known reader.old.source) b →
        IfErr result (IfRefused (Fails K.kind V.kind M.E b K.Refuses V.Refuses pos)) }
    ensures turns { IfOk result (λ walk. walk_most M.E walk ≤ M.E * 18446744073709551615) }
    ensures same { S.known reader.new.source ≡ S.known reader.old.source }
    ensures fails { IfErr result (IfRead (S.Fails (S.known reader.old.source))) }
    ensures caused { IfErr result (IsTooSmall (pos + 8) 0 (length room.old) reader.new.left) }
    ensures left { reader.new.left ≤ reader.old.left }
{
    let size = match reader.size() {
        Ok(size) => size,
        Err(fault) => return Err(fault),
    };
    let mut walk = UnverifiedWalk {
        path: Path::new(),
        node: 0,
        next: 0,
        end: 0,
        nodes: (size / u64::from(leaf_size::<K, V, M>())) as usize,
        taken: 0,
        phase: Phase::Descend,
    };
    match begin::<S, T, K, V, M>(pos, range.start_bound(), &mut walk, reader, page, room) {
        Ok(()) => Ok(walk),
        Err(fault) => Err(fault),
    }
}

impl<S: ReadAt, K: Fetch, V: Fetch, M: ArchivedMap<Key = K, Mapped = V>> UnverifiedSource<S, M> {
    ghost use Rattle.rkyv_btree_source.specs.SourceRange.{AreBetween, bounds_of, source_left, source_of};

    /// Returns the entries whose keys are in a range of native values, as `3..=9` or `"b"..`, in order. Nothing is read until the first is
    /// asked for. The result holds the map: `into_source` gives it back.
    ///
    /// # Examples
    ///
    /// ```rust
    /// let mut entries = prices.range_of(first..);
    /// let mut room = [0u8; 4096];
    /// let mut page = Vec::new(alloc);
    /// for _ in 0..count {
    ///     let Some((name, price)) = entries.next(&mut room)? else {
    ///         break;
    ///     };
    ///     page.push((String::from_str(alloc, name.as_str())?, price.to_native()))?;
    /// }
    /// ```
    pub fn range_of<T: Drop, R: RangeBounds<T>>(self, range: R) -> SourceRange<S, M, T, R>
    where
        K: CompareWith<T>,
        ensures source { source_of result ≡ self }
        ensures bounds { bounds_of result ≡ range }
        ensures left { (b : List ℕ) → AreOf (S.known self.reader.source) b → R.has_bounds range →
            AreBetween K.kind V.kind M.E b self.pos K.compared_at (R.start_bound range)
            (R.end_bound range)
            (source_left b K.compared_at R.start_bound R.end_bound result) }
    {
        SourceRange {
            map: self,
            walk: None,
            range,
            by: PhantomData,
        }
    }
}

impl<
    S: ReadAt + Drop,
    T: Drop,
    K: Fetch + CompareWith<T>,
    V: Fetch,
    M: ArchivedMap<Key = K, Mapped = V>,
    R: RangeBounds<T>,
> SourceRange<S, M, T, R> {
    ghost use Rattle.rkyv_btree_source.specs.SourceRange.{BringsNext, YieldsNext, bounds_of, most_to_come, places_to_come, source_of, turns_left, turns_to_come};
    ghost use Rattle.rkyv_btree_source.specs.Sourced.{LeavesSource};

    /// Takes the walk as far as it has come, or one that begins. If none can begin, none has begun.
    fn take_walk(
        &mut self,
        page: &mut [u8],
        room: &mut [u8],
    ) -> Result<UnverifiedWalk, SourceFault<S::Error>>
        requires page { inner_size (layout_of K.kind V.kind M.E) ≤ length page.old }
        requires short { length room.old ≤ 4294967295 }
        ensures placed { IfOk result (IsPlaced K.kind V.kind M.E self.old.map.pos) }
        ensures counted { (b : List ℕ) → AreOf (S.known self.old.map.reader.source) b →
            IfOk result (IsCounted K.kind V.kind M.E b self.old.map.pos) }
        ensures sought { (b : List ℕ) → AreOf (S.known self.old.map.reader.source) b →
            R.has_bounds self.old.range → IfOk result (λ walk.
            places_left K.kind V.kind M.E b self.old.map.pos walk
            ≡ places_to_come K.kind V.kind M.E b self.old.map.pos K.compared_at
            (R.start_bound self.old.range) (R.end_bound self.old.range) self.old.walk) }
        ensures most { (b : List ℕ) → IfOk result (λ walk. most_of K.kind V.kind M.E b walk
            ≤ most_to_come K.kind V.kind M.E b self.old.map.pos self.old.walk) }
        ensures turns { IfOk result (λ walk. walk_most M.E walk ≤ turns_to_come M.E self.old.walk) }
        ensures refused { (b : List ℕ) → AreOf (S.known self.old.map.reader.source) b →
            IfErr result (IfRefused (Fails K.kind V.kind M.E b K.Refuses V.Refuses
            self.old.map.pos)) }
        ensures kept { IfErr result (λ _. self.new.walk ≡ self.old.walk) }
        ensures others { (self.new.range ≡ self.old.range)
            × (self.new.map.pos ≡ self.old.map.pos)
            × (S.known self.new.map.reader.source ≡ S.known self.old.map.reader.source) }
        ensures fails { IfErr result (IfRead (S.Fails (S.known self.old.map.reader.source))) }
        ensures caused { IfErr result (IsTooSmall (self.old.map.pos + 8) 0 (length room.old)
            self.new.map.reader.left) }
        ensures left { self.new.map.reader.left ≤ self.old.map.reader.left }
    {
        match self.walk.take() {
            Some(walk) => Ok(walk),
            None => {
                let pos = self.map.pos;
                begin_walk::<S, T, K, V, M, R>(pos, &self.range, &mut self.map.reader, page, room)
            }
        }
    }

    /// Brings the next entry, whether it is past the end of the range or not.
    fn bring(
        &mut self,
        page: &mut [u8],
        room: &mut [u8],
    ) -> Result<Option<Brought>, SourceFault<S::Error>>
        requires page { inner_size (layout_of K.kind V.kind M.E) ≤ length page.old }
        requires short { length room.old ≤ 4294967295 }
        ensures held { IfOk result (λ entry. IfSome entry (IsHeld K.kind V.kind room.new)) }
        ensures brings { (b : List ℕ) → AreOf (S.known self.old.map.reader.source) b →
            R.has_bounds self.old.range → BringsNext K.kind V.kind M.E b self.old.map.pos
            K.compared_at (R.start_bound self.old.range) (R.end_bound self.old.range)
            K.Refuses V.Refuses self.old.walk self.new.walk room.new result }
        ensures turns { IfOk result (λ entry. IfSome entry (λ _.
            turns_to_come M.E self.new.walk < turns_to_come M.E self.old.walk)) }
        ensures turns_kept { refuses result ≡ false →
            turns_to_come M.E self.new.walk ≤ turns_to_come M.E self.old.walk }
        ensures others { (self.new.range ≡ self.old.range)
            × (self.new.map.pos ≡ self.old.map.pos)
            × (S.known self.new.map.reader.source ≡ S.known self.old.map.reader.source) }
        ensures fails { IfErr result (IfRead (S.Fails (S.known self.old.map.reader.source))) }
        ensures caused { IfErr result (IsTooSmall (self.old.map.pos + 8) 0 (length room.old)
            self.new.map.reader.left) }
        ensures left { self.new.map.reader.left ≤ self.old.map.reader.left }
    {
        let mut walk = match self.take_walk(page, room) {
            Ok(walk) => walk,
            Err(fault) => return Err(fault),
        };
        let pos = self.map.pos;
        let taken = step::<S, K, V, M>(pos, &mut walk, &mut self.map.reader, page, room);
        if !is_refused(&taken) {
            self.walk = Some(walk);
        }
        taken
    }

    /// Ends the range: no entry is left.
    fn end(&mut self)
        ensures over { (b : List ℕ) → places_to_come K.kind V.kind M.E b self.old.map.pos K.compared_at
            (R.start_bound self.old.range) (R.end_bound self.old.range) self.new.walk ≡ [] }
        ensures none { (b : List ℕ) → most_to_come K.kind V.kind M.E b self.old.map.pos self.new.walk ≡ 0 }
        ensures turns { turns_to_come M.E self.new.walk ≡ 0 }
        ensures range { self.new.range ≡ self.old.range }
        ensures map { self.new.map ≡ self.old.map }
    {
        self.walk = Some(UnverifiedWalk {
            path: Path::new(),
            node: 0,
            next: 0,
            end: 0,
            nodes: 0,
            taken: 0,
            phase: Phase::Over,
        });
    }

    /// Returns the next entry, or `None` if none is left. What is read goes into `lent`, where both views are.
    ///
    /// # Errors
    ///
    /// Those of a lookup. `Refused` is the first fault in what is read, and after it nothing is left. After `Read`, `NoRoom` and
    /// `OverBudget` the same entries are left as before: a call with a longer buffer goes on. `NoRoom` says that `lent` is too short:
    /// it needs `node_len` bytes, and as many as the key and the value take. These are at most twice `pos + 8`. `OverBudget` says that fewer bytes are left than there are up
    /// to the map's end, at `pos + 8`. No memory is allocated.
    pub fn next<'r>(
        &mut self,
        lent: &'r mut [u8],
    ) -> Result<Option<(View<'r, K>, View<'r, V>)>, SourceFault<S::Error>>
        ensures yields { (b : List ℕ) → AreOf (S.known (source_of self.old).reader.source) b →
            R.has_bounds (bounds_of self.old) → YieldsNext b K.compared_at R.start_bound
            R.end_bound K.Refuses V.Refuses self.old self.new result }
        // On all sources a range ends: each entry makes a number smaller, and no call makes it greater.
        ensures turns { IfOk result (λ found. IfSome found (λ _.
            turns_left self.new < turns_left self.old)) }
        ensures turns_kept { turns_left self.new ≤ turns_left self.old }
        ensures source { LeavesSource (S.known (source_of self.old).reader.source)
            (S.known (source_of self.new).reader.source) S.Fails (source_of self.old).pos
            (source_of self.new).pos result }
        ensures bounds { bounds_of self.new ≡ bounds_of self.old }
        ensures caused { IfErr result (IsTooSmall ((source_of self.old).pos + 8)
            (inner_size (layout_of K.kind V.kind M.E))
            (usable (inner_size (layout_of K.kind V.kind M.E)) (length lent.old))
            (source_of self.new).reader.left) }
        ensures budget { (source_of self.new).reader.left ≤ (source_of self.old).reader.left }
    {
        let page_len = inner_size::<K, V, M>();
        if lent.len() < page_len as usize {
            return Err(SourceFault::NoRoom {
                needed: u64::from(page_len),
            });
        }
        let (page, room) = lent.split_at_mut(page_len as usize);
        // No position reaches further.
        let reach = room.len().min(u32::MAX as usize);
        let room = &mut room[..reach];
        match self.bring(page, room) {
            Err(SourceFault::Refused(refusal)) => {
                self.end();
                Err(SourceFault::Refused(refusal))
            }
            Err(SourceFault::Read(error)) => Err(SourceFault::Read(error)),
            Err(SourceFault::NoRoom { needed }) => Err(SourceFault::NoRoom {
                needed: needed.saturating_add(u64::from(page_len)),
            }),
            Err(SourceFault::OverBudget) => Err(SourceFault::OverBudget),
            Ok(None) => Ok(None),
            Ok(Some(entry)) => {
                let (front, back) = room.split_at(entry.cut);
                let key = View::<K>::at(front, entry.key);
                if is_past::<T, K, R>(&self.range, &key) {
                    self.end();
                    return Ok(None);
                }
                Ok(Some((key, View::<V>::at(back, entry.value))))
            }
        }
    }

    /// Returns the map, whose entries are then no longer asked for.
    pub fn into_source(self) -> UnverifiedSource<S, M>
        ensures { result ≡ source_of self }
    {
        self.map
    }
}
