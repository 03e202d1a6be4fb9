//! Maps in a source of bytes that nobody has validated.
ghost use Rattle.std.specs.Prelude.{◌≡◌, ◌+◌, ◌≤◌, ◌<◌, ℕ, List, Some, None, Ok, Err, IfOk, IfErr, IsTrue, length};
ghost use Rattle.rkyv_btree_format.specs.Layout.{are_fitting, layout_of, inner_size};
ghost use Rattle.rkyv_btree_verify.specs.Map.{map_kind};
ghost use Rattle.rkyv_btree_portable.specs.declared.refusal.Refusal.TheVariants.{TooLong};
ghost use Rattle.rkyv_btree_format.specs.OwnBytes.{own_at};
ghost use Rattle.rkyv_btree_source.specs.Reading.{IfRead, IfRefused, IsOfSize};
ghost use Rattle.rkyv_btree_source.specs.Sourced.{IsBounded, LeavesSource, ReadsParts, ReadsValue, ReadsWhether};
ghost use Rattle.rkyv_btree_view.specs.Lookup.{ByNative};
ghost use Rattle.rkyv_btree_source.specs.Known.{AreOf};

use crate::fault::SourceFault;
use crate::fetch::Fetch;
use crate::reader::Reader;
use crate::source::ReadAt;
use crate::tree::search;
use rkyv_btree_portable::check::Portable;
use rkyv_btree_portable::refusal::Refusal;
use rkyv_btree_unverified::node::inner_size;
use rkyv_btree_view::compare_native::CompareWith;
use rkyv_btree_view::view::View;
use rkyv_btree_walk::archived_map::ArchivedMap;
use rkyv_btree_walk::shows::Shows;
use std::marker::PhantomData;

/// A position in a source of bytes, at which lookups look for a map or a set of type `M`. Each lookup reads the map's own bytes,
/// one node a level, the texts that it compares, and the value that it finds. It validates what it reads.
///
/// `Ok(None)` doesn't mean that the key is absent, since the bytes may be no map.
#[derive(Drop)]
pub struct UnverifiedSource<S, M: ArchivedMap> {
    /// The source, and how many more bytes all lookups together may read.
    pub reader: Reader<S>,
    pub pos: u32,
    pub of: PhantomData<M>,
    // So a lookup asks nothing of its caller.
    pub ghost fitting: { IsTrue (are_fitting M.Key.kind M.Mapped.kind M.E) },
}

impl<S: ReadAt, K: Portable, V: Portable, M: ArchivedMap<Key = K, Mapped = V>> UnverifiedSource<
    S,
    M,
> {
    /// Returns the position `pos` of a source, of which all lookups together may read `budget` bytes. Nothing is read.
    pub fn new(source: S, pos: u32, budget: u64) -> UnverifiedSource<S, M>
        requires { IsTrue (are_fitting K.kind V.kind M.E) }
        ensures source { result.reader.source ≡ source }
        ensures budget { result.reader.left ≡ budget }
        ensures position { result.pos ≡ pos }
    {
        UnverifiedSource {
            reader: Reader {
                source,
                left: budget,
            },
            pos,
            of: PhantomData,
        }
    }

    /// Returns the position of the own bytes of a whole archive, which are the last eight of the source. Nothing is read but the
    /// number of bytes.
    ///
    /// # Errors
    ///
    /// `Refused(TooLong)` if positions of 32 bits don't reach all bytes; `Read` if the source fails.
    ///
    /// # Examples
    ///
    /// ```rust
    /// let source = SeekSource { file };
    /// let mut prices = UnverifiedSource::<SeekSource<File>, Prices>::open(source, BUDGET)?;
    /// ```
    pub fn open(source: S, budget: u64) -> Result<UnverifiedSource<S, M>, SourceFault<S::Error>>
    where
        S: Drop,
        requires { IsTrue (are_fitting K.kind V.kind M.E) }
        ensures source { IfOk result (λ map. S.known map.reader.source ≡ S.known source) }
        ensures budget { IfOk result (λ map. map.reader.left ≡ budget) }
        ensures position { (b : List ℕ) → AreOf (S.known source) b →
            IfOk result (λ map. map.pos ≡ own_at (map_kind K.kind V.kind M.E) b) }
        ensures refused { (b : List ℕ) → AreOf (S.known source) b →
            IfErr result (IfRefused (λ refusal. (refusal ≡ TooLong) × (4294967295 < length b))) }
        // No budget is too small to open a source.
        ensures caused { IfErr result (IsOfSize (λ refusal. refusal ≡ TooLong)) }
        ensures fails { IfErr result (IfRead (S.Fails (S.known source))) }
    {
        let mut reader = Reader {
            source,
            left: budget,
        };
        let size = match reader.size() {
            Ok(size) => size,
            Err(fault) => return Err(fault),
        };
        let Ok(len) = u32::try_from(size) else {
            return Err(SourceFault::Refused(Refusal::TooLong));
        };
        Ok(UnverifiedSource {
            reader,
            pos: len.saturating_sub(8),
            of: PhantomData,
        })
    }

    /// Returns how many more bytes all lookups together may read.
    pub fn budget_left(&self) -> u64
        ensures { result ≡ self.now.reader.left }
    {
        self.reader.left
    }

    /// Returns how many bytes of a lent buffer a node takes. Each lookup needs so many, and room for a value and its texts.
    pub fn node_len() -> u32
        requires { IsTrue (are_fitting K.kind V.kind M.E) }
        ensures { result ≡ inner_size (layout_of K.kind V.kind M.E) }
    {
        inner_size::<K, V, M>()
    }
}

impl<S: ReadAt, K: Fetch, V: Fetch, M: ArchivedMap<Key = K, Mapped = V>> UnverifiedSource<S, M> {
    /// Returns the value of an entry whose key is equal to a native value. What is read goes into `lent`, where the view is.
    ///
    /// # Errors
    ///
    /// `Refused` is the first fault in what the search reads. `Read` is the source's own error. `NoRoom` says that `lent` is too
    /// short. It needs `node_len` bytes, and at most as many more as there are up to the map's end, at `pos + 8`. `OverBudget` says
    /// that the next part has more bytes than the budget has left, which are then fewer than `pos + 8`. No memory is allocated.
    ///
    /// # Examples
    ///
    /// ```rust
    /// let mut room = [0u8; 4096];
    /// match prices.get_by(name.as_str(), &mut room)? {
    ///     Some(price) => println!(rt; "{name}: {}", price.to_native())?,
    ///     None => println!(rt; "{name}: not found")?,
    /// }
    /// ```
    pub fn get_by<'r, T: Drop>(
        &mut self,
        key: T,
        lent: &'r mut [u8],
    ) -> Result<Option<View<'r, V>>, SourceFault<S::Error>>
    where
        K: CompareWith<T>,
        ensures same_as { (b : List ℕ) → AreOf (S.known self.old.reader.source) b →
            ReadsValue K.kind M.E K.Refuses V.Refuses b self.old.pos
            (ByNative K.kind K.compared_at key) result }
        ensures reads { (b : List ℕ) → AreOf (S.known self.old.reader.source) b →
            ReadsParts K.kind V.kind M.E K.lengths V.lengths b self.old.pos
            (ByNative K.kind K.compared_at key) (length lent.old) self.old.reader.left
            self.new.reader.left result }
        ensures bounded { IsBounded M.E (S.known self.old.reader.source) (self.old.pos + 8)
            (inner_size (layout_of K.kind V.kind M.E)) (length lent.old) self.old.reader.left
            self.new.reader.left result }
        ensures source { LeavesSource (S.known self.old.reader.source)
            (S.known self.new.reader.source) S.Fails self.old.pos self.new.pos result }
    {
        let page_len = inner_size::<K, V, M>();
        if lent.len() < page_len as usize {
            return Err(SourceFault::NoRoom {
                needed: u64::from(page_len),
            });
        }
        let (page, room) = lent.split_at_mut(page_len as usize);
        // No position reaches further.
        let reach = room.len().min(u32::MAX as usize);
        let room = &mut room[..reach];
        match search::<S, T, K, V, M>(self.pos, &key, &mut self.reader, room, page) {
            Err(SourceFault::Refused(refusal)) => Err(SourceFault::Refused(refusal)),
            Err(SourceFault::Read(error)) => Err(SourceFault::Read(error)),
            Err(SourceFault::NoRoom { needed }) => Err(SourceFault::NoRoom {
                needed: needed.saturating_add(u64::from(page_len)),
            }),
            Err(SourceFault::OverBudget) => Err(SourceFault::OverBudget),
            Ok(None) => Ok(None),
            Ok(Some(hit)) => Ok(Some(View::<V>::at(room, hit.value))),
        }
    }

    /// Returns whether `get_by` finds a value.
    ///
    /// # Errors
    ///
    /// Those of `get_by`.
    pub fn contains_by<T: Drop>(
        &mut self,
        key: T,
        lent: &mut [u8],
    ) -> Result<bool, SourceFault<S::Error>>
    where
        K: CompareWith<T>,
        ensures same_as { (b : List ℕ) → AreOf (S.known self.old.reader.source) b →
            ReadsWhether K.kind V.kind M.E K.Refuses V.Refuses b self.old.pos
            (ByNative K.kind K.compared_at key) result }
        ensures reads { (b : List ℕ) → AreOf (S.known self.old.reader.source) b →
            ReadsParts K.kind V.kind M.E K.lengths V.lengths b self.old.pos
            (ByNative K.kind K.compared_at key) (length lent.old) self.old.reader.left
            self.new.reader.left result }
        ensures bounded { IsBounded M.E (S.known self.old.reader.source) (self.old.pos + 8)
            (inner_size (layout_of K.kind V.kind M.E)) (length lent.old) self.old.reader.left
            self.new.reader.left result }
        ensures source { LeavesSource (S.known self.old.reader.source)
            (S.known self.new.reader.source) S.Fails self.old.pos self.new.pos result }
    {
        match self.get_by(key, lent) {
            Err(fault) => Err(fault),
            Ok(found) => Ok(found.is_some()),
        }
    }
}
