//! The search of a map in a source of bytes.
ghost use Rattle.std.specs.Prelude.{◌≡◌, ◌+◌, ◌*◌, ◌≤◌, ◌<◌, ℕ, List, Option, Some, Ok, IsTrue, IfErr, IfOk, IfSome, length};
ghost use Rattle.std.specs.declared.cmp.Ordering.{Ordering as Comparison};
ghost use Rattle.rkyv_btree_format.specs.Layout.{layout_of, are_fitting, inner_size};
ghost use Rattle.rkyv_btree_portable.specs.Views.{stands};
ghost use Rattle.rkyv_btree_source.specs.Reading.{IfRead, GivesBy, IsCaused, most_read};
ghost use Rattle.rkyv_btree_source.specs.Reads.{EachFits, Lacks, NodeBytes, Reads, Takes};
ghost use Rattle.rkyv_btree_source.specs.mirror.Found.{entry_of, FromFits, HitReads};
ghost use Rattle.rkyv_btree_unverified.specs.Lookups.{LookupGives, TreeGives};
ghost use Rattle.rkyv_btree_unverified.specs.Steps.{HasRoom};
ghost use Rattle.rkyv_btree_source.specs.Known.{AreOf};

use crate::fault::SourceFault;
use crate::fetch::Fetch;
use crate::node::read_head;
use crate::reader::Reader;
use crate::search::{Hit, Step, search_node};
use crate::source::ReadAt;
use rkyv_btree_portable::refusal::Refusal;
use rkyv_btree_view::compare_native::CompareWith;
use rkyv_btree_walk::archived_map::ArchivedMap;

/// The search of the tree at `root`, where a leaf has room before `hi`, of at most 32 levels.
fn search_tree<
    S: ReadAt,
    T,
    K: Fetch + CompareWith<T>,
    V: Fetch,
    M: ArchivedMap<Key = K, Mapped = V>,
>(
    root: u32,
    hi: u32,
    key: &T,
    reader: &mut Reader<S>,
    room: &mut [u8],
    page: &mut [u8],
) -> Result<Option<Hit>, SourceFault<S::Error>>
    requires fitting { IsTrue (are_fitting K.kind V.kind M.E) }
    requires room { HasRoom K.kind V.kind M.E hi root }
    requires short { length room.old ≤ 4294967295 }
    requires page { inner_size (layout_of K.kind V.kind M.E) ≤ length page.old }
    requires inside { (b : List ℕ) → AreOf (S.known reader.old.source) b →
        (length b ≤ 4294967295) × (hi ≤ length b) }
    ensures valid { IfOk result (λ found. IfSome found (λ hit.
        IsTrue (stands V.kind room.new hit.value))) }
    ensures gives { (b : List ℕ) → AreOf (S.known reader.old.source) b →
        (compared : T → K.kind.Value → Comparison) →
        ((n : T) (c : List ℕ) (at : ℕ) → K.compared_at n c at ≡ compared n (K.kind.read c at)) →
        GivesBy entry_of (TreeGives K.kind V.kind M.E b (compared key.now)
        K.Refuses V.Refuses 32 hi root) result }
    ensures value { (b : List ℕ) → AreOf (S.known reader.old.source) b →
        IfOk result (λ found. IfSome found (HitReads K.kind V.kind M.E b room.new)) }
    ensures same { S.known reader.new.source ≡ S.known reader.old.source }
    ensures fails { IfErr result (IfRead (S.Fails (S.known reader.old.source))) }
    ensures left { reader.new.left ≤ reader.old.left }
    ensures spent { reader.old.left ≤ reader.new.left + 32 * ((M.E + 2) * hi) }
    ensures caused { IfErr result
        (IsCaused hi 0 (length room.old) reader.new.left) }
    ensures takes { (b : List ℕ) → AreOf (S.known reader.old.source) b →
        (compared : T → K.kind.Value → Comparison) →
        ((n : T) (c : List ℕ) (at : ℕ) → K.compared_at n c at ≡ compared n (K.kind.read c at)) →
        (at before : ℕ) → Reads K.kind V.kind M.E b K.lengths V.lengths (compared key.now) at
        before (NodeBytes hi root) → IfOk result (λ _. (all : ℕ)
        × Takes K.kind V.kind M.E b K.lengths V.lengths (compared key.now) at all
        × (before + reader.old.left ≡ reader.new.left + all)) }
    ensures lacks { (b : List ℕ) → AreOf (S.known reader.old.source) b →
        (compared : T → K.kind.Value → Comparison) →
        ((n : T) (c : List ℕ) (at : ℕ) → K.compared_at n c at ≡ compared n (K.kind.read c at)) →
        (at before : ℕ) → Reads K.kind V.kind M.E b K.lengths V.lengths (compared key.now) at
        before (NodeBytes hi root) → IfErr result (Lacks K.kind V.kind M.E b K.lengths V.lengths
        (Reads K.kind V.kind M.E b K.lengths V.lengths (compared key.now) at)
        0 (before + reader.old.left) (length room.old)) }
    ensures fits { (b : List ℕ) → AreOf (S.known reader.old.source) b →
        (compared : T → K.kind.Value → Comparison) →
        ((n : T) (c : List ℕ) (at : ℕ) → K.compared_at n c at ≡ compared n (K.kind.read c at)) →
        IfOk result (λ _. FromFits K.kind V.kind M.E b K.lengths V.lengths (compared key.now)
        hi root (length room.old)) }
{
    let mut node = root;
    let mut end = hi;
    let mut levels = 32u32;
    'down: loop {
        if levels == 0 {
            return Err(SourceFault::Refused(Refusal::TooDeep {
                pos: i64::from(node),
            }));
        }
        match search_node::<S, T, K, V, M>(node, end, key, reader, room, page) {
            Err(fault) => return Err(fault),
            Ok(Step::Ends(hit)) => return Ok(Some(hit)),
            Ok(Step::Nothing) => return Ok(None),
            Ok(Step::Below(below)) => {
                end = node;
                node = below;
                levels -= 1;
            }
        }
    }
}

/// The entry of the map at `pos` at which a search ends with Equal. Each node is read into `page`, and each value brought to `room`.
pub fn search<
    S: ReadAt,
    T,
    K: Fetch + CompareWith<T>,
    V: Fetch,
    M: ArchivedMap<Key = K, Mapped = V>,
>(
    pos: u32,
    key: &T,
    reader: &mut Reader<S>,
    room: &mut [u8],
    page: &mut [u8],
) -> Result<Option<Hit>, SourceFault<S::Error>>
    requires fitting { IsTrue (are_fitting K.kind V.kind M.E) }
    requires short { length room.old ≤ 4294967295 }
    requires page { inner_size (layout_of K.kind V.kind M.E) ≤ length page.old }
    ensures valid { IfOk result (λ found. IfSome found (λ hit.
        IsTrue (stands V.kind room.new hit.value))) }
    ensures gives { (b : List ℕ) → AreOf (S.known reader.old.source) b →
        (compared : T → K.kind.Value → Comparison) →
        ((n : T) (c : List ℕ) (at : ℕ) → K.compared_at n c at ≡ compared n (K.kind.read c at)) →
        GivesBy entry_of (LookupGives K.kind V.kind M.E b (compared key.now)
        K.Refuses V.Refuses pos) result }
    ensures value { (b : List ℕ) → AreOf (S.known reader.old.source) b →
        IfOk result (λ found. IfSome found (HitReads K.kind V.kind M.E b room.new)) }
    ensures same { S.known reader.new.source ≡ S.known reader.old.source }
    ensures fails { IfErr result (IfRead (S.Fails (S.known reader.old.source))) }
    ensures left { reader.new.left ≤ reader.old.left }
    ensures spent { reader.old.left ≤ reader.new.left + most_read M.E (pos + 8) }
    ensures caused { IfErr result
        (IsCaused (pos + 8) 0 (length room.old) reader.new.left) }
    // No part has more bytes than positions reach.
    ensures reach { IfErr result
        (IsCaused 4294967295 0 (length room.old) reader.new.left) }
    ensures known { (b : List ℕ) → AreOf (S.known reader.old.source) b → IfErr result
        (IsCaused (length b) 0 (length room.old) reader.new.left) }
    ensures takes { (b : List ℕ) → AreOf (S.known reader.old.source) b →
        (compared : T → K.kind.Value → Comparison) →
        ((n : T) (c : List ℕ) (at : ℕ) → K.compared_at n c at ≡ compared n (K.kind.read c at)) →
        IfOk result (λ _. (all : ℕ)
        × Takes K.kind V.kind M.E b K.lengths V.lengths (compared key.now) pos all
        × (reader.old.left ≡ reader.new.left + all)) }
    ensures lacks { (b : List ℕ) → AreOf (S.known reader.old.source) b →
        (compared : T → K.kind.Value → Comparison) →
        ((n : T) (c : List ℕ) (at : ℕ) → K.compared_at n c at ≡ compared n (K.kind.read c at)) →
        IfErr result (Lacks K.kind V.kind M.E b K.lengths V.lengths
        (Reads K.kind V.kind M.E b K.lengths V.lengths (compared key.now) pos)
        0 reader.old.left (length room.old)) }
    ensures fits { (b : List ℕ) → AreOf (S.known reader.old.source) b →
        (compared : T → K.kind.Value → Comparison) →
        ((n : T) (c : List ℕ) (at : ℕ) → K.compared_at n c at ≡ compared n (K.kind.read c at)) →
        IfOk result (λ _. EachFits K.kind V.kind M.E b K.lengths V.lengths
        (Reads K.kind V.kind M.E b K.lengths V.lengths (compared key.now) pos)
        0 (length room.old)) }
{
    match read_head::<S, K, V, M>(reader, pos) {
        Err(fault) => Err(fault),
        Ok(None) => Ok(None),
        Ok(Some(root)) => search_tree::<S, T, K, V, M>(root, pos, key, reader, room, page),
    }
}
