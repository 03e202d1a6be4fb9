//! The search of a node of a source.
ghost use Rattle.std.specs.Prelude.{◌≡◌, ◌+◌, ◌*◌, ◌≤◌, ◌<◌, ℕ, List, Option, Some, Ok, IsTrue, IfErr, IfOk, IfSome, length, slice_index};
ghost use Rattle.std.specs.declared.cmp.Ordering.{Ordering as Comparison};
ghost use Rattle.rkyv_btree_format.specs.Layout.{layout_of, are_fitting, leaf_size, inner_size};
ghost use Rattle.rkyv_btree_portable.specs.Views.{stands};
ghost use Rattle.rkyv_btree_source.specs.Reading.{IfRead, Brings, GivesBy, IsCaused, IsPart};
ghost use Rattle.rkyv_btree_source.specs.Reads.{EachFits, IsLacking, Lacks, NodeBytes, NodeReads, Reads};
ghost use Rattle.rkyv_btree_source.specs.mirror.Found.{halt_of, next_of, StopStands, StopFits, StopReads, StopTakes, StopWithin, NodeStepTakes, StepStands, StepReads, StepTakes};
ghost use Rattle.rkyv_btree_unverified.specs.Steps.{ChildGives, HasRoom, KeysGive, NodeGives};
ghost use Rattle.rkyv_btree_unverified.specs.mirror.Passes.{NextGives};
ghost use Rattle.rkyv_btree_walk.specs.Search.{compared_of};
ghost use Rattle.rkyv_btree_source.specs.Known.{AreOf};

use crate::fault::SourceFault;
use crate::fetch::Fetch;
use crate::node::{count_in, node_len, place_in};
use crate::reader::Reader;
use crate::source::ReadAt;
use rkyv_btree_portable::bytes::num32;
use rkyv_btree_portable::check::Portable;
use rkyv_btree_portable::refusal::Refusal;
use rkyv_btree_view::compare_native::CompareWith;
use rkyv_btree_view::view::View;
use rkyv_btree_walk::archived_map::ArchivedMap;
use rkyv_btree_walk::search::Compared;
use rkyv_btree_walk::shows::Shows;

/// The entry at which a search ends: its node, its number there, and where its value was brought.
#[derive(Clone, Copy)]
pub struct Hit {
    pub node: u32,
    pub index: u32,
    pub value: u32,
}

/// How the search of a node stops: at an entry that gives Equal, whose value was brought to a place, or before another.
#[derive(Clone, Copy)]
pub(crate) enum Stop {
    At { index: u32, value: u32 },
    Before(u32),
}

/// How the search of a tree goes on after a node: it ends with an entry of the node or with none, or goes down to a node.
#[derive(Clone, Copy)]
pub(crate) enum Step {
    Ends(Hit),
    Nothing,
    Below(u32),
}

/// Brings the value number `at` and after of a node's bytes, which were read from position `node` on.
pub(crate) fn fetch_part<S: ReadAt, T: Fetch>(
    bytes: &[u8],
    at: u32,
    node: u32,
    reader: &mut Reader<S>,
    room: &mut [u8],
) -> Result<u32, SourceFault<S::Error>>
    requires fitting { IsTrue T.kind.is_fitting }
    requires inside { at + T.kind.size ≤ length bytes.now }
    requires small { node + length bytes.now ≤ 4294967295 }
    requires short { length room.old ≤ 4294967295 }
    requires part { (b : List ℕ) → AreOf (S.known reader.old.source) b → IsPart b bytes.now node }
    ensures valid { IfOk result (λ place. IsTrue (stands T.kind room.new place)) }
    ensures near { IfOk result (λ place. place ≤ node + at) }
    ensures brings { (b : List ℕ) → AreOf (S.known reader.old.source) b →
        Brings T.kind T.Refuses b (node + at) room.new result }
    ensures same { S.known reader.new.source ≡ S.known reader.old.source }
    ensures fails { IfErr result (IfRead (S.Fails (S.known reader.old.source))) }
    ensures left { reader.new.left ≤ reader.old.left }
    ensures spent { reader.old.left ≤ reader.new.left + (node + length bytes.now) }
    ensures caused { IfErr result
        (IsCaused (node + length bytes.now) 0 (length room.old) reader.new.left) }
    ensures takes { (b : List ℕ) → AreOf (S.known reader.old.source) b →
        IfOk result (λ _. reader.old.left ≡ reader.new.left + T.lengths.outlying b (node + at)) }
    ensures lacks { (b : List ℕ) → AreOf (S.known reader.old.source) b → IfErr result
        (IsLacking (λ n. (n ≡ T.lengths.room b (node + at)) × (length room.old < n))
        (reader.old.left < T.lengths.outlying b (node + at))) }
    ensures fits { (b : List ℕ) → AreOf (S.known reader.old.source) b →
        IfOk result (λ _. T.lengths.room b (node + at) ≤ length room.old) }
{
    let own_bytes = &bytes[at as usize..at as usize + T::size() as usize];
    T::fetch(own_bytes, node + at, reader, room)
}

/// Compares a native value with a key that was brought to a place of `room`.
fn compare_at<T, K: CompareWith<T>>(key: &T, room: &[u8], place: u32) -> Compared
    requires { IsTrue (stands K.kind room.now place) }
    ensures { result ≡ compared_of (K.compared_at key.now room.now place) }
{
    K::compared(key, &View::<K>::at(room, place))
}

/// Compares the query with the keys of a node, from the left.
fn search_keys<
    S: ReadAt,
    T,
    K: Fetch + CompareWith<T>,
    V: Fetch,
    M: ArchivedMap<Key = K, Mapped = V>,
>(
    bytes: &[u8],
    node: u32,
    count: u32,
    key: &T,
    reader: &mut Reader<S>,
    room: &mut [u8],
) -> Result<Stop, SourceFault<S::Error>>
    requires fitting { IsTrue (are_fitting K.kind V.kind M.E) }
    requires inside { leaf_size (layout_of K.kind V.kind M.E) ≤ length bytes.now }
    requires small { node + length bytes.now ≤ 4294967295 }
    requires short { length room.old ≤ 4294967295 }
    requires few { count ≤ M.E }
    requires part { (b : List ℕ) → AreOf (S.known reader.old.source) b → IsPart b bytes.now node }
    ensures valid { IfOk result (StopStands V.kind room.new) }
    ensures gives { (b : List ℕ) → AreOf (S.known reader.old.source) b →
        (compared : T → K.kind.Value → Comparison) →
        ((n : T) (c : List ℕ) (at : ℕ) → K.compared_at n c at ≡ compared n (K.kind.read c at)) →
        GivesBy halt_of (KeysGive K.kind V.kind M.E b (compared key.now) K.Refuses V.Refuses
        node count) result }
    ensures value { (b : List ℕ) → AreOf (S.known reader.old.source) b →
        IfOk result (StopReads K.kind V.kind M.E b room.new node) }
    ensures within { IfOk result (StopWithin count) }
    ensures same { S.known reader.new.source ≡ S.known reader.old.source }
    ensures fails { IfErr result (IfRead (S.Fails (S.known reader.old.source))) }
    ensures left { reader.new.left ≤ reader.old.left }
    ensures spent { reader.old.left ≤ reader.new.left + (M.E + 1) * (node + length bytes.now) }
    ensures caused { IfErr result
        (IsCaused (node + length bytes.now) 0 (length room.old) reader.new.left) }
    ensures takes { (b : List ℕ) → AreOf (S.known reader.old.source) b →
        (compared : T → K.kind.Value → Comparison) →
        ((n : T) (c : List ℕ) (at : ℕ) → K.compared_at n c at ≡ compared n (K.kind.read c at)) →
        IfOk result (StopTakes K.kind V.kind M.E b K.lengths V.lengths (compared key.now)
        node count reader.old.left reader.new.left) }
    ensures lacks { (b : List ℕ) → AreOf (S.known reader.old.source) b →
        (compared : T → K.kind.Value → Comparison) →
        ((n : T) (c : List ℕ) (at : ℕ) → K.compared_at n c at ≡ compared n (K.kind.read c at)) →
        (hi : ℕ) → NodeGives K.kind V.kind M.E b hi node (Ok count) →
        IfErr result (Lacks K.kind V.kind M.E b K.lengths V.lengths
        (NodeReads K.kind V.kind M.E b K.lengths V.lengths (compared key.now) hi node)
        0 reader.old.left (length room.old)) }
    ensures fits { (b : List ℕ) → AreOf (S.known reader.old.source) b →
        (compared : K.kind.Value → Comparison) →
        IfOk result (StopFits K.kind V.kind M.E b K.lengths V.lengths compared
        node count (length room.old)) }
{
    for i in 0..count {
        let place = match fetch_part::<S, K>(bytes, M::key_at(i as usize), node, reader, room) {
            Ok(place) => place,
            Err(fault) => return Err(fault),
        };
        let compared = compare_at::<T, K>(key, room, place);
        if compared.past {
            continue;
        }
        if compared.equal {
            return match fetch_part::<S, V>(bytes, M::value_at(i as usize), node, reader, room) {
                Ok(value) => Ok(Stop::At { index: i, value }),
                Err(fault) => Err(fault),
            };
        }
        return Ok(Stop::Before(i));
    }
    Ok(Stop::Before(count))
}

/// Returns the child before entry `i` of the node whose bytes these are, or after all, or that there is none.
pub(crate) fn child_in<K: Portable, V: Portable, M: ArchivedMap<Key = K, Mapped = V>>(
    bytes: &[u8],
    node: u32,
    i: u32,
) -> Result<Option<u32>, Refusal>
    requires fitting { IsTrue (are_fitting K.kind V.kind M.E) }
    requires leaf { leaf_size (layout_of K.kind V.kind M.E) ≤ length bytes.now }
    requires inner { ¬ (slice_index bytes.now 0 ≡ 0)
        → inner_size (layout_of K.kind V.kind M.E) ≤ length bytes.now }
    requires few { i ≤ M.E }
    requires small { node + length bytes.now ≤ 4294967295 }
    ensures room { IfOk result (λ child. IfSome child (HasRoom K.kind V.kind M.E node)) }
    ensures gives { (b : List ℕ) (hi n : ℕ) → IsPart b bytes.now node →
        HasRoom K.kind V.kind M.E hi node → NodeGives K.kind V.kind M.E b hi node (Ok n) →
        ChildGives K.kind V.kind M.E b hi node i result }
{
    if bytes[0] == 0 {
        return Ok(None);
    }
    let at = M::pointer_at(i as usize);
    if num32(bytes, at) == 1 {
        return Ok(None);
    }
    match place_in::<K, V, M>(bytes, at, node, node) {
        Ok(below) => Ok(Some(below)),
        Err(refusal) => Err(refusal),
    }
}

/// The search of a node whose bytes these are.
fn search_bytes<
    S: ReadAt,
    T,
    K: Fetch + CompareWith<T>,
    V: Fetch,
    M: ArchivedMap<Key = K, Mapped = V>,
>(
    bytes: &[u8],
    node: u32,
    hi: u32,
    key: &T,
    reader: &mut Reader<S>,
    room: &mut [u8],
) -> Result<Step, SourceFault<S::Error>>
    requires fitting { IsTrue (are_fitting K.kind V.kind M.E) }
    requires room { HasRoom K.kind V.kind M.E hi node }
    requires leaf { leaf_size (layout_of K.kind V.kind M.E) ≤ length bytes.now }
    requires inner { node + inner_size (layout_of K.kind V.kind M.E) ≤ hi
        → inner_size (layout_of K.kind V.kind M.E) ≤ length bytes.now }
    requires small { node + length bytes.now ≤ 4294967295 }
    requires short { length room.old ≤ 4294967295 }
    requires part { (b : List ℕ) → AreOf (S.known reader.old.source) b → IsPart b bytes.now node }
    ensures valid { IfOk result (StepStands K.kind V.kind M.E room.new node) }
    ensures gives { (b : List ℕ) → AreOf (S.known reader.old.source) b →
        (compared : T → K.kind.Value → Comparison) →
        ((n : T) (c : List ℕ) (at : ℕ) → K.compared_at n c at ≡ compared n (K.kind.read c at)) →
        (m : ℕ) → GivesBy next_of (NextGives K.kind V.kind M.E b (compared key.now)
        K.Refuses V.Refuses m hi node) result }
    ensures value { (b : List ℕ) → AreOf (S.known reader.old.source) b →
        IfOk result (StepReads K.kind V.kind M.E b room.new) }
    ensures same { S.known reader.new.source ≡ S.known reader.old.source }
    ensures fails { IfErr result (IfRead (S.Fails (S.known reader.old.source))) }
    ensures left { reader.new.left ≤ reader.old.left }
    ensures spent { reader.old.left ≤ reader.new.left + (M.E + 1) * (node + length bytes.now) }
    ensures caused { IfErr result
        (IsCaused (node + length bytes.now) 0 (length room.old) reader.new.left) }
    ensures takes { (b : List ℕ) → AreOf (S.known reader.old.source) b →
        (compared : T → K.kind.Value → Comparison) →
        ((n : T) (c : List ℕ) (at : ℕ) → K.compared_at n c at ≡ compared n (K.kind.read c at)) →
        IfOk result (StepTakes K.kind V.kind M.E b K.lengths V.lengths (compared key.now)
        hi node reader.old.left reader.new.left) }
    ensures lacks { (b : List ℕ) → AreOf (S.known reader.old.source) b →
        (compared : T → K.kind.Value → Comparison) →
        ((n : T) (c : List ℕ) (at : ℕ) → K.compared_at n c at ≡ compared n (K.kind.read c at)) →
        IfErr result (Lacks K.kind V.kind M.E b K.lengths V.lengths
        (NodeReads K.kind V.kind M.E b K.lengths V.lengths (compared key.now) hi node)
        0 reader.old.left (length room.old)) }
    ensures fits { (b : List ℕ) → AreOf (S.known reader.old.source) b →
        (compared : T → K.kind.Value → Comparison) →
        ((n : T) (c : List ℕ) (at : ℕ) → K.compared_at n c at ≡ compared n (K.kind.read c at)) →
        IfOk result (λ _. EachFits K.kind V.kind M.E b K.lengths V.lengths
        (NodeReads K.kind V.kind M.E b K.lengths V.lengths (compared key.now) hi node)
        0 (length room.old)) }
{
    let count = match count_in::<K, V, M>(bytes, node, hi) {
        Ok(count) => count,
        Err(refusal) => return Err(SourceFault::Refused(refusal)),
    };
    match search_keys::<S, T, K, V, M>(bytes, node, count, key, reader, room) {
        Err(fault) => Err(fault),
        Ok(Stop::At { index, value }) => Ok(Step::Ends(Hit { node, index, value })),
        Ok(Stop::Before(i)) => match child_in::<K, V, M>(bytes, node, i) {
            Ok(None) => Ok(Step::Nothing),
            Ok(Some(below)) => Ok(Step::Below(below)),
            Err(refusal) => Err(SourceFault::Refused(refusal)),
        },
    }
}

/// Reads the node at `node` into `page`, and searches it.
pub(crate) fn search_node<
    S: ReadAt,
    T,
    K: Fetch + CompareWith<T>,
    V: Fetch,
    M: ArchivedMap<Key = K, Mapped = V>,
>(
    node: u32,
    hi: u32,
    key: &T,
    reader: &mut Reader<S>,
    room: &mut [u8],
    page: &mut [u8],
) -> Result<Step, SourceFault<S::Error>>
    requires fitting { IsTrue (are_fitting K.kind V.kind M.E) }
    requires room { HasRoom K.kind V.kind M.E hi node }
    requires short { length room.old ≤ 4294967295 }
    requires page { inner_size (layout_of K.kind V.kind M.E) ≤ length page.old }
    requires inside { (b : List ℕ) → AreOf (S.known reader.old.source) b →
        (length b ≤ 4294967295) × (hi ≤ length b) }
    ensures valid { IfOk result (StepStands K.kind V.kind M.E room.new node) }
    ensures gives { (b : List ℕ) → AreOf (S.known reader.old.source) b →
        (compared : T → K.kind.Value → Comparison) →
        ((n : T) (c : List ℕ) (at : ℕ) → K.compared_at n c at ≡ compared n (K.kind.read c at)) →
        (m : ℕ) → GivesBy next_of (NextGives K.kind V.kind M.E b (compared key.now)
        K.Refuses V.Refuses m hi node) result }
    ensures value { (b : List ℕ) → AreOf (S.known reader.old.source) b →
        IfOk result (StepReads K.kind V.kind M.E b room.new) }
    ensures same { S.known reader.new.source ≡ S.known reader.old.source }
    ensures fails { IfErr result (IfRead (S.Fails (S.known reader.old.source))) }
    ensures left { reader.new.left ≤ reader.old.left }
    ensures spent { reader.old.left ≤ reader.new.left + (M.E + 2) * hi }
    ensures caused { IfErr result
        (IsCaused hi 0 (length room.old) reader.new.left) }
    ensures takes { (b : List ℕ) → AreOf (S.known reader.old.source) b →
        (compared : T → K.kind.Value → Comparison) →
        ((n : T) (c : List ℕ) (at : ℕ) → K.compared_at n c at ≡ compared n (K.kind.read c at)) →
        IfOk result (NodeStepTakes K.kind V.kind M.E b K.lengths V.lengths (compared key.now)
        hi node reader.old.left reader.new.left) }
    ensures lacks { (b : List ℕ) → AreOf (S.known reader.old.source) b →
        (compared : T → K.kind.Value → Comparison) →
        ((n : T) (c : List ℕ) (at : ℕ) → K.compared_at n c at ≡ compared n (K.kind.read c at)) →
        (at before : ℕ) → Reads K.kind V.kind M.E b K.lengths V.lengths (compared key.now) at
        before (NodeBytes hi node) → IfErr result (Lacks K.kind V.kind M.E b K.lengths V.lengths
        (Reads K.kind V.kind M.E b K.lengths V.lengths (compared key.now) at)
        0 (before + reader.old.left) (length room.old)) }
    ensures fits { (b : List ℕ) → AreOf (S.known reader.old.source) b →
        (compared : T → K.kind.Value → Comparison) →
        ((n : T) (c : List ℕ) (at : ℕ) → K.compared_at n c at ≡ compared n (K.kind.read c at)) →
        IfOk result (λ _. EachFits K.kind V.kind M.E b K.lengths V.lengths
        (NodeReads K.kind V.kind M.E b K.lengths V.lengths (compared key.now) hi node)
        0 (length room.old)) }
{
    let bytes = &mut page[..node_len::<K, V, M>(node, hi) as usize];
    match reader.read(node, bytes) {
        Err(fault) => return Err(fault),
        Ok(()) => {}
    }
    search_bytes::<S, T, K, V, M>(bytes, node, hi, key, reader, room)
}
