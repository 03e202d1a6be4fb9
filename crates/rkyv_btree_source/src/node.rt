//! Nodes of a source: what their bytes give, wherever these were read to.
ghost use Rattle.std.specs.Prelude.{◌≡◌, ◌+◌, ◌-◌, ◌≤◌, ◌<◌, List, Option, ℕ, Some, IsTrue, IfErr, IfOk, IfSome, length, min, slice_index, pos, ◌+ℤ◌, ◌≤ℤ◌};
ghost use Rattle.std.specs.Int.{cast_signed, w32};
ghost use Rattle.rkyv_btree_portable.specs.Bytes.{place_at};
ghost use Rattle.rkyv_btree_format.specs.Layout.{layout_of, are_fitting, leaf_size, inner_size};
ghost use Rattle.rkyv_btree_source.specs.Reading.{IfRead, GivesBy, IsCaused, IsPart};
ghost use Rattle.rkyv_btree_source.specs.Reads.{IsLacking};
ghost use Rattle.rkyv_btree_unverified.specs.Steps.{HasRoom, HeadGives, NodeGives, PlaceGives};
ghost use Rattle.rkyv_btree_source.specs.Known.{AreOf};

use crate::fault::SourceFault;
use crate::reader::Reader;
use crate::source::ReadAt;
use rkyv_btree_portable::bytes::num32;
use rkyv_btree_portable::check::Portable;
use rkyv_btree_portable::refusal::Refusal;
use rkyv_btree_unverified::node::{entries_of, inner_size, place_before};
use rkyv_btree_walk::archived_map::ArchivedMap;

/// Returns where the relative pointer at position `at` leads, by the number of its four bytes.
pub(crate) fn place_of(at: u32, offset: u32) -> i64
    ensures place { result ≡ (pos at +ℤ cast_signed w32 offset) }
    ensures near { pos at ≤ℤ (result +ℤ pos 2147483648) }
{
    i64::from(at) + i64::from(offset.cast_signed())
}

/// Returns where the pointer leads whose four bytes are number `index` and after of bytes read from position `start`, if there is
/// room for a leaf before `hi` and it is aligned.
pub(crate) fn place_in<K: Portable, V: Portable, M: ArchivedMap<Key = K, Mapped = V>>(
    bytes: &[u8],
    index: u32,
    start: u32,
    hi: u32,
) -> Result<u32, Refusal>
    requires fitting { IsTrue (are_fitting K.kind V.kind M.E) }
    requires inside { index + 4 ≤ length bytes.now }
    requires small { start + index ≤ 4294967295 }
    ensures room { IfOk result (HasRoom K.kind V.kind M.E hi) }
    ensures gives { (b : List ℕ) → IsPart b bytes.now start →
        PlaceGives K.kind V.kind M.E hi (place_at b (start + index)) result }
{
    place_before::<K, V, M>(place_of(start + index, num32(bytes, index)), hi)
}

/// Returns the map's root, if it says that it has entries. It reads the map's own bytes.
pub(crate) fn read_head<S: ReadAt, K: Portable, V: Portable, M: ArchivedMap<Key = K, Mapped = V>>(
    reader: &mut Reader<S>,
    at: u32,
) -> Result<Option<u32>, SourceFault<S::Error>>
    requires { IsTrue (are_fitting K.kind V.kind M.E) }
    ensures room { IfOk result (λ root. IfSome root (HasRoom K.kind V.kind M.E at)) }
    ensures inside { IfOk result (λ _. (b : List ℕ) → AreOf (S.known reader.old.source) b →
        (length b ≤ 4294967295) × (at + 8 ≤ length b)) }
    ensures gives { (b : List ℕ) → AreOf (S.known reader.old.source) b →
        GivesBy (λ (root : Option ℕ). root) (HeadGives K.kind V.kind M.E b at) result }
    ensures same { S.known reader.new.source ≡ S.known reader.old.source }
    ensures fails { IfErr result (IfRead (S.Fails (S.known reader.old.source))) }
    ensures left { reader.new.left ≤ reader.old.left }
    ensures spent { reader.old.left ≤ reader.new.left + 8 }
    ensures caused { (n : ℕ) → IfErr result (IsCaused (at + 8) 0 n reader.new.left) }
    ensures known { (b : List ℕ) → AreOf (S.known reader.old.source) b → (n : ℕ) →
        IfErr result (IsCaused (length b) 0 n reader.new.left) }
    ensures takes { IfOk result (λ _. reader.old.left ≡ reader.new.left + 8) }
    ensures lacks { IfErr result (IsLacking (λ _. ⊥) (reader.old.left < 8)) }
{
    match reader.size() {
        Err(fault) => return Err(fault),
        Ok(size) => {
            if size > 4294967295 {
                return Err(SourceFault::Refused(Refusal::TooLong));
            }
            if size < u64::from(at) + 8 {
                return Err(SourceFault::Refused(Refusal::OutOfRange { pos: i64::from(at) }));
            }
        }
    }
    if at % 4 != 0 {
        return Err(SourceFault::Refused(Refusal::Misaligned { pos: at }));
    }
    let mut own_bytes = [0u8; 8];
    match reader.read(at, &mut own_bytes) {
        Err(fault) => return Err(fault),
        Ok(()) => {}
    }
    if num32(&own_bytes, 4) == 0 {
        return Ok(None);
    }
    match place_in::<K, V, M>(&own_bytes, 0, at, at) {
        Ok(root) => Ok(Some(root)),
        Err(refusal) => Err(SourceFault::Refused(refusal)),
    }
}

/// Returns how many bytes the node at `node` has at most.
pub(crate) fn node_len<K: Portable, V: Portable, M: ArchivedMap<Key = K, Mapped = V>>(
    node: u32,
    hi: u32,
) -> u32
    requires fitting { IsTrue (are_fitting K.kind V.kind M.E) }
    requires room { HasRoom K.kind V.kind M.E hi node }
    ensures value { result ≡ min (hi - node) (inner_size (layout_of K.kind V.kind M.E)) }
    ensures inside { node + result ≤ hi }
    ensures leaf { leaf_size (layout_of K.kind V.kind M.E) ≤ result }
    ensures most { result ≤ inner_size (layout_of K.kind V.kind M.E) }
    ensures inner { node + inner_size (layout_of K.kind V.kind M.E) ≤ hi →
        result ≡ inner_size (layout_of K.kind V.kind M.E) }
{
    (hi - node).min(inner_size::<K, V, M>())
}

/// Returns the number of entries of the node whose bytes these are, from position `node` on.
pub(crate) fn count_in<K: Portable, V: Portable, M: ArchivedMap<Key = K, Mapped = V>>(
    bytes: &[u8],
    node: u32,
    hi: u32,
) -> Result<u32, Refusal>
    requires fitting { IsTrue (are_fitting K.kind V.kind M.E) }
    requires room { HasRoom K.kind V.kind M.E hi node }
    requires leaf { leaf_size (layout_of K.kind V.kind M.E) ≤ length bytes.now }
    ensures gives { (b : List ℕ) → IsPart b bytes.now node →
        NodeGives K.kind V.kind M.E b hi node result }
    ensures few { IfOk result (λ n. n ≤ M.E) }
    ensures inner { IfOk result (λ _. ¬ (slice_index bytes.now 0 ≡ 0)
        → node + inner_size (layout_of K.kind V.kind M.E) ≤ hi) }
{
    entries_of::<K, V, M>(bytes[0], num32(bytes, M::len_at()), node, hi)
}
