//! Nodes in untrusted bytes: the validation of one where it stands.
ghost use Rattle.std.specs.Prelude.{◌≡◌, ◌+◌, ◌≤◌, ◌<◌, ℕ, List, IsTrue, IsOk, IfOk, IfErr, pos, length, slice_index, false};
ghost use Rattle.rkyv_btree_format.specs.Layout.{layout_of, are_fitting, leaf_size, inner_size, align};
ghost use Rattle.rkyv_btree_portable.specs.Bytes.{place_at};
ghost use Rattle.rkyv_btree_verify.specs.Refusals.{leaf_len};
ghost use Rattle.rkyv_btree_portable.specs.Views.{stands};
ghost use Rattle.rkyv_btree_unverified.specs.Steps.{HasRoom, NodeGives, PlaceGives};
ghost use Rattle.rkyv_btree_unverified.specs.mirror.Passes.{NodePasses};
ghost use Rattle.rkyv_btree_walk.specs.Nodes.{is_leaf, entry_count};

use rkyv_btree_portable::bytes::{num32, pointed_at};
use rkyv_btree_portable::check::{CheckBytes, Portable, Window};
use rkyv_btree_portable::refusal::{InvalidLength, Refusal};
use rkyv_btree_portable::rounding::round_up;
use rkyv_btree_walk::archived_map::ArchivedMap;

/// The check of the value at position `pos` in the window of all that stands before it.
#[inline(always)]
pub(crate) fn check_at<T: CheckBytes>(buf: &[u8], pos: u32) -> Result<(), Refusal>
    requires { IsTrue T.kind.is_fitting }
    ensures stands { IfOk result (λ _. IsTrue (stands T.kind buf.now pos)) }
    ensures accepts { IsTrue (stands T.kind buf.now pos) → IsOk result }
    ensures refused { IfErr result (λ refusal. T.Refuses buf.now 0 pos pos refusal) }
{
    match T::check(buf, pos, Window { lo: 0, hi: pos }) {
        Ok(_) => Ok(()),
        Err(refusal) => Err(refusal),
    }
}

/// Returns the alignment of leaves and inner nodes.
#[tactic(auto, unfolding(rkyv_btree_format::specs::Layout::align, rkyv_btree_format::specs::Layout::node_align))]
#[inline(always)]
pub fn align<K: Portable, V: Portable, M: ArchivedMap<Key = K, Mapped = V>>() -> u32
    ensures value { result ≡ align (layout_of K.kind V.kind M.E) }
    ensures positive { 0 < result }
    ensures small { result ≤ 16 }
{
    K::align().max(V::align()).max(1).max(4)
}

/// Returns the size of a leaf.
#[tactic(auto, unfolding(rkyv_btree_format::specs::Layout::leaf_size))]
#[inline(always)]
pub fn leaf_size<K: Portable, V: Portable, M: ArchivedMap<Key = K, Mapped = V>>() -> u32
    requires { IsTrue (are_fitting K.kind V.kind M.E) }
    ensures { result ≡ leaf_size (layout_of K.kind V.kind M.E) }
{
    round_up(u64::from(M::len_at()) + 4, align::<K, V, M>()) as u32
}

/// Returns the size of an inner node.
#[tactic(auto, unfolding(rkyv_btree_format::specs::Layout::inner_size))]
#[inline(always)]
pub fn inner_size<K: Portable, V: Portable, M: ArchivedMap<Key = K, Mapped = V>>() -> u32
    requires { IsTrue (are_fitting K.kind V.kind M.E) }
    ensures { result ≡ inner_size (layout_of K.kind V.kind M.E) }
{
    let last = M::pointer_at(M::entries_per_node());
    round_up(u64::from(last) + 4, align::<K, V, M>()) as u32
}

/// Returns a place before `hi` as a position, if there is room for a leaf and it is aligned.
///
/// # Errors
///
/// `OutOfRange` and `Misaligned`, in this order.
#[inline(always)]
pub fn place_before<K: Portable, V: Portable, M: ArchivedMap<Key = K, Mapped = V>>(
    place: i64,
    hi: u32,
) -> Result<u32, Refusal>
    requires { IsTrue (are_fitting K.kind V.kind M.E) }
    ensures within { IfOk result (λ q. (place ≡ pos q) × HasRoom K.kind V.kind M.E hi q) }
    ensures accepts { (q : ℕ) → place ≡ pos q → HasRoom K.kind V.kind M.E hi q → IsOk result }
    ensures gives { PlaceGives K.kind V.kind M.E hi place result }
{
    if place < 0 {
        return Err(Refusal::OutOfRange { pos: place });
    }
    if place > i64::from(hi) {
        return Err(Refusal::OutOfRange { pos: place });
    }
    let start = place as u32;
    if hi - start < leaf_size::<K, V, M>() {
        return Err(Refusal::OutOfRange { pos: place });
    }
    if start % align::<K, V, M>() == 0 {
        Ok(start)
    } else {
        Err(Refusal::Misaligned { pos: start })
    }
}

/// Where a node stands to which the pointer at `at` leads, if there is room for a leaf before `hi` and it is aligned.
#[inline(always)]
pub(crate) fn node_place<K: Portable, V: Portable, M: ArchivedMap<Key = K, Mapped = V>>(
    buf: &[u8],
    at: u32,
    hi: u32,
) -> Result<u32, Refusal>
    requires fitting { IsTrue (are_fitting K.kind V.kind M.E) }
    requires inside { at + 4 ≤ length buf.now }
    ensures within { IfOk result (λ q.
        (place_at buf.now at ≡ pos q) × HasRoom K.kind V.kind M.E hi q) }
    ensures accepts { (q : ℕ) → place_at buf.now at ≡ pos q → HasRoom K.kind V.kind M.E hi q →
        IsOk result }
    ensures gives { PlaceGives K.kind V.kind M.E hi (place_at buf.now at) result }
{
    place_before::<K, V, M>(pointed_at(buf, at), hi)
}

/// Returns the number of entries of the node at `node`, by its first byte and the length that it has as a leaf, if it is a leaf
/// or an inner node that ends before `hi`.
///
/// # Errors
///
/// The first error of the node's own bytes in the order of docs/FORMAT.md.
#[inline(always)]
pub fn entries_of<K: Portable, V: Portable, M: ArchivedMap<Key = K, Mapped = V>>(
    kind: u8,
    len: u32,
    node: u32,
    hi: u32,
) -> Result<u32, Refusal>
    requires fitting { IsTrue (are_fitting K.kind V.kind M.E) }
    requires room { HasRoom K.kind V.kind M.E hi node }
    ensures gives { (b : List ℕ) → slice_index b node ≡ kind
        → leaf_len K.kind V.kind M.E b node ≡ len → NodeGives K.kind V.kind M.E b hi node result }
    ensures counted { (b : List ℕ) → slice_index b node ≡ kind
        → leaf_len K.kind V.kind M.E b node ≡ len
        → IfOk result (λ n. n ≡ entry_count (layout_of K.kind V.kind M.E) b node) }
    ensures few { IfOk result (λ n. n ≤ M.E) }
    ensures inner { IfOk result (λ _. ¬ (kind ≡ 0)
        → node + inner_size (layout_of K.kind V.kind M.E) ≤ hi) }
    ensures accepts { (b : List ℕ) → slice_index b node ≡ kind
        → leaf_len K.kind V.kind M.E b node ≡ len
        → NodePasses (layout_of K.kind V.kind M.E) b hi node → IsOk result }
{
    if kind == 0 {
        if len as usize > M::entries_per_node() {
            return Err(Refusal::InvalidLength(InvalidLength {
                len: u64::from(len),
                maximum: M::entries_per_node() as u64,
            }));
        }
        return Ok(len);
    }
    if kind != 1 {
        return Err(Refusal::BadKind {
            pos: node,
            byte: kind,
        });
    }
    if hi - node < inner_size::<K, V, M>() {
        return Err(Refusal::OutOfRange {
            pos: i64::from(node),
        });
    }
    Ok(M::entries_per_node() as u32)
}

/// How many entries the node at `node` has, if it is a leaf or an inner node that ends before `hi`.
#[inline(always)]
pub(crate) fn entries_in<K: Portable, V: Portable, M: ArchivedMap<Key = K, Mapped = V>>(
    buf: &[u8],
    node: u32,
    hi: u32,
) -> Result<u32, Refusal>
    requires fitting { IsTrue (are_fitting K.kind V.kind M.E) }
    requires short { length buf.now ≤ 4294967295 }
    requires room { HasRoom K.kind V.kind M.E hi node }
    requires inside { hi ≤ length buf.now }
    ensures gives { NodeGives K.kind V.kind M.E buf.now hi node result }
    ensures counted { IfOk result (λ n. n
        ≡ entry_count (layout_of K.kind V.kind M.E) buf.now node) }
    ensures few { IfOk result (λ n. n ≤ M.E) }
    ensures inner { IfOk result (λ _. is_leaf (layout_of K.kind V.kind M.E) buf.now node ≡ false
        → node + inner_size (layout_of K.kind V.kind M.E) ≤ length buf.now) }
    ensures accepts { NodePasses (layout_of K.kind V.kind M.E) buf.now hi node → IsOk result }
{
    let len = num32(buf, node + M::len_at());
    entries_of::<K, V, M>(buf[node as usize], len, node, hi)
}
