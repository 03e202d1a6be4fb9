//! Sizes and offsets of nodes. Offsets count from the node's first byte, which is its kind.
ghost use Rattle.std.specs.Prelude.{◌≡◌, ◌+◌, ◌-◌, ◌≤◌, ◌<◌, ◌^◌, IsTrue};
ghost use Rattle.rkyv_btree_format.specs.Layout.{layout_of, are_fitting, keys_at, values_at, key_at, value_at, node_align};
ghost use Rattle.rkyv_btree_format.specs.Layout.{node_size, align, len_at, leaf_size, pointer_at, inner_size};
ghost use Rattle.rkyv_btree_portable.specs.Rounding.{round_up};

use rkyv_btree_portable::check::Portable;
use rkyv_btree_portable::rounding::round_up;

/// Past so many entries a node's pointers alone, of four bytes each, take more than `2 ^ 32` bytes. Up to it no size
/// overflows 64 bits: so many keys, and as many values, of less than `2 ^ 32` bytes each take less than `2 ^ 63 - 2 ^ 33`.
const MOST_ENTRIES: usize = (1 << 30) - 1;

/// Where the keys begin, after the kind.
#[tactic(auto, unfolding(crate::specs::Layout::keys_at))]
fn keys_at<K: Portable>() -> u64
    ensures value { result ≡ round_up 1 K.kind.align }
    ensures small { result ≤ 16 }
{
    round_up(1, K::align())
}

/// Where the values begin, after the keys.
#[tactic(auto, unfolding(crate::specs::Layout::values_at, crate::specs::Layout::keys_at))]
fn values_at<K: Portable, V: Portable, const E: usize>() -> u64
    requires key { IsTrue K.kind.is_fitting }
    requires entries { E < 2 ^ 30 }
    ensures value { result ≡ values_at (layout_of K.kind V.kind E) }
    ensures small { result < 2 ^ 62 - 2 ^ 32 }
{
    round_up(keys_at::<K>() + E as u64 * u64::from(K::size()), V::align())
}

/// Returns the greatest alignment of a node's kind, keys and values.
#[tactic(auto, unfolding(crate::specs::Layout::node_align))]
pub fn node_align<K: Portable, V: Portable, const E: usize>() -> u32
    ensures value { result ≡ node_align (layout_of K.kind V.kind E) }
    ensures positive { 0 < result }
    ensures small { result ≤ 16 }
{
    K::align().max(V::align()).max(1)
}

/// Returns the alignment of leaves and inner nodes.
#[tactic(auto, unfolding(crate::specs::Layout::align))]
pub fn align<K: Portable, V: Portable, const E: usize>() -> u32
    ensures value { result ≡ align (layout_of K.kind V.kind E) }
    ensures positive { 0 < result }
    ensures small { result ≤ 16 }
{
    node_align::<K, V, E>().max(4)
}

/// The size of a node's kind, keys and values, which may be past 32 bits.
#[tactic(auto, unfolding(crate::specs::Layout::node_size))]
fn node_size<K: Portable, V: Portable, const E: usize>() -> u64
    requires key { IsTrue K.kind.is_fitting }
    requires value { IsTrue V.kind.is_fitting }
    requires entries { E < 2 ^ 30 }
    ensures value { result ≡ node_size (layout_of K.kind V.kind E) }
    ensures small { result < 2 ^ 63 - 2 ^ 33 }
{
    round_up(
        values_at::<K, V, E>() + E as u64 * u64::from(V::size()),
        node_align::<K, V, E>(),
    )
}

/// Where a node's length or first pointer stands, which may be past 32 bits.
#[tactic(auto, unfolding(crate::specs::Layout::len_at))]
fn tail_at<K: Portable, V: Portable, const E: usize>() -> u64
    requires key { IsTrue K.kind.is_fitting }
    requires value { IsTrue V.kind.is_fitting }
    requires entries { E < 2 ^ 30 }
    ensures value { result ≡ len_at (layout_of K.kind V.kind E) }
    ensures small { result < 2 ^ 63 - 2 ^ 33 + 4 }
{
    round_up(node_size::<K, V, E>(), 4)
}

/// The size of an inner node, which may be past 32 bits.
#[tactic(auto, unfolding(crate::specs::Layout::inner_size))]
fn wide_inner_size<K: Portable, V: Portable, const E: usize>() -> u64
    requires key { IsTrue K.kind.is_fitting }
    requires value { IsTrue V.kind.is_fitting }
    requires entries { E < 2 ^ 30 }
    ensures { result ≡ inner_size (layout_of K.kind V.kind E) }
{
    round_up(tail_at::<K, V, E>() + 4 * E as u64 + 4, align::<K, V, E>())
}

/// Returns whether what every call over `K`, `V` and `E` asks: both types fit, `E` is at least 1, and an inner node
/// has at most 4294967295 bytes.
#[tactic(auto, unfolding(crate::specs::Layout::are_fitting))]
pub fn fits<K: Portable, V: Portable, const E: usize>() -> bool
    ensures { result ≡ are_fitting K.kind V.kind E }
{
    if !K::fits() {
        return false;
    }
    if !V::fits() {
        return false;
    }
    if E == 0 {
        return false;
    }
    if E > MOST_ENTRIES {
        return false;
    }
    wide_inner_size::<K, V, E>() <= u64::from(u32::MAX)
}

/// Returns the offset of key `i` in its node.
#[tactic(auto, unfolding(crate::specs::Layout::keys_at))]
pub fn key_at<K: Portable, V: Portable, const E: usize>(i: usize) -> u32
    requires fitting { IsTrue (are_fitting K.kind V.kind E) }
    requires within { i ≤ E }
    ensures value { result ≡ key_at (layout_of K.kind V.kind E) i }
    ensures inside { result ≤ values_at (layout_of K.kind V.kind E) }
{
    (keys_at::<K>() + i as u64 * u64::from(K::size())) as u32
}

/// Returns the offset of value `i` in its node.
pub fn value_at<K: Portable, V: Portable, const E: usize>(i: usize) -> u32
    requires fitting { IsTrue (are_fitting K.kind V.kind E) }
    requires within { i ≤ E }
    ensures value { result ≡ value_at (layout_of K.kind V.kind E) i }
    ensures inside { result ≤ len_at (layout_of K.kind V.kind E) }
{
    (values_at::<K, V, E>() + i as u64 * u64::from(V::size())) as u32
}

/// Returns the offset of a leaf's length.
pub fn len_at<K: Portable, V: Portable, const E: usize>() -> u32
    requires { IsTrue (are_fitting K.kind V.kind E) }
    ensures value { result ≡ len_at (layout_of K.kind V.kind E) }
    ensures inside { result + 4 ≤ leaf_size (layout_of K.kind V.kind E) }
{
    tail_at::<K, V, E>() as u32
}

/// Returns the size of a leaf.
#[tactic(auto, unfolding(crate::specs::Layout::leaf_size))]
pub fn leaf_size<K: Portable, V: Portable, const E: usize>() -> u32
    requires { IsTrue (are_fitting K.kind V.kind E) }
    ensures value { result ≡ leaf_size (layout_of K.kind V.kind E) }
    ensures least { 8 ≤ result }
{
    round_up(u64::from(len_at::<K, V, E>()) + 4, align::<K, V, E>()) as u32
}

/// Returns the offset of an inner node's pointer before entry `i`. At `E` it is `greater_at`.
pub fn lesser_at<K: Portable, V: Portable, const E: usize>(i: usize) -> u32
    requires fitting { IsTrue (are_fitting K.kind V.kind E) }
    requires within { i ≤ E }
    ensures value { result ≡ pointer_at (layout_of K.kind V.kind E) i }
    ensures inside { result + 4 ≤ inner_size (layout_of K.kind V.kind E) }
{
    tail_at::<K, V, E>() as u32 + 4 * i as u32
}

/// Returns the offset of an inner node's last pointer.
pub fn greater_at<K: Portable, V: Portable, const E: usize>() -> u32
    requires { IsTrue (are_fitting K.kind V.kind E) }
    ensures { result ≡ pointer_at (layout_of K.kind V.kind E) E }
{
    lesser_at::<K, V, E>(E)
}

/// Returns the size of an inner node.
pub fn inner_size<K: Portable, V: Portable, const E: usize>() -> u32
    requires { IsTrue (are_fitting K.kind V.kind E) }
    ensures value { result ≡ inner_size (layout_of K.kind V.kind E) }
    ensures not_less { leaf_size (layout_of K.kind V.kind E) ≤ result }
{
    wide_inner_size::<K, V, E>() as u32
}
