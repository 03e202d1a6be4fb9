//! Types of archived maps, and how many entries a map has.
ghost use Rattle.std.specs.Prelude.{◌≡◌, ◌≤◌, ◌+◌, ℕ, IsTrue, length};
ghost use Rattle.rkyv_btree_format.specs.Layout.{layout_of, are_fitting, key_at, value_at, len_at, leaf_size, pointer_at, inner_size};
ghost use Rattle.rkyv_btree_verify.specs.Map.{map_kind};
ghost use Rattle.rkyv_btree_format.specs.Read.{read_map};
ghost use Rattle.rkyv_btree_portable.specs.Views.{stands};

use rkyv_btree_format::layout;
use rkyv_btree_portable::bytes::num32;
use rkyv_btree_portable::check::Portable;
use rkyv_btree_types::map::ArchivedBTreeMap;
use rkyv_btree_types::set::ArchivedBTreeSet;

/// A type of archived maps: what its keys and values are, and their positions in a node. A walk is over such a type.
/// Positions in a node count from its first byte, which is its kind.
pub trait ArchivedMap: Portable {
    /// The archived type of the keys.
    type Key: Portable;

    /// The archived type of the values.
    type Mapped: Portable;

    /// How many entries an inner node has, and a leaf at most.
    ghost E: { ℕ };

    /// Ghost step, no code. From valid bytes of `Self` at `pos` it concludes that they are a valid map of `Key` to `Mapped`.
    fn opened(buf: &[u8], pos: u32)
        requires { IsTrue (stands Self.kind buf.now pos) }
        ensures { IsTrue (stands (map_kind Self.Key.kind Self.Mapped.kind E) buf.now pos) };

    /// Ghost step, no code: the reverse of `opened`.
    fn closed(buf: &[u8], pos: u32)
        requires { IsTrue (stands (map_kind Self.Key.kind Self.Mapped.kind E) buf.now pos) }
        ensures { IsTrue (stands Self.kind buf.now pos) };

    /// `E`, as a number of the program.
    fn entries_per_node() -> usize
        ensures { result ≡ E };

    /// Returns the position of key `i` in a node.
    fn key_at(i: usize) -> u32
        requires fitting { IsTrue (are_fitting Self.Key.kind Self.Mapped.kind E) }
        requires within { i ≤ E }
        ensures { result ≡ key_at (layout_of Self.Key.kind Self.Mapped.kind E) i };

    /// Returns the position of value `i` in a node.
    fn value_at(i: usize) -> u32
        requires fitting { IsTrue (are_fitting Self.Key.kind Self.Mapped.kind E) }
        requires within { i ≤ E }
        ensures { result ≡ value_at (layout_of Self.Key.kind Self.Mapped.kind E) i };

    /// Returns the position of a leaf's length.
    fn len_at() -> u32
        requires { IsTrue (are_fitting Self.Key.kind Self.Mapped.kind E) }
        ensures value { result ≡ len_at (layout_of Self.Key.kind Self.Mapped.kind E) }
        ensures inside { result + 4 ≤ leaf_size (layout_of Self.Key.kind Self.Mapped.kind E) };

    /// Returns the position of pointer `i` in an inner node.
    fn pointer_at(i: usize) -> u32
        requires fitting { IsTrue (are_fitting Self.Key.kind Self.Mapped.kind E) }
        requires within { i ≤ E }
        ensures value { result ≡ pointer_at (layout_of Self.Key.kind Self.Mapped.kind E) i }
        ensures inside { result + 4 ≤ inner_size (layout_of Self.Key.kind Self.Mapped.kind E) };
}

impl<K: Portable, V: Portable, const E: usize> ArchivedMap for ArchivedBTreeMap<K, V, E> {
    type Key = K;

    type Mapped = V;

    ghost E = { E };

    fn opened(_buf: &[u8], _pos: u32) {}

    fn closed(_buf: &[u8], _pos: u32) {}

    fn entries_per_node() -> usize {
        E
    }

    fn key_at(i: usize) -> u32 {
        layout::key_at::<K, V, E>(i)
    }

    fn value_at(i: usize) -> u32 {
        layout::value_at::<K, V, E>(i)
    }

    fn len_at() -> u32 {
        layout::len_at::<K, V, E>()
    }

    fn pointer_at(i: usize) -> u32 {
        layout::lesser_at::<K, V, E>(i)
    }
}

/// A set is the map of its keys to `()`.
impl<K: Portable, const E: usize> ArchivedMap for ArchivedBTreeSet<K, E> {
    type Key = K;

    type Mapped = ();

    ghost E = { E };

    fn opened(_buf: &[u8], _pos: u32) {}

    fn closed(_buf: &[u8], _pos: u32) {}

    fn entries_per_node() -> usize {
        E
    }

    fn key_at(i: usize) -> u32 {
        layout::key_at::<K, (), E>(i)
    }

    fn value_at(i: usize) -> u32 {
        layout::value_at::<K, (), E>(i)
    }

    fn len_at() -> u32 {
        layout::len_at::<K, (), E>()
    }

    fn pointer_at(i: usize) -> u32 {
        layout::lesser_at::<K, (), E>(i)
    }
}

/// Returns the number of entries of the map at `pos`, as its own bytes have it. The tree isn't read.
pub fn map_len<K: Portable, V: Portable, M: ArchivedMap<Key = K, Mapped = V>>(
    buf: &[u8],
    pos: u32,
) -> u32
    requires { IsTrue (stands M.kind buf.now pos) }
    ensures { result ≡ length (read_map K.kind V.kind M.E buf.now pos) }
{
    M::opened(buf, pos);
    num32(buf, pos + 4)
}
