//! How long an archive can be, before it is built.
ghost use Rattle.std.specs.Prelude.{◌≡◌, ◌≤◌, IsTrue, None};
ghost use Rattle.rkyv_btree_format.specs.Layout.{are_fitting, layout_of};
ghost use Rattle.rkyv_btree_ffi.specs.Items.{kind_at};
ghost use Rattle.rkyv_btree_ffi.specs.Lengths.{Bounds, layout, most_len};
ghost use Rattle.rkyv_btree_ffi.specs.MapTypes.{type_of, IfType};
ghost use Rattle.rkyv_btree_ffi.specs.mirror.Bounds.{AreSizes, IsLeast, IsMost};

use crate::at_type;
use crate::codes::{BAD_TYPE, LENGTH_OVERFLOW, OK, POSITION_OVERFLOW};
use crate::map_type::{ItemType, MapType};
use rkyv_btree_format::layout;
use rkyv_btree_portable::byte_string::ArchivedBytes;
use rkyv_btree_portable::check::Portable;
use rkyv_btree_portable::numbers::{ArchivedU32, ArchivedU64};
use rkyv_btree_portable::signed::ArchivedI64;
use rkyv_btree_portable::text::ArchivedText;

/// How many entries an archive has at most, and how many bytes.
const MOST: usize = 4294967295;

/// The sizes of nodes in bytes, and the alignment of both.
#[derive(Clone, Copy, Drop)]
struct NodeSizes {
    leaf: u32,
    inner: u32,
    align: u32,
}

/// Returns the sizes of nodes with keys and values of two types.
fn sizes<K: Portable, V: Portable>() -> NodeSizes
    requires { IsTrue (are_fitting K.kind V.kind 5) }
    ensures { AreSizes (layout_of K.kind V.kind 5) result }
{
    NodeSizes {
        leaf: layout::leaf_size::<K, V, 5>(),
        inner: layout::inner_size::<K, V, 5>(),
        align: layout::align::<K, V, 5>(),
    }
}

/// Returns the sizes of nodes with values of a type.
fn sizes_with<K: Portable>(value_type: ItemType) -> NodeSizes
    requires { IsTrue (are_fitting K.kind (kind_at value_type) 5) }
    ensures { AreSizes (layout_of K.kind (kind_at value_type) 5) result }
{
    at_type!(value_type, sizes::<K>())
}

/// Returns the sizes of the nodes of maps of a type.
fn sizes_at(map_type: MapType) -> NodeSizes
    ensures { AreSizes (layout map_type) result }
{
    at_type!(map_type.key, sizes_with(map_type.value))
}

/// Returns how many bytes the nodes of so many entries have, and their texts and the map beside them, or the code if these are too many.
fn least_len(sizes: NodeSizes, entries_len: usize, texts_len: usize) -> Result<usize, u32>
    ensures { IsLeast sizes entries_len texts_len result }
{
    if entries_len > MOST {
        return Err(LENGTH_OVERFLOW);
    }
    if texts_len > MOST {
        return Err(POSITION_OVERFLOW);
    }
    let nodes = entries_len.div_ceil(5);
    let inners = nodes.saturating_sub(1).div_ceil(6);
    let len = texts_len
        + (inners * sizes.inner as usize + (nodes - inners) * sizes.leaf as usize)
        + 8;
    if len > MOST {
        return Err(POSITION_OVERFLOW);
    }
    Ok(len)
}

/// Returns how many bytes the archive of so many entries has at most, or the code if it can't have them.
fn most_len(sizes: NodeSizes, entries_len: usize, texts_len: usize) -> Result<usize, u32>
    requires { 1 ≤ sizes.align }
    ensures { IsMost sizes entries_len texts_len result }
{
    let least = least_len(sizes, entries_len, texts_len)?;
    let zeros = entries_len.div_ceil(5).min(texts_len) * (sizes.align as usize - 1);
    Ok((least + zeros).min(MOST))
}

/// Writes how many bytes the archive of so many entries has at most, whose texts and byte strings have so many bytes.
#[unsafe(no_mangle)]
pub extern "C" fn rkyv_btree_build_bound(
    map_type: u32,
    entries_len: usize,
    texts_len: usize,
    bound: &mut usize,
) -> u32
    ensures bounds { IfType map_type (λ t.
        Bounds t entries_len texts_len bound.old bound.new result) }
    // It is enough for fewer entries too, and for fewer bytes.
    ensures enough { IfType map_type (λ t. result ≡ 0 → (n texts : _) → n ≤ entries_len
        → texts ≤ texts_len → most_len t n texts ≤ bound.new) }
    ensures no_type { type_of map_type ≡ None → (result ≡ 17) × (bound.new ≡ bound.old) }
{
    let Some(at) = MapType::from_number(map_type) else {
        return BAD_TYPE;
    };
    match most_len(sizes_at(at), entries_len, texts_len) {
        Ok(len) => {
            *bound = len;
            OK
        }
        Err(code) => code,
    }
}
