//! The nodes of a valid archive, and the parts of it that they and the texts of their entries are.
ghost use Rattle.std.specs.Prelude.{◌≡◌, ◌≤◌, ◌<◌, ◌+◌, IsTrue, List, length};
ghost use Rattle.rkyv_btree_format.specs.Layout.{key_at as key_offset, value_at as value_offset};
ghost use Rattle.rkyv_btree_format.specs.OwnBytes.{own_at};
ghost use Rattle.rkyv_btree_portable.specs.Text.{text_kind};
ghost use Rattle.rkyv_btree_portable.specs.Views.{stands};
ghost use Rattle.rkyv_btree_walk.specs.Below.{root_place};
ghost use Rattle.rkyv_btree_walk.specs.Nodes.{child_place, entry_count, is_leaf as is_leaf_at};
ghost use Rattle.rkyv_btree_walk.specs.mirror.Node.{LeadsBefore};
ghost use Rattle.rkyv_btree_walk.specs.Nodes.{natural};
ghost use Rattle.btreekv_commands.specs.Lines.{Entry};
ghost use Rattle.btreekv_commands.specs.Nodes.{node_part, text_layout, text_part};
ghost use Rattle.btreekv_commands.specs.Opening.{IsArchive, texts};
ghost use Rattle.btreekv_commands.specs.mirror.Levels.{HasNode};

use rkyv_btree_format::layout::{inner_size, key_at, leaf_size, len_at, lesser_at, value_at};
use rkyv_btree_portable::bytes::{num32, pointed_at, target};
use rkyv_btree_portable::check::Window;
use rkyv_btree_portable::text::ArchivedText;

/// How many entries an inner node has, and a leaf at most.
pub(crate) const ENTRIES: u32 = 5;

/// Returns whether a node is a leaf.
pub(crate) fn is_leaf(archive: &[u8], node: u32) -> bool
    requires { HasNode archive.now node }
    ensures { result ≡ is_leaf_at text_layout archive.now node }
{
    archive[node as usize] == 0
}

/// Returns the bytes of a node.
#[tactic(auto, using(crate::proofs::Fits::texts_fit))]
pub(crate) fn node_part(archive: &[u8], node: u32) -> Window
    requires short { length archive.now ≤ 4294967295 }
    requires node { HasNode archive.now node }
    ensures { result ≡ node_part archive.now node }
{
    let size = if is_leaf(archive, node) {
        leaf_size::<ArchivedText, ArchivedText, 5>()
    } else {
        inner_size::<ArchivedText, ArchivedText, 5>()
    };
    Window {
        lo: node,
        hi: node + size,
    }
}

/// Returns how many entries a node has.
#[tactic(auto, using(crate::proofs::Fits::texts_fit))]
pub(crate) fn entries_of(archive: &[u8], node: u32) -> u32
    requires short { length archive.now ≤ 4294967295 }
    requires node { HasNode archive.now node }
    ensures { result ≡ entry_count text_layout archive.now node }
{
    if is_leaf(archive, node) {
        num32(archive, node + len_at::<ArchivedText, ArchivedText, 5>())
    } else {
        ENTRIES
    }
}

/// Returns where the bytes are of the text at a position.
pub(crate) fn text_part(archive: &[u8], at: u32) -> Window
    requires { IsTrue (stands text_kind archive.now at) }
    ensures { result ≡ text_part archive.now at }
{
    let lo = pointed_at(archive, at) as u32;
    Window {
        lo,
        hi: lo + num32(archive, at + 4),
    }
}

/// Returns where the bytes are of the key of an entry of a node.
#[tactic(auto, using(crate::proofs::Fits::texts_fit))]
pub(crate) fn key_part(archive: &[u8], node: u32, index: u32) -> Window
    requires short { length archive.now ≤ 4294967295 }
    requires node { HasNode archive.now node }
    requires within { index < entry_count text_layout archive.now node }
    ensures { result ≡ text_part archive.now (node + key_offset text_layout index) }
{
    let offset = key_at::<ArchivedText, ArchivedText, 5>(index as usize);
    text_part(archive, node + offset)
}

/// Returns where the bytes are of the value of an entry of a node.
#[tactic(auto, using(crate::proofs::Fits::texts_fit))]
pub(crate) fn value_part(archive: &[u8], node: u32, index: u32) -> Window
    requires short { length archive.now ≤ 4294967295 }
    requires node { HasNode archive.now node }
    requires within { index < entry_count text_layout archive.now node }
    ensures { result ≡ text_part archive.now (node + value_offset text_layout index) }
{
    let offset = value_at::<ArchivedText, ArchivedText, 5>(index as usize);
    text_part(archive, node + offset)
}

/// Returns the position of a node, which is before `end`.
fn node_at(place: i64, end: u32) -> u32
    requires { LeadsBefore end (Some place) }
    ensures { natural (Some place) ≡ Some result }
{
    place as u32
}

/// Returns the child of a node before entry `index`, or after its last entry, if there is one.
#[tactic(auto, using(crate::proofs::Fits::texts_fit))]
pub(crate) fn child(archive: &[u8], node: u32, index: u32) -> Option<u32>
    requires short { length archive.now ≤ 4294967295 }
    requires node { HasNode archive.now node }
    requires within { index ≤ 5 }
    ensures { result ≡ child_place text_layout archive.now node index }
{
    if is_leaf(archive, node) {
        return None;
    }
    let offset = lesser_at::<ArchivedText, ArchivedText, 5>(index as usize);
    match target(archive, node + offset) {
        None => None,
        Some(place) => Some(node_at(place, node)),
    }
}

/// Returns the root node of an archive whose map is at position `pos`, if it has entries.
#[tactic(auto, unfolding(rkyv_btree_portable::specs::Bytes::place_at))]
pub(crate) fn root_of(archive: &[u8], pos: u32) -> Option<u32>
    requires position { pos ≡ own_at texts archive.now }
    requires archive { (m : List Entry) × IsArchive archive.now m }
    ensures { result ≡ root_place archive.now pos }
{
    if num32(archive, pos + 4) == 0 {
        return None;
    }
    Some(pointed_at(archive, pos) as u32)
}
