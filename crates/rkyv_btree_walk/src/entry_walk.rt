//! A walk along all entries of a map, by their places. Iterators and cursors are made of it.
ghost use Rattle.std.specs.Prelude.{◌≡◌, ℕ, ◌+◌, ◌-◌, ◌≤◌, List, ◌∷◌, IfNone, IfSome, IsTrue};
ghost use Rattle.rkyv_btree_format.specs.Layout.{layout_of};
ghost use Rattle.rkyv_btree_portable.specs.Views.{stands};
ghost use Rattle.rkyv_btree_walk.specs.Bounds.{IsEnd, IsLastOf};
ghost use Rattle.rkyv_btree_walk.specs.EntryPlaces.{entry_places, place_of};
ghost use Rattle.rkyv_btree_walk.specs.mirror.Along.{walk_left, IsWalk, Takes};
ghost use Rattle.rkyv_btree_walk.specs.mirror.Node.{RunStands};

use crate::archived_map::{ArchivedMap, map_len};
use crate::entry_place::EntryPlace;
use crate::path::{Path, advance, begin};
use arrayvec::ArrayVec;
use rkyv_btree_portable::check::Portable;

/// The state of a walk: the entries that remain of a leaf, and the path above it.
#[derive(Drop)]
pub struct Walk {
    /// The inner nodes from the root on.
    pub path: Path,
    /// The position of the leaf.
    pub node: u32,
    /// The number of the next entry in the leaf.
    pub next: u32,
    /// The number of entries of the leaf.
    pub end: u32,
    /// The number of entries after the leaf.
    pub behind: u32,
}

/// Returns the walk before the first entry of the map at `pos`.
#[inline(always)]
pub fn start<K: Portable, V: Portable, M: ArchivedMap<Key = K, Mapped = V>>(
    buf: &[u8],
    pos: u32,
) -> Walk
    requires { IsTrue (stands M.kind buf.now pos) }
    ensures walks { IsWalk (layout_of K.kind V.kind M.E) buf.now pos result }
    ensures all { walk_left (layout_of K.kind V.kind M.E) buf.now result
        ≡ entry_places K.kind V.kind M.E buf.now pos }
{
    let mut path = ArrayVec::new();
    let leaf = begin::<K, V, M>(buf, pos, &mut path);
    Walk {
        path,
        node: leaf.node,
        next: 0,
        end: leaf.count,
        behind: map_len::<K, V, M>(buf, pos) - leaf.count,
    }
}

/// Takes the next entry of the map at `pos` if it is one of the leaf, and returns its place. Otherwise it returns `None`, and
/// the walk is unchanged.
#[inline(always)]
pub fn step_in_leaf<K: Portable, V: Portable, M: ArchivedMap<Key = K, Mapped = V>>(
    buf: &[u8],
    pos: u32,
    walk: &mut Walk,
) -> Option<EntryPlace>
    requires stands { IsTrue (stands M.kind buf.now pos) }
    requires walks { IsWalk (layout_of K.kind V.kind M.E) buf.now pos walk.old }
    ensures walks { IsWalk (layout_of K.kind V.kind M.E) buf.now pos walk.new }
    ensures takes { let s = layout_of K.kind V.kind M.E in IfSome result (λ place.
        walk_left s buf.now walk.old ≡ place_of place ∷ walk_left s buf.now walk.new) }
    ensures fewer { IfSome result (λ place.
        walk.old.end - walk.old.next ≡ 1 + (walk.new.end - walk.new.next)) }
    ensures none { IfNone result (walk.old.end ≤ walk.old.next) }
    ensures kept { IfNone result (walk.new ≡ walk.old) }
    ensures ends { let s = layout_of K.kind V.kind M.E in (all : List (ℕ × ℕ)) →
        IsEnd (walk_left s buf.now walk.old) all → IsEnd (walk_left s buf.now walk.new) all }
    ensures stands { IfSome result (λ place.
        RunStands K.kind V.kind M.E buf.now place.node place.index (place.index + 1)) }
{
    M::opened(buf, pos);
    let next = walk.next;
    if next < walk.end {
        walk.next = next + 1;
        return Some(EntryPlace {
            node: walk.node,
            index: next as usize,
        });
    }
    None
}

/// Returns the place of the last entry of the leaf, if the next one is one of the leaf too.
#[inline(always)]
pub fn last_in_leaf<K: Portable, V: Portable, M: ArchivedMap<Key = K, Mapped = V>>(
    buf: &[u8],
    pos: u32,
    walk: &Walk,
) -> Option<EntryPlace>
    requires stands { IsTrue (stands M.kind buf.now pos) }
    requires walks { IsWalk (layout_of K.kind V.kind M.E) buf.now pos walk.now }
    ensures none { IfNone result (walk.now.end ≤ walk.now.next) }
    ensures last { IfSome result (λ place. IsLastOf (walk.now.end - walk.now.next)
        (walk_left (layout_of K.kind V.kind M.E) buf.now walk.now) (place_of place)) }
    ensures stands { IfSome result (λ place.
        RunStands K.kind V.kind M.E buf.now place.node place.index (place.index + 1)) }
{
    M::opened(buf, pos);
    if walk.next < walk.end {
        return Some(EntryPlace {
            node: walk.node,
            index: walk.end as usize - 1,
        });
    }
    None
}

/// Takes the next entry of the map at `pos`, and returns its place, or `None` if no entry remains.
#[inline(always)]
pub fn step<K: Portable, V: Portable, M: ArchivedMap<Key = K, Mapped = V>>(
    buf: &[u8],
    pos: u32,
    walk: &mut Walk,
) -> Option<EntryPlace>
    requires stands { IsTrue (stands M.kind buf.now pos) }
    requires walks { IsWalk (layout_of K.kind V.kind M.E) buf.now pos walk.old }
    ensures walks { IsWalk (layout_of K.kind V.kind M.E) buf.now pos walk.new }
    ensures takes { let s = layout_of K.kind V.kind M.E in
        Takes (walk_left s buf.now walk.old) (walk_left s buf.now walk.new) result }
    ensures stands { IfSome result (λ place.
        RunStands K.kind V.kind M.E buf.now place.node place.index (place.index + 1)) }
{
    M::opened(buf, pos);
    if let Some(place) = step_in_leaf::<K, V, M>(buf, pos, walk) {
        return Some(place);
    }
    let step = advance::<K, V, M>(buf, &mut walk.path)?;
    walk.node = step.leaf.node;
    walk.next = 0;
    walk.end = step.leaf.count;
    walk.behind = walk.behind - 1 - step.leaf.count;
    Some(EntryPlace {
        node: step.node,
        index: step.index as usize,
    })
}
