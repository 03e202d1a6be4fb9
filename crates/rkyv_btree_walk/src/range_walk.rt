//! A walk along the entries of a map between two bounds, by their places. Ranges and cursors of ranges are made of it.
ghost use Rattle.std.specs.Prelude.{◌≡◌, ℕ, ◌+◌, List, IfSome, IsTrue, map};
ghost use Rattle.std.specs.declared.ops.Bound.TheVariants.{Unbounded};
ghost use Rattle.rkyv_btree_format.specs.Layout.{layout_of};
ghost use Rattle.rkyv_btree_format.specs.Read.{entry_at, read_map};
ghost use Rattle.rkyv_btree_portable.specs.Views.{stands};
ghost use Rattle.rkyv_btree_walk.specs.Bounds.{IsRun, IsWithin, ByBounds};
ghost use Rattle.rkyv_btree_walk.specs.EntryPlaces.{entry_places};
ghost use Rattle.rkyv_btree_walk.specs.Remaining.{places_between};
ghost use Rattle.rkyv_btree_walk.specs.Search.{shown_value};
ghost use Rattle.rkyv_btree_walk.specs.WalkBetween.{IsWalkBetween, range_left, IsRangeWalk, IsPlacedWalk};
ghost use Rattle.rkyv_btree_walk.specs.mirror.Along.{Takes};
ghost use Rattle.rkyv_btree_walk.specs.mirror.Node.{RunStands};

use crate::archived_map::ArchivedMap;
use crate::entry_place::EntryPlace;
use crate::path::Path;
use crate::range_ends::{advance_before, between};
use crate::seek::Part;
use crate::shows::Shows;
use arrayvec::ArrayVec;
use rkyv_btree_portable::check::Portable;
use std::cmp::Ordering;
use std::ops::Bound;

/// The state of a walk between bounds: the entries that remain of a leaf, the path above it, and where the walk stops.
#[derive(Drop)]
pub struct RangeWalk {
    /// The inner nodes from the root on.
    pub path: Path,
    /// The entries that remain of the leaf.
    pub part: Part,
    /// The entry before which the walk stops.
    pub stop: Option<(u32, u32)>,
}

/// Returns the walk before the first entry of the map at `pos` between the bounds.
#[inline(always)]
pub fn start_between<
    'a,
    Q,
    K: Portable,
    V: Portable,
    M: ArchivedMap<Key = K, Mapped = V>,
    W: Shows<'a, K>,
    C: Fn(&Q, W) -> Ordering,
>(buf: &'a [u8], pos: u32, low: Bound<&Q>, high: Bound<&Q>, cmp: &C) -> RangeWalk
    requires callable { C.IsAlwaysCallable cmp.now }
    requires stands { IsTrue (stands M.kind buf.now pos) }
    ensures walks { IsWalkBetween K.kind V.kind M.E buf.now pos result }
    ensures run { IsRun (places_between K.kind V.kind M.E buf.now pos result)
        (entry_places K.kind V.kind M.E buf.now pos) }
    ensures whole { low.entry ≡ Unbounded → high.entry ≡ Unbounded
        → map (entry_at K.kind V.kind M.E buf.now)
        (places_between K.kind V.kind M.E buf.now pos result)
        ≡ read_map K.kind V.kind M.E buf.now pos }
    ensures within { ByBounds (C.post cmp.now) (shown_value K.kind W.Shows) low.entry high.entry (λ lo hi.
        IsWithin lo hi (read_map K.kind V.kind M.E buf.now pos)
        (map (entry_at K.kind V.kind M.E buf.now)
        (places_between K.kind V.kind M.E buf.now pos result))) }
{
    M::opened(buf, pos);
    let mut path = ArrayVec::new();
    let (part, stop) = between::<Q, K, V, M, W, C>(buf, pos, low, high, cmp, &mut path);
    RangeWalk { path, part, stop }
}

/// Takes the next entry of the map at `pos` before the stop, and returns its place, or `None` if no entry remains.
#[inline(always)]
pub fn step_before<K: Portable, V: Portable, M: ArchivedMap<Key = K, Mapped = V>>(
    buf: &[u8],
    pos: u32,
    walk: &mut RangeWalk,
) -> Option<EntryPlace>
    requires stands { IsTrue (stands M.kind buf.now pos) }
    requires walks { IsRangeWalk (layout_of K.kind V.kind M.E) buf.now pos walk.old }
    ensures walks { IsRangeWalk (layout_of K.kind V.kind M.E) buf.now pos walk.new }
    ensures takes { let s = layout_of K.kind V.kind M.E in
        Takes (range_left s buf.now walk.old) (range_left s buf.now walk.new) result }
    ensures placed { let s = layout_of K.kind V.kind M.E in (all : List (ℕ × ℕ))
        → IsPlacedWalk s buf.now all walk.old → IsPlacedWalk s buf.now all walk.new }
    ensures stands { IfSome result (λ place.
        RunStands K.kind V.kind M.E buf.now place.node place.index (place.index + 1)) }
{
    M::opened(buf, pos);
    let next = walk.part.next;
    if next < walk.part.end {
        walk.part.next = next + 1;
        return Some(EntryPlace {
            node: walk.part.node,
            index: next as usize,
        });
    }
    let step = advance_before::<K, V, M>(buf, walk.stop, &mut walk.path)?;
    walk.part = Part {
        node: step.leaf.node,
        next: 0,
        end: step.leaf.count,
    };
    Some(EntryPlace {
        node: step.node,
        index: step.index as usize,
    })
}
