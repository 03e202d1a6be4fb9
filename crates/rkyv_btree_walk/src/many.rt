//! Searches of a map for many keys side by side, level by level, so that a processor waits for the nodes of several at once.
ghost use Rattle.std.specs.Prelude.{◌≡◌, IfSome, IsTrue, ◌+◌, ℕ, true, false};
ghost use Rattle.std.specs.declared.cmp.Ordering.{Ordering as Comparison};
ghost use Rattle.rkyv_btree_format.specs.Layout.{layout_of};
ghost use Rattle.rkyv_btree_portable.specs.Views.{stands};
ghost use Rattle.rkyv_btree_walk.specs.Ends.{end_of};
ghost use Rattle.rkyv_btree_walk.specs.Nodes.{is_leaf as is_leaf_at};
ghost use Rattle.rkyv_btree_walk.specs.Search.{shown_value};
ghost use Rattle.rkyv_btree_walk.specs.declared.many.Way.TheVariants.{On};
ghost use Rattle.rkyv_btree_walk.specs.mirror.Many.{EachKey, HasEnded, Steps, WayStands, way_at, way_finds};
ghost use Rattle.rkyv_btree_walk.specs.mirror.Node.{NodeCanBeRead, NodeStands, RunStands};
ghost use Rattle.rkyv_btree_walk.specs.mirror.Search.{comparison_at, searched_map, IsComparedBy};

use crate::archived_map::{ArchivedMap, map_len};
use crate::node::{child, is_leaf, leaf_count, root};
use crate::search::{Compared, Stop, search_node};
use crate::shows::Shows;
use rkyv_btree_portable::check::Portable;

/// So many searches go on side by side.
pub const SIDE_BY_SIDE: usize = 16;

/// A tree has at most so many levels.
const LEVELS: usize = 32;

/// How far one of many searches has come.
#[derive(Clone, Copy)]
pub enum Way {
    /// It goes on at this node.
    On(u32),
    /// It ended at an entry, by its node and number.
    Found(u32, u32),
    /// It ended without one.
    Absent,
}

impl Way {
    /// Returns the entry at which the search ended, by its node and number.
    #[inline(always)]
    pub fn end(self) -> Option<(u32, u32)>
        ensures { result ≡ end_of self }
    {
        match self {
            Way::Found(node, index) => Some((node, index)),
            _ => None,
        }
    }

    /// Whether the search goes on.
    #[inline(always)]
    fn goes_on(self) -> bool
        ensures { result ≡ false → HasEnded self }
    {
        matches!(self, Way::On(_))
    }
}

/// Searches the leaf at `node` for a key, where the way ends.
#[inline(always)]
fn end_in_leaf<
    'a,
    Q,
    K: Portable,
    V: Portable,
    M: ArchivedMap<Key = K, Mapped = V>,
    W: Shows<'a, K>,
    C: Fn(&Q, W) -> Compared,
>(buf: &'a [u8], node: u32, key: &Q, cmp: &C, all: bool) -> Way
    requires callable { C.IsAlwaysCallable cmp.now }
    requires node { NodeCanBeRead K.kind V.kind M.E buf.now node }
    requires leaf { is_leaf_at (layout_of K.kind V.kind M.E) buf.now node ≡ true }
    ensures { Steps K.kind V.kind M.E buf.now
        (IsComparedBy (C.post cmp.now) (shown_value K.kind W.Shows)) key.now (On node) result }
{
    let count = leaf_count::<K, V, M>(buf, node);
    match search_node::<Q, K, V, M, W, C>(buf, node, count, key, cmp, all) {
        Stop::At(i) => Way::Found(node, i),
        Stop::Before(_) => Way::Absent,
    }
}

/// Searches the inner node at `node` for a key, from where the way may go on below.
#[inline(always)]
fn go_below<
    'a,
    Q,
    K: Portable,
    V: Portable,
    M: ArchivedMap<Key = K, Mapped = V>,
    W: Shows<'a, K>,
    C: Fn(&Q, W) -> Compared,
>(buf: &'a [u8], node: u32, key: &Q, cmp: &C, all: bool) -> Way
    requires callable { C.IsAlwaysCallable cmp.now }
    requires node { NodeCanBeRead K.kind V.kind M.E buf.now node }
    requires inner { is_leaf_at (layout_of K.kind V.kind M.E) buf.now node ≡ false }
    ensures { Steps K.kind V.kind M.E buf.now
        (IsComparedBy (C.post cmp.now) (shown_value K.kind W.Shows)) key.now (On node) result }
{
    let count = M::entries_per_node() as u32;
    match search_node::<Q, K, V, M, W, C>(buf, node, count, key, cmp, all) {
        Stop::At(i) => Way::Found(node, i),
        Stop::Before(i) => match child::<K, V, M>(buf, node, i as usize) {
            None => Way::Absent,
            Some(below) => Way::On(below),
        },
    }
}

/// Returns the way a level below, which is the same if it has ended.
#[inline(always)]
fn step_down<
    'a,
    Q,
    K: Portable,
    V: Portable,
    M: ArchivedMap<Key = K, Mapped = V>,
    W: Shows<'a, K>,
    C: Fn(&Q, W) -> Compared,
>(buf: &'a [u8], way: Way, key: &Q, cmp: &C, all: bool) -> Way
    requires callable { C.IsAlwaysCallable cmp.now }
    requires node { (node : ℕ) → way ≡ On node → NodeCanBeRead K.kind V.kind M.E buf.now node }
    ensures { Steps K.kind V.kind M.E buf.now
        (IsComparedBy (C.post cmp.now) (shown_value K.kind W.Shows)) key.now way result }
{
    match way {
        Way::On(node) => {
            if is_leaf::<K, V, M>(buf, node) {
                return end_in_leaf::<Q, K, V, M, W, C>(buf, node, key, cmp, all);
            }
            go_below::<Q, K, V, M, W, C>(buf, node, key, cmp, all)
        }
        ended => ended,
    }
}

/// Takes the search for each key one level down, and returns whether any goes on.
#[inline(always)]
fn level_down<
    'a,
    Q,
    K: Portable,
    V: Portable,
    M: ArchivedMap<Key = K, Mapped = V>,
    W: Shows<'a, K>,
    C: Fn(&Q, W) -> Compared,
>(buf: &'a [u8], keys: &[Q], cmp: &C, all: bool, ways: &mut [Way; 16]) -> bool
    requires callable { C.IsAlwaysCallable cmp.now }
    requires nodes { EachKey keys.now (λ i key. (node : ℕ) → way_at ways.old i ≡ On node
        → NodeCanBeRead K.kind V.kind M.E buf.now node) }
    ensures steps { EachKey keys.now (λ i key. Steps K.kind V.kind M.E buf.now
        (IsComparedBy (C.post cmp.now) (shown_value K.kind W.Shows))
        key (way_at ways.old i) (way_at ways.new i)) }
    ensures ended { result ≡ false → EachKey keys.now (λ i key. HasEnded (way_at ways.new i)) }
{
    let mut going = false;
    for i in 0..keys.len().min(SIDE_BY_SIDE) {
        let way = step_down::<Q, K, V, M, W, C>(buf, ways[i], &keys[i], cmp, all);
        ways[i] = way;
        going |= way.goes_on();
    }
    going
}

/// Returns the way of a search at its start: at the root, or absent in an empty map.
fn first_way<K: Portable, V: Portable, M: ArchivedMap<Key = K, Mapped = V>>(
    buf: &[u8],
    pos: u32,
) -> Way
    requires { IsTrue (stands M.kind buf.now pos) }
    ensures stands { WayStands K.kind V.kind M.E buf.now 32 result }
    ensures finds { (compare : K.kind.Value → Comparison)
        → (searched_map (layout_of K.kind V.kind M.E) buf.now
        (comparison_at K.kind V.kind M.E buf.now compare) pos).0
        ≡ way_finds K.kind V.kind M.E buf.now compare 32 result }
    ensures nodes { (node : ℕ) → NodeStands K.kind V.kind M.E buf.now node
        → NodeCanBeRead K.kind V.kind M.E buf.now node }
{
    M::opened(buf, pos);
    let count = map_len::<K, V, M>(buf, pos);
    if count > 0 {
        return Way::On(root(buf, pos));
    }
    Way::Absent
}

/// Returns the ways of the searches of the map at `pos` for the first sixteen keys, which have all ended.
pub fn search_many<
    'a,
    Q,
    K: Portable,
    V: Portable,
    M: ArchivedMap<Key = K, Mapped = V>,
    W: Shows<'a, K>,
    C: Fn(&Q, W) -> Compared,
>(buf: &'a [u8], pos: u32, keys: &[Q], cmp: &C, all: bool) -> [Way; 16]
    requires callable { C.IsAlwaysCallable cmp.now }
    requires stands { IsTrue (stands M.kind buf.now pos) }
    ensures stands { EachKey keys.now (λ i key. IfSome (end_of (way_at result i)) (λ e.
        RunStands K.kind V.kind M.E buf.now e.0 e.1 (e.1 + 1))) }
    ensures found { EachKey keys.now (λ i key. (c : Q → K.kind.Value → Comparison)
        → IsComparedBy (C.post cmp.now) (shown_value K.kind W.Shows) c
        → end_of (way_at result i) ≡ (searched_map (layout_of K.kind V.kind M.E) buf.now
        (comparison_at K.kind V.kind M.E buf.now (c key)) pos).0) }
{
    let mut ways = [first_way::<K, V, M>(buf, pos); 16];
    for level in 0..LEVELS {
        if !level_down::<Q, K, V, M, W, C>(buf, keys, cmp, all, &mut ways) {
            break;
        }
    }
    ways
}
