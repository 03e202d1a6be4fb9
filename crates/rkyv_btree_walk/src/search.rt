//! Searches of a map for an entry, by a comparison with its key.
ghost use Rattle.std.specs.Prelude.{◌≡◌, ◌+◌, ◌*◌, ◌≤◌, length, IfSome, IsTrue};
ghost use Rattle.std.specs.declared.cmp.Ordering.{Ordering as Comparison};
ghost use Rattle.rkyv_btree_format.specs.Layout.{layout_of};
ghost use Rattle.rkyv_btree_format.specs.Read.{read_map, map_tree};
ghost use Rattle.rkyv_btree_shape.specs.Tree.{list};
ghost use Rattle.rkyv_btree_portable.specs.Views.{stands};
ghost use Rattle.rkyv_btree_walk.specs.Search.{compared_of, shown_value};
ghost use Rattle.rkyv_btree_walk.specs.mirror.Node.{RunStands, CanBeSearched, TreeCanBeRead};
ghost use Rattle.rkyv_btree_walk.specs.mirror.Path.{tree_rest};
ghost use Rattle.rkyv_btree_walk.specs.mirror.Search.{StopsAt, StopsWithin, IsListed, comparisons_by, comparison_at, searched, searched_map, IsComparedBy};

use crate::archived_map::{ArchivedMap, map_len};
use crate::node::{child, is_leaf, key_pos, leaf_count, root};
use crate::seek::is_one_number;
use crate::shows::Shows;
use rkyv_btree_portable::check::Portable;
use std::cmp::Ordering;

/// What a search needs of a comparison: two results, so that it compiles to a test of each.
#[derive(Clone, Copy, Drop)]
pub struct Compared {
    /// Whether the query is past the key.
    pub past: bool,
    /// Whether it is equal to the key.
    pub equal: bool,
}

impl Compared {
    /// Returns what a comparison of the query with the key says.
    #[inline(always)]
    pub fn of(order: Ordering) -> Compared
        ensures { result ≡ compared_of order }
    {
        Compared {
            past: order == Ordering::Greater,
            equal: order == Ordering::Equal,
        }
    }
}

/// How the search of a node stops: at an entry that gives Equal, or before the first that gives Less, or after all.
#[derive(Clone, Copy)]
pub(crate) enum Stop {
    At(u32),
    Before(u32),
}

impl Stop {
    /// How many entries were asked, of `count`.
    #[inline(always)]
    fn comparisons(self, count: u32) -> u32
        requires { StopsWithin count self }
        ensures value { result ≡ comparisons_by count self }
        ensures within { result ≤ count }
    {
        match self {
            Stop::At(i) => i + 1,
            Stop::Before(i) => { if i < count { i + 1 } else { count } }
        }
    }
}

/// Compares the query with the key at `pos`.
#[inline(always)]
fn compare_at<'a, Q, K: Portable, W: Shows<'a, K>, C: Fn(&Q, W) -> Compared>(
    buf: &'a [u8],
    pos: u32,
    key: &Q,
    cmp: &C,
) -> Compared
    requires callable { C.IsAlwaysCallable cmp.now }
    requires stands { IsTrue (stands K.kind buf.now pos) }
    ensures { (c : Q → K.kind.Value → Comparison) → IsComparedBy (C.post cmp.now) (shown_value K.kind W.Shows) c
        → result ≡ compared_of (c key.now (K.kind.read buf.now pos)) }
{
    cmp(key, W::at(buf, pos))
}

/// Compares the query with the keys of a node, from the left, up to the first that it isn't past.
#[inline(always)]
fn search_in_turn<
    'a,
    Q,
    K: Portable,
    V: Portable,
    M: ArchivedMap<Key = K, Mapped = V>,
    W: Shows<'a, K>,
    C: Fn(&Q, W) -> Compared,
>(buf: &'a [u8], node: u32, count: u32, key: &Q, cmp: &C) -> Stop
    requires callable { C.IsAlwaysCallable cmp.now }
    requires node { CanBeSearched K.kind V.kind M.E buf.now node count }
    ensures within { StopsWithin count result }
    ensures stops { (c : Q → K.kind.Value → Comparison)
        → IsComparedBy (C.post cmp.now) (shown_value K.kind W.Shows) c
        → StopsAt (λ i. comparison_at K.kind V.kind M.E buf.now (c key.now) (node, i)) count result }
{
    for i in 0..count {
        let pos = key_pos::<K, V, M>(node, i as usize);
        let compared = compare_at::<Q, K, W, C>(buf, pos, key, cmp);
        if compared.past {
            continue;
        }
        if compared.equal {
            return Stop::At(i);
        }
        return Stop::Before(i);
    }
    Stop::Before(count)
}

/// Compares the query with all keys of a node, so that no jump depends on a key but on one that is equal.
#[inline(always)]
fn search_at_once<
    'a,
    Q,
    K: Portable,
    V: Portable,
    M: ArchivedMap<Key = K, Mapped = V>,
    W: Shows<'a, K>,
    C: Fn(&Q, W) -> Compared,
>(buf: &'a [u8], node: u32, count: u32, key: &Q, cmp: &C) -> Stop
    requires callable { C.IsAlwaysCallable cmp.now }
    requires node { CanBeSearched K.kind V.kind M.E buf.now node count }
    ensures within { StopsWithin count result }
    ensures stops { (c : Q → K.kind.Value → Comparison)
        → IsComparedBy (C.post cmp.now) (shown_value K.kind W.Shows) c
        → StopsAt (λ i. comparison_at K.kind V.kind M.E buf.now (c key.now) (node, i)) count result }
{
    let mut next = 0;
    let mut past = true;
    let mut equal = false;
    for number in 0..count {
        let pos = key_pos::<K, V, M>(node, number as usize);
        let compared = compare_at::<Q, K, W, C>(buf, pos, key, cmp);
        equal |= past & compared.equal;
        past &= compared.past;
        next += u32::from(past);
    }
    if equal && next < count {
        return Stop::At(next);
    }
    Stop::Before(next)
}

/// A node of more entries isn't searched at once.
const AT_ONCE: usize = 16;

/// So many levels are searched at once. Nodes further down are seldom in a processor's cache, where a search in turn is faster:
/// the processor foresees the child that it goes to, and begins to read it.
pub const NEAR: u32 = 5;

/// Returns whether the keys of a node are numbers, and few enough, to be compared at once.
#[inline(always)]
pub fn is_searched_at_once<K: Portable, V: Portable, M: ArchivedMap<Key = K, Mapped = V>>() -> bool
    requires { IsTrue K.kind.is_fitting }
{
    is_one_number::<K>() && M::entries_per_node() <= AT_ONCE
}

/// Compares the query with the keys of a node. Where it may compare them all, and they are numbers, it does that at once.
#[inline(always)]
pub(crate) fn search_node<
    'a,
    Q,
    K: Portable,
    V: Portable,
    M: ArchivedMap<Key = K, Mapped = V>,
    W: Shows<'a, K>,
    C: Fn(&Q, W) -> Compared,
>(buf: &'a [u8], node: u32, count: u32, key: &Q, cmp: &C, all: bool) -> Stop
    requires callable { C.IsAlwaysCallable cmp.now }
    requires node { CanBeSearched K.kind V.kind M.E buf.now node count }
    ensures within { StopsWithin count result }
    ensures stops { (c : Q → K.kind.Value → Comparison)
        → IsComparedBy (C.post cmp.now) (shown_value K.kind W.Shows) c
        → StopsAt (λ i. comparison_at K.kind V.kind M.E buf.now (c key.now) (node, i)) count result }
{
    if all && is_searched_at_once::<K, V, M>() {
        return search_at_once::<Q, K, V, M, W, C>(buf, node, count, key, cmp);
    }
    search_in_turn::<Q, K, V, M, W, C>(buf, node, count, key, cmp)
}

/// The entry of the tree at `from` at which a search ends with Equal, by its node and number, and how many entries it
/// asks.
#[inline(always)]
fn search_tree<
    'a,
    Q,
    K: Portable,
    V: Portable,
    M: ArchivedMap<Key = K, Mapped = V>,
    W: Shows<'a, K>,
    C: Fn(&Q, W) -> Compared,
>(buf: &'a [u8], from: u32, key: &Q, cmp: &C, all: bool) -> (Option<(u32, u32)>, u64)
    requires callable { C.IsAlwaysCallable cmp.now }
    requires tree { TreeCanBeRead K.kind V.kind M.E buf.now from }
    ensures stands { IfSome result.0 (λ e. RunStands K.kind V.kind M.E buf.now e.0 e.1 (e.1 + 1)) }
    ensures found { (c : Q → K.kind.Value → Comparison)
        → IsComparedBy (C.post cmp.now) (shown_value K.kind W.Shows) c
        → result ≡ searched (layout_of K.kind V.kind M.E) buf.now
        (comparison_at K.kind V.kind M.E buf.now (c key.now)) 32 from }
    ensures listed { let s = layout_of K.kind V.kind M.E in
        IfSome result.0 (λ e. IsListed e (tree_rest s buf.now 32 from 0)) }
    ensures few { result.1 ≤ M.E * 32 }
{
    let mut node = from;
    let mut compared = 0u64;
    let mut near = NEAR;
    'down: loop {
        if is_leaf::<K, V, M>(buf, node) {
            let count = leaf_count::<K, V, M>(buf, node);
            let stop = search_node::<Q, K, V, M, W, C>(buf, node, count, key, cmp, all);
            compared += u64::from(stop.comparisons(count));
            return match stop {
                Stop::At(i) => (Some((node, i)), compared),
                Stop::Before(_) => (None, compared),
            };
        }
        // An inner node's number of entries is known when this is compiled, so its search has no loop.
        let count = M::entries_per_node() as u32;
        let stop = search_node::<Q, K, V, M, W, C>(buf, node, count, key, cmp, all && near > 0);
        near = near.saturating_sub(1);
        compared += u64::from(stop.comparisons(count));
        match stop {
            Stop::At(i) => return (Some((node, i)), compared),
            Stop::Before(i) => match child::<K, V, M>(buf, node, i as usize) {
                None => return (None, compared),
                Some(below) => node = below,
            },
        }
    }
}

/// Returns the entry of the map at `pos` at which a search ends with Equal, by its node and number, and how many entries it asks.
#[inline(always)]
pub fn search<
    'a,
    Q,
    K: Portable,
    V: Portable,
    M: ArchivedMap<Key = K, Mapped = V>,
    W: Shows<'a, K>,
    C: Fn(&Q, W) -> Compared,
>(buf: &'a [u8], pos: u32, key: &Q, cmp: &C, all: bool) -> (Option<(u32, u32)>, u64)
    requires callable { C.IsAlwaysCallable cmp.now }
    requires stands { IsTrue (stands M.kind buf.now pos) }
    ensures stands { IfSome result.0 (λ e. RunStands K.kind V.kind M.E buf.now e.0 e.1 (e.1 + 1)) }
    ensures found { (c : Q → K.kind.Value → Comparison)
        → IsComparedBy (C.post cmp.now) (shown_value K.kind W.Shows) c
        → result ≡ searched_map (layout_of K.kind V.kind M.E) buf.now
        (comparison_at K.kind V.kind M.E buf.now (c key.now)) pos }
    ensures listed { let s = layout_of K.kind V.kind M.E in
        IfSome result.0 (λ e. IsListed e (list (map_tree s buf.now pos))) }
    ensures none { length (read_map K.kind V.kind M.E buf.now pos) ≡ 0 → result.1 ≡ 0 }
    ensures few { result.1 ≤ M.E * 32 }
{
    M::opened(buf, pos);
    let count = map_len::<K, V, M>(buf, pos);
    if count > 0 {
        return search_tree::<Q, K, V, M, W, C>(buf, root(buf, pos), key, cmp, all);
    }
    (None, 0)
}
