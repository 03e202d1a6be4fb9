//! The search of a map in untrusted bytes.
ghost use Rattle.std.specs.Prelude.{◌≡◌, ◌+◌, ◌-◌, ◌*◌, ◌^◌, ◌≤◌, ◌<◌, ℕ, length, IfSome, IfOk, IfErr, IsOk, IsTrue, Ok, suc};
ghost use Rattle.std.specs.declared.cmp.Ordering.{Ordering as Comparison};
ghost use Rattle.std.specs.declared.cmp.Ordering.TheVariants.{Equal};
ghost use Rattle.rkyv_btree_format.specs.Layout.{layout_of, are_fitting, leaf_size, inner_size};
ghost use Rattle.rkyv_btree_verify.specs.Refusals.{map_len};
ghost use Rattle.rkyv_btree_portable.specs.Views.{stands};
ghost use Rattle.rkyv_btree_walk.specs.Search.{compared_of, shown_value};
ghost use Rattle.rkyv_btree_walk.specs.mirror.Node.{EntryStands, RunStands};
ghost use Rattle.rkyv_btree_walk.specs.Nodes.{entry_count};
ghost use Rattle.rkyv_btree_walk.specs.mirror.Search.{comparison_at, searched, searched_map, IsComparedBy};
ghost use Rattle.rkyv_btree_view.specs.Map.{IsMap};
ghost use Rattle.rkyv_btree_unverified.specs.Lookups.{LookupGives, LookupGivesWithin, TreeGives};
ghost use Rattle.rkyv_btree_unverified.specs.Steps.{HasRoom, KeysGive};
ghost use Rattle.rkyv_btree_unverified.specs.mirror.Passes.{Passes, HaltStands, comparisons_by, NextCounts, NextStands, NextGives, NextPasses, NextFinds, NextEqual};

use crate::node::{check_at, entries_in, node_place};
use rkyv_btree_portable::bytes::num32;
use rkyv_btree_portable::check::{CheckBytes, Portable, check_own_bytes};
use rkyv_btree_portable::refusal::Refusal;
use rkyv_btree_portable::steps::StepCounter;
use rkyv_btree_walk::archived_map::ArchivedMap;
use rkyv_btree_walk::node::{key_pos, value_pos};
use rkyv_btree_walk::search::{Compared, NEAR, is_searched_at_once};
use rkyv_btree_walk::shows::Shows;

/// Where the search of a node stops: at an entry that gives Equal, or before the first that gives Less, or after all.
#[derive(Clone, Copy)]
pub enum Halt {
    Found(u32),
    Below(u32),
}

/// Compares the query with the key at `pos`, which has to mean something.
#[inline(always)]
fn compare_at<'a, Q, K: CheckBytes, W: Shows<'a, K>, C: Fn(&Q, W) -> Compared>(
    buf: &'a [u8],
    pos: u32,
    key: &Q,
    cmp: &C,
) -> Result<Compared, Refusal>
    requires callable { C.IsAlwaysCallable cmp.now }
    requires fitting { IsTrue K.kind.is_fitting }
    ensures stands { IfOk result (λ _. IsTrue (stands K.kind buf.now pos)) }
    ensures accepts { IsTrue (stands K.kind buf.now pos) → IsOk result }
    ensures compares { (c : Q → K.kind.Value → Comparison) →
        IsComparedBy (C.post cmp.now) (shown_value K.kind W.Shows) c
        → IfOk result (λ r. r ≡ compared_of (c key.now (K.kind.read buf.now pos))) }
    ensures refused { IfErr result (λ refusal. K.Refuses buf.now 0 pos pos refusal) }
{
    match check_at::<K>(buf, pos) {
        Err(refusal) => Err(refusal),
        Ok(_) => Ok(cmp(key, W::at(buf, pos))),
    }
}

/// Compares the query with the keys of a node, from the left.
#[inline(always)]
fn search_keys<
    'a,
    Q,
    K: CheckBytes,
    V: CheckBytes,
    M: ArchivedMap<Key = K, Mapped = V>,
    W: Shows<'a, K>,
    C: Fn(&Q, W) -> Compared,
>(
    buf: &'a [u8],
    node: u32,
    count: u32,
    key: &Q,
    cmp: &C,
    steps: &mut StepCounter,
) -> Result<Halt, Refusal>
    requires callable { C.IsAlwaysCallable cmp.now }
    requires fitting { IsTrue (are_fitting K.kind V.kind M.E) }
    requires short { length buf.now ≤ 4294967295 }
    requires inside { node + leaf_size (layout_of K.kind V.kind M.E) ≤ length buf.now }
    requires few { count ≤ M.E }
    requires steps { steps.old + count < 2 ^ 64 }
    ensures few { steps.new ≤ steps.old + count }
    ensures more { steps.old ≤ steps.new }
    ensures counts { IfOk result (λ halt. steps.new ≡ steps.old + comparisons_by count halt) }
    ensures stands { IfOk result (HaltStands K.kind V.kind M.E buf.now node count) }
    ensures accepts { ((i : ℕ) → i < count → EntryStands K.kind V.kind M.E buf.now
        (node, i)) → IsOk result }
    ensures gives { (c : Q → K.kind.Value → Comparison)
        → IsComparedBy (C.post cmp.now) (shown_value K.kind W.Shows) c
        → KeysGive K.kind V.kind M.E buf.now (c key.now) K.Refuses V.Refuses node count result }
{
    for i in 0..count {
        steps.step();
        let pos = key_pos::<K, V, M>(node, i as usize);
        let compared = match compare_at::<Q, K, W, C>(buf, pos, key, cmp) {
            Ok(compared) => compared,
            Err(refusal) => return Err(refusal),
        };
        if compared.past {
            continue;
        }
        if compared.equal {
            return match check_at::<V>(buf, value_pos::<K, V, M>(node, i as usize)) {
                Ok(_) => Ok(Halt::Found(i)),
                Err(refusal) => Err(refusal),
            };
        }
        return Ok(Halt::Below(i));
    }
    Ok(Halt::Below(count))
}

/// Compares the query with all keys of a node, so that no jump depends on a key but on one that is equal. If a key is at fault, it
/// does what `search_keys` does, which may end before that key.
#[inline(always)]
fn search_keys_at_once<
    'a,
    Q,
    K: CheckBytes,
    V: CheckBytes,
    M: ArchivedMap<Key = K, Mapped = V>,
    W: Shows<'a, K>,
    C: Fn(&Q, W) -> Compared,
>(
    buf: &'a [u8],
    node: u32,
    count: u32,
    key: &Q,
    cmp: &C,
    steps: &mut StepCounter,
) -> Result<Halt, Refusal>
    requires callable { C.IsAlwaysCallable cmp.now }
    requires fitting { IsTrue (are_fitting K.kind V.kind M.E) }
    requires short { length buf.now ≤ 4294967295 }
    requires inside { node + leaf_size (layout_of K.kind V.kind M.E) ≤ length buf.now }
    requires few { count ≤ M.E }
    requires steps { steps.old + count < 2 ^ 64 }
    ensures few { steps.new ≤ steps.old + count }
    ensures more { steps.old ≤ steps.new }
    ensures counts { IfOk result (λ halt. steps.new ≡ steps.old + comparisons_by count halt) }
    ensures stands { IfOk result (HaltStands K.kind V.kind M.E buf.now node count) }
    ensures accepts { ((i : ℕ) → i < count → EntryStands K.kind V.kind M.E buf.now
        (node, i)) → IsOk result }
    ensures gives { (c : Q → K.kind.Value → Comparison)
        → IsComparedBy (C.post cmp.now) (shown_value K.kind W.Shows) c
        → KeysGive K.kind V.kind M.E buf.now (c key.now) K.Refuses V.Refuses node count result }
{
    let mut next = 0;
    let mut past = true;
    let mut equal = false;
    for number in 0..count {
        let pos = key_pos::<K, V, M>(node, number as usize);
        let compared = match compare_at::<Q, K, W, C>(buf, pos, key, cmp) {
            Ok(compared) => compared,
            Err(_) => return search_keys::<Q, K, V, M, W, C>(buf, node, count, key, cmp, steps),
        };
        equal |= past & compared.equal;
        past &= compared.past;
        next += u32::from(past);
    }
    if next == count {
        steps.add(u64::from(count));
        return Ok(Halt::Below(count));
    }
    steps.add(u64::from(next + 1));
    if !equal {
        return Ok(Halt::Below(next));
    }
    match check_at::<V>(buf, value_pos::<K, V, M>(node, next as usize)) {
        Ok(_) => Ok(Halt::Found(next)),
        Err(refusal) => Err(refusal),
    }
}

/// Compares the query with the keys of a node. Where it may compare them all, and they are numbers, it does that at once.
#[inline(always)]
fn halt_of_node<
    'a,
    Q,
    K: CheckBytes,
    V: CheckBytes,
    M: ArchivedMap<Key = K, Mapped = V>,
    W: Shows<'a, K>,
    C: Fn(&Q, W) -> Compared,
>(
    buf: &'a [u8],
    node: u32,
    count: u32,
    key: &Q,
    cmp: &C,
    steps: &mut StepCounter,
    all: bool,
) -> Result<Halt, Refusal>
    requires callable { C.IsAlwaysCallable cmp.now }
    requires fitting { IsTrue (are_fitting K.kind V.kind M.E) }
    requires short { length buf.now ≤ 4294967295 }
    requires inside { node + leaf_size (layout_of K.kind V.kind M.E) ≤ length buf.now }
    requires few { count ≤ M.E }
    requires steps { steps.old + count < 2 ^ 64 }
    ensures few { steps.new ≤ steps.old + count }
    ensures more { steps.old ≤ steps.new }
    ensures counts { IfOk result (λ halt. steps.new ≡ steps.old + comparisons_by count halt) }
    ensures stands { IfOk result (HaltStands K.kind V.kind M.E buf.now node count) }
    ensures accepts { ((i : ℕ) → i < count → EntryStands K.kind V.kind M.E buf.now
        (node, i)) → IsOk result }
    ensures gives { (c : Q → K.kind.Value → Comparison)
        → IsComparedBy (C.post cmp.now) (shown_value K.kind W.Shows) c
        → KeysGive K.kind V.kind M.E buf.now (c key.now) K.Refuses V.Refuses node count result }
{
    if all && is_searched_at_once::<K, V, M>() {
        return search_keys_at_once::<Q, K, V, M, W, C>(buf, node, count, key, cmp, steps);
    }
    search_keys::<Q, K, V, M, W, C>(buf, node, count, key, cmp, steps)
}

/// Where the search of a tree goes on after a node: it has found an entry of the node, or ends, or
/// goes down to a node.
#[derive(Clone, Copy)]
pub enum Next {
    Hit(u32),
    Miss,
    Down(u32),
}

/// The search of a node at a place with room for a leaf.
#[inline(always)]
pub(crate) fn search_node<
    'a,
    Q,
    K: CheckBytes,
    V: CheckBytes,
    M: ArchivedMap<Key = K, Mapped = V>,
    W: Shows<'a, K>,
    C: Fn(&Q, W) -> Compared,
>(
    buf: &'a [u8],
    node: u32,
    hi: u32,
    key: &Q,
    cmp: &C,
    steps: &mut StepCounter,
    all: bool,
) -> Result<Next, Refusal>
    requires callable { C.IsAlwaysCallable cmp.now }
    requires fitting { IsTrue (are_fitting K.kind V.kind M.E) }
    requires short { length buf.now ≤ 4294967295 }
    requires room { HasRoom K.kind V.kind M.E hi node }
    requires inside { hi ≤ length buf.now }
    requires steps { steps.old + M.E < 2 ^ 64 }
    ensures few { steps.new ≤ steps.old + M.E }
    ensures more { steps.old ≤ steps.new }
    ensures counts { (m : ℕ) → Passes K.kind V.kind M.E buf.now (suc m) hi node
        → (c : Q → K.kind.Value → Comparison)
        → IsComparedBy (C.post cmp.now) (shown_value K.kind W.Shows) c
        → let s = layout_of K.kind V.kind M.E in
        let comparison = comparison_at K.kind V.kind M.E buf.now (c key.now) in
        IfOk result (NextCounts s buf.now comparison m steps.old steps.new
        (searched s buf.now comparison (suc m) node).1) }
    ensures stands { IfOk result (NextStands K.kind V.kind M.E buf.now node) }
    ensures equal { (c : Q → K.kind.Value → Comparison)
        → IsComparedBy (C.post cmp.now) (shown_value K.kind W.Shows) c
        → IfOk result (NextEqual (comparison_at K.kind V.kind M.E buf.now (c key.now)) node) }
    ensures accepts { (m : ℕ) → Passes K.kind V.kind M.E buf.now (suc m) hi node → IsOk result }
    ensures passes { (m : ℕ) → Passes K.kind V.kind M.E buf.now (suc m) hi node
        → IfOk result (NextPasses K.kind V.kind M.E buf.now m node) }
    ensures found { (m : ℕ) → Passes K.kind V.kind M.E buf.now (suc m) hi node
        → (c : Q → K.kind.Value → Comparison)
        → IsComparedBy (C.post cmp.now) (shown_value K.kind W.Shows) c
        → let s = layout_of K.kind V.kind M.E in
        let comparison = comparison_at K.kind V.kind M.E buf.now (c key.now) in
        IfOk result (NextFinds s buf.now comparison m node (searched s buf.now comparison (suc m) node).0) }
    ensures gives { (c : Q → K.kind.Value → Comparison)
        → IsComparedBy (C.post cmp.now) (shown_value K.kind W.Shows) c
        → (m : ℕ) → NextGives K.kind V.kind M.E buf.now
        (c key.now) K.Refuses V.Refuses m hi node result }
{
    let count = match entries_in::<K, V, M>(buf, node, hi) {
        Ok(count) => count,
        Err(refusal) => return Err(refusal),
    };
    match halt_of_node::<Q, K, V, M, W, C>(buf, node, count, key, cmp, steps, all) {
        Err(refusal) => Err(refusal),
        Ok(Halt::Found(i)) => Ok(Next::Hit(i)),
        Ok(Halt::Below(i)) => {
            if buf[node as usize] == 0 {
                return Ok(Next::Miss);
            }
            let at = node + M::pointer_at(i as usize);
            if num32(buf, at) == 1 {
                return Ok(Next::Miss);
            }
            match node_place::<K, V, M>(buf, at, node) {
                Ok(below) => Ok(Next::Down(below)),
                Err(refusal) => Err(refusal),
            }
        }
    }
}

/// The search of the tree at `root`, where a leaf has room before `hi`, of at most 32 levels.
#[inline(always)]
fn search_tree<
    'a,
    Q,
    K: CheckBytes,
    V: CheckBytes,
    M: ArchivedMap<Key = K, Mapped = V>,
    W: Shows<'a, K>,
    C: Fn(&Q, W) -> Compared,
>(
    buf: &'a [u8],
    root: u32,
    hi: u32,
    key: &Q,
    cmp: &C,
    steps: &mut StepCounter,
    nodes: &mut StepCounter,
    all: bool,
) -> Result<Option<(u32, u32)>, Refusal>
    requires callable { C.IsAlwaysCallable cmp.now }
    requires fitting { IsTrue (are_fitting K.kind V.kind M.E) }
    requires short { length buf.now ≤ 4294967295 }
    requires room { HasRoom K.kind V.kind M.E hi root }
    requires inside { hi ≤ length buf.now }
    requires steps { steps.old + M.E * 32 < 2 ^ 64 }
    requires nodes { nodes.old + 32 < 2 ^ 64 }
    ensures few { steps.new ≤ steps.old + M.E * 32 }
    ensures more { steps.old ≤ steps.new }
    ensures nodes { nodes.new ≤ nodes.old + 32 }
    ensures counts { Passes K.kind V.kind M.E buf.now 32 hi root
        → (c : Q → K.kind.Value → Comparison)
        → IsComparedBy (C.post cmp.now) (shown_value K.kind W.Shows) c
        → IfOk result (λ _. steps.new ≡ steps.old + (searched (layout_of K.kind V.kind M.E) buf.now
        (comparison_at K.kind V.kind M.E buf.now (c key.now)) 32 root).1) }
    ensures stands { IfOk result (λ found. IfSome found (λ e.
        RunStands K.kind V.kind M.E buf.now e.0 e.1 (e.1 + 1))) }
    ensures equal { (c : Q → K.kind.Value → Comparison)
        → IsComparedBy (C.post cmp.now) (shown_value K.kind W.Shows) c
        → IfOk result (λ found. IfSome found (λ e.
        comparison_at K.kind V.kind M.E buf.now (c key.now) e ≡ Equal)) }
    ensures accepts { Passes K.kind V.kind M.E buf.now 32 hi root → IsOk result }
    ensures found { Passes K.kind V.kind M.E buf.now 32 hi root
        → (c : Q → K.kind.Value → Comparison)
        → IsComparedBy (C.post cmp.now) (shown_value K.kind W.Shows) c
        → IfOk result (λ found. found ≡ (searched (layout_of K.kind V.kind M.E) buf.now
        (comparison_at K.kind V.kind M.E buf.now (c key.now)) 32 root).0) }
    ensures gives { (c : Q → K.kind.Value → Comparison)
        → IsComparedBy (C.post cmp.now) (shown_value K.kind W.Shows) c
        → TreeGives K.kind V.kind M.E buf.now (c key.now) K.Refuses V.Refuses 32 hi root result }
    ensures deep { (c : Q → K.kind.Value → Comparison)
        → IsComparedBy (C.post cmp.now) (shown_value K.kind W.Shows) c
        → IfOk result (λ found. TreeGives K.kind V.kind M.E buf.now (c key.now) K.Refuses V.Refuses
        (nodes.new - nodes.old) hi root (Ok found)) }
{
    let mut node = root;
    let mut end = hi;
    let mut levels = 32u32;
    'down: loop {
        if levels == 0 {
            return Err(Refusal::TooDeep {
                pos: i64::from(node),
            });
        }
        nodes.step();
        let near = levels > 32 - NEAR;
        match search_node::<Q, K, V, M, W, C>(buf, node, end, key, cmp, steps, all && near) {
            Err(refusal) => return Err(refusal),
            Ok(Next::Hit(i)) => return Ok(Some((node, i))),
            Ok(Next::Miss) => return Ok(None),
            Ok(Next::Down(below)) => {
                end = node;
                node = below;
                levels -= 1;
            }
        }
    }
}

/// The entry of the map at `pos` at which a search ends with Equal, by its node and number.
#[inline(always)]
pub(crate) fn search<
    'a,
    Q,
    K: CheckBytes,
    V: CheckBytes,
    M: ArchivedMap<Key = K, Mapped = V>,
    W: Shows<'a, K>,
    C: Fn(&Q, W) -> Compared,
>(
    buf: &'a [u8],
    pos: u32,
    key: &Q,
    cmp: &C,
    steps: &mut StepCounter,
    nodes: &mut StepCounter,
    all: bool,
) -> Result<Option<(u32, u32)>, Refusal>
    requires callable { C.IsAlwaysCallable cmp.now }
    requires fitting { IsTrue (are_fitting K.kind V.kind M.E) }
    requires steps { steps.old ≤ 9223372036854775807 }
    requires nodes { nodes.old ≤ 9223372036854775807 }
    ensures few { steps.new ≤ steps.old + M.E * 32 }
    ensures more { steps.old ≤ steps.new }
    ensures nodes { nodes.new ≤ nodes.old + 32 }
    ensures none { map_len K.kind V.kind M.E buf.now pos ≡ 0
        → (steps.new ≡ steps.old) × (nodes.new ≡ nodes.old) }
    ensures counts { (m : _) → IsMap K.kind V.kind M.E buf.now pos m
        → (c : Q → K.kind.Value → Comparison)
        → IsComparedBy (C.post cmp.now) (shown_value K.kind W.Shows) c
        → IfOk result (λ _. steps.new ≡ steps.old + (searched_map
        (layout_of K.kind V.kind M.E) buf.now
        (comparison_at K.kind V.kind M.E buf.now (c key.now)) pos).1) }
    ensures short { IfOk result (λ _. length buf.now ≤ 4294967295) }
    ensures stands { IfOk result (λ found. IfSome found (λ e.
        RunStands K.kind V.kind M.E buf.now e.0 e.1 (e.1 + 1))) }
    ensures equal { (c : Q → K.kind.Value → Comparison)
        → IsComparedBy (C.post cmp.now) (shown_value K.kind W.Shows) c
        → IfOk result (λ found. IfSome found (λ e.
        comparison_at K.kind V.kind M.E buf.now (c key.now) e ≡ Equal)) }
    ensures accepts { (m : _) → IsMap K.kind V.kind M.E buf.now pos m → IsOk result }
    ensures found { (m : _) → IsMap K.kind V.kind M.E buf.now pos m
        → (c : Q → K.kind.Value → Comparison)
        → IsComparedBy (C.post cmp.now) (shown_value K.kind W.Shows) c
        → IfOk result (λ found. found ≡ (searched_map (layout_of K.kind V.kind M.E) buf.now
        (comparison_at K.kind V.kind M.E buf.now (c key.now)) pos).0) }
    ensures gives { (c : Q → K.kind.Value → Comparison)
        → IsComparedBy (C.post cmp.now) (shown_value K.kind W.Shows) c
        → LookupGives K.kind V.kind M.E buf.now (c key.now) K.Refuses V.Refuses pos result }
    ensures deep { (c : Q → K.kind.Value → Comparison)
        → IsComparedBy (C.post cmp.now) (shown_value K.kind W.Shows) c
        → IfOk result (λ found. LookupGivesWithin K.kind V.kind M.E buf.now (c key.now) K.Refuses
        V.Refuses (nodes.new - nodes.old) pos (Ok found)) }
{
    match check_own_bytes(buf, pos, 8, 4) {
        Err(refusal) => Err(refusal),
        Ok(_) => {
            if num32(buf, pos + 4) == 0 {
                return Ok(None);
            }
            match node_place::<K, V, M>(buf, pos, pos) {
                Ok(root) => {
                    search_tree::<Q, K, V, M, W, C>(buf, root, pos, key, cmp, steps, nodes, all)
                }
                Err(refusal) => Err(refusal),
            }
        }
    }
}
