//! The check of foreign bytes for a map: the order of checking is part of what the calls promise.
ghost use Rattle.std.specs.Prelude.{◌↔◌, ◌≡◌, ◌≤◌, ◌<◌, ◌+◌, ◌-◌, ◌*◌, ◌/◌, ◌%◌, ◌^◌, ℕ, List, length, IfOk, IfErr, Ok, Err, pos, IsTrue};
ghost use Rattle.rkyv_btree_portable.specs.declared.refusal.Refusal.{Refusal};
ghost use Rattle.rkyv_btree_portable.specs.declared.check.Window.{Window};
ghost use Rattle.rkyv_btree_verify.specs.Claims.{ClaimsAreApart, NodesAreFew};
ghost use Rattle.rkyv_btree_verify.specs.Opening.{IsMapIn, RefusesMapIn, CountsNodes};
ghost use Rattle.rkyv_btree_verify.specs.Refusals.{NoMapIsRefused, OneRefusal, NoTreeIsRefused, OrderIsNotRefused};
ghost use Rattle.rkyv_btree_format.specs.Layout.{layout_of, are_fitting, leaf_size, inner_size};
ghost use Rattle.rkyv_btree_verify.specs.mirror.Check.{node_place};
ghost use Rattle.rkyv_btree_verify.specs.mirror.Counted.{Within};
ghost use Rattle.rkyv_btree_verify.specs.mirror.Maps.{entry_answer, entries_answer, leaf_answer, node_answer, pointer_answer};
ghost use Rattle.rkyv_btree_verify.specs.mirror.Maps.{pointers_answer, inner_answer, placed_answer, tree_answer, root_answer};
ghost use Rattle.rkyv_btree_verify.specs.mirror.Maps.{map_answer, node_count, pointer_count, pointers_count, placed_count};
ghost use Rattle.rkyv_btree_verify.specs.mirror.Maps.{tree_count, root_count, map_count};

use rkyv_btree_format::layout;
use rkyv_btree_portable::bytes::{num32, pointed_at, target};
use rkyv_btree_portable::check::{CheckBytes, Portable, Window, check_own_bytes, check_part};
use rkyv_btree_portable::refusal::{EntriesLengthMismatch, InvalidLength, Refusal};
use rkyv_btree_portable::steps::StepCounter;

/// What the check of nodes leaves: the window's start, and the entries so far.
#[derive(Clone, Copy)]
struct Checked {
    lo: u32,
    entries: u64,
}

/// Entry `i` of the node at `node`.
#[tactic(auto, unfolding(crate::specs::mirror::Check::check_entry))]
fn check_entry<K: CheckBytes, V: CheckBytes, const E: usize>(
    buf: &[u8],
    node: u32,
    i: usize,
    lo: u32,
) -> Result<u32, Refusal>
    requires fitting { IsTrue (are_fitting K.kind V.kind E) }
    requires index { i < E }
    requires window { lo ≤ node }
    requires room { node + leaf_size (layout_of K.kind V.kind E) < 2 ^ 32 }
    ensures gives { result ≡ entry_answer K.kind V.kind E buf.now node i lo }
    ensures within { IfOk result (λ left. (lo ≤ left) × (left ≤ node)) }
{
    let mid = check_part::<K>(buf, node + layout::key_at::<K, V, E>(i), lo, node)?;
    check_part::<V>(buf, node + layout::value_at::<K, V, E>(i), mid, node)
}

/// The first `n` entries of the node at `node`.
#[inline(always)]
fn check_entries<K: CheckBytes, V: CheckBytes, const E: usize>(
    buf: &[u8],
    node: u32,
    n: usize,
    lo: u32,
) -> Result<u32, Refusal>
    requires fitting { IsTrue (are_fitting K.kind V.kind E) }
    requires count { n ≤ E }
    requires window { lo ≤ node }
    requires room { node + leaf_size (layout_of K.kind V.kind E) < 2 ^ 32 }
    ensures gives { result ≡ entries_answer K.kind V.kind E buf.now node n lo }
    ensures within { IfOk result (λ left. (lo ≤ left) × (left ≤ node)) }
{
    let mut left = lo;
    for i in 0..n {
        left = check_entry::<K, V, E>(buf, node, i, left)?;
    }
    Ok(left)
}

/// Where the node that a pointer leads to stands, if there is room for a leaf and it is aligned.
fn node_place<K: CheckBytes, V: CheckBytes, const E: usize>(
    p: i64,
    window: Window,
) -> Result<u32, Refusal>
    requires fitting { IsTrue (are_fitting K.kind V.kind E) }
    ensures gives { result ≡ node_place (layout_of K.kind V.kind E) p window.lo window.hi }
    ensures within { IfOk result (λ start.
        (window.lo ≤ start) × (start + leaf_size (layout_of K.kind V.kind E) ≤ window.hi)) }
{
    if p < i64::from(window.lo) || p > i64::from(window.hi) {
        return Err(Refusal::OutOfRange { pos: p });
    }
    let start = p as u32;
    if window.hi - start < layout::leaf_size::<K, V, E>() {
        return Err(Refusal::OutOfRange { pos: p });
    }
    if start % layout::align::<K, V, E>() == 0 {
        Ok(start)
    } else {
        Err(Refusal::Misaligned { pos: start })
    }
}

/// A leaf at a place with room for it.
#[tactic(auto, unfolding(crate::specs::mirror::Check::check_leaf))]
#[inline(always)]
fn check_leaf<K: CheckBytes, V: CheckBytes, const E: usize>(
    buf: &[u8],
    node: u32,
    lo: u32,
) -> Result<Checked, Refusal>
    requires fitting { IsTrue (are_fitting K.kind V.kind E) }
    requires window { lo ≤ node }
    requires inside { node + leaf_size (layout_of K.kind V.kind E) ≤ length buf.now }
    requires room { node + leaf_size (layout_of K.kind V.kind E) < 2 ^ 32 }
    ensures gives { result ≡ leaf_answer K.kind V.kind E buf.now node lo }
    ensures within { IfOk result (λ c.
        (c.lo ≡ node + leaf_size (layout_of K.kind V.kind E)) × (c.entries ≤ E)) }
{
    let n = num32(buf, node + layout::len_at::<K, V, E>());
    if n as usize > E {
        return Err(Refusal::InvalidLength(InvalidLength {
            len: u64::from(n),
            maximum: E as u64,
        }));
    }
    check_entries::<K, V, E>(buf, node, n as usize, lo)?;
    Ok(Checked {
        lo: node + layout::leaf_size::<K, V, E>(),
        entries: u64::from(n),
    })
}

/// The node that a pointer leads to, with so many levels left for it and those below.
#[cycle(nodes)]
#[inline(always)]
fn check_node<K: CheckBytes, V: CheckBytes, const E: usize>(
    buf: &[u8],
    p: i64,
    window: Window,
    levels: u32,
    steps: &mut StepCounter,
) -> Result<Checked, Refusal>
    requires fitting { IsTrue (are_fitting K.kind V.kind E) }
    requires inside { window.hi ≤ length buf.now }
    requires count { steps.old + (window.hi - window.lo) + levels + 1 < 2 ^ 64 }
    ensures gives { result ≡ node_answer K.kind V.kind E buf.now levels p window.lo window.hi }
    ensures within { IfOk result (Within window.lo window.hi) }
    ensures counts { steps.new
        ≡ steps.old + node_count K.kind V.kind E buf.now levels p window.lo window.hi }
    ensures paced { IfOk result (λ c. steps.new + window.lo ≤ steps.old + c.lo) }
{
    steps.step();
    if levels == 0 {
        return Err(Refusal::TooDeep { pos: p });
    }
    let node = node_place::<K, V, E>(p, window)?;
    check_placed::<K, V, E>(buf, node, window, levels - 1, steps)
}

/// A node at a place with room for a leaf, with so many levels left below it.
#[cycle(nodes)]
#[tactic(auto, unfolding(crate::specs::mirror::Check::check_placed, crate::specs::mirror::Counted::placed_steps))]
#[inline(always)]
fn check_placed<K: CheckBytes, V: CheckBytes, const E: usize>(
    buf: &[u8],
    node: u32,
    window: Window,
    levels: u32,
    steps: &mut StepCounter,
) -> Result<Checked, Refusal>
    requires fitting { IsTrue (are_fitting K.kind V.kind E) }
    requires start { window.lo ≤ node }
    requires room { node + leaf_size (layout_of K.kind V.kind E) ≤ window.hi }
    requires inside { window.hi ≤ length buf.now }
    requires count { steps.old + (window.hi - window.lo) + levels + 1 < 2 ^ 64 }
    ensures gives { result ≡ placed_answer K.kind V.kind E buf.now levels node window.lo window.hi }
    ensures within { IfOk result (Within window.lo window.hi) }
    ensures counts { steps.new
        ≡ steps.old + placed_count K.kind V.kind E buf.now levels node window.lo window.hi }
    ensures paced { IfOk result (λ c. steps.new + window.lo + 1 ≤ steps.old + c.lo) }
{
    let kind = buf[node as usize];
    if kind == 0 {
        return check_leaf::<K, V, E>(buf, node, window.lo);
    }
    if kind != 1 {
        return Err(Refusal::BadKind {
            pos: node,
            byte: kind,
        });
    }
    if window.hi - node < layout::inner_size::<K, V, E>() {
        return Err(Refusal::OutOfRange {
            pos: i64::from(node),
        });
    }
    check_inner::<K, V, E>(buf, node, window.lo, levels, steps)
}

/// An inner node at a place with room for it: its children, then its entries.
// The rest of the cycle is inlined into its loop over pointers, so that no call is made for a leaf.
#[cycle(nodes)]
#[tactic(auto, unfolding(crate::specs::mirror::Check::check_inner))]
#[inline(never)]
fn check_inner<K: CheckBytes, V: CheckBytes, const E: usize>(
    buf: &[u8],
    node: u32,
    lo: u32,
    levels: u32,
    steps: &mut StepCounter,
) -> Result<Checked, Refusal>
    requires fitting { IsTrue (are_fitting K.kind V.kind E) }
    requires start { lo ≤ node }
    requires room { node + inner_size (layout_of K.kind V.kind E) < 2 ^ 32 }
    requires inside { node + inner_size (layout_of K.kind V.kind E) ≤ length buf.now }
    requires count { steps.old + (node - lo) + levels + 1 < 2 ^ 64 }
    ensures gives { result ≡ inner_answer K.kind V.kind E buf.now levels node lo }
    ensures within { IfOk result (Within lo (node + inner_size (layout_of K.kind V.kind E))) }
    ensures counts { steps.new ≡ steps.old + pointers_count K.kind V.kind E buf.now levels node lo }
    ensures paced { IfOk result (λ c. steps.new + lo + 1 ≤ steps.old + c.lo) }
{
    let children = check_pointers::<K, V, E>(buf, node, lo, levels, steps)?;
    check_entries::<K, V, E>(buf, node, E, children.lo)?;
    Ok(Checked {
        lo: node + layout::inner_size::<K, V, E>(),
        entries: children.entries + E as u64,
    })
}

/// What the pointers of an inner node lead to, each in the window that the one before it left.
#[cycle(nodes)]
#[inline(always)]
fn check_pointers<K: CheckBytes, V: CheckBytes, const E: usize>(
    buf: &[u8],
    node: u32,
    lo: u32,
    levels: u32,
    steps: &mut StepCounter,
) -> Result<Checked, Refusal>
    requires fitting { IsTrue (are_fitting K.kind V.kind E) }
    requires start { lo ≤ node }
    requires room { node + inner_size (layout_of K.kind V.kind E) < 2 ^ 32 }
    requires inside { node + inner_size (layout_of K.kind V.kind E) ≤ length buf.now }
    requires count { steps.old + (node - lo) + levels + 1 < 2 ^ 64 }
    ensures gives { result ≡ pointers_answer K.kind V.kind E buf.now levels node lo }
    ensures within { IfOk result (Within lo node) }
    ensures counts { steps.new ≡ steps.old + pointers_count K.kind V.kind E buf.now levels node lo }
    ensures paced { IfOk result (λ c. steps.new + lo ≤ steps.old + c.lo) }
{
    let mut so_far = Checked { lo, entries: 0 };
    for i in 0..E + 1 {
        so_far = check_pointer::<K, V, E>(buf, node, i, so_far, levels, steps)?;
    }
    Ok(so_far)
}

/// What pointer `i` of an inner node leads to, if it leads to a node.
#[cycle(nodes)]
#[tactic(auto, unfolding(crate::specs::mirror::Check::check_pointer, crate::specs::mirror::Counted::pointer_steps))]
#[inline(always)]
fn check_pointer<K: CheckBytes, V: CheckBytes, const E: usize>(
    buf: &[u8],
    node: u32,
    i: usize,
    so_far: Checked,
    levels: u32,
    steps: &mut StepCounter,
) -> Result<Checked, Refusal>
    requires fitting { IsTrue (are_fitting K.kind V.kind E) }
    requires index { i ≤ E }
    requires start { so_far.lo ≤ node }
    requires entries { so_far.entries ≤ 2 ^ 30 * so_far.lo }
    requires count { steps.old + (node - so_far.lo) + levels + 1 < 2 ^ 64 }
    requires room { node + inner_size (layout_of K.kind V.kind E) < 2 ^ 32 }
    requires inside { node + inner_size (layout_of K.kind V.kind E) ≤ length buf.now }
    ensures gives { result ≡ pointer_answer K.kind V.kind E buf.now levels node i so_far }
    ensures within { IfOk result (λ c.
        (so_far.lo ≤ c.lo) × (c.lo ≤ node)
        × (c.entries + 2 ^ 30 * so_far.lo ≤ so_far.entries + 2 ^ 30 * c.lo)) }
    ensures counts { steps.new
        ≡ steps.old + pointer_count K.kind V.kind E buf.now levels node i so_far }
    ensures paced { IfOk result (λ c. steps.new + so_far.lo ≤ steps.old + c.lo) }
{
    match target(buf, node + layout::lesser_at::<K, V, E>(i)) {
        None => Ok(so_far),
        Some(p) => {
            let child = check_node::<K, V, E>(
                buf,
                p,
                Window {
                    lo: so_far.lo,
                    hi: node,
                },
                levels,
                steps,
            )?;
            Ok(Checked {
                lo: child.lo,
                entries: so_far.entries + child.entries,
            })
        }
    }
}

/// The tree that a pointer leads to, of at most 32 levels.
#[tactic(auto, unfolding(crate::specs::mirror::Check::check_tree, crate::specs::mirror::Counted::tree_steps))]
fn check_tree<K: CheckBytes, V: CheckBytes, const E: usize>(
    buf: &[u8],
    p: i64,
    window: Window,
    steps: &mut StepCounter,
) -> Result<Checked, Refusal>
    requires fitting { IsTrue (are_fitting K.kind V.kind E) }
    requires inside { window.hi ≤ length buf.now }
    requires count { steps.old < 2 ^ 63 }
    ensures gives { result ≡ tree_answer K.kind V.kind E buf.now p window.lo window.hi }
    ensures counts { steps.new
        ≡ steps.old + tree_count K.kind V.kind E buf.now p window.lo window.hi }
{
    check_node::<K, V, E>(buf, p, window, 32, steps)
}

/// What the root at a place with room for it leaves of the window.
#[tactic(auto, unfolding(crate::specs::mirror::Check::check_root, crate::specs::mirror::Counted::root_steps))]
fn check_root<K: CheckBytes, V: CheckBytes, const E: usize>(
    buf: &[u8],
    pos: u32,
    window: Window,
    steps: &mut StepCounter,
) -> Result<u32, Refusal>
    requires fitting { IsTrue (are_fitting K.kind V.kind E) }
    requires inside { pos + 8 ≤ length buf.now }
    requires short { length buf.now < 2 ^ 32 }
    requires before { window.hi ≤ pos }
    requires count { steps.old < 2 ^ 63 }
    ensures gives { result ≡ root_answer K.kind V.kind E buf.now pos window.lo window.hi }
    ensures counts { steps.new
        ≡ steps.old + root_count K.kind V.kind E buf.now pos window.lo window.hi }
{
    let len = num32(buf, pos + 4);
    if len == 0 {
        return Ok(window.lo);
    }
    let found = check_tree::<K, V, E>(buf, pointed_at(buf, pos), window, steps)?;
    if found.entries == u64::from(len) {
        Ok(found.lo)
    } else {
        Err(Refusal::EntriesLengthMismatch(EntriesLengthMismatch {
            entries: found.entries,
            len: u64::from(len),
        }))
    }
}

/// What the map at `pos` leaves of the window.
#[tactic(auto, unfolding(crate::specs::mirror::Check::check_map, crate::specs::mirror::Counted::map_steps))]
fn check_map<K: CheckBytes, V: CheckBytes, const E: usize>(
    buf: &[u8],
    pos: u32,
    window: Window,
    steps: &mut StepCounter,
) -> Result<u32, Refusal>
    requires fitting { IsTrue (are_fitting K.kind V.kind E) }
    requires before { window.hi ≤ pos }
    requires count { steps.old < 2 ^ 63 }
    ensures gives { result ≡ map_answer K.kind V.kind E buf.now pos window.lo window.hi }
    ensures counts { steps.new
        ≡ steps.old + map_count K.kind V.kind E buf.now pos window.lo window.hi }
{
    check_own_bytes(buf, pos, 8, 4)?;
    check_root::<K, V, E>(buf, pos, window, steps)
}

/// Validates the map at position `pos` of untrusted bytes, and returns the window that is left.
///
/// Its nodes, keys and values may lie in `window`. The result's `lo` is the end of the root node, or `window.lo` if the map
/// is empty. Each node of a valid map is read once. No memory is allocated, and the recursion is at most 32 calls deep.
///
/// # Errors
///
/// The first error in the order of docs/FORMAT.md.
pub fn verify<K: CheckBytes, V: CheckBytes, const E: usize>(
    buf: &[u8],
    pos: u32,
    window: Window,
) -> Result<Window, Refusal>
    requires fitting { IsTrue (are_fitting K.kind V.kind E) }
    requires ordered { window.lo ≤ window.hi }
    requires before { window.hi ≤ pos }
    // The result is `Ok left` exactly for a map that leaves this window.
    ensures accepts { (left : Window) →
        (result ≡ Ok left) ↔ IsMapIn K.kind V.kind E buf.now window pos left }
    // The result is an error exactly for bytes with that error.
    ensures refuses { (e : Refusal) →
        (result ≡ Err e) ↔ RefusesMapIn K.kind V.kind E buf.now window pos e }
{
    let mut steps = StepCounter::new();
    verify_counted::<K, V, E>(buf, pos, window, &mut steps)
}

/// Validates as `verify` does, and adds the number of nodes that it reads to `steps`.
///
/// # Errors
///
/// Those of `verify`. The nodes that were read are counted then too.
pub fn verify_counted<K: CheckBytes, V: CheckBytes, const E: usize>(
    buf: &[u8],
    pos: u32,
    window: Window,
    steps: &mut StepCounter,
) -> Result<Window, Refusal>
    requires fitting { IsTrue (are_fitting K.kind V.kind E) }
    requires ordered { window.lo ≤ window.hi }
    requires before { window.hi ≤ pos }
    requires count { steps.old ≤ 9223372036854775807 }
    ensures accepts { (left : Window) →
        (result ≡ Ok left) ↔ IsMapIn K.kind V.kind E buf.now window pos left }
    ensures refuses { (e : Refusal) →
        (result ≡ Err e) ↔ RefusesMapIn K.kind V.kind E buf.now window pos e }
    // On what is accepted it counts the nodes.
    ensures nodes { CountsNodes K.kind V.kind E buf.now window pos steps.old steps.new }
    // On all bytes it counts few.
    ensures few { steps.new
        ≤ steps.old + (window.hi - window.lo) / leaf_size (layout_of K.kind V.kind E) + 1 }
    // It never counts back.
    ensures more { steps.old ≤ steps.new }
{
    let lo = check_map::<K, V, E>(buf, pos, window, steps)?;
    Ok(Window { lo, hi: window.hi })
}

/// What the nodes, keys and values of a tree in foreign bytes take of them is apart, so a buffer has few nodes.
pub fn claims_are_apart<K: Portable, V: Portable, const E: usize>()
    requires { IsTrue (are_fitting K.kind V.kind E) }
    ensures apart { ClaimsAreApart K.kind V.kind E }
    ensures few { NodesAreFew K.kind V.kind E }
{}

/// A map has no fault, bytes have one fault at most, and a node with a fault spells no tree of the levels that are left.
/// `verify` never returns `Refusal::OutOfOrder`.
pub fn faults_are_exact<K: Portable, V: Portable, const E: usize>()
    requires { IsTrue (are_fitting K.kind V.kind E) }
    ensures no_map { NoMapIsRefused K.kind V.kind E }
    ensures one_refusal { OneRefusal K.kind V.kind E }
    ensures no_tree { NoTreeIsRefused K.kind V.kind E }
    ensures no_order { OrderIsNotRefused K.kind V.kind E }
{}
