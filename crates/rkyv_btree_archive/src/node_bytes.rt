//! The bytes of nodes.
ghost use Rattle.std.specs.Prelude.{◌≡◌, ◌+◌, ◌*◌, ◌≤◌, [], ◌∷◌, ◌++◌, length, map, drop, true, vec_capacity, IsTrue, ℕ, List, OnOk, IfErr};
ghost use Rattle.std.specs.List.{flat_map, splice};
ghost use Rattle.rkyv_btree_portable.specs.Bytes.{filled};
ghost use Rattle.rkyv_btree_writing_laws.specs.Image.{entry_bytes, leaf_bytes, pointers, pointers_reach, inner_bytes};
ghost use Rattle.rkyv_btree_format.specs.Layout.{layout_of, are_fitting, len_at, leaf_size, inner_size};
ghost use Rattle.rkyv_btree_writer.specs.Archiving.{IsUnresolved};
ghost use Rattle.rkyv_btree_portable.specs.InPlace.{OwnBytes};
ghost use Rattle.rkyv_btree_writing_laws.specs.Entries.{AreResolved, AreUnresolved, EntriesResolved, EntriesUnresolved, InnerUnfilled, both_borrowed};

use crate::archive::{Archive, resolve_into};
use crate::borrow::Borrow;
use rkyv_btree_format::layout;
use rkyv_btree_portable::check::Portable;
use rkyv_btree_writer::fault::ResolveFault;
use rkyv_btree_writer::place::write_offset;
use std::alloc::Allocator;
use std::marker::PhantomData;
use std::mem;

/// Copies bytes into a node, from `start` on.
#[inline(always)]
fn place_bytes(node: &mut [u8], start: usize, bytes: &[u8])
    requires { start + length bytes.now ≤ length node.old }
    ensures { node.new ≡ splice node.old start (start + length bytes.now) bytes.now }
{
    let end = start + bytes.len();
    node[start..end].copy_from_slice(bytes);
}

/// Writes a value's own bytes, resolved at `pos`, from `start` on.
#[inline(always)]
pub(crate) fn place_value<T: Archive>(
    node: &mut [u8],
    start: usize,
    value: &T,
    resolver: T::Resolver,
    pos: u32,
) -> Result<(), ResolveFault>
    requires fitting { IsTrue T.Archived.kind.is_fitting }
    requires room { start + T.Archived.kind.size ≤ length node.old }
    requires end { pos + T.Archived.kind.size ≤ 4294967295 }
    ensures ok { OnOk result
        ((own : List ℕ) × T.archival.Resolves value.now resolver pos own
        × (length own ≡ T.Archived.kind.size)
        × (node.new ≡ splice node.old start (start + length own) own)) }
    ensures err { IfErr result (IsUnresolved T.archival value.now resolver pos) }
{
    let end = start + T::Archived::size() as usize;
    resolve_into(value, resolver, pos, &mut node[start..end])
}

/// The choice of one half of each entry: the key or the value.
pub(crate) trait Half<X> {
    /// The type of that half.
    type Part: Archive;

    ghost part: { X → Self.Part };

    /// Returns that half of an entry.
    fn of<'a>(entry: &'a X) -> &'a Self::Part
        ensures { result.now ≡ part entry.now };
}

struct Keys<M> {
    of: PhantomData<M>,
}

struct Values<N> {
    of: PhantomData<N>,
}

impl<B: Borrow<M>, C, M: Archive> Half<(B, C)> for Keys<M> {
    type Part = M;

    ghost part = { λ x. B.borrowed x.0 };

    fn of<'a>(entry: &'a (B, C)) -> &'a M {
        entry.0.borrow()
    }
}

impl<B, C: Borrow<N>, N: Archive> Half<(B, C)> for Values<N> {
    type Part = N;

    ghost part = { λ x. C.borrowed x.1 };

    fn of<'a>(entry: &'a (B, C)) -> &'a N {
        entry.1.borrow()
    }
}

/// Writes the keys of entries, or their values, as `place_halves` does, and takes each resolver from the end of a list.
#[inline(always)]
pub(crate) fn place_each<H: Half<X>, X, A: Allocator>(
    node: &mut [u8],
    start: usize,
    entries: &[X],
    resolvers: &mut Vec<<H::Part as Archive>::Resolver, A>,
    pos: u32,
) -> Result<(), ResolveFault>
    requires fitting { IsTrue H.Part.Archived.kind.is_fitting }
    requires count { length resolvers.old.items ≡ length entries.now }
    requires room { start + length entries.now * H.Part.Archived.kind.size ≤ length node.old }
    requires end { pos + length entries.now * H.Part.Archived.kind.size ≤ 4294967295 }
    ensures ok { OnOk result
        ((owns : List (List ℕ))
        × AreResolved H.Part.archival pos (map H.part entries.now) resolvers.old.items owns
        × (length (flat_map (λ own. own) owns) ≡ length entries.now * H.Part.Archived.kind.size)
        × (node.new
        ≡ splice node.old start (start + length (flat_map (λ own. own) owns))
        (flat_map (λ own. own) owns))) }
    ensures spent { OnOk result (resolvers.new.items ≡ []) }
    ensures err { IfErr result
        (AreUnresolved H.Part.archival pos (map H.part entries.now) resolvers.old.items) }
    ensures kept { vec_capacity resolvers.old ≤ vec_capacity resolvers.new }
{
    let mut at = pos;
    let mut place = start;
    resolvers.reverse();
    for entry in entries {
        let resolver = resolvers.take_last();
        place_value(node, place, H::of(entry), resolver, at)?;
        let size = <H::Part as Archive>::Archived::size();
        at += size;
        place += size as usize;
    }
    Ok(())
}

/// Writes the keys of entries, or their values, resolved from `pos` on, from `start` on. Their resolvers are used up.
#[inline(always)]
fn place_halves<H: Half<X>, X, A: Allocator + Copy>(
    alloc: A,
    node: &mut [u8],
    start: usize,
    entries: &[X],
    resolvers: &mut Vec<<H::Part as Archive>::Resolver, A>,
    pos: u32,
) -> Result<(), ResolveFault>
    requires fitting { IsTrue H.Part.Archived.kind.is_fitting }
    requires count { length resolvers.old.items ≡ length entries.now }
    requires room { start + length entries.now * H.Part.Archived.kind.size ≤ length node.old }
    requires end { pos + length entries.now * H.Part.Archived.kind.size ≤ 4294967295 }
    ensures ok { OnOk result
        ((owns : List (List ℕ))
        × AreResolved H.Part.archival pos (map H.part entries.now) resolvers.old.items owns
        × (length (flat_map (λ own. own) owns) ≡ length entries.now * H.Part.Archived.kind.size)
        × (node.new
        ≡ splice node.old start (start + length (flat_map (λ own. own) owns))
        (flat_map (λ own. own) owns))) }
    ensures spent { OnOk result (resolvers.new.items ≡ []) }
    ensures err { IfErr result
        (AreUnresolved H.Part.archival pos (map H.part entries.now) resolvers.old.items) }
    ensures kept { vec_capacity resolvers.old ≤ vec_capacity resolvers.new }
{
    // A list of this function's own: no write of the node's bytes can change its length, as the compiler sees.
    let mut left = mem::replace(resolvers, Vec::new(alloc));
    let placed = place_each::<H, X, A>(node, start, entries, &mut left, pos);
    *resolvers = left;
    placed
}

/// Writes the kind and the entries of a node at position `pos`, and zeros in all of its other bytes.
#[inline(always)]
fn place_entries<BKU, BVU, KU, VU, K, V, A, const E: usize>(
    alloc: A,
    node: &mut [u8],
    kind: u8,
    pos: u32,
    entries: &[(BKU, BVU)],
    keys: &mut Vec<KU::Resolver, A>,
    values: &mut Vec<VU::Resolver, A>,
) -> Result<(), ResolveFault>
where
    BKU: Borrow<KU> + Drop,
    BVU: Borrow<VU> + Drop,
    KU: Archive<Archived = K>,
    VU: Archive<Archived = V>,
    K: Portable,
    V: Portable,
    A: Allocator + Copy,
    requires fitting { IsTrue (are_fitting K.kind V.kind E) }
    requires count { length entries.now ≤ E }
    requires keys { length keys.old.items ≡ length entries.now }
    requires values { length values.old.items ≡ length entries.now }
    requires end { pos + leaf_size (layout_of K.kind V.kind E) ≤ 4294967295 }
    requires room { len_at (layout_of K.kind V.kind E) ≤ length node.old }
    ensures ok { OnOk result
        ((owns : List OwnBytes)
        × EntriesResolved (layout_of K.kind V.kind E) KU.archival VU.archival pos
        (map (both_borrowed BKU.borrowed BVU.borrowed) entries.now) keys.old.items
        values.old.items owns
        × (node.new
        ≡ filled (entry_bytes (layout_of K.kind V.kind E) kind owns) (length node.old))
        × (length (entry_bytes (layout_of K.kind V.kind E) kind owns)
        ≤ len_at (layout_of K.kind V.kind E))) }
    ensures spent { OnOk result ((keys.new.items ≡ []) × (values.new.items ≡ [])) }
    ensures key_room { vec_capacity keys.old ≤ vec_capacity keys.new }
    ensures value_room { vec_capacity values.old ≤ vec_capacity values.new }
    ensures err { IfErr result
        (EntriesUnresolved (layout_of K.kind V.kind E) KU.archival VU.archival pos
        (map (both_borrowed BKU.borrowed BVU.borrowed) entries.now) keys.old.items
        values.old.items) }
{
    node.fill(0);
    node[0] = kind;
    let keys_at = layout::key_at::<K, V, E>(0);
    place_halves::<Keys<KU>, _, A>(alloc, node, keys_at as usize, entries, keys, pos + keys_at)?;
    let values_at = layout::value_at::<K, V, E>(0);
    place_halves::<Values<VU>, _, A>(
        alloc,
        node,
        values_at as usize,
        entries,
        values,
        pos + values_at,
    )
}

/// Writes a pointer at position `pos` to a child, from `start` on, and returns whether it reaches the child.
#[inline(always)]
fn place_pointer(node: &mut [u8], start: usize, pos: u32, child: Option<u32>) -> bool
    requires { start + 4 ≤ length node.old }
    ensures reach { result ≡ pointers_reach pos (child ∷ []) }
    ensures items { result ≡ true →
        node.new ≡ splice node.old start (start + 4) (pointers pos (child ∷ [])) }
{
    let mut bytes = [1, 0, 0, 0];
    if let Some(target) = child {
        if write_offset(pos, target, &mut bytes).is_err() {
            return false;
        }
    }
    place_bytes(node, start, &bytes);
    true
}

/// Writes pointers to children, from `start` on, and returns whether each reaches its child. The first has position `pos`.
#[inline(always)]
fn place_pointers(node: &mut [u8], start: usize, pos: u32, children: &[Option<u32>]) -> bool
    requires end { pos + 4 * length children.now ≤ 4294967295 }
    requires room { start + 4 * length children.now ≤ length node.old }
    ensures reach { result ≡ pointers_reach pos children.now }
    ensures items { result ≡ true →
        node.new
        ≡ splice node.old start (start + 4 * length children.now) (pointers pos children.now) }
{
    for (i, child) in children.iter().enumerate() {
        if !place_pointer(node, start + 4 * i, pos + 4 * i as u32, *child) {
            return false;
        }
    }
    true
}

/// Writes an inner node's pointers, from `start` on, and returns whether each reaches its child. The first has position `pos`.
#[inline(always)]
fn place_children(
    node: &mut [u8],
    start: usize,
    pos: u32,
    children: &[Option<u32>],
    last: Option<u32>,
) -> bool
    requires end { pos + 4 * length children.now + 4 ≤ 4294967295 }
    requires room { start + 4 * length children.now + 4 ≤ length node.old }
    ensures reach { result ≡ pointers_reach pos (children.now ++ last ∷ []) }
    ensures items { result ≡ true →
        node.new
        ≡ splice node.old start (start + 4 * length children.now + 4)
        (pointers pos (children.now ++ last ∷ [])) }
{
    if !place_pointers(node, start, pos, children) {
        return false;
    }
    let len = 4 * children.len();
    place_pointer(node, start + len, pos + len as u32, last)
}

/// Fills the bytes of a leaf at position `pos`.
#[inline(always)]
fn leaf_into<BKU, BVU, KU, VU, K, V, A, const E: usize>(
    alloc: A,
    node: &mut [u8],
    pos: u32,
    entries: &[(BKU, BVU)],
    keys: &mut Vec<KU::Resolver, A>,
    values: &mut Vec<VU::Resolver, A>,
) -> Result<(), ResolveFault>
where
    BKU: Borrow<KU> + Drop,
    BVU: Borrow<VU> + Drop,
    KU: Archive<Archived = K>,
    VU: Archive<Archived = V>,
    K: Portable,
    V: Portable,
    A: Allocator + Copy,
    requires fitting { IsTrue (are_fitting K.kind V.kind E) }
    requires count { length entries.now ≤ E }
    requires keys { length keys.old.items ≡ length entries.now }
    requires values { length values.old.items ≡ length entries.now }
    requires end { pos + leaf_size (layout_of K.kind V.kind E) ≤ 4294967295 }
    requires size { length node.old ≡ leaf_size (layout_of K.kind V.kind E) }
    ensures ok { OnOk result
        ((owns : List OwnBytes)
        × EntriesResolved (layout_of K.kind V.kind E) KU.archival VU.archival pos
        (map (both_borrowed BKU.borrowed BVU.borrowed) entries.now) keys.old.items
        values.old.items owns
        × (node.new ≡ leaf_bytes (layout_of K.kind V.kind E) owns)) }
    ensures spent { OnOk result ((keys.new.items ≡ []) × (values.new.items ≡ [])) }
    ensures key_room { vec_capacity keys.old ≤ vec_capacity keys.new }
    ensures value_room { vec_capacity values.old ≤ vec_capacity values.new }
    ensures err { IfErr result
        (EntriesUnresolved (layout_of K.kind V.kind E) KU.archival VU.archival pos
        (map (both_borrowed BKU.borrowed BVU.borrowed) entries.now) keys.old.items
        values.old.items) }
{
    place_entries::<BKU, BVU, KU, VU, K, V, A, E>(alloc, node, 0, pos, entries, keys, values)?;
    let start = layout::len_at::<K, V, E>() as usize;
    place_bytes(node, start, &(entries.len() as u32).to_le_bytes());
    Ok(())
}

/// Fills the first bytes of `node` as a leaf at position `pos`. The bytes after it are unchanged.
#[inline(always)]
fn fill_leaf<BKU, BVU, KU, VU, K, V, A, const E: usize>(
    alloc: A,
    node: &mut [u8],
    pos: u32,
    entries: &[(BKU, BVU)],
    keys: &mut Vec<KU::Resolver, A>,
    values: &mut Vec<VU::Resolver, A>,
) -> Result<(), ResolveFault>
where
    BKU: Borrow<KU> + Drop,
    BVU: Borrow<VU> + Drop,
    KU: Archive<Archived = K>,
    VU: Archive<Archived = V>,
    K: Portable,
    V: Portable,
    A: Allocator + Copy,
    requires fitting { IsTrue (are_fitting K.kind V.kind E) }
    requires count { length entries.now ≤ E }
    requires keys { length keys.old.items ≡ length entries.now }
    requires values { length values.old.items ≡ length entries.now }
    requires end { pos + leaf_size (layout_of K.kind V.kind E) ≤ 4294967295 }
    requires room { leaf_size (layout_of K.kind V.kind E) ≤ length node.old }
    ensures ok { OnOk result
        ((owns : List OwnBytes)
        × EntriesResolved (layout_of K.kind V.kind E) KU.archival VU.archival pos
        (map (both_borrowed BKU.borrowed BVU.borrowed) entries.now) keys.old.items
        values.old.items owns
        × (node.new
        ≡ leaf_bytes (layout_of K.kind V.kind E) owns
        ++ drop (leaf_size (layout_of K.kind V.kind E)) node.old)) }
    ensures spent { OnOk result ((keys.new.items ≡ []) × (values.new.items ≡ [])) }
    ensures key_room { vec_capacity keys.old ≤ vec_capacity keys.new }
    ensures value_room { vec_capacity values.old ≤ vec_capacity values.new }
    ensures err { IfErr result
        (EntriesUnresolved (layout_of K.kind V.kind E) KU.archival VU.archival pos
        (map (both_borrowed BKU.borrowed BVU.borrowed) entries.now) keys.old.items
        values.old.items) }
{
    let size = layout::leaf_size::<K, V, E>() as usize;
    leaf_into::<BKU, BVU, KU, VU, K, V, A, E>(alloc, &mut node[..size], pos, entries, keys, values)
}

/// Fills the first bytes of a list as a leaf at position `pos`. The bytes after it are unchanged.
#[inline(always)]
pub(crate) fn put_leaf<BKU, BVU, KU, VU, K, V, A, const E: usize>(
    alloc: A,
    node: &mut Vec<u8, A>,
    pos: u32,
    entries: &[(BKU, BVU)],
    keys: &mut Vec<KU::Resolver, A>,
    values: &mut Vec<VU::Resolver, A>,
) -> Result<(), ResolveFault>
where
    BKU: Borrow<KU> + Drop,
    BVU: Borrow<VU> + Drop,
    KU: Archive<Archived = K>,
    VU: Archive<Archived = V>,
    K: Portable,
    V: Portable,
    A: Allocator + Copy,
    requires fitting { IsTrue (are_fitting K.kind V.kind E) }
    requires count { length entries.now ≤ E }
    requires keys { length keys.old.items ≡ length entries.now }
    requires values { length values.old.items ≡ length entries.now }
    requires end { pos + leaf_size (layout_of K.kind V.kind E) ≤ 4294967295 }
    requires room { leaf_size (layout_of K.kind V.kind E) ≤ length node.old.items }
    ensures ok { OnOk result
        ((owns : List OwnBytes)
        × EntriesResolved (layout_of K.kind V.kind E) KU.archival VU.archival pos
        (map (both_borrowed BKU.borrowed BVU.borrowed) entries.now) keys.old.items
        values.old.items owns
        × (node.new.items
        ≡ leaf_bytes (layout_of K.kind V.kind E) owns
        ++ drop (leaf_size (layout_of K.kind V.kind E)) node.old.items)) }
    ensures len { length node.new.items ≡ length node.old.items }
    ensures spent { OnOk result ((keys.new.items ≡ []) × (values.new.items ≡ [])) }
    ensures key_room { vec_capacity keys.old ≤ vec_capacity keys.new }
    ensures value_room { vec_capacity values.old ≤ vec_capacity values.new }
    ensures err { IfErr result
        (EntriesUnresolved (layout_of K.kind V.kind E) KU.archival VU.archival pos
        (map (both_borrowed BKU.borrowed BVU.borrowed) entries.now) keys.old.items
        values.old.items) }
{
    let whole = node.as_mut_slice();
    fill_leaf::<BKU, BVU, KU, VU, K, V, A, E>(alloc, whole, pos, entries, keys, values)
}

/// Fills the bytes of an inner node at position `pos`. Fails if a pointer can't reach its child.
#[inline(always)]
fn inner_into<BKU, BVU, KU, VU, K, V, A, const E: usize>(
    alloc: A,
    node: &mut [u8],
    pos: u32,
    entries: &[(BKU, BVU)],
    keys: &mut Vec<KU::Resolver, A>,
    values: &mut Vec<VU::Resolver, A>,
    children: &[Option<u32>],
    last: Option<u32>,
) -> Result<(), ResolveFault>
where
    BKU: Borrow<KU> + Drop,
    BVU: Borrow<VU> + Drop,
    KU: Archive<Archived = K>,
    VU: Archive<Archived = V>,
    K: Portable,
    V: Portable,
    A: Allocator + Copy,
    requires fitting { IsTrue (are_fitting K.kind V.kind E) }
    requires entries { length entries.now ≡ E }
    requires keys { length keys.old.items ≡ E }
    requires values { length values.old.items ≡ E }
    requires children { length children.now ≡ E }
    requires end { pos + inner_size (layout_of K.kind V.kind E) ≤ 4294967295 }
    requires size { length node.old ≡ inner_size (layout_of K.kind V.kind E) }
    ensures ok { OnOk result
        ((owns : List OwnBytes)
        × EntriesResolved (layout_of K.kind V.kind E) KU.archival VU.archival pos
        (map (both_borrowed BKU.borrowed BVU.borrowed) entries.now) keys.old.items
        values.old.items owns
        × (node.new
        ≡ inner_bytes (layout_of K.kind V.kind E) pos owns (children.now ++ last ∷ []))
        × (pointers_reach (pos + len_at (layout_of K.kind V.kind E)) (children.now ++ last ∷ [])
        ≡ true)) }
    ensures spent { OnOk result ((keys.new.items ≡ []) × (values.new.items ≡ [])) }
    ensures key_room { vec_capacity keys.old ≤ vec_capacity keys.new }
    ensures value_room { vec_capacity values.old ≤ vec_capacity values.new }
    ensures err { IfErr result
        (InnerUnfilled (layout_of K.kind V.kind E) KU.archival VU.archival pos
        (map (both_borrowed BKU.borrowed BVU.borrowed) entries.now) keys.old.items values.old.items
        (children.now ++ last ∷ [])) }
{
    place_entries::<BKU, BVU, KU, VU, K, V, A, E>(alloc, node, 1, pos, entries, keys, values)?;
    let start = layout::lesser_at::<K, V, E>(0);
    if !place_children(node, start as usize, pos + start, children, last) {
        return Err(ResolveFault::OffsetOverflow);
    }
    Ok(())
}

/// Fills the first bytes of `node` as an inner node at position `pos`. Fails if a pointer can't reach its child. The bytes
/// after the node are unchanged.
#[inline(always)]
fn fill_inner<BKU, BVU, KU, VU, K, V, A, const E: usize>(
    alloc: A,
    node: &mut [u8],
    pos: u32,
    entries: &[(BKU, BVU)],
    keys: &mut Vec<KU::Resolver, A>,
    values: &mut Vec<VU::Resolver, A>,
    children: &[Option<u32>],
    last: Option<u32>,
) -> Result<(), ResolveFault>
where
    BKU: Borrow<KU> + Drop,
    BVU: Borrow<VU> + Drop,
    KU: Archive<Archived = K>,
    VU: Archive<Archived = V>,
    K: Portable,
    V: Portable,
    A: Allocator + Copy,
    requires fitting { IsTrue (are_fitting K.kind V.kind E) }
    requires entries { length entries.now ≡ E }
    requires keys { length keys.old.items ≡ E }
    requires values { length values.old.items ≡ E }
    requires children { length children.now ≡ E }
    requires end { pos + inner_size (layout_of K.kind V.kind E) ≤ 4294967295 }
    requires room { inner_size (layout_of K.kind V.kind E) ≤ length node.old }
    ensures ok { OnOk result
        ((owns : List OwnBytes)
        × EntriesResolved (layout_of K.kind V.kind E) KU.archival VU.archival pos
        (map (both_borrowed BKU.borrowed BVU.borrowed) entries.now) keys.old.items
        values.old.items owns
        × (node.new
        ≡ inner_bytes (layout_of K.kind V.kind E) pos owns (children.now ++ last ∷ [])
        ++ drop (inner_size (layout_of K.kind V.kind E)) node.old)
        × (pointers_reach (pos + len_at (layout_of K.kind V.kind E)) (children.now ++ last ∷ [])
        ≡ true)) }
    ensures spent { OnOk result ((keys.new.items ≡ []) × (values.new.items ≡ [])) }
    ensures key_room { vec_capacity keys.old ≤ vec_capacity keys.new }
    ensures value_room { vec_capacity values.old ≤ vec_capacity values.new }
    ensures err { IfErr result
        (InnerUnfilled (layout_of K.kind V.kind E) KU.archival VU.archival pos
        (map (both_borrowed BKU.borrowed BVU.borrowed) entries.now) keys.old.items values.old.items
        (children.now ++ last ∷ [])) }
{
    let size = layout::inner_size::<K, V, E>() as usize;
    inner_into::<BKU, BVU, KU, VU, K, V, A, E>(
        alloc,
        &mut node[..size],
        pos,
        entries,
        keys,
        values,
        children,
        last,
    )
}

/// Fills the first bytes of a list as an inner node at position `pos`. Fails if a pointer can't reach its child. The bytes
/// after the node are unchanged.
#[inline(always)]
pub(crate) fn put_inner<BKU, BVU, KU, VU, K, V, A, const E: usize>(
    alloc: A,
    node: &mut Vec<u8, A>,
    pos: u32,
    entries: &[(BKU, BVU)],
    keys: &mut Vec<KU::Resolver, A>,
    values: &mut Vec<VU::Resolver, A>,
    children: &[Option<u32>],
    last: Option<u32>,
) -> Result<(), ResolveFault>
where
    BKU: Borrow<KU> + Drop,
    BVU: Borrow<VU> + Drop,
    KU: Archive<Archived = K>,
    VU: Archive<Archived = V>,
    K: Portable,
    V: Portable,
    A: Allocator + Copy,
    requires fitting { IsTrue (are_fitting K.kind V.kind E) }
    requires entries { length entries.now ≡ E }
    requires keys { length keys.old.items ≡ E }
    requires values { length values.old.items ≡ E }
    requires children { length children.now ≡ E }
    requires end { pos + inner_size (layout_of K.kind V.kind E) ≤ 4294967295 }
    requires room { inner_size (layout_of K.kind V.kind E) ≤ length node.old.items }
    ensures ok { OnOk result
        ((owns : List OwnBytes)
        × EntriesResolved (layout_of K.kind V.kind E) KU.archival VU.archival pos
        (map (both_borrowed BKU.borrowed BVU.borrowed) entries.now) keys.old.items
        values.old.items owns
        × (node.new.items
        ≡ inner_bytes (layout_of K.kind V.kind E) pos owns (children.now ++ last ∷ [])
        ++ drop (inner_size (layout_of K.kind V.kind E)) node.old.items)
        × (pointers_reach (pos + len_at (layout_of K.kind V.kind E)) (children.now ++ last ∷ [])
        ≡ true)) }
    ensures len { length node.new.items ≡ length node.old.items }
    ensures spent { OnOk result ((keys.new.items ≡ []) × (values.new.items ≡ [])) }
    ensures key_room { vec_capacity keys.old ≤ vec_capacity keys.new }
    ensures value_room { vec_capacity values.old ≤ vec_capacity values.new }
    ensures err { IfErr result
        (InnerUnfilled (layout_of K.kind V.kind E) KU.archival VU.archival pos
        (map (both_borrowed BKU.borrowed BVU.borrowed) entries.now) keys.old.items values.old.items
        (children.now ++ last ∷ [])) }
{
    let whole = node.as_mut_slice();
    fill_inner::<BKU, BVU, KU, VU, K, V, A, E>(
        alloc, whole, pos, entries, keys, values, children, last,
    )
}
