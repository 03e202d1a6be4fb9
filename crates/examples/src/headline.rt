//! The headline, phrase by phrase, as a caller concludes it from the contracts of public calls alone.
ghost use Rattle.std.specs.Iterator.{IsFinite, UpTo};
ghost use Rattle.std.specs.Option.{option_map};
ghost use Rattle.std.specs.Prelude.{◌≡◌, List, length, map, IsTrue, IfOk, IfErr, OnErr};
ghost use Rattle.std.specs.Range.Bound.{bound_map};
ghost use Rattle.rkyv_btree_base.specs.Entries.{now_of, now_of_key};
ghost use Rattle.rkyv_btree_base.specs.Layout.{are_fitting};
ghost use Rattle.rkyv_btree_base.specs.Scalars.{unit_kind};
ghost use Rattle.rkyv_btree_base.specs.Serialising.{BuildFault, Serialised};
ghost use Rattle.rkyv_btree_base.specs.Sets.{BuildsSet, entries_by, entry_borrowed, unit_archival};
ghost use Rattle.rkyv_btree_base.specs.Units.{with_units};
ghost use Rattle.rkyv_btree_base.specs.TreeArchival.{tree_archival};
ghost use Rattle.rkyv_btree_base.specs.Archiving.{IsUnserialised, Serialises};
ghost use Rattle.rkyv_btree_base.specs.Whole.{fresh};
ghost use Rattle.rkyv_btree.specs.Bounds.{IsRun, IsWithin};
ghost use Rattle.rkyv_btree.specs.Items.{ShowsAll};
ghost use Rattle.rkyv_btree.specs.Map.{IsMap};
ghost use Rattle.rkyv_btree.specs.Set.{AreKeysWithin};
ghost use Rattle.rkyv_btree.specs.View.{view_value, view_entry};
ghost use Rattle.rkyv_btree.specs.Visit.{Visited, shown_both};
ghost use Rattle.examples.specs.Headline.{HasCause, IsArchiveOfItems, IsArchiveOfKeys, IsNoMap, IsSmallestOf, IsLookedUp, IsSealed};

use rkyv_btree::base::archive::{Archive, Serialize};
use rkyv_btree::base::check::{CheckBytes, InPlace, Portable};
use rkyv_btree::base::fault::Fault;
use rkyv_btree::base::map::ArchivedBTreeMap;
use rkyv_btree::base::place::VecWriter;
use rkyv_btree::base::refusal::Refusal;
use rkyv_btree::base::set::ArchivedBTreeSet;
use rkyv_btree::compare::ViewOrd;
use rkyv_btree::iter::Iter;
use rkyv_btree::keys::{Keys, Values};
use rkyv_btree::laws::written_maps_are_held;
use rkyv_btree::map::{ArchivedMap, MapSeal, ShowsEntries, access};
use rkyv_btree::range::Range;
use rkyv_btree::set::{Iter as SetIter, Range as SetRange, access as access_set};
use rkyv_btree::view::{Shows, View};
use rkyv_btree_base::build::{BuildMap, BuildSet};
use std::alloc::{AllocError, Global};
use std::collections::{BTreeMap, BTreeSet};
use std::ops::{Bound, ControlFlow};

/// An archive, and the position of its map.
#[derive(Drop)]
pub struct ArchiveAt {
    pub bytes: Vec<u8>,
    pub pos: u32,
}

/// **Serialising refuses only for a named cause that is there. After `Ok` the bytes are accepted and mean the list, and no
/// accepted map of this `E` with as many entries has fewer nodes, node bytes or levels.** So of the items of an iterator.
pub fn archived<'x, K, V, KU, VU, I, const E: usize>(
    alloc: Global,
    len: usize,
    iter: I,
) -> Result<ArchiveAt, Fault<AllocError>>
where
    K: CheckBytes,
    V: CheckBytes,
    KU: Archive<Archived = K> + Serialize<VecWriter, Global> + 'x,
    VU: Archive<Archived = V> + Serialize<VecWriter, Global> + 'x,
    I: Iterator<Item = (&'x KU, &'x VU)>,
    requires fitting { IsTrue (are_fitting K.kind V.kind E) }
    requires can { I.can_next iter }
    requires ends { UpTo (I.remaining iter) 18446744073709551615 }
    ensures smallest { IfOk result (λ made.
        IsArchiveOfItems K.kind V.kind E KU.archival VU.archival I.next_gives iter len
        made.bytes.items made.pos) }
    ensures refused { IfErr result (HasCause
        (BuildFault K.kind V.kind E KU.archival VU.archival now_of I.next_gives iter len fresh)
        (Serialised K.kind V.kind E KU.archival VU.archival now_of I.next_gives iter len fresh) len) }
{
    written_maps_are_held();
    let mut writer = VecWriter::new(alloc);
    let root = ArchivedBTreeMap::<K, V, E>::serialize_from_ordered_iter(
        alloc,
        len,
        iter,
        &mut writer,
    )?;
    let pos = ArchivedBTreeMap::<K, V, E>::write_root(len, root, &mut writer)?;
    if access::<K, V, E>(writer.bytes(), pos).is_err() {
        unreachable!();
    }
    Ok(ArchiveAt {
        bytes: writer.into_vec(),
        pos,
    })
}

/// So of the keys of an iterator, as a set.
pub fn archived_set<'x, K, KU, I, const E: usize>(
    alloc: Global,
    len: usize,
    iter: I,
) -> Result<ArchiveAt, Fault<AllocError>>
where
    K: CheckBytes,
    KU: Archive<Archived = K> + Serialize<VecWriter, Global> + 'x,
    I: Iterator<Item = &'x KU>,
    requires fitting { IsTrue (are_fitting K.kind unit_kind E) }
    requires can { I.can_next iter }
    requires ends { UpTo (I.remaining iter) 18446744073709551615 }
    ensures smallest { IfOk result (λ made.
        IsArchiveOfKeys K.kind E KU.archival I.next_gives iter len made.bytes.items made.pos) }
    ensures refused { IfErr result (HasCause
        (BuildFault K.kind unit_kind E KU.archival unit_archival (entry_borrowed now_of_key)
        (entries_by I.next_gives) iter len fresh)
        (λ root mid. BuildsSet K.kind E KU.archival now_of_key I.next_gives iter len (λ w. w) fresh
        mid root)
        len) }
{
    written_maps_are_held();
    let mut writer = VecWriter::new(alloc);
    let root = ArchivedBTreeSet::<K, E>::serialize_from_ordered_iter(
        alloc,
        len,
        iter,
        &mut writer,
    )?;
    let pos = ArchivedBTreeSet::<K, E>::write_root(len, root, &mut writer)?;
    if access_set::<K, E>(writer.bytes(), pos).is_err() {
        unreachable!();
    }
    Ok(ArchiveAt {
        bytes: writer.into_vec(),
        pos,
    })
}

/// So of a std map.
pub fn archived_std_map<KU, VU>(
    alloc: Global,
    map: &BTreeMap<KU, VU>,
) -> Result<ArchiveAt, Fault<AllocError>>
where
    KU: Serialize<VecWriter, Global> + Ord,
    VU: Serialize<VecWriter, Global>,
    requires { IsTrue (are_fitting KU.Archived.kind VU.Archived.kind 5) }
    ensures smallest { IfOk result (λ made.
        IsSmallestOf KU.Archived.kind VU.Archived.kind 5 KU.archival VU.archival map.now.entries
        made.bytes.items made.pos) }
    ensures refused { IfErr result (HasCause
        (IsUnserialised (tree_archival 5 KU.archival VU.archival (λ map. map.entries)) map.now
        fresh)
        (λ root mid. Serialises (tree_archival 5 KU.archival VU.archival (λ map. map.entries))
        map.now fresh mid root)
        (length map.now.entries)) }
{
    written_maps_are_held();
    let mut writer = VecWriter::new(alloc);
    let root = map.serialize(alloc, &mut writer)?;
    let pos = ArchivedBTreeMap::<KU::Archived, VU::Archived, 5>::write_root(
        map.len(),
        root,
        &mut writer,
    )?;
    Ok(ArchiveAt {
        bytes: writer.into_vec(),
        pos,
    })
}

/// So of a std set.
pub fn archived_std_set<KU>(
    alloc: Global,
    set: &BTreeSet<KU>,
) -> Result<ArchiveAt, Fault<AllocError>>
where
    KU: Serialize<VecWriter, Global> + Ord,
    requires { IsTrue (are_fitting KU.Archived.kind unit_kind 5) }
    ensures smallest { IfOk result (λ made.
        IsSmallestOf KU.Archived.kind unit_kind 5 KU.archival unit_archival
        (with_units set.now.keys)
        made.bytes.items made.pos) }
    ensures refused { IfErr result (HasCause
        (IsUnserialised (tree_archival 5 KU.archival unit_archival (λ set. with_units set.keys))
        set.now fresh)
        (λ root mid. Serialises (tree_archival 5 KU.archival unit_archival
        (λ set. with_units set.keys)) set.now fresh mid root)
        (length set.now.keys)) }
{
    written_maps_are_held();
    let mut writer = VecWriter::new(alloc);
    let root = set.serialize(alloc, &mut writer)?;
    let pos = ArchivedBTreeSet::<KU::Archived, 5>::write_root(set.len(), root, &mut writer)?;
    Ok(ArchiveAt {
        bytes: writer.into_vec(),
        pos,
    })
}

/// What the walks of a map give.
#[derive(Drop)]
pub struct AllWalks<'a, M: ArchivedMap> {
    pub len: usize,
    pub entries: Iter<'a, M>,
    pub keys: Keys<'a, M>,
    pub values: Values<'a, M>,
}

/// **On every accepted buffer all walks give one list of `len` entries**, and no other buffer is accepted.
pub fn walks<'a, K: CheckBytes, V: CheckBytes, const E: usize>(
    buf: &'a [u8],
    pos: u32,
) -> Result<AllWalks<'a, ArchivedBTreeMap<K, V, E>>, Refusal>
    requires { IsTrue (are_fitting K.kind V.kind E) }
    ensures accepted { IfOk result (λ walks. (m : _) × IsMap K.kind V.kind E buf.now pos m) }
    ensures refused { IfErr result (λ refusal. IsNoMap K.kind V.kind E buf.now pos) }
    ensures len { (m : _) → IsMap K.kind V.kind E buf.now pos m →
        IfOk result (λ walks. walks.len ≡ length m) }
    ensures entries { (m : _) → IsMap K.kind V.kind E buf.now pos m → IfOk result (λ walks.
        ShowsAll ⟦<Iter<'a, ArchivedBTreeMap<K, V, E>> as Iterator>⟧.next_gives view_entry
        walks.entries m) }
    ensures keys { (m : _) → IsMap K.kind V.kind E buf.now pos m → IfOk result (λ walks.
        ShowsAll ⟦<Keys<'a, ArchivedBTreeMap<K, V, E>> as Iterator>⟧.next_gives view_value
        walks.keys (map (λ e. e.0) m)) }
    ensures values { (m : _) → IsMap K.kind V.kind E buf.now pos m → IfOk result (λ walks.
        ShowsAll ⟦<Values<'a, ArchivedBTreeMap<K, V, E>> as Iterator>⟧.next_gives view_value
        walks.values (map (λ e. e.1) m)) }
    ensures ends { IfOk result (λ walks.
        IsFinite (⟦<Iter<'a, ArchivedBTreeMap<K, V, E>> as Iterator>⟧.remaining walks.entries)
        × IsFinite (⟦<Keys<'a, ArchivedBTreeMap<K, V, E>> as Iterator>⟧.remaining walks.keys)
        × IsFinite (⟦<Values<'a, ArchivedBTreeMap<K, V, E>> as Iterator>⟧.remaining walks.values)) }
{
    let map = access::<K, V, E>(buf, pos)?;
    Ok(AllWalks {
        len: map.len(),
        entries: map.iter(),
        keys: map.keys(),
        values: map.values(),
    })
}

/// So does a set: it says the length of that list, and its walk gives the keys.
pub fn walk_of_set<'a, K: CheckBytes, const E: usize>(
    buf: &'a [u8],
    pos: u32,
) -> Result<(usize, SetIter<'a, K, E>), Refusal>
    requires { IsTrue (are_fitting K.kind unit_kind E) }
    ensures accepted { IfOk result (λ walk. (m : _) × IsMap K.kind unit_kind E buf.now pos m) }
    ensures refused { IfErr result (λ refusal. IsNoMap K.kind unit_kind E buf.now pos) }
    ensures len { (m : _) → IsMap K.kind unit_kind E buf.now pos m →
        IfOk result (λ walk. walk.0 ≡ length m) }
    ensures keys { (m : _) → IsMap K.kind unit_kind E buf.now pos m → IfOk result (λ walk.
        ShowsAll ⟦<SetIter<'a, K, E> as Iterator>⟧.next_gives view_value walk.1 (map (λ e. e.0) m)) }
    ensures ends { IfOk result (λ walk.
        IsFinite (⟦<SetIter<'a, K, E> as Iterator>⟧.remaining walk.1)) }
{
    let set = access_set::<K, E>(buf, pos)?;
    Ok((set.len(), set.iter()))
}

/// So does a visit: it is called along that list up to the first break, whose value it returns.
pub fn visited<'a, K, V, M, W, X, T, F>(map: View<'a, M>, visit: F) -> Option<T>
where
    K: Portable,
    V: Portable,
    M: ArchivedMap<Key = K, Mapped = V> + ShowsEntries,
    W: Shows<'a, K>,
    X: Shows<'a, V>,
    F: FnMut(W, X) -> ControlFlow<T, ()>,
    requires { F.IsAlwaysCallable visit }
    ensures { (m : _) → IsMap K.kind V.kind M.E map.entry.buf.now map.entry.pos m →
        Visited F.step (shown_both K.kind V.kind W.Shows X.Shows) visit m result }
{
    map.visit(visit)
}

/// **A lookup is that list's, under an ordered comparison.**
pub fn looked_up<'a, K: CheckBytes + ViewOrd, V: CheckBytes, const E: usize>(
    buf: &'a [u8],
    pos: u32,
    key: View<'_, K>,
) -> Result<Option<(View<'a, K>, View<'a, V>)>, Refusal>
    requires { IsTrue (are_fitting K.kind V.kind E) }
    ensures found { (m : _) → IsMap K.kind V.kind E buf.now pos m → IfOk result (λ found.
        IsLookedUp (λ e. K.kind.order (view_value key.entry) e.0) m (option_map view_entry found)) }
    ensures refused { IfErr result (λ refusal. IsNoMap K.kind V.kind E buf.now pos) }
{
    let map = access::<K, V, E>(buf, pos)?;
    Ok(map.get_key_value(key))
}

/// So it is in a set.
pub fn looked_up_in_set<'a, K: CheckBytes + ViewOrd, const E: usize>(
    buf: &'a [u8],
    pos: u32,
    key: View<'_, K>,
) -> Result<Option<View<'a, K>>, Refusal>
    requires { IsTrue (are_fitting K.kind unit_kind E) }
    ensures found { (m : _) → IsMap K.kind unit_kind E buf.now pos m → IfOk result (λ found.
        IsLookedUp (K.kind.order (view_value key.entry)) (map (λ e. e.0) m) (option_map view_value found)) }
    ensures refused { IfErr result (λ refusal. IsNoMap K.kind unit_kind E buf.now pos) }
{
    let set = access_set::<K, E>(buf, pos)?;
    Ok(set.get(key))
}

/// **A range is that list's, under an ordered comparison.**
pub fn within<'a, K: CheckBytes + ViewOrd, V: CheckBytes, const E: usize>(
    buf: &'a [u8],
    pos: u32,
    low: Bound<View<'_, K>>,
    high: Bound<View<'_, K>>,
) -> Result<Range<'a, ArchivedBTreeMap<K, V, E>>, Refusal>
    requires { IsTrue (are_fitting K.kind V.kind E) }
    ensures within { (m : _) → IsMap K.kind V.kind E buf.now pos m → IfOk result (λ range.
        (given : List (K.kind.Value × V.kind.Value)) × IsRun given m
        × ShowsAll ⟦<Range<'a, ArchivedBTreeMap<K, V, E>> as Iterator>⟧.next_gives view_entry range
        given
        × IsWithin (bound_map (λ q. K.kind.order (view_value q)) low.entry)
        (bound_map (λ q. K.kind.order (view_value q)) high.entry) m given) }
    ensures ends { IfOk result (λ range.
        IsFinite (⟦<Range<'a, ArchivedBTreeMap<K, V, E>> as Iterator>⟧.remaining range)) }
    ensures refused { IfErr result (λ refusal. IsNoMap K.kind V.kind E buf.now pos) }
{
    let map = access::<K, V, E>(buf, pos)?;
    Ok(map.range(low, high))
}

/// So it is in a set.
pub fn within_set<'a, K: CheckBytes + ViewOrd, const E: usize>(
    buf: &'a [u8],
    pos: u32,
    low: Bound<View<'_, K>>,
    high: Bound<View<'_, K>>,
) -> Result<SetRange<'a, K, E>, Refusal>
    requires { IsTrue (are_fitting K.kind unit_kind E) }
    ensures within { (m : _) → IsMap K.kind unit_kind E buf.now pos m → IfOk result (λ range.
        (given : List K.kind.Value) × IsRun given (map (λ e. e.0) m)
        × ShowsAll ⟦<SetRange<'a, K, E> as Iterator>⟧.next_gives view_value range given
        × AreKeysWithin (bound_map (λ q. K.kind.order (view_value q)) low.entry)
        (bound_map (λ q. K.kind.order (view_value q)) high.entry) (map (λ e. e.0) m) given) }
    ensures ends { IfOk result (λ range.
        IsFinite (⟦<SetRange<'a, K, E> as Iterator>⟧.remaining range)) }
    ensures refused { IfErr result (λ refusal. IsNoMap K.kind unit_kind E buf.now pos) }
{
    let set = access_set::<K, E>(buf, pos)?;
    Ok(set.range(low, high))
}

/// **Writing a seal changes one value alone.** Tells whether there was an entry of the key.
pub fn sealed<K: CheckBytes + ViewOrd, V: InPlace, const E: usize>(
    buf: &mut [u8],
    pos: u32,
    key: View<'_, K>,
    value: V::Native,
) -> Result<bool, Refusal>
    requires { IsTrue (are_fitting K.kind V.kind E) }
    ensures one { (m : _) → IsMap K.kind V.kind E buf.old pos m → IfOk result (λ found.
        IsSealed K.kind V.kind E buf.old pos (K.kind.order (view_value key.entry)) (V.in_place.own_bytes value)
        m buf.new found) }
    ensures refused { IfErr result (λ refusal. IsNoMap K.kind V.kind E buf.old pos) }
    ensures kept { OnErr result (buf.new ≡ buf.old) }
{
    access::<K, V, E>(buf, pos)?;
    let found = MapSeal::<ArchivedBTreeMap<K, V, E>>::at(buf, pos).find(key);
    match found {
        None => Ok(false),
        Some(place) => {
            let mut seal = MapSeal::<ArchivedBTreeMap<K, V, E>>::seal_at(buf, pos, place);
            seal.write(value);
            Ok(true)
        }
    }
}
