//! What is archived: native values, each as the map or the set that it becomes.
ghost use Rattle.std.specs.Prelude.{IsTrue};
ghost use Rattle.rkyv_btree_base.specs.Layout.{are_fitting};

use anyhow::ensure;
use rkyv_btree::prelude::*;
use rkyv_btree::strict::migrate;
use rkyv_btree_base::layout;
use rkyv_btree_base::place::Writer;
use rkyv_btree_base::whole::write_value;
use std::alloc::{AllocError, Allocator, Global};
use std::collections::{BTreeMap, BTreeSet};

/// Native values that are archived as a map or a set.
#[derive(Drop)]
pub(crate) enum Content {
    /// Numbers, five entries a node.
    Numbers(Vec<(u32, u32)>),
    /// Numbers, one entry a node.
    OneANode(Vec<(u32, u32)>),
    /// Texts, one entry a node.
    Texts(Vec<(String, u32)>),
    /// Numbers without values, five a node.
    Keys(Vec<u32>),
    /// A std map of std maps.
    Maps(BTreeMap<u32, BTreeMap<u32, u32>>),
    /// A std map of texts.
    Prices(BTreeMap<String, i32>),
    /// Numbers by strict building, five entries a node.
    StrictNumbers(Vec<(u32, u32)>),
    /// Texts by strict building, one entry a node.
    StrictTexts(Vec<(String, u32)>),
    /// Numbers without values by strict building, five a node.
    StrictKeys(Vec<u32>),
    /// Std maps by strict building, five a node.
    StrictMaps(Vec<(u32, BTreeMap<u32, u32>)>),
    /// The archive of numbers that is migrated, five entries a node.
    Migrated(Vec<u8>),
}

/// A content with its name, and what its writer holds before.
#[derive(Drop)]
pub(crate) struct Case {
    pub(crate) name: &'static str,
    pub(crate) old: &'static [u8],
    pub(crate) content: Content,
}

/// Maps of numbers, five entries a node.
type Numbers = ArchivedBTreeMap<ArchivedU32, ArchivedU32, 5>;

/// What some writers hold before.
const BEFORE: [u8; 3] = [0xAA, 0xBB, 0xCC];

/// Returns the keys from 1 on, each with its tenfold as the value.
pub(crate) fn tens(alloc: Global, last: u32) -> Result<Vec<(u32, u32)>, AllocError> {
    let mut entries = Vec::new(alloc);
    for key in 1..=last {
        entries.push((key, key.wrapping_mul(10)))?;
    }
    Ok(entries)
}

/// Returns the keys from 1 on, each with its tenfold as the value, where the entry with an index and the one before it have
/// changed places.
pub(crate) fn swapped_tens(
    alloc: Global,
    last: u32,
    index: u32,
) -> Result<Vec<(u32, u32)>, AllocError> {
    let mut entries = Vec::new(alloc);
    for place in 1..=last {
        let key = if place == index {
            index.wrapping_add(1)
        } else if place == index.wrapping_add(1) {
            index
        } else {
            place
        };
        entries.push((key, key.wrapping_mul(10)))?;
    }
    Ok(entries)
}

/// Returns the keys from 1 on.
pub(crate) fn keys(alloc: Global, last: u32) -> Result<Vec<u32>, AllocError> {
    let mut keys = Vec::new(alloc);
    for key in 1..=last {
        keys.push(key)?;
    }
    Ok(keys)
}

/// Returns a std map of entries.
pub(crate) fn map_of<U: Drop>(
    alloc: Global,
    entries: Vec<(u32, U)>,
) -> Result<BTreeMap<u32, U>, AllocError> {
    let mut map = BTreeMap::new(alloc);
    for (key, value) in entries {
        if map.insert(key, value).is_err() {
            return Err(AllocError);
        }
    }
    Ok(map)
}

/// Returns four texts, inserted out of order.
pub(crate) fn four_texts(alloc: Global) -> Result<BTreeMap<String, i32>, AllocError> {
    let mut map = BTreeMap::new(alloc);
    for (text, number) in [("foo", 10), ("bar", 20), ("baz", 40), ("bat", 80)] {
        let text = String::from_str(alloc, text)?;
        if map.insert(text, number).is_err() {
            return Err(AllocError);
        }
    }
    Ok(map)
}

/// Returns two texts in order.
fn two_texts(alloc: Global) -> Result<Vec<(String, u32)>, AllocError> {
    let mut entries = Vec::new(alloc);
    for (text, number) in [("a", 1), ("bc", 2)] {
        entries.push((String::from_str(alloc, text)?, number))?;
    }
    Ok(entries)
}

/// Returns a map of one map of one entry.
pub(crate) fn map_in_map(alloc: Global) -> Result<BTreeMap<u32, BTreeMap<u32, u32>>, AllocError> {
    let inner = map_of(alloc, Vec::from_slice(alloc, &[(7, 11)])?)?;
    let mut outer = Vec::new(alloc);
    outer.push((1, inner))?;
    map_of(alloc, outer)
}

/// Returns an empty map, one of six entries, and one of one, each with a key.
fn three_maps(alloc: Global) -> Result<Vec<(u32, BTreeMap<u32, u32>)>, AllocError> {
    let mut outer = Vec::new(alloc);
    outer.push((1, BTreeMap::new(alloc)))?;
    outer.push((2, map_of(alloc, tens(alloc, 6)?)?))?;
    outer.push((3, map_of(alloc, Vec::from_slice(alloc, &[(7, 70)])?)?))?;
    Ok(outer)
}

/// Returns the map of these three.
pub(crate) fn maps_in_map(alloc: Global) -> Result<BTreeMap<u32, BTreeMap<u32, u32>>, AllocError> {
    map_of(alloc, three_maps(alloc)?)
}

/// Returns the set of the first keys.
pub(crate) fn set_of(alloc: Global, last: u32) -> Result<BTreeSet<u32>, AllocError> {
    let mut set = BTreeSet::new(alloc);
    for key in 1..=last {
        if set.insert(key).is_err() {
            return Err(AllocError);
        }
    }
    Ok(set)
}

/// Returns the archive of entries in any order.
pub(crate) fn archived(alloc: Global, entries: Vec<(u32, u32)>) -> anyhow::Result<Vec<u8>> {
    let mut writer = VecWriter::new(alloc);
    let answer = Content::Numbers(entries).write::<VecWriter, Global>(alloc, alloc, &mut writer)?;
    ensure!(answer.is_ok(), "not archived");
    Ok(writer.into_vec())
}

/// Returns the migration of a leaf that isn't in order.
pub(crate) fn migrated_leaf(alloc: Global) -> anyhow::Result<Content> {
    let entries = Vec::from_slice(alloc, &[(3, 30), (1, 10), (2, 20)])?;
    Ok(Content::Migrated(archived(alloc, entries)?))
}

/// Returns the migration of six keys.
pub(crate) fn migrated_six(alloc: Global) -> anyhow::Result<Content> {
    Ok(Content::Migrated(archived(alloc, tens(alloc, 6)?)?))
}

/// Returns all cases.
pub(crate) fn cases(alloc: Global) -> anyhow::Result<Vec<Case>> {
    let mut cases = built_cases(alloc)?;
    let all: [(&'static str, Content); 2] = [
        ("an unordered leaf, migrated", migrated_leaf(alloc)?),
        ("six keys, migrated", migrated_six(alloc)?),
    ];
    for (name, content) in all {
        let old = b"";
        cases.push(Case { name, old, content })?;
    }
    Ok(cases)
}

/// Returns the cases that take the memory of a heap alone.
pub(crate) fn built_cases(alloc: Global) -> Result<Vec<Case>, AllocError> {
    let seven = Vec::from_slice(alloc, &[(7, 11)])?;
    let all: [(&'static str, &'static [u8], Content); 16] = [
        ("seventeen keys", b"", Content::Numbers(tens(alloc, 17)?)),
        ("two texts", b"", Content::Texts(two_texts(alloc)?)),
        ("one entry after AA BB CC", &BEFORE, Content::Numbers(seven)),
        (
            "six keys after AA BB CC",
            &BEFORE,
            Content::Numbers(tens(alloc, 6)?),
        ),
        (
            "no entries after AA BB CC",
            &BEFORE,
            Content::Numbers(Vec::new(alloc)),
        ),
        ("six keys", b"", Content::Numbers(tens(alloc, 6)?)),
        (
            "four keys, one a node",
            b"",
            Content::OneANode(tens(alloc, 4)?),
        ),
        ("a set", b"", Content::Keys(keys(alloc, 2)?)),
        ("a set of seven", b"", Content::Keys(keys(alloc, 7)?)),
        ("a map in a map", b"", Content::Maps(map_in_map(alloc)?)),
        ("maps in a map", b"", Content::Maps(maps_in_map(alloc)?)),
        ("four texts", b"", Content::Prices(four_texts(alloc)?)),
        (
            "seventeen keys, strict",
            b"",
            Content::StrictNumbers(tens(alloc, 17)?),
        ),
        (
            "two texts, strict",
            b"",
            Content::StrictTexts(two_texts(alloc)?),
        ),
        (
            "a set of seven, strict",
            b"",
            Content::StrictKeys(keys(alloc, 7)?),
        ),
        (
            "maps in a map, strict",
            b"",
            Content::StrictMaps(three_maps(alloc)?),
        ),
    ];
    let mut cases = Vec::new(alloc);
    for (name, old, content) in all {
        cases.push(Case { name, old, content })?;
    }
    Ok(cases)
}

/// Writes the tree of some entries and their map, and returns the map's position. The keys must increase if the call is strict.
fn write_map<
    KU: Archive<Archived = K> + Serialize<W, A> + Ord,
    VU: Archive<Archived = V> + Serialize<W, A>,
    K: Portable,
    V: Portable,
    W: Writer,
    A: Allocator + Copy,
    const E: usize,
>(heap: A, is_strict: bool, entries: &[(KU, VU)], writer: &mut W) -> Result<u32, Fault<W::Error>>
    requires { IsTrue (are_fitting K.kind V.kind E) }
{
    let items = entries.iter().map(|entry: &(KU, VU)| (&entry.0, &entry.1));
    let len = entries.len();
    let tree = if is_strict {
        ArchivedBTreeMap::<K, V, E>::serialize_strict_from_ordered_iter(heap, len, items, writer)?
    } else {
        ArchivedBTreeMap::<K, V, E>::serialize_from_ordered_iter(heap, len, items, writer)?
    };
    ArchivedBTreeMap::<K, V, E>::write_root(len, tree, writer)
}

/// Writes the tree of some keys and their set, and returns the set's position. They must increase if the call is strict.
fn write_set<W: Writer, A: Allocator + Copy>(
    heap: A,
    is_strict: bool,
    keys: &[u32],
    writer: &mut W,
) -> anyhow::Result<Result<u32, Fault<W::Error>>> {
    ensure!(layout::fits::<ArchivedU32, (), 5>(), "the set doesn't fit");
    let len = keys.len();
    let items = keys.iter();
    let tree = if is_strict {
        ArchivedBTreeSet::<ArchivedU32, 5>::serialize_strict_from_ordered_iter(
            heap, len, items, writer,
        )
    } else {
        ArchivedBTreeSet::<ArchivedU32, 5>::serialize_from_ordered_iter(heap, len, items, writer)
    };
    Ok(match tree {
        Ok(tree) => ArchivedBTreeSet::<ArchivedU32, 5>::write_root(len, tree, writer),
        Err(fault) => Err(fault),
    })
}

/// Writes all of a native value, and returns its position.
fn write_native<T: Serialize<W, A>, W: Writer, A: Allocator + Copy>(
    heap: A,
    value: &T,
    writer: &mut W,
) -> anyhow::Result<Result<u32, Fault<W::Error>>> {
    ensure!(Archived::<T>::fits(), "the type doesn't fit");
    Ok(match value.serialize(heap, writer) {
        Ok(resolver) => write_value(heap, value, resolver, writer),
        Err(fault) => Err(fault),
    })
}

/// Migrates an archive's map, and returns its new position.
fn write_migrated<W: Writer>(
    alloc: Global,
    archive: &[u8],
    writer: &mut W,
) -> anyhow::Result<Result<u32, Fault<W::Error>>> {
    ensure!(
        layout::fits::<ArchivedU32, ArchivedU32, 5>(),
        "no node of these types fits"
    );
    let view = open::<Numbers>(archive)?;
    Ok(migrate::<u32, u32, _, _, W>(alloc, &view, writer))
}

impl Content {
    /// Writes the archive of a content, and returns the position of its map or set. A migration takes its memory of `alloc`.
    pub(crate) fn write<W: Writer, A: Allocator + Copy>(
        &self,
        alloc: Global,
        heap: A,
        writer: &mut W,
    ) -> anyhow::Result<Result<u32, Fault<W::Error>>> {
        ensure!(
            layout::fits::<ArchivedU32, ArchivedU32, 5>(),
            "no node of these types fits"
        );
        ensure!(
            layout::fits::<ArchivedU32, ArchivedU32, 1>(),
            "no node of these types fits"
        );
        ensure!(
            layout::fits::<ArchivedText, ArchivedU32, 1>(),
            "no node of these types fits"
        );
        match self {
            Content::Numbers(entries) => {
                Ok(write_map::<u32, u32, ArchivedU32, ArchivedU32, W, A, 5>(
                    heap, false, entries, writer,
                ))
            }
            Content::OneANode(entries) => {
                Ok(write_map::<u32, u32, ArchivedU32, ArchivedU32, W, A, 1>(
                    heap, false, entries, writer,
                ))
            }
            Content::Texts(entries) => {
                Ok(write_map::<String, u32, ArchivedText, ArchivedU32, W, A, 1>(
                    heap, false, entries, writer,
                ))
            }
            Content::Keys(keys) => write_set::<W, A>(heap, false, keys, writer),
            Content::Maps(map) => write_native::<_, W, A>(heap, map, writer),
            Content::Prices(map) => write_native::<_, W, A>(heap, map, writer),
            Content::StrictNumbers(entries) => {
                Ok(write_map::<u32, u32, ArchivedU32, ArchivedU32, W, A, 5>(
                    heap, true, entries, writer,
                ))
            }
            Content::StrictTexts(entries) => {
                Ok(write_map::<String, u32, ArchivedText, ArchivedU32, W, A, 1>(
                    heap, true, entries, writer,
                ))
            }
            Content::StrictKeys(keys) => write_set::<W, A>(heap, true, keys, writer),
            Content::StrictMaps(entries) => {
                ensure!(
                    layout::fits::<ArchivedU32, Numbers, 5>(),
                    "no node of these types fits"
                );
                Ok(write_map::<u32, BTreeMap<u32, u32>, ArchivedU32, Numbers, W, A, 5>(
                    heap, true, entries, writer,
                ))
            }
            Content::Migrated(archive) => write_migrated::<W>(alloc, archive, writer),
        }
    }
}
