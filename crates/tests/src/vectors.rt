//! Vectors beside native ones: how they compare and are shown, and vectors of vectors and of options in maps.

use crate::same::{same, shown};
use crate::views::hashed;
use rkyv_btree::prelude::*;
use rkyv_btree_base::layout;
use std::collections::BTreeMap;
use std::test::Fail;

/// The elements 7 and 256, and after them three vectors: of both, of the first, and of none.
const VECTORS: [u8; 32] = [
    7, 0, 0, 0, 0, 1, 0, 0, 248, 255, 255, 255, 2, 0, 0, 0, 240, 255, 255, 255, 1, 0, 0, 0, 232,
    255, 255, 255, 0, 0, 0, 0,
];

type Numbers = ArchivedVec<ArchivedU32>;

type Nested = BTreeMap<u32, Vec<Vec<u32>>>;

type Options = BTreeMap<u32, Vec<Option<u64>>>;

type Texts = BTreeMap<u32, Vec<String>>;

#[test]
fn vectors_compare_as_native_ones(rt: HostRuntime) -> Result<(), Fail> {
    let natives = [
        vec![in rt.alloc(); 7u32, 256]?,
        vec![in rt.alloc(); 7u32]?,
        Vec::new(rt.alloc()),
    ];
    for (i, left) in natives.iter().enumerate() {
        let a = View::<Numbers>::check(&VECTORS, 8 + 8 * i as u32).expect(&rt, "a vector");
        same(&rt, hashed(&a), hashed(left));
        for (j, right) in natives.iter().enumerate() {
            let b = View::<Numbers>::check(&VECTORS, 8 + 8 * j as u32).expect(&rt, "a vector");
            same(&rt, a == b, *left == *right);
            same(&rt, a.cmp(&b), left.cmp(right));
            same(&rt, Numbers::same_as(&a, right), *left == *right);
        }
    }
    Ok(())
}

#[test]
fn elements_are_read_by_their_index(rt: HostRuntime) -> Result<(), Fail> {
    let vec = View::<Numbers>::check(&VECTORS, 8).expect(&rt, "a vector");
    same(&rt, vec.len(), 2);
    let second = vec.get(1).expect(&rt, "an element");
    same(&rt, second.to_native(), 256);
    assert!(rt; vec.get(2).is_none());
    let text = shown(rt.alloc(), &vec)?;
    same(&rt, text.as_str(), "[7, 256]");
    Ok(())
}

#[test]
fn maps_of_nested_vectors_come_back(rt: HostRuntime) -> Result<(), Fail> {
    sizes_fit::<Archived<Nested>>();
    let alloc = rt.alloc();
    let mut map = BTreeMap::new(alloc);
    map.insert(
        3u32,
        vec![in alloc; vec![in alloc; 1u32, 2]?, Vec::new(alloc)]?,
    )?;
    map.insert(4u32, Vec::new(alloc))?;
    let bytes = to_archive(alloc, &map)?;
    let again: Nested = from_archive(alloc, &bytes)?;
    assert!(rt; again == map);
    Ok(())
}

#[test]
fn maps_of_vectors_of_options_come_back(rt: HostRuntime) -> Result<(), Fail> {
    sizes_fit::<Archived<Options>>();
    let alloc = rt.alloc();
    let mut map = BTreeMap::new(alloc);
    map.insert(3u32, vec![in alloc; None, Some(9u64)]?)?;
    let bytes = to_archive(alloc, &map)?;
    let again: Options = from_archive(alloc, &bytes)?;
    assert!(rt; again == map);
    Ok(())
}

#[test]
fn typed_files_name_vectors(rt: HostRuntime) -> Result<(), Fail> {
    assert!(rt; layout::fits::<u8, ArchivedVec<ArchivedText>, 5>());
    assert!(rt; !layout::fits::<u8, ArchivedVec<()>, 5>());
    sizes_fit::<Archived<Texts>>();
    let mut map: Texts = BTreeMap::new(rt.alloc());
    map.insert(7, Vec::new(rt.alloc()))?;
    let bytes = to_typed_archive(rt.alloc(), &map)?;
    let name = type_name_of(&bytes).expect(&rt, "a header");
    same(&rt, name, "[u32 -> vec(text) / 5]");
    Ok(())
}
