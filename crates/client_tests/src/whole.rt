//! Whole archives that are made, or a growth is refused, and what is no archive.

use crate::shared::same;
use examples::strict::{file_of, first_price_from, price_in};
use rkyv_btree::prelude::*;
use std::alloc::{AllocError, Global};
use std::collections::BTreeMap;
use std::test::Fail;

/// Four texts, put in out of order.
fn four_texts(alloc: Global) -> Result<BTreeMap<String, i32>, AllocError> {
    let mut map = BTreeMap::new(alloc);
    for (text, number) in [("foo", 10), ("bar", 20), ("baz", 40), ("bat", 80)] {
        let text = String::from_str(alloc, text)?;
        if map.insert(text, number).is_err() {
            return Err(AllocError);
        }
    }
    Ok(map)
}

const FOUR_TEXTS: [u8; 88] = [
    b'b', b'a', b'r', b'b', b'a', b't', b'b', b'a', b'z', b'f', b'o', b'o', // texts
    0, 0, 0, 0, // kind
    0xF0, 0xFF, 0xFF, 0xFF, 3, 0, 0, 0, // bar
    0xEB, 0xFF, 0xFF, 0xFF, 3, 0, 0, 0, // bat
    0xE6, 0xFF, 0xFF, 0xFF, 3, 0, 0, 0, // baz
    0xE1, 0xFF, 0xFF, 0xFF, 3, 0, 0, 0, // foo
    0, 0, 0, 0, 0, 0, 0, 0, // no key
    20, 0, 0, 0, 80, 0, 0, 0, 40, 0, 0, 0, 10, 0, 0, 0, 0, 0, 0, 0, // values
    4, 0, 0, 0, // length
    0xBC, 0xFF, 0xFF, 0xFF, 4, 0, 0, 0, // root
];

type Numbers = ArchivedBTreeMap<ArchivedU32, ArchivedU32, 5>;

// The file of a map is strict, so what is found in it is what the map has.
#[test]
fn files_are_opened_strictly(rt: HostRuntime) -> Result<(), Fail> {
    let mut prices = BTreeMap::new(rt.alloc());
    for (name, price) in [("pear", 5u32), ("apple", 3), ("fig", 8)] {
        prices.insert(String::from_str(rt.alloc(), name)?, price)?;
    }
    let file = file_of(rt.alloc(), &prices)?;
    same(&rt, price_in(file.as_slice(), "fig")?, Some(8));
    same(&rt, price_in(file.as_slice(), "grape")?, None);
    same(&rt, first_price_from(file.as_slice(), "b")?, Some(8));
    same(&rt, first_price_from(file.as_slice(), "q")?, None);
    let refusal = Refusal::OutOfRange { pos: 0 };
    same(&rt, price_in(&[], "fig").err(), Some(refusal));
    Ok(())
}

// They are too short for own bytes, which would begin at their start.
#[test]
fn empty_bytes_are_refused_at_0(rt: HostRuntime) {
    assert!(rt; Numbers::fits());
    let refusal = Refusal::OutOfRange { pos: 0 };
    same(&rt, open::<Numbers>(&[]).err(), Some(refusal));
    let made: Result<BTreeMap<u32, u32>, FromArchiveFault> = from_archive(rt.alloc(), &[]);
    same(&rt, made.err(), Some(FromArchiveFault::Refused(refusal)));
}

// The map takes five growths, and its archive nine more. `rt try --test --fail-alloc 6` to `14` refuses each of these, some
// of which are the writer's.
#[test]
fn an_archive_is_made_or_a_growth_is_refused(rt: HostRuntime) {
    assert!(rt; ArchivedBTreeMap::<ArchivedText, ArchivedI32, 5>::fits());
    let Ok(map) = four_texts(rt.alloc()) else {
        return;
    };
    match to_archive(rt.alloc(), &map) {
        Ok(archive) => same(&rt, archive.as_slice(), FOUR_TEXTS.as_slice()),
        Err(fault) => assert!(rt; matches!(fault, Fault::Memory(_) | Fault::Writer(_))),
    }
}

// A list, four texts, and then three growths for the map. `rt try --test --fail-alloc 1` to `8` refuses each.
#[test]
fn a_map_is_made_or_a_growth_is_refused(rt: HostRuntime) {
    assert!(rt; ArchivedBTreeMap::<ArchivedText, ArchivedI32, 5>::fits());
    let made: Result<BTreeMap<String, i32>, FromArchiveFault> = from_archive(
        rt.alloc(),
        &FOUR_TEXTS,
    );
    match made {
        Ok(map) => same(&rt, (map.len(), map.get("baz").copied()), (4, Some(40))),
        Err(fault) => {
            let refused = DeserializeFault::Memory(AllocError);
            same(&rt, fault, FromArchiveFault::NotMade(refused));
        }
    }
}
