//! The callers, run once each on a list of two prices.

use crate::accounts::{Account, Ledger, pay};
use crate::building::{Squares, archive_of, prices_of, squares, word_lengths};
use crate::editing::{double_all, double_along, raise_price, set_price, set_price_strict};
use crate::many::total_in;
use crate::merging::merge;
use crate::nested::{Days, archive_of_inbox, sent_between, sent_on};
use crate::pages::{last_price, page};
use crate::pairs::{Visits, correct, visits, visits_between, visits_in};
use crate::reading::{
    Prices, count, first_above, first_longer, last_line, price_in, price_in_strict,
    price_unverified, price_with, total, total_between, total_between_unverified, total_of,
    total_of_prefix, total_unverified,
};
use crate::ticket::{Priority, Ticket};
use crate::typed::{
    are_prices, change_typed, name_of_celsius, price_in_source, price_typed, typed_archive_of,
};
use crate::weather::Weather;
use rkyv_btree::prelude::*;
use std::alloc::Global;
use std::collections::{BTreeMap, BTreeSet};
use std::convert::AsStr;
use std::io::Cursor;
use std::test::Fail;

type Numbers = Archived<BTreeSet<u32>>;

type Stations = Archived<BTreeMap<u32, Weather>>;

type Queue = Archived<BTreeMap<Ticket, u32>>;

/// The archive of `apple 3` and `pear 5`.
fn two(alloc: Global) -> Result<Vec<u8>, Fail> {
    let prices = [
        (String::from_str(alloc, "apple")?, 3),
        (String::from_str(alloc, "pear")?, 5),
    ];
    let (bytes, _) = archive_of(alloc, &prices)?;
    Ok(bytes)
}

#[test]
fn prices_are_paged(rt: HostRuntime) -> Result<(), Fail> {
    let bytes = two(rt.alloc())?;
    let all = page(rt.alloc(), Cursor::new(bytes.as_slice()), "", 3)?;
    assert_eq!(rt; all.len(), 2);
    let first = page(rt.alloc(), Cursor::new(bytes.as_slice()), "", 1)?;
    assert_eq!(rt; first.len(), 1);
    let later = page(rt.alloc(), Cursor::new(bytes.as_slice()), "b", 3)?;
    assert_eq!(rt; later.len(), 1);
    let (name, price) = later.first().expect(&rt, "an entry");
    assert_eq!(rt; name.as_str(), "pear");
    assert_eq!(rt; *price, 5);
    let last = last_price(rt.alloc(), Cursor::new(bytes.as_slice()))?;
    let (name, price) = last.expect(&rt, "a last entry");
    assert_eq!(rt; name.as_str(), "pear");
    assert_eq!(rt; price, 5);
    Ok(())
}

#[test]
fn prices_are_read(rt: HostRuntime) -> Result<(), Fail> {
    let bytes = two(rt.alloc())?;
    sizes_fit::<Prices>();
    let map = open::<Prices>(bytes.as_slice())?;
    assert_eq!(rt; price_with(map, "pear"), Some(5));
    assert_eq!(rt; first_longer(map, 4), Some(3));
    assert_eq!(rt; first_above(map, 3), Some(5));
    assert_eq!(rt; total(map), 8);
    assert_eq!(rt; total_between(map, "b", "q"), 5);
    assert_eq!(rt; total_of(map, &["pear", "plum", "apple", "pear"]), 13);
    assert_eq!(rt; count(map), 2);
    assert_eq!(rt; map.keys().len(), map.len());
    let line = last_line(rt.alloc(), map)?.expect(&rt, "a line");
    assert_eq!(rt; line.as_str(), "pear costs 5");
    Ok(())
}

#[test]
fn prices_are_edited(rt: HostRuntime) -> Result<(), Fail> {
    let mut bytes = two(rt.alloc())?;
    let there = set_price(bytes.as_mut_slice(), "pear", 1)?;
    let again = set_price_strict(bytes.as_mut_slice(), "pear", 6)?;
    let old = raise_price(bytes.as_mut_slice(), "pear", 4)?;
    double_all(bytes.as_mut_slice())?;
    double_along(bytes.as_mut_slice())?;
    assert!(rt; there && again);
    assert_eq!(rt; old, Some(6));
    assert_eq!(rt; price_in(bytes.as_slice(), "pear")?, Some(40));
    assert_eq!(rt; price_in_strict(bytes.as_slice(), "pear")?, Some(40));
    assert_eq!(rt; total_of_prefix(bytes.as_slice(), "pe")?, 40);
    assert_eq!(rt; price_unverified(bytes.as_slice(), "pear")?, Some(40));
    assert_eq!(rt; total_unverified(bytes.as_slice())?, 52);
    assert_eq!(rt; total_between_unverified(bytes.as_slice(), "b", "q")?, 40);
    Ok(())
}

#[test]
fn prices_are_read_while_they_are_edited(rt: HostRuntime) -> Result<(), Fail> {
    let mut bytes = two(rt.alloc())?;
    sizes_fit::<Prices>();
    let mut map = open_strict_mut::<Prices>(bytes.as_mut_slice())?;
    assert!(rt; map.set_by("apple", 4));
    assert_eq!(rt; map.get_native_by("apple"), Some(4));
    assert!(rt; map.contains_by("pear") && !map.contains_by("plum"));
    assert!(rt; map.get_by("plum").is_none());
    assert_eq!(rt; (map.len(), map.is_empty()), (2, false));
    let (first, _) = map.first().expect(&rt, "a first entry");
    assert_eq!(rt; AsStr::as_str(&first), "apple");
    let (last, _) = map.last().expect(&rt, "a last entry");
    assert_eq!(rt; AsStr::as_str(&last), "pear");
    Ok(())
}

#[test]
fn prices_are_found_in_a_file(rt: HostRuntime) -> Result<(), Fail> {
    let bytes = two(rt.alloc())?;
    let (total, read) = total_in(Cursor::new(bytes.as_slice()), &["pear", "plum"], 4096)?;
    assert_eq!(rt; total, 5);
    assert!(rt; 0 < read && read < 4096);
    assert!(rt; total_in(Cursor::new(bytes.as_slice()), &["pear"], 8).is_err());
    Ok(())
}

#[test]
fn accounts_are_paid_into(rt: HostRuntime) -> Result<(), Fail> {
    let alloc = rt.alloc();
    sizes_fit::<Ledger>();
    let mut accounts: BTreeMap<String, Account> = BTreeMap::new(alloc);
    let account = Account {
        cents: 1000,
        flags: 1,
        branch: 12,
    };
    accounts.insert(String::from_str(alloc, "ann")?, account)?;
    let mut bytes = to_archive(alloc, &accounts)?;
    assert_eq!(rt; pay(bytes.as_mut_slice(), "ann", 50)?, Some(1000));
    assert_eq!(rt; pay(bytes.as_mut_slice(), "bob", 50)?, None);
    let ledger = open_strict::<Ledger>(bytes.as_slice())?;
    let paid = ledger.get_native_by("ann").expect(&rt, "an account");
    assert_eq!(rt; paid.cents, 1050);
    assert_eq!(rt; (paid.flags, paid.branch), (1, 12));
    Ok(())
}

#[test]
fn weather_is_found(rt: HostRuntime) -> Result<(), Fail> {
    let alloc = rt.alloc();
    sizes_fit::<Stations>();
    let mut stations: BTreeMap<u32, Weather> = BTreeMap::new(alloc);
    let weather = Weather {
        seconds: 60,
        celsius: -5,
        raining: false,
        windy: true,
    };
    stations.insert(7, weather)?;
    let bytes = to_archive(alloc, &stations)?;
    let map = open::<Stations>(bytes.as_slice())?;
    let found = map.get_native_by(7).expect(&rt, "a station");
    assert_eq!(rt; (found.seconds, found.celsius), (60, -5));
    assert!(rt; found.windy && !found.raining);
    assert!(rt; map.get_native_by(8).is_none());
    Ok(())
}

#[test]
fn ticket_is_found(rt: HostRuntime) -> Result<(), Fail> {
    let alloc = rt.alloc();
    sizes_fit::<Queue>();
    let mut queue: BTreeMap<Ticket, u32> = BTreeMap::new(alloc);
    let mut ticket = Ticket {
        hash: [7; 32],
        priority: Priority::High,
        opened: 60,
        country: *b"is",
    };
    queue.insert(ticket, 3)?;
    let bytes = to_archive(alloc, &queue)?;
    let map = open::<Queue>(bytes.as_slice())?;
    assert_eq!(rt; map.get_native_by(ticket), Some(3));
    ticket.priority = Priority::Low;
    assert_eq!(rt; map.get_native_by(ticket), None);
    Ok(())
}

#[test]
fn words_are_archived_where_they_are(rt: HostRuntime) -> Result<(), Fail> {
    let (bytes, _) = word_lengths(rt.alloc(), &["", "bar", "foobar"])?;
    assert_eq!(rt; price_in_strict(bytes.as_slice(), "")?, Some(0));
    assert_eq!(rt; price_in_strict(bytes.as_slice(), "foobar")?, Some(6));
    Ok(())
}

#[test]
fn lists_become_archives(rt: HostRuntime) -> Result<(), Fail> {
    let alloc = rt.alloc();
    let prices = [
        (String::from_str(alloc, "apple")?, 3),
        (String::from_str(alloc, "pear")?, 5),
    ];
    assert_eq!(rt;
        prices_of(alloc, &prices)?.as_slice(),
        two(alloc)?.as_slice()
    );
    Ok(())
}

#[test]
fn squares_are_read(rt: HostRuntime) -> Result<(), Fail> {
    let bytes = squares(rt.alloc(), 1000)?;
    sizes_fit::<Squares>();
    let map = open::<Squares>(bytes.as_slice())?;
    assert_eq!(rt; map.len(), 1000);
    let (_, square) = map.get_key_value_by(999).expect(&rt, "a square");
    assert_eq!(rt; square.to_native(), 998001);
    Ok(())
}

#[test]
fn counts_are_merged(rt: HostRuntime) -> Result<(), Fail> {
    let alloc = rt.alloc();
    let left = two(alloc)?;
    let more = [
        (String::from_str(alloc, "fig")?, 7),
        (String::from_str(alloc, "pear")?, 2),
        (String::from_str(alloc, "quince")?, 9),
    ];
    let (right, _) = archive_of(alloc, &more)?;
    sizes_fit::<Prices>();
    let one = open_strict::<Prices>(left.as_slice())?;
    let other = open_strict::<Prices>(right.as_slice())?;
    let mut writer = VecWriter::new(alloc);
    merge(alloc, one, other, &mut writer)?;
    let bytes = writer.into_vec();
    let map = open_strict::<Prices>(bytes.as_slice())?;
    assert_eq!(rt; map.len(), 4);
    assert_eq!(rt; map.get_native_by("apple"), Some(3));
    assert_eq!(rt; map.get_native_by("fig"), Some(7));
    assert_eq!(rt; map.get_native_by("pear"), Some(7));
    assert_eq!(rt; map.get_native_by("quince"), Some(9));
    Ok(())
}

/// The archive of the set of 2, 3 and 7.
fn three(alloc: Global) -> Result<Vec<u8>, Fail> {
    sizes_fit::<Numbers>();
    let numbers = [2u32, 3, 7];
    let mut writer = VecWriter::new(alloc);
    let tree = Numbers::serialize_from_exact_iter(alloc, numbers.iter(), &mut writer)?;
    Numbers::write_root(numbers.len(), tree, &mut writer)?;
    Ok(writer.into_vec())
}

#[test]
fn sets_are_read(rt: HostRuntime) -> Result<(), Fail> {
    let bytes = three(rt.alloc())?;
    sizes_fit::<Numbers>();
    let set = open::<Numbers>(bytes.as_slice())?;
    let strict = open_strict::<Numbers>(bytes.as_slice())?;
    let mut sum = 0u32;
    for number in set {
        sum = sum.wrapping_add(number.to_native());
    }
    for number in strict {
        sum = sum.wrapping_add(number.to_native());
    }
    assert_eq!(rt; sum, 24);
    let first = set.range_of(3..7).next().map(|number| number.to_native());
    assert_eq!(rt; first, Some(3));
    let last = strict
        .range_of(4..=7)
        .next()
        .map(|number| number.to_native());
    assert_eq!(rt; last, Some(7));
    assert_eq!(rt; set.len(), 3);
    assert_eq!(rt; set.iter().len(), set.len());
    assert_eq!(rt; set.first().map(|number| number.to_native()), Some(2));
    assert_eq!(rt; set.last().map(|number| number.to_native()), Some(7));
    assert_eq!(rt; strict.len(), 3);
    Ok(())
}

#[test]
fn sets_are_read_unverified(rt: HostRuntime) -> Result<(), Fail> {
    let bytes = three(rt.alloc())?;
    sizes_fit::<Numbers>();
    let set = Unverified::<Numbers>::open(bytes.as_slice())?;
    let mut sum = 0u32;
    for number in set.iter() {
        sum = sum.wrapping_add(number?.to_native());
    }
    assert_eq!(rt; sum, 12);
    let mut within = 0u32;
    for number in set.range_of(3..7)? {
        within = within.wrapping_add(number?.to_native());
    }
    assert_eq!(rt; within, 3);
    Ok(())
}

#[test]
fn strict_prices_are_read(rt: HostRuntime) -> Result<(), Fail> {
    let bytes = two(rt.alloc())?;
    sizes_fit::<Prices>();
    let map = open_strict::<Prices>(bytes.as_slice())?;
    let mut sum = 0u64;
    for (_, price) in map {
        sum = sum.wrapping_add(price.to_native());
    }
    assert_eq!(rt; sum, 8);
    let first = map.range_of("b"..).next().map(|entry| entry.1.to_native());
    assert_eq!(rt; first, Some(5));
    assert!(rt; map.range_of("b".."c").next().is_none());
    let view = map.as_view();
    assert_eq!(rt; view.position() as usize, bytes.len().saturating_sub(8));
    let (name, _) = view.get_key_value_by("pear").expect(&rt, "a pear");
    assert_eq!(rt; AsStr::as_str(&name), "pear");
    Ok(())
}

#[test]
fn typed_files_are_opened(rt: HostRuntime) -> Result<(), Fail> {
    let alloc = rt.alloc();
    let prices = [
        (String::from_str(alloc, "apple")?, 3),
        (String::from_str(alloc, "pear")?, 5),
    ];
    let mut bytes = typed_archive_of(alloc, &prices)?;
    are_prices(bytes.as_slice())?;
    assert!(rt; are_prices(two(alloc)?.as_slice()).is_err());
    assert_eq!(rt; price_typed(bytes.as_slice(), "pear")?, Some(5));
    assert_eq!(rt; price_in_source(alloc, bytes.as_slice(), "pear")?, Some(5));
    assert!(rt; price_in_source(alloc, two(alloc)?.as_slice(), "pear").is_err());
    assert!(rt; change_typed(bytes.as_mut_slice(), "pear", 6)?);
    assert_eq!(rt; price_in(bytes.as_slice(), "pear")?, Some(6));
    assert_eq!(rt; name_of_celsius(alloc)?.as_str(), "<Celsius>");
    Ok(())
}

#[test]
#[tactic(auto, unfolding(rkyv_btree_portable::specs::Rounding::round_up))]
fn pairs_are_keys(rt: HostRuntime) -> Result<(), Fail> {
    let alloc = rt.alloc();
    sizes_fit::<Visits>();
    let mut by_city: BTreeMap<(String, u32), u64> = BTreeMap::new(alloc);
    for (city, year, count) in [("oslo", 2020, 3), ("bern", 2020, 4), ("oslo", 2022, 5)] {
        by_city.insert((String::from_str(alloc, city)?, year), count)?;
    }
    let mut bytes = to_archive(alloc, &by_city)?;
    assert_eq!(rt; visits(bytes.as_slice(), "oslo", 2020)?, Some(3));
    assert_eq!(rt; visits(bytes.as_slice(), "oslo", 2021)?, None);
    assert_eq!(rt; visits_between(bytes.as_slice(), "oslo", 2020, 2022)?, 8);
    assert_eq!(rt; visits_in(bytes.as_slice(), 2020)?, 7);
    assert!(rt; correct(bytes.as_mut_slice(), "bern", 2020, 6)?);
    assert_eq!(rt; visits_in(bytes.as_slice(), 2020)?, 9);
    Ok(())
}

#[test]
fn maps_are_values(rt: HostRuntime) -> Result<(), Fail> {
    let alloc = rt.alloc();
    let mut days: Days = BTreeMap::new(alloc);
    days.insert(3, 10)?;
    days.insert(5, 20)?;
    let mut inbox: BTreeMap<String, Days> = BTreeMap::new(alloc);
    inbox.insert(String::from_str(alloc, "ann")?, days)?;
    let bytes = archive_of_inbox(alloc, &inbox)?;
    assert_eq!(rt; sent_on(bytes.as_slice(), "ann", 5)?, Some(20));
    assert_eq!(rt; sent_on(bytes.as_slice(), "ann", 4)?, None);
    assert_eq!(rt; sent_on(bytes.as_slice(), "bob", 5)?, None);
    assert_eq!(rt; sent_between(bytes.as_slice(), "ann", 3, 5)?, 30);
    assert_eq!(rt; sent_between(bytes.as_slice(), "bob", 3, 5)?, 0);
    Ok(())
}
