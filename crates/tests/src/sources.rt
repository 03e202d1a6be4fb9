//! Lookups in a source: of keys that are pairs, and with no byte too few of the budget or of the lent buffer.
ghost use Rattle.std.specs.Prelude.{◌≤◌, length};

use crate::convert::archive;
use crate::same::same;
use rkyv_btree::source::{SourceFault, UnverifiedSource};
use rkyv_btree_base::layout;
use rkyv_btree_base::map::ArchivedBTreeMap;
use rkyv_btree_base::numbers::ArchivedU32;
use rkyv_btree_base::place::VecWriter;
use rkyv_btree_base::refusal::Refusal;
use rkyv_btree_base::text::ArchivedText;
use rkyv_btree_base::util::{Entry, EntryAdapter};
use std::process::Abort;
use std::test::Fail;

type Pair = Entry<u8, ArchivedU32>;

type Texts = ArchivedBTreeMap<ArchivedText, ArchivedU32, 2>;

#[test]
fn pairs_are_keys_of_a_source(rt: HostRuntime) -> Result<(), Fail> {
    let keys = [
        (EntryAdapter::new(&1u8, &5u32), 10u32),
        (EntryAdapter::new(&1u8, &6u32), 20),
        (EntryAdapter::new(&2u8, &5u32), 30),
    ];
    let mut writer = VecWriter::new(rt.alloc());
    let pos = archive::<EntryAdapter<u8, u32>, u32, Pair, ArchivedU32, 2>(
        &rt,
        rt.alloc(),
        &keys,
        &mut writer,
    )?;
    assert!(rt; layout::fits::<Pair, ArchivedU32, 2>());
    let mut room = [0u8; 128];
    let mut map = UnverifiedSource::<&[u8], ArchivedBTreeMap<Pair, ArchivedU32, 2>>::new(
        writer.bytes(),
        pos,
        1000,
    );
    for (key, want) in [((1u8, 5u32), 10u32), ((1, 6), 20), ((2, 5), 30)] {
        let found = map.get_by(key, &mut room).expect(&rt, "a lookup");
        assert_eq!(rt; found.map(|value| value.to_native()), Some(want));
    }
    let absent = map
        .contains_by((2u8, 6u32), &mut room)
        .expect(&rt, "a lookup");
    assert!(rt; !absent);
    Ok(())
}

/// What a lookup of "b" finds, or the number of bytes that the buffer lacks, and how many bytes it reads.
fn looked_up(
    rt: &impl Abort,
    source: &[u8],
    pos: u32,
    budget: u64,
    room: &mut [u8],
) -> (u64, Result<Option<u32>, u64>)
    requires { length room.old ≤ 4294967295 }
{
    assert!(rt; layout::fits::<ArchivedText, ArchivedU32, 2>());
    let mut map = UnverifiedSource::<&[u8], Texts>::new(source, pos, budget);
    let found = match map.get_by("b", room) {
        Ok(found) => Ok(found.map(|value| value.to_native())),
        Err(SourceFault::NoRoom { needed }) => Err(needed),
        Err(_) => Err(0),
    };
    (budget.saturating_sub(map.budget_left()), found)
}

#[test]
fn what_a_lookup_reads_is_enough(rt: HostRuntime) -> Result<(), Fail> {
    let alloc = rt.alloc();
    let keys = [
        (String::from_str(alloc, "ab")?, 10u32),
        (String::from_str(alloc, "b")?, 20),
    ];
    let mut writer = VecWriter::new(alloc);
    let pos = archive::<String, u32, ArchivedText, ArchivedU32, 2>(&rt, alloc, &keys, &mut writer)?;
    let bytes = writer.bytes();
    let mut room = [0u8; 128];
    let (read, found) = looked_up(&rt, bytes, pos, 1000, &mut room);
    assert_eq!(rt; found, Ok(Some(20)));
    let (_, found) = looked_up(&rt, bytes, pos, read, &mut room);
    assert_eq!(rt; found, Ok(Some(20)));
    let (_, found) = looked_up(&rt, bytes, pos, read.saturating_sub(1), &mut room);
    assert_eq!(rt; found, Err(0));
    // A text takes its bytes, filled up to four, and eight, beside those for a node.
    let mut too_short = [0u8; 51];
    let (_, found) = looked_up(&rt, bytes, pos, read, &mut too_short);
    assert_eq!(rt; found, Err(52));
    let mut enough = [0u8; 52];
    let (_, found) = looked_up(&rt, bytes, pos, read, &mut enough);
    assert_eq!(rt; found, Ok(Some(20)));
    Ok(())
}

// The faults of a lookup in a source as a user reads them.
#[test]
fn faults_of_a_source_name_what_is_needed(rt: HostRuntime) -> Result<(), Fail> {
    let faults = [
        (
            SourceFault::NoRoom { needed: 52 },
            "the lookup needs a buffer of 52 bytes",
        ),
        (
            SourceFault::OverBudget,
            "the lookup would read more bytes than it may",
        ),
        (SourceFault::Read("no disk"), "no disk"),
        (
            SourceFault::Refused(Refusal::TooLong),
            "buffer is longer than 4294967295 bytes",
        ),
    ];
    for (fault, text) in faults {
        same(&rt, format!(in rt.alloc(); "{fault}")?.as_str(), text);
    }
    Ok(())
}
