//! Entries as values.
ghost use Rattle.std.specs.Prelude.{◌+◌, ◌*◌, ◌%◌, ◌^◌, fold};

use crate::same::{same, shown};
use rkyv_btree_base::archive::{Archive, Serialize};
use rkyv_btree_base::check::Portable;
use rkyv_btree_base::numbers::ArchivedU16;
use rkyv_btree_base::place::{Place, VecWriter};
use rkyv_btree_base::util::{Entry, EntryAdapter, EntryResolver};
use std::hash::{Hash, Hasher};
use std::marker::PhantomData;
use std::test::Fail;

#[test]
fn entries_compare_key_first(rt: HostRuntime) {
    let entry = |key: u8, value: u8| Entry { key, value };
    assert!(rt; entry(1, 9) < entry(2, 0));
    assert!(rt; entry(1, 2) < entry(1, 3));
    assert!(rt; entry(1, 1) == entry(1, 1));
    assert!(rt; entry(1, 1) != entry(2, 1));
    assert!(rt; entry(1, 1) != entry(1, 2));
}

/// Takes down what it is fed: after what it holds the bytes of each write, and then 255. It keeps the last eight bytes.
#[derive(Drop)]
pub(crate) struct Recorder(pub(crate) u64);

impl Hasher for Recorder {
    ghost write = { λ s bytes. record {
      0 = (fold (λ taken byte. (taken * 256 % 2 ^ 64 + byte) % 2 ^ 64) s.0 bytes * 256 % 2 ^ 64
          + 255) % 2 ^ 64;
    } };

    ghost finish = { λ s. s.0 };

    fn finish(&self) -> u64 {
        self.0
    }

    fn write(&mut self, bytes: &[u8]) {
        for byte in bytes {
            self.0 = self.0.wrapping_mul(256).wrapping_add(u64::from(*byte));
        }
        self.0 = self.0.wrapping_mul(256).wrapping_add(255);
    }
}

#[test]
fn an_entry_feeds_a_hasher_its_key_and_then_its_value(rt: HostRuntime) {
    let mut taken = Recorder(0);
    let entry = Entry {
        key: 7u8,
        value: 513u16,
    };
    entry.hash(&mut taken);
    same(&rt, taken.finish(), 0x07_FF_01_02_FF);
    let mut taken = Recorder(0);
    let nested = Entry {
        key: Entry {
            key: 1u16,
            value: 2u8,
        },
        value: 3u8,
    };
    nested.hash(&mut taken);
    same(&rt, taken.finish(), 0x01_00_FF_02_FF_03_FF);
}

#[test]
fn parts_of_entries_have_names(rt: HostRuntime) -> Result<(), Fail> {
    let entry = Entry {
        key: 1u8,
        value: true,
    };
    let told = shown(rt.alloc(), &entry)?;
    same(&rt, told.as_str(), "Entry { key: 1, value: true }");
    let (key, value) = (1u8, true);
    let adapter = EntryAdapter::new(&key, &value);
    same(&rt, (*adapter.key, *adapter.value), (1, true));
    let resolver = EntryResolver { key, value };
    same(&rt, (resolver.key, resolver.value), (1, true));
    let told = shown(rt.alloc(), &resolver)?;
    same(&rt, told.as_str(), "EntryResolver { key: 1, value: true }");
    Ok(())
}

#[test]
fn an_entry_is_its_key_then_its_value(rt: HostRuntime) -> Result<(), Fail> {
    let (key, value) = (1u8, 513u16);
    let entry = EntryAdapter::new(&key, &value);
    assert!(rt; Entry::<u8, ArchivedU16>::fits());
    let mut writer = VecWriter::new(rt.alloc());
    let resolver = entry
        .serialize(rt.alloc(), &mut writer)
        .expect(&rt, "numbers are always serialised");
    assert!(rt; writer.bytes().is_empty());
    assert!(rt; Entry::<u8, ArchivedU16>::size() == 4);
    let mut bytes = [0xFF; 4];
    let out = Place {
        pos: 0,
        bytes: &mut bytes,
        of: PhantomData,
    };
    assert!(rt; entry.resolve(resolver, out).is_ok());
    same(&rt, bytes, [1, 0, 1, 2]);
    Ok(())
}
