//! Archives at writers that fail at one write and append nothing then: each node, each text and each padding is one write.

use crate::faults::tree;
use crate::numbers::Numbers;
use crate::same::same;
use crate::texts::with_texts;
use rkyv_btree_base::build::BuildMap;
use rkyv_btree_base::fault::Fault;
use rkyv_btree_base::layout;
use rkyv_btree_base::map::ArchivedBTreeMap;
use rkyv_btree_base::numbers::ArchivedU32;
use rkyv_btree_base::place::Writer;
use rkyv_btree_base::text::ArchivedText;
use std::alloc::{AllocError, Global};
use std::process::Abort;
use std::test::Fail;

type Texts = ArchivedBTreeMap<ArchivedText, ArchivedU32, 1>;

/// A writer into memory that fails after so many writes. A failed write appends nothing.
#[derive(Drop)]
pub(crate) struct Failing {
    pub(crate) bytes: Vec<u8>,
    pub(crate) writes_left: u32,
    pub(crate) failures: u64,
}

impl Writer for Failing {
    type Error = AllocError;

    ghost state = { λ w. record { base = 0; contents = w.bytes.items; failures = w.failures } };

    fn pos(&self) -> u64 {
        self.bytes.len() as u64
    }

    fn write(&mut self, bytes: &[u8]) -> Result<(), AllocError> {
        if self.writes_left > 0 && self.bytes.extend_from_slice(bytes).is_ok() {
            self.writes_left -= 1;
            return Ok(());
        }
        self.failures = self.failures.wrapping_add(1);
        Err(AllocError)
    }
}

/// Whether a writer fails at the archive of seventeen numbers after so many writes, and how many bytes it has then.
fn len_of_numbers(rt: &impl Abort, alloc: Global, writes: u32) -> (bool, usize) {
    let mut entries = [(0, 0); 17];
    let mut key = 0u32;
    for entry in &mut entries {
        key = key.wrapping_add(1);
        *entry = (key, key.wrapping_mul(10));
    }
    let mut writer = Failing {
        bytes: Vec::new(alloc),
        writes_left: writes,
        failures: 0,
    };
    let outcome = match tree::<Failing>(rt, alloc, &entries, &mut writer) {
        Ok(root) => Numbers::write_root(17, root, &mut writer),
        Err(fault) => Err(fault),
    };
    (matches!(outcome, Err(Fault::Writer(_))), writer.bytes.len())
}

/// The same for two texts in nodes of one entry.
fn len_of_texts(rt: &impl Abort, alloc: Global, writes: u32) -> Result<(bool, usize), Fail> {
    let entries = with_texts(alloc, &[("a", 1u32), ("bc", 2)])?;
    assert!(rt; layout::fits::<ArchivedText, ArchivedU32, 1>());
    let items = entries.iter().map(|entry| (&entry.0, &entry.1));
    let mut writer = Failing {
        bytes: Vec::new(alloc),
        writes_left: writes,
        failures: 0,
    };
    let outcome = match Texts::serialize_from_ordered_iter(alloc, 2, items, &mut writer) {
        Ok(root) => Texts::write_root(2, root, &mut writer),
        Err(fault) => Err(fault),
    };
    Ok((matches!(outcome, Err(Fault::Writer(_))), writer.bytes.len()))
}

#[test]
fn each_node_text_and_padding_is_one_write(rt: HostRuntime) -> Result<(), Fail> {
    let numbers = [(0, 0), (1, 48), (2, 96), (3, 144), (4, 212)];
    for (writes, len) in numbers {
        same(&rt, len_of_numbers(&rt, rt.alloc(), writes), (true, len));
    }
    same(&rt, len_of_numbers(&rt, rt.alloc(), 5), (false, 220));
    let texts = [(0, 0), (1, 1), (2, 4), (3, 24), (4, 26), (5, 28), (6, 52)];
    for (writes, len) in texts {
        same(&rt, len_of_texts(&rt, rt.alloc(), writes)?, (true, len));
    }
    same(&rt, len_of_texts(&rt, rt.alloc(), 7)?, (false, 60));
    Ok(())
}
