//! What comes of a text that is made native, and what is said of faults.

use crate::same::same;
use rkyv_btree::deserialize::{Deserialize, DeserializeFault};
use rkyv_btree::view::View;
use rkyv_btree_base::fault::EntryFault;
use rkyv_btree_base::text::ArchivedText;
use std::alloc::AllocError;
use std::test::Fail;

// The text's copy is the one growth. `rt try --test --fail-alloc 1` refuses it.
#[test]
fn a_text_is_copied_or_its_growth_is_refused(rt: HostRuntime) {
    let buf = [195u8, 169, 98, 0, 252, 255, 255, 255, 3, 0, 0, 0];
    let view = View::<ArchivedText>::check(&buf, 4).expect(&rt, "a text");
    match ArchivedText::deserialize(rt.alloc(), &view) {
        Ok(text) => same(&rt, text.as_str(), "\u{E9}b"),
        Err(fault) => same(&rt, fault, DeserializeFault::Memory(AllocError)),
    }
}

#[test]
fn faults_of_deserializing_are_told(rt: HostRuntime) -> Result<(), Fail> {
    let rows = [
        (DeserializeFault::Memory(AllocError), "out of memory"),
        (
            DeserializeFault::Entry(EntryFault { code: 7 }),
            "entry refused",
        ),
    ];
    for (fault, text) in rows {
        let told = format!(in rt.alloc(); "{fault}")?;
        same(&rt, told.as_str(), text);
    }
    Ok(())
}
