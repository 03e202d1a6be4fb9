//! Maps that are built in a heap of one's own, which refuses a growth where it has no room.

use crate::faults::mismatch;
use crate::numbers::Numbers;
use crate::same::same;
use crate::texts::with_texts;
use linked_list_allocator::LocalHeap;
use rkyv_btree_base::build::BuildMap;
use rkyv_btree_base::fault::Fault;
use rkyv_btree_base::layout;
use rkyv_btree_base::map::ArchivedBTreeMap;
use rkyv_btree_base::numbers::ArchivedU32;
use rkyv_btree_base::place::VecWriter;
use rkyv_btree_base::text::ArchivedText;
use std::alloc::{AllocError, Global};
use std::process::Abort;
use std::test::Fail;

type Texts = ArchivedBTreeMap<ArchivedText, ArchivedU32, 2>;

/// What building the tree of some texts in a heap comes to.
fn build_texts(
    rt: &impl Abort,
    heap: &LocalHeap,
    texts: &[(String, u32)],
    writer: &mut VecWriter,
) -> Result<(), Fault<AllocError>> {
    assert!(rt; layout::fits::<ArchivedText, ArchivedU32, 2>());
    let items = texts.iter().map(|entry| (&entry.0, &entry.1));
    Texts::serialize_from_ordered_iter(heap, texts.len(), items, writer)?;
    Ok(())
}

/// Whether building in a heap with so much room succeeds. Else it has refused a growth, and has written nothing.
fn has_room(
    rt: &impl Abort,
    alloc: Global,
    texts: &[(String, u32)],
    room: usize,
) -> Result<bool, Fail> {
    let heap = LocalHeap::new(alloc, room)?;
    let mut writer = VecWriter::from_vec([0xAA].to_vec(alloc)?);
    match build_texts(rt, &heap, texts, &mut writer) {
        Ok(()) => return Ok(true),
        Err(Fault::Memory(_)) => {}
        Err(fault) => return Err(fault.into()),
    }
    same(rt, writer.bytes(), [0xAA].as_slice());
    same(rt, heap.used(), 0);
    Ok(false)
}

// The heap has room for one growth of building more from time to time, so each is the first to be refused.
#[test]
fn a_refused_growth_writes_nothing(rt: HostRuntime) -> Result<(), Fail> {
    let texts = [("bar", 20u32), ("bat", 80), ("baz", 40), ("foo", 10)];
    let texts = with_texts(rt.alloc(), &texts)?;
    for room in 0..1000 {
        if has_room(&rt, rt.alloc(), &texts, 16 * room)? {
            same(&rt, room >= 6, true);
            return Ok(());
        }
    }
    Err("no heap had room".into())
}

/// What building the tree of some numbers, which are claimed to be so many, in a heap comes to.
fn build_claimed(
    rt: &impl Abort,
    heap: &LocalHeap,
    claim: usize,
    entries: &[(u32, u32)],
    writer: &mut VecWriter,
) -> Result<(), Fault<AllocError>> {
    assert!(rt; layout::fits::<ArchivedU32, ArchivedU32, 5>());
    let items = entries.iter().map(|entry| (&entry.0, &entry.1));
    Numbers::serialize_from_ordered_iter(heap, claim, items, writer)?;
    Ok(())
}

// The heap has no room at all, so that every growth is refused.
#[test]
fn a_claim_of_nothing_takes_no_memory(rt: HostRuntime) -> Result<(), Fail> {
    let heap = LocalHeap::new(rt.alloc(), 0)?;
    let mut writer = VecWriter::from_vec([0xAA].to_vec(rt.alloc())?);
    let entries = [(1, 10), (2, 20)];
    let refused = build_claimed(&rt, &heap, 1, &entries[..1], &mut writer);
    same(&rt, matches!(refused, Err(Fault::Memory(_))), true);
    let made = build_claimed(&rt, &heap, 0, &entries[..0], &mut writer);
    same(&rt, made.is_ok(), true);
    let refused = build_claimed(&rt, &heap, 0, &entries, &mut writer);
    same(&rt, mismatch(refused), Some((0, 2)));
    same(&rt, writer.bytes(), [0xAA].as_slice());
    Ok(())
}
