//! Native maps of values that may refuse themselves.
ghost use Rattle.std.specs.Cmp.{nat_cmp_total};
ghost use Rattle.std.specs.Ordering.{nat_cmp};
ghost use Rattle.std.specs.Prelude.{ℕ};
ghost use Rattle.std.proofs.Common.{refl, rules};
ghost use Rattle.rkyv_btree_base.specs.Refusing.{RefusesWhole};
ghost use Rattle.rkyv_btree_base.specs.Scalars.{u8_kind};
ghost use Rattle.rkyv_btree_base.specs.laws.Refusing.{whole_refusals};
ghost use Rattle.rkyv_btree_base.specs.laws.Scalars.{u8_laws};
ghost use Rattle.tests.specs.Coded.{of_code};

use crate::convert::{archive, opened};
use crate::same::same;
use rkyv_btree::deserialize::{Deserialize, DeserializeFault, DeserializeKey};
use rkyv_btree::view::View;
use rkyv_btree_base::check::{CheckBytes, Portable, Window};
use rkyv_btree_base::fault::EntryFault;
use rkyv_btree_base::map::ArchivedBTreeMap;
use rkyv_btree_base::place::VecWriter;
use rkyv_btree_base::refusal::Refusal;
use std::alloc::Global;
use std::collections::BTreeMap;
use std::process::Abort;
use std::test::Fail;

/// A code in a byte: 0, or the code of the fault with which it refuses to be made.
struct ArchivedCode;

impl Portable for ArchivedCode {
    ghost kind = { u8_kind };

    fn size() -> u32 {
        1
    }

    fn align() -> u32 {
        1
    }

    fn fits() -> bool {
        true
    }

    ghost laws = { u8_laws };
}

impl CheckBytes for ArchivedCode {
    ghost Refuses = { RefusesWhole u8_kind };

    fn check(buf: &[u8], pos: u32, window: Window) -> Result<Window, Refusal> {
        u8::check(buf, pos, window)
    }

    ghost refusals = { λ _. whole_refusals u8_laws };
}

impl Deserialize<u8> for ArchivedCode {
    ghost Model = { ℕ };

    ghost model = { λ x. x };

    ghost model_order = { nat_cmp };

    ghost decoded = { λ b at. of_code (u8_kind.read b at) };

    fn deserialize(_alloc: Global, view: &View<'_, ArchivedCode>) -> Result<u8, DeserializeFault> {
        let code = view.buf[view.pos as usize];
        if code != 0 {
            return Err(DeserializeFault::Entry(EntryFault {
                code: u32::from(code),
            }));
        }
        Ok(code)
    }

    ghost by_meaning = { record { of_value = of_code; by_value = λ b at. refl } };

    ghost model_whole = { Prim.search rules };
}

impl DeserializeKey<u8> for ArchivedCode {
    ghost ordered_as_model = { λ x y. refl };

    ghost total = { nat_cmp_total };
}

/// What deserialising a map of codes gives: the fault's code, or how many entries it has.
fn fault_of<K: CheckBytes + DeserializeKey<u8>, V: CheckBytes + Deserialize<u8>, const E: usize>(
    rt: &impl Abort,
    alloc: Global,
    entries: &[(u8, u8)],
) -> Result<Result<usize, u32>, Fail> {
    let mut writer = VecWriter::new(alloc);
    let pos = archive::<u8, u8, u8, u8, E>(rt, alloc, entries, &mut writer)?;
    let map = opened::<K, V, E>(rt, writer.bytes(), pos);
    code_of(ArchivedBTreeMap::<K, V, E>::deserialize(alloc, &map))
}

/// The code of the fault, or how many entries were made.
fn code_of(made: Result<BTreeMap<u8, u8>, DeserializeFault>) -> Result<Result<usize, u32>, Fail> {
    match made {
        Ok(made) => Ok(Ok(made.len())),
        Err(DeserializeFault::Entry(fault)) => Ok(Err(fault.code)),
        Err(DeserializeFault::Memory(error)) => Err(Fail::from(error)),
    }
}

#[test]
fn the_first_fault_in_order_is_answered(rt: HostRuntime) -> Result<(), Fail> {
    let alloc = rt.alloc();
    let entries = [(1, 0), (2, 4), (3, 5)];
    let by_value = fault_of::<u8, ArchivedCode, 5>(&rt, alloc, &entries)?;
    same(&rt, by_value, Err(4));
    let in_two_leaves = fault_of::<u8, ArchivedCode, 1>(&rt, alloc, &entries)?;
    same(&rt, in_two_leaves, Err(4));
    let of_later = fault_of::<u8, ArchivedCode, 1>(&rt, alloc, &entries[2..])?;
    same(&rt, of_later, Err(5));
    let of_none = fault_of::<u8, ArchivedCode, 1>(&rt, alloc, &entries[..1])?;
    same(&rt, of_none, Ok(1));
    Ok(())
}

#[test]
fn a_key_is_made_before_its_value(rt: HostRuntime) -> Result<(), Fail> {
    let alloc = rt.alloc();
    let by_key = fault_of::<ArchivedCode, ArchivedCode, 5>(&rt, alloc, &[(0, 0), (6, 7)])?;
    same(&rt, by_key, Err(6));
    let by_value = fault_of::<ArchivedCode, ArchivedCode, 5>(&rt, alloc, &[(0, 7), (6, 0)])?;
    same(&rt, by_value, Err(7));
    Ok(())
}

// Two codes are equal where both are 0. The map is made by putting in one entry after another.
#[test]
fn of_equal_keys_the_last_value_counts(rt: HostRuntime) -> Result<(), Fail> {
    let alloc = rt.alloc();
    let mut writer = VecWriter::new(alloc);
    let entries = [(0, 10), (0, 20)];
    let pos = archive::<u8, u8, u8, u8, 1>(&rt, alloc, &entries, &mut writer)?;
    let map = opened::<ArchivedCode, u8, 1>(&rt, writer.bytes(), pos);
    let made: BTreeMap<u8, u8> = ArchivedBTreeMap::<ArchivedCode, u8, 1>::deserialize(alloc, &map)?;
    same(&rt, (made.len(), made.get(&0).copied()), (1, Some(20)));
    Ok(())
}
