//! A key with its value.
ghost use Rattle.std.specs.Prelude.{◌≡◌, ◌+◌, ◌≤◌, ◌<◌, ◌^◌, ◌&&◌, ◌++◌, length, IsTrue, OnOk, IfErr};
ghost use Rattle.std.specs.Ordering.{ordering_then};
ghost use Rattle.rkyv_btree_portable.specs.declared.entry.Entry.{Entry};
ghost use Rattle.rkyv_btree_portable.specs.Entry.{value_offset, entry_size, entry_kind, RefusesEntry};
ghost use Rattle.rkyv_btree_portable.specs.laws.EntryLaws.{entry_laws};
ghost use Rattle.rkyv_btree_portable.specs.laws.EntryRefusals.{entry_refusals};

use crate::check::{CheckBytes, Portable, Window, check_part, check_place};
use crate::refusal::Refusal;
use crate::rounding::round_up;
use std::hash::Hash;

/// A key with its value, compared, ordered and hashed key first. As an archived type it is the key, then the value at the
/// next multiple of the value's alignment, then padding up to a multiple of the greater alignment.
#[derive(Debug, PartialEq, Eq, PartialOrd, Ord, Hash, Drop)]
pub struct Entry<K, V> {
    pub key: K,
    pub value: V,
}

/// Where the value stands, counted from the key, which may be past 32 bits.
fn wide_value_offset<K: Portable, V: Portable>() -> u64
    requires key { IsTrue K.kind.is_fitting }
    requires value { IsTrue V.kind.is_fitting }
    ensures value { result ≡ value_offset K.kind V.kind }
    ensures small { result < 2 ^ 33 }
{
    round_up(u64::from(K::size()), V::align())
}

/// Returns the offset of the value in an entry.
pub fn value_offset<K: Portable, V: Portable>() -> u32
    requires { IsTrue (entry_kind K.kind V.kind).is_fitting }
    ensures value { result ≡ value_offset K.kind V.kind }
    ensures inside { result + V.kind.size ≤ entry_size K.kind V.kind }
{
    wide_value_offset::<K, V>() as u32
}

/// The size of an entry, which may be past 32 bits.
fn wide_size<K: Portable, V: Portable>() -> u64
    requires key { IsTrue K.kind.is_fitting }
    requires value { IsTrue V.kind.is_fitting }
    ensures { result ≡ entry_size K.kind V.kind }
{
    round_up(
        wide_value_offset::<K, V>() + u64::from(V::size()),
        K::align().max(V::align()),
    )
}

impl<K: Portable, V: Portable> Portable for Entry<K, V> {
    ghost kind = { entry_kind K.kind V.kind };

    fn size() -> u32 {
        wide_size::<K, V>() as u32
    }

    fn align() -> u32 {
        K::align().max(V::align())
    }

    fn fits() -> bool {
        K::fits() && V::fits() && wide_size::<K, V>() <= u64::from(u32::MAX)
    }

    ghost laws = { entry_laws K.kind V.kind K.laws V.laws };
}

impl<K: CheckBytes, V: CheckBytes> CheckBytes for Entry<K, V> {
    ghost Refuses = { RefusesEntry K.kind V.kind };

    fn check(buf: &[u8], pos: u32, window: Window) -> Result<Window, Refusal> {
        check_place::<Entry<K, V>>(buf, pos)?;
        let between = check_part::<K>(buf, pos, window.lo, window.hi)?;
        let lo = check_part::<V>(buf, pos + value_offset::<K, V>(), between, window.hi)?;
        Ok(Window { lo, hi: window.hi })
    }

    ghost refusals = { λ _. entry_refusals K.kind V.kind K.laws V.laws };
}

/// Entries are equal, ordered and hashed by their keys and then by their values.
pub fn entries_compare_key_first<K: Ord + Hash, V: Ord + Hash>()
    ensures same { (a b : Entry K V) → ⟦<Entry<K, V> as PartialEq>⟧.eq a b
        ≡ (K.eq a.key b.key && V.eq a.value b.value) }
    ensures order { (a b : Entry K V) → ⟦<Entry<K, V> as Ord>⟧.cmp a b
        ≡ ordering_then (K.cmp a.key b.key) (V.cmp a.value b.value) }
    ensures hash { (a : Entry K V) → ⟦<Entry<K, V> as Hash>⟧.hash_input a
        ≡ K.hash_input a.key ++ V.hash_input a.value }
{}
