//! The archived map.
ghost use Rattle.rkyv_btree_verify.specs.Map.{map_kind};
ghost use Rattle.rkyv_btree_verify.specs.Refusals.{RefusesMap};
ghost use Rattle.rkyv_btree_verify.proofs.MapLaws.{map_laws, map_refusals};

use rkyv_btree_format::layout;
use rkyv_btree_portable::check::{CheckBytes, Portable, Window};
use rkyv_btree_portable::refusal::Refusal;
use rkyv_btree_verify::verify::verify;
use std::marker::PhantomData;

/// A map in eight bytes: a relative pointer to its root node, and the number of its entries.
pub struct ArchivedBTreeMap<K, V, const E: usize> {
    key: PhantomData<K>,
    value: PhantomData<V>,
}

impl<K: Portable, V: Portable, const E: usize> Portable for ArchivedBTreeMap<K, V, E> {
    ghost kind = { map_kind K.kind V.kind E };

    fn size() -> u32 {
        8
    }

    fn align() -> u32 {
        4
    }

    fn fits() -> bool {
        layout::fits::<K, V, E>()
    }

    ghost laws = { map_laws K.kind V.kind E K.laws V.laws };
}

impl<K: CheckBytes, V: CheckBytes, const E: usize> CheckBytes for ArchivedBTreeMap<K, V, E> {
    ghost Refuses = { RefusesMap K.kind V.kind E };

    fn check(buf: &[u8], pos: u32, window: Window) -> Result<Window, Refusal> {
        verify::<K, V, E>(buf, pos, window)
    }

    ghost refusals = { map_refusals K.kind V.kind E K.laws V.laws };
}
