//! The archived set: the map of its keys in which each value is `()`.
ghost use Rattle.std.specs.Prelude.{◌≡◌, ◌≤◌, ◌↔◌, IsTrue, Ok, Err};
ghost use Rattle.rkyv_btree_format.specs.Layout.{are_fitting};
ghost use Rattle.rkyv_btree_portable.specs.Scalars.{unit_kind};
ghost use Rattle.rkyv_btree_portable.specs.declared.check.Window.{Window as Left};
ghost use Rattle.rkyv_btree_portable.specs.declared.refusal.Refusal.{Refusal as Reason};
ghost use Rattle.rkyv_btree_portable.specs.laws.Scalars.{unit_laws};
ghost use Rattle.rkyv_btree_verify.specs.Map.{map_kind};
ghost use Rattle.rkyv_btree_verify.specs.Opening.{IsMapIn, RefusesMapIn};
ghost use Rattle.rkyv_btree_verify.specs.Refusals.{RefusesMap};
ghost use Rattle.rkyv_btree_verify.proofs.MapLaws.{map_laws, map_refusals};

use crate::map::ArchivedBTreeMap;
use rkyv_btree_portable::check::{CheckBytes, Portable, Window};
use rkyv_btree_portable::refusal::Refusal;
use rkyv_btree_verify::verify::verify as verify_map;

/// A set in eight bytes: a relative pointer to its root node, and the number of its keys.
pub struct ArchivedBTreeSet<K, const E: usize> {
    map: ArchivedBTreeMap<K, (), E>,
}

impl<K: Portable, const E: usize> Portable for ArchivedBTreeSet<K, E> {
    ghost kind = { map_kind K.kind unit_kind E };

    fn size() -> u32 {
        ArchivedBTreeMap::<K, (), E>::size()
    }

    fn align() -> u32 {
        ArchivedBTreeMap::<K, (), E>::align()
    }

    fn fits() -> bool {
        ArchivedBTreeMap::<K, (), E>::fits()
    }

    ghost laws = { map_laws K.kind unit_kind E K.laws unit_laws };
}

impl<K: CheckBytes, const E: usize> CheckBytes for ArchivedBTreeSet<K, E> {
    ghost Refuses = { RefusesMap K.kind unit_kind E };

    fn check(buf: &[u8], pos: u32, window: Window) -> Result<Window, Refusal> {
        verify::<K, E>(buf, pos, window)
    }

    ghost refusals = { map_refusals K.kind unit_kind E K.laws unit_laws };
}

/// Validates the set at position `pos` of untrusted bytes, as `verify` of maps does, and returns the window that is left.
///
/// # Errors
///
/// The first error in the order of docs/FORMAT.md.
pub fn verify<K: CheckBytes, const E: usize>(
    buf: &[u8],
    pos: u32,
    window: Window,
) -> Result<Window, Refusal>
    requires fitting { IsTrue (are_fitting K.kind unit_kind E) }
    requires ordered { window.lo ≤ window.hi }
    requires before { window.hi ≤ pos }
    ensures accepts { (left : Left) →
        (result ≡ Ok left) ↔ IsMapIn K.kind unit_kind E buf.now window pos left }
    ensures refuses { (e : Reason) →
        (result ≡ Err e) ↔ RefusesMapIn K.kind unit_kind E buf.now window pos e }
{
    verify_map::<K, (), E>(buf, pos, window)
}
