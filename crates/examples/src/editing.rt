//! Values of a map of numbers, edited in place, each function with what it leaves of the map.
ghost use Rattle.std.specs.Prelude.{◌≡◌, ◌+◌, ◌%◌, ◌^◌, ◌<◌, ℕ, List, map};
ghost use Rattle.examples.specs.Editing.{IsNumbers, Changed, AddsTo, plus_ten, AddsWithin};
ghost use Rattle.rkyv_btree_base.specs.Bytes.{bytes_at, from_le};
ghost use Rattle.rkyv_btree_base.specs.Natives.{u32_form};
ghost use Rattle.rkyv_btree_base.specs.Scalars.{u32_kind};
ghost use Rattle.rkyv_btree.specs.Alone.{StandsAlone};
ghost use Rattle.rkyv_btree.specs.Put.{put_bytes};

use rkyv_btree::base::map::ArchivedBTreeMap;
use rkyv_btree::base::numbers::ArchivedU32;
use rkyv_btree::cursor::{IterSeal, RangeSeal};
use rkyv_btree::map::MapSeal;
use rkyv_btree::seal::{LentKey, Seal};
use std::ops::{Bound, ControlFlow};

/// The maps of this module.
pub type Numbers = ArchivedBTreeMap<ArchivedU32, ArchivedU32, 5>;

/// Adds 10 to the value that a seal covers.
fn add_to_seal(seal: &mut Seal<'_, ArchivedU32>)
    requires { StandsAlone u32_kind seal.old.buf.now seal.old.pos }
    ensures same_reference { seal.new.buf.ghost_name ≡ seal.old.buf.ghost_name }
    ensures position { seal.new.pos ≡ seal.old.pos }
    ensures bytes { seal.new.buf.now ≡ put_bytes seal.old.buf.now seal.old.pos (u32_form.own_bytes
        ((from_le (bytes_at seal.old.buf.now seal.old.pos 4) + 10) % 2 ^ 32)) }
{
    let value = seal.read();
    seal.write(value.wrapping_add(10));
}

/// Sets the value of a key, and returns whether the key was found.
pub fn set(buf: &mut [u8], pos: u32, key: u32, value: u32) -> bool
    requires { (m : List (ℕ × ℕ)) × IsNumbers buf.old pos m }
    ensures { (m : List (ℕ × ℕ)) → IsNumbers buf.old pos m
        → Changed buf.old buf.new pos m key value result }
{
    let mut map = MapSeal::<Numbers>::at(buf, pos);
    map.set_by(key, value)
}

/// Does the same through a seal of the value.
pub fn set_by_seal(buf: &mut [u8], pos: u32, key: u32, value: u32) -> bool
    requires { (m : List (ℕ × ℕ)) × IsNumbers buf.old pos m }
    ensures { (m : List (ℕ × ℕ)) → IsNumbers buf.old pos m
        → Changed buf.old buf.new pos m key value result }
{
    let found = MapSeal::<Numbers>::at(buf, pos).find_by(key);
    match found {
        None => false,
        Some(place) => {
            let mut seal = MapSeal::<Numbers>::seal_at(buf, pos, place);
            seal.write(value);
            true
        }
    }
}

/// Adds 10 to the value of a key, modulo 2 to the power of 32, and returns whether the key was found.
pub fn add_ten_to(buf: &mut [u8], pos: u32, key: u32) -> bool
    requires { (m : List (ℕ × ℕ)) × IsNumbers buf.old pos m }
    ensures { (m : List (ℕ × ℕ)) → IsNumbers buf.old pos m
        → AddsTo buf.old buf.new pos m key result }
{
    let mut map = MapSeal::<Numbers>::at(buf, pos);
    let called = map.with_seal_by(
        key,
        |_: LentKey<ArchivedU32>, seal: &mut Seal<ArchivedU32>| {
            add_to_seal(seal);
        },
    );
    called.is_some()
}

/// Adds 10 to each value, modulo 2 to the power of 32.
pub fn add_ten(buf: &mut [u8], pos: u32)
    requires { (m : List (ℕ × ℕ)) × IsNumbers buf.old pos m }
    ensures { (m : List (ℕ × ℕ)) → IsNumbers buf.old pos m
        → IsNumbers buf.new pos (map plus_ten m) }
{
    let mut cursor = IterSeal::<Numbers>::at(buf, pos);
    'along: while cursor.next() {
        let value = cursor.read();
        cursor.write(value.wrapping_add(10));
    }
}

/// Does the same by a visit.
pub fn add_ten_by_visit(buf: &mut [u8], pos: u32)
    requires { (m : List (ℕ × ℕ)) × IsNumbers buf.old pos m }
    ensures { (m : List (ℕ × ℕ)) → IsNumbers buf.old pos m
        → IsNumbers buf.new pos (map plus_ten m) }
{
    let mut map = MapSeal::<Numbers>::at(buf, pos);
    map.visit_seal(|_: LentKey<ArchivedU32>, seal: &mut Seal<ArchivedU32>| {
        add_to_seal(seal);
        ControlFlow::<(), ()>::Continue(())
    });
}

/// Adds 10 to the values of the keys from one to another.
pub fn add_ten_within(buf: &mut [u8], pos: u32, low: u32, high: u32)
    requires { (m : List (ℕ × ℕ)) × IsNumbers buf.old pos m }
    ensures { (m : List (ℕ × ℕ)) → IsNumbers buf.old pos m
        → (n : List (ℕ × ℕ)) × IsNumbers buf.new pos n × AddsWithin low high m n }
{
    let bounds = (Bound::Included(low), Bound::Included(high));
    let mut cursor = RangeSeal::<Numbers>::by(buf, pos, bounds.0, bounds.1);
    'along: while cursor.next() {
        let value = cursor.read();
        cursor.write(value.wrapping_add(10));
    }
}
