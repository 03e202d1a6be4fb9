//! Pairs that are brought from a source into a lent buffer, and validated there.
ghost use Rattle.std.specs.Prelude.{◌≡◌, ◌+◌, ◌≤◌, ◌<◌, List, ℕ, IsTrue, IfErr, IfOk, false, length};
ghost use Rattle.rkyv_btree_portable.specs.Entry.{entry_kind, entry_size, RefusesEntry};
ghost use Rattle.rkyv_btree_portable.specs.Views.{stands};
ghost use Rattle.rkyv_btree_source.specs.Reading.{IfRead, Brings, IsCaused, IsPart};
ghost use Rattle.rkyv_btree_source.specs.Reads.{IsLacking};

use crate::fault::SourceFault;
use rkyv_btree_portable::check::{CheckBytes, Portable, Window};
use rkyv_btree_portable::entry::{Entry, value_offset};
use rkyv_btree_portable::in_place::InPlace;
use rkyv_btree_portable::refusal::Refusal;

/// Tests the part at position `place` of a buffer, where its own bytes are all of it.
fn is_part<T: InPlace>(room: &[u8], place: u32) -> bool
    requires fitting { IsTrue T.kind.is_fitting }
    ensures means { IsTrue result → (v : T.kind.Value) × T.kind.Means room.now 0 0 place 0 v }
    ensures none { result ≡ false → (v : T.kind.Value) → ¬ T.kind.Means room.now 0 0 place 0 v }
{
    match T::check(room, place, Window { lo: 0, hi: 0 }) {
        Ok(_) => true,
        Err(_) => false,
    }
}

/// Brings a pair whose parts lie in their own bytes alone.
pub(crate) fn fetch_pair<K: InPlace, V: InPlace, E>(
    own_bytes: &[u8],
    pos: u32,
    room: &mut [u8],
) -> Result<u32, SourceFault<E>>
    requires fitting { IsTrue (entry_kind K.kind V.kind).is_fitting }
    requires size { length own_bytes.now ≡ entry_size K.kind V.kind }
    requires short { length room.old ≤ 4294967295 }
    ensures valid { IfOk result
        (λ place. IsTrue (stands (entry_kind K.kind V.kind) room.new place)) }
    ensures near { IfOk result (λ place. place ≤ pos) }
    ensures brings { (b : List ℕ) → IsPart b own_bytes.now pos → Brings (entry_kind K.kind V.kind)
        (RefusesEntry K.kind V.kind) b pos room.new result }
    // Nothing is read, so no budget is too small.
    ensures caused { IfErr result (IsCaused (pos + entry_size K.kind V.kind) 0 (length room.old)
        (pos + entry_size K.kind V.kind)) }
    ensures lacks { (left : ℕ) → IfErr result
        (IsLacking (λ n. (n ≡ entry_size K.kind V.kind) × (length room.old < n)) (left < 0)) }
    ensures fails { IfErr result (IfRead (λ _. ⊥)) }
    ensures fits { IfOk result (λ _. entry_size K.kind V.kind ≤ length room.old) }
{
    if pos % Entry::<K, V>::align() != 0 {
        return Err(SourceFault::Refused(Refusal::Misaligned { pos }));
    }
    let size = Entry::<K, V>::size();
    if room.len() < size as usize {
        return Err(SourceFault::NoRoom {
            needed: u64::from(size),
        });
    }
    room[..size as usize].copy_from_slice(own_bytes);
    if !is_part::<K>(room, 0) {
        return Err(SourceFault::Refused(Refusal::BadEntry { pos }));
    }
    let offset = value_offset::<K, V>();
    if !is_part::<V>(room, offset) {
        let pos = pos.saturating_add(offset);
        return Err(SourceFault::Refused(Refusal::BadEntry { pos }));
    }
    Ok(0)
}
