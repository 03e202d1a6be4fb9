//! Archives that are cut to each length, or of which each byte is set to each other value.
ghost use Rattle.std.specs.Prelude.{IsSome, IsTrue};
ghost use Rattle.rkyv_btree.specs.Cursor.{current_place};
ghost use Rattle.rkyv_btree_base.specs.Layout.{are_fitting};

use crate::input::Input;
use crate::opening::show_map;
use crate::shown::{Shown, show_entry};
use crate::writing::sealed;
use anyhow::ensure;
use rkyv_btree::cursor::IterSeal;
use rkyv_btree::prelude::*;
use rkyv_btree_base::check::InPlace;
use rkyv_btree_base::layout;
use std::alloc::Global;

/// How many buffers had which outcome, and the fingerprint of the outcomes' texts: FNV-1a of 64 bits.
#[derive(Drop)]
struct Tally {
    accepted: u32,
    out_of_range: u32,
    misaligned: u32,
    bad_kind: u32,
    invalid_length: u32,
    too_deep: u32,
    bad_entry: u32,
    length_mismatch: u32,
    too_long: u32,
    out_of_order: u32,
    fingerprint: u64,
}

/// Appends a count and its name, if it isn't 0.
fn show_count(name: &str, count: u32, out: &mut String) -> anyhow::Result<()> {
    if count == 0 {
        return Ok(());
    }
    if !out.is_empty() {
        out.push_str(", ")?;
    }
    write!(out, "{name} {count}")?;
    Ok(())
}

impl Tally {
    fn count_refusal(&mut self, refusal: Refusal) {
        let count = match refusal {
            Refusal::OutOfRange { pos: _ } => &mut self.out_of_range,
            Refusal::Misaligned { pos: _ } => &mut self.misaligned,
            Refusal::BadKind { pos: _, byte: _ } => &mut self.bad_kind,
            Refusal::InvalidLength(_) => &mut self.invalid_length,
            Refusal::TooDeep { pos: _ } => &mut self.too_deep,
            Refusal::BadEntry { pos: _ } => &mut self.bad_entry,
            Refusal::EntriesLengthMismatch(_) => &mut self.length_mismatch,
            Refusal::TooLong => &mut self.too_long,
            Refusal::OutOfOrder { index: _ } => &mut self.out_of_order,
        };
        *count = count.wrapping_add(1);
    }

    /// Adds a byte to the fingerprint.
    fn add(&mut self, byte: u8) {
        self.fingerprint = (self.fingerprint ^ u64::from(byte)).wrapping_mul(0x100000001b3);
    }

    /// Adds the text of an outcome to the fingerprint, with a line feed. A dot, which is a byte of 0 in a text, counts as
    /// its two digits.
    fn add_outcome(&mut self, outcome: &str) {
        for byte in outcome.as_bytes() {
            if *byte == b'.' {
                self.add(b'0');
                self.add(b'0');
            } else {
                self.add(*byte);
            }
        }
        self.add(b'\n');
    }

    fn show(&self, out: &mut String) -> anyhow::Result<()> {
        show_count("accepted", self.accepted, out)?;
        show_count("out of range", self.out_of_range, out)?;
        show_count("misaligned", self.misaligned, out)?;
        show_count("bad kind", self.bad_kind, out)?;
        show_count("invalid length", self.invalid_length, out)?;
        show_count("too deep", self.too_deep, out)?;
        show_count("bad entry", self.bad_entry, out)?;
        show_count("length mismatch", self.length_mismatch, out)?;
        show_count("too long", self.too_long, out)?;
        show_count("out of order", self.out_of_order, out)?;
        let fingerprint = self.fingerprint;
        write!(out, "; {fingerprint:016x}")?;
        Ok(())
    }
}

/// The entries of a map, of its keys and its values by their own iterators.
fn show_zipped<K: Shown, V: Shown, const E: usize>(
    map: &View<ArchivedBTreeMap<K, V, E>>,
    out: &mut String,
) -> anyhow::Result<()> {
    let len = map.len();
    write!(out, "{len}:")?;
    let mut values = map.values();
    let mut keys = map.keys();
    while let Some(key) = keys.next() {
        if let Some(value) = values.next() {
            show_entry(key, value, out)?;
        }
    }
    Ok(())
}

/// Whether the entry at which a cursor is has this key and this value.
fn is_at<K: ViewEq, VU: Drop, V: InPlace<Native = VU> + SameAs<VU>, const E: usize>(
    cursor: &IterSeal<'_, ArchivedBTreeMap<K, V, E>>,
    key: View<K>,
    value: View<V>,
) -> bool
    requires { IsSome (current_place cursor.now) }
{
    cursor.key() == key && V::same_as(&value, &cursor.read())
}

/// Whether a cursor goes along the entries of a map, as many as its length says.
fn is_cursor_along<
    K: CheckBytes + ViewEq,
    VU: Drop,
    V: InPlace<Native = VU> + SameAs<VU>,
    const E: usize,
>(alloc: Global, map: &View<ArchivedBTreeMap<K, V, E>>) -> anyhow::Result<bool> {
    let mut bytes = map.buf.to_vec(alloc)?;
    let mut cursor = sealed::<K, V, E>(&mut bytes, map.pos)?.iter_seal();
    let mut met = 0usize;
    let mut entries = map.iter();
    while let Some((key, value)) = entries.next() {
        if !cursor.next() || !is_at::<K, VU, V, E>(&cursor, key, value) {
            return Ok(false);
        }
        met = met.wrapping_add(1);
    }
    Ok(!cursor.next() && met == map.len())
}

/// Whether two lookups find the same entry, or none, by the position of its key.
fn is_found_alike<K: Portable, V: Portable>(
    one: Option<(View<K>, View<V>)>,
    other: Option<(View<K>, View<V>)>,
) -> bool {
    one.map(|entry| entry.0.pos) == other.map(|entry| entry.0.pos)
}

/// Whether an entry that a lookup found has the key of its query.
fn has_key<K: ViewEq, V: Portable>(found: Option<(View<K>, View<V>)>, query: View<K>) -> bool {
    match found {
        Some((key, _)) => key == query,
        None => true,
    }
}

/// Whether a lookup of each key finds the same in a map and in its bytes without validation.
fn is_looked_up<K: CheckBytes + ViewOrd, V: CheckBytes, const E: usize>(
    map: &View<ArchivedBTreeMap<K, V, E>>,
) -> bool {
    let bytes = Unverified::<ArchivedBTreeMap<K, V, E>>::new(map.buf, map.pos);
    let mut keys = map.keys();
    while let Some(key) = keys.next() {
        match bytes.get_key_value(key) {
            Err(_) => return false,
            Ok(found) => {
                if !is_found_alike::<K, V>(found, map.get_key_value(key)) {
                    return false;
                }
            }
        }
    }
    true
}

/// Whether each lookup without validation that finds something in a buffer finds an equal key. The queries are the keys of
/// the map before it was damaged.
fn is_equal_found<K: CheckBytes + ViewOrd, V: CheckBytes, const E: usize>(
    queries: &View<ArchivedBTreeMap<K, V, E>>,
    buf: &[u8],
    pos: u32,
) -> bool {
    let bytes = Unverified::<ArchivedBTreeMap<K, V, E>>::new(buf, pos);
    let mut keys = queries.keys();
    while let Some(key) = keys.next() {
        if let Ok(found) = bytes.get_key_value(key) {
            if !has_key::<K, V>(found, key) {
                return false;
            }
        }
    }
    true
}

/// Opens a buffer, and counts its outcome: the map's entries, or the refusal.
fn count_outcome<
    K: CheckBytes + ViewOrd + Shown,
    VU: Drop,
    V: InPlace<Native = VU> + SameAs<VU> + Shown,
    const E: usize,
>(
    alloc: Global,
    buf: &[u8],
    pos: u32,
    whole: Option<View<ArchivedBTreeMap<K, V, E>>>,
    tally: &mut Tally,
) -> anyhow::Result<()>
    requires { IsTrue (are_fitting K.kind V.kind E) }
{
    let mut outcome = String::new(alloc);
    match access::<K, V, E>(buf, pos) {
        Ok(map) => {
            tally.accepted = tally.accepted.wrapping_add(1);
            show_map::<K, V, E>(alloc, &map, &mut outcome)?;
            let mut zipped = String::new(alloc);
            show_zipped::<K, V, E>(&map, &mut zipped)?;
            if zipped.as_str() != outcome.as_str() {
                write!(&mut outcome, " KEYS OR VALUES DIFFER")?;
            }
            if !is_cursor_along::<K, VU, V, E>(alloc, &map)? {
                write!(&mut outcome, " CURSOR DIFFERS")?;
            }
            if !is_looked_up::<K, V, E>(&map) {
                write!(&mut outcome, " LOOKUP DIFFERS")?;
            }
        }
        Err(refusal) => {
            tally.count_refusal(refusal);
            write!(&mut outcome, "refused: {refusal}")?;
        }
    }
    if let Some(queries) = whole {
        if !is_equal_found::<K, V, E>(&queries, buf, pos) {
            write!(&mut outcome, " ANOTHER KEY FOUND")?;
        }
    }
    tally.add_outcome(&outcome);
    Ok(())
}

/// Opens a buffer cut to each length.
fn cut<
    K: CheckBytes + ViewOrd + Shown,
    VU: Drop,
    V: InPlace<Native = VU> + SameAs<VU> + Shown,
    const E: usize,
>(alloc: Global, buf: &[u8], pos: u32, tally: &mut Tally) -> anyhow::Result<()>
    requires { IsTrue (are_fitting K.kind V.kind E) }
{
    let whole = access::<K, V, E>(buf, pos).ok();
    for end in 0..buf.len() {
        count_outcome::<K, VU, V, E>(alloc, &buf[..end], pos, whole, tally)?;
    }
    Ok(())
}

/// Opens a buffer with each byte set to each other value.
fn change<
    K: CheckBytes + ViewOrd + Shown,
    VU: Drop,
    V: InPlace<Native = VU> + SameAs<VU> + Shown,
    const E: usize,
>(alloc: Global, buf: &[u8], pos: u32, tally: &mut Tally) -> anyhow::Result<()>
    requires { IsTrue (are_fitting K.kind V.kind E) }
{
    let whole = access::<K, V, E>(buf, pos).ok();
    let mut bytes = buf.to_vec(alloc)?;
    for at in 0..bytes.len() {
        let own = bytes[at];
        for other in 0..=255 {
            if other != own {
                bytes[at] = other;
                count_outcome::<K, VU, V, E>(alloc, &bytes, pos, whole, tally)?;
            }
        }
        bytes[at] = own;
    }
    Ok(())
}

/// Damages the archive of a case in one of both ways, and counts the outcomes.
pub(crate) fn damage<
    K: CheckBytes + ViewOrd + Shown,
    VU: Drop,
    V: InPlace<Native = VU> + SameAs<VU> + Shown,
    const E: usize,
>(alloc: Global, case: &[u8], out: &mut String) -> anyhow::Result<()> {
    ensure!(layout::fits::<K, V, E>(), "the map doesn't fit");
    let mut input = Input { rest: case };
    let [way] = input.array::<1>()?;
    let pos = input.number()?;
    let mut tally = Tally {
        accepted: 0,
        out_of_range: 0,
        misaligned: 0,
        bad_kind: 0,
        invalid_length: 0,
        too_deep: 0,
        bad_entry: 0,
        length_mismatch: 0,
        too_long: 0,
        out_of_order: 0,
        fingerprint: 0xcbf29ce484222325,
    };
    if way == 0 {
        cut::<K, VU, V, E>(alloc, input.rest, pos, &mut tally)?;
    } else {
        change::<K, VU, V, E>(alloc, input.rest, pos, &mut tally)?;
    }
    tally.show(out)
}
