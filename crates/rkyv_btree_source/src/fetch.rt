//! Values that are brought from a source into a lent buffer, and validated there.
ghost use Rattle.std.specs.Prelude.{◌≡◌, ◌+◌, ◌≤◌, ◌<◌, List, ℕ, Some, IsTrue, IfErr, IfNone, IfOk, IfSome, length};
ghost use Rattle.rkyv_btree_portable.specs.Bytes.{number_at};
ghost use Rattle.rkyv_btree_portable.specs.Entry.{entry_size};
ghost use Rattle.rkyv_btree_portable.specs.Plain.{plain_kind};
ghost use Rattle.rkyv_btree_portable.specs.Refusing.{RefusesWhole};
ghost use Rattle.rkyv_btree_portable.specs.Text.{IsTextRange};
ghost use Rattle.rkyv_btree_portable.specs.Views.{stands};
ghost use Rattle.rkyv_btree_source.specs.Reading.{IfRead, Brings, IsCaused, IsPart};
ghost use Rattle.rkyv_btree_source.specs.Reads.{IsLacking, Lengths, own_lengths, text_lengths};
ghost use Rattle.rkyv_btree_writer.specs.TextArchival.{text_own};
ghost use Rattle.rkyv_btree_source.specs.Known.{AreOf};

use crate::fault::SourceFault;
use crate::fetch_pair::fetch_pair;
use crate::node::place_of;
use crate::reader::Reader;
use crate::source::ReadAt;
use rkyv_btree_portable::byte_string::ArchivedBytes;
use rkyv_btree_portable::bytes::num32;
use rkyv_btree_portable::check::{CheckBytes, Portable, Scalar};
use rkyv_btree_portable::entry::Entry;
use rkyv_btree_portable::in_place::InPlace;
use rkyv_btree_portable::little_endian::LittleEndian;
use rkyv_btree_portable::refusal::Refusal;
use rkyv_btree_portable::text::{ArchivedText, is_utf8};
use rkyv_btree_view::view::View;
use rkyv_btree_walk::shows::Shows;
use rkyv_btree_writer::place::write_offset;
use std::num::{NonZeroI8, NonZeroU8};

/// An archived type whose values can be brought from a source into a lent buffer: numbers, truth values, characters, `()`, pairs of
/// such, texts and byte strings.
pub trait Fetch: CheckBytes {
    /// How many bytes a value has outside its own, and how many it takes of a lent buffer.
    ghost lengths: { Lengths };

    /// Brings the value at position `pos` of a source, whose own bytes have been read, into `room`. It returns where the value is
    /// there. Its outlying bytes are read.
    fn fetch<S: ReadAt>(
        own_bytes: &[u8],
        pos: u32,
        reader: &mut Reader<S>,
        room: &mut [u8],
    ) -> Result<u32, SourceFault<S::Error>>
        requires fitting { IsTrue Self.kind.is_fitting }
        requires size { length own_bytes.now ≡ Self.kind.size }
        requires short { length room.old ≤ 4294967295 }
        requires part { (b : List ℕ) → AreOf (S.known reader.old.source) b → IsPart b own_bytes.now pos }
        ensures valid { IfOk result (λ place. IsTrue (stands Self.kind room.new place)) }
        ensures near { IfOk result (λ place. place ≤ pos) }
        ensures brings { (b : List ℕ) → AreOf (S.known reader.old.source) b →
            Brings Self.kind Self.Refuses b pos room.new result }
        ensures same { S.known reader.new.source ≡ S.known reader.old.source }
        ensures fails { IfErr result (IfRead (S.Fails (S.known reader.old.source))) }
        ensures left { reader.new.left ≤ reader.old.left }
        ensures spent { reader.old.left ≤ reader.new.left + (pos + Self.kind.size) }
        ensures caused { IfErr result
            (IsCaused (pos + Self.kind.size) 0 (length room.old) reader.new.left) }
        ensures takes { (b : List ℕ) → AreOf (S.known reader.old.source) b →
            IfOk result (λ _. reader.old.left ≡ reader.new.left + lengths.outlying b pos) }
        ensures lacks { (b : List ℕ) → AreOf (S.known reader.old.source) b → IfErr result
            (IsLacking (λ n. (n ≡ lengths.room b pos) × (length room.old < n))
            (reader.old.left < lengths.outlying b pos)) }
        ensures fits { (b : List ℕ) → AreOf (S.known reader.old.source) b →
            IfOk result (λ _. lengths.room b pos ≤ length room.old) };
}

/// Brings a value whose own bytes are all of it.
pub(crate) fn fetch_own<T: Scalar, E>(
    own_bytes: &[u8],
    pos: u32,
    room: &mut [u8],
) -> Result<u32, SourceFault<E>>
    requires size { length own_bytes.now ≡ T.form.plain.size }
    requires short { length room.old ≤ 4294967295 }
    ensures valid { IfOk result
        (λ place. IsTrue (stands (plain_kind T.form.plain) room.new place)) }
    ensures near { IfOk result (λ place. place ≤ pos) }
    ensures brings { (b : List ℕ) → IsPart b own_bytes.now pos → Brings (plain_kind T.form.plain)
        (RefusesWhole (plain_kind T.form.plain)) b pos room.new result }
    // Nothing is read, so no budget is too small.
    ensures caused { IfErr result (IsCaused (pos + T.form.plain.size) 0 (length room.old)
        (pos + T.form.plain.size)) }
    ensures lacks { (left : ℕ) → IfErr result
        (IsLacking (λ n. (n ≡ T.form.plain.size) × (length room.old < n)) (left < 0)) }
    ensures fails { IfErr result (IfRead (λ _. ⊥)) }
    ensures fits { IfOk result (λ _. T.form.plain.size ≤ length room.old) }
{
    let (size, align) = T::size_and_align();
    if pos % align != 0 {
        return Err(SourceFault::Refused(Refusal::Misaligned { pos }));
    }
    if room.len() < size as usize {
        return Err(SourceFault::NoRoom {
            needed: u64::from(size),
        });
    }
    room[..size as usize].copy_from_slice(own_bytes);
    if T::is_value(room, 0) {
        Ok(0)
    } else {
        Err(SourceFault::Refused(Refusal::BadEntry { pos }))
    }
}

impl<N> Fetch for LittleEndian<N>
where
    LittleEndian<N>: Scalar,
{
    ghost lengths = { own_lengths ⟦<LittleEndian<N> as Scalar>⟧.form.plain.size };

    fn fetch<S: ReadAt>(
        own_bytes: &[u8],
        pos: u32,
        _reader: &mut Reader<S>,
        room: &mut [u8],
    ) -> Result<u32, SourceFault<S::Error>> {
        fetch_own::<LittleEndian<N>, S::Error>(own_bytes, pos, room)
    }
}

impl Fetch for u8 {
    ghost lengths = { own_lengths 1 };

    fn fetch<S: ReadAt>(
        own_bytes: &[u8],
        pos: u32,
        _reader: &mut Reader<S>,
        room: &mut [u8],
    ) -> Result<u32, SourceFault<S::Error>> {
        fetch_own::<u8, S::Error>(own_bytes, pos, room)
    }
}

impl Fetch for i8 {
    ghost lengths = { own_lengths 1 };

    fn fetch<S: ReadAt>(
        own_bytes: &[u8],
        pos: u32,
        _reader: &mut Reader<S>,
        room: &mut [u8],
    ) -> Result<u32, SourceFault<S::Error>> {
        fetch_own::<i8, S::Error>(own_bytes, pos, room)
    }
}

impl Fetch for NonZeroU8 {
    ghost lengths = { own_lengths 1 };

    fn fetch<S: ReadAt>(
        own_bytes: &[u8],
        pos: u32,
        _reader: &mut Reader<S>,
        room: &mut [u8],
    ) -> Result<u32, SourceFault<S::Error>> {
        fetch_own::<NonZeroU8, S::Error>(own_bytes, pos, room)
    }
}

impl Fetch for NonZeroI8 {
    ghost lengths = { own_lengths 1 };

    fn fetch<S: ReadAt>(
        own_bytes: &[u8],
        pos: u32,
        _reader: &mut Reader<S>,
        room: &mut [u8],
    ) -> Result<u32, SourceFault<S::Error>> {
        fetch_own::<NonZeroI8, S::Error>(own_bytes, pos, room)
    }
}

impl Fetch for bool {
    ghost lengths = { own_lengths 1 };

    fn fetch<S: ReadAt>(
        own_bytes: &[u8],
        pos: u32,
        _reader: &mut Reader<S>,
        room: &mut [u8],
    ) -> Result<u32, SourceFault<S::Error>> {
        fetch_own::<bool, S::Error>(own_bytes, pos, room)
    }
}

impl Fetch for () {
    ghost lengths = { own_lengths 0 };

    fn fetch<S: ReadAt>(
        own_bytes: &[u8],
        pos: u32,
        _reader: &mut Reader<S>,
        room: &mut [u8],
    ) -> Result<u32, SourceFault<S::Error>> {
        fetch_own::<(), S::Error>(own_bytes, pos, room)
    }
}

impl<K: InPlace, V: InPlace> Fetch for Entry<K, V> {
    ghost lengths = { own_lengths (entry_size K.kind V.kind) };

    fn fetch<S: ReadAt>(
        own_bytes: &[u8],
        pos: u32,
        _reader: &mut Reader<S>,
        room: &mut [u8],
    ) -> Result<u32, SourceFault<S::Error>> {
        fetch_pair::<K, V, S::Error>(own_bytes, pos, room)
    }
}

/// Returns where the bytes of a text start in a source, by its own bytes, which were read from position `at`. It returns `None` if
/// they don't lie before that.
fn text_start(own_bytes: &[u8], at: u32) -> Option<u32>
    requires { length own_bytes.now ≡ 8 }
    ensures before { IfSome result (λ start. start + number_at own_bytes.now 4 4 ≤ at) }
    ensures near { IfSome result (λ start. at ≤ start + 2147483648) }
    ensures some { IfSome result (λ start. (b : List ℕ) → IsPart b own_bytes.now at →
        IsTextRange b at start (start + number_at own_bytes.now 4 4)) }
    ensures none { IfNone result ((b : List ℕ) → IsPart b own_bytes.now at → (start end : ℕ) →
        IsTextRange b at start end → end ≤ at → ⊥) }
{
    let place = place_of(at, num32(own_bytes, 0));
    if place < 0 {
        return None;
    }
    if place > i64::from(at) {
        return None;
    }
    let start = place as u32;
    if at - start < num32(own_bytes, 4) {
        return None;
    }
    Some(start)
}

/// Writes the own bytes, at position `place`, of a text of `len` bytes that starts at 0.
fn write_own(bytes: &mut [u8], place: u32, len: u32)
    requires size { length bytes.old ≡ 8 }
    requires near { place ≤ 2147483648 }
    ensures { bytes.new ≡ text_own place 0 len }
{
    let (front, back) = bytes.split_at_mut(4);
    write_offset(place, 0, front).unwrap();
    back.copy_from_slice(&len.to_le_bytes());
}

impl Fetch for ArchivedBytes {
    ghost lengths = { text_lengths };

    /// The bytes come first in `room`, and then the byte string's own bytes, whose offset leads to them.
    fn fetch<S: ReadAt>(
        own_bytes: &[u8],
        pos: u32,
        reader: &mut Reader<S>,
        room: &mut [u8],
    ) -> Result<u32, SourceFault<S::Error>> {
        if pos % 4 != 0 {
            return Err(SourceFault::Refused(Refusal::Misaligned { pos }));
        }
        let Some(start) = text_start(own_bytes, pos) else {
            return Err(SourceFault::Refused(Refusal::BadEntry { pos }));
        };
        let len = num32(own_bytes, 4);
        let place = (u64::from(len) + 3) / 4 * 4;
        if (room.len() as u64) < place + 8 {
            return Err(SourceFault::NoRoom { needed: place + 8 });
        }
        let (front, back) = room.split_at_mut(place as usize);
        match reader.read(start, &mut front[..len as usize]) {
            Ok(()) => {}
            Err(fault) => return Err(fault),
        }
        write_own(&mut back[..8], place as u32, len);
        Ok(place as u32)
    }
}

impl Fetch for ArchivedText {
    ghost lengths = { text_lengths };

    /// Brings the byte string of the text, and tests that it is UTF-8.
    fn fetch<S: ReadAt>(
        own_bytes: &[u8],
        pos: u32,
        reader: &mut Reader<S>,
        room: &mut [u8],
    ) -> Result<u32, SourceFault<S::Error>> {
        let place = match ArchivedBytes::fetch(own_bytes, pos, reader, room) {
            Ok(place) => place,
            Err(fault) => return Err(fault),
        };
        if is_utf8(View::<ArchivedBytes>::at(room, place).as_bytes()) {
            Ok(place)
        } else {
            Err(SourceFault::Refused(Refusal::BadEntry { pos }))
        }
    }
}
