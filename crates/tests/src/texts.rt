//! Texts, checked by themselves and archived as keys.

use crate::failing_writes::Failing;
use crate::same::same;
use rkyv_btree_base::archive::{Archive, Serialize};
use rkyv_btree_base::check::{CheckBytes, Window};
use rkyv_btree_base::fault::{Fault, ResolveFault};
use rkyv_btree_base::place::{Place, VecWriter};
use rkyv_btree_base::refusal::Refusal;
use rkyv_btree_base::text::ArchivedText;
use std::alloc::{AllocError, Global};
use std::process::Abort;
use std::test::Fail;

/// A text's bytes, zeros up to the next multiple of four, and the text over them, with its position.
pub(crate) fn archived_text(
    rt: &impl Abort,
    alloc: Global,
    text: &[u8],
) -> Result<(Vec<u8>, u32), AllocError> {
    let mut bytes = text.to_vec(alloc)?;
    for _ in 0..text.len().wrapping_neg() % 4 {
        bytes.push(0)?;
    }
    let pos = u32::try_from(bytes.len()).expect(rt, "a position");
    let len = u32::try_from(text.len()).expect(rt, "a length");
    bytes.extend_from_slice(&pos.wrapping_neg().to_le_bytes())?;
    bytes.extend_from_slice(&len.to_le_bytes())?;
    Ok((bytes, pos))
}

#[test]
fn texts_are_utf8(rt: HostRuntime) -> Result<(), Fail> {
    let mut long = Vec::new(rt.alloc());
    long.resize(70000, b'a')?;
    let texts: [&[u8]; 6] = [
        b"",
        b"a",
        b"\xC3\xA9",
        b"\xE2\x82\xAC",
        b"a\xF0\x9F\x98\x80",
        long.as_slice(),
    ];
    for text in texts {
        let (bytes, hi) = archived_text(&rt, rt.alloc(), text)?;
        let left = ArchivedText::check(&bytes, hi, Window { lo: 0, hi });
        let lo = u32::try_from(text.len()).expect(&rt, "a length");
        same(&rt, left, Ok(Window { lo, hi }));
    }
    // Cut inside a character, no character's beginning, too long for their characters, and half of a pair.
    let others: [&[u8]; 8] = [
        b"a\xC3",
        b"\xE2\x82",
        b"\xF0\x9F\x98",
        b"\x80",
        b"\xFF",
        b"\xC0\x80",
        b"\xE0\x80\x80",
        b"\xED\xA0\x80",
    ];
    for text in others {
        let (bytes, hi) = archived_text(&rt, rt.alloc(), text)?;
        let left = ArchivedText::check(&bytes, hi, Window { lo: 0, hi });
        same(&rt, left, Err(Refusal::BadEntry { pos: hi }));
    }
    Ok(())
}

/// Each text with its value.
pub(crate) fn with_texts<V: Copy + Drop>(
    alloc: Global,
    entries: &[(&str, V)],
) -> Result<Vec<(String, V)>, AllocError> {
    let mut owned = Vec::new(alloc);
    for (text, value) in entries {
        owned.push((String::from_str(alloc, text)?, *value))?;
    }
    Ok(owned)
}

#[test]
fn texts_start_and_end_at_a_position(rt: HostRuntime) -> Result<(), Fail> {
    let rows = [
        (4294967295, "", Some(4294967295), 0),
        (4294967294, "a", Some(4294967294), 1),
        (4294967292, "abc", Some(4294967292), 3),
        (4294967295, "a", None, 0),
        (4294967293, "abc", None, 0),
        (4294967296, "", None, 0),
        (4294967296, "a", None, 0),
    ];
    for (base, text, answer, count) in rows {
        let text = String::from_str(rt.alloc(), text)?;
        let mut writer = VecWriter::with_base(rt.alloc(), base);
        match text.serialize(rt.alloc(), &mut writer) {
            Ok(start) => same(&rt, Some(start), answer),
            Err(Fault::PositionOverflow) => same(&rt, None, answer),
            Err(_) => assert!(rt; false),
        }
        same(&rt, writer.bytes().len(), count);
    }
    Ok(())
}

#[test]
fn a_text_too_far_is_refused(rt: HostRuntime) -> Result<(), Fail> {
    let text = String::from_str(rt.alloc(), "abc")?;
    let mut bytes = [9; 8];
    let near = text.resolve(0, Place::new(2147483648, &mut bytes));
    same(&rt, near, Ok(()));
    same(&rt, bytes, [0, 0, 0, 0x80, 3, 0, 0, 0]);
    let far = text.resolve(0, Place::new(2147483652, &mut bytes));
    same(&rt, far, Err(ResolveFault::OffsetOverflow));
    Ok(())
}

#[test]
fn the_empty_text_makes_no_write(rt: HostRuntime) -> Result<(), Fail> {
    let mut writer = Failing {
        bytes: [1, 2].to_vec(rt.alloc())?,
        writes_left: 0,
        failures: 0,
    };
    let empty = String::new(rt.alloc());
    assert!(rt; matches!(empty.serialize(rt.alloc(), &mut writer), Ok(2)));
    same(&rt, writer.failures, 0);
    let text = String::from_str(rt.alloc(), "abc")?;
    let refused = text.serialize(rt.alloc(), &mut writer);
    assert!(rt; matches!(refused, Err(Fault::Writer(_))));
    same(&rt, writer.failures, 1);
    same(&rt, writer.bytes.as_slice(), [1, 2].as_slice());
    Ok(())
}
