//! Archived byte strings.
ghost use Rattle.std.specs.Prelude.{◌≡◌, ◌+◌, ◌≤◌, IsTrue};
ghost use Rattle.rkyv_btree_portable.specs.ByteStrings.{bytes_kind};
ghost use Rattle.rkyv_btree_portable.specs.Refusing.{RefusesWhole};
ghost use Rattle.rkyv_btree_portable.specs.laws.ByteStringLaws.{bytes_laws};
ghost use Rattle.rkyv_btree_portable.specs.laws.Refusing.{whole_refusals};

use crate::check::{CheckBytes, Portable, Window, check_place};
use crate::refusal::Refusal;
use crate::text::text_range;

/// A byte string, by an offset to its bytes and their number, four bytes each.
pub struct ArchivedBytes;

impl Portable for ArchivedBytes {
    ghost kind = { bytes_kind };

    fn size() -> u32 {
        8
    }

    fn align() -> u32 {
        4
    }

    fn fits() -> bool {
        true
    }

    ghost laws = { bytes_laws };
}

impl CheckBytes for ArchivedBytes {
    ghost Refuses = { RefusesWhole bytes_kind };

    #[inline(always)]
    fn check(buf: &[u8], pos: u32, window: Window) -> Result<Window, Refusal> {
        check_place::<ArchivedBytes>(buf, pos)?;
        let Some(range) = text_range(buf, pos, window) else {
            return Err(Refusal::BadEntry { pos });
        };
        Ok(Window {
            lo: range.hi,
            hi: window.hi,
        })
    }

    ghost refusals = { λ _. whole_refusals bytes_laws };
}
