//! The text of entries.
ghost use Rattle.std.specs.Prelude.{◌≡◌, ◌++◌, List, ℕ, OnOk, ◌↔◌, string_bytes};
ghost use Rattle.std.specs.Iterator.{IsFinite};
ghost use Rattle.rkyv_btree_view.specs.View.{view_entry};
ghost use Rattle.btreearc_lines.specs.Grammar.{AppendsLines, text_of, line, AreShort, IsLines, IsSpelled};

use rkyv_btree_portable::numbers::ArchivedU32;
use rkyv_btree_view::view::View;
use std::alloc::AllocError;

/// Writes an entry's line at the end.
///
/// # Errors
///
/// Where the line finds no room.
fn write_entry(out: &mut String, key: u32, value: u32) -> Result<(), AllocError>
    ensures { OnOk result (string_bytes out.new ≡ string_bytes out.old ++ line (key, value)) }
{
    writeln!(out, "{key} {value}")
}

/// Writes a line for each entry at the end.
///
/// # Errors
///
/// Where a line finds no room. The lines before it may be written then.
pub fn write_entries<'a, I: Iterator<Item = (View<'a, ArchivedU32>, View<'a, ArchivedU32>)>>(
    out: &mut String,
    mut entries: I,
) -> Result<(), AllocError>
    requires can { I.can_next entries }
    requires ends { IsFinite (I.remaining entries) }
    ensures { OnOk result (AppendsLines I.next_gives view_entry entries out.old out.new) }
{
    while let Some((key, value)) = entries.next() {
        write_entry(out, key.to_native(), value.to_native())?;
    }
    Ok(())
}

/// What is written for entries is read as those entries.
pub fn read_back()
    ensures { (entries : List (ℕ × ℕ)) → AreShort entries → IsLines (text_of entries) entries }
{}

/// Lines are entries just where the bytes are those entries one after the other.
pub fn one_behind_the_other()
    ensures { (bytes : List ℕ) (entries : List (ℕ × ℕ)) →
        IsLines bytes entries ↔ IsSpelled bytes entries }
{}
