//! The text of entries.
ghost use Rattle.std.specs.Option.{option_map};
ghost use Rattle.std.specs.Prelude.{◌≡◌, ◌++◌, IfErr, IfOk, OnOk, string_bytes};
ghost use Rattle.std.specs.Iterator.{IsFinite};
ghost use Rattle.rkyv_btree_view.specs.View.{view_entry};
ghost use Rattle.btreekv_commands.specs.Commands.{WrittenEntry};
ghost use Rattle.btreekv_commands.specs.Forms.{AppendsEntries};
ghost use Rattle.btreekv_commands.specs.Lines.{line_of};

use crate::forms::{Form, push_entry};
use btreearc_lines::fault::ProgramFault;
use rkyv_btree_portable::text::ArchivedText;
use rkyv_btree_view::view::View;
use std::alloc::{AllocError, Global};

/// Writes an entry's line at the end.
///
/// # Errors
///
/// Where the line finds no room.
pub(crate) fn write_entry(out: &mut String, key: &str, value: &str) -> Result<(), AllocError>
    ensures { OnOk result
        (string_bytes out.new ≡ string_bytes out.old ++ line_of (key.now, value.now)) }
{
    writeln!(out, "{key}\t{value}")
}

/// Returns an entry as it is written and the exit status 0, or nothing and the status 1 if there is none.
///
/// # Errors
///
/// `Memory` if an allocation fails.
pub(crate) fn written_entry(
    alloc: Global,
    entry: Option<(View<'_, ArchivedText>, View<'_, ArchivedText>)>,
    form: Form,
) -> Result<(Vec<u8>, u8), ProgramFault>
    ensures ok { IfOk result (λ r.
        WrittenEntry form (option_map view_entry entry.entry) r.0.items r.1) }
    ensures err { IfErr result (λ fault. fault ≡ ProgramFault.Memory) }
{
    let mut text = Vec::new(alloc);
    match entry {
        None => Ok((text, 1)),
        Some((key, value)) => match push_entry(&mut text, form, key.as_str(), value.as_str()) {
            Ok(()) => Ok((text, 0)),
            Err(_) => Err(ProgramFault::Memory),
        },
    }
}

/// Writes each entry at the end.
///
/// # Errors
///
/// `AllocError` if an allocation fails. The entries before may be written then.
pub fn write_entries<'a, I: Iterator<Item = (View<'a, ArchivedText>, View<'a, ArchivedText>)>>(
    out: &mut Vec<u8>,
    form: Form,
    mut entries: I,
) -> Result<(), AllocError>
    requires can { I.can_next entries }
    requires ends { IsFinite (I.remaining entries) }
    ensures { OnOk result
        (AppendsEntries form I.next_gives view_entry entries out.old.items out.new.items) }
{
    while let Some((key, value)) = entries.next() {
        push_entry(out, form, key.as_str(), value.as_str())?;
    }
    Ok(())
}
