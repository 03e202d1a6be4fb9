//! The commands over typed maps, from a reader to a writer.
ghost use Rattle.btreekv_types.specs.Types.{DoesAt};

use crate::command::TypedCommand;
use crate::fault::TypedFault;
use crate::types::{Types, run_at};
use btreearc_lines::streams::read_all;
use btreekv_items::item::BytesStyle;
use std::alloc::Global;
use std::io::{Read, Write};

/// Runs a command over maps of two types, and returns the exit status. Nothing is written before all of the input is read and tested. A
/// list is written entry by entry, with one of them in memory; what another command writes is made first. The writer isn't flushed.
///
/// # Errors
///
/// Those of the command. `InputFailed` and `OutputFailed` if the reader or the writer fails, and `Memory` if an allocation fails: of an
/// entry of a list that is `OutputFailed`. An error leaves the output as it was, except for `OutputFailed`.
pub fn run<R: Read, W: Write>(
    alloc: Global,
    types: Types,
    style: BytesStyle,
    command: &TypedCommand,
    input: &mut R,
    output: &mut W,
) -> Result<u8, TypedFault>
    ensures { DoesAt types style command.now (R.remaining input.old) (W.contents output.old)
        (W.contents output.new) result }
{
    match read_all(alloc, input) {
        Ok(bytes) => run_at(types, alloc, style, command, &bytes, output),
        Err(fault) => Err(TypedFault::Program(fault)),
    }
}
