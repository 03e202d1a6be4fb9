//! Why the program fails.
ghost use Rattle.std.specs.Prelude.{◌≡◌};
ghost use Rattle.btreearc_lines.specs.Faults.{in_memory, line_of, program_fault};

use crate::heading::HeadingFault;
use rkyv_btree_archive::try_build::TryFault;
use rkyv_btree_portable::numbers::ArchivedU32;
use rkyv_btree_portable::refusal::Refusal;
use rkyv_btree_typed::header::HeaderFault;
use rkyv_btree_typed::type_name::NameOf;
use rkyv_btree_types::map::ArchivedBTreeMap;
use rkyv_btree_writer::fault::Fault;
use std::alloc::AllocError;
use std::error::Error;
use std::fmt;

/// Why the program fails. Its text is the line that is printed.
#[derive(Debug, Drop)]
pub enum ProgramFault {
    /// The words name no command, or are too few or too many.
    Usage,
    /// The first line that is no entry, counted from 1.
    Line(u64),
    /// The input is no archive.
    Refused(Refusal),
    /// The input begins with a header that isn't the one of the program's type.
    Misheaded(HeadingFault),
    /// The entries can't be archived.
    NotBuilt(Fault<AllocError>),
    /// A read failed.
    InputFailed,
    /// A write failed, or reading again what was tested failed, by the input or by memory. How much was written isn't known.
    OutputFailed,
    /// There is no memory for the input or the output.
    Memory,
}

impl fmt::Display for ProgramFault {
    ghost output = { line_of };

    fn fmt<W: fmt::Write>(&self, f: &mut fmt::Formatter<W>) -> fmt::Result {
        match self {
            ProgramFault::Usage => write!(
                f,
                "usage: btreearc build [untyped] | list | get KEY | range LOW HIGH | check | set KEY VALUE | build-strict [untyped] | check-strict | migrate"
            ),
            ProgramFault::Line(line) => write!(f, "btreearc: line {line}: not KEY VALUE"),
            ProgramFault::Refused(refusal) => write!(f, "btreearc: refused: {refusal}"),
            ProgramFault::Misheaded(HeadingFault::OtherVersion(version)) => {
                let fault = HeaderFault::OtherVersion { version: *version };
                write!(f, "btreearc: refused: {fault}")
            }
            ProgramFault::Misheaded(HeadingFault::OtherType(found)) => {
                let expected = NameOf::<ArchivedBTreeMap<ArchivedU32, ArchivedU32, 5>>::new();
                write!(
                    f,
                    "btreearc: refused: the bytes are of type {found}, not {expected}"
                )
            }
            ProgramFault::NotBuilt(fault) => write!(f, "btreearc: not built: {fault}"),
            ProgramFault::InputFailed => write!(f, "btreearc: input failed"),
            ProgramFault::OutputFailed => write!(f, "btreearc: output failed"),
            ProgramFault::Memory => write!(f, "btreearc: out of memory"),
        }
    }
}

impl Error for ProgramFault {}

/// Returns the program's error for one of building. A writer's own error is one of memory.
pub fn program_fault<E: Drop>(fault: TryFault<E, ProgramFault>) -> ProgramFault
    ensures { result ≡ program_fault fault }
{
    match fault {
        TryFault::Item(fault) => fault,
        TryFault::Build(fault) => ProgramFault::NotBuilt(in_memory(fault)),
    }
}

/// Returns the same error, where a writer's own is one of memory.
pub fn in_memory<E: Drop>(fault: Fault<E>) -> Fault<AllocError>
    ensures { result ≡ in_memory fault }
{
    match fault {
        Fault::Length(mismatch) => Fault::Length(mismatch),
        Fault::LengthOverflow => Fault::LengthOverflow,
        Fault::PositionOverflow => Fault::PositionOverflow,
        Fault::OffsetOverflow => Fault::OffsetOverflow,
        Fault::Writer(_) => Fault::Writer(AllocError),
        Fault::Memory(error) => Fault::Memory(error),
        Fault::Entry(fault) => Fault::Entry(fault),
        Fault::OutOfOrder { index } => Fault::OutOfOrder { index },
    }
}
