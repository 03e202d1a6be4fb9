//! Options, archived as a tag, and the value after it.
ghost use Rattle.std.specs.Prelude.{◌≡◌, ◌+◌, ◌≤◌, length, IsTrue, OnOk, IfErr};
ghost use Rattle.rkyv_btree_archive.specs.OptionArchival.{OptionResolves, option_archival};
ghost use Rattle.rkyv_btree_archive.specs.laws.OptionArchived.{same_option, option_archived};
ghost use Rattle.rkyv_btree_archive.specs.laws.OptionCauses.{option_causes};
ghost use Rattle.rkyv_btree_compound.specs.Option.{option_kind, option_size};
ghost use Rattle.rkyv_btree_compound.specs.laws.OptionLaws.{option_laws};
ghost use Rattle.rkyv_btree_writer.specs.Archiving.{IsUnresolved};
ghost use Rattle.rkyv_btree_writing_laws.specs.Determined.{IsDetermined};

use crate::archive::{Archive, Serialize, resolve_into};
pub use rkyv_btree_compound::option::ArchivedOption;
use rkyv_btree_compound::option::SOME;
use rkyv_btree_portable::check::Portable;
use rkyv_btree_writer::fault::{Fault, ResolveFault};
use rkyv_btree_writer::place::{Place, Writer};

impl<T: Archive> Archive for Option<T> {
    type Archived = ArchivedOption<T::Archived>;

    type Resolver = Option<T::Resolver>;

    ghost archival = { option_archival T.archival };

    /// Writes the tag 1 and resolves the value after it. All other bytes become zero, and so do all bytes of no value. The
    /// resolver is that of the same option: if either has no value, none is written.
    fn resolve(
        &self,
        resolver: Option<T::Resolver>,
        out: Place<'_, ArchivedOption<T::Archived>>,
    ) -> Result<(), ResolveFault>
        requires fitting { IsTrue (option_kind T.Archived.kind).is_fitting }
        requires size { length out.bytes.now ≡ option_size T.Archived.kind }
        requires end { out.pos + option_size T.Archived.kind ≤ 4294967295 }
        ensures ok { OnOk result
            (OptionResolves T.archival self.now resolver out.entry.pos out.exit.1.0.now) }
        ensures err { IfErr result
            (IsUnresolved (option_archival T.archival) self.now resolver out.entry.pos) }
    {
        let Place { pos, bytes, of: _ } = out;
        bytes.fill(0);
        let Some(value) = self else {
            return Ok(());
        };
        let Some(resolver) = resolver else {
            return Ok(());
        };
        let align = T::Archived::align();
        let (front, back) = bytes.split_at_mut(align as usize);
        front[0] = SOME;
        resolve_into(value, resolver, pos + align, back)
    }

    ghost same_kind = { same_option T.archival.kind T.Archived.kind T.same_kind };

    ghost lawful = { option_laws T.archival.kind T.lawful };

    ghost archived = { option_archived T.archival T.lawful T.archived };

    ghost causes = { option_causes T.archival T.causes T.lawful };
}

impl<W: Writer, A: Drop, T: Serialize<W, A>> Serialize<W, A> for Option<T> {
    /// Makes the value's writes. No value makes none.
    fn serialize(&self, alloc: A, writer: &mut W) -> Result<Option<T::Resolver>, Fault<W::Error>> {
        match self {
            Some(value) => match value.serialize(alloc, writer) {
                Ok(resolver) => Ok(Some(resolver)),
                Err(fault) => Err(fault),
            },
            None => Ok(None),
        }
    }
}

/// Where what a value means determines how it is archived, so does what an option of it means.
pub fn options_are_determined<T: Archive>()
    ensures { IsDetermined T.archival → IsDetermined (option_archival T.archival) }
{}
