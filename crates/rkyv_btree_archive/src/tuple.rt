//! Owned pairs, archived as entries: the first is the key, and the second the value.
ghost use Rattle.std.specs.Prelude.{◌≡◌, ◌+◌, ◌≤◌, length, IsTrue, OnOk, IfErr};
ghost use Rattle.rkyv_btree_archive.specs.EntryArchival.{EntryResolves, entry_archival};
ghost use Rattle.rkyv_btree_archive.specs.laws.EntryArchived.{same_entry, entry_archived};
ghost use Rattle.rkyv_btree_archive.specs.laws.EntryCauses.{entry_causes};
ghost use Rattle.rkyv_btree_portable.specs.Entry.{entry_size, entry_kind};
ghost use Rattle.rkyv_btree_portable.specs.laws.EntryLaws.{entry_laws};
ghost use Rattle.rkyv_btree_writer.specs.Archiving.{IsUnresolved};

use crate::archive::{Archive, Serialize, resolve_into};
use crate::util::{EntryAdapter, EntryResolver};
use rkyv_btree_portable::entry::Entry;
use rkyv_btree_writer::fault::{Fault, ResolveFault};
use rkyv_btree_writer::place::{Place, Writer};

impl<KU: Archive, VU: Archive> Archive for (KU, VU) {
    type Archived = Entry<KU::Archived, VU::Archived>;

    type Resolver = EntryResolver<KU::Resolver, VU::Resolver>;

    ghost archival = { entry_archival KU.archival VU.archival (λ pair. pair) };

    /// Resolves the key, and then the value, as an `EntryAdapter` of both.
    fn resolve(
        &self,
        resolver: EntryResolver<KU::Resolver, VU::Resolver>,
        out: Place<'_, Entry<KU::Archived, VU::Archived>>,
    ) -> Result<(), ResolveFault>
        requires fitting { IsTrue (entry_kind KU.Archived.kind VU.Archived.kind).is_fitting }
        requires size { length out.bytes.now ≡ entry_size KU.Archived.kind VU.Archived.kind }
        requires end { out.pos + entry_size KU.Archived.kind VU.Archived.kind ≤ 4294967295 }
        ensures ok { OnOk result
            (EntryResolves KU.archival VU.archival self.now resolver out.entry.pos
            out.exit.1.0.now) }
        ensures err { IfErr result
            (IsUnresolved (entry_archival KU.archival VU.archival (λ pair. pair)) self.now resolver
            out.entry.pos) }
    {
        let Place { pos, bytes, of: _ } = out;
        resolve_into(&EntryAdapter::new(&self.0, &self.1), resolver, pos, bytes)
    }

    ghost same_kind = { same_entry KU.archival.kind VU.archival.kind KU.Archived.kind
        VU.Archived.kind KU.same_kind VU.same_kind };

    ghost lawful = { entry_laws KU.archival.kind VU.archival.kind KU.lawful VU.lawful };

    ghost archived = { entry_archived KU.archival VU.archival (λ pair. pair) KU.lawful VU.lawful
        KU.archived VU.archived };

    ghost causes = { entry_causes KU.archival VU.archival (λ pair. pair) KU.causes VU.causes
        KU.lawful VU.lawful KU.archived VU.archived };
}

impl<W: Writer, A: Copy, KU: Serialize<W, A>, VU: Serialize<W, A>> Serialize<W, A> for (KU, VU) {
    /// Makes the key's writes, and then the value's.
    fn serialize(
        &self,
        alloc: A,
        writer: &mut W,
    ) -> Result<EntryResolver<KU::Resolver, VU::Resolver>, Fault<W::Error>> {
        EntryAdapter::new(&self.0, &self.1).serialize(alloc, writer)
    }
}
