//! A key with its value, archived as an `Entry`.
ghost use Rattle.std.specs.Prelude.{◌≡◌, ◌+◌, ◌≤◌, ◌<◌, ◌^◌, length, IsTrue, OnOk, IfErr};
ghost use Rattle.rkyv_btree_writer.specs.Archiving.{IsUnresolved};
ghost use Rattle.rkyv_btree_writing_laws.specs.Determined.{IsDetermined};
ghost use Rattle.rkyv_btree_archive.specs.EntryArchival.{EntryResolves, both_now, entry_archival};
ghost use Rattle.rkyv_btree_portable.specs.Entry.{value_offset, entry_size, entry_kind, RefusesEntry};
ghost use Rattle.rkyv_btree_portable.specs.laws.EntryLaws.{entry_laws};
ghost use Rattle.rkyv_btree_archive.specs.laws.EntryArchived.{same_entry, entry_archived};
ghost use Rattle.rkyv_btree_archive.specs.laws.EntryCauses.{entry_causes};

use crate::archive::{Archive, Serialize, resolve_into};
use rkyv_btree_portable::check::Portable;
pub use rkyv_btree_portable::entry::{Entry, entries_compare_key_first, value_offset};
use rkyv_btree_writer::fault::{Fault, ResolveFault};
use rkyv_btree_writer::place::{Place, Writer};

/// The resolvers of a key and of its value.
#[derive(Debug, Drop)]
pub struct EntryResolver<K, V> {
    pub key: K,
    pub value: V,
}

/// A key with its value, by references. It is archived as an `Entry`.
#[derive_where(Clone, Copy)]
pub struct EntryAdapter<'r, K, V> {
    pub key: &'r K,
    pub value: &'r V,
}

impl<'r, K, V> EntryAdapter<'r, K, V> {
    /// Returns the entry of this key and this value.
    pub fn new(key: &'r K, value: &'r V) -> EntryAdapter<'r, K, V>
        ensures key { result.key.now ≡ key.now }
        ensures value { result.value.now ≡ value.now }
    {
        EntryAdapter { key, value }
    }
}

impl<'r, KU: Archive, VU: Archive> Archive for EntryAdapter<'r, KU, VU> {
    type Archived = Entry<KU::Archived, VU::Archived>;

    type Resolver = EntryResolver<KU::Resolver, VU::Resolver>;

    ghost archival = { entry_archival KU.archival VU.archival both_now };

    /// Resolves the key, and then the value. The bytes between and after them become zero.
    fn resolve(
        &self,
        resolver: EntryResolver<KU::Resolver, VU::Resolver>,
        out: Place<'_, Entry<KU::Archived, VU::Archived>>,
    ) -> Result<(), ResolveFault>
        requires fitting { IsTrue (entry_kind KU.Archived.kind VU.Archived.kind).is_fitting }
        requires size { length out.bytes.now ≡ entry_size KU.Archived.kind VU.Archived.kind }
        requires end { out.pos + entry_size KU.Archived.kind VU.Archived.kind ≤ 4294967295 }
        ensures ok { OnOk result
            (EntryResolves KU.archival VU.archival (both_now self.now) resolver out.entry.pos
            out.exit.1.0.now) }
        ensures err { IfErr result
            (IsUnresolved (entry_archival KU.archival VU.archival both_now) self.now resolver
            out.entry.pos) }
    {
        let Place { pos, bytes, of: _ } = out;
        let EntryResolver { key, value } = resolver;
        let offset = value_offset::<KU::Archived, VU::Archived>();
        bytes.fill(0);
        let (front, back) = bytes.split_at_mut(offset as usize);
        let front = &mut front[..KU::Archived::size() as usize];
        let back = &mut back[..VU::Archived::size() as usize];
        resolve_into(self.key, key, pos, front)?;
        resolve_into(self.value, value, pos + offset, back)
    }

    ghost same_kind = { same_entry KU.archival.kind VU.archival.kind KU.Archived.kind
        VU.Archived.kind KU.same_kind VU.same_kind };

    ghost lawful = { entry_laws KU.archival.kind VU.archival.kind KU.lawful VU.lawful };

    ghost archived = { entry_archived KU.archival VU.archival both_now KU.lawful VU.lawful
        KU.archived VU.archived };

    ghost causes = { entry_causes KU.archival VU.archival both_now KU.causes VU.causes KU.lawful
        VU.lawful KU.archived VU.archived };
}

impl<'r, W: Writer, A: Copy, KU: Serialize<W, A>, VU: Serialize<W, A>> Serialize<W, A>
    for EntryAdapter<'r, KU, VU> {
    /// Makes the key's writes, and then the value's. If the value fails, the key's writes remain.
    fn serialize(
        &self,
        alloc: A,
        writer: &mut W,
    ) -> Result<EntryResolver<KU::Resolver, VU::Resolver>, Fault<W::Error>> {
        let key = self.key.serialize(alloc, writer)?;
        let value = self.value.serialize(alloc, writer)?;
        Ok(EntryResolver { key, value })
    }
}

/// Where what a key means, and what a value means, determine how each is archived, so do both for the pair.
pub fn entries_are_determined<KU: Archive, VU: Archive>()
    ensures { IsDetermined KU.archival → IsDetermined VU.archival →
        IsDetermined (entry_archival KU.archival VU.archival both_now) }
{}
