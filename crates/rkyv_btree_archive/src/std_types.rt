//! Std's maps and sets, archived as trees with five entries in a node.
ghost use Rattle.std.specs.Prelude.{◌≡◌, ◌<◌, length, alloc_error, IsTrue, IsErrOf, OnOk, OnErr, IfOk, IfErr};
ghost use Rattle.rkyv_btree_format.specs.Layout.{are_fitting};
ghost use Rattle.rkyv_btree_writing_laws.specs.Determined.{IsDetermined};
ghost use Rattle.rkyv_btree_writing_laws.specs.Kept.{NeverGrows, OnlyAppended};
ghost use Rattle.rkyv_btree_writing_laws.specs.Sets.{unit_archival};
ghost use Rattle.rkyv_btree_format.specs.Units.{with_units};
ghost use Rattle.rkyv_btree_writing_laws.specs.TreeArchival.{IsRoot, tree_archival};
ghost use Rattle.rkyv_btree_writing_laws.proofs.MapSame.{same_map};
ghost use Rattle.rkyv_btree_writing_laws.proofs.TreeArchived.{tree_archived, tree_causes};
ghost use Rattle.rkyv_btree_portable.specs.Natives.{unit_form};
ghost use Rattle.rkyv_btree_portable.specs.Scalars.{unit_kind};
ghost use Rattle.rkyv_btree_portable.specs.laws.Natives.{unit_faithful};
ghost use Rattle.rkyv_btree_portable.specs.laws.Scalars.{unit_laws};
ghost use Rattle.rkyv_btree_verify.proofs.MapLaws.{map_laws};
ghost use Rattle.rkyv_btree_writer.specs.Archiving.{BeginsWith, IsUnresolved, IsUnserialised, Serialises, itself};
ghost use Rattle.rkyv_btree_writer.proofs.Archiving.{native_archived, native_causes};
ghost use Rattle.rkyv_btree_writing_laws.specs.Building.{IsBuiltOf};

use crate::archive::{Archive, Serialize};
use crate::build::{BTreeMapResolver, fill_root};
use crate::build_map::BuildMap;
use crate::build_set::{BTreeSetResolver, BuildSet};
use rkyv_btree_types::map::ArchivedBTreeMap;
use rkyv_btree_types::set::ArchivedBTreeSet;
use rkyv_btree_writer::fault::{Fault, ResolveFault};
use rkyv_btree_writer::place::{Place, Writer};
use std::alloc::Allocator;
use std::collections::{BTreeMap, BTreeSet};

/// How many entries an inner node of an archived std map or set has, and a leaf at most.
pub const DEFAULT_ENTRIES_PER_NODE: usize = 5;

impl<KU: Archive + Ord, VU: Archive> Archive for BTreeMap<KU, VU> {
    type Archived = ArchivedBTreeMap<KU::Archived, VU::Archived, DEFAULT_ENTRIES_PER_NODE>;

    type Resolver = BTreeMapResolver;

    ghost archival = { tree_archival 5 KU.archival VU.archival (λ map. map.entries) };

    /// Writes the map over its root node. After an error the place is as it was.
    fn resolve(
        &self,
        resolver: BTreeMapResolver,
        out: Place<'_, ArchivedBTreeMap<KU::Archived, VU::Archived, DEFAULT_ENTRIES_PER_NODE>>,
    ) -> Result<(), ResolveFault>
        requires { length out.bytes.now ≡ 8 }
        ensures ok { OnOk result
            (IsRoot out.entry.pos resolver (length self.now.entries) out.exit.1.0.now) }
        ensures err { IfErr result
            (IsUnresolved (tree_archival 5 KU.archival VU.archival (λ map. map.entries))
            self.now resolver out.entry.pos) }
        ensures kept { OnErr result (out.exit.1.0.now ≡ out.entry.bytes.now) }
    {
        let entries = self.len();
        let Place { pos, bytes, of: _ } = out;
        fill_root(pos, bytes, entries, resolver.root)
    }

    ghost same_kind = { same_map KU.archival.kind VU.archival.kind KU.Archived.kind VU.Archived.kind
        5 KU.same_kind VU.same_kind };

    ghost lawful = { map_laws KU.archival.kind VU.archival.kind 5 KU.lawful VU.lawful };

    ghost archived = { tree_archived 5 KU.archival VU.archival KU.lawful VU.lawful KU.archived
        VU.archived (λ map. map.entries) };

    ghost causes = { tree_causes 5 KU.archival VU.archival KU.lawful VU.lawful KU.archived
        VU.archived (λ map. map.entries) KU.causes VU.causes };
}

impl<W: Writer, A: Allocator + Copy, KU: Serialize<W, A> + Ord, VU: Serialize<W, A>> Serialize<W, A>
    for BTreeMap<KU, VU> {
    /// Serializes the tree of the entries, and returns the position of its root node.
    fn serialize(&self, alloc: A, writer: &mut W) -> Result<BTreeMapResolver, Fault<W::Error>>
        requires fitting { IsTrue (are_fitting KU.Archived.kind VU.Archived.kind 5) }
        ensures ok { IfOk result
            (Serialises (tree_archival 5 KU.archival VU.archival (λ map. map.entries)) self.now
            (W.state writer.old) (W.state writer.new)) }
        ensures built { IfOk result
            (IsBuiltOf KU.Archived.kind VU.Archived.kind 5 KU.archival VU.archival
            (W.state writer.old) self.now.entries (W.state writer.new)) }
        ensures err { IfErr result (λ fault.
            IsUnserialised (tree_archival 5 KU.archival VU.archival (λ map. map.entries)) self.now
            (W.state writer.old) fault (W.state writer.new)) }
        ensures went { OnOk result (OnlyAppended (W.state writer.old) (W.state writer.new)) }
        ensures kept { OnErr result (BeginsWith (W.state writer.new) (W.state writer.old)) }
        // Where no entry asks for memory, a failed allocation leaves the writer as it was.
        ensures memory { NeverGrows KU.archival → NeverGrows VU.archival →
            IsErrOf result (Fault.Memory alloc_error) → W.state writer.new ≡ W.state writer.old }
    {
        let count = self.len();
        ArchivedBTreeMap::<
            KU::Archived,
            VU::Archived,
            DEFAULT_ENTRIES_PER_NODE,
        >::serialize_from_ordered_iter::<&KU, &VU, KU, VU, W, A, _>(
            alloc,
            count,
            self.iter(),
            writer,
        )
    }
}

impl<KU: Archive + Ord> Archive for BTreeSet<KU> {
    type Archived = ArchivedBTreeSet<KU::Archived, DEFAULT_ENTRIES_PER_NODE>;

    type Resolver = BTreeSetResolver;

    ghost archival = { tree_archival 5 KU.archival unit_archival (λ set. with_units set.keys) };

    /// Writes the set over its root node. After an error the place is as it was.
    fn resolve(
        &self,
        resolver: BTreeSetResolver,
        out: Place<'_, ArchivedBTreeSet<KU::Archived, DEFAULT_ENTRIES_PER_NODE>>,
    ) -> Result<(), ResolveFault>
        requires { length out.bytes.now ≡ 8 }
        ensures ok { OnOk result
            (IsRoot out.entry.pos resolver (length (with_units self.now.keys)) out.exit.1.0.now) }
        ensures err { IfErr result
            (IsUnresolved (tree_archival 5 KU.archival unit_archival (λ set. with_units set.keys))
            self.now resolver out.entry.pos) }
        ensures kept { OnErr result (out.exit.1.0.now ≡ out.entry.bytes.now) }
    {
        let keys = self.len();
        let Place { pos, bytes, of: _ } = out;
        fill_root(pos, bytes, keys, resolver.root)
    }

    ghost same_kind = { same_map KU.archival.kind unit_kind KU.Archived.kind unit_kind 5
        KU.same_kind (itself unit_kind) };

    ghost lawful = { map_laws KU.archival.kind unit_kind 5 KU.lawful unit_laws };

    ghost archived = { tree_archived 5 KU.archival unit_archival KU.lawful unit_laws KU.archived
        (native_archived unit_form unit_faithful) (λ set. with_units set.keys) };

    ghost causes = { tree_causes 5 KU.archival unit_archival KU.lawful unit_laws KU.archived
        (native_archived unit_form unit_faithful) (λ set. with_units set.keys) KU.causes
        (native_causes unit_form) };
}

impl<W: Writer, A: Allocator + Copy, KU: Serialize<W, A> + Ord> Serialize<W, A> for BTreeSet<KU> {
    /// Serializes the tree of the keys, and returns the position of its root node.
    fn serialize(&self, alloc: A, writer: &mut W) -> Result<BTreeSetResolver, Fault<W::Error>>
        requires fitting { IsTrue (are_fitting KU.Archived.kind unit_kind 5) }
        ensures ok { IfOk result
            (Serialises (tree_archival 5 KU.archival unit_archival (λ set. with_units set.keys))
            self.now (W.state writer.old) (W.state writer.new)) }
        ensures built { IfOk result
            (IsBuiltOf KU.Archived.kind unit_kind 5 KU.archival unit_archival (W.state writer.old)
            (with_units self.now.keys) (W.state writer.new)) }
        ensures err { IfErr result (λ fault.
            IsUnserialised (tree_archival 5 KU.archival unit_archival (λ set. with_units set.keys))
            self.now (W.state writer.old) fault (W.state writer.new)) }
        ensures went { OnOk result (OnlyAppended (W.state writer.old) (W.state writer.new)) }
        ensures kept { OnErr result (BeginsWith (W.state writer.new) (W.state writer.old)) }
        // Where no entry asks for memory, a failed allocation leaves the writer as it was.
        ensures memory { NeverGrows KU.archival →
            IsErrOf result (Fault.Memory alloc_error) → W.state writer.new ≡ W.state writer.old }
    {
        ArchivedBTreeSet::<KU::Archived, DEFAULT_ENTRIES_PER_NODE>::serialize_from_ordered_iter(
            alloc,
            self.len(),
            self.iter(),
            writer,
        )
    }
}

/// Where what keys and values mean determines how they are archived, so it does for std's maps and sets of them: equal
/// ones are archived alike, wherever their parts lie in memory.
pub fn std_types_are_determined<KU: Archive + Ord, VU: Archive>()
    ensures maps { IsDetermined KU.archival → IsDetermined VU.archival →
        IsDetermined ⟦<BTreeMap<KU, VU> as Archive>⟧.archival }
    ensures sets { IsDetermined KU.archival → IsDetermined ⟦<BTreeSet<KU> as Archive>⟧.archival }
{}
