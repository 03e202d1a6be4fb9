//! One list built by both builders.
ghost use Rattle.std.specs.Prelude.{◌≡◌, length, IfOk, OnOk, IfErr, IsTrue};
ghost use Rattle.std.specs.Iterator.{YieldsFirstBy, item_count};
ghost use Rattle.bench_recursion.specs.Both.{EitherFails};
ghost use Rattle.rkyv_btree_format.specs.Layout.{are_fitting};
ghost use Rattle.rkyv_btree_writing_laws.specs.Alike.{AppendAlike};
ghost use Rattle.rkyv_btree_writing_laws.specs.Determined.{IsDetermined};
ghost use Rattle.rkyv_btree_writer.specs.Writing.{position};

use crate::build::serialize_recursively;
use rkyv_btree_archive::archive::{Archive, Serialize};
use rkyv_btree_archive::build::{BTreeMapResolver, trees_are_determined};
use rkyv_btree_archive::build_map::BuildMap;
use rkyv_btree_portable::check::Portable;
use rkyv_btree_types::map::ArchivedBTreeMap;
use rkyv_btree_writer::fault::Fault;
use rkyv_btree_writer::place::Writer;
use std::alloc::Allocator;

/// The entries of a slice, in order, each as references to its key and its value.
#[derive(Drop)]
pub struct Entries<'x, KU, VU> {
    pub rest: &'x [(KU, VU)],
}

impl<'x, KU, VU> Iterator for Entries<'x, KU, VU> {
    type Item = (&'x KU, &'x VU);

    ghost next_gives = { YieldsFirstBy (λ e. (e.0.now, e.1.now)) (λ s. s.rest.now) };

    ghost remaining = { item_count (λ s. s.rest.now) };

    fn next(&mut self) -> Option<(&'x KU, &'x VU)> {
        let (first, rest) = self.rest.split_first()?;
        self.rest = rest;
        Some((&first.0, &first.1))
    }
}

/// Serializes the tree of the entries twice, by the library's builder and by recursion, each to a writer of its own at the same
/// position. Returns the positions of both root nodes.
///
/// Both have one position, and both writers got the same bytes, where what keys and values mean determines with positions
/// how they are archived.
pub fn build_by_both<'x, KU, VU, K, V, W, A, const E: usize>(
    alloc: A,
    entries: &'x [(KU, VU)],
    one: &mut W,
    other: &mut W,
) -> Result<(BTreeMapResolver, u32), Fault<W::Error>>
where
    KU: Archive<Archived = K> + Serialize<W, A> + 'x,
    VU: Archive<Archived = V> + Serialize<W, A> + 'x,
    K: Portable,
    V: Portable,
    W: Writer,
    A: Allocator + Copy,
    requires fitting { IsTrue (are_fitting K.kind V.kind E) }
    requires at { position (W.state one.old) ≡ position (W.state other.old) }
    ensures root { IsDetermined KU.archival → IsDetermined VU.archival →
        IfOk result (λ roots. roots.0 ≡ roots.1) }
    ensures bytes { IsDetermined KU.archival → IsDetermined VU.archival →
        OnOk result (AppendAlike (W.state one.old) (W.state one.new) (W.state other.old)
        (W.state other.new)) }
    // The library's builder failed and the other writer is unchanged, or it built the tree and the second builder failed.
    ensures err { IfErr result
        (EitherFails K.kind V.kind E KU.archival VU.archival
        ⟦<Entries<'x, KU, VU> as Iterator>⟧.next_gives (record { rest = entries.entry })
        (length entries.now) W.state one.old one.new other.old other.new) }
{
    trees_are_determined::<KU, VU, E>();
    let items = Entries { rest: entries };
    let root = ArchivedBTreeMap::<K, V, E>::serialize_from_ordered_iter::<
        &KU,
        &VU,
        KU,
        VU,
        W,
        A,
        _,
    >(alloc, entries.len(), items, one)?;
    let items = Entries { rest: entries };
    let place = serialize_recursively::<KU, VU, K, V, W, A, _, E>(
        alloc,
        entries.len(),
        items,
        other,
    )?;
    Ok((root, place))
}
