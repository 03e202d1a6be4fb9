//! Pairs, made of archived ones.
ghost use Rattle.std.specs.Ordering.{ordering_then};
ghost use Rattle.std.specs.Prelude.{◌≡◌, ◌+◌, IsTrue};
ghost use Rattle.rkyv_btree_portable.specs.Entry.{entry_kind, value_offset};
ghost use Rattle.rkyv_btree_portable.specs.Views.{stands};

use crate::compare_archived::CompareArchived;
use crate::from_archived::FromArchived;
use rkyv_btree_archive::archive::Archive;
use rkyv_btree_portable::entry::Entry;
use rkyv_btree_view::view::View;
use rkyv_btree_walk::shows::Shows;
use std::cmp::Ordering;

impl<X: CompareArchived, Y: CompareArchived> CompareArchived for (X, Y) {
    ghost Shown = { X.Shown × Y.Shown };

    ghost shown = { λ pair. (X.shown pair.0, Y.shown pair.1) };

    ghost order = { λ x y. ordering_then (X.order x.0 y.0) (Y.order x.1 y.1) };

    ghost lent = { λ buf at. (
      X.lent buf at,
      Y.lent buf (at + value_offset X.Archived.kind Y.Archived.kind),
    ) };

    fn compare_at(&self, buf: &[u8], pos: u32) -> Ordering
        requires { IsTrue (stands (entry_kind X.Archived.kind Y.Archived.kind) buf.now pos) }
        ensures { result ≡ ordering_then (X.order (X.shown self.now.0) (X.lent buf.now pos))
            (Y.order (Y.shown self.now.1)
            (Y.lent buf.now (pos + value_offset X.Archived.kind Y.Archived.kind))) }
    {
        let pair = View::<Entry<X::Archived, Y::Archived>>::at(buf, pos);
        let (first, second) = (pair.key(), pair.value());
        match self.0.compare_at(first.buf, first.pos) {
            Ordering::Equal => self.1.compare_at(second.buf, second.pos),
            unequal => unequal,
        }
    }

    fn is_lent() {
        X::is_lent();
        Y::is_lent();
    }
}

impl<'a, X: FromArchived<'a>, Y: FromArchived<'a>> FromArchived<'a> for (X, Y) {
    fn from_archived(buf: &'a [u8], pos: u32) -> (X, Y)
        requires { IsTrue (stands (entry_kind X.Archived.kind Y.Archived.kind) buf.now pos) }
        ensures { ◌≡◌ {A = X.Shown × Y.Shown} (X.shown result.0, Y.shown result.1)
            (X.lent buf.now pos, Y.lent buf.now (pos + value_offset X.Archived.kind Y.Archived.kind)) }
    {
        let pair = View::<Entry<X::Archived, Y::Archived>>::at(buf, pos);
        let (first, second) = (pair.key(), pair.value());
        (
            X::from_archived(first.buf, first.pos),
            Y::from_archived(second.buf, second.pos),
        )
    }
}
