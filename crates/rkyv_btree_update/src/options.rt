//! Options, made of archived ones.
ghost use Rattle.std.specs.Option.{option_cmp};
ghost use Rattle.std.specs.Prelude.{◌≡◌, ◌+◌, IsTrue, Option, option_map};
ghost use Rattle.rkyv_btree_compound.specs.Option.{option_kind};
ghost use Rattle.rkyv_btree_portable.specs.Views.{stands};
ghost use Rattle.rkyv_btree_update.specs.Natives.{option_lent};

use crate::compare_archived::CompareArchived;
use crate::from_archived::FromArchived;
use rkyv_btree_compound::option::ArchivedOption;
use rkyv_btree_compound::option_view::ViewOption;
use rkyv_btree_view::view::View;
use rkyv_btree_walk::shows::Shows;
use std::cmp::Ordering;

impl<X: CompareArchived> CompareArchived for Option<X> {
    ghost Shown = { Option X.Shown };

    ghost shown = { option_map X.shown };

    ghost order = { option_cmp X.order };

    ghost lent = { option_lent X.Archived.kind X.lent };

    /// Compares as an `Option` does: no value is less than each value.
    fn compare_at(&self, buf: &[u8], pos: u32) -> Ordering
        requires { IsTrue (stands (option_kind X.Archived.kind) buf.now pos) }
        ensures { result ≡ option_cmp X.order (option_map X.shown self.now)
            (option_lent X.Archived.kind X.lent buf.now pos) }
    {
        let option = View::<ArchivedOption<X::Archived>>::at(buf, pos);
        match option.as_option() {
            None => match self {
                None => Ordering::Equal,
                Some(_) => Ordering::Greater,
            },
            Some(archived) => match self {
                None => Ordering::Less,
                Some(value) => value.compare_at(archived.buf, archived.pos),
            },
        }
    }

    fn is_lent() {
        X::is_lent();
    }
}

impl<'a, X: FromArchived<'a>> FromArchived<'a> for Option<X> {
    fn from_archived(buf: &'a [u8], pos: u32) -> Option<X>
        requires { IsTrue (stands (option_kind X.Archived.kind) buf.now pos) }
        ensures { option_map X.shown result ≡ option_lent X.Archived.kind X.lent buf.now pos }
    {
        let option = View::<ArchivedOption<X::Archived>>::at(buf, pos);
        match option.as_option() {
            None => None,
            Some(archived) => Some(X::from_archived(archived.buf, archived.pos)),
        }
    }
}
