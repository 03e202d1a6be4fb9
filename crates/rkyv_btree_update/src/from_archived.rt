//! Native values that are made of archived ones without an allocation.
ghost use Rattle.std.specs.Prelude.{◌≡◌, IsTrue};
ghost use Rattle.rkyv_btree_portable.specs.Views.{stands};

use crate::compare_archived::CompareArchived;

/// A value that is made of an archived one, which it may read in the buffer. Nothing is allocated. When it is archived
/// again, it means what was read.
pub trait FromArchived<'a>: CompareArchived {
    /// Returns the native value of the archived one at position `pos` of `buf`.
    fn from_archived(buf: &'a [u8], pos: u32) -> Self
        requires { IsTrue (stands Self.Archived.kind buf.now pos) }
        ensures { Self.shown result ≡ Self.lent buf.now pos };
}
