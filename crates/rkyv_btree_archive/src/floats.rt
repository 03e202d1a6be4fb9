//! Floating-point numbers, archived in their own bytes.
ghost use Rattle.std.specs.Prelude.{◌≡◌, length, OnOk, IfErr};
ghost use Rattle.rkyv_btree_archive.specs.OrderedArchival.{ordered_archival};
ghost use Rattle.rkyv_btree_archive.specs.laws.OrderedArchived.{ordered_archived, ordered_causes};
ghost use Rattle.rkyv_btree_compound.specs.Floats.{f32_kind, f64_kind};
ghost use Rattle.rkyv_btree_writer.specs.Archiving.{IsUnresolved, itself};
ghost use Rattle.rkyv_btree_writing_laws.specs.Determined.{IsDetermined};

use crate::archive::{Archive, Native, Serialize};
pub use rkyv_btree_compound::floats::{ArchivedF32, ArchivedF64, ArchivedFloat};
use rkyv_btree_portable::check::Scalar;
use rkyv_btree_writer::fault::{Fault, ResolveFault};
use rkyv_btree_writer::place::{Place, Writer};
use std::cmp::OrderedFloat;

impl Native for f32 {
    type Plain = ArchivedF32;

    fn is_in(self) {}

    ghost same_plain = { itself f32_kind };
}

impl Native for f64 {
    type Plain = ArchivedF64;

    fn is_in(self) {}

    ghost same_plain = { itself f64_kind };
}

impl<T: Native> Archive for OrderedFloat<T> {
    type Archived = T::Plain;

    type Resolver = ();

    ghost archival = { ordered_archival T.Plain.form };

    /// Writes the own bytes of the number in it.
    fn resolve(&self, _resolver: (), out: Place<'_, T::Plain>) -> Result<(), ResolveFault>
        requires { length out.bytes.now ≡ T.Plain.form.plain.size }
        ensures ok { OnOk result (out.exit.1.0.now ≡ T.Plain.form.own_bytes self.now.0) }
        ensures err { IfErr result
            (IsUnresolved (ordered_archival T.Plain.form) self.now tt out.entry.pos) }
    {
        let Place {
            pos: _,
            bytes,
            of: _,
        } = out;
        T::Plain::write(self.0, bytes);
        Ok(())
    }

    ghost same_kind = { T.same_plain };

    ghost lawful = { T.Plain.faithful.lawful };

    ghost archived = { ordered_archived T.Plain.form T.Plain.faithful };

    ghost causes = { ordered_causes T.Plain.form };
}

impl<W: Writer, A: Drop, T: Native> Serialize<W, A> for OrderedFloat<T> {
    fn serialize(&self, _alloc: A, _writer: &mut W) -> Result<(), Fault<W::Error>> {
        self.0.is_in();
        Ok(())
    }
}

/// What a number in an `OrderedFloat` means determines how it is archived: a 0 and a -0 have different bytes, and all NaNs have
/// the same.
pub fn ordered_floats_are_determined<T: Native>()
    ensures { IsDetermined (ordered_archival T.Plain.form) }
{}
