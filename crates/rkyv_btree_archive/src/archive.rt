//! Values that can be archived.
ghost use Rattle.std.specs.Prelude.{◌≡◌, ◌+◌, ◌≤◌, length, IsTrue, OnOk, OnErr, IfOk, IfErr};
ghost use Rattle.rkyv_btree_writing_laws.specs.Determined.{IsDetermined};
ghost use Rattle.rkyv_btree_writing_laws.specs.Kept.{OnlyAppended};
ghost use Rattle.rkyv_btree_portable.specs.Kind.{IsLawful};
ghost use Rattle.rkyv_btree_portable.specs.Plain.{plain_kind};
ghost use Rattle.rkyv_btree_portable.specs.Scalars.{u8_kind, u16_kind, u32_kind, u64_kind, i8_kind, i16_kind, i32_kind, i64_kind};
ghost use Rattle.rkyv_btree_portable.specs.Scalars.{bool_kind, unit_kind, char_kind, non_zero_kind};
ghost use Rattle.rkyv_btree_writer.proofs.Archiving.{native_archived, native_causes};
ghost use Rattle.rkyv_btree_writer.specs.Causes.{HasCauses};
ghost use Rattle.rkyv_btree_writer.specs.Archiving.{Archival, BeginsWith, Matches, IsArchived, IsUnresolved, IsUnserialised};
ghost use Rattle.rkyv_btree_writer.specs.Archiving.{Serialises, itself, native_archival};

use rkyv_btree_portable::check::{Portable, Scalar};
use rkyv_btree_portable::numbers::{ArchivedU16, ArchivedU32, ArchivedU64};
use rkyv_btree_portable::scalars::{ArchivedChar, ArchivedNonZeroU32};
use rkyv_btree_portable::signed::{ArchivedI16, ArchivedI32, ArchivedI64};
use rkyv_btree_writer::fault::{Fault, ResolveFault};
use rkyv_btree_writer::place::{Place, Writer};
use std::marker::PhantomData;
use std::num::NonZeroU32;

/// A value that can be archived.
pub trait Archive {
    /// The archived representation of a value.
    type Archived: Portable;

    /// The state that `serialize` passes to `resolve`.
    type Resolver: Drop;

    /// What archiving does.
    ghost archival: { Archival Self Self.Resolver };

    /// Writes the own bytes, whatever the place held. It has as many bytes as the archived type, and ends at position
    /// 4294967295 at most. After an error its bytes may be any.
    fn resolve(
        &self,
        resolver: Self::Resolver,
        out: Place<'_, Self::Archived>,
    ) -> Result<(), ResolveFault>
        requires fitting { IsTrue Self.Archived.kind.is_fitting }
        requires size { length out.bytes.now ≡ Self.Archived.kind.size }
        requires end { out.pos + Self.Archived.kind.size ≤ 4294967295 }
        ensures ok { OnOk result
            (archival.Resolves self.now resolver out.entry.pos out.exit.1.0.now) }
        ensures err { IfErr result (IsUnresolved archival self.now resolver out.entry.pos) };

    ghost same_kind: { Matches archival.kind Self.Archived.kind };

    ghost lawful: { IsLawful archival.kind };

    ghost archived: { IsArchived archival };

    // A type can't make up why a value isn't serialised or resolved.
    ghost causes: { HasCauses archival };
}

/// The archived type of `T`: `Archived<BTreeMap<String, u32>>` is what `to_archive` writes of such a map.
pub type Archived<T> = <T as Archive>::Archived;

/// A value that a writer takes, with what its own bytes lead to.
pub trait Serialize<W: Writer, A>: Archive {
    /// Makes the writes that come before its own bytes. After an error the writer's contents begin with the old ones.
    fn serialize(&self, alloc: A, writer: &mut W) -> Result<Self::Resolver, Fault<W::Error>>
        requires fitting { IsTrue Self.Archived.kind.is_fitting }
        ensures ok { IfOk result
            (Serialises Self.archival self.now (W.state writer.old) (W.state writer.new)) }
        ensures err { IfErr result (λ fault.
            IsUnserialised Self.archival self.now (W.state writer.old) fault
            (W.state writer.new)) }
        // On success no write has failed. After any error the contents begin with the old ones.
        ensures went { OnOk result (OnlyAppended (W.state writer.old) (W.state writer.new)) }
        ensures kept { OnErr result (BeginsWith (W.state writer.new) (W.state writer.old)) };
}

/// Writes the own bytes of a serialized value at a position.
///
/// # Errors
///
/// Those of the type's `resolve`. All bytes are unchanged then.
pub fn resolve_into<T: Archive>(
    value: &T,
    resolver: T::Resolver,
    pos: u32,
    bytes: &mut [u8],
) -> Result<(), ResolveFault>
    requires fitting { IsTrue T.Archived.kind.is_fitting }
    requires size { length bytes.old ≡ T.Archived.kind.size }
    requires end { pos + T.Archived.kind.size ≤ 4294967295 }
    ensures ok { OnOk result (T.archival.Resolves value.now resolver pos bytes.new) }
    ensures err { IfErr result (IsUnresolved T.archival value.now resolver pos) }
{
    let out = Place {
        pos,
        bytes,
        of: PhantomData,
    };
    value.resolve(resolver, out)
}

/// A native value that lies in its own bytes alone when it is archived.
pub trait Native: Copy + Drop {
    /// Its archived representation.
    type Plain: Scalar<Native = Self> + Portable;

    /// Does nothing, but its contract says that the value is one of its type: that a `u32` is below 2 to the 32nd, say. A
    /// proof knows that where the type is named, and not where it may be any. No law can say it, since in a law a `u32`
    /// is any number.
    fn is_in(self)
        ensures { Self.Plain.form.IsIn self };

    ghost same_plain: { Matches (plain_kind Self.Plain.form.plain) Self.Plain.kind };
}

impl<T: Native> Archive for T {
    type Archived = T::Plain;

    type Resolver = ();

    ghost archival = { native_archival T.Plain.form };

    fn resolve(&self, _resolver: (), out: Place<'_, T::Plain>) -> Result<(), ResolveFault>
        requires { length out.bytes.now ≡ T.Plain.form.plain.size }
        ensures ok { OnOk result (out.exit.1.0.now ≡ T.Plain.form.own_bytes self.now) }
        ensures err { IfErr result
            (IsUnresolved (native_archival T.Plain.form) self.now tt out.entry.pos) }
    {
        let Place {
            pos: _,
            bytes,
            of: _,
        } = out;
        T::Plain::write(*self, bytes);
        Ok(())
    }

    ghost same_kind = { T.same_plain };

    ghost lawful = { T.Plain.faithful.lawful };

    ghost archived = { native_archived T.Plain.form T.Plain.faithful };

    ghost causes = { native_causes T.Plain.form };
}

impl<W: Writer, A: Drop, T: Native> Serialize<W, A> for T {
    fn serialize(&self, _alloc: A, _writer: &mut W) -> Result<(), Fault<W::Error>> {
        self.is_in();
        Ok(())
    }
}

/// What a native value means determines how it is archived.
pub fn natives_are_determined<T: Native>()
    ensures { IsDetermined (native_archival T.Plain.form) }
{}

impl Native for u8 {
    type Plain = u8;

    fn is_in(self) {}

    ghost same_plain = { itself u8_kind };
}

impl Native for u16 {
    type Plain = ArchivedU16;

    fn is_in(self) {}

    ghost same_plain = { itself u16_kind };
}

impl Native for u32 {
    type Plain = ArchivedU32;

    fn is_in(self) {}

    ghost same_plain = { itself u32_kind };
}

impl Native for u64 {
    type Plain = ArchivedU64;

    fn is_in(self) {}

    ghost same_plain = { itself u64_kind };
}

impl Native for bool {
    type Plain = bool;

    fn is_in(self) {}

    ghost same_plain = { itself bool_kind };
}

impl Native for i8 {
    type Plain = i8;

    fn is_in(self) {}

    ghost same_plain = { itself i8_kind };
}

impl Native for i16 {
    type Plain = ArchivedI16;

    fn is_in(self) {}

    ghost same_plain = { itself i16_kind };
}

impl Native for i32 {
    type Plain = ArchivedI32;

    fn is_in(self) {}

    ghost same_plain = { itself i32_kind };
}

impl Native for i64 {
    type Plain = ArchivedI64;

    fn is_in(self) {}

    ghost same_plain = { itself i64_kind };
}

impl Native for () {
    type Plain = ();

    fn is_in(self) {}

    ghost same_plain = { itself unit_kind };
}

impl Native for char {
    type Plain = ArchivedChar;

    fn is_in(self) {}

    ghost same_plain = { itself char_kind };
}

impl Native for NonZeroU32 {
    type Plain = ArchivedNonZeroU32;

    fn is_in(self) {}

    ghost same_plain = { itself non_zero_kind };
}
