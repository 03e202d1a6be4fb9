//! Versions as keys and values: what it takes to join.
ghost use Rattle.std.specs.Prelude.{◌≡◌, ◌+◌, ◌≤◌, length, not, false, IsTrue, OnOk, OnErr, IfErr};
ghost use Rattle.examples.specs.Version.{is_version, no_version, bytes_of, version_of, version_by, version_kind, version_total};
ghost use Rattle.examples.specs.Version.{version_laws, version_archival, version_archived, version_causes};
ghost use Rattle.rkyv_btree_base.specs.Archiving.{IsUnresolved, itself};
ghost use Rattle.rkyv_btree_base.specs.Bytes.{bytes_at};
ghost use Rattle.rkyv_btree_base.specs.Refusing.{RefusesWhole};
ghost use Rattle.rkyv_btree_base.specs.laws.Refusing.{whole_refusals};
ghost use Rattle.rkyv_btree.specs.Native.{as_itself};
ghost use Rattle.rkyv_btree.specs.laws.Cuts.{order_compares};

use rkyv_btree::base::archive::{Archive, Serialize};
use rkyv_btree::base::check::{CheckBytes, Portable, Window, check_place};
use rkyv_btree::base::fault::{EntryFault, Fault, ResolveFault};
use rkyv_btree::base::place::{Place, Writer};
use rkyv_btree::base::refusal::Refusal;
use rkyv_btree::compare_native::CompareWith;
use rkyv_btree::deserialize::DeserializeNative;
use rkyv_btree::native::ToNative;
use rkyv_btree::view::View;
use std::cmp::Ordering;

/// A version. 0.0.0 is none: it refuses to be archived.
#[derive(Clone, Copy, Debug, PartialEq, Eq, PartialOrd, Ord, Hash)]
pub struct Version {
    pub major: u8,
    pub minor: u8,
    pub patch: u8,
}

impl Version {
    /// Whether it is 0.0.0.
    pub fn is_zero(self) -> bool
        ensures { result ≡ not (is_version self) }
    {
        self.major == 0 && self.minor == 0 && self.patch == 0
    }
}

/// The code of the fault that archiving 0.0.0 is.
pub const NO_VERSION: u32 = 7;

/// A version in three bytes: the major, the minor and the patch number. Three zeros are none.
pub struct ArchivedVersion;

impl Portable for ArchivedVersion {
    ghost kind = { version_kind };

    fn size() -> u32 {
        3
    }

    fn align() -> u32 {
        1
    }

    fn fits() -> bool {
        true
    }

    ghost laws = { version_laws };
}

impl CheckBytes for ArchivedVersion {
    ghost Refuses = { RefusesWhole version_kind };

    fn check(buf: &[u8], pos: u32, window: Window) -> Result<Window, Refusal> {
        check_place::<ArchivedVersion>(buf, pos)?;
        if read(buf, pos).is_zero() {
            return Err(Refusal::BadEntry { pos });
        }
        Ok(window)
    }

    ghost refusals = { λ _. whole_refusals version_laws };
}

/// The version of the three bytes at `pos`.
fn read(buf: &[u8], pos: u32) -> Version
    requires { pos + 3 ≤ length buf.now }
    ensures { result ≡ version_of (bytes_at buf.now pos 3) }
{
    let at = pos as usize;
    Version {
        major: buf[at],
        minor: buf[at + 1],
        patch: buf[at + 2],
    }
}

impl Archive for Version {
    type Archived = ArchivedVersion;

    type Resolver = ();

    ghost archival = { version_archival };

    /// Writes the three bytes. There is no error.
    fn resolve(&self, _resolver: (), out: Place<'_, ArchivedVersion>) -> Result<(), ResolveFault>
        requires { length out.bytes.now ≡ 3 }
        ensures ok { OnOk result (out.exit.1.0.now ≡ bytes_of self.now) }
        ensures err { IfErr result (IsUnresolved version_archival self.now tt out.entry.pos) }
    {
        let Place {
            pos: _,
            bytes,
            of: _,
        } = out;
        bytes.copy_from_slice(&[self.major, self.minor, self.patch]);
        Ok(())
    }

    ghost same_kind = { itself version_kind };

    ghost lawful = { version_laws };

    ghost archived = { version_archived };

    ghost causes = { version_causes };
}

impl<W: Writer, A: Drop> Serialize<W, A> for Version {
    /// Writes nothing, and refuses 0.0.0.
    fn serialize(&self, _alloc: A, writer: &mut W) -> Result<(), Fault<W::Error>>
        ensures ok { OnOk result (IsTrue (is_version self.now)) }
        ensures err { OnErr result (is_version self.now ≡ false) }
        ensures fault { IfErr result (λ fault. fault ≡ Fault.Entry no_version) }
        ensures unchanged { W.state writer.new ≡ W.state writer.old }
    {
        if self.is_zero() {
            return Err(Fault::Entry(EntryFault { code: NO_VERSION }));
        }
        Ok(())
    }
}

impl ToNative for ArchivedVersion {
    type Native = Version;

    ghost read_native = { version_kind.read };

    fn native(view: &View<'_, ArchivedVersion>) -> Version {
        read(view.buf, view.pos)
    }

    ghost read_as = { as_itself version_kind };
}

impl DeserializeNative for ArchivedVersion {}

// A version is looked up by another one, as `ToNative` has it, and by its three numbers.
impl CompareWith<(u8, u8, u8)> for ArchivedVersion {
    ghost compared_at = { λ numbers b at.
        version_kind.order (version_by numbers) (version_kind.read b at) };

    /// How the version of three numbers compares to the one that the view reads.
    fn compare_with(numbers: &(u8, u8, u8), view: &View<'_, ArchivedVersion>) -> Ordering {
        let (major, minor, patch) = *numbers;
        let version = Version {
            major,
            minor,
            patch,
        };
        version.cmp(&view.to_native())
    }

    ghost compares = { order_compares version_kind version_total version_by };
}
