//! Writers, places for archived values, and relative pointers.
ghost use Rattle.std.specs.Prelude.{◌≡◌, ◌≢◌, ◌+◌, ◌≤◌, ◌<◌, ◌^◌, ◌↔◌, [], length, replicate, IsOk, OnOk, OnErr, IfErr, IsTrue};
ghost use Rattle.rkyv_btree_writer.specs.Pointers.{FitsOffset, pointer, no_pointer};
ghost use Rattle.rkyv_btree_portable.specs.Scalars.{i32_kind};
ghost use Rattle.rkyv_btree_portable.specs.laws.Scalars.{i32_laws};
ghost use Rattle.rkyv_btree_writer.specs.Writing.{Writing, position, Appended, Failed};

use crate::fault::ResolveFault;
use rkyv_btree_portable::check::Portable;
use std::alloc::{AllocError, Global};
use std::fmt::Debug;
use std::marker::{Model, PhantomData};

/// Takes bytes one after another. Its contract names the position of its first byte, its contents, and how many
/// writes have failed (64 bits, wrapping).
pub trait Writer {
    type Error: Debug + Drop;

    ghost state: { Self → Writing };

    /// Returns the position of the next byte.
    fn pos(&self) -> u64
        ensures { result ≡ position (state self.now) };

    /// Appends the bytes. After an error some of the first of them may have been appended, and one more failure is counted.
    fn write(&mut self, bytes: &[u8]) -> Result<(), Self::Error>
        ensures ok { OnOk result (Appended (state self.old) bytes.now (state self.new)) }
        ensures err { OnErr result (Failed (state self.old) bytes.now (state self.new)) };
}

/// A writer into memory.
#[derive(Drop)]
pub struct VecWriter {
    base: u64,
    bytes: Vec<u8>,
    failures: u64,
}

impl Model for VecWriter {
    ghost Value = { Writing };

    ghost view = { λ w. record { base = w.base; contents = w.bytes.items; failures = w.failures } };

    ghost invariant = { λ w. w.base < 2 ^ 63 };
}

impl VecWriter {
    /// Returns an empty writer whose first byte has position 0.
    pub fn new(alloc: Global) -> VecWriter
        ensures { result ≡ record { base = 0; contents = []; failures = 0 } }
    {
        VecWriter {
            base: 0,
            bytes: Vec::new(alloc),
            failures: 0,
        }
    }

    /// Returns an empty writer whose first byte has position `base`.
    pub fn with_base(alloc: Global, base: u64) -> VecWriter
        requires { base ≤ 9223372036854775807 }
        ensures { result ≡ record { base = base; contents = []; failures = 0 } }
    {
        VecWriter {
            base,
            bytes: Vec::new(alloc),
            failures: 0,
        }
    }

    /// Returns a writer that appends to these bytes, the first of which has position 0.
    pub fn from_vec(bytes: Vec<u8>) -> VecWriter
        ensures { result ≡ record { base = 0; contents = bytes.items; failures = 0 } }
    {
        VecWriter {
            base: 0,
            bytes,
            failures: 0,
        }
    }

    /// Returns the bytes that it was made from, and then those that were written.
    pub fn bytes(&self) -> &[u8]
        ensures { result.now ≡ self.now.contents }
    {
        self.bytes.as_slice()
    }

    /// Returns those bytes as a vector.
    pub fn into_vec(self) -> Vec<u8>
        ensures { result.items ≡ self.contents }
    {
        self.bytes
    }
}

impl Writer for VecWriter {
    type Error = AllocError;

    ghost state = { λ w. w };

    fn pos(&self) -> u64 {
        self.base + self.bytes.len() as u64
    }

    /// Appends the bytes. After an error the contents are unchanged.
    fn write(&mut self, bytes: &[u8]) -> Result<(), AllocError>
        ensures ok { OnOk result (Appended self.old bytes.now self.new) }
        ensures err { OnErr result (Failed self.old bytes.now self.new) }
        ensures unchanged { OnErr result (self.new.contents ≡ self.old.contents) }
    {
        match self.bytes.extend_from_slice(bytes) {
            Ok(()) => Ok(()),
            Err(error) => {
                self.failures = self.failures.wrapping_add(1);
                Err(error)
            }
        }
    }
}

/// A position, and the bytes there, to be written.
pub struct Place<'p, T> {
    pub pos: u32,
    pub bytes: &'p mut [u8],
    pub of: PhantomData<T>,
}

impl<'p, T: Portable> Place<'p, T> {
    /// Returns the place at a position, of as many bytes as the type has. The bytes become zero.
    pub fn new(pos: u32, bytes: &'p mut [u8]) -> Place<'p, T>
        requires size { length bytes.old ≡ T.kind.size }
        requires end { pos + T.kind.size ≤ 4294967295 }
        ensures pos { result.pos ≡ pos }
        ensures same_reference { result.bytes.ghost_name ≡ bytes.entry.ghost_name }
        ensures zero { result.bytes.now ≡ replicate T.kind.size 0 }
    {
        bytes.fill(0);
        Place {
            pos,
            bytes,
            of: PhantomData,
        }
    }
}

/// A relative pointer: the signed offset of its target from its own position. Offset 1 means that there is no target.
pub struct RelPtr;

impl Portable for RelPtr {
    ghost kind = { i32_kind };

    fn size() -> u32 {
        4
    }

    fn align() -> u32 {
        4
    }

    fn fits() -> bool {
        true
    }

    ghost laws = { i32_laws };
}

impl RelPtr {
    /// Writes the offset of `target` from the place.
    ///
    /// # Errors
    ///
    /// `OffsetOverflow` if 32 bits don't hold the offset. The place is unchanged then.
    pub fn emplace(target: u32, out: Place<'_, RelPtr>) -> Result<(), ResolveFault>
        requires size { length out.bytes.now ≡ 4 }
        requires absent { target ≢ out.pos + 1 }
        ensures ok { OnOk result (out.exit.1.0.now ≡ pointer out.entry.pos target) }
        ensures fits { IsOk result ↔ FitsOffset out.entry.pos target }
        ensures fault { IfErr result (λ fault. fault ≡ ResolveFault.OffsetOverflow) }
        ensures err { OnErr result (out.exit.1.0.now ≡ out.entry.bytes.now) }
    {
        let Place { pos, bytes, of: _ } = out;
        write_offset(pos, target, bytes)
    }

    /// Writes that there is no target.
    pub fn emplace_invalid(out: Place<'_, RelPtr>)
        requires { length out.bytes.now ≡ 4 }
        ensures { out.exit.1.0.now ≡ no_pointer }
    {
        let Place {
            pos: _,
            bytes,
            of: _,
        } = out;
        bytes.copy_from_slice(&[1, 0, 0, 0]);
    }
}

/// Writes the offset of `target` from `pos`.
///
/// # Errors
///
/// `OffsetOverflow` if 32 bits don't hold the offset. The bytes are unchanged then.
pub fn write_offset(pos: u32, target: u32, bytes: &mut [u8]) -> Result<(), ResolveFault>
    requires { length bytes.old ≡ 4 }
    ensures ok { OnOk result (bytes.new ≡ pointer pos target) }
    ensures fits { IsOk result ↔ FitsOffset pos target }
    ensures fault { IfErr result (λ fault. fault ≡ ResolveFault.OffsetOverflow) }
    ensures err { OnErr result (bytes.new ≡ bytes.old) }
{
    let fits = if target < pos {
        pos - target <= 0x8000_0000
    } else {
        target - pos < 0x8000_0000
    };
    if !fits {
        return Err(ResolveFault::OffsetOverflow);
    }
    bytes.copy_from_slice(&target.wrapping_sub(pos).to_le_bytes());
    Ok(())
}
