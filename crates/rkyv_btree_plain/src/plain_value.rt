//! How values of a type of one's own lie in bytes.
ghost use Rattle.std.specs.Prelude.{◌≡◌, IsTrue, length};
ghost use Rattle.rkyv_btree_plain.specs.PlainValues.{PlainLayout, IsPlainLayout};

use std::fmt::Debug;
use std::hash::Hash;

/// A native type that is archived as a fixed number of bytes, as a struct of numbers. An `impl` gives the size, the alignment, and
/// how a value lies in its bytes. `ArchivedPlain<Self>` is its archived type, with all that keys and values of maps need.
pub trait PlainValue: Copy + Debug + Ord + Hash + Drop {
    /// The size, the alignment, and how a value lies in its bytes.
    ghost layout: { PlainLayout Self };

    /// The bytes of a value are so many, and mean it.
    ghost lawful: { IsPlainLayout layout };

    /// Returns the number of bytes, and the alignment: 1, 2, 4, 8 or 16.
    fn size_and_align() -> (u32, u32)
        ensures size { result.0 ≡ layout.size }
        ensures align { result.1 ≡ layout.align };

    /// Returns whether bytes mean a value.
    fn is_value(bytes: &[u8]) -> bool
        requires { length bytes.now ≡ layout.size }
        ensures { result ≡ layout.is_value bytes.now };

    /// Returns the value that bytes mean.
    fn from_bytes(bytes: &[u8]) -> Self
        requires size { length bytes.now ≡ layout.size }
        requires value { IsTrue (layout.is_value bytes.now) }
        ensures { result ≡ layout.value bytes.now };

    /// Writes the bytes of the value.
    fn write_bytes(self, bytes: &mut [u8])
        requires { length bytes.old ≡ layout.size }
        ensures { bytes.new ≡ layout.bytes self };

    /// Does nothing. Its contract says that each field is in the range of its type, which a law can't know.
    fn is_in(self)
        ensures { layout.IsIn self };
}
