//! Codes that exports return, and the cause of a refusal.
ghost use Rattle.std.specs.Prelude.{◌≡◌, ◌≤◌};
ghost use Rattle.rkyv_btree_ffi.specs.Codes.{refusal_for};

use rkyv_btree_portable::refusal::Refusal;

/// Success.
pub const OK: u32 = 0;

/// The map isn't open.
pub const NOT_OPEN: u32 = 16;

/// No type of maps has the number.
pub const BAD_TYPE: u32 = 17;

/// The map has no such key.
pub const NOT_FOUND: u32 = 18;

/// The numbers of the cursor are no place in the map.
pub const BAD_CURSOR: u32 = 19;

/// The values of the map aren't such numbers.
pub const BAD_VALUE: u32 = 20;

/// The lookup needs a part that no piece has.
pub const MISSING: u32 = 21;

/// More entries than 32 bits count.
pub const LENGTH_OVERFLOW: u32 = 32;

/// The archive would end past position 4294967295.
pub const POSITION_OVERFLOW: u32 = 33;

/// A pointer would reach over more than 2 GiB.
pub const OFFSET_OVERFLOW: u32 = 34;

/// An allocation failed.
pub const NO_MEMORY: u32 = 35;

/// An item is no key or value of the type.
pub const BAD_ITEM: u32 = 36;

/// The keys don't increase.
pub const NOT_INCREASING: u32 = 37;

/// The archive has more bytes than there is room for.
pub const NO_ROOM: u32 = 38;

/// The bytes begin with no header of a typed file.
pub const NO_HEADER: u32 = 48;

/// The header has another version.
pub const OTHER_VERSION: u32 = 49;

/// The header has the name of another type.
pub const OTHER_TYPE: u32 = 50;

/// Why bytes were refused. `code` is that of the export.
#[repr(C)]
#[derive(Drop)]
pub struct BtreeRefusal {
    /// The code.
    pub code: u32,
    /// A position in the buffer, or 0.
    pub at: i64,
    /// What was found there: a byte, a length, a number of entries, the index of an entry, or a version.
    pub found: u64,
    /// The most that is allowed there.
    pub allowed: u64,
}

/// Returns a refusal as C has it.
pub fn refusal_of(refusal: Refusal) -> BtreeRefusal
    ensures code { 1 ≤ result.code }
    ensures refusal { result ≡ refusal_for refusal }
{
    let (code, at, found, allowed) = match refusal {
        Refusal::OutOfRange { pos } => (1, pos, 0, 0),
        Refusal::Misaligned { pos } => (2, i64::from(pos), 0, 0),
        Refusal::BadKind { pos, byte } => (3, i64::from(pos), u64::from(byte), 1),
        Refusal::InvalidLength(fact) => (4, 0, fact.len, fact.maximum),
        Refusal::BadEntry { pos } => (5, i64::from(pos), 0, 0),
        Refusal::TooDeep { pos } => (6, pos, 0, 32),
        Refusal::EntriesLengthMismatch(fact) => (7, 0, fact.entries, fact.len),
        Refusal::TooLong => (8, 0, 0, 4294967295),
        Refusal::OutOfOrder { index } => (9, 0, index, 0),
    };
    BtreeRefusal {
        code,
        at,
        found,
        allowed,
    }
}
