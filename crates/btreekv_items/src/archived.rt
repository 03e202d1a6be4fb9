//! The archived types of items, for calls at one of them.
pub use rkyv_btree_compound::option::ArchivedOption;
pub use rkyv_btree_compound::tuple::ArchivedTuple3;
pub use rkyv_btree_compound::wide::{ArchivedI128, ArchivedU128};
pub use rkyv_btree_portable::byte_string::ArchivedBytes;
pub use rkyv_btree_portable::entry::Entry;
pub use rkyv_btree_portable::numbers::{ArchivedU16, ArchivedU32, ArchivedU64};
pub use rkyv_btree_portable::scalars::ArchivedChar;
pub use rkyv_btree_portable::signed::{ArchivedI16, ArchivedI32, ArchivedI64};
pub use rkyv_btree_portable::text::ArchivedText;

/// An archived `Option<u32>`.
pub type OptionU32 = ArchivedOption<ArchivedU32>;

/// An archived `Option<u64>`.
pub type OptionU64 = ArchivedOption<ArchivedU64>;

/// An archived `Option<i64>`.
pub type OptionI64 = ArchivedOption<ArchivedI64>;

/// An archived pair of two `u32`.
pub type PairU32U32 = Entry<ArchivedU32, ArchivedU32>;

/// An archived pair of two `u64`.
pub type PairU64U64 = Entry<ArchivedU64, ArchivedU64>;

/// An archived pair of a `u32` and a text.
pub type PairU32Text = Entry<ArchivedU32, ArchivedText>;

/// An archived triple of three `u32`.
pub type TripleU32 = ArchivedTuple3<ArchivedU32, ArchivedU32, ArchivedU32>;

/// An archived triple of three `u64`.
pub type TripleU64 = ArchivedTuple3<ArchivedU64, ArchivedU64, ArchivedU64>;
