//! Bundles of the traits that keys and values of maps need.
use crate::native_key::DeserializeKey;
use rkyv_btree_portable::check::CheckBytes;
use rkyv_btree_portable::entry::Entry;
use rkyv_btree_portable::numbers::{ArchivedU16, ArchivedU32, ArchivedU64};
use rkyv_btree_portable::scalars::{ArchivedChar, ArchivedNonZeroU32};
use rkyv_btree_portable::signed::{ArchivedI16, ArchivedI32, ArchivedI64};
use rkyv_btree_portable::text::ArchivedText;
use rkyv_btree_view::compare::{ViewHash, ViewOrd};
use rkyv_btree_view::debug::ViewDebug;
use std::fmt::Debug;
use std::hash::Hash;
use std::num::NonZeroU32;

/// An archived type of keys or values: its bytes are checked, its views are ordered, hashed and shown, and native values
/// are made of them.
pub trait EntryType: CheckBytes
    + ViewOrd
    + ViewHash
    + ViewDebug
    + DeserializeKey<<Self as EntryType>::Owned> {
    /// The type of the native values.
    type Owned: Ord + Hash + Debug + Drop;
}

impl EntryType for u8 {
    type Owned = u8;
}

impl EntryType for i8 {
    type Owned = i8;
}

impl EntryType for bool {
    type Owned = bool;
}

impl EntryType for () {
    type Owned = ();
}

impl EntryType for ArchivedU16 {
    type Owned = u16;
}

impl EntryType for ArchivedI16 {
    type Owned = i16;
}

impl EntryType for ArchivedU32 {
    type Owned = u32;
}

impl EntryType for ArchivedI32 {
    type Owned = i32;
}

impl EntryType for ArchivedU64 {
    type Owned = u64;
}

impl EntryType for ArchivedI64 {
    type Owned = i64;
}

impl EntryType for ArchivedChar {
    type Owned = char;
}

impl EntryType for ArchivedNonZeroU32 {
    type Owned = NonZeroU32;
}

impl EntryType for ArchivedText {
    type Owned = String;
}

impl<K: EntryType, V: EntryType> EntryType for Entry<K, V> {
    type Owned = (K::Owned, V::Owned);
}
