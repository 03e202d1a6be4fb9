//! Keys and values that C hands in.
ghost use Rattle.std.specs.Prelude.{◌≡◌, ◌<◌, ℕ, List, IfSome, None};
ghost use Rattle.rkyv_btree_ffi.specs.Columns.{IsCell as IsCellOf, IsNativeCell};
ghost use Rattle.rkyv_btree_ffi.specs.Items.{IsOfType, IsNative};
ghost use Rattle.rkyv_btree_ffi.specs.declared.column.BtreeColumn.{BtreeColumn as Column};
ghost use Rattle.rkyv_btree_ffi.specs.declared.item.BtreeItem.{BtreeItem};
ghost use Rattle.rkyv_btree_ffi.specs.declared.map_type.ItemType.TheVariants.{U32, U64, I64, Text, Bytes, Empty};
ghost use Rattle.rkyv_btree_ffi.specs.mirror.Natives.{IsOfBoth, IsRow};

use crate::column::{BtreeColumn, bytes_at, narrow_at, text_at, wide_at};
use crate::item::{BtreeEntry, BtreeItem, Shown};
use rkyv_btree_archive::archive::{Archive, Serialize};
use rkyv_btree_portable::byte_string::ArchivedBytes;
use rkyv_btree_portable::numbers::{ArchivedU32, ArchivedU64};
use rkyv_btree_portable::signed::ArchivedI64;
use rkyv_btree_portable::text::ArchivedText;
use rkyv_btree_writer::place::VecWriter;
use std::alloc::Global;
use std::str::from_utf8;

/// A type of keys and values that C gives.
pub trait Given<'t>: Shown {
    /// The native type. A text is borrowed, and so are bytes.
    type Native: Archive<Archived = Self> + Serialize<VecWriter, Global> + Ord + Drop;

    /// An item, whose text is in a buffer, is of the type.
    ghost IsItem: { List ℕ → BtreeItem → Type 0 };

    /// The item means a native value.
    ghost Gives: { List ℕ → BtreeItem → Self.Native → Type 0 };

    /// A column has a key or a value of the type at an index.
    ghost IsCell: { Column → ℕ → Type 0 };

    /// It means a native value.
    ghost CellGives: { Column → ℕ → Self.Native → Type 0 };

    /// Returns the native value of an item, whose text is in `texts`, or `None` if the item isn't of the type.
    fn given(texts: &'t [u8], item: &BtreeItem) -> Option<Self::Native>
        ensures item { IfSome result (λ _. IsItem texts.now item.now) }
        ensures value { IfSome result (Gives texts.now item.now) }
        ensures none { result ≡ None → IsItem texts.now item.now → ⊥ };

    /// Returns the native value at an index of a column, or `None` if the column has none of the type there.
    fn cell(column: &BtreeColumn<'t>, index: usize) -> Option<Self::Native>
        requires { index < 18446744073709551615 }
        ensures cell { IfSome result (λ _. IsCell column.now index) }
        ensures value { IfSome result (CellGives column.now index) }
        ensures none { result ≡ None → IsCell column.now index → ⊥ };
}

impl<'t> Given<'t> for ArchivedU32 {
    type Native = u32;

    ghost IsItem = { IsOfType U32 };

    ghost Gives = { IsNative U32 };

    ghost IsCell = { IsCellOf U32 };

    ghost CellGives = { IsNativeCell U32 };

    fn given(_texts: &'t [u8], item: &BtreeItem) -> Option<u32> {
        match u32::try_from(item.number) {
            Ok(number) => Some(number),
            Err(_) => None,
        }
    }

    fn cell(column: &BtreeColumn<'t>, index: usize) -> Option<u32> {
        narrow_at(column.buf, index)
    }
}

impl<'t> Given<'t> for ArchivedU64 {
    type Native = u64;

    ghost IsItem = { IsOfType U64 };

    ghost Gives = { IsNative U64 };

    ghost IsCell = { IsCellOf U64 };

    ghost CellGives = { IsNativeCell U64 };

    fn given(_texts: &'t [u8], item: &BtreeItem) -> Option<u64> {
        Some(item.number)
    }

    fn cell(column: &BtreeColumn<'t>, index: usize) -> Option<u64> {
        wide_at(column.buf, index)
    }
}

impl<'t> Given<'t> for ArchivedI64 {
    type Native = i64;

    ghost IsItem = { IsOfType I64 };

    ghost Gives = { IsNative I64 };

    ghost IsCell = { IsCellOf I64 };

    ghost CellGives = { IsNativeCell I64 };

    fn given(_texts: &'t [u8], item: &BtreeItem) -> Option<i64> {
        Some(item.number.cast_signed())
    }

    fn cell(column: &BtreeColumn<'t>, index: usize) -> Option<i64> {
        match wide_at(column.buf, index) {
            Some(number) => Some(number.cast_signed()),
            None => None,
        }
    }
}

impl<'t> Given<'t> for ArchivedBytes {
    type Native = &'t [u8];

    ghost IsItem = { IsOfType Bytes };

    ghost Gives = { IsNative Bytes };

    ghost IsCell = { IsCellOf Bytes };

    ghost CellGives = { IsNativeCell Bytes };

    fn given(texts: &'t [u8], item: &BtreeItem) -> Option<&'t [u8]> {
        let start = item.start as usize;
        let end = start + item.len as usize;
        if end > texts.len() {
            return None;
        }
        Some(&texts[start..end])
    }

    fn cell(column: &BtreeColumn<'t>, index: usize) -> Option<&'t [u8]> {
        bytes_at(column, index)
    }
}

// What is given as the value of an entry of a set isn't read.
impl<'t> Given<'t> for () {
    type Native = ();

    ghost IsItem = { IsOfType Empty };

    ghost Gives = { IsNative Empty };

    ghost IsCell = { IsCellOf Empty };

    ghost CellGives = { IsNativeCell Empty };

    fn given(_texts: &'t [u8], _item: &BtreeItem) -> Option<()> {
        Some(())
    }

    fn cell(_column: &BtreeColumn<'t>, _index: usize) -> Option<()> {
        Some(())
    }
}

impl<'t> Given<'t> for ArchivedText {
    type Native = &'t str;

    ghost IsItem = { IsOfType Text };

    ghost Gives = { IsNative Text };

    ghost IsCell = { IsCellOf Text };

    ghost CellGives = { IsNativeCell Text };

    fn given(texts: &'t [u8], item: &BtreeItem) -> Option<&'t str> {
        let start = item.start as usize;
        let end = start + item.len as usize;
        if end > texts.len() {
            return None;
        }
        match from_utf8(&texts[start..end]) {
            Ok(text) => Some(text),
            Err(_) => None,
        }
    }

    fn cell(column: &BtreeColumn<'t>, index: usize) -> Option<&'t str> {
        text_at(column, index)
    }
}

/// Returns the native key and the native value of an entry, or `None` if one isn't of its type.
pub(crate) fn native<'t, K: Given<'t>, V: Given<'t>>(
    texts: &'t [u8],
    entry: &BtreeEntry,
) -> Option<(K::Native, V::Native)>
    ensures entry { IfSome result (λ _. IsOfBoth K.IsItem V.IsItem texts.now entry.now) }
    ensures key { IfSome result (λ pair. K.Gives texts.now entry.now.key pair.0) }
    ensures value { IfSome result (λ pair. V.Gives texts.now entry.now.value pair.1) }
    ensures none { result ≡ None → IsOfBoth K.IsItem V.IsItem texts.now entry.now → ⊥ }
{
    let key = K::given(texts, &entry.key)?;
    let value = V::given(texts, &entry.value)?;
    Some((key, value))
}

/// Returns the native key and the native value at an index of two columns, or `None` if one isn't there, or not of its type.
pub(crate) fn native_row<'t, K: Given<'t>, V: Given<'t>>(
    keys: &BtreeColumn<'t>,
    values: &BtreeColumn<'t>,
    index: usize,
) -> Option<(K::Native, V::Native)>
    requires { index < 18446744073709551615 }
    ensures entry { IfSome result (λ _. IsRow K.IsCell V.IsCell keys.now values.now index) }
    ensures key { IfSome result (λ pair. K.CellGives keys.now index pair.0) }
    ensures value { IfSome result (λ pair. V.CellGives values.now index pair.1) }
    ensures none { result ≡ None → IsRow K.IsCell V.IsCell keys.now values.now index → ⊥ }
{
    let key = K::cell(keys, index)?;
    let value = V::cell(values, index)?;
    Some((key, value))
}
