//! Which texts are never empty, and which have no comma.
ghost use Rattle.btreekv_items.specs.laws.Forms.{bool_no_comma, bool_some, char_some, pair_some, u8_no_comma, u8_some, u16_no_comma, u16_some, u32_no_comma, u32_some, u64_no_comma, u64_some, u128_no_comma, u128_some, i8_no_comma, i8_some, i16_no_comma, i16_some, i32_no_comma, i32_some, i64_no_comma, i64_some, i128_no_comma, i128_some};

use crate::item::Item;
use crate::optional::NonEmpty;
use crate::pairs::CommaFree;
use rkyv_btree_compound::wide::{ArchivedI128, ArchivedU128};
use rkyv_btree_portable::entry::Entry;
use rkyv_btree_portable::numbers::{ArchivedU16, ArchivedU32, ArchivedU64};
use rkyv_btree_portable::scalars::ArchivedChar;
use rkyv_btree_portable::signed::{ArchivedI16, ArchivedI32, ArchivedI64};

impl NonEmpty for u8 {
    ghost some = { u8_some };
}

impl CommaFree for u8 {
    ghost no_comma = { u8_no_comma };
}

impl NonEmpty for ArchivedU16 {
    ghost some = { u16_some };
}

impl CommaFree for ArchivedU16 {
    ghost no_comma = { u16_no_comma };
}

impl NonEmpty for ArchivedU32 {
    ghost some = { u32_some };
}

impl CommaFree for ArchivedU32 {
    ghost no_comma = { u32_no_comma };
}

impl NonEmpty for ArchivedU64 {
    ghost some = { u64_some };
}

impl CommaFree for ArchivedU64 {
    ghost no_comma = { u64_no_comma };
}

impl NonEmpty for ArchivedU128 {
    ghost some = { u128_some };
}

impl CommaFree for ArchivedU128 {
    ghost no_comma = { u128_no_comma };
}

impl NonEmpty for i8 {
    ghost some = { i8_some };
}

impl CommaFree for i8 {
    ghost no_comma = { i8_no_comma };
}

impl NonEmpty for ArchivedI16 {
    ghost some = { i16_some };
}

impl CommaFree for ArchivedI16 {
    ghost no_comma = { i16_no_comma };
}

impl NonEmpty for ArchivedI32 {
    ghost some = { i32_some };
}

impl CommaFree for ArchivedI32 {
    ghost no_comma = { i32_no_comma };
}

impl NonEmpty for ArchivedI64 {
    ghost some = { i64_some };
}

impl CommaFree for ArchivedI64 {
    ghost no_comma = { i64_no_comma };
}

impl NonEmpty for ArchivedI128 {
    ghost some = { i128_some };
}

impl CommaFree for ArchivedI128 {
    ghost no_comma = { i128_no_comma };
}

impl NonEmpty for bool {
    ghost some = { bool_some };
}

impl CommaFree for bool {
    ghost no_comma = { bool_no_comma };
}

impl NonEmpty for ArchivedChar {
    ghost some = { char_some };
}

impl<A: CommaFree, B: Item> NonEmpty for Entry<A, B> {
    ghost some = { pair_some A.IsValue B.IsValue A.spelling B.spelling };
}
