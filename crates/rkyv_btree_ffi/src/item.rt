//! Keys and values as C has them.
ghost use Rattle.std.specs.Prelude.{◌≡◌, ℕ, List};
ghost use Rattle.std.specs.Int.{w64, cast_unsigned};
ghost use Rattle.std.specs.declared.cmp.Ordering.{Ordering as Comparison};
ghost use Rattle.std.specs.declared.cmp.Ordering.TheVariants.{Less};
ghost use Rattle.rkyv_btree_portable.specs.Scalars.{u32_kind, u64_kind, i64_kind};
ghost use Rattle.rkyv_btree_portable.specs.ByteStrings.{bytes_kind};
ghost use Rattle.rkyv_btree_portable.specs.Text.{text_kind};
ghost use Rattle.rkyv_btree_ffi.specs.Items.{IsNumberItem, IsBytesItem};
ghost use Rattle.rkyv_btree_ffi.specs.Queries.{number_comparison, signed_comparison, text_comparison};
ghost use Rattle.rkyv_btree_ffi.specs.declared.item.BtreeItem.{BtreeItem};
ghost use Rattle.rkyv_btree_ffi.specs.declared.query.Query.{Query};

use crate::query::Query;
use rkyv_btree_portable::byte_string::ArchivedBytes;
use rkyv_btree_portable::bytes::{num32, pointed_at};
use rkyv_btree_portable::check::CheckBytes;
use rkyv_btree_portable::numbers::{ArchivedU32, ArchivedU64};
use rkyv_btree_portable::signed::ArchivedI64;
use rkyv_btree_portable::text::ArchivedText;
use rkyv_btree_view::compare::ViewOrd;
use rkyv_btree_view::view::View;
use std::cmp::Ordering;

/// A key or a value: a number, or a text or bytes by their place in a buffer. The value of an entry of a set is all zeros.
#[repr(C)]
#[derive(Clone, Copy, Debug, PartialEq, Eq)]
pub struct BtreeItem {
    /// The number, in two's complement if it has a sign. That of a text or bytes is 0.
    pub number: u64,
    /// The position of the text or the bytes, or 0 for a number.
    pub start: u32,
    /// How many bytes they are. That of a number is 0.
    pub len: u32,
}

/// A key and its value.
#[repr(C)]
#[derive(Clone, Copy, Debug, PartialEq, Eq)]
pub struct BtreeEntry {
    pub key: BtreeItem,
    pub value: BtreeItem,
}

/// A type of keys and values that C reads.
pub trait Shown: CheckBytes + ViewOrd {
    /// An item shows what is stored at a position of a buffer.
    ghost ShowsAt: { List ℕ → ℕ → BtreeItem → Type 0 };

    /// What comparing a query with what is stored at a position of a buffer gives.
    ghost query_compared_at: { Query → List ℕ → ℕ → Comparison };

    /// Returns the item of a view.
    fn item(view: &View<'_, Self>) -> BtreeItem
        ensures { ShowsAt view.now.buf.now view.now.pos result };

    /// Compares a query with a view.
    fn compare_query(query: &Query<'_>, view: &View<'_, Self>) -> Ordering
        ensures { result ≡ query_compared_at query.now view.now.buf.now view.now.pos };
}

impl Shown for ArchivedU32 {
    ghost ShowsAt = { λ b at item. IsNumberItem (u32_kind.read b at) item };

    ghost query_compared_at = { λ query b at. number_comparison query (u32_kind.read b at) };

    fn item(view: &View<'_, ArchivedU32>) -> BtreeItem {
        BtreeItem {
            number: u64::from(view.to_native()),
            start: 0,
            len: 0,
        }
    }

    fn compare_query(query: &Query<'_>, view: &View<'_, ArchivedU32>) -> Ordering {
        match query {
            Query::Number(number) => (*number).cmp(&u64::from(view.to_native())),
            Query::Text(_) => Ordering::Less,
        }
    }
}

impl Shown for ArchivedU64 {
    ghost ShowsAt = { λ b at item. IsNumberItem (u64_kind.read b at) item };

    ghost query_compared_at = { λ query b at. number_comparison query (u64_kind.read b at) };

    fn item(view: &View<'_, ArchivedU64>) -> BtreeItem {
        BtreeItem {
            number: view.to_native(),
            start: 0,
            len: 0,
        }
    }

    fn compare_query(query: &Query<'_>, view: &View<'_, ArchivedU64>) -> Ordering {
        match query {
            Query::Number(number) => (*number).cmp(&view.to_native()),
            Query::Text(_) => Ordering::Less,
        }
    }
}

impl Shown for ArchivedI64 {
    ghost ShowsAt = { λ b at item. IsNumberItem (cast_unsigned w64 (i64_kind.read b at)) item };

    ghost query_compared_at = { λ query b at. signed_comparison query (i64_kind.read b at) };

    fn item(view: &View<'_, ArchivedI64>) -> BtreeItem {
        BtreeItem {
            number: view.to_native().cast_unsigned(),
            start: 0,
            len: 0,
        }
    }

    fn compare_query(query: &Query<'_>, view: &View<'_, ArchivedI64>) -> Ordering {
        match query {
            Query::Number(number) => (*number).cast_signed().cmp(&view.to_native()),
            Query::Text(_) => Ordering::Less,
        }
    }
}

impl Shown for ArchivedBytes {
    ghost ShowsAt = { λ b at item. IsBytesItem b (bytes_kind.read b at) item };

    ghost query_compared_at = { λ query b at. text_comparison query (bytes_kind.read b at) };

    fn item(view: &View<'_, ArchivedBytes>) -> BtreeItem {
        // A view stands on bytes that lie before it.
        BtreeItem {
            number: 0,
            start: pointed_at(view.buf, view.pos) as u32,
            len: num32(view.buf, view.pos + 4),
        }
    }

    fn compare_query(query: &Query<'_>, view: &View<'_, ArchivedBytes>) -> Ordering {
        match query {
            Query::Number(_) => Ordering::Less,
            Query::Text(bytes) => (*bytes).cmp(view.as_bytes()),
        }
    }
}

impl Shown for () {
    ghost ShowsAt = { λ b at item. IsNumberItem 0 item };

    ghost query_compared_at = { λ query b at. Less };

    fn item(_view: &View<'_, ()>) -> BtreeItem {
        BtreeItem {
            number: 0,
            start: 0,
            len: 0,
        }
    }

    fn compare_query(_query: &Query<'_>, _view: &View<'_, ()>) -> Ordering {
        Ordering::Less
    }
}

impl Shown for ArchivedText {
    ghost ShowsAt = { λ b at item. IsBytesItem b (text_kind.read b at) item };

    ghost query_compared_at = { λ query b at. text_comparison query (text_kind.read b at) };

    fn item(view: &View<'_, ArchivedText>) -> BtreeItem {
        // A view stands on a text whose bytes lie before it.
        BtreeItem {
            number: 0,
            start: pointed_at(view.buf, view.pos) as u32,
            len: num32(view.buf, view.pos + 4),
        }
    }

    fn compare_query(query: &Query<'_>, view: &View<'_, ArchivedText>) -> Ordering {
        match query {
            Query::Number(_) => Ordering::Less,
            Query::Text(text) => (*text).cmp(view.as_str().as_bytes()),
        }
    }
}
