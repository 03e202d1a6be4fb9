//! Values that vectors are archived with.

use crate::archive::{Archive, Native};
use std::cmp::OrderedFloat;
use std::collections::{BTreeMap, BTreeSet};
use std::num::{
    NonZeroI8, NonZeroI16, NonZeroI32, NonZeroI64, NonZeroI128, NonZeroU8, NonZeroU16, NonZeroU32,
    NonZeroU64, NonZeroU128,
};

/// A value that a `Vec` of its type is archived with in an `ArchivedVec`: every value but a `u8`, since a `Vec<u8>` is a byte string.
/// Its archived type has at least one byte.
pub trait Element: Archive {}

impl Element for u16 {}

impl Element for u32 {}

impl Element for u64 {}

impl Element for u128 {}

impl Element for bool {}

impl Element for i8 {}

impl Element for i16 {}

impl Element for i32 {}

impl Element for i64 {}

impl Element for i128 {}

impl Element for char {}

impl Element for NonZeroU8 {}

impl Element for NonZeroU16 {}

impl Element for NonZeroU32 {}

impl Element for NonZeroU64 {}

impl Element for NonZeroU128 {}

impl Element for NonZeroI8 {}

impl Element for NonZeroI16 {}

impl Element for NonZeroI32 {}

impl Element for NonZeroI64 {}

impl Element for NonZeroI128 {}

impl Element for f32 {}

impl Element for f64 {}

impl Element for String {}

impl<'t> Element for &'t str {}

impl Element for Vec<u8> {}

impl<'t> Element for &'t [u8] {}

impl<T: Native> Element for OrderedFloat<T> {}

impl<T: Archive> Element for Option<T> {}

impl<A: Archive, B: Archive> Element for (A, B) {}

impl<A: Archive, B: Archive, C: Archive> Element for (A, B, C) {}

impl<A: Archive, B: Archive, C: Archive, D: Archive> Element for (A, B, C, D) {}

impl<A: Archive, B: Archive, C: Archive, D: Archive, E: Archive> Element for (A, B, C, D, E) {}

impl<A: Archive, B: Archive, C: Archive, D: Archive, E: Archive, F: Archive> Element
    for (A, B, C, D, E, F) {}

impl<T: Archive, const N: usize> Element for [T; N] {}

impl<K: Archive + Ord, V: Archive> Element for BTreeMap<K, V> {}

impl<K: Archive + Ord> Element for BTreeSet<K> {}

impl<T: Element> Element for Vec<T> {}
