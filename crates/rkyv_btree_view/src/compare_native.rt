//! Comparisons of views with native values: their order, by which keys are looked up, and their equality.
ghost use Rattle.std.specs.Prelude.{◌≡◌, ◌+◌, ◌≤◌, ℕ, List, ◌&&◌, Bool, IfSome, IsTrue, length, map, nat_eq};
ghost use Rattle.std.specs.Cmp.{nat_cmp_total, nat_eq_equiv};
ghost use Rattle.std.specs.Cmp.Lexicographic.{nat_list_cmp_total, slice_cmp, nat_list_eq_equiv, pointwise};
ghost use Rattle.std.specs.Int.{from_be_bytes, w64};
ghost use Rattle.std.specs.Int.NonZero.{non_zero_u32_get};
ghost use Rattle.std.specs.Ordering.{nat_cmp, ordering_then};
ghost use Rattle.std.specs.declared.cmp.Ordering.{Ordering as Comparison};
ghost use Rattle.rkyv_btree_portable.specs.Entry.{value_offset};
ghost use Rattle.rkyv_btree_portable.specs.Scalars.{non_zero_kind};
ghost use Rattle.rkyv_btree_portable.specs.Text.{text_kind};
ghost use Rattle.rkyv_btree_walk.specs.Search.{compared_of};
ghost use Rattle.rkyv_btree_view.specs.Query.{ComparesAs};
ghost use Rattle.rkyv_btree_view.specs.laws.Cuts.{native_compares, order_compares, pair_compares};
ghost use Rattle.std.specs.String.{string_bytes};
ghost use Rattle.rkyv_btree_view.specs.Iter.{entries_left};
ghost use Rattle.rkyv_btree_view.specs.SameAs.{ByKeyTests, ByTests, TestsSame, map_same_at, set_same_at};
ghost use Rattle.rkyv_btree_view.specs.Set.{keys_of};
ghost use Rattle.rkyv_btree_view.specs.View.{entries_of};
ghost use Rattle.rkyv_btree_view.specs.laws.SameAs.{map_tests, native_tests, pair_tests, same_tests, set_tests};

use crate::iter::Iter;
use crate::map_view::ShowsEntries;
use crate::native::ToNative;
use crate::view::View;
use rkyv_btree_portable::check::Portable;
use rkyv_btree_portable::entry::Entry;
use rkyv_btree_portable::scalars::ArchivedNonZeroU32;
use rkyv_btree_portable::text::ArchivedText;
use rkyv_btree_types::map::ArchivedBTreeMap;
use rkyv_btree_types::set::ArchivedBTreeSet;
use rkyv_btree_walk::archived_map::ArchivedMap;
use rkyv_btree_walk::search::Compared;
use std::cmp::Ordering;
use std::collections::{BTreeMap, BTreeSet, btree_map, btree_set};
use std::num::NonZeroU32;

/// An archived type whose values are compared with native ones of type `T`, in an order that goes with their own.
pub trait CompareWith<T>: Portable {
    /// What comparing a native value with the value at a position of a buffer gives.
    ghost compared_at: { T → List ℕ → ℕ → Comparison };

    /// How `native` compares to what the view reads: `Greater` means that it is past that.
    fn compare_with(native: &T, view: &View<'_, Self>) -> Ordering
        ensures { result ≡ compared_at native.now view.now.buf.now view.now.pos };

    /// Returns what a lookup needs of that. A type whose native values differ by plain tests may return these.
    #[inline(always)]
    fn compared(native: &T, view: &View<'_, Self>) -> Compared
        ensures { result ≡ compared_of (compared_at native.now view.now.buf.now view.now.pos) }
    {
        Compared::of(Self::compare_with(native, view))
    }

    /// Whether that is a plain test of numbers, so that a lookup may compare more keys of a node than it needs, to save jumps.
    #[inline(always)]
    fn is_plain() -> bool {
        false
    }

    ghost compares: { ComparesAs Self.kind compared_at };
}

impl<T: ToNative> CompareWith<T::Native> for T {
    ghost compared_at = { λ native b at. T.Native.cmp native (T.read_native b at) };

    fn compare_with(native: &T::Native, view: &View<'_, T>) -> Ordering {
        native.cmp(&T::native(view))
    }

    #[inline(always)]
    fn compared(native: &T::Native, view: &View<'_, T>) -> Compared {
        let key = T::native(view);
        Compared {
            past: *native > key,
            equal: *native == key,
        }
    }

    #[inline(always)]
    fn is_plain() -> bool {
        true
    }

    ghost compares = { native_compares T.read_as T.Native.total };
}

impl CompareWith<NonZeroU32> for ArchivedNonZeroU32 {
    ghost compared_at = { λ native b at.
        nat_cmp (non_zero_u32_get native) (non_zero_kind.read b at) };

    fn compare_with(native: &NonZeroU32, view: &View<'_, ArchivedNonZeroU32>) -> Ordering {
        native.get().cmp(&view.to_native().get())
    }

    #[inline(always)]
    fn is_plain() -> bool {
        true
    }

    ghost compares = { order_compares non_zero_kind nat_cmp_total non_zero_u32_get };
}

/// The first eight bytes as a number, in which the first counts most.
#[inline(always)]
fn front(bytes: &[u8]) -> u64
    requires { 8 ≤ length bytes.now }
    ensures { result ≡ from_be_bytes w64 bytes.now }
{
    u64::from_be_bytes([
        bytes[0], bytes[1], bytes[2], bytes[3], bytes[4], bytes[5], bytes[6], bytes[7],
    ])
}

/// How bytes are ordered, if both have eight and differ in these.
#[inline(always)]
fn order_of_fronts(a: &[u8], b: &[u8]) -> Option<Ordering>
    ensures { IfSome result (λ order. order ≡ slice_cmp nat_cmp a.now b.now) }
{
    if a.len() < 8 {
        return None;
    }
    if b.len() < 8 {
        return None;
    }
    let (x, y) = (front(a), front(b));
    if x == y {
        return None;
    }
    Some(if x < y {
        Ordering::Less
    } else {
        Ordering::Greater
    })
}

/// How texts are ordered, from their first byte on.
#[inline(never)]
fn order_of_texts(a: &str, b: &str) -> Ordering
    ensures { result ≡ slice_cmp nat_cmp a.now b.now }
{
    a.cmp(b)
}

impl<'t> CompareWith<&'t str> for ArchivedText {
    ghost compared_at = { λ native b at. slice_cmp nat_cmp native.now (text_kind.read b at) };

    #[inline(always)]
    fn compare_with(native: &&'t str, view: &View<'_, ArchivedText>) -> Ordering {
        let text = view.as_str();
        match order_of_fronts((*native).as_bytes(), text.as_bytes()) {
            Some(order) => order,
            None => order_of_texts(*native, text),
        }
    }

    ghost compares = { order_compares text_kind nat_list_cmp_total (λ native. native.now) };
}

impl<S, T, K: CompareWith<S>, V: CompareWith<T>> CompareWith<(S, T)> for Entry<K, V> {
    ghost compared_at = { λ native b at. ordering_then (K.compared_at native.0 b at)
        (V.compared_at native.1 b (at + value_offset K.kind V.kind)) };

    /// The first of the pair with the key, then the second with the value.
    fn compare_with(native: &(S, T), view: &View<'_, Entry<K, V>>) -> Ordering {
        match K::compare_with(&native.0, &view.key()) {
            Ordering::Equal => V::compare_with(&native.1, &view.value()),
            unequal => unequal,
        }
    }

    ghost compares = { pair_compares K.compares V.compares };
}

/// An archived type whose values may be the same as native ones of type `T`.
pub trait SameAs<T>: Portable {
    /// Whether the value at a position of a buffer is the same as a native one.
    ghost same_at: { T → List ℕ → ℕ → Bool };

    /// Whether what the view reads is the same as `native`.
    fn same_as(view: &View<'_, Self>, native: &T) -> bool
        ensures { result ≡ same_at native.now view.now.buf.now view.now.pos };

    // Where a value is the same as a native one, so are the values that views of both say to be equal, and no others.
    ghost tests: { TestsSame Self.kind same_at };
}

impl<T: ToNative> SameAs<T::Native> for T {
    ghost same_at = { λ native b at. T.Native.eq (T.read_native b at) native };

    fn same_as(view: &View<'_, T>, native: &T::Native) -> bool {
        T::native(view) == *native
    }

    ghost tests = { native_tests T.read_as T.Native.Eq.laws };
}

impl SameAs<NonZeroU32> for ArchivedNonZeroU32 {
    ghost same_at = { λ native b at.
        nat_eq (non_zero_kind.read b at) (non_zero_u32_get native) };

    fn same_as(view: &View<'_, ArchivedNonZeroU32>, native: &NonZeroU32) -> bool {
        view.to_native().get() == native.get()
    }

    ghost tests = { same_tests non_zero_kind nat_eq_equiv non_zero_u32_get };
}

impl SameAs<String> for ArchivedText {
    ghost same_at = { λ native b at.
        pointwise nat_eq (text_kind.read b at) (string_bytes native) };

    fn same_as(view: &View<'_, ArchivedText>, native: &String) -> bool {
        view.as_str() == native.as_str()
    }

    ghost tests = { same_tests text_kind nat_list_eq_equiv string_bytes };
}

impl<'t> SameAs<&'t str> for ArchivedText {
    ghost same_at = { λ native b at. pointwise nat_eq (text_kind.read b at) native.now };

    fn same_as(view: &View<'_, ArchivedText>, native: &&'t str) -> bool {
        view.as_str() == *native
    }

    ghost tests = { same_tests text_kind nat_list_eq_equiv (λ native. native.now) };
}

impl<T, U, K: SameAs<T>, V: SameAs<U>> SameAs<(T, U)> for Entry<K, V> {
    ghost same_at = { λ native b at. K.same_at native.0 b at
        && V.same_at native.1 b (at + value_offset K.kind V.kind) };

    fn same_as(view: &View<'_, Entry<K, V>>, native: &(T, U)) -> bool {
        K::same_as(&view.key(), &native.0) && V::same_as(&view.value(), &native.1)
    }

    ghost tests = { pair_tests K.tests V.tests (λ native. native) };
}

impl<T, U, K: SameAs<T>, V: SameAs<U>> SameAs<Entry<T, U>> for Entry<K, V> {
    ghost same_at = { λ native b at. K.same_at native.key b at
        && V.same_at native.value b (at + value_offset K.kind V.kind) };

    fn same_as(view: &View<'_, Entry<K, V>>, native: &Entry<T, U>) -> bool {
        K::same_as(&view.key(), &native.key) && V::same_as(&view.value(), &native.value)
    }

    ghost tests = { pair_tests K.tests V.tests (λ native. (native.key, native.value)) };
}

impl<T: Ord, U, K: SameAs<T>, V: SameAs<U>, const E: usize> SameAs<BTreeMap<T, U>>
    for ArchivedBTreeMap<K, V, E> {
    ghost same_at = { λ native b at.
        map_same_at K.kind V.kind E K.same_at V.same_at native.entries b at };

    fn same_as(view: &View<'_, ArchivedBTreeMap<K, V, E>>, native: &BTreeMap<T, U>) -> bool {
        view.eq_map(native)
    }

    ghost tests = { map_tests K.kind V.kind E K.tests V.tests (λ native. native.entries) };
}

impl<T: Ord, K: SameAs<T>, const E: usize> SameAs<BTreeSet<T>> for ArchivedBTreeSet<K, E> {
    ghost same_at = { λ native b at. set_same_at K.kind E K.same_at native.keys b at };

    fn same_as(view: &View<'_, ArchivedBTreeSet<K, E>>, native: &BTreeSet<T>) -> bool {
        view.eq_set(native)
    }

    ghost tests = { set_tests K.kind E K.tests (λ native. native.keys) };
}

/// Whether the entries that an iterator has left are as many as those of a native map's, and the same one by one.
fn rest_is_same_as<T, U, K: SameAs<T>, V: SameAs<U>, M: ArchivedMap<Key = K, Mapped = V>>(
    mut entries: Iter<'_, M>,
    mut natives: btree_map::Iter<'_, T, U>,
) -> bool
    ensures { ByTests K.kind V.kind K.same_at V.same_at (λ same.
        result ≡ pointwise same (entries_left entries.entry) natives.entry) }
{
    while let Some((key, value)) = entries.next() {
        let Some((native_key, native_value)) = natives.next() else {
            return false;
        };
        if !(K::same_as(&key, native_key) && V::same_as(&value, native_value)) {
            return false;
        }
    }
    natives.next().is_none()
}

impl<'a, K: Portable, V: Portable, M: ArchivedMap<Key = K, Mapped = V> + ShowsEntries> View<'a, M> {
    /// Returns whether the map has as many entries as a native map, and each is the same as the native one at its place.
    pub fn eq_map<T: Ord, U>(self, map: &BTreeMap<T, U>) -> bool
    where
        K: SameAs<T>,
        V: SameAs<U>,
        // If it is true, both maps have the same length.
        ensures length { IsTrue result →
            length (entries_of K.kind V.kind M.E self.entry) ≡ length map.now.entries }
        ensures same { ByTests K.kind V.kind K.same_at V.same_at (λ same. result
            ≡ pointwise same (entries_of K.kind V.kind M.E self.entry) map.now.entries) }
    {
        // Both maps say their lengths, so maps that aren't as long cost no walk.
        self.len() == map.len() && rest_is_same_as::<T, U, K, V, M>(self.walk(), map.iter())
    }
}

/// Whether the keys that an iterator has left are as many as those of a native set's, and the same one by one.
fn keys_are_same_as<T, K: SameAs<T>, V: Portable, M: ArchivedMap<Key = K, Mapped = V>>(
    mut entries: Iter<'_, M>,
    mut natives: btree_set::Iter<'_, T>,
) -> bool
    ensures { ByKeyTests K.kind K.same_at (λ same. result
        ≡ pointwise same (map (λ e. e.0) (entries_left entries.entry)) natives.entry) }
{
    while let Some((key, _)) = entries.next() {
        let Some(native_key) = natives.next() else {
            return false;
        };
        if !K::same_as(&key, native_key) {
            return false;
        }
    }
    natives.next().is_none()
}

impl<'a, K: Portable, const E: usize> View<'a, ArchivedBTreeSet<K, E>> {
    /// Returns whether the set has as many keys as a native set, and each is the same as the native one at its place.
    pub fn eq_set<T: Ord>(self, set: &BTreeSet<T>) -> bool
    where
        K: SameAs<T>,
        // If it is true, both sets have the same length.
        ensures length { IsTrue result →
            length (keys_of K.kind E self.entry) ≡ length set.now.keys }
        ensures same { ByKeyTests K.kind K.same_at (λ same. result
            ≡ pointwise same (keys_of K.kind E self.entry) set.now.keys) }
    {
        // Both sets say their lengths, so sets that aren't as long cost no walk.
        self.len() == set.len()
            && keys_are_same_as::<T, K, (), ArchivedBTreeMap<K, (), E>>(
                self.as_map().walk(),
                set.iter(),
            )
    }
}
