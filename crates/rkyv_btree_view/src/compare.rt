//! Comparisons of views with views: those of what is read, wherever it is, and of maps and sets by the lists of their entries.
ghost use Rattle.std.specs.Cmp.{IsEquivalence, IsTotalOrder, on_per, on_equiv, on_po, on_total, and_equiv, then_total, both_tied, nat_eq_equiv, nat_cmp_total, partial_equiv_from_equiv};
ghost use Rattle.std.specs.Cmp.Lexicographic.{nat_list_eq_equiv, nat_list_cmp_total, texts_ties, pointwise, lists_equiv};
ghost use Rattle.std.specs.List.{fold};
ghost use Rattle.std.specs.Ordering.{is_eq};
ghost use Rattle.std.specs.Prelude.{◌≡◌, IsTrue, Some};
ghost use Rattle.std.proofs.Common.{rules, refl};
ghost use Rattle.rkyv_btree_view.specs.View.{view_value, entries_of};
ghost use Rattle.rkyv_btree_view.specs.laws.Comparing.{native_equivalence, native_total, native_matches, native_respects, views_order, map_respects, unit_equivalence};
ghost use Rattle.rkyv_btree_portable.specs.Entry.{entry_kind};
ghost use Rattle.rkyv_btree_portable.specs.Scalars.{unit_kind};
ghost use Rattle.rkyv_btree_view.specs.Iter.{entries_left};

use crate::iter::Iter;
use crate::map_view::ShowsEntries;
use crate::native::ToNative;
use crate::view::View;
use rkyv_btree_portable::check::Portable;
use rkyv_btree_portable::entry::Entry;
use rkyv_btree_portable::scalars::ArchivedNonZeroU32;
use rkyv_btree_portable::text::ArchivedText;
use rkyv_btree_types::map::ArchivedBTreeMap;
use rkyv_btree_types::set::ArchivedBTreeSet;
use rkyv_btree_walk::archived_map::ArchivedMap;
use std::cmp::Ordering;
use std::hash::{Hash, Hasher};

/// An archived type whose views can be tested for equality.
pub trait ViewEq: Portable {
    /// Whether what both views read is equal.
    fn is_same(a: &View<'_, Self>, b: &View<'_, Self>) -> bool
        ensures { result ≡ Self.kind.same (view_value a.now) (view_value b.now) };

    ghost equivalence: { IsEquivalence Self.kind.same };
}

/// An archived type whose views are ordered.
pub trait ViewOrd: ViewEq {
    /// How what the first view reads compares to what the second reads.
    fn compare(a: &View<'_, Self>, b: &View<'_, Self>) -> Ordering
        ensures { result ≡ Self.kind.order (view_value a.now) (view_value b.now) };

    ghost total: { IsTotalOrder Self.kind.order };

    ghost matches_same: { (x y : Self.kind.Value)
        → Self.kind.same x y ≡ is_eq (Self.kind.order x y) };
}

/// An archived type whose views can be hashed.
pub trait ViewHash: ViewEq {
    /// Feeds the hasher what the view reads.
    fn hash_view<H: Hasher>(view: &View<'_, Self>, state: &mut H)
        ensures { state.new ≡ fold H.write state.old (Self.kind.hash_input (view_value view.now)) };

    ghost respects_same: { (x y : Self.kind.Value) → IsTrue (Self.kind.same x y)
        → Self.kind.hash_input x ≡ Self.kind.hash_input y };
}

impl<T: ToNative> ViewEq for T {
    fn is_same(a: &View<'_, T>, b: &View<'_, T>) -> bool {
        T::native(a) == T::native(b)
    }

    ghost equivalence = { native_equivalence T.read_as T.Native.Eq.laws };
}

impl<T: ToNative> ViewOrd for T {
    fn compare(a: &View<'_, T>, b: &View<'_, T>) -> Ordering {
        T::native(a).cmp(&T::native(b))
    }

    ghost total = { native_total T.read_as T.Native.total };

    ghost matches_same = { native_matches T.read_as T.Native.matches_eq };
}

impl<T: ToNative> ViewHash for T {
    fn hash_view<H: Hasher>(view: &View<'_, T>, state: &mut H) {
        T::native(view).hash(state);
    }

    ghost respects_same = { native_respects T.read_as T.Native.respects_eq };
}

impl ViewEq for ArchivedNonZeroU32 {
    fn is_same(a: &View<'_, ArchivedNonZeroU32>, b: &View<'_, ArchivedNonZeroU32>) -> bool {
        a.to_native().get() == b.to_native().get()
    }

    ghost equivalence = { nat_eq_equiv };
}

impl ViewOrd for ArchivedNonZeroU32 {
    fn compare(a: &View<'_, ArchivedNonZeroU32>, b: &View<'_, ArchivedNonZeroU32>) -> Ordering {
        a.to_native().get().cmp(&b.to_native().get())
    }

    ghost total = { nat_cmp_total };

    ghost matches_same = { Prim.search rules };
}

impl ViewHash for ArchivedNonZeroU32 {
    fn hash_view<H: Hasher>(view: &View<'_, ArchivedNonZeroU32>, state: &mut H) {
        view.to_native().get().hash(state);
    }

    ghost respects_same = { Prim.search rules };
}

impl ViewEq for ArchivedText {
    fn is_same(a: &View<'_, ArchivedText>, b: &View<'_, ArchivedText>) -> bool {
        a.as_str() == b.as_str()
    }

    ghost equivalence = { nat_list_eq_equiv };
}

impl ViewOrd for ArchivedText {
    #[inline(always)]
    fn compare(a: &View<'_, ArchivedText>, b: &View<'_, ArchivedText>) -> Ordering {
        a.as_str().cmp(&b.as_str())
    }

    ghost total = { nat_list_cmp_total };

    ghost matches_same = { texts_ties };
}

impl ViewHash for ArchivedText {
    fn hash_view<H: Hasher>(view: &View<'_, ArchivedText>, state: &mut H) {
        view.as_str().hash(state);
    }

    ghost respects_same = { Prim.search rules };
}

impl<K: ViewEq, V: ViewEq> ViewEq for Entry<K, V> {
    fn is_same(a: &View<'_, Entry<K, V>>, b: &View<'_, Entry<K, V>>) -> bool {
        K::is_same(&a.key(), &b.key()) && V::is_same(&a.value(), &b.value())
    }

    ghost equivalence = { and_equiv (on_equiv (λ e. e.0) K.equivalence)
        (on_equiv (λ e. e.1) V.equivalence) };
}

impl<K: ViewOrd, V: ViewOrd> ViewOrd for Entry<K, V> {
    fn compare(a: &View<'_, Entry<K, V>>, b: &View<'_, Entry<K, V>>) -> Ordering {
        match K::compare(&a.key(), &b.key()) {
            Ordering::Equal => V::compare(&a.value(), &b.value()),
            unequal => unequal,
        }
    }

    ghost total = { then_total (on_total (λ e. e.0) K.total) (on_total (λ e. e.1) V.total) };

    ghost matches_same = { λ e f. both_tied _ _ (K.kind.order e.0 f.0) (V.kind.order e.1 f.1)
        (K.matches_same e.0 f.0) (V.matches_same e.1 f.1) };
}

impl<K: ViewHash, V: ViewHash> ViewHash for Entry<K, V> {
    fn hash_view<H: Hasher>(view: &View<'_, Entry<K, V>>, state: &mut H) {
        K::hash_view(&view.key(), state);
        V::hash_view(&view.value(), state);
    }

    ghost respects_same = { Prim.search rules };
}

impl<'a, T: ViewEq> PartialEq for View<'a, T> {
    ghost eq = { λ v w. T.kind.same (view_value v) (view_value w) };

    ghost laws = { on_per view_value (partial_equiv_from_equiv T.equivalence) };

    fn eq(&self, other: &View<'a, T>) -> bool {
        T::is_same(self, other)
    }
}

impl<'a, T: ViewEq> Eq for View<'a, T> {
    ghost laws = { on_equiv view_value T.equivalence };
}

impl<'a, T: ViewOrd> PartialOrd for View<'a, T> {
    ghost partial_cmp = { λ v w. Some (T.kind.order (view_value v) (view_value w)) };

    ghost laws = { on_po view_value (views_order T.kind T.total T.matches_same) };

    fn partial_cmp(&self, other: &View<'a, T>) -> Option<Ordering> {
        Some(T::compare(self, other))
    }
}

impl<'a, T: ViewOrd> Ord for View<'a, T> {
    ghost cmp = { λ v w. T.kind.order (view_value v) (view_value w) };

    ghost total = { on_total view_value T.total };

    ghost matches_partial_cmp = { Prim.search rules };

    ghost matches_eq = { λ v w. T.matches_same (view_value v) (view_value w) };

    fn cmp(&self, other: &View<'a, T>) -> Ordering {
        T::compare(self, other)
    }
}

impl<'a, T: ViewHash> Hash for View<'a, T> {
    ghost hash_input = { λ v. T.kind.hash_input (view_value v) };

    ghost respects_eq = { λ v w. T.respects_same (view_value v) (view_value w) };

    fn hash<H: Hasher>(&self, state: &mut H) {
        T::hash_view(self, state);
    }
}

/// Whether the entries that two iterators have left are as many and agree one by one.
fn rest_is_same<
    K: ViewEq,
    V: ViewEq,
    M: ArchivedMap<Key = K, Mapped = V>,
    N: ArchivedMap<Key = K, Mapped = V>,
>(mut left: Iter<'_, M>, mut right: Iter<'_, N>) -> bool
    ensures { result ≡ pointwise (entry_kind K.kind V.kind).same
        (entries_left left.entry) (entries_left right.entry) }
{
    while let Some((key, value)) = left.next() {
        let Some((other_key, other_value)) = right.next() else {
            return false;
        };
        if !(K::is_same(&key, &other_key) && V::is_same(&value, &other_value)) {
            return false;
        }
    }
    right.next().is_none()
}

impl<'a, K: ViewEq, V: ViewEq, M: ArchivedMap<Key = K, Mapped = V> + ShowsEntries> View<'a, M> {
    /// Returns whether the lists of both maps are as long and agree entry by entry. Their `E` may differ, while `==` takes maps of
    /// one type.
    pub fn eq_entries<N: ArchivedMap<Key = K, Mapped = V> + ShowsEntries>(
        self,
        other: View<'_, N>,
    ) -> bool
        ensures { result ≡ pointwise (entry_kind K.kind V.kind).same
            (entries_of K.kind V.kind M.E self.entry) (entries_of K.kind V.kind N.E other.entry) }
    {
        // A map says its length, so lists that aren't as long cost no walk.
        self.len() == other.len() && rest_is_same::<K, V, M, N>(self.walk(), other.walk())
    }
}

impl<K: ViewEq, V: ViewEq, const E: usize> ViewEq for ArchivedBTreeMap<K, V, E> {
    fn is_same(
        a: &View<'_, ArchivedBTreeMap<K, V, E>>,
        b: &View<'_, ArchivedBTreeMap<K, V, E>>,
    ) -> bool {
        a.eq_entries(*b)
    }

    ghost equivalence = { lists_equiv (and_equiv (on_equiv (λ e. e.0) K.equivalence)
        (on_equiv (λ e. e.1) V.equivalence)) };
}

impl<K: ViewHash, V: ViewHash, const E: usize> ViewHash for ArchivedBTreeMap<K, V, E> {
    fn hash_view<H: Hasher>(view: &View<'_, ArchivedBTreeMap<K, V, E>>, state: &mut H) {
        let mut entries = view.walk();
        while let Some((key, value)) = entries.next() {
            K::hash_view(&key, state);
            V::hash_view(&value, state);
        }
    }

    ghost respects_same = { map_respects K.kind V.kind K.respects_same V.respects_same };
}

impl<K: ViewEq, const E: usize> ViewEq for ArchivedBTreeSet<K, E> {
    fn is_same(a: &View<'_, ArchivedBTreeSet<K, E>>, b: &View<'_, ArchivedBTreeSet<K, E>>) -> bool {
        a.as_map().eq_entries(b.as_map())
    }

    ghost equivalence = { lists_equiv (and_equiv (on_equiv (λ e. e.0) K.equivalence)
        (on_equiv (λ e. e.1) unit_equivalence)) };
}

impl<K: ViewHash, const E: usize> ViewHash for ArchivedBTreeSet<K, E> {
    fn hash_view<H: Hasher>(view: &View<'_, ArchivedBTreeSet<K, E>>, state: &mut H) {
        ArchivedBTreeMap::<K, (), E>::hash_view(&view.as_map(), state);
    }

    ghost respects_same = { map_respects K.kind unit_kind K.respects_same (λ x y same. refl) };
}
