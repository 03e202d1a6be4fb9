//! Visits of all entries of a map.
ghost use Rattle.rkyv_btree_portable.specs.Scalars.{unit_kind};
ghost use Rattle.rkyv_btree_walk.specs.Search.{shown_value};
ghost use Rattle.rkyv_btree_walk.specs.Visit.{Visited, shown_both};
ghost use Rattle.rkyv_btree_view.specs.Set.{VisitedKeys};
ghost use Rattle.rkyv_btree_view.specs.View.{entries_of};
ghost use Rattle.std.specs.Prelude.{map};

use crate::map_view::ShowsEntries;
use crate::view::View;
use arrayvec::ArrayVec;
use rkyv_btree_portable::check::Portable;
use rkyv_btree_walk::archived_map::ArchivedMap;
use rkyv_btree_walk::path::begin;
use rkyv_btree_walk::shows::Shows;
use rkyv_btree_walk::visit_loop::visit_rest;
use std::ops::ControlFlow;

impl<'a, K: Portable, V: Portable, M: ArchivedMap<Key = K, Mapped = V>> View<'a, M> {
    /// Calls `visit` with the key and the value of each entry of a map or of a set.
    fn visit_all<W: Shows<'a, K>, X: Shows<'a, V>, T, F: FnMut(W, X) -> ControlFlow<T, ()>>(
        self,
        visit: F,
    ) -> Option<T>
        requires { F.IsAlwaysCallable visit }
        ensures { Visited F.step (shown_both K.kind V.kind W.Shows X.Shows) visit
            (entries_of K.kind V.kind M.E self.entry) result }
    {
        M::opened(self.buf, self.pos);
        let mut path = ArrayVec::new();
        let first = begin::<K, V, M>(self.buf, self.pos, &mut path);
        visit_rest::<K, V, M, W, X, T, F>(self.buf, first, &mut path, visit)
    }

    /// The same, where `visit` may be called and each call leaves it so.
    #[tactic(auto, using(crate::proofs::Sets::stays_callable))]
    fn visit_on<W: Shows<'a, K>, X: Shows<'a, V>, T, F: FnMut(W, X) -> ControlFlow<T, ()>>(
        self,
        visit: F,
    ) -> Option<T>
        requires { ((key : _) (value : _) → F.pre visit key value)
            × ((before : F) (key : _) (value : _) (outcome : _) (after : F) (next : _) (other : _)
            → F.step before key value outcome after → F.pre after next other) }
        ensures { Visited F.step (shown_both K.kind V.kind W.Shows X.Shows) visit
            (entries_of K.kind V.kind M.E self.entry) result }
    {
        self.visit_all(visit)
    }
}

impl<'a, K: Portable, V: Portable, M: ArchivedMap<Key = K, Mapped = V> + ShowsEntries> View<'a, M> {
    /// Calls `visit` with the key and the value of each entry, in order, up to the first call that breaks, whose value
    /// it returns. It returns `None` if no call breaks. No memory is allocated.
    ///
    /// # Examples
    ///
    /// ```rust
    /// map.visit(|_: View<ArchivedText>, price: View<ArchivedU64>| {
    ///     let price = price.to_native();
    ///     if price > limit {
    ///         return ControlFlow::Break(price);
    ///     }
    ///     ControlFlow::Continue(())
    /// })
    /// ```
    pub fn visit<W: Shows<'a, K>, X: Shows<'a, V>, T, F: FnMut(W, X) -> ControlFlow<T, ()>>(
        self,
        visit: F,
    ) -> Option<T>
        requires { F.IsAlwaysCallable visit }
        ensures { Visited F.step (shown_both K.kind V.kind W.Shows X.Shows) visit
            (entries_of K.kind V.kind M.E self.entry) result }
    {
        self.visit_all(visit)
    }
}

impl<'a, K: Portable, S: ArchivedMap<Key = K, Mapped = ()>> View<'a, S> {
    /// Calls `visit` with each key of a set, in order, up to the first call that breaks, whose value it returns. Where no
    /// call breaks, it returns `None`. The walk takes no memory.
    pub fn visit_keys<W: Shows<'a, K>, T, F: FnMut(W) -> ControlFlow<T, ()>>(
        self,
        mut visit: F,
    ) -> Option<T>
        requires { F.IsAlwaysCallable visit }
        ensures { VisitedKeys F.step (shown_value K.kind W.Shows) visit
            (map (λ e. e.0) (entries_of K.kind unit_kind S.E self.entry)) result }
    {
        self.visit_on(
            move |key: W, _: View<()>| -> ControlFlow<T, ()>
                requires { F.IsAlwaysCallable visit }
                ensures called { F.step visit.entry key result visit.exit }
                ensures callable { F.IsAlwaysCallable visit.exit }
            { visit(key) },
        )
    }
}
