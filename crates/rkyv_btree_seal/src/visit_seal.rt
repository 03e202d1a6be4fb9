//! Visits of all entries of a map, whose values they may write.
ghost use Rattle.std.specs.Prelude.{◌≡◌, IsTrue};
ghost use Rattle.rkyv_btree_portable.specs.Views.{stands};
ghost use Rattle.rkyv_btree_walk.specs.EntryPlaces.{entry_places};
ghost use Rattle.rkyv_btree_seal.specs.Visits.{Visits, MayVisit};

use crate::closures::step_entry;
use crate::lent_key::LentKey;
use crate::map_seal::MapSeal;
use crate::seal::Seal;
use rkyv_btree_portable::check::Portable;
use rkyv_btree_portable::in_place::InPlace;
use rkyv_btree_walk::archived_map::ArchivedMap;
use rkyv_btree_walk::entry_walk::{start, step};
use std::ops::ControlFlow;

/// Calls `f` at each entry of the map at `pos`, in order, up to the first call that breaks, and returns its value.
pub(crate) fn visit_entries<
    K: Portable,
    V: InPlace,
    M: ArchivedMap<Key = K, Mapped = V>,
    T,
    F: FnMut(LentKey<'_, K>, &mut Seal<'_, V>) -> ControlFlow<T, ()>,
>(buf: &mut [u8], pos: u32, mut f: F) -> Option<T>
    requires stands { IsTrue (stands M.kind buf.old pos) }
    requires may { MayVisit K.kind V.kind M.E pos (λ g k s r t h. F.step g k s r t h)
        (λ g k s. F.pre g k s) buf.old }
    ensures stands { IsTrue (stands M.kind buf.new pos) }
    ensures visits { (last : F) × Visits K.kind V.kind M.E pos (λ g k s r t h. F.step g k s r t h)
        (entry_places K.kind V.kind M.E buf.old pos) f buf.old buf.new result last }
{
    let mut walk = start::<K, V, M>(buf, pos);
    'along: while let Some(place) = step::<K, V, M>(buf, pos, &mut walk) {
        M::opened(buf, pos);
        match step_entry::<K, V, M, ControlFlow<T, ()>, F>(buf, pos, place, &mut f) {
            ControlFlow::Continue(()) => {}
            ControlFlow::Break(found) => return Some(found),
        }
    }
    None
}

impl<'a, K: Portable, V: InPlace, M: ArchivedMap<Key = K, Mapped = V>> MapSeal<'a, M> {
    /// Calls `f` with the key of each entry and a seal of its value, in order, up to the first call that breaks, whose
    /// value it returns. It returns `None` if no call breaks. The walk takes no memory. The caller owes that `f`
    /// may be called at each entry, in any state, and that it leaves a value in the seal.
    ///
    /// # Examples
    ///
    /// ```rust
    /// map.visit_seal(|_: LentKey<ArchivedText>, price: &mut Seal<ArchivedU64>| {
    ///     let old = price.read();
    ///     price.write(old.wrapping_add(old));
    ///     ControlFlow::<(), ()>::Continue(())
    /// });
    /// ```
    pub fn visit_seal<T, F: FnMut(LentKey<'_, K>, &mut Seal<'_, V>) -> ControlFlow<T, ()>>(
        &mut self,
        f: F,
    ) -> Option<T>
        requires { MayVisit K.kind V.kind M.E self.old.pos (λ g k s r t h. F.step g k s r t h)
            (λ g k s. F.pre g k s) self.old.buf.now }
        ensures same_reference { self.new.buf.ghost_name ≡ self.old.buf.ghost_name }
        ensures position { self.new.pos ≡ self.old.pos }
        ensures visits { (last : F) × Visits K.kind V.kind M.E self.old.pos
            (λ g k s r t h. F.step g k s r t h)
            (entry_places K.kind V.kind M.E self.old.buf.now self.old.pos) f self.old.buf.now
            self.new.buf.now result last }
    {
        let pos = self.pos;
        visit_entries::<K, V, M, T, F>(&mut *self.buf, pos, f)
    }
}
