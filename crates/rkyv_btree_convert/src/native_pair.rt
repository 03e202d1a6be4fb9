//! Native pairs from views of entries.
ghost use Rattle.std.specs.Prelude.{◌+◌};
ghost use Rattle.std.specs.Cmp.{on_total, then_total};
ghost use Rattle.std.specs.Ordering.{ordering_then};
ghost use Rattle.rkyv_btree_portable.specs.Entry.{value_offset};
ghost use Rattle.rkyv_btree_convert.specs.Deserializing.{both};
ghost use Rattle.rkyv_btree_convert.specs.laws.Pairs.{pair_by_meaning, pair_model_whole, then_alike};

use crate::deserialize::{Deserialize, DeserializeFault};
use crate::native_key::DeserializeKey;
use rkyv_btree_portable::entry::Entry;
use rkyv_btree_view::view::View;
use std::alloc::Global;

impl<T: PartialEq + Drop, U: PartialEq, K: Deserialize<T>, V: Deserialize<U>> Deserialize<(T, U)>
    for Entry<K, V> {
    ghost Model = { K.Model × V.Model };

    ghost model = { λ e. (K.model e.0, V.model e.1) };

    ghost model_order = { λ e f. ordering_then (K.model_order e.0 f.0) (V.model_order e.1 f.1) };

    ghost decoded = { λ b at. both (K.decoded b at)
        (V.decoded b (at + value_offset K.kind V.kind)) };

    /// The pair of both native values. The key is made first.
    fn deserialize(
        alloc: Global,
        view: &View<'_, Entry<K, V>>,
    ) -> Result<(T, U), DeserializeFault> {
        let key = K::deserialize(alloc, &view.key())?;
        let value = V::deserialize(alloc, &view.value())?;
        Ok((key, value))
    }

    ghost by_meaning = { pair_by_meaning K.by_meaning V.by_meaning };

    ghost model_whole = { pair_model_whole K.model_whole V.model_whole };
}

impl<T: Ord + Drop, U: Ord, K: DeserializeKey<T>, V: DeserializeKey<U>> DeserializeKey<(T, U)>
    for Entry<K, V> {
    fn equal_keys_are_same() -> bool {
        K::equal_keys_are_same() && V::equal_keys_are_same()
    }

    ghost ordered_as_model = { λ e f. then_alike
        (K.ordered_as_model e.0 f.0) (V.ordered_as_model e.1 f.1) };

    ghost total = { then_total (on_total (λ e. e.0) K.total) (on_total (λ e. e.1) V.total) };
}
