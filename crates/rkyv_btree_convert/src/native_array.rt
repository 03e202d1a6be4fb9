//! Native arrays from views of arrays.
ghost use Rattle.std.specs.Cmp.Lexicographic.{lists_total, slice_cmp};
ghost use Rattle.std.specs.Prelude.{◌≡◌, IsTrue, List, map};
ghost use Rattle.std.specs.declared.cmp.Ordering.TheVariants.{Equal};
ghost use Rattle.rkyv_btree_convert.specs.Vectors.{array_decoded};
ghost use Rattle.rkyv_btree_convert.specs.laws.Arrays.{array_by_meaning, arrays_ordered};
ghost use Rattle.rkyv_btree_convert.specs.laws.Vectors.{vector_model_whole};

use crate::deserialize::{Deserialize, DeserializeFault};
use crate::entry_type::EntryType;
use crate::native_key::DeserializeKey;
use crate::native_vec::push_native;
use rkyv_btree_compound::array::ArchivedArray;
use rkyv_btree_compound::array_view::element;
use rkyv_btree_view::view::View;
use std::alloc::{AllocError, Global};

impl<M: PartialEq + Drop, T: Deserialize<M>, const N: usize> Deserialize<[M; N]>
    for ArchivedArray<T, N> {
    ghost Model = { List T.Model };

    ghost model = { λ natives. map T.model natives };

    ghost model_order = { slice_cmp T.model_order };

    ghost decoded = { array_decoded T.kind T.decoded N };

    /// Returns the native values of the elements in their order, or the error of the first that fails.
    fn deserialize(
        alloc: Global,
        view: &View<'_, ArchivedArray<T, N>>,
    ) -> Result<[M; N], DeserializeFault> {
        let Ok(mut natives) = Vec::with_capacity(alloc, N) else {
            return Err(DeserializeFault::Memory(AllocError));
        };
        for i in 0..N {
            push_native(alloc, &element(view, i), &mut natives)?;
        }
        match <[M; N]>::try_from(natives) {
            Ok(array) => Ok(array),
            Err(_) => unreachable!(),
        }
    }

    ghost by_meaning = { array_by_meaning T.kind N T.by_meaning };

    ghost model_whole = { λ x y. vector_model_whole T.model_whole x y };
}

impl<M: Ord + Drop, T: DeserializeKey<M>, const N: usize> DeserializeKey<[M; N]>
    for ArchivedArray<T, N> {
    fn equal_keys_are_same() -> bool {
        T::equal_keys_are_same()
    }

    ghost ordered_as_model = { arrays_ordered T.model T.model_order T.ordered_as_model };

    ghost total = { lists_total T.total };
}

impl<T: EntryType, const N: usize> EntryType for ArchivedArray<T, N> {
    type Owned = [T::Owned; N];
}
