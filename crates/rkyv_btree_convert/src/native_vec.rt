//! Native vectors from views of vectors.
ghost use Rattle.std.specs.Cmp.Lexicographic.{slice_cmp};
ghost use Rattle.std.specs.Prelude.{◌≡◌, ◌++◌, ◌∷◌, [], IfErr, IfOk, List, Ok, OnOk, map};
ghost use Rattle.rkyv_btree_convert.specs.Deserializing.{IsRefused};
ghost use Rattle.rkyv_btree_convert.specs.Vectors.{vector_decoded};
ghost use Rattle.rkyv_btree_convert.specs.laws.Vectors.{vector_by_meaning, vector_model_whole};

use crate::deserialize::{Deserialize, DeserializeFault};
use rkyv_btree_compound::vec_iter::VecIter;
use rkyv_btree_compound::vector::ArchivedVec;
use rkyv_btree_view::view::View;
use std::alloc::{AllocError, Global};

/// Appends the native value of an element to a list.
pub(crate) fn push_native<N: PartialEq + Drop, T: Deserialize<N>>(
    alloc: Global,
    element: &View<'_, T>,
    natives: &mut Vec<N>,
) -> Result<(), DeserializeFault>
    ensures ok { OnOk result
        ((m : T.Model) × (T.decoded element.now.buf.now element.now.pos ≡ Ok m)
        × (map T.model natives.new.items ≡ map T.model natives.old.items ++ m ∷ [])) }
    ensures refused { IfErr result (IsRefused (T.decoded element.now.buf.now element.now.pos)) }
{
    let native = T::deserialize(alloc, element)?;
    let Ok(_) = natives.push(native) else {
        return Err(DeserializeFault::Memory(AllocError));
    };
    Ok(())
}

impl<N: PartialEq + Drop, T: Deserialize<N>> Deserialize<Vec<N>> for ArchivedVec<T> {
    ghost Model = { List T.Model };

    ghost model = { λ natives. map T.model natives.items };

    ghost model_order = { slice_cmp T.model_order };

    ghost decoded = { vector_decoded T.kind T.decoded };

    /// Returns the native values of the elements in their order, or the error of the first that fails.
    fn deserialize(
        alloc: Global,
        view: &View<'_, ArchivedVec<T>>,
    ) -> Result<Vec<N>, DeserializeFault> {
        let mut elements = VecIter::new(*view);
        let Ok(mut natives) = Vec::with_capacity(alloc, elements.len()) else {
            return Err(DeserializeFault::Memory(AllocError));
        };
        while let Some(element) = elements.next() {
            push_native(alloc, &element, &mut natives)?;
        }
        Ok(natives)
    }

    ghost by_meaning = { vector_by_meaning T.kind T.by_meaning };

    ghost model_whole = { λ x y. vector_model_whole T.model_whole x.items y.items };
}
