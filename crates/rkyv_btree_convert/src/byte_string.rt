//! Byte strings that are made native.
ghost use Rattle.std.proofs.Common.{refl, rules};
ghost use Rattle.std.proofs.lemmas.Grind.{common_steps};
ghost use Rattle.std.specs.Cmp.Lexicographic.{nat_list_cmp_total, slice_cmp};
ghost use Rattle.std.specs.Ordering.{nat_cmp};
ghost use Rattle.std.specs.Prelude.{◌≡◌, IfErr, IfOk, List, Ok, ℕ};
ghost use Rattle.rkyv_btree_convert.specs.Deserializing.{IsByMeaning, IsRefused};
ghost use Rattle.rkyv_btree_portable.specs.ByteStrings.{bytes_kind};

use crate::deserialize::{Deserialize, DeserializeFault};
use crate::entry_type::EntryType;
use crate::native_key::DeserializeKey;
use rkyv_btree_portable::byte_string::ArchivedBytes;
use rkyv_btree_view::view::View;
use std::alloc::Global;

impl Deserialize<Vec<u8>> for ArchivedBytes {
    ghost Model = { List ℕ };

    ghost model = { λ bytes. bytes.items };

    ghost model_order = { slice_cmp nat_cmp };

    ghost decoded = { λ b p. Ok (bytes_kind.read b p) };

    /// Returns a copy of the bytes. The only error is one of memory.
    fn deserialize(
        alloc: Global,
        view: &View<'_, ArchivedBytes>,
    ) -> Result<Vec<u8>, DeserializeFault> {
        match Vec::from_slice(alloc, view.as_bytes()) {
            Ok(bytes) => Ok(bytes),
            Err(error) => Err(DeserializeFault::Memory(error)),
        }
    }

    ghost by_meaning = { record { of_value = λ bytes. Ok bytes; by_value = λ b at. refl } };

    ghost model_whole = { λ x y same own. Prim.search (rules, common_steps) };
}

impl DeserializeKey<Vec<u8>> for ArchivedBytes {
    fn equal_keys_are_same() -> bool {
        true
    }

    ghost ordered_as_model = { λ x y. refl };

    ghost total = { nat_list_cmp_total };
}

impl EntryType for ArchivedBytes {
    type Owned = Vec<u8>;
}
