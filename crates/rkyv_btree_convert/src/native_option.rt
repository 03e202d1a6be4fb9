//! Native options from views of options.
ghost use Rattle.std.specs.Cmp.Lexicographic.{options_total};
ghost use Rattle.std.specs.Option.{option_cmp};
ghost use Rattle.std.specs.Prelude.{Option, option_map};
ghost use Rattle.rkyv_btree_convert.specs.laws.Options.{option_by_meaning, option_decoded, option_model_whole, options_alike};

use crate::deserialize::{Deserialize, DeserializeFault};
use crate::entry_type::EntryType;
use crate::native_key::DeserializeKey;
use rkyv_btree_compound::option::ArchivedOption;
use rkyv_btree_compound::option_view::ViewOption;
use rkyv_btree_view::view::View;
use std::alloc::Global;

impl<N: PartialEq + Drop, T: Deserialize<N>> Deserialize<Option<N>> for ArchivedOption<T> {
    ghost Model = { Option T.Model };

    ghost model = { option_map T.model };

    ghost model_order = { option_cmp T.model_order };

    ghost decoded = { option_decoded T.kind T.decoded };

    /// The native value of the value, or none if the option has none.
    fn deserialize(
        alloc: Global,
        view: &View<'_, ArchivedOption<T>>,
    ) -> Result<Option<N>, DeserializeFault> {
        match view.as_option() {
            Some(value) => match T::deserialize(alloc, &value) {
                Ok(native) => Ok(Some(native)),
                Err(fault) => Err(fault),
            },
            None => Ok(None),
        }
    }

    ghost by_meaning = { option_by_meaning T.kind T.by_meaning };

    ghost model_whole = { option_model_whole T.model_whole };
}

impl<N: Ord + Drop, T: DeserializeKey<N>> DeserializeKey<Option<N>> for ArchivedOption<T> {
    fn equal_keys_are_same() -> bool {
        T::equal_keys_are_same()
    }

    ghost ordered_as_model = { options_alike T.model T.model_order T.ordered_as_model };

    ghost total = { options_total T.total };
}

impl<T: EntryType> EntryType for ArchivedOption<T> {
    type Owned = Option<T::Owned>;
}
