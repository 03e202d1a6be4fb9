//! Calls at the types of keys and of values.

/// Calls a function at the archived type of an item type. It comes after the type arguments of the call.
#[macro_export]
macro_rules! at_item {
    ($item_type:expr, $call:ident($($argument:expr),*)) => {
        $crate::at_item!($item_type, $call::<>($($argument),*))
    };
    ($item_type:expr, $call:ident::<$($before:ident),*>($($argument:expr),*)) => {
        match $item_type {
            $crate::item_type::ItemType::U8 => $call::<$($before,)* u8>($($argument),*),
            $crate::item_type::ItemType::U16 => $call::<$($before,)* $crate::archived::ArchivedU16>($($argument),*),
            $crate::item_type::ItemType::U32 => $call::<$($before,)* $crate::archived::ArchivedU32>($($argument),*),
            $crate::item_type::ItemType::U64 => $call::<$($before,)* $crate::archived::ArchivedU64>($($argument),*),
            $crate::item_type::ItemType::U128 => $call::<$($before,)* $crate::archived::ArchivedU128>($($argument),*),
            $crate::item_type::ItemType::I8 => $call::<$($before,)* i8>($($argument),*),
            $crate::item_type::ItemType::I16 => $call::<$($before,)* $crate::archived::ArchivedI16>($($argument),*),
            $crate::item_type::ItemType::I32 => $call::<$($before,)* $crate::archived::ArchivedI32>($($argument),*),
            $crate::item_type::ItemType::I64 => $call::<$($before,)* $crate::archived::ArchivedI64>($($argument),*),
            $crate::item_type::ItemType::I128 => $call::<$($before,)* $crate::archived::ArchivedI128>($($argument),*),
            $crate::item_type::ItemType::Bool => $call::<$($before,)* bool>($($argument),*),
            $crate::item_type::ItemType::Char => $call::<$($before,)* $crate::archived::ArchivedChar>($($argument),*),
            $crate::item_type::ItemType::Text => $call::<$($before,)* $crate::archived::ArchivedText>($($argument),*),
            $crate::item_type::ItemType::Bytes => $call::<$($before,)* $crate::archived::ArchivedBytes>($($argument),*),
            $crate::item_type::ItemType::Empty => $call::<$($before,)* ()>($($argument),*),
            $crate::item_type::ItemType::OptionU32 => $call::<$($before,)* $crate::archived::OptionU32>($($argument),*),
            $crate::item_type::ItemType::OptionU64 => $call::<$($before,)* $crate::archived::OptionU64>($($argument),*),
            $crate::item_type::ItemType::OptionI64 => $call::<$($before,)* $crate::archived::OptionI64>($($argument),*),
            $crate::item_type::ItemType::PairU32U32 => $call::<$($before,)* $crate::archived::PairU32U32>($($argument),*),
            $crate::item_type::ItemType::PairU64U64 => $call::<$($before,)* $crate::archived::PairU64U64>($($argument),*),
            $crate::item_type::ItemType::PairU32Text => $call::<$($before,)* $crate::archived::PairU32Text>($($argument),*),
            $crate::item_type::ItemType::TripleU32 => $call::<$($before,)* $crate::archived::TripleU32>($($argument),*),
            $crate::item_type::ItemType::TripleU64 => $call::<$($before,)* $crate::archived::TripleU64>($($argument),*),
        }
    };
}
