//! Calls at the types of keys and of values.

/// Calls a function at the archived type of a type of keys or of values. It comes after the type arguments of the call.
#[macro_export]
macro_rules! at_type {
    ($item_type:expr, $call:ident($($argument:expr),*)) => {
        at_type!($item_type, $call::<>($($argument),*))
    };
    ($item_type:expr, $call:ident::<$($before:ident),*>($($argument:expr),*)) => {
        match $item_type {
            ItemType::U32 => $call::<$($before,)* ArchivedU32>($($argument),*),
            ItemType::U64 => $call::<$($before,)* ArchivedU64>($($argument),*),
            ItemType::I64 => $call::<$($before,)* ArchivedI64>($($argument),*),
            ItemType::Text => $call::<$($before,)* ArchivedText>($($argument),*),
            ItemType::Bytes => $call::<$($before,)* ArchivedBytes>($($argument),*),
            ItemType::Empty => $call::<$($before,)* ()>($($argument),*),
        }
    };
}
