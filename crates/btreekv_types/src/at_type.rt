//! Calls at the types of keys and of values.

/// Calls a function at the archived type of a type that has no parts. It comes after the type arguments of the call.
#[macro_export]
macro_rules! at_plain {
    ($plain:expr, $call:ident($($argument:expr),*)) => {
        at_plain!($plain, $call::<>($($argument),*))
    };
    ($plain:expr, $call:ident::<$($before:ident),*>($($argument:expr),*)) => {
        match $plain {
            PlainType::U8 => $call::<$($before,)* u8>($($argument),*),
            PlainType::U16 => $call::<$($before,)* ArchivedU16>($($argument),*),
            PlainType::U32 => $call::<$($before,)* ArchivedU32>($($argument),*),
            PlainType::U64 => $call::<$($before,)* ArchivedU64>($($argument),*),
            PlainType::I32 => $call::<$($before,)* ArchivedI32>($($argument),*),
            PlainType::I64 => $call::<$($before,)* ArchivedI64>($($argument),*),
            PlainType::Text => $call::<$($before,)* ArchivedText>($($argument),*),
            PlainType::Bytes => $call::<$($before,)* ArchivedBytes>($($argument),*),
        }
    };
}

/// Calls a function at the archived type of a type of values that may be none. It comes after the type arguments of the call.
#[macro_export]
macro_rules! at_option {
    ($option:expr, $call:ident::<$($before:ident),*>($($argument:expr),*)) => {
        match $option {
            OptionType::U32 => $call::<$($before,)* OptionU32>($($argument),*),
            OptionType::U64 => $call::<$($before,)* OptionU64>($($argument),*),
            OptionType::I64 => $call::<$($before,)* OptionI64>($($argument),*),
        }
    };
}

/// Calls a function at the archived type of a type of tuples. It comes after the type arguments of the call.
#[macro_export]
macro_rules! at_tuple {
    ($tuple:expr, $call:ident($($argument:expr),*)) => {
        at_tuple!($tuple, $call::<>($($argument),*))
    };
    ($tuple:expr, $call:ident::<$($before:ident),*>($($argument:expr),*)) => {
        match $tuple {
            TupleType::PairU32U32 => $call::<$($before,)* PairU32U32>($($argument),*),
            TupleType::PairU64U64 => $call::<$($before,)* PairU64U64>($($argument),*),
            TupleType::PairU32Text => $call::<$($before,)* PairU32Text>($($argument),*),
            TupleType::TripleU32 => $call::<$($before,)* TripleU32>($($argument),*),
            TupleType::TripleU64 => $call::<$($before,)* TripleU64>($($argument),*),
        }
    };
}

/// Calls a function at the archived type of a common type. It comes after the type arguments of the call.
#[macro_export]
macro_rules! at_common {
    ($common:expr, $call:ident::<$($before:ident),*>($($argument:expr),*)) => {
        match $common {
            CommonType::U32 => $call::<$($before,)* ArchivedU32>($($argument),*),
            CommonType::U64 => $call::<$($before,)* ArchivedU64>($($argument),*),
            CommonType::Text => $call::<$($before,)* ArchivedText>($($argument),*),
        }
    };
}
