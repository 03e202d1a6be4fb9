//! The types of the keys and the values of maps, which are known when the program runs.
ghost use Rattle.std.specs.Prelude.{◌≡◌, IfNone, IfSome, IsTrue, Some};
ghost use Rattle.rkyv_btree_format.specs.Layout.{are_fitting};
ghost use Rattle.btreekv_types.specs.AnyTypes.{kind_at, plain_of};
ghost use Rattle.btreekv_types.specs.Types.{DoesAt, DoesTo, key_of, types_of, value_of};
ghost use Rattle.btreekv_types.specs.declared.any_type.AnyType.{AnyType as AnyTypeOf};
ghost use Rattle.btreekv_types.specs.declared.any_type.AnyType.TheVariants.{Optional, Plain as PlainOf, Tuple};
ghost use Rattle.btreekv_types.specs.declared.types.PlainTypes.{PlainTypes as PlainTypesOf};
ghost use Rattle.btreekv_types.specs.declared.types.Types.{Types as TypesOf};
ghost use Rattle.btreekv_types.specs.declared.types.Types.TheVariants.{Plain, ToOptions, ToTuples, TupleKeys};

use crate::any_type::AnyType;
use crate::command::TypedCommand;
use crate::common_type::CommonType;
use crate::fault::TypedFault;
use crate::option_type::OptionType;
use crate::output::run_of;
use crate::plain_type::PlainType;
use crate::tuple_type::TupleType;
use crate::{at_common, at_option, at_plain, at_tuple};
use btreekv_items::archived::{
    OptionI64, OptionU32, OptionU64, PairU32Text, PairU32U32, PairU64U64, TripleU32, TripleU64,
};
use btreekv_items::item::{BytesStyle, Item};
use rkyv_btree_portable::byte_string::ArchivedBytes;
use rkyv_btree_portable::numbers::{ArchivedU16, ArchivedU32, ArchivedU64};
use rkyv_btree_portable::signed::{ArchivedI32, ArchivedI64};
use rkyv_btree_portable::text::ArchivedText;
use std::alloc::Global;
use std::io::Write;

/// The types of the keys and the values of a map, which have no parts.
#[derive(Clone, Copy, Debug, PartialEq, Eq)]
pub struct PlainTypes {
    pub key: PlainType,
    pub value: PlainType,
}

/// The types of the keys and the values of a map.
#[derive(Clone, Copy, Debug, PartialEq, Eq)]
pub enum Types {
    /// Keys and values that have no parts.
    Plain(PlainTypes),
    /// Keys of a common type, and values that may be none.
    ToOptions(CommonType, OptionType),
    /// Keys of a common type, and values that are tuples.
    ToTuples(CommonType, TupleType),
    /// Keys that are tuples, and values of a common type.
    TupleKeys(TupleType, CommonType),
}

/// Returns the types of keys that have no parts and of values, or `None` if the program has no maps of both.
fn of_plain_keys(key: PlainType, value: AnyType) -> Option<Types>
    ensures key { IfSome result (λ types. key_of types ≡ PlainOf key) }
    ensures value { IfSome result (λ types. value_of types ≡ value) }
    ensures none { IfNone result ((types : TypesOf) → key_of types ≡ PlainOf key → value_of types ≡ value → ⊥) }
{
    match value {
        AnyType::Plain(value) => Some(Types::Plain(PlainTypes { key, value })),
        AnyType::Optional(value) => match CommonType::from_plain(key) {
            Some(key) => Some(Types::ToOptions(key, value)),
            None => None,
        },
        AnyType::Tuple(value) => match CommonType::from_plain(key) {
            Some(key) => Some(Types::ToTuples(key, value)),
            None => None,
        },
    }
}

/// Returns the types of keys that are tuples and of values, or `None` if the program has no maps of both.
fn of_tuple_keys(key: TupleType, value: AnyType) -> Option<Types>
    ensures key { IfSome result (λ types. key_of types ≡ Tuple key) }
    ensures value { IfSome result (λ types. value_of types ≡ value) }
    ensures none { IfNone result ((types : TypesOf) → key_of types ≡ Tuple key → value_of types ≡ value → ⊥) }
{
    let AnyType::Plain(value) = value else {
        return None;
    };
    match CommonType::from_plain(value) {
        Some(value) => Some(Types::TupleKeys(key, value)),
        None => None,
    }
}

impl Types {
    /// Returns the types of keys and of values, or `None` if the program has no maps of both.
    pub fn of(key: AnyType, value: AnyType) -> Option<Types>
        ensures key { IfSome result (λ types. key_of types ≡ key) }
        ensures value { IfSome result (λ types. value_of types ≡ value) }
        ensures none { IfNone result ((types : TypesOf) → key_of types ≡ key → value_of types ≡ value → ⊥) }
    {
        match key {
            AnyType::Plain(key) => of_plain_keys(key, value),
            AnyType::Optional(_) => None,
            AnyType::Tuple(key) => of_tuple_keys(key, value),
        }
    }

    /// Returns the type of the keys.
    pub fn key(self) -> AnyType
        ensures { result ≡ key_of self }
    {
        match self {
            Types::Plain(plain) => AnyType::Plain(plain.key),
            Types::ToOptions(key, _) => AnyType::Plain(key.plain()),
            Types::ToTuples(key, _) => AnyType::Plain(key.plain()),
            Types::TupleKeys(key, _) => AnyType::Tuple(key),
        }
    }

    /// Returns the type of the values.
    pub fn value(self) -> AnyType
        ensures { result ≡ value_of self }
    {
        match self {
            Types::Plain(plain) => AnyType::Plain(plain.value),
            Types::ToOptions(_, value) => AnyType::Optional(value),
            Types::ToTuples(_, value) => AnyType::Tuple(value),
            Types::TupleKeys(_, value) => AnyType::Plain(value.plain()),
        }
    }

    /// Returns both types, or `None` if one of them has parts.
    pub fn plain(self) -> Option<PlainTypes>
        ensures some { IfSome result (λ plain. self ≡ Plain plain) }
        ensures none { IfNone result ((plain : PlainTypesOf) → self ≡ Plain plain → ⊥) }
    {
        match self {
            Types::Plain(plain) => Some(plain),
            _ => None,
        }
    }
}

/// Runs a command over an input, as a map to values of a type that has no parts, and returns the exit status.
fn run_to_plain<W: Write, K: Item>(
    plain: PlainType,
    alloc: Global,
    style: BytesStyle,
    command: &TypedCommand,
    input: &[u8],
    output: &mut W,
) -> Result<u8, TypedFault>
    requires { IsTrue (are_fitting K.kind (kind_at (PlainOf plain)) 5) }
    ensures { DoesTo K.Native.archival K.kind K.order K.value_at K.native_value K.term K.IsValue
        (K.spelling style) (PlainOf plain) style command.now (Some input.now)
        (W.contents output.old) (W.contents output.new) result }
{
    at_plain!(plain, run_of::<W, K>(alloc, style, command, input, output))
}

/// Runs it over maps to values that may be none.
fn run_to_option<W: Write, K: Item>(
    option: OptionType,
    alloc: Global,
    style: BytesStyle,
    command: &TypedCommand,
    input: &[u8],
    output: &mut W,
) -> Result<u8, TypedFault>
    requires { IsTrue (are_fitting K.kind (kind_at (Optional option)) 5) }
    ensures { DoesTo K.Native.archival K.kind K.order K.value_at K.native_value K.term K.IsValue
        (K.spelling style) (Optional option) style command.now (Some input.now)
        (W.contents output.old) (W.contents output.new) result }
{
    at_option!(option, run_of::<W, K>(alloc, style, command, input, output))
}

/// Runs it over maps to tuples.
fn run_to_tuple<W: Write, K: Item>(
    tuple: TupleType,
    alloc: Global,
    style: BytesStyle,
    command: &TypedCommand,
    input: &[u8],
    output: &mut W,
) -> Result<u8, TypedFault>
    requires { IsTrue (are_fitting K.kind (kind_at (Tuple tuple)) 5) }
    ensures { DoesTo K.Native.archival K.kind K.order K.value_at K.native_value K.term K.IsValue
        (K.spelling style) (Tuple tuple) style command.now (Some input.now)
        (W.contents output.old) (W.contents output.new) result }
{
    at_tuple!(tuple, run_of::<W, K>(alloc, style, command, input, output))
}

/// Runs it over maps to values of a common type.
fn run_to_common<W: Write, K: Item>(
    common: CommonType,
    alloc: Global,
    style: BytesStyle,
    command: &TypedCommand,
    input: &[u8],
    output: &mut W,
) -> Result<u8, TypedFault>
    requires { IsTrue (are_fitting K.kind (kind_at (PlainOf (plain_of common))) 5) }
    ensures { DoesTo K.Native.archival K.kind K.order K.value_at K.native_value K.term K.IsValue
        (K.spelling style) (PlainOf (plain_of common)) style command.now (Some input.now)
        (W.contents output.old) (W.contents output.new) result }
{
    at_common!(common, run_of::<W, K>(alloc, style, command, input, output))
}

/// Runs a command over an input, as a map of two types that have no parts.
fn run_plain<W: Write>(
    types: PlainTypes,
    alloc: Global,
    style: BytesStyle,
    command: &TypedCommand,
    input: &[u8],
    output: &mut W,
) -> Result<u8, TypedFault>
    ensures { DoesAt (Plain types) style command.now (Some input.now)
        (W.contents output.old) (W.contents output.new) result }
{
    let value = types.value;
    at_plain!(
        types.key,
        run_to_plain::<W>(value, alloc, style, command, input, output)
    )
}

/// Runs it over maps of a common type to values that may be none.
fn run_to_options<W: Write>(
    key: CommonType,
    value: OptionType,
    alloc: Global,
    style: BytesStyle,
    command: &TypedCommand,
    input: &[u8],
    output: &mut W,
) -> Result<u8, TypedFault>
    ensures { DoesAt (ToOptions key value) style command.now (Some input.now)
        (W.contents output.old) (W.contents output.new) result }
{
    at_common!(
        key,
        run_to_option::<W>(value, alloc, style, command, input, output)
    )
}

/// Runs it over maps of a common type to tuples.
fn run_to_tuples<W: Write>(
    key: CommonType,
    value: TupleType,
    alloc: Global,
    style: BytesStyle,
    command: &TypedCommand,
    input: &[u8],
    output: &mut W,
) -> Result<u8, TypedFault>
    ensures { DoesAt (ToTuples key value) style command.now (Some input.now)
        (W.contents output.old) (W.contents output.new) result }
{
    at_common!(
        key,
        run_to_tuple::<W>(value, alloc, style, command, input, output)
    )
}

/// Runs it over maps of tuples to values of a common type.
fn run_tuple_keys<W: Write>(
    key: TupleType,
    value: CommonType,
    alloc: Global,
    style: BytesStyle,
    command: &TypedCommand,
    input: &[u8],
    output: &mut W,
) -> Result<u8, TypedFault>
    ensures { DoesAt (TupleKeys key value) style command.now (Some input.now)
        (W.contents output.old) (W.contents output.new) result }
{
    at_tuple!(
        key,
        run_to_common::<W>(value, alloc, style, command, input, output)
    )
}

/// Runs a command over an input, as a map of two types, and returns the exit status.
pub(crate) fn run_at<W: Write>(
    types: Types,
    alloc: Global,
    style: BytesStyle,
    command: &TypedCommand,
    input: &[u8],
    output: &mut W,
) -> Result<u8, TypedFault>
    ensures { DoesAt types style command.now (Some input.now)
        (W.contents output.old) (W.contents output.new) result }
{
    match types {
        Types::Plain(plain) => run_plain(plain, alloc, style, command, input, output),
        Types::ToOptions(key, value) => {
            run_to_options(key, value, alloc, style, command, input, output)
        }
        Types::ToTuples(key, value) => {
            run_to_tuples(key, value, alloc, style, command, input, output)
        }
        Types::TupleKeys(key, value) => {
            run_tuple_keys(key, value, alloc, style, command, input, output)
        }
    }
}
