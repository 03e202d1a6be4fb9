//! Values that are written over in maps of two types, which are known when the program runs.
ghost use Rattle.std.specs.Prelude.{IfErr, IfOk, IsTrue};
ghost use Rattle.rkyv_btree_format.specs.Layout.{are_fitting};
ghost use Rattle.btreekv_types.specs.AnyTypes.{kind_at, plain_of};
ghost use Rattle.btreekv_types.specs.OverwritingTypes.{EndsWithAt, EndsWithTo, FailsToOverwriteAt, FailsToOverwriteTo};
ghost use Rattle.btreekv_types.specs.declared.any_type.AnyType.TheVariants.{Plain};
ghost use Rattle.btreekv_types.specs.declared.types.Types.TheVariants.{Plain as PlainTo, TupleKeys};

use crate::common_type::CommonType;
use crate::overwriting::{OverwriteFault, Place, overwrite_value};
use crate::plain_type::PlainType;
use crate::tuple_type::TupleType;
use crate::types::{PlainTypes, Types};
use crate::{at_plain, at_tuple};
use btreekv_items::archived::{PairU32Text, PairU32U32, PairU64U64, TripleU32, TripleU64};
use btreekv_items::item::{BytesStyle, Item};
use rkyv_btree_portable::byte_string::ArchivedBytes;
use rkyv_btree_portable::numbers::{ArchivedU16, ArchivedU32, ArchivedU64};
use rkyv_btree_portable::signed::{ArchivedI32, ArchivedI64};
use rkyv_btree_portable::text::ArchivedText;
use std::alloc::Global;

/// Writes the value of a text over that of a key in the bytes of a file of maps to values of a type that has no parts.
fn overwrite_plain<K: Item>(
    plain: PlainType,
    alloc: Global,
    style: BytesStyle,
    key: &str,
    value: &str,
    file: &mut [u8],
) -> Result<Option<Place>, OverwriteFault>
    requires { IsTrue (are_fitting K.kind (kind_at (Plain plain)) 5) }
    ensures ok { IfOk result (λ found.
        EndsWithTo K.Native.archival K.kind K.order K.value_at K.native_value K.term K.IsValue
        (K.spelling style) (Plain plain) style file.old key.now value.now found file.new) }
    ensures err { IfErr result
        (FailsToOverwriteTo K.Native.archival K.kind K.order K.value_at K.native_value K.term K.IsValue
        (K.spelling style) (Plain plain) style file.old key.now value.now file.new) }
{
    match plain {
        PlainType::U8 => overwrite_value::<K, u8>(alloc, style, key, value, file),
        PlainType::U16 => overwrite_value::<K, ArchivedU16>(alloc, style, key, value, file),
        PlainType::U32 => overwrite_value::<K, ArchivedU32>(alloc, style, key, value, file),
        PlainType::U64 => overwrite_value::<K, ArchivedU64>(alloc, style, key, value, file),
        PlainType::I32 => overwrite_value::<K, ArchivedI32>(alloc, style, key, value, file),
        PlainType::I64 => overwrite_value::<K, ArchivedI64>(alloc, style, key, value, file),
        PlainType::Text => Err(OverwriteFault::NotOverwritten),
        PlainType::Bytes => Err(OverwriteFault::NotOverwritten),
    }
}

/// Does the same in maps to values of a common type.
fn overwrite_common<K: Item>(
    common: CommonType,
    alloc: Global,
    style: BytesStyle,
    key: &str,
    value: &str,
    file: &mut [u8],
) -> Result<Option<Place>, OverwriteFault>
    requires { IsTrue (are_fitting K.kind (kind_at (Plain (plain_of common))) 5) }
    ensures ok { IfOk result (λ found.
        EndsWithTo K.Native.archival K.kind K.order K.value_at K.native_value K.term K.IsValue
        (K.spelling style) (Plain (plain_of common)) style file.old key.now value.now found file.new) }
    ensures err { IfErr result
        (FailsToOverwriteTo K.Native.archival K.kind K.order K.value_at K.native_value K.term K.IsValue
        (K.spelling style) (Plain (plain_of common)) style file.old key.now value.now file.new) }
{
    match common {
        CommonType::U32 => overwrite_value::<K, ArchivedU32>(alloc, style, key, value, file),
        CommonType::U64 => overwrite_value::<K, ArchivedU64>(alloc, style, key, value, file),
        CommonType::Text => Err(OverwriteFault::NotOverwritten),
    }
}

/// Does the same in maps of two types that have no parts.
fn overwrite_plain_types(
    types: PlainTypes,
    alloc: Global,
    style: BytesStyle,
    key: &str,
    value: &str,
    file: &mut [u8],
) -> Result<Option<Place>, OverwriteFault>
    ensures ok { IfOk result (λ found.
        EndsWithAt (PlainTo types) style file.old key.now value.now found file.new) }
    ensures err { IfErr result
        (FailsToOverwriteAt (PlainTo types) style file.old key.now value.now file.new) }
{
    let to = types.value;
    at_plain!(
        types.key,
        overwrite_plain(to, alloc, style, key, value, file)
    )
}

/// Does the same in maps whose keys are tuples.
fn overwrite_tuple_keys(
    tuple: TupleType,
    to: CommonType,
    alloc: Global,
    style: BytesStyle,
    key: &str,
    value: &str,
    file: &mut [u8],
) -> Result<Option<Place>, OverwriteFault>
    ensures ok { IfOk result (λ found.
        EndsWithAt (TupleKeys tuple to) style file.old key.now value.now found file.new) }
    ensures err { IfErr result
        (FailsToOverwriteAt (TupleKeys tuple to) style file.old key.now value.now file.new) }
{
    at_tuple!(tuple, overwrite_common(to, alloc, style, key, value, file))
}

/// Writes the value of a text over that of a key in the bytes of a file, and returns where it is, or `None` if a look-up of the key finds none.
/// All other bytes are unchanged. The values must be numbers.
///
/// # Errors
///
/// `NotOverwritten` if the values aren't numbers; `NoKey` and `NoValue` if a word is no text of its type; `Misheaded` if another header than
/// that of the map's type comes first; `Refused` with the first error of bytes that are no archive; `InHeader` if the write changes the
/// header; `Memory` if an allocation fails.
pub fn overwrite_at(
    types: Types,
    alloc: Global,
    style: BytesStyle,
    key: &str,
    value: &str,
    file: &mut [u8],
) -> Result<Option<Place>, OverwriteFault>
    ensures ok { IfOk result (λ found.
        EndsWithAt types style file.old key.now value.now found file.new) }
    ensures err { IfErr result
        (FailsToOverwriteAt types style file.old key.now value.now file.new) }
{
    match types {
        Types::Plain(plain) => overwrite_plain_types(plain, alloc, style, key, value, file),
        Types::TupleKeys(tuple, to) => {
            overwrite_tuple_keys(tuple, to, alloc, style, key, value, file)
        }
        _ => Err(OverwriteFault::NotOverwritten),
    }
}
