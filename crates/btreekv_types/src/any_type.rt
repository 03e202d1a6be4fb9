//! The types of keys and values that the program knows.
ghost use Rattle.std.specs.Prelude.{◌≡◌, IfNone, IfSome, Some};
ghost use Rattle.btreekv_types.specs.AnyTypes.{item_of, type_name};
ghost use Rattle.btreekv_types.specs.declared.any_type.AnyType.{AnyType as AnyTypeOf};

use crate::option_type::OptionType;
use crate::plain_type::PlainType;
use crate::tuple_type::TupleType;
use btreekv_items::item_type::ItemType;
use std::fmt;

/// A type of keys or of values.
#[derive(Clone, Copy, Debug, PartialEq, Eq)]
pub enum AnyType {
    /// One that has no parts.
    Plain(PlainType),
    /// That of values that may be none.
    Optional(OptionType),
    /// That of tuples.
    Tuple(TupleType),
}

impl AnyType {
    /// Returns the type that a type of items is, or `None` if the program has no maps of it.
    fn from_item(item: ItemType) -> Option<AnyType>
        ensures some { IfSome result (λ found. item_of found ≡ item) }
        ensures none { IfNone result ((any : AnyTypeOf) → item_of any ≡ item → ⊥) }
    {
        match item {
            ItemType::U8 => Some(AnyType::Plain(PlainType::U8)),
            ItemType::U16 => Some(AnyType::Plain(PlainType::U16)),
            ItemType::U32 => Some(AnyType::Plain(PlainType::U32)),
            ItemType::U64 => Some(AnyType::Plain(PlainType::U64)),
            ItemType::I32 => Some(AnyType::Plain(PlainType::I32)),
            ItemType::I64 => Some(AnyType::Plain(PlainType::I64)),
            ItemType::Text => Some(AnyType::Plain(PlainType::Text)),
            ItemType::Bytes => Some(AnyType::Plain(PlainType::Bytes)),
            ItemType::OptionU32 => Some(AnyType::Optional(OptionType::U32)),
            ItemType::OptionU64 => Some(AnyType::Optional(OptionType::U64)),
            ItemType::OptionI64 => Some(AnyType::Optional(OptionType::I64)),
            ItemType::PairU32U32 => Some(AnyType::Tuple(TupleType::PairU32U32)),
            ItemType::PairU64U64 => Some(AnyType::Tuple(TupleType::PairU64U64)),
            ItemType::PairU32Text => Some(AnyType::Tuple(TupleType::PairU32Text)),
            ItemType::TripleU32 => Some(AnyType::Tuple(TupleType::TripleU32)),
            ItemType::TripleU64 => Some(AnyType::Tuple(TupleType::TripleU64)),
            _ => None,
        }
    }

    /// Returns the type of a name, as a typed file has it, or `None` if no type has it: `u32`, `option(u64)`, `(u32, text)`.
    pub fn from_name(name: &str) -> Option<AnyType>
        ensures some { IfSome result (λ found. type_name found ≡ name.now) }
        ensures none { IfNone result ((any : AnyTypeOf) → type_name any ≡ name.now → ⊥) }
    {
        match ItemType::from_name(name) {
            Some(item) => AnyType::from_item(item),
            None => None,
        }
    }

    /// Returns the same type among all types of items.
    fn item(self) -> ItemType
        ensures { result ≡ item_of self }
    {
        match self {
            AnyType::Plain(PlainType::U8) => ItemType::U8,
            AnyType::Plain(PlainType::U16) => ItemType::U16,
            AnyType::Plain(PlainType::U32) => ItemType::U32,
            AnyType::Plain(PlainType::U64) => ItemType::U64,
            AnyType::Plain(PlainType::I32) => ItemType::I32,
            AnyType::Plain(PlainType::I64) => ItemType::I64,
            AnyType::Plain(PlainType::Text) => ItemType::Text,
            AnyType::Plain(PlainType::Bytes) => ItemType::Bytes,
            AnyType::Optional(OptionType::U32) => ItemType::OptionU32,
            AnyType::Optional(OptionType::U64) => ItemType::OptionU64,
            AnyType::Optional(OptionType::I64) => ItemType::OptionI64,
            AnyType::Tuple(TupleType::PairU32U32) => ItemType::PairU32U32,
            AnyType::Tuple(TupleType::PairU64U64) => ItemType::PairU64U64,
            AnyType::Tuple(TupleType::PairU32Text) => ItemType::PairU32Text,
            AnyType::Tuple(TupleType::TripleU32) => ItemType::TripleU32,
            AnyType::Tuple(TupleType::TripleU64) => ItemType::TripleU64,
        }
    }

    /// Returns the name.
    pub fn name(self) -> &'static str
        ensures { result.now ≡ type_name self }
    {
        self.item().name()
    }
}

impl fmt::Display for AnyType {
    ghost output = { λ any. Some (type_name any) };

    fn fmt<W: fmt::Write>(&self, f: &mut fmt::Formatter<W>) -> fmt::Result {
        let name = self.name();
        write!(f, "{name}")
    }
}
