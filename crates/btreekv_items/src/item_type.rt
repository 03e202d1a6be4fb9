//! Types of keys and of values, by their names.
ghost use Rattle.std.specs.Prelude.{◌≡◌, IfNone, IfSome};
ghost use Rattle.btreekv_items.specs.ItemTypes.{name_at};
ghost use Rattle.btreekv_items.specs.declared.item_type.ItemType.{ItemType};

/// A type of keys or of values.
#[derive(Clone, Copy, Debug, PartialEq, Eq, Drop)]
pub enum ItemType {
    U8,
    U16,
    U32,
    U64,
    U128,
    I8,
    I16,
    I32,
    I64,
    I128,
    Bool,
    Char,
    Text,
    Bytes,
    /// That of the values of a set, which have no bytes.
    Empty,
    OptionU32,
    OptionU64,
    OptionI64,
    PairU32U32,
    PairU64U64,
    PairU32Text,
    TripleU32,
    TripleU64,
}

impl ItemType {
    /// Returns the type with a name, as a typed file has it, or `None` if no type has it: `u32`, `text`, `option(u64)`.
    pub fn from_name(name: &str) -> Option<ItemType>
        ensures some { IfSome result (λ item_type. name_at item_type ≡ name.now) }
        ensures none { IfNone result ((item_type : ItemType) → name_at item_type ≡ name.now → ⊥) }
    {
        match name {
            "u8" => Some(ItemType::U8),
            "u16" => Some(ItemType::U16),
            "u32" => Some(ItemType::U32),
            "u64" => Some(ItemType::U64),
            "u128" => Some(ItemType::U128),
            "i8" => Some(ItemType::I8),
            "i16" => Some(ItemType::I16),
            "i32" => Some(ItemType::I32),
            "i64" => Some(ItemType::I64),
            "i128" => Some(ItemType::I128),
            "bool" => Some(ItemType::Bool),
            "char" => Some(ItemType::Char),
            "text" => Some(ItemType::Text),
            "bytes" => Some(ItemType::Bytes),
            "()" => Some(ItemType::Empty),
            "option(u32)" => Some(ItemType::OptionU32),
            "option(u64)" => Some(ItemType::OptionU64),
            "option(i64)" => Some(ItemType::OptionI64),
            "(u32, u32)" => Some(ItemType::PairU32U32),
            "(u64, u64)" => Some(ItemType::PairU64U64),
            "(u32, text)" => Some(ItemType::PairU32Text),
            "(u32, u32, u32)" => Some(ItemType::TripleU32),
            "(u64, u64, u64)" => Some(ItemType::TripleU64),
            _ => None,
        }
    }

    /// Returns the name.
    pub fn name(self) -> &'static str
        ensures { result.now ≡ name_at self }
    {
        match self {
            ItemType::U8 => "u8",
            ItemType::U16 => "u16",
            ItemType::U32 => "u32",
            ItemType::U64 => "u64",
            ItemType::U128 => "u128",
            ItemType::I8 => "i8",
            ItemType::I16 => "i16",
            ItemType::I32 => "i32",
            ItemType::I64 => "i64",
            ItemType::I128 => "i128",
            ItemType::Bool => "bool",
            ItemType::Char => "char",
            ItemType::Text => "text",
            ItemType::Bytes => "bytes",
            ItemType::Empty => "()",
            ItemType::OptionU32 => "option(u32)",
            ItemType::OptionU64 => "option(u64)",
            ItemType::OptionI64 => "option(i64)",
            ItemType::PairU32U32 => "(u32, u32)",
            ItemType::PairU64U64 => "(u64, u64)",
            ItemType::PairU32Text => "(u32, text)",
            ItemType::TripleU32 => "(u32, u32, u32)",
            ItemType::TripleU64 => "(u64, u64, u64)",
        }
    }
}
