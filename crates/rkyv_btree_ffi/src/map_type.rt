//! Types of maps, by the number that C has for each.
ghost use Rattle.std.specs.Prelude.{◌≡◌};
ghost use Rattle.rkyv_btree_ffi.specs.MapTypes.{type_of};

/// A type of keys or of values.
#[derive(Clone, Copy, Debug, PartialEq, Eq, Drop)]
pub enum ItemType {
    U32,
    U64,
    I64,
    Text,
    Bytes,
    /// That of the values of a set, which have no bytes. No map has such keys.
    Empty,
}

/// The types of the keys and the values of a map.
#[derive(Clone, Copy, Debug, PartialEq, Eq, Drop)]
pub struct MapType {
    pub key: ItemType,
    pub value: ItemType,
}

impl MapType {
    /// Returns the type with this number, or `None` if no type has it.
    pub fn from_number(number: u32) -> Option<MapType>
        ensures { result ≡ type_of number }
    {
        let (key, value) = match number {
            1 => (ItemType::U32, ItemType::U32),
            2 => (ItemType::U32, ItemType::U64),
            3 => (ItemType::U32, ItemType::Text),
            4 => (ItemType::U64, ItemType::U32),
            5 => (ItemType::U64, ItemType::U64),
            6 => (ItemType::U64, ItemType::Text),
            7 => (ItemType::Text, ItemType::U32),
            8 => (ItemType::Text, ItemType::U64),
            9 => (ItemType::Text, ItemType::Text),
            10 => (ItemType::U32, ItemType::I64),
            11 => (ItemType::U64, ItemType::I64),
            12 => (ItemType::I64, ItemType::U32),
            13 => (ItemType::I64, ItemType::U64),
            14 => (ItemType::I64, ItemType::I64),
            15 => (ItemType::I64, ItemType::Text),
            16 => (ItemType::Text, ItemType::I64),
            17 => (ItemType::U32, ItemType::Bytes),
            18 => (ItemType::U64, ItemType::Bytes),
            19 => (ItemType::I64, ItemType::Bytes),
            20 => (ItemType::Text, ItemType::Bytes),
            21 => (ItemType::Bytes, ItemType::U32),
            22 => (ItemType::Bytes, ItemType::U64),
            23 => (ItemType::Bytes, ItemType::I64),
            24 => (ItemType::Bytes, ItemType::Text),
            25 => (ItemType::Bytes, ItemType::Bytes),
            26 => (ItemType::U32, ItemType::Empty),
            27 => (ItemType::U64, ItemType::Empty),
            28 => (ItemType::I64, ItemType::Empty),
            29 => (ItemType::Text, ItemType::Empty),
            30 => (ItemType::Bytes, ItemType::Empty),
            _ => return None,
        };
        Some(MapType { key, value })
    }
}
