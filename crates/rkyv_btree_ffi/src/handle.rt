//! Maps that C has opened.
ghost use Rattle.std.specs.Prelude.{◌≡◌, IsTrue, Some};
ghost use Rattle.rkyv_btree_portable.specs.Views.{stands};
ghost use Rattle.rkyv_btree_ffi.specs.MapTypes.{type_of, kind_of};

/// A map in a buffer of the caller's. It is open if `map_type` is the number of a type.
#[repr(C)]
#[derive(Drop)]
pub struct BtreeMap<'a> {
    /// The buffer. It doesn't change while the map is open.
    pub buf: &'a [u8],
    /// The position of the map's own eight bytes.
    pub pos: u32,
    /// The number of the map's type, or 0.
    pub map_type: u32,
    pub ghost valid: { (t : _) → type_of map_type ≡ Some t →
        IsTrue (stands (kind_of t) buf.now pos) },
}

/// A map in a buffer of the caller's, whose values are overwritten. It is open if `map_type` is the number of a type.
#[repr(C)]
#[derive(Drop)]
pub struct BtreeEdit<'a> {
    /// The buffer. Nothing else reads or writes it while the map is open.
    pub buf: &'a mut [u8],
    /// The position of the map's own eight bytes.
    pub pos: u32,
    /// The number of the map's type, or 0.
    pub map_type: u32,
    pub ghost valid: { (t : _) → type_of map_type ≡ Some t →
        IsTrue (stands (kind_of t) buf.now pos) },
}
