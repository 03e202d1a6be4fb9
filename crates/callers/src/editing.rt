//! Editing a price list in place.

use crate::reading::Prices;
use rkyv_btree::prelude::*;

/// Validates a whole archive, and returns its map for edits.
pub fn open_prices(bytes: &mut [u8]) -> Result<MapSeal<'_, Prices>, Refusal> {
    sizes_fit::<Prices>();
    open_mut(bytes)
}

/// Overwrites the price of a name, and returns whether the name is there.
pub fn set_price(bytes: &mut [u8], name: &str, price: u64) -> Result<bool, Refusal> {
    let mut map = open_prices(bytes)?;
    Ok(map.set_by(name, price))
}

/// Overwrites the price of a name in bytes from elsewhere, and returns whether the name is there.
pub fn set_price_strict(bytes: &mut [u8], name: &str, price: u64) -> Result<bool, Refusal> {
    sizes_fit::<Prices>();
    let mut map = open_strict_mut::<Prices>(bytes)?;
    Ok(map.set_by(name, price))
}

/// Adds to the price of a name, and returns the old price.
pub fn raise_price(bytes: &mut [u8], name: &str, amount: u64) -> Result<Option<u64>, Refusal> {
    let mut map = open_prices(bytes)?;
    let old = map.with_seal_by(
        name,
        move |_: LentKey<ArchivedText>, price: &mut Seal<ArchivedU64>| {
            let old = price.read();
            price.write(old.wrapping_add(amount));
            old
        },
    );
    Ok(old)
}

/// Doubles all prices by a visit.
pub fn double_all(bytes: &mut [u8]) -> Result<(), Refusal> {
    let mut map = open_prices(bytes)?;
    map.visit_seal(|_: LentKey<ArchivedText>, price: &mut Seal<ArchivedU64>| {
        let old = price.read();
        price.write(old.wrapping_add(old));
        ControlFlow::<(), ()>::Continue(())
    });
    Ok(())
}

/// Doubles all prices along a cursor.
pub fn double_along(bytes: &mut [u8]) -> Result<(), Refusal> {
    let mut cursor = open_prices(bytes)?.iter_seal();
    while cursor.next() {
        let old = cursor.read();
        cursor.write(old.wrapping_add(old));
    }
    Ok(())
}
