//! Many keys that are looked up at once, in maps whose keys increase.
ghost use Rattle.std.specs.BTreeMap.{is_at};
ghost use Rattle.std.specs.Cmp.Lexicographic.{slice_cmp};
ghost use Rattle.std.specs.Map.{lookup};
ghost use Rattle.std.specs.Ordering.{nat_cmp};
ghost use Rattle.std.specs.Prelude.{◌≡◌, IfOk, map};
ghost use Rattle.rkyv_btree.specs.View.{entries_of};
ghost use Rattle.rkyv_btree_base.specs.Scalars.{u32_kind};
ghost use Rattle.rkyv_btree_base.specs.Text.{text_kind};

use rkyv_btree::base::numbers::ArchivedU32;
use rkyv_btree::base::text::ArchivedText;
use rkyv_btree::strict::StrictView;
use rkyv_btree::view::View;
use std::alloc::{AllocError, Global};

/// Returns the values of keys, in the order of the keys.
pub fn values_of(
    alloc: Global,
    numbers: StrictView<'_, ArchivedU32, ArchivedU32, 5>,
    keys: &[u32],
) -> Result<Vec<Option<u32>>, AllocError>
    ensures { IfOk result (λ values. values.items
        ≡ map (λ key. lookup (is_at (nat_cmp key)) (entries_of u32_kind u32_kind 5 numbers.entry.view))
        keys.now) }
{
    let mut values = Vec::new(alloc);
    for value in numbers.get_many_by(keys) {
        values.push(value.map(|value: View<ArchivedU32>| value.to_native()))?;
    }
    Ok(values)
}

/// Returns the prices of names, in the order of the names.
pub fn prices_of(
    alloc: Global,
    prices: StrictView<'_, ArchivedText, ArchivedU32, 5>,
    names: &[&str],
) -> Result<Vec<Option<u32>>, AllocError>
    ensures { IfOk result (λ found. found.items
        ≡ map (λ name. lookup (is_at (slice_cmp nat_cmp name.now))
        (entries_of text_kind u32_kind 5 prices.entry.view)) names.now) }
{
    let mut found = Vec::new(alloc);
    for price in prices.get_many_by(names) {
        found.push(price.map(|price: View<ArchivedU32>| price.to_native()))?;
    }
    Ok(found)
}
