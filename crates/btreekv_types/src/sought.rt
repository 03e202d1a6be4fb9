//! Keys that are sought in archives which aren't read whole.
ghost use Rattle.std.specs.Prelude.{◌≡◌};
ghost use Rattle.btreekv_types.specs.Sought.{sought_compares};

use btreekv_items::item::Item;
use rkyv_btree_portable::check::{CheckBytes, Portable, Window};
use rkyv_btree_portable::refusal::Refusal;
use rkyv_btree_source::fault::SourceFault;
use rkyv_btree_source::fetch::Fetch;
use rkyv_btree_source::reader::Reader;
use rkyv_btree_source::source::ReadAt;
use rkyv_btree_view::compare_native::CompareWith;
use rkyv_btree_view::view::View;
use rkyv_btree_walk::shows::Shows;
use std::cmp::Ordering;
use std::marker::PhantomData;

/// A native key that is sought among archived ones.
#[derive(Drop)]
pub struct Sought<K: Item> {
    pub native: K::Native,
}

/// An archived type of items as that of keys, which are compared with sought ones in the order of the items.
pub struct KeyOf<K> {
    item: PhantomData<K>,
}

impl<K: Portable> Portable for KeyOf<K> {
    ghost kind = { K.kind };

    fn size() -> u32 {
        K::size()
    }

    fn align() -> u32 {
        K::align()
    }

    fn fits() -> bool {
        K::fits()
    }

    ghost laws = { K.laws };
}

impl<K: CheckBytes> CheckBytes for KeyOf<K> {
    ghost Refuses = { K.Refuses };

    fn check(buf: &[u8], pos: u32, window: Window) -> Result<Window, Refusal> {
        K::check(buf, pos, window)
    }

    ghost refusals = { K.refusals };
}

impl<K: Fetch> Fetch for KeyOf<K> {
    ghost lengths = { K.lengths };

    fn fetch<S: ReadAt>(
        own_bytes: &[u8],
        pos: u32,
        reader: &mut Reader<S>,
        room: &mut [u8],
    ) -> Result<u32, SourceFault<S::Error>> {
        K::fetch(own_bytes, pos, reader, room)
    }
}

/// Returns the view of an item that a key is.
pub(crate) fn item_of<'a, K: Portable>(key: &View<'a, KeyOf<K>>) -> View<'a, K>
    ensures buffer { result.buf.now ≡ key.now.buf.now }
    ensures position { result.pos ≡ key.now.pos }
{
    View::<K>::at(key.buf, key.pos)
}

impl<K: Item> CompareWith<Sought<K>> for KeyOf<K> {
    ghost compared_at = { λ sought b at. K.order (K.native_value sought.native) (K.value_at b at) };

    fn compare_with(sought: &Sought<K>, view: &View<'_, KeyOf<K>>) -> Ordering {
        K::compare_native(&sought.native, &item_of::<K>(view))
    }

    ghost compares = { sought_compares K.total K.same_values };
}
