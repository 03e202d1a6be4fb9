//! Views of entries. `pair` shows what a caller learns of one.
ghost use Rattle.std.specs.Prelude.{◌≡◌};
ghost use Rattle.rkyv_btree_base.specs.Entry.{entry_kind};
ghost use Rattle.rkyv_btree_base.specs.Scalars.{u8_kind, u32_kind};

use crate::same::{same, shown};
use crate::views::hashed;
use rkyv_btree::view::View;
use rkyv_btree_base::check::Portable;
use rkyv_btree_base::numbers::ArchivedU32;
use rkyv_btree_base::util::Entry;
use std::test::Fail;

type Pair = Entry<u8, ArchivedU32>;

/// The numbers of an entry.
fn pair(view: View<Pair>) -> (u8, u32)
    ensures { result ≡ (entry_kind u8_kind u32_kind).read view.entry.buf.now view.entry.pos }
{
    (view.key().to_native(), view.value().to_native())
}

#[test]
fn entries_of_entries_are_viewed(rt: HostRuntime) -> Result<(), Fail> {
    let buf = [3u8, 0, 0, 0, 4, 0, 0, 0, 1, 0, 0, 0];
    assert!(rt; Entry::<Pair, bool>::fits());
    let entry = View::<Entry<Pair, bool>>::check(&buf, 0).expect(&rt, "an entry");
    same(&rt, pair(entry.key()), (3, 4));
    assert!(rt; entry.value().to_native());
    same(&rt, hashed(&entry), hashed(&((3u8, 4u32), true)));
    let told = shown(rt.alloc(), &entry)?;
    same(
        &rt,
        told.as_str(),
        "Entry { key: Entry { key: 3, value: 4 }, value: true }",
    );
    Ok(())
}
