//! Values of archives, written in place.
ghost use Rattle.std.specs.Prelude.{◌≡◌, ℕ, List};
ghost use Rattle.btreearc_commands.specs.Opening.{IsArchive, root_of};
ghost use Rattle.btreearc_commands.specs.Setting.{SetsValue};

use crate::opening::Numbers;
use rkyv_btree_portable::numbers::ArchivedU32;
use rkyv_btree_seal::edit_laws::writes_put_values;
use rkyv_btree_seal::map_seal::MapSeal;

/// Replaces the value of the entry that a search of an archive for the key finds, and no other byte,
/// and returns whether it finds one. `open` is the test for an archive, and gives its root.
#[tactic(auto, using(crate::proofs::Built::numbers_fit))]
pub fn set_value(archive: &mut [u8], root: u32, key: u32, value: u32) -> bool
    requires root { root ≡ root_of archive.old }
    requires accepted { (entries : List (ℕ × ℕ)) × IsArchive archive.old entries }
    ensures { (entries : List (ℕ × ℕ)) → IsArchive archive.old entries →
        SetsValue key value entries archive.old archive.new result }
{
    // A value stands before the root, so that the root stays the last eight bytes.
    writes_put_values::<ArchivedU32, ArchivedU32, 5>();
    let mut map = MapSeal::<Numbers>::at(archive, root);
    map.set_by(key, value)
}
