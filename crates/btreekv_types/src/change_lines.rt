//! Changes in lines, as the update of maps of texts reads them.
ghost use Rattle.std.specs.Prelude.{IfErr, IfOk};
ghost use Rattle.rkyv_btree_update.specs.Updated.{changes_meant};
ghost use Rattle.btreekv_commands.specs.Changing.{AreChanges};
ghost use Rattle.btreekv_types.specs.Changes.{IsLinesFault};

use btreearc_lines::fault::ProgramFault;
use btreekv_commands::changes;
use btreekv_commands::update_fault::UpdateFault;
use rkyv_btree_update::change::Change;
use std::alloc::Global;

/// Returns the changes of the lines, the last of which may lack its line feed.
///
/// # Errors
///
/// `Line` with the number of the first line that is no change, and `Memory` if an allocation fails.
pub(crate) fn parse_changes(
    alloc: Global,
    bytes: &[u8],
) -> Result<Vec<(&str, Change<&str>)>, ProgramFault>
    ensures ok { IfOk result (λ found.
        AreChanges bytes.now (changes_meant (λ k. k.now) (λ v. v.now) found.items)) }
    ensures err { IfErr result (IsLinesFault bytes.now) }
{
    match changes::parse_changes(alloc, bytes) {
        Ok(changes) => Ok(changes),
        Err(UpdateFault::Line(number)) => Err(ProgramFault::Line(number)),
        Err(_) => Err(ProgramFault::Memory),
    }
}
