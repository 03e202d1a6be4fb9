//! Laws of lookups in a source of bytes. Each is an empty function: a call of it brings its clauses into scope.
ghost use Rattle.rkyv_btree_source.specs.Reads.{TakesAreDetermined, TakesAreEnough, TakesCoverReads};

use crate::fetch::Fetch;

/// States that a lookup which ends takes one number of bytes of its budget, that no part which it reads goes past that, and so that it
/// isn't over a budget of that number.
pub fn takes_cover_reads<K: Fetch, V: Fetch, const E: usize>()
    ensures covers { TakesCoverReads K.kind V.kind E K.lengths V.lengths }
    ensures enough { TakesAreEnough K.kind V.kind E K.lengths V.lengths }
    ensures one { TakesAreDetermined K.kind V.kind E K.lengths V.lengths }
{}
