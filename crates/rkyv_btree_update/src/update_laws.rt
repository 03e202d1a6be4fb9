//! Laws of changes. Each is an empty function: a call of it brings its clauses into scope.
ghost use Rattle.std.specs.BTreeMap.{is_at};
ghost use Rattle.std.specs.Map.{lookup};
ghost use Rattle.std.specs.Prelude.{◌≡◌, List};
ghost use Rattle.rkyv_btree_format.specs.Increasing.{Increasing};
ghost use Rattle.rkyv_btree_update.specs.Updated.{last_word, updated};

use crate::change::Change;
use rkyv_btree_portable::check::Portable;
use rkyv_btree_view::compare::ViewOrd;

/// States that after changes whose keys increase, each key has the value of the last word on it: the change's, if there is one, and
/// else the old map's. The keys of the entries increase.
pub fn last_words_count<K: ViewOrd, V: Portable>()
    ensures lookups { (m : List (K.kind.Value × V.kind.Value)) →
        (changes : List (K.kind.Value × Change V.kind.Value)) (key : K.kind.Value) →
        Increasing K.kind.order m → Increasing K.kind.order changes →
        lookup (is_at (K.kind.order key)) (updated K.kind.order m changes)
        ≡ last_word (lookup (is_at (K.kind.order key)) changes)
        (lookup (is_at (K.kind.order key)) m) }
    ensures increasing { (m : List (K.kind.Value × V.kind.Value)) →
        (changes : List (K.kind.Value × Change V.kind.Value)) →
        Increasing K.kind.order m → Increasing K.kind.order (updated K.kind.order m changes) }
{}
