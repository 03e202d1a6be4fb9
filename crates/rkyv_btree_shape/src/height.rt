//! How many levels the built tree of so many entries has, and how many entries its children.
ghost use Rattle.std.specs.Prelude.{◌≡◌, ◌+◌, ◌*◌, ◌-◌, ◌^◌, ◌≤◌, ◌<◌};
ghost use Rattle.rkyv_btree_shape.specs.Logarithm.{ilog};

/// Returns the number of levels of the built tree of so many entries, at least 1.
pub fn entries_to_height<const E: usize>(entries: u64) -> u32
    requires entries { 1 ≤ E }
    requires small { E < 2 ^ 32 }
    requires some { 0 < entries }
    ensures { result ≡ 1 + ilog (E + 1) entries }
{
    let branches = E as u64 + 1;
    let mut above = 0;
    let mut rest = entries;
    while rest >= branches {
        rest /= branches;
        above += 1;
    }
    above + 1
}

/// Returns one more than the entries that each child of a tree's root has above the tree's last level. For a tree of `h` levels
/// these are the full levels of a tree of `h - 2`, so it is `(E + 1) ^ (h - 2)`.
pub fn child_base<const E: usize>(entries: usize) -> usize
    requires some { 1 ≤ E }
    requires small { E < 2 ^ 30 }
    requires more { E < entries }
    requires fits { entries ≤ 4294967295 }
    ensures value { result ≡ (E + 1) ^ (ilog (E + 1) entries - 1) }
    ensures positive { 1 ≤ result }
    ensures below { result * (E + 1) ≤ entries }
    ensures above { entries < result * (E + 1) * (E + 1) }
{
    (E + 1).pow(entries_to_height::<E>(entries as u64) - 2)
}
