//! Rounding up to an alignment.
ghost use Rattle.std.specs.Prelude.{◌≡◌, ◌+◌, ◌≤◌, ◌<◌, ◌^◌};
ghost use Rattle.rkyv_btree_portable.specs.Rounding.{round_up};

/// Returns the least multiple of `align` that is at least `n`.
#[tactic(auto, using(crate::specs::laws::Rounding::rounding), unfolding(crate::specs::Rounding::round_up))]
pub fn round_up(n: u64, align: u32) -> u64
    requires positive { 0 < align }
    requires small { n < 2 ^ 63 }
    ensures value { result ≡ round_up n align }
    ensures at_least { n ≤ result }
    ensures below { result < n + align }
{
    let align = u64::from(align);
    (n + (align - 1)) / align * align
}
