//! What is done with a case. A new mode is a variant of `Mode`, its name, a function over one case, and an arm below.

use crate::input::Wire;
use crate::shown::Shown;
use crate::{asking, building, damage, opening, unverified, writing};
use anyhow::bail;
use rkyv_btree::deserialize::DeserializeKey;
use rkyv_btree::prelude::*;
use rkyv_btree_base::check::InPlace;
use std::alloc::Global;

#[derive(Clone, Copy)]
pub enum Mode {
    Open,
    Walk,
    Count,
    Ends,
    Check,
    Same,
    Find,
    Range,
    Build,
    Golden,
    Make,
    Turn,
    Put,
    PutAll,
    Damage,
    Strict,
    BuildStrict,
    Migrate,
    Lookup,
    Iterate,
}

impl Mode {
    pub fn named(name: &str) -> Option<Mode> {
        match name {
            "open" => Some(Mode::Open),
            "walk" => Some(Mode::Walk),
            "count" => Some(Mode::Count),
            "ends" => Some(Mode::Ends),
            "check" => Some(Mode::Check),
            "same" => Some(Mode::Same),
            "find" => Some(Mode::Find),
            "range" => Some(Mode::Range),
            "build" => Some(Mode::Build),
            "golden" => Some(Mode::Golden),
            "make" => Some(Mode::Make),
            "turn" => Some(Mode::Turn),
            "put" => Some(Mode::Put),
            "put-all" => Some(Mode::PutAll),
            "damage" => Some(Mode::Damage),
            "strict" => Some(Mode::Strict),
            "build-strict" => Some(Mode::BuildStrict),
            "migrate" => Some(Mode::Migrate),
            "lookup" => Some(Mode::Lookup),
            "iterate" => Some(Mode::Iterate),
            _ => None,
        }
    }
}

/// Runs a case of a map that is built, opened, checked and migrated.
pub fn built<
    KU: Archive<Archived = K> + Serialize<VecWriter, Global> + Wire + Ord,
    VU: Archive<Archived = V> + Serialize<VecWriter, Global> + Wire + PartialEq,
    K: CheckBytes + ViewOrd + Shown + DeserializeKey<KU>,
    V: CheckBytes + Shown + Deserialize<VU>,
    const E: usize,
>(alloc: Global, mode: Mode, case: &[u8], out: &mut String) -> anyhow::Result<()> {
    match mode {
        Mode::Open => opening::open::<K, V, E>(alloc, case, out),
        Mode::Walk => opening::walk::<K, V, E>(case, out),
        Mode::Count => opening::count::<K, V, E>(case, out),
        Mode::Ends => opening::ends::<K, V, E>(case, out),
        Mode::Check => opening::check::<K, V>(case, out),
        Mode::Build => building::build::<KU, VU, K, V, E>(alloc, case, out),
        Mode::Golden => building::golden::<KU, VU, K, V, E>(alloc, case, out),
        Mode::Strict => asking::strict::<K, V, E>(alloc, case, out),
        Mode::BuildStrict => building::build_strict::<KU, VU, K, V, E>(alloc, case, out),
        Mode::Migrate => building::migrated::<KU, VU, K, V>(alloc, case, out),
        Mode::Lookup => unverified::lookup::<K, V, E>(case, out),
        Mode::Iterate => unverified::iterate::<K, V, E>(alloc, case, out),
        _ => bail!("no such mode of this type"),
    }
}

/// Runs a case of a map that is also compared, looked up in, and made native.
pub fn native<
    KU: Archive<Archived = K> + Serialize<VecWriter, Global> + Wire + Ord,
    VU: Archive<Archived = V> + Serialize<VecWriter, Global> + Wire + PartialEq,
    K: CheckBytes + ViewOrd + ViewHash + Shown + DeserializeKey<KU> + SameAs<KU>,
    V: CheckBytes + ViewEq + ViewHash + Shown + Deserialize<VU> + SameAs<VU>,
    const E: usize,
>(alloc: Global, mode: Mode, case: &[u8], out: &mut String) -> anyhow::Result<()> {
    match mode {
        Mode::Same => opening::same::<K, V, E>(case, out),
        Mode::Find => asking::find::<K, V, E>(case, out),
        Mode::Range => asking::range::<K, V, E>(case, out),
        Mode::Make => building::make::<KU, VU, K, V, E>(alloc, case, out),
        Mode::Turn => building::turn::<KU, VU, K, V>(alloc, case, out),
        _ => built::<KU, VU, K, V, E>(alloc, mode, case, out),
    }
}

/// Runs a case of a map whose values are also written in place.
pub fn sealed<
    KU: Archive<Archived = K> + Serialize<VecWriter, Global> + Wire + Ord,
    VU: Archive<Archived = V> + Serialize<VecWriter, Global> + Wire + PartialEq + Copy,
    K: CheckBytes + ViewOrd + ViewHash + Shown + DeserializeKey<KU> + SameAs<KU>,
    V: InPlace<Native = VU> + ViewEq + ViewHash + Shown + Deserialize<VU> + SameAs<VU>,
    const E: usize,
>(alloc: Global, mode: Mode, case: &[u8], out: &mut String) -> anyhow::Result<()> {
    match mode {
        Mode::Put => writing::put::<VU, K, V, E>(alloc, case, out),
        Mode::PutAll => writing::put_all::<VU, K, V, E>(alloc, case, out),
        Mode::Damage => damage::damage::<K, VU, V, E>(alloc, case, out),
        _ => native::<KU, VU, K, V, E>(alloc, mode, case, out),
    }
}
