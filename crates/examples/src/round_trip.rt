//! A map that is archived and made native again.
ghost use Rattle.std.specs.Prelude.{◌≡◌, IfOk, IfErr, string_bytes};
ghost use Rattle.examples.specs.RoundTrip.{IsNoRefusal};
ghost use Rattle.rkyv_btree.specs.Maps.{model_both};

use rkyv_btree::base::fault::Fault;
use rkyv_btree::base::numbers::ArchivedU32;
use rkyv_btree::base::text::ArchivedText;
use rkyv_btree::base::whole::to_archive;
use rkyv_btree::laws::{maps_are_given_back, natives_are_given_back, texts_are_given_back};
use rkyv_btree::whole::{FromArchiveFault, from_archive};
use std::alloc::{AllocError, Global};
use std::collections::BTreeMap;

/// Why a map didn't come back.
#[derive(Debug, Drop)]
pub enum TripFault {
    /// It wasn't archived.
    Unarchived(Fault<AllocError>),
    /// Nothing was made of its archive.
    NotBack(FromArchiveFault),
}

/// The map that comes of archiving a map and making its archive native again: one with the same texts and numbers. No
/// archive is refused.
pub fn there_and_back(
    alloc: Global,
    map: &BTreeMap<String, u32>,
) -> Result<BTreeMap<String, u32>, TripFault>
    ensures same { IfOk result (λ back.
        model_both string_bytes (λ n. n) back.entries
        ≡ model_both string_bytes (λ n. n) map.now.entries) }
    ensures accepted { IfErr result IsNoRefusal }
{
    maps_are_given_back::<String, u32, ArchivedText, ArchivedU32, 5>();
    texts_are_given_back();
    natives_are_given_back();
    // That the keys ascend is told by the length of every map.
    let _len = map.len();
    let archive = match to_archive(alloc, map) {
        Ok(archive) => archive,
        Err(fault) => return Err(TripFault::Unarchived(fault)),
    };
    match from_archive::<BTreeMap<String, u32>>(alloc, archive.as_slice()) {
        Ok(back) => Ok(back),
        Err(fault) => Err(TripFault::NotBack(fault)),
    }
}
