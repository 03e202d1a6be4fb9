//! Maps with tuples of four to six in them.

use crate::modes::{Mode, native, sealed};
use anyhow::bail;
use rkyv_btree::prelude::*;
use std::alloc::Global;

/// Runs a case of a map with tuples of four or five in it.
pub fn of_long_tuples(
    alloc: Global,
    kind: &str,
    mode: Mode,
    case: &[u8],
    out: &mut String,
) -> anyhow::Result<()> {
    match kind {
        "quadruple(u8,u32,u16,u64),u64,3" => {
            sealed::<
                (u8, u32, u16, u64),
                u64,
                ArchivedTuple4<u8, ArchivedU32, ArchivedU16, ArchivedU64>,
                ArchivedU64,
                3,
            >(alloc, mode, case, out)
        }
        "u32,quadruple(u16,text,u8,bool),5" => {
            native::<
                u32,
                (u16, String, u8, bool),
                ArchivedU32,
                ArchivedTuple4<ArchivedU16, ArchivedText, u8, bool>,
                5,
            >(alloc, mode, case, out)
        }
        "quintuple(u16,text,u8,u64,bool),u8,2" => {
            native::<
                (u16, String, u8, u64, bool),
                u8,
                ArchivedTuple5<ArchivedU16, ArchivedText, u8, ArchivedU64, bool>,
                u8,
                2,
            >(alloc, mode, case, out)
        }
        "u32,quintuple(u8,u64,bool,u16,u32),5" => {
            sealed::<
                u32,
                (u8, u64, bool, u16, u32),
                ArchivedU32,
                ArchivedTuple5<u8, ArchivedU64, bool, ArchivedU16, ArchivedU32>,
                5,
            >(alloc, mode, case, out)
        }
        _ => of_longest_tuples(alloc, kind, mode, case, out),
    }
}

/// Runs a case of a map with tuples of six in it.
fn of_longest_tuples(
    alloc: Global,
    kind: &str,
    mode: Mode,
    case: &[u8],
    out: &mut String,
) -> anyhow::Result<()> {
    match kind {
        "sextuple(bool,u16,u8,u64,u8,u32),u16,3" => {
            sealed::<
                (bool, u16, u8, u64, u8, u32),
                u16,
                ArchivedTuple6<bool, ArchivedU16, u8, ArchivedU64, u8, ArchivedU32>,
                ArchivedU16,
                3,
            >(alloc, mode, case, out)
        }
        "u32,sextuple(u8,text,u16,text,bool,u64),2" => {
            native::<
                u32,
                (u8, String, u16, String, bool, u64),
                ArchivedU32,
                ArchivedTuple6<u8, ArchivedText, ArchivedU16, ArchivedText, bool, ArchivedU64>,
                2,
            >(alloc, mode, case, out)
        }
        _ => bail!("no such type"),
    }
}
