//! Replays cases of archived maps of several types. Each line of standard input is a type, a mode and the bytes of a case,
//! and each has a line of standard output. A line that begins with `#` is repeated.
#![tactic(auto)]

mod asking;
mod building;
mod changing;
mod damage;
mod input;
mod lent;
mod long_tuples;
mod modes;
mod opening;
mod shown;
mod sources;
mod unverified;
mod writing;

use crate::changing::changed;
use crate::long_tuples::of_long_tuples;
use crate::modes::{Mode, built, native, sealed};
use anyhow::{Context, bail};
use rkyv_btree::prelude::*;
use std::alloc::Global;
use std::cmp::OrderedFloat;
use std::collections::BTreeMap;
use std::io;
use std::io::Write;
use std::num::{
    NonZeroI8, NonZeroI16, NonZeroI32, NonZeroI64, NonZeroI128, NonZeroU8, NonZeroU16, NonZeroU32,
    NonZeroU64, NonZeroU128,
};

/// Runs a case of a map by the name of its type: here of numbers, `bool`, characters and `()`.
fn of_numbers(
    alloc: Global,
    kind: &str,
    mode: Mode,
    case: &[u8],
    out: &mut String,
) -> anyhow::Result<()> {
    match kind {
        "u32,u32,5" => sealed::<u32, u32, ArchivedU32, ArchivedU32, 5>(alloc, mode, case, out),
        "u32,u32,1" => sealed::<u32, u32, ArchivedU32, ArchivedU32, 1>(alloc, mode, case, out),
        "u64,u8,1" => sealed::<u64, u8, ArchivedU64, u8, 1>(alloc, mode, case, out),
        "u32,unit,5" => sealed::<u32, (), ArchivedU32, (), 5>(alloc, mode, case, out),
        "u32,u32,2" => built::<u32, u32, ArchivedU32, ArchivedU32, 2>(alloc, mode, case, out),
        "u32,u32,7" => built::<u32, u32, ArchivedU32, ArchivedU32, 7>(alloc, mode, case, out),
        "u64,u8,5" => built::<u64, u8, ArchivedU64, u8, 5>(alloc, mode, case, out),
        "u8,u16,3" => built::<u8, u16, u8, ArchivedU16, 3>(alloc, mode, case, out),
        "u8,u16,5" => built::<u8, u16, u8, ArchivedU16, 5>(alloc, mode, case, out),
        "i32,unit,5" => native::<i32, (), ArchivedI32, (), 5>(alloc, mode, case, out),
        "unit,i32,5" => native::<(), i32, (), ArchivedI32, 5>(alloc, mode, case, out),
        "unit,unit,5" => native::<(), (), (), (), 5>(alloc, mode, case, out),
        "bool,u8,3" => built::<bool, u8, bool, u8, 3>(alloc, mode, case, out),
        "char,u16,2" => built::<char, u16, ArchivedChar, ArchivedU16, 2>(alloc, mode, case, out),
        _ => of_non_zeros(alloc, kind, mode, case, out),
    }
}

/// Runs a case of a map of numbers other than 0.
fn of_non_zeros(
    alloc: Global,
    kind: &str,
    mode: Mode,
    case: &[u8],
    out: &mut String,
) -> anyhow::Result<()> {
    match kind {
        "nonzero,u8,2" => {
            built::<NonZeroU32, u8, ArchivedNonZeroU32, u8, 2>(alloc, mode, case, out)
        }
        "nonzero8,nonzeroi8,3" => {
            sealed::<NonZeroU8, NonZeroI8, NonZeroU8, NonZeroI8, 3>(alloc, mode, case, out)
        }
        "nonzero16,nonzeroi16,2" => {
            sealed::<NonZeroU16, NonZeroI16, ArchivedNonZeroU16, ArchivedNonZeroI16, 2>(
                alloc, mode, case, out,
            )
        }
        "nonzeroi64,nonzero64,5" => {
            sealed::<NonZeroI64, NonZeroU64, ArchivedNonZeroI64, ArchivedNonZeroU64, 5>(
                alloc, mode, case, out,
            )
        }
        "nonzeroi32,u8,1" => {
            native::<NonZeroI32, u8, ArchivedNonZeroI32, u8, 1>(alloc, mode, case, out)
        }
        _ => of_wide(alloc, kind, mode, case, out),
    }
}

/// Runs a case of a map of numbers of 128 bits.
fn of_wide(
    alloc: Global,
    kind: &str,
    mode: Mode,
    case: &[u8],
    out: &mut String,
) -> anyhow::Result<()> {
    match kind {
        "u128,u8,3" => sealed::<u128, u8, ArchivedU128, u8, 3>(alloc, mode, case, out),
        "i128,u128,2" => sealed::<i128, u128, ArchivedI128, ArchivedU128, 2>(
            alloc, mode, case, out,
        ),
        "u32,i128,5" => sealed::<u32, i128, ArchivedU32, ArchivedI128, 5>(alloc, mode, case, out),
        "nonzero128,nonzeroi128,1" => {
            sealed::<NonZeroU128, NonZeroI128, ArchivedNonZeroU128, ArchivedNonZeroI128, 1>(
                alloc, mode, case, out,
            )
        }
        _ => of_bytes(alloc, kind, mode, case, out),
    }
}

/// Runs a case of a map with byte strings in it.
fn of_bytes(
    alloc: Global,
    kind: &str,
    mode: Mode,
    case: &[u8],
    out: &mut String,
) -> anyhow::Result<()> {
    match kind {
        "bytes,u32,5" => sealed::<Vec<u8>, u32, ArchivedBytes, ArchivedU32, 5>(
            alloc, mode, case, out,
        ),
        "bytes,bytes,3" => {
            native::<Vec<u8>, Vec<u8>, ArchivedBytes, ArchivedBytes, 3>(alloc, mode, case, out)
        }
        "u32,pair(bytes,nonzero16),2" => native::<
            u32,
            (Vec<u8>, NonZeroU16),
            ArchivedU32,
            Entry<ArchivedBytes, ArchivedNonZeroU16>,
            2,
        >(alloc, mode, case, out),
        _ => of_options(alloc, kind, mode, case, out),
    }
}

/// Runs a case of a map with options in it.
fn of_options(
    alloc: Global,
    kind: &str,
    mode: Mode,
    case: &[u8],
    out: &mut String,
) -> anyhow::Result<()> {
    match kind {
        "optu32,u64,5" => {
            sealed::<Option<u32>, u64, ArchivedOption<ArchivedU32>, ArchivedU64, 5>(
                alloc, mode, case, out,
            )
        }
        "opttext,u8,2" => {
            sealed::<Option<String>, u8, ArchivedOption<ArchivedText>, u8, 2>(
                alloc, mode, case, out,
            )
        }
        "u32,optu8,5" => {
            native::<u32, Option<u8>, ArchivedU32, ArchivedOption<u8>, 5>(alloc, mode, case, out)
        }
        "u32,opttext,5" => {
            native::<u32, Option<String>, ArchivedU32, ArchivedOption<ArchivedText>, 5>(
                alloc, mode, case, out,
            )
        }
        _ => of_vectors(alloc, kind, mode, case, out),
    }
}

/// Runs a case of a map with vectors in it.
fn of_vectors(
    alloc: Global,
    kind: &str,
    mode: Mode,
    case: &[u8],
    out: &mut String,
) -> anyhow::Result<()> {
    match kind {
        "u32,vec(u32),5" => native::<u32, Vec<u32>, ArchivedU32, ArchivedVec<ArchivedU32>, 5>(
            alloc, mode, case, out,
        ),
        "u32,vec(text),3" => native::<u32, Vec<String>, ArchivedU32, ArchivedVec<ArchivedText>, 3>(
            alloc, mode, case, out,
        ),
        "u8,vec(pair(u32,text)),2" => {
            native::<u8, Vec<(u32, String)>, u8, ArchivedVec<Entry<ArchivedU32, ArchivedText>>, 2>(
                alloc, mode, case, out,
            )
        }
        _ => of_arrays(alloc, kind, mode, case, out),
    }
}

/// Runs a case of a map with arrays in it.
fn of_arrays(
    alloc: Global,
    kind: &str,
    mode: Mode,
    case: &[u8],
    out: &mut String,
) -> anyhow::Result<()> {
    match kind {
        "array(u16;3),u32,5" => {
            native::<[u16; 3], u32, ArchivedArray<ArchivedU16, 3>, ArchivedU32, 5>(
                alloc, mode, case, out,
            )
        }
        "u32,array(text;2),3" => {
            native::<u32, [String; 2], ArchivedU32, ArchivedArray<ArchivedText, 2>, 3>(
                alloc, mode, case, out,
            )
        }
        _ => of_floats(alloc, kind, mode, case, out),
    }
}

/// Runs a case of a map with floating-point numbers in it.
fn of_floats(
    alloc: Global,
    kind: &str,
    mode: Mode,
    case: &[u8],
    out: &mut String,
) -> anyhow::Result<()> {
    match kind {
        "u32,f64,5" => sealed::<u32, f64, ArchivedU32, ArchivedF64, 5>(alloc, mode, case, out),
        "f64,u8,3" => {
            sealed::<OrderedFloat<f64>, u8, ArchivedF64, u8, 3>(alloc, mode, case, out)
        }
        "f32,f32,2" => sealed::<OrderedFloat<f32>, f32, ArchivedF32, ArchivedF32, 2>(
            alloc, mode, case, out,
        ),
        _ => of_tuples(alloc, kind, mode, case, out),
    }
}

/// Runs a case of a map with tuples of three in it.
fn of_tuples(
    alloc: Global,
    kind: &str,
    mode: Mode,
    case: &[u8],
    out: &mut String,
) -> anyhow::Result<()> {
    match kind {
        "triple(u8,u32,u16),u64,3" => {
            sealed::<
                (u8, u32, u16),
                u64,
                ArchivedTuple3<u8, ArchivedU32, ArchivedU16>,
                ArchivedU64,
                3,
            >(alloc, mode, case, out)
        }
        "u32,triple(u64,bool,u16),5" => {
            sealed::<
                u32,
                (u64, bool, u16),
                ArchivedU32,
                ArchivedTuple3<ArchivedU64, bool, ArchivedU16>,
                5,
            >(alloc, mode, case, out)
        }
        "triple(bool,text,u8),text,2" => {
            native::<
                (bool, String, u8),
                String,
                ArchivedTuple3<bool, ArchivedText, u8>,
                ArchivedText,
                2,
            >(alloc, mode, case, out)
        }
        _ => of_others(alloc, kind, mode, case, out),
    }
}

/// Runs a case of a map with texts, pairs or maps in it.
fn of_others(
    alloc: Global,
    kind: &str,
    mode: Mode,
    case: &[u8],
    out: &mut String,
) -> anyhow::Result<()> {
    match kind {
        "text,u32,1" => sealed::<String, u32, ArchivedText, ArchivedU32, 1>(alloc, mode, case, out),
        "text,i32,5" => sealed::<String, i32, ArchivedText, ArchivedI32, 5>(alloc, mode, case, out),
        "u32,pair(u8,u64),3" => {
            sealed::<u32, (u8, u64), ArchivedU32, Entry<u8, ArchivedU64>, 3>(alloc, mode, case, out)
        }
        "pair(u16,text),u8,2" => {
            sealed::<(u16, String), u8, Entry<ArchivedU16, ArchivedText>, u8, 2>(
                alloc, mode, case, out,
            )
        }
        "u32,pair(text,text),3" => {
            native::<u32, (String, String), ArchivedU32, Entry<ArchivedText, ArchivedText>, 3>(
                alloc, mode, case, out,
            )
        }
        "u32,map(u32,u32,5),5" => native::<
            u32,
            BTreeMap<u32, u32>,
            ArchivedU32,
            ArchivedBTreeMap<ArchivedU32, ArchivedU32, 5>,
            5,
        >(alloc, mode, case, out),
        _ => of_long_tuples(alloc, kind, mode, case, out),
    }
}

/// Runs a case of a map that is changed.
fn of_changes(
    alloc: Global,
    kind: &str,
    mode: changing::Mode,
    case: &[u8],
    out: &mut String,
) -> anyhow::Result<()> {
    match kind {
        "u32,u32,5" => changed::<u32, u32, ArchivedU32, ArchivedU32, 5>(alloc, mode, case, out),
        "u32,u32,2" => changed::<u32, u32, ArchivedU32, ArchivedU32, 2>(alloc, mode, case, out),
        "u32,u32,1" => changed::<u32, u32, ArchivedU32, ArchivedU32, 1>(alloc, mode, case, out),
        "u64,u8,1" => changed::<u64, u8, ArchivedU64, u8, 1>(alloc, mode, case, out),
        "u8,u16,3" => changed::<u8, u16, u8, ArchivedU16, 3>(alloc, mode, case, out),
        "u32,unit,5" => changed::<u32, (), ArchivedU32, (), 5>(alloc, mode, case, out),
        "text,i32,5" => changed::<&str, i32, ArchivedText, ArchivedI32, 5>(alloc, mode, case, out),
        "u32,pair(u8,u64),3" => changed::<u32, (u8, u64), ArchivedU32, Entry<u8, ArchivedU64>, 3>(
            alloc, mode, case, out,
        ),
        "pair(u16,text),u8,2" => {
            changed::<(u16, &str), u8, Entry<ArchivedU16, ArchivedText>, u8, 2>(
                alloc, mode, case, out,
            )
        }
        _ => bail!("no such type"),
    }
}

/// The number that a digit of base 16 is.
fn digit(byte: Option<&u8>) -> anyhow::Result<u8> {
    match byte {
        Some(digit @ b'0'..=b'9') => Ok(digit.wrapping_sub(b'0')),
        Some(letter @ b'a'..=b'f') => Ok(letter.wrapping_sub(b'a').wrapping_add(10)),
        _ => bail!("no digit"),
    }
}

/// The bytes that a text names: each by two digits of base 16, or 0 by a dot.
fn bytes_of(alloc: Global, text: &str) -> anyhow::Result<Vec<u8>> {
    let mut bytes = Vec::new(alloc);
    let mut digits = text.as_bytes().iter();
    while let Some(first) = digits.next() {
        if *first == b'.' {
            bytes.push(0)?;
        } else {
            let high = digit(Some(first))?;
            let low = digit(digits.next())?;
            bytes.push(high.wrapping_mul(16).wrapping_add(low))?;
        }
    }
    Ok(bytes)
}

/// Replays a line.
fn replay_line(alloc: Global, line: &str, out: &mut String) -> anyhow::Result<()> {
    if line.starts_with('#') {
        out.push_str(line)?;
        return Ok(());
    }
    let (kind, rest) = line.split_once(' ').context("no mode")?;
    let (name, digits) = rest.split_once(' ').context("no case")?;
    let case = bytes_of(alloc, digits)?;
    if name == "source" {
        return sources::lookup(alloc, kind, &case, out);
    }
    if name == "source_range" {
        return sources::range(alloc, kind, &case, out);
    }
    if name == "source_last" {
        return sources::last(kind, &case, out);
    }
    if let Some(change) = changing::Mode::named(name) {
        return of_changes(alloc, kind, change, &case, out);
    }
    let mode = Mode::named(name).context("no such mode")?;
    of_numbers(alloc, kind, mode, &case, out)
}

fn main(rt: HostRuntime) -> anyhow::Result<()> {
    let alloc = rt.alloc();
    let input = io::read_to_string(alloc, rt.stdin())?;
    let mut output = String::new(alloc);
    for line in input.lines() {
        let mut out = String::new(alloc);
        replay_line(alloc, line, &mut out)?;
        output.push_str(&out)?;
        output.push('\n')?;
    }
    rt.stdout().write_all(output.as_bytes())?;
    Ok(())
}
