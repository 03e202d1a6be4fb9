//! Times one lookup in a file, from the opening of the file on: of the whole file, validated or not, and of a source.

use crate::numbers::Map;
use anyhow::{Context, bail, ensure};
use rkyv_btree::source::{SeekSource, UnverifiedSource};
use rkyv_btree::unverified::Unverified;
use rkyv_btree::whole::open;
use rkyv_btree_base::layout;
use rkyv_btree_base::numbers::ArchivedU32;
use std::fs;
use std::fs::File;
use std::io::Read;
use std::time::Instant;

/// Reads a whole file.
fn read(rt: &HostRuntime, path: &str) -> anyhow::Result<Vec<u8>> {
    let mut file = fs::open(rt, path)?;
    let len = file.metadata()?.len();
    let len = usize::try_from(len).context("the file is too long")?;
    let mut bytes = Vec::with_capacity(rt.alloc(), len)?;
    file.read_to_end(&mut bytes)?;
    Ok(bytes)
}

/// Looks a key up in a way, and returns its value with how many bytes of the file were read.
fn look(rt: &HostRuntime, way: &str, path: &str, key: u32) -> anyhow::Result<(Option<u32>, u64)> {
    ensure!(layout::fits::<ArchivedU32, ArchivedU32, 5>(), "too large");
    match way {
        "validated" => {
            let bytes = read(rt, path)?;
            let map = open::<Map>(bytes.as_slice())?;
            let value = map.get_by(key).map(|value| value.to_native());
            Ok((value, bytes.len() as u64))
        }
        "unverified" => {
            let bytes = read(rt, path)?;
            let map = Unverified::<Map>::open(bytes.as_slice())?;
            let value = map.get_by(key)?.map(|value| value.to_native());
            Ok((value, bytes.len() as u64))
        }
        "source" => {
            let file = fs::open(rt, path)?;
            let mut map = UnverifiedSource::<SeekSource<File>, Map>::open(
                SeekSource { file },
                u64::MAX,
            )?;
            let mut lent = [0u8; 256];
            let value = map.get_by(key, &mut lent)?.map(|value| value.to_native());
            Ok((value, u64::MAX.wrapping_sub(map.budget_left())))
        }
        _ => bail!("no such way"),
    }
}

/// Times one lookup.
pub(crate) fn measure(rt: &HostRuntime, way: &str, path: &str, key: u32) -> anyhow::Result<()> {
    let start = Instant::now(rt)?;
    let (value, read) = look(rt, way, path, key)?;
    let time = start.elapsed(rt)?.as_micros();
    ensure!(value.is_some(), "not found");
    println!(rt; "{way}: {time} us, {read} bytes read")?;
    Ok(())
}
