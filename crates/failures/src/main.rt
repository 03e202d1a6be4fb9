//! Makes each call once for each write that can fail, each read, and each growth of memory, and says what is left.
#![tactic(auto)]

mod archives;
mod growths;
mod items;
mod lending;
mod owned;
mod reads;
mod rooms;
mod streams;
mod writers;
mod writes;

use crate::reads::Archives;
use anyhow::bail;
use linked_list_allocator::LocalHeap;
use std::alloc::Global;
use std::env;
use std::io::Write;

/// Makes the calls that take no memory, so many times.
fn read(rt: &HostRuntime, times: u32) -> anyhow::Result<()> {
    let mut archives = Archives::new(rt.alloc())?;
    let heap = LocalHeap::new(rt.alloc(), 0)?;
    for _ in 0..times {
        reads::show(rt, rt.alloc(), &mut archives, &heap)?;
    }
    Ok(())
}

/// Appends the lines of all calls but those that take no memory.
fn show_all(alloc: Global, out: &mut String) -> anyhow::Result<()> {
    writes::show(alloc, out)?;
    writes::show_positions(alloc, out)?;
    writes::show_orders(alloc, out)?;
    items::show(alloc, out)?;
    lending::show(alloc, out)?;
    owned::show(alloc, out)?;
    rooms::show(alloc, out)?;
    streams::show(alloc, out)
}

fn main(rt: HostRuntime) -> anyhow::Result<()> {
    let alloc = rt.alloc();
    let mut words = env::args(&rt)?.skip(1);
    let call = words.next();
    let name = words.next();
    let mut out = String::new(alloc);
    match (&call, &name) {
        (None, _) => {
            show_all(alloc, &mut out)?;
            rt.stdout().write_all(out.as_bytes())?;
            read(&rt, 1)
        }
        (Some(call), Some(times)) if call.as_str() == "read" => {
            let Ok(times) = times.parse::<u32>() else {
                bail!("no number");
            };
            read(&rt, times)
        }
        (Some(call), Some(name)) => {
            growths::show(alloc, call, name, &mut out)?;
            rt.stdout().write_all(out.as_bytes())?;
            Ok(())
        }
        _ => bail!("no such call"),
    }
}
