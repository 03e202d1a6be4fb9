//! The command `explain`.

use crate::archives::read;
use crate::inputs::file_of;
use crate::system::{Ended, Names, System};
use btreekv_commands::explaining::explain;
use btreekv_commands::way::explain_way;
use clap::ArgMatches;

/// Writes the bytes of an archive with their meaning, or the way of the lookup of a key. Returns the exit status.
pub fn run(system: &System<'_>, matches: &ArgMatches<'_>) -> Result<u8, Ended> {
    let path = file_of(matches, "FILE");
    let archive = read(system, path)?;
    let alloc = system.alloc();
    let mut output = system.stdout();
    let explained = match matches.get_str("key") {
        Some(key) => explain_way(alloc, &archive, key, &mut output),
        None => match explain(alloc, &archive, &mut output) {
            Ok(()) => Ok(0),
            Err(fault) => Err(fault),
        },
    };
    match explained {
        Ok(status) => Ok(status),
        Err(fault) => Err(system.fail(Names::of_input(path), &fault)),
    }
}
