//! Tests of what stands above the libraries, and of whole archives: examples, and the program's commands.
#![tactic(auto)]

#[cfg(test)]
mod commands;
#[cfg(test)]
mod headline;
#[cfg(test)]
mod nested;
#[cfg(test)]
mod round_trips;
#[cfg(test)]
mod shared;
#[cfg(test)]
mod streamed;
#[cfg(test)]
mod versions;
#[cfg(test)]
mod whole;
