//! Tests at concrete types, of what no case of `replay` shows.
#![tactic(auto)]

#[cfg(test)]
mod byte_strings;
#[cfg(test)]
mod claims;
#[cfg(test)]
mod coded;
#[cfg(test)]
mod convert;
#[cfg(test)]
mod cursors;
#[cfg(test)]
mod entries;
#[cfg(test)]
mod equal;
#[cfg(test)]
mod equal_maps;
#[cfg(test)]
mod failing_writes;
#[cfg(test)]
mod faults;
#[cfg(test)]
mod floats;
#[cfg(test)]
mod heap;
#[cfg(test)]
mod in_place;
#[cfg(test)]
mod large;
#[cfg(test)]
mod long_tuples;
#[cfg(test)]
mod lookups;
#[cfg(test)]
mod lookups_counted;
#[cfg(test)]
mod lookups_learnt;
#[cfg(test)]
mod lookups_many;
#[cfg(test)]
mod lookups_types;
#[cfg(test)]
mod native_maps;
#[cfg(test)]
mod natives;
#[cfg(test)]
mod numbers;
#[cfg(test)]
mod options;
#[cfg(test)]
mod pairs;
#[cfg(test)]
mod ranges;
#[cfg(test)]
mod read;
#[cfg(test)]
mod same;
#[cfg(test)]
mod seals;
#[cfg(test)]
mod seek_sources;
#[cfg(test)]
mod sets;
#[cfg(test)]
mod sources;
#[cfg(test)]
mod std_writers;
#[cfg(test)]
mod texts;
#[cfg(test)]
mod trees;
#[cfg(test)]
mod tuples;
#[cfg(test)]
mod values;
#[cfg(test)]
mod vectors;
#[cfg(test)]
mod views;
#[cfg(test)]
mod walks;
