//! The files that the words of a command name. The word `-` names standard input, and as an output standard output.

use clap::ArgMatches;

/// The name of standard input, and of standard output.
const STANDARD: &str = "-";

/// Returns the file that a word names, or `None` if that is standard input.
pub fn file_named(word: &str) -> Option<&str> {
    if word == STANDARD { None } else { Some(word) }
}

/// Returns the file that an argument names, if there is one and it isn't standard input or output.
pub fn file_of<'a>(matches: &ArgMatches<'a>, argument: &str) -> Option<&'a str> {
    file_named(matches.get_str(argument)?)
}

/// Returns the file in which `get` looks up keys. With `--keys-from` the words have no key, so the first of them is the file.
fn file_of_get<'a>(matches: &ArgMatches<'a>) -> Option<&'a str> {
    if matches.get_str("keys-from").is_some() {
        return file_of(matches, "KEY");
    }
    match matches.get_strs("MORE").unwrap_or(&[]).last() {
        Some(path) => file_named(*path),
        None => file_of(matches, "FILE"),
    }
}

/// Returns the file that a command reads first, if it isn't standard input.
pub fn input_of<'a>(name: &str, matches: &ArgMatches<'a>) -> Option<&'a str> {
    match name {
        "merge" | "update" => file_of(matches, "ARCHIVE"),
        "diff" => file_of(matches, "OLD"),
        "get" => file_of_get(matches),
        _ => file_of(matches, "FILE"),
    }
}

/// Returns the file that a command is to write, if it isn't standard output.
pub fn output_of<'a>(name: &str, matches: &ArgMatches<'a>) -> Option<&'a str> {
    match name {
        "build" | "update" | "set" | "merge" | "top" => file_of(matches, "OUTPUT"),
        _ => None,
    }
}

/// Returns how many of the archives that `merge` reads after the first are standard input.
fn others_from_stdin(matches: &ArgMatches<'_>) -> usize {
    let others = matches.get_strs("OTHERS").unwrap_or(&[]);
    others.iter().filter(|word| **word == STANDARD).count()
}

/// Returns whether a command would read standard input for two of its inputs.
pub fn reads_stdin_twice(name: &str, matches: &ArgMatches<'_>) -> bool {
    let others = match name {
        "merge" => others_from_stdin(matches),
        "update" => usize::from(file_of(matches, "CHANGES").is_none()),
        "diff" => usize::from(file_of(matches, "NEW").is_none()),
        "get" => usize::from(matches.get_str("keys-from") == Some(STANDARD)),
        _ => 0,
    };
    let most_others = usize::from(input_of(name, matches).is_some());
    others > most_others
}
