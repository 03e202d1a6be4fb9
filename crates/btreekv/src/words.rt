//! The words of the command line.

use btreearc_lines::heading::Heading;
use btreekv_commands::command;
use btreekv_commands::csv_records::Table;
use btreekv_commands::forms::Form;
use btreekv_commands::records::Records;
use btreekv_items::item::BytesStyle;
use btreekv_types::command::{Order, TypedCommand};
use btreekv_types::list_form::ListForm;
use btreekv_types::source::Source;
use clap::{Arg, ArgAction, ArgMatches, Command, Error, value_parser};
use std::alloc::{AllocError, Global};

/// Examples of the program.
const EXAMPLES: &str = "Examples:
  printf 'apple\\tred\\nfig\\tblue\\n' | btreekv build --strict -o fruits
  btreekv get fig fruits
  btreekv list fruits
  printf 'fig\\tgreen\\napple\\n' | btreekv update --sort -o fruits fruits

`btreekv help COMMAND` describes a command.";

/// The types of keys and values, and examples of `build`.
const BUILD_HELP: &str = "Types of keys and values:
  u8, u16, u32, u64, i32, i64, text, bytes
  with keys u32, u64 and text also values option(u32), option(u64), option(i64)
  with u32, u64 and text also keys or values (u32, u32), (u64, u64), (u32, text),
  (u32, u32, u32), (u64, u64, u64)

Examples:
  btreekv build --strict -o fruits fruits.lines
  sort -u words | sed 's/$/\\t1/' | btreekv build > words.archive
  btreekv list --escape old | btreekv build --sort --escape -o new
  btreekv build --csv -o prices prices.csv
  btreekv build --types u32:text -o names names.lines
  btreekv build --types 'text:(u32, u32)' -o sizes sizes.lines";

/// Examples of `set`.
const SET_EXAMPLES: &str = "Examples:
  btreekv set fig green -o fruits fruits
  btreekv set fig green fruits > changed
  btreekv set 17 42 --in-place counts";

/// Examples of `list`.
const LIST_EXAMPLES: &str = "Examples:
  btreekv list fruits | head
  btreekv list --ndjson fruits | jq -r .value
  btreekv list --null fruits | sort -z
  btreekv list --csv fruits > fruits.csv";

/// Examples of `first`.
const FIRST_EXAMPLES: &str = "Examples:
  btreekv first fruits
  btreekv first --ndjson fruits";

/// Examples of `last`.
const LAST_EXAMPLES: &str = "Examples:
  btreekv last fruits
  btreekv last --ndjson fruits";

/// Examples of `get`.
const GET_EXAMPLES: &str = "Examples:
  btreekv get fig fruits
  btreekv get --json fig fruits
  btreekv get fig pear apple fruits
  btreekv get --keys-from keys fruits";

/// The names of the commands, in the order of the help.
const COMMANDS: [&str; 15] = [
    "build", "update", "set", "merge", "diff", "top", "list", "check", "stat", "explain", "first",
    "last", "get", "range", "prefix",
];

/// Returns a flag of a command.
fn flag<'a>(alloc: Global, name: &'a str, help: &'a str) -> Arg<'a> {
    Arg::new(alloc, name)
        .long(name)
        .help(help)
        .action(ArgAction::SetTrue)
}

/// Returns a required word of a command.
fn word(alloc: Global, name: &str) -> Arg<'_> {
    Arg::new(alloc, name)
        .required(true)
        .allow_hyphen_values(true)
        .action(ArgAction::Set)
}

/// Returns the file of a command, if not standard input.
fn file<'a>(alloc: Global) -> Arg<'a> {
    Arg::new(alloc, "FILE")
        .help("the file to read, if not standard input")
        .action(ArgAction::Set)
}

/// Returns the option of a file to write.
fn output<'a>(alloc: Global) -> Arg<'a> {
    Arg::new(alloc, "OUTPUT")
        .short('o')
        .long("output")
        .help("the file to write, if not standard output; it is whole at any moment")
        .action(ArgAction::Set)
}

/// Returns a required file of a command.
fn required<'a>(alloc: Global, name: &'a str, help: &'a str) -> Arg<'a> {
    Arg::new(alloc, name)
        .required(true)
        .help(help)
        .action(ArgAction::Set)
}

/// Adds the types of the keys and the values, and how byte strings are written.
fn with_types<'a>(
    alloc: Global,
    command: Command<'a>,
    help: &'a str,
) -> Result<Command<'a>, AllocError> {
    let types = Arg::new(alloc, "types")
        .long("types")
        .value_name("KEY:VALUE")
        .help(help)
        .action(ArgAction::Set);
    command.arg(types)?.arg(flag(
        alloc,
        "base64",
        "write and read byte strings as base64, in place of hexadecimal digits",
    ))
}

/// Adds the same to a command that reads an archive.
fn with_archive_types<'a>(alloc: Global, command: Command<'a>) -> Result<Command<'a>, AllocError> {
    let help = "the types of keys and values, if FILE has no header and they are no texts";
    with_types(alloc, command, help)
}

/// Adds the flags of how entries are written.
fn with_forms<'a>(alloc: Global, command: Command<'a>) -> Result<Command<'a>, AllocError> {
    let escape = flag(
        alloc,
        "escape",
        "write \\t, \\n and \\\\ for tabs, line feeds and backslashes",
    );
    let null = flag(
        alloc,
        "null",
        "end each with a zero byte, in place of a line feed",
    );
    command.arg(escape.conflicts_with("null")?)?.arg(null)
}

/// Adds the flag of a JSON object for each entry.
fn with_json_lines<'a>(alloc: Global, command: Command<'a>) -> Result<Command<'a>, AllocError> {
    let lines = flag(
        alloc,
        "ndjson",
        "write a JSON object a line, with key and value",
    );
    command.arg(lines.conflicts_with("escape")?.conflicts_with("null")?)
}

/// Returns a flag that goes with no form of lines, nor with this other flag.
fn alone<'a>(form: Arg<'a>, other: &'a str) -> Result<Arg<'a>, AllocError> {
    form.conflicts_with("escape")?
        .conflicts_with("null")?
        .conflicts_with("ndjson")?
        .conflicts_with(other)
}

/// Adds the flags of CSV and of the same with tabs, which don't go with this flag.
fn with_tables<'a>(
    alloc: Global,
    command: Command<'a>,
    help: &'a str,
    other: &'a str,
) -> Result<Command<'a>, AllocError> {
    let csv = flag(alloc, "csv", help).conflicts_with("tsv")?;
    let tsv = flag(alloc, "tsv", "the same with tabs in place of commas");
    command.arg(alone(csv, other)?)?.arg(alone(tsv, other)?)
}

/// Adds the flags of the JSON that `build` reads.
fn with_json_input<'a>(alloc: Global, command: Command<'a>) -> Result<Command<'a>, AllocError> {
    let ndjson = flag(
        alloc,
        "ndjson",
        "read a JSON object a line, with key and value; sorted as by --sort",
    );
    let json = flag(
        alloc,
        "json",
        "read one JSON object, whose members are strings; sorted as by --sort",
    );
    let ndjson = ndjson
        .conflicts_with("strict")?
        .conflicts_with("escape")?
        .conflicts_with("null")?;
    let json = alone(json, "strict")?;
    let json = json.conflicts_with("csv")?.conflicts_with("tsv")?;
    command.arg(ndjson)?.arg(json)
}

/// Returns the words of `build`.
fn build<'a>(alloc: Global) -> Result<Command<'a>, AllocError> {
    let sort = flag(
        alloc,
        "sort",
        "sort by keys, in memory; of equal keys the last value counts",
    );
    let escape = flag(
        alloc,
        "escape",
        "read \\t, \\n and \\\\ as tabs, line feeds and backslashes; with --sort",
    );
    let null = flag(
        alloc,
        "null",
        "a zero byte ends an entry, in place of a line feed; with --sort",
    );
    let untyped = flag(
        alloc,
        "untyped",
        "leave out the header with the type's name",
    );
    let tables = "read CSV of a header and records KEY,VALUE; sorted as by --sort";
    let command = Command::new(alloc, "build")
        .about("write the archive of lines KEY TAB VALUE")
        .after_help(BUILD_HELP)
        .arg(sort.conflicts_with("strict")?)?
        .arg(flag(alloc, "strict", "fail unless the keys increase"))?
        .arg(untyped)?
        .arg(escape.requires_arg("sort")?.conflicts_with("null")?)?
        .arg(null.requires_arg("sort")?)?;
    let types = "the types of keys and values, if they are no texts; sorted as by --sort";
    let command = with_types(alloc, with_json_input(alloc, command)?, types)?;
    with_tables(alloc, command, tables, "strict")?
        .arg(output(alloc))?
        .arg(file(alloc))
}

/// Returns the words of `update`.
fn update<'a>(alloc: Global) -> Result<Command<'a>, AllocError> {
    let sort = flag(
        alloc,
        "sort",
        "sort the lines by keys, in memory; of equal keys the last line counts",
    );
    let changes = Arg::new(alloc, "CHANGES")
        .help("the lines to read, if not standard input")
        .action(ArgAction::Set);
    let command = Command::new(alloc, "update").about(
        "write an archive after changes: lines KEY TAB VALUE put, and lines KEY delete",
    );
    with_archive_types(alloc, command)?
        .arg(sort)?
        .arg(output(alloc))?
        .arg(required(alloc, "ARCHIVE", "the archive to change"))?
        .arg(changes)
}

/// Returns the words of `set`.
fn set<'a>(alloc: Global) -> Result<Command<'a>, AllocError> {
    let in_place = flag(
        alloc,
        "in-place",
        "write a number over that of a key in FILE, of which no other byte is changed",
    );
    let command = Command::new(alloc, "set")
        .about("write an archive with the value of one key, which it may lack")
        .after_help(SET_EXAMPLES);
    with_archive_types(alloc, command)?
        .arg(in_place.conflicts_with("OUTPUT")?.requires_arg("FILE")?)?
        .arg(output(alloc))?
        .arg(word(alloc, "KEY"))?
        .arg(word(alloc, "VALUE"))?
        .arg(file(alloc))
}

/// Returns the words of `merge`.
fn merge<'a>(alloc: Global) -> Result<Command<'a>, AllocError> {
    let others = required(
        alloc,
        "OTHERS",
        "further archives, of which the last one wins",
    );
    let command = Command::new(alloc, "merge").about(
        "write the archive of the entries of several archives",
    );
    with_archive_types(alloc, command)?
        .arg(output(alloc))?
        .arg(required(alloc, "ARCHIVE", "the first archive"))?
        .arg(others.num_args(1..))
}

/// Returns the words of `diff`.
fn diff<'a>(alloc: Global) -> Result<Command<'a>, AllocError> {
    let command = Command::new(alloc, "diff").about(
        "write the lines by which update makes one archive of another",
    );
    with_archive_types(alloc, command)?
        .arg(required(alloc, "OLD", "the archive to change"))?
        .arg(required(alloc, "NEW", "the archive that it becomes"))
}

/// Returns the words of `top`.
fn top<'a>(alloc: Global) -> Result<Command<'a>, AllocError> {
    let levels = required(alloc, "LEVELS", "the number of levels, from 1 to 32");
    Command::new(alloc, "top")
        .about(
            "write the sidecar of an archive: the nodes of the first LEVELS levels, and their keys",
        )
        .arg(levels.value_parser(value_parser!(u32).range(1..=32)))?
        .arg(output(alloc))?
        .arg(required(alloc, "FILE", "the archive to read"))
}

/// Returns the words of `list`.
fn list<'a>(alloc: Global) -> Result<Command<'a>, AllocError> {
    let json = flag(alloc, "json", "write one JSON object");
    let command = Command::new(alloc, "list")
        .about("write the lines of an archive")
        .after_help(LIST_EXAMPLES);
    let command = with_archive_types(alloc, command)?;
    let command = with_json_lines(alloc, with_forms(alloc, command)?)?;
    let tables = "write CSV: the header key,value, and a record an entry";
    with_tables(alloc, command, tables, "json")?
        .arg(
            json.conflicts_with("escape")?
                .conflicts_with("null")?
                .conflicts_with("ndjson")?,
        )?
        .arg(file(alloc))
}

/// Returns the words of `check`.
fn check<'a>(alloc: Global) -> Result<Command<'a>, AllocError> {
    let command = Command::new(alloc, "check").about("write how many entries an archive has");
    with_archive_types(alloc, command)?
        .arg(flag(alloc, "strict", "fail unless the keys increase"))?
        .arg(file(alloc))
}

/// Returns the words of `stat`.
fn stat<'a>(alloc: Global) -> Result<Command<'a>, AllocError> {
    Command::new(alloc, "stat")
        .about("write how many entries, levels, nodes and bytes an archive has")
        .arg(file(alloc))
}

/// Returns the words of `explain`.
fn explain<'a>(alloc: Global) -> Result<Command<'a>, AllocError> {
    Command::new(alloc, "explain")
        .about("write the bytes of an archive with their meaning, or the way of a lookup")
        .arg(
            Arg::new(alloc, "key")
                .long("key")
                .value_name("KEY")
                .help(
                    "write the nodes to which a lookup of this key comes, and the keys it compares",
                )
                .allow_hyphen_values(true)
                .action(ArgAction::Set),
        )?
        .arg(file(alloc))
}

/// Adds the flags of commands that don't read a file whole.
fn with_reading<'a>(alloc: Global, command: Command<'a>) -> Result<Command<'a>, AllocError> {
    command
        .arg(flag(alloc, "validate", "validate all of FILE first"))?
        .arg(flag(
            alloc,
            "stats",
            "write to standard error how many bytes were read",
        ))
}

/// Returns the words of `first`.
fn first<'a>(alloc: Global) -> Result<Command<'a>, AllocError> {
    let command = Command::new(alloc, "first")
        .about("write the line of the first entry, which has the least key if the keys increase")
        .after_help(FIRST_EXAMPLES);
    let command = with_archive_types(alloc, command)?;
    with_reading(alloc, with_json_lines(alloc, with_forms(alloc, command)?)?)?.arg(file(alloc))
}

/// Returns the words of `last`.
fn last<'a>(alloc: Global) -> Result<Command<'a>, AllocError> {
    let command = Command::new(alloc, "last")
        .about("write the line of the last entry, which has the greatest key if the keys increase")
        .after_help(LAST_EXAMPLES);
    let command = with_archive_types(alloc, command)?;
    with_reading(alloc, with_json_lines(alloc, with_forms(alloc, command)?)?)?.arg(file(alloc))
}

/// Returns the words of `get` after its second: all but the last are keys too, and the last is the file.
fn more<'a>(alloc: Global) -> Result<Arg<'a>, AllocError> {
    Arg::new(alloc, "MORE")
        .help("with three words or more, the last is the file to read, and the others are keys")
        .num_args(1..)
        .action(ArgAction::Set)
        .conflicts_with("json")?
        .conflicts_with("escape")?
        .conflicts_with("null")?
        .conflicts_with("keys-from")
}

/// Returns the words of `get`.
fn get<'a>(alloc: Global) -> Result<Command<'a>, AllocError> {
    let keys = Arg::new(alloc, "keys-from")
        .long("keys-from")
        .value_name("KEYS")
        .help(
            "write KEY TAB VALUE of each key in this file, or - for standard input; FILE in place of KEY",
        )
        .action(ArgAction::Set);
    let json = flag(alloc, "json", "write a JSON string");
    let command = Command::new(alloc, "get")
        .about("write the value of a key, or KEY TAB VALUE of each of several keys")
        .after_help(GET_EXAMPLES);
    let command = with_archive_types(alloc, command)?;
    with_reading(alloc, with_forms(alloc, command)?)?
        .arg(json.conflicts_with("escape")?.conflicts_with("null")?)?
        .arg(
            keys.conflicts_with("json")?
                .conflicts_with("escape")?
                .conflicts_with("null")?,
        )?
        .arg(word(alloc, "KEY"))?
        .arg(file(alloc).conflicts_with("keys-from")?)?
        .arg(more(alloc)?)
}

/// Returns the words of `range`.
fn range<'a>(alloc: Global) -> Result<Command<'a>, AllocError> {
    let command = Command::new(alloc, "range").about(
        "write the lines of the keys from LOW to HIGH, both included",
    );
    let command = with_archive_types(alloc, command)?;
    with_reading(alloc, with_json_lines(alloc, with_forms(alloc, command)?)?)?
        .arg(word(alloc, "LOW"))?
        .arg(word(alloc, "HIGH"))?
        .arg(file(alloc))
}

/// Returns the words of `prefix`.
fn prefix<'a>(alloc: Global) -> Result<Command<'a>, AllocError> {
    let command = Command::new(alloc, "prefix").about(
        "write the lines of the keys that begin with TEXT",
    );
    let command = with_archive_types(alloc, command)?;
    with_reading(alloc, with_json_lines(alloc, with_forms(alloc, command)?)?)?
        .arg(word(alloc, "TEXT"))?
        .arg(file(alloc))
}

/// Returns the words of the command of this name, if there is one.
fn command_named<'a>(alloc: Global, name: &str) -> Result<Option<Command<'a>>, AllocError> {
    let command = match name {
        "build" => build(alloc),
        "update" => update(alloc),
        "set" => set(alloc),
        "merge" => merge(alloc),
        "diff" => diff(alloc),
        "top" => top(alloc),
        "list" => list(alloc),
        "check" => check(alloc),
        "stat" => stat(alloc),
        "explain" => explain(alloc),
        "first" => first(alloc),
        "last" => last(alloc),
        "get" => get(alloc),
        "range" => range(alloc),
        "prefix" => prefix(alloc),
        _ => return Ok(None),
    };
    Ok(Some(command?))
}

/// Adds all commands.
fn with_commands<'a>(alloc: Global, program: Command<'a>) -> Result<Command<'a>, AllocError> {
    let mut program = program;
    for name in &COMMANDS {
        if let Some(command) = command_named(alloc, name)? {
            program = program.subcommand(command)?;
        }
    }
    Ok(program)
}

/// Returns what the program understands after this first word. If it is the name of a command, no other command is made: to make all of
/// them takes longer than a look-up.
fn grammar<'a>(alloc: Global, first: &str) -> Result<Command<'a>, AllocError> {
    let program = Command::new(alloc, "btreekv")
        .about(
            "Builds, validates, queries and changes archived maps of texts, numbers and byte strings",
        )
        .version("0.1.0")
        .after_help(EXAMPLES)
        .subcommand_required(true);
    match command_named(alloc, first)? {
        Some(command) => program.subcommand(command),
        None => with_commands(alloc, program),
    }
}

/// Reads the words of the command line.
pub fn parse<'a>(alloc: Global, words: &'a [String]) -> Result<ArgMatches<'a>, Error> {
    let first = match words.get(1) {
        Some(word) => word.as_str(),
        None => "",
    };
    grammar(alloc, first)?.try_get_matches_from(words)
}

/// Returns a word as a text of its own.
pub fn owned(alloc: Global, matches: &ArgMatches<'_>, name: &str) -> Result<String, AllocError> {
    String::from_str(alloc, matches.get_str(name).unwrap_or(""))
}

/// Returns how a command writes entries and values.
pub fn form_of(matches: &ArgMatches<'_>) -> Form {
    if matches.get_flag("escape") {
        Form::Escaped
    } else if matches.get_flag("null") {
        Form::Null
    } else if matches.get_flag("json") || matches.get_flag("ndjson") {
        Form::Json
    } else {
        Form::Plain
    }
}

/// Returns what a file begins with that `build` writes.
fn heading_of(matches: &ArgMatches<'_>) -> Heading {
    if matches.get_flag("untyped") {
        Heading::Untyped
    } else {
        Heading::Typed
    }
}

/// Returns how the table is that a command reads or writes, if it is one.
pub fn table_of(matches: &ArgMatches<'_>) -> Option<Table> {
    if matches.get_flag("csv") {
        Some(Table::Csv)
    } else if matches.get_flag("tsv") {
        Some(Table::Tsv)
    } else {
        None
    }
}

/// Returns the command of the words of `build`.
fn build_command(matches: &ArgMatches<'_>) -> command::Command {
    let heading = heading_of(matches);
    if let Some(table) = table_of(matches) {
        command::Command::BuildTable(table, heading)
    } else if matches.get_flag("strict") {
        command::Command::BuildStrict(heading)
    } else if matches.get_flag("escape") {
        command::Command::BuildFrom(Records::Escaped, heading)
    } else if matches.get_flag("null") {
        command::Command::BuildFrom(Records::Null, heading)
    } else if matches.get_flag("ndjson") {
        command::Command::BuildFrom(Records::Json, heading)
    } else if matches.get_flag("json") {
        command::Command::BuildJson(heading)
    } else if matches.get_flag("sort") {
        command::Command::BuildSorted(heading)
    } else {
        command::Command::Build(heading)
    }
}

/// Returns the command of the matches of a subcommand.
pub fn command_of(
    alloc: Global,
    name: &str,
    matches: &ArgMatches<'_>,
) -> Result<command::Command, AllocError> {
    let form = form_of(matches);
    match name {
        "build" => Ok(build_command(matches)),
        "check" => {
            if matches.get_flag("strict") {
                return Ok(command::Command::CheckStrict);
            }
            Ok(command::Command::Check)
        }
        "first" => Ok(command::Command::First(form)),
        "last" => Ok(command::Command::Last(form)),
        "get" => {
            let key = owned(alloc, matches, "KEY")?;
            Ok(command::Command::Get(key, form))
        }
        "range" => {
            let low = owned(alloc, matches, "LOW")?;
            let high = owned(alloc, matches, "HIGH")?;
            Ok(command::Command::Range(low, high, form))
        }
        "prefix" => {
            let text = owned(alloc, matches, "TEXT")?;
            Ok(command::Command::Prefix(text, form))
        }
        _ => Ok(command::Command::Stat),
    }
}

/// Returns whether a command takes maps of other types than texts.
pub fn takes_types(name: &str) -> bool {
    match name {
        "build" | "list" | "check" | "first" | "last" => true,
        "get" | "range" | "prefix" | "set" | "merge" | "update" | "diff" => true,
        _ => false,
    }
}

/// Returns whether a command reads more files than one, whatever its words are.
pub fn reads_several(name: &str) -> bool {
    name == "merge" || name == "update" || name == "diff"
}

/// Returns whether a command writes into its input.
pub fn is_in_place(name: &str, matches: &ArgMatches<'_>) -> bool {
    name == "set" && matches.get_flag("in-place")
}

/// Returns whether a command looks up several keys.
pub fn has_several_keys(name: &str, matches: &ArgMatches<'_>) -> bool {
    name == "get" && (matches.get_str("keys-from").is_some() || matches.get_strs("MORE").is_some())
}

/// Returns how byte strings are written and read.
pub fn style_of(matches: &ArgMatches<'_>) -> BytesStyle {
    if matches.get_flag("base64") {
        BytesStyle::Base64
    } else {
        BytesStyle::Hexadecimal
    }
}

/// Returns what the words of `build` have entries read from.
fn source_of(matches: &ArgMatches<'_>) -> Source {
    if let Some(table) = table_of(matches) {
        Source::Table(table)
    } else if matches.get_flag("escape") {
        Source::Records(Records::Escaped)
    } else if matches.get_flag("null") {
        Source::Records(Records::Null)
    } else if matches.get_flag("ndjson") {
        Source::Records(Records::Json)
    } else if matches.get_flag("json") {
        Source::Object
    } else {
        Source::Lines
    }
}

/// Returns the command over typed maps of the words of `build`.
fn typed_build(matches: &ArgMatches<'_>) -> TypedCommand {
    let order = if matches.get_flag("strict") {
        Order::Increasing
    } else {
        Order::Any
    };
    TypedCommand::Build(source_of(matches), order, heading_of(matches))
}

/// Returns how the words of `list` have a list written.
fn list_form_of(matches: &ArgMatches<'_>) -> ListForm {
    if matches.get_flag("json") {
        return ListForm::Object;
    }
    match table_of(matches) {
        Some(table) => ListForm::Table(table),
        None => ListForm::Lines(form_of(matches)),
    }
}

/// Returns the command over typed maps of the words of `update`, and of the bytes of its lines.
fn typed_update(matches: &ArgMatches<'_>, lines: Vec<u8>) -> TypedCommand {
    let order = if matches.get_flag("sort") {
        Order::Any
    } else {
        Order::Increasing
    };
    TypedCommand::Update(order, lines)
}

/// Returns the command over typed maps of the matches of a subcommand. `others` are the files that it reads after the first: the further
/// archives of `merge`, the lines of `update`, and the new archive of `diff`.
pub fn typed_command_of(
    alloc: Global,
    name: &str,
    matches: &ArgMatches<'_>,
    mut others: Vec<Vec<u8>>,
) -> Result<TypedCommand, AllocError> {
    match name {
        "build" => Ok(typed_build(matches)),
        "merge" => Ok(TypedCommand::Merge(others)),
        "update" => {
            let lines = others.pop().unwrap_or(Vec::new(alloc));
            Ok(typed_update(matches, lines))
        }
        "diff" => Ok(TypedCommand::Diff(others.pop().unwrap_or(Vec::new(alloc)))),
        "check" if matches.get_flag("strict") => Ok(TypedCommand::CheckStrict),
        "check" => Ok(TypedCommand::Check),
        "first" => Ok(TypedCommand::First(form_of(matches))),
        "last" => Ok(TypedCommand::Last(form_of(matches))),
        "set" => {
            let key = owned(alloc, matches, "KEY")?;
            let value = owned(alloc, matches, "VALUE")?;
            Ok(TypedCommand::Set(key, value))
        }
        "get" => {
            let key = owned(alloc, matches, "KEY")?;
            Ok(TypedCommand::Get(key, form_of(matches)))
        }
        "range" => {
            let low = owned(alloc, matches, "LOW")?;
            let high = owned(alloc, matches, "HIGH")?;
            Ok(TypedCommand::Range(low, high, form_of(matches)))
        }
        "prefix" => {
            let text = owned(alloc, matches, "TEXT")?;
            Ok(TypedCommand::Prefix(text, form_of(matches)))
        }
        _ => Ok(TypedCommand::List(list_form_of(matches))),
    }
}
