//! The commands, and the words that name them.
use crate::heading::Heading;
use crate::lines::whole_number;

/// A command of the program.
#[derive(Clone, Copy, Debug)]
pub enum Command {
    /// Archive the input's lines, with a header or without one.
    Build(Heading),
    /// Write the lines of the input's archive.
    List,
    /// Write how many entries the input's archive has.
    Check,
    /// Write the value of this key.
    Get(u32),
    /// Write the lines of the keys from the first to the second, both included.
    Range(u32, u32),
    /// Write the input's archive with the second number as the value of the first, which is a key.
    Set(u32, u32),
    /// Archive the input's lines, whose keys must increase.
    BuildStrict(Heading),
    /// Write how many entries the input's archive has, whose keys must increase.
    CheckStrict,
    /// Write an archive of the last values of the input's archive, with increasing keys.
    Migrate,
}

impl Command {
    ghost use Rattle.std.specs.Prelude.{◌≡◌, IfSome, IfNone};
    ghost use Rattle.btreearc_lines.specs.Words.{Names, IsNoCommand};

    /// The command that the words name, if they name one.
    pub fn from_words(args: &[String]) -> Option<Command>
        ensures named { IfSome result (Names args.now) }
        ensures all_named { (command : Command) → Names args.now command → result ≡ Some command }
        ensures unnamed { IfNone result (IsNoCommand args.now) }
    {
        match args {
            [word] => match word.as_str() {
                "build" => Some(Command::Build(Heading::Typed)),
                "list" => Some(Command::List),
                "check" => Some(Command::Check),
                "build-strict" => Some(Command::BuildStrict(Heading::Typed)),
                "check-strict" => Some(Command::CheckStrict),
                "migrate" => Some(Command::Migrate),
                _ => None,
            },
            [word, second] => match (word.as_str(), second.as_str()) {
                ("get", number) => Some(Command::Get(whole_number(number)?)),
                ("build", "untyped") => Some(Command::Build(Heading::Untyped)),
                ("build-strict", "untyped") => Some(Command::BuildStrict(Heading::Untyped)),
                _ => None,
            },
            [word, first, second] => match word.as_str() {
                "range" => Some(Command::Range(whole_number(first)?, whole_number(second)?)),
                "set" => Some(Command::Set(whole_number(first)?, whole_number(second)?)),
                _ => None,
            },
            _ => None,
        }
    }
}
