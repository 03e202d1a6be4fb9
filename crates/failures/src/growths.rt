//! One call for each run of the program, in which one growth of memory may be refused: `tools/growths.py` refuses each in turn.

use crate::archives::{
    Case, archived, built_cases, four_texts, map_of, maps_in_map, migrated_leaf, migrated_six,
    set_of, tens,
};
use anyhow::{Context, bail, ensure};
use examples::version::Version;
use rkyv_btree::prelude::*;
use std::alloc::{AllocError, Global};
use std::collections::BTreeMap;

/// What comes of a call.
#[derive(Clone, Copy)]
enum Outcome {
    Right,
    Wrong,
    Memory,
    Writer,
    /// Another error.
    Other,
}

impl Outcome {
    fn name(self) -> &'static str {
        match self {
            Outcome::Right => "right",
            Outcome::Wrong => "WRONG",
            Outcome::Memory => "out of memory",
            Outcome::Writer => "writer failed",
            Outcome::Other => "ANOTHER ERROR",
        }
    }

    /// Returns which error it is.
    fn of_fault(fault: &Fault<AllocError>) -> Outcome {
        match fault {
            Fault::Memory(_) => Outcome::Memory,
            Fault::Writer(_) => Outcome::Writer,
            _ => Outcome::Other,
        }
    }

    /// Returns whether a result is right.
    fn of_result(is_right: bool) -> Outcome {
        if is_right {
            Outcome::Right
        } else {
            Outcome::Wrong
        }
    }
}

/// An outcome, and how many bytes the writer holds after it.
#[derive(Clone, Copy)]
struct Answer {
    outcome: Outcome,
    left: Option<usize>,
}

/// Archives a case over a writer in memory that may take memory of its own.
fn build(alloc: Global, case: &Case, whole: &[u8]) -> anyhow::Result<Answer> {
    let mut writer = VecWriter::from_vec(case.old.to_vec(alloc)?);
    let answer = case
        .content
        .write::<VecWriter, Global>(alloc, alloc, &mut writer)?;
    let bytes = writer.bytes();
    let is_kept = bytes.starts_with(case.old) && whole.starts_with(bytes);
    let outcome = match answer {
        Ok(_) => Outcome::of_result(bytes == whole),
        Err(_) if !is_kept => Outcome::Wrong,
        Err(fault) => Outcome::of_fault(&fault),
    };
    Ok(Answer {
        outcome,
        left: Some(bytes.len()),
    })
}

/// What is made of a native value or of its archive.
#[derive(Clone, Copy)]
enum Call {
    ToArchive,
    Deserialize,
    FromArchive,
}

impl Call {
    fn named(name: &str) -> Option<Call> {
        match name {
            "to_archive" => Some(Call::ToArchive),
            "deserialize" => Some(Call::Deserialize),
            "from_archive" => Some(Call::FromArchive),
            _ => None,
        }
    }
}

/// Makes a call, of a native value and its archive.
fn make<T: Serialize<VecWriter, Global> + PartialEq + Drop>(
    alloc: Global,
    call: Call,
    value: &T,
    bytes: &[u8],
) -> anyhow::Result<Answer>
where
    T::Archived: CheckBytes + Deserialize<T>,
{
    ensure!(Archived::<T>::fits(), "the type doesn't fit");
    let outcome = match call {
        Call::ToArchive => match to_archive(alloc, value) {
            Ok(archive) => Outcome::of_result(archive.as_slice() == bytes),
            Err(fault) => Outcome::of_fault(&fault),
        },
        Call::Deserialize => {
            let view = open::<T::Archived>(bytes)?;
            match T::Archived::deserialize(alloc, &view) {
                Ok(made) => Outcome::of_result(made == *value),
                Err(DeserializeFault::Memory(_)) => Outcome::Memory,
                Err(_) => Outcome::Other,
            }
        }
        Call::FromArchive => match from_archive::<T>(alloc, bytes) {
            Ok(made) => Outcome::of_result(made == *value),
            Err(FromArchiveFault::NotMade(DeserializeFault::Memory(_))) => Outcome::Memory,
            Err(_) => Outcome::Other,
        },
    };
    Ok(Answer {
        outcome,
        left: None,
    })
}

/// Makes a call twice: a growth that is refused in the first leaves memory for the second.
fn make_twice<T: Serialize<VecWriter, Global> + PartialEq + Drop>(
    alloc: Global,
    call: Call,
    value: &T,
) -> anyhow::Result<(Answer, Answer)>
where
    T::Archived: CheckBytes + Deserialize<T>,
{
    ensure!(Archived::<T>::fits(), "the type doesn't fit");
    let bytes = to_archive(alloc, value)?;
    let first = make(alloc, call, value, &bytes)?;
    let second = make(alloc, call, value, &bytes)?;
    Ok((first, second))
}

/// Returns versions in a std map. Equal ones aren't known to be the same, so they are deserialized one after another.
fn versions(alloc: Global, count: u8) -> Result<BTreeMap<Version, u32>, AllocError> {
    let mut map = BTreeMap::new(alloc);
    for minor in 0..count {
        let version = Version {
            major: 1,
            minor,
            patch: 0,
        };
        if map.insert(version, u32::from(minor)).is_err() {
            return Err(AllocError);
        }
    }
    Ok(map)
}

/// Makes a call of the native value with a name.
fn make_named(alloc: Global, call: Call, name: &str) -> anyhow::Result<(Answer, Answer)> {
    match name {
        "number" => make_twice::<u32>(alloc, call, &7),
        "text" => make_twice(alloc, call, &String::from_str(alloc, "pear")?),
        "seventeen keys" => make_twice(alloc, call, &map_of(alloc, tens(alloc, 17)?)?),
        "thirty-six keys" => make_twice(alloc, call, &map_of(alloc, tens(alloc, 36)?)?),
        "four texts" => make_twice(alloc, call, &four_texts(alloc)?),
        "a set of seven" => make_twice(alloc, call, &set_of(alloc, 7)?),
        "seventeen versions" => make_twice(alloc, call, &versions(alloc, 17)?),
        "maps in a map" => make_twice(alloc, call, &maps_in_map(alloc)?),
        _ => bail!("no such value"),
    }
}

/// Archives the case with a name twice, each time over a writer of its own.
fn build_named(alloc: Global, name: &str) -> anyhow::Result<(Answer, Answer)> {
    let cases = built_cases(alloc)?;
    let case = cases
        .iter()
        .find(|case| case.name == name)
        .context("no such case")?;
    let mut writer = VecWriter::from_vec(case.old.to_vec(alloc)?);
    if case
        .content
        .write::<VecWriter, Global>(alloc, alloc, &mut writer)?
        .is_err()
    {
        return Err(AllocError.into());
    }
    let first = build(alloc, case, writer.bytes())?;
    let second = build(alloc, case, writer.bytes())?;
    Ok((first, second))
}

/// Migrates the archive with a name twice, each time over a writer of its own.
fn migrate_named(alloc: Global, name: &str) -> anyhow::Result<(Answer, Answer)> {
    let (name, content, last) = match name {
        "an unordered leaf" => ("leaf", migrated_leaf(alloc)?, 3),
        "six keys" => ("six keys", migrated_six(alloc)?, 6),
        _ => bail!("no such archive"),
    };
    let whole = archived(alloc, tens(alloc, last)?)?;
    let old = b"";
    let case = Case { name, old, content };
    let first = build(alloc, &case, &whole)?;
    let second = build(alloc, &case, &whole)?;
    Ok((first, second))
}

/// Appends a result.
fn show_answer(answer: Answer, out: &mut String) -> Result<(), AllocError> {
    out.push_str(answer.outcome.name())?;
    match answer.left {
        Some(left) => write!(out, ", {left} bytes"),
        None => Ok(()),
    }
}

/// Makes a call twice, and appends both results.
pub(crate) fn show(alloc: Global, call: &str, name: &str, out: &mut String) -> anyhow::Result<()> {
    let (first, second) = match Call::named(call) {
        Some(call) => make_named(alloc, call, name)?,
        None if call == "build" => build_named(alloc, name)?,
        None if call == "migrate" => migrate_named(alloc, name)?,
        None => bail!("no such call"),
    };
    show_answer(first, out)?;
    out.push_str("; then ")?;
    show_answer(second, out)?;
    out.push('\n')?;
    Ok(())
}
