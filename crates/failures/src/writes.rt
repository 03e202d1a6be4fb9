//! Archives at writers that fail at one write, each write in turn, from positions near the last, and with a key out of order.

use crate::archives::{Case, Content, cases, migrated_leaf, migrated_six, swapped_tens, tens};
use crate::writers::{FailingWriter, Failure, Taken};
use rkyv_btree_base::fault::Fault;
use std::alloc::{AllocError, Global};

/// Appends each byte as two digits of base 16, or a dash if there are none.
pub(crate) fn show_bytes(bytes: &[u8], out: &mut String) -> Result<(), AllocError> {
    if bytes.is_empty() {
        return out.push('-');
    }
    for byte in bytes {
        write!(out, "{byte:02x}")?;
    }
    Ok(())
}

/// Appends what a call has returned: a position or an error.
pub(crate) fn show_answer(
    answer: &Result<u32, Fault<AllocError>>,
    out: &mut String,
) -> Result<(), AllocError> {
    match answer {
        Ok(pos) => write!(out, "Ok at {pos}"),
        Err(fault) => write!(out, "{fault}"),
    }
}

/// Archives a case at a writer that fails at one write.
fn run(
    alloc: Global,
    case: &Case,
    failure: Option<Failure>,
) -> anyhow::Result<(Result<u32, Fault<AllocError>>, FailingWriter)> {
    let mut writer = FailingWriter::new(alloc, 0, case.old, failure)?;
    let answer = case
        .content
        .write::<FailingWriter, Global>(alloc, alloc, &mut writer)?;
    Ok((answer, writer))
}

/// Appends a line for a write that fails: the error, what the writer holds then, and whether the next call is right.
fn show_failure(
    alloc: Global,
    case: &Case,
    failure: Failure,
    whole: &FailingWriter,
    out: &mut String,
) -> anyhow::Result<()> {
    let taken = match failure.taken {
        Taken::Nothing => "nothing",
        Taken::Half => "half",
    };
    let name = case.name;
    let at = failure.at;
    write!(out, "{name}, write {at} takes {taken}: ")?;
    let (answer, writer) = run(alloc, case, Some(failure))?;
    show_answer(&answer, out)?;
    let left = writer.bytes.len();
    write!(out, "; {left} bytes: ")?;
    show_bytes(&writer.bytes, out)?;
    let (_, again) = run(alloc, case, None)?;
    let next = if again.bytes == whole.bytes {
        "right"
    } else {
        "WRONG"
    };
    write!(out, "; next is {next}\n")?;
    Ok(())
}

/// Appends a line for each write of each case that fails, and one for each case.
pub(crate) fn show(alloc: Global, out: &mut String) -> anyhow::Result<()> {
    let mut places: u32 = 0;
    for case in &cases(alloc)? {
        let (answer, whole) = run(alloc, case, None)?;
        let writes = whole.writes;
        let len = whole.bytes.len();
        let name = case.name;
        write!(out, "{name}: ")?;
        show_answer(&answer, out)?;
        write!(out, "; {writes} writes, {len} bytes: ")?;
        show_bytes(&whole.bytes, out)?;
        out.push('\n')?;
        for at in 1..=writes {
            for taken in [Taken::Nothing, Taken::Half] {
                show_failure(alloc, case, Failure { at, taken }, &whole, out)?;
                places = places.wrapping_add(1);
            }
        }
    }
    write!(out, "failed writes: {places}\n")?;
    Ok(())
}

/// Appends a line for a content from a position on.
fn show_from(
    alloc: Global,
    name: &str,
    base: u32,
    content: &Content,
    out: &mut String,
) -> anyhow::Result<()> {
    write!(out, "from {base}, {name}: ")?;
    show_rest(alloc, base, content, None, out)
}

/// Appends the result of a content and what its writer holds then.
fn show_rest(
    alloc: Global,
    base: u32,
    content: &Content,
    failure: Option<Failure>,
    out: &mut String,
) -> anyhow::Result<()> {
    let mut writer = FailingWriter::new(alloc, base, &[], failure)?;
    let answer = content.write::<FailingWriter, Global>(alloc, alloc, &mut writer)?;
    show_answer(&answer, out)?;
    let writes = writer.writes;
    let left = writer.bytes.len();
    write!(out, "; {writes} writes, {left} bytes: ")?;
    show_bytes(&writer.bytes, out)?;
    out.push('\n')?;
    Ok(())
}

/// Appends a line for each archive whose end is near the last position, or past it.
pub(crate) fn show_positions(alloc: Global, out: &mut String) -> anyhow::Result<()> {
    let none = Content::Numbers(Vec::new(alloc));
    let seven = Content::Numbers(Vec::from_slice(alloc, &[(7, 11)])?);
    let six = Content::Numbers(tens(alloc, 6)?);
    let mut entries = Vec::new(alloc);
    entries.push((String::from_str(alloc, "a")?, 1))?;
    let text = Content::Texts(entries);
    let strict = Content::StrictNumbers(tens(alloc, 6)?);
    let migrated = migrated_six(alloc)?;
    let leaf = migrated_leaf(alloc)?;
    let rows = [
        ("six keys", 4294967232, &six),
        ("one entry", 4294967232, &seven),
        ("one entry", 4294967248, &seven),
        ("no entries", 4294967292, &none),
        ("no entries", 4294967284, &none),
        ("no entries", 4294967288, &none),
        ("no entries", 4294967285, &none),
        ("a text", 4294967292, &text),
        ("six keys, strict", 4294967232, &strict),
        ("six keys, migrated", 4294967232, &migrated),
        ("an unordered leaf, migrated", 4294967236, &leaf),
        ("an unordered leaf, migrated", 4294967240, &leaf),
    ];
    for (name, base, content) in rows {
        show_from(alloc, name, base, content, out)?;
    }
    Ok(())
}

/// Appends a line for each key that can be out of order in strict building, a line where a write fails before that key is met, and
/// one where it would fail after it.
pub(crate) fn show_orders(alloc: Global, out: &mut String) -> anyhow::Result<()> {
    for index in 1..17 {
        write!(out, "seventeen keys, strict, entry {index}: ")?;
        let content = Content::StrictNumbers(swapped_tens(alloc, 17, index)?);
        show_rest(alloc, 0, &content, None, out)?;
    }
    let mut texts = Vec::new(alloc);
    for (text, number) in [("bc", 2), ("a", 1)] {
        texts.push((String::from_str(alloc, text)?, number))?;
    }
    let equal = Vec::from_slice(alloc, &[(1, 10), (1, 20)])?;
    let rows = [
        ("equal keys, strict", Content::StrictNumbers(equal)),
        ("two texts, strict", Content::StrictTexts(texts)),
        (
            "a set, strict",
            Content::StrictKeys(Vec::from_slice(alloc, &[2, 1])?),
        ),
    ];
    for (name, content) in &rows {
        write!(out, "{name}, entry 1: ")?;
        show_rest(alloc, 0, content, None, out)?;
    }
    for (index, at) in [(12, 2), (12, 3)] {
        write!(
            out,
            "seventeen keys, strict, entry {index}, write {at} takes nothing: "
        )?;
        let content = Content::StrictNumbers(swapped_tens(alloc, 17, index)?);
        let taken = Taken::Nothing;
        show_rest(alloc, 0, &content, Some(Failure { at, taken }), out)?;
    }
    Ok(())
}
