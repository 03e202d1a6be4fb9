//! An iterator that gives `None` and then items again: those before `None` count alone.
ghost use Rattle.std.specs.Prelude.{length};
ghost use Rattle.std.specs.Iterator.{at_most};

use crate::writers::FailingWriter;
use crate::writes::{show_answer, show_bytes};
use anyhow::ensure;
use rkyv_btree::prelude::*;
use rkyv_btree_base::layout;
use std::alloc::Global;

type Numbers = ArchivedBTreeMap<ArchivedU32, ArchivedU32, 5>;

/// An iterator that returns what is listed, and counts the calls of its `next`.
#[derive(Drop)]
struct Listed<'x> {
    rest: &'x [Option<(u32, u32)>],
    calls: u32,
}

impl<'x> Iterator for Listed<'x> {
    type Item = (&'x u32, &'x u32);

    ghost remaining = { λ s. at_most (length s.rest.now) };

    fn next(&mut self) -> Option<(&'x u32, &'x u32)> {
        self.calls = self.calls.wrapping_add(1);
        let (first, rest) = self.rest.split_first()?;
        self.rest = rest;
        let (key, value) = first.as_ref()?;
        Some((key, value))
    }
}

/// Appends a line for a claim.
fn show_claim(
    alloc: Global,
    name: &str,
    is_strict: bool,
    claim: usize,
    list: &[Option<(u32, u32)>],
    out: &mut String,
) -> anyhow::Result<()> {
    ensure!(
        layout::fits::<ArchivedU32, ArchivedU32, 5>(),
        "no node of these types fits"
    );
    let mut items = Listed {
        rest: list,
        calls: 0,
    };
    let mut writer = FailingWriter::new(alloc, 0, &[], None)?;
    let tree = if is_strict {
        Numbers::serialize_strict_from_ordered_iter(alloc, claim, &mut items, &mut writer)
    } else {
        Numbers::serialize_from_ordered_iter(alloc, claim, &mut items, &mut writer)
    };
    let calls = items.calls;
    let answer = match tree {
        Ok(tree) => Numbers::write_root(claim, tree, &mut writer),
        Err(fault) => Err(fault),
    };
    let strict = if is_strict { "strict, " } else { "" };
    write!(out, "items after None, {strict}{name}: ")?;
    show_answer(&answer, out)?;
    let left = writer.bytes.len();
    write!(out, "; next was called {calls} times; {left} bytes: ")?;
    show_bytes(&writer.bytes, out)?;
    out.push('\n')?;
    Ok(())
}

/// Appends a line for each kind of claim.
pub(crate) fn show(alloc: Global, out: &mut String) -> anyhow::Result<()> {
    let list = [
        Some((1, 10)),
        Some((2, 20)),
        Some((3, 30)),
        None,
        Some((4, 40)),
        Some((5, 50)),
    ];
    for is_strict in [false, true] {
        show_claim(alloc, "claim 3 is met", is_strict, 3, &list, out)?;
        show_claim(alloc, "claim 4 is missed", is_strict, 4, &list, out)?;
        show_claim(alloc, "claim 2 is passed", is_strict, 2, &list, out)?;
        show_claim(alloc, "claim 0 is passed", is_strict, 0, &list, out)?;
        show_claim(
            alloc,
            "claim 0 is met",
            is_strict,
            0,
            &[None, Some((1, 10))],
            out,
        )?;
    }
    Ok(())
}
