//! Lists that mean the same are written as the same bytes. `write_both` shows how a caller learns that.
ghost use Rattle.std.specs.Prelude.{◌≡◌, map, string_bytes, IfOk, OnOk};
ghost use Rattle.std.specs.Iterator.{YieldsFirstBy, item_count};
ghost use Rattle.rkyv_btree_base.specs.Alike.{AppendAlike};
ghost use Rattle.rkyv_btree_base.specs.Writing.{position};

use crate::same::same;
use rkyv_btree_base::build::{BTreeMapResolver, BuildMap};
use rkyv_btree_base::fault::Fault;
use rkyv_btree_base::laws::{natives_are_determined, texts_are_determined, trees_are_determined};
use rkyv_btree_base::layout;
use rkyv_btree_base::map::ArchivedBTreeMap;
use rkyv_btree_base::numbers::ArchivedU32;
use rkyv_btree_base::place::{VecWriter, Writer};
use rkyv_btree_base::text::ArchivedText;
use std::alloc::{AllocError, Global};
use std::test::Fail;

/// Texts with their numbers, each as references to both.
#[derive(Drop)]
struct Entries<'x> {
    rest: &'x [(String, u32)],
}

impl<'x> Iterator for Entries<'x> {
    type Item = (&'x String, &'x u32);

    ghost next_gives = { YieldsFirstBy (λ e. (e.0.now, e.1.now)) (λ s. s.rest.now) };

    ghost remaining = { item_count (λ s. s.rest.now) };

    fn next(&mut self) -> Option<(&'x String, &'x u32)> {
        let (first, rest) = self.rest.split_first()?;
        self.rest = rest;
        Some((&first.0, &first.1))
    }
}

type Texts = ArchivedBTreeMap<ArchivedText, ArchivedU32, 2>;

/// Writes the trees of two lists of equal texts and numbers, each by its own writer.
#[tactic(auto, using(crate::proofs::Drained::texts_fit))]
fn write_both<W: Writer>(
    alloc: Global,
    first: &[(String, u32)],
    second: &[(String, u32)],
    one: &mut W,
    other: &mut W,
) -> Result<(BTreeMapResolver, BTreeMapResolver), Fault<W::Error>>
    requires at { position (W.state one.old) ≡ position (W.state other.old) }
    requires texts { map (λ e. string_bytes e.0) first.now ≡ map
        (λ e. string_bytes e.0) second.now }
    requires numbers { map (λ e. e.1) first.now ≡ map (λ e. e.1) second.now }
    ensures root { IfOk result (λ roots. roots.0 ≡ roots.1) }
    ensures bytes { OnOk result
        (AppendAlike (W.state one.old) (W.state one.new) (W.state other.old)
        (W.state other.new)) }
{
    texts_are_determined();
    natives_are_determined::<u32>();
    trees_are_determined::<String, u32, 2>();
    let items = Entries { rest: first };
    let root = Texts::serialize_from_ordered_iter(alloc, first.len(), items, one)?;
    let items = Entries { rest: second };
    let place = Texts::serialize_from_ordered_iter(alloc, second.len(), items, other)?;
    Ok((root, place))
}

/// The text in a `String` with room to spare.
fn wide(alloc: Global, text: &str) -> Result<String, AllocError>
    ensures { IfOk result (λ wide. string_bytes wide ≡ text.now) }
{
    let mut wide = String::with_capacity(alloc, 64)?;
    wide.push_str(text)?;
    Ok(wide)
}

// The texts of the second list lie in `String`s of their own, with room to spare.
#[test]
fn equal_texts_are_written_as_the_same_bytes(rt: HostRuntime) -> Result<(), Fail> {
    assert!(rt; layout::fits::<ArchivedText, ArchivedU32, 2>());
    let texts = ["bar", "b\u{E9}", ""];
    let first = [
        (String::from_str(rt.alloc(), texts[0])?, 20),
        (String::from_str(rt.alloc(), texts[1])?, 80),
        (String::from_str(rt.alloc(), texts[2])?, 40),
    ];
    let second = [
        (wide(rt.alloc(), texts[0])?, 20),
        (wide(rt.alloc(), texts[1])?, 80),
        (wide(rt.alloc(), texts[2])?, 40),
    ];
    let mut one = VecWriter::from_vec([7, 8, 9].to_vec(rt.alloc())?);
    let mut other = VecWriter::with_base(rt.alloc(), 3);
    write_both(rt.alloc(), &first, &second, &mut one, &mut other)?;
    // Three bytes, a text up to 8, a leaf of 32 bytes, a text up to 44 and an inner node of 40.
    assert!(rt; one.bytes().len() == 84);
    same(&rt, &one.bytes()[3..], other.bytes());
    Ok(())
}
