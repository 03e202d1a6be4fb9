//! What the commands make of one another's output.
ghost use Rattle.std.specs.Prelude.{◌≡◌, ℕ, List, [], ◌∷◌, ◌++◌, ◌&&◌, Some, Ok, IfOk, Contains, nat_le, codes, decimal, filter, length};
ghost use Rattle.btreearc_commands.specs.Commands.{Builds, Lists, Checks, Gets, Ranges, Sets, ChecksStrict, Migrates, last_values, total};
ghost use Rattle.btreearc_lines.specs.Grammar.{IsLines, lines, text_of};
ghost use Rattle.btreearc_commands.specs.Opening.{HasFitHeading, IsArchive, IsInput};
ghost use Rattle.btreearc_lines.specs.declared.heading.Heading.{Heading};
ghost use Rattle.btreearc_lines.specs.declared.heading.Heading.TheVariants.{Typed};
ghost use Rattle.btreearc_commands.specs.Sessions.{IsBuilt, IsBuiltStrict, IsMigratedTo, IsSetIn, AlwaysWrites, AlwaysPrints, KeysIncrease, keys, with_value};

use crate::opening::{one_list, refused_is_no_archive};
use crate::program::run;
use btreearc_lines::fault::ProgramFault;
use rkyv_btree_convert::native_map::last_values_count;
use rkyv_btree_portable::numbers::ArchivedU32;
use rkyv_btree_strict::strict_laws::neighbours_decide_order;
use rkyv_btree_view::lookup::{increasing_keys_are_found, what_is_found_is_equal};
use std::alloc::Global;

/// Nothing is lost: what is built of lines is listed as these lines, in the program's own spelling, and counted as so
/// many. Of what is listed the same archive is built again.
pub fn lines_are_listed_again()
    ensures archive { (heading : Heading) (text archive : List ℕ) (entries : List (ℕ × ℕ)) →
        IsBuilt heading text entries archive → IsInput archive entries }
    ensures listed { (heading : Heading) (text archive : List ℕ) (entries : List (ℕ × ℕ)) →
        IsBuilt heading text entries archive →
        AlwaysPrints (Lists (Some archive)) (text_of entries) 0 }
    ensures counted { (heading : Heading) (text archive : List ℕ) (entries : List (ℕ × ℕ)) →
        IsBuilt heading text entries archive →
        AlwaysPrints (Checks (Some archive)) (total (length (lines text))) 0 }
    ensures built_again { (heading : Heading) (text archive : List ℕ) (entries : List (ℕ × ℕ)) →
        IsBuilt heading text entries archive →
        AlwaysPrints (Builds heading (Some (text_of entries))) archive 0 }
{
    archives_show_their_entries();
}

/// An archive of entries is listed as these, and counted as so many, whoever wrote it. A key that none of them has isn't
/// found. Where their keys strictly increase, each is found, with its value, and a range gives all entries from its
/// first key to its last.
pub fn archives_show_their_entries()
    ensures listed { (archive : List ℕ) (entries : List (ℕ × ℕ)) → IsInput archive entries →
        AlwaysPrints (Lists (Some archive)) (text_of entries) 0 }
    ensures counted { (archive : List ℕ) (entries : List (ℕ × ℕ)) → IsInput archive entries →
        AlwaysPrints (Checks (Some archive)) (total (length entries)) 0 }
    ensures absent { (archive : List ℕ) (entries : List (ℕ × ℕ)) → IsInput archive entries →
        (key : ℕ) → (Contains (keys entries) key → ⊥)
        → AlwaysPrints (Gets key (Some archive)) [] 1 }
    ensures got { (archive : List ℕ) (entries : List (ℕ × ℕ)) → IsInput archive entries →
        KeysIncrease entries → (key value : ℕ) → Contains entries (key, value) →
        AlwaysPrints (Gets key (Some archive)) (decimal value ++ 10 ∷ []) 0 }
    ensures ranged { (archive : List ℕ) (entries : List (ℕ × ℕ)) → IsInput archive entries →
        KeysIncrease entries → (low high : ℕ) → AlwaysPrints (Ranges low high (Some archive))
        (text_of (filter (λ e. nat_le low e.0 && nat_le e.0 high) entries)) 0 }
{
    refused_is_no_archive();
    one_list();
    what_is_found_is_equal::<ArchivedU32, ArchivedU32, 5>();
    increasing_keys_are_found::<ArchivedU32, ArchivedU32, 5>();
}

/// `set` of a key that no entry has writes nothing. Where the keys strictly increase, and the key is among them, it
/// writes an archive of the same entries but for that one value, which is listed as these.
pub fn set_values_are_listed()
    ensures absent { (archive : List ℕ) (entries : List (ℕ × ℕ)) → IsInput archive entries →
        (key value : ℕ) → (Contains (keys entries) key → ⊥) →
        AlwaysPrints (Sets key value (Some archive)) [] 1 }
    ensures set { (archive : List ℕ) (entries : List (ℕ × ℕ)) → IsInput archive entries →
        KeysIncrease entries → (key value : ℕ) → Contains (keys entries) key →
        AlwaysWrites (Sets key value (Some archive))
        (λ made. IsArchive made (with_value key value entries)) 0 }
    ensures listed { (archive made : List ℕ) (entries : List (ℕ × ℕ)) → IsInput archive entries →
        KeysIncrease entries → (key value : ℕ) → IsSetIn key value archive made →
        HasFitHeading made → AlwaysPrints (Lists (Some made)) (text_of (with_value key value entries)) 0 }
{
    archives_show_their_entries();
    refused_is_no_archive();
    one_list();
}

/// What `build-strict` and `migrate` write, `check-strict` accepts, and `migrate` writes as it is. Archives of increasing
/// keys are these.
pub fn strict_archives_stay()
    ensures checked { (archive : List ℕ) (entries : List (ℕ × ℕ)) → IsInput archive entries →
        KeysIncrease entries
        → AlwaysPrints (ChecksStrict (Some archive)) (total (length entries)) 0 }
    ensures built_checked { (heading : Heading) (text archive : List ℕ) (entries : List (ℕ × ℕ)) →
        IsBuiltStrict heading text entries archive →
        AlwaysPrints (ChecksStrict (Some archive)) (total (length entries)) 0 }
    ensures built_stays { (heading : Heading) (text archive : List ℕ) (entries : List (ℕ × ℕ)) →
        IsBuiltStrict heading text entries archive → AlwaysPrints (Migrates (Some archive)) archive 0 }
    ensures migrated_checked { (archive made : List ℕ) (entries : List (ℕ × ℕ)) →
        IsInput archive entries → IsMigratedTo archive made →
        AlwaysPrints (ChecksStrict (Some made)) (total (length (last_values entries))) 0 }
    ensures migrated_stays { (archive made : List ℕ) → IsMigratedTo archive made →
        AlwaysPrints (Migrates (Some made)) made 0 }
{
    refused_is_no_archive();
    one_list();
    last_values_count::<u32, u32, ArchivedU32, ArchivedU32>();
    neighbours_decide_order::<ArchivedU32, ArchivedU32>();
}

/// What a command of one word writes for an input.
///
/// # Errors
///
/// Those of the command, and `Memory`.
fn output_of(alloc: Global, word: &str, input: &[u8]) -> Result<Vec<u8>, ProgramFault>
    ensures build { word.now ≡ codes "build" → IfOk result (λ output.
        Builds Typed (Some input.now) (Some []) (Some output.items) (Ok 0)) }
    ensures list { word.now ≡ codes "list" → IfOk result (λ output.
        Lists (Some input.now) (Some []) (Some output.items) (Ok 0)) }
{
    let Ok(word) = format!(in alloc; "{word}") else {
        return Err(ProgramFault::Memory);
    };
    let mut args = Vec::new(alloc);
    if args.push(word).is_err() {
        return Err(ProgramFault::Memory);
    }
    let mut input = input;
    let mut output = Vec::new(alloc);
    run(alloc, &args, &mut input, &mut output)?;
    Ok(output)
}

/// Builds an archive of a text's lines and lists it: what comes out are the same lines, in the program's own spelling.
///
/// # Errors
///
/// Those of `build` and of `list`.
pub fn round_trip(alloc: Global, text: &[u8]) -> Result<Vec<u8>, ProgramFault>
    ensures { IfOk result (λ listed. (entries : List (ℕ × ℕ)) ×
        IsLines text.now entries × (listed.items ≡ text_of entries)) }
{
    lines_are_listed_again();
    let archive = output_of(alloc, "build", text)?;
    output_of(alloc, "list", &archive)
}
