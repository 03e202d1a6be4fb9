//! The lines of the changes that lead from one archive to another. Native keys are compared, and values as texts.
ghost use Rattle.std.specs.Prelude.{◌≡◌, ◌+◌, ◌<◌, ◌≤◌, ◌++◌, IfErr, IfOk, IsTrue, List, ℕ, OnOk, drop, length, map, string_bytes};
ghost use Rattle.rkyv_btree_format.specs.Layout.{are_fitting};
ghost use Rattle.rkyv_btree_typed.specs.TypeNames.{name_of};
ghost use Rattle.rkyv_btree_typed.specs.TypeNames as term;
ghost use Rattle.rkyv_btree_update.specs.Updated.{change_meant};
ghost use Rattle.btreekv_commands.specs.Changing.{change_line};
ghost use Rattle.btreekv_commands.specs.Texts.{texts_of};
ghost use Rattle.btreekv_types.specs.Changes.{IsMemoryIf};
ghost use Rattle.btreekv_types.specs.Commands.{FailsToDiff};
ghost use Rattle.btreekv_types.specs.Differing.{AreKeyTexts, IsDiffOf};
ghost use Rattle.btreekv_types.specs.Typed.{AreTyped, ByValues, items, items_by};
ghost use Rattle.btreekv_types.specs.mirror.Differing.{keyed, lines_between, lines_of_texts, other_line, put_lines};

use crate::changing::push_entries;
use crate::fault::TypedFault;
use crate::natives::native_of;
use crate::updating::are_bytes;
use btreearc_lines::fault::ProgramFault;
use btreekv_commands::differences::write_change;
use btreekv_items::item::{BytesStyle, Item};
use rkyv_btree_update::change::Change;
use std::alloc::Global;
use std::cmp::Ordering;

/// Returns entries of texts, with native keys beside the texts of keys.
///
/// # Errors
///
/// `NoKey` if the key of an entry is no text of the type, and `Memory` if an allocation fails.
fn with_natives<K: Item>(
    alloc: Global,
    style: BytesStyle,
    entries: Vec<(String, String)>,
) -> Result<Vec<((K::Native, String), String)>, TypedFault>
    ensures ok { IfOk result (λ found.
        AreTyped (keyed K.IsValue (K.spelling style) K.native_value)
        (items (λ text. Unit {0}) string_bytes) (map texts_of entries.items) found.items) }
    ensures err { IfErr result (IsMemoryIf
        (AreKeyTexts (items K.IsValue (K.spelling style)) (map texts_of entries.items))) }
{
    let mut found = Vec::new(alloc);
    for (key, text) in entries {
        let native = match native_of::<K>(alloc, style, key.as_str()) {
            Ok(Some(native)) => native,
            Ok(None) => return Err(TypedFault::NoKey),
            Err(fault) => return Err(fault),
        };
        if found.push(((native, key), text)).is_err() {
            return Err(TypedFault::Program(ProgramFault::Memory));
        }
    }
    Ok(found)
}

/// Appends the line of a change.
///
/// # Errors
///
/// `Memory` if an allocation fails.
fn push_line(out: &mut String, key: &str, change: Change<&str>) -> Result<(), TypedFault>
    ensures ok { OnOk result (string_bytes out.new ≡ string_bytes out.old
        ++ change_line (key.now, change_meant (λ v. v.now) change.entry)) }
    ensures err { IfErr result (λ fault. fault ≡ TypedFault.Program ProgramFault.Memory) }
{
    match write_change(out, key, change) {
        Ok(()) => Ok(()),
        Err(_) => Err(TypedFault::Program(ProgramFault::Memory)),
    }
}

/// Appends the line by which a key has a new text, if that isn't the old one.
///
/// # Errors
///
/// `Memory` if an allocation fails.
fn push_other(out: &mut String, key: &str, old: &str, new: &str) -> Result<(), TypedFault>
    ensures ok { OnOk result (string_bytes out.new ≡ string_bytes out.old
        ++ other_line key.now old.now new.now) }
    ensures err { IfErr result (λ fault. fault ≡ TypedFault.Program ProgramFault.Memory) }
{
    if old == new {
        return Ok(());
    }
    push_line(out, key, Change::Put(new))
}

/// Appends the line of the next change between what two lists have from these places on, and returns the places after it. Entries with equal
/// keys and the same text have no line.
///
/// # Errors
///
/// `Memory` if an allocation fails.
fn push_next<T: Ord>(
    out: &mut String,
    old: &[((T, String), String)],
    new: &[((T, String), String)],
    from: usize,
    to: usize,
) -> Result<(usize, usize), TypedFault>
    requires inside { from < length old.now }
    requires within { to ≤ length new.now }
    ensures left { IfOk result (λ next.
        string_bytes out.new ++ lines_between T.cmp (drop next.0 old.now) (drop next.1 new.now)
        ≡ string_bytes out.old ++ lines_between T.cmp (drop from old.now) (drop to new.now)) }
    ensures goes { IfOk result (λ next.
        (from + to < next.0 + next.1) × (next.0 ≤ length old.now) × (next.1 ≤ length new.now)) }
    ensures err { IfErr result (λ fault. fault ≡ TypedFault.Program ProgramFault.Memory) }
{
    let entry = &old[from];
    if to == new.len() {
        push_line(out, entry.0.1.as_str(), Change::Delete)?;
        return Ok((from + 1, to));
    }
    let other = &new[to];
    match entry.0.0.cmp(&other.0.0) {
        Ordering::Less => {
            push_line(out, entry.0.1.as_str(), Change::Delete)?;
            Ok((from + 1, to))
        }
        Ordering::Equal => {
            push_other(out, other.0.1.as_str(), entry.1.as_str(), other.1.as_str())?;
            Ok((from + 1, to + 1))
        }
        Ordering::Greater => {
            push_line(out, other.0.1.as_str(), Change::Put(other.1.as_str()))?;
            Ok((from, to + 1))
        }
    }
}

/// Appends the lines that put the entries of a list from this place on.
///
/// # Errors
///
/// `Memory` if an allocation fails.
fn push_puts<T>(
    out: &mut String,
    new: &[((T, String), String)],
    to: usize,
) -> Result<(), TypedFault>
    requires within { to ≤ length new.now }
    ensures ok { OnOk result (string_bytes out.new ≡ string_bytes out.old
        ++ put_lines (drop to new.now)) }
    ensures err { IfErr result (λ fault. fault ≡ TypedFault.Program ProgramFault.Memory) }
{
    'entries: for index in to..new.len() {
        let other = &new[index];
        match push_line(out, other.0.1.as_str(), Change::Put(other.1.as_str())) {
            Ok(()) => {}
            Err(fault) => return Err(fault),
        }
    }
    Ok(())
}

/// Returns the lines of the changes that lead from one list to another. The keys of both increase.
///
/// # Errors
///
/// `Memory` if an allocation fails.
fn changed_lines<T: Ord>(
    alloc: Global,
    old: &[((T, String), String)],
    new: &[((T, String), String)],
) -> Result<String, TypedFault>
    ensures ok { IfOk result (λ text. string_bytes text ≡ lines_between T.cmp old.now new.now) }
    ensures err { IfErr result (λ fault. fault ≡ TypedFault.Program ProgramFault.Memory) }
{
    let mut out = String::new(alloc);
    let mut from = 0;
    let mut to = 0;
    'entries: while from < old.len() {
        match push_next(&mut out, old, new, from, to) {
            Ok(next) => {
                from = next.0;
                to = next.1;
            }
            Err(fault) => return Err(fault),
        }
    }
    match push_puts(&mut out, new, to) {
        Ok(()) => Ok(out),
        Err(fault) => Err(fault),
    }
}

/// Returns the lines of the changes that lead from entries of texts to others. Their keys are compared as values of the type, and increase.
///
/// # Errors
///
/// `NoKey` if the key of an entry is no text of the type, and `Memory` if an allocation fails.
fn lines_of<K: Item>(
    alloc: Global,
    style: BytesStyle,
    old: Vec<(String, String)>,
    new: Vec<(String, String)>,
) -> Result<String, TypedFault>
    ensures ok { IfOk result (λ text. (m n : List (K.Value × List ℕ)) →
        AreTyped (items K.IsValue (K.spelling style)) (items (λ t. Unit {0}) (λ t. t)) (map texts_of old.items) m →
        AreTyped (items K.IsValue (K.spelling style)) (items (λ t. Unit {0}) (λ t. t)) (map texts_of new.items) n →
        string_bytes text ≡ lines_of_texts K.order (K.spelling style) m n) }
    ensures err { IfErr result (IsMemoryIf
        (AreKeyTexts (items K.IsValue (K.spelling style)) (map texts_of old.items)
        × AreKeyTexts (items K.IsValue (K.spelling style)) (map texts_of new.items))) }
{
    let old = match with_natives::<K>(alloc, style, old) {
        Ok(old) => old,
        Err(fault) => return Err(fault),
    };
    let new = match with_natives::<K>(alloc, style, new) {
        Ok(new) => new,
        Err(fault) => return Err(fault),
    };
    changed_lines(alloc, old.as_slice(), new.as_slice())
}

/// Returns the lines of the changes that lead from an archive's entries to those of another archive.
///
/// # Errors
///
/// `Archive` with the number, 0 or 1, of the first archive that isn't read, and why. `Memory` if an allocation fails.
pub(crate) fn diff<K: Item, V: Item>(
    alloc: Global,
    style: BytesStyle,
    other: &[u8],
    bytes: &[u8],
) -> Result<Vec<u8>, TypedFault>
    requires { IsTrue (are_fitting K.kind V.kind 5) }
    ensures ok { IfOk result (λ text.
        ByValues K.Native.archival K.kind K.order K.value_at K.native_value
        V.Native.archival V.kind V.order V.value_at V.native_value (λ key_to value_to.
        IsDiffOf K.kind V.kind (name_of (term.map K.term V.term 5))
        (items_by K.IsValue (K.spelling style) key_to) (items_by V.IsValue (V.spelling style) value_to)
        bytes.now other.now text.items)) }
    ensures err { IfErr result (λ fault.
        ByValues K.Native.archival K.kind K.order K.value_at K.native_value
        V.Native.archival V.kind V.order V.value_at V.native_value (λ key_to value_to.
        FailsToDiff K.kind V.kind (name_of (term.map K.term V.term 5))
        (items_by K.IsValue (K.spelling style) key_to) (items_by V.IsValue (V.spelling style) value_to)
        bytes.now other.now fault)) }
{
    are_bytes(bytes);
    are_bytes(other);
    let mut old = Vec::new(alloc);
    match push_entries::<K, V>(alloc, style, bytes, &mut old) {
        Ok(_) => {}
        Err(fault) => return Err(TypedFault::Archive(0, fault)),
    }
    let mut new = Vec::new(alloc);
    match push_entries::<K, V>(alloc, style, other, &mut new) {
        Ok(_) => {}
        Err(fault) => return Err(TypedFault::Archive(1, fault)),
    }
    match lines_of::<K>(alloc, style, old, new) {
        Ok(text) => Ok(text.into_bytes()),
        Err(fault) => Err(fault),
    }
}
