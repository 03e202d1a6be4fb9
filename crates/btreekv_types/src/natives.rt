//! Entries of texts as native keys and values.
ghost use Rattle.std.specs.Prelude.{◌≡◌, IfErr, IfNone, IfOk, IfSome, map};
ghost use Rattle.btreekv_commands.specs.Texts.{texts_of};
ghost use Rattle.btreekv_types.specs.Natives.{IsUnread};
ghost use Rattle.btreekv_types.specs.Typed.{AreTyped, items, items_by};

use crate::fault::TypedFault;
use btreearc_lines::fault::ProgramFault;
use btreekv_items::item::{BytesStyle, Item};
use std::alloc::Global;

/// Returns the native value of a text, or `None` if no value of the type has this text.
///
/// # Errors
///
/// `Memory` if an allocation fails.
pub(crate) fn native_of<T: Item>(
    alloc: Global,
    style: BytesStyle,
    text: &str,
) -> Result<Option<T::Native>, TypedFault>
    ensures text { IfOk result (λ found. IfSome found (λ native.
        T.spelling style (T.native_value native) ≡ text.now)) }
    ensures value { IfOk result (λ found. IfSome found (λ native.
        T.IsValue (T.native_value native))) }
    ensures none { IfOk result (λ found. IfNone found
        ((value : T.Value) → T.IsValue value → T.spelling style value ≡ text.now → ⊥)) }
    ensures err { IfErr result (λ fault. fault ≡ TypedFault.Program ProgramFault.Memory) }
{
    match T::parse(alloc, style, text) {
        Ok(found) => Ok(found),
        Err(_) => Err(TypedFault::Program(ProgramFault::Memory)),
    }
}

/// Returns the native entries of entries of texts.
///
/// # Errors
///
/// `BadKey` or `BadValue` with the number of the first entry whose key or value is no text of its type, and `Memory` if an allocation
/// fails.
pub(crate) fn natives<K: Item, V: Item>(
    alloc: Global,
    style: BytesStyle,
    entries: &[(String, String)],
) -> Result<Vec<(K::Native, V::Native)>, TypedFault>
    ensures ok { IfOk result (λ natives.
        AreTyped (items_by K.IsValue (K.spelling style) K.native_value)
        (items_by V.IsValue (V.spelling style) V.native_value)
        (map texts_of entries.now) natives.items) }
    ensures err { IfErr result
        (IsUnread (items_by K.IsValue (K.spelling style) K.native_value)
        (items_by V.IsValue (V.spelling style) V.native_value)
        (items K.IsValue (K.spelling style)) (items V.IsValue (V.spelling style))
        (map texts_of entries.now)) }
{
    let mut natives = Vec::new(alloc);
    'entries: for index in 0..entries.len() {
        let entry = &entries[index];
        let key = match native_of::<K>(alloc, style, entry.0.as_str()) {
            Ok(Some(key)) => key,
            Ok(None) => return Err(TypedFault::BadKey(index as u64 + 1)),
            Err(fault) => return Err(fault),
        };
        let value = match native_of::<V>(alloc, style, entry.1.as_str()) {
            Ok(Some(value)) => value,
            Ok(None) => return Err(TypedFault::BadValue(index as u64 + 1)),
            Err(fault) => return Err(fault),
        };
        if natives.push((key, value)).is_err() {
            return Err(TypedFault::Program(ProgramFault::Memory));
        }
    }
    Ok(natives)
}
