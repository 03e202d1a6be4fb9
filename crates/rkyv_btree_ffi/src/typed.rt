//! Headers of typed files: they are written before an archive, and tested.
ghost use Rattle.std.specs.Prelude.{◌≡◌, ◌↔◌, ◌≤◌, ◌<◌, ◌%◌, ◌+◌, ℕ, IfErr, IfSome, IsOk, None, drop, length, min, slice_index, take};
ghost use Rattle.std.specs.Option.{option_map};
ghost use Rattle.rkyv_btree_typed.specs.TypeHeader.{HasHeader, HasOtherVersion, IsUnheaded, header};
ghost use Rattle.rkyv_btree_typed.specs.declared.header.HeaderFault.TheVariants.{NoHeader};
ghost use Rattle.rkyv_btree_ffi.specs.Headers.{HasOtherName, header_cause, IsMisheaded, PutsHeader, type_name};
ghost use Rattle.rkyv_btree_ffi.specs.MapTypes.{type_of, IfType};

use crate::codes::{BAD_TYPE, BtreeRefusal, NO_HEADER, NO_ROOM, OK, OTHER_TYPE, OTHER_VERSION};
use crate::messages::put_text;
use rkyv_btree_typed::header::{HeaderFault, type_name_of};

/// Where the name is in a header.
const NAME_AT: usize = 12;

/// Returns the name of the type with a number, or `None` if no type has it.
#[tactic(auto, using(crate::proofs::Headers::five))]
fn name_at(map_type: u32) -> Option<&'static str>
    ensures name { option_map (λ name. name.now) result ≡ option_map type_name (type_of map_type) }
    ensures len { IfSome result (λ name. (5 ≤ length name.now) × (length name.now ≤ 20)) }
{
    match map_type {
        1 => Some("[u32 -> u32 / 5]"),
        2 => Some("[u32 -> u64 / 5]"),
        3 => Some("[u32 -> text / 5]"),
        4 => Some("[u64 -> u32 / 5]"),
        5 => Some("[u64 -> u64 / 5]"),
        6 => Some("[u64 -> text / 5]"),
        7 => Some("[text -> u32 / 5]"),
        8 => Some("[text -> u64 / 5]"),
        9 => Some("[text -> text / 5]"),
        10 => Some("[u32 -> i64 / 5]"),
        11 => Some("[u64 -> i64 / 5]"),
        12 => Some("[i64 -> u32 / 5]"),
        13 => Some("[i64 -> u64 / 5]"),
        14 => Some("[i64 -> i64 / 5]"),
        15 => Some("[i64 -> text / 5]"),
        16 => Some("[text -> i64 / 5]"),
        17 => Some("[u32 -> bytes / 5]"),
        18 => Some("[u64 -> bytes / 5]"),
        19 => Some("[i64 -> bytes / 5]"),
        20 => Some("[text -> bytes / 5]"),
        21 => Some("[bytes -> u32 / 5]"),
        22 => Some("[bytes -> u64 / 5]"),
        23 => Some("[bytes -> i64 / 5]"),
        24 => Some("[bytes -> text / 5]"),
        25 => Some("[bytes -> bytes / 5]"),
        26 => Some("[u32 / 5]"),
        27 => Some("[u64 / 5]"),
        28 => Some("[i64 / 5]"),
        29 => Some("[text / 5]"),
        30 => Some("[bytes / 5]"),
        _ => None,
    }
}

/// Returns the header of a name. All names of types have headers of one length.
fn header_of(name: &str) -> [u8; 32]
    requires some { 5 ≤ length name.now }
    requires few { length name.now ≤ 20 }
    ensures header { result ≡ header name.now }
    ensures len { length result ≡ 32 }
{
    let mut header = [0; 32];
    header[..8].copy_from_slice("rkyvbt\u{1}\0".as_bytes());
    header[8..NAME_AT].copy_from_slice(&(name.len() as u32).to_le_bytes());
    header[NAME_AT..NAME_AT + name.len()].copy_from_slice(name.as_bytes());
    header
}

/// Writes the header of a typed file of a type at the start of `out`, and how many bytes it has, which are a multiple of 16. An archive of the type
/// is built after it.
#[unsafe(no_mangle)]
pub extern "C" fn rkyv_btree_write_header(
    map_type: u32,
    out: &mut [u8],
    header_len: &mut usize,
) -> u32
    ensures header { IfType map_type (λ t.
        PutsHeader (type_name t) out.old out.new header_len.new result) }
    ensures aligned { IfType map_type (λ t. header_len.new % 16 ≡ 0) }
    ensures no_type { type_of map_type ≡ None → (result ≡ 17) × (out.new ≡ out.old)
        × (header_len.new ≡ header_len.old) }
{
    let Some(name) = name_at(map_type) else {
        return BAD_TYPE;
    };
    let header = header_of(name);
    *header_len = header.len();
    if out.len() < header.len() {
        return NO_ROOM;
    }
    out[..header.len()].copy_from_slice(&header);
    OK
}

/// Returns the cause of a missing header as C has it.
fn cause_of(fault: HeaderFault) -> BtreeRefusal
    ensures { result ≡ header_cause fault }
{
    let (code, found, allowed) = match fault {
        HeaderFault::NoHeader => (NO_HEADER, 0, 0),
        HeaderFault::OtherVersion { version } => (OTHER_VERSION, u64::from(version), 1),
    };
    BtreeRefusal {
        code,
        at: 0,
        found,
        allowed,
    }
}

/// Tests that bytes begin with the header of a name.
fn tested(name: &str, buf: &[u8]) -> Result<(), BtreeRefusal>
    ensures accepts { IsOk result ↔ HasHeader name.now buf.now }
    ensures refuses { IfErr result (IsMisheaded name.now buf.now) }
{
    let found = match type_name_of(buf) {
        Ok(found) => found,
        Err(fault) => return Err(cause_of(fault)),
    };
    if found == name {
        return Ok(());
    }
    Err(BtreeRefusal {
        code: OTHER_TYPE,
        at: 12,
        found: found.len() as u64,
        allowed: 0,
    })
}

/// Tests that bytes begin with the header of a typed file of a type. Nothing after the header is looked at.
#[unsafe(no_mangle)]
pub extern "C" fn rkyv_btree_check_header(
    map_type: u32,
    buf: &[u8],
    refusal: &mut BtreeRefusal,
) -> u32
    ensures accepts { IfType map_type (λ t. (result ≡ 0) ↔ HasHeader (type_name t) buf.now) }
    ensures untyped { IfType map_type (λ t. (result ≡ 48) ↔ IsUnheaded buf.now NoHeader) }
    ensures other_version { IfType map_type (λ t.
        (result ≡ 49) ↔ ((version : ℕ) × HasOtherVersion buf.now version)) }
    ensures other_type { IfType map_type (λ t. (result ≡ 50) ↔ HasOtherName (type_name t) buf.now) }
    ensures cause { IfType map_type (λ t. 0 < result
        → (refusal.new.code ≡ result) × IsMisheaded (type_name t) buf.now refusal.new) }
    ensures kept { result ≡ 0 → refusal.new ≡ refusal.old }
    ensures no_type { type_of map_type ≡ None → (result ≡ 17) × (refusal.new ≡ refusal.old) }
{
    let Some(name) = name_at(map_type) else {
        return BAD_TYPE;
    };
    match tested(name, buf) {
        Ok(()) => OK,
        Err(why) => {
            *refusal = why;
            refusal.code
        }
    }
}

/// Writes the name of a type, as much of it as there is room for, and a 0 after it if that fits. Returns the length of the name, or 0 if
/// no type has the number.
#[unsafe(no_mangle)]
pub extern "C" fn rkyv_btree_type_name(map_type: u32, out: &mut [u8]) -> usize
    ensures len { IfType map_type (λ t. result ≡ length (type_name t)) }
    ensures name { IfType map_type (λ t. take (min result (length out.old)) out.new
        ≡ take (min result (length out.old)) (type_name t)) }
    ensures ends { IfType map_type (λ t. result < length out.old
        → slice_index out.new result ≡ 0) }
    ensures kept { IfType map_type (λ t. drop (result + 1) out.new ≡ drop (result + 1) out.old) }
    ensures no_type { type_of map_type ≡ None → (result ≡ 0) × (out.new ≡ out.old) }
{
    match name_at(map_type) {
        Some(name) => put_text(name, out),
        None => 0,
    }
}
