//! Texts and entries as JSON.
ghost use Rattle.std.specs.Prelude.{◌≡◌, ◌++◌, ◌<◌, OnOk};
ghost use Rattle.btreekv_commands.specs.Json.{escaped, hex_digit, json_string, member, short_escape};

use std::alloc::AllocError;

/// Returns the hexadecimal digit of a number below 16.
fn hex_digit(number: u8) -> u8
    requires { number < 16 }
    ensures { result ≡ hex_digit number }
{
    if number < 10 {
        b'0' + number
    } else {
        b'a' + (number - 10)
    }
}

/// Returns the letter of the short escape of a byte, if it has one.
fn short_escape(byte: u8) -> Option<u8>
    ensures { result ≡ short_escape byte }
{
    match byte {
        b'"' => Some(b'"'),
        b'\\' => Some(b'\\'),
        8 => Some(b'b'),
        b'\t' => Some(b't'),
        b'\n' => Some(b'n'),
        12 => Some(b'f'),
        b'\r' => Some(b'r'),
        _ => None,
    }
}

/// Writes a byte of a JSON string at the end, escaped if it must be.
///
/// # Errors
///
/// `AllocError` if an allocation fails.
fn push_escaped(out: &mut Vec<u8>, byte: u8) -> Result<(), AllocError>
    ensures { OnOk result (out.new.items ≡ out.old.items ++ escaped byte) }
{
    if let Some(letter) = short_escape(byte) {
        return out.extend_from_slice(&[b'\\', letter]);
    }
    if byte < 32 {
        let (high, low) = (hex_digit(byte / 16), hex_digit(byte % 16));
        return out.extend_from_slice(&[b'\\', b'u', b'0', b'0', high, low]);
    }
    out.extend_from_slice(&[byte])
}

/// Writes a text as a JSON string at the end.
///
/// # Errors
///
/// `AllocError` if an allocation fails. A beginning of the string may be written then.
pub fn push_string(out: &mut Vec<u8>, text: &str) -> Result<(), AllocError>
    ensures { OnOk result (out.new.items ≡ out.old.items ++ json_string text.now) }
{
    out.extend_from_slice(b"\"")?;
    for byte in text.as_bytes() {
        push_escaped(out, *byte)?;
    }
    out.extend_from_slice(b"\"")
}

/// Writes an entry as a member of a JSON object at the end.
///
/// # Errors
///
/// As of `push_string`.
pub fn push_member(out: &mut Vec<u8>, key: &str, value: &str) -> Result<(), AllocError>
    ensures { OnOk result (out.new.items ≡ out.old.items ++ member (key.now, value.now)) }
{
    push_string(out, key)?;
    out.extend_from_slice(b":")?;
    push_string(out, value)
}
