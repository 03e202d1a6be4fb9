//! How entries and values are written.
ghost use Rattle.std.specs.Prelude.{◌≡◌, ◌++◌, ◌∷◌, [], OnOk};
ghost use Rattle.btreekv_commands.specs.Escapes.{escape};
ghost use Rattle.btreekv_commands.specs.Forms.{entry_line, value_line};
ghost use Rattle.btreekv_commands.specs.Lines.{line_of};

use crate::escapes::push_escape;
use crate::json_text::push_string;
use std::alloc::AllocError;

/// How entries and values are written.
#[derive(Clone, Copy, Debug, PartialEq, Eq)]
pub enum Form {
    /// A key, a tab and a value, each as it is. A line feed ends an entry.
    Plain,
    /// The same with `\t`, `\n` and `\\` for tabs, line feeds and backslashes of a key or a value.
    Escaped,
    /// A key, a tab and a value, each as it is. A zero byte ends an entry.
    Null,
    /// An entry is a line with a JSON object, and a value is one with a JSON string.
    Json,
}

/// Writes a value at the end, with what ends it.
///
/// # Errors
///
/// `AllocError` if an allocation fails. A beginning may be written then.
pub fn push_value(out: &mut Vec<u8>, form: Form, value: &str) -> Result<(), AllocError>
    ensures { OnOk result (out.new.items ≡ out.old.items ++ value_line form value.now) }
{
    match form {
        Form::Plain => {
            out.extend_from_slice(value.as_bytes())?;
            out.extend_from_slice(b"\n")
        }
        Form::Escaped => {
            push_escape(out, value)?;
            out.extend_from_slice(b"\n")
        }
        Form::Null => {
            out.extend_from_slice(value.as_bytes())?;
            out.extend_from_slice(b"\0")
        }
        Form::Json => {
            push_string(out, value)?;
            out.extend_from_slice(b"\n")
        }
    }
}

/// Writes a key, a tab, a value and a last byte at the end.
fn push_pair(out: &mut Vec<u8>, key: &str, value: &str, last: u8) -> Result<(), AllocError>
    ensures { OnOk result
        (out.new.items ≡ out.old.items ++ (key.now ++ (9 ∷ value.now ++ last ∷ []))) }
{
    out.extend_from_slice(key.as_bytes())?;
    out.extend_from_slice(b"\t")?;
    out.extend_from_slice(value.as_bytes())?;
    out.extend_from_slice(&[last])
}

/// Writes the escapes of a key and a value with a tab between as a line at the end.
fn push_escapes(out: &mut Vec<u8>, key: &str, value: &str) -> Result<(), AllocError>
    ensures { OnOk result
        (out.new.items ≡ out.old.items ++ line_of (escape key.now, escape value.now)) }
{
    push_escape(out, key)?;
    out.extend_from_slice(b"\t")?;
    push_escape(out, value)?;
    out.extend_from_slice(b"\n")
}

/// Writes an entry as a JSON object of a line at the end.
fn push_json(out: &mut Vec<u8>, key: &str, value: &str) -> Result<(), AllocError>
    ensures { OnOk result
        (out.new.items ≡ out.old.items ++ entry_line Form.Json (key.now, value.now)) }
{
    out.extend_from_slice(b"{\"key\":")?;
    push_string(out, key)?;
    out.extend_from_slice(b",\"value\":")?;
    push_string(out, value)?;
    out.extend_from_slice(b"}\n")
}

/// Writes an entry at the end, with what ends it.
///
/// # Errors
///
/// `AllocError` if an allocation fails. A beginning may be written then.
pub fn push_entry(out: &mut Vec<u8>, form: Form, key: &str, value: &str) -> Result<(), AllocError>
    ensures { OnOk result
        (out.new.items ≡ out.old.items ++ entry_line form (key.now, value.now)) }
{
    match form {
        Form::Plain => push_pair(out, key, value, b'\n'),
        Form::Escaped => push_escapes(out, key, value),
        Form::Null => push_pair(out, key, value, 0),
        Form::Json => push_json(out, key, value),
    }
}
