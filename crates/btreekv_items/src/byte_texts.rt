//! Byte strings in hexadecimal and in base64.
ghost use Rattle.base64.specs.Engines.{standard};
ghost use Rattle.base64.specs.GeneralPurpose.{encode_of};
ghost use Rattle.btreekv_items.specs.Bytes.{AreBytes, bytes_text};
ghost use Rattle.hex.specs.Hex.{encode_lower};
ghost use Rattle.std.specs.Prelude.{◌≡◌, ◌++◌, ◌↔◌, List, ℕ, IfNone, IfOk, IfSome, IsTrue, OnOk, string_bytes};

use crate::item::BytesStyle;
use base64::DecodeAllocError;
use base64::engine::general_purpose::STANDARD;
use hex::FromHexError;
use std::alloc::{AllocError, Global};

/// Appends bytes in a style.
pub(crate) fn push_bytes(
    out: &mut String,
    style: BytesStyle,
    bytes: &[u8],
) -> Result<(), AllocError>
    ensures { OnOk result
        (string_bytes out.new ≡ string_bytes out.old ++ bytes_text style bytes.now) }
{
    match style {
        BytesStyle::Hexadecimal => {
            let alloc = *out.allocator();
            let digits = hex::encode(alloc, bytes)?;
            out.push_str(digits.as_str())
        }
        BytesStyle::Base64 => STANDARD.encode_string(bytes, out),
    }
}

/// Returns whether a text is the lowercase hexadecimal digits of bytes.
fn is_hexadecimal(alloc: Global, bytes: &[u8], text: &str) -> Result<bool, AllocError>
    ensures is { IfOk result (λ is. IsTrue is ↔ (encode_lower bytes.now ≡ text.now)) }
    ensures bytes { AreBytes bytes.now }
{
    let digits = hex::encode(alloc, bytes)?;
    Ok(digits.as_str() == text)
}

/// Returns the bytes whose lowercase hexadecimal digits are a text, or `None` if it has other digits, or an odd number of them.
fn hexadecimal_of(alloc: Global, text: &str) -> Result<Option<Vec<u8>>, AllocError>
    ensures text { IfOk result (λ found. IfSome found (λ bytes.
        encode_lower bytes.items ≡ text.now)) }
    ensures value { IfOk result (λ found. IfSome found (λ bytes. AreBytes bytes.items)) }
    ensures none { IfOk result (λ found. IfNone found ((bytes : List ℕ) → AreBytes bytes
        → encode_lower bytes ≡ text.now → ⊥)) }
{
    match hex::decode(alloc, text.as_bytes()) {
        Ok(bytes) => {
            if is_hexadecimal(alloc, bytes.as_slice(), text)? {
                Ok(Some(bytes))
            } else {
                Ok(None)
            }
        }
        Err(FromHexError::OutOfMemory) => Err(AllocError),
        Err(FromHexError::InvalidHexCharacter { c: _, index: _ }) => Ok(None),
        Err(FromHexError::OddLength) => Ok(None),
        Err(FromHexError::InvalidStringLength) => Ok(None),
    }
}

/// Returns the bytes whose base64 is a text, or `None` if it is that of none.
fn base64_of(alloc: Global, text: &str) -> Result<Option<Vec<u8>>, AllocError>
    ensures text { IfOk result (λ found. IfSome found (λ bytes.
        encode_of standard bytes.items ≡ text.now)) }
    ensures value { IfOk result (λ found. IfSome found (λ bytes. AreBytes bytes.items)) }
    ensures none { IfOk result (λ found. IfNone found ((bytes : List ℕ) → AreBytes bytes
        → encode_of standard bytes ≡ text.now → ⊥)) }
{
    match STANDARD.decode(alloc, text.as_bytes()) {
        Ok(bytes) => Ok(Some(bytes)),
        Err(DecodeAllocError::OutOfMemory) => Err(AllocError),
        Err(_) => Ok(None),
    }
}

/// Returns the bytes that are written as a text, or `None` if none are.
pub(crate) fn bytes_of(
    alloc: Global,
    style: BytesStyle,
    text: &str,
) -> Result<Option<Vec<u8>>, AllocError>
    ensures text { IfOk result (λ found. IfSome found (λ bytes.
        bytes_text style bytes.items ≡ text.now)) }
    ensures value { IfOk result (λ found. IfSome found (λ bytes. AreBytes bytes.items)) }
    ensures none { IfOk result (λ found. IfNone found ((bytes : List ℕ) → AreBytes bytes
        → bytes_text style bytes ≡ text.now → ⊥)) }
{
    match style {
        BytesStyle::Hexadecimal => hexadecimal_of(alloc, text),
        BytesStyle::Base64 => base64_of(alloc, text),
    }
}
