//! The name of a type that bytes state, for messages.
ghost use Rattle.std.specs.Prelude.{◌≡◌, ◌≤◌, ℕ, List, take};

use std::fmt;
use std::marker::Model;
use std::str::from_utf8;

/// The number of bytes of a name that a message can show.
const MOST_SHOWN: usize = 128;

/// The name that bytes state, or its first 128 bytes if it is longer.
#[derive(Drop)]
pub struct FoundName {
    bytes: [u8; 128],
    len: usize,
}

impl Model for FoundName {
    ghost Value = { List ℕ };

    ghost view = { λ found. take found.len found.bytes };

    ghost invariant = { λ found. found.len ≤ 128 };
}

impl FoundName {
    /// Returns a name, or its first 128 bytes if it is longer.
    pub fn new(name: &str) -> FoundName
        ensures { result ≡ take 128 name.now }
    {
        let len = name.len().min(MOST_SHOWN);
        let mut bytes = [0; 128];
        bytes[..len].copy_from_slice(&name.as_bytes()[..len]);
        FoundName { bytes, len }
    }

    /// Returns the bytes of the name.
    pub fn as_bytes(&self) -> &[u8]
        ensures { result.now ≡ self.now }
    {
        &self.bytes[..self.len]
    }
}

/// Shows the name, up to the last character that is whole.
impl fmt::Display for FoundName {
    fn fmt<W: fmt::Write>(&self, f: &mut fmt::Formatter<W>) -> fmt::Result {
        let bytes = self.as_bytes();
        let whole = match from_utf8(bytes) {
            Ok(_) => bytes.len(),
            Err(cut) => cut.valid_up_to(),
        };
        match from_utf8(&bytes[..whole]) {
            Ok(text) => write!(f, "{text}"),
            Err(_) => Ok(()),
        }
    }
}
