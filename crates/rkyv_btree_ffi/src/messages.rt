//! Texts of codes.
ghost use Rattle.std.specs.Prelude.{◌≡◌, ◌+◌, ◌<◌, ◌≤◌, drop, length, slice_index, take, min};
ghost use Rattle.rkyv_btree_ffi.specs.Messages.{message_of};

/// Returns the text of a code.
fn message(code: u32) -> &'static str
    ensures { result.now ≡ message_of code }
{
    match code {
        0 => "no error",
        1 => "what should be stored lies outside of the buffer",
        2 => "what should be stored isn't aligned",
        3 => "the byte is the kind of no node",
        4 => "a leaf has more entries than a node",
        5 => "a key or a value is bad",
        6 => "a node is deeper than 32 levels",
        7 => "the map has another number of entries than it says",
        8 => "the buffer is longer than 4294967295 bytes",
        9 => "a key isn't greater than the key before it",
        16 => "the map isn't open",
        17 => "no type of maps has this number",
        18 => "no such key",
        19 => "the cursor is no place in the map",
        20 => "the values of the map aren't such numbers",
        21 => "the lookup needs bytes that no piece has",
        32 => "more than 4294967295 entries",
        33 => "the archive would be longer than 4294967295 bytes",
        34 => "a pointer would reach over more than 2 GiB",
        35 => "out of memory",
        36 => "an item is no key or value of the type",
        37 => "the keys don't increase",
        38 => "the archive is longer than the room for it",
        48 => "there is no type header",
        49 => "the type header has another version",
        50 => "the bytes are of another type",
        _ => "no such code",
    }
}

/// Writes a text, as much of it as there is room for, and a 0 after it if that fits. Returns the length of the text.
pub(crate) fn put_text(text: &str, out: &mut [u8]) -> usize
    ensures len { result ≡ length text.now }
    ensures text { take (min result (length out.old)) out.new
        ≡ take (min result (length out.old)) text.now }
    ensures ends { result < length out.old → slice_index out.new result ≡ 0 }
    ensures kept { drop (result + 1) out.new ≡ drop (result + 1) out.old }
{
    let text = text.as_bytes();
    let room = text.len().min(out.len());
    out[..room].copy_from_slice(&text[..room]);
    if room < out.len() {
        out[room] = 0;
    }
    text.len()
}

/// Writes the text of a code, as much of it as there is room for, and a 0 after it if that fits. Returns the length of the text.
#[unsafe(no_mangle)]
pub extern "C" fn rkyv_btree_strerror(code: u32, out: &mut [u8]) -> usize
    ensures len { result ≡ length (message_of code) }
    ensures text { take (min result (length out.old)) out.new
        ≡ take (min result (length out.old)) (message_of code) }
    ensures ends { result < length out.old → slice_index out.new result ≡ 0 }
    ensures kept { drop (result + 1) out.new ≡ drop (result + 1) out.old }
{
    put_text(message(code), out)
}
