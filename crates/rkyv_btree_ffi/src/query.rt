//! Keys that C looks for.

/// A key to look for. It is before every key of another type. Bytes are looked for as a text is.
#[derive(Clone, Copy, Drop)]
pub enum Query<'q> {
    Number(u64),
    Text(&'q [u8]),
}
