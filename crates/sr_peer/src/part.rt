/// One part of a reply, as it is sent. An array is a header followed by its items.
///
/// Source: RESP2 protocol specification, "RESP protocol description".
#[derive(Clone, Copy, Debug, PartialEq, Eq)]
pub enum Part<'a> {
    /// A simple string: a text of one line, of at most 65,536 bytes.
    Simple(&'a [u8]),
    /// An error: such a text, which begins with the error's kind.
    Error(&'a [u8]),
    /// An integer.
    Int(i64),
    /// A bulk string.
    Bulk(&'a [u8]),
    /// The null bulk string.
    NullBulk,
    /// The null array.
    NullArray,
    /// The header of an array with this many items.
    Array(usize),
}
