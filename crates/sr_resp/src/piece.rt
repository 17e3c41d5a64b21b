use crate::{ErrCode, Word};

/// One part of a reply, as it is sent. An array is a header followed by its items.
///
/// Source: RESP2 protocol specification, "RESP protocol description".
#[derive(Clone, Copy, PartialEq, Eq)]
pub(crate) enum Piece<'a> {
    /// A simple string.
    Simple(Word),
    /// An error.
    Error(ErrCode),
    /// An integer.
    Int(i64),
    /// A bulk string.
    Bulk(&'a [u8]),
    /// The null bulk string.
    NullBulk,
    /// The null array.
    NullArray,
    /// The header of an array with this many items.
    Array(usize),
}
