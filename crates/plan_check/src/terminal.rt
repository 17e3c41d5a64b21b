//! A reply as redis-cli prints it on a terminal, turned into the bytes that the server sent.
use crate::fault::Fault;
use crate::words::{number_before, quoted_word};
use std::alloc::Global;

/// An array that may get more items.
#[derive(Clone, Copy)]
struct OpenArray {
    /// How many bytes come before the end of the number of each of its items, in a line.
    column: usize,
    /// The place of its header among the parts.
    place: usize,
    /// How many items it has.
    items: u64,
}

/// A reply so far.
#[derive(Drop)]
struct Outline {
    /// Its parts as they are sent: the headers of arrays, and values.
    parts: Vec<Vec<u8>>,
    /// The arrays that may get more items, each an item of the one before.
    open: Vec<OpenArray>,
}

/// The bytes that the server sent, from what redis-cli printed. Empty lines are passed over.
pub(crate) fn bytes_of(alloc: Global, printed: &[u8]) -> Result<Vec<u8>, Fault> {
    let mut outline = Outline {
        parts: Vec::new(alloc),
        open: Vec::new(alloc),
    };
    for line in printed.split(|byte| *byte == b'\n') {
        if !line.trim_ascii().is_empty() {
            outline.add_line(alloc, line)?;
        }
    }
    Ok(outline.parts.as_slice().concat(alloc)?)
}

impl Outline {
    /// Adds a line: the numbers of items that begin there, and the value of the last of them.
    fn add_line(&mut self, alloc: Global, line: &[u8]) -> Result<(), Fault> {
        let mut left = line;
        let mut may_begin = self.parts.is_empty();
        for _ in 0..line.len() {
            let Some((number, after)) = number_before(left.trim_ascii_start(), b')') else {
                break;
            };
            let column = line.len().saturating_sub(after.len());
            self.add_item(alloc, column, number, may_begin)?;
            may_begin = true;
            left = after;
        }
        if !may_begin {
            return Err(Fault::Form);
        }
        self.parts.push(value_of(alloc, left.trim_ascii())?)?;
        Ok(())
    }

    /// Adds an item whose number ends at this column: one more of an open array, or the first one of an array that
    /// begins. One may begin where no open array has this column: at the first line, and behind another number of the
    /// same line.
    fn add_item(
        &mut self,
        alloc: Global,
        column: usize,
        number: u64,
        may_begin: bool,
    ) -> Result<(), Fault> {
        self.open.retain(|array| array.column <= column);
        if may_begin {
            self.open.push(OpenArray {
                column,
                place: self.parts.len(),
                items: 0,
            })?;
            self.parts.push(Vec::new(alloc))?;
        }
        match self.open.last_mut() {
            Some(array) if array.column == column && array.items.checked_add(1) == Some(number) => {
                array.items = number;
                if let Some(header) = self.parts.get_mut(array.place) {
                    *header = array_header(alloc, number)?;
                }
                Ok(())
            }
            _ => Err(Fault::Form),
        }
    }
}

/// The header of an array with this many items.
fn array_header(alloc: Global, items: u64) -> Result<Vec<u8>, Fault> {
    Ok(format!(in alloc; "*{items}\r\n")?.into_bytes())
}

/// A value as it is sent, from its printed text, which has no blanks at its ends.
fn value_of(alloc: Global, text: &[u8]) -> Result<Vec<u8>, Fault> {
    if text == b"(empty array)".as_slice() || text == b"(empty list or set)".as_slice() {
        return array_header(alloc, 0);
    }
    match text.strip_prefix(b"(integer) ") {
        Some(digits) => ended(alloc, b":", digits),
        None => string_of(alloc, text),
    }
}

/// A string as it is sent, from its printed text, which is in quotes.
fn string_of(alloc: Global, text: &[u8]) -> Result<Vec<u8>, Fault> {
    let quoted = text.strip_prefix(b"\"").ok_or(Fault::Form)?;
    let (word, after) = quoted_word(alloc, quoted)?;
    if !after.is_empty() {
        return Err(Fault::Form);
    }
    let header = format!(in alloc; "${}\r\n", word.len())?;
    ended(alloc, header.as_bytes(), word.as_slice())
}

/// These bytes, one after the other, and a line end.
fn ended(alloc: Global, header: &[u8], value: &[u8]) -> Result<Vec<u8>, Fault> {
    Ok([header, value, b"\r\n"].concat(alloc)?)
}
