//! A table whose columns line up.
use crate::fault::Fault;
use crate::print::{push_name, say};
use itoa::Buffer;
use std::alloc::{AllocError, Global};
use std::io::Write;

/// How many blanks are between two columns at least.
const BETWEEN: usize = 2;

/// One row: a text for each column.
#[derive(Drop)]
pub(crate) struct Row {
    alloc: Global,
    cells: Vec<Vec<u8>>,
}

impl Row {
    /// A row without cells.
    pub(crate) fn new(alloc: Global) -> Row {
        Row {
            alloc,
            cells: Vec::new(alloc),
        }
    }

    /// Adds a cell with this text.
    pub(crate) fn push_text(&mut self, text: &[u8]) -> Result<(), AllocError> {
        self.cells.push(Vec::from_slice(self.alloc, text)?)?;
        Ok(())
    }

    /// Adds a cell with a number.
    pub(crate) fn push_number(&mut self, number: u64) -> Result<(), AllocError> {
        let mut buffer = Buffer::new();
        self.push_text(buffer.format(number).as_bytes())
    }

    /// Adds a cell with a number, or with `-` if there is none.
    pub(crate) fn push_option(&mut self, number: Option<u64>) -> Result<(), AllocError> {
        match number {
            Some(number) => self.push_number(number),
            None => self.push_text(b"-"),
        }
    }

    /// Adds a cell with a name.
    pub(crate) fn push_name(&mut self, name: &[u8]) -> Result<(), AllocError> {
        let mut text = Vec::new(self.alloc);
        push_name(&mut text, name)?;
        self.cells.push(text)?;
        Ok(())
    }
}

/// Prints the rows: the first column begins where the line does, and each of the others ends below its word.
pub(crate) fn print_table<W: Write>(out: &mut W, alloc: Global, rows: &[Row]) -> Result<(), Fault> {
    let widths = widths_of(alloc, rows)?;
    let mut text = Vec::new(alloc);
    for row in rows {
        push_row(&mut text, row, widths.as_slice())?;
    }
    say(out, text.as_slice())
}

/// How wide each column is.
fn widths_of(alloc: Global, rows: &[Row]) -> Result<Vec<usize>, AllocError> {
    let mut widths: Vec<usize> = Vec::new(alloc);
    for row in rows {
        for (column, cell) in row.cells.iter().enumerate() {
            if column < widths.len() {
                widths[column] = widths[column].max(cell.len());
            } else {
                widths.push(cell.len())?;
            }
        }
    }
    Ok(widths)
}

/// Adds the line of a row.
fn push_row(text: &mut Vec<u8>, row: &Row, widths: &[usize]) -> Result<(), AllocError> {
    for (column, cell) in row.cells.iter().enumerate() {
        let width = widths.get(column).copied().unwrap_or(0);
        let blanks = width.saturating_sub(cell.len());
        if column == 0 {
            text.extend_from_slice(cell.as_slice())?;
            push_blanks(text, blanks)?;
        } else {
            push_blanks(text, blanks.saturating_add(BETWEEN))?;
            text.extend_from_slice(cell.as_slice())?;
        }
    }
    text.push(b'\n')?;
    Ok(())
}

/// Adds this many blanks.
fn push_blanks(text: &mut Vec<u8>, count: usize) -> Result<(), AllocError> {
    for _ in 0..count {
        text.push(b' ')?;
    }
    Ok(())
}
