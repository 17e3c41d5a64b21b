//! Drives a hub by lines on standard input, and answers each by a line on standard output.
//!
//! It ends with status 0 at the end of the input, and with 1 if reading, writing or an allocation of its own fails.
#![tactic(auto)]

mod drive;
mod line;
mod print;

use crate::drive::Driver;
use crate::line::{LineFault, read_line};
use crate::print::line_of;
use sr_policy::Policy;
use std::alloc::{AllocError, Global};
use std::hash::RandomState;
use std::io::{self, BufRead, BufReader, Write};

fn main(rt: HostRuntime) -> io::Result<()> {
    let alloc = rt.alloc();
    let hasher = RandomState::new(&rt)?;
    let input = BufReader::new(alloc, rt.reader())?;
    let mut driver = Driver::new(alloc, Policy::empty(alloc), hasher);
    answer_lines(alloc, &mut driver, input, &mut io::writer(&rt))
}

/// Answers the lines of the input, each before the next one is read.
fn answer_lines<R: BufRead + Drop, W: Write>(
    alloc: Global,
    driver: &mut Driver,
    input: R,
    out: &mut W,
) -> io::Result<()> {
    for line in input.split(alloc, b'\n') {
        let answer = answer_to(alloc, driver, line?.as_slice())?;
        out.write_all(answer.as_bytes())?;
    }
    Ok(())
}

/// The answer to a line, which is none to an empty one.
fn answer_to(alloc: Global, driver: &mut Driver, line: &[u8]) -> Result<String, AllocError> {
    if line.is_empty() {
        return Ok(String::new(alloc));
    }
    match read_line(alloc, line) {
        Ok(ask) => driver.answer(alloc, ask),
        Err(LineFault::Form) => line_of(alloc, "bad"),
        Err(LineFault::Memory) => Err(AllocError),
    }
}
