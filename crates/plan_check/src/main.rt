//! Checks a reply of RECOVER.PLAN or RECOVER.RUN against a snapshot that is written line by line, both on standard
//! input.
//!
//! It prints one line, and ends with status 0 if the reply is right, with 1 if it is not or nothing could be judged,
//! and with 2 if it is given arguments.
#![tactic(auto)]

mod fault;
mod finding;
mod input;
mod problem;
mod terminal;
mod words;

use crate::finding::status_of;
use crate::input::judge;
use std::env;
use std::io::{self, Read};
use std::process::ExitCode;
use std::rt::Env;

/// The status if there are arguments.
const REFUSED: u8 = 2;

fn main(rt: HostRuntime) -> io::Result<ExitCode> {
    if has_arguments(&rt) {
        eprintln!(rt;
            "usage: plan_check < INPUT, which is a problem, a line `reply`, and the reply"
        )?;
        return Ok(ExitCode::from(REFUSED));
    }
    let mut input = Vec::new(rt.alloc());
    rt.reader().read_to_end(&mut input)?;
    let finding = judge(rt.alloc(), input.as_slice())?;
    println!(rt; "{finding}")?;
    Ok(ExitCode::from(status_of(&finding)))
}

/// Whether the command line has more than the program's name.
fn has_arguments(rt: &(impl Env + AllocGlobal)) -> bool {
    match env::args(rt) {
        Ok(words) => words.count() > 1,
        Err(_) => true,
    }
}
