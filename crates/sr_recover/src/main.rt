//! Plans for the groups of a Redis that already runs: `sr_recover plan` makes a cheapest plan for what dead consumers
//! of a group have left, and prints it with the prices that show it; `sr_recover run` also has Redis carry it out, at
//! one moment, if the group is still as the plan saw it; `sr_recover board` shows what each consumer has; `sr_recover
//! watch` finds the dead of groups by a rule, and does the same for them, turn by turn; `sr_recover policy` judges a
//! policy file.
//!
//! It ends with status 0 if there is a plan, or it was carried out; 1 after a fault, which is one line on standard
//! error; 2 if the command line is refused; 3 if no plan exists; 4 if the group changed at each try; and 5 if the plan
//! was sent, and what came of it is not known.
#![tactic(auto)]

mod action;
mod advice;
mod blame;
mod board;
mod check;
mod clock;
mod deliveries;
mod errors;
mod fault;
mod json_lines;
mod metrics;
mod names;
mod notes;
mod options;
mod place;
mod print;
mod reach;
mod sentinel;
mod standard;
mod table;
mod target;
mod watch;
mod watch_options;
mod watch_print;
mod wire;

use crate::action::{Status, act};
use crate::fault::{Fault, standard_fault};
use crate::options::read_options;
use crate::standard::take_standard;
use std::env;
use std::io::Write;
use std::net::Net;
use std::process::ExitCode;
use std::rt::{Env, Files};

fn main(rt: HostRuntime) -> ExitCode {
    match start(&rt) {
        Ok(status) => ExitCode::from(status.code()),
        Err(Fault::Help(text)) => match print!(rt; "{text}") {
            Ok(()) => ExitCode::SUCCESS,
            Err(_) => end(&rt, &Fault::Output),
        },
        Err(fault) => end(&rt, &fault),
    }
}

/// Says what went wrong, as far as that can be said, and the status for it.
fn end(rt: &HostRuntime, fault: &Fault) -> ExitCode {
    let _ = eprintln!(rt; "{fault}");
    ExitCode::from(fault.code())
}

/// Reads the command line, and does what it asks for.
fn start(rt: &HostRuntime) -> Result<Status, Fault> {
    let words: Vec<String> = match env::args(rt) {
        Ok(words) => words.collect(rt.alloc())?,
        Err(_) => return Err(Fault::Words),
    };
    let options = read_options(rt.alloc(), words.as_slice())?;
    match take_standard(rt) {
        Ok(()) => act(rt, &options),
        Err(error) => Err(standard_fault(rt.alloc(), error)),
    }
}
