//! Solves the transportation problems that it reads from standard input, one a line, and prints a line for each: its
//! name and the answer, and before that the least of the times that it took, if the problem says how often it is to be
//! timed.
//!
//! It ends with status 0 at the end of the input, and with 1 if a problem cannot be read or anything else fails.
#![tactic(auto)]

mod problem;

use crate::problem::{next_number, read_problem};
use sr_solver::solve;
use sr_transport::{Problem, Solved};
use std::io;
use std::rt::Clock;
use std::time::Instant;

fn main(rt: HostRuntime) -> io::Result<()> {
    for line in rt.lines(rt.alloc()) {
        print_answer(&rt, line?.as_str())?;
    }
    Ok(())
}

/// Prints the name of the problem on a line, the time that it takes if this is asked for, and the answer: the least
/// total, or that there are too few places.
fn print_answer<R: AllocGlobal + Clock + Print>(rt: &R, line: &str) -> io::Result<()> {
    let Some((name, numbers)) = line.split_once(": ") else {
        return Err(io::Error::other("a name, a colon and numbers are expected"));
    };
    let mut words = numbers.split_whitespace();
    let times = next_number(&mut words)?;
    let problem = read_problem(rt.alloc(), words)?;
    print!(rt; "{name}: ")?;
    if times > 0 {
        let micros = least_micros(rt, times, &problem)?;
        print!(rt; "{}.{:02} ms, ", micros / 1000, micros % 1000 / 10)?;
    }
    match solve(rt.alloc(), &problem)? {
        Solved::Best { total, .. } => println!(rt; "best, total {total}"),
        Solved::Short { set } => println!(rt; "short, {} entries", set.len()),
    }
}

/// How many microseconds it takes to solve a problem: the least of so many times.
fn least_micros<R: AllocGlobal + Clock>(rt: &R, times: u64, problem: &Problem) -> io::Result<u128> {
    let mut least = u128::MAX;
    for _ in 0..times {
        let start = Instant::now(rt)?;
        let _solved = solve(rt.alloc(), problem)?;
        least = least.min(start.elapsed(rt)?.as_micros());
    }
    Ok(least)
}
