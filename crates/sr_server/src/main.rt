//! The server as a program: `sr_server --stdio` serves one connection, over standard input and output, and `sr_server
//! --listen` serves those that come to an address.
//!
//! - `--stdio` or `--listen ADDR`, an IP address and a port: exactly one of them is given;
//! - `--policy FILE` names who may take which entries, and without it nobody may take any;
//! - `--keep N`, with `--listen` alone, is how many records are kept, from 1 to 1,000,000,000, and without it all of
//! them are;
//! - `--workers N` is how many threads serve connections, each one at a time, from 1 to 64, and 64 without it;
//! - `--connections N`, with `--listen` alone and without `--workers`, is up to how many connections one loop serves,
//! from 1 to 10,000, and without it workers do;
//! - `--idle SECONDS`, with `--connections` alone, is after how long without a byte read or written the loop closes a
//! connection, unless its read waits, from 0 to 86,400, and never for 0 and without it;
//! - `--idle-waiting SECONDS`, with `--connections` alone, is the same for a connection whose read waits;
//! - `--unfinished BYTES`, with `--connections` alone, is how many bytes the requests hold together that are not
//! answered yet, from 1 to 1,000,000,000,000, and 1,073,741,824 without it;
//! - `--keep-bytes BYTES`, with `--keep` alone, is about how many bytes the records take at most that are kept, from 1
//! to 1,000,000,000,000, and 67,108,864 without it.
//!
//! It ends with status 0 at the end of standard input, with 1 after a fault, which is one line on standard error, and
//! with 2 if the command line is refused, or the process may not open as many files as a loop needs. Of several faults
//! the first of these ends it: the command line, the files, the random source, the policy, the address, the threads,
//! and then the session or accepting connections.
//!
//! `start` of `sr_start` does all that over any files, network, reader and writers. Those of the system are here.
#![tactic(auto)]

ghost use Rattle.std.specs.Prelude.{◌≤◌};
ghost use Rattle.sr_options.specs.{threads_of};

mod command_line;
mod files;
mod limits;
mod network;
mod standard;
#[cfg(test)]
mod tests;

use crate::command_line::{refuse_words, words};
use crate::files::SystemFiles;
use crate::network::{Beginner, Ender, SystemNetwork, begin_serving};
use sr_resp::WriteTo;
use sr_session::ReadFrom;
use sr_start::{ServeFault, start};
use std::process::ExitCode;
use std::thread::JoinHandle;

/// Hands `start` the system's files, network, standard input and output.
fn main(rt: HostRuntime) -> ExitCode {
    let mut files = SystemFiles::new(&rt);
    let beginner = Beginner::new(
        |rt, listener, book, way, keep| -> Result<JoinHandle<ServeFault>, ServeFault>
            requires { (1 ≤ threads_of way) × (threads_of way ≤ 64) }
        { begin_serving(rt, rt.alloc(), listener, book, way, keep) },
    );
    let ender = Ender::new(|rt, server| -> ServeFault { server.join(rt) });
    let mut network = SystemNetwork::new(&rt, beginner, ender);
    let mut reader = ReadFrom::new(rt.stdin());
    let mut writer = WriteTo::new(rt.stdout());
    let mut err = rt.stderr();
    let status = match words(&rt) {
        Ok(words) => start(
            &rt,
            words.as_slice(),
            &mut files,
            &mut network,
            &mut reader,
            &mut writer,
            &mut err,
        ),
        Err(error) => refuse_words(&mut err, error),
    };
    ExitCode::from(status)
}
