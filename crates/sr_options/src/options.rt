ghost use Rattle.std.specs.Prelude.{◌≡◌, ℕ, List, ◌∷◌, map, false, IfOk, IfErr};
ghost use Rattle.clap.specs.Words.{app_of, kind_of, rule_of};
ghost use Rattle.sr_options.specs.Options.{AreOnce, Flag, asked_by, asked_of, word_of};
ghost use Rattle.sr_options.specs.steps.Server.{general, plain_rule, server, valued_rule, with_loop};

use clap::error::ErrorKind;
use clap::{Arg, ArgAction, Command, Error};
use std::alloc::{AllocError, Global};
use std::convert::AsStr;

/// What help says at its end.
const EXAMPLES: &str = "Examples:
  sr_server --listen 127.0.0.1:6379 --connections 1000 --keep 100000 --policy policy.toml
  sr_server --listen 127.0.0.1:6379 --connections 5000 --idle 300 --idle-waiting 3600
  sr_server --stdio < requests > replies";

/// The options of the command line, as they are written.
#[derive(Clone, Copy)]
pub struct Options<'a> {
    /// Whether one session is asked for, over standard input and output.
    pub stdio: bool,
    /// The address to listen at.
    pub listen: Option<&'a str>,
    /// The path of the policy file.
    pub policy: Option<&'a str>,
    /// How many threads serve connections, each one at a time.
    pub workers: Option<&'a str>,
    /// How many records are kept.
    pub keep: Option<&'a str>,
    /// How many connections one loop serves.
    pub connections: Option<&'a str>,
    /// After how many seconds without a byte a connection is closed, unless its read waits.
    pub idle: Option<&'a str>,
    /// How many bytes all requests that are not answered yet may hold together.
    pub unfinished: Option<&'a str>,
    /// About how many bytes the records take at most that are kept.
    pub keep_bytes: Option<&'a str>,
    /// After how many seconds without a byte a connection is closed whose read waits.
    pub idle_waiting: Option<&'a str>,
}

/// Reads the options from the words of the command line, of which the first is the program's name.
///
/// An `Err` has the text for the user, also where help was asked for.
pub fn read_options<'a, S: AsStr>(alloc: Global, words: &'a [S]) -> Result<Options<'a>, Error>
    ensures ok { (name : List ℕ) (flags : List Flag) → map S.text words.now ≡ name ∷ map word_of flags → AreOnce flags
        → IfOk result (λ options. asked_of options ≡ asked_by flags) }
    ensures err { (name : List ℕ) (flags : List Flag) → map S.text words.now ≡ name ∷ map word_of flags → AreOnce flags
        → IfErr result (λ error. kind_of error ≡ ErrorKind.OutOfMemory) }
{
    let command = command_line(alloc)?;
    let matches = command.try_get_matches_from(words)?;
    Ok(Options {
        stdio: matches.get_flag("stdio"),
        listen: matches.get_str("listen"),
        policy: matches.get_str("policy"),
        workers: matches.get_str("workers"),
        keep: matches.get_str("keep"),
        connections: matches.get_str("connections"),
        idle: matches.get_str("idle"),
        unfinished: matches.get_str("unfinished"),
        keep_bytes: matches.get_str("keep-bytes"),
        idle_waiting: matches.get_str("idle-waiting"),
    })
}

/// The options that there are.
fn command_line<'a>(alloc: Global) -> Result<Command<'a>, AllocError>
    ensures { IfOk result (λ command. app_of command ≡ server) }
{
    let command = general_options(alloc)?;
    loop_options(alloc, command)
}

/// The options of one session and of each server.
fn general_options<'a>(alloc: Global) -> Result<Command<'a>, AllocError>
    ensures { IfOk result (λ command. app_of command ≡ general) }
{
    Command::new(alloc, "sr_server")
        .about("Redis Streams over RESP2. Takes either --stdio or --listen.")
        .after_help(EXAMPLES)
        .arg(plain(
            alloc,
            "stdio",
            "Serve one connection over standard input and output",
        ))?
        .arg(valued(
            alloc,
            "listen",
            "ADDR",
            "Serve the connections that come to this address, as 127.0.0.1:6379 or [::1]:6379",
        ))?
        .arg(valued(
            alloc,
            "connections",
            "N",
            "With --listen: serve up to N connections by one loop, from 1 to 10000; what most want [default: by workers]",
        ))?
        .arg(valued(
            alloc,
            "policy",
            "FILE",
            "Read who may take which entries from this file",
        ))?
        .arg(valued(
            alloc,
            "workers",
            "N",
            "With --listen: serve at most N connections at a time, by threads, from 1 to 64; a read that waits takes one of them [default: 64]",
        ))?
        .arg(valued(
            alloc,
            "keep",
            "N",
            "With --listen: make a checkpoint, which lets go of all records, once there are more than N [default: never]",
        ))
}

/// The options of a server by one loop, after others.
fn loop_options<'a>(alloc: Global, command: Command<'a>) -> Result<Command<'a>, AllocError>
    ensures { IfOk result (λ more. app_of more ≡ with_loop (app_of command.entry)) }
{
    command
        .arg(valued(
            alloc,
            "keep-bytes",
            "BYTES",
            "With --keep: make a checkpoint too once the records take about this much [default: 67108864]",
        ))?
        .arg(valued(
            alloc,
            "idle",
            "SECONDS",
            "With --connections: close one of which no byte was read or written for so long, unless its read waits [default: 0, never]",
        ))?
        .arg(valued(
            alloc,
            "idle-waiting",
            "SECONDS",
            "With --connections: close one whose read waits once no byte of it was read or written for so long [default: 0, never]",
        ))?
        .arg(valued(
            alloc,
            "unfinished",
            "BYTES",
            "With --connections: end the one by whose bytes the requests not answered yet hold more [default: 1073741824]",
        ))
}

/// An option without a value.
fn plain<'a>(alloc: Global, name: &'a str, help: &'a str) -> Arg<'a>
    ensures rule { rule_of result ≡ plain_rule name.entry.now }
    ensures local { result.global ≡ false }
{
    Arg::new(alloc, name)
        .long(name)
        .action(ArgAction::SetTrue)
        .help(help)
}

/// An option with a value.
fn valued<'a>(alloc: Global, name: &'a str, value: &'a str, help: &'a str) -> Arg<'a>
    ensures rule { rule_of result ≡ valued_rule name.entry.now }
    ensures local { result.global ≡ false }
{
    Arg::new(alloc, name)
        .long(name)
        .action(ArgAction::Set)
        .value_name(value)
        .help(help)
}
