//! The command line.
use crate::fault::Fault;
use crate::target::MAX_DATABASE;
use crate::watch_options::{MOST_A_TURN, Watching, read_watching, watcher};
use clap::error::ErrorKind;
use clap::{Arg, ArgAction, ArgMatches, Command, Error};
use std::alloc::{AllocError, Global};
use std::convert::AsStr;

/// The version: its date in CHANGELOG.md.
const VERSION: &str = "2026-12-01";

/// How many places may be left free: as many as a limit allows.
const MAX_SPARE: u64 = 1_000_000_000;

/// What the statuses mean.
const STATUSES: &str = "Statuses:
  0  a plan is printed, or carried out
  1  any other fault
  2  the command line is refused
  3  there is no plan
  4  the group changed in each try, and nothing was carried out
  5  the plan was sent, and what came of it is not known";

/// What is asked for.
#[derive(Clone, Copy, PartialEq, Eq)]
pub(crate) enum Action {
    /// A plan, which is printed.
    Plan,
    /// A plan, which is printed and carried out; again and again, if groups are watched.
    Run,
    /// What each consumer has.
    Board,
    /// A policy as it is for a group.
    Policy,
    /// Whether a file is a policy.
    Judge,
}

/// What the command line says.
#[derive(Drop)]
pub(crate) struct Options<'a> {
    pub(crate) action: Action,
    /// Where Redis listens, if it is said.
    pub(crate) redis: Option<&'a str>,
    /// Where a Sentinel listens.
    pub(crate) sentinel: Option<&'a str>,
    /// The name that the Sentinel has for the primary.
    pub(crate) master: Option<&'a str>,
    /// The path of the policy file.
    pub(crate) policy: &'a str,
    /// How many rounds are made at most.
    pub(crate) tries: u64,
    /// By how much a plan that is carried out may cost more than a cheapest one.
    pub(crate) within: u64,
    /// How many of the stranded entries are moved at most.
    pub(crate) at_most: Option<u64>,
    /// Whether it goes on until no stranded entry is left.
    pub(crate) all: bool,
    /// For how many milliseconds an entry has to have been idle.
    pub(crate) idle_over: u64,
    /// How often an entry may have been delivered, or it is left where it is.
    pub(crate) given_up_after: Option<u64>,
    /// For how many milliseconds a consumer may have been idle, or it is given nothing.
    pub(crate) seen_within: Option<u64>,
    /// How many places of each live consumer are left free.
    pub(crate) spare: u64,
    /// The user's name.
    pub(crate) user: Option<&'a str>,
    /// The path of the file with the password.
    pub(crate) password_file: Option<&'a str>,
    /// How many milliseconds an answer may take.
    pub(crate) timeout: u64,
    /// The number of the database, if it is said.
    pub(crate) database: Option<u64>,
    /// Whether the plan is printed as `plan_check` reads it.
    pub(crate) check: bool,
    /// Whether what is printed is JSON.
    pub(crate) json: bool,
    pub(crate) key: &'a str,
    pub(crate) group: &'a str,
    /// The dead consumers, as they were named.
    pub(crate) dead: Vec<&'a str>,
    /// The path of the file that tells what was done.
    pub(crate) metrics: Option<&'a str>,
    /// What is watched, if anything is: then no key, no group and no dead consumer is named.
    pub(crate) watching: Option<Watching<'a>>,
}

impl Options<'_> {
    /// Whether plans are made.
    pub(crate) fn makes_plans(&self) -> bool {
        self.action == Action::Plan || self.action == Action::Run
    }
}

/// Reads the words of the command line, of which the first is the program's name.
pub(crate) fn read_options<'a, S: AsStr>(
    alloc: Global,
    words: &'a [S],
) -> Result<Options<'a>, Fault> {
    let command = command_line(alloc)?;
    let matches = match command.try_get_matches_from(words) {
        Ok(matches) => matches,
        Err(error) => return Err(usage(alloc, &error)),
    };
    match matches.subcommand() {
        Some(("plan", given)) => options_of(alloc, Action::Plan, given, None),
        Some(("run", given)) => options_of(alloc, Action::Run, given, None),
        Some(("board", given)) => options_of(alloc, Action::Board, given, None),
        Some(("watch", given)) => {
            let watching = read_watching(alloc, given)?;
            options_of(alloc, Action::Run, given, Some(watching))
        }
        Some(("policy", given)) if given.get_str("KEY").is_some() => {
            options_of(alloc, Action::Policy, given, None)
        }
        Some(("policy", given)) => options_of(alloc, Action::Judge, given, None),
        _ => Err(Fault::Asked("plan, run, board, watch or policy")),
    }
}

/// What a command line that is refused is to the user, or one that asks for help or the version.
fn usage(alloc: Global, error: &Error) -> Fault {
    if error.kind() == ErrorKind::OutOfMemory {
        return Fault::Memory;
    }
    match format!(in alloc; "{error}") {
        Ok(text) if !error.use_stderr() => Fault::Help(text),
        Ok(text) => Fault::Usage(text),
        Err(_) => Fault::Memory,
    }
}

/// The options of an action.
fn options_of<'a>(
    alloc: Global,
    action: Action,
    given: &ArgMatches<'a>,
    watching: Option<Watching<'a>>,
) -> Result<Options<'a>, Fault> {
    let (dead_after, most) = match &watching {
        Some(watching) => (Some(watching.dead_after), Some(MOST_A_TURN)),
        None => (None, None),
    };
    let dead = match given.get_strs("DEAD") {
        Some(names) => Vec::from_slice(alloc, names)?,
        None => Vec::new(alloc),
    };
    let check = action != Action::Board && given.get_flag("check");
    let all = action == Action::Run && given.get_flag("all");
    if all && check {
        return Err(Fault::Asked("--all: it prints a line for each step, and no --check"));
    }
    let json = given.get_flag("json");
    if json && check {
        return Err(Fault::Asked("--json: it prints JSON alone, and no --check"));
    }
    Ok(Options {
        action,
        redis: given.get_str("redis"),
        sentinel: given.get_str("sentinel"),
        master: given.get_str("master"),
        policy: given.get_str("policy").unwrap_or(""),
        tries: number(
            given.get_str("tries"),
            3,
            1,
            16,
            "--tries: a number from 1 to 16",
        )?,
        within: number(
            given.get_str("within"),
            0,
            0,
            u64::MAX,
            "--within: a number from 0",
        )?,
        at_most: at_most(given.get_str("at-most"), most)?,
        all,
        idle_over: number(
            given.get_str("idle-over"),
            dead_after.unwrap_or(0),
            0,
            1_000_000_000_000,
            "--idle-over: a number from 0 to 1000000000000",
        )?,
        given_up_after: given_up_after(given.get_str("given-up-after"))?,
        seen_within: seen_within(given.get_str("seen-within"), dead_after)?,
        spare: number(
            given.get_str("spare"),
            0,
            0,
            MAX_SPARE,
            "--spare: a number from 0 to 1000000000",
        )?,
        user: given.get_str("user"),
        password_file: given.get_str("password-file"),
        timeout: number(
            given.get_str("timeout"),
            5000,
            1,
            600_000,
            "--timeout: a number from 1 to 600000",
        )?,
        database: database(given.get_str("db"))?,
        check,
        json,
        key: given.get_str("KEY").unwrap_or(""),
        group: given.get_str("GROUP").unwrap_or(""),
        dead,
        metrics: given.get_str("metrics"),
        watching,
    })
}

/// The number that is written, within its bounds; or the one for when none is.
pub(crate) fn number(
    text: Option<&str>,
    missing: u64,
    least: u64,
    most: u64,
    asked: &'static str,
) -> Result<u64, Fault> {
    let Some(text) = text else {
        return Ok(missing);
    };
    match text.parse::<u64>() {
        Ok(number) if number >= least && number <= most => Ok(number),
        _ => Err(Fault::Asked(asked)),
    }
}

/// The most entries to move, if it is written; or the one for when none is.
fn at_most(text: Option<&str>, missing: Option<u64>) -> Result<Option<u64>, Fault> {
    match text {
        None => Ok(missing),
        Some(_) => Ok(Some(number(text, 1, 1, 4096, "--at-most: a number from 1 to 4096")?)),
    }
}

/// How often an entry may have been delivered, if it is written.
fn given_up_after(text: Option<&str>) -> Result<Option<u64>, Fault> {
    match text {
        None => Ok(None),
        Some(_) => Ok(Some(number(
            text,
            1,
            1,
            1_000_000_000,
            "--given-up-after: a number from 1 to 1000000000",
        )?)),
    }
}

/// The number of the database, if it is written.
fn database(text: Option<&str>) -> Result<Option<u64>, Fault> {
    match text {
        None => Ok(None),
        Some(_) => Ok(Some(number(text, 0, 0, MAX_DATABASE, "--db: a number from 0")?)),
    }
}

/// For how long a consumer may have been idle, if it is written; or the time for when none is.
fn seen_within(text: Option<&str>, missing: Option<u64>) -> Result<Option<u64>, Fault> {
    match text {
        None => Ok(missing),
        Some(_) => Ok(Some(number(
            text,
            0,
            0,
            1_000_000_000_000,
            "--seen-within: a number from 0 to 1000000000000",
        )?)),
    }
}

/// The options that there are.
fn command_line<'a>(alloc: Global) -> Result<Command<'a>, Fault> {
    let command = Command::new(alloc, "sr_recover")
        .about("Recovery plans for the consumer groups of a Redis that already runs")
        .version(VERSION)
        .after_help(STATUSES)
        .subcommand_required(true)
        .subcommand(planner(
            alloc,
            "plan",
            "Make a cheapest plan and print it; nothing is changed",
        )?)?
        .subcommand(runner(
            alloc,
            "run",
            "Make a cheapest plan, print it, and have Redis carry it out",
        )?)?
        .subcommand(shared(
            alloc,
            "board",
            "Show what each consumer of the group has, and what the policy allows it",
        )?)?
        .subcommand(watcher(
            alloc,
            "watch",
            "Look again and again who is dead, and run a plan for what the dead have",
        )?)?
        .subcommand(judge(
            alloc,
            "policy",
            "Judge a policy file, or print it with names that end in * replaced by those of the group",
        )?)?;
    Ok(command)
}

/// A subcommand that makes a plan and has it carried out.
fn runner<'a>(alloc: Global, name: &'a str, about: &'a str) -> Result<Command<'a>, AllocError> {
    rounds(alloc, planner(alloc, name, about)?)?.arg(
        Arg::new(alloc, "all")
            .long("all")
            .help("Go on, N entries of --at-most at a time, until none is left [default: 4096]")
            .action(ArgAction::SetTrue),
    )
}

/// Adds how a plan is carried out, and where that is counted.
pub(crate) fn rounds<'a>(alloc: Global, command: Command<'a>) -> Result<Command<'a>, AllocError> {
    command
        .arg(valued(
            alloc,
            "tries",
            "N",
            "Try at most N times, from 1 to 16 [default: 3]",
        ))?
        .arg(valued(
            alloc,
            "within",
            "D",
            "Carry out a plan that costs at most D more than a cheapest one [default: 0]",
        ))?
        .arg(valued(
            alloc,
            "metrics",
            "FILE",
            "Write counts to FILE, in the text form of Prometheus, after the run or each turn",
        ))
}

/// A subcommand that makes a plan.
fn planner<'a>(alloc: Global, name: &'a str, about: &'a str) -> Result<Command<'a>, AllocError> {
    shared(alloc, name, about)?
        .arg(valued(
            alloc,
            "at-most",
            "N",
            "Move the first N stranded entries alone",
        ))?
        .arg(valued(
            alloc,
            "idle-over",
            "MS",
            "Move those entries alone that have been idle for MS milliseconds [default: 0]",
        ))?
        .arg(giving_up(alloc))?
        .arg(spare(alloc))?
        .arg(
            Arg::new(alloc, "check")
                .long("check")
                .help("Print the problem and the reply as plan_check reads them")
                .action(ArgAction::SetTrue),
        )?
        .arg(
            Arg::new(alloc, "DEAD")
                .help("The dead consumers")
                .index(3)
                .num_args(1..)
                .action(ArgAction::Append)
                .required(true),
        )
}

/// How many places are left free.
pub(crate) fn spare<'a>(alloc: Global) -> Arg<'a> {
    valued(
        alloc,
        "spare",
        "N",
        "Leave N places of each consumer free, for what others do meanwhile [default: 0]",
    )
}

/// A subcommand for one group.
fn shared<'a>(alloc: Global, name: &'a str, about: &'a str) -> Result<Command<'a>, AllocError> {
    with_policy(alloc, name, about)?
        .arg(seen(alloc))?
        .arg(
            Arg::new(alloc, "json")
                .long("json")
                .help("Print JSON, a line for each plan")
                .action(ArgAction::SetTrue),
        )?
        .arg(
            Arg::new(alloc, "KEY")
                .help("The key of the stream")
                .index(1)
                .required(true),
        )?
        .arg(
            Arg::new(alloc, "GROUP")
                .help("The consumer group")
                .index(2)
                .required(true),
        )
}

/// The subcommand that judges a policy.
fn judge<'a>(alloc: Global, name: &'a str, about: &'a str) -> Result<Command<'a>, AllocError> {
    connecting(alloc, name, about)?
        .arg(seen(alloc))?
        .arg(
            Arg::new(alloc, "policy")
                .value_name("FILE")
                .help("The policy file")
                .index(1)
                .required(true),
        )?
        .arg(
            Arg::new(alloc, "KEY")
                .help("The key of a stream")
                .index(2)
                .requires_arg("GROUP")?,
        )?
        .arg(Arg::new(alloc, "GROUP").help("The consumer group").index(3))
}

/// A subcommand that reads a policy.
pub(crate) fn with_policy<'a>(
    alloc: Global,
    name: &'a str,
    about: &'a str,
) -> Result<Command<'a>, AllocError> {
    connecting(alloc, name, about)?.arg(valued(
        alloc,
        "policy",
        "FILE",
        "Read who may take which entries from this file",
    )
    .required(true))
}

/// How often entries may have been delivered.
pub(crate) fn giving_up<'a>(alloc: Global) -> Arg<'a> {
    valued(
        alloc,
        "given-up-after",
        "N",
        "Leave those entries where they are that have been delivered more than N times",
    )
}

/// For how long those may have been idle who are given entries.
fn seen<'a>(alloc: Global) -> Arg<'a> {
    valued(
        alloc,
        "seen-within",
        "MS",
        "Give entries to those consumers alone that have been idle for at most MS milliseconds",
    )
}

/// A subcommand with what all of them take.
fn connecting<'a>(alloc: Global, name: &'a str, about: &'a str) -> Result<Command<'a>, AllocError> {
    Command::new(alloc, name)
        .about(about)
        .arg(valued(
            alloc,
            "redis",
            "PLACE",
            "Where Redis listens: HOST:PORT, redis://USER@HOST:PORT/DB or unix:PATH [default: REDIS_URL, or 127.0.0.1:6379]",
        ))?
        .arg(valued(
            alloc,
            "sentinel",
            "HOST:PORT",
            "Ask this Sentinel where Redis is",
        ))?
        .arg(valued(
            alloc,
            "master",
            "NAME",
            "The name that the Sentinel has for the primary",
        ))?
        .arg(valued(alloc, "db", "N", "The number of the database [default: 0]"))?
        .arg(valued(
            alloc,
            "user",
            "NAME",
            "The user's name, if it is not the default one",
        ))?
        .arg(valued(
            alloc,
            "password-file",
            "FILE",
            "Read the password from this file [default: REDISCLI_AUTH of the environment]",
        ))?
        .arg(valued(
            alloc,
            "timeout",
            "MS",
            "Wait this long for an answer [default: 5000]",
        ))
}

/// An option with a value.
pub(crate) fn valued<'a>(alloc: Global, name: &'a str, value: &'a str, help: &'a str) -> Arg<'a> {
    Arg::new(alloc, name)
        .long(name)
        .value_name(value)
        .help(help)
        .action(ArgAction::Set)
}
