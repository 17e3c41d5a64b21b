//! What the command line says of `watch`, beside what it says of `run`.
use crate::fault::Fault;
use crate::options::{giving_up, number, rounds, spare, valued, with_policy};
use clap::{Arg, ArgAction, ArgMatches, Command};
use std::alloc::{AllocError, Global};

/// How many stranded entries of a group are moved in a turn, if no number is given: a mistake stays small then.
pub(crate) const MOST_A_TURN: u64 = 100;

/// The most seconds between two turns: those of a day.
const MAX_EVERY: u64 = 86_400;

/// What `watch` is asked for.
#[derive(Drop)]
pub(crate) struct Watching<'a> {
    /// How many seconds it waits after a turn.
    pub(crate) every: u64,
    /// For how many milliseconds the dead have been idle, and one of their entries: at least so many.
    pub(crate) dead_after: u64,
    /// Whether it makes one turn alone.
    pub(crate) once: bool,
    /// The groups, each behind its key.
    pub(crate) groups: Vec<(&'a str, &'a str)>,
}

/// Reads what `watch` is asked for.
pub(crate) fn read_watching<'a>(
    alloc: Global,
    given: &ArgMatches<'a>,
) -> Result<Watching<'a>, Fault> {
    let once = given.get_flag("once");
    let every = given.get_str("every");
    if every.is_none() && !once {
        return Err(Fault::Asked(
            "--every: a number of seconds from 1 to 86400, or --once for one turn",
        ));
    }
    let words = given.get_strs("GROUPS").unwrap_or(&[]);
    Ok(Watching {
        every: number(
            every,
            1,
            1,
            MAX_EVERY,
            "--every: a number of seconds from 1 to 86400",
        )?,
        dead_after: number(
            given.get_str("dead-after"),
            1,
            1,
            1_000_000_000_000,
            "--dead-after: a number from 1 to 1000000000000",
        )?,
        once,
        groups: groups_in(alloc, words)?,
    })
}

/// The groups that the words name, each by a key and the group's name.
fn groups_in<'a>(alloc: Global, words: &[&'a str]) -> Result<Vec<(&'a str, &'a str)>, Fault> {
    let mut groups = Vec::new(alloc);
    let mut key = None;
    for word in words {
        match key {
            None => key = Some(*word),
            Some(first) => {
                if groups
                    .iter()
                    .any(|(key, group)| *key == first && *group == *word)
                {
                    return Err(Fault::Asked("KEY GROUP: a group is named twice"));
                }
                groups.push((first, *word))?;
                key = None;
            }
        }
    }
    match key {
        None => Ok(groups),
        Some(_) => Err(Fault::Asked("KEY GROUP: the last key has no group")),
    }
}

/// The subcommand that watches groups.
pub(crate) fn watcher<'a>(
    alloc: Global,
    name: &'a str,
    about: &'a str,
) -> Result<Command<'a>, AllocError> {
    rounds(alloc, timed(alloc, with_policy(alloc, name, about)?)?)?
        .arg(valued(
            alloc,
            "at-most",
            "N",
            "Move the first N stranded entries of a group in a turn [default: 100]",
        ))?
        .arg(valued(
            alloc,
            "idle-over",
            "MS",
            "Move those entries alone that have been idle for MS milliseconds [default: as --dead-after]",
        ))?
        .arg(valued(
            alloc,
            "seen-within",
            "MS",
            "Give entries to those alone that have been idle for at most MS milliseconds [default: as --dead-after]",
        ))?
        .arg(giving_up(alloc))?
        .arg(spare(alloc))?
        .arg(
            Arg::new(alloc, "json")
                .long("json")
                .help("Print JSON, a line for each turn in which something happened")
                .action(ArgAction::SetTrue),
        )?
        .arg(
            Arg::new(alloc, "GROUPS")
                .value_name("KEY GROUP")
                .help("The keys of the streams, each with one of its consumer groups behind it")
                .index(1)
                .num_args(2..)
                .action(ArgAction::Append)
                .required(true),
        )
}

/// Adds when it looks, and after how long a consumer is dead.
fn timed<'a>(alloc: Global, command: Command<'a>) -> Result<Command<'a>, AllocError> {
    command
        .arg(valued(
            alloc,
            "every",
            "SECONDS",
            "Look again SECONDS after each turn, from 1 to 86400",
        ))?
        .arg(
            Arg::new(alloc, "once")
                .long("once")
                .help("Look once, with the status of run")
                .action(ArgAction::SetTrue),
        )?
        .arg(valued(
            alloc,
            "dead-after",
            "MS",
            "Dead is who has been idle for MS milliseconds, and an entry of it for as long",
        )
        .required(true))
}
