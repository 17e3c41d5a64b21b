//! Groups are watched: turn by turn their dead are found, and what these have left is given to others.
use crate::action::{MAX_ATTEMPTS, Status, asked_by, go_on, see_spare};
use crate::clock::millis;
use crate::fault::Fault;
use crate::metrics::{MetricsFile, metrics_text};
use crate::names::PolicyText;
use crate::options::Options;
use crate::print::print_spare;
use crate::reach::Reach;
use crate::watch_options::Watching;
use crate::watch_print::{Turn, Watched, print_away, print_back, print_fault};
use crate::wire::Wire;
use sr_bytes::Name;
use sr_live::{Asked, LiveFault, Ran, Terms, find_dead, run};
use sr_policy::Policy;
use sr_space::names_in_order;
use std::alloc::{AllocError, Global};
use std::thread;
use std::time::Duration;

/// The longest pause before a Redis that is away is tried again, in seconds.
const MAX_PAUSE: u64 = 60;

/// What each turn goes by.
#[derive(Drop)]
pub(crate) struct Watcher<'a> {
    pub(crate) rt: &'a HostRuntime,
    pub(crate) options: &'a Options<'a>,
    pub(crate) watching: &'a Watching<'a>,
    pub(crate) policy: &'a PolicyText,
    pub(crate) reach: &'a Reach<'a>,
}

/// Watches the groups, until a signal ends the process, or a fault that another turn would have too; or for one turn.
///
/// While Redis is away it waits longer before each turn. After each turn the file tells what was done.
pub(crate) fn watch_groups(
    watcher: &Watcher<'_>,
    file: Option<MetricsFile<'_>>,
) -> Result<Status, Fault> {
    let mut file = file;
    let mut groups = groups_of(watcher)?;
    let mut pause = 0;
    for _ in 0..u64::MAX {
        let looked = look_at_all(watcher, &mut groups, &mut pause);
        if let Some(file) = &mut file {
            write_counts(watcher.rt, file, groups.as_slice());
        }
        match looked {
            Ok(code) if watcher.watching.once => return Ok(Status::Watched(code)),
            Ok(_code) => sleep(watcher.rt, watcher.watching.every),
            Err(fault) if watcher.watching.once || !is_away(&fault) => return Err(fault),
            Err(fault) => {
                if pause == 0 {
                    print_away(watcher.rt, &fault, watcher.options.json)?;
                }
                pause = pause_after(pause);
                sleep(watcher.rt, pause);
            }
        }
    }
    Ok(Status::Done)
}

/// The groups, of which nothing is told yet.
fn groups_of(watcher: &Watcher<'_>) -> Result<Vec<Watched>, AllocError> {
    let alloc = watcher.rt.alloc();
    let mut groups = Vec::new(alloc);
    for (key, group) in &watcher.watching.groups {
        groups.push(Watched::new(alloc, key, group, watcher.options.json)?)?;
    }
    Ok(groups)
}

/// Writes what was done at each group. If that fails it is told, and nothing else comes of it.
fn write_counts(rt: &HostRuntime, file: &mut MetricsFile<'_>, groups: &[Watched]) {
    if let Some(fault) = file.write(rt, counts_text(rt.alloc(), groups)) {
        let _ = print_fault(rt, &fault);
    }
}

/// The text of the file that tells of these groups.
fn counts_text(alloc: Global, groups: &[Watched]) -> Result<Vec<u8>, Fault> {
    let mut counts = Vec::new(alloc);
    for group in groups {
        counts.push(&group.counts)?;
    }
    metrics_text(alloc, counts.as_slice())
}

/// Sleeps for so many seconds.
fn sleep(rt: &HostRuntime, seconds: u64) {
    thread::sleep(rt, Duration::from_secs(seconds));
}

/// The pause after one of so many seconds: 1, 2, 4 and so on.
fn pause_after(pause: u64) -> u64 {
    pause.saturating_mul(2).max(1).min(MAX_PAUSE)
}

/// Looks at each group once. The greatest status; or a fault because of which no other group is looked at.
fn look_at_all(
    watcher: &Watcher<'_>,
    groups: &mut Vec<Watched>,
    pause: &mut u64,
) -> Result<u8, Fault> {
    let mut code = 0;
    for group in groups.iter_mut() {
        let began = millis(watcher.rt);
        let looked = look_at(watcher, group, pause, began);
        group.counts.end_run(watcher.rt, code_of(&looked), began);
        code = looked?.max(code);
    }
    Ok(code)
}

/// The status of a turn at a group.
fn code_of(looked: &Result<u8, Fault>) -> u8 {
    match looked {
        Ok(code) => *code,
        Err(fault) => fault.code(),
    }
}

/// Looks at a group, and tells what came of it. The status; or a fault because of which no other group is looked at.
fn look_at(
    watcher: &Watcher<'_>,
    group: &mut Watched,
    pause: &mut u64,
    began: u64,
) -> Result<u8, Fault> {
    let made = match look_after(watcher, group, began) {
        Ok(turn) => Ok(turn),
        Err(fault) => {
            if is_away(&fault) || is_own(&fault) {
                return Err(fault);
            }
            Err(fault)
        }
    };
    if let Ok(Some(turn)) = &made {
        group.counts.add_claimed(&turn.ran);
    }
    if *pause > 0 {
        print_back(watcher.rt, watcher.options.json)?;
        *pause = 0;
    }
    group.tell(watcher.rt, &watcher.policy.policy, made)
}

/// Whether Redis cannot be reached, or does not answer, or has not read its data yet.
fn is_away(fault: &Fault) -> bool {
    match fault {
        Fault::Host(..) | Fault::Connect(..) | Fault::Peer(_) => true,
        Fault::ErrorReply(_, text, _) => text.as_str().starts_with("LOADING"),
        _ => false,
    }
}

/// Whether the fault is this program's own.
fn is_own(fault: &Fault) -> bool {
    match fault {
        Fault::Memory | Fault::Output | Fault::OutputOfDone => true,
        _ => false,
    }
}

/// Looks at a group at the node that has its key, by a connection of its own: so a group that moves, or a connection
/// that is lost, is nothing special.
fn look_after(
    watcher: &Watcher<'_>,
    group: &mut Watched,
    began: u64,
) -> Result<Option<Turn>, Fault> {
    let alloc = watcher.rt.alloc();
    let mut place = watcher.reach.node(watcher.rt)?;
    let mut asked = asked_of(alloc, watcher.options, group)?;
    let mut moves = 0;
    for _ in 0..MAX_ATTEMPTS {
        let mut wire = watcher.reach.connect(watcher.rt, &place)?;
        match recover(watcher, &asked, &mut wire, began) {
            Err(Fault::NoSpare) if asked.spare > 0 => {
                if group.is_first_without_spare() {
                    print_spare(&mut watcher.rt.stderr(), asked.spare)?;
                }
                asked.spare = 0;
            }
            Err(fault) => go_on(alloc, fault, &mut place, &mut asked, &mut moves)?,
            made => return made,
        }
    }
    Err(Fault::Moves)
}

/// What is asked of a group, of which nobody is known to be dead.
fn asked_of(alloc: Global, options: &Options<'_>, group: &Watched) -> Result<Asked, AllocError> {
    let key = group.key.copy(alloc)?;
    Ok(asked_by(options, key, group.group.copy(alloc)?, Vec::new(alloc)))
}

/// Finds the dead of a group, and gives others what these have left. `None` if nobody is dead.
fn recover(
    watcher: &Watcher<'_>,
    asked: &Asked,
    wire: &mut Wire,
    began: u64,
) -> Result<Option<Turn>, Fault> {
    let alloc = watcher.rt.alloc();
    let after = watcher.watching.dead_after;
    let found = find_dead(wire, alloc, &asked.key, &asked.group, after);
    let dead = wire.told(alloc, found)?;
    if dead.is_empty() {
        return Ok(None);
    }
    let asked = with_dead(alloc, asked, dead.as_slice())?;
    let expanded = watcher.policy.for_group(wire, alloc, &asked)?;
    let policy = match &expanded {
        Some(expanded) => &expanded.policy,
        None => &watcher.policy.policy,
    };
    let (tries, ran) = run_counted(watcher, policy, &asked, wire)?;
    if let Ran::Impossible(planned) = &ran {
        see_spare(&asked, planned)?;
    }
    Ok(Some(Turn {
        asked,
        ran,
        tries,
        millis: millis(watcher.rt).saturating_sub(began),
    }))
}

/// The same of these dead consumers.
fn with_dead(alloc: Global, asked: &Asked, dead: &[Name]) -> Result<Asked, AllocError> {
    Ok(Asked {
        key: asked.key.copy(alloc)?,
        group: asked.group.copy(alloc)?,
        dead: names_in_order(alloc, dead)?,
        claimable: asked.claimable,
        seen_within: asked.seen_within,
        spare: asked.spare,
        together: asked.together,
    })
}

/// Makes plans and has Redis carry one out, as `run` does, and counts the rounds.
fn run_counted(
    watcher: &Watcher<'_>,
    policy: &Policy,
    asked: &Asked,
    wire: &mut Wire,
) -> Result<(u64, Ran), Fault> {
    let alloc = watcher.rt.alloc();
    let options = watcher.options;
    let terms = Terms {
        tries: 1,
        within: options.within,
        at_most: options.at_most,
    };
    for before in 0..options.tries {
        let tries = before.saturating_add(1);
        let is_last = tries >= options.tries;
        let made = run(wire, alloc, policy, asked, terms);
        if is_last || !is_to_repeat(&made) {
            return Ok((tries, wire.told(alloc, made)?));
        }
    }
    Err(Fault::Changed)
}

/// Whether the group changed while it was looked up, or was not as it had been looked up.
fn is_to_repeat(made: &Result<Ran, LiveFault>) -> bool {
    match made {
        Ok(Ran::Stale { .. }) | Err(LiveFault::Changed) => true,
        _ => false,
    }
}
