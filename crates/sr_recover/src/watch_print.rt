//! What `watch` tells: a line for each turn at a group in which something happened, and what hinders it, once.
use crate::action::{name_of, printed_of, status_of_ran};
use crate::clock::seconds;
use crate::fault::Fault;
use crate::json_lines::{Members, members_of_fault, members_of_redis, members_of_turn, print_at};
use crate::metrics::Counts;
use crate::print::{print_name, print_number, say};
use sr_bytes::Name;
use sr_live::{Asked, Planned, Ran};
use sr_policy::Policy;
use std::alloc::{AllocError, Global};
use std::io::Write;

/// A turn at a group of which somebody is dead.
#[derive(Drop)]
pub(crate) struct Turn {
    /// What was asked of the group, with its dead.
    pub(crate) asked: Asked,
    /// What came of it.
    pub(crate) ran: Ran,
    /// How many rounds were made.
    pub(crate) tries: u64,
    /// How many milliseconds it took.
    pub(crate) millis: u64,
}

/// A group that is watched, with what was told of it.
#[derive(Drop)]
pub(crate) struct Watched {
    /// The key of its stream.
    pub(crate) key: Name,
    /// Its name.
    pub(crate) group: Name,
    /// The consumers of the policy that were told to be dead.
    noted: Vec<Name>,
    /// What hindered the last turn, as it was told. It is told again once it is another.
    hindrance: Vec<u8>,
    /// Whether it was told that too few places can be left free.
    is_without_spare: bool,
    /// Whether standard output has JSON.
    is_json: bool,
    /// What was done at it.
    pub(crate) counts: Counts,
}

impl Watched {
    /// A group of which nothing was told.
    pub(crate) fn new(
        alloc: Global,
        key: &str,
        group: &str,
        is_json: bool,
    ) -> Result<Watched, AllocError> {
        Ok(Watched {
            key: name_of(alloc, key)?,
            group: name_of(alloc, group)?,
            counts: Counts::new(alloc, key, group)?,
            noted: Vec::new(alloc),
            hindrance: Vec::new(alloc),
            is_without_spare: false,
            is_json,
        })
    }

    /// Whether it is to be told now that too few places can be left free.
    pub(crate) fn is_first_without_spare(&mut self) -> bool {
        let is_first = !self.is_without_spare;
        self.is_without_spare = true;
        is_first
    }

    /// Tells what came of a turn. The status that `run` has then.
    pub(crate) fn tell(
        &mut self,
        rt: &HostRuntime,
        policy: &Policy,
        made: Result<Option<Turn>, Fault>,
    ) -> Result<u8, Fault> {
        match made {
            Ok(None) => {
                self.hindrance = Vec::new(rt.alloc());
                Ok(0)
            }
            Ok(Some(turn)) => {
                let told = self.tell_turn(rt, policy, &turn);
                printed_of(&turn.ran, told)?;
                Ok(status_of_ran(&turn.ran).code())
            }
            Err(fault) => self.tell_fault(rt, &fault),
        }
    }

    /// Tells of a turn in which somebody was dead: if it moved entries, or if something else hindered it than the last
    /// one. What is gone stays with the dead, and is found again in each turn.
    fn tell_turn(&mut self, rt: &HostRuntime, policy: &Policy, turn: &Turn) -> Result<(), Fault> {
        self.note_dead(rt, policy, turn.asked.dead.as_slice())?;
        let line = line_of(rt.alloc(), turn)?;
        if has_moved(&turn.ran) {
            self.hindrance = Vec::new(rt.alloc());
            return self.print_turn(rt, turn, line.as_slice());
        }
        if has_hindrance(&turn.ran) && self.hindrance.as_slice() != line.as_slice() {
            self.print_turn(rt, turn, line.as_slice())?;
        }
        self.hindrance = line;
        Ok(())
    }

    /// Prints what came of a turn on standard output: this line, or an object.
    fn print_turn(&self, rt: &HostRuntime, turn: &Turn, line: &[u8]) -> Result<(), Fault> {
        if self.is_json {
            print_object(rt, members_of_turn(rt.alloc(), turn)?)
        } else {
            print_timed(rt, &mut rt.stdout(), line)
        }
    }

    /// Notes the consumers that are dead and have a limit, each once.
    fn note_dead(&mut self, rt: &HostRuntime, policy: &Policy, dead: &[Name]) -> Result<(), Fault> {
        let alloc = rt.alloc();
        for name in dead {
            if policy.limit(name).is_some() && !self.noted.iter().any(|other| *other == *name) {
                let mut note = Vec::new(alloc);
                say(&mut note, b"note: ")?;
                print_name(&mut note, alloc, name.as_slice())?;
                say(&mut note, b" of ")?;
                add_group(&mut note, alloc, &self.key, &self.group)?;
                say(
                    &mut note,
                    b" has a limit in the policy, and is dead by --dead-after\n",
                )?;
                self.noted.push(name.copy(alloc)?)?;
                say(&mut rt.stderr(), note.as_slice())?;
            }
        }
        Ok(())
    }

    /// Tells of a fault, on standard error and as an object, unless it is the last one that was told. If a plan was
    /// sent, it is told.
    fn tell_fault(&mut self, rt: &HostRuntime, fault: &Fault) -> Result<u8, Fault> {
        let alloc = rt.alloc();
        let mut line = Vec::new(alloc);
        add_group(&mut line, alloc, &self.key, &self.group)?;
        let text = format!(in alloc; ": {fault}")?;
        say(&mut line, text.as_bytes())?;
        let code = fault.code();
        if code == 5 || self.hindrance.as_slice() != line.as_slice() {
            print_timed(rt, &mut rt.stderr(), line.as_slice())?;
            if self.is_json {
                print_object(rt, members_of_fault(alloc, &self.key, &self.group, fault)?)?;
            }
        }
        self.hindrance = line;
        Ok(code)
    }
}

/// Whether entries were moved.
fn has_moved(ran: &Ran) -> bool {
    match ran {
        Ran::Done { claimed, .. } => *claimed > 0,
        Ran::Impossible(_) | Ran::Stale { .. } => false,
    }
}

/// Whether entries stay with the dead although they were to be moved.
fn has_hindrance(ran: &Ran) -> bool {
    match ran {
        Ran::Done { planned, .. } => !planned.verdict.gone().is_empty(),
        Ran::Impossible(_) | Ran::Stale { .. } => true,
    }
}

/// The line on a turn: the key, the group, the dead, and what came of it.
fn line_of(alloc: Global, turn: &Turn) -> Result<Vec<u8>, Fault> {
    let mut line = Vec::new(alloc);
    add_group(&mut line, alloc, &turn.asked.key, &turn.asked.group)?;
    say(&mut line, b": dead")?;
    for name in &turn.asked.dead {
        say(&mut line, b" ")?;
        print_name(&mut line, alloc, name.as_slice())?;
    }
    match &turn.ran {
        Ran::Done {
            planned,
            claimed,
            gap,
        } => {
            if *claimed > 0 {
                add_done(&mut line, planned, (*claimed, *gap), turn)?;
            }
            add_gone(&mut line, planned)?;
        }
        Ran::Impossible(planned) => add_shortage(&mut line, planned)?,
        Ran::Stale { what, .. } => {
            say(&mut line, b", stale ")?;
            print_name(&mut line, alloc, what.as_slice())?;
            say(&mut line, b", nothing was changed")?;
        }
    }
    Ok(line)
}

/// Adds the key and the group.
fn add_group(line: &mut Vec<u8>, alloc: Global, key: &Name, group: &Name) -> Result<(), Fault> {
    print_name(line, alloc, key.as_slice())?;
    say(line, b" ")?;
    print_name(line, alloc, group.as_slice())
}

/// Adds how many entries were claimed and at which gap, what they cost, and how it was done.
fn add_done(
    line: &mut Vec<u8>,
    planned: &Planned,
    done: (u64, u64),
    turn: &Turn,
) -> Result<(), Fault> {
    let (claimed, gap) = done;
    print_number(line, b", claimed ", claimed)?;
    print_number(line, b", cost ", planned.verdict.total().unwrap_or(0))?;
    print_number(line, b", gap ", gap)?;
    print_number(line, b", tries ", turn.tries)?;
    print_number(line, b", ms ", turn.millis)
}

/// Adds how many entries are gone, if there are any.
fn add_gone(line: &mut Vec<u8>, planned: &Planned) -> Result<(), Fault> {
    let gone = planned.verdict.gone();
    if gone.is_empty() {
        return Ok(());
    }
    print_number(line, b", gone ", gone.len() as u64)
}

/// Adds that there is no plan.
fn add_shortage(line: &mut Vec<u8>, planned: &Planned) -> Result<(), Fault> {
    let Some(ids) = planned.verdict.shortage() else {
        return Ok(());
    };
    print_number(line, b", none: too few places for ", ids.len() as u64)?;
    say(line, b" entries")
}

/// Tells that Redis is away, and why.
pub(crate) fn print_away(rt: &HostRuntime, fault: &Fault, is_json: bool) -> Result<(), Fault> {
    print_fault(rt, fault)?;
    if is_json {
        print_object(rt, members_of_redis(rt.alloc(), Some(fault))?)?;
    }
    Ok(())
}

/// Tells that Redis is there again.
pub(crate) fn print_back(rt: &HostRuntime, is_json: bool) -> Result<(), Fault> {
    print_timed(rt, &mut rt.stderr(), b"redis: it is back")?;
    if is_json {
        print_object(rt, members_of_redis(rt.alloc(), None)?)?;
    }
    Ok(())
}

/// Prints a fault on standard error.
pub(crate) fn print_fault(rt: &HostRuntime, fault: &Fault) -> Result<(), Fault> {
    let text = format!(in rt.alloc(); "{fault}")?;
    print_timed(rt, &mut rt.stderr(), text.as_bytes())
}

/// Prints an object on standard output, with the time.
fn print_object(rt: &HostRuntime, members: Members) -> Result<(), Fault> {
    print_at(&mut rt.stdout(), rt.alloc(), seconds(rt), members)
}

/// Prints a line behind the time, in seconds since 1970, by one write.
fn print_timed<W: Write>(rt: &HostRuntime, out: &mut W, line: &[u8]) -> Result<(), Fault> {
    let mut text = Vec::new(rt.alloc());
    print_number(&mut text, b"", seconds(rt))?;
    say(&mut text, b" ")?;
    say(&mut text, line)?;
    say(&mut text, b"\n")?;
    say(out, text.as_slice())
}
