//! Notes on standard error: names that the group does not have, and consumers that are left out of a plan.
use crate::deliveries::GivenUp;
use crate::fault::Fault;
use crate::print::{print_name, print_number, receives, say};
use crate::wire::Wire;
use sr_bytes::Name;
use sr_live::{Asked, LiveCall, LiveFault, Planned, is_seen, look_idles, look_numbers, number_in};
use sr_policy::Policy;
use std::alloc::Global;
use std::io::Write;

/// The consumers of the group, each with a number that no note tells: all of them, or at least those that a note may
/// be about. `None` if this user of Redis may not ask.
pub(crate) type Members = Option<Vec<(Name, u64)>>;

/// What notes are made of.
#[derive(Clone, Copy)]
pub(crate) struct Notes<'a> {
    pub(crate) policy: &'a Policy,
    pub(crate) asked: &'a Asked,
    pub(crate) members: &'a Members,
    /// What was delivered too often, if that is asked for.
    pub(crate) given_up: &'a Option<GivenUp>,
}

/// Looks up which of the consumers of the policy, and of the dead, the group has. Most have pending entries, and only
/// if one of them has none all consumers of the group are asked for, of which there may be many. Nothing is asked if
/// the plan asks for them in any case.
pub(crate) fn look_members(
    wire: &mut Wire,
    alloc: Global,
    policy: &Policy,
    asked: &Asked,
) -> Result<Members, LiveFault> {
    if asked.seen_within.is_some() {
        return Ok(None);
    }
    let numbers = look_numbers(wire, alloc, &asked.key, &asked.group)?;
    let is_named = |name: &Name| is_in(numbers.as_slice(), name);
    if asked.dead.iter().all(is_named) && policy.consumers().iter().all(is_named) {
        return Ok(Some(numbers));
    }
    match look_idles(wire, alloc, &asked.key, &asked.group) {
        Ok(idles) => Ok(Some(idles)),
        Err(LiveFault::ErrorReply(LiveCall::Consumers, text)) if is_refusal(&text) => Ok(None),
        Err(fault) => Err(fault),
    }
}

/// Whether an error is that the user lacks a right.
fn is_refusal(text: &Name) -> bool {
    text.as_slice().starts_with(b"NOPERM")
}

impl Notes<'_> {
    /// Prints them.
    pub(crate) fn print<W: Write>(
        self,
        out: &mut W,
        alloc: Global,
        planned: &Planned,
    ) -> Result<(), Fault> {
        if let Some(given_up) = self.given_up {
            print_given_up(out, alloc, given_up)?;
        }
        if self.asked.seen_within.is_some() {
            let idles = planned.looked.idles.as_slice();
            self.print_unknown(out, alloc, idles)?;
            return self.print_unseen(out, alloc, idles);
        }
        match self.members {
            Some(members) => {
                self.print_unknown(out, alloc, members.as_slice())?;
                self.print_newcomers(out, alloc, planned, members.as_slice())
            }
            None => say(
                out,
                b"note: whether the group has all these consumers is not known: the user lacks +xinfo|consumers\n",
            ),
        }
    }

    /// Notes each dead consumer that the group does not have: its name may be misspelt.
    fn print_unknown<W: Write>(
        self,
        out: &mut W,
        alloc: Global,
        members: &[(Name, u64)],
    ) -> Result<(), Fault> {
        for name in &self.asked.dead {
            if !is_in(members, name) {
                say(out, b"note: the group has no consumer ")?;
                print_name(out, alloc, name.as_slice())?;
                say(out, b"\n")?;
            }
        }
        Ok(())
    }

    /// Notes each consumer that is given entries and that the group does not have: nobody may be there to read them.
    fn print_newcomers<W: Write>(
        self,
        out: &mut W,
        alloc: Global,
        planned: &Planned,
        members: &[(Name, u64)],
    ) -> Result<(), Fault> {
        let live = planned.verdict.snapshot().live();
        for (place, consumer) in live.iter().enumerate() {
            if !is_in(members, &consumer.name) && receives(&planned.verdict, consumer, place) {
                say(out, b"note: the group has no consumer ")?;
                print_name(out, alloc, consumer.name.as_slice())?;
                say(out, b", and the plan gives it entries\n")?;
            }
        }
        Ok(())
    }

    /// Notes each consumer of the policy that is given nothing since it was not seen for too long.
    fn print_unseen<W: Write>(
        self,
        out: &mut W,
        alloc: Global,
        idles: &[(Name, u64)],
    ) -> Result<(), Fault> {
        for name in self.policy.consumers() {
            let is_dead = self.asked.dead.iter().any(|other| *other == *name);
            if !is_dead && !is_seen(self.asked.seen_within, idles, name) {
                say(out, b"note: ")?;
                print_name(out, alloc, name.as_slice())?;
                print_why(out, idles, name)?;
            }
        }
        Ok(())
    }
}

/// Notes how many entries were delivered too often, and the first of them.
fn print_given_up<W: Write>(out: &mut W, alloc: Global, given_up: &GivenUp) -> Result<(), Fault> {
    if given_up.all == 0 {
        return Ok(());
    }
    print_number(out, b"note: given up, as --given-up-after ", given_up.most)?;
    print_number(out, b" asks: ", given_up.all)?;
    say(out, b"\n")?;
    for entry in &given_up.first {
        say(out, b"note: given up ")?;
        say(out, entry.id.as_slice())?;
        say(out, b" of ")?;
        print_name(out, alloc, entry.owner.as_slice())?;
        print_number(out, b", deliveries ", entry.count)?;
        say(out, b"\n")?;
    }
    Ok(())
}

/// Prints why the consumer is given nothing.
fn print_why<W: Write>(out: &mut W, idles: &[(Name, u64)], name: &Name) -> Result<(), Fault> {
    match number_in(idles, name) {
        Some(idle) => {
            print_number(out, b" is given nothing, since it has been idle for ", idle)?;
            say(out, b" ms\n")
        }
        None => say(
            out,
            b" is given nothing, since the group has no such consumer\n",
        ),
    }
}

/// Whether the consumer is among them.
fn is_in(members: &[(Name, u64)], name: &Name) -> bool {
    number_in(members, name).is_some()
}
