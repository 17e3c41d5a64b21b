ghost use Rattle.std.specs.Prelude.{◌≡◌, ◌^◌, ◌<◌, [], ◌∷◌, Some, IfOk, IfSome, IfNone, length};
ghost use Rattle.sr_group.specs.Group.{counts_of, earlier, idle_for, oldest_of};

use crate::consumers::seen_by;
use crate::{Consumer, Group};
use sr_bytes::Name;
use sr_ids::Id;
use sr_pending::{Nack, Nacks, Pending};
use std::alloc::{AllocError, Global};
use std::marker::Model;

/// How many entries are pending, in what range of ids, and how many for each consumer.
///
/// Source: Redis documentation, command XPENDING, "Summary form".
#[derive(Drop)]
pub struct Summary {
    pub total: u64,
    pub least: Option<Id>,
    pub greatest: Option<Id>,
    /// In the order of the group's consumers.
    pub counts: Vec<u64>,
}

/// Pending entries that were not delivered for a while, looked at where they lie.
#[derive(Drop)]
pub struct Idle<'a> {
    rest: Nacks<'a>,
    least_idle: u64,
    moment: u64,
    left: u64,
}

impl<'a> Model for Idle<'a> {
    ghost use Rattle.std.specs.Prelude.{List, take};
    ghost use Rattle.sr_pending.specs.declared.nack.Nack.{Nack};
    ghost use Rattle.sr_group.specs.Group.{idle_for};

    ghost Value = { List Nack };

    ghost view = { λ i. take i.left (idle_for i.least_idle i.moment i.rest) };
}

impl<'a> Idle<'a> {
    ghost use Rattle.std.specs.Prelude.{◌≡◌, ◌≤◌, ◌^◌, ◌<◌, [], ◌∷◌, length, take, IfSome, IfNone};
    ghost use Rattle.sr_group.specs.Group.{idle_for};

    /// At most `left` of these entries, of those that were not delivered for at least `least_idle` milliseconds.
    fn new(rest: Nacks<'a>, least_idle: u64, moment: u64, left: u64) -> Idle<'a>
        ensures value { result ≡ take left (idle_for least_idle moment rest.entry) }
        ensures few { length result < 2 ^ 64 }
    {
        Idle {
            rest,
            least_idle,
            moment,
            left,
        }
    }

    /// The next entry. None if there is no other.
    pub fn next(&mut self) -> Option<&'a Nack>
        ensures some { IfSome result (λ nack. self.old ≡ nack.now ∷ self.new) }
        ensures none { IfNone result (self.old ≡ []) }
        ensures ended { IfNone result (self.new ≡ []) }
    {
        if self.left == 0 {
            return None;
        }
        match next_idle(&mut self.rest, self.least_idle, self.moment) {
            None => None,
            Some(nack) => {
                self.left -= 1;
                Some(nack)
            }
        }
    }

    /// The same entries, to be looked at a second time.
    fn again(&self) -> Idle<'a>
        ensures same { result ≡ self.now }
        ensures few { length self.now < 2 ^ 64 }
    {
        Idle::new(self.rest.again(), self.least_idle, self.moment, self.left)
    }

    /// How many entries are left. It counts them.
    pub fn len(&self) -> usize
        ensures { result ≡ length self.now }
    {
        let mut rest = self.again();
        let mut count = 0;
        while let Some(_) = rest.next() {
            count += 1;
        }
        count
    }
}

/// The next entry that was not delivered for at least so many milliseconds.
fn next_idle<'a>(rest: &mut Nacks<'a>, least_idle: u64, moment: u64) -> Option<&'a Nack>
    ensures some { IfSome result (λ nack.
        idle_for least_idle moment rest.old ≡ nack.now ∷ idle_for least_idle moment rest.new) }
    ensures none { IfNone result (idle_for least_idle moment rest.old ≡ []) }
    ensures ended { IfNone result (idle_for least_idle moment rest.new ≡ []) }
{
    while let Some(nack) = rest.next() {
        if moment.saturating_sub(nack.time) >= least_idle {
            return Some(nack);
        }
    }
    None
}

/// How many entries each of the consumers has.
fn counts_for(
    alloc: Global,
    consumers: &[Consumer],
    pending: &Pending,
) -> Result<Vec<u64>, AllocError>
    ensures { IfOk result (λ counts. counts.items ≡ counts_of consumers.now pending.now.nacks) }
{
    let mut counts = Vec::with_capacity(alloc, consumers.len())?;
    for consumer in consumers {
        counts.push(pending.count_of(&consumer.name) as u64)?;
    }
    Ok(counts)
}

/// The least delivery time of these entries.
fn least_time(mut nacks: Nacks<'_>) -> Option<u64>
    ensures { result ≡ oldest_of nacks.entry }
{
    let mut least = None;
    while let Some(nack) = nacks.next() {
        least = Some(earlier(nack.time, least));
    }
    least
}

/// The earlier of two moments, or the first if there is no other.
fn earlier(time: u64, other: Option<u64>) -> u64
    ensures { Some result ≡ earlier time other }
{
    match other {
        Some(other) => time.min(other),
        None => time,
    }
}

impl Group {
    ghost use Rattle.std.specs.Prelude.{◌≡◌, IfOk, length, option_map, take};
    ghost use Rattle.std.specs.Option.{option_copied};
    ghost use Rattle.sr_pending.specs.{owned_by};
    ghost use Rattle.sr_pending.specs.Pending.{greatest_pending, least_pending, owned_by_named};
    ghost use Rattle.sr_pending.specs.Pending.{pending_between};
    ghost use Rattle.sr_group.specs.Group.{consumer_with, counts_of, idle_for, oldest_of};

    /// How many entries are pending, the least and the greatest of their ids, and how many each consumer has.
    ///
    /// Source: Redis documentation, command XPENDING, "Summary form".
    pub fn summary(&self, alloc: Global) -> Result<Summary, AllocError>
        ensures total { IfOk result (λ summary. summary.total ≡ length self.now.shown.nacks) }
        ensures least { IfOk result (λ summary. summary.least ≡ least_pending self.now.shown.nacks) }
        ensures greatest { IfOk result (λ summary. summary.greatest ≡ greatest_pending self.now.shown.nacks) }
        ensures counts { IfOk result (λ summary. summary.counts.items
            ≡ counts_of self.now.shown.consumers self.now.shown.nacks) }
    {
        let total = self.pending.len() as u64;
        let counts = counts_for(alloc, self.consumers.as_slice(), &self.pending)?;
        Ok(Summary {
            total,
            least: self.pending.least_id(),
            greatest: self.pending.greatest_id(),
            counts,
        })
    }

    /// The pending entries from `start` to `end`, both included, that were not delivered for at least `least_idle`
    /// milliseconds, of this owner if one is named, at most `count` of them. Takes no memory.
    ///
    /// Source: Redis documentation, command XPENDING, "Extended form".
    pub fn listing<'a>(
        &'a self,
        start: Id,
        end: Id,
        count: u64,
        least_idle: u64,
        moment: u64,
        owner: Option<&'a Name>,
    ) -> Idle<'a>
        ensures { result ≡ take count (idle_for least_idle moment
            (owned_by_named (option_copied owner.entry) (pending_between start end self.now.shown.nacks))) }
    {
        let rest = self.pending.range(start, end, None, owner);
        Idle::new(rest, least_idle, moment, count)
    }

    /// The pending entries, and those of each consumer.
    pub fn pending(&self) -> &Pending
        ensures nacks { result.now.nacks ≡ self.now.shown.nacks }
        ensures rooms { result.now.rooms ≡ self.now.rooms }
    {
        &self.pending
    }

    /// When the consumer's pending entry that was delivered longest ago was delivered. None if it has none.
    pub fn oldest(&self, consumer: &Name) -> Option<u64>
        ensures { result ≡ oldest_of (owned_by consumer.now self.now.shown.nacks) }
    {
        least_time(self.pending.of(consumer))
    }

    /// When the consumer was seen last, in milliseconds since 1970. None if the group doesn't have it.
    ///
    /// Source: Redis documentation, command XINFO CONSUMERS.
    pub fn seen(&self, consumer: &Name) -> Option<u64>
        ensures { result ≡ option_map (λ found. found.seen) (consumer_with consumer.now self.now.shown.consumers) }
    {
        seen_by(self.consumers.as_slice(), consumer)
    }
}
