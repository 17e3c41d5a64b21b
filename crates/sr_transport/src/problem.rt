ghost use Rattle.std.specs.Prelude.{◌≡◌, ◌<◌, ◌↔◌, length, IsTrue};
ghost use Rattle.sr_transport.specs.Problem.{IsWithinLimits, IsSmallTier};

use crate::tiers::{are_tiers, first_in};
use std::marker::Model;

/// How many consumers a problem has at most: `most_consumers` of `specs/Limits.antt`.
pub const MAX_CONSUMERS: usize = 64;

/// How many tiers a problem has at most: `most_tiers`.
pub const MAX_TIERS: usize = 128;

/// How many entries a problem has at most: `most_entries`.
pub const MAX_ENTRIES: usize = 4096;

/// The greatest cost of a pair: `greatest_cost`.
pub const MAX_COST: u64 = 1 << 40;

/// The greatest fee of a tier: `greatest_fee`.
pub const MAX_FEE: u64 = 1 << 40;

/// What an entry is charged at most: `greatest_charge`.
pub const MAX_CHARGE: u64 = MAX_COST + MAX_FEE;

/// The greatest room of a tier: `greatest_room`.
pub const MAX_ROOM: u64 = 1_000_000_000;

/// Room of a consumer, at a fee for each entry.
#[derive(Clone, Copy, PartialEq, Eq)]
pub struct Tier {
    /// The number of the consumer, from 0.
    pub consumer: usize,
    /// For how many entries it has room.
    pub room: u64,
    /// What each of them costs beside its own cost.
    pub fee: u64,
}

/// A transportation problem: for how many entries each consumer has room in its one or two tiers, and what each allowed
/// pair of an entry and a consumer costs.
///
/// Of the entries that a consumer gets, the first by number are in its first tier, which has no fee, and those beyond
/// its room in the second.
///
/// Source: the transportation problem of linear programming (F. L. Hitchcock, 1941), with piecewise linear costs.
#[derive(Drop)]
pub struct Problem {
    tiers: Vec<Tier>,
    consumers: usize,
    entries: usize,
    costs: Vec<Option<u64>>,
}

impl Model for Problem {
    ghost use Rattle.sr_transport.specs.Problem.{Tiered, IsWithinLimits};

    ghost Value = { Tiered };

    ghost view = { λ p. record {
      tiers = p.tiers.items;
      takers = p.consumers;
      entries = p.entries;
      costs = p.costs.items;
    } };

    ghost invariant = { λ p. IsWithinLimits p.tiers.items p.consumers p.entries p.costs.items };
}

impl Problem {
    ghost use Rattle.std.specs.Prelude.{◌≡◌, ℕ, ◌<◌, ◌↔◌, length, None, IsSome, IfSome, slice_index_or};
    ghost use Rattle.sr_transport.specs.Problem.{IsWithinLimits, consumers, cost_at, first_in, room_of};
    ghost use Rattle.sr_transport.specs.Assignment.{charge_at, tier_for};

    /// The problem of these tiers, of that many consumers and entries, and of these costs: a row for each entry, with a
    /// place for each consumer, `None` where the pair is not allowed.
    ///
    /// Each consumer has one or two tiers, one after the other, in the order of the consumers; the first has no fee.
    /// `None` where that is not so, or a length or a limit is broken.
    pub fn new(
        tiers: Vec<Tier>,
        consumers: usize,
        entries: usize,
        costs: Vec<Option<u64>>,
    ) -> Option<Problem>
        ensures within { IsSome result ↔ IsWithinLimits tiers.items consumers entries costs.items }
        ensures value { IfSome result (λ p.
            p ≡ record { tiers = tiers.items; takers = consumers; entries = entries; costs = costs.items }) }
    {
        if !is_within_limits(tiers.as_slice(), consumers, entries, costs.as_slice()) {
            return None;
        }
        Some(Problem {
            tiers,
            consumers,
            entries,
            costs,
        })
    }

    /// How many consumers there are.
    pub fn consumers(&self) -> usize
        ensures { result ≡ consumers self.now }
    {
        self.consumers
    }

    /// How many entries there are.
    pub fn entries(&self) -> usize
        ensures { result ≡ self.now.entries }
    {
        self.entries
    }

    /// The tiers of all consumers, in their order.
    pub fn tiers(&self) -> &[Tier]
        ensures { result.now ≡ self.now.tiers }
    {
        self.tiers.as_slice()
    }

    /// For how many entries a consumer has room, in all its tiers.
    pub fn room(&self, consumer: usize) -> u64
        requires { consumer < consumers self.now }
        ensures { result ≡ room_of self.now consumer }
    {
        self.sound();
        let mut room = 0;
        for tier in self.tiers() {
            if tier.consumer == consumer {
                room += tier.room;
            }
        }
        room
    }

    /// What an entry costs at a consumer, or `None` where the pair is not allowed.
    pub fn cost(&self, entry: usize, consumer: usize) -> Option<u64>
        requires entry { entry < self.now.entries }
        requires consumer { consumer < consumers self.now }
        ensures { result ≡ cost_at self.now entry consumer }
    {
        self.costs[entry * self.consumers + consumer]
    }

    /// What each entry costs at each consumer, row by entry, or `None` where the pair is not allowed.
    pub fn costs(&self) -> &[Option<u64>]
        ensures { result.now ≡ self.now.costs }
    {
        self.costs.as_slice()
    }

    /// What an entry is charged in a tier, its cost at the consumer and the fee, or `None` where the pair is not
    /// allowed.
    pub fn charge(&self, entry: usize, tier: usize) -> Option<u64>
        requires entry { entry < self.now.entries }
        requires tier { tier < length self.now.tiers }
        ensures { result ≡ charge_at self.now entry tier }
    {
        let place = self.tiers[tier];
        let cost = self.cost(entry, place.consumer)?;
        Some(cost + place.fee)
    }

    /// The number of a consumer's first tier.
    pub fn first_tier(&self, consumer: usize) -> usize
        requires { consumer < consumers self.now }
        ensures { result ≡ first_in self.now.tiers consumer }
    {
        first_in(self.tiers.as_slice(), consumer)
    }

    /// Law: the tiers are those of the consumers, and no limit is broken. Calling this has no effect.
    pub fn sound(&self)
        ensures { IsWithinLimits self.now.tiers self.now.takers self.now.entries self.now.costs }
    {
        let _ = &self.tiers;
    }

    /// The tier of an entry that a consumer gets after `others` of them.
    pub fn tier_for(&self, consumer: usize, others: u64) -> usize
        requires { consumer < consumers self.now }
        ensures { result ≡ tier_for self.now consumer others }
    {
        self.sound();
        let first = self.first_tier(consumer);
        if others < self.tiers()[first].room {
            first
        } else {
            first + 1
        }
    }
}

/// Whether the lengths fit, the tiers are those of consumers, and no limit is broken.
fn is_within_limits(tiers: &[Tier], consumers: usize, entries: usize, costs: &[Option<u64>]) -> bool
    ensures { IsTrue result ↔ IsWithinLimits tiers.now consumers entries costs.now }
{
    consumers <= MAX_CONSUMERS
        && tiers.len() <= MAX_TIERS
        && entries <= MAX_ENTRIES
        && are_tiers(tiers, consumers)
        && tiers.iter().all(|tier| is_small(*tier))
        && costs.len() == entries * consumers
        && costs.iter().all(|cost| cost.is_none_or(|c| c <= MAX_COST))
}

/// Whether the room and the fee of a tier are within the limits.
fn is_small(tier: Tier) -> bool
    ensures { IsTrue result ↔ IsSmallTier tier }
{
    tier.room <= MAX_ROOM && tier.fee <= MAX_FEE
}
