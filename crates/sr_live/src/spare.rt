//! Places that a plan leaves free, since others go on working while it is made.
ghost use Rattle.std.specs.Prelude.{◌≡◌, IfOk, length, map};
ghost use Rattle.sr_live.specs.Bounds.{gap_at};
ghost use Rattle.sr_live.specs.Spare.{after_acks, in_64_bits, spared, spared_tier, worth_by, worth_of as worth};
ghost use Rattle.sr_live.specs.Words.{ids_to};

use crate::words::{list_of, next_prices};
use sr_bytes::Name;
use sr_ids::Id;
use sr_plan::{Prices, Verdict};
use sr_policy::Live;
use std::alloc::{AllocError, Global};

/// The consumers with limits that are lower by so many.
pub(crate) fn lowered(alloc: Global, live: &[Live], spare: u64) -> Result<Vec<Live>, AllocError>
    ensures { IfOk result (λ list. list.items ≡ map (spared spare) live.now) }
{
    let mut list = Vec::with_capacity(alloc, live.len())?;
    for consumer in live {
        list.push(lowered_one(alloc, consumer, spare)?)?;
    }
    Ok(list)
}

/// The consumer with a limit that is lower by so many.
fn lowered_one(alloc: Global, consumer: &Live, spare: u64) -> Result<Live, AllocError>
    ensures { IfOk result (λ one. one ≡ spared spare consumer.now) }
{
    let limit = consumer.limit.saturating_sub(spare);
    Ok(Live {
        name: consumer.name.copy(alloc)?,
        limit,
        pending: consumer.pending,
        tier: lowered_tier(consumer.tier, limit),
    })
}

/// The soft limit with its fee, at most at this limit.
fn lowered_tier(tier: Option<(u64, u64)>, limit: u64) -> Option<(u64, u64)>
    ensures { result ≡ spared_tier limit tier }
{
    match tier {
        Some((soft, fee)) => Some((soft.min(limit), fee)),
        None => None,
    }
}

/// What the free places are worth once a plan is carried out and each live consumer has acknowledged so many entries.
/// Nothing if they are none, and for a shortage.
pub(crate) fn worth_left(
    alloc: Global,
    verdict: &Verdict,
    live: &[Live],
    spare: u64,
) -> Result<u64, AllocError>
    ensures { IfOk result (λ n. n ≡ worth_by spare live.now verdict.now.snapshot verdict.now.answer) }
{
    if spare == 0 {
        return Ok(0);
    }
    let Some(prices) = verdict.prices() else {
        return Ok(0);
    };
    let Some(moves) = verdict.moves() else {
        return Ok(0);
    };
    let moves = list_of(alloc, moves)?;
    Ok(worth_of(moves.as_slice(), live, prices, spare))
}

/// What the free places are worth after these moves, at the prices of each consumer, once each has acknowledged so many
/// entries.
fn worth_of(moves: &[(Id, &Name)], live: &[Live], mut prices: Prices<'_>, acks: u64) -> u64
    ensures { result ≡ in_64_bits
        (worth acks (map (λ move. (move.0, move.1.now)) moves.now) live.now prices.entry) }
{
    let mut worth: u64 = 0;
    for consumer in live {
        let own = next_prices(&mut prices);
        let given = count_for(moves, &consumer.name);
        worth = worth.saturating_add(worth_at(consumer, given, own, acks));
    }
    worth
}

/// How many entries the consumer gets.
fn count_for(moves: &[(Id, &Name)], name: &Name) -> u64
    ensures { result ≡ length (ids_to (map (λ move. (move.0, move.1.now)) moves.now) name.now) }
{
    let mut count = 0;
    for one in moves {
        if *name == *one.1 {
            count += 1;
        }
    }
    count
}

/// What the free places of the consumer are worth once it has acknowledged so many entries, if it is given so many.
fn worth_at(consumer: &Live, given: u64, prices: &[u64], acks: u64) -> u64
    ensures { result ≡ in_64_bits (gap_at given prices.now (after_acks acks consumer.now)) }
{
    let pending = consumer.pending.saturating_sub(acks);
    let room = consumer.limit.saturating_sub(pending);
    let free = match consumer.tier {
        Some((soft, _fee)) => soft.saturating_sub(pending),
        None => room,
    };
    let free_load = given.min(free);
    let left = free.saturating_sub(free_load);
    let beyond = room
        .saturating_sub(free)
        .saturating_sub(given.saturating_sub(free_load));
    let first = prices.get(0).copied().unwrap_or(0).saturating_mul(left);
    let second = prices.get(1).copied().unwrap_or(0).saturating_mul(beyond);
    first.saturating_add(second)
}
