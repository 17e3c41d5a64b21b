//! A plan, read from a reply.
ghost use Rattle.std.specs.Prelude.{◌≡◌, ◌≢◌, ◌∷◌, ◌<◌, ◌^◌, ℕ, List, length, IfSome, IfNone, IfOk, IfErr};
ghost use Rattle.std.specs.Option.{option_to_list};
ghost use Rattle.sr_policy.specs.{AreInOrder};
ghost use Rattle.sr_policy.specs.Snapshot.{ComesBefore};
ghost use Rattle.sr_check.specs.PlanAnswer.{name_at};
ghost use Rattle.sr_check.specs.steps.Read.{HasMove, HasPrices, ArePrices, HasArray, IsPlanText};

use crate::Reason;
use crate::expect::{after_bulk, after_header, after_id, after_ids};
use crate::read::{bulk, integer};
use sr_policy::{Live, Snapshot, Stranded};
use std::alloc::{AllocError, Global};

/// A plan as it was read. Nothing of it has been judged.
#[derive(Drop)]
pub(crate) struct Plan {
    /// The number of the consumer that each stranded entry goes to.
    pub(crate) assign: Vec<usize>,
    /// The prices of the tiers of each live consumer.
    pub(crate) prices: Vec<u64>,
    /// What it claims to cost.
    pub(crate) total: u64,
}

/// The plan that some bytes are, after the word.
pub(crate) fn plan_of(
    alloc: Global,
    snapshot: &Snapshot,
    bytes: &[u8],
) -> Result<Result<Plan, Reason>, AllocError>
    ensures found { IfOk result (λ read. IfOk read (λ plan.
        IsPlanText snapshot.now bytes.now plan.assign.items plan.prices.items plan.total)) }
    ensures none { IfOk result (λ read. IfErr read (λ _. (assign prices : List ℕ) (total : ℕ)
        → IsPlanText snapshot.now bytes.now assign prices total → ⊥)) }
{
    snapshot.sound();
    let Some((total, moves)) = integer(bytes) else {
        return Ok(Err(Reason::Form));
    };
    let (assign, shares) = match moves_of(alloc, snapshot.stranded(), snapshot.live(), moves)? {
        Ok(read) => read,
        Err(reason) => return Ok(Err(reason)),
    };
    let (prices, gone) = match prices_of(alloc, snapshot.live(), shares)? {
        Ok(read) => read,
        Err(reason) => return Ok(Err(reason)),
    };
    let Some(left) = after_ids(gone, snapshot.gone()) else {
        return Ok(Err(Reason::Entries));
    };
    if !left.is_empty() {
        return Ok(Err(Reason::Form));
    }
    Ok(Ok(Plan {
        assign,
        prices,
        total,
    }))
}

/// The number of the consumer of each entry, from the array of moves at the front of some bytes, and the bytes after
/// it.
fn moves_of<'a>(
    alloc: Global,
    stranded: &[Stranded],
    live: &[Live],
    bytes: &'a [u8],
) -> Result<Result<(Vec<usize>, &'a [u8]), Reason>, AllocError>
    requires { AreInOrder (λ a b. ComesBefore a.name b.name) live.now }
    ensures found { IfOk result (λ read. IfOk read (λ found.
        HasArray (HasMove live.now) stranded.now bytes.now found.0.items found.1.now)) }
    ensures none { IfOk result (λ read. IfErr read (λ _. (assign after : List ℕ)
        → HasArray (HasMove live.now) stranded.now bytes.now assign after → ⊥)) }
{
    let Some(items) = after_header(bytes, stranded.len()) else {
        return Ok(Err(Reason::Entries));
    };
    let mut assign = Vec::with_capacity(alloc, stranded.len())?;
    let mut left = items;
    for entry in stranded {
        match first_move(entry, live, left) {
            Ok((consumer, after)) => {
                assign.push(consumer)?;
                left = after;
            }
            Err(reason) => return Ok(Err(reason)),
        }
    }
    Ok(Ok((assign, left)))
}

/// The number of the consumer of an entry, from the move at the front of some bytes, and the bytes after it.
fn first_move<'a>(
    entry: &Stranded,
    live: &[Live],
    bytes: &'a [u8],
) -> Result<(usize, &'a [u8]), Reason>
    ensures found { IfOk result (λ found. HasMove live.now entry.now bytes.now found.0 found.1.now) }
    ensures none { IfErr result (λ _. (c : ℕ) (after : List ℕ)
        → HasMove live.now entry.now bytes.now c after → ⊥) }
{
    let Some(id) = after_header(bytes, 2) else {
        return Err(Reason::Form);
    };
    let Some(name) = after_id(id, entry.id) else {
        return Err(Reason::Entries);
    };
    let Some((name, after)) = bulk(name) else {
        return Err(Reason::Form);
    };
    match consumer_of(live, name) {
        Some(consumer) => Ok((consumer, after)),
        None => Err(Reason::Consumers),
    }
}

/// The number of the first consumer with this name.
fn consumer_of(live: &[Live], name: &[u8]) -> Option<usize>
    ensures within { IfSome result (λ c. c < length live.now) }
    ensures found { IfSome result (λ c. name_at live.now c ≡ name.now) }
    ensures none { IfNone result ((c : ℕ) → c < length live.now → name_at live.now c ≢ name.now) }
{
    for (number, consumer) in live.iter().enumerate() {
        if consumer.name.as_slice() == name {
            return Some(number);
        }
    }
    None
}

/// The prices of each consumer's tiers, from the array of prices at the front of some bytes, and the bytes after it.
fn prices_of<'a>(
    alloc: Global,
    live: &[Live],
    bytes: &'a [u8],
) -> Result<Result<(Vec<u64>, &'a [u8]), Reason>, AllocError>
    ensures found { IfOk result (λ read. IfOk read (λ found. ArePrices live.now bytes.now found.0.items found.1.now)) }
    ensures none { IfOk result (λ read. IfErr read (λ _. (prices after : List ℕ)
        → ArePrices live.now bytes.now prices after → ⊥)) }
{
    let Some(items) = after_header(bytes, live.len()) else {
        return Ok(Err(Reason::Consumers));
    };
    let mut prices = Vec::with_capacity(alloc, live.len())?;
    let mut left = items;
    for consumer in live {
        let Some((price, next, after)) = first_prices(consumer, left) else {
            return Ok(Err(Reason::Consumers));
        };
        prices.push(price)?;
        if let Some(next) = next {
            prices.push(next)?;
        }
        left = after;
    }
    Ok(Ok((prices, left)))
}

/// The prices of a consumer, the second if it has two tiers, from the name and numbers at the front of some bytes, and
/// the bytes after them.
fn first_prices<'a>(consumer: &Live, bytes: &'a [u8]) -> Option<(u64, Option<u64>, &'a [u8])>
    ensures found { IfSome result (λ found.
        HasPrices consumer.now bytes.now (found.0 ∷ option_to_list found.1) found.2.now) }
    ensures none { IfNone result ((prices after : List ℕ) → HasPrices consumer.now bytes.now prices after → ⊥) }
{
    let name = after_header(bytes, consumer.tiers() + 1)?;
    let first = after_bulk(name, consumer.name.as_slice())?;
    let (price, second) = integer(first)?;
    if consumer.tier.is_none() {
        return Some((price, None, second));
    }
    let (next, after) = integer(second)?;
    Some((price, Some(next), after))
}
