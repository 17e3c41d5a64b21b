ghost use Rattle.std.specs.Prelude.{◌≡◌, ℕ, ◌+◌, ◌*◌, ◌^◌, ◌<◌, ◌≤◌, length, All, IfOk, IfSome};
ghost use Rattle.std.specs.List.Sorted.{IsPermutation};
ghost use Rattle.sr_transport.specs.{consumers};
ghost use Rattle.sr_transport.specs.Limits.{greatest_room};
ghost use Rattle.sr_solver.specs.Order.{IsOrder, IsPartOf};
ghost use Rattle.sr_solver.specs.Steps.{AreSteps};

use crate::costs::{Costs, Source};
use crate::order::by_stake;
use crate::solution::solve_in_order;
use crate::stepped::{Answer, Step, Stepped};
use crate::wanted::{Wishes, wanted, wishes_at};
use std::alloc::{AllocError, Global};

/// One entry out of this many is in the sample.
pub const BLOCK: usize = 8;

/// A smaller sample is not worth its time.
const FEW: usize = 64;

/// How often a sample is solved: each time without the entries that had too few places the time before.
const TRIES: usize = 4;

/// The entries in the order in which they are placed: first those that want a consumer with a high price.
///
/// The prices come from a sample, which is solved first. Which sample that is, and whether it has an answer, affects
/// the time alone.
pub fn placing_order(
    alloc: Global,
    source: &Source<'_>,
    steps: &[Step],
) -> Result<Vec<usize>, AllocError>
    requires { AreSteps source.now.rooms steps.now }
    ensures { IfOk result (λ order. IsOrder source.now.entries order.items) }
{
    let problem = Stepped {
        columns: source.whole(),
        steps,
    };
    let mut order = by_stake(alloc, &problem.columns)?;
    if order.len() < FEW * BLOCK {
        return Ok(order);
    }
    let sample = sample(alloc, &order)?;
    let Some(prices) = prices_of(alloc, source, &problem, sample)? else {
        return Ok(order);
    };
    by_price(alloc, &problem, &prices, &mut order)?;
    Ok(order)
}

/// One of each `BLOCK` entries in a row. Which one follows no period.
fn sample(alloc: Global, order: &[usize]) -> Result<Vec<usize>, AllocError>
    ensures below { IfOk result (λ sample. (n : ℕ) → All (λ entry. entry < n) order.now
        → All (λ entry. entry < n) sample.items) }
    ensures few { IfOk result (λ sample. length sample.items ≤ length order.now) }
{
    let mut sample = Vec::with_capacity(alloc, order.len() / BLOCK)?;
    for block in 0..order.len() / BLOCK {
        sample.push(order[place_in(block)])?;
    }
    Ok(sample)
}

/// The place that is picked in a block of `BLOCK` places.
pub fn place_in(block: usize) -> usize
    requires { block * 8 + 8 < 2 ^ 64 }
    ensures { result < block * 8 + 8 }
{
    block * BLOCK + mixed(block as u64) as usize % BLOCK
}

/// A number in which those that follow one another differ without a pattern.
fn mixed(number: u64) -> u64 {
    let spread = number.wrapping_mul(0x9E37_79B9_7F4A_7C15);
    (spread ^ (spread >> 32)).wrapping_mul(0xD6E8_FEB8_6659_FD93) >> 32
}

/// Sorts entries by falling price of the consumer that they want, less the fee of the place that would be left for them
/// there: so the entries that cannot have a place without a fee come when the price has risen to it.
fn by_price(
    alloc: Global,
    problem: &Stepped<'_>,
    prices: &[u64],
    order: &mut Vec<usize>,
) -> Result<(), AllocError>
    requires steps_each { length problem.now.steps.now ≡ consumers problem.now.columns }
    requires one_each { length prices.now ≡ consumers problem.now.columns }
    requires below { All (λ entry. entry < problem.now.columns.entries) order.old.items }
    ensures { IsPermutation order.old.items order.new.items }
{
    let mut wishes = wishes_at(alloc, &problem.columns, prices)?;
    let mut keys = vec![in alloc; 0u64; problem.columns.entries()]?;
    let mut loads = vec![in alloc; 0u64; problem.columns.consumers()]?;
    for entry in order.iter() {
        keys[*entry] = u64::MAX - claim(problem, prices, &mut wishes, *entry, &mut loads);
    }
    order.sort_by_key(|entry| keys.get(*entry).copied())
}

/// The price of the consumer that an entry wants, less the fee of the next place there, which the entry takes.
fn claim(
    problem: &Stepped<'_>,
    prices: &[u64],
    wishes: &mut Wishes,
    entry: usize,
    loads: &mut [u64],
) -> u64
    requires entry { entry < problem.now.columns.entries }
    requires steps_each { length problem.now.steps.now ≡ consumers problem.now.columns }
    requires prices_each { length prices.now ≡ consumers problem.now.columns }
    requires crowds_each { length wishes.old.crowds.items ≡ consumers problem.now.columns }
    requires loads_each { length loads.old ≡ consumers problem.now.columns }
    ensures crowds { length wishes.new.crowds.items ≡ length wishes.old.crowds.items }
    ensures loads { length loads.new ≡ length loads.old }
{
    let Some(consumer) = wanted(&problem.columns, prices, wishes, entry) else {
        return 0;
    };
    if prices.len() <= consumer {
        return 0;
    }
    let fee = problem.steps[consumer].fee_after(loads[consumer]);
    loads[consumer] = loads[consumer].saturating_add(1);
    prices[consumer].saturating_sub(fee)
}

/// The prices of a placement of these entries alone, with the rooms smaller in proportion.
fn prices_of(
    alloc: Global,
    source: &Source<'_>,
    problem: &Stepped<'_>,
    sample: Vec<usize>,
) -> Result<Option<Vec<u64>>, AllocError>
    requires source { problem.now.columns ≡ source.now }
    requires steps { AreSteps problem.now.columns.rooms problem.now.steps.now }
    requires part { IsPartOf source.now sample.items }
    ensures { IfOk result (λ found. IfSome found (λ prices. length prices.items ≡ consumers problem.now.columns)) }
{
    let rooms = smaller_rooms(alloc, &problem.columns, sample.len())?;
    let steps = smaller_steps(alloc, problem, &rooms)?;
    let mut sample = sample;
    for _ in 0..TRIES {
        // The source is lent again, as the rooms live shorter.
        let smaller = Stepped {
            columns: (&*source).picked(&rooms, &sample),
            steps: &steps,
        };
        match solve_in_order(alloc, &smaller)? {
            Answer::Placed { prices, .. } => {
                return Ok(Some(prices));
            }
            Answer::Short { set } => {
                sample = without(alloc, &sample, &set)?;
            }
        }
    }
    Ok(None)
}

/// The entries but for those at these places.
fn without(alloc: Global, entries: &[usize], places: &[usize]) -> Result<Vec<usize>, AllocError>
    ensures below { IfOk result (λ kept. (n : ℕ) → All (λ entry. entry < n) entries.now
        → All (λ entry. entry < n) kept.items) }
    ensures few { IfOk result (λ kept. length kept.items ≤ length entries.now) }
{
    let mut is_kept = vec![in alloc; true; entries.len()]?;
    for place in places {
        if let Some(kept) = is_kept.get_mut(*place) {
            *kept = false;
        }
    }
    let mut kept = Vec::new(alloc);
    for (place, entry) in entries.iter().enumerate() {
        if is_kept.get(place).copied().unwrap_or(false) {
            kept.push(*entry)?;
        }
    }
    Ok(kept)
}

/// The rooms for this many entries in place of all. Their sums are rounded, so that many small rooms do not grow.
fn smaller_rooms(alloc: Global, problem: &Costs<'_>, entries: usize) -> Result<Vec<u64>, AllocError>
    ensures one_each { IfOk result (λ rooms. length rooms.items ≡ consumers problem.now) }
    ensures small { IfOk result (λ rooms. All (λ room. room ≤ greatest_room) rooms.items) }
{
    let all = problem.entries().max(1) as u64;
    let mut rooms = Vec::with_capacity(alloc, problem.consumers())?;
    let mut places = 0u64;
    let mut given = 0u64;
    for consumer in 0..problem.consumers() {
        let room = problem.room(consumer);
        places = places.saturating_add(room);
        let share = places
            .saturating_mul(entries as u64)
            .saturating_add(all / 2)
            / all;
        rooms.push(share.saturating_sub(given).min(room))?;
        given = share;
    }
    Ok(rooms)
}

/// The steps in these smaller rooms: as many places are without a fee, in proportion.
fn smaller_steps(
    alloc: Global,
    problem: &Stepped<'_>,
    rooms: &[u64],
) -> Result<Vec<Step>, AllocError>
    requires steps { AreSteps problem.now.columns.rooms problem.now.steps.now }
    requires rooms { length rooms.now ≡ consumers problem.now.columns }
    ensures { IfOk result (λ steps. AreSteps rooms.now steps.items) }
{
    let mut steps = Vec::with_capacity(alloc, rooms.len())?;
    for consumer in 0..rooms.len() {
        let room = problem.columns.room(consumer);
        steps.push(smaller_step(problem.steps[consumer], room, rooms[consumer]))?;
    }
    Ok(steps)
}

/// A step of a room as one of a smaller room.
fn smaller_step(step: Step, room: u64, smaller: u64) -> Step
    ensures first { result.first ≤ smaller }
    ensures fee { result.fee ≡ step.fee }
{
    let first = step.first.saturating_mul(smaller).saturating_add(room / 2) / room.max(1);
    Step {
        first: first.min(smaller),
        fee: step.fee,
    }
}
