//! Problems with tiers, solved over consumers: what a consumer costs rises by a step, where its second tier begins.
ghost use Rattle.std.specs.Prelude.{◌≡◌, ℕ, ◌^◌, ◌+◌, ◌<◌, ◌≤◌, length, slice_index, slice_set, IfOk};
ghost use Rattle.sr_transport.specs.Limits.{greatest_total};
ghost use Rattle.sr_transport.specs.Problem.{consumers, tier_at};
ghost use Rattle.sr_transport.specs.Assignment.{IsAssignment, total_of};
ghost use Rattle.sr_transport.specs.Solved.{IsSolution, IsOptimal, HasSmallPrices};
ghost use Rattle.sr_solver.specs.ByConsumer.{AreRoomsOf, IsStepOf, AreStepsOf, IsAnswerOf, AreByTier};

use crate::costs::Source;
use crate::solution::solve_stepped;
use crate::stepped::{Answer, Step};
use sr_transport::{Problem, Solved, Tier};
use std::alloc::{AllocError, Global};

/// The greatest room that a consumer has here. It is more than there are entries, so no assignment needs more.
const MAX_ROOM: u64 = 1_000_000_000;

/// How many consumers a problem has at most.
const MAX_CONSUMERS: usize = 64;

/// Solves a transportation problem: gives a cheapest assignment with prices that show it, or entries for which there
/// are too few places.
///
/// It is solved with one room for each consumer, in which the places beyond the first tier cost the fee, and with one
/// price for each. The price of a second tier is what is left of it after the fee.
pub fn solve(alloc: Global, problem: &Problem) -> Result<Solved, AllocError>
    ensures solution { IfOk result (IsSolution problem.now) }
    ensures optimal { IfOk result (IsOptimal problem.now) }
    ensures prices { IfOk result HasSmallPrices }
{
    problem.sound();
    let rooms = rooms(alloc, problem)?;
    let steps = steps(alloc, problem)?;
    let source = Source::new(&rooms, problem.entries(), problem.costs());
    let answer = solve_stepped(alloc, source, &steps)?;
    solved(alloc, problem, &steps, answer)
}

/// The room of each consumer.
fn rooms(alloc: Global, problem: &Problem) -> Result<Vec<u64>, AllocError>
    ensures { IfOk result (λ rooms. AreRoomsOf problem.now rooms.items) }
{
    let mut rooms = Vec::with_capacity(alloc, problem.consumers())?;
    for consumer in 0..problem.consumers() {
        rooms.push(problem.room(consumer).min(MAX_ROOM))?;
    }
    Ok(rooms)
}

/// The step of each consumer.
fn steps(alloc: Global, problem: &Problem) -> Result<Vec<Step>, AllocError>
    ensures { IfOk result (λ steps. AreStepsOf problem.now steps.items) }
{
    let mut steps = Vec::with_capacity(alloc, problem.consumers())?;
    for consumer in 0..problem.consumers() {
        steps.push(step_of(problem, consumer))?;
    }
    Ok(steps)
}

/// The step of a consumer: its first tier is without a fee, and its second one, if it has one, at a fee.
fn step_of(problem: &Problem, consumer: usize) -> Step
    requires { consumer < consumers problem.now }
    ensures { IsStepOf problem.now.tiers consumer result }
{
    problem.sound();
    let tiers = problem.tiers();
    let first = problem.first_tier(consumer);
    Step {
        first: tiers[first].room,
        fee: fee_of(tiers, first + 1, consumer),
    }
}

/// The fee of the tier with this number, if it is one of the consumer.
fn fee_of(tiers: &[Tier], tier: usize, consumer: usize) -> u64
    ensures own { (tier_at tiers.now tier).consumer ≡ consumer → result ≡ (tier_at tiers.now tier).fee }
    ensures small { result ≤ (tier_at tiers.now tier).fee }
{
    if tier < tiers.len() && tiers[tier].consumer == consumer {
        return tiers[tier].fee;
    }
    0
}

/// An answer by consumer as one of the problem: with a price for each tier, and the total with the fees.
fn solved(
    alloc: Global,
    problem: &Problem,
    steps: &[Step],
    answer: Answer,
) -> Result<Solved, AllocError>
    requires steps { AreStepsOf problem.now steps.now }
    requires answer { IsAnswerOf problem.now steps.now answer }
    ensures solution { IfOk result (IsSolution problem.now) }
    ensures optimal { IfOk result (IsOptimal problem.now) }
    ensures prices { IfOk result HasSmallPrices }
{
    problem.sound();
    match answer {
        Answer::Placed { assign, prices } => {
            let total = total(problem, steps, &assign);
            let prices = by_tier(alloc, problem.tiers(), &prices)?;
            Ok(Solved::Best {
                assign,
                prices,
                total,
            })
        }
        Answer::Short { set } => Ok(Solved::Short { set }),
    }
}

/// The price of each tier: that of its consumer less the fee.
fn by_tier(alloc: Global, tiers: &[Tier], prices: &[u64]) -> Result<Vec<u64>, AllocError>
    requires { (t : ℕ) → t < length tiers.now → (tier_at tiers.now t).consumer < length prices.now }
    ensures { IfOk result (λ by_tier. AreByTier tiers.now prices.now by_tier.items) }
{
    let mut by_tier = Vec::with_capacity(alloc, tiers.len())?;
    for tier in tiers {
        by_tier.push(prices[tier.consumer].saturating_sub(tier.fee))?;
    }
    Ok(by_tier)
}

/// The sum of the costs and fees of an assignment. Unlike `total` of sr_transport it need not see that it is one.
fn total(problem: &Problem, steps: &[Step], assign: &[usize]) -> u64
    requires steps { AreStepsOf problem.now steps.now }
    requires assignment { IsAssignment problem.now assign.now }
    ensures total { result ≡ total_of problem.now assign.now }
    ensures small { result ≤ greatest_total }
{
    problem.sound();
    let mut given = [0u64; MAX_CONSUMERS];
    let mut total = 0;
    for (entry, consumer) in assign.iter().enumerate() {
        let fee = steps[*consumer].fee_after(give(&mut given, *consumer));
        total += problem.cost(entry, *consumer).unwrap() + fee;
    }
    total
}

/// Gives a consumer one more entry, and answers how many it had.
fn give(given: &mut [u64], consumer: usize) -> u64
    requires within { consumer < length given.old }
    requires few { slice_index given.old consumer < 2 ^ 63 }
    ensures had { result ≡ slice_index given.old consumer }
    ensures more { given.new ≡ slice_set given.old consumer (slice_index given.old consumer + 1) }
{
    let had = given[consumer];
    given[consumer] = had + 1;
    had
}
