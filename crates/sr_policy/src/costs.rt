ghost use Rattle.std.specs.Prelude.{◌≡◌, ◌++◌, ◌*◌, ◌≤◌, ◌^◌, IfOk, OnOk, All, IfSome, None, option_map, map};
ghost use Rattle.std.specs.List.{flat_map};
ghost use Rattle.sr_transport.specs.Problem.{IsWithinLimits};
ghost use Rattle.sr_policy.specs.Snapshot.{IsTier, IsWeight};
ghost use Rattle.sr_policy.specs.Problem.{costs_at, costs_of as costs_in, problem_of, tiers_at, tiers_from};

use crate::live::Live;
use crate::numbers::found;
use crate::snapshot::Snapshot;
use crate::stranded::Stranded;
use sr_transport::{Problem, Tier};
use std::alloc::{AllocError, Global};

/// The transportation problem of a snapshot: who could take its stranded entries, and at what cost.
#[tactic(auto, using(crate::proofs::ProblemLemmas::problem_within))]
pub fn problem(alloc: Global, snapshot: &Snapshot) -> Result<Problem, AllocError>
    ensures ok { IfOk result (λ problem. problem ≡ problem_of snapshot.now) }
    ensures within { IfOk result (λ problem.
        IsWithinLimits problem.tiers problem.takers problem.entries problem.costs) }
{
    snapshot.sound();
    let consumers = snapshot.live().len();
    let tiers = tiers_of(alloc, snapshot.live())?;
    let costs = costs_of(alloc, snapshot)?;
    match Problem::new(tiers, consumers, snapshot.stranded().len(), costs) {
        Some(problem) => Ok(problem),
        None => unreachable!("a snapshot is within the limits of a problem"),
    }
}

/// The tiers of all consumers.
fn tiers_of(alloc: Global, live: &[Live]) -> Result<Vec<Tier>, AllocError>
    requires { All (λ consumer. IfSome consumer.tier (IsTier consumer.limit)) live.now }
    ensures { IfOk result (λ tiers. tiers.items ≡ tiers_from 0 live.now) }
{
    let mut tiers = Vec::with_capacity(alloc, live.len())?;
    for (number, consumer) in live.iter().enumerate() {
        add_tiers(&mut tiers, number, consumer)?;
    }
    Ok(tiers)
}

/// Adds the tiers of the consumer with this number: what is free, and what is beyond its soft limit if it has one.
fn add_tiers(tiers: &mut Vec<Tier>, number: usize, consumer: &Live) -> Result<(), AllocError>
    requires { IfSome consumer.now.tier (IsTier consumer.now.limit) }
    ensures { OnOk result (tiers.new.items ≡ tiers.old.items ++ tiers_at number consumer.now) }
{
    let free = consumer.free_room();
    tiers.push(Tier {
        consumer: number,
        room: free,
        fee: 0,
    })?;
    if let Some((_soft, fee)) = consumer.tier {
        tiers.push(Tier {
            consumer: number,
            room: consumer.room() - free,
            fee,
        })?;
    }
    Ok(())
}

/// What each stranded entry costs at each consumer, row by entry.
fn costs_of(alloc: Global, snapshot: &Snapshot) -> Result<Vec<Option<u64>>, AllocError>
    ensures { IfOk result (λ costs. costs.items ≡ flat_map (costs_in snapshot.now) snapshot.now.stranded) }
{
    snapshot.sound();
    let entries = snapshot.stranded();
    let mut costs = Vec::new(alloc);
    for entry in entries {
        add_row(&mut costs, snapshot, entry)?;
    }
    Ok(costs)
}

/// Adds what an entry costs at each consumer.
fn add_row(
    costs: &mut Vec<Option<u64>>,
    snapshot: &Snapshot,
    entry: &Stranded,
) -> Result<(), AllocError>
    requires { IsWeight entry.now.weight }
    ensures { OnOk result (costs.new.items ≡ costs.old.items ++ costs_in snapshot.now entry.now) }
{
    snapshot.sound();
    match found(snapshot.rates(), &entry.class) {
        Some(rates) => add_costs(costs, rates.as_slice(), entry.weight),
        None => add_none(costs, snapshot.live()),
    }
}

/// Adds what an entry of this weight costs at consumers with these rates.
fn add_costs(
    costs: &mut Vec<Option<u64>>,
    rates: &[Option<u64>],
    weight: u64,
) -> Result<(), AllocError>
    requires rates { All (λ rate. IfSome rate (λ n. n ≤ 2 ^ 20)) rates.now }
    requires weight { weight ≤ 2 ^ 20 }
    ensures { OnOk result (costs.new.items ≡ costs.old.items ++ costs_at weight rates.now) }
{
    for rate in rates {
        costs.push(cost_of(*rate, weight))?;
    }
    Ok(())
}

/// Rate times weight, or `None` without a rate.
fn cost_of(rate: Option<u64>, weight: u64) -> Option<u64>
    requires rate { IfSome rate (λ n. n ≤ 2 ^ 20) }
    requires weight { weight ≤ 2 ^ 20 }
    ensures { result ≡ option_map (λ n. n * weight) rate }
{
    match rate {
        Some(rate) => Some(priced(rate, weight)),
        None => None,
    }
}

/// Rate times weight.
#[tactic(auto, using(crate::proofs::ProblemLemmas::cost_small))]
fn priced(rate: u64, weight: u64) -> u64
    requires rate { rate ≤ 2 ^ 20 }
    requires weight { weight ≤ 2 ^ 20 }
    ensures { result ≡ rate * weight }
{
    rate * weight
}

/// Adds a place without a cost for each consumer: the entry is allowed none.
fn add_none(costs: &mut Vec<Option<u64>>, live: &[Live]) -> Result<(), AllocError>
    ensures { OnOk result (costs.new.items ≡ costs.old.items ++ map (λ _. None) live.now) }
{
    for _consumer in live {
        costs.push(None)?;
    }
    Ok(())
}
