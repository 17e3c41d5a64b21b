ghost use Rattle.std.specs.Prelude.{◌≡◌, ℕ, ◌+◌, ◌<◌, ◌≤◌, ◌*◌, ◌↔◌, List, length, IsTrue, IsSome, All, EachIndex};
ghost use Rattle.std.specs.Prelude.{slice_index};
ghost use Rattle.std.specs.List.Sorted.{IsStrictlyIncreasing};
ghost use Rattle.sr_transport.specs.Limits.{most_tiers, greatest_room};
ghost use Rattle.sr_transport.specs.Problem.{consumers, room_of, tier_at, IsAllowed};
ghost use Rattle.sr_transport.specs.Assignment.{charge_at, load, tier_of, tiers_of, IsAssignment, IsCheapest};
ghost use Rattle.sr_transport.specs.Assignment.{HasNoAssignment};
ghost use Rattle.sr_transport.specs.Certificate.{IsLeast, ShowsCheapest, is_reached as is_reached_by, places_of};
ghost use Rattle.sr_transport.specs.Certificate.{IsShortage};

use crate::given::give;
use crate::problem::{MAX_CONSUMERS, Problem};

/// Whether `assign` is an assignment and `prices` show that no other costs less: entry i goes to consumer `assign[i]`,
/// and there is a price for each tier. Lists of another length are a no. It takes no memory.
pub fn check_prices(problem: &Problem, assign: &[usize], prices: &[u64]) -> bool
    ensures exact { IsTrue result
        ↔ (IsAssignment problem.now assign.now × ShowsCheapest problem.now assign.now prices.now) }
    ensures cheapest { IsTrue result → IsAssignment problem.now assign.now × IsCheapest problem.now assign.now }
{
    problem.sound();
    is_assignment(problem, assign) && shows_cheapest(problem, assign, prices)
}

/// Whether `set` names entries, rising, for which there are too few places. It takes no memory.
pub fn check_shortage(problem: &Problem, set: &[usize]) -> bool
    ensures exact { IsTrue result ↔ IsShortage problem.now set.now }
    ensures none { IsTrue result → HasNoAssignment problem.now }
{
    is_rising(set) && are_entries(problem, set) && places(problem, set) < set.len() as u64
}

/// For how many entries the consumers that the set reaches have room.
pub fn places(problem: &Problem, set: &[usize]) -> u64
    requires { All (λ i. i < problem.now.entries) set.now }
    ensures value { result ≡ places_of problem.now set.now }
    ensures small { result ≤ most_tiers * greatest_room }
{
    problem.sound();
    let mut places = 0;
    for consumer in 0..problem.consumers() {
        if is_reached(problem, set, consumer) {
            places += problem.room(consumer);
        }
    }
    places
}

/// Whether some entry of the set is allowed a consumer.
pub fn is_reached(problem: &Problem, set: &[usize], consumer: usize) -> bool
    requires entries { All (λ i. i < problem.now.entries) set.now }
    requires consumer { consumer < consumers problem.now }
    ensures { result ≡ is_reached_by problem.now set.now consumer }
{
    set.iter()
        .any(|entry| problem.cost(*entry, consumer).is_some())
}

/// Whether every entry goes to an allowed consumer, and no consumer gets more than its room.
pub(crate) fn is_assignment(problem: &Problem, assign: &[usize]) -> bool
    ensures { IsTrue result ↔ IsAssignment problem.now assign.now }
{
    assign.len() == problem.entries()
        && are_allowed(problem, assign)
        && are_in_room(problem, assign)
}

/// Whether each entry is allowed its consumer.
fn are_allowed(problem: &Problem, assign: &[usize]) -> bool
    requires { length assign.now ≡ problem.now.entries }
    ensures { IsTrue result ↔ EachIndex assign.now (λ i. IsAllowed problem.now i (slice_index assign.now i)) }
{
    assign
        .iter()
        .enumerate()
        .all(|(entry, consumer)| is_allowed(problem, entry, *consumer))
}

/// Whether an entry is allowed a consumer, which may be any number.
fn is_allowed(problem: &Problem, entry: usize, consumer: usize) -> bool
    requires { entry < problem.now.entries }
    ensures { IsTrue result ↔ IsAllowed problem.now entry consumer }
{
    consumer < problem.consumers() && problem.cost(entry, consumer).is_some()
}

/// Whether no consumer gets more entries than it has room for.
fn are_in_room(problem: &Problem, assign: &[usize]) -> bool
    ensures { IsTrue result ↔ ((c : ℕ) → c < consumers problem.now → load assign.now c ≤ room_of problem.now c) }
{
    for consumer in 0..problem.consumers() {
        if !is_in_room(problem, assign, consumer) {
            return false;
        }
    }
    true
}

/// Whether a consumer gets no more entries than it has room for.
fn is_in_room(problem: &Problem, assign: &[usize], consumer: usize) -> bool
    requires { consumer < consumers problem.now }
    ensures { IsTrue result ↔ (load assign.now consumer ≤ room_of problem.now consumer) }
{
    load_of(assign, consumer) <= problem.room(consumer)
}

/// How many entries go to a consumer.
fn load_of(assign: &[usize], consumer: usize) -> u64
    ensures { result ≡ load assign.now consumer }
{
    assign.iter().filter(|at| **at == consumer).count() as u64
}

/// Whether the prices show an assignment to be a cheapest one.
fn shows_cheapest(problem: &Problem, assign: &[usize], prices: &[u64]) -> bool
    requires { IsAssignment problem.now assign.now }
    ensures { IsTrue result ↔ ShowsCheapest problem.now assign.now prices.now }
{
    prices.len() == problem.tiers().len()
        && are_least(problem, assign, prices)
        && are_filled(problem, assign, prices)
}

/// Whether each entry is in a tier where the sum of charge and price is least.
fn are_least(problem: &Problem, assign: &[usize], prices: &[u64]) -> bool
    requires assignment { IsAssignment problem.now assign.now }
    requires prices { length prices.now ≡ length problem.now.tiers }
    ensures { IsTrue result
        ↔ EachIndex assign.now (λ i. IsLeast problem.now prices.now i (tier_of problem.now assign.now i)) }
{
    problem.sound();
    let mut given = [0u64; MAX_CONSUMERS];
    for (entry, consumer) in assign.iter().enumerate() {
        let tier = problem.tier_for(*consumer, give(&mut given, *consumer));
        if !is_least(problem, prices, entry, tier) {
            return false;
        }
    }
    true
}

/// Whether no tier that an entry is allowed has a smaller sum of charge and price than `tier`.
fn is_least(problem: &Problem, prices: &[u64], entry: usize, tier: usize) -> bool
    requires prices { length prices.now ≡ length problem.now.tiers }
    requires entry { entry < problem.now.entries }
    requires tier { tier < length problem.now.tiers }
    requires allowed { IsSome (charge_at problem.now entry tier) }
    ensures { IsTrue result ↔ IsLeast problem.now prices.now entry tier }
{
    let Some(charge) = problem.charge(entry, tier) else {
        return false;
    };
    let least = sum(charge, prices[tier]);
    (0..problem.tiers().len()).all(|other| {
        problem
            .charge(entry, other)
            .is_none_or(|charge| least <= sum(charge, prices[other]))
    })
}

/// The sum of a charge and a price, which may need more than 64 bits.
fn sum(charge: u64, price: u64) -> u128
    ensures { result ≡ charge + price }
{
    u128::from(charge) + u128::from(price)
}

/// Whether each tier with a price above 0 is filled to its room.
fn are_filled(problem: &Problem, assign: &[usize], prices: &[u64]) -> bool
    requires assignment { IsAssignment problem.now assign.now }
    requires prices { length prices.now ≡ length problem.now.tiers }
    ensures { IsTrue result ↔ ((t : ℕ) → t < length problem.now.tiers → 0 < slice_index prices.now t
        → load (tiers_of problem.now assign.now) t ≡ (tier_at problem.now.tiers t).room) }
{
    for tier in 0..problem.tiers().len() {
        if !is_filled(problem, assign, tier, prices[tier]) {
            return false;
        }
    }
    true
}

/// Whether a tier is filled to its room, or has the price 0.
fn is_filled(problem: &Problem, assign: &[usize], tier: usize, price: u64) -> bool
    requires assignment { IsAssignment problem.now assign.now }
    requires tier { tier < length problem.now.tiers }
    ensures { IsTrue result
        ↔ (0 < price → load (tiers_of problem.now assign.now) tier ≡ (tier_at problem.now.tiers tier).room) }
{
    price == 0 || tier_load(problem, assign, tier) == problem.tiers()[tier].room
}

/// How many entries are in a tier: of those that its consumer gets as many as the first tier has room for, or those
/// beyond.
fn tier_load(problem: &Problem, assign: &[usize], tier: usize) -> u64
    requires assignment { IsAssignment problem.now assign.now }
    requires tier { tier < length problem.now.tiers }
    ensures { result ≡ load (tiers_of problem.now assign.now) tier }
{
    problem.sound();
    let tiers = problem.tiers();
    let consumer = tiers[tier].consumer;
    let load = load_of(assign, consumer);
    let first = problem.first_tier(consumer);
    let in_first = load.min(tiers[first].room);
    if tier == first {
        in_first
    } else {
        load - in_first
    }
}

/// Whether each number is below the next.
fn is_rising(set: &[usize]) -> bool
    ensures { IsTrue result ↔ IsStrictlyIncreasing set.now }
{
    set.windows(2).all(|pair| pair[0] < pair[1])
}

/// Whether each number is an entry.
fn are_entries(problem: &Problem, set: &[usize]) -> bool
    ensures { IsTrue result ↔ All (λ i. i < problem.now.entries) set.now }
{
    set.iter().all(|entry| *entry < problem.entries())
}
