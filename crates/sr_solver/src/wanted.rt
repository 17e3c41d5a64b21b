//! Which consumer an entry wants at given prices. No clause mentions it: only the order of placement depends on it.
ghost use Rattle.std.specs.Prelude.{◌≡◌, ◌<◌, length, IfOk, IfSome};
ghost use Rattle.sr_transport.specs.{consumers};
ghost use Rattle.sr_solver.specs.Pairs.{AreBelow};

use crate::costs::Costs;
use crate::pairs::Row;
use std::alloc::{AllocError, Global};

/// How many entries want a consumer: cost and price are least for them there.
#[derive(Clone, Copy)]
pub struct Crowd {
    /// Alone or among others.
    pub all: u64,
    /// Alone, or among others and were given it.
    pub given: u64,
}

/// What entries want at some prices.
#[derive(Drop)]
pub struct Wishes {
    /// How many entries want each consumer.
    pub crowds: Vec<Crowd>,
    /// The consumer that an entry wants, if it is one alone.
    pub only: Vec<Option<usize>>,
}

/// It is better to give an entry a consumer that is not full than one that is full, whatever their prices.
const FREE: u64 = 1 << 61;

/// It is better still if all who want the consumer have room there.
const ROOMY: u64 = 1 << 62;

/// What the entries want, where none that wants several consumers is given one yet.
pub fn wishes_at(alloc: Global, problem: &Costs<'_>, prices: &[u64]) -> Result<Wishes, AllocError>
    requires one_each { length prices.now ≡ consumers problem.now }
    ensures { IfOk result (λ wishes. length wishes.crowds.items ≡ consumers problem.now) }
{
    let nobody = Crowd { all: 0, given: 0 };
    let mut crowds = vec![in alloc; nobody; problem.consumers()]?;
    let mut only = Vec::with_capacity(alloc, problem.entries())?;
    for entry in 0..problem.entries() {
        only.push(join_crowds(problem, prices, entry, &mut crowds))?;
    }
    Ok(Wishes { crowds, only })
}

/// Counts an entry at each consumer that it wants, and gives the one, if it is one alone.
fn join_crowds(
    problem: &Costs<'_>,
    prices: &[u64],
    entry: usize,
    crowds: &mut [Crowd],
) -> Option<usize>
    requires entry { entry < problem.now.entries }
    requires prices_each { length prices.now ≡ consumers problem.now }
    requires crowds_each { length crowds.old ≡ consumers problem.now }
    ensures { length crowds.new ≡ length crowds.old }
{
    let least = least_of(problem, prices, entry);
    if let Some(consumer) = least.only {
        let crowd = crowds[consumer];
        crowds[consumer] = Crowd {
            all: crowd.all.saturating_add(1),
            given: crowd.given.saturating_add(1),
        };
        return Some(consumer);
    }
    if let Some(row) = problem.row(entry) {
        join_crowds_in_row(row, prices, least.sum, crowds);
        return None;
    }
    for (consumer, cost) in problem.costs(entry).iter().enumerate() {
        if sum(*cost, prices[consumer]) == least.sum {
            crowds[consumer].all = crowds[consumer].all.saturating_add(1);
        }
    }
    None
}

/// Counts an entry at each consumer of its row for which cost and price have this sum.
fn join_crowds_in_row(row: Row<'_>, prices: &[u64], least: u64, crowds: &mut [Crowd])
    requires row { AreBelow (length prices.now) row.pairs.now }
    requires crowds_each { length crowds.old ≡ length prices.now }
    ensures { length crowds.new ≡ length crowds.old }
{
    for pair in row.pairs {
        if pair.cost.saturating_add(prices[pair.consumer]) == least {
            crowds[pair.consumer].all = crowds[pair.consumer].all.saturating_add(1);
        }
    }
}

/// The consumer that an entry wants, at the prices for which the wishes are. One of several is given to it.
pub fn wanted(
    problem: &Costs<'_>,
    prices: &[u64],
    wishes: &mut Wishes,
    entry: usize,
) -> Option<usize>
    requires entry { entry < problem.now.entries }
    requires prices_each { length prices.now ≡ consumers problem.now }
    requires crowds_each { length wishes.old.crowds.items ≡ consumers problem.now }
    ensures { length wishes.new.crowds.items ≡ length wishes.old.crowds.items }
{
    let only = wishes.only.get(entry).copied().unwrap_or(None);
    if only.is_some() {
        return only;
    }
    let best = best_of_several(problem, prices, &wishes.crowds, entry);
    if let Some(consumer) = best
        && let Some(crowd) = wishes.crowds.get_mut(consumer)
    {
        crowd.given = crowd.given.saturating_add(1);
    }
    best
}

/// Of the consumers that an entry wants, the one that it is best to give to it.
fn best_of_several(
    problem: &Costs<'_>,
    prices: &[u64],
    crowds: &[Crowd],
    entry: usize,
) -> Option<usize>
    requires entry { entry < problem.now.entries }
    requires prices_each { length prices.now ≡ consumers problem.now }
    requires crowds_each { length crowds.now ≡ consumers problem.now }
{
    if let Some(row) = problem.row(entry) {
        return best_in_row(problem, row, prices, crowds);
    }
    let least = least_of(problem, prices, entry).sum;
    let mut best = None;
    let mut most = 0;
    for (consumer, cost) in problem.costs(entry).iter().enumerate() {
        if cost.is_some() && sum(*cost, prices[consumer]) == least {
            let worth = worth(crowds[consumer], problem.room(consumer), prices[consumer]);
            if most < worth {
                best = Some(consumer);
                most = worth;
            }
        }
    }
    best
}

/// The same, from the row of the entry.
fn best_in_row(problem: &Costs<'_>, row: Row<'_>, prices: &[u64], crowds: &[Crowd]) -> Option<usize>
    requires row { AreBelow (consumers problem.now) row.pairs.now }
    requires prices_each { length prices.now ≡ consumers problem.now }
    requires crowds_each { length crowds.now ≡ consumers problem.now }
{
    let least = least_in_row(row, prices).sum;
    let mut best = None;
    let mut most = 0;
    for pair in row.pairs {
        let consumer = pair.consumer;
        if pair.cost.saturating_add(prices[consumer]) == least {
            let worth = worth(crowds[consumer], problem.room(consumer), prices[consumer]);
            if most < worth {
                best = Some(consumer);
                most = worth;
            }
        }
    }
    best
}

/// How good it is to give a consumer to an entry that wants it: the better the higher the price, or if it is full, the
/// lower.
fn worth(crowd: Crowd, room: u64, price: u64) -> u64 {
    if room <= crowd.given {
        FREE.saturating_sub(price)
    } else if crowd.all <= room {
        price.saturating_add(ROOMY)
    } else {
        price.saturating_add(FREE)
    }
}

/// The least sum of cost and price of an entry.
#[derive(Clone, Copy)]
struct Least {
    sum: u64,
    /// The consumer that has it, if it is one alone.
    only: Option<usize>,
}

/// The least sum of cost and price over the consumers of an entry.
fn least_of(problem: &Costs<'_>, prices: &[u64], entry: usize) -> Least
    requires entry { entry < problem.now.entries }
    requires one_each { length prices.now ≡ consumers problem.now }
    ensures { IfSome result.only (λ consumer. consumer < consumers problem.now) }
{
    if let Some(row) = problem.row(entry) {
        return least_in_row(row, prices);
    }
    let mut least = Least {
        sum: u64::MAX,
        only: None,
    };
    for (consumer, cost) in problem.costs(entry).iter().enumerate() {
        let sum = sum(*cost, prices[consumer]);
        if sum < least.sum {
            least = Least {
                sum,
                only: Some(consumer),
            };
        } else if sum == least.sum {
            least.only = None;
        }
    }
    least
}

/// The same, from the row of the entry.
fn least_in_row(row: Row<'_>, prices: &[u64]) -> Least
    requires { AreBelow (length prices.now) row.pairs.now }
    ensures { IfSome result.only (λ consumer. consumer < length prices.now) }
{
    let mut least = Least {
        sum: u64::MAX,
        only: None,
    };
    for pair in row.pairs {
        let sum = pair.cost.saturating_add(prices[pair.consumer]);
        if sum < least.sum {
            least = Least {
                sum,
                only: Some(pair.consumer),
            };
        } else if sum == least.sum {
            least.only = None;
        }
    }
    least
}

/// The sum of a cost and a price, the greatest number if the pair is not allowed.
fn sum(cost: Option<u64>, price: u64) -> u64 {
    cost.map_or(u64::MAX, |cost| cost.saturating_add(price))
}
