ghost use Rattle.std.specs.Prelude.{◌≡◌, ℕ, ◌<◌, ◌≤◌, length, slice_index, nat_lt, IfSome, IfNone};
ghost use Rattle.sr_transport.specs.{greatest_charge, consumers};
ghost use Rattle.sr_solver.specs.Limits.{greatest_way};
ghost use Rattle.sr_solver.specs.Pairs.{IsRowOf};
ghost use Rattle.sr_solver.specs.Taker.{IsTaker, IsCompared};

use crate::pairs::Row;
use crate::stepped::Stepped;

/// The cheapest of the consumers that were looked at.
#[derive(Clone, Copy)]
pub struct Cheapest {
    /// The least sum of cost and price.
    pub sum: u64,
    /// A consumer with this sum that has a place which costs its price, if there is one.
    pub free: Option<usize>,
}

/// A consumer where the sum of cost and price is least for an entry, and that has a place which costs its price; `None`
/// if none with the least sum has one.
pub fn taker(problem: &Stepped<'_>, entry: usize, prices: &[u64], loads: &[u64]) -> Option<usize>
    requires entry { entry < problem.now.columns.entries }
    requires steps_each { length problem.now.steps.now ≡ consumers problem.now.columns }
    requires prices_each { length prices.now ≡ consumers problem.now.columns }
    requires loads_each { length loads.now ≡ consumers problem.now.columns }
    requires low { (c : ℕ) → c < consumers problem.now.columns → slice_index prices.now c ≤ greatest_way }
    ensures some { IfSome result (IsTaker problem.now.columns problem.now.steps.now prices.now loads.now entry) }
    ensures none { IfNone result
        ((c : ℕ) → IsTaker problem.now.columns problem.now.steps.now prices.now loads.now entry c → ⊥) }
{
    if let Some(row) = problem.columns.row(entry) {
        return taker_in_row(problem, row, prices, loads);
    }
    let mut cheapest = Cheapest {
        sum: u64::MAX,
        free: None,
    };
    for (consumer, cost) in problem.columns.costs(entry).iter().enumerate() {
        if cost.is_some() {
            let is_vacant = problem.is_vacant(consumer, loads[consumer], prices[consumer]);
            cheapest = compared(cheapest, consumer, *cost, prices[consumer], is_vacant);
        }
    }
    cheapest.free
}

/// The same for an entry of which the allowed consumers are known.
fn taker_in_row(problem: &Stepped<'_>, row: Row<'_>, prices: &[u64], loads: &[u64]) -> Option<usize>
    requires entry { row.number < problem.now.columns.entries }
    requires row { IsRowOf problem.now.columns row.number row.pairs.now }
    requires steps_each { length problem.now.steps.now ≡ consumers problem.now.columns }
    requires prices_each { length prices.now ≡ consumers problem.now.columns }
    requires loads_each { length loads.now ≡ consumers problem.now.columns }
    requires low { (c : ℕ) → c < consumers problem.now.columns → slice_index prices.now c ≤ greatest_way }
    ensures some { IfSome result
        (IsTaker problem.now.columns problem.now.steps.now prices.now loads.now row.entry.number) }
    ensures none { IfNone result
        ((c : ℕ) → IsTaker problem.now.columns problem.now.steps.now prices.now loads.now row.entry.number c → ⊥) }
{
    let mut cheapest = Cheapest {
        sum: u64::MAX,
        free: None,
    };
    // A problem keeps its limits, so no sum is too large.
    problem.columns.consumers();
    for pair in row.pairs {
        let consumer = pair.consumer;
        let price = prices[consumer];
        let is_vacant = problem.is_vacant(consumer, loads[consumer], price);
        cheapest = compared(cheapest, consumer, Some(pair.cost), price, is_vacant);
    }
    cheapest.free
}

/// What is known after one more consumer, where the entry has this cost and this price.
fn compared(
    cheapest: Cheapest,
    consumer: usize,
    cost: Option<u64>,
    price: u64,
    is_vacant: bool,
) -> Cheapest
    requires cost { IfSome cost (λ c. c ≤ greatest_charge) }
    requires price { price ≤ greatest_way }
    ensures { IsCompared consumer cost price is_vacant cheapest result }
{
    let Some(cost) = cost else {
        return cheapest;
    };
    let sum = cost + price;
    if cheapest.sum < sum {
        return cheapest;
    }
    if is_vacant {
        return Cheapest {
            sum,
            free: Some(consumer),
        };
    }
    if cheapest.sum == sum {
        return cheapest;
    }
    Cheapest { sum, free: None }
}
