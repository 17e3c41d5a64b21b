ghost use Rattle.std.specs.Prelude.{◌≡◌, ◌≤◌, ◌↔◌, IsTrue, IsSome, IfSome};
ghost use Rattle.sr_transport.specs.Limits.{greatest_total};
ghost use Rattle.sr_transport.specs.Assignment.{IsAssignment, IsCheapest, total_of};
ghost use Rattle.sr_transport.specs.Solved.{IsBest, IsSolution, IsOptimal};

use crate::certificate::{check_prices, check_shortage, is_assignment};
use crate::given::give;
use crate::problem::{MAX_CONSUMERS, Problem};

/// An answer to a problem, with what shows it right.
#[derive(Drop)]
pub enum Solved {
    /// A cheapest assignment: entry i goes to `assign[i]`. There is a price for each tier, which together show it.
    Best {
        assign: Vec<usize>,
        prices: Vec<u64>,
        total: u64,
    },
    /// No assignment exists: there are too few places for these entries, which rise.
    Short {
        set: Vec<usize>,
    },
}

/// Whether an answer is right and shows it. It takes no memory.
pub fn check(problem: &Problem, solved: &Solved) -> bool
    ensures exact { IsTrue result ↔ IsSolution problem.now solved.now }
    ensures optimal { IsTrue result → IsOptimal problem.now solved.now }
{
    match solved {
        Solved::Best {
            assign,
            prices,
            total,
        } => is_best(problem, assign, prices, *total),
        Solved::Short { set } => check_shortage(problem, set),
    }
}

/// What an assignment costs, or `None` if the list is not one.
pub fn total(problem: &Problem, assign: &[usize]) -> Option<u64>
    ensures found { IsSome result ↔ IsAssignment problem.now assign.now }
    ensures total { IfSome result (λ total. total ≡ total_of problem.now assign.now) }
    ensures small { IfSome result (λ total. total ≤ greatest_total) }
{
    if !is_assignment(problem, assign) {
        return None;
    }
    Some(sum_of_charges(problem, assign))
}

/// Whether an assignment is one, with this total, and prices show it a cheapest one.
fn is_best(problem: &Problem, assign: &[usize], prices: &[u64], claimed: u64) -> bool
    ensures exact { IsTrue result ↔ IsBest problem.now assign.now prices.now claimed }
    ensures cheapest { IsTrue result → IsAssignment problem.now assign.now × IsCheapest problem.now assign.now }
{
    check_prices(problem, assign, prices) && total(problem, assign) == Some(claimed)
}

/// The sum of what each entry of an assignment is charged.
fn sum_of_charges(problem: &Problem, assign: &[usize]) -> u64
    requires { IsAssignment problem.now assign.now }
    ensures total { result ≡ total_of problem.now assign.now }
    ensures small { result ≤ greatest_total }
{
    problem.sound();
    let mut given = [0u64; MAX_CONSUMERS];
    let mut total = 0;
    for (entry, consumer) in assign.iter().enumerate() {
        let tier = problem.tier_for(*consumer, give(&mut given, *consumer));
        total += problem.charge(entry, tier).unwrap();
    }
    total
}
