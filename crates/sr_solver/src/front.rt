//! What a search knows of the consumers, and where an entry that leaves one of them comes nearer than is known.
ghost use Rattle.std.specs.Prelude.{◌≡◌, ℕ, ◌+◌, ◌<◌, ◌≤◌, ◌^◌, length, IfOk, IfSome, IfNone, true, false};
ghost use Rattle.sr_solver.specs.Limits.{greatest_way, far, unbounded};
ghost use Rattle.sr_solver.specs.Exits.{IsExit, IsNearer, IsNoNearer, IsNearerAt, IsNoNearerAt, AreNoNearer, IsMoved};
ghost use Rattle.sr_solver.specs.Exits.{IsGuess, AreComparable};
ghost use Rattle.sr_transport.specs.{greatest_charge};

use crate::label::{FAR, Label};
use crate::set::ConsumerSet;
use crate::table::{ABOVE, Bound};
use std::alloc::{AllocError, Global};

/// Where a path may end.
#[derive(Clone, Copy)]
pub struct End {
    /// A consumer that has room.
    pub consumer: usize,
    /// The length of the path, with the fee of the place in which it ends, and less the price there.
    pub dist: u64,
}

/// What a search knows of the consumers.
#[derive(Drop)]
pub struct Front {
    /// The label of each consumer.
    pub labels: Vec<Label>,
    /// The consumers that wait: open ones that are reached, or of which there is a guess. One that is no nearer than
    /// the cutoff need not be among them.
    pub waiting: ConsumerSet,
    /// Where the shortest path ends that was found to a consumer with room, if there is one.
    pub cutoff: Option<End>,
    /// How many offers may still be made in this search before others are guessed.
    pub patience: usize,
}

/// The front of a search that has not begun.
pub fn fresh_front(alloc: Global, consumers: usize) -> Result<Front, AllocError>
    ensures { IfOk result (λ front. length front.labels.items ≡ consumers) }
{
    let labels = vec![in alloc; Label::none(); consumers]?;
    Ok(Front {
        labels,
        waiting: ConsumerSet::none(),
        cutoff: None,
        patience: 0,
    })
}

/// How entries leave a consumer in a search.
#[derive(Clone, Copy)]
pub struct Exit {
    /// The consumer that they leave.
    pub consumer: usize,
    /// The length of the way there.
    pub dist: u64,
    /// The price there, with `ABOVE` added.
    pub base: u64,
    /// An entry comes nearer than the cutoff if its bound, with the price where it goes, is below this.
    pub most: u64,
}

/// How entries leave a consumer of this price to which the way has this length.
pub fn exit_of(consumer: usize, dist: u64, price: u64, cutoff: Option<u64>) -> Exit
    requires dist { dist ≤ greatest_way }
    requires price { price ≤ greatest_way }
    requires cutoff { IfSome cutoff (λ d. (dist ≤ d) × (d ≤ greatest_way)) }
    ensures { IsExit consumer dist price cutoff result }
{
    let base = price + ABOVE;
    let most = match cutoff {
        Some(end) => end - dist + base,
        None => FAR,
    };
    Exit {
        consumer,
        dist,
        base,
        most,
    }
}

/// Whether an entry that leaves at this bound comes nearer to an open consumer with this price and this label than the
/// path that is known, and than the cutoff.
pub fn is_nearer(exit: Exit, low: u64, price: u64, label: Label) -> bool
    requires low { low ≤ unbounded }
    requires price { price ≤ greatest_way }
    requires dist { exit.dist ≤ greatest_way }
    requires base { exit.base ≤ greatest_way + greatest_charge }
    requires label { label.dist ≤ far }
    ensures yes { result ≡ true → IsNearer exit low price label }
    ensures no { result ≡ false → IsNoNearer exit low price label }
{
    low + price < exit.most && exit.dist + (low + price) < label.dist + exit.base && !label.closed
}

/// The same for a consumer, by what the table knows.
fn is_nearer_at(exit: Exit, other: usize, pairs: &[Bound], prices: &[u64], labels: &[Label]) -> bool
    requires comparable { AreComparable exit pairs.now prices.now labels.now }
    requires other { other < length prices.now }
    ensures yes { result ≡ true → IsNearerAt exit pairs.now prices.now labels.now other }
    ensures no { result ≡ false → IsNoNearerAt exit pairs.now prices.now labels.now other }
{
    let bound = pairs[exit.consumer * prices.len() + other];
    is_nearer(exit, bound.low, prices[other], labels[other])
}

/// The first consumer from `first` on to which an entry that leaves may come nearer, by what the table knows; `None` if
/// there is none.
///
/// Four are looked at in a row, as most come no nearer. It is not inlined: within its caller the loop is slower.
#[inline(never)]
pub fn next_nearer(
    exit: Exit,
    first: usize,
    pairs: &[Bound],
    prices: &[u64],
    labels: &[Label],
) -> Option<usize>
    requires { AreComparable exit pairs.now prices.now labels.now }
    ensures some { IfSome result (λ other. (first ≤ other) × (other < length prices.now)
        × AreNoNearer exit pairs.now prices.now labels.now first other
        × IsNearerAt exit pairs.now prices.now labels.now other) }
    ensures none { IfNone result
        (AreNoNearer exit pairs.now prices.now labels.now first (length prices.now)) }
{
    let mut other = first;
    let fours = prices.len().saturating_sub(3);
    while other < fours {
        if is_nearer_at(exit, other, pairs, prices, labels) {
            return Some(other);
        }
        if is_nearer_at(exit, other + 1, pairs, prices, labels) {
            return Some(other + 1);
        }
        if is_nearer_at(exit, other + 2, pairs, prices, labels) {
            return Some(other + 2);
        }
        if is_nearer_at(exit, other + 3, pairs, prices, labels) {
            return Some(other + 3);
        }
        other += 4;
    }
    while other < prices.len() {
        if is_nearer_at(exit, other, pairs, prices, labels) {
            return Some(other);
        }
        other += 1;
    }
    None
}

/// The label of a consumer of this price once the best of the entries that leave moves there, after `hops` others have
/// moved. What is guessed of others stays.
pub fn moved(exit: Exit, known: Bound, price: u64, hops: usize, guess: u64) -> Label
    requires low { known.low ≤ unbounded }
    requires price { price ≤ greatest_way }
    requires dist { exit.dist ≤ greatest_way }
    requires above { exit.base ≤ exit.dist + (known.low + price) }
    requires hops { hops < 2 ^ 32 }
    ensures { IsMoved exit known price hops guess result }
{
    Label {
        hops: hops + 1,
        dist: exit.dist + (known.low + price) - exit.base,
        mover: known.best,
        closed: false,
        guess,
    }
}

/// No entry that leaves comes nearer than this to a consumer of this price, where its bound is `low`. It is no nearer
/// than the consumer that they leave.
pub fn guessed(exit: Exit, low: u64, price: u64) -> u64
    requires low { low ≤ unbounded }
    requires price { price ≤ greatest_way }
    requires dist { exit.dist ≤ greatest_way }
    ensures { IsGuess exit low price result }
{
    if low + price < exit.base {
        return exit.dist;
    }
    exit.dist + (low + price - exit.base)
}
