//! The costs of a problem, with the allowed pairs alone beside them if they are few; and those of some of its entries
//! in another order, which are not copied.
ghost use Rattle.std.specs.Prelude.{◌≡◌, ℕ, ◌<◌, ◌≤◌, length, take, IfOk, IfSome};
ghost use Rattle.std.specs.Option.{option_copied};
ghost use Rattle.sr_transport.specs.{consumers};
ghost use Rattle.sr_transport.specs.Limits.{most_consumers};
ghost use Rattle.sr_transport.specs.plain.Problem.{IsWithinLimits};
ghost use Rattle.sr_solver.specs.Order.{entry_at};
ghost use Rattle.sr_solver.specs.Pairs.{pair_at, IsRowOf, IsRowBelow, AreBelow, ArePairsOf};
ghost use Rattle.sr_solver.specs.Sets.{IsIn};

use crate::pairs::{Pair, Row};
use crate::sample::{BLOCK, place_in};
use crate::set::{ConsumerSet, MAX_CONSUMERS};
use std::alloc::{AllocError, Global};
use std::marker::Model;

/// Pairs are few if entries are allowed no more consumers than this, on average.
const SPARSE: usize = 16;

/// Room is made for this many pairs of each entry.
const PAIRS_EACH: usize = 8;

/// The allowed pairs of each entry.
#[derive(Drop)]
struct Pairs {
    /// Where the row of each entry begins, and one more: where the last one ends.
    starts: Vec<usize>,
    /// The rows, one after another.
    pairs: Vec<Pair>,
    /// The allowed consumers of each entry.
    sets: Vec<ConsumerSet>,
}

/// All the costs of a problem, with the allowed pairs alone beside them if they are few.
#[derive(Drop)]
pub struct Source<'a> {
    /// The room of each consumer.
    rooms: &'a [u64],
    /// How many entries there are.
    entries: usize,
    /// What each entry costs at each consumer, row by entry.
    costs: &'a [Option<u64>],
    /// The allowed pairs, if they are few.
    pairs: Option<Pairs>,
}

impl<'a> Model for Source<'a> {
    ghost use Rattle.std.specs.Prelude.{None};
    ghost use Rattle.sr_transport.specs.plain.Problem.{Transport};
    ghost use Rattle.sr_solver.specs.Pairs.{AreCosts};

    ghost Value = { Transport };

    ghost view = { λ p. record { rooms = p.rooms.now; entries = p.entries; costs = p.costs.now } };

    ghost invariant = { λ p.
        AreCosts (record { rooms = p.rooms.now; entries = p.entries; costs = p.costs.now }) p.entries None p.pairs };
}

impl<'a> Source<'a> {
    ghost use Rattle.std.specs.Prelude.{◌≡◌, IfOk};
    ghost use Rattle.sr_transport.specs.plain.Problem.{IsWithinLimits};
    ghost use Rattle.sr_solver.specs.Order.{picked, IsPick};

    /// The problem of these rooms, of `entries` entries, and of these costs: a row for each entry, with a place for
    /// each consumer, `None` where the pair is not allowed.
    pub fn new(rooms: &'a [u64], entries: usize, costs: &'a [Option<u64>]) -> Source<'a>
        requires { IsWithinLimits rooms.now entries costs.now }
        ensures { result ≡ record { rooms = rooms.now; entries = entries; costs = costs.now } }
    {
        Source {
            rooms,
            entries,
            costs,
            pairs: None,
        }
    }

    /// The same problem, with its allowed pairs alone if they are few.
    pub fn with_pairs(self, alloc: Global) -> Result<Source<'a>, AllocError>
        ensures { IfOk result (λ source. source ≡ self.entry) }
    {
        if MAX_CONSUMERS < self.rooms.len() || !is_sparse(&self.whole()) {
            return Ok(self);
        }
        let pairs = pairs_of(alloc, &self.whole())?;
        Ok(Source {
            rooms: self.rooms,
            entries: self.entries,
            costs: self.costs,
            pairs: Some(pairs),
        })
    }

    /// The costs of all entries, in their order.
    pub fn whole(&self) -> Costs<'_>
        ensures value { result ≡ self.now }
        ensures limits { IsWithinLimits self.now.rooms self.now.entries self.now.costs }
    {
        Costs {
            rooms: self.rooms,
            entries: self.entries,
            all: self.entries,
            costs: self.costs,
            order: None,
            pairs: self.pairs.as_ref(),
        }
    }

    /// The costs of these entries, in this order, with these rooms.
    pub fn picked<'s>(&'s self, rooms: &'s [u64], order: &'s [usize]) -> Costs<'s>
        requires { IsPick self.now rooms.now order.now }
        ensures { result ≡ picked self.now rooms.now order.now }
    {
        Costs {
            rooms,
            entries: order.len(),
            all: self.entries,
            costs: self.costs,
            order: Some(order),
            pairs: self.pairs.as_ref(),
        }
    }
}

/// The costs of the entries of a problem, or of some of them in an order of their own, with the allowed pairs alone
/// beside them if they are few.
#[derive(Drop)]
pub struct Costs<'a> {
    /// The room of each consumer.
    rooms: &'a [u64],
    /// How many entries there are.
    entries: usize,
    /// How many entries the problem has.
    all: usize,
    /// What each of them costs at each consumer, row by entry.
    costs: &'a [Option<u64>],
    /// The entries, if they are not all of the problem in its order.
    order: Option<&'a [usize]>,
    /// The allowed pairs of all entries of the problem, if they are few.
    pairs: Option<&'a Pairs>,
}

impl<'a> Model for Costs<'a> {
    ghost use Rattle.std.specs.Option.{option_copied};
    ghost use Rattle.sr_transport.specs.plain.Problem.{Transport};
    ghost use Rattle.sr_solver.specs.Order.{shown};
    ghost use Rattle.sr_solver.specs.Pairs.{AreCosts};

    ghost Value = { Transport };

    ghost view = { λ p. shown
        (record { rooms = p.rooms.now; entries = p.all; costs = p.costs.now }) (option_copied p.order) };

    ghost invariant = { λ p. AreCosts (record { rooms = p.rooms.now; entries = p.all; costs = p.costs.now }) p.entries
        (option_copied p.order) (option_copied p.pairs) };
}

impl<'a> Costs<'a> {
    ghost use Rattle.std.specs.Prelude.{◌≡◌, ℕ, ◌<◌, length, None, IfOk, IfSome, false, slice_index, slice_index_or};
    ghost use Rattle.sr_transport.specs.plain.Problem.{IsWithinLimits, consumers, cost_at, IsAllowed};
    ghost use Rattle.sr_solver.specs.Pairs.{IsRowOf, AreSetsOf};

    /// Whether the allowed pairs are kept.
    pub fn is_sparse(&self) -> bool {
        self.pairs.is_some()
    }

    /// For each entry the consumers that it is allowed, if the pairs are kept and the entries are in their order.
    pub fn sets(&self) -> Option<&'a [ConsumerSet]>
        ensures { IfSome result (λ sets. AreSetsOf self.now sets.now) }
    {
        let Some(kept) = self.pairs else {
            return None;
        };
        match self.order {
            Some(_) => None,
            None => Some(&kept.sets),
        }
    }

    /// How many consumers there are.
    pub fn consumers(&self) -> usize
        ensures count { result ≡ consumers self.now }
        ensures limits { IsWithinLimits self.now.rooms self.now.entries self.now.costs }
    {
        self.rooms.len()
    }

    /// How many entries there are.
    pub fn entries(&self) -> usize
        ensures { result ≡ self.now.entries }
    {
        self.entries
    }

    /// The room of each consumer.
    pub fn rooms(&self) -> &'a [u64]
        ensures { result.now ≡ self.now.rooms }
    {
        self.rooms
    }

    /// For how many entries a consumer has room.
    pub fn room(&self, consumer: usize) -> u64
        requires { consumer < consumers self.now }
        ensures { result ≡ slice_index self.now.rooms consumer }
    {
        self.rooms()[consumer]
    }

    /// What an entry costs at a consumer, or `None` where the pair is not allowed.
    pub fn cost(&self, entry: usize, consumer: usize) -> Option<u64>
        requires entry { entry < self.now.entries }
        requires consumer { consumer < consumers self.now }
        ensures { result ≡ cost_at self.now entry consumer }
    {
        self.costs[entry_at(self.order, entry) * self.rooms.len() + consumer]
    }

    /// What an entry costs at each consumer, or `None` where the pair is not allowed.
    pub fn costs(&self, entry: usize) -> &'a [Option<u64>]
        requires { entry < self.now.entries }
        ensures each_consumer { length result.now ≡ consumers self.now }
        ensures costs { (c : ℕ) → c < consumers self.now → slice_index_or result.now c None ≡ cost_at self.now entry c }
        ensures limits { IsWithinLimits self.now.rooms self.now.entries self.now.costs }
    {
        let first = entry_at(self.order, entry) * self.rooms.len();
        &self.costs[first..first + self.rooms.len()]
    }

    /// The allowed consumers of an entry, if the pairs are kept.
    pub fn row(&self, entry: usize) -> Option<Row<'_>>
        requires { entry < self.now.entries }
        ensures { IfSome result (λ row. (row.number ≡ entry) × IsRowOf self.now entry row.pairs.now) }
    {
        let Some(kept) = self.pairs else {
            return None;
        };
        let place = entry_at(self.order, entry);
        let first = kept.starts[place];
        let end = kept.starts[place + 1];
        Some(Row {
            number: entry,
            pairs: &kept.pairs[first..end],
        })
    }

    /// Whether an entry may be allowed a consumer: if not, it is not. Of a problem of many pairs nothing is told.
    pub fn may_take(&self, entry: usize, consumer: usize) -> bool
        requires entry { entry < self.now.entries }
        requires consumer { consumer < consumers self.now }
        ensures { result ≡ false → IsAllowed self.now entry consumer → ⊥ }
    {
        let Some(kept) = self.pairs else {
            return true;
        };
        let entry = entry_at(self.order, entry);
        kept.sets[entry].has(consumer)
    }
}

/// The entry at a place of the order. Without one each is at the place of its number.
fn entry_at(order: Option<&[usize]>, place: usize) -> usize
    requires { IfSome order (λ order. place < length order.now) }
    ensures { result ≡ entry_at (option_copied order.entry) place }
{
    match order {
        Some(order) => order[place],
        None => place,
    }
}

/// Whether the entries are allowed so few consumers that the pairs are kept, and that an order of their own may cost
/// more time than it saves. One of each `BLOCK` entries in a row is looked at.
fn is_sparse(problem: &Costs<'_>) -> bool {
    let mut pairs = 0usize;
    for block in 0..problem.entries() / BLOCK {
        for cost in problem.costs(place_in(block)) {
            pairs = pairs.saturating_add(usize::from(cost.is_some()));
        }
    }
    pairs <= (problem.entries() / BLOCK).saturating_mul(SPARSE)
}

/// The allowed pairs of each entry.
fn pairs_of(alloc: Global, problem: &Costs<'_>) -> Result<Pairs, AllocError>
    requires limits { IsWithinLimits problem.now.rooms problem.now.entries problem.now.costs }
    requires consumers { consumers problem.now ≤ most_consumers }
    ensures { IfOk result (ArePairsOf problem.now) }
{
    let entries = problem.entries();
    let mut sets = Vec::with_capacity(alloc, entries)?;
    let mut starts = Vec::with_capacity(alloc, entries + 1)?;
    let mut pairs = Vec::with_capacity(alloc, entries * PAIRS_EACH)?;
    let mut row = [Pair {
        consumer: 0,
        cost: 0,
    }; MAX_CONSUMERS];
    starts.push(0)?;
    for entry in 0..entries {
        let count = fill(problem, entry, &mut row);
        pairs.extend_from_slice(&row[..count])?;
        starts.push(pairs.len())?;
        sets.push(set_of(&row[..count]))?;
    }
    Ok(Pairs {
        starts,
        pairs,
        sets,
    })
}

/// Writes the allowed consumers of an entry, rising, and what it costs there at the front of `row`, and gives how many
/// they are.
fn fill(problem: &Costs<'_>, entry: usize, row: &mut [Pair]) -> usize
    requires entry { entry < problem.now.entries }
    requires room { consumers problem.now ≤ length row.old }
    ensures room { length row.new ≡ length row.old }
    ensures few { result ≤ length row.new }
    ensures row { IsRowOf problem.now entry (take result row.new) }
{
    let count = list(problem, entry, row);
    for place in 0..count {
        let consumer = row[place].consumer;
        row[place] = Pair {
            consumer,
            cost: problem.cost(entry, consumer).unwrap(),
        };
    }
    count
}

/// Writes the allowed consumers of an entry, rising, at the front of `row`, and gives how many they are.
///
/// Each consumer is written, and the next one over it if it is not allowed: so no branch depends on which ones are.
fn list(problem: &Costs<'_>, entry: usize, row: &mut [Pair]) -> usize
    requires entry { entry < problem.now.entries }
    requires room { consumers problem.now ≤ length row.old }
    ensures room { length row.new ≡ length row.old }
    ensures row { IsRowBelow problem.now entry (consumers problem.now) result 0 row.new }
{
    let mut count = 0;
    for (consumer, cost) in problem.costs(entry).iter().enumerate() {
        row[count].consumer = consumer;
        count += usize::from(cost.is_some());
    }
    count
}

/// The consumers of a row, as a set.
fn set_of(row: &[Pair]) -> ConsumerSet
    requires { AreBelow most_consumers row.now }
    ensures { (j : ℕ) → j < length row.now → IsIn result (pair_at row.now j).consumer }
{
    let mut set = ConsumerSet::none();
    for pair in row {
        set = set.with(pair.consumer);
    }
    set
}
