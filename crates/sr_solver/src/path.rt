ghost use Rattle.std.specs.Prelude.{◌≡◌, ℕ, ◌+◌, ◌<◌, ◌≤◌, ◌==◌, cond, length, slice_index, true};
ghost use Rattle.sr_transport.specs.{most_tiers, consumers};
ghost use Rattle.sr_solver.specs.Limits.{greatest_way};
ghost use Rattle.sr_solver.specs.Labels.{label_at};
ghost use Rattle.sr_transport.specs.plain.Problem.{IsWithinLimits, room_of, IsAllowed};
ghost use Rattle.sr_transport.specs.plain.Assignment.{load};
ghost use Rattle.sr_solver.specs.Table.{IsTable};
ghost use Rattle.sr_solver.specs.Members.{AreWide, AreMembers};
ghost use Rattle.sr_solver.specs.Path.{AreRaised, ArePaths, AreShifted};

use crate::costs::Costs;
use crate::front::End;
use crate::label::Label;
use crate::placement::Placement;
use crate::table::{Table, put};

/// A path that was found.
#[derive(Drop)]
pub struct Route<'a> {
    /// The entry that comes, with which the path begins.
    pub entry: usize,
    /// Where it ends.
    pub end: End,
    /// For each consumer that is reached how it is.
    pub labels: &'a [Label],
}

/// Raises the price of each closed consumer by as much as the path to it is shorter than `dist`.
pub fn raise(prices: &mut [u64], labels: &[Label], dist: u64)
    requires one_each { length labels.now ≡ length prices.old }
    requires few { length prices.old ≤ most_tiers }
    requires dist { dist ≤ greatest_way }
    requires low { (c : ℕ) → c < length prices.old → slice_index prices.old c ≤ greatest_way }
    requires near { (c : ℕ) → c < length prices.old → (label_at labels.now c).closed ≡ true
        → (label_at labels.now c).dist ≤ dist }
    ensures { AreRaised dist labels.now prices.old prices.new }
{
    for consumer in 0..prices.len() {
        let label = labels[consumer];
        if label.closed {
            prices[consumer] += dist - label.dist;
        }
    }
}

/// Moves the entries of a path, each to the next consumer, the last of them the one that comes, which stood nowhere.
pub fn shift(problem: &Costs<'_>, route: &Route<'_>, placement: &mut Placement, table: &mut Table)
    requires limits { IsWithinLimits problem.now.rooms problem.now.entries problem.now.costs }
    requires one_each { length route.now.labels.now ≡ consumers problem.now }
    requires every { length placement.old.assign.items ≡ problem.now.entries }
    requires paths { ArePaths route.now.labels.now route.now.entry placement.old.assign.items }
    requires allowed { (c : ℕ) → c < length route.now.labels.now → 0 < (label_at route.now.labels.now c).hops
        → IsAllowed problem.now (label_at route.now.labels.now c).mover c }
    requires end { route.now.end.consumer < length route.now.labels.now }
    requires reached { 0 < (label_at route.now.labels.now route.now.end.consumer).hops }
    requires wide { AreWide problem.now placement.old.width }
    requires in_room { (c : ℕ) → c < length route.now.labels.now
        → load placement.old.assign.items c + cond (route.now.end.consumer == c) 1 0 ≤ room_of problem.now c }
    requires members { AreMembers problem.now placement.old.width placement.old.assign.items
        placement.old.members.items }
    requires table { IsTable problem.now placement.old.assign.items table.old }
    ensures assign { AreShifted route.now.labels.now route.now.entry route.now.end.consumer
        placement.old.assign.items placement.new.assign.items }
    ensures prices { placement.new.prices ≡ placement.old.prices }
    ensures loads { placement.new.loads ≡ placement.old.loads }
    ensures width { placement.new.width ≡ placement.old.width }
    ensures members { AreMembers problem.now placement.new.width placement.new.assign.items
        placement.new.members.items }
    ensures table { IsTable problem.now placement.new.assign.items table.new }
{
    let (entry, labels) = (route.entry, route.labels);
    let mut place = route.end.consumer;
    'path: loop {
        let mover = labels[place].mover;
        let from = placement.assign[mover];
        put(problem, mover, place, placement, table);
        if mover == entry {
            return;
        }
        place = from;
    }
}
