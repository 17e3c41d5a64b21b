ghost use Rattle.std.specs.Prelude.{◌≡◌, ◌+◌, ◌<◌, ◌≤◌, ℕ, length, true, false};
ghost use Rattle.sr_transport.specs.{consumers};
ghost use Rattle.sr_solver.specs.Placed.{IsStanding};
ghost use Rattle.sr_solver.specs.Table.{IsTable};
ghost use Rattle.sr_solver.specs.Taker.{IsTaker};
ghost use Rattle.sr_solver.specs.Search.{IsStuck, IsEnd};
ghost use Rattle.sr_solver.specs.Progress.{IsEndOf};

use crate::front::Front;
use crate::members::add;
use crate::path::{Route, raise, shift};
use crate::placement::Placement;
use crate::search::{Seeker, search};
use crate::stepped::Stepped;
use crate::table::{Table, put};
use crate::taker::taker;

/// How the placement of all entries ends.
pub enum Progress {
    /// All are placed.
    Placed,
    /// There is no place for this entry.
    Stuck { entry: usize },
    /// Many entries needed a search, and the others are left.
    Slow,
}

/// What is known while entries are placed.
#[derive(Drop)]
pub struct Known {
    /// Of the entries at each consumer.
    pub table: Table,
    /// Of the consumers, by the last search.
    pub front: Front,
}

/// So many searches are never too many.
const FEW_SEARCHES: usize = 16;

/// More than one search for this many entries is too many, among the first half of them.
const SEARCH_STEP: usize = 8;

/// Places the first entries, as long as each has a consumer that takes it, and gives how many these are.
pub fn take_all(problem: &Stepped<'_>, placement: &mut Placement) -> usize
    requires standing { IsStanding problem.now.columns problem.now.steps.now 0 placement.old }
    ensures few { result ≤ problem.now.columns.entries }
    ensures standing { IsStanding problem.now.columns problem.now.steps.now result placement.new }
    ensures stopped { result < problem.now.columns.entries
        → (c : ℕ) → IsTaker problem.now.columns problem.now.steps.now placement.new.prices.items
        placement.new.loads.items result c → ⊥ }
{
    for entry in 0..problem.columns.entries() {
        let Some(consumer) = taker(problem, entry, &placement.prices, &placement.loads) else {
            return entry;
        };
        join(problem, entry, consumer, placement);
    }
    problem.columns.entries()
}

/// Places an entry at a consumer that takes it.
fn join(problem: &Stepped<'_>, entry: usize, consumer: usize, placement: &mut Placement)
    requires entry { entry < problem.now.columns.entries }
    requires standing { IsStanding problem.now.columns problem.now.steps.now entry placement.old }
    requires taker { IsTaker problem.now.columns problem.now.steps.now placement.old.prices.items
        placement.old.loads.items entry consumer }
    ensures { IsStanding problem.now.columns problem.now.steps.now (entry + 1) placement.new }
{
    add(&mut placement.members, consumer * placement.width, entry);
    placement.assign[entry] = consumer;
    placement.loads[consumer] += 1;
}

/// Places entry after entry from `first` on, where those before it are placed.
pub fn place_all(
    problem: &Stepped<'_>,
    first: usize,
    is_patient: bool,
    placement: &mut Placement,
    known: &mut Known,
) -> Progress
    requires first { first ≤ problem.now.columns.entries }
    requires standing { IsStanding problem.now.columns problem.now.steps.now first placement.old }
    requires table { IsTable problem.now.columns placement.old.assign.items known.old.table }
    requires labels { length known.old.front.labels.items ≡ consumers problem.now.columns }
    ensures { IsEndOf problem.now.columns problem.now.steps.now is_patient placement.new
        known.new.front.labels.items result }
{
    let mut searches = 0usize;
    for entry in first..problem.columns.entries() {
        if take(problem, entry, placement, &mut known.table) {
            continue;
        }
        searches = searches.saturating_add(1);
        if !is_patient && are_many(searches, entry, problem.columns.entries()) {
            return Progress::Slow;
        }
        if !place(
            problem,
            entry,
            placement,
            &mut known.table,
            &mut known.front,
        ) {
            return Progress::Stuck { entry };
        }
    }
    Progress::Placed
}

/// Whether this many searches up to an entry are too many. Once half of the entries are placed, none are.
fn are_many(searches: usize, entry: usize, entries: usize) -> bool {
    entry < entries / 2 && FEW_SEARCHES + entry / SEARCH_STEP < searches
}

/// Places an entry at a consumer that takes it, if there is one.
fn take(problem: &Stepped<'_>, entry: usize, placement: &mut Placement, table: &mut Table) -> bool
    requires entry { entry < problem.now.columns.entries }
    requires standing { IsStanding problem.now.columns problem.now.steps.now entry placement.old }
    requires table { IsTable problem.now.columns placement.old.assign.items table.old }
    ensures taken { result ≡ true → IsStanding problem.now.columns problem.now.steps.now (entry + 1) placement.new }
    ensures left { result ≡ false → IsStanding problem.now.columns problem.now.steps.now entry placement.new }
    ensures table { IsTable problem.now.columns placement.new.assign.items table.new }
{
    let Some(consumer) = taker(problem, entry, &placement.prices, &placement.loads) else {
        return false;
    };
    put(&problem.columns, entry, consumer, placement, table);
    placement.loads[consumer] += 1;
    true
}

/// Places an entry at the end of a shortest path, where there is a place for it.
fn place(
    problem: &Stepped<'_>,
    entry: usize,
    placement: &mut Placement,
    table: &mut Table,
    front: &mut Front,
) -> bool
    requires entry { entry < problem.now.columns.entries }
    requires standing { IsStanding problem.now.columns problem.now.steps.now entry placement.old }
    requires table { IsTable problem.now.columns placement.old.assign.items table.old }
    requires labels { length front.old.labels.items ≡ consumers problem.now.columns }
    ensures standing { result ≡ true → IsStanding problem.now.columns problem.now.steps.now (entry + 1)
        placement.new }
    ensures table { result ≡ true → IsTable problem.now.columns placement.new.assign.items table.new }
    ensures stuck { result ≡ false
        → IsStuck problem.now.columns entry placement.new.assign.items placement.new.prices.items
        front.new.labels.items }
    ensures labels { length front.new.labels.items ≡ consumers problem.now.columns }
{
    let seeker = Seeker {
        problem: &*problem,
        entry,
        placement: &*placement,
    };
    let Some(end) = search(&seeker, table, front) else {
        return false;
    };
    let route = Route {
        entry,
        end,
        labels: &front.labels,
    };
    settle(problem, &route, placement, table);
    true
}

/// Moves the entries of the path that was found, and raises the prices.
fn settle(problem: &Stepped<'_>, route: &Route<'_>, placement: &mut Placement, table: &mut Table)
    requires entry { route.now.entry < problem.now.columns.entries }
    requires standing { IsStanding problem.now.columns problem.now.steps.now route.now.entry placement.old }
    requires table { IsTable problem.now.columns placement.old.assign.items table.old }
    requires found { IsEnd problem.now.columns problem.now.steps.now route.now.entry placement.old.assign.items
        placement.old.prices.items route.now.labels.now route.now.end }
    ensures standing { IsStanding problem.now.columns problem.now.steps.now (route.now.entry + 1) placement.new }
    ensures table { IsTable problem.now.columns placement.new.assign.items table.new }
{
    raise(&mut placement.prices, route.labels, route.end.dist);
    shift(&problem.columns, route, placement, table);
    placement.loads[route.end.consumer] += 1;
}
