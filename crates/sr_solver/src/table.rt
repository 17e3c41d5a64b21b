ghost use Rattle.std.specs.Prelude.{◌≡◌, ℕ, ◌+◌, ◌*◌, ◌<◌, ◌≤◌, length, slice_set, IfSome, List, IfOk, false};
ghost use Rattle.sr_transport.specs.{greatest_charge, consumers};
ghost use Rattle.sr_transport.specs.plain.Problem.{IsWithinLimits, room_of, cost_at, cost_of, IsAllowed};
ghost use Rattle.sr_transport.specs.plain.Assignment.{load};
ghost use Rattle.sr_solver.specs.Limits.{narrow_room};
ghost use Rattle.sr_solver.specs.Members.{AreWide, AreMembersOf, AreMembers};
ghost use Rattle.sr_solver.specs.Groups.{IsAt};
ghost use Rattle.sr_solver.specs.Pairs.{IsRowOf};
ghost use Rattle.sr_solver.specs.Table.{no_entry, IsApart, IsKnown, IsFound, ArePairs, IsTableOf, IsTable, IsWithout};
ghost use Rattle.sr_solver.specs.Table.{IsLowered, IsRowChanged, IsMover, bound_at};

use crate::costs::Costs;
use crate::groups::{Groups, find_in_groups, groups_of, join_group};
use crate::members::{add, remove};
use crate::pairs::Row;
use crate::placement::Placement;
use sr_transport::MAX_CHARGE;
use std::alloc::{AllocError, Global};

/// What is added to a difference of two costs, so that it is not below 0.
pub const ABOVE: u64 = MAX_CHARGE;

/// A consumer with more room than this has bounds for each group of its entries. They are used while more stand there.
pub const NARROW: u64 = 128;

/// A bound that holds for any entries, and is less than that of any that were looked at.
const LEAST_BOUND: u64 = 0;

/// The bound where no entry may go. It is greater than that of any entry.
const UNBOUNDED: u64 = 1 << 63;

/// The best where none is known. It is no entry.
const NOBODY: usize = 1 << 32;

/// What is known of the entries that stand at each consumer, for each other one.
#[derive(Drop)]
pub struct Table {
    /// What is known of each ordered pair of consumers: a row for each consumer.
    pub pairs: Vec<Bound>,
    /// The groups of entries, and which consumers have bounds for them.
    pub groups: Groups,
    /// For each ordered pair of which the first is of the span a row of bounds, with one for each group of entries.
    /// Those of wide consumers hold.
    pub lows: Vec<u64>,
}

/// What is known of the entries that stand at one consumer and may go to another.
#[derive(Clone, Copy)]
pub struct Bound {
    /// None of them costs less than this more at the other consumer, where `ABOVE` is added. It is greater than that of
    /// any entry if none of them may go there.
    pub low: u64,
    /// An entry that costs exactly this more. It is no entry if none is known.
    pub best: usize,
}

impl Bound {
    ghost use Rattle.std.specs.Prelude.{◌≡◌};
    ghost use Rattle.sr_solver.specs.Table.{no_entry, unknown};

    /// What is known of entries that were never looked at.
    pub fn unknown() -> Bound
        ensures { result ≡ unknown }
    {
        Bound {
            low: LEAST_BOUND,
            best: NOBODY,
        }
    }

    /// What is known where no entry may go.
    pub fn none() -> Bound
        ensures { result ≡ no_entry }
    {
        Bound {
            low: UNBOUNDED,
            best: NOBODY,
        }
    }
}

/// A table of bounds that hold for any entries.
pub fn unknown_table(alloc: Global, problem: &Costs<'_>) -> Result<Table, AllocError>
    ensures { IfOk result (λ table. (xs : List ℕ) → IsTable problem.now xs table) }
{
    let consumers = problem.consumers();
    let groups = groups_of(problem);
    let pairs = vec![in alloc; Bound::unknown(); consumers * consumers]?;
    let lows = vec![in alloc; 0u64; consumers * groups.span * groups.count]?;
    Ok(Table {
        pairs,
        groups,
        lows,
    })
}

/// Looks through the entries at a narrow consumer for those that cost least more at each other one, if that was never
/// done: then the bound of the consumer with itself is not known.
pub fn look_over(problem: &Costs<'_>, from: usize, placement: &Placement, table: &mut Table)
    requires limits { IsWithinLimits problem.now.rooms problem.now.entries problem.now.costs }
    requires from { from < consumers problem.now }
    requires placed { (i : ℕ) → IsAt placement.now.assign.items problem.now.entries from i
        → IsAllowed problem.now i from }
    requires members { AreMembers problem.now placement.now.width placement.now.assign.items
        placement.now.members.items }
    requires table { IsTable problem.now placement.now.assign.items table.old }
    ensures { IsTable problem.now placement.now.assign.items table.new }
{
    let itself = from * problem.consumers() + from;
    if is_narrow(problem, from, placement) && table.pairs[itself].low == LEAST_BOUND {
        look_through(problem, from, placement, &mut table.pairs);
    }
}

/// Whether few entries have room at a consumer, or stand there.
fn is_narrow(problem: &Costs<'_>, consumer: usize, placement: &Placement) -> bool
    requires limits { IsWithinLimits problem.now.rooms problem.now.entries problem.now.costs }
    requires consumer { consumer < consumers problem.now }
    requires members { AreMembers problem.now placement.now.width placement.now.assign.items
        placement.now.members.items }
    ensures { result ≡ false → narrow_room < room_of problem.now consumer }
{
    let members = placement.members.as_slice();
    let row = consumer * placement.width;
    problem.room(consumer) <= NARROW || members[row] as u64 <= NARROW
}

/// Looks through the entries at a consumer for those that cost least more at each other one.
fn look_through(problem: &Costs<'_>, from: usize, placement: &Placement, pairs: &mut [Bound])
    requires limits { IsWithinLimits problem.now.rooms problem.now.entries problem.now.costs }
    requires from { from < consumers problem.now }
    requires placed { (i : ℕ) → IsAt placement.now.assign.items problem.now.entries from i
        → IsAllowed problem.now i from }
    requires members { AreMembers problem.now placement.now.width placement.now.assign.items
        placement.now.members.items }
    requires pairs { ArePairs problem.now placement.now.assign.items pairs.old }
    ensures { ArePairs problem.now placement.now.assign.items pairs.new }
{
    let members = placement.members.as_slice();
    let row = from * placement.width;
    blank(problem, from, pairs);
    for place in 0..members[row] as usize {
        let entry = members[row + 1 + place] as usize;
        arrive(problem, entry, from, pairs);
    }
}

/// Makes a row of the table that of a consumer where no entry stands.
fn blank(problem: &Costs<'_>, from: usize, pairs: &mut [Bound])
    requires from { from < consumers problem.now }
    requires each_pair { length pairs.old ≡ consumers problem.now * consumers problem.now }
    ensures { IsRowChanged (consumers problem.now) from (consumers problem.now)
        (λ to old new. new ≡ no_entry) pairs.old pairs.new }
{
    for to in 0..problem.consumers() {
        pairs[from * problem.consumers() + to] = Bound::none();
    }
}

/// The entry at `from` that costs least more at `to`, with its bound, or `None` where none may go there. Where the
/// table doesn't know it, it is looked for, and noted.
pub fn least_mover(
    problem: &Costs<'_>,
    from: usize,
    to: usize,
    placement: &Placement,
    table: &mut Table,
) -> Option<Bound>
    requires limits { IsWithinLimits problem.now.rooms problem.now.entries problem.now.costs }
    requires every { length placement.now.assign.items ≡ problem.now.entries }
    requires from { from < consumers problem.now }
    requires to { to < consumers problem.now }
    requires placed { (i : ℕ) → IsAt placement.now.assign.items problem.now.entries from i
        → IsAllowed problem.now i from }
    requires members { AreMembers problem.now placement.now.width placement.now.assign.items
        placement.now.members.items }
    requires table { IsTable problem.now placement.now.assign.items table.old }
    ensures mover { IsMover problem.now (IsAt placement.now.assign.items problem.now.entries from) from to result }
    ensures table { IsTable problem.now placement.now.assign.items table.new }
{
    let pair = from * problem.consumers() + to;
    let known = table.pairs[pair];
    if known.best < problem.entries() {
        return Some(known);
    }
    let found = look_up(problem, from, to, placement, table);
    table.pairs[pair] = found;
    if found.best < problem.entries() {
        return Some(found);
    }
    None
}

/// Looks for the entry at `from` that costs least more at `to`: by groups, if many stand at `from`.
fn look_up(
    problem: &Costs<'_>,
    from: usize,
    to: usize,
    placement: &Placement,
    table: &mut Table,
) -> Bound
    requires limits { IsWithinLimits problem.now.rooms problem.now.entries problem.now.costs }
    requires every { length placement.now.assign.items ≡ problem.now.entries }
    requires from { from < consumers problem.now }
    requires to { to < consumers problem.now }
    requires placed { (i : ℕ) → IsAt placement.now.assign.items problem.now.entries from i
        → IsAllowed problem.now i from }
    requires members { AreMembers problem.now placement.now.width placement.now.assign.items
        placement.now.members.items }
    requires table { IsTable problem.now placement.now.assign.items table.old }
    ensures known { IsKnown problem.now (IsAt placement.now.assign.items problem.now.entries from) from to result }
    ensures found { IsFound problem.now result }
    ensures table { IsTable problem.now placement.now.assign.items table.new }
{
    if is_narrow(problem, from, placement) {
        return find(problem, from, to, placement);
    }
    find_in_groups(problem, from, to, placement, table.groups, &mut table.lows)
}

/// Looks through the entries at `from` for the one that costs least more at `to`. It is not inlined: within its caller
/// the loop is slower.
#[inline(never)]
pub fn find(problem: &Costs<'_>, from: usize, to: usize, placement: &Placement) -> Bound
    requires limits { IsWithinLimits problem.now.rooms problem.now.entries problem.now.costs }
    requires every { length placement.now.assign.items ≡ problem.now.entries }
    requires from { from < consumers problem.now }
    requires to { to < consumers problem.now }
    requires placed { (i : ℕ) → IsAt placement.now.assign.items problem.now.entries from i
        → IsAllowed problem.now i from }
    requires members { AreMembers problem.now placement.now.width placement.now.assign.items
        placement.now.members.items }
    ensures known { IsKnown problem.now (IsAt placement.now.assign.items problem.now.entries from) from to result }
    ensures found { IsFound problem.now result }
{
    let members = placement.members.as_slice();
    let row = from * placement.width;
    let mut found = Bound::none();
    for place in 0..members[row] as usize {
        let other = members[row + 1 + place] as usize;
        if !problem.may_take(other, to) {
            continue;
        }
        let here = problem.cost(other, from).unwrap();
        let there = problem.cost(other, to);
        found = lowered(found, other, here, there);
    }
    found
}

/// What is known once an entry has come that costs `here` where it stands, and `there` at the other consumer.
pub fn lowered(known: Bound, entry: usize, here: u64, there: Option<u64>) -> Bound
    requires here { here ≤ greatest_charge }
    requires there { IfSome there (λ c. c ≤ greatest_charge) }
    ensures { IsLowered entry here there known result }
{
    let Some(there) = there else {
        return known;
    };
    let low = there + ABOVE - here;
    if known.low <= low {
        return known;
    }
    Bound { low, best: entry }
}

/// Moves an entry to a consumer, from the one where it stands, if it stands anywhere.
pub fn put(
    problem: &Costs<'_>,
    entry: usize,
    to: usize,
    placement: &mut Placement,
    table: &mut Table,
)
    requires limits { IsWithinLimits problem.now.rooms problem.now.entries problem.now.costs }
    requires entry { entry < problem.now.entries }
    requires every { length placement.old.assign.items ≡ problem.now.entries }
    requires allowed { IsAllowed problem.now entry to }
    requires wide { AreWide problem.now placement.old.width }
    requires room { load (slice_set placement.old.assign.items entry to) to ≤ room_of problem.now to }
    requires members { AreMembers problem.now placement.old.width placement.old.assign.items
        placement.old.members.items }
    requires table { IsTable problem.now placement.old.assign.items table.old }
    ensures assign { placement.new.assign.items ≡ slice_set placement.old.assign.items entry to }
    ensures prices { placement.new.prices ≡ placement.old.prices }
    ensures loads { placement.new.loads ≡ placement.old.loads }
    ensures width { placement.new.width ≡ placement.old.width }
    ensures members { AreMembers problem.now placement.new.width placement.new.assign.items
        placement.new.members.items }
    ensures table { IsTable problem.now placement.new.assign.items table.new }
{
    take_out(problem, entry, placement, table);
    bring_in(problem, entry, to, placement, table);
}

/// Takes an entry out of the members and the table, if it stands anywhere.
fn take_out(problem: &Costs<'_>, entry: usize, placement: &mut Placement, table: &mut Table)
    requires limits { IsWithinLimits problem.now.rooms problem.now.entries problem.now.costs }
    requires entry { entry < problem.now.entries }
    requires every { length placement.old.assign.items ≡ problem.now.entries }
    requires members { AreMembers problem.now placement.old.width placement.old.assign.items
        placement.old.members.items }
    requires table { IsTable problem.now placement.old.assign.items table.old }
    ensures assign { placement.new.assign ≡ placement.old.assign }
    ensures prices { placement.new.prices ≡ placement.old.prices }
    ensures loads { placement.new.loads ≡ placement.old.loads }
    ensures width { placement.new.width ≡ placement.old.width }
    ensures members { AreMembersOf problem.now placement.new.width
        (load (slice_set placement.new.assign.items entry (consumers problem.now)))
        (IsApart (IsAt placement.new.assign.items problem.now.entries) entry) placement.new.members.items }
    ensures table { IsTableOf problem.now (IsApart (IsAt placement.new.assign.items problem.now.entries) entry)
        table.new }
{
    let from = placement.assign[entry];
    if problem.consumers() <= from {
        return;
    }
    remove(&mut placement.members, from * placement.width, entry);
    leave(problem, entry, from, &mut table.pairs);
}

/// Brings an entry that was taken out into the members, the table and the assignment, at a consumer.
fn bring_in(
    problem: &Costs<'_>,
    entry: usize,
    to: usize,
    placement: &mut Placement,
    table: &mut Table,
)
    requires limits { IsWithinLimits problem.now.rooms problem.now.entries problem.now.costs }
    requires entry { entry < problem.now.entries }
    requires every { length placement.old.assign.items ≡ problem.now.entries }
    requires allowed { IsAllowed problem.now entry to }
    requires wide { AreWide problem.now placement.old.width }
    requires room { load (slice_set placement.old.assign.items entry to) to ≤ room_of problem.now to }
    requires members { AreMembersOf problem.now placement.old.width
        (load (slice_set placement.old.assign.items entry (consumers problem.now)))
        (IsApart (IsAt placement.old.assign.items problem.now.entries) entry) placement.old.members.items }
    requires table { IsTableOf problem.now (IsApart (IsAt placement.old.assign.items problem.now.entries) entry)
        table.old }
    ensures assign { placement.new.assign.items ≡ slice_set placement.old.assign.items entry to }
    ensures prices { placement.new.prices ≡ placement.old.prices }
    ensures loads { placement.new.loads ≡ placement.old.loads }
    ensures width { placement.new.width ≡ placement.old.width }
    ensures members { AreMembers problem.now placement.new.width placement.new.assign.items
        placement.new.members.items }
    ensures table { IsTable problem.now placement.new.assign.items table.new }
{
    add(&mut placement.members, to * placement.width, entry);
    arrive(problem, entry, to, &mut table.pairs);
    join_group(problem, entry, to, table.groups, &mut table.lows);
    placement.assign[entry] = to;
}

/// Notes that an entry has left a consumer: it is no longer the best of those that may go elsewhere.
fn leave(problem: &Costs<'_>, entry: usize, from: usize, pairs: &mut [Bound])
    requires entry { entry < problem.now.entries }
    requires from { from < consumers problem.now }
    requires each_pair { length pairs.old ≡ consumers problem.now * consumers problem.now }
    requires best { (b : ℕ) → b < consumers problem.now
        → (bound_at pairs.old (from * consumers problem.now + b)).best ≡ entry → IsAllowed problem.now entry b }
    ensures { IsRowChanged (consumers problem.now) from (consumers problem.now)
        (λ to old new. IsWithout entry old new) pairs.old pairs.new }
{
    if let Some(row) = problem.row(entry) {
        return leave_in_row(problem, row, from, pairs);
    }
    for to in 0..problem.consumers() {
        let pair = from * problem.consumers() + to;
        if pairs[pair].best == entry {
            let low = pairs[pair].low;
            pairs[pair] = Bound { low, best: NOBODY };
        }
    }
}

/// The same for an entry of which the allowed consumers are known.
fn leave_in_row(problem: &Costs<'_>, row: Row<'_>, from: usize, pairs: &mut [Bound])
    requires entry { row.number < problem.now.entries }
    requires row { IsRowOf problem.now row.number row.pairs.now }
    requires from { from < consumers problem.now }
    requires each_pair { length pairs.old ≡ consumers problem.now * consumers problem.now }
    requires best { (b : ℕ) → b < consumers problem.now
        → (bound_at pairs.old (from * consumers problem.now + b)).best ≡ row.number
        → IsAllowed problem.now row.number b }
    ensures { IsRowChanged (consumers problem.now) from (consumers problem.now)
        (λ to old new. IsWithout row.entry.number old new) pairs.old pairs.new }
{
    for pair in row.pairs {
        let place = from * problem.consumers() + pair.consumer;
        if pairs[place].best == row.number {
            let low = pairs[place].low;
            pairs[place] = Bound { low, best: NOBODY };
        }
    }
}

/// Notes that an entry has come to a consumer.
fn arrive(problem: &Costs<'_>, entry: usize, to: usize, pairs: &mut [Bound])
    requires limits { IsWithinLimits problem.now.rooms problem.now.entries problem.now.costs }
    requires entry { entry < problem.now.entries }
    requires allowed { IsAllowed problem.now entry to }
    requires each_pair { length pairs.old ≡ consumers problem.now * consumers problem.now }
    ensures { IsRowChanged (consumers problem.now) to (consumers problem.now)
        (λ next. IsLowered entry (cost_of problem.now entry to) (cost_at problem.now entry next)) pairs.old pairs.new }
{
    if let Some(row) = problem.row(entry) {
        return arrive_in_row(problem, row, to, pairs);
    }
    let here = problem.cost(entry, to).unwrap();
    for (next, there) in problem.costs(entry).iter().enumerate() {
        if there.is_some() {
            let pair = to * problem.consumers() + next;
            let known = lowered(pairs[pair], entry, here, *there);
            pairs[pair] = known;
        }
    }
}

/// The same for an entry of which the allowed consumers are known.
fn arrive_in_row(problem: &Costs<'_>, row: Row<'_>, to: usize, pairs: &mut [Bound])
    requires limits { IsWithinLimits problem.now.rooms problem.now.entries problem.now.costs }
    requires entry { row.number < problem.now.entries }
    requires row { IsRowOf problem.now row.number row.pairs.now }
    requires allowed { IsAllowed problem.now row.number to }
    requires each_pair { length pairs.old ≡ consumers problem.now * consumers problem.now }
    ensures { IsRowChanged (consumers problem.now) to (consumers problem.now)
        (λ next. IsLowered row.entry.number (cost_of problem.now row.entry.number to)
        (cost_at problem.now row.entry.number next)) pairs.old pairs.new }
{
    let here = problem.cost(row.number, to).unwrap();
    for pair in row.pairs {
        let place = to * problem.consumers() + pair.consumer;
        let known = lowered(pairs[place], row.number, here, Some(pair.cost));
        pairs[place] = known;
    }
}
