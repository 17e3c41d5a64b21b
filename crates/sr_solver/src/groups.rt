//! Bounds for groups of entries: where many entries stand, the one that costs least more elsewhere is looked for in the
//! group with the least bound, and not among all.
ghost use Rattle.std.specs.Prelude.{◌≡◌, ℕ, ◌+◌, ◌*◌, ◌<◌, ◌≤◌, ◌⊎◌, ◌^◌, length, slice_index};
ghost use Rattle.sr_transport.specs.{most_entries, consumers};
ghost use Rattle.sr_transport.specs.plain.Problem.{IsWithinLimits, room_of, IsAllowed};
ghost use Rattle.sr_solver.specs.Limits.{group_size, narrow_room};
ghost use Rattle.sr_solver.specs.Members.{AreMembers};
ghost use Rattle.sr_solver.specs.Groups.{IsAt, IsAtIn, AreGroups, low_row, AreLowsOf, AreLowered};
ghost use Rattle.sr_solver.specs.Pairs.{IsRowOf};
ghost use Rattle.sr_solver.specs.Table.{IsKnown, IsFound};

use crate::costs::Costs;
use crate::pairs::Row;
use crate::placement::Placement;
use crate::table::{ABOVE, Bound, NARROW, find, lowered};

/// How many entries in a row make a group.
const GROUP: usize = 64;

/// Which bounds by group there are: a row for each consumer of the span, each other one and each group.
#[derive(Clone, Copy)]
pub struct Groups {
    /// How many groups of entries there are.
    pub count: usize,
    /// The first consumer of the span.
    pub first: usize,
    /// How many consumers the span has. Each wide one is among them.
    pub span: usize,
}

/// The groups of entries, and the span from the first wide consumer to the last one: none if no consumer is wide.
pub fn groups_of(problem: &Costs<'_>) -> Groups
    ensures { AreGroups problem.now result }
{
    let mut first = problem.consumers();
    let mut end = 0;
    for consumer in 0..problem.consumers() {
        if NARROW < problem.room(consumer) {
            first = first.min(consumer);
            end = consumer + 1;
        }
    }
    Groups {
        count: problem.entries() / GROUP + 1,
        first,
        span: end.saturating_sub(first),
    }
}

/// Where the row of bounds of the wide consumer `from` and another one begins.
fn row_of(problem: &Costs<'_>, from: usize, to: usize, groups: Groups) -> usize
    requires limits { IsWithinLimits problem.now.rooms problem.now.entries problem.now.costs }
    requires groups { AreGroups problem.now groups }
    requires from { from < consumers problem.now }
    requires wide { narrow_room < room_of problem.now from }
    requires to { to < consumers problem.now }
    ensures { result ≡ low_row (consumers problem.now) groups from to }
{
    ((from - groups.first) * problem.consumers() + to) * groups.count
}

/// Looks for the entry at the wide consumer `from` that costs least more at `to`.
///
/// The group with the least bound is looked through, and its bound made exact, until no other group has a lesser one.
pub fn find_in_groups(
    problem: &Costs<'_>,
    from: usize,
    to: usize,
    placement: &Placement,
    groups: Groups,
    lows: &mut [u64],
) -> Bound
    requires limits { IsWithinLimits problem.now.rooms problem.now.entries problem.now.costs }
    requires every { length placement.now.assign.items ≡ problem.now.entries }
    requires from { from < consumers problem.now }
    requires wide { narrow_room < room_of problem.now from }
    requires to { to < consumers problem.now }
    requires placed { (i : ℕ) → IsAt placement.now.assign.items problem.now.entries from i
        → IsAllowed problem.now i from }
    requires members { AreMembers problem.now placement.now.width placement.now.assign.items
        placement.now.members.items }
    requires lows { AreLowsOf problem.now (IsAt placement.now.assign.items problem.now.entries) groups lows.old }
    ensures known { IsKnown problem.now (IsAt placement.now.assign.items problem.now.entries from) from to result }
    ensures found { IsFound problem.now result }
    ensures lows { AreLowsOf problem.now (IsAt placement.now.assign.items problem.now.entries) groups lows.new }
{
    let assign = placement.assign.as_slice();
    let row = row_of(problem, from, to, groups);
    let mut group = least(lows, row, groups.count);
    for _ in 0..groups.count {
        let found = find_in_group(problem, from, to, assign, group);
        lows[row + group] = found.low;
        let next = least(lows, row, groups.count);
        if lows[row + group] <= lows[row + next] {
            return found;
        }
        group = next;
    }
    find(problem, from, to, placement)
}

/// The group with the least bound in the row of bounds that begins at `row`.
fn least(lows: &[u64], row: usize, groups: usize) -> usize
    requires some { 0 < groups }
    requires within { row + groups ≤ length lows.now }
    requires short { length lows.now ≤ 2 ^ 32 }
    ensures group { result < groups }
    ensures least { (g : ℕ) → g < groups
        → slice_index lows.now (row + result) ≤ slice_index lows.now (row + g) }
{
    let mut best = 0;
    let mut low = lows[row];
    for group in 1..groups {
        if lows[row + group] < low {
            best = group;
            low = lows[row + group];
        }
    }
    best
}

/// Looks through the entries of a group that stand at `from` for the one that costs least more at `to`.
fn find_in_group(
    problem: &Costs<'_>,
    from: usize,
    to: usize,
    assign: &[usize],
    group: usize,
) -> Bound
    requires limits { IsWithinLimits problem.now.rooms problem.now.entries problem.now.costs }
    requires every { length assign.now ≡ problem.now.entries }
    requires from { from < consumers problem.now }
    requires to { to < consumers problem.now }
    requires placed { (i : ℕ) → IsAt assign.now problem.now.entries from i → IsAllowed problem.now i from }
    requires group { group < most_entries }
    ensures known { IsKnown problem.now (IsAtIn assign.now problem.now.entries from group) from to result }
    ensures found { IsFound problem.now result }
{
    let first = group * GROUP;
    let end = end_of(group, problem.entries());
    let mut found = Bound::none();
    for entry in first..end {
        if assign[entry] == from {
            if !problem.may_take(entry, to) {
                continue;
            }
            let here = problem.cost(entry, from).unwrap();
            let there = problem.cost(entry, to);
            found = lowered(found, entry, here, there);
        }
    }
    found
}

/// Where a group ends, of so many entries.
fn end_of(group: usize, entries: usize) -> usize
    requires { group < most_entries }
    ensures few { result ≤ entries }
    ensures within { result ≤ group * group_size + group_size }
    ensures all { (entries ≤ result) ⊎ (group * group_size + group_size ≤ result) }
{
    let end = group * GROUP + GROUP;
    if end < entries { end } else { entries }
}

/// Notes that an entry has come to a consumer, if that is a wide one: the bounds of its group fall.
pub fn join_group(problem: &Costs<'_>, entry: usize, to: usize, groups: Groups, lows: &mut [u64])
    requires limits { IsWithinLimits problem.now.rooms problem.now.entries problem.now.costs }
    requires entry { entry < problem.now.entries }
    requires allowed { IsAllowed problem.now entry to }
    requires each_group { length lows.old ≡ consumers problem.now * groups.span * groups.count }
    requires groups { AreGroups problem.now groups }
    ensures { AreLowered problem.now to entry groups lows.old lows.new }
{
    if problem.room(to) <= NARROW {
        return;
    }
    if let Some(row) = problem.row(entry) {
        return join_group_in_row(problem, row, to, groups, lows);
    }
    let group = entry / GROUP;
    let here = problem.cost(entry, to).unwrap();
    for (next, there) in problem.costs(entry).iter().enumerate() {
        if let Some(there) = *there {
            let row = row_of(problem, to, next, groups);
            lower(lows, row + group, there + ABOVE - here);
        }
    }
}

/// The same for a wide consumer and an entry of which the allowed consumers are known.
fn join_group_in_row(problem: &Costs<'_>, row: Row<'_>, to: usize, groups: Groups, lows: &mut [u64])
    requires limits { IsWithinLimits problem.now.rooms problem.now.entries problem.now.costs }
    requires entry { row.number < problem.now.entries }
    requires row { IsRowOf problem.now row.number row.pairs.now }
    requires allowed { IsAllowed problem.now row.number to }
    requires wide { narrow_room < room_of problem.now to }
    requires each_group { length lows.old ≡ consumers problem.now * groups.span * groups.count }
    requires groups { AreGroups problem.now groups }
    ensures { AreLowered problem.now to row.entry.number groups lows.old lows.new }
{
    let group = row.number / GROUP;
    let here = problem.cost(row.number, to).unwrap();
    for pair in row.pairs {
        let first = row_of(problem, to, pair.consumer, groups);
        lower(lows, first + group, pair.cost + ABOVE - here);
    }
}

/// Lowers a bound to this, if it is greater.
fn lower(lows: &mut [u64], place: usize, low: u64)
    requires place { place < length lows.old }
    requires short { length lows.old ≤ 2 ^ 32 }
    ensures length { length lows.new ≡ length lows.old }
    ensures none_higher { (q : ℕ) → slice_index lows.new q ≤ slice_index lows.old q }
    ensures lower { slice_index lows.new place ≤ low }
{
    if low < lows[place] {
        lows[place] = low;
    }
}
