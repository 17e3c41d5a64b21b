ghost use Rattle.std.specs.Prelude.{◌≡◌, ◌<◌, ◌≤◌, ◌++◌, length, All, IfOk};
ghost use Rattle.sr_transport.specs.{most_entries};
ghost use Rattle.sr_solver.specs.Order.{numbers_below, IsOrder, IsRenamed, AreEntriesAt};

use crate::costs::Costs;
use crate::pairs::Row;
use std::alloc::{AllocError, Global};

/// The entries, those first for which it matters most where they go: whose least cost is farthest below their mean.
///
/// A mean, and not the greatest cost, since one dear consumer would make the entries all alike.
pub fn by_stake(alloc: Global, problem: &Costs<'_>) -> Result<Vec<usize>, AllocError>
    ensures { IfOk result (λ order. IsOrder problem.now.entries order.items) }
{
    let ranks = ranks(alloc, problem)?;
    let mut order = numbers(alloc, problem.entries())?;
    order.sort_by_key(|entry| ranks.get(*entry).copied())?;
    Ok(order)
}

/// The numbers below n, rising.
pub fn numbers(alloc: Global, n: usize) -> Result<Vec<usize>, AllocError>
    ensures { IfOk result (λ numbers. numbers.items ≡ numbers_below n) }
{
    let mut numbers = Vec::new(alloc);
    for number in 0..n {
        numbers.push(number)?;
    }
    Ok(numbers)
}

/// A number for each entry, by which they are sorted.
fn ranks(alloc: Global, problem: &Costs<'_>) -> Result<Vec<u64>, AllocError> {
    let mut ranks = Vec::new(alloc);
    for entry in 0..problem.entries() {
        ranks.push(u64::MAX - stake(problem, entry))?;
    }
    Ok(ranks)
}

/// How far the least cost of an entry is below the mean of its costs.
fn stake(problem: &Costs<'_>, entry: usize) -> u64
    requires { entry < problem.now.entries }
{
    if let Some(row) = problem.row(entry) {
        return stake_in_row(row);
    }
    let mut least = u64::MAX;
    let mut sum = 0u64;
    let mut pairs = 0u64;
    for cost in problem.costs(entry) {
        if let Some(cost) = *cost {
            least = least.min(cost);
            sum = sum.saturating_add(cost);
            pairs = pairs.saturating_add(1);
        }
    }
    (sum / pairs.max(1)).saturating_sub(least)
}

/// The same, from the row of the entry.
fn stake_in_row(row: Row<'_>) -> u64 {
    let mut least = u64::MAX;
    let mut sum = 0u64;
    for pair in row.pairs {
        least = least.min(pair.cost);
        sum = sum.saturating_add(pair.cost);
    }
    let pairs = row.pairs.len().max(1) as u64;
    (sum / pairs).saturating_sub(least)
}

/// Gives to each entry what stands at its place in the order.
pub fn rename(order: &[usize], assign: &[usize], renamed: &mut [usize])
    requires order { IsOrder (length assign.now) order.now }
    requires every { length renamed.old ≡ length assign.now }
    requires few { length assign.now ≤ most_entries }
    ensures every { length renamed.new ≡ length assign.now }
    ensures renamed { IsRenamed order.now assign.now renamed.new (length assign.now) }
{
    for place in 0..assign.len() {
        renamed[order[place]] = assign[place];
    }
}

/// The entries at these places of the order, rising.
pub fn entries_at(
    alloc: Global,
    order: &[usize],
    places: &[usize],
) -> Result<Vec<usize>, AllocError>
    requires { All (λ place. place < length order.now) places.now }
    ensures { IfOk result (λ entries. AreEntriesAt order.now places.now entries.items) }
{
    let mut entries = Vec::with_capacity(alloc, places.len())?;
    for place in places {
        entries.push(order[*place])?;
    }
    entries.sort()?;
    Ok(entries)
}
