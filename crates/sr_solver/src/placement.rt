ghost use Rattle.std.specs.Prelude.{◌≤◌, ◌⊎◌, IfOk};
ghost use Rattle.sr_solver.specs.Members.{AreWide};
ghost use Rattle.sr_solver.specs.Placed.{IsStanding};
ghost use Rattle.sr_solver.specs.Steps.{AreSteps};

use crate::costs::Costs;
use crate::stepped::Stepped;
use std::alloc::{AllocError, Global};

/// Where the entries stand, and the prices that show it cheapest.
#[derive(Drop)]
pub struct Placement {
    /// The consumer of each entry, or the number of consumers where the entry stands nowhere yet.
    pub assign: Vec<usize>,
    /// The price of each consumer.
    pub prices: Vec<u64>,
    /// How many entries stand at each consumer.
    pub loads: Vec<u64>,
    /// How many numbers a row of members has.
    pub width: usize,
    /// The entries that stand at each consumer: a row for each, which begins with how many follow.
    pub members: Vec<u16>,
}

/// No entry stands anywhere yet.
pub fn nowhere(alloc: Global, problem: &Stepped<'_>) -> Result<Placement, AllocError>
    requires { AreSteps problem.now.columns.rooms problem.now.steps.now }
    ensures { IfOk result (IsStanding problem.now.columns problem.now.steps.now 0) }
{
    let consumers = problem.columns.consumers();
    let width = row_width(&problem.columns);
    let assign = vec![in alloc; consumers; problem.columns.entries()]?;
    let prices = vec![in alloc; 0u64; consumers]?;
    let loads = vec![in alloc; 0u64; consumers]?;
    let members = vec![in alloc; 0u16; consumers * width]?;
    Ok(Placement {
        assign,
        prices,
        loads,
        width,
        members,
    })
}

/// How many numbers a row of members needs: one more than the greatest room, but no more than for all entries.
fn row_width(problem: &Costs<'_>) -> usize
    ensures { AreWide problem.now result }
{
    let mut most = 0;
    for consumer in 0..problem.consumers() {
        most = greater(most, problem.room(consumer), problem.entries());
    }
    most + 1
}

/// The greater of `most` and a room, of which no more than all entries count.
fn greater(most: usize, room: u64, entries: usize) -> usize
    requires { most ≤ entries }
    ensures kept { most ≤ result }
    ensures enough { (room ≤ result) ⊎ (entries ≤ result) }
    ensures few { result ≤ entries }
{
    if entries as u64 <= room {
        return entries;
    }
    let room = room as usize;
    if most < room { room } else { most }
}
