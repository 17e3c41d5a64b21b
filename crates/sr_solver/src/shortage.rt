ghost use Rattle.std.specs.Prelude.{◌≡◌, ℕ, ◌<◌, ◌++◌, ◌∷◌, [], length, slice_index, IfOk};
ghost use Rattle.sr_transport.specs.{sum_below, consumers};
ghost use Rattle.sr_transport.specs.plain.Problem.{room_of};
ghost use Rattle.sr_solver.specs.Shortage.{stranded_below};

use crate::costs::Costs;
use crate::label::Label;
use std::alloc::{AllocError, Global};

/// The entry that found no place, and the earlier entries that stand at closed consumers, rising.
pub fn stranded(
    alloc: Global,
    assign: &[usize],
    labels: &[Label],
    entry: usize,
) -> Result<Vec<usize>, AllocError>
    requires entry { entry < length assign.now }
    requires placed { (i : ℕ) → i < entry → slice_index assign.now i < length labels.now }
    ensures { IfOk result (λ set. set.items ≡ stranded_below labels.now assign.now entry ++ entry ∷ []) }
{
    let mut set = Vec::new(alloc);
    for other in 0..entry {
        if labels[assign[other]].closed {
            set.push(other)?;
        }
    }
    set.push(entry)?;
    Ok(set)
}

/// How many places all consumers have.
pub fn places(problem: &Costs<'_>) -> u64
    ensures { result ≡ sum_below (room_of problem.now) (consumers problem.now) }
{
    let mut places = 0;
    for consumer in 0..problem.consumers() {
        places += problem.room(consumer);
    }
    places
}
