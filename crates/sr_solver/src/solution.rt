ghost use Rattle.std.specs.Prelude.{◌≡◌, ◌<◌, IfOk, IfSome, IsSome, true};
ghost use Rattle.sr_transport.specs.plain.Certificate.{IsShortage};
ghost use Rattle.sr_solver.specs.Answered.{IsAnswer};
ghost use Rattle.sr_solver.specs.Placed.{IsStanding};
ghost use Rattle.sr_solver.specs.Steps.{AreSteps};

use crate::costs::{Costs, Source};
use crate::crowd::crowded_entries;
use crate::front::fresh_front;
use crate::order::{entries_at, numbers, rename};
use crate::placement::{Placement, nowhere};
use crate::placing::{Known, Progress, place_all, take_all};
use crate::sample::placing_order;
use crate::shortage::{places, stranded};
use crate::stepped::{Answer, Step, Stepped};
use crate::table::unknown_table;
use std::alloc::{AllocError, Global};

/// Solves a transportation problem with steps: places the entries at the least total, or gives entries for which there
/// are too few places.
///
/// The entries are placed one after another, each along a shortest path that makes place for it. They come in the order
/// they have if that is quick, and else in an order of their own, on which the time depends, and not the worth of the
/// answer.
///
/// Source: the method of successive shortest paths (J. Edmonds, R. M. Karp, 1972).
pub fn solve_stepped<'a>(
    alloc: Global,
    source: Source<'a>,
    steps: &'a [Step],
) -> Result<Answer, AllocError>
    requires { AreSteps source.rooms steps.now }
    ensures { IfOk result (IsAnswer source.entry steps.now) }
{
    if let Some(set) = all_short(alloc, &source.whole())? {
        return Ok(Answer::Short { set });
    }
    let source = source.with_pairs(alloc)?;
    let problem = Stepped {
        columns: source.whole(),
        steps,
    };
    if let Some(found) = answer(alloc, &problem, false)? {
        return Ok(found);
    }
    solve_reordered(alloc, &source, steps)
}

/// All entries, if they are more than there are places.
fn all_short(alloc: Global, problem: &Costs<'_>) -> Result<Option<Vec<usize>>, AllocError>
    ensures { IfOk result (λ found. IfSome found (λ set. IsShortage problem.now set.items)) }
{
    if problem.entries() as u64 <= places(problem) {
        return Ok(None);
    }
    let set = numbers(alloc, problem.entries())?;
    Ok(Some(set))
}

/// Solves a problem, placing its entries in an order of their own.
fn solve_reordered<'a>(
    alloc: Global,
    source: &'a Source<'_>,
    steps: &'a [Step],
) -> Result<Answer, AllocError>
    requires { AreSteps source.now.rooms steps.now }
    ensures { IfOk result (IsAnswer source.now steps.now) }
{
    let order = placing_order(alloc, source, steps)?;
    let whole = source.whole();
    let other = Stepped {
        columns: source.picked(whole.rooms(), &order),
        steps,
    };
    let mut renamed = vec![in alloc; 0usize; whole.entries()]?;
    match solve_in_order(alloc, &other)? {
        Answer::Placed { assign, prices } => {
            rename(&order, &assign, &mut renamed);
            Ok(Answer::Placed {
                assign: renamed,
                prices,
            })
        }
        Answer::Short { set } => {
            let set = entries_at(alloc, &order, &set)?;
            Ok(Answer::Short { set })
        }
    }
}

/// Solves a problem, placing its entries in the order they have.
pub(crate) fn solve_in_order(alloc: Global, problem: &Stepped<'_>) -> Result<Answer, AllocError>
    requires { AreSteps problem.now.columns.rooms problem.now.steps.now }
    ensures { IfOk result (IsAnswer problem.now.columns problem.now.steps.now) }
{
    let found = answer(alloc, problem, true)?;
    Ok(found.unwrap())
}

/// The answer to a problem, found by placing its entries in the order they have. If that seems to take long, the
/// patient go on; others get `None`.
fn answer(
    alloc: Global,
    problem: &Stepped<'_>,
    is_patient: bool,
) -> Result<Option<Answer>, AllocError>
    requires { AreSteps problem.now.columns.rooms problem.now.steps.now }
    ensures solution { IfOk result (λ found. IfSome found (IsAnswer problem.now.columns problem.now.steps.now)) }
    ensures patient { is_patient ≡ true → IfOk result (λ found. IsSome found) }
{
    let mut placement = nowhere(alloc, problem)?;
    let taken = take_all(problem, &mut placement);
    if taken == problem.columns.entries() {
        return Ok(Some(Answer::Placed {
            assign: placement.assign,
            prices: placement.prices,
        }));
    }
    if !is_patient {
        let Some(sets) = problem.columns.sets() else {
            return Ok(None);
        };
        if let Some(set) = crowded_entries(alloc, &problem.columns, sets)? {
            return Ok(Some(Answer::Short { set }));
        }
    }
    finish(alloc, problem, taken, is_patient, placement)
}

/// The answer, once the entries before `first` are placed.
fn finish(
    alloc: Global,
    problem: &Stepped<'_>,
    first: usize,
    is_patient: bool,
    placement: Placement,
) -> Result<Option<Answer>, AllocError>
    requires first { first < problem.now.columns.entries }
    requires standing { IsStanding problem.now.columns problem.now.steps.now first placement }
    ensures solution { IfOk result (λ found. IfSome found (IsAnswer problem.now.columns problem.now.steps.now)) }
    ensures patient { is_patient ≡ true → IfOk result (λ found. IsSome found) }
{
    let mut placement = placement;
    let table = unknown_table(alloc, &problem.columns)?;
    let front = fresh_front(alloc, problem.columns.consumers())?;
    let mut known = Known { table, front };
    match place_all(problem, first, is_patient, &mut placement, &mut known) {
        Progress::Placed => Ok(Some(Answer::Placed {
            assign: placement.assign,
            prices: placement.prices,
        })),
        Progress::Stuck { entry } => {
            let set = stranded(alloc, &placement.assign, &known.front.labels, entry)?;
            Ok(Some(Answer::Short { set }))
        }
        Progress::Slow => Ok(None),
    }
}
