ghost use Rattle.std.specs.Prelude.{◌≡◌, ◌-◌, ◌<◌, IfOk, if◌then◌else◌};
ghost use Rattle.sr_ids.specs.{least_id};
ghost use Rattle.sr_group.specs.Claim as claims;
ghost use Rattle.sr_group.specs.steps.Scanning.{IsScan};

use crate::claim::{Call, is_there};
use sr_ids::Id;
use sr_pending::{Nack, Nacks};
use std::alloc::{AllocError, Global};

/// The ids that a scan looks at, and the next one behind them.
#[derive(Drop)]
pub(crate) struct Looked {
    pub(crate) ids: Vec<Id>,
    pub(crate) next: Id,
}

/// Whether the call gives the entry over or drops it.
fn is_taken(call: &Call<'_>, nack: &Nack) -> bool
    ensures { result ≡ claims.is_taken
        call.now.claim call.now.claimer.now call.now.moment call.now.entries.now.entries nack.now }
{
    !is_there(call.entries, nack.id)
        || call.moment.saturating_sub(nack.time) >= call.claim.least_idle
}

/// How many more entries are to be taken after this one.
fn left_after(call: &Call<'_>, nack: &Nack, left: u64) -> u64
    requires { 0 < left }
    ensures { result ≡ if claims.is_taken
        call.now.claim call.now.claimer.now call.now.moment call.now.entries.now.entries nack.now then left - 1
        else left }
{
    if is_taken(call, nack) { left - 1 } else { left }
}

/// The first of these ids, or 0-0 if there is none.
fn first_id(mut rest: Nacks<'_>) -> Id
    ensures { result ≡ claims.id_behind 0 rest.entry }
{
    match rest.next() {
        Some(nack) => nack.id,
        None => Id { ms: 0, seq: 0 },
    }
}

/// Looks at these entries until `count` of them are taken, and at most at ten times as many.
pub(crate) fn look(
    alloc: Global,
    call: &Call<'_>,
    found: Nacks<'_>,
    count: u64,
) -> Result<Looked, AllocError>
    ensures { IfOk result (λ looked. IsScan
        call.now.claim call.now.claimer.now call.now.moment call.now.entries.now.entries
        count found.entry looked.ids.items looked.next) }
{
    let mut rest = found;
    let mut ids = Vec::new(alloc);
    let mut left = count;
    while left > 0 && ids.len() as u64 / 10 < count {
        let Some(nack) = rest.next() else {
            return Ok(Looked {
                ids,
                next: Id { ms: 0, seq: 0 },
            });
        };
        ids.push(nack.id)?;
        left = left_after(call, nack, left);
    }
    let next = first_id(rest);
    Ok(Looked { ids, next })
}
