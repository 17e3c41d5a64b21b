ghost use Rattle.std.specs.Prelude.{◌≡◌, IfOk};
ghost use Rattle.sr_plan.specs.Calls.{claim_call, calls_for as calls_of};

use crate::batch::Batch;
use sr_args::commands::Xclaim;
use sr_args::{Call, TimeAsked};
use sr_ids::Ids;
use sr_policy::Snapshot;
use std::alloc::{AllocError, Global};

/// The calls that claim the entries of these batches for their consumers, in their order.
///
/// Source: Redis documentation, command XCLAIM.
pub(crate) fn calls_for(
    alloc: Global,
    snapshot: &Snapshot,
    batches: &[Batch<'_>],
) -> Result<Vec<Call>, AllocError>
    ensures { IfOk result (λ calls. calls.items ≡ calls_of snapshot.now.key snapshot.now.group batches.now) }
{
    let mut calls = Vec::with_capacity(alloc, batches.len())?;
    for batch in batches {
        let call = call_for(alloc, snapshot, batch)?;
        calls.push(call)?;
    }
    Ok(calls)
}

/// The call that claims the entries of a batch for its consumer.
fn call_for(alloc: Global, snapshot: &Snapshot, batch: &Batch<'_>) -> Result<Call, AllocError>
    ensures { IfOk result (λ call. call ≡ claim_call snapshot.now.key snapshot.now.group batch.now) }
{
    let ids = Vec::from_slice(alloc, batch.ids())?;
    Ok(Call::Xclaim(Xclaim {
        key: snapshot.key().copy(alloc)?,
        group: snapshot.group().copy(alloc)?,
        consumer: batch.consumer().copy(alloc)?,
        least_idle: 0,
        ids: Ids::new(ids),
        time: TimeAsked::Now,
        count: None,
        just_ids: true,
    }))
}
