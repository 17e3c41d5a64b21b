ghost use Rattle.std.specs.Prelude.{◌≡◌, IfOk, OnOk, OnErr, map, take};
ghost use Rattle.sr_plan.specs.{claim_calls};
ghost use Rattle.sr_space.specs.Commit.{after_calls};
ghost use Rattle.sr_space.specs.steps.Claiming.{move_for, stream_after};

use crate::Space;
use crate::bounds::in_63_bits;
use crate::commands::xclaim::{ClaimAsked, claim_as};
use sr_args::TimeAsked;
use sr_bytes::Name;
use sr_group::Move;
use sr_plan::{Batch, Verdict};
use sr_stream::Stream;
use std::alloc::{AllocError, Global};

impl Space {
    /// Carries out a plan at a moment, in milliseconds since 1970: its calls of XCLAIM, one after another. A shortage
    /// has none. An `Err` leaves every key as it was.
    ///
    /// Source: docs/RECOVERY.md; Redis documentation, command XCLAIM.
    pub fn commit(
        &mut self,
        alloc: Global,
        moment: u64,
        verdict: &Verdict,
    ) -> Result<(), AllocError>
        ensures ok { OnOk result (self.new ≡
            after_calls moment (claim_calls verdict.now.snapshot verdict.now.answer) self.old) }
        ensures err { OnErr result (self.new ≡ self.old) }
    {
        let batches = verdict.batches(alloc)?;
        let snapshot = verdict.snapshot();
        match self.keys.get_mut(snapshot.key()) {
            Some(stream) => {
                stream.sound();
                claim_in(stream, alloc, moment, snapshot.group(), batches.as_slice())
            }
            None => Ok(()),
        }
    }
}

/// Moves the entries of each batch to its consumer, in the group of this name, if the stream has it. All memory is
/// taken before the first change: so after an `Err` the stream shows what it showed.
fn claim_in(
    stream: &mut Stream,
    alloc: Global,
    moment: u64,
    name: &Name,
    batches: &[Batch<'_>],
) -> Result<(), AllocError>
    ensures ok { OnOk result (stream.new.shown ≡ stream_after moment batches.now name.now stream.old.shown) }
    ensures err { OnErr result (stream.new.shown ≡ stream.old.shown) }
{
    if !stream.has_group(name) {
        return Ok(());
    }
    let moves = moves_of(alloc, batches)?;
    stream.sound();
    let (entries, group) = stream.entries_and_group(name);
    group.move_all(alloc, moves.as_slice(), in_63_bits(moment), entries)
}

/// Each batch as a move, with the claim of XCLAIM with a least idle time of 0 and JUSTID.
fn moves_of<'a, 'b>(alloc: Global, batches: &'a [Batch<'b>]) -> Result<Vec<Move<'a>>, AllocError>
    ensures { IfOk result (λ moves. moves.items ≡ map move_for batches.now) }
{
    let claim = claim_as(ClaimAsked {
        least_idle: 0,
        time: TimeAsked::Now,
        count: None,
        just_ids: true,
    });
    let mut moves = Vec::with_capacity(alloc, batches.len())?;
    for batch in batches {
        moves.push(Move::new(batch.consumer(), claim, batch.ids()))?;
    }
    Ok(moves)
}
