ghost use Rattle.std.specs.Prelude.{◌≡◌, IfOk};
ghost use Rattle.sr_policy.specs.{problem_of};
ghost use Rattle.sr_plan.specs.Batches.{batches_in};
ghost use Rattle.sr_plan.specs.Calls.{claim_calls};
ghost use Rattle.sr_check.specs.{verdict_answer};
ghost use Rattle.sr_plan.specs.Verdict.{IsVerdict, IsWorth, total_in, prices_in, moves_in, shortage_in};

use crate::batch::Batch;
use crate::batches::batches_of;
use crate::calls::calls_for;
use crate::moves::{Moves, Shortage};
use crate::prices::Prices;
use crate::reply::{plan_reply, shortage_reply};
use sr_args::Call;
use sr_bytes::Name;
use sr_ids::Id;
use sr_policy::{Snapshot, problem};
use sr_resp::Reply;
use sr_solver::solve;
use sr_transport::Solved;
use std::alloc::{AllocError, Global};
use std::marker::Model;

/// A snapshot, and a valid certificate of its problem: a cheapest assignment with prices, or a shortage.
///
/// It is kept in a block of its own, so that what holds a verdict, as an event does, is as small without one.
pub struct Verdict {
    judged: Box<Judgement>,
}

#[derive(Drop)]
struct Judgement {
    snapshot: Snapshot,
    solved: Solved,
}

// A function of its own, so that a caller that lets go of one is proved without looking at its parts.
impl Drop for Verdict {
    fn drop(self) {
        let Verdict { judged: _ } = self;
    }
}

impl Model for Verdict {
    ghost use Rattle.sr_plan.specs.Verdict.{IsVerdict, Judged};
    ghost use Rattle.sr_plan.specs.steps.Judged.{judged_in};

    ghost Value = { Judged };

    ghost view = { λ v. judged_in v.judged.value };

    ghost invariant = { λ v. IsVerdict (judged_in v.judged.value) };
}

impl Verdict {
    /// The verdict on a snapshot. If memory is refused, the snapshot is dropped.
    ///
    /// Source: docs/RECOVERY.md.
    pub fn make(alloc: Global, snapshot: Snapshot) -> Result<Verdict, AllocError>
        ensures { IfOk result (λ verdict. verdict.snapshot ≡ snapshot) }
    {
        snapshot.sound();
        let problem = problem(alloc, &snapshot)?;
        let solved = solve(alloc, &problem)?;
        let judged = Box::new(alloc, Judgement { snapshot, solved })?;
        Ok(Verdict { judged })
    }

    /// The snapshot that was judged.
    pub fn snapshot(&self) -> &Snapshot
        ensures { result.now ≡ self.now.snapshot }
    {
        &self.judged.snapshot
    }

    /// Law: a verdict shows that it is right, by its prices or by its shortage. Calling this has no effect.
    pub fn sound(&self)
        ensures { IsVerdict self.now }
    {
        let _ = &self.judged;
    }

    /// Law: no assignment costs less than a plan; and if there is a shortage, there is no assignment.
    ///
    /// Calling this has no effect.
    pub fn optimal(&self)
        ensures { IsWorth (problem_of self.now.snapshot) self.now.answer }
    {
        let _ = &self.judged;
    }

    /// What a plan costs: the sum of rate times weight over its moves, and of the fees of entries beyond soft limits.
    /// `None` for a shortage.
    pub fn total(&self) -> Option<u64>
        ensures { result ≡ total_in self.now.answer }
    {
        match &self.judged.solved {
            Solved::Best { total, .. } => Some(*total),
            Solved::Short { .. } => None,
        }
    }

    /// The prices that show a plan to be a cheapest one: each live consumer, in their order, with one for each of its
    /// tiers, in the unit of the costs. `None` for a shortage.
    pub fn prices(&self) -> Option<Prices<'_>>
        ensures { result ≡ prices_in self.now.snapshot self.now.answer }
    {
        let judged = &*self.judged;
        match &judged.solved {
            Solved::Best { prices, .. } => {
                Some(Prices::new(judged.snapshot.live(), prices.as_slice()))
            }
            Solved::Short { .. } => None,
        }
    }

    /// The moves of a plan: each stranded entry with the consumer that it goes to, by id. `None` for a shortage.
    pub fn moves(&self) -> Option<Moves<'_>>
        ensures { result ≡ moves_in self.now.snapshot self.now.answer }
    {
        let judged = &*self.judged;
        match &judged.solved {
            Solved::Best { assign, .. } => Some(Moves::new(
                judged.snapshot.stranded(),
                assign.as_slice(),
                judged.snapshot.live(),
            )),
            Solved::Short { .. } => None,
        }
    }

    /// The entries of a shortage, by id: they are more than the places at all consumers that any of them is allowed.
    /// `None` for a plan.
    pub fn shortage(&self) -> Option<Shortage<'_>>
        ensures { result ≡ shortage_in self.now.snapshot self.now.answer }
    {
        let judged = &*self.judged;
        match &judged.solved {
            Solved::Best { .. } => None,
            Solved::Short { set } => {
                Some(Shortage::new(set.as_slice(), judged.snapshot.stranded()))
            }
        }
    }

    /// The entries that are pending for the dead and no longer in the stream, by id, each with its owner. No plan moves
    /// them.
    pub fn gone(&self) -> &[(Id, Name)]
        ensures { result.now ≡ self.now.snapshot.gone }
    {
        self.judged.snapshot.gone()
    }

    /// What a plan gives each consumer that gets entries, in byte order of their names. A shortage gives nothing.
    pub fn batches(&self, alloc: Global) -> Result<Vec<Batch<'_>>, AllocError>
        ensures { IfOk result (λ batches. batches.items ≡ batches_in self.now.snapshot self.now.answer) }
    {
        let judged = &*self.judged;
        match &judged.solved {
            Solved::Best { assign, .. } => batches_of(alloc, &judged.snapshot, assign.as_slice()),
            Solved::Short { .. } => Ok(Vec::new(alloc)),
        }
    }

    /// The calls of XCLAIM that carry out a plan: one for each consumer that gets entries, in byte order of their
    /// names. For a shortage there are none.
    ///
    /// Source: Redis documentation, command XCLAIM.
    pub fn claim_calls(&self, alloc: Global) -> Result<Vec<Call>, AllocError>
        ensures { IfOk result (λ calls. calls.items ≡ claim_calls self.now.snapshot self.now.answer) }
    {
        let batches = self.batches(alloc)?;
        calls_for(alloc, &self.judged.snapshot, batches.as_slice())
    }

    /// The verdict as RECOVER.PLAN replies it, or, if it was carried out, as RECOVER.RUN does.
    ///
    /// Source: docs/COMMANDS.md.
    pub fn reply(&self, alloc: Global, applied: bool) -> Result<Reply, AllocError>
        ensures { IfOk result (λ reply. reply ≡ verdict_answer self.now.snapshot self.now.answer applied) }
    {
        let judged = &*self.judged;
        match &judged.solved {
            Solved::Best {
                assign,
                prices,
                total,
            } => plan_reply(
                alloc,
                &judged.snapshot,
                assign.as_slice(),
                prices.as_slice(),
                *total,
                applied,
            ),
            Solved::Short { set } => shortage_reply(alloc, &judged.snapshot, set.as_slice()),
        }
    }
}
