//! RECOVER.PLAN and RECOVER.RUN: a snapshot, and then rounds in which a verdict is made of it and concluded.
ghost use Rattle.std.specs.Prelude.{◌≡◌, [], ◌∷◌, None, OnOk, IfOk, IfErr};
ghost use Rattle.sr_args.specs.declared.call.Command.TheVariants as commands;
ghost use Rattle.sr_session.specs.Answered.{Replies};
ghost use Rattle.sr_session.specs.Desk.{IsIdle};
ghost use Rattle.sr_session.specs.Rounds.{BreaksIn, RepliesIn};
ghost use Rattle.sr_session.specs.Unanswered.{IsUnanswered};
ghost use Rattle.sr_session.specs.steps.Calling.{Adds};

use crate::{Clock, Desk, DeskFault, Gate};
use sr_args::Names;
use sr_book::{Event, Out};
use sr_bytes::Name;
use sr_plan::Verdict;
use sr_policy::Snapshot;
use sr_resp::Reply;
use std::alloc::{AllocError, Global};

/// The reply to RECOVER.PLAN, or with `apply` to RECOVER.RUN: that of the verdict on the group as it is, or why there
/// is none.
///
/// The verdict is made between two steps and inside none, so that the group may change meanwhile: then the next round
/// has a fresh snapshot. At most `tries` rounds are made, but one may always be.
///
/// Source: docs/RECOVERY.md.
pub(crate) fn recover<D: Desk, C: Clock, G: Gate>(
    alloc: Global,
    desk: &mut D,
    clock: &C,
    gate: &G,
    session: u64,
    apply: bool,
    tries: u64,
    key: Name,
    group: Name,
    dead: Names,
) -> Result<Reply, DeskFault>
    ensures ok { IfOk result
        (λ reply. Replies (C.may_tell clock.now) session (commands.Recover apply tries key group dead)
        (D.shows desk.old) reply (D.shows desk.new)) }
    ensures idle { OnOk result (IsIdle session (D.shows desk.old) → IsIdle session (D.shows desk.new)) }
    ensures err { IfErr result
        (λ fault. IsUnanswered (C.may_tell clock.now) session (commands.Recover apply tries key group dead)
        (D.shows desk.old) fault (D.shows desk.new)) }
    ensures same { D.borrows desk.new ≡ D.borrows desk.old }
{
    let event = Event::Snapshot {
        session,
        key,
        group,
        dead,
    };
    match desk.step(alloc, clock.now(), event) {
        Ok(answer) => match answer.out {
            Out::Reply(reply) => Ok(reply),
            Out::Snap(snapshot) => {
                let rounds = tries.max(1);
                make_rounds(alloc, desk, clock, gate, session, apply, rounds, snapshot)
            }
            Out::Joined(_) | Out::Blocked | Out::Stale(_) | Out::Expired(_) | Out::Left => {
                Err(DeskFault::Idle)
            }
        },
        Err(fault) => Err(fault),
    }
}

/// What comes of a recovery in at most this many rounds, from a snapshot on.
fn make_rounds<D: Desk, C: Clock, G: Gate>(
    alloc: Global,
    desk: &mut D,
    clock: &C,
    gate: &G,
    session: u64,
    apply: bool,
    rounds: u64,
    snapshot: Snapshot,
) -> Result<Reply, DeskFault>
    requires some { rounds ≡ 0 → D.shows desk.old ≡ None }
    ensures ok { IfOk result (λ reply.
        RepliesIn (C.may_tell clock.now) session apply rounds snapshot (D.shows desk.old) reply (D.shows desk.new)) }
    ensures recorded { IfOk result (λ reply. Adds session (D.shows desk.old) (reply ∷ []) (D.shows desk.new)) }
    ensures idle { OnOk result (IsIdle session (D.shows desk.old) → IsIdle session (D.shows desk.new)) }
    ensures err { IfErr result (λ fault.
        BreaksIn (C.may_tell clock.now) session apply rounds snapshot (D.shows desk.old) fault (D.shows desk.new)) }
    ensures unrecorded { IfErr result (λ fault. Adds session (D.shows desk.old) [] (D.shows desk.new)) }
    ensures same { D.borrows desk.new ≡ D.borrows desk.old }
{
    if rounds == 0 {
        return Err(DeskFault::Idle);
    }
    desk.pause();
    gate.between(session);
    let Ok(verdict) = Verdict::make(alloc, snapshot) else {
        return Err(DeskFault::Memory);
    };
    let event = Event::Conclude {
        session,
        verdict,
        apply,
        last: rounds == 1,
    };
    match desk.step(alloc, clock.now(), event) {
        Ok(answer) => match answer.out {
            Out::Reply(reply) => Ok(reply),
            Out::Stale(fresh) => {
                make_rounds(alloc, desk, clock, gate, session, apply, rounds - 1, fresh)
            }
            Out::Joined(_) | Out::Blocked | Out::Snap(_) | Out::Expired(_) | Out::Left => {
                Err(DeskFault::Idle)
            }
        },
        Err(fault) => Err(fault),
    }
}
