//! Recoveries: a snapshot, and then rounds, in each of which a verdict on the last snapshot is concluded.
ghost use Rattle.std.specs.Prelude.{◌≡◌, IfSome, IsSome, IsSomeAnd, false};
ghost use Rattle.sr_resp.specs.Request.{Words as RequestWords};
ghost use Rattle.sr_args.specs.declared.call.Command.TheVariants as commands;
ghost use Rattle.sr_args.specs.{IsCommand};
ghost use Rattle.sr_book.specs.{BookState};
ghost use Rattle.sr_hub.specs.Line.{is_asking, wanted_of};
ghost use Rattle.sr_hub.specs.Said.{IsTimed};
ghost use Rattle.sr_hub.specs.steps.Moves.{Answers, AnswersAs, Moves};
ghost use Rattle.sr_hub.specs.steps.Left.{Concludes, left};
ghost use Rattle.sr_hub.specs.declared.stage.Stage.{Stage as ConnectionStage};

use crate::answering::said;
use crate::shelf::Shelf;
use crate::{Connection, Judging, Recovery, Stage};
use sr_book::{Book, Event, Out};
use sr_plan::Verdict;
use sr_policy::Snapshot;
use sr_resp::ErrCode;
use std::alloc::{AllocError, Global};

/// A recovery in one of its rounds.
#[derive(Drop)]
struct Round {
    apply: bool,
    /// How many rounds it may make after this one.
    later: u64,
    /// Where the snapshot for the next one is kept.
    shelf: Shelf,
}

/// Has a connection ask for a recovery, if there is memory to keep what it asks for.
pub(crate) fn ask_recovery(alloc: Global, connection: &mut Connection, recovery: Recovery)
    requires { connection.old.stage ≡ Stage.Idle }
    ensures answers { (book : BookState) (words : RequestWords) → IsCommand words (commands.Recover recovery.apply
        recovery.tries recovery.key recovery.group recovery.dead)
        → Answers words book connection.old book connection.new }
    ensures requests { connection.new.requests ≡ connection.old.requests }
{
    match Box::new(alloc, recovery) {
        Ok(asked) => connection.pass_to(Stage::Asks(asked)),
        Err(_) => connection.tell_error(alloc, ErrCode::Memory),
    }
}

/// Begins the recovery that a connection asks for, if it asks for one.
#[tactic(auto, using(crate::proofs::TimeLemmas::timed))]
pub(crate) fn begin_asked(alloc: Global, book: &mut Book, connection: &mut Connection, moment: u64)
    ensures moves { Moves book.old connection.old book.new connection.new }
    ensures begun { is_asking connection.new.stage ≡ false }
    ensures left { left connection.new ≡ left connection.old }
    ensures timed { IsTimed moment book.old book.new }
{
    if !asks(&connection.stage) {
        return;
    }
    let Stage::Asks(asked) = connection.take_stage() else {
        unreachable!()
    };
    connection.pass_to(Stage::Idle);
    begin_recovery(alloc, book, connection, moment, Box::into_inner(asked));
}

/// Whether a connection asks for a recovery that is not begun yet.
pub(crate) fn asks(stage: &Stage) -> bool
    ensures { result ≡ is_asking stage.now }
{
    match stage {
        Stage::Asks(_) => true,
        Stage::Idle | Stage::Waiting | Stage::Judges(_) | Stage::Broken | Stage::CutOff => false,
    }
}

/// Begins a recovery, if there is memory to keep its snapshots.
#[tactic(auto, using(crate::proofs::TimeLemmas::timed))]
fn begin_recovery(
    alloc: Global,
    book: &mut Book,
    connection: &mut Connection,
    moment: u64,
    recovery: Recovery,
)
    requires { connection.old.stage ≡ Stage.Idle }
    ensures answers { AnswersAs (commands.Recover recovery.apply recovery.tries recovery.key recovery.group
        recovery.dead) book.old connection.old book.new connection.new }
    ensures begun { is_asking connection.new.stage ≡ false }
    ensures left { left connection.new ≡ left connection.old }
    ensures timed { IsTimed moment book.old book.new }
{
    match Shelf::new(alloc) {
        Ok(shelf) => take_snapshot(alloc, book, connection, moment, recovery, shelf),
        Err(AllocError) => connection.tell_error(alloc, ErrCode::Memory),
    }
}

/// Takes the snapshot with which a recovery begins: then a verdict is wanted, or it is answered at once.
#[tactic(auto, using(crate::proofs::TimeLemmas::timed))]
fn take_snapshot(
    alloc: Global,
    book: &mut Book,
    connection: &mut Connection,
    moment: u64,
    recovery: Recovery,
    shelf: Shelf,
)
    requires { connection.old.stage ≡ Stage.Idle }
    ensures answers { AnswersAs (commands.Recover recovery.apply recovery.tries recovery.key recovery.group
        recovery.dead) book.old connection.old book.new connection.new }
    ensures begun { is_asking connection.new.stage ≡ false }
    ensures left { left connection.new ≡ left connection.old }
    ensures timed { IsTimed moment book.old book.new }
{
    let Recovery {
        apply,
        tries,
        key,
        group,
        dead,
    } = recovery;
    let event = Event::Snapshot {
        session: connection.session,
        key,
        group,
        dead,
    };
    match said(alloc, book, moment, event) {
        Ok(out) => match out {
            Out::Reply(reply) => connection.tell(&reply),
            Out::Snap(snapshot) => {
                let later = tries.max(1) - 1;
                connection.pass_to(Stage::Judges(Judging {
                    apply,
                    later,
                    snapshot: shelf.keep(snapshot),
                }))
            }
            Out::Joined(_) | Out::Blocked | Out::Stale(_) | Out::Expired(_) | Out::Left =>
                unreachable!(),
        },
        Err(code) => connection.tell_error(alloc, code),
    }
}

/// Concludes a verdict on the snapshot that is wanted: the recovery is replied, or has a fresh snapshot for its next
/// round. `None` says that memory was lacking for a verdict.
#[tactic(auto, using(crate::proofs::TimeLemmas::timed))]
pub(crate) fn conclude_round(
    alloc: Global,
    book: &mut Book,
    connection: &mut Connection,
    moment: u64,
    verdict: Option<Verdict>,
)
    requires { IsSomeAnd (wanted_of connection.old.stage) (λ shown.
        IfSome verdict (λ judged. judged.snapshot ≡ shown)) }
    ensures moves { Moves book.old connection.old book.new connection.new }
    ensures timed { IsTimed moment book.old book.new }
{
    let (_, round) = take_round(connection);
    match verdict {
        Some(verdict) => conclude_verdict(alloc, book, connection, moment, verdict, round),
        None => connection.tell_error(alloc, ErrCode::Memory),
    }
}

/// Makes a verdict on the snapshot that is wanted, and concludes it: the recovery is replied, or has a fresh snapshot
/// for its next round.
#[tactic(auto, using(crate::proofs::TimeLemmas::timed))]
pub(crate) fn judge_round(alloc: Global, book: &mut Book, connection: &mut Connection, moment: u64)
    requires { IsSome (wanted_of connection.old.stage) }
    ensures moves { Moves book.old connection.old book.new connection.new }
    ensures timed { IsTimed moment book.old book.new }
{
    let (snapshot, round) = take_round(connection);
    match Verdict::make(alloc, snapshot) {
        Ok(verdict) => conclude_verdict(alloc, book, connection, moment, verdict, round),
        Err(AllocError) => connection.tell_error(alloc, ErrCode::Memory),
    }
}

/// Takes the recovery of a connection out: the snapshot that is wanted, and its round. The connection is as if it was
/// cut off until it passes to another stage. Takes no memory.
fn take_round(connection: &mut Connection) -> (Snapshot, Round)
    requires { IsSome (wanted_of connection.old.stage) }
    ensures stage { connection.old.stage ≡ Stage.Judges (record {
      apply = result.1.apply;
      later = result.1.later;
      snapshot = result.0;
    }) }
    ensures rest { connection.new ≡ record connection.old { stage = Stage.CutOff } }
{
    let Stage::Judges(judging) = connection.take_stage() else {
        unreachable!()
    };
    let Judging {
        apply,
        later,
        snapshot,
    } = judging;
    let (snapshot, shelf) = snapshot.take_out();
    let round = Round {
        apply,
        later,
        shelf,
    };
    (snapshot, round)
}

/// Concludes this verdict in this round of a recovery, whatever stage of it the connection was in.
#[tactic(auto, using(crate::proofs::TimeLemmas::timed))]
fn conclude_verdict(
    alloc: Global,
    book: &mut Book,
    connection: &mut Connection,
    moment: u64,
    verdict: Verdict,
    round: Round,
)
    ensures moves { (stage : ConnectionStage) → Concludes stage verdict round.apply round.later
        → Moves book.old (record connection.old { stage = stage }) book.new connection.new }
    ensures timed { IsTimed moment book.old book.new }
{
    let Round {
        apply,
        later,
        shelf,
    } = round;
    verdict.sound();
    let event = Event::Conclude {
        session: connection.session,
        verdict,
        apply,
        last: later == 0,
    };
    match said(alloc, book, moment, event) {
        Ok(out) => match out {
            Out::Reply(reply) => connection.tell(&reply),
            Out::Stale(snapshot) => {
                let fewer = later - 1;
                connection.pass_to(Stage::Judges(Judging {
                    apply,
                    later: fewer,
                    snapshot: shelf.keep(snapshot),
                }))
            }
            Out::Joined(_) | Out::Blocked | Out::Snap(_) | Out::Expired(_) | Out::Left =>
                unreachable!(),
        },
        Err(code) => connection.tell_error(alloc, code),
    }
}
