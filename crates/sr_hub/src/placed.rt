//! What is done with the connection at a token, in its place in the slab.
ghost use Rattle.std.specs.Prelude.{◌≡◌, ◌≤◌, ◌↔◌, None, IfOk, IfErr, IfSome, IsSomeAnd, IsTrue, OnOk, OnErr};
ghost use Rattle.std.specs.Prelude.{IsSome, false, true, length};
ghost use Rattle.slab.specs.Slab.{get};
ghost use Rattle.sr_book.specs.{BookState};
ghost use Rattle.sr_hub.specs.Said.{IsTimed};
ghost use Rattle.sr_hub.specs.Line.{IsAtRest, is_ended, wanted_of};
ghost use Rattle.sr_hub.specs.steps.Calls.{BeginsAt, ComesAt, ComesNot, GoesAt, GoesNot, IsRefusedAt, MovesAt, SendsAt};
ghost use Rattle.sr_hub.specs.steps.Calls.{TakesAt, hub_of};
ghost use Rattle.sr_hub.specs.steps.Moves.{Takes};
ghost use Rattle.sr_hub.specs.steps.Telling.{IsUntaken};

use crate::answering::answer_waiting;
use crate::bookkeeping::{join, lacking, leave};
use crate::rounds::{begin_asked, conclude_round, judge_round};
use crate::{Connection, Stage, TakeFault};
use slab::Slab;
use sr_book::{Book, BookFault};
use sr_plan::Verdict;
use std::alloc::{AllocError, Global};

/// Makes room for a connection, and has its session join.
pub(crate) fn connect_at(
    alloc: Global,
    book: &mut Book,
    connections: &mut Slab<Connection>,
    moment: u64,
) -> Result<usize, BookFault>
    ensures ok { IfOk result (λ token.
        ComesAt token moment (hub_of book.old connections.old) (hub_of book.new connections.new)) }
    ensures err { IfErr result (λ fault.
        ComesNot fault (hub_of book.old connections.old) (hub_of book.new connections.new)) }
{
    if connections.reserve(1).is_err() {
        return Err(lacking(book));
    }
    match join(alloc, book, moment) {
        Ok(session) => Ok(connections.insert_reserved(Connection::new(alloc, session, moment))),
        Err(fault) => Err(fault),
    }
}

/// Has the session of the connection at a token leave, and lets go of the connection.
pub(crate) fn close_at(
    alloc: Global,
    book: &mut Book,
    connections: &mut Slab<Connection>,
    token: usize,
    moment: u64,
) -> Result<(), BookFault>
    ensures ok { OnOk result
        (GoesAt token moment (hub_of book.old connections.old) (hub_of book.new connections.new)) }
    ensures err { IfErr result (λ fault.
        GoesNot token fault (hub_of book.old connections.old) (hub_of book.new connections.new)) }
{
    let Some(connection) = connections.get(token) else {
        return Ok(());
    };
    match leave(alloc, book, moment, connection.session()) {
        Ok(()) => {
            connections.try_remove(token);
            Ok(())
        }
        Err(fault) => Err(fault),
    }
}

/// Begins the recovery that the connection at a token asks for, if it asks for one, and goes on with the connection.
#[tactic(auto, using(crate::proofs::TimeLemmas::timed))]
pub(crate) fn go_on_at(
    alloc: Global,
    book: &mut Book,
    connections: &mut Slab<Connection>,
    token: usize,
    moment: u64,
) -> bool
    ensures there { result ≡ false ↔ (get connections.old token ≡ None) }
    ensures moves { IsTrue result → MovesAt token (hub_of book.old connections.old) (hub_of book.new connections.new) }
    ensures begins { IsTrue result
        → BeginsAt token (hub_of book.old connections.old) (hub_of book.new connections.new) }
    ensures none { result ≡ false → (book.new ≡ book.old) × (connections.new ≡ connections.old) }
    ensures timed { IsTimed moment book.old book.new }
{
    let Some(connection) = connections.get_mut(token) else {
        return false;
    };
    begin_asked(alloc, book, connection, moment);
    answer_waiting(alloc, book, connection, moment);
    true
}

/// Takes the next bytes of the connection at a token, and goes on with it.
#[tactic(auto, using(crate::proofs::TimeLemmas::timed))]
pub(crate) fn take_at(
    alloc: Global,
    book: &mut Book,
    connections: &mut Slab<Connection>,
    token: usize,
    moment: u64,
    piece: &[u8],
) -> Result<(), TakeFault>
    ensures ok { OnOk result
        (TakesAt token piece.now (hub_of book.old connections.old) (hub_of book.new connections.new)) }
    ensures err { IfErr result (λ fault.
        IsRefusedAt token fault (hub_of book.old connections.old) (hub_of book.new connections.new)) }
    ensures timed { IsTimed moment book.old book.new }
{
    let Some(connection) = connections.get_mut(token) else {
        return Err(TakeFault::Gone);
    };
    take_piece(alloc, book, connection, moment, piece)
}

/// Cuts the connection at a token off, if there is one that is not at its end.
pub(crate) fn pass_over_at(
    book: &Book,
    connections: &mut Slab<Connection>,
    token: usize,
) -> TakeFault
    ensures refused { IsRefusedAt token result (hub_of book.now connections.old) (hub_of book.now connections.new) }
    ensures ended { IfSome (get connections.new token) (λ line. is_ended line.stage ≡ true) }
{
    let Some(connection) = connections.get_mut(token) else {
        return TakeFault::Gone;
    };
    cut_off(connection)
}

/// Cuts a connection off that is not at its end.
fn cut_off(connection: &mut Connection) -> TakeFault
    ensures untaken { IsUntaken result connection.old connection.new }
    ensures ended { is_ended connection.new.stage ≡ true }
{
    if has_ended(&connection.stage) {
        return TakeFault::Ended;
    }
    connection.pass_to(Stage::CutOff);
    TakeFault::Memory
}

/// Takes the first bytes that are to be sent away from the connection at a token.
pub(crate) fn sent_at(connections: &mut Slab<Connection>, token: usize, count: usize)
    requires { IsSomeAnd (get connections.old token) (λ line. count ≤ length line.unsent) }
    ensures { (book : BookState) → SendsAt token count (hub_of book connections.old) (hub_of book connections.new) }
{
    let Some(connection) = connections.get_mut(token) else {
        unreachable!()
    };
    connection.sent(count);
}

/// Concludes a verdict for the connection at a token, and goes on with it.
pub(crate) fn conclude_at(
    alloc: Global,
    book: &mut Book,
    connections: &mut Slab<Connection>,
    token: usize,
    moment: u64,
    verdict: Option<Verdict>,
)
    requires { IsSomeAnd (get connections.old token) (λ line. IsSomeAnd (wanted_of line.stage) (λ shown.
        IfSome verdict (λ judged. judged.snapshot ≡ shown))) }
    ensures moves { MovesAt token (hub_of book.old connections.old) (hub_of book.new connections.new) }
    ensures timed { IsTimed moment book.old book.new }
{
    let Some(connection) = connections.get_mut(token) else {
        unreachable!()
    };
    conclude_round(alloc, book, connection, moment, verdict);
    answer_waiting(alloc, book, connection, moment);
}

/// Makes a verdict for the connection at a token, concludes it, and goes on with the connection.
pub(crate) fn judge_at(
    alloc: Global,
    book: &mut Book,
    connections: &mut Slab<Connection>,
    token: usize,
    moment: u64,
)
    requires { IsSomeAnd (get connections.old token) (λ line. IsSome (wanted_of line.stage)) }
    ensures moves { MovesAt token (hub_of book.old connections.old) (hub_of book.new connections.new) }
    ensures timed { IsTimed moment book.old book.new }
{
    let Some(connection) = connections.get_mut(token) else {
        unreachable!()
    };
    judge_round(alloc, book, connection, moment);
    answer_waiting(alloc, book, connection, moment);
}

/// Takes the next piece of a connection's bytes, and answers each request that is whole now, as far as it goes.
#[tactic(auto, using(crate::proofs::TimeLemmas::timed))]
fn take_piece(
    alloc: Global,
    book: &mut Book,
    connection: &mut Connection,
    moment: u64,
    piece: &[u8],
) -> Result<(), TakeFault>
    ensures goes { OnOk result (is_ended connection.old.stage ≡ false) }
    ensures ok { OnOk result (Takes piece.now book.old connection.old book.new connection.new) }
    ensures rest { OnOk result (IsAtRest 65536 book.new.server connection.new connection.new.stage) }
    ensures err { IfErr result (λ fault. IsUntaken fault connection.old connection.new) }
    ensures stays { OnErr result (book.new ≡ book.old) }
    ensures timed { IsTimed moment book.old book.new }
{
    if has_ended(&connection.stage) {
        return Err(TakeFault::Ended);
    }
    match connection.feed(alloc, piece) {
        Ok(()) => {
            answer_waiting(alloc, book, connection, moment);
            Ok(())
        }
        Err(AllocError) => {
            connection.pass_to(Stage::CutOff);
            Err(TakeFault::Memory)
        }
    }
}

/// Whether a connection gets no more replies.
pub(crate) fn has_ended(stage: &Stage) -> bool
    ensures { result ≡ is_ended stage.now }
{
    match stage {
        Stage::Idle | Stage::Waiting | Stage::Asks(_) | Stage::Judges(_) => false,
        Stage::Broken | Stage::CutOff => true,
    }
}
