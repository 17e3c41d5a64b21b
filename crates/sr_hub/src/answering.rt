//! The requests of one connection, each answered in turn at the book.
ghost use Rattle.std.specs.Prelude.{◌≡◌, ◌<◌, ◌⊎◌, IsTrue, IfOk, IfErr, false, true, is_some};
ghost use Rattle.sr_resp.specs.Request.{Words as RequestWords};
ghost use Rattle.sr_args.specs.declared.call.Command.TheVariants as commands;
ghost use Rattle.sr_args.specs.{IsCommand};
ghost use Rattle.sr_book.specs.Records.{IsCertain};
ghost use Rattle.sr_book.specs.{letter_of};
ghost use Rattle.sr_session.specs.steps.Asked.{IsAsked};
ghost use Rattle.sr_hub.specs.Line.{IsAtRest, is_asking};
ghost use Rattle.sr_hub.specs.Said.{IsTimed};
ghost use Rattle.sr_hub.specs.steps.Moves.{Answers, Moves};
ghost use Rattle.sr_hub.specs.steps.Left.{left};
ghost use Rattle.sr_hub.specs.steps.Telling.{Comes, IsRefusedBy, refusal_code};

use crate::rounds::ask_recovery;
use crate::{Connection, Recovery, Stage};
use sr_args::{Call, CallFault, Command, read_call};
use sr_book::{Book, BookFault, Event, Out, Status};
use sr_bytes::Name;
use sr_resp::ErrCode;
use sr_session::code_of_fault;
use std::alloc::{AllocError, Global};

/// While this many bytes are to be sent, no further request of a connection is begun.
const FULL: usize = 64 * 1024;

/// Answers what waits, one request after another, until there is nothing to go on with.
pub(crate) fn answer_waiting(
    alloc: Global,
    book: &mut Book,
    connection: &mut Connection,
    moment: u64,
)
    ensures moves { Moves book.old connection.old book.new connection.new }
    ensures rest { IsAtRest 65536 book.new.server connection.new connection.new.stage }
    ensures asks { is_asking connection.new.stage ≡ true
        → (is_asking connection.old.stage ≡ true) ⊎ (left connection.new < left connection.old) }
    ensures timed { IsTimed moment book.old book.new }
{
    while answer_more(alloc, book, connection, moment) {}
}

/// Takes the letter of a connection that waits, or answers the next request of one that does not. Answers whether
/// there was one.
#[tactic(auto, using(crate::proofs::TimeLemmas::timed))]
fn answer_more(alloc: Global, book: &mut Book, connection: &mut Connection, moment: u64) -> bool
    ensures moves { Moves book.old connection.old book.new connection.new }
    ensures fewer { IsTrue result → left connection.new < left connection.old }
    ensures rest { result ≡ false → IsAtRest 65536 book.new.server connection.new connection.new.stage }
    ensures stays { result ≡ false → is_asking connection.new.stage ≡ true → connection.new ≡ connection.old }
    ensures timed { IsTimed moment book.old book.new }
{
    match &connection.stage {
        Stage::Idle => answer_next(alloc, book, connection, moment),
        Stage::Waiting => take_letter(alloc, book, connection),
        Stage::Asks(_) | Stage::Judges(_) | Stage::Broken | Stage::CutOff => false,
    }
}

/// Answers the next request of a connection that can take one, if one waits and few bytes are to be sent. If none waits
/// and its bytes went wrong, it is told so. Answers whether there was a request.
#[tactic(auto, using(crate::proofs::TimeLemmas::timed))]
fn answer_next(alloc: Global, book: &mut Book, connection: &mut Connection, moment: u64) -> bool
    requires { connection.old.stage ≡ Stage.Idle }
    ensures moves { Moves book.old connection.old book.new connection.new }
    ensures fewer { IsTrue result → left connection.new < left connection.old }
    ensures rest { result ≡ false → IsAtRest 65536 book.new.server connection.new connection.new.stage }
    ensures ends { result ≡ false → is_asking connection.new.stage ≡ false }
    ensures timed { IsTimed moment book.old book.new }
{
    if connection.unsent.len() >= FULL {
        connection.usage.stops();
        return false;
    }
    let Some(words) = connection.requests.next_request() else {
        connection.usage.has_looked();
        connection.tell_fault(alloc);
        return false;
    };
    connection.usage.looks(moment);
    let asked = read_call(alloc, &words);
    answer_asked(alloc, book, connection, moment, asked);
    true
}

/// Hands a connection that waits the reply that its session was given, if there is one. Answers whether there was.
fn take_letter(alloc: Global, book: &Book, connection: &mut Connection) -> bool
    requires { connection.old.stage ≡ Stage.Waiting }
    ensures moves { Moves book.now connection.old book.now connection.new }
    ensures fewer { IsTrue result → left connection.new < left connection.old }
    ensures rest { result ≡ false → IsAtRest 65536 book.now.server connection.new connection.new.stage }
    ensures stays { result ≡ false → connection.new ≡ connection.old }
{
    book.legal();
    if !has_letter(book, connection.session) {
        return false;
    }
    match book.collect(alloc, connection.session) {
        Ok(Some(letter)) => connection.tell(&letter.reply),
        Ok(None) => unreachable!(),
        Err(AllocError) => connection.pass_to(Stage::CutOff),
    }
    true
}

/// Whether the session was given a reply while it waited, and had no event since.
pub(crate) fn has_letter(book: &Book, session: u64) -> bool
    ensures { result ≡ is_some (letter_of session book.now.server.sessions) }
{
    book.legal();
    match book.status(session) {
        Status::Letter => true,
        Status::Closed | Status::Idle | Status::Waiting => false,
    }
}

/// Answers one request: the command that its words are, or why they are none.
#[tactic(auto, using(crate::proofs::TimeLemmas::timed))]
fn answer_asked(
    alloc: Global,
    book: &mut Book,
    connection: &mut Connection,
    moment: u64,
    asked: Result<Command, CallFault>,
)
    requires { connection.old.stage ≡ Stage.Idle }
    ensures answers { (words : RequestWords) → IsAsked words asked
        → Answers words book.old connection.old book.new connection.new }
    ensures requests { connection.new.requests ≡ connection.old.requests }
    ensures timed { IsTimed moment book.old book.new }
{
    match asked {
        Ok(command) => answer_command(alloc, book, connection, moment, command),
        Err(fault) => connection.tell_error(alloc, code_of_fault(fault)),
    }
}

/// Answers one command.
#[tactic(auto, using(crate::proofs::TimeLemmas::timed))]
fn answer_command(
    alloc: Global,
    book: &mut Book,
    connection: &mut Connection,
    moment: u64,
    command: Command,
)
    requires { connection.old.stage ≡ Stage.Idle }
    ensures answers { (words : RequestWords) → IsCommand words command
        → Answers words book.old connection.old book.new connection.new }
    ensures requests { connection.new.requests ≡ connection.old.requests }
    ensures timed { IsTimed moment book.old book.new }
{
    match command {
        Command::Call(call) => answer_call(alloc, book, connection, moment, call),
        Command::Board { key, group } => answer_board(alloc, book, connection, moment, key, group),
        Command::Recover {
            apply,
            tries,
            key,
            group,
            dead,
        } => {
            let recovery = Recovery {
                apply,
                tries,
                key,
                group,
                dead,
            };
            ask_recovery(alloc, connection, recovery)
        }
    }
}

/// Answers a call, or has the connection wait for its letter.
#[tactic(auto, using(crate::proofs::TimeLemmas::timed))]
fn answer_call(alloc: Global, book: &mut Book, connection: &mut Connection, moment: u64, call: Call)
    requires { connection.old.stage ≡ Stage.Idle }
    ensures answers { (words : RequestWords) → IsCommand words (commands.Call call)
        → Answers words book.old connection.old book.new connection.new }
    ensures requests { connection.new.requests ≡ connection.old.requests }
    ensures timed { IsTimed moment book.old book.new }
{
    let event = Event::Call {
        session: connection.session,
        call,
    };
    match said(alloc, book, moment, event) {
        Ok(out) => match out {
            Out::Reply(reply) => connection.tell(&reply),
            Out::Blocked => connection.pass_to(Stage::Waiting),
            Out::Joined(_) | Out::Snap(_) | Out::Stale(_) | Out::Expired(_) | Out::Left =>
                unreachable!(),
        },
        Err(code) => connection.tell_error(alloc, code),
    }
}

/// Answers with the board of a group.
#[tactic(auto, using(crate::proofs::TimeLemmas::timed))]
fn answer_board(
    alloc: Global,
    book: &mut Book,
    connection: &mut Connection,
    moment: u64,
    key: Name,
    group: Name,
)
    requires { connection.old.stage ≡ Stage.Idle }
    ensures answers { (words : RequestWords) → IsCommand words (commands.Board key group)
        → Answers words book.old connection.old book.new connection.new }
    ensures requests { connection.new.requests ≡ connection.old.requests }
    ensures timed { IsTimed moment book.old book.new }
{
    let event = Event::Board {
        session: connection.session,
        key,
        group,
    };
    match said(alloc, book, moment, event) {
        Ok(out) => match out {
            Out::Reply(reply) => connection.tell(&reply),
            Out::Joined(_)
            | Out::Blocked
            | Out::Snap(_)
            | Out::Stale(_)
            | Out::Expired(_)
            | Out::Left => { unreachable!() }
        },
        Err(code) => connection.tell_error(alloc, code),
    }
}

/// What comes of an event of a session that may call, or the error that says why it was refused.
pub(crate) fn said(
    alloc: Global,
    book: &mut Book,
    moment: u64,
    event: Event,
) -> Result<Out, ErrCode>
    requires { IsCertain event }
    ensures ok { IfOk result (λ out. Comes book.old moment event out book.new) }
    ensures err { IfErr result (λ code. IsRefusedBy book.old moment event code book.new) }
{
    book.legal();
    match book.step(alloc, moment, event) {
        Ok(answer) => Ok(answer.out),
        Err(refused) => Err(code_of_refusal(refused.fault)),
    }
}

/// The error that says why an event was refused. An open session that does not wait is refused for two reasons alone.
fn code_of_refusal(fault: BookFault) -> ErrCode
    ensures { result ≡ refusal_code fault }
{
    match fault {
        BookFault::Full => ErrCode::Full,
        BookFault::Memory | BookFault::Busy | BookFault::NoSession => ErrCode::Memory,
    }
}
