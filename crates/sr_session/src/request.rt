ghost use Rattle.std.specs.Prelude.{◌≡◌, ℕ, ◌<◌, List, length, false, OnOk, IfOk, IfErr};
ghost use Rattle.std.specs.Io.KnownBytes.{Appends};
ghost use Rattle.sr_resp.specs.{Words, reply_text};
ghost use Rattle.sr_args.specs.{IsCommand};
ghost use Rattle.sr_session.specs.Answered.{Answers, Holds, code_of, taken_as};
ghost use Rattle.sr_session.specs.Desk.{IsIdle};
ghost use Rattle.sr_session.specs.steps.Asked.{IsAsked};
ghost use Rattle.sr_session.specs.steps.Calling.{Fails, IsDeskEnd, made_of};
ghost use Rattle.sr_session.specs.steps.Gathered.{Moves, BreaksOff, Gathers, Stops, IsNoted};
ghost use Rattle.sr_session.specs.steps.Underway.{IsPieceEnd};

use crate::calling::answer;
use crate::replies::Replies;
use crate::{Clock, Desk, DeskFault, End, Gate};
use sr_args::{CallFault, Command};
use sr_resp::{ErrCode, Reply, Sink};
use std::alloc::Global;

/// The error that says why words are not a command.
pub fn code_of_fault(fault: CallFault) -> ErrCode
    ensures { result ≡ code_of fault }
{
    match fault {
        CallFault::Unknown => ErrCode::Unknown,
        CallFault::Arity => ErrCode::Arity,
        CallFault::Syntax => ErrCode::Syntax,
        CallFault::Number => ErrCode::Number,
        CallFault::BadId => ErrCode::BadId,
        CallFault::Memory => ErrCode::Memory,
    }
}

/// Answers one request of an open session that does not wait: its reply is gathered. Replies that were gathered before
/// a call that may wait are sent first, and so are long ones.
pub(crate) fn answer_asked<W: Sink, D: Desk, C: Clock, G: Gate>(
    alloc: Global,
    writer: &mut W,
    desk: &mut D,
    clock: &C,
    gate: &G,
    blocking: bool,
    session: u64,
    asked: Result<Command, CallFault>,
    replies: &mut Replies,
) -> Result<(), End>
    requires sound { W.failed writer.old ≡ false }
    requires idle { IsIdle session (D.shows desk.old) }
    ensures ok { OnOk result ((gets : List ℕ) × Appends (W.contents writer.old) (W.contents writer.new) gets
        × ((words : Words) → IsAsked words asked → Gathers (Answers (C.may_tell clock.now) blocking session)
        replies.old.gathered.items replies.old.sent (D.shows desk.old) words
        gets replies.new.gathered.items replies.new.sent (D.shows desk.new))) }
    ensures idle { OnOk result (IsIdle session (D.shows desk.new)) }
    ensures err { IfErr result (λ end. (gets : List ℕ) × Appends (W.contents writer.old) (W.contents writer.new) gets
        × ((words : Words) → IsAsked words asked → Stops (Answers (C.may_tell clock.now) blocking session)
        (Holds (C.may_tell clock.now) blocking session)
        replies.old.gathered.items replies.old.sent (D.shows desk.old) words gets end (D.shows desk.new))) }
    ensures end { IfErr result IsPieceEnd }
    ensures noted { IsNoted result (W.failed writer.old) (W.failed writer.new) }
    ensures same { D.borrows desk.new ≡ D.borrows desk.old }
{
    match asked {
        Ok(command) => answer_command(
            alloc, writer, desk, clock, gate, blocking, session, command, replies,
        ),
        Err(fault) => {
            replies.gather_error(alloc, code_of_fault(fault))?;
            Ok(())
        }
    }
}

/// Answers one command in the same way.
fn answer_command<W: Sink, D: Desk, C: Clock, G: Gate>(
    alloc: Global,
    writer: &mut W,
    desk: &mut D,
    clock: &C,
    gate: &G,
    blocking: bool,
    session: u64,
    command: Command,
    replies: &mut Replies,
) -> Result<(), End>
    requires sound { W.failed writer.old ≡ false }
    requires idle { IsIdle session (D.shows desk.old) }
    ensures ok { OnOk result ((gets : List ℕ) × Appends (W.contents writer.old) (W.contents writer.new) gets
        × ((words : Words) → IsCommand words command → Gathers (Answers (C.may_tell clock.now) blocking session)
        replies.old.gathered.items replies.old.sent (D.shows desk.old) words
        gets replies.new.gathered.items replies.new.sent (D.shows desk.new))) }
    ensures idle { OnOk result (IsIdle session (D.shows desk.new)) }
    ensures err { IfErr result (λ end. (gets : List ℕ) × Appends (W.contents writer.old) (W.contents writer.new) gets
        × ((words : Words) → IsCommand words command → Stops (Answers (C.may_tell clock.now) blocking session)
        (Holds (C.may_tell clock.now) blocking session)
        replies.old.gathered.items replies.old.sent (D.shows desk.old) words gets end (D.shows desk.new))) }
    ensures end { IfErr result IsPieceEnd }
    ensures noted { IsNoted result (W.failed writer.old) (W.failed writer.new) }
    ensures same { D.borrows desk.new ≡ D.borrows desk.old }
{
    send_before(writer, desk, blocking, &command, replies)?;
    let reply = reply_to(alloc, desk, clock, gate, blocking, session, command)?;
    replies.gather(&reply)?;
    Ok(())
}

/// Sends what is gathered, if the command may wait or much is gathered.
fn send_before<W: Sink, D: Desk>(
    writer: &mut W,
    desk: &mut D,
    blocking: bool,
    command: &Command,
    replies: &mut Replies,
) -> Result<(), End>
    requires { W.failed writer.old ≡ false }
    ensures ok { OnOk result ((gets : List ℕ) × Appends (W.contents writer.old) (W.contents writer.new) gets
        × Moves replies.old.gathered.items replies.old.sent gets replies.new.gathered.items replies.new.sent) }
    ensures err { IfErr result (λ end. (gets : List ℕ) × Appends (W.contents writer.old) (W.contents writer.new) gets
        × BreaksOff replies.old.gathered.items replies.old.sent gets end) }
    ensures end { IfErr result IsPieceEnd }
    ensures noted { IsNoted result (W.failed writer.old) (W.failed writer.new) }
    ensures shows { D.shows desk.new ≡ D.shows desk.old }
    ensures same { D.borrows desk.new ≡ D.borrows desk.old }
{
    if (blocking && may_wait(command)) || replies.is_long() {
        desk.pause();
        replies.send(writer)
    } else {
        Ok(())
    }
}

/// Whether the command is a call with BLOCK.
fn may_wait(command: &Command) -> bool {
    match command {
        Command::Call(call) => call.block().is_some(),
        Command::Board { .. } | Command::Recover { .. } => false,
    }
}

/// The reply to a command: that of its server, or the error that says that nothing changed.
fn reply_to<D: Desk, C: Clock, G: Gate>(
    alloc: Global,
    desk: &mut D,
    clock: &C,
    gate: &G,
    blocking: bool,
    session: u64,
    command: Command,
) -> Result<Reply, End>
    requires { IsIdle session (D.shows desk.old) }
    ensures ok { IfOk result (λ reply. (words : Words) → IsCommand words command
        → Answers (C.may_tell clock.now) blocking session
        (D.shows desk.old) words (reply_text reply) (D.shows desk.new)) }
    ensures idle { OnOk result (IsIdle session (D.shows desk.new)) }
    ensures err { IfErr result (λ end. (words : Words) → IsCommand words command
        → Fails (Answers (C.may_tell clock.now) blocking session) (Holds (C.may_tell clock.now) blocking session)
        (D.shows desk.old) words end (D.shows desk.new)) }
    ensures end { IfErr result IsDeskEnd }
    ensures same { D.borrows desk.new ≡ D.borrows desk.old }
{
    let taken = taken(blocking, command);
    match answer(alloc, desk, clock, gate, session, taken) {
        Ok(reply) => Ok(reply),
        Err(fault) => reply_to_fault(alloc, fault),
    }
}

/// The error that says that a command was refused and no key changed, or the end that another fault brings.
fn reply_to_fault(alloc: Global, fault: DeskFault) -> Result<Reply, End>
    ensures made { result ≡ made_of fault }
    ensures end { IfErr result IsDeskEnd }
{
    match fault {
        DeskFault::Memory => Ok(Reply::error(alloc, ErrCode::Memory)),
        DeskFault::Full => Ok(Reply::error(alloc, ErrCode::Full)),
        DeskFault::Unread => Err(End::Memory),
        DeskFault::Busy | DeskFault::NoSession | DeskFault::Regress { .. } | DeskFault::Idle => {
            Err(End::Desk)
        }
    }
}

/// The command as a session takes it.
fn taken(blocking: bool, command: Command) -> Command
    ensures { result ≡ taken_as blocking command }
{
    match command {
        Command::Call(call) if !blocking => Command::Call(call.without_block()),
        command => command,
    }
}
