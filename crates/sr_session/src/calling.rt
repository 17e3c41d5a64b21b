ghost use Rattle.std.specs.Prelude.{◌≡◌, Ok, OnOk, IfOk, IfErr};
ghost use Rattle.sr_args.specs.declared.call.Command.TheVariants as commands;
ghost use Rattle.sr_book.specs.declared.answer.Letter.{Letter};
ghost use Rattle.sr_session.specs.Answered.{Replies};
ghost use Rattle.sr_session.specs.Desk.{AwaitsAt, IsIdle};
ghost use Rattle.sr_session.specs.Unanswered.{IsUnanswered};
ghost use Rattle.sr_session.specs.steps.Calling.{Loses};

use crate::recovery::recover;
use crate::{Clock, Desk, DeskFault, Gate};
use sr_args::{Call, Command};
use sr_book::{Event, Out};
use sr_bytes::Name;
use sr_resp::Reply;
use std::alloc::Global;

/// The reply to a command of an open session, at the moments that the clock tells: the desk's; what the session is
/// given once it has waited; or what a recovery comes to in its rounds.
///
/// `Unread` says that the command was carried out, and its reply is lost; after `Memory` and `Full` no key changed.
///
/// Source: Redis documentation, the pages of the commands; docs/RECOVERY.md.
pub fn answer<D: Desk, C: Clock, G: Gate>(
    alloc: Global,
    desk: &mut D,
    clock: &C,
    gate: &G,
    session: u64,
    command: Command,
) -> Result<Reply, DeskFault>
    ensures ok { IfOk result (λ reply.
        Replies (C.may_tell clock.now) session command (D.shows desk.old) reply (D.shows desk.new)) }
    ensures idle { OnOk result (IsIdle session (D.shows desk.old) → IsIdle session (D.shows desk.new)) }
    ensures err { IfErr result (λ fault.
        IsUnanswered (C.may_tell clock.now) session command (D.shows desk.old) fault (D.shows desk.new)) }
    ensures same { D.borrows desk.new ≡ D.borrows desk.old }
{
    match command {
        Command::Call(call) => carry_out(alloc, desk, clock, session, call),
        Command::Board { key, group } => show_board(alloc, desk, clock, session, key, group),
        Command::Recover {
            apply,
            tries,
            key,
            group,
            dead,
        } => recover(
            alloc, desk, clock, gate, session, apply, tries, key, group, dead,
        ),
    }
}

/// The reply to a call.
fn carry_out<D: Desk, C: Clock>(
    alloc: Global,
    desk: &mut D,
    clock: &C,
    session: u64,
    call: Call,
) -> Result<Reply, DeskFault>
    ensures ok { IfOk result (λ reply. Replies (C.may_tell clock.now) session (commands.Call call)
        (D.shows desk.old) reply (D.shows desk.new)) }
    ensures idle { OnOk result (IsIdle session (D.shows desk.old) → IsIdle session (D.shows desk.new)) }
    ensures err { IfErr result (λ fault. IsUnanswered (C.may_tell clock.now) session (commands.Call call)
        (D.shows desk.old) fault (D.shows desk.new)) }
    ensures same { D.borrows desk.new ≡ D.borrows desk.old }
{
    match desk.step(alloc, clock.now(), Event::Call { session, call }) {
        Ok(answer) => match answer.out {
            Out::Reply(reply) => Ok(reply),
            Out::Blocked => await_letter(alloc, desk, session),
            Out::Joined(_) | Out::Snap(_) | Out::Stale(_) | Out::Expired(_) | Out::Left => {
                Err(DeskFault::Idle)
            }
        },
        Err(fault) => Err(fault),
    }
}

/// The board of a group.
fn show_board<D: Desk, C: Clock>(
    alloc: Global,
    desk: &mut D,
    clock: &C,
    session: u64,
    key: Name,
    group: Name,
) -> Result<Reply, DeskFault>
    ensures ok { IfOk result (λ reply. Replies (C.may_tell clock.now) session (commands.Board key group)
        (D.shows desk.old) reply (D.shows desk.new)) }
    ensures idle { OnOk result (IsIdle session (D.shows desk.old) → IsIdle session (D.shows desk.new)) }
    ensures err { IfErr result (λ fault. IsUnanswered (C.may_tell clock.now) session (commands.Board key group)
        (D.shows desk.old) fault (D.shows desk.new)) }
    ensures same { D.borrows desk.new ≡ D.borrows desk.old }
{
    let event = Event::Board {
        session,
        key,
        group,
    };
    match desk.step(alloc, clock.now(), event) {
        Ok(answer) => match answer.out {
            Out::Reply(reply) => Ok(reply),
            Out::Joined(_)
            | Out::Blocked
            | Out::Snap(_)
            | Out::Stale(_)
            | Out::Expired(_)
            | Out::Left => Err(DeskFault::Idle),
        },
        Err(fault) => Err(fault),
    }
}

/// The reply that a session is given once it has waited.
fn await_letter<D: Desk>(alloc: Global, desk: &mut D, session: u64) -> Result<Reply, DeskFault>
    ensures ok { IfOk result (λ reply. (letter : Letter)
        × AwaitsAt (D.shows desk.old) session (Ok letter) (D.shows desk.new)
        × (letter.reply ≡ reply)) }
    ensures err { IfErr result (λ fault. Loses session (D.shows desk.old) fault (D.shows desk.new)) }
    ensures same { D.borrows desk.new ≡ D.borrows desk.old }
{
    match desk.await_reply(alloc, session) {
        Ok(letter) => Ok(letter.reply),
        Err(DeskFault::Memory) => Err(DeskFault::Unread),
        Err(fault) => Err(fault),
    }
}
