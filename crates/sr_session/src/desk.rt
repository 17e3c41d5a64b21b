ghost use Rattle.std.specs.Prelude.{◌≡◌, ℕ, Option, Some, IsSome, IfOk};
ghost use Rattle.sr_book.specs.{BookState, letter_for};
ghost use Rattle.sr_session.specs.Desk.{AwaitsAt, AwaitsTo, IsIdle, StepsAt, StepsTo};
ghost use Rattle.sr_session.specs.steps.Calling.{fault_of};

use sr_book::{Answer, Book, BookFault, Event, Letter, Out, Status};
use std::alloc::{AllocError, Global};

/// Why a desk did not carry out an event, or has no letter to hand out.
#[derive(Clone, Copy, Debug, PartialEq, Eq)]
pub enum DeskFault {
    /// A failed allocation. Nothing changed.
    Memory,
    /// The session waits.
    Busy,
    /// No index is left for a record.
    Full,
    /// The session is not open.
    NoSession,
    /// The last record has this index, and a later one was seen before.
    Regress { index: u64 },
    /// The session was given nothing.
    Idle,
    /// A failed allocation after a call was carried out: its reply is lost.
    Unread,
}

/// What stands between a session and the server: it carries out one event after another.
pub trait Desk {
    /// The book as the desk shows it, if it shows it.
    ghost shows: { Self → Option BookState };

    /// The ghost name of what the desk borrows, or any number if it borrows nothing.
    ghost borrows: { Self → ℕ };

    /// Carries out an event. The moment is what a clock told, in milliseconds since 1970. A refused event is dropped.
    fn step(&mut self, alloc: Global, moment: u64, event: Event) -> Result<Answer, DeskFault>
        ensures step { StepsAt (shows self.old) moment event result (shows self.new) }
        ensures joined { IfOk result (λ answer. (session : ℕ) → event ≡ Event.Join → answer.out ≡ Out.Joined session
            → IsIdle session (shows self.new)) }
        ensures same { borrows self.new ≡ borrows self.old };

    /// What the session was given while it waited. A desk may wait until there is something.
    fn await_reply(&mut self, alloc: Global, session: u64) -> Result<Letter, DeskFault>
        ensures letter { AwaitsAt (shows self.old) session result (shows self.new) }
        ensures same { borrows self.new ≡ borrows self.old };

    /// Is told that the session is about to read, to write or to make a plan, or that its last replies were long. A
    /// desk that keeps others waiting from one event to the next lets them go on here.
    fn pause(&mut self)
        ensures shows { shows self.new ≡ shows self.old }
        ensures same { borrows self.new ≡ borrows self.old };
}

/// A desk over a book of its own, which it shows. It never waits.
#[derive(Drop)]
pub struct PlainDesk<'a> {
    book: &'a mut Book,
}

impl<'a> PlainDesk<'a> {
    /// A desk over this book.
    pub fn new(book: &'a mut Book) -> PlainDesk<'a>
        ensures shows { ⟦<PlainDesk<'a> as Desk>⟧.shows result ≡ Some book.old }
        ensures borrows { ⟦<PlainDesk<'a> as Desk>⟧.borrows result ≡ book.entry.ghost_name }
    {
        PlainDesk { book }
    }
}

impl<'a> Desk for PlainDesk<'a> {
    ghost shows = { λ d. Some d.book.now };

    ghost borrows = { λ d. d.book.ghost_name };

    fn step(&mut self, alloc: Global, moment: u64, event: Event) -> Result<Answer, DeskFault> {
        step_book(self.book, alloc, moment, event)
    }

    fn await_reply(&mut self, alloc: Global, session: u64) -> Result<Letter, DeskFault> {
        letter_in(self.book, alloc, session)
    }

    fn pause(&mut self) {}
}

/// Carries out an event in the book.
fn step_book(book: &mut Book, alloc: Global, moment: u64, event: Event) -> Result<Answer, DeskFault>
    ensures step { StepsTo book.old moment event result book.new }
    ensures joined { IfOk result (λ answer. (session : ℕ) → event ≡ Event.Join → answer.out ≡ Out.Joined session
        → IsIdle session (Some book.new)) }
{
    book.legal();
    match book.step(alloc, moment, event) {
        Ok(answer) => Ok(answer),
        Err(refused) => Err(desk_fault(refused.fault)),
    }
}

/// The same reason, as a desk gives it.
fn desk_fault(fault: BookFault) -> DeskFault
    ensures { result ≡ fault_of fault }
{
    match fault {
        BookFault::Memory => DeskFault::Memory,
        BookFault::Busy => DeskFault::Busy,
        BookFault::Full => DeskFault::Full,
        BookFault::NoSession => DeskFault::NoSession,
    }
}

/// The letter of a session.
fn letter_in(book: &Book, alloc: Global, session: u64) -> Result<Letter, DeskFault>
    ensures { AwaitsTo book.now session result }
{
    book.legal();
    match book.status(session) {
        Status::Letter => take_letter(book, alloc, session),
        Status::Closed | Status::Idle | Status::Waiting => Err(DeskFault::Idle),
    }
}

/// The letter of a session that has one.
fn take_letter(book: &Book, alloc: Global, session: u64) -> Result<Letter, DeskFault>
    requires { IsSome (letter_for session book.now.server) }
    ensures { AwaitsTo book.now session result }
{
    match book.collect(alloc, session) {
        Ok(Some(letter)) => Ok(letter),
        Ok(None) => Err(DeskFault::Idle),
        Err(AllocError) => Err(DeskFault::Memory),
    }
}
