ghost use Rattle.std.specs.Prelude.{◌≡◌, None, IfOk, IfErr};
ghost use Rattle.sr_run.specs.Desk.{HasRefused, desk_fault_of};
ghost use Rattle.sr_run.specs.Shared.{HasMade, HasNotMade, HasSeen};

use crate::Shared;
use crate::past::weight_of;
use crate::shared::Turn;
use sr_book::{Answer, Event, Letter};
use sr_seats::{ActFault, Seat, SeatFault};
use sr_session::{Desk, DeskFault};
use std::alloc::Global;
use std::net::TcpStream;
use std::sync::Wait;
use std::sync::ledger::Ledger;
use std::time::Duration;
use std::{rt, thread};

/// How long a desk sleeps before it tries a leave again, in milliseconds.
const RETRY: u64 = 10;

/// How many times it does so, which takes some ten seconds.
const RETRIES: u32 = 1_000;

/// A desk over a book behind a lock, at a seat. It shows no book, since others may use it between any two events.
///
/// It keeps the lock from one event to the next until the session pauses, joins or leaves: so the requests of one read
/// are carried out in one turn. Its `await_reply` waits for as long as the session does. A leave for which there is no
/// memory is tried again, a thousand times at most, 10 milliseconds apart, and others have their turns in between.
#[derive(Drop)]
pub struct SeatDesk<'a, L: Ledger, R: Wait> {
    rt: &'a R,
    shared: &'a Shared<L>,
    seat: &'a mut Seat<L>,
    turn: Option<Turn<'a, L>>,
    /// The client's end, if that is looked at during a wait.
    peer: Option<&'a TcpStream>,
}

impl<'a, L: Ledger, R: Wait + rt::Clock> SeatDesk<'a, L, R> {
    /// A desk at this seat.
    pub fn new(rt: &'a R, shared: &'a Shared<L>, seat: &'a mut Seat<L>) -> SeatDesk<'a, L, R>
        ensures seat { result.seat.now ≡ seat.old }
        ensures shows { ⟦<SeatDesk<'a, L, R> as Desk>⟧.shows result ≡ None }
        ensures borrows { ⟦<SeatDesk<'a, L, R> as Desk>⟧.borrows result ≡ seat.entry.ghost_name }
    {
        SeatDesk {
            rt,
            shared,
            seat,
            turn: None,
            peer: None,
        }
    }

    /// A desk at this seat, for the client at the other end of a connection. A wait ends once that is gone.
    pub fn beside(
        rt: &'a R,
        shared: &'a Shared<L>,
        seat: &'a mut Seat<L>,
        peer: &'a TcpStream,
    ) -> SeatDesk<'a, L, R>
        ensures seat { result.seat.now ≡ seat.old }
        ensures shows { ⟦<SeatDesk<'a, L, R> as Desk>⟧.shows result ≡ None }
        ensures borrows { ⟦<SeatDesk<'a, L, R> as Desk>⟧.borrows result ≡ seat.entry.ghost_name }
    {
        SeatDesk {
            rt,
            shared,
            seat,
            turn: None,
            peer: Some(peer),
        }
    }
}

impl<'a, L: Ledger, R: Wait + rt::Clock> Desk for SeatDesk<'a, L, R> {
    ghost shows = { λ _. None };

    ghost borrows = { λ d. d.seat.ghost_name };

    fn step(&mut self, alloc: Global, moment: u64, event: Event) -> Result<Answer, DeskFault>
        ensures ok { IfOk result (λ answer. HasMade answer.index self.old.seat.now self.new.seat.now) }
        ensures err { IfErr result (λ fault. HasRefused fault self.old.seat.now self.new.seat.now) }
        ensures same { self.new.seat.ghost_name ≡ self.old.seat.ghost_name }
    {
        let goes_on = may_go_on(&event);
        self.shared.says(weight_of(&event));
        let mut turn = match self.turn.take() {
            Some(turn) => turn,
            None => self.shared.turn(self.rt),
        };
        let result = turn.act(self.rt, alloc, self.seat, moment, event);
        self.turn = kept(turn, goes_on);
        match result {
            Ok(answer) => Ok(answer),
            Err(
                ActFault {
                    fault: SeatFault::Memory,
                    event: Event::Leave { session },
                },
            ) => leave_again(self.rt, self.shared, self.seat, alloc, moment, session),
            Err(refused) => Err(desk_fault(refused.fault)),
        }
    }

    fn await_reply(&mut self, alloc: Global, session: u64) -> Result<Letter, DeskFault>
        ensures ok { IfOk result (λ letter. HasSeen session letter self.old.seat.now self.new.seat.now) }
        ensures err { IfErr result (λ fault. HasRefused fault self.old.seat.now self.new.seat.now) }
        ensures same { self.new.seat.ghost_name ≡ self.old.seat.ghost_name }
    {
        self.pause();
        await_at(self.rt, self.shared, self.seat, self.peer, alloc, session)
    }

    fn pause(&mut self)
        ensures seat { self.new.seat.now ≡ self.old.seat.now }
        ensures same { self.new.seat.ghost_name ≡ self.old.seat.ghost_name }
    {
        if let Some(turn) = self.turn.take() {
            turn.end();
        }
    }
}

/// Whether the session may have a further event at once: after its join it reads, and after its leave nothing comes.
fn may_go_on(event: &Event) -> bool {
    match event {
        Event::Call { .. }
        | Event::Board { .. }
        | Event::Snapshot { .. }
        | Event::Conclude { .. } => true,
        Event::Join | Event::Expire | Event::Leave { .. } => false,
    }
}

/// A turn that goes on; one that does not ends here.
fn kept<L: Ledger>(turn: Turn<'_, L>, goes_on: bool) -> Option<Turn<'_, L>> {
    if goes_on {
        Some(turn)
    } else {
        turn.end();
        None
    }
}

/// Tries a leave again for which there was no memory, until it is made, is refused for another reason, or was tried
/// often enough. While this sleeps the lock is free.
fn leave_again<L: Ledger, R: Wait + rt::Clock>(
    rt: &R,
    shared: &Shared<L>,
    seat: &mut Seat<L>,
    alloc: Global,
    told: u64,
    session: u64,
) -> Result<Answer, DeskFault>
    ensures ok { IfOk result (λ answer. HasMade answer.index seat.old seat.new) }
    ensures err { IfErr result (λ fault. HasRefused fault seat.old seat.new) }
{
    for _ in 0..RETRIES {
        thread::sleep(rt, Duration::from_millis(RETRY));
        match shared.act(rt, alloc, seat, told, Event::Leave { session }) {
            Ok(answer) => return Ok(answer),
            Err(refused) if refused.fault == SeatFault::Memory => {}
            Err(refused) => return Err(desk_fault(refused.fault)),
        }
    }
    Err(DeskFault::Memory)
}

/// The letter of a session, which the seat has seen then.
fn await_at<L: Ledger, R: Wait + rt::Clock>(
    rt: &R,
    shared: &Shared<L>,
    seat: &mut Seat<L>,
    peer: Option<&TcpStream>,
    alloc: Global,
    session: u64,
) -> Result<Letter, DeskFault>
    ensures ok { IfOk result (λ letter. HasSeen session letter seat.old seat.new) }
    ensures err { IfErr result (λ fault. HasRefused fault seat.old seat.new) }
{
    match awaited(rt, shared, seat, peer, alloc, session) {
        Ok(letter) => Ok(letter),
        Err(fault) => Err(desk_fault(fault)),
    }
}

/// The same with the reason of the seat: the wait looks at the client, if there is one to look at.
fn awaited<L: Ledger, R: Wait + rt::Clock>(
    rt: &R,
    shared: &Shared<L>,
    seat: &mut Seat<L>,
    peer: Option<&TcpStream>,
    alloc: Global,
    session: u64,
) -> Result<Letter, SeatFault>
    ensures ok { IfOk result (λ letter. HasSeen session letter seat.old seat.new) }
    ensures err { IfErr result (λ fault. HasNotMade fault seat.old seat.new) }
{
    match peer {
        Some(peer) => shared.await_reply_to(rt, alloc, seat, session, peer),
        None => shared.await_reply(rt, alloc, seat, session),
    }
}

/// The reason of a seat, as a desk gives it.
fn desk_fault(fault: SeatFault) -> DeskFault
    ensures { result ≡ desk_fault_of fault }
{
    match fault {
        SeatFault::Regress { index } => DeskFault::Regress { index },
        SeatFault::NoSession => DeskFault::NoSession,
        SeatFault::Busy => DeskFault::Busy,
        SeatFault::Full => DeskFault::Full,
        SeatFault::Memory => DeskFault::Memory,
        SeatFault::Idle => DeskFault::Idle,
    }
}
