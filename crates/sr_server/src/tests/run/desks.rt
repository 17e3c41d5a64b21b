// What a seat is told of letters, and when it gives up its turn. That a session at a seat writes what it writes alone
// is in tests/listening.py.
ghost use Rattle.std.specs.Prelude.{◌≡◌, None};

use super::{LOOKS, TWO, book_under, call};
use crate::tests::session::{Kept, Pieces, Stopped, spelled};
use sr_args::Call;
use sr_book::{Answer, Event, Letter, Out};
use sr_resp::append_reply;
use sr_run::{Receipt, Seat, SeatDesk, SeatFault, Shared, open};
use sr_session::{Desk, DeskFault, End, Ended, Gate, run_session};
use std::alloc::{AllocError, Global};
use std::marker::{Brand, Send, Sync};
use std::process::Abort;
use std::random::RandomSource;
use std::rt::Clock;
use std::sync::Wait;
use std::sync::atomic::{AtomicBool, AtomicU64, Ordering};
use std::sync::ledger::{Blank, Ledger};
use std::test::Fail;
use std::thread;
use std::thread::Threads;
use std::time::Duration;

/// What happens at a seat.
#[derive(Clone, Copy)]
enum Scene {
    Letters,
    Pause,
    Both(Both),
}

/// Hands a desk an event at 10. It counts as refused for memory if a reader was not served for that.
fn step<D: Desk>(alloc: Global, desk: &mut D, event: Event) -> Result<(), DeskFault> {
    match desk.step(alloc, 10, event) {
        Ok(answer) if answer.settled => Ok(()),
        Ok(_answer) => Err(DeskFault::Memory),
        Err(fault) => Err(fault),
    }
}

/// Hands a desk the call of a line.
fn step_call<D: Desk>(alloc: Global, desk: &mut D, session: u64, line: &str) -> Result<(), Fail> {
    let call = call(alloc, line)?;
    step(alloc, desk, Event::Call { session, call })?;
    Ok(())
}

/// The index of a letter.
fn index_of(found: Result<Letter, DeskFault>) -> Result<u64, DeskFault> {
    match found {
        Ok(letter) => Ok(letter.index),
        Err(fault) => Err(fault),
    }
}

/// A session has no letter before it waited, the letter of its serving then, and none once it has left.
fn letters_at<D: Desk>(rt: &(impl AllocGlobal + Abort), desk: &mut D) -> Result<(), Fail> {
    let alloc = rt.alloc();
    step(alloc, desk, Event::Join)?;
    step(alloc, desk, Event::Join)?;
    let idle = index_of(desk.await_reply(alloc, 1));
    assert!(rt; idle == Err(DeskFault::Idle));
    step_call(alloc, desk, 1, "XREAD BLOCK 0 STREAMS s $")?;
    step_call(alloc, desk, 2, "XADD s 1-1 a b")?;
    let served = index_of(desk.await_reply(alloc, 1))?;
    assert_eq!(rt; served, 5);
    step(alloc, desk, Event::Leave { session: 1 })?;
    let left = index_of(desk.await_reply(alloc, 1));
    assert!(rt; left == Err(DeskFault::NoSession));
    Ok(())
}

/// The same at a seat.
fn letters<L: Ledger, R: AllocGlobal + Abort + Clock + Wait>(
    rt: &R,
    shared: &Shared<L>,
    seat: &mut Seat<L>,
) -> Result<(), Fail> {
    letters_at(rt, &mut SeatDesk::new(rt, shared, seat))?;
    assert_eq!(rt; seat.front(), 6);
    Ok(())
}

/// Has session 1 call at a desk, which pauses then.
fn call_and_pause<D: Desk>(alloc: Global, desk: &mut D) -> Result<(), Fail> {
    step(alloc, desk, Event::Join)?;
    let called = step_call(alloc, desk, 1, "XADD s 1-1 a b");
    desk.pause();
    called
}

/// While a desk pauses, another seat comes to its turn. It would wait for good if the desk kept the lock.
fn pause<L: Ledger, R: AllocGlobal + Abort + Clock + Wait>(
    rt: &R,
    shared: &Shared<L>,
    seat: &mut Seat<L>,
    other: &mut Seat<L>,
) -> Result<(), Fail> {
    let mut desk = SeatDesk::new(rt, shared, seat);
    let paused = call_and_pause(rt.alloc(), &mut desk);
    let due = shared.tick(rt, rt.alloc(), other, 10);
    drop(desk);
    paused?;
    assert!(rt; due == Ok(false));
    Ok(())
}

/// What happens at two seats at once: session 1 makes the calls before, and then, in a thread of its own, one
/// meanwhile, once the session of the requests at the other seat waits, or is between two rounds of a recovery.
#[derive(Clone, Copy, Drop)]
struct Both {
    before: &'static [&'static str],
    request: &'static str,
    meanwhile: &'static str,
    /// How many bytes are written before a write fails.
    room: usize,
    end: End,
    /// How what is written begins.
    text: &'static str,
    /// The session of the requests.
    session: u64,
    /// Which session is told between two rounds.
    between: u64,
}

/// What is pending afterwards.
const PENDING: &str = "*4\r\n:1\r\n$3\r\n1-1\r\n$3\r\n1-1\r\n*1\r\n*2\r\n$1\r\nA\r\n$1\r\n1\r\n";

/// Session 5 asks for a recovery, and goes on between its rounds once the call of session 1 was answered.
const RECOVERY: Both = Both {
    before: &[
        "XGROUP CREATE s g $ MKSTREAM",
        "XADD s 1-1 c x",
        "XREADGROUP GROUP g D STREAMS s >",
    ],
    request: "RECOVER.RUN s g DEAD D",
    meanwhile: "PING",
    room: 512,
    end: End::Closed,
    text: "*5\r\n$4\r\ndone\r\n:2\r\n*1\r\n*2\r\n$3\r\n1-1\r\n$1\r\nA\r\n",
    session: 5,
    between: 5,
};

/// A session waits, is served, and cannot be sent what it is given.
const UNSENT: Both = Both {
    before: &["XGROUP CREATE s g $ MKSTREAM"],
    request: "XREADGROUP GROUP g A BLOCK 0 STREAMS s >",
    meanwhile: "XADD s 1-1 c x",
    room: 0,
    end: End::SendFault { sent: 0 },
    text: "",
    session: 3,
    between: 0,
};

/// What two threads tell each other.
#[derive(Drop)]
struct Meeting {
    /// Whether the session has begun to wait, or is between its rounds, or has ended.
    begun: AtomicBool,
    /// Whether the other has made its call.
    made: AtomicBool,
    /// The session that is told between two rounds.
    told: AtomicU64,
    gave_up: AtomicBool,
}

impl Meeting {
    fn new() -> Meeting {
        Meeting {
            begun: AtomicBool::new(false),
            made: AtomicBool::new(false),
            told: AtomicU64::new(0),
            gave_up: AtomicBool::new(false),
        }
    }

    /// Whether nobody gave up, and this session was told.
    fn is_met(&self, between: u64) -> bool {
        !self.gave_up.load(Ordering::SeqCst) && self.told.load(Ordering::SeqCst) == between
    }
}

/// Whether a flag is set before it was looked at too often.
fn comes(flag: &AtomicBool) -> bool {
    for _ in 0..LOOKS {
        if flag.load(Ordering::SeqCst) {
            return true;
        }
        thread::yield_now();
    }
    false
}

impl Gate for Meeting {
    fn before_call(&self, _: u64) {}

    fn between(&self, session: u64) {
        self.told.store(session, Ordering::SeqCst);
        self.begun.store(true, Ordering::SeqCst);
        if !comes(&self.made) {
            self.gave_up.store(true, Ordering::SeqCst);
        }
    }
}

/// A desk that tells when its session begins to wait.
#[derive(Drop)]
struct Telling<'a, D: Desk> {
    desk: D,
    meeting: &'a Meeting,
}

impl<D: Desk> Desk for Telling<'_, D> {
    ghost shows = { λ _. None };

    ghost borrows = { λ _. 0 };

    fn step(&mut self, alloc: Global, moment: u64, event: Event) -> Result<Answer, DeskFault> {
        self.desk.step(alloc, moment, event)
    }

    fn await_reply(&mut self, alloc: Global, session: u64) -> Result<Letter, DeskFault> {
        self.meeting.begun.store(true, Ordering::SeqCst);
        self.desk.await_reply(alloc, session)
    }

    fn pause(&mut self) {
        self.desk.pause();
    }
}

/// Makes a call of session 1 once the other seat's session has begun, and a little later, so that one that waits sleeps
/// by then and has to be woken. If it is refused the other leaves, since it could wait for good.
fn call_meanwhile<L: Ledger, R: AllocGlobal + Clock + Wait>(
    rt: &R,
    shared: &Shared<L>,
    seat: &mut Seat<L>,
    meeting: &Meeting,
    call: &Call,
    other: u64,
) -> Result<(), SeatFault> {
    let begun = comes(&meeting.begun);
    thread::sleep(rt, Duration::from_millis(20));
    let made = shared.exchange(rt, rt.alloc(), seat, 10, 1, call);
    if made.is_err() || !begun {
        let _left = shared.act(rt, rt.alloc(), seat, 10, Event::Leave { session: other });
    }
    meeting.made.store(true, Ordering::SeqCst);
    match made {
        Ok(_receipt) => Ok(()),
        Err(fault) => Err(fault),
    }
}

/// A session at a seat has its requests answered. How it ended, and what was written.
fn talk<L: Ledger, R: AllocGlobal + Clock + Wait>(
    rt: &R,
    shared: &Shared<L>,
    seat: &mut Seat<L>,
    meeting: &Meeting,
    request: &[u8],
    room: usize,
) -> Result<(Ended, Vec<u8>), AllocError> {
    let mut writer = Kept::with_room(rt.alloc(), room)?;
    let mut desk = Telling {
        desk: SeatDesk::new(rt, shared, seat),
        meeting,
    };
    let ended = run_session(
        rt.alloc(),
        &mut Pieces::whole(request),
        &mut writer,
        &mut desk,
        &Stopped,
        meeting,
        true,
        9,
    );
    Ok((ended, writer.bytes))
}

/// The same, and then tells that it has ended.
fn talk_and_end<L: Ledger, R: AllocGlobal + Clock + Wait>(
    rt: &R,
    shared: &Shared<L>,
    seat: &mut Seat<L>,
    meeting: &Meeting,
    request: &[u8],
    room: usize,
) -> Result<(Ended, Vec<u8>), AllocError> {
    let talked = talk(rt, shared, seat, meeting, request, room);
    meeting.begun.store(true, Ordering::SeqCst);
    talked
}

/// The text of a receipt's reply.
fn reply_text(alloc: Global, receipt: Result<Receipt, SeatFault>) -> Result<Vec<u8>, Fail> {
    let mut text = Vec::new(alloc);
    if let Out::Reply(reply) = &receipt?.out {
        append_reply(&mut text, reply)?;
    }
    Ok(text)
}

/// Whether a call was refused since its session is not open.
fn is_gone(receipt: Result<Receipt, SeatFault>) -> bool {
    match receipt {
        Ok(_receipt) => false,
        Err(fault) => fault == SeatFault::NoSession,
    }
}

/// Session 1 joins and makes calls.
fn make_calls<D: Desk>(alloc: Global, desk: &mut D, lines: &[&str]) -> Result<(), Fail> {
    step(alloc, desk, Event::Join)?;
    for line in lines {
        step_call(alloc, desk, 1, line)?;
    }
    desk.pause();
    Ok(())
}

/// Fails for memory if that is what a session was refused.
fn unless_refused(ended: Ended, written: &[u8]) -> Result<(), AllocError> {
    if !ended.left || ended.end == End::Memory || written.starts_with(b"-OOM out of memory\r\n") {
        Err(AllocError)
    } else {
        Ok(())
    }
}

/// What two seats do at once goes as it is told.
fn both_at_once<L: Ledger + Send + Sync, R: AllocGlobal + Abort + Clock + Threads + Wait + Sync>(
    rt: &R,
    shared: &Shared<L>,
    seat: &mut Seat<L>,
    other: &mut Seat<L>,
    both: Both,
) -> Result<(), Fail> {
    let alloc = rt.alloc();
    make_calls(alloc, &mut SeatDesk::new(rt, shared, seat), both.before)?;
    let pending = call(alloc, "XPENDING s g")?;
    let meanwhile = call(alloc, both.meanwhile)?;
    let request = spelled(alloc, both.request)?;
    let meeting = Meeting::new();
    let (made, talked) = thread::join(
        rt,
        || call_meanwhile(rt, shared, seat, &meeting, &meanwhile, both.session),
        || talk_and_end(rt, shared, other, &meeting, request.as_slice(), both.room),
    );
    made?;
    let (ended, written) = talked?;
    unless_refused(ended, written.as_slice())?;
    let found = shared.exchange(rt, alloc, other, 10, 1, &pending);
    let found = reply_text(alloc, found)?;
    let left = shared.exchange(rt, alloc, other, 10, both.session, &pending);
    assert!(rt; is_gone(left));
    assert!(rt; meeting.is_met(both.between) && ended.end == both.end);
    assert!(rt; written.starts_with(both.text.as_bytes()));
    assert!(rt; found.as_slice() == PENDING.as_bytes());
    Ok(())
}

/// Has something happen at the two seats of a shared book.
fn at_a_seat<
    L: Ledger + Send + Sync,
    R: AllocGlobal + Abort + Clock + RandomSource + Threads + Wait + Sync,
>(rt: &R, blank: Blank, scene: Scene) -> Result<(), Fail>
    requires name { blank.name ≡ L.name }
    requires whole { blank.parts ≡ L.parts }
    requires parts { blank.parts ≡ 2 }
{
    let (shared, mut seats) = open::<L>(rt.alloc(), book_under(rt, TWO)?, 2, blank)?;
    match (scene, seats.as_mut_slice()) {
        (Scene::Letters, [seat, _]) => letters(rt, &shared, seat),
        (Scene::Pause, [seat, other]) => pause(rt, &shared, seat, other),
        (Scene::Both(both), [seat, other]) => both_at_once(rt, &shared, seat, other, both),
        _ => Err(Fail::new("two seats")),
    }
}

fn plays<R: AllocGlobal + Abort + Clock + RandomSource + Threads + Wait + Sync>(
    rt: &R,
    scene: Scene,
) -> Result<(), Fail> {
    at_a_seat::<Brand, R>(rt, Blank::new(2), scene)
}

#[test]
fn a_session_has_a_letter_once_it_waited_and_until_it_leaves(rt: HostRuntime) -> Result<(), Fail> {
    plays(&rt, Scene::Letters)
}

#[test]
fn another_seat_has_its_turn_while_a_desk_pauses(rt: HostRuntime) -> Result<(), Fail> {
    plays(&rt, Scene::Pause)
}

/// A session that made its plan under the lock, or came to the gate before it paused, would wait for the other's call
/// in vain.
#[test]
fn no_plan_under_the_lock(rt: HostRuntime) -> Result<(), Fail> {
    plays(&rt, Scene::Both(RECOVERY))
}

#[test]
fn what_a_session_was_not_sent_stays_pending_and_it_has_left(rt: HostRuntime) -> Result<(), Fail> {
    plays(&rt, Scene::Both(UNSENT))
}
