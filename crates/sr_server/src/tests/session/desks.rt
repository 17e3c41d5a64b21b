// What a session makes of a desk's answers: when it writes, how it ends, and when it asks the clock.
ghost use Rattle.std.specs.Prelude.{None, true, false};

use super::{Pieces, Stopped, spelled};
use sr_book::{Answer, Book, Event, Letter, Out};
use sr_policy::Policy;
use sr_resp::{Reply, Sink, WriteFailed};
use sr_session::{Clock, Desk, DeskFault, End, Ended, Gate, NoGate, PlainDesk, run_session};
use std::alloc::Global;
use std::cell::Cell;
use std::hash::RandomState;
use std::random::RandomSource;
use std::test::Fail;

/// Keeps what it gets, and tells others how much.
#[derive(Drop)]
pub(super) struct CountingSink<'a> {
    pub(super) bytes: Vec<u8>,
    count: &'a Cell<usize>,
}

impl<'a> CountingSink<'a> {
    pub(super) fn new(alloc: Global, count: &'a Cell<usize>) -> CountingSink<'a> {
        CountingSink {
            bytes: Vec::new(alloc),
            count,
        }
    }
}

impl Sink for CountingSink<'_> {
    ghost contents = { λ _. None };

    ghost failed = { λ _. false };

    fn write(&mut self, bytes: &[u8]) -> Result<usize, WriteFailed> {
        if self.bytes.extend_from_slice(bytes).is_err() {
            return Ok(bytes.len());
        }
        self.count.set(self.bytes.len());
        Ok(bytes.len())
    }
}

/// What a desk is asked for.
#[derive(Clone, Copy, Drop)]
enum Asked {
    Join,
    /// A call with BLOCK.
    Wait,
    Reply,
    Expire,
    Leave,
}

/// What an event asks for.
fn asked_by(event: &Event) -> Asked {
    match event {
        Event::Join => Asked::Join,
        Event::Call { session: _, call } => match call.block() {
            Some(_) => Asked::Wait,
            None => Asked::Reply,
        },
        Event::Board { .. } | Event::Snapshot { .. } | Event::Conclude { .. } => Asked::Reply,
        Event::Expire => Asked::Expire,
        Event::Leave { session: _ } => Asked::Leave,
    }
}

/// Drops an event, and tells what it asks for. A desk that held the event across its exits would be dear to prove.
fn taken(event: Event) -> Asked {
    let asked = asked_by(&event);
    drop(event);
    asked
}

/// What a desk refuses, and why.
#[derive(Clone, Copy, Drop)]
enum Refused {
    Nothing,
    Join(DeskFault),
    Call(DeskFault),
    Letter(DeskFault),
    Leave(DeskFault),
}

/// Why an event is refused that asks for this.
fn fault_of(refused: Refused, asked: Asked) -> Option<DeskFault> {
    match (refused, asked) {
        (Refused::Join(fault), Asked::Join) => Some(fault),
        (Refused::Call(fault), Asked::Wait) => Some(fault),
        (Refused::Call(fault), Asked::Reply) => Some(fault),
        (Refused::Leave(fault), Asked::Leave) => Some(fault),
        _ => None,
    }
}

/// The reply that is this count.
fn reply_of(alloc: Global, count: usize) -> Reply {
    Reply::int(alloc, i64::try_from(count).unwrap_or(i64::MAX))
}

/// The answer to what is asked for.
fn answer_to(alloc: Global, asked: Asked, count: usize) -> Answer {
    let out = match asked {
        Asked::Join => Out::Joined(1),
        Asked::Wait => Out::Blocked,
        Asked::Reply => Out::Reply(reply_of(alloc, count)),
        Asked::Expire => Out::Expired(0),
        Asked::Leave => Out::Left,
    };
    Answer {
        index: 1,
        out,
        settled: true,
    }
}

/// Answers each call that it does not refuse by the number of bytes that were written before it. A call with BLOCK
/// waits, and is answered so too.
#[derive(Drop)]
struct Noting<'a> {
    count: &'a Cell<usize>,
    refused: Refused,
}

impl Desk for Noting<'_> {
    ghost shows = { λ _. None };

    ghost borrows = { λ _. 0 };

    fn step(&mut self, alloc: Global, _: u64, event: Event) -> Result<Answer, DeskFault> {
        let asked = taken(event);
        match fault_of(self.refused, asked) {
            Some(fault) => Err(fault),
            None => Ok(answer_to(alloc, asked, self.count.get())),
        }
    }

    fn await_reply(&mut self, alloc: Global, session: u64) -> Result<Letter, DeskFault> {
        match self.refused {
            Refused::Letter(fault) => Err(fault),
            _ => Ok(Letter {
                index: 1,
                session,
                reply: reply_of(alloc, self.count.get()),
            }),
        }
    }

    fn pause(&mut self) {}
}

/// Whether that is how it ended, and what was written.
fn is_told(found: Ended, ended: Ended, written: &[u8], text: &str) -> bool {
    found == ended && written == text.as_bytes()
}

/// Whether a session of these bytes, which come in one read, ends so at a desk that refuses this, and writes this.
fn ends(
    alloc: Global,
    bytes: &[u8],
    blocking: bool,
    refused: Refused,
    ended: Ended,
    text: &str,
) -> bool {
    let count = Cell::new(0);
    let mut writer = CountingSink::new(alloc, &count);
    let mut desk = Noting {
        count: &count,
        refused,
    };
    let found = run_session(
        alloc,
        &mut Pieces::whole(bytes),
        &mut writer,
        &mut desk,
        &Stopped,
        &NoGate,
        blocking,
        9,
    );
    is_told(found, ended, writer.bytes.as_slice(), text)
}

/// Whether calls may wait, requests, and the replies to them.
const GATHERED: &[(bool, &str, &str)] = &[
    (true, "PING\nPING\nPING", ":0\r\n:0\r\n:0\r\n"),
    (
        true,
        "PING\nPING\nXREAD BLOCK 0 STREAMS s $\nPING",
        ":0\r\n:0\r\n:8\r\n:8\r\n",
    ),
    (
        true,
        "XREAD BLOCK 9 STREAMS s $\nXREAD BLOCK 9 STREAMS s $\nPING\nXREAD BLOCK 9 STREAMS s $",
        ":0\r\n:4\r\n:4\r\n:12\r\n",
    ),
    (
        false,
        "PING\nXREAD BLOCK 0 STREAMS s $\nPING",
        ":0\r\n:0\r\n:0\r\n",
    ),
];

/// Replies that are gathered go out before a call that may wait, and otherwise after the whole piece.
#[test]
fn gathered_replies_are_sent_before_a_call_that_may_wait(rt: HostRuntime) -> Result<(), Fail> {
    let ended = Ended {
        end: End::Closed,
        left: true,
    };
    for (blocking, lines, text) in GATHERED {
        let bytes = spelled(rt.alloc(), lines)?;
        let as_told = ends(
            rt.alloc(),
            bytes.as_slice(),
            *blocking,
            Refused::Nothing,
            ended,
            text,
        );
        assert!(rt; as_told, "{lines}");
    }
    Ok(())
}

const THREE: &str = ":0\r\n:4\r\n:4\r\n";

const NO_MEMORY: &str = "-OOM out of memory\r\n-OOM out of memory\r\n-OOM out of memory\r\n";

const NO_INDEX: &str = "-OOM history is full\r\n-OOM history is full\r\n-OOM history is full\r\n";

/// What a desk refuses, how a session of three calls ends of which the second waits, whether its leave was carried out,
/// and what it writes.
const FAULTS: &[(Refused, End, bool, &str)] = &[
    (Refused::Nothing, End::Closed, true, THREE),
    (
        Refused::Call(DeskFault::Memory),
        End::Closed,
        true,
        NO_MEMORY,
    ),
    (Refused::Call(DeskFault::Full), End::Closed, true, NO_INDEX),
    (Refused::Call(DeskFault::Busy), End::Desk, true, ""),
    (Refused::Call(DeskFault::NoSession), End::Desk, true, ""),
    (
        Refused::Call(DeskFault::Regress { index: 3 }),
        End::Desk,
        true,
        "",
    ),
    (Refused::Call(DeskFault::Idle), End::Desk, true, ""),
    (
        Refused::Letter(DeskFault::Memory),
        End::Memory,
        true,
        ":0\r\n",
    ),
    (Refused::Letter(DeskFault::Idle), End::Desk, true, ":0\r\n"),
    (
        Refused::Letter(DeskFault::NoSession),
        End::Desk,
        true,
        ":0\r\n",
    ),
    (Refused::Join(DeskFault::Memory), End::Memory, false, ""),
    (Refused::Join(DeskFault::Full), End::Desk, false, ""),
    (
        Refused::Join(DeskFault::Regress { index: 3 }),
        End::Desk,
        false,
        "",
    ),
    (Refused::Leave(DeskFault::Memory), End::Closed, false, THREE),
    (Refused::Leave(DeskFault::Full), End::Closed, false, THREE),
    (
        Refused::Leave(DeskFault::Regress { index: 3 }),
        End::Closed,
        false,
        THREE,
    ),
];

/// Memory and a full history are answered as errors, and the session goes on; every other fault of a call ends it. So
/// does a letter that is not there; if memory is lacking for one, that is how it ends. A session that cannot join reads
/// and writes nothing.
#[test]
fn faults_of_a_desk(rt: HostRuntime) -> Result<(), Fail> {
    let bytes = spelled(rt.alloc(), "PING\nXREAD BLOCK 0 STREAMS s $\nPING")?;
    for (row, (refused, end, left, text)) in FAULTS.iter().enumerate() {
        let ended = Ended {
            end: *end,
            left: *left,
        };
        let as_told = ends(rt.alloc(), bytes.as_slice(), true, *refused, ended, text);
        assert!(rt; as_told, "row {row}");
    }
    Ok(())
}

/// Tells 1, then 2 and so on.
#[derive(Drop)]
struct Counting {
    asked: Cell<u64>,
}

impl Clock for Counting {
    ghost may_tell = { λ _ _. true };

    fn now(&self) -> u64 {
        self.asked.set(self.asked.get().saturating_add(1));
        self.asked.get()
    }
}

/// A desk over a book, which notes what it is asked: `s` for a step at the moment that the clock told last, `m` for one
/// at another moment, `a` for a letter and `p` for a pause. Before each it notes `w` if something was written
/// meanwhile, and `g` if the gate was passed between two rounds.
#[derive(Drop)]
struct Watched<'a> {
    book: &'a mut Book,
    clock: &'a Counting,
    count: &'a Cell<usize>,
    seen: usize,
    passed: &'a Cell<bool>,
    noted: Vec<u8>,
}

/// Tells others that it was passed between two rounds.
#[derive(Drop)]
struct Passed<'a> {
    passed: &'a Cell<bool>,
}

impl Gate for Passed<'_> {
    fn before_call(&self, _: u64) {}

    fn between(&self, _: u64) {
        self.passed.set(true);
    }
}

impl Watched<'_> {
    fn note(&mut self, letter: u8) {
        let count = self.count.get();
        if count != self.seen && self.noted.push(b'w').is_err() {
            return;
        }
        self.seen = count;
        if self.passed.replace(false) && self.noted.push(b'g').is_err() {
            return;
        }
        let _noted = self.noted.push(letter);
    }
}

impl Desk for Watched<'_> {
    ghost shows = { λ _. None };

    ghost borrows = { λ _. 0 };

    fn step(&mut self, alloc: Global, moment: u64, event: Event) -> Result<Answer, DeskFault> {
        self.note(if moment == self.clock.asked.get() {
            b's'
        } else {
            b'm'
        });
        PlainDesk::new(self.book).step(alloc, moment, event)
    }

    fn await_reply(&mut self, alloc: Global, session: u64) -> Result<Letter, DeskFault> {
        self.note(b'a');
        PlainDesk::new(self.book).await_reply(alloc, session)
    }

    fn pause(&mut self) {
        self.note(b'p');
        PlainDesk::new(self.book).pause();
    }
}

/// Whether this was noted, and the clock was asked once for each step.
fn is_noted(noted: &[u8], asked: u64, want: &str) -> bool {
    let mut steps = 0u64;
    for letter in noted {
        if *letter == b's' {
            steps = steps.saturating_add(1);
        }
    }
    noted == want.as_bytes() && asked == steps
}

/// Whether a desk is asked this in a session of these bytes, which come in one read, and the clock once for each step.
fn notes(alloc: Global, hasher: RandomState, bytes: &[u8], want: &str) -> bool {
    let count = Cell::new(0);
    let mut book = Book::new(alloc, Policy::empty(alloc), hasher);
    let clock = Counting {
        asked: Cell::new(0),
    };
    let passed = Cell::new(false);
    let mut desk = Watched {
        book: &mut book,
        clock: &clock,
        count: &count,
        seen: 0,
        passed: &passed,
        noted: Vec::new(alloc),
    };
    let _ended = run_session(
        alloc,
        &mut Pieces::whole(bytes),
        &mut CountingSink::new(alloc, &count),
        &mut desk,
        &clock,
        &Passed { passed: &passed },
        true,
        9,
    );
    is_noted(desk.noted.as_slice(), clock.asked.get(), want)
}

/// Requests, and what the desk is asked for them.
const PAUSES: &[(&str, &str)] = &[
    ("PING\nPING\nPING", "sssspws"),
    ("FOO", "spws"),
    (
        "XADD s 1-1 a b\nXREAD BLOCK 9 STREAMS s 0\nPING",
        "sspwsspws",
    ),
    ("PING\nXREAD BLOCK 0 STREAMS s $\nPING", "sspwsas"),
    (
        "XGROUP CREATE s g $ MKSTREAM\nRECOVER.PLAN s g DEAD D\nPING",
        "ssspgsspws",
    ),
];

/// No pause comes between the requests of one read if their replies are short. One comes after them all, before their
/// replies are written; one before the replies that go out before a call that may wait; and one before a plan is made,
/// after which the gate is passed. The clock is asked once for each step, and so not for words that are not a command,
/// which have none.
#[test]
fn a_pause_comes_before_a_write_and_before_a_plan(rt: HostRuntime) -> Result<(), Fail> {
    for (lines, want) in PAUSES {
        let hasher = RandomState::new(&rt)?;
        let bytes = spelled(rt.alloc(), lines)?;
        let as_wanted = notes(rt.alloc(), hasher, bytes.as_slice(), want);
        assert!(rt; as_wanted, "{lines}");
    }
    Ok(())
}
