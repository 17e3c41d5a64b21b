// Recoveries while another session goes on. What they reply otherwise is in tests/commands.
ghost use Rattle.std.specs.Prelude.{None};

use super::desks::CountingSink;
use super::{Pieces, Stopped, spelled};
use crate::tests::run::TWO;
use sr_book::{Answer, Book, Event, Letter};
use sr_policy::Policy;
use sr_session::{Desk, DeskFault, End, Gate, NoGate, PlainDesk, run_session};
use std::alloc::{AllocError, Global};
use std::cell::{Cell, RefCell};
use std::hash::RandomState;
use std::random::RandomSource;
use std::test::Fail;

/// One entry is pending for D, and one for A, which has no room then.
const FULL: &str = "XADD s 1-1 c x
XGROUP CREATE s g 0
XREADGROUP GROUP g D STREAMS s >
XADD s 3-1 c x
XREADGROUP GROUP g A STREAMS s >";

/// The same with two for A.
const FULLER: &str = "XADD s 1-1 c x
XGROUP CREATE s g 0
XREADGROUP GROUP g D STREAMS s >
XADD s 3-1 c x
XADD s 4-1 c x
XREADGROUP GROUP g A STREAMS s >";

/// Notes what happens in a recovery: 1 for a snapshot, 2 between, and 3 for a verdict.
fn note(steps: &Cell<u64>, step: u64) {
    steps.set(steps.get().saturating_mul(10).saturating_add(step));
}

/// A session has these requests answered at this book.
fn meddle(alloc: Global, book: &mut Book, requests: &[u8]) {
    let count = Cell::new(0);
    let _ended = run_session(
        alloc,
        &mut Pieces::whole(requests),
        &mut CountingSink::new(alloc, &count),
        &mut PlainDesk::new(book),
        &Stopped,
        &NoGate,
        false,
        9,
    );
}

/// A book at which others act too while a recovery goes on: between a snapshot and its verdict they have their requests
/// answered, in the first round the first requests, and so on.
#[derive(Drop)]
struct Scene {
    alloc: Global,
    book: RefCell<Book>,
    others: Vec<Vec<u8>>,
    /// The session that asked for the recovery.
    session: u64,
    /// How many rounds there were.
    rounds: Cell<usize>,
    steps: Cell<u64>,
}

impl Gate for Scene {
    fn before_call(&self, _: u64) {}

    fn between(&self, session: u64) {
        note(&self.steps, if session == self.session { 2 } else { 9 });
        let round = self.rounds.get();
        self.rounds.set(round.saturating_add(1));
        let Some(requests) = self.others.get(round) else {
            return;
        };
        if let Ok(mut book) = self.book.try_borrow_mut() {
            meddle(self.alloc, &mut book, requests.as_slice());
        }
    }
}

/// A desk over its book, whose history may be full when a verdict is concluded.
#[derive(Drop)]
struct Lent<'a> {
    scene: &'a Scene,
    is_full: bool,
}

impl Lent<'_> {
    /// Notes an event. Answers whether the history is full.
    fn is_stopped(&self, event: &Event) -> bool {
        match event {
            Event::Snapshot { .. } => {
                note(&self.scene.steps, 1);
                false
            }
            Event::Conclude { .. } => {
                note(&self.scene.steps, 3);
                self.is_full
            }
            _ => false,
        }
    }
}

/// What a book answers to an event.
fn step_in(
    book: &RefCell<Book>,
    alloc: Global,
    moment: u64,
    event: Event,
) -> Result<Answer, DeskFault> {
    match book.try_borrow_mut() {
        Ok(mut book) => PlainDesk::new(&mut book).step(alloc, moment, event),
        Err(_) => Err(DeskFault::Busy),
    }
}

/// What a book answers to an event, unless the history is full.
fn step_unless(
    is_full: bool,
    book: &RefCell<Book>,
    alloc: Global,
    moment: u64,
    event: Event,
) -> Result<Answer, DeskFault> {
    if is_full {
        drop(event);
        Err(DeskFault::Full)
    } else {
        step_in(book, alloc, moment, event)
    }
}

impl Desk for Lent<'_> {
    ghost shows = { λ _. None };

    ghost borrows = { λ _. 0 };

    fn step(&mut self, alloc: Global, moment: u64, event: Event) -> Result<Answer, DeskFault> {
        let is_full = self.is_stopped(&event);
        step_unless(is_full, &self.scene.book, alloc, moment, event)
    }

    fn await_reply(&mut self, _: Global, _: u64) -> Result<Letter, DeskFault> {
        Err(DeskFault::Idle)
    }

    fn pause(&mut self) {}
}

/// What was answered before, what other sessions do meanwhile in each round, the commands, how their replies begin,
/// what comes after the price of A, which is from 0 to 2 then (nothing, if that is not compared), and what was noted of
/// them.
#[derive(Clone, Copy, Drop)]
struct Meanwhile<'a> {
    before: &'a str,
    others: &'a [&'a str],
    is_full: bool,
    commands: &'a str,
    replies: &'a str,
    ends: &'a str,
    steps: u64,
}

/// Entry 1-1 of class x is to be taken by A at a cost of 2 or by B at one of 4.
const ROWS: &[Meanwhile<'_>] = &[
    Meanwhile {
        before: FULL,
        others: &["XACK s g 3-1"],
        is_full: false,
        commands: "RECOVER.RUN s g DEAD D",
        replies: "*5\r\n$4\r\ndone\r\n:2\r\n*1\r\n*2\r\n$3\r\n1-1\r\n$1\r\nA\r\n*2\r\n*2\r\n$1\r\nA\r\n:",
        ends: "\r\n*2\r\n$1\r\nB\r\n:0\r\n*0\r\n",
        steps: 12_323,
    },
    Meanwhile {
        before: FULL,
        others: &["XADD s 9-1 c x"],
        is_full: false,
        commands: "RECOVER.RUN s g DEAD D",
        replies: "*5\r\n$4\r\ndone\r\n:4\r\n*1\r\n*2\r\n$3\r\n1-1\r\n$1\r\nB\r\n*2\r\n*2\r\n$1\r\nA\r\n:",
        ends: "",
        steps: 123,
    },
    Meanwhile {
        before: FULL,
        others: &["XREADGROUP GROUP g D STREAMS s 0"],
        is_full: false,
        commands: "RECOVER.RUN s g DEAD D",
        replies: "*5\r\n$4\r\ndone\r\n:4\r\n*1\r\n*2\r\n$3\r\n1-1\r\n$1\r\nB\r\n*2\r\n*2\r\n$1\r\nA\r\n:",
        ends: "",
        steps: 123,
    },
    Meanwhile {
        before: FULL,
        others: &["XACK s g 3-1"],
        is_full: false,
        commands: "RECOVER.RUN s g TRIES 1 DEAD D\nPING",
        replies: "-STALE the group changed while the plan was made\r\n+PONG\r\n",
        ends: "",
        steps: 123,
    },
    Meanwhile {
        before: FULL,
        others: &["XGROUP DESTROY s g"],
        is_full: false,
        commands: "RECOVER.RUN s g DEAD D",
        replies: "-NOGROUP no such key or consumer group\r\n",
        ends: "",
        steps: 123,
    },
    Meanwhile {
        before: FULL,
        others: &["PING"],
        is_full: false,
        commands: "RECOVER.PLAN s g DEAD D",
        replies: "*5\r\n$4\r\nplan\r\n:4\r\n*1\r\n*2\r\n$3\r\n1-1\r\n$1\r\nB\r\n*2\r\n*2\r\n$1\r\nA\r\n:",
        ends: "",
        steps: 123,
    },
    Meanwhile {
        before: FULL,
        others: &["PING"],
        is_full: true,
        commands: "RECOVER.RUN s g DEAD D\nPING",
        replies: "-OOM history is full\r\n+PONG\r\n",
        ends: "",
        steps: 123,
    },
    Meanwhile {
        before: FULLER,
        others: &["XACK s g 3-1", "XACK s g 4-1"],
        is_full: false,
        commands: "RECOVER.RUN s g TRIES 2 DEAD D\nXPENDING s g",
        replies: "-STALE the group changed while the plan was made\r\n\
            *4\r\n:1\r\n$3\r\n1-1\r\n$3\r\n1-1\r\n*1\r\n*2\r\n$1\r\nD\r\n$1\r\n1\r\n",
        ends: "",
        steps: 12_323,
    },
    Meanwhile {
        before: FULLER,
        others: &["XACK s g 3-1", "XACK s g 4-1"],
        is_full: false,
        commands: "RECOVER.RUN s g TRIES 3 DEAD D",
        replies: "*5\r\n$4\r\ndone\r\n:2\r\n*1\r\n*2\r\n$3\r\n1-1\r\n$1\r\nA\r\n*2\r\n*2\r\n$1\r\nA\r\n:",
        ends: "\r\n*2\r\n$1\r\nB\r\n:0\r\n*0\r\n",
        steps: 1_232_323,
    },
];

/// Whether what was written is what a row wants.
fn is_wanted(row: &Meanwhile<'_>, written: &[u8]) -> bool {
    let Some(rest) = written.strip_prefix(row.replies.as_bytes()) else {
        return false;
    };
    let ends = row.ends.as_bytes();
    if ends.is_empty() {
        return true;
    }
    let zero_or_one = rest.strip_prefix(b"0").or(rest.strip_prefix(b"1"));
    match zero_or_one.or(rest.strip_prefix(b"2")) {
        Some(end) => end == ends,
        None => false,
    }
}

/// Whether a session that ended so, wrote this and noted these steps went as a row wants.
fn is_met(row: &Meanwhile<'_>, end: End, written: &[u8], steps: u64) -> bool {
    end == End::Closed && is_wanted(row, written) && steps == row.steps
}

/// Requests as a client sends them: those before, and the commands of a row.
#[derive(Clone, Copy, Drop)]
struct Sent<'a> {
    before: &'a [u8],
    commands: &'a [u8],
}

/// Whether the commands of a row are answered as it wants, at a book under this policy. It has one exit, since it holds
/// a book.
fn is_answered(
    alloc: Global,
    hasher: RandomState,
    policy: Policy,
    sent: Sent<'_>,
    others: Vec<Vec<u8>>,
    row: &Meanwhile<'_>,
) -> bool {
    let mut book = Book::new(alloc, policy, hasher);
    meddle(alloc, &mut book, sent.before);
    let session = book.records().len().saturating_add(1) as u64;
    let scene = Scene {
        alloc,
        book: RefCell::new(book),
        others,
        session,
        rounds: Cell::new(0),
        steps: Cell::new(0),
    };
    let mut desk = Lent {
        scene: &scene,
        is_full: row.is_full,
    };
    let count = Cell::new(0);
    let mut writer = CountingSink::new(alloc, &count);
    let ended = run_session(
        alloc,
        &mut Pieces::whole(sent.commands),
        &mut writer,
        &mut desk,
        &Stopped,
        &scene,
        false,
        9,
    );
    is_met(row, ended.end, writer.bytes.as_slice(), scene.steps.get())
}

/// The same, at a new book under the policy.
fn goes_on(rt: &(impl AllocGlobal + RandomSource), row: &Meanwhile<'_>) -> Result<bool, Fail> {
    let alloc = rt.alloc();
    let before = spelled(alloc, row.before)?;
    let mut others = Vec::new(alloc);
    for lines in row.others {
        others.push(spelled(alloc, lines)?)?;
    }
    let commands = spelled(alloc, row.commands)?;
    let hasher = RandomState::new(rt)?;
    let sent = Sent {
        before: before.as_slice(),
        commands: commands.as_slice(),
    };
    let policy = Policy::read(alloc, TWO).or(Err(AllocError))?;
    Ok(is_answered(alloc, hasher, policy, sent, others, row))
}

/// A plan is made anew exactly when what it rests on has changed.
#[test]
fn others_go_on_meanwhile(rt: HostRuntime) -> Result<(), Fail> {
    for row in ROWS {
        assert!(rt; goes_on(&rt, row)?, "{}: {:?}", row.commands, row.others);
    }
    Ok(())
}
