// Rows that were worked out by hand, and how they are played: over a book behind a lock, by sessions at two seats.
use super::command;
use super::records::keep;
use sr_args::{Call, Command};
use sr_book::{Answer, Event, Letter, Out};
use sr_plan::Verdict;
use sr_policy::Snapshot;
use sr_resp::{append_reply, encode};
use sr_run::{ActFault, Receipt, Seat, SeatFault, Shared};
use std::alloc::{AllocError, Global};
use std::process::Abort;
use std::sync::Wait;
use std::sync::ledger::Ledger;
use std::test::Fail;

/// A moment, a session, its call or what else happens, and what is said of it.
pub(crate) type Line = (u64, u64, &'static str, &'static str);

/// A run: the events of the book before it is opened, what happens then, how many events of seats there are, and how
/// many receipts and letters are of records that are kept no longer.
#[derive(Clone, Copy, Drop)]
pub(super) struct Row {
    pub(super) before: &'static [Line],
    pub(super) lines: &'static [Line],
    pub(super) acts: u64,
    pub(super) skipped: u64,
}

/// The letters of two readers: the indexes of their records, and the entries 1-1 and 2-1.
const FIRST: &str =
    "8 *1\r\n*2\r\n$1\r\ns\r\n*1\r\n*2\r\n$3\r\n1-1\r\n*2\r\n$1\r\na\r\n$1\r\nb\r\n";

const SECOND: &str =
    "11 *1\r\n*2\r\n$1\r\ns\r\n*1\r\n*2\r\n$3\r\n2-1\r\n*2\r\n$1\r\na\r\n$1\r\nc\r\n";

/// Entry 1-1.
const ENTRY: &str = "*1\r\n*2\r\n$3\r\n1-1\r\n*2\r\n$1\r\na\r\n$1\r\nb\r\n";

/// Entries of both classes, as they are delivered to D.
const BOTH: &str = "*1\r\n*2\r\n$1\r\ns\r\n*2\r\n*2\r\n$3\r\n1-1\r\n*2\r\n$1\r\nc\r\n$1\r\nx\r\n\
    *2\r\n$3\r\n2-1\r\n*2\r\n$1\r\nc\r\n$1\r\ny\r\n";

/// The plan for them, up to its prices, and what is pending then.
const PLAN: &str = "*5\r\n$4\r\ndone\r\n:6\r\n\
    *2\r\n*2\r\n$3\r\n1-1\r\n$1\r\nB\r\n*2\r\n$3\r\n2-1\r\n$1\r\nA\r\n";

const MOVED: &str = "*2\r\n*4\r\n$3\r\n1-1\r\n$1\r\nB\r\n:0\r\n:1\r\n\
    *4\r\n$3\r\n2-1\r\n$1\r\nA\r\n:0\r\n:1\r\n";

/// Two readers of a group wait. Record 8 serves the first and record 11 the second.
pub(super) const READERS: Row = Row {
    before: &[],
    lines: &[
        (10, 0, "join", "joined 1"),
        (10, 0, "join", "joined 2"),
        (10, 0, "join", "joined 3"),
        (10, 3, "XGROUP CREATE s g $ MKSTREAM", "+OK\r\n"),
        (10, 1, "XREADGROUP GROUP g A BLOCK 0 STREAMS s >", "blocked"),
        (10, 2, "XREADGROUP GROUP g B BLOCK 0 STREAMS s >", "blocked"),
        (10, 3, "XADD s 1-1 a b", "$3\r\n1-1\r\n"),
        (10, 1, "letter", FIRST),
        (10, 2, "PING", "busy"),
        (10, 3, "letter", "idle"),
        (10, 1, "leave", "left"),
        (10, 1, "letter", "no session"),
        (10, 3, "XADD s 2-1 a c", "$3\r\n2-1\r\n"),
        (10, 2, "letter", SECOND),
    ],
    acts: 9,
    skipped: 0,
};

/// A read waits until its deadline, since what is added is trimmed at once.
pub(super) const DEADLINE: Row = Row {
    before: &[],
    lines: &[
        (10, 0, "join", "joined 1"),
        (10, 0, "join", "joined 2"),
        (10, 1, "XREAD BLOCK 100 STREAMS s $", "blocked"),
        (20, 2, "XADD s MAXLEN 0 * a b", "$4\r\n20-0\r\n"),
        (109, 0, "tick", "false"),
        (110, 0, "tick", "true"),
        (110, 1, "letter", "5 *-1\r\n"),
        (111, 0, "tick", "false"),
    ],
    acts: 5,
    skipped: 0,
};

/// D dies with an entry of each class, of weight 2. B takes the first at 4 and A the second at 2; the other way round
/// it were 2 and 200.
pub(super) const RECOVERY: Row = Row {
    before: &[],
    lines: &[
        (10, 0, "join", "joined 1"),
        (10, 1, "XGROUP CREATE s g $ MKSTREAM", "+OK\r\n"),
        (10, 1, "XADD s 1-1 c x", "$3\r\n1-1\r\n"),
        (10, 1, "XADD s 2-1 c y", "$3\r\n2-1\r\n"),
        (10, 1, "XREADGROUP GROUP g D STREAMS s >", BOTH),
        (100, 1, "RECOVER.RUN s g DEAD D", "snapshot"),
        (100, 1, "conclude", PLAN),
        (100, 1, "XPENDING s g - + 9", MOVED),
    ],
    acts: 8,
    skipped: 0,
};

/// Session 1 adds an entry, and session 2, at the other seat, reads it later: a call's moment is that which it is told.
/// Then session 1 waits, and leaves meanwhile.
pub(super) const TWO_SEATS: Row = Row {
    before: &[],
    lines: &[
        (10, 0, "join", "joined 1"),
        (10, 0, "join", "joined 2"),
        (10, 1, "XADD s 1-1 a b", "$3\r\n1-1\r\n"),
        (12, 2, "XRANGE s - +", ENTRY),
        (12, 1, "XREAD BLOCK 0 STREAMS s $", "blocked"),
        (12, 1, "leave", "left"),
        (12, 1, "letter", "no session"),
    ],
    acts: 6,
    skipped: 0,
};

/// The book has three events before its seats make four.
pub(super) const OPENED: Row = Row {
    before: &[
        (10, 0, "join", "joined 1"),
        (10, 0, "join", "joined 2"),
        (10, 1, "XADD s 1-1 a b", "$3\r\n1-1\r\n"),
    ],
    lines: &[
        (10, 1, "XLEN s", ":1\r\n"),
        (11, 2, "XADD s 2-1 a b", "$3\r\n2-1\r\n"),
        (11, 1, "XLEN s", ":2\r\n"),
        (12, 2, "leave", "left"),
    ],
    acts: 4,
    skipped: 0,
};

/// What two scripts do that workers run, one after the other.
pub(super) const SCRIPTS: Row = Row {
    before: &[],
    lines: &[
        (10, 0, "join", "joined 1"),
        (10, 0, "join", "joined 2"),
        (10, 1, "XADD s 1-1 a b", "$3\r\n1-1\r\n"),
        (10, 1, "XLEN s", ":1\r\n"),
        (10, 1, "XADD s 2-1 a b", "$3\r\n2-1\r\n"),
        (10, 1, "XLEN s", ":2\r\n"),
        (10, 2, "XACK s g 1-1", ":0\r\n"),
        (10, 2, "XACK s g 1-1", ":0\r\n"),
        (10, 1, "leave", "left"),
        (10, 2, "leave", "left"),
    ],
    acts: 10,
    skipped: 0,
};

/// A checkpoint is made at record 3, since more than no record is kept, and none before it, since no more than a
/// thousand are.
pub(super) const CHECKPOINT: Row = Row {
    before: &[],
    lines: &[
        (10, 0, "join", "joined 1"),
        (10, 0, "join", "joined 2"),
        (10, 1, "XADD s 1-1 a b", "$3\r\n1-1\r\n"),
        (1_000, 0, "compact", "none"),
        (0, 0, "compact", "3"),
        (10, 2, "XLEN s", ":1\r\n"),
    ],
    acts: 4,
    skipped: 1,
};

/// Two readers of a group wait at a checkpoint and are served after it; a letter outlasts the next one.
pub(super) const WAITED: Row = Row {
    before: &[],
    lines: &[
        (10, 0, "join", "joined 1"),
        (10, 0, "join", "joined 2"),
        (10, 0, "join", "joined 3"),
        (10, 3, "XGROUP CREATE s g $ MKSTREAM", "+OK\r\n"),
        (10, 1, "XREADGROUP GROUP g A BLOCK 0 STREAMS s >", "blocked"),
        (10, 2, "XREADGROUP GROUP g B BLOCK 0 STREAMS s >", "blocked"),
        (0, 2, "compact", "6"),
        (10, 3, "XADD s 1-1 a b", "$3\r\n1-1\r\n"),
        (10, 1, "letter", FIRST),
        (10, 1, "leave", "left"),
        (10, 3, "XADD s 2-1 a c", "$3\r\n2-1\r\n"),
        (4, 1, "compact", "11"),
        (10, 2, "letter", SECOND),
        (10, 0, "join", "joined 12"),
    ],
    acts: 10,
    skipped: 7,
};

/// What a run was told. Of its snapshots the last.
#[derive(Drop)]
pub(super) struct Transcript {
    pub(super) receipts: Vec<Receipt>,
    pub(super) letters: Vec<Letter>,
    pub(super) snapshot: Option<Snapshot>,
}

impl Transcript {
    pub(super) fn new(alloc: Global) -> Transcript {
        Transcript {
            receipts: Vec::new(alloc),
            letters: Vec::new(alloc),
            snapshot: None,
        }
    }
}

/// The event of a line. A conclusion is that of the last snapshot.
pub(super) fn event_of(
    alloc: Global,
    session: u64,
    line: &str,
    snapshot: &mut Option<Snapshot>,
) -> Result<Event, Fail> {
    match line {
        "join" => Ok(Event::Join),
        "tick" => Ok(Event::Expire),
        "leave" => Ok(Event::Leave { session }),
        "conclude" => conclusion(alloc, session, snapshot),
        _ => asked(session, command(alloc, line)?),
    }
}

/// The conclusion of a snapshot, by which its plan is carried out.
fn conclusion(alloc: Global, session: u64, snapshot: &mut Option<Snapshot>) -> Result<Event, Fail> {
    let Some(snapshot) = snapshot.take() else {
        return Err(Fail::new("no snapshot"));
    };
    let verdict = Verdict::make(alloc, snapshot)?;
    Ok(Event::Conclude {
        session,
        verdict,
        apply: true,
        last: false,
    })
}

/// The first event of a command.
fn asked(session: u64, command: Command) -> Result<Event, Fail> {
    match command {
        Command::Call(call) => Ok(Event::Call { session, call }),
        Command::Recover {
            key,
            group,
            dead,
            ..
        } => Ok(Event::Snapshot {
            session,
            key,
            group,
            dead,
        }),
        Command::Board { .. } => Err(Fail::new("a board")),
    }
}

/// A word that is said.
fn word(alloc: Global, word: &str) -> Result<Vec<u8>, AllocError> {
    Vec::from_slice(alloc, word.as_bytes())
}

/// What is said of an outcome.
fn out_text(alloc: Global, out: &Out) -> Result<Vec<u8>, AllocError> {
    match out {
        Out::Joined(1) => word(alloc, "joined 1"),
        Out::Joined(2) => word(alloc, "joined 2"),
        Out::Joined(3) => word(alloc, "joined 3"),
        Out::Joined(12) => word(alloc, "joined 12"),
        Out::Reply(reply) => encode(alloc, reply),
        Out::Blocked => word(alloc, "blocked"),
        Out::Snap(_) => word(alloc, "snapshot"),
        Out::Joined(_) | Out::Stale(_) | Out::Expired(_) => word(alloc, "another"),
        Out::Left => word(alloc, "left"),
    }
}

/// What is said of a refusal. One for memory is handed on.
fn fault_text(alloc: Global, fault: SeatFault) -> Result<Vec<u8>, Fail> {
    match fault {
        SeatFault::Busy => Ok(word(alloc, "busy")?),
        SeatFault::Idle => Ok(word(alloc, "idle")?),
        SeatFault::NoSession => Ok(word(alloc, "no session")?),
        SeatFault::Memory | SeatFault::Full | SeatFault::Regress { .. } => Err(Fail::from(fault)),
    }
}

/// What is said of a letter: the index of its record, and its reply.
fn letter_text(alloc: Global, letter: &Letter) -> Result<Vec<u8>, AllocError> {
    let mut index = String::new(alloc);
    write!(index, "{} ", letter.index)?;
    let mut text = index.into_bytes();
    append_reply(&mut text, &letter.reply)?;
    Ok(text)
}

/// Makes a call, and keeps the receipt.
fn call<L: Ledger, R: AllocGlobal + Wait>(
    rt: &R,
    shared: &Shared<L>,
    seat: &mut Seat<L>,
    told: &mut Transcript,
    moment: u64,
    session: u64,
    call: &Call,
) -> Result<Vec<u8>, Fail> {
    match made(rt, shared, seat, moment, session, call) {
        Ok(receipt) => keep_receipt(rt.alloc(), told, receipt),
        Err(fault) => fault_text(rt.alloc(), fault),
    }
}

/// Makes a call. What holds a receipt or an answer has one exit each: at every exit these are dear to prove.
///
/// An XADD is handed in as an event, since a receipt does not say whether a reader was refused memory.
fn made<L: Ledger, R: AllocGlobal + Wait>(
    rt: &R,
    shared: &Shared<L>,
    seat: &mut Seat<L>,
    moment: u64,
    session: u64,
    call: &Call,
) -> Result<Receipt, SeatFault> {
    match call {
        Call::Xadd(_) => add(rt, shared, seat, moment, session, call),
        _ => shared.exchange(rt, rt.alloc(), seat, moment, session, call),
    }
}

/// Keeps a receipt, and says what its outcome is.
fn keep_receipt(alloc: Global, told: &mut Transcript, receipt: Receipt) -> Result<Vec<u8>, Fail> {
    let text = out_text(alloc, &receipt.out);
    let kept = told.receipts.push(receipt).is_ok();
    if kept {
        Ok(text?)
    } else {
        Err(Fail::from(AllocError))
    }
}

/// Carries out an event. It counts as refused for memory if a reader was not served for that: it would be waited for in
/// vain.
fn carried_out<L: Ledger, R: AllocGlobal + Wait>(
    rt: &R,
    shared: &Shared<L>,
    seat: &mut Seat<L>,
    moment: u64,
    event: Event,
) -> Result<Answer, SeatFault> {
    match shared.act(rt, rt.alloc(), seat, moment, event) {
        Ok(answer) => settled(answer),
        Err(refused) => Err(fault_of(refused)),
    }
}

/// An answer after which no reader is left waiting for want of memory.
fn settled(answer: Answer) -> Result<Answer, SeatFault> {
    if answer.settled {
        Ok(answer)
    } else {
        Err(SeatFault::Memory)
    }
}

/// Why an event was refused, which is dropped.
fn fault_of(refused: ActFault) -> SeatFault {
    refused.fault
}

/// Makes a call as an event.
fn add<L: Ledger, R: AllocGlobal + Wait>(
    rt: &R,
    shared: &Shared<L>,
    seat: &mut Seat<L>,
    moment: u64,
    session: u64,
    call: &Call,
) -> Result<Receipt, SeatFault> {
    let event = event_of_copy(rt.alloc(), session, call)?;
    let answer = carried_out(rt, shared, seat, moment, event)?;
    receipt_of(rt.alloc(), seat.number(), session, call, answer)
}

/// The event of a copy of this call.
fn event_of_copy(alloc: Global, session: u64, call: &Call) -> Result<Event, SeatFault> {
    match call.copy(alloc) {
        Ok(call) => Ok(Event::Call { session, call }),
        Err(_) => Err(SeatFault::Memory),
    }
}

/// The receipt of a call that was answered so.
fn receipt_of(
    alloc: Global,
    seat: u64,
    session: u64,
    call: &Call,
    answer: Answer,
) -> Result<Receipt, SeatFault> {
    match call.copy(alloc) {
        Ok(call) => Ok(Receipt {
            seat,
            index: answer.index,
            session,
            call,
            out: answer.out,
        }),
        Err(_) => Err(SeatFault::Memory),
    }
}

/// Hands in an event that is no call, and keeps the snapshot if it gives one.
fn act<L: Ledger, R: AllocGlobal + Wait>(
    rt: &R,
    shared: &Shared<L>,
    seat: &mut Seat<L>,
    told: &mut Transcript,
    moment: u64,
    event: Event,
) -> Result<Vec<u8>, Fail> {
    let answer = carried_out(rt, shared, seat, moment, event)?;
    let text = out_text(rt.alloc(), &answer.out)?;
    keep(answer, &mut told.snapshot);
    Ok(text)
}

/// Waits for the letter of a session, and keeps it.
fn letter<L: Ledger, R: AllocGlobal + Wait>(
    rt: &R,
    shared: &Shared<L>,
    seat: &mut Seat<L>,
    told: &mut Transcript,
    session: u64,
) -> Result<Vec<u8>, Fail> {
    match shared.await_reply(rt, rt.alloc(), seat, session) {
        Ok(letter) => {
            let text = letter_text(rt.alloc(), &letter)?;
            told.letters.push(letter)?;
            Ok(text)
        }
        Err(fault) => fault_text(rt.alloc(), fault),
    }
}

/// What is said of a checkpoint: its index, if one was made.
fn checkpoint_text(alloc: Global, made: Option<u64>) -> Result<Vec<u8>, Fail> {
    let Some(index) = made else {
        return Ok(word(alloc, "none")?);
    };
    let mut text = String::new(alloc);
    write!(text, "{index}")?;
    Ok(text.into_bytes())
}

/// Plays a line at a seat. What is said of it. A checkpoint has the number of records that are kept for its moment.
fn play_line<L: Ledger, R: AllocGlobal + Wait>(
    rt: &R,
    shared: &Shared<L>,
    seat: &mut Seat<L>,
    told: &mut Transcript,
    (moment, session, line, _): Line,
) -> Result<Vec<u8>, Fail> {
    match line {
        "letter" => letter(rt, shared, seat, told, session),
        "tick" => {
            let due = shared.tick(rt, rt.alloc(), seat, moment)?;
            Ok(word(rt.alloc(), if due { "true" } else { "false" })?)
        }
        "compact" => {
            let made = shared.compact(rt, rt.alloc(), seat, moment)?;
            checkpoint_text(rt.alloc(), made)
        }
        _ => match event_of(rt.alloc(), session, line, &mut told.snapshot)? {
            Event::Call {
                session,
                call: asked,
            } => call(rt, shared, seat, told, moment, session, &asked),
            event => act(rt, shared, seat, told, moment, event),
        },
    }
}

/// Whether that is to be said of a line. The prices of a plan are left open.
fn is_said(line: &str, want: &str, said: &[u8]) -> bool {
    if line == "conclude" {
        said.starts_with(want.as_bytes())
    } else {
        said == want.as_bytes()
    }
}

/// Plays lines, each at the seat of its session.
pub(super) fn play<L: Ledger, R: AllocGlobal + Abort + Wait>(
    rt: &R,
    shared: &Shared<L>,
    seats: &mut [Seat<L>],
    told: &mut Transcript,
    lines: &[Line],
) -> Result<(), Fail> {
    for played in lines {
        let (_, session, line, want) = *played;
        let Some(seat) = seats.get_mut((session % 2) as usize) else {
            return Err(Fail::new("no seat"));
        };
        let said = play_line(rt, shared, seat, told, *played)?;
        assert!(rt; is_said(line, want, said.as_slice()), "{session} {line}");
    }
    Ok(())
}
