ghost use Rattle.std.specs.Prelude.{◌≡◌, ◌≢◌, ◌+◌, ◌≤◌, ℕ, List, [], ◌++◌, Option, true, false, IfOk, IfErr, OnOk};
ghost use Rattle.std.specs.Prelude.{OnErr};
ghost use Rattle.std.specs.Io.KnownBytes.{Appends, Consumes};
ghost use Rattle.sr_resp.specs.{Progress};
ghost use Rattle.sr_resp.specs.Stream.{Advances};
ghost use Rattle.sr_book.specs.{BookState};
ghost use Rattle.sr_book.specs.declared.answer.Answer.{Answer};
ghost use Rattle.sr_session.specs.Answered.{Answers, Holds};
ghost use Rattle.sr_session.specs.Desk.{IsIdle, StepsAt};
ghost use Rattle.sr_session.specs.Session.{EndsAs};
ghost use Rattle.sr_session.specs.Source.{CountsReads};
ghost use Rattle.sr_session.specs.Whole.{EndsUnjoined, HasJoined, HasLeft, RunsAs};
ghost use Rattle.sr_session.specs.steps.Asked.{AreAsked};
ghost use Rattle.sr_session.specs.steps.Calling.{FailsToJoin, IsDeskEnd};
ghost use Rattle.sr_session.specs.steps.Gathered.{IsNoted};
ghost use Rattle.sr_session.specs.steps.Underway.{IsAnswering, GoesOn, IsPieceEnd};
ghost use Rattle.sr_session.specs.declared.run.End.TheVariants.{Memory};

use crate::replies::Replies;
use crate::request::answer_asked;
use crate::{Clock, Desk, DeskFault, Gate, ReadFailed, Source};
use sr_args::{CallFault, Command, read_call};
use sr_book::{Event, Out};
use sr_resp::{ErrCode, ReadFault, Reader, Sink};
use std::alloc::{AllocError, Global};

/// How many bytes are read at a time.
const PIECE: usize = 4096;

/// After this many bytes of replies a desk lets others go on before the next request of a read.
const SHARE: usize = 16 * 1024;

/// Why a session ended.
#[derive(Clone, Copy, Debug, PartialEq, Eq)]
pub enum End {
    /// The reader came to its end.
    Closed,
    /// The bytes that were read are not requests.
    Protocol,
    /// The reader failed.
    ReadFault,
    /// The writer failed after this many bytes of the whole session; a number beyond `usize` is its greatest.
    SendFault { sent: usize },
    /// The session made all the reads that it was allowed.
    Turns,
    /// A failed allocation.
    Memory,
    /// The desk refused the session, or has no reply to a call that waits.
    Desk,
}

/// How a session ended.
#[derive(Clone, Copy, Debug, PartialEq, Eq)]
pub struct Ended {
    /// Why it ended.
    pub end: End,
    /// Whether it joined, and its leave was carried out.
    pub left: bool,
}

impl From<AllocError> for End {
    ghost from_gives = { λ _ end. end ≡ Memory };

    fn from(_: AllocError) -> End {
        End::Memory
    }
}

/// Serves one connection: joins, reads requests and writes the reply to each, in order, and leaves at every end.
///
/// It reads at most 4,096 bytes at a time, at most `turns` times, and writes the replies to the requests of one read
/// together, except that those before a call that may wait go out before it, and so does what has come to 64 KiB.
/// Without `blocking` a call is taken as if BLOCK was not given. A session that cannot join reads nothing.
///
/// Source: RESP2 protocol specification, "Sending commands to a Redis server" and "Multiple commands and pipelining".
pub fn run_session<R: Source, W: Sink, D: Desk, C: Clock, G: Gate>(
    alloc: Global,
    reader: &mut R,
    writer: &mut W,
    desk: &mut D,
    clock: &C,
    gate: &G,
    blocking: bool,
    turns: u64,
) -> Ended
    requires unread { (R.ended reader.old ≡ false) × (R.failed reader.old ≡ false) }
    requires unwritten { W.failed writer.old ≡ false }

    // what was taken from the reader, and written to the writer
    ensures session { (taken written : List ℕ)
        × Consumes (R.remaining reader.old) (R.remaining reader.new) taken
        × Appends (W.contents writer.old) (W.contents writer.new) written
        × RunsAs (C.may_tell clock.now) blocking (D.shows desk.old) taken written result (D.shows desk.new) }
    ensures reads { (reads : ℕ) × (reads ≤ turns) × CountsReads (R.reads reader.old) (R.reads reader.new) reads
        × (result.end ≡ End.Turns → reads ≡ turns) }
    ensures same { D.borrows desk.new ≡ D.borrows desk.old }

    // Each end has its cause, and no cause is passed over. The two together pin the loop: a session that stops early,
    // or goes on after a fault, breaks one of them, whatever it wrote.
    ensures closed { result.end ≡ End.Closed → R.ended reader.new ≡ true }
    ensures read_fault { result.end ≡ End.ReadFault → R.failed reader.new ≡ true }
    ensures send_fault { (sent : ℕ) → result.end ≡ End.SendFault sent → W.failed writer.new ≡ true }
    ensures heeds_end { result.end ≢ End.Closed → R.ended reader.new ≡ R.ended reader.old }
    ensures heeds_read_fault { result.end ≢ End.ReadFault → R.failed reader.new ≡ R.failed reader.old }
    ensures heeds_send_fault { ((sent : ℕ) → result.end ≢ End.SendFault sent)
        → W.failed writer.new ≡ W.failed writer.old }
{
    match join(alloc, desk, clock) {
        Ok(session) => {
            let end = serve_requests(
                alloc, reader, writer, desk, clock, gate, blocking, session, turns,
            );
            let left = leave(alloc, desk, clock, session);
            Ended { end, left }
        }
        Err(end) => Ended { end, left: false },
    }
}

/// Opens a session, and answers its number; or says how a session ends that cannot join.
fn join<D: Desk, C: Clock>(alloc: Global, desk: &mut D, clock: &C) -> Result<u64, End>
    ensures ok { IfOk result (λ session.
        HasJoined (C.may_tell clock.now) session (D.shows desk.old) (D.shows desk.new)) }
    ensures idle { IfOk result (λ session. IsIdle session (D.shows desk.new)) }
    ensures err { IfErr result (λ end.
        FailsToJoin (C.may_tell clock.now) (D.shows desk.old) end (D.shows desk.new)) }
    ensures end { IfErr result IsDeskEnd }
    ensures same { D.borrows desk.new ≡ D.borrows desk.old }
{
    match desk.step(alloc, clock.now(), Event::Join) {
        Ok(answer) => match answer.out {
            Out::Joined(session) => Ok(session),
            Out::Reply(_)
            | Out::Blocked
            | Out::Snap(_)
            | Out::Stale(_)
            | Out::Expired(_)
            | Out::Left => Err(End::Desk),
        },
        Err(fault) => Err(unjoined_end(fault)),
    }
}

/// How a session ends whose join is refused.
fn unjoined_end(fault: DeskFault) -> End
    ensures unjoined { EndsUnjoined (Err fault) result }
    ensures end { IsDeskEnd result }
{
    match fault {
        DeskFault::Memory => End::Memory,
        DeskFault::Busy
        | DeskFault::Full
        | DeskFault::NoSession
        | DeskFault::Regress { .. }
        | DeskFault::Idle
        | DeskFault::Unread => End::Desk,
    }
}

/// Closes a session, and says whether that was carried out.
fn leave<D: Desk, C: Clock>(alloc: Global, desk: &mut D, clock: &C, session: u64) -> bool
    ensures left { HasLeft (C.may_tell clock.now) session result (D.shows desk.old) (D.shows desk.new) }
    ensures same { D.borrows desk.new ≡ D.borrows desk.old }
{
    let left = desk.step(alloc, clock.now(), Event::Leave { session });
    left.is_ok()
}

/// Reads requests of an open session, and writes the reply to each.
fn serve_requests<R: Source, W: Sink, D: Desk, C: Clock, G: Gate>(
    alloc: Global,
    reader: &mut R,
    writer: &mut W,
    desk: &mut D,
    clock: &C,
    gate: &G,
    blocking: bool,
    session: u64,
    turns: u64,
) -> End
    requires unread { (R.ended reader.old ≡ false) × (R.failed reader.old ≡ false) }
    requires unwritten { W.failed writer.old ≡ false }
    requires idle { IsIdle session (D.shows desk.old) }
    ensures session { (taken written : List ℕ)
        × Consumes (R.remaining reader.old) (R.remaining reader.new) taken
        × Appends (W.contents writer.old) (W.contents writer.new) written
        × EndsAs (Answers (C.may_tell clock.now) blocking session) (Holds (C.may_tell clock.now) blocking session)
        (D.shows desk.old) taken written (D.shows desk.new) result }
    ensures reads { (reads : ℕ) × (reads ≤ turns) × CountsReads (R.reads reader.old) (R.reads reader.new) reads
        × (result ≡ End.Turns → reads ≡ turns) }
    ensures same { D.borrows desk.new ≡ D.borrows desk.old }
    ensures closed { result ≡ End.Closed → R.ended reader.new ≡ true }
    ensures read_fault { result ≡ End.ReadFault → R.failed reader.new ≡ true }
    ensures send_fault { (sent : ℕ) → result ≡ End.SendFault sent → W.failed writer.new ≡ true }
    ensures heeds_end { result ≢ End.Closed → R.ended reader.new ≡ R.ended reader.old }
    ensures heeds_read_fault { result ≢ End.ReadFault → R.failed reader.new ≡ R.failed reader.old }
    ensures heeds_send_fault { ((sent : ℕ) → result ≢ End.SendFault sent) → W.failed writer.new ≡ W.failed writer.old }
{
    let mut requests = Reader::new(alloc);
    let mut replies = Replies::new(alloc);
    let mut buffer = [0; PIECE];
    for _turn in 0..turns {
        let count = match reader.read(&mut buffer) {
            Ok(0) => return End::Closed,
            Ok(count) => count,
            Err(ReadFailed) => return End::ReadFault,
        };
        let piece = &buffer[..count];
        match take_piece(
            alloc,
            &mut requests,
            writer,
            desk,
            clock,
            gate,
            blocking,
            session,
            piece,
            &mut replies,
        ) {
            Ok(()) => {}
            Err(end) => return end,
        }
    }
    End::Turns
}

/// Takes the next piece of the bytes, answers each request that is whole now, and sends the replies.
fn take_piece<W: Sink, D: Desk, C: Clock, G: Gate>(
    alloc: Global,
    requests: &mut Reader,
    writer: &mut W,
    desk: &mut D,
    clock: &C,
    gate: &G,
    blocking: bool,
    session: u64,
    piece: &[u8],
    replies: &mut Replies,
) -> Result<(), End>
    requires sound { W.failed writer.old ≡ false }
    requires none_gathered { replies.old.gathered.items ≡ [] }
    requires idle { IsIdle session (D.shows desk.old) }
    ensures gathered { OnOk result (replies.new.gathered.items ≡ []) }
    ensures ok { OnOk result ((gets : List ℕ) × Appends (W.contents writer.old) (W.contents writer.new) gets
        × ((found : Option BookState) (taken written : List ℕ)
        → GoesOn (Answers (C.may_tell clock.now) blocking session) found taken written replies.old.sent requests.old
        (D.shows desk.old)
        → GoesOn (Answers (C.may_tell clock.now) blocking session) found (taken ++ piece.now)
        (written ++ gets) replies.new.sent
        requests.new (D.shows desk.new))) }
    ensures idle { OnOk result (IsIdle session (D.shows desk.new)) }
    ensures err { IfErr result (λ end. (gets : List ℕ) × Appends (W.contents writer.old) (W.contents writer.new) gets
        × ((found : Option BookState) (taken written : List ℕ)
        → GoesOn (Answers (C.may_tell clock.now) blocking session) found taken written replies.old.sent requests.old
        (D.shows desk.old)
        → EndsAs (Answers (C.may_tell clock.now) blocking session) (Holds (C.may_tell clock.now) blocking session)
        found (taken ++ piece.now) (written ++ gets) (D.shows desk.new) end)) }
    ensures end { IfErr result IsPieceEnd }
    ensures noted { IsNoted result (W.failed writer.old) (W.failed writer.new) }
    ensures same { D.borrows desk.new ≡ D.borrows desk.old }
{
    let broken = feed(alloc, requests, piece)?;
    answer_waiting(
        alloc, requests, writer, desk, clock, gate, blocking, session, replies,
    )?;
    if broken {
        replies.gather_error(alloc, ErrCode::Protocol)?;
        replies.send(writer)?;
        return Err(End::Protocol);
    }
    replies.send(writer)
}

/// Answers the requests that wait. Their replies are gathered; some may have been sent.
///
/// All of them are read before the first is carried out: a desk may keep others from its server from one event to the
/// next, unless that made long replies.
fn answer_waiting<W: Sink, D: Desk, C: Clock, G: Gate>(
    alloc: Global,
    requests: &mut Reader,
    writer: &mut W,
    desk: &mut D,
    clock: &C,
    gate: &G,
    blocking: bool,
    session: u64,
    replies: &mut Replies,
) -> Result<(), End>
    requires sound { W.failed writer.old ≡ false }
    requires idle { IsIdle session (D.shows desk.old) }
    ensures ok { OnOk result ((gets : List ℕ) × Appends (W.contents writer.old) (W.contents writer.new) gets
        × ((found : Option BookState) (taken written : List ℕ)
        → IsAnswering (Answers (C.may_tell clock.now) blocking session) found taken written replies.old.gathered.items
        replies.old.sent
        requests.old (D.shows desk.old)
        → IsAnswering (Answers (C.may_tell clock.now) blocking session) found taken
        (written ++ gets) replies.new.gathered.items
        replies.new.sent requests.new (D.shows desk.new))) }
    ensures none_wait { OnOk result (requests.new.waiting ≡ []) }
    ensures failed { requests.new.failed ≡ requests.old.failed }
    ensures idle { OnOk result (IsIdle session (D.shows desk.new)) }
    ensures err { IfErr result (λ end. (gets : List ℕ) × Appends (W.contents writer.old) (W.contents writer.new) gets
        × ((found : Option BookState) (taken written : List ℕ)
        → IsAnswering (Answers (C.may_tell clock.now) blocking session) found taken written replies.old.gathered.items
        replies.old.sent
        requests.old (D.shows desk.old)
        → EndsAs (Answers (C.may_tell clock.now) blocking session) (Holds (C.may_tell clock.now) blocking session)
        found taken (written ++ gets) (D.shows desk.new) end)) }
    ensures end { IfErr result IsPieceEnd }
    ensures noted { IsNoted result (W.failed writer.old) (W.failed writer.new) }
    ensures same { D.borrows desk.new ≡ D.borrows desk.old }
{
    let asked = read_waiting(alloc, requests)?;
    answer_all(
        alloc, writer, desk, clock, gate, blocking, session, asked, replies,
    )?;
    desk.pause();
    Ok(())
}

/// Reads the requests that wait: the command that each is, or why it is none.
fn read_waiting(
    alloc: Global,
    requests: &mut Reader,
) -> Result<Vec<Result<Command, CallFault>>, AllocError>
    ensures asked { IfOk result (λ asked. AreAsked requests.old.waiting asked.items) }
    ensures ok { OnOk result (requests.new ≡ record requests.old { waiting = [] }) }
    ensures failed { requests.new.failed ≡ requests.old.failed }
{
    let mut asked = Vec::new(alloc);
    while let Some(words) = requests.next_request() {
        asked.push(read_call(alloc, &words))?;
    }
    Ok(asked)
}

/// Answers requests that were read, one after another.
fn answer_all<W: Sink, D: Desk, C: Clock, G: Gate>(
    alloc: Global,
    writer: &mut W,
    desk: &mut D,
    clock: &C,
    gate: &G,
    blocking: bool,
    session: u64,
    asked: Vec<Result<Command, CallFault>>,
    replies: &mut Replies,
) -> Result<(), End>
    requires sound { W.failed writer.old ≡ false }
    requires idle { IsIdle session (D.shows desk.old) }
    ensures ok { OnOk result ((gets : List ℕ) × Appends (W.contents writer.old) (W.contents writer.new) gets
        × ((progress : Progress) → AreAsked progress.waiting asked.items
        → (found : Option BookState) (taken written : List ℕ)
        → IsAnswering (Answers (C.may_tell clock.now) blocking session) found taken written replies.old.gathered.items
        replies.old.sent
        progress (D.shows desk.old)
        → IsAnswering (Answers (C.may_tell clock.now) blocking session) found taken
        (written ++ gets) replies.new.gathered.items
        replies.new.sent (record progress { waiting = [] }) (D.shows desk.new))) }
    ensures idle { OnOk result (IsIdle session (D.shows desk.new)) }
    ensures err { IfErr result (λ end. (gets : List ℕ) × Appends (W.contents writer.old) (W.contents writer.new) gets
        × ((progress : Progress) → AreAsked progress.waiting asked.items
        → (found : Option BookState) (taken written : List ℕ)
        → IsAnswering (Answers (C.may_tell clock.now) blocking session) found taken written replies.old.gathered.items
        replies.old.sent
        progress (D.shows desk.old)
        → EndsAs (Answers (C.may_tell clock.now) blocking session) (Holds (C.may_tell clock.now) blocking session)
        found taken (written ++ gets) (D.shows desk.new) end)) }
    ensures end { IfErr result IsPieceEnd }
    ensures noted { IsNoted result (W.failed writer.old) (W.failed writer.new) }
    ensures same { D.borrows desk.new ≡ D.borrows desk.old }
{
    let mut seen = replies.len();
    for one in asked {
        answer_asked(
            alloc, writer, desk, clock, gate, blocking, session, one, replies,
        )?;
        let shared = let_others_in(desk, seen, replies.len());
        seen = shared;
    }
    Ok(())
}

/// Has a desk let others go on if many bytes of replies were gathered since it last did. Answers how many there were.
fn let_others_in<D: Desk>(desk: &mut D, seen: usize, gathered: usize) -> usize
    ensures shows { D.shows desk.new ≡ D.shows desk.old }
    ensures same { D.borrows desk.new ≡ D.borrows desk.old }
{
    if gathered.saturating_sub(seen) < SHARE {
        return seen.min(gathered);
    }
    desk.pause();
    gathered
}

/// Takes the next piece of a connection's bytes, and tells whether they went wrong: whether they are not requests.
pub fn feed(alloc: Global, requests: &mut Reader, piece: &[u8]) -> Result<bool, AllocError>
    ensures ok { IfOk result (λ broken. broken ≡ requests.new.failed) }
    ensures advances { OnOk result (Advances requests.old requests.new piece.now) }
    ensures err { OnErr result (requests.new ≡ record requests.old { looked = requests.new.looked }) }
{
    match requests.feed(alloc, piece) {
        Ok(()) => Ok(false),
        Err(ReadFault::Protocol) => Ok(true),
        Err(ReadFault::Memory) => Err(AllocError),
    }
}
