// Scripts that workers run, each in a thread of its own.
ghost use Rattle.std.specs.Prelude.{true};

use super::{LOOKS, TWO, call};
use crate::tests::session::{said_at, spelled};
use sr_args::Call;
use sr_book::{Book, Out, Status};
use sr_policy::Policy;
use sr_resp::append_reply;
use sr_run::{Ran, Receipt, RunFault, SeatFault, run_workers};
use sr_session::{Clock, Gate, NoGate};
use std::alloc::{AllocError, Global};
use std::hash::RandomState;
use std::process::Abort;
use std::random::RandomSource;
use std::sync::Wait;
use std::sync::atomic::{AtomicBool, AtomicU64, Ordering};
use std::test::Fail;
use std::thread;
use std::thread::Threads;

/// Tells one second past 1970, and one more whenever it is asked.
#[derive(Drop)]
struct Seconds {
    told: AtomicU64,
}

impl Clock for Seconds {
    ghost may_tell = { λ _ _. true };

    fn now(&self) -> u64 {
        self.told
            .fetch_add(1000, Ordering::SeqCst)
            .wrapping_add(1000)
    }
}

/// Counts the calls that workers come to, and adds up their sessions.
#[derive(Drop)]
struct Calls {
    count: AtomicU64,
    sum: AtomicU64,
    /// Whether the session that comes first is held until another has come twice.
    holds: bool,
    gave_up: AtomicBool,
}

impl Calls {
    fn new(holds: bool) -> Calls {
        Calls {
            count: AtomicU64::new(0),
            sum: AtomicU64::new(0),
            holds,
            gave_up: AtomicBool::new(false),
        }
    }

    /// Waits until two more calls were come to.
    fn hold(&self) {
        for _ in 0..LOOKS {
            if self.count.load(Ordering::SeqCst) >= 3 {
                return;
            }
            thread::yield_now();
        }
        self.gave_up.store(true, Ordering::SeqCst);
    }

    /// Whether nobody was held in vain, and the calls were come to that have these receipts, each by the session that
    /// made it.
    fn are_those_of(&self, receipts: &[Vec<Receipt>]) -> bool {
        let (mut count, mut sum) = (0u64, 0u64);
        for receipts in receipts {
            for receipt in receipts {
                count = count.wrapping_add(1);
                sum = sum.wrapping_add(receipt.session);
            }
        }
        !self.gave_up.load(Ordering::SeqCst)
            && self.count.load(Ordering::SeqCst) == count
            && self.sum.load(Ordering::SeqCst) == sum
    }
}

impl Gate for Calls {
    fn before_call(&self, session: u64) {
        self.sum.fetch_add(session, Ordering::SeqCst);
        let is_first = self.count.fetch_add(1, Ordering::SeqCst) == 0;
        if is_first && self.holds {
            self.hold();
        }
    }

    fn between(&self, _: u64) {}
}

/// The calls that lines are.
fn script(alloc: Global, lines: &[&str]) -> Result<Vec<Call>, Fail> {
    let mut calls = Vec::new(alloc);
    for line in lines {
        calls.push(call(alloc, line)?)?;
    }
    Ok(calls)
}

/// The replies of receipts, one after the other.
fn replies_of(alloc: Global, receipts: &[Receipt]) -> Result<Vec<u8>, AllocError> {
    let mut text = Vec::new(alloc);
    for receipt in receipts {
        if let Out::Reply(reply) = &receipt.out {
            append_reply(&mut text, reply)?;
        }
    }
    Ok(text)
}

/// Whether memory was refused. A thread takes some to be started.
fn is_memory(fault: RunFault) -> bool {
    match fault {
        RunFault::Memory | RunFault::Thread => true,
        RunFault::Worker { at: _, fault } => fault == SeatFault::Memory,
        RunFault::Count | RunFault::Close(_) | RunFault::Skipped(_) => false,
    }
}

/// Runs scripts past a gate, each event a second later. It fails for memory if that was refused.
fn run_past<G: Gate + Sync, R: AllocGlobal + RandomSource + Threads + Wait + Sync>(
    rt: &R,
    scripts: Vec<Vec<Call>>,
    gate: &G,
) -> Result<Result<Ran, RunFault>, Fail> {
    let alloc = rt.alloc();
    let hasher = RandomState::new(rt)?;
    let policy = Policy::read(alloc, TWO)?;
    let clock = Seconds {
        told: AtomicU64::new(0),
    };
    match run_workers(rt, alloc, scripts, policy, &clock, gate, hasher) {
        Err(fault) if is_memory(fault) => Err(Fail::from(AllocError)),
        ran => Ok(ran),
    }
}

/// The scripts whose lines these are.
fn scripts(alloc: Global, lists: &[&[&str]]) -> Result<Vec<Vec<Call>>, Fail> {
    let mut scripts = Vec::with_capacity(alloc, lists.len())?;
    for lines in lists {
        scripts.push(script(alloc, lines)?)?;
    }
    Ok(scripts)
}

/// One worker adds to a stream, and another acknowledges in vain.
const SCRIPTS: &[&[&str]] = &[
    &["XADD s 1-1 a b", "XLEN s", "XADD s 2-1 a b", "XLEN s"],
    &["XACK s g 1-1", "XACK s g 1-1"],
];

/// The replies to each script.
const SAID: &[&str] = &["$3\r\n1-1\r\n:1\r\n$3\r\n2-1\r\n:2\r\n", ":0\r\n:0\r\n"];

/// Whether the sessions of these receipts have left.
fn have_left(book: &Book, receipts: &[Receipt]) -> bool {
    for receipt in receipts {
        if book.status(receipt.session) != Status::Closed {
            return false;
        }
    }
    true
}

/// Whether each script has its replies, and its worker has left.
fn have_replies(alloc: Global, ran: &Ran) -> Result<bool, AllocError> {
    let mut have = ran.closed.acts == 10 && ran.closed.skipped == 0 && ran.receipts.len() == 2;
    for (receipts, want) in ran.receipts.iter().zip(SAID) {
        let replies = replies_of(alloc, receipts.as_slice())?;
        have &= replies.as_slice() == want.as_bytes();
        have &= have_left(&ran.closed.book, receipts.as_slice());
    }
    Ok(have)
}

#[test]
fn two_scripts_have_their_replies(rt: HostRuntime) -> Result<(), Fail> {
    let scripts = scripts(rt.alloc(), SCRIPTS)?;
    let have = match run_past(&rt, scripts, &NoGate)? {
        Ok(ran) => have_replies(rt.alloc(), &ran)?,
        Err(_fault) => false,
    };
    assert!(rt; have);
    Ok(())
}

/// Three calls for each of two workers.
const PINGS: &[&[&str]] = &[&["PING", "PING", "PING"], &["PING", "PING", "PING"]];

/// The first worker that comes to a call is held until the other has come to two: if workers went one by one, or came
/// to a call under the lock, it would be held in vain. Each is told to be the session as which it joined.
#[test]
fn no_workers_one_by_one(rt: HostRuntime) -> Result<(), Fail> {
    let scripts = scripts(rt.alloc(), PINGS)?;
    let calls = Calls::new(true);
    let beside = match run_past(&rt, scripts, &calls)? {
        Ok(ran) => calls.are_those_of(ran.receipts.as_slice()),
        Err(_fault) => false,
    };
    assert!(rt; beside);
    Ok(())
}

/// Adds to a stream of its own, of this number, and asks for its length.
fn own_script(alloc: Global, number: usize) -> Result<Vec<Call>, Fail> {
    let mut add = String::new(alloc);
    write!(add, "XADD w{number} 1-1 a b")?;
    let mut count = String::new(alloc);
    write!(count, "XLEN w{number}")?;
    script(alloc, &[add.as_str(), count.as_str()])
}

/// So many scripts, each with a stream of its own.
fn own_scripts(alloc: Global, count: usize) -> Result<Vec<Vec<Call>>, Fail> {
    let mut scripts = Vec::with_capacity(alloc, count)?;
    for number in 0..count {
        scripts.push(own_script(alloc, number)?)?;
    }
    Ok(scripts)
}

/// The replies to each.
const OWN: &str = "$3\r\n1-1\r\n:1\r\n";

/// Whether 64 scripts with streams of their own have their replies.
fn have_own_replies(alloc: Global, ran: &Ran) -> Result<bool, AllocError> {
    let mut have = ran.closed.acts == 256 && ran.receipts.len() == 64;
    for receipts in &ran.receipts {
        let replies = replies_of(alloc, receipts.as_slice())?;
        have &= replies.as_slice() == OWN.as_bytes();
    }
    Ok(have)
}

/// Whether so many scripts are run, or why not.
fn runs<R: AllocGlobal + RandomSource + Threads + Wait + Sync>(
    rt: &R,
    count: usize,
) -> Result<Result<bool, RunFault>, Fail> {
    match run_past(rt, own_scripts(rt.alloc(), count)?, &NoGate)? {
        Ok(ran) => Ok(Ok(have_own_replies(rt.alloc(), &ran)?)),
        Err(fault) => Ok(Err(fault)),
    }
}

/// How many scripts there are, and what comes of them.
const COUNTS: &[(usize, Result<bool, RunFault>)] = &[
    (0, Err(RunFault::Count)),
    (64, Ok(true)),
    (65, Err(RunFault::Count)),
];

#[test]
fn from_1_to_64_scripts_are_run(rt: HostRuntime) -> Result<(), Fail> {
    for (count, want) in COUNTS {
        assert!(rt; runs(&rt, *count)? == *want, "{count}");
    }
    Ok(())
}

/// An entry is added at the moment of its call, and is pending for D.
const STRANDED: &[&[&str]] = &[&[
    "XGROUP CREATE s g $ MKSTREAM",
    "XADD s * c x",
    "XREADGROUP GROUP g D STREAMS s >",
]];

/// How the plan for it begins.
const PLAN: &str = "*5\r\n$4\r\nplan\r\n:2\r\n*1\r\n*2\r\n$6\r\n3000-0\r\n$1\r\nA\r\n";

/// Whether each record of a book has the moment that the clock told for it.
fn are_of_clock(book: &Book) -> bool {
    for record in book.records() {
        if record.moment != record.index.wrapping_mul(1000) {
            return false;
        }
    }
    true
}

/// Whether the book of a run has the moments of its clock, and plans by its policy.
fn is_under_policy(alloc: Global, ran: Ran) -> Result<bool, Fail> {
    let mut ran = ran;
    let told = are_of_clock(&ran.closed.book);
    let asked = spelled(alloc, "RECOVER.PLAN s g DEAD D")?;
    let said = said_at(alloc, &mut ran.closed.book, asked.as_slice())?;
    Ok(told && said.starts_with(PLAN.as_bytes()))
}

#[test]
fn workers_have_the_moments_of_the_clock_and_the_policy(rt: HostRuntime) -> Result<(), Fail> {
    let scripts = scripts(rt.alloc(), STRANDED)?;
    let is_right = match run_past(&rt, scripts, &NoGate)? {
        Ok(ran) => is_under_policy(rt.alloc(), ran)?,
        Err(_fault) => false,
    };
    assert!(rt; is_right);
    Ok(())
}

/// How many calls workers came to, and what stopped one of them.
fn stopped<R: AllocGlobal + RandomSource + Threads + Wait + Sync>(
    rt: &R,
    scripts: Vec<Vec<Call>>,
) -> Result<(u64, RunFault), Fail> {
    let calls = Calls::new(false);
    match run_past(rt, scripts, &calls)? {
        Ok(_ran) => Err(Fail::new("no worker was stopped")),
        Err(fault) => Ok((calls.count.load(Ordering::SeqCst), fault)),
    }
}

/// A script that is stopped at its second call, and one that is not.
const WAITS: &[&str] = &["XREAD BLOCK 0 STREAMS t $", "PING", "PING"];

const ADDS: &[&str] = &[
    "XADD s 1-1 a b",
    "XLEN s",
    "XADD s 2-1 a b",
    "XLEN s",
    "PING",
];

/// Which worker is stopped, how many calls workers come to, and their scripts.
const STOPPED: &[(usize, u64, &[&[&str]])] = &[
    (0, 2, &[WAITS]),
    (1, 7, &[ADDS, WAITS]),
    (1, 3, &[&["PING"], WAITS]),
    (0, 4, &[WAITS, WAITS]),
    (0, 3, &[WAITS, &["PING"]]),
];

/// A worker calls for a session that waits, and is stopped there, before its third call. The others make all their
/// calls, and the first that was stopped is told.
#[test]
fn a_worker_is_stopped_by_a_refused_call_and_the_other_goes_on(
    rt: HostRuntime,
) -> Result<(), Fail> {
    for (at, count, lines) in STOPPED {
        let found = stopped(&rt, scripts(rt.alloc(), lines)?)?;
        let fault = RunFault::Worker {
            at: *at,
            fault: SeatFault::Busy,
        };
        assert!(rt; found == (*count, fault), "{at}");
    }
    Ok(())
}
