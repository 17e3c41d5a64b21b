ghost use Rattle.std.specs.Prelude.{◌≡◌, ◌⊎◌, ◌↔◌, ◌+◌, ◌<◌, ◌≤◌, [], length, true, IfOk, IfErr, OnErr, vec_len};

use crate::clock::SystemClock;
use crate::counting::{CountedSink, CountedSource};
use crossbeam_channel::{Receiver, SendError, Sender, bounded};
use sr_book::{Book, Record};
use sr_events::is_listeners_own;
use sr_resp::WriteTo;
use sr_run::{HoldFault, Seat, SeatDesk, Shared, open};
use sr_session::{Clock, Ended, NoGate, ReadFrom, run_session};
use std::alloc::{AllocError, Global};
use std::io::ErrorKind;
use std::marker::Brand;
use std::net::{Shutdown, TcpListener, TcpStream};
use std::sync::ledger::{Blank, Ledger};
use std::sync::{Arc, Mutex, Wait};
use std::thread::Threads;
use std::time::Duration;
use std::{rt, thread};

/// The number of reads after which a session ends.
pub(crate) const TURNS: u64 = 1 << 40;

/// How long the timer sleeps between two looks at the deadlines, in milliseconds.
const TICK: u64 = 10;

/// How many records that are kept no longer are let go between two looks at the deadlines. That takes some
/// milliseconds, so that no deadline is late by more than a tick.
const PART: usize = 20_000;

/// How many accepted connections are kept for a free worker, beside the one with which the accepting thread waits.
/// Further ones wait at the listener and take nothing of this process, so no number of them can use up its descriptors.
const QUEUE: usize = 1;

/// Whether a read may wait: what other connections add may answer it.
const BLOCKING: bool = true;

/// How long the accepting thread sleeps after a failed accept that is the moment's, in milliseconds.
const RETRY: u64 = 10;

/// The connections that are served now, so that all of them can be shut down.
#[derive(Drop)]
struct Served {
    /// No further one is served.
    closing: bool,
    /// That of each worker, if it serves one.
    open: Vec<Option<Arc<TcpStream, Global>>>,
}

/// What the threads of a server share beside its book.
#[derive(Drop)]
struct Common<'a, R> {
    clock: SystemClock<'a, R>,
    served: Mutex<Served>,
}

/// What is asked of a server beside its listener and its book.
#[derive(Clone, Copy)]
pub struct Serving {
    /// How many connections are served at a time, from 1 to 64.
    pub workers: usize,
    /// After how many connections it stops to accept.
    pub accepts: u64,
    /// How many records are kept: if there are more, a checkpoint is made. None: all of them.
    pub keep: Option<u64>,
    /// About how many bytes they take at most: if they take more, a checkpoint is made too.
    pub keep_bytes: u64,
}

/// What keeps the time of a server.
#[derive(Drop)]
struct Timer<L: Ledger> {
    /// A seat of its own.
    seat: Seat<L>,
    /// How many records are kept, if not all of them.
    keep: Option<u64>,
}

/// Why a server stopped before all its connections were accepted.
#[derive(Clone, Copy, Debug, PartialEq, Eq)]
pub enum ServeFault {
    /// A connection could not be accepted.
    Accept,
    /// A failed allocation, outside the sessions.
    Memory,
    /// A thread could not be started.
    Thread,
}

/// Serves the connections of a listener until this many were accepted, and answers their number once all of them have
/// ended.
///
/// Each of the `workers` threads, 1 to 64, serves one connection at a time, and further ones wait for a free worker. A
/// timer thread answers the reads whose deadline is reached, and makes a checkpoint if more than `keep` records are
/// kept, whatever bytes they take. A session that ends closes its own connection alone. A failed accept is tried
/// again, unless it is the listener's own fault: then no connection is accepted any more, and those that are served
/// are shut down.
pub fn serve<R: Threads + Wait + rt::Clock + Sync>(
    rt: &R,
    alloc: Global,
    listener: &TcpListener,
    book: Book,
    workers: usize,
    accepts: u64,
    keep: Option<u64>,
) -> Result<u64, ServeFault>
    requires workers { (1 ≤ workers) × (workers ≤ 64) }
    ensures ok { IfOk result (λ count. count ≡ accepts) }
{
    let serving = Serving {
        workers,
        accepts,
        keep,
        keep_bytes: u64::MAX,
    };
    serve_begun(rt, alloc, listener, book, serving, None)
}

/// The same, and says when the threads stand, right before the first connection is accepted. If records are let go of
/// at all, a worker whose request makes them take more than `keep_bytes` makes a checkpoint too.
pub fn serve_begun<R: Threads + Wait + rt::Clock + Sync>(
    rt: &R,
    alloc: Global,
    listener: &TcpListener,
    book: Book,
    serving: Serving,
    stands: Option<Sender<()>>,
) -> Result<u64, ServeFault>
    requires workers { (1 ≤ serving.workers) × (serving.workers ≤ 64) }
    ensures ok { IfOk result (λ count. count ≡ serving.accepts) }
{
    let blank = Blank::new(serving.workers as u64 + 1);
    let accepting = Accepting {
        listener,
        accepts: serving.accepts,
        stands,
    };
    serve_seats::<Brand, R>(rt, alloc, accepting, book, serving, blank)
}

/// What the first thread does: it says that the threads stand, and accepts this many connections.
#[derive(Drop)]
struct Accepting<'a> {
    listener: &'a TcpListener,
    accepts: u64,
    stands: Option<Sender<()>>,
}

/// Holds the book for the workers and the timer, and serves.
fn serve_seats<L: Ledger + Send + Sync, R: Threads + Wait + rt::Clock + Sync>(
    rt: &R,
    alloc: Global,
    accepting: Accepting<'_>,
    book: Book,
    serving: Serving,
    blank: Blank,
) -> Result<u64, ServeFault>
    requires workers { (1 ≤ serving.workers) × (serving.workers ≤ 64) }
    requires name { blank.name ≡ L.name }
    requires whole { blank.parts ≡ L.parts }
    requires parts { blank.parts ≡ serving.workers + 1 }
    ensures ok { IfOk result (λ count. count ≡ accepting.entry.accepts) }
{
    let (shared, mut seats) = match open::<L>(alloc, book, serving.workers + 1, blank) {
        Ok(opened) => opened,
        Err(HoldFault::Memory) => return Err(ServeFault::Memory),
        Err(HoldFault::Count) => unreachable!(),
    };
    let Some(seat) = seats.pop() else {
        unreachable!()
    };
    let timer = Timer {
        seat,
        keep: serving.keep,
    };
    let shared = kept_within(shared, serving);
    serve_timed(rt, alloc, accepting, &shared, seats, timer)
}

/// The book, of whose records no more is kept than is asked for.
fn kept_within<L: Ledger>(shared: Shared<L>, serving: Serving) -> Shared<L> {
    if serving.keep.is_some() {
        shared.within(serving.keep_bytes)
    } else {
        shared
    }
}

/// Serves with a worker at each of the seats, and a timer at one more, which is told to stop whatever the outcome.
fn serve_timed<L: Ledger + Send + Sync, R: Threads + Wait + rt::Clock + Sync>(
    rt: &R,
    alloc: Global,
    accepting: Accepting<'_>,
    shared: &Shared<L>,
    seats: Vec<Seat<L>>,
    timer: Timer<L>,
) -> Result<u64, ServeFault>
    requires some { 0 < vec_len seats }
    ensures ok { IfOk result (λ count. count ≡ accepting.entry.accepts) }
{
    let Ok(served) = nobody_served(alloc, seats.len()) else {
        return Err(ServeFault::Memory);
    };
    let had = Common {
        clock: SystemClock::new(rt),
        served,
    };
    let common = &had;
    let stop = Mutex::new(false);
    let stopped = &stop;
    thread::scope(
        thread::scope_env(),
        rt,
        move |scope| -> Result<u64, ServeFault>
            requires { 0 < vec_len seats }
            ensures { IfOk result (λ count. count ≡ accepting.entry.accepts) }
        {
            if scope
                .spawn(move || keep_time(rt, alloc, shared, timer, &common.clock, stopped))
                .is_err()
            {
                return Err(ServeFault::Thread);
            }
            let served = serve_all(rt, alloc, accepting, shared, common, seats);
            *stopped.lock(rt) = true;
            served
        },
    )
}

/// Starts a worker at each of the seats, and hands the connections to them as they come. If no further one can come,
/// those that are served are shut down.
fn serve_all<L: Ledger + Send + Sync, R: Threads + Wait + rt::Clock + Sync>(
    rt: &R,
    alloc: Global,
    accepting: Accepting<'_>,
    shared: &Shared<L>,
    common: &Common<'_, R>,
    seats: Vec<Seat<L>>,
) -> Result<u64, ServeFault>
    requires some { 0 < vec_len seats }
    ensures ok { IfOk result (λ count. count ≡ accepting.entry.accepts) }
{
    let Ok((sender, receiver)) = bounded(alloc, QUEUE) else {
        return Err(ServeFault::Memory);
    };
    let accepted = &receiver;
    thread::scope(
        thread::scope_env(),
        rt,
        move |scope| -> Result<u64, ServeFault>
            ensures { IfOk result (λ count. count ≡ accepting.entry.accepts) }
        {
            for seat in seats {
                let Ok(connections) = accepted.clone() else {
                    return Err(ServeFault::Memory);
                };
                if scope
                    .spawn(move || work(rt, alloc, shared, common, seat, connections))
                    .is_err()
                {
                    return Err(ServeFault::Thread);
                }
            }
            let count = begin_accepting(rt, accepting, sender);
            if count.is_err() {
                shut_down(rt, &common.served);
            }
            count
        },
    )
}

/// A table for the connections of this many workers, who serve none.
fn nobody_served(alloc: Global, workers: usize) -> Result<Mutex<Served>, AllocError> {
    let mut open = Vec::with_capacity(alloc, workers)?;
    for _ in 0..workers {
        open.push(None)?;
    }
    Ok(Mutex::new(Served {
        closing: false,
        open,
    }))
}

/// Says that the threads stand, accepts that many connections, hands each of them over, and answers their number.
fn begin_accepting<R: Wait + rt::Clock>(
    rt: &R,
    accepting: Accepting<'_>,
    connections: Sender<TcpStream>,
) -> Result<u64, ServeFault>
    ensures ok { IfOk result (λ count. count ≡ accepting.entry.accepts) }
{
    let Accepting {
        listener,
        accepts,
        stands,
    } = accepting;
    if let Some(stands) = stands {
        // Whoever waited for it is gone, if it cannot be said.
        let _ = stands.send(rt, ());
    }
    accept_all(rt, listener, connections, accepts)
}

/// Accepts this many connections, hands each of them over, and answers their number.
fn accept_all<R: Wait + rt::Clock>(
    rt: &R,
    listener: &TcpListener,
    connections: Sender<TcpStream>,
    accepts: u64,
) -> Result<u64, ServeFault>
    ensures ok { IfOk result (λ count. count ≡ accepts) }
{
    let mut count = 0;
    while count < accepts {
        let connection = accept(rt, listener)?;
        hand_over(rt, &connections, connection)?;
        count += 1;
    }
    Ok(count)
}

/// The next connection, whose replies leave as soon as they are written.
///
/// A client that went away before it was accepted is passed over. Where the process or the system is short of something
/// it is tried again a little later.
fn accept<R: Wait + rt::Clock>(rt: &R, listener: &TcpListener) -> Result<TcpStream, ServeFault>
    ensures err { IfErr result (λ fault. fault ≡ ServeFault.Accept) }
{
    for _ in rt.forever() {
        match listener.accept() {
            Ok((connection, _)) => {
                // Without it replies may come late, and nothing else changes.
                let _ = connection.set_nodelay(true);
                return Ok(connection);
            }
            Err(error) if error.kind() == ErrorKind::ConnectionAborted => {}
            Err(error) if is_listeners_own(&error) => return Err(ServeFault::Accept),
            Err(_) => thread::sleep(rt, Duration::from_millis(RETRY)),
        }
    }
    unreachable!()
}

/// Shuts down the connections that are served, and has no further one served. Their sessions end.
fn shut_down<R: Wait>(rt: &R, served: &Mutex<Served>) {
    let mut served = served.lock(rt);
    served.closing = true;
    for connection in &served.open {
        if let Some(connection) = connection {
            let _ = connection.shutdown(Shutdown::Both);
        }
    }
}

/// Gives a connection to the first worker that is free.
fn hand_over<R: Wait>(
    rt: &R,
    connections: &Sender<TcpStream>,
    connection: TcpStream,
) -> Result<(), ServeFault> {
    match connections.send(rt, connection) {
        Ok(()) => Ok(()),
        Err(SendError::OutOfMemory(_)) => Err(ServeFault::Memory),
        Err(SendError::Disconnected(_)) => Err(ServeFault::Thread),
    }
}

/// Serves one connection after another at a seat, until no more will come.
fn work<L: Ledger, R: Wait + rt::Clock>(
    rt: &R,
    alloc: Global,
    shared: &Shared<L>,
    common: &Common<'_, R>,
    mut seat: Seat<L>,
    connections: Receiver<TcpStream>,
) {
    for connection in connections.iter(rt) {
        // A connection for which no memory is left is closed.
        let Ok(connection) = Arc::new(alloc, connection) else {
            continue;
        };
        if takes(rt, &common.served, seat.number(), &connection) {
            serve_connection(rt, alloc, shared, &common.clock, &mut seat, &connection);
            lets_go(rt, &common.served, seat.number());
        }
    }
}

/// Notes the connection that a worker serves from now on. Answers no if none is to be served any more.
fn takes<R: Wait>(
    rt: &R,
    served: &Mutex<Served>,
    number: u64,
    connection: &Arc<TcpStream, Global>,
) -> bool {
    let Ok(noted) = Arc::try_clone(connection) else {
        return false;
    };
    let mut served = served.lock(rt);
    if served.closing {
        return false;
    }
    if let Some(place) = served.open.get_mut(number as usize) {
        *place = Some(noted);
    }
    true
}

/// Notes that a worker serves no connection.
fn lets_go<R: Wait>(rt: &R, served: &Mutex<Served>, number: u64) {
    if let Some(place) = served.lock(rt).open.get_mut(number as usize) {
        *place = None;
    }
}

/// Serves one connection to its end. Whatever ends it, the others go on.
fn serve_connection<L: Ledger, R: Wait + rt::Clock>(
    rt: &R,
    alloc: Global,
    shared: &Shared<L>,
    clock: &SystemClock<'_, R>,
    seat: &mut Seat<L>,
    connection: &TcpStream,
) -> Ended {
    let mut reader = CountedSource::new(shared, ReadFrom::new(connection));
    let mut writer = CountedSink::new(shared, WriteTo::new(connection));
    let mut desk = SeatDesk::beside(rt, shared, seat, connection);
    run_session(
        alloc,
        &mut reader,
        &mut writer,
        &mut desk,
        clock,
        &NoGate,
        BLOCKING,
        TURNS,
    )
}

/// At each tick, answers the reads whose deadline is reached and makes a checkpoint if there are more records than are
/// kept, until it is told to stop.
fn keep_time<L: Ledger, R: Wait + rt::Clock>(
    rt: &R,
    alloc: Global,
    shared: &Shared<L>,
    timer: Timer<L>,
    clock: &SystemClock<'_, R>,
    stop: &Mutex<bool>,
) {
    let Timer { mut seat, keep } = timer;
    let mut dropped = Vec::new(alloc);
    for _ in rt.forever() {
        if *stop.lock(rt) {
            return;
        }
        // One that is refused is made up for by the next.
        let _ = shared.tick(rt, alloc, &mut seat, clock.now());
        // While some are left it does not sleep: so they are gone before as many are made again.
        if let Some(keep) = keep
            && forget(rt, shared, &mut seat, keep, &mut dropped)
        {
            continue;
        }
        thread::sleep(rt, Duration::from_millis(TICK));
    }
}

/// Lets go of a part of the records that are kept no longer, and answers whether some of them are left. If not, makes a
/// checkpoint if more than `keep` records are kept: then `dropped` has these, and the next ones come into the storage
/// that it had.
fn forget<L: Ledger, R: Wait>(
    rt: &R,
    shared: &Shared<L>,
    seat: &mut Seat<L>,
    keep: u64,
    dropped: &mut Vec<Record>,
) -> bool
    ensures left { (result ≡ true) ↔ (20000 < length dropped.old.items) }
    ensures part { 20000 < length dropped.old.items → length dropped.new.items + 20000 ≡ length dropped.old.items }
    ensures again { length dropped.old.items ≤ 20000 → (dropped.new.items ≡ []) ⊎ (keep < length dropped.new.items) }
{
    dropped.truncate(dropped.len().saturating_sub(PART));
    if !dropped.is_empty() {
        return true;
    }
    // One that is refused is made up for at the next tick.
    let _ = shared.compact_into(rt, seat, keep, dropped);
    false
}
