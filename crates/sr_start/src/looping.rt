//! Serving the connections of a listener by one loop, while a thread beside it makes the plans that take long.
ghost use Rattle.std.specs.Prelude.{◌≡◌, ◌≤◌, ◌*◌, option_map, unwrap_or};

use crate::clock::SystemClock;
use crate::planning::{ThreadPlanner, make_plans, planner};
use crate::serving::ServeFault;
use crossbeam_channel::Sender;
use mio::net::TcpListener;
use mio::{Poll, Waker};
use sr_book::Book;
use sr_events::EventSockets;
use sr_hub::{Habits, Hub, serve_sockets};
use sr_options::Looping;
use std::alloc::Global;
use std::io::{Error, ErrorKind};
use std::sync::Wait;
use std::thread::Threads;
use std::{rt, thread};

/// How many milliseconds a second has.
const MILLISECONDS: u64 = 1_000;

/// What the system has for a loop.
#[derive(Drop)]
pub struct Polled {
    /// Tells what comes.
    pub poll: Poll,
    /// Wakes the poll. It is there under `WAKER` of `sr_events`.
    pub waker: Waker,
    /// Accepts connections.
    pub listener: TcpListener,
}

/// What is asked of a loop beside its listener and its book.
#[derive(Drop)]
pub struct LoopServing {
    /// What it serves.
    pub looping: Looping,
    /// How many records are kept: if there are more, a checkpoint is made. None: all of them.
    pub keep: Option<u64>,
    /// Is told when the threads stand, right before the first connection is accepted.
    pub stands: Sender<()>,
}

/// Serves the connections of a listener by one loop over this book, until no further one can be accepted, and answers
/// why that ended.
///
/// A second thread makes the plans that take long.
pub fn serve_loop<R: Threads + Wait + rt::Clock + Sync>(
    rt: &R,
    alloc: Global,
    polled: Polled,
    book: Book,
    serving: LoopServing,
) -> ServeFault {
    let Polled {
        poll,
        waker,
        listener,
    } = polled;
    let Ok((planner, plans)) = planner(rt, alloc, waker) else {
        return ServeFault::Memory;
    };
    let most = serving.looping.connections;
    thread::scope(thread::scope_env(), rt, move |scope| -> ServeFault {
        if scope.spawn(move || make_plans(rt, alloc, plans)).is_err() {
            return ServeFault::Thread;
        }
        match EventSockets::new(alloc, poll, listener, most, planner) {
            Ok(sockets) => run_loop(rt, alloc, sockets, book, serving),
            Err(error) => fault_of(&error),
        }
    })
}

/// Says that the threads stand, and serves the connections of these sockets until no further one can be accepted.
fn run_loop<R: Wait + rt::Clock>(
    rt: &R,
    alloc: Global,
    mut sockets: EventSockets<ThreadPlanner<'_, R>>,
    book: Book,
    serving: LoopServing,
) -> ServeFault {
    let LoopServing {
        looping,
        keep,
        stands,
    } = serving;
    let mut hub = Hub::new(alloc, book);
    let clock = SystemClock::new(rt);
    // Whoever waited for it is gone, if it cannot be said.
    let _ = stands.send(rt, ());
    let habits = habits_of(looping, keep);
    serve_sockets(alloc, &mut hub, &mut sockets, &clock, habits);
    ServeFault::Accept
}

/// Within which bounds a loop keeps what it serves.
fn habits_of(looping: Looping, keep: Option<u64>) -> Habits
    ensures connections { result.connections ≡ looping.connections }
    ensures keep { result.keep ≡ keep }
    ensures keep_bytes { result.keep_bytes ≡ looping.keep_bytes }
    ensures idle { result.idle ≡ option_map (λ seconds. seconds * 1000) looping.idle }
    ensures idle_waiting { result.idle_waiting ≡ option_map (λ seconds. seconds * 1000) looping.idle_waiting }
    ensures unfinished { result.unfinished ≡ looping.unfinished }
{
    Habits {
        connections: looping.connections,
        keep,
        keep_bytes: looping.keep_bytes,
        idle: milliseconds_of(looping.idle),
        idle_waiting: milliseconds_of(looping.idle_waiting),
        unfinished: looping.unfinished,
        turns: u64::MAX,
    }
}

/// How many milliseconds these seconds are.
fn milliseconds_of(seconds: Option<u64>) -> Option<u64>
    requires { unwrap_or seconds 0 ≤ 86400 }
    ensures { result ≡ option_map (λ seconds. seconds * 1000) seconds }
{
    match seconds {
        Some(seconds) => Some(seconds * MILLISECONDS),
        None => None,
    }
}

/// Why a loop could not begin.
fn fault_of(error: &Error) -> ServeFault {
    match error.kind() {
        ErrorKind::OutOfMemory => ServeFault::Memory,
        _ => ServeFault::Accept,
    }
}
