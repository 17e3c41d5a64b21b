//! The system's network: TCP, at an IP address and a port. Any reason why an address cannot be bound is one fault; a
//! failed allocation is another. No socket is standard input, output or error: that they are taken is part of binding.
ghost use Rattle.std.specs.Prelude.{◌≡◌, ◌≤◌, IfOk, IfErr, IsTrue};
ghost use Rattle.sr_options.specs.{threads_of};
ghost use Rattle.sr_options.specs.declared.way.Way.{Way};
ghost use Rattle.sr_start.specs.Listening.{any_end, any_files, any_refusal};

use crate::limits::{LIMITS, most_files};
use crate::standard::take_standard;
use crossbeam_channel::{Receiver, Sender, bounded};
use mio::{Poll, Waker, net};
use sr_book::Book;
use sr_events::WAKER;
use sr_options::{Looping, Way};
use sr_start::{
    Begun, Bound, ListenFault, LoopServing, Network, Polled, ServeFault, Serving, serve_begun,
    serve_loop,
};
use std::alloc::Global;
use std::io::{Error, ErrorKind};
use std::net::{Net, SocketAddr, TcpListener};
use std::snapshot::Snapshot;
use std::sync::Wait;
use std::thread::{JoinHandle, Threads};
use std::{fs, rt, thread};

/// What listens, for the way in which its connections are served.
#[derive(Drop)]
pub(crate) enum SystemListener {
    /// For workers: accepting waits for a connection.
    Waits(TcpListener),
    /// For a loop: it is polled.
    Polls(net::TcpListener),
}

/// Begins to serve the connections of a listener, over this book, in this way and with so many records kept, in a
/// thread of its own.
///
/// A pointer, since a method of a trait cannot hand its runtime to threads: `main` makes it, and has that runtime
/// itself.
pub(crate) type Beginning = fn(
    &HostRuntime,
    SystemListener,
    Book,
    Way,
    Option<u64>,
) -> Result<JoinHandle<ServeFault>, ServeFault>;

/// Waits until serving has ended, and answers why. A pointer for the same reason.
pub(crate) type Ending = fn(&HostRuntime, JoinHandle<ServeFault>) -> ServeFault;

/// A beginning that may be called with 1 to 64 threads.
#[derive(Drop)]
pub(crate) struct Beginner {
    by: Beginning,
    ghost begins: { (rt : _) (listener : _) (book : _) (way : Way) (keep : _)
        → (1 ≤ threads_of way) × (threads_of way ≤ 64) → pre by rt listener book way keep },
}

impl Beginner {
    /// One that begins so.
    pub(crate) fn new(by: Beginning) -> Beginner
        requires { (rt : _) (listener : _) (book : _) (way : Way) (keep : _)
            → (1 ≤ threads_of way) × (threads_of way ≤ 64) → pre by rt listener book way keep }
    {
        Beginner { by }
    }

    /// Begins.
    fn begin(
        &self,
        rt: &HostRuntime,
        listener: SystemListener,
        book: Book,
        way: Way,
        keep: Option<u64>,
    ) -> Result<JoinHandle<ServeFault>, ServeFault>
        requires { (1 ≤ threads_of way) × (threads_of way ≤ 64) }
    {
        (self.by)(rt, listener, book, way, keep)
    }
}

/// An ending that may be called.
#[derive(Drop)]
pub(crate) struct Ender {
    by: Ending,
    ghost ends: { (rt : _) (server : _) → pre by rt server },
}

impl Ender {
    /// One that ends so.
    pub(crate) fn new(by: Ending) -> Ender
        requires { (rt : _) (server : _) → pre by rt server }
    {
        Ender { by }
    }

    /// Waits for the end.
    fn end(&self, rt: &HostRuntime, server: JoinHandle<ServeFault>) -> ServeFault {
        (self.by)(rt, server)
    }
}

/// The system's network, which may refuse any address and end in any way.
#[derive(Drop)]
pub(crate) struct SystemNetwork<'a> {
    rt: &'a HostRuntime,
    beginner: Beginner,
    ender: Ender,
}

impl<'a> SystemNetwork<'a> {
    /// The system's network, whose serving begins and ends so.
    pub(crate) fn new(rt: &'a HostRuntime, beginner: Beginner, ender: Ender) -> SystemNetwork<'a> {
        SystemNetwork {
            rt,
            beginner,
            ender,
        }
    }
}

impl<'a> Network for SystemNetwork<'a> {
    type Listener = SystemListener;

    type Server = JoinHandle<ServeFault>;

    ghost may_open = { any_files };

    ghost may_refuse = { any_refusal };

    ghost may_not_begin = { any_end };

    ghost may_end = { any_end };

    fn most_files(&self) -> Option<u64> {
        match fs::read_to_string(self.rt, LIMITS) {
            Ok(limits) => most_files(&limits),
            Err(_) => None,
        }
    }

    fn listen(
        &mut self,
        address: SocketAddr,
        way: Way,
    ) -> Result<Bound<SystemListener>, ListenFault> {
        match bind(self.rt, address, way) {
            Ok(listener) => Ok(Bound { listener, address }),
            Err(error) if error.kind() == ErrorKind::OutOfMemory => Err(ListenFault::Memory),
            Err(_) => Err(ListenFault::Bind),
        }
    }

    fn begin(
        &mut self,
        bound: Bound<SystemListener>,
        book: Book,
        way: Way,
        keep: Option<u64>,
    ) -> Result<Begun<JoinHandle<ServeFault>>, ServeFault>
        requires way { (1 ≤ threads_of way) × (threads_of way ≤ 64) }
        ensures address { IfOk result (λ begun. begun.address ≡ bound.address) }
        ensures way { IfOk result (λ begun. begun.way ≡ way) }
        ensures keep { IfOk result (λ begun. begun.keep ≡ keep) }
        ensures book { IfOk result (λ begun. begun.book.value ≡ book) }
        ensures err { IfErr result (λ fault. IsTrue (any_end bound.address way keep book fault)) }
    {
        let Bound { listener, address } = bound;
        let noted = Snapshot::of(&book);
        let server = self.beginner.begin(self.rt, listener, book, way, keep)?;
        Ok(Begun {
            server,
            address,
            way,
            keep,
            book: noted,
        })
    }

    fn end(&mut self, begun: Begun<JoinHandle<ServeFault>>) -> ServeFault
        ensures { IsTrue (any_end begun.address begun.way begun.keep begun.book.value result) }
    {
        let Begun {
            server,
            address: _,
            way: _,
            keep: _,
            book: _,
        } = begun;
        self.ender.end(self.rt, server)
    }
}

/// Listens at an address, for connections that will be served in this way. A loop's listener has the longest queue that
/// the system allows.
fn bind(rt: &HostRuntime, address: SocketAddr, way: Way) -> Result<SystemListener, Error> {
    take_standard(rt)?;
    match way {
        Way::Workers(_) => Ok(SystemListener::Waits(TcpListener::bind(rt, address)?)),
        Way::Loop(_) => Ok(SystemListener::Polls(net::TcpListener::bind(rt, address)?)),
    }
}

/// Begins to serve the connections of a listener in a thread of its own, and answers once all threads stand, or why
/// they do not.
pub(crate) fn begin_serving<
    R: Copy + Threads + Wait + Net + rt::Clock + Send + Sync + Drop + 'static,
>(
    rt: &R,
    alloc: Global,
    listener: SystemListener,
    book: Book,
    way: Way,
    keep: Option<u64>,
) -> Result<JoinHandle<ServeFault>, ServeFault>
    requires way { (1 ≤ threads_of way) × (threads_of way ≤ 64) }
{
    match (listener, way) {
        (SystemListener::Waits(listener), Way::Workers(working)) => {
            let serving = Serving {
                workers: working.workers,
                accepts: u64::MAX,
                keep,
                keep_bytes: working.keep_bytes,
            };
            begin_workers(rt, alloc, listener, book, serving)
        }
        (SystemListener::Polls(listener), Way::Loop(looping)) => {
            begin_loop(rt, alloc, listener, book, looping, keep)
        }
        // It listens for the other way.
        _ => Err(ServeFault::Accept),
    }
}

/// Begins to serve by workers.
fn begin_workers<R: Copy + Threads + Wait + rt::Clock + Send + Sync + Drop + 'static>(
    rt: &R,
    alloc: Global,
    listener: TcpListener,
    book: Book,
    serving: Serving,
) -> Result<JoinHandle<ServeFault>, ServeFault>
    requires workers { (1 ≤ serving.workers) × (serving.workers ≤ 64) }
{
    let Ok((stands, stood)) = bounded(alloc, 1) else {
        return Err(ServeFault::Memory);
    };
    let host = *rt;
    let Ok(server) = thread::spawn(
        rt,
        move || -> ServeFault
            requires { (1 ≤ serving.workers) × (serving.workers ≤ 64) }
        { serve_all_that_come(&host, alloc, &listener, book, serving, stands) },
    ) else {
        return Err(ServeFault::Thread);
    };
    once_it_stands(rt, server, stood)
}

/// Begins to serve by a loop.
fn begin_loop<R: Copy + Threads + Wait + Net + rt::Clock + Send + Sync + Drop + 'static>(
    rt: &R,
    alloc: Global,
    listener: net::TcpListener,
    book: Book,
    looping: Looping,
    keep: Option<u64>,
) -> Result<JoinHandle<ServeFault>, ServeFault> {
    let Ok((stands, stood)) = bounded(alloc, 1) else {
        return Err(ServeFault::Memory);
    };
    let polled = match polled(rt, listener) {
        Ok(polled) => polled,
        Err(error) if error.kind() == ErrorKind::OutOfMemory => return Err(ServeFault::Memory),
        Err(_) => return Err(ServeFault::Accept),
    };
    let serving = LoopServing {
        looping,
        keep,
        stands,
    };
    let host = *rt;
    let Ok(server) = thread::spawn(rt, move || serve_loop(&host, alloc, polled, book, serving))
    else {
        return Err(ServeFault::Thread);
    };
    once_it_stands(rt, server, stood)
}

/// A poll with its waker, and the listener that it will poll.
fn polled<R: Net>(rt: &R, listener: net::TcpListener) -> Result<Polled, Error> {
    let poll = Poll::new(rt)?;
    let waker = Waker::new(poll.registry(), WAKER)?;
    Ok(Polled {
        poll,
        waker,
        listener,
    })
}

/// A server once its threads stand, or why they do not.
fn once_it_stands<R: Threads + Wait>(
    rt: &R,
    server: JoinHandle<ServeFault>,
    stood: Receiver<()>,
) -> Result<JoinHandle<ServeFault>, ServeFault> {
    match stood.recv(rt) {
        Ok(()) => Ok(server),
        Err(_) => Err(server.join(rt)),
    }
}

/// Serves the connections of a listener as is asked, until no further one can be accepted, and answers why that ended.
fn serve_all_that_come<R: Threads + Wait + rt::Clock + Sync>(
    rt: &R,
    alloc: Global,
    listener: &TcpListener,
    book: Book,
    serving: Serving,
    stands: Sender<()>,
) -> ServeFault
    requires workers { (1 ≤ serving.workers) × (serving.workers ≤ 64) }
{
    match serve_begun(rt, alloc, listener, book, serving, Some(stands)) {
        Ok(_) => ServeFault::Accept,
        Err(fault) => fault,
    }
}
