ghost use Rattle.std.specs.Prelude.{◌≡◌, ◌≢◌, ◌↔◌, ◌⊎◌, true, IfOk, IfSome, IsTrue, IsSomeAnd, Contains};
ghost use Rattle.std.specs.IoError.{error_kind, raw_os_error};
ghost use Rattle.std.specs.declared.io.ErrorKind.{ErrorKind};
ghost use Rattle.sr_events.specs.Accepting.{Accepts, tried_again};
ghost use Rattle.sr_events.specs.Bytes.{IsUnused};

use crate::stream::{Listener, Stream};
use std::io::{Error, ErrorKind};

/// How many connections are accepted at most until the sockets are polled again.
const BATCH: usize = 64;

/// What a client reads for which there is no place.
const TURNED_AWAY: &[u8; 36] = b"-ERR max number of clients reached\r\n";

/// The faults that are a listener's own, after which no accept succeeds: no descriptor or not one of a socket that
/// listens, a bad address in memory, or an operation that it does not have. Their numbers are Linux's (accept(2)).
pub const LISTENERS_OWN: &[i32] = &[
    9, // EBADF
    14, // EFAULT
    22, // EINVAL
    88, // ENOTSOCK
    95, // EOPNOTSUPP
];

/// Whether connections wait at the listener.
#[derive(Clone, Copy, Debug, PartialEq, Eq)]
pub(crate) enum Waiting {
    /// None, until the listener is reported again.
    Nobody,
    /// Some may.
    Maybe,
    /// Some may, which could not be accepted now. It is tried again a little later.
    Later,
}

/// What came of an accept that failed.
#[derive(Clone, Copy, Debug, PartialEq, Eq)]
enum Fault {
    /// No connection waits.
    Empty,
    /// This one failed, and the next need not: its client went away, or a signal came.
    Passing,
    /// The listener accepts no connection any more.
    Own,
    /// Something is lacking at the moment, as descriptors or memory.
    Short,
}

/// No connection will ever come again.
#[derive(Clone, Copy, Debug, PartialEq, Eq)]
pub(crate) struct Ended;

/// A listener's connections are accepted until none waits.
#[derive(Drop)]
pub(crate) struct Acceptor {
    waiting: Waiting,
    /// How many may be accepted until the sockets are polled again.
    left: usize,
}

impl Acceptor {
    /// Connections may wait already.
    pub fn new() -> Acceptor
        ensures { result.waiting ≡ Waiting.Maybe }
    {
        Acceptor {
            waiting: Waiting::Maybe,
            left: BATCH,
        }
    }

    /// Connections may wait at the listener.
    pub fn wake(&mut self)
        ensures { self.new ≡ record self.old { waiting = Waiting.Maybe } }
    {
        self.waiting = Waiting::Maybe;
    }

    /// Begins a pass, in which up to 64 connections are accepted.
    pub fn begin_pass(&mut self)
        ensures { self.new ≡ record self.old { waiting = tried_again self.old.waiting; left = BATCH } }
    {
        self.left = BATCH;
        if self.waiting == Waiting::Later {
            self.waiting = Waiting::Maybe;
        }
    }

    /// Whether connections may wait that can be accepted now.
    pub fn is_ready(&self) -> bool
        ensures { IsTrue result ↔ (self.now.waiting ≡ Waiting.Maybe) }
    {
        self.waiting == Waiting::Maybe
    }

    /// Whether accepting has to be tried again a little later.
    pub fn is_put_off(&self) -> bool
        ensures { IsTrue result ↔ (self.now.waiting ≡ Waiting.Later) }
    {
        self.waiting == Waiting::Later
    }

    /// The next connection of the listener, if there is one, until the pass is over.
    pub fn next<L: Listener>(&mut self, listener: &mut L) -> Result<Option<L::Stream>, Ended>
        ensures accepts { Accepts self.old result self.new }
        ensures unused { IfOk result (λ came.
            IfSome came (λ stream. IsUnused (L.Stream.gave stream) (L.Stream.got stream))) }
    {
        while self.left > 0 && self.waiting == Waiting::Maybe {
            self.left -= 1;
            match listener.accept() {
                Ok(stream) => return Ok(Some(stream)),
                Err(error) => match fault_of(&error) {
                    Fault::Empty => self.waiting = Waiting::Nobody,
                    Fault::Passing => {}
                    Fault::Own => return Err(Ended),
                    Fault::Short => self.waiting = Waiting::Later,
                },
            }
        }
        Ok(None)
    }
}

/// Tells a client that there is no place for it, as far as that can be written at once.
pub(crate) fn turn_away<S: Stream>(mut stream: S) {
    let _ = stream.write(TURNED_AWAY);
}

/// What came of an accept that failed.
fn fault_of(error: &Error) -> Fault
    ensures empty { (result ≡ Fault.Empty) ↔ (error_kind error.now ≡ ErrorKind.WouldBlock) }
    ensures passing { (result ≡ Fault.Passing) ↔ ((error_kind error.now ≡ ErrorKind.ConnectionAborted)
        ⊎ (error_kind error.now ≡ ErrorKind.Interrupted)) }
    ensures own { (result ≡ Fault.Own) ↔ ((result ≢ Fault.Empty) × (result ≢ Fault.Passing)
        × IsSomeAnd (raw_os_error error.now) (Contains LISTENERS_OWN.now)) }
{
    match error.kind() {
        ErrorKind::WouldBlock => Fault::Empty,
        ErrorKind::ConnectionAborted | ErrorKind::Interrupted => Fault::Passing,
        _ if is_listeners_own(error) => Fault::Own,
        _ => Fault::Short,
    }
}

/// Whether a failed accept is the listener's own fault.
pub fn is_listeners_own(error: &Error) -> bool
    ensures { IsTrue result ↔ IsSomeAnd (raw_os_error error.now) (Contains LISTENERS_OWN.now) }
{
    match error.raw_os_error() {
        Some(number) => LISTENERS_OWN.contains(&number),
        None => false,
    }
}
