ghost use Rattle.std.specs.Prelude.{◌≡◌, ◌==◌, ◌*◌, ◌<◌, ◌≤◌, ◌⊎◌, ℕ, true, false, length, Some, None};
ghost use Rattle.std.specs.Prelude.{IfOk, IfSome, IfNone, IsSomeAnd, IsTrue};
ghost use Rattle.std.specs.Duration.{as_nanos};
ghost use Rattle.std.specs.List.{list_any};
ghost use Rattle.mio.specs.Event.{event_token};
ghost use Rattle.mio.specs.Events.{items};
ghost use Rattle.sr_hub.specs.Heard.{count_of};
ghost use Rattle.sr_events.specs.Connections.{BeginsAt, KeepBytes, TellBytes, slot_at};
ghost use Rattle.sr_events.specs.Sockets.{HasCome, Tells, new_sockets};

use crate::acceptor::{Acceptor, Ended, Waiting, turn_away};
use crate::connections::Connections;
use crate::key::{LISTENER, WAKER};
use crate::planner::Planner;
use crate::stream::{Listener, Stream};
use mio::net::TcpListener;
use mio::{Events, Interest, Poll};
use sr_hub::{Heard, Job, Planned, Sockets};
use std::alloc::Global;
use std::io;
use std::marker::Model;
use std::time::Duration;

/// How many events are taken at a time. Further ones come at the next poll.
const EVENTS: usize = 1024;

/// How long it takes at most until accepting is tried again after something was lacking for it, in milliseconds.
const RETRY: u64 = 10;

/// The sockets of an event loop: those of the connections of one listener, each at the token that it was given.
///
/// Each call of `next` tells one thing. Connections are told of in turn, those that have gone first, and then others
/// come. The sockets are polled after each pass over those that have a turn, so that one that sends without pause keeps
/// nobody out. A connection that is held back is not read.
#[derive(Drop)]
pub struct EventSockets<P: Planner, L: Listener = TcpListener> {
    poll: Poll,
    events: Events,
    listener: L,
    acceptor: Acceptor,
    connections: Connections<L::Stream>,
    /// The connection that came last, until it has a token.
    latest: Option<L::Stream>,
    /// Whether the sockets were polled since it came.
    looked: bool,
    /// A token that was given to a connection which could not have it.
    lost: Option<usize>,
    /// The waker was used.
    woken: bool,
    planner: P,
}

impl<P: Planner, L: Listener> Model for EventSockets<P, L> {
    ghost use Rattle.std.specs.Prelude.{IfSome, is_some};
    ghost use Rattle.sr_events.specs.Bytes.{IsUnused};
    ghost use Rattle.sr_events.specs.Sockets.{SocketsState};

    ghost Value = { SocketsState };

    ghost view = { λ sockets. record {
      kept = sockets.connections;
      waiting = sockets.acceptor.waiting;
      came = is_some sockets.latest;
      looked = sockets.looked;
      lost = sockets.lost;
      woken = sockets.woken;
    } };

    ghost invariant = { λ sockets. IfSome sockets.latest
        (λ stream. IsUnused (L.Stream.gave stream) (L.Stream.got stream)) };
}

impl<P: Planner + Drop, L: Listener> EventSockets<P, L> {
    /// Serves at most `most` connections of this listener at a time. All memory is taken here: no later call allocates.
    pub fn new(
        alloc: Global,
        poll: Poll,
        mut listener: L,
        most: usize,
        planner: P,
    ) -> io::Result<EventSockets<P, L>>
        ensures { IfOk result (λ sockets. sockets ≡ new_sockets most) }
    {
        let events = Events::with_capacity(alloc, EVENTS)?;
        let connections = Connections::new(alloc, most)?;
        poll.registry()
            .register(&mut listener, LISTENER, Interest::READABLE)?;
        Ok(EventSockets {
            poll,
            events,
            listener,
            acceptor: Acceptor::new(),
            connections,
            latest: None,
            looked: false,
            lost: None,
            woken: false,
            planner,
        })
    }

    /// What can be told without a poll: of the connections that are there, and then who comes.
    fn at_hand(&mut self, buffer: &mut [u8]) -> Option<Heard>
        ensures told { IfSome result (λ heard. Tells (length buffer.new) self.old heard self.new) }
        ensures lost { (token : ℕ) → self.old.lost ≡ Some token → result ≡ Some (Heard.Over token) }
        ensures none { IfNone result ((self.new.lost ≡ None) × (self.new.woken ≡ false)) }
        ensures held { self.old.came ≡ true → self.new.came ≡ true }
        ensures bytes { TellBytes result buffer.new self.old.kept.slots self.new.kept.slots }
    {
        if let Some(token) = self.lost.take() {
            return Some(Heard::Over { token });
        }
        if self.woken {
            self.woken = false;
            return Some(Heard::Planned);
        }
        if let Some(heard) = self.connections.next(buffer) {
            return Some(heard);
        }
        self.comer()
    }

    /// Whether a connection comes, or none ever again. If each place is taken, one comes only once the sockets were
    /// polled since it was accepted, so that one who closed and connected again finds its place free.
    fn comer(&mut self) -> Option<Heard>
        ensures came { IfSome result (λ heard. (heard ≡ Heard.End) ⊎ ((heard ≡ Heard.Came) × HasCome self.new)) }
        ensures fresh { self.old.came ≡ false → self.new.came ≡ true → self.new.looked ≡ false }
        ensures looked { self.old.came ≡ true → self.new.looked ≡ self.old.looked }
        ensures kept { (self.old.came ≡ true → self.new.came ≡ true) × (self.new.kept ≡ self.old.kept) }
        ensures others { (self.new.lost ≡ self.old.lost) × (self.new.woken ≡ self.old.woken) }
    {
        if self.latest.is_none() {
            match self.acceptor.next(&mut self.listener) {
                Ok(Some(stream)) => {
                    self.latest = Some(stream);
                    self.looked = false;
                }
                Ok(None) => return None,
                Err(Ended) => return Some(Heard::End),
            }
        }
        if self.connections.is_full() && !self.looked {
            return None;
        }
        Some(Heard::Came)
    }

    /// Polls the sockets, notes what is reported and begins a pass. Answers whether it can be done again.
    fn look(&mut self, wait: Option<u64>) -> bool
        ensures lost { self.new.lost ≡ self.old.lost }
        ensures pass { IsTrue result → self.new.kept.left ≡ length self.new.kept.turns.tokens }
        ensures came { self.new.came ≡ self.old.came }
        ensures looked { IsTrue result → self.new.looked ≡ true }
        ensures bytes { KeepBytes self.old.kept.slots self.new.kept.slots }
    {
        let timeout = self.timeout(wait);
        if let Err(error) = self.poll.poll(&mut self.events, timeout)
            && error.kind() != io::ErrorKind::Interrupted
        {
            return false;
        }
        let woken = note_all(&self.events, &mut self.acceptor, &mut self.connections);
        self.woken |= woken;
        self.looked = true;
        self.acceptor.begin_pass();
        self.connections.begin_pass();
        true
    }

    /// How long a poll waits at most: not at all while something can be told, and not long while accepting has to be
    /// tried again.
    fn timeout(&self, wait: Option<u64>) -> Option<Duration>
        ensures turns { 0 < length self.now.kept.turns.tokens → result ≡ Some Duration.ZERO }
        ensures ready { self.now.waiting ≡ Waiting.Maybe → result ≡ Some Duration.ZERO }
        ensures came { self.now.came ≡ true → result ≡ Some Duration.ZERO }
        ensures put_off { self.now.waiting ≡ Waiting.Later
            → IsSomeAnd result (λ timeout. as_nanos timeout ≤ 10 * 1000000) }
    {
        if self.acceptor.is_ready() || self.connections.has_turns() || self.latest.is_some() {
            return Some(Duration::ZERO);
        }
        let wait = if self.acceptor.is_put_off() {
            Some(wait.unwrap_or(RETRY).min(RETRY))
        } else {
            wait
        };
        match wait {
            Some(millis) => Some(Duration::from_millis(millis)),
            None => None,
        }
    }

    /// Gives the connection that came last this token. Answers whether it has it.
    fn seat(&mut self, token: usize) -> bool
        ensures there { IsTrue result → (slot_at self.new.kept.slots token).taken ≡ true }
        ensures came { self.new.came ≡ false }
        ensures bytes { BeginsAt token self.old.kept.slots self.new.kept.slots }
    {
        match self.latest.take() {
            Some(stream) => self.connections.seat(self.poll.registry(), token, stream),
            None => {
                self.connections.close(token);
                false
            }
        }
    }
}

impl<P: Planner + Drop, L: Listener> Sockets for EventSockets<P, L> {
    ghost use Rattle.std.specs.Prelude.{◌≡◌, ◌<◌, ◌≤◌, ◌⊎◌, ℕ, List, true, false, length, take, Some};
    ghost use Rattle.sr_hub.specs.Heard.{count_of};
    ghost use Rattle.sr_hub.specs.Lines.{with_more};
    ghost use Rattle.sr_events.specs.Connections.{BeginsAt, ChangesAt, KeepBytes, MayHave, TellBytes, slot_at};
    ghost use Rattle.sr_events.specs.Slot.{IsEmpty, Writes};
    ghost use Rattle.sr_events.specs.Sockets.{Tells};

    ghost may_have = { λ sockets traffic. MayHave sockets.kept.slots traffic.taken traffic.given };

    fn next(&mut self, buffer: &mut [u8], wait: Option<u64>) -> Heard
        ensures bound { count_of result ≤ length buffer.new }
        ensures told { Tells (length buffer.new) self.old result self.new }
        ensures lost { (token : ℕ) → self.old.lost ≡ Some token → result ≡ Heard.Over token }
        ensures held { self.old.came ≡ true → self.new.came ≡ true }
        ensures bytes { TellBytes (Some result) buffer.new self.old.kept.slots self.new.kept.slots }
    {
        match self.at_hand(buffer) {
            Some(heard) => heard,
            None if self.look(wait) => self.at_hand(buffer).unwrap_or(Heard::Nothing),
            None => Heard::End,
        }
    }

    fn name(&mut self, token: usize)
        ensures there { ((slot_at self.new.kept.slots token).taken ≡ true) ⊎ (self.new.lost ≡ Some token) }
        ensures came { self.new.came ≡ false }
        ensures bytes { BeginsAt token self.old.kept.slots self.new.kept.slots }
    {
        if !self.seat(token) {
            self.lost = Some(token);
        }
    }

    fn turn_away(&mut self)
        ensures { self.new ≡ record self.old { came = false } }
    {
        if let Some(stream) = self.latest.take() {
            turn_away(stream);
        }
    }

    fn refuse(&mut self)
        ensures { self.new ≡ record self.old { came = false } }
    {
        self.latest = None;
    }

    fn write(&mut self, token: usize, bytes: &[u8]) -> usize
        ensures bound { result ≤ length bytes.now }
        ensures written { Writes bytes.now
            (slot_at self.old.kept.slots token) result (slot_at self.new.kept.slots token) }
        ensures others { ChangesAt token self.old.kept.slots self.new.kept.slots }
        ensures bytes { (taken given : ℕ → List ℕ) → MayHave self.old.kept.slots taken given
            → MayHave self.new.kept.slots taken (with_more token (take result bytes.now) given) }
    {
        self.connections.write(token, bytes)
    }

    fn hold(&mut self, token: usize, held: bool)
        ensures held { token < length self.old.kept.slots
            → slot_at self.new.kept.slots token ≡ record (slot_at self.old.kept.slots token) { held = held } }
        ensures others { ChangesAt token self.old.kept.slots self.new.kept.slots }
        ensures bytes { KeepBytes self.old.kept.slots self.new.kept.slots }
    {
        self.connections.hold(token, held);
    }

    fn close(&mut self, token: usize)
        ensures gone { IsEmpty (slot_at self.new.kept.slots token) }
        ensures others { ChangesAt token self.old.kept.slots self.new.kept.slots }
        ensures bytes { KeepBytes self.old.kept.slots self.new.kept.slots }
    {
        self.connections.close(token);
    }

    fn plan(&mut self, job: Job) -> bool
        ensures { self.new ≡ self.old }
    {
        self.planner.plan(job)
    }

    fn is_planning(&self, session: u64) -> bool {
        self.planner.is_planning(session)
    }

    fn is_busy(&self) -> bool {
        self.planner.is_busy()
    }

    fn planned(&mut self) -> Option<Planned>
        ensures { self.new ≡ self.old }
    {
        self.planner.planned()
    }
}

/// Notes what a poll reported. Answers whether the waker was used.
fn note_all<S: Stream>(
    events: &Events,
    acceptor: &mut Acceptor,
    connections: &mut Connections<S>,
) -> bool
    ensures woken { result ≡ list_any (λ event. (event_token event).0 == 0) (items events.now) }
    ensures listener { list_any (λ event. (event_token event).0 == 1) (items events.now) ≡ true
        → acceptor.new.waiting ≡ Waiting.Maybe }
    ensures bytes { KeepBytes connections.old.slots connections.new.slots }
{
    let mut woken = false;
    for event in events {
        let token = event.token();
        if token == WAKER {
            woken = true;
        } else if token == LISTENER {
            acceptor.wake();
        } else {
            connections.note(event);
        }
    }
    woken
}
