//! The state of the server, with what is known of the waiting reads that have an answer.
ghost use Rattle.std.specs.Prelude.{◌≡◌, ◌↔◌, ℕ, IsTrue, IfNone, IfSome, None, Some, OnErr, IfOk};
ghost use Rattle.sr_book.specs.Records.{IsSettled};
ghost use Rattle.sr_book.specs.Server.{Server, acted, serving};
ghost use Rattle.sr_book.specs.Watched.{AreQuietBeside, IsBound, IsKnown};

use crate::machine::readers::{wakes_nobody, woken_at};
use crate::{Acted, BookFault, Event, Letter, Machine, Served, Status};
use sr_bytes::Name;
use sr_policy::Policy;
use std::alloc::{AllocError, Global};
use std::hash::RandomState;
use std::marker::Model;

/// Which waiting reads have an answer.
#[derive(Drop)]
enum Ready {
    /// None.
    Nobody,
    /// Some, and each of them from its stream at this key.
    At(Name),
    /// Some.
    Unknown,
}

/// The state of the one-thread server, which knows whether a waiting read has an answer, and where: so a call on one
/// key, a plan that is carried out and a serving after either ask for the stream at that key alone, and a read or an
/// event on no key asks nobody.
pub(crate) struct Watched {
    machine: Machine,
    ready: Ready,
}

// A function of its own, so that a caller that lets go of one is proved without looking at its parts.
impl Drop for Watched {
    fn drop(self) {
        let Watched {
            machine: _,
            ready: _,
        } = self;
    }
}

impl Model for Watched {
    ghost use Rattle.sr_book.specs.Server.{Server};
    ghost use Rattle.sr_book.specs.Watched.{IsKnown};

    ghost Value = { Server };

    ghost view = { λ w. w.machine };

    ghost invariant = { λ w. IsKnown w.ready w.machine };
}

impl Watched {
    ghost use Rattle.std.specs.Prelude.{◌≡◌, ◌↔◌, ◌^◌, ◌<◌, IsTrue, IfNone, IfSome, None, Some, OnOk, OnErr, IfOk};
    ghost use Rattle.std.specs.List.{list_any};
    ghost use Rattle.sr_waiters.specs.{is_due};
    ghost use Rattle.sr_book.specs.Server.{AreBelow, AreOpen, acted, empty_server, moment_after, refusal, serving};
    ghost use Rattle.sr_book.specs.Records.{IsCertain, IsSettled, letter_for, status_of};

    /// A server with this policy, without sessions and keys. Takes no memory.
    pub(crate) fn new(
        alloc: Global,
        policy: Policy,
        keys: RandomState,
        waiters: RandomState,
    ) -> Watched
        ensures { result ≡ empty_server policy }
    {
        Watched {
            machine: Machine::new(alloc, policy, keys, waiters),
            ready: Ready::Nobody,
        }
    }

    /// Why an event is refused in the record with this index. Takes no memory.
    pub(crate) fn refusal(&self, index: u64, event: &Event) -> Option<BookFault>
        ensures { result ≡ refusal self.now index event.now }
    {
        self.machine.refusal(index, event)
    }

    /// The moment of a record for a moment that is handed in.
    pub(crate) fn moment(&self, told: u64) -> u64
        ensures value { result ≡ moment_after self.now.last told }
        ensures bound { result < 2 ^ 63 }
    {
        self.machine.moment(told)
    }

    /// Whether the deadline of a waiting read is reached at the moment of a record for this moment. Takes no memory.
    pub(crate) fn due(&self, told: u64) -> bool
        ensures { result ≡ list_any (is_due (moment_after self.now.last told)) self.now.waiting }
    {
        self.machine.due(told)
    }

    /// Finds out anew when the next deadline may be reached, as `Machine::look` does.
    pub(crate) fn look(&mut self, told: u64)
        ensures { self.new ≡ self.old }
    {
        self.machine.look(told);
    }

    /// What the session was last given while it waited, if it had no event since.
    pub(crate) fn letter(&self, alloc: Global, session: u64) -> Result<Option<Letter>, AllocError>
        ensures { IfOk result (λ letter. letter ≡ letter_for session self.now) }
    {
        self.machine.letter(alloc, session)
    }

    /// How the session stands. Takes no memory.
    pub(crate) fn status(&self, session: u64) -> Status
        ensures { result ≡ status_of session self.now }
    {
        self.machine.status(session)
    }

    /// The moment of the last record.
    pub(crate) fn last(&self) -> u64
        ensures { result ≡ self.now.last }
    {
        self.machine.last()
    }

    /// Law: each session that waits is open, and the moment of the last record has 63 bits. Calling this has no effect.
    pub(crate) fn sound(&self)
        ensures waiting { AreOpen self.now.waiting self.now.sessions }
        ensures bound { self.now.last < 2 ^ 63 }
    {
        self.machine.sound();
    }

    /// Whether no waiting read has an answer. Takes no memory.
    pub(crate) fn settled(&self) -> bool
        ensures { IsTrue result ↔ IsSettled self.now }
    {
        matches!(self.ready, Ready::Nobody)
    }

    /// Carries out an event in the record with this index, at the moment of a record for the moment that is handed in.
    /// An `Err` leaves the server as it was.
    pub(crate) fn act(
        &mut self,
        alloc: Global,
        index: u64,
        told: u64,
        event: &Event,
    ) -> Result<Acted, AllocError>
        requires accepted { refusal self.old index event.now ≡ None }
        requires fresh { AreBelow index self.old.sessions }
        ensures server { OnOk result (self.new ≡
            (acted self.old index (moment_after self.old.last told) event.now).server) }
        ensures out { IfOk result (λ done. done.out ≡
            (acted self.old index (moment_after self.old.last told) event.now).out) }
        ensures sent { IfOk result (λ done. done.sent ≡
            (acted self.old index (moment_after self.old.last told) event.now).sent) }
        ensures certain { OnOk result (IsCertain event.now) }
        ensures err { OnErr result (self.new ≡ self.old) }
    {
        let was_settled = self.settled();
        let acted = self.machine.act(alloc, index, told, event)?;
        self.ready = ready_after(alloc, &self.machine, was_settled, event);
        Ok(acted)
    }

    /// Serves the first waiting read, in order of blocking, that has an answer, in the record with this index. None if
    /// no read has one. An `Err` leaves the server as it was.
    pub(crate) fn serve(&mut self, alloc: Global, index: u64) -> Result<Option<Served>, AllocError>
        ensures some { IfOk result (λ served. IfSome served (λ s. serving self.old index ≡
            Some (record { session = s.session; reply = s.reply; server = self.new }))) }
        ensures none { IfOk result (λ served. IfNone served (serving self.old index ≡ None)) }
        ensures stays { IfOk result (λ served. IfNone served (self.new ≡ self.old)) }
        ensures err { OnErr result (self.new ≡ self.old) }
    {
        let served = serve_ready(&mut self.machine, alloc, index, &self.ready)?;
        see_if_settled(&self.machine, &mut self.ready);
        Ok(served)
    }
}

/// Which waiting reads have an answer in the state after an event, before which none had one if that is said. If memory
/// for the key is refused, it stays unknown.
fn ready_after(alloc: Global, machine: &Machine, settled: bool, event: &Event) -> Ready
    ensures { (old : Server) (index moment : ℕ) → (IsTrue settled → IsSettled old)
        → machine.now ≡ (acted old index moment event.now).server → IsKnown result machine.now }
{
    if settled && wakes_nobody(event) {
        return Ready::Nobody;
    }
    match woken_at(event) {
        Some(key) if settled => ready_at(alloc, machine, key),
        _ => ready_anywhere(machine),
    }
}

/// Which waiting reads have an answer, if none has one from a stream beside the key.
fn ready_at(alloc: Global, machine: &Machine, key: &Name) -> Ready
    ensures { AreQuietBeside key.now machine.now → IsKnown result machine.now }
{
    if machine.is_quiet_at(key) {
        return Ready::Nobody;
    }
    match key.copy(alloc) {
        Ok(key) => Ready::At(key),
        Err(AllocError) => Ready::Unknown,
    }
}

/// Whether a waiting read has an answer. It asks each of them.
fn ready_anywhere(machine: &Machine) -> Ready
    ensures { IsKnown result machine.now }
{
    if machine.settled() {
        return Ready::Nobody;
    }
    Ready::Unknown
}

/// Serves as `Machine::serve` does. It asks for no stream from which no waiting read has an answer, as far as that is
/// known.
fn serve_ready(
    machine: &mut Machine,
    alloc: Global,
    index: u64,
    ready: &Ready,
) -> Result<Option<Served>, AllocError>
    requires { IsBound ready.now machine.old }
    ensures some { IfOk result (λ served. IfSome served (λ s. serving machine.old index ≡
        Some (record { session = s.session; reply = s.reply; server = machine.new }))) }
    ensures none { IfOk result (λ served. IfNone served (serving machine.old index ≡ None)) }
    ensures stays { IfOk result (λ served. IfNone served (machine.new ≡ machine.old)) }
    ensures err { OnErr result (machine.new ≡ machine.old) }
{
    match ready {
        Ready::Nobody => Ok(None),
        Ready::At(key) => machine.serve_at(alloc, index, key),
        Ready::Unknown => machine.serve(alloc, index),
    }
}

/// Sees whether no waiting read has an answer any more.
fn see_if_settled(machine: &Machine, ready: &mut Ready)
    requires { IsBound ready.old machine.now }
    ensures { IsKnown ready.new machine.now }
{
    if is_settled(machine, ready) {
        *ready = Ready::Nobody;
    }
}

/// Whether no waiting read has an answer. It asks for no stream from which none has one, as far as that is known.
fn is_settled(machine: &Machine, ready: &Ready) -> bool
    requires { IsBound ready.now machine.now }
    ensures { IsTrue result ↔ IsSettled machine.now }
{
    match ready {
        Ready::Nobody => true,
        Ready::At(key) => machine.is_quiet_at(key),
        Ready::Unknown => machine.settled(),
    }
}
