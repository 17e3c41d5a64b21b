//! Which waiting reads an event can give an answer, and the serving of those that read at one key.
use super::Machine;
use crate::{Event, Served};
use sr_bytes::Name;
use sr_space::{is_read, key_of};
use std::alloc::{AllocError, Global};

impl Machine {
    ghost use Rattle.std.specs.Prelude.{◌≡◌, ◌↔◌, ◌&&◌, IsTrue, IfNone, IfSome, Some, None, OnErr, IfOk, not};
    ghost use Rattle.sr_space.specs.{finds_nothing, read_at};
    ghost use Rattle.sr_waiters.specs.{asks, first_that, session_of};
    ghost use Rattle.sr_book.specs.Server.{serving};
    ghost use Rattle.sr_book.specs.Watched.{AreQuietBeside, IsQuietAt};

    /// Whether no waiting read has an answer from its stream at the key. Takes no memory.
    pub(crate) fn is_quiet_at(&self, key: &Name) -> bool
        ensures { IsTrue result ↔ IsQuietAt key.now self.now }
    {
        self.first_ready_at(key).is_none()
    }

    /// The session of the first waiting read, in order of blocking, that has an answer from its stream at the key. It
    /// looks at the reads of that key alone.
    fn first_ready_at(&self, key: &Name) -> Option<u64>
        ensures { result ≡ session_of (first_that (λ read. asks key.now read
            && not (finds_nothing self.now.keys self.now.last (read_at key.now read))) self.now.waiting) }
    {
        let space = &self.space;
        self.waiters.first_at(key, |read| space.ready_at(read, key))
    }

    /// Serves as `serve` does, if no waiting read has an answer from a stream beside the key. It asks the reads of the
    /// key alone, and for the stream there.
    pub(crate) fn serve_at(
        &mut self,
        alloc: Global,
        index: u64,
        key: &Name,
    ) -> Result<Option<Served>, AllocError>
        requires { AreQuietBeside key.now self.old }
        ensures some { IfOk result (λ served. IfSome served (λ s. serving self.old index ≡
            Some (record { session = s.session; reply = s.reply; server = self.new }))) }
        ensures none { IfOk result (λ served. IfNone served (serving self.old index ≡ None)) }
        ensures stays { IfOk result (λ served. IfNone served (self.new ≡ self.old)) }
        ensures err { OnErr result (self.new ≡ self.old) }
    {
        let Some(session) = self.first_ready_at(key) else {
            return Ok(None);
        };
        let served = self.serve_session(alloc, index, session)?;
        Ok(Some(served))
    }
}

ghost use Rattle.std.specs.Prelude.{◌≡◌};
ghost use Rattle.std.specs.Option.{option_copied};
ghost use Rattle.sr_book.specs.Watched as watched;

/// Whether an event gives no waiting read an answer: one that is on no key, a read, or a plan that is not to be carried
/// out. Takes no memory.
pub(crate) fn wakes_nobody(event: &Event) -> bool
    ensures { result ≡ watched.wakes_nobody event.now }
{
    match event {
        Event::Call { call, .. } => is_read(call) || key_of(call).is_none(),
        Event::Conclude { apply, .. } => !*apply,
        _ => true,
    }
}

/// The key of a call on one, or of a plan, the only one at which it gives waiting reads an answer. Takes no memory.
pub(crate) fn woken_at(event: &Event) -> Option<&Name>
    ensures { option_copied result ≡ watched.woken_at event.now }
{
    match event {
        Event::Call { call, .. } => key_of(call),
        Event::Conclude { verdict, .. } => Some(verdict.snapshot().key()),
        _ => None,
    }
}
