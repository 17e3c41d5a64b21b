ghost use Rattle.std.specs.Prelude.{◌≡◌, ◌≢◌, ◌+◌, ◌*◌, ◌/◌, ◌%◌, ◌^◌, ◌<◌, ◌≤◌, ◌↔◌, ◌⊎◌, ℕ, [], true, false, length};
ghost use Rattle.std.specs.Prelude.{replicate};
ghost use Rattle.std.specs.Prelude.{IfOk, IfSome, IfNone, IsTrue, slice_set, vec_len};
ghost use Rattle.mio.specs.Event.{event_token};
ghost use Rattle.sr_events.specs.Bytes.{IsUnused};
ghost use Rattle.sr_events.specs.Connections.{ChangesAt, IsHeardOf, KeepBytes, TellBytes, open_count, settled};
ghost use Rattle.sr_events.specs.Connections.{settled_after_event, slot_at, with_event};
ghost use Rattle.sr_events.specs.Slot.{IsEmpty, Writes, fresh};
ghost use Rattle.sr_events.specs.Turns.{turns};
ghost use Rattle.sr_events.specs.steps.Connections.{TellsAt};

use crate::key::Key;
use crate::ring::Ring;
use crate::slot::Slot;
use crate::stream::Stream;
use mio::Registry;
use mio::event::Event;
use sr_hub::Heard;
use std::alloc::{AllocError, Global};
use std::marker::Model;

/// The connections that are open, each in the slot of its token, and those of which something can be told.
#[derive(Drop)]
pub(crate) struct Connections<S: Stream> {
    slots: Vec<Slot<S>>,
    /// How many slots have a connection.
    taken: usize,
    ring: Ring,
    /// How many turns are left until the sockets are polled again.
    left: usize,
}

impl<S: Stream> Model for Connections<S> {
    ghost use Rattle.sr_events.specs.Connections.{Kept};
    ghost use Rattle.sr_events.specs.steps.Connections.{IsKept};

    ghost Value = { Kept };

    ghost view = { λ kept. record { slots = kept.slots.items; turns = kept.ring; left = kept.left } };

    ghost invariant = { λ kept. IsKept kept.slots.items kept.taken kept.ring };
}

impl<S: Stream> Connections<S> {
    /// Room for this many connections.
    pub fn new(alloc: Global, most: usize) -> Result<Connections<S>, AllocError>
        ensures { IfOk result (λ kept.
            kept ≡ record { slots = replicate most (fresh false 1); turns = turns [] most; left = 0 }) }
    {
        Ok(Connections {
            slots: empty_slots(alloc, most)?,
            taken: 0,
            ring: Ring::new(alloc, most)?,
            left: 0,
        })
    }

    /// Whether each slot has a connection.
    pub fn is_full(&self) -> bool
        ensures { IsTrue result ↔ (open_count self.now.slots ≡ length self.now.slots) }
    {
        self.taken >= self.slots.len()
    }

    /// Whether some connection has a turn.
    pub fn has_turns(&self) -> bool
        ensures { IsTrue result ↔ (0 < length self.now.turns.tokens) }
    {
        self.ring.len() > 0
    }

    /// Begins a pass, in which each connection has the turn that it has now.
    pub fn begin_pass(&mut self)
        ensures { self.new ≡ record self.old { left = length self.old.turns.tokens } }
    {
        self.left = self.ring.len();
    }

    /// Notes what an event says of the connection that it is about, if that is still there.
    pub fn note(&mut self, event: &Event)
        ensures slots { let token = (event_token event.now).0 in
            self.new.slots ≡ with_event (token % 2 ^ 32) (token / 2 ^ 32) event.now self.old.slots }
        ensures turns { let token = (event_token event.now).0 in
            self.new.turns ≡ settled_after_event (token % 2 ^ 32) self.new.slots self.old.turns }
        ensures left { self.new.left ≡ self.old.left }
        ensures bytes { KeepBytes self.old.slots self.new.slots }
    {
        let key = Key::of(event.token());
        let token = key.slot as usize;
        note_at(&mut self.slots, token, key.generation, event);
        settle_after_event(&self.slots, &mut self.ring, token);
    }

    /// What is told of the next connections in turn, until the pass is over.
    pub fn next(&mut self, buffer: &mut [u8]) -> Option<Heard>
        ensures told { IfSome result (λ heard. (token : ℕ) × (token < length self.new.slots)
            × IsHeardOf token (length buffer.new) (slot_at self.new.slots token) heard) }
        ensures bytes { TellBytes result buffer.new self.old.slots self.new.slots }
        ensures none { IfNone result ((self.new.left ≡ 0) ⊎ (self.new.turns.tokens ≡ [])) }
        ensures count { length self.new.slots ≡ length self.old.slots }
    {
        while self.left > 0 {
            self.left -= 1;
            let token = self.ring.pop()?;
            let heard = tell_of(&mut self.slots, token, buffer);
            settle(&self.slots, &mut self.ring, token);
            if heard.is_some() {
                return heard;
            }
        }
        None
    }

    /// Puts a connection into the slot of this token, and has it polled. Answers whether it could: if not, the
    /// connection is closed.
    pub fn seat(&mut self, registry: &Registry, token: usize, stream: S) -> bool
        ensures there { (slot_at self.new.slots token).taken ≡ result }
        ensures bytes { IsUnused (S.gave stream) (S.got stream)
            → IsUnused (slot_at self.new.slots token).gave (slot_at self.new.slots token).got }
        ensures others { ChangesAt token self.old.slots self.new.slots }
        ensures left { self.new.left ≡ self.old.left }
    {
        self.close(token);
        if token >= self.slots.len() {
            return false;
        }
        let generation = self.slots[token].generation();
        match registered(registry, generation, token, stream) {
            Some(stream) => {
                self.slots[token].fill(stream);
                self.taken += 1;
                true
            }
            None => false,
        }
    }

    /// Writes some of these bytes, from the first on, and answers how many.
    pub fn write(&mut self, token: usize, bytes: &[u8]) -> usize
        ensures written { Writes bytes.now
            (slot_at self.old.slots token) result (slot_at self.new.slots token) }
        ensures others { ChangesAt token self.old.slots self.new.slots }
        ensures left { self.new.left ≡ self.old.left }
    {
        let count = write_at(&mut self.slots, token, bytes);
        settle(&self.slots, &mut self.ring, token);
        count
    }

    /// Has the connection in the slot of this token not be read from now on, or read again.
    pub fn hold(&mut self, token: usize, held: bool)
        ensures held { token < length self.old.slots
            → slot_at self.new.slots token ≡ record (slot_at self.old.slots token) { held = held } }
        ensures others { ChangesAt token self.old.slots self.new.slots }
        ensures left { self.new.left ≡ self.old.left }
    {
        hold_at(&mut self.slots, token, held);
        settle(&self.slots, &mut self.ring, token);
    }

    /// Closes the connection in the slot of this token, if there is one.
    pub fn close(&mut self, token: usize)
        ensures gone { IsEmpty (slot_at self.new.slots token) }
        ensures others { ChangesAt token self.old.slots self.new.slots }
        ensures left { self.new.left ≡ self.old.left }
    {
        if clear_at(&mut self.slots, token) {
            self.taken -= 1;
        }
    }
}

/// This many slots without a connection.
fn empty_slots<S: Stream>(alloc: Global, most: usize) -> Result<Vec<Slot<S>>, AllocError>
    ensures { IfOk result (λ slots. slots.items ≡ replicate most (fresh false 1)) }
{
    let mut slots = Vec::with_capacity(alloc, most)?;
    for _ in 0..most {
        slots.push(Slot::new())?;
    }
    Ok(slots)
}

/// Notes what an event says of one generation of a slot.
fn note_at<S: Stream>(slots: &mut Vec<Slot<S>>, token: usize, generation: u32, event: &Event)
    ensures { slots.new.items ≡ with_event token generation event.now slots.old.items }
{
    if token < slots.len() && slots[token].generation() == generation {
        slots[token].note(event);
    }
}

/// Gives a connection a turn if something can be told of it.
fn settle<S: Stream>(slots: &[Slot<S>], ring: &mut Ring, token: usize)
    ensures { ring.new ≡ settled token slots.now ring.old }
{
    if token < slots.len() && slots[token].has_turn() {
        ring.push(token);
    }
}

/// The same of a connection of which an event was noted: one that is over or whose peer sends no more comes before all
/// others.
fn settle_after_event<S: Stream>(slots: &[Slot<S>], ring: &mut Ring, token: usize)
    ensures { ring.new ≡ settled_after_event token slots.now ring.old }
{
    if token < slots.len() && slots[token].has_ended() && slots[token].has_turn() {
        ring.push_front(token);
    } else {
        settle(slots, ring, token);
    }
}

/// What is told of a connection in its turn, if something can be.
fn tell_of<S: Stream>(slots: &mut Vec<Slot<S>>, token: usize, buffer: &mut [u8]) -> Option<Heard>
    ensures { TellsAt token buffer.new slots.old.items result slots.new.items }
{
    if token < slots.len() && slots[token].has_turn() {
        slots[token].turn(token, buffer)
    } else {
        None
    }
}

/// Writes some of these bytes to a connection, from the first on, and answers how many.
fn write_at<S: Stream>(slots: &mut Vec<Slot<S>>, token: usize, bytes: &[u8]) -> usize
    ensures written { Writes bytes.now (slot_at slots.old.items token) result (slot_at slots.new.items token) }
    ensures others { ChangesAt token slots.old.items slots.new.items }
{
    if token < slots.len() {
        slots[token].write(bytes)
    } else {
        0
    }
}

/// Has a connection not be read from now on, or read again.
fn hold_at<S: Stream>(slots: &mut Vec<Slot<S>>, token: usize, held: bool)
    ensures held { token < length slots.old.items
        → slot_at slots.new.items token ≡ record (slot_at slots.old.items token) { held = held } }
    ensures others { ChangesAt token slots.old.items slots.new.items }
{
    if token < slots.len() {
        slots[token].hold(held);
    }
}

/// Closes a connection, if there is one. Answers whether there was.
fn clear_at<S: Stream>(slots: &mut Vec<Slot<S>>, token: usize) -> bool
    ensures value { result ≡ (slot_at slots.old.items token).taken }
    ensures gone { IsEmpty (slot_at slots.new.items token) }
    ensures others { ChangesAt token slots.old.items slots.new.items }
{
    if token < slots.len() {
        slots[token].clear()
    } else {
        false
    }
}

/// Has a connection polled. If that fails it is closed.
fn registered<S: Stream>(
    registry: &Registry,
    generation: u32,
    token: usize,
    mut stream: S,
) -> Option<S>
    ensures { IfSome result (λ polled. (S.gave polled ≡ S.gave stream) × (S.got polled ≡ S.got stream)) }
{
    let slot = u32::try_from(token).ok()?;
    let key = Key { generation, slot };
    match stream.register(registry, key.token()) {
        Ok(()) => Some(stream),
        Err(_) => None,
    }
}
