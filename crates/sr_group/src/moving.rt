ghost use Rattle.std.specs.Prelude.{◌≡◌, ◌^◌, ◌<◌, ◌≤◌, [], ◌∷◌, IfOk, IfSome, OnErr, OnOk, length, map};
ghost use Rattle.std.specs.List.{All};
ghost use Rattle.sr_pending.specs.{AreRising, IsCountable, room_left};
ghost use Rattle.sr_pending.specs.Pending.{HaveSameRooms};
ghost use Rattle.sr_group.specs.Claim.{after_claim, after_fate, fate_with};
ghost use Rattle.sr_group.specs.steps.Moving.{AddsRooms, Spends};

use crate::Group;
use crate::claim::{Call, Claim, Delivery, Weighed, first_delivery, weigh};
use crate::consumers::see;
use sr_bytes::Name;
use sr_entries::Entries;
use sr_ids::Id;
use sr_pending::{Owner, Pending};
use std::alloc::{AllocError, Global};
use std::marker::Model;

/// Entries that are moved to one consumer.
#[derive(Drop)]
pub struct Move<'a> {
    claimer: &'a Name,
    claim: Claim,
    ids: &'a [Id],
}

impl<'a> Model for Move<'a> {
    ghost use Rattle.sr_group.specs.Claim.{MoveState};

    ghost Value = { MoveState };

    ghost view = { λ m. record { claimer = m.claimer.now; claim = m.claim; ids = m.ids.now } };
}

impl<'a> Move<'a> {
    ghost use Rattle.std.specs.Prelude.{◌≡◌};

    /// The entries with these ids become the claimer's, one after the other, as `claim` says.
    pub fn new(claimer: &'a Name, claim: Claim, ids: &'a [Id]) -> Move<'a>
        ensures { result ≡ record { claimer = claimer.now; claim = claim; ids = ids.now } }
    {
        Move {
            claimer,
            claim,
            ids,
        }
    }
}

/// A claimed entry with a name for its new owner.
#[derive(Drop)]
pub(crate) struct Wanted {
    id: Id,
    owner: Owner,
}

/// A move with all the memory that it takes.
#[derive(Drop)]
pub(crate) struct Ready {
    claimer: Name,
    claim: Claim,
    wanted: Vec<Wanted>,
}

impl Model for Ready {
    ghost use Rattle.std.specs.Prelude.{◌≡◌, map};
    ghost use Rattle.std.specs.List.{All};
    ghost use Rattle.sr_group.specs.Claim.{MoveState};

    ghost Value = { MoveState };

    ghost view = { λ r. record { claimer = r.claimer; claim = r.claim; ids = map (λ w. w.id) r.wanted.items } };

    ghost invariant = { λ r. All (λ w. w.owner ≡ r.claimer) r.wanted.items };
}

impl Group {
    ghost use Rattle.std.specs.Prelude.{◌≡◌, ◌+◌, ◌^◌, ◌<◌, ◌≤◌, OnOk, OnErr, length};
    ghost use Rattle.std.specs.List.{All};
    ghost use Rattle.sr_pending.specs.{room_left};
    ghost use Rattle.sr_pending.specs.Pending.{HaveSameRooms, KeepsRooms};
    ghost use Rattle.sr_group.specs.Claim.{HasCount, after_move, after_moves};
    ghost use Rattle.sr_group.specs.steps.Moving.{Spends};

    /// Carries out moves at one moment, in milliseconds since 1970, one after the other. All memory is taken before the
    /// first change; after an `Err` the next call finds what was taken.
    ///
    /// Source: Redis documentation, command XCLAIM.
    pub fn move_all(
        &mut self,
        alloc: Global,
        moves: &[Move<'_>],
        moment: u64,
        entries: &Entries,
    ) -> Result<(), AllocError>
        requires moment { moment < 2 ^ 63 }
        requires counts { All HasCount moves.now }
        ensures ok { OnOk result (self.new.shown ≡ after_moves moment entries.now.entries moves.now self.old.shown) }
        ensures err { OnErr result (self.new.shown ≡ self.old.shown) }
        ensures rooms { OnErr result (HaveSameRooms self.old.rooms self.new.rooms) }
        ensures kept { OnOk result (KeepsRooms self.old.rooms self.new.rooms) }
    {
        let readies = make_ready(alloc, &self.pending, moves)?;
        self.consumers.reserve(readies.len())?;
        make_rooms(&mut self.pending, alloc, readies.as_slice())?;
        for ready in readies {
            self.carry_out(ready, moment, entries);
        }
        Ok(())
    }

    /// Carries out a move, in the room that was made for it. Takes no memory.
    fn carry_out(&mut self, ready: Ready, moment: u64, entries: &Entries)
        requires moment { moment < 2 ^ 63 }
        requires count { HasCount ready }
        requires place { 0 < self.old.places }
        requires room { length ready.ids ≤ room_left ready.claimer self.old.rooms }
        ensures shown { self.new.shown ≡ after_move moment entries.now.entries self.old.shown ready }
        ensures places { self.old.places ≤ self.new.places + 1 }
        ensures rooms { Spends ready.claimer (length ready.ids) self.old.rooms self.new.rooms }
    {
        let Ready {
            claimer,
            claim,
            wanted,
        } = ready;
        let call = Call {
            claim,
            claimer: &claimer,
            moment,
            entries,
        };
        take_all(&mut self.pending, &call, wanted);
        see(&mut self.consumers, claimer, moment);
    }
}

/// The entries become the claimer's, one after the other, in the room that it has.
fn take_all(pending: &mut Pending, call: &Call<'_>, wanted: Vec<Wanted>)
    requires moment { call.now.moment < 2 ^ 63 }
    requires count { IfSome call.now.claim.count (λ count. count < 2 ^ 63) }
    requires owner { All (λ w. w.owner ≡ call.now.claimer.now) wanted.items }
    requires room { length wanted.items ≤ room_left call.now.claimer.now pending.old.rooms }
    ensures nacks { pending.new.nacks ≡ after_claim
        call.now.claim call.now.claimer.now call.now.moment call.now.entries.now.entries
        (map (λ w. w.id) wanted.items) pending.old.nacks }
    ensures rooms { Spends call.now.claimer.now (length wanted.items) pending.old.rooms pending.new.rooms }
    ensures rising { AreRising pending.new.nacks }
    ensures countable { All IsCountable pending.new.nacks }
{
    for one in wanted {
        take(pending, call, one);
    }
    pending.sound();
}

/// The entry becomes the claimer's, if it is pending and the call gives it over.
fn take(pending: &mut Pending, call: &Call<'_>, wanted: Wanted)
    requires moment { call.now.moment < 2 ^ 63 }
    requires count { IfSome call.now.claim.count (λ count. count < 2 ^ 63) }
    requires owner { wanted.owner ≡ call.now.claimer.now }
    requires room { 0 < room_left call.now.claimer.now pending.old.rooms }
    ensures nacks { pending.new.nacks ≡ after_fate (fate_with
        call.now.claim call.now.claimer.now call.now.moment call.now.entries.now.entries wanted.id pending.old.nacks)
        wanted.id pending.old.nacks }
    ensures rooms { Spends call.now.claimer.now 1 pending.old.rooms pending.new.rooms }
{
    let Wanted { id, owner } = wanted;
    pending.sound();
    let Some(delivery) = first_delivery(pending, id) else {
        return;
    };
    match weigh(call, id, delivery) {
        Weighed::Stays => {}
        Weighed::Leaves => {
            pending.remove(id);
        }
        Weighed::Moves(Delivery { time, count }) => pending.move_to(id, owner, time, count),
    }
}

/// The moves, each with all the memory that it takes.
fn make_ready(
    alloc: Global,
    pending: &Pending,
    moves: &[Move<'_>],
) -> Result<Vec<Ready>, AllocError>
    ensures { IfOk result (λ readies. readies.items ≡ moves.now) }
{
    let mut readies = Vec::with_capacity(alloc, moves.len())?;
    for one in moves {
        readies.push(ready_of(alloc, pending, one)?)?;
    }
    Ok(readies)
}

/// A move with all the memory that it takes.
fn ready_of(alloc: Global, pending: &Pending, one: &Move<'_>) -> Result<Ready, AllocError>
    ensures { IfOk result (λ ready. ready ≡ one.now) }
{
    let owner = pending.owner(alloc, one.claimer)?;
    Ok(Ready {
        claimer: one.claimer.copy(alloc)?,
        claim: one.claim,
        wanted: wanted_by(alloc, &owner, one.ids)?,
    })
}

/// The entries with these ids, each with the name of its claimer.
fn wanted_by(alloc: Global, claimer: &Owner, ids: &[Id]) -> Result<Vec<Wanted>, AllocError>
    ensures ids { IfOk result (λ wanted. map (λ w. w.id) wanted.items ≡ ids.now) }
    ensures owners { IfOk result (λ wanted. All (λ w. w.owner ≡ claimer.now) wanted.items) }
{
    let mut wanted = Vec::with_capacity(alloc, ids.len())?;
    for id in ids {
        let owner = claimer.copy()?;
        wanted.push(Wanted { id: *id, owner })?;
    }
    Ok(wanted)
}

/// Makes room for all entries of these moves, beside the room that there is, or for none of them. There are as many
/// moves as a plan has consumers, and so as many frames.
fn make_rooms(pending: &mut Pending, alloc: Global, readies: &[Ready]) -> Result<(), AllocError>
    ensures nacks { pending.new.nacks ≡ pending.old.nacks }
    ensures rooms { OnOk result (AddsRooms readies.now pending.old.rooms pending.new.rooms) }
    ensures err { OnErr result (HaveSameRooms pending.old.rooms pending.new.rooms) }
{
    let Some((first, rest)) = readies.split_first() else {
        return Ok(());
    };
    make_room(pending, alloc, first)?;
    match make_rooms(pending, alloc, rest) {
        Ok(()) => Ok(()),
        Err(fault) => {
            pending.release(&first.claimer, first.wanted.len());
            Err(fault)
        }
    }
}

/// Makes room for the entries of a move, beside the room that there is. More entries than a number holds need more
/// memory than there is.
fn make_room(pending: &mut Pending, alloc: Global, ready: &Ready) -> Result<(), AllocError>
    ensures nacks { pending.new.nacks ≡ pending.old.nacks }
    ensures rooms { OnOk result (AddsRooms (ready.now ∷ []) pending.old.rooms pending.new.rooms) }
    ensures err { OnErr result (pending.new ≡ pending.old) }
{
    let room = pending.room(&ready.claimer);
    match room.checked_add(ready.wanted.len()) {
        Some(room) => {
            pending.reserve(alloc, &ready.claimer, room)?;
            Ok(())
        }
        None => Err(AllocError),
    }
}
