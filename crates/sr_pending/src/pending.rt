use crate::blocks::Blocks;
use crate::held::{OwnedSlots, add_spare, clear, held_for, put_slot, take_slot};
use crate::nacks::Nacks;
use crate::owned::remove_owned;
use crate::room::{Room, add_room, in_all, room_for, take_room, use_room};
use crate::search::{above, from, insert_slot, pending_slot, place_of, range_of, slot_of};
use crate::slots::{entry, free_all, give_in, id_in, touch_in};
use crate::{Nack, Owner};
use slab::Slab;
use sr_bytes::Name;
use sr_ids::Id;
use std::alloc::{AllocError, Global};
use std::collections::HashMap;
use std::marker::Model;

/// How many slots stay, once there are no entries.
const KEPT: usize = 1024;

/// The pending entries of a consumer group, by rising id.
///
/// Room for further entries of an owner is made by `reserve`, and used by `put` and `move_to`.
///
/// Source: Redis documentation, "Streams", section "Consumer groups".
pub struct Pending {
    /// Each entry once, in a slot.
    slab: Slab<Nack>,
    /// Their slots, by rising id.
    slots: Blocks<usize>,
    /// The slots of each owner's, by rising id.
    held: OwnedSlots,
    rooms: Vec<Room>,
}

// A function of its own, so that a caller that lets go of one is proved without looking at its parts.
impl Drop for Pending {
    fn drop(self) {
        let Pending {
            slab: _,
            slots: _,
            held: _,
            rooms: _,
        } = self;
    }
}

impl Model for Pending {
    ghost use Rattle.sr_pending.specs.Pending.{PendingState};
    ghost use Rattle.sr_pending.specs.steps.Blocks.{items_of};
    ghost use Rattle.sr_pending.specs.steps.Slots.{nacks_at};
    ghost use Rattle.sr_pending.specs.steps.Sound.{IsSound};

    ghost Value = { PendingState };

    ghost view = { λ p. record { nacks = nacks_at p.slab (items_of p.slots); rooms = p.rooms.items } };

    ghost invariant = { λ p. IsSound p.slab (items_of p.slots) p.rooms.items p.held p.slots.room };
}

impl Pending {
    ghost use Rattle.std.specs.Prelude.{◌≡◌, ◌+◌, ◌^◌, ◌<◌, ◌≤◌, [], true, false, not, filter, length, OnOk, OnErr};
    ghost use Rattle.std.specs.Prelude.{IfOk, IfSome, IfNone};
    ghost use Rattle.std.specs.Option.{option_copied};
    ghost use Rattle.std.specs.List.{All};
    ghost use Rattle.sr_pending.specs.Pending.{AreRising, IsCountable, KeepsRooms, Releases, Reserves, UsesRoom};
    ghost use Rattle.sr_ids.specs.{is_below};
    ghost use Rattle.sr_pending.specs.Pending.{greatest_pending, has_id, least_pending, moved, nack_with};
    ghost use Rattle.sr_pending.specs.Pending.{owned_by, owned_by_named, pending_above, pending_between, first_of};
    ghost use Rattle.sr_pending.specs.Pending.{room_left, touched, with_nack, without, without_owner};

    /// No pending entries, and no room. It takes no memory.
    pub fn new(alloc: Global) -> Pending
        ensures nacks { result.nacks ≡ [] }
        ensures rooms { result.rooms ≡ [] }
    {
        Pending {
            slab: Slab::new(alloc),
            slots: Blocks::new(alloc),
            held: HashMap::new(alloc),
            rooms: Vec::new(alloc),
        }
    }

    /// How many entries are pending.
    pub fn len(&self) -> usize
        ensures value { result ≡ length self.now.nacks }
        ensures bound { result < 2 ^ 63 }
    {
        self.slots.len()
    }

    /// For how many more entries of this owner there is room.
    pub fn room(&self, owner: &Name) -> usize
        ensures { result ≡ room_left owner.now self.now.rooms }
    {
        room_for(self.rooms.as_slice(), owner)
    }

    /// Makes room for `n` entries of this owner, the only step of a delivery that can fail.
    ///
    /// The rooms of several owners hold side by side, each until it is used.
    pub fn reserve(&mut self, alloc: Global, owner: &Name, n: usize) -> Result<(), AllocError>
        ensures nacks { self.new.nacks ≡ self.old.nacks }
        ensures room { OnOk result (n ≤ room_left owner.now self.new.rooms) }
        ensures keeps { OnOk result (KeepsRooms self.old.rooms self.new.rooms) }
        ensures exact { OnOk result (Reserves owner.now n self.old.rooms self.new.rooms) }
        ensures err { OnErr result (self.new ≡ self.old) }
        ensures full { OnErr result (room_left owner.now self.old.rooms < n) }
    {
        let more = n.saturating_sub(room_for(self.rooms.as_slice(), owner));
        if more == 0 {
            return Ok(());
        }
        let all = in_all(self.rooms.as_slice()).saturating_add(more);
        self.slab.reserve(all)?;
        self.slots.reserve(alloc, all)?;
        add_spare(&mut self.held, alloc, owner, n)?;
        add_room(&mut self.rooms, alloc, owner, more)?;
        Ok(())
    }

    /// Gives up `n` places of this owner's room, as a call does that reserved them and is then refused. It takes no
    /// memory, and gives none back.
    pub fn release(&mut self, owner: &Name, n: usize)
        requires { n ≤ room_left owner.now self.old.rooms }
        ensures nacks { self.new.nacks ≡ self.old.nacks }
        ensures room { Releases owner.now n self.old.rooms self.new.rooms }
    {
        take_room(&mut self.rooms, owner, n);
    }

    /// Adds an entry that was not pending, in the room that its owner has. It takes no memory.
    pub fn put(&mut self, nack: Nack)
        requires fresh { has_id nack.id self.old.nacks ≡ false }
        requires countable { IsCountable nack }
        requires room { 0 < room_left nack.owner self.old.rooms }
        ensures nacks { self.new.nacks ≡ with_nack nack self.old.nacks }
        ensures room { UsesRoom nack.owner self.old.rooms self.new.rooms }
    {
        use_room(&mut self.rooms, nack.owner.name());
        let slot = self.slab.insert_reserved(nack);
        insert_slot(&mut self.slots, &self.slab, slot);
        put_slot(&mut self.held, &self.slab, slot);
    }

    /// Gives a pending entry to another owner, in the room that this one has. It takes no memory.
    ///
    /// Source: Redis documentation, command XCLAIM.
    pub fn move_to(&mut self, id: Id, owner: Owner, time: u64, count: u64)
        requires pending { has_id id self.old.nacks ≡ true }
        requires time { time < 2 ^ 63 }
        requires count { count < 2 ^ 63 }
        requires room { 0 < room_left owner self.old.rooms }
        ensures nacks { self.new.nacks ≡ moved id owner time count self.old.nacks }
        ensures room { UsesRoom owner self.old.rooms self.new.rooms }
    {
        use_room(&mut self.rooms, owner.name());
        let slot = pending_slot(&self.slab, &self.slots, id);
        take_slot(&mut self.held, &self.slab, slot);
        give_in(&mut self.slab, slot, owner, time, count);
        put_slot(&mut self.held, &self.slab, slot);
    }

    /// Sets the time and the count of the entry with this id, if it is pending. It takes no memory.
    pub fn touch(&mut self, id: Id, time: u64, count: u64)
        requires time { time < 2 ^ 63 }
        requires count { count < 2 ^ 63 }
        ensures nacks { self.new.nacks ≡ touched id time count self.old.nacks }
        ensures rooms { self.new.rooms ≡ self.old.rooms }
    {
        match slot_of(&self.slab, &self.slots, id) {
            None => {}
            Some(slot) => touch_in(&mut self.slab, slot, time, count),
        }
    }

    /// Removes the entry with this id, if it is pending, and answers whether it was. It takes no memory.
    ///
    /// Source: Redis documentation, command XACK.
    pub fn remove(&mut self, id: Id) -> bool
        ensures nacks { self.new.nacks ≡ without id self.old.nacks }
        ensures found { result ≡ has_id id self.old.nacks }
        ensures rooms { self.new.rooms ≡ self.old.rooms }
    {
        match place_of(&self.slab, &self.slots, id) {
            None => false,
            Some(place) => {
                let slot = *self.slots.at(place);
                take_slot(&mut self.held, &self.slab, slot);
                self.slots.remove(place);
                drop(self.slab.remove(slot));
                self.give_back();
                true
            }
        }
    }

    /// Removes the entries of this owner, and answers how many. It takes no memory.
    ///
    /// Source: Redis documentation, command XGROUP DELCONSUMER.
    pub fn drop_owner(&mut self, owner: &Name) -> u64
        ensures nacks { self.new.nacks ≡ without_owner owner.now self.old.nacks }
        ensures count { result ≡ length (owned_by owner.now self.old.nacks) }
        ensures bound { result < 2 ^ 63 }
        ensures rooms { self.new.rooms ≡ self.old.rooms }
    {
        let owned = self.count_of(owner);
        remove_owned(&mut self.slots, &self.slab, &self.held, owner);
        free_all(&mut self.slab, &self.held, owner);
        clear(
            &mut self.held,
            owner,
            room_for(self.rooms.as_slice(), owner),
        );
        self.give_back();
        owned as u64
    }

    /// Gives back the memory of many slots, once there are no entries and no room for any.
    fn give_back(&mut self)
        ensures { self.new ≡ self.old }
    {
        if self.slots.len() == 0 && self.rooms.is_empty() && self.slab.capacity() > KEPT {
            self.slab.shrink_to_fit();
        }
    }

    /// Whether the entry with this id is pending.
    pub fn contains(&self, id: Id) -> bool
        ensures { result ≡ has_id id self.now.nacks }
    {
        match slot_of(&self.slab, &self.slots, id) {
            Some(_slot) => true,
            None => false,
        }
    }

    /// The entry with this id, found by binary search.
    pub fn get(&self, id: Id) -> Option<&Nack>
        ensures { option_copied result ≡ nack_with id self.now.nacks }
    {
        match slot_of(&self.slab, &self.slots, id) {
            Some(slot) => Some(entry(&self.slab, slot)),
            None => None,
        }
    }

    /// The entries from `start` to `end`, both included, at most `count` of them, and of this owner if one is named.
    ///
    /// Source: Redis documentation, command XPENDING, "Extended form".
    pub fn range<'a>(
        &'a self,
        start: Id,
        end: Id,
        count: Option<u64>,
        owner: Option<&'a Name>,
    ) -> Nacks<'a>
        ensures { result ≡
            first_of count (owned_by_named (option_copied owner.entry) (pending_between start end self.now.nacks)) }
    {
        match owner {
            None => {
                let slots = range_of(&self.slab, &self.slots, start, end);
                Nacks::new(&self.slab, slots, count)
            }
            Some(owner) => match self.held.get(owner) {
                None => Nacks::new(&self.slab, self.slots.nothing(), count),
                Some(slots) => {
                    let slots = range_of(&self.slab, slots, start, end);
                    Nacks::new(&self.slab, slots, count)
                }
            },
        }
    }

    /// The entries above the id, at most `count` of them, and of this owner if one is named.
    ///
    /// Source: Redis documentation, command XREADGROUP, "any other ID".
    pub fn above<'a>(&'a self, id: Id, count: Option<u64>, owner: Option<&'a Name>) -> Nacks<'a>
        ensures { result ≡
            first_of count (owned_by_named (option_copied owner.entry) (pending_above id self.now.nacks)) }
    {
        match owner {
            None => Nacks::new(&self.slab, above(&self.slab, &self.slots, id), count),
            Some(owner) => match self.held.get(owner) {
                None => Nacks::new(&self.slab, self.slots.nothing(), count),
                Some(slots) => Nacks::new(&self.slab, above(&self.slab, slots, id), count),
            },
        }
    }

    /// All entries.
    pub fn all(&self) -> Nacks<'_>
        ensures { result ≡ self.now.nacks }
    {
        Nacks::new(&self.slab, self.slots.all(), None)
    }

    /// The entries from `start` on.
    ///
    /// Source: Redis documentation, command XAUTOCLAIM.
    pub fn from_id(&self, start: Id) -> Nacks<'_>
        ensures { result ≡ filter (λ nack. not (is_below nack.id start)) self.now.nacks }
    {
        Nacks::new(&self.slab, from(&self.slab, &self.slots, start), None)
    }

    /// The entries of this owner.
    pub fn of<'a>(&'a self, owner: &'a Name) -> Nacks<'a>
        ensures { result ≡ owned_by owner.now self.now.nacks }
    {
        match self.held.get(owner) {
            None => Nacks::new(&self.slab, self.slots.nothing(), None),
            Some(slots) => Nacks::new(&self.slab, slots.all(), None),
        }
    }

    /// The owner of this name. It shares its name with the entries that it has, if it has any, and then takes no
    /// memory.
    pub fn owner(&self, alloc: Global, name: &Name) -> Result<Owner, AllocError>
        ensures { IfOk result (λ owner. owner ≡ name.now) }
    {
        match self.of(name).next() {
            Some(nack) => nack.owner.copy(),
            None => Owner::new(alloc, name),
        }
    }

    /// How many entries this owner has.
    pub fn count_of(&self, owner: &Name) -> usize
        ensures value { result ≡ length (owned_by owner.now self.now.nacks) }
        ensures bound { result < 2 ^ 63 }
    {
        held_for(&self.held, owner)
    }

    /// The least pending id.
    pub fn least_id(&self) -> Option<Id>
        ensures { result ≡ least_pending self.now.nacks }
    {
        match self.slots.first() {
            Some(slot) => Some(id_in(&self.slab, *slot)),
            None => None,
        }
    }

    /// The greatest pending id.
    pub fn greatest_id(&self) -> Option<Id>
        ensures { result ≡ greatest_pending self.now.nacks }
    {
        match self.slots.last() {
            Some(slot) => Some(id_in(&self.slab, *slot)),
            None => None,
        }
    }

    /// Law: the ids rise, and each time and count fits 63 bits. Calling this has no effect.
    pub fn sound(&self)
        ensures rising { AreRising self.now.nacks }
        ensures countable { All IsCountable self.now.nacks }
    {
        let _ = &self.slots;
    }

    /// A second list of the same entries, with no room.
    pub fn copy(&self, alloc: Global) -> Result<Pending, AllocError>
        ensures nacks { IfOk result (λ p. p.nacks ≡ self.now.nacks) }
        ensures rooms { IfOk result (λ p. p.rooms ≡ []) }
    {
        self.sound();
        let mut copy = Pending::new(alloc);
        let mut rest = self.all();
        while let Some(nack) = rest.next() {
            copy.reserve(alloc, nack.owner.name(), 1)?;
            copy.put(nack.copy()?);
        }
        copy.rooms = Vec::new(alloc);
        Ok(copy)
    }
}
