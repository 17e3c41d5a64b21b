ghost use Rattle.std.specs.Prelude.{◌≡◌, ◌^◌, ◌<◌, ◌≤◌, [], false, length, OnOk};
ghost use Rattle.slab.specs.Slab.{ContainsKey};
ghost use Rattle.sr_pending.specs.Pending.{AreRising, has_id};
ghost use Rattle.sr_pending.specs.steps.OwnedSlots.{Gives, HasKey, KeepsSlots, PutsSlot, TakesSlot, slots_by, spare_by};
ghost use Rattle.sr_pending.specs.steps.Slots.{nack_at, nacks_at};

use crate::Nack;
use crate::blocks::Blocks;
use crate::search::{insert_slot, remove_slot};
use crate::slots::entry;
use slab::Slab;
use sr_bytes::Name;
use std::alloc::{AllocError, Global};
use std::collections::HashMap;

/// The slots of the entries that each owner has, by rising id.
pub(crate) type OwnedSlots = HashMap<Name, Blocks<usize>>;

/// How many entries this owner has.
pub(crate) fn held_for(held: &OwnedSlots, owner: &Name) -> usize
    ensures value { result ≡ length (slots_by held.now owner.now) }
    ensures bound { result < 2 ^ 63 }
{
    match held.get(owner) {
        Some(slots) => slots.len(),
        None => 0,
    }
}

/// Makes a key for this owner.
fn add_key(held: &mut OwnedSlots, alloc: Global, owner: &Name) -> Result<(), AllocError>
    ensures keeps { KeepsSlots held.old held.new }
    ensures key { OnOk result (HasKey held.new owner.now) }
{
    if !held.contains_key(owner) {
        held.insert(owner.copy(alloc)?, Blocks::new(alloc))?;
    }
    Ok(())
}

/// Makes a key for this owner, and memory for `room` more of its slots.
pub(crate) fn add_spare(
    held: &mut OwnedSlots,
    alloc: Global,
    owner: &Name,
    room: usize,
) -> Result<(), AllocError>
    ensures keeps { KeepsSlots held.old held.new }
    ensures spare { OnOk result (room ≤ spare_by held.new owner.now) }
{
    add_key(held, alloc, owner)?;
    grow(held, alloc, owner, room)
}

/// Makes memory for `room` more slots of this owner, which has a key.
fn grow(held: &mut OwnedSlots, alloc: Global, owner: &Name, room: usize) -> Result<(), AllocError>
    requires { HasKey held.old owner.now }
    ensures keeps { KeepsSlots held.old held.new }
    ensures spare { OnOk result (room ≤ spare_by held.new owner.now) }
{
    match held.get_mut(owner) {
        Some(slots) => slots.reserve(alloc, room),
        None => Ok(()),
    }
}

/// Gives this slot to the owner of its entry, without memory.
pub(crate) fn put_slot(held: &mut OwnedSlots, slab: &Slab<Nack>, slot: usize)
    requires taken { ContainsKey slab.now slot }
    requires rising { AreRising (nacks_at slab.now (slots_by held.old (nack_at slab.now slot).owner)) }
    requires fresh { has_id (nack_at slab.now slot).id
        (nacks_at slab.now (slots_by held.old (nack_at slab.now slot).owner)) ≡ false }
    requires spare { 0 < spare_by held.old (nack_at slab.now slot).owner }
    ensures { PutsSlot slot slab.now held.old held.new }
{
    if let Some(slots) = held.get_mut(entry(slab, slot).owner.name()) {
        insert_slot(slots, slab, slot);
    }
}

/// Takes this slot from the owner of its entry.
pub(crate) fn take_slot(held: &mut OwnedSlots, slab: &Slab<Nack>, slot: usize)
    requires taken { ContainsKey slab.now slot }
    requires rising { AreRising (nacks_at slab.now (slots_by held.old (nack_at slab.now slot).owner)) }
    ensures { TakesSlot slot slab.now held.old held.new }
{
    let nack = entry(slab, slot);
    if let Some(slots) = held.get_mut(nack.owner.name()) {
        remove_slot(slots, slab, nack.id);
    }
}

/// Takes all slots from this owner, and drops its key if it has no room.
pub(crate) fn clear(held: &mut OwnedSlots, owner: &Name, room: usize)
    requires { room ≤ spare_by held.old owner.now }
    ensures { Gives owner.now [] room held.old held.new }
{
    if room == 0 {
        drop(held.remove(owner));
    } else if let Some(slots) = held.get_mut(owner) {
        slots.clear();
    }
}
