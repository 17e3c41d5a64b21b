//! The entries in their slots.
ghost use Rattle.std.specs.Prelude.{◌≡◌};
ghost use Rattle.slab.specs.Slab.{ContainsKey};
ghost use Rattle.sr_pending.specs.Pending.{is_same_name, redelivered};
ghost use Rattle.sr_pending.specs.steps.OwnedSlots.{slots_by};
ghost use Rattle.sr_pending.specs.steps.Slots.{AreDistinct, AreTaken, Frees, Writes, nack_at};

use crate::held::OwnedSlots;
use crate::{Nack, Owner};
use slab::Slab;
use sr_bytes::Name;
use sr_ids::Id;

/// The entry in this slot.
pub(crate) fn entry(slab: &Slab<Nack>, slot: usize) -> &Nack
    requires { ContainsKey slab.now slot }
    ensures { result.now ≡ nack_at slab.now slot }
{
    match slab.get(slot) {
        Some(nack) => nack,
        None => unreachable!(),
    }
}

/// The id of the entry in this slot, or 0-0 if it has none.
pub(crate) fn id_in(slab: &Slab<Nack>, slot: usize) -> Id
    ensures { result ≡ (nack_at slab.now slot).id }
{
    match slab.get(slot) {
        Some(nack) => nack.id,
        None => Id { ms: 0, seq: 0 },
    }
}

/// Whether the entry in this slot is this owner's.
pub(crate) fn is_owned(slab: &Slab<Nack>, slot: usize, owner: &Name) -> bool
    ensures { result ≡ is_same_name (nack_at slab.now slot).owner owner.now }
{
    match slab.get(slot) {
        Some(nack) => *nack.owner.name() == *owner,
        None => owner.len() == 0,
    }
}

/// Sets the time and the count of the entry in this slot.
pub(crate) fn touch_in(slab: &mut Slab<Nack>, slot: usize, time: u64, count: u64)
    requires { ContainsKey slab.old slot }
    ensures { Writes slot (redelivered (nack_at slab.old slot).owner time count (nack_at slab.old slot))
        slab.old slab.new }
{
    if let Some(nack) = slab.get_mut(slot) {
        nack.time = time;
        nack.count = count;
    }
}

/// Gives the entry in this slot to this owner.
pub(crate) fn give_in(slab: &mut Slab<Nack>, slot: usize, owner: Owner, time: u64, count: u64)
    requires { ContainsKey slab.old slot }
    ensures { Writes slot (redelivered owner time count (nack_at slab.old slot)) slab.old slab.new }
{
    if let Some(nack) = slab.get_mut(slot) {
        let id = nack.id;
        *nack = Nack {
            id,
            owner,
            time,
            count,
        };
    }
}

/// Removes the entries of this owner, whose slots the map has.
pub(crate) fn free_all(slab: &mut Slab<Nack>, held: &OwnedSlots, owner: &Name)
    requires taken { AreTaken slab.old (slots_by held.now owner.now) }
    requires distinct { AreDistinct (slots_by held.now owner.now) }
    ensures { Frees (slots_by held.now owner.now) slab.old slab.new }
{
    if let Some(slots) = held.get(owner) {
        let mut rest = slots.all();
        while let Some(slot) = rest.next() {
            drop(slab.remove(*slot));
        }
    }
}
