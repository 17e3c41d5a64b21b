//! Removing the slots of one owner's entries from the list of all.
ghost use Rattle.std.specs.Prelude.{◌≡◌};
ghost use Rattle.sr_pending.specs.Pending.{AreRising};
ghost use Rattle.sr_pending.specs.steps.Blocks.{items_of};
ghost use Rattle.sr_pending.specs.steps.OwnedSlots.{slots_by};
ghost use Rattle.sr_pending.specs.steps.Slots.{nacks_at, slots_of, slots_without_owner};

use crate::Nack;
use crate::blocks::Blocks;
use crate::held::{OwnedSlots, held_for};
use crate::search::remove_slot;
use crate::slots::id_in;
use slab::Slab;
use sr_bytes::Name;

/// An owner has few entries if it has at most one in this many of all. Few are removed one by one. For more of them,
/// one pass over all is faster.
const FEW: usize = 64;

/// Removes the slots of the entries of this owner one by one, as the map lists them.
fn remove_each(slots: &mut Blocks<usize>, slab: &Slab<Nack>, held: &OwnedSlots, owner: &Name)
    requires rising { AreRising (nacks_at slab.now (items_of slots.old)) }
    requires indexed { slots_by held.now owner.now ≡ slots_of owner.now slab.now (items_of slots.old) }
    ensures items { items_of slots.new ≡ slots_without_owner owner.now slab.now (items_of slots.old) }
    ensures room { slots.new.room ≡ slots.old.room }
{
    if let Some(owned) = held.get(owner) {
        let mut rest = owned.all();
        while let Some(slot) = rest.next() {
            remove_slot(slots, slab, id_in(slab, *slot));
        }
    }
}

/// Removes the slots of the entries of this owner, which the map lists.
pub(crate) fn remove_owned(
    slots: &mut Blocks<usize>,
    slab: &Slab<Nack>,
    held: &OwnedSlots,
    owner: &Name,
)
    requires rising { AreRising (nacks_at slab.now (items_of slots.old)) }
    requires indexed { slots_by held.now owner.now ≡ slots_of owner.now slab.now (items_of slots.old) }
    ensures items { items_of slots.new ≡ slots_without_owner owner.now slab.now (items_of slots.old) }
    ensures room { slots.new.room ≡ slots.old.room }
{
    let owned = held_for(held, owner);
    if owned <= slots.len() / FEW {
        remove_each(slots, slab, held, owner);
    } else {
        slots.keep_others(slab, owner, owned);
    }
}
