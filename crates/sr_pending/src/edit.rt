ghost use Rattle.std.specs.Prelude.{◌≡◌, ◌≤◌};
ghost use Rattle.std.specs.VecDeque.{deque_capacity, deque_len};
ghost use Rattle.sr_pending.specs.steps.Blocks.{AreFilled, held_in};
ghost use Rattle.sr_pending.specs.steps.Slots.{slots_without_owner};

use crate::Nack;
use crate::slots::is_owned;
use slab::Slab;
use sr_bytes::Name;
use std::collections::VecDeque;

/// Removes the slots of the entries of this owner from a block.
pub(crate) fn keep_one(block: &mut VecDeque<usize>, slab: &Slab<Nack>, owner: &Name)
    ensures items { block.new.items ≡ slots_without_owner owner.now slab.now block.old.items }
    ensures len { deque_len block.new ≤ deque_len block.old }
    ensures capacity { deque_capacity block.new ≡ deque_capacity block.old }
{
    block.retain(|slot| !is_owned(slab, *slot, owner));
}

/// Removes the slots of the entries of this owner from closed blocks, and the blocks that have no others.
pub(crate) fn keep_in(closed: &mut VecDeque<VecDeque<usize>>, slab: &Slab<Nack>, owner: &Name)
    ensures items { held_in closed.new.items ≡ slots_without_owner owner.now slab.now (held_in closed.old.items) }
    ensures filled { AreFilled closed.new.items }
    ensures blocks { deque_len closed.new ≤ deque_len closed.old }
    ensures places { deque_capacity closed.new ≡ deque_capacity closed.old }
{
    for at in 0..closed.len() {
        keep_one(&mut closed[at], slab, owner);
    }
    closed.retain(|block| !block.is_empty());
}
