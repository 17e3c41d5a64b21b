//! Lists of slots by the ids of their entries, which rise: found by binary search, and changed there.
ghost use Rattle.std.specs.Prelude.{◌≡◌, ◌+◌, ◌<◌, ◌≤◌, IsTrue, IfSome, IfNone, false, true, not, filter, map, length};
ghost use Rattle.std.specs.VecDeque.{deque_items};
ghost use Rattle.sr_ids.specs.{is_below};
ghost use Rattle.sr_pending.specs.Pending.{AreRising, has_id, is_between};
ghost use Rattle.sr_pending.specs.steps.Blocks.{IsIn, at_of, ends_in, items_of};
ghost use Rattle.sr_pending.specs.steps.Search.{EndsBelow, IsAt, IsBegin, IsEdge, IsSlotOf, Splits};
ghost use Rattle.sr_pending.specs.steps.Search.{is_before, number_before};
ghost use Rattle.sr_pending.specs.steps.Slots.{nack_at, nacks_at, slots_with, slots_without};

use crate::Nack;
use crate::blocks::{Blocks, Place};
use crate::firsts::guess_between;
use crate::run::Run;
use crate::slots::id_in;
use slab::Slab;
use sr_ids::Id;
use std::collections::VecDeque;

/// Whether the entry in this slot lies before the id, which counts as one before if that is asked.
fn lies_before(slab: &Slab<Nack>, slot: usize, id: Id, upto: bool) -> bool
    ensures { result ≡ is_before upto id (nack_at slab.now slot) }
{
    let other = id_in(slab, slot);
    if upto { other <= id } else { other < id }
}

/// Whether the last entry of a block does.
fn ends_before(slab: &Slab<Nack>, block: &VecDeque<usize>, id: Id, upto: bool) -> bool
    ensures { result ≡ ends_in (λ slot. is_before upto id (nack_at slab.now slot)) block.now.items }
{
    match block.back() {
        Some(slot) => lies_before(slab, *slot, id, upto),
        None => true,
    }
}

/// Whether the block before this place ends before the id, and the block at it does not.
fn is_edge(
    slab: &Slab<Nack>,
    blocks: &VecDeque<VecDeque<usize>>,
    place: usize,
    id: Id,
    upto: bool,
) -> bool
    ensures { IsTrue result →
        IsEdge (λ block. ends_in (λ slot. is_before upto id (nack_at slab.now slot)) block)
        (map deque_items blocks.now.items) place }
{
    if place > blocks.len() {
        return false;
    }
    if place > 0 && !ends_before(slab, &blocks[place - 1], id, upto) {
        return false;
    }
    place == blocks.len() || !ends_before(slab, &blocks[place], id, upto)
}

/// Where the first closed block may be that does not end before the id.
fn first_guess(slab: &Slab<Nack>, slots: &Blocks<usize>, id: Id, upto: bool) -> usize {
    let guess = slots.guess(slab, id);
    match slots.closed().get(guess) {
        Some(block) => {
            if ends_before(slab, block, id, upto) {
                guess + 1
            } else {
                guess
            }
        }
        None => guess,
    }
}

/// How many closed blocks end before the id: by a guess, and by binary search if that is wrong.
fn block_before(slab: &Slab<Nack>, slots: &Blocks<usize>, id: Id, upto: bool) -> usize
    requires { AreRising (nacks_at slab.now (items_of slots.now)) }
    ensures { Splits (λ block. ends_in (λ slot. is_before upto id (nack_at slab.now slot)) block)
        slots.now.closed result }
{
    let guess = first_guess(slab, slots, id, upto);
    if is_edge(slab, slots.closed(), guess, id, upto) {
        return guess;
    }
    slots
        .closed()
        .partition_point(|block| ends_before(slab, block, id, upto))
}

/// Whether all entries lie before the id: the last one does, or there is none.
fn all_before(slab: &Slab<Nack>, slots: &Blocks<usize>, id: Id, upto: bool) -> bool
    requires { AreRising (nacks_at slab.now (items_of slots.now)) }
    ensures { IsTrue result →
        length (items_of slots.now) ≡ number_before upto id slab.now (items_of slots.now) }
{
    match slots.last() {
        Some(slot) => lies_before(slab, *slot, id, upto),
        None => true,
    }
}

/// The first slot whose entry does not lie before the id: the end, if the last one does, and else by a search.
fn place_before(slab: &Slab<Nack>, slots: &Blocks<usize>, id: Id, upto: bool) -> Place
    requires { AreRising (nacks_at slab.now (items_of slots.now)) }
    ensures place { IsIn result slots.now }
    ensures value { at_of result slots.now ≡ number_before upto id slab.now (items_of slots.now) }
{
    if all_before(slab, slots, id, upto) {
        return slots.end();
    }
    let block = block_before(slab, slots, id, upto);
    let at = slots
        .block(block)
        .partition_point(|slot| lies_before(slab, *slot, id, upto));
    Place { block, at }
}

/// Where in this block an entry of this id would lie: by proportion between ids that bound the block, if that finds
/// it, and by binary search if not.
fn guess_in(slab: &Slab<Nack>, slots: &Blocks<usize>, number: usize, id: Id) -> usize {
    if number > slots.closed().len() {
        return 0;
    }
    let block = slots.block(number);
    if let Some((from, to)) = slots.bounds(slab, number) {
        if let Some(at) = guess_between(slab, block, id, from, to) {
            return at;
        }
    }
    block.partition_point(|slot| lies_before(slab, *slot, id, false))
}

/// Whether the entry before this place lies below the id, or there is none.
fn ends_below(slab: &Slab<Nack>, slots: &Blocks<usize>, place: Place, id: Id) -> bool
    requires { IsIn place slots.now }
    ensures { IsTrue result → EndsBelow id slab.now (items_of slots.now) (at_of place slots.now) }
{
    if place.at == 0 {
        return place.block == 0;
    }
    let before = Place {
        block: place.block,
        at: place.at - 1,
    };
    match slots.get(before) {
        Some(slot) => lies_before(slab, *slot, id, false),
        None => false,
    }
}

/// This place, if an entry is there that is seen to be the first that is not below the id.
fn place_if(
    slab: &Slab<Nack>,
    slots: &Blocks<usize>,
    block: usize,
    at: usize,
    id: Id,
) -> Option<Place>
    requires { AreRising (nacks_at slab.now (items_of slots.now)) }
    ensures { IfSome result (λ place. IsBegin id slab.now slots.now place) }
{
    if block > slots.closed().len() {
        return None;
    }
    if at >= slots.block(block).len() {
        return None;
    }
    let place = Place { block, at };
    match slots.get(place) {
        Some(slot) => {
            if id_in(slab, *slot) == id {
                return Some(place);
            }
            if lies_before(slab, *slot, id, false) {
                return None;
            }
            if ends_below(slab, slots, place, id) {
                Some(place)
            } else {
                None
            }
        }
        None => None,
    }
}

/// The first slot whose entry is not below the id, if it is the first of all, or where it is to be looked for first.
fn guessed_place(slab: &Slab<Nack>, slots: &Blocks<usize>, id: Id) -> Option<Place>
    requires { AreRising (nacks_at slab.now (items_of slots.now)) }
    ensures { IfSome result (λ place. IsBegin id slab.now slots.now place) }
{
    if let Some(place) = place_if(slab, slots, 0, 0, id) {
        return Some(place);
    }
    let block = slots.guess(slab, id);
    let at = guess_in(slab, slots, block, id);
    place_if(slab, slots, block, at, id)
}

/// The first slot whose entry is not below the id: by a guess, and by binary search if that is wrong.
fn place_below(slab: &Slab<Nack>, slots: &Blocks<usize>, id: Id) -> Place
    requires { AreRising (nacks_at slab.now (items_of slots.now)) }
    ensures { IsBegin id slab.now slots.now result }
{
    match guessed_place(slab, slots, id) {
        Some(place) => place,
        None => place_before(slab, slots, id, false),
    }
}

/// Whether the entry at this place, the first that is not below the id, has it.
fn has_at(slab: &Slab<Nack>, slots: &Blocks<usize>, place: Place, id: Id) -> bool
    requires rising { AreRising (nacks_at slab.now (items_of slots.now)) }
    requires begin { IsBegin id slab.now slots.now place }
    ensures found { IsTrue result → IsAt id slab.now slots.now place }
    ensures none { result ≡ false → has_id id (nacks_at slab.now (items_of slots.now)) ≡ false }
{
    match slots.get(place) {
        None => false,
        Some(slot) => id_in(slab, *slot) == id,
    }
}

/// The place of the slot of the entry with this id.
pub(crate) fn place_of(slab: &Slab<Nack>, slots: &Blocks<usize>, id: Id) -> Option<Place>
    requires { AreRising (nacks_at slab.now (items_of slots.now)) }
    ensures found { IfSome result (λ place. IsAt id slab.now slots.now place) }
    ensures none { IfNone result (has_id id (nacks_at slab.now (items_of slots.now)) ≡ false) }
{
    let place = place_below(slab, slots, id);
    if has_at(slab, slots, place, id) {
        Some(place)
    } else {
        None
    }
}

/// The slot of the entry with this id.
pub(crate) fn slot_of(slab: &Slab<Nack>, slots: &Blocks<usize>, id: Id) -> Option<usize>
    requires { AreRising (nacks_at slab.now (items_of slots.now)) }
    ensures found { IfSome result (λ slot. IsSlotOf id slab.now (items_of slots.now) slot) }
    ensures none { IfNone result (has_id id (nacks_at slab.now (items_of slots.now)) ≡ false) }
{
    match place_of(slab, slots, id) {
        None => None,
        Some(place) => Some(*slots.at(place)),
    }
}

/// The slot of the entry with this id, which is pending.
pub(crate) fn pending_slot(slab: &Slab<Nack>, slots: &Blocks<usize>, id: Id) -> usize
    requires rising { AreRising (nacks_at slab.now (items_of slots.now)) }
    requires pending { has_id id (nacks_at slab.now (items_of slots.now)) ≡ true }
    ensures { IsSlotOf id slab.now (items_of slots.now) result }
{
    match slot_of(slab, slots, id) {
        Some(slot) => slot,
        None => unreachable!(),
    }
}

/// The slots of the entries from `start` to `end`, both included.
pub(crate) fn range_of<'a>(
    slab: &Slab<Nack>,
    slots: &'a Blocks<usize>,
    start: Id,
    end: Id,
) -> Run<'a, usize>
    requires { AreRising (nacks_at slab.now (items_of slots.now)) }
    ensures { result ≡ filter (λ slot. is_between start end (nack_at slab.now slot).id) (items_of slots.now) }
{
    slots.run(
        place_below(slab, slots, start),
        place_before(slab, slots, end, true),
    )
}

/// The slots of the entries above the id.
pub(crate) fn above<'a>(slab: &Slab<Nack>, slots: &'a Blocks<usize>, id: Id) -> Run<'a, usize>
    requires { AreRising (nacks_at slab.now (items_of slots.now)) }
    ensures { result ≡ filter (λ slot. is_below id (nack_at slab.now slot).id) (items_of slots.now) }
{
    let place = place_below(slab, slots, id);
    let mut rest = slots.run(place, slots.end());
    if has_at(slab, slots, place, id) {
        rest.skip();
    }
    rest
}

/// The slots of the entries from the id on.
pub(crate) fn from<'a>(slab: &Slab<Nack>, slots: &'a Blocks<usize>, id: Id) -> Run<'a, usize>
    requires { AreRising (nacks_at slab.now (items_of slots.now)) }
    ensures { result ≡ filter (λ slot. not (is_below (nack_at slab.now slot).id id)) (items_of slots.now) }
{
    slots.run(place_below(slab, slots, id), slots.end())
}

/// Puts the slot at the place of its entry, in the room that there is.
pub(crate) fn insert_slot(slots: &mut Blocks<usize>, slab: &Slab<Nack>, slot: usize)
    requires rising { AreRising (nacks_at slab.now (items_of slots.old)) }
    requires fresh { has_id (nack_at slab.now slot).id (nacks_at slab.now (items_of slots.old)) ≡ false }
    requires room { 0 < slots.old.room }
    ensures items { items_of slots.new ≡ slots_with slot slab.now (items_of slots.old) }
    ensures room { slots.new.room + 1 ≡ slots.old.room }
{
    let place = place_before(slab, slots, id_in(slab, slot), false);
    slots.insert(place, slot);
    slots.note(slab);
}

/// Removes the slot of the entry with this id, if it is among them.
pub(crate) fn remove_slot(slots: &mut Blocks<usize>, slab: &Slab<Nack>, id: Id)
    requires { AreRising (nacks_at slab.now (items_of slots.old)) }
    ensures items { items_of slots.new ≡ slots_without id slab.now (items_of slots.old) }
    ensures room { slots.new.room ≡ slots.old.room }
{
    if let Some(place) = place_of(slab, slots, id) {
        slots.remove(place);
    }
}
