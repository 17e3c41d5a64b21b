//! Changes to the closed blocks of a list and to the open one after them.
ghost use Rattle.std.specs.Prelude.{◌≡◌, ◌+◌, ◌-◌, ◌<◌, ◌≤◌, [], ◌∷◌, ◌++◌, length, take, drop, get_or, max};
ghost use Rattle.std.specs.Prelude.{List, OnOk, option_to_list};
ghost use Rattle.std.specs.List.{insert, remove};
ghost use Rattle.std.specs.VecDeque.{deque_len, deque_capacity};
ghost use Rattle.sr_pending.specs.steps.Blocks.{AreFilled, AreSpare, MakesRoom, Rotates, held_in, items_at};

use std::alloc::{AllocError, Global};
use std::collections::VecDeque;
use std::mem::replace;

/// How many elements a block has when it is closed.
pub(crate) const BLOCK: usize = 512;

/// How many more it has places for then.
pub(crate) const FREE: usize = 128;

/// Adds empty blocks, until there are so many.
pub(crate) fn provide<T>(
    alloc: Global,
    spare: &mut VecDeque<VecDeque<T>>,
    blocks: usize,
) -> Result<(), AllocError>
    requires { AreSpare spare.old.items }
    ensures spares { AreSpare spare.new.items }
    ensures least { deque_len spare.old ≤ deque_len spare.new }
    ensures most { deque_len spare.new ≤ max blocks (deque_len spare.old) }
    ensures ok { OnOk result (blocks ≤ deque_len spare.new) }
{
    for _made in spare.len()..blocks {
        spare.reserve(1)?;
        let block = VecDeque::with_capacity(alloc, BLOCK + FREE)?;
        spare.push_back_reserved(block);
    }
    Ok(())
}

/// Closes the open block where few of its places are free, if a spare one can follow it. It takes no memory.
pub(crate) fn rotate<T>(
    closed: &mut VecDeque<VecDeque<T>>,
    tail: &mut VecDeque<T>,
    spare: &mut VecDeque<VecDeque<T>>,
)
where
    T: Drop,
    requires filled { AreFilled closed.old.items }
    requires spares { AreSpare spare.old.items }
    requires places { deque_len closed.old + deque_len spare.old ≤ deque_capacity closed.old }
    ensures { Rotates closed.old closed.new tail.old tail.new spare.old spare.new }
{
    if FREE < tail.capacity() - tail.len() {
        return;
    }
    if let Some(next) = spare.pop_back() {
        let full = replace(tail, next);
        if full.is_empty() {
            drop(full);
        } else {
            closed.push_back_reserved(full);
        }
    }
}

/// Puts the value before the others of a block, and hands its last one on.
fn shift<T>(block: &mut VecDeque<T>, value: T) -> T
    ensures items { value ∷ block.old.items ≡ block.new.items ++ result ∷ [] }
    ensures len { deque_len block.new ≡ deque_len block.old }
    ensures capacity { deque_capacity block.new ≡ deque_capacity block.old }
{
    match block.pop_back() {
        Some(last) => {
            block.push_front_reserved(value);
            last
        }
        None => value,
    }
}

/// Puts the value before the block `from`: each block that is full hands its last element on to the next one.
fn carry<T>(closed: &mut VecDeque<VecDeque<T>>, tail: &mut VecDeque<T>, from: usize, value: T)
    requires from { from ≤ deque_len closed.old }
    requires spare { deque_len tail.old < deque_capacity tail.old }
    ensures items { held_in closed.new.items ++ tail.new.items ≡
        held_in (take from closed.old.items) ++ value ∷ (held_in (drop from closed.old.items) ++ tail.old.items) }
    ensures before { take from closed.new.items ≡ take from closed.old.items }
    ensures blocks { deque_len closed.new ≡ deque_len closed.old }
    ensures places { deque_capacity closed.new ≡ deque_capacity closed.old }
    ensures filled { AreFilled (drop from closed.old.items) → AreFilled (drop from closed.new.items) }
    ensures len { deque_len tail.new ≤ deque_len tail.old + 1 }
    ensures capacity { deque_capacity tail.new ≡ deque_capacity tail.old }
{
    let mut value = value;
    for at in from..closed.len() {
        let block = &mut closed[at];
        if block.len() < block.capacity() {
            block.push_front_reserved(value);
            return;
        }
        value = shift(block, value);
    }
    tail.push_front_reserved(value);
}

/// The last element of a block that has no place left.
fn overflow<T>(block: &mut VecDeque<T>) -> Option<T>
    ensures items { block.old.items ≡ block.new.items ++ option_to_list result }
    ensures len { deque_len block.old ≤ deque_len block.new + 1 }
    ensures capacity { deque_capacity block.new ≡ deque_capacity block.old }
    ensures free { 0 < deque_len block.old → deque_len block.new < deque_capacity block.new }
{
    if block.len() < block.capacity() {
        return None;
    }
    block.pop_back()
}

/// Puts the value at this place, in memory that is free.
pub(crate) fn put_at<T>(block: &mut VecDeque<T>, at: usize, value: T)
    requires at { at ≤ deque_len block.old }
    requires free { deque_len block.old < deque_capacity block.old }
    ensures items { block.new.items ≡ insert block.old.items at value }
    ensures len { deque_len block.new ≡ deque_len block.old + 1 }
    ensures capacity { deque_capacity block.old ≤ deque_capacity block.new }
{
    match block.insert(at, value) {
        Ok(()) => {}
        Err(_) => unreachable!(),
    }
}

/// Makes a place free in a closed block: its last element goes on to the blocks behind it, if it has no place left.
fn make_room<T>(closed: &mut VecDeque<VecDeque<T>>, tail: &mut VecDeque<T>, block: usize)
    requires block { block < deque_len closed.old }
    requires filled { AreFilled closed.old.items }
    requires free { deque_len tail.old < deque_capacity tail.old }
    ensures { MakesRoom block closed.old closed.new tail.old tail.new }
{
    if let Some(last) = overflow(&mut closed[block]) {
        carry(closed, tail, block + 1, last);
    }
}

/// Puts the value before the element at this place of a closed block, or of the open one, which comes after them.
pub(crate) fn insert_in<T>(
    closed: &mut VecDeque<VecDeque<T>>,
    tail: &mut VecDeque<T>,
    block: usize,
    at: usize,
    value: T,
)
    requires block { block ≤ deque_len closed.old }
    requires in_closed { block < deque_len closed.old → at < length (items_at block closed.old.items) }
    requires in_tail { deque_len closed.old ≤ block → at ≤ deque_len tail.old }
    requires filled { AreFilled closed.old.items }
    requires free { deque_len tail.old < deque_capacity tail.old }
    ensures items { held_in closed.new.items ++ tail.new.items ≡
        insert (held_in closed.old.items ++ tail.old.items)
        (length (held_in (take block closed.old.items)) + at) value }
    ensures filled { AreFilled closed.new.items }
    ensures blocks { deque_len closed.new ≡ deque_len closed.old }
    ensures places { deque_capacity closed.new ≡ deque_capacity closed.old }
    ensures len { deque_len tail.new ≤ deque_len tail.old + 1 }
    ensures capacity { deque_capacity tail.old ≤ deque_capacity tail.new }
    ensures kept { block < deque_len closed.old → deque_capacity tail.new ≡ deque_capacity tail.old }
{
    if block < closed.len() {
        make_room(closed, tail, block);
        put_at(&mut closed[block], at, value);
        return;
    }
    put_at(tail, at, value);
}

/// Removes the element at this place of a closed block, and the block with its last one.
pub(crate) fn remove_in<T>(closed: &mut VecDeque<VecDeque<T>>, block: usize, at: usize)
where
    T: Drop,
    requires block { block < deque_len closed.old }
    requires at { at < length (items_at block closed.old.items) }
    requires filled { AreFilled closed.old.items }
    ensures items { (rest : List T) → held_in closed.new.items ++ rest ≡
        remove (held_in closed.old.items ++ rest) (length (held_in (take block closed.old.items)) + at) }
    ensures filled { AreFilled closed.new.items }
    ensures blocks { deque_len closed.new ≤ deque_len closed.old }
    ensures places { deque_capacity closed.new ≡ deque_capacity closed.old }
{
    drop(closed[block].remove(at));
    if closed[block].is_empty() {
        drop(closed.remove(block));
    }
}
