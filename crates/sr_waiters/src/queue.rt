//! Sessions, each with a value, in the order in which they came. One that goes leaves its slot empty, and no other
//! moves until more are empty than taken.
ghost use Rattle.std.specs.Prelude.{◌≡◌, ◌≤◌, [], length, take, nat_eq, option_copied, IsSome};
ghost use Rattle.std.specs.Option.{option_map};
ghost use Rattle.std.specs.HashMap.{Updates, get, hash_map_len, spare};
ghost use Rattle.std.specs.List.{IsDistinct};
ghost use Rattle.std.specs.Map.{keys_of};
ghost use Rattle.sr_waiters.specs.Queue.{ArePlaced, HasEach, taken};

use std::alloc::{AllocError, Global};
use std::collections::HashMap;
use std::hash::RandomState;
use std::marker::Model;
use std::{mem, slice};

/// The place of each session: which slot it has.
type Places = HashMap<u64, usize, RandomState>;

/// Sessions, each with a value and each once, in the order in which they came.
#[derive(Drop)]
pub(crate) struct Queue<T> {
    /// The sessions in their order, with an empty slot for each that went. No more are empty than taken after a session
    /// goes.
    slots: Vec<Option<(u64, T)>>,
    places: Places,
    /// No slot before this one is taken.
    first: usize,
}

impl<T> Model for Queue<T> {
    ghost use Rattle.std.specs.Prelude.{◌-◌, min, vec_len, vec_capacity};
    ghost use Rattle.std.specs.HashMap.{spare};
    ghost use Rattle.sr_waiters.specs.Queue.{IsQueued, QueueState, queue_code, taken};

    ghost Value = { QueueState T };

    ghost coded = { queue_code T.code };

    ghost view = { λ q. record {
      entries = taken q.slots.items;
      room = min (vec_capacity q.slots - vec_len q.slots) (spare q.places);
    } };

    ghost invariant = { λ q. IsQueued q.slots.items q.places q.first };
}

impl<T> Queue<T> {
    ghost use Rattle.std.specs.Prelude.{◌≡◌, ◌+◌, ◌<◌, ◌≤◌, ◌++◌, [], ◌∷◌, length, nat_eq, is_some, false, OnOk};
    ghost use Rattle.std.specs.Prelude.{option_copied, OnErr, ◌↔◌, IsTrue};
    ghost use Rattle.std.specs.List.{IsDistinct};
    ghost use Rattle.std.specs.Map.{keys_of, lookup};
    ghost use Rattle.sr_waiters.specs.Queue.{without_entry};

    /// No sessions. Takes no memory.
    pub(crate) fn new(alloc: Global, hasher: RandomState) -> Queue<T>
        ensures { result.entries ≡ [] }
    {
        Queue {
            slots: Vec::new(alloc),
            places: HashMap::with_hasher(alloc, hasher),
            first: 0,
        }
    }

    pub(crate) fn allocator(&self) -> &Global {
        self.slots.allocator()
    }

    pub(crate) fn hasher(&self) -> &RandomState {
        self.places.hasher()
    }

    /// How many sessions there are.
    pub(crate) fn len(&self) -> usize
        ensures { result ≡ length self.now.entries }
    {
        self.places.len()
    }

    /// Whether there is none.
    pub(crate) fn is_empty(&self) -> bool
        ensures { IsTrue result ↔ (self.now.entries ≡ []) }
    {
        self.places.is_empty()
    }

    /// Whether the session is there.
    pub(crate) fn contains(&self, session: u64) -> bool
        ensures { result ≡ is_some (lookup (nat_eq session) self.now.entries) }
    {
        self.get(session).is_some()
    }

    /// The session's value.
    pub(crate) fn get(&self, session: u64) -> Option<&T>
        ensures { option_copied result ≡ lookup (nat_eq session) self.now.entries }
    {
        if self.is_empty() {
            return None;
        }
        match self.places.get(&session) {
            None => None,
            Some(place) => value_in(&self.slots[*place]),
        }
    }

    /// The sessions with their values, in their order.
    pub(crate) fn iter(&self) -> Entries<'_, T>
        ensures { result ≡ self.now.entries }
    {
        let slots = self.slots.as_slice();
        Entries {
            slots: slots[self.first..].iter(),
        }
    }

    /// Makes room for more sessions.
    pub(crate) fn reserve(&mut self, additional: usize) -> Result<(), AllocError>
        ensures entries { self.new.entries ≡ self.old.entries }
        ensures room { OnOk result (additional ≤ self.new.room) }
        ensures keeps { self.old.room ≤ self.new.room }
        ensures full { OnErr result (self.old.room < additional) }
    {
        self.slots.reserve(additional)?;
        self.places.reserve(additional)
    }

    /// The session goes last. Takes no memory.
    pub(crate) fn push(&mut self, session: u64, value: T)
        requires room { 0 < self.old.room }
        requires absent { is_some (lookup (nat_eq session) self.old.entries) ≡ false }
        ensures entries { self.new.entries ≡ self.old.entries ++ (session, value) ∷ [] }
        ensures room { self.old.room ≤ self.new.room + 1 }
        ensures once { IsDistinct nat_eq (keys_of self.new.entries) }
    {
        let place = self.slots.len();
        let noted: Result<_, _> = self.places.insert(session, place);
        drop(noted.unwrap());
        self.slots.push_reserved(Some((session, value)));
    }

    /// The session goes, and its value is returned. Takes no memory.
    pub(crate) fn remove(&mut self, session: u64) -> Option<T>
    where
        T: Drop,
        ensures value { result ≡ lookup (nat_eq session) self.old.entries }
        ensures entries { self.new.entries ≡ without_entry session self.old.entries }
        ensures room { self.old.room ≤ self.new.room }
        ensures once { IsDistinct nat_eq (keys_of self.new.entries) }
    {
        match self.places.remove(&session) {
            None => None,
            Some(place) => {
                let slot = mem::replace(&mut self.slots[place], None);
                self.first = first_taken(self.slots.as_slice(), self.first);
                self.close_up();
                value_of(slot)
            }
        }
    }

    /// Closes the slots up if more are empty than taken, so that those that went pay for each slot that is walked.
    fn close_up(&mut self)
    where
        T: Drop,
        ensures entries { self.new.entries ≡ self.old.entries }
        ensures room { self.old.room ≤ self.new.room }
    {
        if self.slots.len() <= 2 * self.places.len() {
            return;
        }
        self.slots.retain(|slot| slot.is_some());
        number(&mut self.places, self.slots.as_slice());
        self.first = 0;
    }
}

/// The value in a slot.
fn value_in<T>(slot: &Option<(u64, T)>) -> Option<&T>
    ensures { option_copied result ≡ option_map (λ e. e.1) slot.now }
{
    match slot {
        None => None,
        Some(entry) => Some(&entry.1),
    }
}

/// The value that was in a slot.
fn value_of<T>(slot: Option<(u64, T)>) -> Option<T>
    ensures { result ≡ option_map (λ e. e.1) slot }
{
    match slot {
        None => None,
        Some((_, value)) => Some(value),
    }
}

/// The first slot from this one on that is taken, or the end.
fn first_taken<T>(slots: &[Option<(u64, T)>], from: usize) -> usize
    requires blank { taken (take from slots.now) ≡ [] }
    requires within { from ≤ length slots.now }
    ensures blank { taken (take result slots.now) ≡ [] }
    ensures within { result ≤ length slots.now }
{
    for place in from..slots.len() {
        if slots[place].is_some() {
            return place;
        }
    }
    slots.len()
}

/// Notes the place of each session anew, in a map that has one of each.
fn number<T>(places: &mut Places, slots: &[Option<(u64, T)>])
    requires once { IsDistinct nat_eq (keys_of (taken slots.now)) }
    requires there { HasEach places.old slots.now }
    ensures placed { ArePlaced places.new slots.now }
    ensures len { hash_map_len places.new ≡ hash_map_len places.old }
    ensures room { spare places.new ≡ spare places.old }
{
    for place in 0..slots.len() {
        if let Some(entry) = &slots[place] {
            note(places, entry.0, place);
        }
    }
}

/// Notes the place of a session that has one.
fn note(places: &mut Places, session: u64, place: usize)
    ensures noted { IsSome (get nat_eq places.old session) → Updates nat_eq places.old places.new session (Some place) }
    ensures len { hash_map_len places.new ≡ hash_map_len places.old }
    ensures room { spare places.new ≡ spare places.old }
{
    if let Some(noted) = places.get_mut(&session) {
        *noted = place;
    }
}

/// The sessions with their values, in their order: each as `(&u64, &T)`.
#[derive(Drop)]
pub(crate) struct Entries<'a, T> {
    slots: slice::Iter<'a, Option<(u64, T)>>,
}

impl<'a, T> Model for Entries<'a, T> {
    ghost use Rattle.std.specs.Prelude.{ℕ, List};
    ghost use Rattle.std.specs.Slice.Iter.{iter_rest};
    ghost use Rattle.sr_waiters.specs.Queue.{taken};

    ghost Value = { List (ℕ × T) };

    ghost view = { λ e. taken (iter_rest e.slots) };
}

impl<'a, T> Iterator for Entries<'a, T> {
    ghost use Rattle.std.specs.Prelude.{length};
    ghost use Rattle.std.specs.Iterator.{at_most};
    ghost use Rattle.std.specs.Map.Iter.{TakesFirst, deref_pair};

    type Item = (&'a u64, &'a T);

    ghost next_gives = { TakesFirst deref_pair };

    ghost remaining = { λ s. at_most (length s) };

    fn next(&mut self) -> Option<(&'a u64, &'a T)> {
        while let Some(slot) = self.slots.next() {
            if let Some(entry) = slot {
                return Some((&entry.0, &entry.1));
            }
        }
        None
    }
}
