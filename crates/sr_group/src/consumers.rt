ghost use Rattle.std.specs.Prelude.{◌≡◌, ◌+◌, ◌-◌, ◌<◌, ◌≤◌, ◌⊎◌, IsTrue, false, IfSome, IfNone, OnOk, OnErr};
ghost use Rattle.std.specs.Prelude.{option_map, vec_len, vec_capacity};
ghost use Rattle.std.specs.List.{insert};
ghost use Rattle.sr_group.specs.Group.{AreInOrder, consumer_with, has_consumer, seen_at, without_consumer};
ghost use Rattle.sr_group.specs.steps.Consumers.{IsPlace, before};

use crate::Consumer;
use sr_bytes::Name;
use std::alloc::AllocError;

/// How many consumers come before the name, found by binary search.
fn count_before(consumers: &[Consumer], name: &Name) -> usize
    requires { AreInOrder consumers.now }
    ensures { result ≡ before name.now consumers.now }
{
    consumers.partition_point(|consumer| consumer.name.comes_before(name))
}

/// The place of the consumer with this name.
pub(crate) fn place_of(consumers: &[Consumer], name: &Name) -> Option<usize>
    requires { AreInOrder consumers.now }
    ensures found { IfSome result (IsPlace name.now consumers.now) }
    ensures none { IfNone result (has_consumer name.now consumers.now ≡ false) }
{
    let place = count_before(consumers, name);
    match consumers.get(place) {
        None => None,
        Some(consumer) => {
            if consumer.name == *name {
                Some(place)
            } else {
                None
            }
        }
    }
}

/// Whether a consumer has this name.
pub(crate) fn is_there(consumers: &[Consumer], name: &Name) -> bool
    requires { AreInOrder consumers.now }
    ensures { result ≡ has_consumer name.now consumers.now }
{
    match place_of(consumers, name) {
        Some(_place) => true,
        None => false,
    }
}

/// When the consumer with this name was seen last.
pub(crate) fn seen_by(consumers: &[Consumer], name: &Name) -> Option<u64>
    requires { AreInOrder consumers.now }
    ensures { result ≡ option_map (λ consumer. consumer.seen) (consumer_with name.now consumers.now) }
{
    match place_of(consumers, name) {
        Some(place) => Some(consumers[place].seen),
        None => None,
    }
}

/// Makes room for the consumer, if it is not there.
pub(crate) fn make_place(consumers: &mut Vec<Consumer>, name: &Name) -> Result<(), AllocError>
    requires { AreInOrder consumers.old.items }
    ensures items { consumers.new.items ≡ consumers.old.items }
    ensures ok { OnOk result
        (IsTrue (has_consumer name.now consumers.new.items) ⊎ (vec_len consumers.new < vec_capacity consumers.new)) }
{
    match place_of(consumers.as_slice(), name) {
        Some(_place) => Ok(()),
        None => {
            consumers.reserve(1)?;
            Ok(())
        }
    }
}

/// The consumer is seen at the moment: one that is not there comes to its place, in memory that is spare.
pub(crate) fn see(consumers: &mut Vec<Consumer>, name: Name, moment: u64)
    requires order { AreInOrder consumers.old.items }
    requires room { IsTrue (has_consumer name consumers.old.items)
        ⊎ (vec_len consumers.old < vec_capacity consumers.old) }
    ensures items { consumers.new.items ≡ seen_at name moment consumers.old.items }
    ensures spare { vec_capacity consumers.old - vec_len consumers.old
        ≤ vec_capacity consumers.new - vec_len consumers.new + 1 }
{
    match place_of(consumers.as_slice(), &name) {
        Some(place) => see_at(consumers, place, name, moment),
        None => {
            let place = count_before(consumers.as_slice(), &name);
            insert_at(consumers, place, Consumer { name, seen: moment });
        }
    }
}

/// The consumer at this place is seen at the moment.
fn see_at(consumers: &mut Vec<Consumer>, place: usize, name: Name, moment: u64)
    requires order { AreInOrder consumers.old.items }
    requires place { IsPlace name consumers.old.items place }
    ensures items { consumers.new.items ≡ seen_at name moment consumers.old.items }
    ensures len { vec_len consumers.new ≡ vec_len consumers.old }
    ensures capacity { vec_capacity consumers.new ≡ vec_capacity consumers.old }
{
    consumers[place] = Consumer { name, seen: moment };
}

/// Puts the consumer at this place, in memory that is spare.
fn insert_at(consumers: &mut Vec<Consumer>, place: usize, consumer: Consumer)
    requires place { place ≤ vec_len consumers.old }
    requires spare { vec_len consumers.old < vec_capacity consumers.old }
    ensures items { consumers.new.items ≡ insert consumers.old.items place consumer }
    ensures len { vec_len consumers.new ≡ vec_len consumers.old + 1 }
    ensures capacity { vec_capacity consumers.new ≡ vec_capacity consumers.old }
{
    match consumers.insert(place, consumer) {
        Ok(()) => {}
        Err(_) => unreachable!(),
    }
}

/// Removes the consumer with this name, if it is there.
pub(crate) fn remove(consumers: &mut Vec<Consumer>, name: &Name)
    requires { AreInOrder consumers.old.items }
    ensures { consumers.new.items ≡ without_consumer name.now consumers.old.items }
{
    if let Some(place) = place_of(consumers.as_slice(), name) {
        drop(consumers.remove(place));
    }
}
