//! Whether there are too few places, seen without any cost: the entries are given seats at consumers that they are
//! allowed, and one that finds none shows consumers to which more entries are confined than they have places.
//!
//! Source: the method of augmenting paths (L. R. Ford, D. R. Fulkerson, 1956); P. Hall, "On representatives of
//! subsets", 1935.
ghost use Rattle.std.specs.Prelude.{◌≡◌, ℕ, ◌-◌, ◌<◌, ◌≤◌, length, slice_index, IfOk, IfSome};
ghost use Rattle.sr_transport.specs.{most_entries, consumers};
ghost use Rattle.sr_transport.specs.Limits.{most_consumers};
ghost use Rattle.sr_transport.specs.plain.Certificate.{IsShortage};
ghost use Rattle.sr_solver.specs.Crowd.{IsSeating, HasSeat, Sits, EndsAt, AreConfined, places_within, mover_at};
ghost use Rattle.sr_solver.specs.Pairs.{AreSetsOf};

use crate::costs::Costs;
use crate::set::{ConsumerSet, MAX_CONSUMERS};
use std::alloc::{AllocError, Global};

/// Where the entries sit.
#[derive(Drop)]
pub struct Seating<'a> {
    /// The consumers that each entry is allowed.
    pub sets: &'a [ConsumerSet],
    /// The entry in each seat: those of one consumer after those of another.
    pub seats: Vec<u16>,
    /// Where the seats of each consumer begin.
    pub starts: Vec<usize>,
    /// How many each has.
    pub rooms: Vec<usize>,
    /// How many of them are left, which are the first ones.
    pub left: Vec<usize>,
    /// For each consumer that was reached who would move there; nobody if the new entry itself would.
    pub movers: Vec<Option<Mover>>,
}

/// An entry that may move to another consumer: where it sits.
#[derive(Clone, Copy)]
pub struct Mover {
    pub consumer: usize,
    pub seat: usize,
}

/// Where a search for a seat ends.
enum Reached {
    /// At a consumer with a seat that is left.
    Seat { consumer: usize },
    /// Nowhere: all seats of these consumers are taken, and whoever sits there is allowed no other consumer.
    Crowd { consumers: ConsumerSet },
}

/// Entries that are confined to consumers with too few places for them; `None` if none were found.
///
/// The search promises nothing of what it finds: the entries are counted.
pub fn crowded_entries(
    alloc: Global,
    problem: &Costs<'_>,
    sets: &[ConsumerSet],
) -> Result<Option<Vec<usize>>, AllocError>
    requires sets { AreSetsOf problem.now sets.now }
    requires some { 0 < problem.now.entries }
    requires few { consumers problem.now ≤ most_consumers }
    ensures { IfOk result (λ found. IfSome found (λ set. IsShortage problem.now set.items)) }
{
    let Some(crowd) = crowded_consumers(alloc, problem, sets)? else {
        return Ok(None);
    };
    let set = confined(alloc, sets, crowd)?;
    if set.len() as u64 <= places_of(problem, crowd) {
        return Ok(None);
    }
    Ok(Some(set))
}

/// The entries whose consumers are all among these, rising.
fn confined(
    alloc: Global,
    sets: &[ConsumerSet],
    among: ConsumerSet,
) -> Result<Vec<usize>, AllocError>
    ensures { IfOk result (λ set. AreConfined sets.now (length sets.now) among set.items) }
{
    let mut confined = Vec::new(alloc);
    for (entry, set) in sets.iter().enumerate() {
        if !set.is_within(among) {
            continue;
        }
        confined.push(entry)?;
    }
    Ok(confined)
}

/// How many places these consumers have.
fn places_of(problem: &Costs<'_>, set: ConsumerSet) -> u64
    requires { consumers problem.now ≤ most_consumers }
    ensures { result ≡ places_within problem.now set (consumers problem.now) }
{
    let mut places = 0;
    for consumer in 0..problem.consumers() {
        if set.has(consumer) {
            places += problem.room(consumer);
        }
    }
    places
}

/// The consumers that are reached from the first entry that finds no seat; `None` if each one finds a seat.
fn crowded_consumers(
    alloc: Global,
    problem: &Costs<'_>,
    sets: &[ConsumerSet],
) -> Result<Option<ConsumerSet>, AllocError>
    requires sets { length sets.now ≡ problem.now.entries }
    requires some { 0 < problem.now.entries }
    requires few { consumers problem.now ≤ most_consumers }
{
    let mut seating = no_seats(alloc, problem, sets)?;
    for entry in 0..sets.len() {
        if let Some(crowd) = seat(&mut seating, entry) {
            return Ok(Some(crowd));
        }
    }
    Ok(None)
}

/// No seat is taken.
fn no_seats<'a>(
    alloc: Global,
    problem: &Costs<'_>,
    sets: &'a [ConsumerSet],
) -> Result<Seating<'a>, AllocError>
    requires sets { length sets.now ≡ problem.now.entries }
    requires some { 0 < problem.now.entries }
    requires few { consumers problem.now ≤ most_consumers }
    ensures sets { IfOk result (λ seating. seating.sets ≡ sets.entry) }
    ensures seating { IfOk result IsSeating }
{
    let consumers = problem.consumers();
    let most = problem.entries();
    let mut starts = vec![in alloc; 0usize; MAX_CONSUMERS]?;
    let mut rooms = vec![in alloc; 0usize; MAX_CONSUMERS]?;
    let mut left = vec![in alloc; 0usize; MAX_CONSUMERS]?;
    let mut all = 0usize;
    for consumer in 0..consumers {
        let room = problem.room(consumer).min(most as u64) as usize;
        starts[consumer] = all;
        rooms[consumer] = room;
        left[consumer] = room;
        all += room;
    }
    let seats = vec![in alloc; 0u16; all]?;
    let movers = no_movers(alloc)?;
    Ok(Seating {
        sets,
        seats,
        starts,
        rooms,
        left,
        movers,
    })
}

/// Nobody would move to any consumer.
fn no_movers(alloc: Global) -> Result<Vec<Option<Mover>>, AllocError>
    ensures each { IfOk result (λ movers. length movers.items ≡ most_consumers) }
    ensures none { IfOk result (λ movers. (c : ℕ) → mover_at movers.items c ≡ None) }
{
    let mut movers = Vec::with_capacity(alloc, MAX_CONSUMERS)?;
    for _consumer in 0..MAX_CONSUMERS {
        movers.push(None)?;
    }
    Ok(movers)
}

/// Gives an entry a seat, for which others may move; or the consumers that were reached, if none has a seat left.
fn seat(seating: &mut Seating<'_>, entry: usize) -> Option<ConsumerSet>
    requires entry { entry < length seating.old.sets.now }
    requires seating { IsSeating seating.old }
    ensures sets { seating.new.sets ≡ seating.old.sets }
    ensures seating { IsSeating seating.new }
{
    let set = seating.sets[entry];
    if let Some(consumer) = roomiest(seating, set) {
        let seat = take_seat(seating, consumer);
        give(seating, seat, entry);
        return None;
    }
    match reach(seating, set) {
        Reached::Seat { consumer } => {
            shift(seating, consumer, entry);
            None
        }
        Reached::Crowd { consumers } => Some(consumers),
    }
}

/// The one of these consumers that has most seats left, if any has one.
fn roomiest(seating: &Seating<'_>, set: ConsumerSet) -> Option<usize>
    requires { IsSeating seating.now }
    ensures { IfSome result (HasSeat seating.now) }
{
    let left = seating.left.as_slice();
    let mut rest = set;
    let mut roomiest = None;
    let mut most = 0;
    while let Some(consumer) = rest.first() {
        rest = rest.without(consumer);
        if most < left[consumer] {
            roomiest = Some(consumer);
            most = left[consumer];
        }
    }
    roomiest
}

/// Takes a seat that is left at a consumer.
fn take_seat(seating: &mut Seating<'_>, consumer: usize) -> usize
    requires seating { IsSeating seating.old }
    requires left { HasSeat seating.old consumer }
    ensures seat { result < length seating.new.seats.items }
    ensures sets { seating.new.sets ≡ seating.old.sets }
    ensures movers { seating.new.movers ≡ seating.old.movers }
    ensures seating { IsSeating seating.new }
{
    let left = seating.left[consumer] - 1;
    seating.left[consumer] = left;
    seating.starts[consumer] + left
}

/// Gives a seat to an entry.
fn give(seating: &mut Seating<'_>, seat: usize, entry: usize)
    requires entry { entry < length seating.old.sets.now }
    requires seat { seat < length seating.old.seats.items }
    requires seating { IsSeating seating.old }
    ensures sets { seating.new.sets ≡ seating.old.sets }
    ensures each_seat { length seating.new.seats.items ≡ length seating.old.seats.items }
    ensures movers { seating.new.movers ≡ seating.old.movers }
    ensures seating { IsSeating seating.new }
{
    seating.seats[seat] = entry as u16;
}

/// Looks for a seat that is left, from these consumers on, to which the new entry would come: whoever sits at a
/// consumer that is reached may move on to each other one that it is allowed.
fn reach(seating: &mut Seating<'_>, set: ConsumerSet) -> Reached
    requires { IsSeating seating.old }
    ensures sets { seating.new.sets ≡ seating.old.sets }
    ensures seating { IsSeating seating.new }
    ensures end { EndsAt seating.new result }
{
    move_on(seating, set, None);
    let mut reached = set;
    let mut waiting = set;
    for _ in 0..MAX_CONSUMERS {
        let Some(consumer) = waiting.first() else {
            break;
        };
        waiting = waiting.without(consumer);
        let start = seating.starts[consumer];
        for seat in start + seating.left[consumer]..start + seating.rooms[consumer] {
            let next = seating.sets[seating.seats[seat] as usize].minus(reached);
            let mover = Mover { consumer, seat };
            if let Some(end) = move_on(seating, next, Some(mover)) {
                return Reached::Seat { consumer: end };
            }
            reached = reached.and(next);
            waiting = waiting.and(next);
        }
    }
    Reached::Crowd { consumers: reached }
}

/// Notes who would move to these consumers; gives one of them that has a seat left, if any has.
fn move_on(seating: &mut Seating<'_>, next: ConsumerSet, mover: Option<Mover>) -> Option<usize>
    requires seating { IsSeating seating.old }
    requires mover { IfSome mover (Sits seating.old) }
    ensures sets { seating.new.sets ≡ seating.old.sets }
    ensures seats { length seating.new.seats.items ≡ length seating.old.seats.items }
    ensures seating { IsSeating seating.new }
    ensures some { IfSome result (HasSeat seating.new) }
{
    let mut rest = next;
    while let Some(consumer) = rest.first() {
        rest = rest.without(consumer);
        seating.movers[consumer] = mover;
        if 0 < seating.left[consumer] {
            return Some(consumer);
        }
    }
    None
}

/// Moves the entries of the path to a seat that is left at a consumer, each into the seat of the next, and the new one
/// into the first.
fn shift(seating: &mut Seating<'_>, end: usize, entry: usize)
    requires entry { entry < length seating.old.sets.now }
    requires seating { IsSeating seating.old }
    requires end { HasSeat seating.old end }
    ensures sets { seating.new.sets ≡ seating.old.sets }
    ensures seating { IsSeating seating.new }
{
    let mut seat = take_seat(seating, end);
    let mut consumer = end;
    for _ in 0..MAX_CONSUMERS {
        let Some(mover) = seating.movers[consumer] else {
            break;
        };
        let moved = seating.seats[mover.seat] as usize;
        give(seating, seat, moved);
        seat = mover.seat;
        consumer = mover.consumer;
    }
    give(seating, seat, entry);
}
