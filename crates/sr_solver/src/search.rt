ghost use Rattle.std.specs.Prelude.{◌≡◌, ℕ, ◌+◌, ◌<◌, ◌≤◌, ◌↔◌, length, slice_index, slice_set, IfSome, IfNone, None};
ghost use Rattle.std.specs.Prelude.{min, true, false};
ghost use Rattle.sr_transport.specs.{greatest_charge, consumers};
ghost use Rattle.sr_transport.specs.Limits.{most_consumers, greatest_fee};
ghost use Rattle.sr_solver.specs.Limits.{greatest_way, far};
ghost use Rattle.sr_solver.specs.Labels.{unreached, label_at, open_count, guess_count, reach_of, IsFarOrReached};
ghost use Rattle.sr_solver.specs.Placed.{IsStanding};
ghost use Rattle.sr_solver.specs.Cutoff.{length_of, IsBeyond, IsLimit, IsCutoff, IsCut};
ghost use Rattle.sr_solver.specs.Exits.{IsNearMover, HasNoMover};
ghost use Rattle.sr_solver.specs.Sets.{IsWith, IsWithout, AreWaiting};
ghost use Rattle.sr_solver.specs.Pairs.{IsRowOf};
ghost use Rattle.sr_solver.specs.Search.{IsStarted, IsNearest, IsNextOf, AreDoneOf};
ghost use Rattle.sr_solver.specs.Offers.{IsLatest, ComesAfter, IsAsked, MayBeAsked};
ghost use Rattle.sr_solver.specs.Seekers.{IsSeeker, IsTableFor, StandsAt, IsCutoffFor, IsFoundBy, IsFrontAt};
ghost use Rattle.sr_solver.specs.Seekers.{IsFrontBetween, IsExitFrom, IsFrontAfter, IsOfferedTo};

use crate::costs::Costs;
use crate::front::{End, Exit, Front, exit_of, guessed, is_nearer, moved, next_nearer};
use crate::label::{FAR, Label, first_label};
use crate::pairs::Row;
use crate::placement::Placement;
use crate::set::ConsumerSet;
use crate::stepped::Stepped;
use crate::table::{Bound, Table, least_mover, look_over};

/// A search that has made this many offers no longer looks at once for an entry that is not known. Most make fewer.
const PATIENCE: usize = 192;

/// An entry that looks for a place, where those before it have theirs.
#[derive(Drop)]
pub struct Seeker<'a> {
    pub problem: &'a Stepped<'a>,
    /// The number of the entry.
    pub entry: usize,
    /// Where those before it stand.
    pub placement: &'a Placement,
}

/// Looks for the shortest path that makes place for an entry, and gives its end, where there is room left.
///
/// `None` where no path ends at a consumer with room: each consumer that the search reached is full, and closed. Once
/// one with room is reached, paths that are no shorter than the way there with the fee are left out.
pub fn search(seeker: &Seeker<'_>, table: &mut Table, front: &mut Front) -> Option<End>
    requires seeker { IsSeeker seeker.now }
    requires table { IsTableFor seeker.now table.old }
    requires labels { length front.old.labels.items ≡ consumers seeker.now.problem.now.columns }
    ensures table { IsTableFor seeker.now table.new }
    ensures found { IsFoundBy seeker.now front.new.labels.items result }
{
    start(seeker, front);
    while let Some(near) = nearest(front) {
        let label = front.labels[near];
        if label.guess < label.dist {
            settle(seeker, near, table, front);
        } else {
            close(seeker, near, table, front);
        }
    }
    front.cutoff
}

/// Forgets the last search, and offers the new entry to each consumer.
fn start(seeker: &Seeker<'_>, front: &mut Front)
    requires seeker { IsSeeker seeker.now }
    requires labels { length front.old.labels.items ≡ consumers seeker.now.problem.now.columns }
    ensures started { IsStarted seeker.now.problem.now.columns seeker.now.entry
        seeker.now.placement.now.prices.items front.new.labels.items }
    ensures waiting { AreWaiting (consumers seeker.now.problem.now.columns) None
        front.new.labels.items front.new.waiting }
    ensures cutoff { IsCutoffFor seeker.now front.new.labels.items front.new.cutoff }
{
    let (problem, placement) = (seeker.problem, seeker.placement);
    front.patience = patience(&problem.columns);
    if let Some(row) = problem.columns.row(seeker.entry) {
        let cutoff = start_in_row(problem, row, placement, front);
        front.cutoff = cutoff;
        return;
    }
    let cutoff = first_labels(problem, seeker.entry, placement, &mut front.labels);
    front.waiting = reached(&front.labels);
    front.cutoff = cutoff;
}

/// After how many offers a search guesses. If few pairs are allowed it never does: few entries are looked for then, and
/// each in little time.
fn patience(problem: &Costs<'_>) -> usize {
    if problem.is_sparse() {
        usize::MAX
    } else {
        PATIENCE
    }
}

/// Labels each consumer as the new entry itself reaches it; gives the first cutoff.
fn first_labels(
    problem: &Stepped<'_>,
    entry: usize,
    placement: &Placement,
    labels: &mut [Label],
) -> Option<End>
    requires entry { entry < problem.now.columns.entries }
    requires standing { IsStanding problem.now.columns problem.now.steps.now entry placement.now }
    requires labels_each { length labels.old ≡ consumers problem.now.columns }
    ensures started { IsStarted problem.now.columns entry placement.now.prices.items labels.new }
    ensures cutoff { IsCutoff problem.now.columns problem.now.steps.now placement.now.assign.items
        placement.now.prices.items labels.new (consumers problem.now.columns) result }
{
    let (prices, loads) = (placement.prices.as_slice(), placement.loads.as_slice());
    let mut cutoff = None;
    for (consumer, cost) in problem.columns.costs(entry).iter().enumerate() {
        let label = first_label(*cost, prices[consumer], entry);
        labels[consumer] = label;
        let gap = problem.gap(consumer, loads[consumer], prices[consumer]);
        cutoff = cut(consumer, label, gap, cutoff);
    }
    cutoff
}

/// The same as `start` for an entry of which the allowed consumers are known.
fn start_in_row(
    problem: &Stepped<'_>,
    row: Row<'_>,
    placement: &Placement,
    front: &mut Front,
) -> Option<End>
    requires entry { row.number < problem.now.columns.entries }
    requires row { IsRowOf problem.now.columns row.number row.pairs.now }
    requires standing { IsStanding problem.now.columns problem.now.steps.now row.number placement.now }
    requires labels_each { length front.old.labels.items ≡ consumers problem.now.columns }
    ensures started { IsStarted problem.now.columns row.entry.number placement.now.prices.items
        front.new.labels.items }
    ensures waiting { AreWaiting (consumers problem.now.columns) None
        front.new.labels.items front.new.waiting }
    ensures cutoff { IsCutoff problem.now.columns problem.now.steps.now placement.now.assign.items
        placement.now.prices.items front.new.labels.items (consumers problem.now.columns) result }
{
    let (prices, loads) = (placement.prices.as_slice(), placement.loads.as_slice());
    forget(&mut front.labels);
    front.waiting = ConsumerSet::none();
    let mut cutoff = None;
    for pair in row.pairs {
        let consumer = pair.consumer;
        let label = first_label(Some(pair.cost), prices[consumer], row.number);
        front.labels[consumer] = label;
        front.waiting = front.waiting.with(consumer);
        let gap = problem.gap(consumer, loads[consumer], prices[consumer]);
        cutoff = cut(consumer, label, gap, cutoff);
    }
    cutoff
}

/// Takes the labels of all consumers away.
fn forget(labels: &mut [Label])
    ensures length { length labels.new ≡ length labels.old }
    ensures none { (c : ℕ) → c < length labels.old → label_at labels.new c ≡ unreached }
{
    for consumer in 0..labels.len() {
        labels[consumer] = Label::none();
    }
}

/// The consumers that are reached, where none is closed.
fn reached(labels: &[Label]) -> ConsumerSet
    requires few { length labels.now ≤ most_consumers }
    requires opened { (c : ℕ) → c < length labels.now → (label_at labels.now c).closed ≡ false }
    requires no_guess { (c : ℕ) → c < length labels.now → (label_at labels.now c).guess ≡ far }
    ensures { AreWaiting (length labels.now) None labels.now result }
{
    let mut waiting = ConsumerSet::none();
    for consumer in 0..labels.len() {
        if 0 < labels[consumer].hops {
            waiting = waiting.with(consumer);
        }
    }
    waiting
}

/// The cutoff once a consumer has this label: it falls to the way there with the gap from the price to the fee of the
/// next place, if that is less, and there is a next place.
fn cut(consumer: usize, label: Label, gap: Option<u64>, cutoff: Option<End>) -> Option<End>
    requires label { 0 < label.hops → label.dist ≤ greatest_way }
    requires gap { IfSome gap (λ gap. gap ≤ greatest_fee) }
    ensures { IsCut consumer label gap cutoff result }
{
    if label.hops == 0 {
        return cutoff;
    }
    let Some(gap) = gap else {
        return cutoff;
    };
    let dist = label.dist + gap;
    if let Some(end) = cutoff
        && end.dist <= dist
    {
        return cutoff;
    }
    Some(End { consumer, dist })
}

/// The length of the path that the cutoff is, if there is one.
fn dist_of(cutoff: Option<End>) -> Option<u64>
    ensures { result ≡ length_of cutoff }
{
    let Some(end) = cutoff else {
        return None;
    };
    Some(end.dist)
}

/// The length from which on ways are no shorter than the cutoff, or `FAR` if there is none.
fn limit(cutoff: Option<End>) -> u64
    ensures { IsLimit (length_of cutoff) result }
{
    let Some(end) = cutoff else {
        return FAR;
    };
    end.dist
}

/// The nearest of the consumers that wait, by its label or by what is guessed, if it is nearer than the cutoff. Those
/// that are not wait no longer.
fn nearest(front: &mut Front) -> Option<usize>
    requires few { length front.old.labels.items ≤ most_consumers }
    requires marked { (c : ℕ) → c < length front.old.labels.items
        → IsFarOrReached (label_at front.old.labels.items c) }
    requires hints { (c : ℕ) → c < length front.old.labels.items
        → (label_at front.old.labels.items c).guess ≤ far }
    requires cutoff { IfSome (length_of front.old.cutoff) (λ dist. dist ≤ greatest_way) }
    requires waiting { AreWaiting (length front.old.labels.items) (length_of front.old.cutoff)
        front.old.labels.items front.old.waiting }
    ensures labels { front.new.labels ≡ front.old.labels }
    ensures cutoff { front.new.cutoff ≡ front.old.cutoff }
    ensures waiting { AreWaiting (length front.old.labels.items) (length_of front.old.cutoff)
        front.old.labels.items front.new.waiting }
    ensures some { IfSome result (λ near.
        IsNextOf (length front.old.labels.items) front.old.labels.items near
        × (IsBeyond (length_of front.old.cutoff) 0 (reach_of (label_at front.old.labels.items near)) → ⊥)) }
    ensures none { IfNone result
        (AreDoneOf (length front.old.labels.items) (length_of front.old.cutoff) front.old.labels.items) }
{
    let limit = limit(front.cutoff);
    let mut rest = front.waiting;
    let mut best = None;
    let mut least = limit;
    while let Some(consumer) = rest.first() {
        rest = rest.without(consumer);
        let reach = front.labels[consumer].reach();
        if limit <= reach {
            front.waiting = front.waiting.without(consumer);
        }
        if reach < least {
            best = Some(consumer);
            least = reach;
        }
    }
    best
}

/// Closes a consumer: offers the entries that stand there to the others.
fn close(seeker: &Seeker<'_>, near: usize, table: &mut Table, front: &mut Front)
    requires seeker { IsSeeker seeker.now }
    requires table { IsTableFor seeker.now table.old }
    requires front { IsFrontBetween seeker.now front.old }
    requires nearest { IsNearest seeker.now.problem.now.columns front.old.labels.items near }
    requires nearer { IsBeyond (length_of front.old.cutoff) 0 (label_at front.old.labels.items near).dist → ⊥ }
    ensures table { IsTableFor seeker.now table.new }
    ensures front { IsFrontBetween seeker.now front.new }
    ensures fewer { open_count front.new.labels.items < open_count front.old.labels.items }
{
    let (problem, placement) = (seeker.problem, seeker.placement);
    look_over(&problem.columns, near, placement, table);
    let label = front.labels[near];
    front.labels[near] = Label {
        closed: true,
        ..label
    };
    front.waiting = front.waiting.without(near);
    let price = placement.prices[near];
    let exit = exit_of(near, label.dist, price, dist_of(front.cutoff));
    ask_end(seeker, exit, table, front);
    let mut exit = exit_of(near, label.dist, price, dist_of(front.cutoff));
    let mut first = 0;
    while let Some(other) = next_nearer(
        exit,
        first,
        &table.pairs,
        &placement.prices,
        &front.labels,
    ) {
        offer(seeker, exit, other, table, front);
        exit = exit_of(near, label.dist, price, dist_of(front.cutoff));
        first = other + 1;
    }
}

/// Offers the entries that leave to the consumer `other`. After many offers in this search, if the one that leaves for
/// the least more is not known, it is looked for only if a path may end there, and else a guess is noted.
fn offer(seeker: &Seeker<'_>, exit: Exit, other: usize, table: &mut Table, front: &mut Front)
    requires seeker { IsSeeker seeker.now }
    requires other { other < consumers seeker.now.problem.now.columns }
    requires table { IsTableFor seeker.now table.old }
    requires front { IsFrontAt seeker.now exit.consumer 0 front.old }
    requires exit { IsExitFrom seeker.now front.old exit }
    requires is_open { (label_at front.old.labels.items other).closed ≡ false }
    requires latest { IsLatest seeker.now.problem.now.columns front.old.labels.items exit.consumer }
    ensures table { IsTableFor seeker.now table.new }
    ensures front { IsFrontAfter seeker.now front.old front.new }
    ensures offered { IsOfferedTo seeker.now front.old front.new exit.consumer other }
{
    if front.patience != 0 {
        front.patience -= 1;
        ask(seeker, exit, other, table, front);
        return;
    }
    let columns = &seeker.problem.columns;
    let bound = table.pairs[exit.consumer * columns.consumers() + other];
    let is_full = columns.room(other) <= seeker.placement.loads[other];
    if columns.entries() <= bound.best && is_full {
        let dist = guessed(exit, bound.low, seeker.placement.prices[other]);
        guess(other, dist, front);
        return;
    }
    ask(seeker, exit, other, table, front);
}

/// Notes that an entry that was not looked for comes no nearer to a consumer than this.
fn guess(consumer: usize, dist: u64, front: &mut Front)
    requires consumer { consumer < length front.old.labels.items }
    requires few { length front.old.labels.items ≤ most_consumers }
    ensures labels { front.new.labels.items ≡ slice_set front.old.labels.items consumer
        (record (label_at front.old.labels.items consumer)
        { guess = min (label_at front.old.labels.items consumer).guess dist }) }
    ensures waiting { IsWith consumer front.old.waiting front.new.waiting }
    ensures cutoff { front.new.cutoff ≡ front.old.cutoff }
{
    let label = front.labels[consumer];
    front.labels[consumer] = Label {
        guess: label.guess.min(dist),
        ..label
    };
    front.waiting = front.waiting.with(consumer);
}

/// Looks for the entries of which something is guessed at a consumer: those at each closed one are offered to it.
fn settle(seeker: &Seeker<'_>, near: usize, table: &mut Table, front: &mut Front)
    requires seeker { IsSeeker seeker.now }
    requires table { IsTableFor seeker.now table.old }
    requires front { IsFrontBetween seeker.now front.old }
    requires near { near < consumers seeker.now.problem.now.columns }
    requires is_open { (label_at front.old.labels.items near).closed ≡ false }
    requires guess { (label_at front.old.labels.items near).guess < far }
    ensures table { IsTableFor seeker.now table.new }
    ensures front { IsFrontBetween seeker.now front.new }
    ensures opened { open_count front.new.labels.items ≡ open_count front.old.labels.items }
    ensures fewer { guess_count front.new.labels.items < guess_count front.old.labels.items }
{
    for from in 0..seeker.problem.columns.consumers() {
        if !front.labels[from].closed {
            continue;
        }
        let dist = front.labels[from].dist;
        let price = seeker.placement.prices[from];
        let exit = exit_of(from, dist, price, dist_of(front.cutoff));
        ask(seeker, exit, near, table, front);
    }
    forget_guess(near, front);
}

/// Forgets what was guessed of a consumer. If it is not reached either, it waits no longer.
fn forget_guess(consumer: usize, front: &mut Front)
    requires consumer { consumer < length front.old.labels.items }
    requires few { length front.old.labels.items ≤ most_consumers }
    ensures labels { front.new.labels.items ≡ slice_set front.old.labels.items consumer
        (record (label_at front.old.labels.items consumer) { guess = far }) }
    ensures reached { 0 < (label_at front.old.labels.items consumer).hops → front.new.waiting ≡ front.old.waiting }
    ensures unreached { (label_at front.old.labels.items consumer).hops ≡ 0
        → IsWithout consumer front.old.waiting front.new.waiting }
    ensures cutoff { front.new.cutoff ≡ front.old.cutoff }
{
    let label = front.labels[consumer];
    front.labels[consumer] = Label {
        guess: FAR,
        ..label
    };
    if label.hops == 0 {
        front.waiting = front.waiting.without(consumer);
    }
}

/// Offers to the consumer where the cutoff ends the entry that leaves for the least more there: so the cutoff falls
/// first, and fewer others are of use.
fn ask_end(seeker: &Seeker<'_>, exit: Exit, table: &mut Table, front: &mut Front)
    requires seeker { IsSeeker seeker.now }
    requires table { IsTableFor seeker.now table.old }
    requires front { IsFrontAt seeker.now exit.consumer 0 front.old }
    requires exit { IsExitFrom seeker.now front.old exit }
    requires latest { IsLatest seeker.now.problem.now.columns front.old.labels.items exit.consumer }
    ensures table { IsTableFor seeker.now table.new }
    ensures front { IsFrontAfter seeker.now front.old front.new }
    ensures asked { MayBeAsked seeker.now.problem.now.columns seeker.now.entry
        seeker.now.placement.now.assign.items seeker.now.placement.now.prices.items
        (length_of front.old.cutoff) exit.consumer front.old.labels.items front.new.labels.items }
{
    if let Some(end) = front.cutoff {
        ask(seeker, exit, end.consumer, table, front);
    }
}

/// Offers to the consumer `other` the entry that leaves for the least more there, if it comes nearer.
fn ask(seeker: &Seeker<'_>, exit: Exit, other: usize, table: &mut Table, front: &mut Front)
    requires seeker { IsSeeker seeker.now }
    requires other { other < consumers seeker.now.problem.now.columns }
    requires table { IsTableFor seeker.now table.old }
    requires front { IsFrontAt seeker.now exit.consumer 0 front.old }
    requires exit { IsExitFrom seeker.now front.old exit }
    requires after { ComesAfter seeker.now.problem.now.columns seeker.now.entry
        seeker.now.placement.now.assign.items seeker.now.placement.now.prices.items
        front.old.labels.items exit.consumer other }
    ensures table { IsTableFor seeker.now table.new }
    ensures front { IsFrontAfter seeker.now front.old front.new }
    ensures asked { IsAsked seeker.now.problem.now.columns seeker.now.entry
        seeker.now.placement.now.assign.items seeker.now.placement.now.prices.items
        (length_of front.old.cutoff) exit.consumer other front.old.labels.items front.new.labels.items }
{
    let problem = seeker.problem;
    let (prices, loads) = (
        seeker.placement.prices.as_slice(),
        seeker.placement.loads.as_slice(),
    );
    let label = front.labels[other];
    let Some(known) = mover(seeker, exit, other, label, table) else {
        return;
    };
    let hops = front.labels[exit.consumer].hops;
    let label = moved(exit, known, prices[other], hops, label.guess);
    front.labels[other] = label;
    front.waiting = front.waiting.with(other);
    let gap = problem.gap(other, loads[other], prices[other]);
    front.cutoff = cut(other, label, gap, front.cutoff);
}

/// The entry that leaves for the least more at the consumer `other`, with its bound, if it comes nearer there.
fn mover(
    seeker: &Seeker<'_>,
    exit: Exit,
    other: usize,
    label: Label,
    table: &mut Table,
) -> Option<Bound>
    requires seeker { IsSeeker seeker.now }
    requires near { exit.consumer < consumers seeker.now.problem.now.columns }
    requires other { other < consumers seeker.now.problem.now.columns }
    requires table { IsTableFor seeker.now table.old }
    requires dist { exit.dist ≤ greatest_way }
    requires base { exit.base ≤ greatest_way + greatest_charge }
    requires label { label.dist ≤ far }
    ensures table { IsTableFor seeker.now table.new }
    ensures some { IfSome result (IsNearMover seeker.now.problem.now.columns (StandsAt seeker.now exit.consumer)
        exit other (slice_index seeker.now.placement.now.prices.items other) label) }
    ensures none { IfNone result (HasNoMover seeker.now.problem.now.columns (StandsAt seeker.now exit.consumer)
        exit other (slice_index seeker.now.placement.now.prices.items other) label) }
{
    let (columns, placement) = (&seeker.problem.columns, seeker.placement);
    let price = placement.prices[other];
    let bound = table.pairs[exit.consumer * columns.consumers() + other];
    if !is_nearer(exit, bound.low, price, label) {
        return None;
    }
    let known = least_mover(columns, exit.consumer, other, placement, table)?;
    if is_nearer(exit, known.low, price, label) {
        Some(known)
    } else {
        None
    }
}
