ghost use Rattle.std.specs.Prelude.{◌≡◌, ◌+◌, ◌^◌, ◌<◌, ◌≤◌, IfOk, length, map, filter};
ghost use Rattle.sr_entries.specs.{last_id_or};
ghost use Rattle.sr_group.specs.Delivery.{raised};
ghost use Rattle.sr_group.specs.steps.Showing as steps;

use crate::Group;
use crate::consumers::make_place;
use crate::shown::{Act, Listed, Shown};
use sr_bytes::Name;
use sr_entries::{Entries, Span};
use sr_ids::Id;
use sr_pending::{Nack, Nacks, Owner, Pending};
use std::alloc::{AllocError, Global};

impl Group {
    ghost use Rattle.std.specs.Prelude.{◌≡◌, ◌^◌, ◌<◌, IfOk, OnOk, map};
    ghost use Rattle.std.specs.List.{All};
    ghost use Rattle.sr_pending.specs.Pending.{KeepsRooms};
    ghost use Rattle.sr_group.specs.Delivery.{after_delivery, after_history, found_entry, history_of, listed_in};
    ghost use Rattle.sr_group.specs.Delivery.{new_entries};
    ghost use Rattle.sr_group.specs.Shown.{HasRoomFor, after_showing, listed_of};
    ghost use Rattle.sr_group.specs.steps.Showing.{IsActOf};

    /// The entries that are delivered next to a reader, at most `count` of them: those above the last delivered id.
    ///
    /// `moment` is that of the call, in milliseconds since 1970. With `noack` they need no acknowledgement, and no
    /// pending entry changes.
    ///
    /// Source: Redis documentation, command XREADGROUP, the special ID `>`.
    pub fn deliver(
        &mut self,
        alloc: Global,
        reader: &Name,
        moment: u64,
        entries: &Entries,
        count: Option<u64>,
        noack: bool,
    ) -> Result<Shown, AllocError>
        requires { moment < 2 ^ 63 }
        ensures shown { self.new.shown ≡ self.old.shown }
        ensures effect { IfOk result (λ shown. after_showing shown self.old.shown
            ≡ after_delivery reader.now moment noack (new_entries self.old.shown.last count entries.now.entries)
            self.old.shown) }
        ensures listed { IfOk result (λ shown. listed_of shown.acts
            ≡ map found_entry (new_entries self.old.shown.last count entries.now.entries)) }
        ensures room { IfOk result (λ shown. HasRoomFor shown self.new) }
        ensures kept { OnOk result (KeepsRooms self.old.rooms self.new.rooms) }
    {
        let unread = entries.above(self.last).at_front(count);
        let last = last_of(entries.above(self.last).at_front(count), self.last);
        let acts = acts_of(alloc, &self.pending, reader, moment, unread, noack)?;
        self.prepare(alloc, reader, moment, last, acts)
    }

    /// The reader's own pending entries above an id, at most `count` of them, which are then delivered to it once more
    /// if the stream still has them.
    ///
    /// Source: Redis documentation, command XREADGROUP, "any other ID".
    pub fn history(
        &mut self,
        alloc: Global,
        reader: &Name,
        after: Id,
        count: Option<u64>,
        moment: u64,
        entries: &Entries,
    ) -> Result<Shown, AllocError>
        requires { moment < 2 ^ 63 }
        ensures shown { self.new.shown ≡ self.old.shown }
        ensures effect { IfOk result (λ shown. after_showing shown self.old.shown
            ≡ after_history reader.now moment entries.now.entries
            (history_of reader.now after count self.old.shown.nacks) self.old.shown) }
        ensures listed { IfOk result (λ shown. listed_of shown.acts
            ≡ map (listed_in entries.now.entries) (history_of reader.now after count self.old.shown.nacks)) }
        ensures room { IfOk result (λ shown. HasRoomFor shown self.new) }
        ensures kept { OnOk result (KeepsRooms self.old.rooms self.new.rooms) }
    {
        let last = self.last;
        let history = self.pending.above(after, count, Some(reader));
        let acts = shown_again(alloc, moment, entries, history)?;
        self.prepare(alloc, reader, moment, last, acts)
    }

    /// Makes room for what a consumer's call does, and answers what it shows.
    pub(crate) fn prepare(
        &mut self,
        alloc: Global,
        consumer: &Name,
        moment: u64,
        last: Id,
        acts: Vec<Act>,
    ) -> Result<Shown, AllocError>
        requires moment { moment < 2 ^ 63 }
        requires acts { All (IsActOf consumer.now) acts.items }
        ensures shown { self.new.shown ≡ self.old.shown }
        ensures value { IfOk result (λ shown. shown
            ≡ record { consumer = consumer.now; moment = moment; last = last; acts = acts.items }) }
        ensures room { IfOk result (λ shown. HasRoomFor shown self.new) }
        ensures kept { OnOk result (KeepsRooms self.old.rooms self.new.rooms) }
    {
        let name = consumer.copy(alloc)?;
        self.pending
            .reserve(alloc, consumer, count_gifts(acts.as_slice()))?;
        make_place(&mut self.consumers, consumer)?;
        Ok(Shown {
            consumer: name,
            moment,
            last,
            acts,
        })
    }
}

/// How many entries become the consumer's.
fn count_gifts(acts: &[Act]) -> usize
    ensures { result ≡ length (filter steps.is_gift acts.now) }
{
    acts.iter().filter(|act| is_gift(act)).count()
}

/// Whether an entry becomes the consumer's.
fn is_gift(act: &Act) -> bool
    ensures { result ≡ steps.is_gift act.now }
{
    match act {
        Act::Give(_) => true,
        Act::Touch { .. } | Act::Forget(_) | Act::Only(_) => false,
    }
}

/// The id of the last of these entries, or `last` if there is none.
fn last_of(mut unread: Span<'_>, last: Id) -> Id
    ensures { result ≡ last_id_or last unread.entry }
{
    match unread.next_back() {
        Some(entry) => entry.id(),
        None => last,
    }
}

/// What is done to entries that are delivered: with `noack` they are listed alone.
fn acts_of(
    alloc: Global,
    pending: &Pending,
    reader: &Name,
    moment: u64,
    unread: Span<'_>,
    noack: bool,
) -> Result<Vec<Act>, AllocError>
    ensures { IfOk result (λ acts. acts.items ≡ map (steps.delivery_of reader.now moment noack) unread.entry) }
{
    if unread.len() == 0 {
        return Ok(Vec::new(alloc));
    }
    let owner = pending.owner(alloc, reader)?;
    let mut rest = unread;
    let mut acts = Vec::with_capacity(alloc, rest.len())?;
    while let Some(entry) = rest.next() {
        acts.push(act_of(&owner, moment, entry.id(), noack)?)?;
    }
    Ok(acts)
}

/// What is done to an entry that is delivered.
fn act_of(reader: &Owner, moment: u64, id: Id, noack: bool) -> Result<Act, AllocError>
    ensures { IfOk result (λ act. act ≡ steps.delivery_act reader.now moment noack id) }
{
    if noack {
        return Ok(Act::Only(Listed { id, found: true }));
    }
    let owner = reader.copy()?;
    Ok(Act::Give(Nack {
        id,
        owner,
        time: moment,
        count: 1,
    }))
}

/// What is done to pending entries that are shown to their owner.
fn shown_again(
    alloc: Global,
    moment: u64,
    entries: &Entries,
    history: Nacks<'_>,
) -> Result<Vec<Act>, AllocError>
    ensures { IfOk result (λ acts. acts.items ≡ map (steps.again moment entries.now.entries) history.entry) }
{
    let mut rest = history;
    let mut acts = Vec::new(alloc);
    while let Some(nack) = rest.next() {
        acts.push(again(moment, entries, nack))?;
    }
    Ok(acts)
}

/// What is done to a pending entry that is shown to its owner.
fn again(moment: u64, entries: &Entries, nack: &Nack) -> Act
    ensures { result ≡ steps.again moment entries.now.entries nack.now }
{
    match entries.get(nack.id) {
        Some(_entry) => Act::Touch {
            id: nack.id,
            time: moment,
            count: one_more(nack.count),
        },
        None => Act::Only(Listed {
            id: nack.id,
            found: false,
        }),
    }
}

/// One more delivery, but never more than the greatest number of 63 bits.
pub(crate) fn one_more(count: u64) -> u64
    ensures { result ≡ raised count }
{
    count.saturating_add(1).min(0x7fff_ffff_ffff_ffff)
}
