ghost use Rattle.std.specs.Prelude.{◌≡◌, ◌^◌, ◌<◌, false, None, Some, [], IfOk, IfSome, OnOk, OnErr, option_map};
ghost use Rattle.std.specs.List.{All};
ghost use Rattle.sr_entries.specs.{has_id};
ghost use Rattle.sr_ids.specs.declared.id.Id as ids;
ghost use Rattle.sr_ids.specs.{is_below};
ghost use Rattle.sr_pending.specs.{IsCountable, nack_with};
ghost use Rattle.sr_group.specs.Claim.{after_claim, count_given, fate_of, listed_claim, time_given};
ghost use Rattle.sr_group.specs.Shown.{after_acts, listed_of};
ghost use Rattle.sr_group.specs.steps.Judging.{IsJudged, IsUpTo, Judges, act_judged, act_with, delivered};
ghost use Rattle.sr_group.specs.steps.Judging.{delivery_after, delivery_of};
ghost use Rattle.sr_group.specs.steps.Showing.{IsActOf};

use crate::Group;
use crate::deliver::one_more;
use crate::scan::{Looked, look};
use crate::shown::{Act, Scan, Shown};
use sr_bytes::Name;
use sr_entries::Entries;
use sr_ids::Id;
use sr_pending::{Nack, Owner, Pending};
use std::alloc::{AllocError, Global};

/// When a claimed entry counts as delivered.
///
/// Source: Redis documentation, command XCLAIM, "IDLE" and "TIME".
#[derive(Clone, Copy)]
pub enum ClaimTime {
    /// At the moment of the claim.
    Now,
    /// So many milliseconds before it, but not before 0.
    Idle(u64),
    /// At this moment, but not after that of the claim.
    At(u64),
}

/// How entries are claimed.
///
/// Source: Redis documentation, commands XCLAIM and XAUTOCLAIM.
#[derive(Clone, Copy)]
pub struct Claim {
    /// For how many milliseconds an entry was not delivered, if it is to be claimed.
    pub least_idle: u64,
    /// When it then counts as delivered.
    pub time: ClaimTime,
    /// RETRYCOUNT: how many times it then counts as delivered.
    pub count: Option<u64>,
    /// JUSTID: only ids are asked for, and no entry is delivered once more.
    pub just_ids: bool,
}

/// A claim as it is called: by whom, when, and what the stream has.
#[derive(Drop)]
pub(crate) struct Call<'a> {
    pub(crate) claim: Claim,
    pub(crate) claimer: &'a Name,
    pub(crate) moment: u64,
    pub(crate) entries: &'a Entries,
}

/// When a pending entry was delivered last, and how many times it was delivered.
#[derive(Clone, Copy)]
pub(crate) struct Delivery {
    pub(crate) time: u64,
    pub(crate) count: u64,
}

/// What becomes of a pending entry that a call names.
#[derive(Clone, Copy)]
pub(crate) enum Weighed {
    /// Nothing: it was not idle for long enough.
    Stays,
    /// It is pending no longer, since the stream has it no longer.
    Leaves,
    /// It is the claimer's, delivered so.
    Moves(Delivery),
}

/// When a claimed entry counts as delivered, if it is claimed at the moment.
fn time_given(moment: u64, time: ClaimTime) -> u64
    requires { moment < 2 ^ 63 }
    ensures value { result ≡ time_given moment time }
    ensures bound { result < 2 ^ 63 }
{
    match time {
        ClaimTime::Now => moment,
        ClaimTime::Idle(idle) => moment.saturating_sub(idle),
        ClaimTime::At(time) => time.min(moment),
    }
}

/// How many times a claimed entry counts as delivered, after `old` times.
fn count_given(claim: &Claim, old: u64) -> u64
    requires count { IfSome claim.now.count (λ count. count < 2 ^ 63) }
    requires old { old < 2 ^ 63 }
    ensures value { result ≡ count_given claim.now.count claim.now.just_ids old }
    ensures bound { result < 2 ^ 63 }
{
    match claim.count {
        Some(count) => count,
        None => { if claim.just_ids { old } else { one_more(old) } }
    }
}

/// Whether the stream has the entry with this id.
pub(crate) fn is_there(entries: &Entries, id: Id) -> bool
    ensures { result ≡ has_id id entries.now.entries }
{
    match entries.get(id) {
        Some(_entry) => true,
        None => false,
    }
}

/// What becomes of a pending entry that was delivered so.
pub(crate) fn weigh(call: &Call<'_>, id: Id, delivery: Delivery) -> Weighed
    requires moment { call.now.moment < 2 ^ 63 }
    requires count { IfSome call.now.claim.count (λ count. count < 2 ^ 63) }
    requires old { delivery.count < 2 ^ 63 }
    ensures act { act_judged call.now.claimer.now id result ≡ act_with (fate_of
        call.now.claim call.now.claimer.now call.now.moment call.now.entries.now.entries (delivered id delivery)) id }
    ensures own { IfSome (act_judged call.now.claimer.now id result) (IsActOf call.now.claimer.now) }
{
    if !is_there(call.entries, id) {
        return Weighed::Leaves;
    }
    if call.moment.saturating_sub(delivery.time) < call.claim.least_idle {
        return Weighed::Stays;
    }
    Weighed::Moves(Delivery {
        time: time_given(call.moment, call.claim.time),
        count: count_given(&call.claim, delivery.count),
    })
}

/// What the call does to a pending entry that was delivered so, if it does anything.
fn judge(
    call: &Call<'_>,
    claimer: &Owner,
    id: Id,
    delivery: Delivery,
) -> Result<Option<Act>, AllocError>
    requires same { claimer.now ≡ call.now.claimer.now }
    requires moment { call.now.moment < 2 ^ 63 }
    requires count { IfSome call.now.claim.count (λ count. count < 2 ^ 63) }
    requires old { delivery.count < 2 ^ 63 }
    ensures act { IfOk result (λ act. act ≡ act_with (fate_of
        call.now.claim call.now.claimer.now call.now.moment call.now.entries.now.entries (delivered id delivery)) id) }
    ensures own { IfOk result (λ act. IfSome act (IsActOf call.now.claimer.now)) }
{
    match weigh(call, id, delivery) {
        Weighed::Stays => Ok(None),
        Weighed::Leaves => Ok(Some(Act::Forget(id))),
        Weighed::Moves(Delivery { time, count }) => {
            let owner = claimer.copy()?;
            Ok(Some(Act::Give(Nack {
                id,
                owner,
                time,
                count,
            })))
        }
    }
}

/// The delivery of the entry with this id after an act, if it was delivered so before and still is pending.
fn delivery_after(act: &Act, id: Id, before: Option<Delivery>) -> Option<Delivery>
    ensures { result ≡ delivery_after act.now id before }
{
    match act {
        Act::Give(nack) => {
            if id == nack.id {
                return Some(Delivery {
                    time: nack.time,
                    count: nack.count,
                });
            }
        }
        Act::Touch {
            id: other,
            time,
            count,
        } => {
            if id == *other && before.is_some() {
                return Some(Delivery {
                    time: *time,
                    count: *count,
                });
            }
        }
        Act::Forget(other) => {
            if id == *other {
                return None;
            }
        }
        Act::Only(_) => {}
    }
    before
}

/// The delivery of the pending entry with this id.
pub(crate) fn first_delivery(pending: &Pending, id: Id) -> Option<Delivery>
    ensures { result ≡ option_map delivery_of (nack_with id pending.now.nacks) }
{
    let nack = pending.get(id)?;
    Some(Delivery {
        time: nack.time,
        count: nack.count,
    })
}

/// The delivery of the entry with this id, if it is pending after the acts, which are of ids up to `greatest`. Ids that
/// rise, as those of a scan do, are not looked for among the acts.
fn delivery_now(acts: &[Act], greatest: Id, pending: &Pending, id: Id) -> Option<Delivery>
    requires { All (IsUpTo greatest) acts.now }
    ensures { result ≡ option_map delivery_of (nack_with id (after_acts acts.now pending.now.nacks)) }
{
    if greatest < id {
        return first_delivery(pending, id);
    }
    delivery_after_all(acts, pending, id)
}

/// The delivery of the entry with this id, if it is pending after the acts, one of which may be of this id.
fn delivery_after_all(acts: &[Act], pending: &Pending, id: Id) -> Option<Delivery>
    ensures { result ≡ option_map delivery_of (nack_with id (after_acts acts.now pending.now.nacks)) }
{
    let mut delivery = first_delivery(pending, id);
    for act in acts {
        delivery = delivery_after(act, id, delivery);
    }
    delivery
}

/// The greater of two ids.
fn greater(a: Id, b: Id) -> Id
    ensures first { is_below result a ≡ false }
    ensures second { is_below result b ≡ false }
{
    if a < b { b } else { a }
}

/// Judges one more id, as the acts so far leave the pending entries. They are of ids up to `greatest`.
fn judge_next(
    call: &Call<'_>,
    claimer: &Owner,
    pending: &Pending,
    acts: &mut Vec<Act>,
    greatest: Id,
    id: Id,
) -> Result<(), AllocError>
    requires same { claimer.now ≡ call.now.claimer.now }
    requires moment { call.now.moment < 2 ^ 63 }
    requires count { IfSome call.now.claim.count (λ count. count < 2 ^ 63) }
    requires own { All (IsActOf call.now.claimer.now) acts.old.items }
    requires up_to { All (IsUpTo greatest) acts.old.items }
    ensures judged { OnOk result (Judges
        call.now.claim call.now.claimer.now call.now.moment call.now.entries.now.entries
        pending.now.nacks id acts.old.items acts.new.items) }
    ensures up_to { OnOk result ((most : ids.Id) → is_below most greatest ≡ false → is_below most id ≡ false
        → All (IsUpTo most) acts.new.items) }
{
    pending.sound();
    let Some(delivery) = delivery_now(acts.as_slice(), greatest, pending, id) else {
        return Ok(());
    };
    let Some(act) = judge(call, claimer, id, delivery)? else {
        return Ok(());
    };
    acts.push(act)?;
    Ok(())
}

/// What a claim of these ids does, which are judged one after the other.
fn judge_all(
    alloc: Global,
    call: &Call<'_>,
    pending: &Pending,
    ids: &[Id],
) -> Result<Vec<Act>, AllocError>
    requires moment { call.now.moment < 2 ^ 63 }
    requires count { IfSome call.now.claim.count (λ count. count < 2 ^ 63) }
    ensures { IfOk result (λ acts. IsJudged
        call.now.claim call.now.claimer.now call.now.moment call.now.entries.now.entries
        pending.now.nacks ids.now [] acts.items) }
{
    let claimer = pending.owner(alloc, call.claimer)?;
    let mut acts = Vec::new(alloc);
    let mut greatest = Id { ms: 0, seq: 0 };
    for id in ids {
        judge_next(call, &claimer, pending, &mut acts, greatest, *id)?;
        greatest = greater(greatest, *id);
    }
    Ok(acts)
}

impl Group {
    ghost use Rattle.std.specs.Prelude.{◌≡◌, ◌^◌, ◌<◌, IfOk, IfSome, OnOk, length, map};
    ghost use Rattle.sr_pending.specs.Pending.{KeepsRooms};
    ghost use Rattle.sr_group.specs.Claim.{group_after_claim, id_behind, listed_claim, pending_from, scanned};
    ghost use Rattle.sr_group.specs.Shown.{HasRoomFor, after_showing, listed_of};

    /// The entries with these ids become the claimer's, as `claim` says.
    ///
    /// Source: Redis documentation, command XCLAIM.
    pub fn claim(
        &mut self,
        alloc: Global,
        claimer: &Name,
        ids: &[Id],
        claim: Claim,
        moment: u64,
        entries: &Entries,
    ) -> Result<Shown, AllocError>
        requires moment { moment < 2 ^ 63 }
        requires count { IfSome claim.count (λ count. count < 2 ^ 63) }
        ensures shown { self.new.shown ≡ self.old.shown }
        ensures effect { IfOk result (λ shown. after_showing shown self.old.shown
            ≡ group_after_claim claim claimer.now moment entries.now.entries ids.now self.old.shown) }
        ensures listed { IfOk result (λ shown. listed_of shown.acts
            ≡ listed_claim claim claimer.now moment entries.now.entries ids.now self.old.shown.nacks) }
        ensures room { IfOk result (λ shown. HasRoomFor shown self.new) }
        ensures kept { OnOk result (KeepsRooms self.old.rooms self.new.rooms) }
    {
        let call = Call {
            claim,
            claimer,
            moment,
            entries,
        };
        let acts = judge_all(alloc, &call, &self.pending, ids)?;
        let last = self.last;
        self.prepare(alloc, claimer, moment, last, acts)
    }

    /// The pending entries from `start` on become the claimer's, as `claim` says: as many as are looked at until
    /// `count` of them are given over or dropped, and at most ten times that many.
    ///
    /// Source: Redis documentation, command XAUTOCLAIM.
    pub fn autoclaim(
        &mut self,
        alloc: Global,
        claimer: &Name,
        start: Id,
        count: u64,
        claim: Claim,
        moment: u64,
        entries: &Entries,
    ) -> Result<Scan, AllocError>
        requires moment { moment < 2 ^ 63 }
        requires count { IfSome claim.count (λ count. count < 2 ^ 63) }
        ensures shown { self.new.shown ≡ self.old.shown }
        ensures effect { IfOk result (λ scan. after_showing scan.shown self.old.shown
            ≡ group_after_claim claim claimer.now moment entries.now.entries
            (map (λ nack. nack.id)
            (scanned claim claimer.now moment entries.now.entries count (pending_from start self.old.shown.nacks)))
            self.old.shown) }
        ensures listed { IfOk result (λ scan. listed_of scan.shown.acts
            ≡ listed_claim claim claimer.now moment entries.now.entries
            (map (λ nack. nack.id)
            (scanned claim claimer.now moment entries.now.entries count (pending_from start self.old.shown.nacks)))
            self.old.shown.nacks) }
        ensures next { IfOk result (λ scan. scan.next
            ≡ id_behind
            (length (scanned claim claimer.now moment entries.now.entries count
            (pending_from start self.old.shown.nacks)))
            (pending_from start self.old.shown.nacks)) }
        ensures room { IfOk result (λ scan. HasRoomFor scan.shown self.new) }
        ensures kept { OnOk result (KeepsRooms self.old.rooms self.new.rooms) }
    {
        let call = Call {
            claim,
            claimer,
            moment,
            entries,
        };
        let Looked { ids, next } = look(alloc, &call, self.pending.from_id(start), count)?;
        let shown = self.claim(alloc, claimer, ids.as_slice(), claim, moment, entries)?;
        Ok(Scan { shown, next })
    }
}
