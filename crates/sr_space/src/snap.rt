ghost use Rattle.std.specs.Prelude.{◌≡◌, ◌+◌, ◌<◌, ◌≤◌, Ok, IfOk, IfErr, IfSome, IfNone, IsTrue, length, nat_lt};
ghost use Rattle.std.specs.Prelude.{if◌then◌else◌};
ghost use Rattle.std.specs.Option.{option_copied};
ghost use Rattle.sr_bytes.specs.{AreInOrder, ComesBefore};
ghost use Rattle.sr_policy.specs.Bounds.{most_stranded};
ghost use Rattle.sr_space.specs.Keys.{shown_of};
ghost use Rattle.sr_space.specs.Snap.{IsSnapFault, if_few, in_order, of_dead, shown_with, snapped, snapped_stream};
ghost use Rattle.sr_space.specs.declared.snap.SnapFault.TheVariants.{Memory, TooMany};
ghost use Rattle.sr_space.specs.steps.Snapping.{left_in, there_in};

mod left_and_live;
mod names;

use crate::Space;
pub use left_and_live::rates_by_class;
use left_and_live::{Left, is_there, left_entries, live_consumers, pending_for};
use names::is_among;
pub use names::names_in_order;
use sr_bytes::Name;
use sr_group::Group;
use sr_pending::Nacks;
use sr_policy::{Policy, Snapshot};
use sr_stream::Stream;
use std::alloc::{AllocError, Global};

/// How many stranded entries a snapshot has at most.
const MAX_STRANDED: usize = 4096;

/// Why no snapshot of a group was taken. The first that holds is told: no group, too many, memory.
#[derive(Clone, Copy, Debug, PartialEq, Eq)]
pub enum SnapFault {
    /// There is no such key, or it has no such group.
    NoGroup,
    /// More entries are stranded than a snapshot may have.
    TooMany,
    /// A failed allocation.
    Memory,
}

impl Space {
    /// What the dead consumers of a group have left, and which other consumers of the policy could take it. A name may
    /// stand more than once among the dead.
    ///
    /// Source: docs/RECOVERY.md.
    pub fn snap(
        &self,
        alloc: Global,
        key: &Name,
        group: &Name,
        dead: &[Name],
        policy: &Policy,
    ) -> Result<Snapshot, SnapFault>
        ensures ok { IfOk result (λ snapshot. snapped policy.now self.now key.now group.now dead.now ≡ Ok snapshot) }
        ensures err { IfErr result (IsSnapFault (snapped policy.now self.now key.now group.now dead.now)) }
    {
        snap_stream(alloc, self.stream(key), key, group, dead, policy)
    }
}

/// The snapshot of a group of a stream, if the stream and the group are there.
fn snap_stream(
    alloc: Global,
    stream: Option<&Stream>,
    key: &Name,
    name: &Name,
    dead: &[Name],
    policy: &Policy,
) -> Result<Snapshot, SnapFault>
    ensures ok { IfOk result (λ snapshot.
        snapped_stream policy.now key.now name.now dead.now (shown_of (option_copied stream.entry)) ≡ Ok snapshot) }
    ensures err { IfErr result (IsSnapFault
        (snapped_stream policy.now key.now name.now dead.now (shown_of (option_copied stream.entry)))) }
{
    let Some(stream) = stream else {
        return Err(SnapFault::NoGroup);
    };
    let Some(group) = stream.group(name) else {
        return Err(SnapFault::NoGroup);
    };
    snap_group(alloc, stream, group, key, name, dead, policy)
}

/// The snapshot of a group, unless more entries are stranded than a snapshot may have.
fn snap_group(
    alloc: Global,
    stream: &Stream,
    group: &Group,
    key: &Name,
    name: &Name,
    dead: &[Name],
    policy: &Policy,
) -> Result<Snapshot, SnapFault>
    ensures ok { IfOk result (λ snapshot. if_few (shown_with policy.now
        key.now name.now (in_order dead.now) stream.now.shown.entries group.now.shown.nacks) ≡ Ok snapshot) }
    ensures err { IfErr result (IsSnapFault (if_few (shown_with policy.now
        key.now name.now (in_order dead.now) stream.now.shown.entries group.now.shown.nacks))) }
{
    let Ok(names) = names_in_order(alloc, dead) else {
        return Err(refused(stream, group, dead));
    };
    if own_are_too_many(stream, group, names.as_slice()) {
        return Err(SnapFault::TooMany);
    }
    match snap_few(alloc, stream, group, key, name, names, policy) {
        Ok(snapshot) => Ok(snapshot),
        Err(_) => Err(SnapFault::Memory),
    }
}

/// Why there is no snapshot if memory was refused: too many entries are told first.
fn refused(stream: &Stream, group: &Group, dead: &[Name]) -> SnapFault
    ensures { result ≡ (if nat_lt most_stranded
        (length (left_in dead.now stream.now.shown.entries group.now.shown.nacks)) then TooMany else Memory) }
{
    if are_too_many(stream, group, dead) {
        SnapFault::TooMany
    } else {
        SnapFault::Memory
    }
}

/// Whether more entries are stranded than a snapshot may have, of dead consumers in any order. It takes no memory, but
/// compares each pending entry with each of the dead, so it is asked only if memory was refused.
fn are_too_many(stream: &Stream, group: &Group, dead: &[Name]) -> bool
    ensures { result ≡ nat_lt most_stranded
        (length (left_in dead.now stream.now.shown.entries group.now.shown.nacks)) }
{
    let mut nacks = pending_for(group, dead);
    let mut room = MAX_STRANDED;
    while let Some(nack) = nacks.next() {
        if is_among(dead, nack.owner.name()) && is_there(stream, nack.id) {
            if room == 0 {
                return true;
            }
            room -= 1;
        }
    }
    false
}

/// The same of dead consumers in byte order, from their own entries alone, which are looked up only if there are more
/// than a snapshot may have. It takes no memory.
fn own_are_too_many(stream: &Stream, group: &Group, dead: &[Name]) -> bool
    requires { AreInOrder ComesBefore dead.now }
    ensures { result ≡ nat_lt most_stranded
        (length (left_in dead.now stream.now.shown.entries group.now.shown.nacks)) }
{
    if own_are_few(group, dead) {
        return false;
    }
    let mut room = MAX_STRANDED;
    for name in dead {
        match room_after(stream, group.pending().of(name), room) {
            None => return true,
            Some(left) => room = left,
        }
    }
    false
}

/// Whether no more entries are pending for the dead than a snapshot may have, be they in the stream or gone.
fn own_are_few(group: &Group, dead: &[Name]) -> bool
    requires { AreInOrder ComesBefore dead.now }
    ensures { IsTrue result → length (of_dead dead.now group.now.shown.nacks) ≤ most_stranded }
{
    let mut room = MAX_STRANDED;
    for name in dead {
        let own = group.pending().count_of(name);
        if own > room {
            return false;
        }
        room -= own;
    }
    true
}

/// For how many stranded entries there is still room after these. None if there are too many of them.
fn room_after(stream: &Stream, mut nacks: Nacks<'_>, mut room: usize) -> Option<usize>
    ensures some { IfSome result (λ left. left + length (there_in stream.now.shown.entries nacks.entry) ≡ room) }
    ensures none { IfNone result (room < length (there_in stream.now.shown.entries nacks.entry)) }
{
    while let Some(nack) = nacks.next() {
        if is_there(stream, nack.id) {
            if room == 0 {
                return None;
            }
            room -= 1;
        }
    }
    Some(room)
}

/// The snapshot of a group in which not too many entries are stranded, with the dead consumers in byte order.
fn snap_few(
    alloc: Global,
    stream: &Stream,
    group: &Group,
    key: &Name,
    name: &Name,
    dead: Vec<Name>,
    policy: &Policy,
) -> Result<Snapshot, AllocError>
    requires order { AreInOrder ComesBefore dead.items }
    requires few { length (left_in dead.items stream.now.shown.entries group.now.shown.nacks) ≤ most_stranded }
    ensures { IfOk result (λ snapshot. snapshot ≡ shown_with
        policy.now key.now name.now dead.items stream.now.shown.entries group.now.shown.nacks) }
{
    policy.sound();
    group.sound();
    let left = left_entries(alloc, policy, dead.as_slice(), stream, group)?;
    let live = live_consumers(alloc, policy, dead.as_slice(), group)?;
    let rates = rates_by_class(alloc, policy, live.as_slice(), left.stranded.as_slice())?;
    let key = key.copy(alloc)?;
    let name = name.copy(alloc)?;
    let Left { stranded, gone } = left;
    Ok(Snapshot::of(key, name, dead, stranded, gone, live, rates))
}
