//! The parts of a snapshot: what the dead have left, and the consumers that could take it.
ghost use Rattle.std.specs.Prelude.{◌≡◌, ◌++◌, IfOk, OnOk, length, map};
ghost use Rattle.sr_bytes.specs.{AreInOrder, ComesBefore};
ghost use Rattle.sr_entries.specs.{entry_with, has_id};
ghost use Rattle.sr_pending.specs.{owned_by};
ghost use Rattle.sr_policy.specs.Rules.{class_of, live_of, weight_of as weight};
ghost use Rattle.sr_space.specs.Snap.{gone_in, listed, live_in, of_dead, rates_in, stranded_as, stranded_in};
ghost use Rattle.sr_space.specs.steps.Snapping.{gone_as, there_in};

use crate::snap::names::{classes_of, is_listed};
use sr_bytes::{Name, Pairs};
use sr_group::Group;
use sr_ids::Id;
use sr_pending::{Nack, Nacks};
use sr_policy::{Live, Policy, Rates, Stranded, weight_of};
use sr_stream::Stream;
use std::alloc::{AllocError, Global};

/// Whether the stream has an entry with this id.
pub(super) fn is_there(stream: &Stream, id: Id) -> bool
    ensures { result ≡ has_id id stream.now.shown.entries }
{
    match stream.entries().get(id) {
        Some(_entry) => true,
        None => false,
    }
}

/// Pending entries among which are those of the dead: of one dead consumer these alone, and of several all.
pub(super) fn pending_for<'a>(group: &'a Group, dead: &'a [Name]) -> Nacks<'a>
    ensures { of_dead dead.now result ≡ of_dead dead.now group.now.shown.nacks }
{
    match dead {
        [consumer] => group.pending().of(consumer),
        _ => group.pending().all(),
    }
}

/// What the dead have left.
#[derive(Drop)]
pub(super) struct Left {
    /// The entries that are still in the stream.
    pub(super) stranded: Vec<Stranded>,
    /// The entries that are no longer in the stream, each with its owner.
    pub(super) gone: Vec<(Id, Name)>,
}

/// What is pending for the dead, by rising id: what is still in the stream, and what is gone.
pub(super) fn left_entries(
    alloc: Global,
    policy: &Policy,
    dead: &[Name],
    stream: &Stream,
    group: &Group,
) -> Result<Left, AllocError>
    requires { AreInOrder ComesBefore dead.now }
    ensures stranded { IfOk result (λ left. left.stranded.items
        ≡ stranded_in policy.now dead.now stream.now.shown.entries group.now.shown.nacks) }
    ensures gone { IfOk result (λ left. left.gone.items
        ≡ gone_in dead.now stream.now.shown.entries group.now.shown.nacks) }
{
    let mut left = Left {
        stranded: Vec::new(alloc),
        gone: Vec::new(alloc),
    };
    for nack in pending_of_dead(alloc, group, dead)? {
        push_left(&mut left, alloc, policy, stream, nack)?;
    }
    Ok(left)
}

/// What is pending for the dead, by rising id. It looks at their own entries alone.
fn pending_of_dead<'a>(
    alloc: Global,
    group: &'a Group,
    dead: &'a [Name],
) -> Result<Vec<&'a Nack>, AllocError>
    requires { AreInOrder ComesBefore dead.now }
    ensures { IfOk result (λ list. map (λ nack. nack.now) list.items ≡ of_dead dead.now group.now.shown.nacks) }
{
    group.sound();
    let mut list = Vec::new(alloc);
    for name in dead {
        push_own(&mut list, group, name)?;
    }
    list.sort_by_key(|nack| nack.id)?;
    Ok(list)
}

/// Adds what is pending for this consumer.
fn push_own<'a>(
    list: &mut Vec<&'a Nack>,
    group: &'a Group,
    name: &'a Name,
) -> Result<(), AllocError>
    ensures { OnOk result (map (λ nack. nack.now) list.new.items
        ≡ map (λ nack. nack.now) list.old.items ++ owned_by name.now group.now.shown.nacks) }
{
    let mut own = group.pending().of(name);
    while let Some(nack) = own.next() {
        list.push(nack)?;
    }
    Ok(())
}

/// Adds the pending entry to what is stranded, or to what is gone if it is no longer in the stream.
fn push_left(
    left: &mut Left,
    alloc: Global,
    policy: &Policy,
    stream: &Stream,
    nack: &Nack,
) -> Result<(), AllocError>
    ensures stranded { OnOk result (left.new.stranded.items ≡ left.old.stranded.items
        ++ stranded_as policy.now nack.now (entry_with nack.now.id stream.now.shown.entries)) }
    ensures gone { OnOk result (left.new.gone.items ≡ left.old.gone.items
        ++ gone_as nack.now (entry_with nack.now.id stream.now.shown.entries)) }
{
    match stream.entries().get(nack.id) {
        Some(entry) => {
            let entry = stranded_entry(alloc, policy, nack, entry.fields())?;
            left.stranded.push(entry)?;
        }
        None => {
            let owner = nack.owner.name().copy(alloc)?;
            left.gone.push((nack.id, owner))?;
        }
    }
    Ok(())
}

/// The pending entry with the weight and the class of its fields.
fn stranded_entry(
    alloc: Global,
    policy: &Policy,
    nack: &Nack,
    fields: Pairs<'_>,
) -> Result<Stranded, AllocError>
    ensures { IfOk result (λ entry. entry ≡ record {
      id = nack.now.id;
      owner = nack.now.owner;
      weight = weight fields.entry;
      class = class_of policy.now fields.entry;
    }) }
{
    Ok(Stranded {
        id: nack.id,
        owner: nack.owner.name().copy(alloc)?,
        weight: weight_of(fields.again()),
        class: policy.class_of(alloc, fields)?,
    })
}

/// The consumers of the policy that are not dead, each with how many entries are pending for it.
pub(super) fn live_consumers(
    alloc: Global,
    policy: &Policy,
    dead: &[Name],
    group: &Group,
) -> Result<Vec<Live>, AllocError>
    requires { AreInOrder ComesBefore dead.now }
    ensures { IfOk result (λ list. list.items ≡ live_in policy.now dead.now group.now.shown.nacks) }
{
    let mut list = Vec::new(alloc);
    for name in policy.consumers() {
        if !is_listed(dead, name) {
            push_live(&mut list, alloc, policy, group, name)?;
        }
    }
    Ok(list)
}

/// Adds the consumer with how many entries are pending for it, if the policy names it.
fn push_live(
    list: &mut Vec<Live>,
    alloc: Global,
    policy: &Policy,
    group: &Group,
    name: &Name,
) -> Result<(), AllocError>
    ensures { OnOk result (list.new.items
        ≡ list.old.items ++ listed (live_of policy.now name.now (length (owned_by name.now group.now.shown.nacks)))) }
{
    if let Some(consumer) = policy.live(alloc, name, group.pending().count_of(name) as u64)? {
        list.push(consumer)?;
    }
    Ok(())
}

/// For each class of the stranded entries, in byte order, the rates of the live consumers, as a snapshot has them.
///
/// Source: docs/RECOVERY.md.
pub fn rates_by_class(
    alloc: Global,
    policy: &Policy,
    live: &[Live],
    stranded: &[Stranded],
) -> Result<Vec<(Name, Rates)>, AllocError>
    ensures { IfOk result (λ list. list.items ≡ rates_in policy.now live.now stranded.now) }
{
    let classes = classes_of(alloc, stranded)?;
    policy.rates_of(alloc, classes, live)
}
