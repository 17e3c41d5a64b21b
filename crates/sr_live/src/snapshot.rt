ghost use Rattle.std.specs.Prelude.{◌≡◌, ◌++◌, ◌<◌, ◌≤◌, IfOk, OnOk, IsErrOf, length};
ghost use Rattle.std.specs.List.{flat_map};
ghost use Rattle.sr_policy.specs.Bounds.{most_stranded};
ghost use Rattle.sr_policy.specs.Rules.{class_of, live_of, value_at, weight_of as weight};
ghost use Rattle.sr_policy.specs.Snapshot.{IsSnapshot, is_among as among};
ghost use Rattle.sr_space.specs.{listed};
ghost use Rattle.sr_live.specs.Looked.{gone_of, is_seen as seen, live_by, may_receive as receives, number_of};
ghost use Rattle.sr_live.specs.Looked.{shown_of, stranded_by};
ghost use Rattle.sr_live.specs.Spare.{with_spare};

use crate::looked::{Asked, Looked, Row};
use crate::spare::lowered;
use sr_bytes::{Fields, Name};
use sr_ids::Id;
use sr_policy::{Live, Policy, Rates, Snapshot, Stranded, weight_of};
use sr_space::rates_by_class;
use std::alloc::{AllocError, Global};
use std::marker::Model;

/// How many stranded entries a snapshot has at most.
const MAX_STRANDED: usize = 4096;

/// Why there is no snapshot of what was looked up.
#[derive(Clone, Copy, Debug, PartialEq, Eq)]
pub enum SnapshotFault {
    /// A failed allocation.
    Memory,
    /// More entries are stranded than a snapshot may have.
    TooMany,
    /// It is of no one moment: an entry is pending for two consumers, or for one that is not dead.
    Changed,
}

/// The snapshot of a group as it was looked up: what its dead consumers have left, and which other consumers of the
/// policy could take it. Their limits are lower by the places that are to be left free.
///
/// Source: docs/RECOVERY.md.
pub fn snapshot_of(
    alloc: Global,
    policy: &Policy,
    asked: &Asked,
    looked: &Looked,
) -> Result<Snapshot, SnapshotFault>
    ensures ok { IfOk result (λ snapshot. snapshot ≡ with_spare asked.now.spare
        (shown_of policy.now asked.now looked.now.idles.items looked.now.numbers.items looked.now.rows.items)) }
    ensures many { IsErrOf result SnapshotFault.TooMany
        → most_stranded < length (flat_map (stranded_by policy.now) looked.now.rows.items) }
    ensures few { IsErrOf result SnapshotFault.Changed
        → length (flat_map (stranded_by policy.now) looked.now.rows.items) ≤ most_stranded }
    ensures changed { IsErrOf result SnapshotFault.Changed
        → IsSnapshot (shown_of policy.now asked.now looked.now.idles.items looked.now.numbers.items
        looked.now.rows.items) → ⊥ }
{
    let parts = match gather(alloc, policy, asked, looked) {
        Ok(parts) => parts,
        Err(_) => return Err(SnapshotFault::Memory),
    };
    if parts.stranded.len() > MAX_STRANDED {
        return Err(SnapshotFault::TooMany);
    }
    match Snapshot::new(
        parts.key,
        parts.group,
        parts.dead,
        parts.stranded,
        parts.gone,
        parts.live,
        parts.rates,
    ) {
        Some(snapshot) => Ok(snapshot),
        None => Err(SnapshotFault::Changed),
    }
}

/// The parts of a snapshot, before they are judged.
#[derive(Drop)]
struct Gathered {
    key: Name,
    group: Name,
    dead: Vec<Name>,
    stranded: Vec<Stranded>,
    gone: Vec<(Id, Name)>,
    live: Vec<Live>,
    rates: Vec<(Name, Rates)>,
}

impl Model for Gathered {
    ghost use Rattle.sr_policy.specs.{SnapshotState};

    ghost Value = { SnapshotState };

    ghost view = { λ g. record {
      key = g.key;
      group = g.group;
      dead = g.dead.items;
      stranded = g.stranded.items;
      gone = g.gone.items;
      live = g.live.items;
      rates = g.rates.items;
    } };
}

/// The parts of the snapshot of a group as it was looked up, with lower limits.
fn gather(
    alloc: Global,
    policy: &Policy,
    asked: &Asked,
    looked: &Looked,
) -> Result<Gathered, AllocError>
    ensures { IfOk result (λ parts. parts ≡ with_spare asked.now.spare
        (shown_of policy.now asked.now looked.now.idles.items looked.now.numbers.items looked.now.rows.items)) }
{
    let stranded = stranded_rows(alloc, policy, looked.rows.as_slice())?;
    let gone = gone_rows(alloc, looked.rows.as_slice())?;
    let live = live_consumers(alloc, policy, asked, looked)?;
    let rates = rates_by_class(alloc, policy, live.as_slice(), stranded.as_slice())?;
    let dead = copies(alloc, asked.dead.as_slice())?;
    Ok(Gathered {
        key: asked.key.copy(alloc)?,
        group: asked.group.copy(alloc)?,
        dead,
        stranded,
        gone,
        live: lowered(alloc, live.as_slice(), asked.spare)?,
        rates,
    })
}

/// Copies of the names.
fn copies(alloc: Global, names: &[Name]) -> Result<Vec<Name>, AllocError>
    ensures { IfOk result (λ list. list.items ≡ names.now) }
{
    let mut list = Vec::with_capacity(alloc, names.len())?;
    for name in names {
        list.push(name.copy(alloc)?)?;
    }
    Ok(list)
}

/// The entries that are still in the stream.
fn stranded_rows(alloc: Global, policy: &Policy, rows: &[Row]) -> Result<Vec<Stranded>, AllocError>
    ensures { IfOk result (λ list. list.items ≡ flat_map (stranded_by policy.now) rows.now) }
{
    let mut list = Vec::with_capacity(alloc, rows.len())?;
    for row in rows {
        push_stranded(&mut list, alloc, policy, row)?;
    }
    Ok(list)
}

/// Adds the entry, if it is still in the stream.
fn push_stranded(
    list: &mut Vec<Stranded>,
    alloc: Global,
    policy: &Policy,
    row: &Row,
) -> Result<(), AllocError>
    ensures { OnOk result (list.new.items ≡ list.old.items ++ stranded_by policy.now row.now) }
{
    if let Some(fields) = &row.fields {
        list.push(stranded_entry(alloc, policy, row, fields)?)?;
    }
    Ok(())
}

/// The entry with the weight and the class of its fields.
fn stranded_entry(
    alloc: Global,
    policy: &Policy,
    row: &Row,
    fields: &Fields,
) -> Result<Stranded, AllocError>
    ensures { IfOk result (λ entry. entry ≡ record {
      id = row.now.id;
      owner = row.now.owner;
      weight = weight fields.now;
      class = class_of policy.now fields.now;
    }) }
{
    Ok(Stranded {
        id: row.id,
        owner: row.owner.copy(alloc)?,
        weight: weight_of(fields.pairs()),
        class: policy.class_of(alloc, fields.pairs())?,
    })
}

/// The entries that are no longer in the stream, each with its owner.
fn gone_rows(alloc: Global, rows: &[Row]) -> Result<Vec<(Id, Name)>, AllocError>
    ensures { IfOk result (λ list. list.items ≡ flat_map gone_of rows.now) }
{
    let mut list = Vec::new(alloc);
    for row in rows {
        push_gone(&mut list, alloc, row)?;
    }
    Ok(list)
}

/// Adds the entry with its owner, if it is no longer in the stream.
fn push_gone(list: &mut Vec<(Id, Name)>, alloc: Global, row: &Row) -> Result<(), AllocError>
    ensures { OnOk result (list.new.items ≡ list.old.items ++ gone_of row.now) }
{
    if row.fields.is_none() {
        list.push((row.id, row.owner.copy(alloc)?))?;
    }
    Ok(())
}

/// The consumers of the policy that are not dead and may be given entries, each with how many are pending for it.
pub(crate) fn live_consumers(
    alloc: Global,
    policy: &Policy,
    asked: &Asked,
    looked: &Looked,
) -> Result<Vec<Live>, AllocError>
    ensures { IfOk result (λ list. list.items ≡ live_by policy.now asked.now.dead.items
        (seen asked.now.seen_within looked.now.idles.items) looked.now.numbers.items) }
{
    let mut list = Vec::new(alloc);
    for name in policy.consumers() {
        if may_receive(asked, looked, name) {
            push_live(
                &mut list,
                alloc,
                policy,
                name,
                number_for(looked.numbers.as_slice(), name),
            )?;
        }
    }
    Ok(list)
}

/// Whether the consumer has been seen in the time that is asked for, and is not dead.
fn may_receive(asked: &Asked, looked: &Looked, name: &Name) -> bool
    ensures { result ≡ receives asked.now.dead.items (seen asked.now.seen_within looked.now.idles.items) name.now }
{
    is_seen(asked.seen_within, looked.idles.as_slice(), name)
        && !is_among(asked.dead.as_slice(), name)
}

/// Whether the consumer is named, with an idle time of at most so many milliseconds; or no time is asked for.
pub fn is_seen(within: Option<u64>, idles: &[(Name, u64)], name: &Name) -> bool
    ensures { result ≡ seen within idles.now name.now }
{
    match (within, number_in(idles, name)) {
        (None, _) => true,
        (Some(most), Some(idle)) => idle <= most,
        (Some(_), None) => false,
    }
}

/// Adds the consumer with how many entries are pending for it, if the policy names it.
fn push_live(
    list: &mut Vec<Live>,
    alloc: Global,
    policy: &Policy,
    name: &Name,
    pending: u64,
) -> Result<(), AllocError>
    ensures { OnOk result (list.new.items ≡ list.old.items ++ listed (live_of policy.now name.now pending)) }
{
    if let Some(consumer) = policy.live(alloc, name, pending)? {
        list.push(consumer)?;
    }
    Ok(())
}

/// Whether the name is one of the names.
fn is_among(names: &[Name], name: &Name) -> bool
    ensures { result ≡ among names.now name.now }
{
    names.iter().any(|other| *other == *name)
}

/// How many entries are pending for the consumer.
pub(crate) fn number_for(numbers: &[(Name, u64)], name: &Name) -> u64
    ensures { result ≡ number_of numbers.now name.now }
{
    number_in(numbers, name).unwrap_or(0)
}

/// The number of the consumer, if it is named.
pub fn number_in(numbers: &[(Name, u64)], name: &Name) -> Option<u64>
    ensures { result ≡ value_at name.now numbers.now }
{
    for (other, number) in numbers {
        if *name == *other {
            return Some(*number);
        }
    }
    None
}
