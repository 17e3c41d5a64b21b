//! A copy of a snapshot, part by part.
ghost use Rattle.std.specs.Prelude.{◌≡◌, IfSome};

use sr_bytes::Name;
use sr_ids::Id;
use sr_policy::{Live, Rates, Snapshot, Stranded};
use std::alloc::{AllocError, Global};

/// A copy of a snapshot, or `None` if memory is refused for it.
pub(crate) fn copy_of(alloc: Global, snapshot: &Snapshot) -> Option<Snapshot>
    ensures { IfSome result (λ copy. copy ≡ snapshot.now) }
{
    let copy = copy_parts(alloc, snapshot).ok()?;
    if copy == *snapshot { Some(copy) } else { None }
}

/// A snapshot of copies of its parts.
fn copy_parts(alloc: Global, snapshot: &Snapshot) -> Result<Snapshot, AllocError> {
    let copy = Snapshot::new(
        snapshot.key().copy(alloc)?,
        snapshot.group().copy(alloc)?,
        copy_dead(alloc, snapshot.dead())?,
        copy_stranded(alloc, snapshot.stranded())?,
        copy_gone(alloc, snapshot.gone())?,
        copy_live(alloc, snapshot.live())?,
        copy_rates(alloc, snapshot.rates())?,
    );
    copy.ok_or(AllocError)
}

fn copy_dead(alloc: Global, names: &[Name]) -> Result<Vec<Name>, AllocError> {
    let mut copies = Vec::new(alloc);
    for name in names {
        copies.push(name.copy(alloc)?)?;
    }
    Ok(copies)
}

fn copy_stranded(alloc: Global, entries: &[Stranded]) -> Result<Vec<Stranded>, AllocError> {
    let mut copies = Vec::new(alloc);
    for entry in entries {
        copies.push(Stranded {
            id: entry.id,
            owner: entry.owner.copy(alloc)?,
            weight: entry.weight,
            class: entry.class.copy(alloc)?,
        })?;
    }
    Ok(copies)
}

fn copy_gone(alloc: Global, entries: &[(Id, Name)]) -> Result<Vec<(Id, Name)>, AllocError> {
    let mut copies = Vec::new(alloc);
    for (id, owner) in entries {
        copies.push((*id, owner.copy(alloc)?))?;
    }
    Ok(copies)
}

fn copy_live(alloc: Global, consumers: &[Live]) -> Result<Vec<Live>, AllocError> {
    let mut copies = Vec::new(alloc);
    for consumer in consumers {
        copies.push(Live {
            name: consumer.name.copy(alloc)?,
            limit: consumer.limit,
            pending: consumer.pending,
            tier: consumer.tier,
        })?;
    }
    Ok(copies)
}

fn copy_rates(alloc: Global, classes: &[(Name, Rates)]) -> Result<Vec<(Name, Rates)>, AllocError> {
    let mut copies = Vec::new(alloc);
    for (class, rates) in classes {
        let list = Vec::from_slice(alloc, rates.as_slice())?;
        copies.push((class.copy(alloc)?, Rates::new(list)))?;
    }
    Ok(copies)
}
