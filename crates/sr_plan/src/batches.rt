ghost use Rattle.std.specs.Prelude.{◌≡◌, [], ◌++◌, ◌<◌, All, IfOk, OnOk, length, map};
ghost use Rattle.sr_plan.specs.Batches.{batch_of, batches_from};
ghost use Rattle.sr_plan.specs.steps.Dealing.{AreDealt};

use crate::batch::Batch;
use sr_bytes::Name;
use sr_ids::Id;
use sr_policy::{Snapshot, Stranded};
use std::alloc::{AllocError, Global};

/// What an assignment gives each live consumer that gets any entries, in byte order of their names.
pub(crate) fn batches_of<'a>(
    alloc: Global,
    snapshot: &'a Snapshot,
    assign: &[usize],
) -> Result<Vec<Batch<'a>>, AllocError>
    requires each { length assign.now ≡ length snapshot.now.stranded }
    requires consumers { All (λ c. c < length snapshot.now.live) assign.now }
    ensures { IfOk result (λ batches. batches.items ≡ batches_from
        (map (λ entry. entry.id) snapshot.now.stranded) assign.now 0 snapshot.now.live) }
{
    let live = snapshot.live();
    let lists = ids_of_each(alloc, snapshot.stranded(), assign, live.len())?;
    let mut batches = Vec::new(alloc);
    let mut number = 0;
    for ids in lists {
        add_batch(&mut batches, &live[number].name, ids)?;
        number += 1;
    }
    Ok(batches)
}

/// The ids of the entries that go to each of this many consumers, by id: one pass over the entries.
fn ids_of_each(
    alloc: Global,
    stranded: &[Stranded],
    assign: &[usize],
    consumers: usize,
) -> Result<Vec<Vec<Id>>, AllocError>
    requires each { length assign.now ≡ length stranded.now }
    requires consumers { All (λ c. c < consumers) assign.now }
    ensures { IfOk result (λ lists.
        AreDealt (map (λ entry. entry.id) stranded.now) assign.now consumers lists.items) }
{
    let mut lists = Vec::with_capacity(alloc, consumers)?;
    for _ in 0..consumers {
        lists.push(Vec::new(alloc))?;
    }
    deal(lists.as_mut_slice(), stranded, assign)?;
    Ok(lists)
}

/// Adds the id of each entry to the list of the consumer that it goes to.
fn deal(lists: &mut [Vec<Id>], stranded: &[Stranded], assign: &[usize]) -> Result<(), AllocError>
    requires each { length assign.now ≡ length stranded.now }
    requires consumers { All (λ c. c < length lists.old) assign.now }
    requires empty { All (λ list. list.items ≡ []) lists.old }
    ensures { OnOk result (AreDealt (map (λ entry. entry.id) stranded.now) assign.now (length lists.old) lists.new) }
{
    for (i, entry) in stranded.iter().enumerate() {
        lists[assign[i]].push(entry.id)?;
    }
    Ok(())
}

/// Adds what a consumer gets, if that is any entry.
fn add_batch<'a>(
    batches: &mut Vec<Batch<'a>>,
    consumer: &'a Name,
    ids: Vec<Id>,
) -> Result<(), AllocError>
    ensures { OnOk result (batches.new.items ≡ batches.old.items ++ batch_of consumer.now ids.items) }
{
    if ids.is_empty() {
        return Ok(());
    }
    batches.push(Batch::new(consumer, ids))?;
    Ok(())
}
