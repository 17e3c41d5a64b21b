//! The ids that closed blocks began with. They are where a search looks first, and nothing rests on them: if there is
//! no memory for one, or it is out of date, the search goes on without.
use crate::Nack;
use crate::slots::id_in;
use slab::Slab;
use sr_ids::Id;
use std::collections::VecDeque;

/// Makes memory for as many as there are closed blocks, and `more` of them.
pub(crate) fn make_places(firsts: &mut VecDeque<Id>, closed: usize, more: usize) {
    let places = closed.saturating_sub(firsts.len()).saturating_add(more);
    if firsts.reserve(places).is_err() {}
}

/// Drops that of this block, if the block is gone.
pub(crate) fn forget(firsts: &mut VecDeque<Id>, block: usize, gone: bool) {
    if gone && block < firsts.len() {
        drop(firsts.remove(block));
    }
}

/// How much of `len` lies before the id, if ids lie at even distances from `from` to `to`.
fn part_of(len: usize, id: Id, from: Id, to: Id) -> usize {
    let (done, all) = if from.ms == to.ms {
        (
            id.seq.saturating_sub(from.seq),
            to.seq.saturating_sub(from.seq),
        )
    } else {
        (id.ms.saturating_sub(from.ms), to.ms.saturating_sub(from.ms))
    };
    (done.saturating_mul(len as u64) / all.max(1)) as usize
}

/// Where in a block whose ids lie between `from` and `to` the entry with this id is, if three tries by proportion find
/// it.
pub(crate) fn guess_between(
    slab: &Slab<Nack>,
    block: &VecDeque<usize>,
    id: Id,
    from: Id,
    to: Id,
) -> Option<usize> {
    let (mut low, mut from) = (0usize, from);
    let (mut high, mut to) = (block.len(), to);
    for _ in 0..3 {
        let at = low.saturating_add(part_of(high.saturating_sub(low), id, from, to));
        let at = at.min(high.saturating_sub(1));
        let other = id_in(slab, *block.get(at)?);
        if other == id {
            return Some(at);
        }
        if other < id {
            low = at.saturating_add(1);
            from = other;
        } else {
            high = at;
            to = other;
        }
    }
    None
}

/// Adds those of further closed blocks, as far as there is memory.
pub(crate) fn note(
    firsts: &mut VecDeque<Id>,
    closed: &VecDeque<VecDeque<usize>>,
    slab: &Slab<Nack>,
) {
    for number in firsts.len()..closed.len() {
        if firsts.len() < firsts.capacity() {
            if let Some(slot) = closed[number].front() {
                firsts.push_back_reserved(id_in(slab, *slot));
            }
        }
    }
}
