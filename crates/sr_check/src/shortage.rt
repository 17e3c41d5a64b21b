//! A shortage, read from a reply.
ghost use Rattle.std.specs.Prelude.{◌≡◌, ◌<◌, ℕ, List, All, length, IfSome, IfNone, IfOk, IfErr};
ghost use Rattle.std.specs.List.{flat_map};
ghost use Rattle.sr_ids.specs.{IsBelow};
ghost use Rattle.sr_transport.specs.Certificate.{IsShortage};
ghost use Rattle.sr_policy.specs.{problem_of, AreInOrder};
ghost use Rattle.sr_check.specs.PlanReply.{reached_from};
ghost use Rattle.sr_check.specs.steps.Read.{Begins, HasChosen, IsShortageText, ids_of, rooms_answer};

use crate::Reason;
use crate::expect::{after_header, after_id, after_integer, after_share};
use crate::read::header;
use sr_policy::{Live, Snapshot, Stranded};
use sr_transport::{Problem, is_reached, places as places_of};
use std::alloc::{AllocError, Global};

/// The numbers of the entries of the shortage that some bytes are, after the word. Whether there are too few places for
/// them has not been judged.
pub(crate) fn shortage_of(
    alloc: Global,
    snapshot: &Snapshot,
    problem: &Problem,
    bytes: &[u8],
) -> Result<Result<Vec<usize>, Reason>, AllocError>
    requires { problem.now ≡ problem_of snapshot.now }
    ensures found { IfOk result (λ read. IfOk read (λ set. IsShortageText snapshot.now bytes.now set.items)) }
    // a shortage is read
    ensures same { IfOk result (λ read. IfOk read (λ found. (set : List ℕ)
        → IsShortage problem.now set → IsShortageText snapshot.now bytes.now set → found.items ≡ set)) }
    ensures none { IfOk result (λ read. IfErr read (λ _. (set : List ℕ)
        → IsShortage problem.now set → IsShortageText snapshot.now bytes.now set → ⊥)) }
    ensures within { IfOk result (λ read. IfOk read (λ set. All (λ i. i < problem.now.entries) set.items)) }
{
    snapshot.sound();
    let Some((entries, ids)) = header(bytes) else {
        return Ok(Err(Reason::Form));
    };
    let (set, rooms) = chosen(alloc, snapshot.stranded(), ids)?;
    if set.len() as u64 != entries {
        return Ok(Err(Reason::Entries));
    }
    let Some(places) = after_rooms(problem, snapshot, set.as_slice(), rooms) else {
        return Ok(Err(Reason::Places));
    };
    let Some(left) = after_integer(places, places_of(problem, set.as_slice())) else {
        return Ok(Err(Reason::Places));
    };
    if !left.is_empty() {
        return Ok(Err(Reason::Form));
    }
    Ok(Ok(set))
}

/// The numbers of the entries whose ids some bytes begin with, in their order, and the bytes after these ids.
fn chosen<'a>(
    alloc: Global,
    stranded: &[Stranded],
    bytes: &'a [u8],
) -> Result<(Vec<usize>, &'a [u8]), AllocError>
    requires { AreInOrder (λ a b. IsBelow a.id b.id) stranded.now }
    ensures found { IfOk result (λ found.
        Begins bytes.now (flat_map (λ item. item) (ids_of stranded.now found.0.items)) found.1.now) }
    ensures same { IfOk result (λ found. (set after : List ℕ)
        → HasChosen stranded.now bytes.now set after → (found.0.items ≡ set) × (found.1.now ≡ after)) }
    ensures within { IfOk result (λ found. All (λ i. i < length stranded.now) found.0.items) }
{
    let mut set = Vec::new(alloc);
    let mut left = bytes;
    for (number, entry) in stranded.iter().enumerate() {
        if let Some(after) = after_id(left, entry.id) {
            set.push(number)?;
            left = after;
        }
    }
    Ok((set, left))
}

/// The bytes after the rooms of the consumers that some entry of the set is allowed, if some bytes begin with these.
fn after_rooms<'a>(
    problem: &Problem,
    snapshot: &Snapshot,
    set: &[usize],
    bytes: &'a [u8],
) -> Option<&'a [u8]>
    requires problem { problem.now ≡ problem_of snapshot.now }
    requires entries { All (λ i. i < problem.now.entries) set.now }
    ensures found { IfSome result (λ after.
        Begins bytes.now (rooms_answer problem.now set.now snapshot.now.live) after.now) }
    ensures none { IfNone result ((after : List ℕ)
        → Begins bytes.now (rooms_answer problem.now set.now snapshot.now.live) after → ⊥) }
{
    snapshot.sound();
    let live = snapshot.live();
    let mut left = after_header(bytes, reached(problem, live, set))?;
    for (number, consumer) in live.iter().enumerate() {
        if is_reached(problem, set, number) {
            left = after_share(left, &consumer.name, consumer.room())?;
        }
    }
    Some(left)
}

/// How many consumers some entry of the set is allowed.
fn reached(problem: &Problem, live: &[Live], set: &[usize]) -> usize
    requires each { length live.now ≡ problem.now.takers }
    requires entries { All (λ i. i < problem.now.entries) set.now }
    ensures { result ≡ length (reached_from problem.now set.now 0 live.now) }
{
    let mut count = 0;
    for (number, _) in live.iter().enumerate() {
        if is_reached(problem, set, number) {
            count += 1;
        }
    }
    count
}
