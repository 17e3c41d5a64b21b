//! The items in some bytes, examined from where the reader stopped.
ghost use Rattle.std.specs.Prelude.{◌≡◌, ℕ, ◌+◌, ◌-◌, ◌<◌, ◌≤◌, length, vec_len, take, All, IfOk};
ghost use Rattle.sr_resp.specs.Scanning.{Scans, Standing, SortsOut, unseen_in};
ghost use Rattle.sr_resp.specs.Stages.{IsStageAt};

use crate::request::Request;
use crate::stage::{Stage, Step, WordBounds};
use std::alloc::{AllocError, Global};
use std::collections::VecDeque;

/// What the bytes of an item have come to.
#[derive(Clone, Copy)]
pub enum Found {
    /// A request, which ends here.
    Request { end: usize },
    /// An empty command, which ends here.
    Empty { end: usize },
    /// A fault: no item can come.
    Fault,
    /// A part of an item, which ends in this stage.
    Part(Stage),
}

/// Examines the bytes of an item from the place where it stopped to the end of the item or of the bytes. Notes the
/// places of the words that end there, and how many bytes were looked at.
pub fn scan(
    item: &[u8],
    from: usize,
    entered: Stage,
    places: &mut Vec<WordBounds>,
    looked: &mut u64,
) -> Result<Found, AllocError>
    requires within { from ≤ length item.now }
    requires sound { IsStageAt from entered }
    ensures ok { IfOk result (λ found. Scans item.now from entered places.old.items places.new.items found) }
    ensures kept { take (length places.old.items) places.new.items ≡ places.old.items }
    ensures looked { (looked.old ≤ looked.new) × (looked.new ≤ looked.old + (length item.now - from)) }
    ensures once { IfOk result (λ found.
        looked.new + unseen_in item.now found ≤ looked.old + (length item.now - from)) }
{
    let mut at = from;
    let mut stage = entered;
    while at < item.len() {
        let (step, next) = stage.advance(item, at);
        *looked = looked.saturating_add((next - at) as u64);
        at = next;
        match step {
            Step::On(following) => stage = following,
            Step::Word(place, following) => {
                places.push(place)?;
                stage = following;
            }
            Step::Whole => return Ok(Found::Request { end: at }),
            Step::Empty => return Ok(Found::Empty { end: at }),
            Step::Bad => return Ok(Found::Fault),
        }
    }
    Ok(Found::Part(stage))
}

/// What follows the items that were whole.
#[derive(Clone, Copy)]
pub struct Reached {
    /// Where it begins.
    pub start: usize,
    /// The place of its first word, among those that were noted.
    pub first: usize,
    /// The stage in which it ends.
    pub stage: Stage,
    /// Whether it is a fault.
    pub fault: bool,
}

/// Examines the bytes from the place where the reader stopped to their end, or to a fault. The requests that are whole
/// then wait after the others.
pub fn sort_out(
    alloc: Global,
    bytes: &[u8],
    from: usize,
    entered: Stage,
    places: &mut Vec<WordBounds>,
    waiting: &mut VecDeque<Request>,
    looked: &mut u64,
) -> Result<Reached, AllocError>
    requires { Standing bytes.now places.old.items from entered }
    ensures ok { IfOk result (λ reached.
        SortsOut bytes.now places.new.items waiting.old.items waiting.new.items reached) }
    ensures places { take (length places.old.items) places.new.items ≡ places.old.items }
    ensures waiting { take (length waiting.old.items) waiting.new.items ≡ waiting.old.items }
    ensures looked { (looked.old ≤ looked.new) × (looked.new ≤ looked.old + (length bytes.now - from)) }
{
    let mut item = bytes;
    let mut at = from;
    let mut stage = entered;
    let mut first = 0;
    loop {
        let found = scan(item, at, stage, places, looked)?;
        // The next item is examined from its first byte on.
        at = 0;
        stage = Stage::Start;
        match found {
            Found::Request { end } => {
                let request = Request::gather(alloc, item, &places[first..])?;
                waiting.push_back(request)?;
                item = &item[end..];
                first = places.len();
            }
            Found::Empty { end } => {
                item = &item[end..];
                first = places.len();
            }
            Found::Part(ended) => {
                return Ok(Reached {
                    start: bytes.len() - item.len(),
                    first,
                    stage: ended,
                    fault: false,
                });
            }
            Found::Fault => {
                return Ok(Reached {
                    start: bytes.len() - item.len(),
                    first,
                    stage,
                    fault: true,
                });
            }
        }
    }
}
