ghost use Rattle.std.specs.Prelude.{◌≡◌, ◌++◌, ◌≤◌, ◌↔◌, ◌<◌, ◌+◌, ◌-◌, [], length, IsErrOf};
ghost use Rattle.std.specs.Prelude.{IfNone, IfSome, IsTrue, OnOk, OnErr};
ghost use Rattle.std.specs.Io.{StartsWith};
ghost use Rattle.sr_peer.specs.Arriving.{AreWhole, MayBecome, CannotBecome, Outgrows, most_bytes};
ghost use Rattle.sr_peer.specs.Reply.{Spell, items_of};
ghost use Rattle.sr_peer.specs.Shown.{part_of};
ghost use Rattle.sr_peer.specs.declared.answers.TakeFault.TheVariants.{Memory};
ghost use Rattle.sr_peer.specs.steps.Reading.{GrowsOn, ReadsOn};

use crate::first::{Front, first_part};
use crate::{Part, Parts};
use std::alloc::{AllocError, Global};
use std::marker::Model;

/// The most bytes that the replies to one exchange may have: 64 MiB.
pub const MOST_BYTES: usize = 67_108_864;

/// Why a piece was refused.
#[derive(Clone, Copy, Debug, PartialEq, Eq)]
pub enum TakeFault {
    /// An allocation failed.
    Memory,
    /// The bytes are not the replies that are awaited, whatever comes after them.
    Malformed,
    /// The replies would have more than `MOST_BYTES`.
    TooLong,
}

impl From<AllocError> for TakeFault {
    ghost from_gives = { λ _ e. e ≡ Memory };

    fn from(_e: AllocError) -> TakeFault {
        TakeFault::Memory
    }
}

/// How far a text has been read.
#[derive(Clone, Copy)]
struct ReadSoFar {
    /// How many bytes the whole parts have.
    at: usize,
    /// How many replies are to come after them.
    due: usize,
}

/// The replies to requests that were sent together, as far as they have arrived.
///
/// Source: RESP2 protocol specification, "RESP protocol description".
pub struct Answers {
    count: usize,
    text: Vec<u8>,
    place: ReadSoFar,
}

// A function of its own, so that a caller that lets go of one is proved without looking at its parts.
impl Drop for Answers {
    fn drop(self) {
        let Answers {
            count: _,
            text: _,
            place: _,
        } = self;
    }
}

impl Model for Answers {
    ghost use Rattle.sr_peer.specs.Arriving.{Awaited};

    ghost Value = { Awaited };

    ghost view = { λ a. record { count = a.count; text = a.text.items } };

    ghost use Rattle.sr_peer.specs.steps.Reading.{AreRead};

    ghost invariant = { λ a. AreRead a.count a.text.items a.place.at a.place.due };
}

impl Answers {
    /// None of this many replies has arrived. Takes no memory.
    pub fn new(alloc: Global, count: usize) -> Answers
        ensures { result ≡ record { count = count; text = [] } }
    {
        Answers {
            count,
            text: Vec::new(alloc),
            place: ReadSoFar { at: 0, due: count },
        }
    }

    /// Takes the next bytes, in pieces as they come.
    pub fn take(&mut self, piece: &[u8]) -> Result<(), TakeFault>
        ensures ok { OnOk result (self.new ≡ record self.old { text = self.old.text ++ piece.now }) }
        ensures short { length self.new.text ≤ most_bytes }
        // the bytes are refused at the first one that cannot belong to the replies
        ensures possible { OnOk result (MayBecome self.new.count self.new.text) }
        ensures malformed { IsErrOf result TakeFault.Malformed
            → CannotBecome self.old.count (self.old.text ++ piece.now) }
        ensures too_long { IsErrOf result TakeFault.TooLong
            → Outgrows self.old.count (self.old.text ++ piece.now) }
        ensures err { OnErr result (self.new ≡ self.old) }
    {
        let start = self.text.len();
        match grow(&mut self.text, piece, self.place) {
            Ok(place) => {
                self.place = place;
                Ok(())
            }
            Err(fault) => {
                self.text.truncate(start);
                Err(fault)
            }
        }
    }

    /// Whether all have arrived.
    pub fn are_whole(&self) -> bool
        ensures { IsTrue result ↔ AreWhole self.now.count self.now.text }
    {
        self.place.due == 0
    }

    /// The parts of all replies, in the order in which they came.
    pub fn parts(&self) -> Parts<'_>
        requires { AreWhole self.now.count self.now.text }
        ensures { Spell self.now.count self.now.text result }
    {
        Parts::new(self.text.as_slice())
    }

    /// The bytes that have come.
    pub fn text(&self) -> &[u8]
        ensures { result.now ≡ self.now.text }
    {
        self.text.as_slice()
    }
}

/// Appends a piece to a text that was read up to this place, and reads on. An `Err` may leave the piece there.
fn grow(text: &mut Vec<u8>, piece: &[u8], from: ReadSoFar) -> Result<ReadSoFar, TakeFault>
    requires at { from.at ≤ length text.old.items }
    requires short { length text.old.items ≤ most_bytes }
    ensures ok { OnOk result (text.new.items ≡ text.old.items ++ piece.now) }
    ensures short { OnOk result (length text.new.items ≤ most_bytes) }
    ensures reads { GrowsOn (text.old.items ++ piece.now) from.at from.due result }
    ensures err { OnErr result (StartsWith text.new.items text.old.items) }
{
    if piece.len() > MOST_BYTES - text.len() {
        return Err(TakeFault::TooLong);
    }
    text.extend_from_slice(piece)?;
    read_on(text.as_slice(), from)
}

/// Reads on from a place to the last whole part.
fn read_on(text: &[u8], from: ReadSoFar) -> Result<ReadSoFar, TakeFault>
    requires at { from.at ≤ length text.now }
    requires short { length text.now ≤ most_bytes }
    ensures { ReadsOn text.now from.at from.due result }
{
    let mut left = &text[from.at..];
    let mut due = from.due;
    while due > 0 {
        match first_part(left) {
            Front::Whole(part, after) => {
                let Some(next) = due_after(due, part) else {
                    return Err(TakeFault::TooLong);
                };
                due = next;
                left = after;
            }
            Front::Begun(least) => {
                if least > MOST_BYTES - text.len() {
                    return Err(TakeFault::TooLong);
                }
                return Ok(ReadSoFar {
                    at: text.len() - left.len(),
                    due,
                });
            }
            Front::Wrong => return Err(TakeFault::Malformed),
        }
    }
    if left.is_empty() {
        Ok(ReadSoFar {
            at: text.len(),
            due,
        })
    } else {
        Err(TakeFault::Malformed)
    }
}

/// How many replies are to come after the next part, if this many are to come before it. `None` if they cannot be
/// short enough.
fn due_after(due: usize, part: Part<'_>) -> Option<usize>
    requires { 0 < due }
    ensures found { IfSome result (λ left. left ≡ items_of (part_of part.entry) + (due - 1)) }
    ensures none { IfNone result (most_bytes < items_of (part_of part.entry) + (due - 1)) }
{
    let items = match part {
        Part::Array(items) => items,
        _ => 0,
    };
    let left = (due - 1).saturating_add(items);
    // Each of them takes a byte at least.
    if left > MOST_BYTES {
        return None;
    }
    Some(left)
}
