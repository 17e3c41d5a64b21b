ghost use Rattle.std.specs.Prelude.{◌≡◌, ◌<◌, ◌≤◌, ◌⊎◌, ℕ, ◌∷◌, ◌++◌, [], List, Option, false, true, IfNone, IfOk};
ghost use Rattle.std.specs.Prelude.{IfSome, IsErrOf, OnErr, OnOk, length, vec_len, drop};
ghost use Rattle.sr_resp.specs.Reading.{Sorts};
ghost use Rattle.sr_resp.specs.Request.{Words, Spells};
ghost use Rattle.sr_resp.specs.Stream.{Stands, Advances, LooksOnce, Splits, IsPartial, IsFault};
ghost use Rattle.sr_resp.specs.declared.reader.ReadFault.TheVariants.{Memory};

use crate::request::Request;
use crate::scan::{Reached, sort_out};
use crate::stage::{Stage, WordBounds};
use sr_bytes::Words;
use std::alloc::{AllocError, Global};
use std::collections::VecDeque;
use std::marker::Model;

/// Why a piece was refused.
#[derive(Clone, Copy, Debug, PartialEq, Eq)]
pub enum ReadFault {
    /// An allocation failed. The piece was not taken, and all of the reader but `looked` is as it was before.
    Memory,
    /// The stream went wrong. Every later piece is refused too. Requests that were complete before the fault are still
    /// handed out.
    Protocol,
}

impl From<AllocError> for ReadFault {
    ghost from_gives = { λ _ e. e ≡ Memory };

    fn from(_e: AllocError) -> ReadFault {
        ReadFault::Memory
    }
}

/// Reads the requests of a stream that comes in pieces of any size.
///
/// Source: RESP2 protocol specification, "Sending commands to a Redis server".
pub struct Reader {
    /// The complete requests that are not handed out yet, oldest first.
    waiting: VecDeque<Request>,
    /// The bytes after them: those of the item under way.
    rest: Vec<u8>,
    /// How far that item has come.
    stage: Stage,
    /// Where its whole words stand in its bytes.
    places: Vec<WordBounds>,
    /// Whether the stream went wrong.
    failed: bool,
    /// How many bytes were looked at.
    looked: u64,
}

// A function of its own, so that a caller that lets go of one is proved without looking at its parts.
impl Drop for Reader {
    fn drop(self) {
        let Reader {
            waiting: _,
            rest: _,
            stage: _,
            places: _,
            failed: _,
            looked: _,
        } = self;
    }
}

impl Model for Reader {
    ghost use Rattle.sr_resp.specs.Stream.{Progress};

    ghost Value = { Progress };

    ghost view = { λ r. record
        { waiting = r.waiting.items; rest = r.rest.items; failed = r.failed; looked = r.looked } };

    ghost use Rattle.sr_resp.specs.Scanning.{IsReaderAt};

    ghost invariant = { λ r. IsReaderAt r.failed r.rest.items r.places.items r.stage };
}

impl Reader {
    /// A reader at the start of a stream. Takes no memory.
    pub fn new(alloc: Global) -> Reader
        ensures stands { Stands [] [] result }
        ensures fresh { (result.waiting ≡ []) × (result.failed ≡ false) × (result.looked ≡ 0) }
    {
        Reader {
            waiting: VecDeque::new(alloc),
            rest: Vec::new(alloc),
            stage: Stage::Start,
            places: Vec::new(alloc),
            failed: false,
            looked: 0,
        }
    }

    /// Takes the next piece of the stream.
    pub fn feed(&mut self, alloc: Global, piece: &[u8]) -> Result<(), ReadFault>
        ensures ok { OnOk result (self.new.failed ≡ false) }
        ensures advances { OnOk result (Advances self.old self.new piece.now) }
        ensures protocol { IsErrOf result ReadFault.Protocol
            → (self.new.failed ≡ true) × Advances self.old self.new piece.now }
        ensures memory { IsErrOf result ReadFault.Memory → self.new ≡ record self.old { looked = self.new.looked } }
        // taken or not, at most as many bytes were looked at as the piece has
        ensures looked { LooksOnce self.old self.new piece.now }
        // after a fault every piece is refused, and the waiting requests stay
        ensures failed { self.old.failed ≡ true → (result ≡ Err ReadFault.Protocol) × (self.new ≡ self.old) }
    {
        if self.failed {
            return Err(ReadFault::Protocol);
        }
        self.take_in(alloc, piece)?;
        if self.failed {
            Err(ReadFault::Protocol)
        } else {
            Ok(())
        }
    }

    /// Moves the requests that are complete with the piece to the waiting ones, and keeps the bytes after them.
    fn take_in(&mut self, alloc: Global, piece: &[u8]) -> Result<(), AllocError>
        requires { self.old.failed ≡ false }
        ensures ok { OnOk result (Sorts (record self.old { rest = self.old.rest ++ piece.now }) self.new) }
        ensures err { OnErr result (self.new ≡ record self.old { looked = self.new.looked }) }
        ensures looked { LooksOnce self.old self.new piece.now }
    {
        if self.rest.is_empty() {
            self.take_fresh(alloc, piece)
        } else {
            self.take_on(alloc, piece)
        }
    }

    /// The same where no bytes are left of the pieces before: those of a complete request are read where they lie.
    fn take_fresh(&mut self, alloc: Global, piece: &[u8]) -> Result<(), AllocError>
        requires open { self.old.failed ≡ false }
        requires fresh { self.old.rest ≡ [] }
        ensures ok { OnOk result (Sorts (record self.old { rest = self.old.rest ++ piece.now }) self.new) }
        ensures err { OnErr result (self.new ≡ record self.old { looked = self.new.looked }) }
        ensures looked { LooksOnce self.old self.new piece.now }
    {
        let (words, requests) = (self.places.len(), self.waiting.len());
        let sorted = sort_out(
            alloc,
            piece,
            0,
            self.stage,
            &mut self.places,
            &mut self.waiting,
            &mut self.looked,
        );
        match keep_rest(&mut self.rest, piece, sorted) {
            Ok(reached) => {
                drop_front(&mut self.places, reached.first);
                self.stage = reached.stage;
                self.failed = reached.fault;
                Ok(())
            }
            Err(AllocError) => {
                self.places.truncate(words);
                self.waiting.truncate(requests);
                Err(AllocError)
            }
        }
    }

    /// Appends the piece to the rest, and moves the complete requests to the waiting ones.
    fn take_on(&mut self, alloc: Global, piece: &[u8]) -> Result<(), AllocError>
        requires { self.old.failed ≡ false }
        ensures ok { OnOk result (Sorts (record self.old { rest = self.old.rest ++ piece.now }) self.new) }
        ensures err { OnErr result (self.new ≡ record self.old { looked = self.new.looked }) }
        ensures looked { LooksOnce self.old self.new piece.now }
    {
        let (bytes, words, requests) = (self.rest.len(), self.places.len(), self.waiting.len());
        let missing = missing_in(self.stage).saturating_sub(piece.len());
        append(&mut self.rest, piece, missing)?;
        match sort_out(
            alloc,
            self.rest.as_slice(),
            bytes,
            self.stage,
            &mut self.places,
            &mut self.waiting,
            &mut self.looked,
        ) {
            Ok(reached) => {
                drop_front(&mut self.rest, reached.start);
                drop_front(&mut self.places, reached.first);
                self.stage = reached.stage;
                self.failed = reached.fault;
                Ok(())
            }
            Err(AllocError) => {
                self.rest.truncate(bytes);
                self.places.truncate(words);
                self.waiting.truncate(requests);
                Err(AllocError)
            }
        }
    }

    /// How many bytes were looked at so far, or the greatest number if there were more. Those of a piece that was not
    /// taken count as well.
    pub fn looked(&self) -> u64
        ensures { result ≡ self.now.looked }
    {
        self.looked
    }

    /// Hands out the oldest waiting request. Takes no memory.
    pub fn next_request(&mut self) -> Option<Words>
        ensures some { IfSome result (λ words.
            self.old ≡ record self.new { waiting = words ∷ self.new.waiting }) }
        ensures words { IfSome result (λ words. 0 < length words) }
        ensures given { IfSome result (λ words. (taken : List ℕ) (given : List Words)
            → Stands taken given self.old → Stands taken (given ++ words ∷ []) self.new) }
        ensures none { IfNone result ((self.old.waiting ≡ []) × (self.new ≡ self.old)) }
    {
        let request = self.waiting.pop_front()?;
        Some(request.into_words())
    }
}

/// Keeps what follows the complete requests of a piece, if there was memory for these. Where memory is refused, `rest`
/// is as it was.
fn keep_rest(
    rest: &mut Vec<u8>,
    piece: &[u8],
    sorted: Result<Reached, AllocError>,
) -> Result<Reached, AllocError>
    requires { IfOk sorted (λ reached. reached.start ≤ length piece.now) }
    ensures ok { IfOk result (λ reached. (sorted ≡ Ok reached)
        × (rest.new.items ≡ rest.old.items ++ drop reached.start piece.now)) }
    ensures err { OnErr result (rest.new.items ≡ rest.old.items) }
{
    let reached = sorted?;
    append(rest, &piece[reached.start..], missing_in(reached.stage))?;
    Ok(reached)
}

/// How many bytes of a word are still to come in this stage, by its header.
fn missing_in(stage: Stage) -> usize {
    match stage {
        Stage::Body { missing, .. } => missing,
        _ => 0,
    }
}

/// Appends bytes that came to the rest. After them that many bytes of a word are still to come.
fn append(rest: &mut Vec<u8>, came: &[u8], missing: usize) -> Result<(), AllocError>
    ensures ok { OnOk result (rest.new.items ≡ rest.old.items ++ came.now) }
    ensures err { OnErr result (rest.new.items ≡ rest.old.items) }
{
    make_room(rest, came.len(), missing);
    rest.extend_from_slice(came)
}

/// For a word of which at most this many times the bytes that are there are still to come, room is made at once.
const MOST_TIMES: usize = 4;

/// Makes room for the whole word under way, and for as much after it as comes now, so that a long word does not have
/// the buffer grow again and again. Where memory is refused, it grows with what comes.
fn make_room(rest: &mut Vec<u8>, came: usize, missing: usize)
    ensures { rest.new.items ≡ rest.old.items }
{
    let (len, needed) = (rest.len(), came.saturating_add(missing));
    let is_much = missing > len.saturating_add(came).saturating_mul(MOST_TIMES);
    let is_short = missing == 0 || needed < len || needed <= rest.capacity().saturating_sub(len);
    if !is_much && !is_short {
        let _ = rest.reserve_exact(needed.saturating_add(came));
    }
}

/// The greatest capacity that a buffer keeps once a request is whole: that of a word of 64 KiB with what came with it,
/// in reads of 16 KiB.
const MAX_KEPT: usize = 98_304;

/// Removes this many items from the front. A long rest is not moved while nothing is removed.
fn drop_front<T: Copy>(items: &mut Vec<T>, count: usize)
    requires { count ≤ vec_len items.old }
    ensures { items.new.items ≡ drop count items.old.items }
{
    if count > 0 {
        let len = items.len();
        items.as_mut_slice().copy_within(count..len, 0);
        items.truncate(len - count);
        give_back(items);
    }
}

/// A block of at most this many bytes is given back whole, which the C library then uses again. A larger one is made
/// smaller: it stays a mapping of its own, which grows without being copied.
const MAX_WHOLE: usize = 2_097_152;

/// Gives memory beyond `MAX_KEPT` back.
fn give_back<T: Copy>(items: &mut Vec<T>)
    ensures { items.new.items ≡ items.old.items }
{
    let is_whole = items.is_empty() && items.capacity() > MAX_KEPT && items.capacity() <= MAX_WHOLE;
    items.shrink_to(if is_whole { 0 } else { MAX_KEPT });
}

/// Law: no spelling of a request or of an empty command begins another. Calling this has no effect.
pub fn one_spelling()
    ensures { (a b x y : List ℕ) (m n : Option Words) → Spells a m → Spells b n → a ++ x ≡ b ++ y → (a ≡ b) × (m ≡ n) }
{}

/// Law: a stream has one reading. Before a rest that is part of a spelling, or a fault, it has these requests and no
/// others. Calling this has no effect.
pub fn one_reading()
    ensures { (stream : List ℕ) (xs ys : List Words) (u v : List ℕ)
        → Splits stream xs u → (IsPartial u ⊎ IsFault u) → Splits stream ys v → (IsPartial v ⊎ IsFault v)
        → (xs ≡ ys) × (u ≡ v) }
{}
