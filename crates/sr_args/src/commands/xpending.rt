ghost use Rattle.std.specs.Prelude.{◌≡◌, ℤ, Option, IfSome, IfNone, IfOk, ◌↔◌, IsTrue};
ghost use Rattle.std.specs.Option.{option_copied};
ghost use Rattle.sr_args.specs.Form.{Reading, Reads, maybe, named_places};
ghost use Rattle.sr_args.specs.FormWord.{int};
ghost use Rattle.sr_args.specs.commands.Xpending as xpending_form;
ghost use Rattle.sr_args.specs.steps.Gives.{Gives};
ghost use Rattle.sr_args.specs.steps.Numbers.{IsAnyWord};
ghost use Rattle.sr_args.specs.steps.Options.{Begins, BeginsNone};
ghost use Rattle.sr_args.specs.steps.Pending.{idle_name, listing_reading, IsBeforeStart, IsPastIdle, IsMaybeInt};

use crate::name::Numbered;
use crate::names::copy_name;
use crate::number::read_int;
use crate::same::{same_count, same_id, same_name};
use crate::table::Row;
use crate::value::{copy_word, number_word};
use crate::{Call, CallFault, OptionName};
use sr_bytes::{Name, Unread};
use sr_ids::{Id, parse_end, parse_start};
use std::alloc::{AllocError, Global};

/// What the table says of XPENDING.
pub(crate) const ROW: Row = Row {
    first: b"XPENDING",
    second: None,
    fewest: 3,
    most: Some(9),
};

/// Which pending entries XPENDING lists.
///
/// Source: Redis documentation, command XPENDING.
#[derive(Drop)]
pub struct PendingAsked {
    /// IDLE: for how many milliseconds they are idle at least.
    pub least_idle: Option<i64>,
    pub start: Id,
    pub end: Id,
    /// How many at most.
    pub count: i64,
    /// Whose they are, if those of one consumer are wanted.
    pub consumer: Option<Name>,
}

impl PendingAsked {
    /// A copy with the same parts.
    fn copy(&self, alloc: Global) -> Result<PendingAsked, AllocError>
        ensures { IfOk result (λ copy. copy ≡ self.now) }
    {
        let consumer = copy_name(alloc, &self.consumer)?;
        Ok(PendingAsked {
            least_idle: self.least_idle,
            start: self.start,
            end: self.end,
            count: self.count,
            consumer,
        })
    }

    /// Whether the same pending entries are listed.
    pub fn equals(&self, other: &PendingAsked) -> bool
        ensures { IsTrue result ↔ (self.now ≡ other.now) }
    {
        same_count(self.least_idle, other.least_idle)
            && same_id(self.start, other.start)
            && same_id(self.end, other.end)
            && self.count == other.count
            && same_name(&self.consumer, &other.consumer)
    }
}

/// XPENDING: what is pending in a group, in sum or as a list.
///
/// Source: Redis documentation, command XPENDING.
#[derive(Drop)]
pub struct Xpending {
    pub key: Name,
    pub group: Name,
    pub listing: Option<PendingAsked>,
}

impl Xpending {
    /// A copy with the same parts.
    pub(crate) fn copy(&self, alloc: Global) -> Result<Xpending, AllocError>
        ensures { IfOk result (λ copy. copy ≡ self.now) }
    {
        let key = self.key.copy(alloc)?;
        let group = self.group.copy(alloc)?;
        let listing = copy_listing(alloc, &self.listing)?;
        Ok(Xpending {
            key,
            group,
            listing,
        })
    }

    /// Whether the other has the same parts.
    pub(crate) fn equals(&self, other: &Xpending) -> bool
        ensures { IsTrue result ↔ (self.now ≡ other.now) }
    {
        self.key == other.key
            && self.group == other.group
            && same_listing(&self.listing, &other.listing)
    }
}

/// The words of a listing, in their places.
#[derive(Clone, Copy)]
struct ListingWords<'a> {
    least_idle: Option<&'a [u8]>,
    start: &'a [u8],
    end: &'a [u8],
    count: &'a [u8],
    consumer: Option<&'a [u8]>,
}

/// `XPENDING key group [[IDLE number] start end count [consumer]]`
pub(crate) fn read_xpending(alloc: Global, mut words: Unread<'_>) -> Result<Call, CallFault>
    ensures { Gives xpending_form.form xpending_form.call words.entry result }
{
    let Some(key) = words.next() else {
        return Err(CallFault::Syntax);
    };
    let Some(group) = words.next() else {
        return Err(CallFault::Syntax);
    };
    let listing = read_maybe_listing(alloc, words)?;
    let key = copy_word(alloc, key)?;
    let group = copy_word(alloc, group)?;
    Ok(Call::Xpending(Xpending {
        key,
        group,
        listing,
    }))
}

/// `[[IDLE number] start end count [consumer]]`
fn read_maybe_listing(alloc: Global, words: Unread<'_>) -> Result<Option<PendingAsked>, CallFault>
    ensures { Gives (maybe xpending_form.listing) xpending_form.asked_if words.entry result }
{
    if words.is_empty() {
        return Ok(None);
    }
    let listing = read_listing(alloc, words)?;
    Ok(Some(listing))
}

/// `[IDLE number] start end count [consumer]`
fn read_listing(alloc: Global, words: Unread<'_>) -> Result<PendingAsked, CallFault>
    ensures { Gives xpending_form.listing xpending_form.asked words.entry result }
{
    let Some(read) = listing_words(words) else {
        return Err(CallFault::Syntax);
    };
    let Some(least_idle) = read_maybe_int(read.least_idle) else {
        return Err(CallFault::Number);
    };
    let Some(count) = read_int(read.count) else {
        return Err(CallFault::Number);
    };
    let Some(start) = parse_start(read.start) else {
        return Err(CallFault::BadId);
    };
    let Some(end) = parse_end(read.end) else {
        return Err(CallFault::BadId);
    };
    let consumer = copy_maybe_word(alloc, read.consumer)?;
    Ok(PendingAsked {
        least_idle,
        start,
        end,
        count,
        consumer,
    })
}

/// The words of a listing: the least idle time or nothing, two ids, a number, and a consumer or nothing.
fn listing_words(mut words: Unread<'_>) -> Option<ListingWords<'_>>
    ensures found { IfSome result (λ read. Reads xpending_form.listing words.entry
        (listing_reading (option_copied read.least_idle) read.start.now read.end.now read.count.now
        (option_copied read.consumer))) }
    ensures none { IfNone result ((reading : Reading xpending_form.listing) →
        Reads xpending_form.listing words.entry reading → ⊥) }
{
    let least_idle = idle_word(&mut words)?;
    let start = words.next()?;
    let end = words.next()?;
    let count = words.next()?;
    let consumer = words.next();
    if !words.is_empty() {
        return None;
    }
    Some(ListingWords {
        least_idle,
        start,
        end,
        count,
        consumer,
    })
}

/// `[IDLE number]`
fn idle_word<'a>(words: &mut Unread<'a>) -> Option<Option<&'a [u8]>>
    ensures found { IfSome result (λ read.
        Begins (named_places idle_name int) IsAnyWord IsBeforeStart words.old (option_copied read) words.new) }
    ensures none { IfNone result (BeginsNone (named_places idle_name int) IsAnyWord IsBeforeStart words.old) }
    ensures past { IfSome result (λ read. IsPastIdle (option_copied read) words.new) }
{
    number_word(OptionName::Numbered(Numbered::Idle), words)
}

/// The number that a word writes, if there is a word.
fn read_maybe_int(word: Option<&[u8]>) -> Option<Option<i64>>
    ensures found { IfSome result (IsMaybeInt (option_copied word.entry)) }
    ensures none { IfNone result ((z : Option ℤ) → IsMaybeInt (option_copied word.entry) z → ⊥) }
{
    match word {
        None => Some(None),
        Some(word) => Some(Some(read_int(word)?)),
    }
}

/// A copy of a word, if there is one.
fn copy_maybe_word(alloc: Global, word: Option<&[u8]>) -> Result<Option<Name>, AllocError>
    ensures { IfOk result (λ copy. copy ≡ option_copied word.entry) }
{
    match word {
        None => Ok(None),
        Some(word) => Ok(Some(copy_word(alloc, word)?)),
    }
}

/// A copy of what is listed, if anything is.
fn copy_listing(
    alloc: Global,
    listing: &Option<PendingAsked>,
) -> Result<Option<PendingAsked>, AllocError>
    ensures { IfOk result (λ copy. copy ≡ listing.now) }
{
    match listing {
        None => Ok(None),
        Some(listing) => Ok(Some(listing.copy(alloc)?)),
    }
}

/// Whether the same pending entries are listed, or none.
fn same_listing(a: &Option<PendingAsked>, b: &Option<PendingAsked>) -> bool
    ensures { IsTrue result ↔ (a.now ≡ b.now) }
{
    match (a, b) {
        (Some(a), Some(b)) => a.equals(b),
        (None, None) => true,
        _ => false,
    }
}
