ghost use Rattle.std.specs.Prelude.{◌≡◌, List, IfSome, IfNone, ◌↔◌, IsTrue, IfOk};
ghost use Rattle.sr_args.specs.FormWord.{IdForm, IdOf, Spells, HasId, spelled};
ghost use Rattle.sr_args.specs.Options.{Written};
ghost use Rattle.sr_args.specs.Form.{Reading, Reads};
ghost use Rattle.sr_args.specs.commands.Xrange as xrange_form;
ghost use Rattle.sr_args.specs.commands.Xrevrange as xrevrange_form;
ghost use Rattle.sr_args.specs.steps.Gives.{Gives};
ghost use Rattle.sr_args.specs.steps.Options.{AreJudged};
ghost use Rattle.sr_args.specs.steps.Ranges.{range_form, range_reading, spelling_of, id_at, asked_of};

use crate::name::{Choice, OptionSet};
use crate::options::{ValueFault, read_options};
use crate::same::{same_count, same_id};
use crate::table::Row;
use crate::value::copy_word;
use crate::{Call, CallFault};
use sr_bytes::{Name, Unread};
use sr_ids::{Id, parse_end, parse_start};
use std::alloc::{AllocError, Global};

/// What the table says of XRANGE.
pub(crate) const XRANGE_ROW: Row = Row {
    first: b"XRANGE",
    second: None,
    fewest: 4,
    most: Some(6),
};

/// XRANGE: the entries from one id to another, and how many are wanted at most.
///
/// Source: Redis documentation, command XRANGE.
#[derive(Drop)]
pub struct Xrange {
    pub key: Name,
    pub start: Id,
    pub end: Id,
    pub count: Option<i64>,
}

impl Xrange {
    /// A copy with the same parts.
    pub(crate) fn copy(&self, alloc: Global) -> Result<Xrange, AllocError>
        ensures { IfOk result (λ copy. copy ≡ self.now) }
    {
        let key = self.key.copy(alloc)?;
        Ok(Xrange {
            key,
            start: self.start,
            end: self.end,
            count: self.count,
        })
    }

    /// Whether the other has the same parts.
    pub(crate) fn equals(&self, other: &Xrange) -> bool
        ensures { IsTrue result ↔ (self.now ≡ other.now) }
    {
        self.key == other.key
            && same_id(self.start, other.start)
            && same_id(self.end, other.end)
            && same_count(self.count, other.count)
    }
}

/// What the table says of XREVRANGE.
pub(crate) const XREVRANGE_ROW: Row = Row {
    first: b"XREVRANGE",
    second: None,
    fewest: 4,
    most: Some(6),
};

/// XREVRANGE: the same entries, the last of them first.
///
/// Source: Redis documentation, command XREVRANGE.
#[derive(Drop)]
pub struct Xrevrange {
    pub key: Name,
    pub end: Id,
    pub start: Id,
    pub count: Option<i64>,
}

impl Xrevrange {
    /// A copy with the same parts.
    pub(crate) fn copy(&self, alloc: Global) -> Result<Xrevrange, AllocError>
        ensures { IfOk result (λ copy. copy ≡ self.now) }
    {
        let key = self.key.copy(alloc)?;
        Ok(Xrevrange {
            key,
            end: self.end,
            start: self.start,
            count: self.count,
        })
    }

    /// Whether the other has the same parts.
    pub(crate) fn equals(&self, other: &Xrevrange) -> bool
        ensures { IsTrue result ↔ (self.now ≡ other.now) }
    {
        self.key == other.key
            && same_id(self.end, other.end)
            && same_id(self.start, other.start)
            && same_count(self.count, other.count)
    }
}

/// The words of XRANGE or of XREVRANGE, in their places.
#[derive(Clone, Copy)]
struct RangeWords<'a> {
    key: &'a [u8],
    first: &'a [u8],
    second: &'a [u8],
    /// What its options ask for.
    judged: Result<Choice, ValueFault>,
}

/// Which end of a range an id is.
#[derive(Clone, Copy)]
pub(crate) enum Bound {
    Start,
    End,
}

/// What XRANGE or XREVRANGE asks for, with its ids in the order in which they are written.
#[derive(Drop)]
pub(crate) struct Asked {
    pub(crate) key: Name,
    pub(crate) first: Id,
    pub(crate) second: Id,
    pub(crate) count: Option<i64>,
}

/// `XRANGE key start end [COUNT int]`
pub(crate) fn read_xrange(alloc: Global, words: Unread<'_>) -> Result<Call, CallFault>
    ensures { Gives xrange_form.form xrange_form.call words.entry result }
{
    let asked = read_range(alloc, words, Bound::Start, Bound::End)?;
    Ok(Call::Xrange(Xrange {
        key: asked.key,
        start: asked.first,
        end: asked.second,
        count: asked.count,
    }))
}

/// `XREVRANGE key end start [COUNT int]`
pub(crate) fn read_xrevrange(alloc: Global, words: Unread<'_>) -> Result<Call, CallFault>
    ensures { Gives xrevrange_form.form xrevrange_form.call words.entry result }
{
    let asked = read_range(alloc, words, Bound::End, Bound::Start)?;
    Ok(Call::Xrevrange(Xrevrange {
        key: asked.key,
        end: asked.first,
        start: asked.second,
        count: asked.count,
    }))
}

/// `key id id [COUNT int]`, where the ids are these ends of a range.
fn read_range(
    alloc: Global,
    words: Unread<'_>,
    first: Bound,
    second: Bound,
) -> Result<Asked, CallFault>
    ensures { Gives (range_form (spelling_of first) (spelling_of second)) (asked_of first second) words.entry result }
{
    let Some(read) = range_words(words) else {
        return Err(CallFault::Syntax);
    };
    let choice = read.judged?;
    let Some(first) = read_bound(first, read.first) else {
        return Err(CallFault::BadId);
    };
    let Some(second) = read_bound(second, read.second) else {
        return Err(CallFault::BadId);
    };
    let key = copy_word(alloc, read.key)?;
    Ok(Asked {
        key,
        first,
        second,
        count: choice.count,
    })
}

/// The id that a word spells as this end of a range.
fn read_bound(bound: Bound, word: &[u8]) -> Option<Id>
    ensures found { IfSome result (λ id. (written : IdOf (spelling_of bound)) ×
        Spells (spelling_of bound) word.now written × (id ≡ id_at bound written)) }
    ensures none { IfNone result (HasId (spelled (spelling_of bound) word.now) → ⊥) }
{
    match bound {
        Bound::Start => parse_start(word),
        Bound::End => parse_end(word),
    }
}

/// The words of a range, whichever of its ids comes first, and what its options ask for.
fn range_words(mut words: Unread<'_>) -> Option<RangeWords<'_>>
    ensures found { IfSome result (λ read. (written : List Written) ×
        ((first second : IdForm) → Reads (range_form first second) words.entry
        (range_reading read.key.now read.first.now read.second.now written first second)) ×
        AreJudged written read.judged) }
    ensures none { IfNone result ((first second : IdForm) (reading : Reading (range_form first second)) →
        Reads (range_form first second) words.entry reading → ⊥) }
{
    let key = words.next()?;
    let first = words.next()?;
    let second = words.next()?;
    let judged = read_options(OptionSet::Range, &mut words)?;
    if let Some(_) = words.next() {
        return None;
    }
    Some(RangeWords {
        key,
        first,
        second,
        judged,
    })
}
