ghost use Rattle.std.specs.Prelude.{◌≡◌, ◌↔◌, ◌+◌, List, ◌∷◌, length, take, IsTrue, IfSome, IfNone, IfOk};
ghost use Rattle.sr_args.specs.FormWord.{Word};
ghost use Rattle.sr_args.specs.Form.{Reading, Reads, AreNoneOf};
ghost use Rattle.sr_args.specs.Options.{Written, IsUnnamed};
ghost use Rattle.sr_args.specs.commands.Xclaim as xclaim_form;
ghost use Rattle.sr_args.specs.steps.Claims.{claim_reading, IsSkipped};
ghost use Rattle.sr_args.specs.steps.Gives.{Gives};
ghost use Rattle.sr_args.specs.steps.Options.{AreJudged};

use crate::commands::named::{ConsumerWords, consumer_words, copy_consumer};
use crate::name::{Choice, OptionSet, is_named};
use crate::number::read_int;
use crate::options::{ValueFault, names_option, read_options};
use crate::same::{same_ids, same_number};
use crate::table::Row;
use crate::value::{are_first_ids, copy_first_ids};
use crate::{Call, CallFault, OptionName};
use sr_bytes::{Name, Unread};
use sr_ids::Ids;
use std::alloc::{AllocError, Global};

/// What the table says of XCLAIM.
pub(crate) const ROW: Row = Row {
    first: b"XCLAIM",
    second: None,
    fewest: 6,
    most: None,
};

/// When a claimed entry counts as delivered.
///
/// Source: Redis documentation, command XCLAIM.
#[derive(Clone, Copy, PartialEq, Eq)]
pub enum TimeAsked {
    /// Now.
    Now,
    /// IDLE: that many milliseconds ago.
    Idle(u64),
    /// TIME: at this moment, in milliseconds since 1970.
    At(u64),
}

/// XCLAIM: the pending entries with these ids become the consumer's.
///
/// Source: Redis documentation, command XCLAIM.
#[derive(Drop)]
pub struct Xclaim {
    pub key: Name,
    pub group: Name,
    pub consumer: Name,
    /// For how many milliseconds they are idle at least.
    pub least_idle: i64,
    pub ids: Ids,
    pub time: TimeAsked,
    /// RETRYCOUNT: how often they count as delivered.
    pub count: Option<u64>,
    /// Whether their ids are replied, and not the entries.
    pub just_ids: bool,
}

impl Xclaim {
    /// A copy with the same parts.
    pub(crate) fn copy(&self, alloc: Global) -> Result<Xclaim, AllocError>
        ensures { IfOk result (λ copy. copy ≡ self.now) }
    {
        let key = self.key.copy(alloc)?;
        let group = self.group.copy(alloc)?;
        let consumer = self.consumer.copy(alloc)?;
        let ids = self.ids.copy(alloc)?;
        Ok(Xclaim {
            key,
            group,
            consumer,
            least_idle: self.least_idle,
            ids,
            time: self.time,
            count: self.count,
            just_ids: self.just_ids,
        })
    }

    /// Whether the other has the same parts.
    pub(crate) fn equals(&self, other: &Xclaim) -> bool
        ensures { IsTrue result ↔ (self.now ≡ other.now) }
    {
        self.key == other.key
            && self.group == other.group
            && self.consumer == other.consumer
            && self.least_idle == other.least_idle
            && same_ids(&self.ids, &other.ids)
            && same_time(self.time, other.time)
            && same_number(self.count, other.count)
            && self.just_ids == other.just_ids
    }
}

/// The words of XCLAIM, in their places, and what its options ask for.
#[derive(Drop)]
struct ClaimWords<'a> {
    named: ConsumerWords<'a>,
    least_idle: &'a [u8],
    /// The words from the first id on.
    from_ids: Unread<'a>,
    /// How many of these are ids.
    ids: usize,
    judged: Result<Choice, ValueFault>,
}

/// `XCLAIM key group consumer least_idle id [id ..] [IDLE number] [TIME number] [RETRYCOUNT number] [JUSTID]`
pub(crate) fn read_xclaim(alloc: Global, words: Unread<'_>) -> Result<Call, CallFault>
    ensures { Gives xclaim_form.form xclaim_form.call words.entry result }
{
    let Some(read) = claim_words(words) else {
        return Err(CallFault::Syntax);
    };
    let Some(least_idle) = read_int(read.least_idle) else {
        return Err(CallFault::Number);
    };
    let choice = read.judged?;
    if !are_first_ids(read.from_ids.again(), read.ids) {
        return Err(CallFault::BadId);
    }
    let ids = copy_first_ids(alloc, read.from_ids, read.ids)?;
    let named = copy_consumer(alloc, read.named)?;
    Ok(Call::Xclaim(Xclaim {
        key: named.key,
        group: named.group,
        consumer: named.consumer,
        least_idle,
        ids,
        time: choice.time,
        count: choice.delivered,
        just_ids: choice.just_ids,
    }))
}

/// The words of XCLAIM: the key, the group, the consumer, a number, ids, and options in any order.
fn claim_words(mut words: Unread<'_>) -> Option<ClaimWords<'_>>
    ensures found { IfSome result (λ read. (written : List Written) × AreJudged written read.judged
        × Reads xclaim_form.form words.entry (claim_reading read.named.key.now read.named.group.now
        read.named.consumer.now read.least_idle.now (take read.ids read.from_ids) written)) }
    ensures none { IfNone result ((reading : Reading xclaim_form.form) →
        Reads xclaim_form.form words.entry reading → ⊥) }
{
    let named = consumer_words(&mut words)?;
    let least_idle = words.next()?;
    if !are_supported(words.again()) {
        return None;
    }
    let from_ids = words.again();
    let ids = skip_ids(&mut words);
    if ids == 0 {
        return None;
    }
    let judged = read_options(OptionSet::Xclaim, &mut words)?;
    if let Some(_) = words.next() {
        return None;
    }
    Some(ClaimWords {
        named,
        least_idle,
        from_ids,
        ids,
        judged,
    })
}

/// Whether no word names an option of Redis that is not supported.
fn are_supported(mut words: Unread<'_>) -> bool
    ensures { IsTrue result ↔ AreNoneOf xclaim_form.unsupported words.entry }
{
    while let Some(word) = words.next() {
        if is_named(word, OptionName::Force) || is_named(word, OptionName::LastId) {
            return false;
        }
    }
    true
}

/// Reads the words up to the first that names an option of XCLAIM, and counts them.
fn skip_ids(words: &mut Unread<'_>) -> usize
    ensures found { IsSkipped OptionSet.Xclaim words.old words.new }
    ensures count { result + length words.new ≡ length words.old }
    ensures end { (word : Word) (rest : List Word) → words.new ≡ word ∷ rest →
        IsUnnamed OptionSet.Xclaim word → ⊥ }
{
    let all = words.len();
    while let Some(word) = words.peek() {
        if names_option(OptionSet::Xclaim, word) {
            break;
        }
        words.next();
    }
    all - words.len()
}

/// Whether two times are the same.
fn same_time(a: TimeAsked, b: TimeAsked) -> bool
    ensures { IsTrue result ↔ (a ≡ b) }
{
    a == b
}
