ghost use Rattle.std.specs.Prelude.{◌≡◌, List, IfSome, IfNone, ◌↔◌, IsTrue, IfOk};
ghost use Rattle.sr_args.specs.Form.{Reading, Reads};
ghost use Rattle.sr_args.specs.Options.{Written};
ghost use Rattle.sr_args.specs.commands.Xautoclaim as xautoclaim_form;
ghost use Rattle.sr_args.specs.steps.Claims.{autoclaim_reading};
ghost use Rattle.sr_args.specs.steps.Gives.{Gives};
ghost use Rattle.sr_args.specs.steps.Options.{AreJudged};

use crate::commands::named::{ConsumerWords, consumer_words, copy_consumer};
use crate::name::{Choice, OptionSet};
use crate::number::read_int;
use crate::options::{ValueFault, read_options};
use crate::same::{same_count, same_id};
use crate::table::Row;
use crate::{Call, CallFault};
use sr_bytes::{Name, Unread};
use sr_ids::{Id, parse_start};
use std::alloc::{AllocError, Global};

/// What the table says of XAUTOCLAIM.
pub(crate) const ROW: Row = Row {
    first: b"XAUTOCLAIM",
    second: None,
    fewest: 6,
    most: Some(9),
};

/// XAUTOCLAIM: pending entries from an id on become the consumer's.
///
/// Source: Redis documentation, command XAUTOCLAIM.
#[derive(Drop)]
pub struct Xautoclaim {
    pub key: Name,
    pub group: Name,
    pub consumer: Name,
    /// For how many milliseconds they are idle at least.
    pub least_idle: i64,
    pub start: Id,
    pub count: Option<i64>,
    /// Whether their ids are replied, and not the entries.
    pub just_ids: bool,
}

impl Xautoclaim {
    /// A copy with the same parts.
    pub(crate) fn copy(&self, alloc: Global) -> Result<Xautoclaim, AllocError>
        ensures { IfOk result (λ copy. copy ≡ self.now) }
    {
        let key = self.key.copy(alloc)?;
        let group = self.group.copy(alloc)?;
        let consumer = self.consumer.copy(alloc)?;
        Ok(Xautoclaim {
            key,
            group,
            consumer,
            least_idle: self.least_idle,
            start: self.start,
            count: self.count,
            just_ids: self.just_ids,
        })
    }

    /// Whether the other has the same parts.
    pub(crate) fn equals(&self, other: &Xautoclaim) -> bool
        ensures { IsTrue result ↔ (self.now ≡ other.now) }
    {
        self.key == other.key
            && self.group == other.group
            && self.consumer == other.consumer
            && self.least_idle == other.least_idle
            && same_id(self.start, other.start)
            && same_count(self.count, other.count)
            && self.just_ids == other.just_ids
    }
}

/// The words of XAUTOCLAIM, in their places, and what its options ask for.
#[derive(Clone, Copy)]
struct AutoclaimWords<'a> {
    named: ConsumerWords<'a>,
    least_idle: &'a [u8],
    start: &'a [u8],
    judged: Result<Choice, ValueFault>,
}

/// `XAUTOCLAIM key group consumer least_idle start [COUNT number] [JUSTID]`
pub(crate) fn read_xautoclaim(alloc: Global, words: Unread<'_>) -> Result<Call, CallFault>
    ensures { Gives xautoclaim_form.form xautoclaim_form.call words.entry result }
{
    let Some(read) = autoclaim_words(words) else {
        return Err(CallFault::Syntax);
    };
    let Some(least_idle) = read_int(read.least_idle) else {
        return Err(CallFault::Number);
    };
    let choice = read.judged?;
    let Some(start) = parse_start(read.start) else {
        return Err(CallFault::BadId);
    };
    let named = copy_consumer(alloc, read.named)?;
    Ok(Call::Xautoclaim(Xautoclaim {
        key: named.key,
        group: named.group,
        consumer: named.consumer,
        least_idle,
        start,
        count: choice.count,
        just_ids: choice.just_ids,
    }))
}

/// The words of XAUTOCLAIM: the key, the group, the consumer, a number, an id, and options in any order.
fn autoclaim_words(mut words: Unread<'_>) -> Option<AutoclaimWords<'_>>
    ensures found { IfSome result (λ read. (written : List Written) × AreJudged written read.judged
        × Reads xautoclaim_form.form words.entry (autoclaim_reading read.named.key.now read.named.group.now
        read.named.consumer.now read.least_idle.now read.start.now written)) }
    ensures none { IfNone result ((reading : Reading xautoclaim_form.form) →
        Reads xautoclaim_form.form words.entry reading → ⊥) }
{
    let named = consumer_words(&mut words)?;
    let least_idle = words.next()?;
    let start = words.next()?;
    let judged = read_options(OptionSet::Xautoclaim, &mut words)?;
    if let Some(_) = words.next() {
        return None;
    }
    Some(AutoclaimWords {
        named,
        least_idle,
        start,
        judged,
    })
}
