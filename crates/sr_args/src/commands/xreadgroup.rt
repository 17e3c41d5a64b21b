ghost use Rattle.std.specs.Prelude.{None, ◌≡◌, ◌↔◌, ◌≤◌, map, length, IsTrue, IfOk};
ghost use Rattle.sr_args.specs.FormWord.{read_id, spelled, HasIds};
ghost use Rattle.sr_args.specs.commands.Xreadgroup as xreadgroup_form;
ghost use Rattle.sr_args.specs.steps.Gives.{Gives};
ghost use Rattle.sr_args.specs.steps.Streams.{AreStreams};

use crate::name::OptionSet;
use crate::same::{same_count, same_group_streams, same_number};
use crate::streams::read_grouped_words;
use crate::table::Row;
use crate::value::{copy_word, read_asked};
use crate::{Call, CallFault, ReadAsked, Streams};
use sr_bytes::{Name, Unread};
use std::alloc::{AllocError, Global};

/// What the table says of XREADGROUP.
pub(crate) const ROW: Row = Row {
    first: b"XREADGROUP",
    second: None,
    fewest: 7,
    most: None,
};

/// XREADGROUP: new entries of streams for a consumer of a group, or what is pending for it.
///
/// Source: Redis documentation, command XREADGROUP.
#[derive(Drop)]
pub struct Xreadgroup {
    pub group: Name,
    pub consumer: Name,
    /// How many entries of each stream are wanted at most.
    pub count: Option<i64>,
    /// BLOCK: how many milliseconds it waits for an entry, if it waits. 0 is without end.
    pub block: Option<u64>,
    /// NOACK: whether new entries need no acknowledgement.
    pub no_ack: bool,
    pub streams: Streams<ReadAsked>,
}

impl Xreadgroup {
    /// A copy with the same parts.
    pub fn copy(&self, alloc: Global) -> Result<Xreadgroup, AllocError>
        ensures { IfOk result (λ copy. copy ≡ self.now) }
    {
        let group = self.group.copy(alloc)?;
        let consumer = self.consumer.copy(alloc)?;
        let streams = self.streams.copy(alloc)?;
        Ok(Xreadgroup {
            group,
            consumer,
            count: self.count,
            block: self.block,
            no_ack: self.no_ack,
            streams,
        })
    }

    /// The same call, that does not wait. Takes no memory.
    pub(crate) fn without_block(self) -> Xreadgroup
        ensures { result ≡ record self { block = None } }
    {
        Xreadgroup {
            block: None,
            ..self
        }
    }

    /// Whether the other has the same parts.
    pub fn equals(&self, other: &Xreadgroup) -> bool
        ensures { IsTrue result ↔ (self.now ≡ other.now) }
    {
        self.group == other.group
            && self.consumer == other.consumer
            && same_count(self.count, other.count)
            && same_number(self.block, other.block)
            && self.no_ack == other.no_ack
            && same_group_streams(&self.streams, &other.streams)
    }
}

/// `XREADGROUP GROUP group consumer [COUNT int] [BLOCK number] [NOACK] STREAMS key [key ..] id [id ..]`
pub(crate) fn read_xreadgroup(alloc: Global, words: Unread<'_>) -> Result<Call, CallFault>
    ensures { Gives xreadgroup_form.form xreadgroup_form.call words.entry result }
{
    let Some(read) = read_grouped_words(alloc, OptionSet::Xreadgroup, words) else {
        return Err(CallFault::Syntax);
    };
    let choice = read.judged?;
    let streams = read.streams;
    if !are_asked(streams.ids.again()) {
        return Err(CallFault::BadId);
    }
    let list = copy_streams(alloc, streams.from_keys, streams.ids)?;
    let group = copy_word(alloc, read.group.group)?;
    let consumer = copy_word(alloc, read.group.consumer)?;
    Ok(Call::Xreadgroup(Xreadgroup {
        group,
        consumer,
        count: choice.count,
        block: choice.block,
        no_ack: choice.no_ack,
        streams: Streams::new(list),
    }))
}

/// Whether each word says which entries of a stream are read.
fn are_asked(mut words: Unread<'_>) -> bool
    ensures { IsTrue result ↔ HasIds (map (spelled read_id) words.entry) }
{
    while let Some(word) = words.next() {
        if read_asked(word).is_none() {
            return false;
        }
    }
    true
}

/// The streams with the first of these keys, each with what the word in its place says.
fn copy_streams(
    alloc: Global,
    mut keys: Unread<'_>,
    mut words: Unread<'_>,
) -> Result<Vec<(Name, ReadAsked)>, AllocError>
    requires asked { HasIds (map (spelled read_id) words) }
    requires enough { length words ≤ length keys }
    ensures { IfOk result (λ list. AreStreams read_id keys.entry words.entry list.items) }
{
    let mut list = Vec::with_capacity(alloc, words.len())?;
    while let Some(word) = words.next() {
        let key = copy_word(alloc, keys.next().unwrap())?;
        let asked = read_asked(word).unwrap();
        list.push((key, asked))?;
    }
    Ok(list)
}
