ghost use Rattle.std.specs.Prelude.{None, ◌↔◌, ◌≤◌, map, length, IsTrue, IfOk, ◌≡◌};
ghost use Rattle.sr_args.specs.FormWord.{position, spelled, HasIds};
ghost use Rattle.sr_args.specs.commands.Xread as xread_form;
ghost use Rattle.sr_args.specs.steps.Gives.{Gives};
ghost use Rattle.sr_args.specs.steps.Streams.{AreStreams};

use crate::name::OptionSet;
use crate::same::{same_count, same_number, same_streams};
use crate::streams::read_words;
use crate::table::Row;
use crate::value::{copy_word, read_position};
use crate::{Call, CallFault, Position, Streams};
use sr_bytes::{Name, Unread};
use std::alloc::{AllocError, Global};

/// What the table says of XREAD.
pub(crate) const ROW: Row = Row {
    first: b"XREAD",
    second: None,
    fewest: 4,
    most: None,
};

/// XREAD: the entries of streams after an id in each.
///
/// Source: Redis documentation, command XREAD.
#[derive(Drop)]
pub struct Xread {
    /// How many entries of each stream are wanted at most.
    pub count: Option<i64>,
    /// BLOCK: how many milliseconds it waits for an entry, if it waits. 0 is without end.
    pub block: Option<u64>,
    pub streams: Streams<Position>,
}

impl Xread {
    /// A copy with the same parts.
    pub(crate) fn copy(&self, alloc: Global) -> Result<Xread, AllocError>
        ensures { IfOk result (λ copy. copy ≡ self.now) }
    {
        let streams = self.streams.copy(alloc)?;
        Ok(Xread {
            count: self.count,
            block: self.block,
            streams,
        })
    }

    /// The same call, that does not wait. Takes no memory.
    pub(crate) fn without_block(self) -> Xread
        ensures { result ≡ record self { block = None } }
    {
        Xread {
            block: None,
            ..self
        }
    }

    /// Whether the other has the same parts.
    pub(crate) fn equals(&self, other: &Xread) -> bool
        ensures { IsTrue result ↔ (self.now ≡ other.now) }
    {
        same_count(self.count, other.count)
            && same_number(self.block, other.block)
            && same_streams(&self.streams, &other.streams)
    }
}

/// `XREAD [COUNT int] [BLOCK number] STREAMS key [key ..] id [id ..]`
pub(crate) fn read_xread(alloc: Global, words: Unread<'_>) -> Result<Call, CallFault>
    ensures { Gives xread_form.form xread_form.call words.entry result }
{
    let Some(read) = read_words(alloc, OptionSet::Xread, words) else {
        return Err(CallFault::Syntax);
    };
    let choice = read.judged?;
    let streams = read.streams;
    if !are_positions(streams.ids.again()) {
        return Err(CallFault::BadId);
    }
    let list = copy_streams(alloc, streams.from_keys, streams.ids)?;
    Ok(Call::Xread(Xread {
        count: choice.count,
        block: choice.block,
        streams: Streams::new(list),
    }))
}

/// Whether each word says from where a stream is read.
fn are_positions(mut words: Unread<'_>) -> bool
    ensures { IsTrue result ↔ HasIds (map (spelled position) words.entry) }
{
    while let Some(word) = words.next() {
        if read_position(word).is_none() {
            return false;
        }
    }
    true
}

/// The streams with the first of these keys, each with what the word in its place says.
fn copy_streams(
    alloc: Global,
    mut keys: Unread<'_>,
    mut words: Unread<'_>,
) -> Result<Vec<(Name, Position)>, AllocError>
    requires positions { HasIds (map (spelled position) words) }
    requires enough { length words ≤ length keys }
    ensures { IfOk result (λ list. AreStreams position keys.entry words.entry list.items) }
{
    let mut list = Vec::with_capacity(alloc, words.len())?;
    while let Some(word) = words.next() {
        let key = copy_word(alloc, keys.next().unwrap())?;
        let from = read_position(word).unwrap();
        list.push((key, from))?;
    }
    Ok(list)
}
