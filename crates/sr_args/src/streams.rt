ghost use Rattle.std.specs.Prelude.{◌≡◌, ◌↔◌, List, Some, map, take, drop, IsTrue, IfOk, IfSome, IfNone};
ghost use Rattle.sr_args.specs.Different.{IsAmong, AreDifferent};
ghost use Rattle.sr_args.specs.Form.{streams, Reading, Reads};
ghost use Rattle.sr_args.specs.Options.{Written, group_in};
ghost use Rattle.sr_args.specs.FormWord.{IdForm};
ghost use Rattle.sr_args.specs.steps.Options.{AreJudged};
ghost use Rattle.sr_args.specs.steps.Streams.{streams_form, streams_reading, grouped_form, grouped_reading};

use crate::OptionName;
use crate::name::{Choice, OptionSet, is_named};
use crate::options::{GroupWords, ValueFault, read_given, read_options};
use sr_bytes::Unread;
use std::alloc::{AllocError, Global};

/// Up to this many keys are compared with one another, for which no memory is taken.
const FEW_KEYS: usize = 8;

/// The words after STREAMS.
#[derive(Drop)]
pub(crate) struct StreamsWords<'a> {
    /// The words from the first key on.
    pub(crate) from_keys: Unread<'a>,
    /// How many of these are keys.
    pub(crate) keys: usize,
    /// The ids, one for each key.
    pub(crate) ids: Unread<'a>,
}

/// The words of a command with streams, in their places, and what its options ask for.
#[derive(Drop)]
pub(crate) struct ReadWords<'a> {
    pub(crate) judged: Result<Choice, ValueFault>,
    pub(crate) streams: StreamsWords<'a>,
}

/// The words of a command with streams that names a group and a consumer, and what its options ask for.
#[derive(Drop)]
pub(crate) struct GroupedWords<'a> {
    pub(crate) group: GroupWords<'a>,
    pub(crate) judged: Result<Choice, ValueFault>,
    pub(crate) streams: StreamsWords<'a>,
}

/// The options of the set, and then streams.
pub(crate) fn read_words(
    alloc: Global,
    set: OptionSet,
    mut words: Unread<'_>,
) -> Option<ReadWords<'_>>
    ensures found { IfSome result (λ read. (written : List Written) × AreJudged written read.judged
        × ((spelling : IdForm) → Reads (streams_form set spelling) words.entry
        (streams_reading set spelling written (take read.streams.keys read.streams.from_keys) read.streams.ids))) }
    ensures none { IfNone result ((spelling : IdForm) (reading : Reading (streams_form set spelling)) →
        Reads (streams_form set spelling) words.entry reading → ⊥) }
{
    let judged = read_options(set, &mut words)?;
    let streams = streams_words(alloc, words)?;
    Some(ReadWords { judged, streams })
}

/// The options of the set, one of which names a group and a consumer, and then streams.
pub(crate) fn read_grouped_words(
    alloc: Global,
    set: OptionSet,
    mut words: Unread<'_>,
) -> Option<GroupedWords<'_>>
    ensures found { IfSome result (λ read. (written : List Written) × AreJudged written read.judged
        × (group_in written ≡ Some (read.group.group.now, read.group.consumer.now))
        × ((spelling : IdForm) → Reads (grouped_form set spelling) words.entry
        (grouped_reading set spelling written (take read.streams.keys read.streams.from_keys) read.streams.ids))) }
    ensures none { IfNone result ((spelling : IdForm) (reading : Reading (grouped_form set spelling)) →
        Reads (grouped_form set spelling) words.entry reading → ⊥) }
{
    let given = read_given(set, &mut words)?;
    let group = given.group?;
    let streams = streams_words(alloc, words)?;
    Some(GroupedWords {
        group,
        judged: given.judged,
        streams,
    })
}

/// `STREAMS key [key ..] id [id ..]`
fn streams_words(alloc: Global, mut words: Unread<'_>) -> Option<StreamsWords<'_>>
    ensures found { IfSome result (λ read. (spelling : IdForm) →
        Reads (streams spelling) words.entry (take read.keys read.from_keys, read.ids)) }
    ensures none { IfNone result ((spelling : IdForm) (reading : Reading (streams spelling)) →
        Reads (streams spelling) words.entry reading → ⊥) }
{
    if !is_named(words.next()?, OptionName::Streams) {
        return None;
    }
    let keys = words.len() / 2;
    if keys == 0 {
        return None;
    }
    if words.len() % 2 != 0 {
        return None;
    }
    if !are_different(alloc, words.again(), keys) {
        return None;
    }
    let ids = after(words.again(), keys);
    Some(StreamsWords {
        from_keys: words,
        keys,
        ids,
    })
}

/// The words after the first ones.
fn after(mut words: Unread<'_>, many: usize) -> Unread<'_>
    ensures { result ≡ drop many words.entry }
{
    let mut left = many;
    while left > 0 {
        let Some(_) = words.next() else {
            break;
        };
        left -= 1;
    }
    words
}

/// Whether no two of the first words are the same. Many words are sorted, if there is memory for a list of them.
fn are_different(alloc: Global, words: Unread<'_>, many: usize) -> bool
    ensures { IsTrue result ↔ AreDifferent (take many words.entry) }
{
    if many <= FEW_KEYS {
        return are_different_by_pairs(words, many);
    }
    match first_words(alloc, words.again(), many) {
        Ok(list) => are_different_by_order(list),
        Err(_) => are_different_by_pairs(words, many),
    }
}

/// The first words.
fn first_words<'a>(
    alloc: Global,
    mut words: Unread<'a>,
    many: usize,
) -> Result<Vec<&'a [u8]>, AllocError>
    ensures { IfOk result (λ list. map (λ word. word.now) list.items ≡ take many words.entry) }
{
    let mut list = Vec::with_capacity(alloc, many)?;
    let mut left = many;
    while left > 0 {
        let Some(word) = words.next() else {
            break;
        };
        list.push(word)?;
        left -= 1;
    }
    Ok(list)
}

/// Whether no two of the words are the same: in byte order, each is less than the next.
fn are_different_by_order(mut words: Vec<&[u8]>) -> bool
    ensures { IsTrue result ↔ AreDifferent (map (λ word. word.now) words.entry.items) }
{
    words.sort_unstable();
    words.is_sorted_by(|word, next| word.cmp(next).is_lt())
}

/// Whether no two of the first words are the same. It compares each with those after it and takes no memory: for few
/// words, and for when memory for a list of them was refused.
fn are_different_by_pairs(mut words: Unread<'_>, many: usize) -> bool
    ensures { IsTrue result ↔ AreDifferent (take many words.entry) }
{
    let mut left = many;
    while left > 0 {
        let Some(word) = words.next() else {
            return true;
        };
        left -= 1;
        if is_among(word, words.again(), left) {
            return false;
        }
    }
    true
}

/// Whether a word is one of the first ones.
fn is_among(word: &[u8], mut words: Unread<'_>, many: usize) -> bool
    ensures { IsTrue result ↔ IsAmong word.now (take many words.entry) }
{
    let mut left = many;
    while left > 0 {
        let Some(other) = words.next() else {
            return false;
        };
        if word == other {
            return true;
        }
        left -= 1;
    }
    false
}
