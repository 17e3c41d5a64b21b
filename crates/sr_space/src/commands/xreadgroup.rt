ghost use Rattle.std.specs.Prelude.{◌≡◌, ◌++◌, IsTrue, List, Some, map, IfOk, OnOk, OnErr};
ghost use Rattle.sr_args.specs.{AreDifferent};
ghost use Rattle.sr_entries.specs.{entry_with};
ghost use Rattle.sr_group.specs.{HasRoomFor, after_showing, listed_of};
ghost use Rattle.sr_resp.specs.{ReplyParts, array_of};
ghost use Rattle.sr_resp.specs.Reply.{IsArray};
ghost use Rattle.sr_stream.specs.Groups as by_name;
ghost use Rattle.sr_stream.specs.{StreamState};
ghost use Rattle.sr_space.specs.Keys.{shown_keys, stream_at, with_stream};
ghost use Rattle.sr_space.specs.Readers.{streams_at};
ghost use Rattle.sr_space.specs.commands.Xread.{listed_or_null};
ghost use Rattle.sr_space.specs.commands.Xreadgroup as groups;
ghost use Rattle.sr_space.specs.steps.Reading.{HasRoomAt, HasRoomIn, StayBeside, StayBesideAll, Writes, WritesAt};
ghost use Rattle.sr_space.specs.steps.Reading.{after_call, history_item, in_group, in_stream, keys_after, listed_by};
ghost use Rattle.sr_space.specs.steps.Reading.{named_by};
ghost use Rattle.sr_space.specs.steps.Waiting as waiting;

use crate::Space;
use crate::bounds::in_63_bits;
use crate::commands::xread::{most, null_if_empty, push_entries};
use crate::reply::{entry_reply, id_reply};
use indexmap::IndexMap;
use sr_args::ReadAsked;
use sr_bytes::Name;
use sr_entries::Entries;
use sr_group::{Group, Shown};
use sr_ids::Id;
use sr_resp::Reply;
use sr_stream::Stream;
use std::alloc::{AllocError, Global};
use std::hash::RandomState;

/// A read by a consumer of a group.
#[derive(Clone, Copy)]
pub(crate) struct GroupRead<'a> {
    pub(crate) moment: u64,
    pub(crate) group: &'a Name,
    pub(crate) consumer: &'a Name,
    pub(crate) count: Option<i64>,
    pub(crate) no_ack: bool,
}

/// Whether each of the keys has a stream with the group of this name. It takes no memory.
pub(crate) fn have_group(space: &Space, name: &Name, streams: &[(Name, ReadAsked)]) -> bool
    ensures { result ≡ groups.have_group name.now space.now streams.now }
{
    streams
        .iter()
        .all(|stream| has_group_at(space, name, &stream.0))
}

/// Whether there is a stream with the group of this name at a key.
fn has_group_at(space: &Space, name: &Name, key: &Name) -> bool
    ensures { result ≡ groups.has_group_in name.now (stream_at space.now key.now) }
{
    match space.stream(key) {
        None => false,
        Some(stream) => stream.has_group(name),
    }
}

/// Whether one of the streams, read by a consumer of the group of this name, is listed. It takes no memory.
pub(crate) fn lists_any(space: &Space, name: &Name, streams: &[(Name, ReadAsked)]) -> bool
    ensures { result ≡ waiting.lists_any name.now space.now streams.now }
{
    streams
        .iter()
        .any(|stream| lists_at(space, name, &stream.0, stream.1))
}

/// Whether the stream at a key is listed.
fn lists_at(space: &Space, name: &Name, key: &Name, asked: ReadAsked) -> bool
    ensures { result ≡ waiting.lists_stream name.now asked (stream_at space.now key.now) }
{
    match space.stream(key) {
        None => false,
        Some(stream) => lists_stream(stream, name, asked),
    }
}

/// Whether the one of the streams at a key, read by a consumer of the group of this name, gives an answer. It takes no
/// memory.
pub(crate) fn any_answers_at(
    space: &Space,
    name: &Name,
    streams: &[(Name, ReadAsked)],
    key: &Name,
) -> bool
    ensures { result ≡ waiting.any_answers name.now space.now (streams_at key.now streams.now) }
{
    streams.iter().any(|stream| stream.0 == *key && answers_at(space, name, &stream.0, stream.1))
}

/// Whether the stream at a key gives an answer: the refusal if the group is missing, or what is listed.
fn answers_at(space: &Space, name: &Name, key: &Name, asked: ReadAsked) -> bool
    ensures { result ≡ waiting.answers_stream name.now asked (stream_at space.now key.now) }
{
    match space.stream(key) {
        None => true,
        Some(stream) => !stream.has_group(name) || lists_stream(stream, name, asked),
    }
}

/// Whether the stream is listed: with `>` if it has entries that the group has not delivered yet, else always.
fn lists_stream(stream: &Stream, name: &Name, asked: ReadAsked) -> bool
    ensures { result ≡ waiting.lists_stream name.now asked (Some stream.now.shown) }
{
    match (stream.group(name), asked) {
        (None, _) => false,
        (Some(_), ReadAsked::PendingAfter(_)) => true,
        (Some(group), ReadAsked::New) => stream.entries().above(group.last_id()).len() > 0,
    }
}

/// XREADGROUP of streams that have the group, in the order in which they are named. `send` has what those before them
/// list, and ends as the reply; `keep` ends as an equal one.
///
/// Each stream makes its growths on the way to the last one, where the replies are made, and its effect on the way
/// back: so none has changed if memory is refused. A call may name some 2,000 streams, so the frame is kept small.
///
/// Source: Redis documentation, command XREADGROUP.
pub(crate) fn read_all(
    keys: &mut IndexMap<Name, Stream, RandomState>,
    alloc: Global,
    read: &GroupRead<'_>,
    streams: &[(Name, ReadAsked)],
    send: &mut Reply,
    keep: &mut Reply,
) -> Result<(), AllocError>
    requires array { IsArray send.old }
    requires different { AreDifferent (named_by streams.now) }
    requires there { IsTrue (groups.have_group read.now.group.now (shown_keys keys.old.entries) streams.now) }
    ensures keys { OnOk result (shown_keys keys.new.entries
        ≡ keys_after read.now (shown_keys keys.old.entries) streams.now) }
    ensures send { OnOk result ((items : List ReplyParts) → send.old ≡ array_of items
        → send.new ≡ listed_or_null (items ++ listed_by read.now (shown_keys keys.old.entries) streams.now)) }
    ensures keep { OnOk result (keep.new ≡ send.new) }
    ensures err { OnErr result (shown_keys keys.new.entries ≡ shown_keys keys.old.entries) }
    ensures others { StayBesideAll (named_by streams.now) keys.old.entries keys.new.entries }
{
    let Some((first, rest)) = streams.split_first() else {
        null_if_empty(alloc, send);
        *keep = send.copy(alloc)?;
        return Ok(());
    };
    let (key, asked) = (&first.0, first.1);
    let shown = prepare_at(keys, alloc, read, key, asked, send)?;
    read_all(keys, alloc, read, rest, send, keep)?;
    show_at(keys, key, read.group, shown);
    Ok(())
}

/// Makes room at a key for what is read of its group, and adds what is listed to an array.
fn prepare_at(
    keys: &mut IndexMap<Name, Stream, RandomState>,
    alloc: Global,
    read: &GroupRead<'_>,
    key: &Name,
    asked: ReadAsked,
    listed: &mut Reply,
) -> Result<Shown, AllocError>
    requires array { IsArray listed.old }
    requires there { IsTrue (groups.has_group_in read.now.group.now (stream_at (shown_keys keys.old.entries) key.now)) }
    ensures keys { shown_keys keys.new.entries ≡ shown_keys keys.old.entries }
    ensures others { StayBeside key.now keys.old.entries keys.new.entries }
    ensures room { IfOk result (λ shown. HasRoomAt read.now.group.now shown key.now keys.new.entries) }
    ensures written { IfOk result (λ shown.
        WritesAt read.now asked key.now shown (stream_at (shown_keys keys.old.entries) key.now)) }
    ensures listed { OnOk result ((items : List ReplyParts) → listed.old ≡ array_of items → listed.new
        ≡ array_of (items ++ (in_stream read.now asked key.now
        (stream_at (shown_keys keys.old.entries) key.now)).listed)) }
{
    match keys.get_mut(key) {
        Some(stream) => prepare(stream, alloc, read, key, asked, listed),
        None => unreachable!(),
    }
}

/// Changes the group at a key as a call has shown. It takes no memory.
fn show_at(keys: &mut IndexMap<Name, Stream, RandomState>, key: &Name, name: &Name, shown: Shown)
    requires { HasRoomAt name.now shown key.now keys.old.entries }
    ensures keys { (stream : StreamState) → stream_at (shown_keys keys.old.entries) key.now ≡ Some stream
        → shown_keys keys.new.entries
        ≡ with_stream (shown_keys keys.old.entries) key.now (after_call name.now shown stream) }
    ensures others { StayBeside key.now keys.old.entries keys.new.entries }
{
    match keys.get_mut(key) {
        Some(stream) => show(stream, name, shown),
        None => unreachable!(),
    }
}

/// Makes room in a stream for what is read of its group, and adds what is listed to an array.
fn prepare(
    stream: &mut Stream,
    alloc: Global,
    read: &GroupRead<'_>,
    key: &Name,
    asked: ReadAsked,
    listed: &mut Reply,
) -> Result<Shown, AllocError>
    requires array { IsArray listed.old }
    requires there { IsTrue (by_name.has_group read.now.group.now stream.old.shown.groups) }
    ensures shown { stream.new.shown ≡ stream.old.shown }
    ensures room { IfOk result (λ shown. HasRoomIn read.now.group.now shown stream.new) }
    ensures written { IfOk result (λ shown. Writes read.now asked key.now shown stream.old.shown) }
    ensures listed { OnOk result ((items : List ReplyParts) → listed.old ≡ array_of items → listed.new
        ≡ array_of (items ++ (in_stream read.now asked key.now (Some stream.old.shown)).listed)) }
{
    stream.sound();
    let (entries, group) = stream.entries_and_group(read.group);
    prepare_group(entries, group, alloc, read, key, asked, listed)
}

/// Changes a stream's group as a call has shown. It takes no memory.
fn show(stream: &mut Stream, name: &Name, shown: Shown)
    requires { HasRoomIn name.now shown stream.old }
    ensures { stream.new.shown ≡ after_call name.now shown stream.old.shown }
{
    let (_entries, group) = stream.entries_and_group(name);
    group.show(shown);
}

/// Makes room in a group for what is read of it, and adds what is listed to an array.
fn prepare_group(
    entries: &Entries,
    group: &mut Group,
    alloc: Global,
    read: &GroupRead<'_>,
    key: &Name,
    asked: ReadAsked,
    listed: &mut Reply,
) -> Result<Shown, AllocError>
    requires array { IsArray listed.old }
    ensures shown { group.new.shown ≡ group.old.shown }
    ensures effect { IfOk result (λ shown. after_showing shown group.old.shown
        ≡ (in_group read.now asked key.now entries.now.entries group.old.shown).group) }
    ensures room { IfOk result (λ shown. HasRoomFor shown group.new) }
    ensures listed { OnOk result ((items : List ReplyParts) → listed.old ≡ array_of items → listed.new
        ≡ array_of (items ++ (in_group read.now asked key.now entries.now.entries group.old.shown).listed)) }
{
    let (moment, count) = (in_63_bits(read.moment), most(read.count));
    match asked {
        ReadAsked::New => {
            let new = entries.above(group.last_id()).at_front(count);
            push_entries(listed, alloc, key, new)?;
            group.deliver(alloc, read.consumer, moment, entries, count, read.no_ack)
        }
        ReadAsked::PendingAfter(id) => {
            let shown = group.history(alloc, read.consumer, id, count, moment, entries)?;
            listed.push(history_reply(alloc, key, entries, &shown)?)?;
            Ok(shown)
        }
    }
}

/// A key with pending entries that are listed once more.
fn history_reply(
    alloc: Global,
    key: &Name,
    entries: &Entries,
    shown: &Shown,
) -> Result<Reply, AllocError>
    ensures { IfOk result (λ reply. reply ≡ history_item key.now entries.now.entries (listed_of shown.now.acts)) }
{
    let mut items = Reply::empty_array(alloc);
    let mut listed = shown.listed();
    while let Some(item) = listed.next() {
        items.push(again_reply(alloc, entries, item.id)?)?;
    }
    let name = key.copy(alloc)?;
    Reply::array(alloc, [Reply::bulk(alloc, name), items])
}

/// A pending entry that is listed once more.
fn again_reply(alloc: Global, entries: &Entries, id: Id) -> Result<Reply, AllocError>
    ensures { IfOk result (λ reply. reply ≡ groups.again_answer id (entry_with id entries.now.entries)) }
{
    match entries.get(id) {
        None => Reply::array(alloc, [id_reply(alloc, id), Reply::no_array(alloc)]),
        Some(entry) => entry_reply(alloc, &entry),
    }
}
