ghost use Rattle.std.specs.Prelude.{◌≡◌, ◌^◌, ◌<◌, Some, IfOk, length, map};
ghost use Rattle.std.specs.Option.{option_copied};
ghost use Rattle.sr_resp.specs.{array_of};
ghost use Rattle.sr_space.specs.{shown_of};
ghost use Rattle.sr_space.specs.Bounds as bounds;
ghost use Rattle.sr_space.specs.commands.Xinfo.{consumer_line, consumers_answer};
ghost use Rattle.sr_space.specs.commands.Xinfo.{entry_or_null as entry_reply_or_null, group_answer, stream_answer};
ghost use Rattle.sr_space.specs.commands.Xinfo.{xinfo_consumers, xinfo_groups, xinfo_stream};

use crate::Answered;
use crate::bounds::in_63_bits;
use crate::outcome::{refused, replied};
use crate::reply::{entry_reply, id_reply, number_reply};
use sr_bytes::Name;
use sr_entries::EntryRef;
use sr_group::{Consumer, Group};
use sr_resp::{ErrCode, Reply};
use sr_stream::{NamedGroup, Stream};
use std::alloc::{AllocError, Global};

/// XINFO STREAM of the stream at a key, if the key is there.
pub(crate) fn tell_stream(alloc: Global, stream: Option<&Stream>) -> Result<Answered, AllocError>
    ensures { IfOk result (λ outcome. outcome ≡ xinfo_stream (shown_of (option_copied stream.entry))) }
{
    match stream {
        None => Ok(refused(alloc, ErrCode::NoKey)),
        Some(stream) => replied(alloc, stream_reply(alloc, stream)?),
    }
}

/// XINFO GROUPS of the stream at a key, if the key is there.
pub(crate) fn tell_groups(alloc: Global, stream: Option<&Stream>) -> Result<Answered, AllocError>
    ensures { IfOk result (λ outcome. outcome ≡ xinfo_groups (shown_of (option_copied stream.entry))) }
{
    match stream {
        None => Ok(refused(alloc, ErrCode::NoKey)),
        Some(stream) => replied(alloc, groups_reply(alloc, stream.groups())?),
    }
}

/// XINFO CONSUMERS of a group at a key, if both are there.
pub(crate) fn tell_consumers(
    alloc: Global,
    stream: Option<&Stream>,
    group: &Name,
    moment: u64,
) -> Result<Answered, AllocError>
    ensures { IfOk result (λ outcome. outcome
        ≡ xinfo_consumers (bounds.in_63_bits moment) group.now (shown_of (option_copied stream.entry))) }
{
    let Some(stream) = stream else {
        return Ok(refused(alloc, ErrCode::NoKey));
    };
    match stream.group(group) {
        None => Ok(refused(alloc, ErrCode::NoGroup)),
        Some(group) => replied(alloc, consumers_reply(alloc, group, in_63_bits(moment))?),
    }
}

/// What XINFO STREAM tells of a stream.
fn stream_reply(alloc: Global, stream: &Stream) -> Result<Reply, AllocError>
    ensures { IfOk result (λ reply. reply ≡ stream_answer stream.now.shown) }
{
    stream.sound();
    let entries = stream.entries().len() as u64;
    let groups = group_count(stream) as u64;
    let first = entry_or_null(alloc, stream.entries().first())?;
    let last = entry_or_null(alloc, stream.entries().last())?;
    Reply::array(
        alloc,
        [
            Reply::short(alloc, b"length"),
            number_reply(alloc, entries),
            Reply::short(alloc, b"last-generated-id"),
            id_reply(alloc, stream.last_id()),
            Reply::short(alloc, b"entries-added"),
            number_reply(alloc, stream.added()),
            Reply::short(alloc, b"groups"),
            number_reply(alloc, groups),
            Reply::short(alloc, b"first-entry"),
            first,
            Reply::short(alloc, b"last-entry"),
            last,
        ],
    )
}

/// How many groups a stream has.
fn group_count(stream: &Stream) -> usize
    ensures value { result ≡ length stream.now.shown.groups }
    ensures bound { result < 2 ^ 63 }
{
    stream.groups().len()
}

/// The entry, or the null bulk string.
fn entry_or_null(alloc: Global, entry: Option<EntryRef<'_>>) -> Result<Reply, AllocError>
    ensures { IfOk result (λ reply. reply ≡ entry_reply_or_null entry.entry) }
{
    match entry {
        None => Ok(Reply::null_bulk(alloc)),
        Some(entry) => entry_reply(alloc, &entry),
    }
}

/// A line for each of these groups.
fn groups_reply(alloc: Global, groups: &[NamedGroup]) -> Result<Reply, AllocError>
    ensures { IfOk result (λ reply. reply ≡ array_of (map (λ named. group_answer named.0 named.1.shown) groups.now)) }
{
    let mut lines = Reply::empty_array(alloc);
    for named in groups {
        lines.push(group_reply(alloc, named)?)?;
    }
    Ok(lines)
}

/// What XINFO GROUPS tells of a group.
fn group_reply(alloc: Global, named: &NamedGroup) -> Result<Reply, AllocError>
    ensures { IfOk result (λ reply. reply ≡ group_answer named.now.0 named.now.1.shown) }
{
    let name = named.name().copy(alloc)?;
    let group = named.group();
    Reply::array(
        alloc,
        [
            Reply::short(alloc, b"name"),
            Reply::bulk(alloc, name),
            Reply::short(alloc, b"consumers"),
            number_reply(alloc, group.consumers().len() as u64),
            Reply::short(alloc, b"pending"),
            number_reply(alloc, group.pending().len() as u64),
            Reply::short(alloc, b"last-delivered-id"),
            id_reply(alloc, group.last_id()),
        ],
    )
}

/// A line for each consumer of a group.
fn consumers_reply(alloc: Global, group: &Group, moment: u64) -> Result<Reply, AllocError>
    requires { moment < 2 ^ 63 }
    ensures { IfOk result (λ reply. reply ≡ consumers_answer moment (Some group.now.shown)) }
{
    let counts = group.summary(alloc)?.counts;
    // No consumer has more pending entries than the group, so each count fits a reply.
    prove!(group.pending().len() <= i64::MAX as usize);
    let mut lines = Reply::empty_array(alloc);
    for (place, consumer) in group.consumers().iter().enumerate() {
        lines.push(consumer_reply(alloc, consumer, counts[place], moment)?)?;
    }
    Ok(lines)
}

/// What XINFO CONSUMERS tells of a consumer with so many pending entries.
fn consumer_reply(
    alloc: Global,
    consumer: &Consumer,
    pending: u64,
    moment: u64,
) -> Result<Reply, AllocError>
    requires moment { moment < 2 ^ 63 }
    requires pending { pending < 2 ^ 63 }
    ensures { IfOk result (λ reply. reply ≡ consumer_line moment pending consumer.now) }
{
    let name = consumer.name.copy(alloc)?;
    let idle = moment.saturating_sub(consumer.seen);
    Reply::array(
        alloc,
        [
            Reply::short(alloc, b"name"),
            Reply::bulk(alloc, name),
            Reply::short(alloc, b"pending"),
            number_reply(alloc, pending),
            Reply::short(alloc, b"idle"),
            number_reply(alloc, idle),
        ],
    )
}
