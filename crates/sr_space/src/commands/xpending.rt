ghost use Rattle.std.specs.Prelude.{◌≡◌, ◌^◌, ◌<◌, ◌++◌, List, IfOk, OnOk};
ghost use Rattle.std.specs.Option.{option_copied};
ghost use Rattle.sr_group.specs.{counts_of};
ghost use Rattle.sr_resp.specs.{ReplyParts, array_of};
ghost use Rattle.sr_resp.specs.Reply.{IsArray};
ghost use Rattle.sr_space.specs.{shown_of};
ghost use Rattle.sr_space.specs.Bounds as bounds;
ghost use Rattle.sr_space.specs.commands.Xpending.{at_least_0 as not_below_0, id_or_null as id_or_null_answer};
ghost use Rattle.sr_space.specs.commands.Xpending.{listing_answer, listing_of, nack_answer, xpending};
ghost use Rattle.sr_space.specs.commands.Xpending.{share_answer, share_of, shares_of, summary_answer};

use crate::Answered;
use crate::bounds::in_63_bits;
use crate::outcome::{refused, replied};
use crate::reply::{id_reply, number_reply};
use sr_args::PendingAsked;
use sr_bytes::Name;
use sr_group::{Consumer, Group, Idle, Summary};
use sr_ids::{Id, write_id};
use sr_pending::Nack;
use sr_resp::{Draft, ErrCode, Reply};
use sr_stream::Stream;
use std::alloc::{AllocError, Global};

/// XPENDING of a group at a key, if both are there.
pub(crate) fn tell_pending(
    alloc: Global,
    stream: Option<&Stream>,
    group: &Name,
    listing: Option<&PendingAsked>,
    moment: u64,
) -> Result<Answered, AllocError>
    ensures { IfOk result (λ outcome. outcome
        ≡ xpending (bounds.in_63_bits moment) group.now (option_copied listing.entry)
        (shown_of (option_copied stream.entry))) }
{
    let Some(stream) = stream else {
        return Ok(refused(alloc, ErrCode::NoGroup));
    };
    let Some(group) = stream.group(group) else {
        return Ok(refused(alloc, ErrCode::NoGroup));
    };
    match listing {
        None => replied(alloc, summary_reply(alloc, group)?),
        Some(asked) => replied(
            alloc,
            listing_reply(alloc, group, asked, in_63_bits(moment))?,
        ),
    }
}

/// How many entries are pending in a group, the least and the greatest of their ids, and how many each consumer has.
fn summary_reply(alloc: Global, group: &Group) -> Result<Reply, AllocError>
    ensures { IfOk result (λ reply. reply ≡ summary_answer group.now.shown) }
{
    let Summary {
        least,
        greatest,
        counts,
        ..
    } = group.summary(alloc)?;
    let shares = shares_reply(alloc, group, counts.as_slice())?;
    Reply::array(
        alloc,
        [
            number_reply(alloc, group.pending().len() as u64),
            id_or_null(alloc, least),
            id_or_null(alloc, greatest),
            shares,
        ],
    )
}

/// The id, or the null bulk string. It takes no memory.
fn id_or_null(alloc: Global, id: Option<Id>) -> Reply
    ensures { result ≡ id_or_null_answer id }
{
    match id {
        None => Reply::null_bulk(alloc),
        Some(id) => id_reply(alloc, id),
    }
}

/// The consumers that have something pending, each with how many; the null array if nothing is pending.
fn shares_reply(alloc: Global, group: &Group, counts: &[u64]) -> Result<Reply, AllocError>
    requires { counts.now ≡ counts_of group.now.shown.consumers group.now.shown.nacks }
    ensures { IfOk result (λ reply. reply ≡ shares_of group.now.shown.consumers group.now.shown.nacks) }
{
    if group.pending().len() == 0 {
        return Ok(Reply::no_array(alloc));
    }
    let mut shares = Reply::empty_array(alloc);
    for (place, consumer) in group.consumers().iter().enumerate() {
        push_share(&mut shares, alloc, consumer, counts[place])?;
    }
    Ok(shares)
}

/// Adds a consumer with how many entries are pending for it to an array, if there are any.
fn push_share(
    shares: &mut Reply,
    alloc: Global,
    consumer: &Consumer,
    pending: u64,
) -> Result<(), AllocError>
    requires array { IsArray shares.old }
    ensures { OnOk result ((items : List ReplyParts) → shares.old ≡ array_of items
        → shares.new ≡ array_of (items ++ share_of consumer.now.name pending)) }
{
    if pending == 0 {
        return Ok(());
    }
    shares.push(share_reply(alloc, consumer, pending)?)
}

/// A consumer with how many entries are pending for it.
fn share_reply(alloc: Global, consumer: &Consumer, pending: u64) -> Result<Reply, AllocError>
    ensures { IfOk result (λ reply. reply ≡ share_answer consumer.now.name pending) }
{
    let name = consumer.name.copy(alloc)?;
    Reply::array(
        alloc,
        [Reply::bulk(alloc, name), Reply::decimal(alloc, pending)],
    )
}

/// A line for each pending entry that is asked for.
fn listing_reply(
    alloc: Global,
    group: &Group,
    asked: &PendingAsked,
    moment: u64,
) -> Result<Reply, AllocError>
    requires { moment < 2 ^ 63 }
    ensures { IfOk result (λ reply. reply ≡ listing_answer moment asked.now group.now.shown.nacks) }
{
    group.sound();
    let mut listing = listing_for(group, asked, moment);
    let mut draft = Draft::array(alloc, listing.len());
    while let Some(nack) = listing.next() {
        write_nack(&mut draft, nack, moment)?;
    }
    Ok(draft.finish())
}

/// The pending entries that are asked for. It takes no memory.
fn listing_for<'a>(group: &'a Group, asked: &'a PendingAsked, moment: u64) -> Idle<'a>
    ensures { result ≡ listing_of moment asked.now group.now.shown.nacks }
{
    let count = at_least_0(asked.count);
    let least_idle = match asked.least_idle {
        None => 0,
        Some(least_idle) => at_least_0(least_idle),
    };
    let consumer = asked.consumer.as_ref();
    group.listing(asked.start, asked.end, count, least_idle, moment, consumer)
}

/// Adds a pending entry to a draft: its id, its owner, for how long it was not delivered, and how often it was.
fn write_nack(draft: &mut Draft, nack: &Nack, moment: u64) -> Result<(), AllocError>
    requires moment { moment < 2 ^ 63 }
    requires count { nack.now.count < 2 ^ 63 }
    ensures { OnOk result (draft.new ≡ draft.old ++ nack_answer moment nack.now) }
{
    let mut text = [0; 41];
    let len = write_id(nack.id, &mut text);
    draft.header(4)?;
    draft.bulk(&text[..len])?;
    draft.bulk(nack.owner.name().as_slice())?;
    draft.int(moment.saturating_sub(nack.time) as i64)?;
    draft.int(nack.count as i64)?;
    Ok(())
}

/// The number, or 0 if it is below 0.
pub(crate) fn at_least_0(n: i64) -> u64
    ensures { result ≡ not_below_0 n }
{
    u64::try_from(n).unwrap_or(0)
}
