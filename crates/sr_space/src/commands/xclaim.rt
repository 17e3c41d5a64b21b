ghost use Rattle.std.specs.Prelude.{◌≡◌, ◌^◌, ◌<◌, ◌++◌, true, List, IfOk, IfSome, OnOk};
ghost use Rattle.sr_group.specs.{listed_of};
ghost use Rattle.sr_resp.specs.{ReplyParts, array_of};
ghost use Rattle.sr_resp.specs.Reply.{IsArray};
ghost use Rattle.sr_space.specs.Bounds as bounds;
ghost use Rattle.sr_space.specs.commands.Xclaim.{autoclaimed, claim_of, claimed, count_or_100 as or_100};
ghost use Rattle.sr_space.specs.commands.Xclaim.{claimed_answer, claimed_reply as claimed_items, deleted_answer};

use crate::Answered;
use crate::bounds::in_63_bits;
use crate::commands::xpending::at_least_0;
use crate::grouped::TouchGroup;
use crate::outcome::replied;
use crate::reply::{entry_reply, id_reply};
use sr_args::TimeAsked;
use sr_bytes::Name;
use sr_entries::Entries;
use sr_group::{Claim, ClaimTime, Group, Shown};
use sr_ids::Id;
use sr_resp::Reply;
use std::alloc::{AllocError, Global};

/// How entries are claimed, as the words say it.
#[derive(Clone, Copy)]
pub(crate) struct ClaimAsked {
    pub(crate) least_idle: i64,
    pub(crate) time: TimeAsked,
    pub(crate) count: Option<u64>,
    pub(crate) just_ids: bool,
}

/// XCLAIM in a group.
#[derive(Clone, Copy)]
pub(crate) struct ClaimEntries<'a> {
    pub(crate) moment: u64,
    pub(crate) consumer: &'a Name,
    pub(crate) ids: &'a [Id],
    pub(crate) asked: ClaimAsked,
}

impl TouchGroup for ClaimEntries<'_> {
    ghost regroups = { λ c. claimed (bounds.in_63_bits c.moment) c.consumer.now
        (claim_of c.asked.least_idle c.asked.time c.asked.count c.asked.just_ids) c.ids.now };

    fn at_group(
        &self,
        alloc: Global,
        entries: &Entries,
        group: &mut Group,
    ) -> Result<Answered, AllocError> {
        let moment = in_63_bits(self.moment);
        let claim = claim_as(self.asked);
        let shown = group.claim(alloc, self.consumer, self.ids, claim, moment, entries)?;
        let reply = claimed_reply(alloc, &shown, entries, claim.just_ids)?;
        let outcome = replied(alloc, reply)?;
        group.show(shown);
        Ok(outcome)
    }
}

/// XAUTOCLAIM in a group.
#[derive(Clone, Copy)]
pub(crate) struct ScanEntries<'a> {
    pub(crate) moment: u64,
    pub(crate) consumer: &'a Name,
    pub(crate) start: Id,
    pub(crate) count: u64,
    pub(crate) asked: ClaimAsked,
}

impl TouchGroup for ScanEntries<'_> {
    ghost regroups = { λ c. autoclaimed (bounds.in_63_bits c.moment) c.consumer.now
        (claim_of c.asked.least_idle c.asked.time c.asked.count c.asked.just_ids) c.start c.count };

    fn at_group(
        &self,
        alloc: Global,
        entries: &Entries,
        group: &mut Group,
    ) -> Result<Answered, AllocError> {
        let moment = in_63_bits(self.moment);
        let claim = claim_as(self.asked);
        let scan = group.autoclaim(
            alloc,
            self.consumer,
            self.start,
            self.count,
            claim,
            moment,
            entries,
        )?;
        let claimed = claimed_reply(alloc, &scan.shown, entries, claim.just_ids)?;
        let deleted = deleted_reply(alloc, &scan.shown)?;
        let reply = Reply::array(alloc, [id_reply(alloc, scan.next), claimed, deleted])?;
        let outcome = replied(alloc, reply)?;
        group.show(scan.shown);
        Ok(outcome)
    }
}

/// How many entries XAUTOCLAIM gives over or drops at most: 100 if COUNT is not written.
pub(crate) fn count_or_100(count: Option<i64>) -> u64
    ensures { result ≡ or_100 count }
{
    match count {
        None => 100,
        Some(count) => at_least_0(count),
    }
}

/// The claim that is asked for.
pub(crate) fn claim_as(asked: ClaimAsked) -> Claim
    ensures value { result ≡ claim_of asked.least_idle asked.time asked.count asked.just_ids }
    ensures count { IfSome result.count (λ count. count < 2 ^ 63) }
{
    let time = match asked.time {
        TimeAsked::Now => ClaimTime::Now,
        TimeAsked::Idle(idle) => ClaimTime::Idle(idle),
        TimeAsked::At(time) => ClaimTime::At(time),
    };
    let count = match asked.count {
        None => None,
        Some(count) => Some(in_63_bits(count)),
    };
    Claim {
        least_idle: at_least_0(asked.least_idle),
        time,
        count,
        just_ids: asked.just_ids,
    }
}

/// The entries that were claimed, or their ids.
fn claimed_reply(
    alloc: Global,
    shown: &Shown,
    entries: &Entries,
    just_ids: bool,
) -> Result<Reply, AllocError>
    ensures { IfOk result (λ reply. reply ≡ claimed_answer just_ids entries.now.entries (listed_of shown.now.acts)) }
{
    let mut listed = shown.listed();
    let mut claimed = Reply::empty_array(alloc);
    while let Some(item) = listed.next() {
        if item.found {
            push_claimed(&mut claimed, alloc, entries, item.id, just_ids)?;
        }
    }
    Ok(claimed)
}

/// The ids of those that the stream has no longer.
fn deleted_reply(alloc: Global, shown: &Shown) -> Result<Reply, AllocError>
    ensures { IfOk result (λ reply. reply ≡ deleted_answer (listed_of shown.now.acts)) }
{
    let mut listed = shown.listed();
    let mut deleted = Reply::empty_array(alloc);
    while let Some(item) = listed.next() {
        if !item.found {
            deleted.push(id_reply(alloc, item.id))?;
        }
    }
    Ok(deleted)
}

/// Adds what is replied of a claimed entry to an array: its id, or the entry if the stream has it.
fn push_claimed(
    claimed: &mut Reply,
    alloc: Global,
    entries: &Entries,
    id: Id,
    just_ids: bool,
) -> Result<(), AllocError>
    requires array { IsArray claimed.old }
    ensures { OnOk result ((items : List ReplyParts) → claimed.old ≡ array_of items
        → claimed.new ≡ array_of (items ++ claimed_items just_ids entries.now.entries id true)) }
{
    if just_ids {
        return claimed.push(id_reply(alloc, id));
    }
    match entries.get(id) {
        None => Ok(()),
        Some(entry) => claimed.push(entry_reply(alloc, &entry)?),
    }
}
