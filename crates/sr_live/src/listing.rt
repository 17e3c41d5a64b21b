//! What is pending for the dead is listed page by page, as far as it is needed.
ghost use Rattle.std.specs.Prelude.{◌≡◌, ◌++◌, ◌∷◌, ◌≤◌, [], List, All, Some, length, map, take, true};
ghost use Rattle.std.specs.Prelude.{IfErr, IfOk, OnOk};
ghost use Rattle.sr_ids.specs.{is_below};
ghost use Rattle.sr_ids.specs.declared.id.Id.{Id};
ghost use Rattle.sr_policy.specs.{Text};
ghost use Rattle.sr_peer.specs.Reply as wire;
ghost use Rattle.sr_peer.specs.{request_text};
ghost use Rattle.sr_live.specs.Looking as looking;
ghost use Rattle.sr_live.specs.Looking.{Exchange, Talks, ids_in, ids_within, last_of, pending_call, pending_words};
ghost use Rattle.sr_live.specs.Looking.{start_after};
ghost use Rattle.sr_live.specs.Reading.{BreaksOff};
ghost use Rattle.sr_live.specs.Said.{SaysPending};
ghost use Rattle.sr_live.specs.steps.Listing.{ListsOn, Widens, are_sure, is_sure, unlisted_of};

use crate::fault::{LiveCall, LiveFault};
use crate::looked::Asked;
use crate::looking::{request_of, understood};
use crate::said::pending_said;
use itoa::Buffer;
use sr_bytes::Name;
use sr_ids::{Id, write_id};
use sr_peer::{Peer, ask};
use std::alloc::{AllocError, Global};

/// How many entries one call of XPENDING lists.
pub(crate) const PAGE: usize = 1000;

/// How far what is pending for a dead consumer was listed.
#[derive(Drop)]
pub(crate) struct Listing {
    /// The consumer.
    pub(crate) name: Name,
    /// The last entry that was listed, if there is one.
    pub(crate) last: Option<Id>,
    /// Whether there may be more behind it.
    pub(crate) goes_on: bool,
}

/// Nothing of the dead is listed.
pub(crate) fn unlisted(alloc: Global, dead: &[Name]) -> Result<Vec<Listing>, AllocError>
    ensures { IfOk result (λ listings. listings.items ≡ map unlisted_of dead.now) }
{
    let mut listings = Vec::with_capacity(alloc, dead.len())?;
    for name in dead {
        listings.push(Listing {
            name: name.copy(alloc)?,
            last: None,
            goes_on: true,
        })?;
    }
    Ok(listings)
}

/// Whether all of them are listed up to this entry; to their ends, if there is none.
pub(crate) fn are_listed(listings: &[Listing], last: Option<Id>) -> bool
    ensures { result ≡ are_sure listings.now last }
{
    listings.iter().all(|one| is_listed(one, last))
}

/// Whether what is pending for the consumer is listed up to this entry; to its end, if there is none.
fn is_listed(one: &Listing, last: Option<Id>) -> bool
    ensures { result ≡ is_sure last one.now }
{
    match (one.last, last) {
        (Some(after), Some(last)) => !one.goes_on || !is_before(after, last),
        _ => !one.goes_on,
    }
}

/// How many of the entries are such that nothing before them can be missing.
pub(crate) fn count_sure(listings: &[Listing], ahead: &[(Id, Name)]) -> usize
    ensures len { result ≤ length ahead.now }
    ensures sure { All (λ one. are_sure listings.now (Some one.0) ≡ true) (take result ahead.now) }
{
    for at in 0..ahead.len() {
        if !are_listed(listings, Some(ahead[at].0)) {
            return at;
        }
    }
    ahead.len()
}

/// Whether a comes before b.
pub(crate) fn is_before(a: Id, b: Id) -> bool
    ensures { result ≡ is_below a b }
{
    a < b
}

/// Lists one more page of each dead consumer that is not listed up to the first entry of `ahead`, and adds them there.
pub(crate) fn list_on<P: Peer>(
    peer: &mut P,
    alloc: Global,
    asked: &Asked,
    listings: &[Listing],
    ahead: &mut Vec<(Id, Name)>,
) -> Result<Vec<Listing>, LiveFault>
    ensures ok { IfOk result (λ wider. (talk : List Exchange) × (more : List (Id × Text))
        × Talks (P.sent peer.old) (P.got peer.old) (P.sent peer.new) (P.got peer.new) talk
        × Widens asked.now.key asked.now.group asked.now.claimable listings.now wider.items talk more
        × (ahead.new.items ≡ ahead.old.items ++ more)) }
    ensures err { IfErr result (BreaksOff (P.sent peer.old) (P.got peer.old) (P.sent peer.new) (P.got peer.new)) }
{
    let mut wider = Vec::with_capacity(alloc, listings.len())?;
    for one in listings {
        wider.push(list_one(peer, alloc, asked, one, ahead)?)?;
    }
    Ok(wider)
}

/// Lists one more page of what is pending for a consumer, if that is needed.
fn list_one<P: Peer>(
    peer: &mut P,
    alloc: Global,
    asked: &Asked,
    one: &Listing,
    ahead: &mut Vec<(Id, Name)>,
) -> Result<Listing, LiveFault>
    ensures ok { IfOk result (λ now. (talk : List Exchange) × (ids : List Id)
        × Talks (P.sent peer.old) (P.got peer.old) (P.sent peer.new) (P.got peer.new) talk
        × ListsOn asked.now.key asked.now.group asked.now.claimable one.now now talk ids
        × (ahead.new.items ≡ ahead.old.items ++ map (λ id. (id, one.now.name)) ids)) }
    ensures err { IfErr result (BreaksOff (P.sent peer.old) (P.got peer.old) (P.sent peer.new) (P.got peer.new)) }
{
    let name = one.name.copy(alloc)?;
    let last = one.last;
    if !one.goes_on || !is_needed(one, ahead.as_slice()) {
        let goes_on = one.goes_on;
        return Ok(Listing {
            name,
            last,
            goes_on,
        });
    }
    let page = look_page(peer, alloc, asked, &name, last)?;
    push_owned(
        ahead,
        alloc,
        page.as_slice(),
        &name,
        asked.claimable.most_deliveries,
    )?;
    let last = last_after(page.as_slice(), last);
    let goes_on = page.len() >= PAGE;
    Ok(Listing {
        name,
        last,
        goes_on,
    })
}

/// Whether the first of the entries is not known to be the next one.
fn is_needed(one: &Listing, ahead: &[(Id, Name)]) -> bool {
    match ahead.first() {
        Some(next) => !is_listed(one, Some(next.0)),
        None => true,
    }
}

/// The last of the entries, or the one before them.
fn last_after(page: &[(Id, u64)], before: Option<Id>) -> Option<Id>
    ensures { result ≡ last_of (ids_in page.now) before }
{
    match page.last() {
        Some(entry) => Some(entry.0),
        None => before,
    }
}

/// Adds those of the entries that have been delivered at most so often, each with its owner.
fn push_owned(
    listed: &mut Vec<(Id, Name)>,
    alloc: Global,
    page: &[(Id, u64)],
    owner: &Name,
    most: Option<u64>,
) -> Result<(), AllocError>
    ensures { OnOk result (listed.new.items
        ≡ listed.old.items ++ map (λ id. (id, owner.now)) (ids_within most page.now)) }
{
    for entry in page {
        if is_within(most, entry) {
            listed.push((entry.0, owner.copy(alloc)?))?;
        }
    }
    Ok(())
}

/// Whether an entry has been delivered at most so often.
fn is_within(most: Option<u64>, entry: &(Id, u64)) -> bool
    ensures { result ≡ looking.is_within most entry.now }
{
    match most {
        Some(most) => entry.1 <= most,
        None => true,
    }
}

/// Looks up the entries that are pending for a consumer behind this one, as many as one call lists, each with how often
/// it has been delivered.
fn look_page<P: Peer>(
    peer: &mut P,
    alloc: Global,
    asked: &Asked,
    name: &Name,
    after: Option<Id>,
) -> Result<Vec<(Id, u64)>, LiveFault>
    ensures ok { IfOk result (λ listed. (parts : List wire.Part)
        × Talks (P.sent peer.old) (P.got peer.old) (P.sent peer.new) (P.got peer.new)
        ((pending_call asked.now.key asked.now.group asked.now.claimable.idle (start_after after) name.now, parts) ∷ [])
        × SaysPending parts name.now listed.items) }
    ensures err { IfErr result (BreaksOff (P.sent peer.old) (P.got peer.old) (P.sent peer.new) (P.got peer.new)) }
{
    let start = start_text(alloc, after)?;
    let mut idle = Buffer::new();
    let request = page_request(
        alloc,
        asked,
        name,
        start.as_slice(),
        idle.format(asked.claimable.idle).as_bytes(),
    )?;
    match ask(peer, alloc, request.as_slice(), 1) {
        Ok(answers) => understood(
            LiveCall::Pending,
            pending_said(alloc, answers.parts(), name),
        ),
        Err(fault) => Err(LiveFault::Peer(fault)),
    }
}

/// The request for the entries that are pending for a consumer from this start on, and have been idle for so long.
fn page_request(
    alloc: Global,
    asked: &Asked,
    name: &Name,
    start: &[u8],
    idle: &[u8],
) -> Result<Vec<u8>, AllocError>
    ensures { IfOk result (λ request. request.items
        ≡ request_text (pending_words asked.now.key asked.now.group idle.now start.now name.now)) }
{
    request_of(
        alloc,
        &[
            b"XPENDING",
            asked.key.as_slice(),
            asked.group.as_slice(),
            b"IDLE",
            idle,
            start,
            b"+",
            b"1000",
            name.as_slice(),
        ],
    )
}

/// The start of a range behind this entry.
fn start_text(alloc: Global, after: Option<Id>) -> Result<Vec<u8>, AllocError>
    ensures { IfOk result (λ start. start.items ≡ start_after after) }
{
    let Some(id) = after else {
        return Vec::from_slice(alloc, b"-");
    };
    let mut text = [0; 41];
    let len = write_id(id, &mut text);
    let mut start = Vec::from_slice(alloc, b"(")?;
    start.extend_from_slice(&text[..len])?;
    Ok(start)
}
