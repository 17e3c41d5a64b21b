//! A group is looked up by ordinary commands.
ghost use Rattle.std.specs.Prelude.{◌≡◌, ◌++◌, ◌∷◌, ◌<◌, [], List, None, Ok, is_some, map, true};
ghost use Rattle.std.specs.Prelude.{IfErr, IfOk, IsTrue, OnOk};
ghost use Rattle.std.specs.List.Sorted.{IsPermutation, IsSortedBy};
ghost use Rattle.sr_ids.specs.{is_below};
ghost use Rattle.sr_peer.specs.Reply as wire;
ghost use Rattle.sr_peer.specs.{request_text};
ghost use Rattle.sr_live.specs.declared.fault.LiveFault.TheVariants.{TooMany};
ghost use Rattle.sr_live.specs.Looking.{Exchange, IsLooked, LooksRows, Talks, last_of, stream_call};
ghost use Rattle.sr_live.specs.Reading.{BreaksOff, IsOfLooking, IsReading};
ghost use Rattle.sr_live.specs.Said.{SaysRemoved};
ghost use Rattle.sr_live.specs.steps.Listing.{Follow, Passes};
ghost use Rattle.sr_live.specs.steps.Misread.{IsToldAs};

use crate::consumers::look_live;
use crate::entries::{Found, MAX_ROWS, look_first};
use crate::fault::{LiveCall, LiveFault};
use crate::listing::{Listing, PAGE, are_listed, count_sure, is_before, list_on, unlisted};
use crate::looked::{Asked, Looked, Row};
use crate::ranges::Pace;
use crate::said::{Misread, removed_said};
use sr_bytes::Name;
use sr_ids::Id;
use sr_peer::{Peer, append_header, append_word, ask};
use std::alloc::{AllocError, Global};

/// How many entries may be stranded, if no number of them is asked for.
const MAX_STRANDED: u64 = 4096;

/// Looks up which entries are pending for the dead, with their fields, and how many are pending for each consumer of a
/// group; and for how long each consumer has been idle, if that is asked for. With a number it looks no further than
/// that many stranded entries. Between the calls the group may change.
///
/// Source: Redis documentation, commands XINFO STREAM, XINFO CONSUMERS, XPENDING and XRANGE.
pub fn look<P: Peer>(
    peer: &mut P,
    alloc: Global,
    asked: &Asked,
    at_most: Option<u64>,
) -> Result<Looked, LiveFault>
    ensures ok { IfOk result (λ looked. (talk : List Exchange)
        × Talks (P.sent peer.old) (P.got peer.old) (P.sent peer.new) (P.got peer.new) talk
        × IsLooked asked.now at_most talk looked.idles.items looked.numbers.items looked.rows.items looked.last
        looked.removed) }
    ensures err { IfErr result (BreaksOff (P.sent peer.old) (P.got peer.old) (P.sent peer.new) (P.got peer.new)) }
{
    // Before any entry is read: what was removed by then is read as gone, and what is removed later alters the number.
    let removed = look_removed(peer, alloc, &asked.key)?;
    let (rows, last) = look_rows(peer, alloc, asked, at_most)?;
    // The numbers change most, so they are the youngest part when the script compares.
    let (idles, numbers) = look_live(peer, alloc, asked)?;
    Ok(Looked {
        idles,
        numbers,
        rows,
        last,
        removed,
    })
}

/// Looks up how many entries were removed from a stream since it was made.
///
/// Source: Redis documentation, command XINFO STREAM.
fn look_removed<P: Peer>(peer: &mut P, alloc: Global, key: &Name) -> Result<u64, LiveFault>
    ensures ok { IfOk result (λ removed. (parts : List wire.Part)
        × Talks (P.sent peer.old) (P.got peer.old) (P.sent peer.new) (P.got peer.new)
        ((stream_call key.now, parts) ∷ []) × SaysRemoved parts removed) }
    ensures err { IfErr result (BreaksOff (P.sent peer.old) (P.got peer.old) (P.sent peer.new) (P.got peer.new)) }
{
    let request = stream_request(alloc, key)?;
    match ask(peer, alloc, request.as_slice(), 1) {
        Ok(answers) => understood(LiveCall::Stream, removed_said(alloc, answers.parts())),
        Err(fault) => Err(LiveFault::Peer(fault)),
    }
}

/// The request for what is known of a stream.
fn stream_request(alloc: Global, key: &Name) -> Result<Vec<u8>, AllocError>
    ensures { IfOk result (λ request. request.items ≡ request_text (stream_call key.now)) }
{
    request_of(alloc, &[b"XINFO", b"STREAM", key.as_slice()])
}

/// How far the look-up has come.
#[derive(Drop)]
struct Seen {
    /// Of each dead consumer, how far it was listed.
    listings: Vec<Listing>,
    /// What was listed and not looked at yet, by id.
    ahead: Vec<(Id, Name)>,
    found: Found,
}

/// Looks up the entries that are pending for the dead, until as many as are asked for are stranded, and answers the
/// last one if that is so.
fn look_rows<P: Peer>(
    peer: &mut P,
    alloc: Global,
    asked: &Asked,
    at_most: Option<u64>,
) -> Result<(Vec<Row>, Option<Id>), LiveFault>
    ensures ok { IfOk result (λ seen. (talk : List Exchange)
        × Talks (P.sent peer.old) (P.got peer.old) (P.sent peer.new) (P.got peer.new) talk
        × LooksRows asked.now.key asked.now.group asked.now.claimable asked.now.dead.items at_most talk seen.0.items
        seen.1) }
    ensures err { IfErr result (BreaksOff (P.sent peer.old) (P.got peer.old) (P.sent peer.new) (P.got peer.new)) }
{
    let mut seen = Seen {
        listings: unlisted(alloc, asked.dead.as_slice())?,
        ahead: Vec::new(alloc),
        found: Found {
            rows: Vec::new(alloc),
            wanted: at_most.unwrap_or(MAX_STRANDED + 1).max(1),
            pace: Pace::first(),
        },
    };
    // Each pass but the last has looked at a page or more.
    for _ in 0..=MAX_ROWS / PAGE {
        seen = look_pass(peer, alloc, asked, seen)?;
        if seen.found.wanted == 0 {
            return up_to_last(seen.found.rows, at_most);
        }
        if seen.ahead.is_empty() && are_listed(seen.listings.as_slice(), None) {
            return Ok((seen.found.rows, None));
        }
    }
    Err(LiveFault::TooMany)
}

/// These entries, of which the last one is the last that was asked for. Without a number so many are too many.
fn up_to_last(rows: Vec<Row>, at_most: Option<u64>) -> Result<(Vec<Row>, Option<Id>), LiveFault>
    ensures ok { IfOk result (λ seen. (seen.0.items ≡ rows.items) × (is_some at_most ≡ true)
        × (seen.1 ≡ last_of (map (λ row. row.id) rows.items) None)) }
    ensures err { IfErr result (λ fault. fault ≡ TooMany) }
{
    if at_most.is_none() {
        return Err(LiveFault::TooMany);
    }
    let last = last_id(rows.as_slice());
    Ok((rows, last))
}

/// The last of the entries.
fn last_id(rows: &[Row]) -> Option<Id>
    ensures { result ≡ last_of (map (λ row. row.id) rows.now) None }
{
    match rows.last() {
        Some(row) => Some(row.id),
        None => None,
    }
}

/// Lists further where that is needed, and looks at those entries before which nothing can be missing.
fn look_pass<P: Peer>(
    peer: &mut P,
    alloc: Global,
    asked: &Asked,
    seen: Seen,
) -> Result<Seen, LiveFault>
    requires some { 0 < seen.found.wanted }
    ensures ok { IfOk result (λ now. (talk : List Exchange)
        × Talks (P.sent peer.old) (P.got peer.old) (P.sent peer.new) (P.got peer.new) talk
        × Passes asked.now.key asked.now.group asked.now.claimable talk seen now) }
    ensures err { IfErr result (BreaksOff (P.sent peer.old) (P.got peer.old) (P.sent peer.new) (P.got peer.new)) }
{
    let Seen {
        listings,
        mut ahead,
        mut found,
    } = seen;
    let listings = list_on(peer, alloc, asked, listings.as_slice(), &mut ahead)?;
    let mut ahead = in_order(ahead)?;
    if !follow(found.rows.as_slice(), ahead.as_slice()) {
        return Err(LiveFault::Shape(LiveCall::Pending));
    }
    let before = found.rows.len();
    let sure = count_sure(listings.as_slice(), ahead.as_slice());
    let (front, _) = ahead.as_slice().split_at(sure);
    look_first(peer, alloc, asked, front, &mut found)?;
    let ahead = ahead.split_off(found.rows.len() - before)?;
    Ok(Seen {
        listings,
        ahead,
        found,
    })
}

/// Whether none of the entries comes before the last of these rows.
fn follow(rows: &[Row], ahead: &[(Id, Name)]) -> bool
    ensures { IsTrue result → Follow rows.now ahead.now }
{
    match (rows.last(), ahead.first()) {
        (Some(row), Some(one)) => !is_before(one.0, row.id),
        _ => true,
    }
}

/// The entries in order of their ids.
fn in_order(mut listed: Vec<(Id, Name)>) -> Result<Vec<(Id, Name)>, AllocError>
    ensures same { IfOk result (λ sorted. IsPermutation listed.items sorted.items) }
    ensures rising { IfOk result (λ sorted. IsSortedBy (λ a b. is_below a.0 b.0) sorted.items) }
{
    listed.sort_by_key(|entry| entry.0)?;
    Ok(listed)
}

/// A request of these words.
pub(crate) fn request_of(alloc: Global, words: &[&[u8]]) -> Result<Vec<u8>, AllocError>
    ensures { IfOk result (λ request. request.items ≡ request_text (map (λ word. word.now) words.now)) }
{
    let mut request = Vec::new(alloc);
    append_request(&mut request, words)?;
    Ok(request)
}

/// Adds a request of these words.
pub(crate) fn append_request(out: &mut Vec<u8>, words: &[&[u8]]) -> Result<(), AllocError>
    ensures { OnOk result (out.new.items ≡ out.old.items ++ request_text (map (λ word. word.now) words.now)) }
{
    append_header(out, words.len())?;
    for word in words {
        append_word(out, word)?;
    }
    Ok(())
}

/// What the reply to this call says, or why it says nothing.
pub(crate) fn understood<T>(call: LiveCall, said: Result<T, Misread>) -> Result<T, LiveFault>
    ensures ok { IfOk result (λ value. said ≡ Ok value) }
    ensures err { IsReading call → IfErr result IsOfLooking }
    ensures told { IfErr result (IsToldAs call said) }
{
    match said {
        Ok(value) => Ok(value),
        Err(Misread::Memory) => Err(LiveFault::Memory),
        Err(Misread::ErrorReply(text)) => Err(LiveFault::ErrorReply(call, text)),
        Err(Misread::Shape) => Err(LiveFault::Shape(call)),
    }
}
