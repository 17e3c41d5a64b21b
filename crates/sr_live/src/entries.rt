//! What the stream has of the entries that are pending for the dead.
ghost use Rattle.std.specs.Prelude.{◌≡◌, ◌++◌, ◌<◌, ◌≤◌, List, filter, is_some, length, map, take, IfErr, IfOk, OnOk};
ghost use Rattle.std.specs.List.{flat_map};
ghost use Rattle.sr_ids.specs.declared.id.Id.{Id};
ghost use Rattle.sr_policy.specs.{Text};
ghost use Rattle.sr_peer.specs.Reply as wire;
ghost use Rattle.sr_peer.specs.{request_text};
ghost use Rattle.sr_live.specs.declared.looked.Row.{Row};
ghost use Rattle.sr_live.specs.Looking.{Exchange, LooksEntries, Talks, entry_call, listed_as};
ghost use Rattle.sr_live.specs.Reading.{BreaksOff};
ghost use Rattle.sr_live.specs.Said.{SayEntries};
ghost use Rattle.sr_live.specs.steps.Listing.{Finds};
ghost use Rattle.sr_live.specs.steps.Misread.{Tells};

use crate::fault::{LiveCall, LiveFault};
use crate::looked::{Asked, Row};
use crate::looking::{append_request, understood};
use crate::ranges::{Pace, look_range};
use crate::said::{Misread, end, entry_said};
use sr_bytes::Name;
use sr_ids::{Id, write_id};
use sr_peer::{Parts, Peer, ask};
use std::alloc::{AllocError, Global};

/// How many entries that are pending for the dead are looked up at most.
pub(crate) const MAX_ROWS: usize = 100_000;

/// What was looked at so far.
#[derive(Drop)]
pub(crate) struct Found {
    /// The entries, by id.
    pub(crate) rows: Vec<Row>,
    /// How many more stranded ones are wanted.
    pub(crate) wanted: u64,
    /// How the next ones are read.
    pub(crate) pace: Pace,
}

/// Looks up the fields of the first of these entries, some of them at a time, until as many as are wanted are stranded.
pub(crate) fn look_first<P: Peer>(
    peer: &mut P,
    alloc: Global,
    asked: &Asked,
    listed: &[(Id, Name)],
    found: &mut Found,
) -> Result<(), LiveFault>
    requires some { 0 < found.old.wanted }
    ensures ok { OnOk result ((talk : List Exchange) × (more : List Row) × (rest : List (Id × Text))
        × Talks (P.sent peer.old) (P.got peer.old) (P.sent peer.new) (P.got peer.new) talk
        × LooksEntries asked.now.key more talk × (map listed_as more ++ rest ≡ listed.now)
        × (found.new.rows.items ≡ found.old.rows.items ++ more)
        × Finds found.old.wanted more found.new.wanted) }
    ensures err { IfErr result (BreaksOff (P.sent peer.old) (P.got peer.old) (P.sent peer.new) (P.got peer.new)) }
{
    let mut left = listed;
    while !left.is_empty() && found.wanted > 0 {
        if found.rows.len() >= MAX_ROWS {
            return Err(LiveFault::TooMany);
        }
        let count = look_next(peer, alloc, asked, left, found)?;
        let (_together, rest) = left.split_at(count);
        left = rest;
    }
    Ok(())
}

/// Looks up the fields of some of these entries, of the first one at least, and answers of how many: by a range, or one
/// by one, after a range that listed many others.
fn look_next<P: Peer>(
    peer: &mut P,
    alloc: Global,
    asked: &Asked,
    listed: &[(Id, Name)],
    found: &mut Found,
) -> Result<usize, LiveFault>
    requires listed { 0 < length listed.now }
    requires some { 0 < found.old.wanted }
    ensures some { IfOk result (λ count. (0 < count) × (count ≤ length listed.now)) }
    ensures ok { IfOk result (λ count. (talk : List Exchange) × (more : List Row)
        × Talks (P.sent peer.old) (P.got peer.old) (P.sent peer.new) (P.got peer.new) talk
        × LooksEntries asked.now.key more talk × (map listed_as more ≡ take count listed.now)
        × (found.new.rows.items ≡ found.old.rows.items ++ more)
        × Finds found.old.wanted more found.new.wanted) }
    ensures err { IfErr result (BreaksOff (P.sent peer.old) (P.got peer.old) (P.sent peer.new) (P.got peer.new)) }
{
    let most = found
        .pace
        .together
        .min(asked.together)
        .max(1)
        .min(listed.len() as u64);
    if found.pace.singly == 0 {
        let (together, _rest) = listed.split_at(most as usize);
        return look_range(peer, alloc, asked, together, found);
    }
    let count = most.min(found.wanted) as usize;
    let (together, _rest) = listed.split_at(count);
    look_some(peer, alloc, asked, together, found)?;
    Ok(count)
}

/// Looks up the fields of these entries one by one, no more than are wanted.
fn look_some<P: Peer>(
    peer: &mut P,
    alloc: Global,
    asked: &Asked,
    listed: &[(Id, Name)],
    found: &mut Found,
) -> Result<(), LiveFault>
    requires most { length listed.now ≤ found.old.wanted }
    requires some { 0 < found.old.wanted }
    ensures ok { OnOk result ((talk : List Exchange) × (more : List Row)
        × Talks (P.sent peer.old) (P.got peer.old) (P.sent peer.new) (P.got peer.new) talk
        × LooksEntries asked.now.key more talk × (map listed_as more ≡ listed.now)
        × (found.new.rows.items ≡ found.old.rows.items ++ more)
        × Finds found.old.wanted more found.new.wanted) }
    ensures err { IfErr result (BreaksOff (P.sent peer.old) (P.got peer.old) (P.sent peer.new) (P.got peer.new)) }
{
    let mut more = Vec::with_capacity(alloc, listed.len())?;
    look_together(peer, alloc, &asked.key, listed, &mut more)?;
    found.pace = found.pace.after_single(listed.len() as u64);
    found.wanted = found.wanted.saturating_sub(count_stranded(more.as_slice()));
    found.rows.append(&mut more)?;
    Ok(())
}

/// How many of the entries are in the stream.
fn count_stranded(rows: &[Row]) -> u64
    ensures { result ≡ length (filter (λ row. is_some row.fields) rows.now) }
{
    rows.iter().filter(|row| row.fields.is_some()).count() as u64
}

/// Looks up the fields of these entries by requests that are sent together, and adds them.
fn look_together<P: Peer>(
    peer: &mut P,
    alloc: Global,
    key: &Name,
    listed: &[(Id, Name)],
    rows: &mut Vec<Row>,
) -> Result<(), LiveFault>
    ensures ok { OnOk result ((talk : List Exchange) × (more : List Row)
        × Talks (P.sent peer.old) (P.got peer.old) (P.sent peer.new) (P.got peer.new) talk
        × LooksEntries key.now more talk × (map (λ row. (row.id, row.owner)) more ≡ listed.now)
        × (rows.new.items ≡ rows.old.items ++ more)) }
    ensures err { IfErr result (BreaksOff (P.sent peer.old) (P.got peer.old) (P.sent peer.new) (P.got peer.new)) }
{
    let requests = entry_requests(alloc, key, listed)?;
    match ask(peer, alloc, requests.as_slice(), listed.len()) {
        Ok(answers) => understood(
            LiveCall::Entry,
            rows_said(alloc, answers.parts(), listed, rows),
        ),
        Err(fault) => Err(LiveFault::Peer(fault)),
    }
}

/// Adds the entries as the replies to their requests have them.
fn rows_said(
    alloc: Global,
    mut parts: Parts<'_>,
    listed: &[(Id, Name)],
    rows: &mut Vec<Row>,
) -> Result<(), Misread>
    ensures ok { OnOk result ((replies : List (List wire.Part)) × (more : List Row)
        × SayEntries replies more × (parts.entry ≡ flat_map (λ reply. reply) replies)
        × (map (λ row. (row.id, row.owner)) more ≡ listed.now) × (rows.new.items ≡ rows.old.items ++ more)) }
    ensures err { IfErr result (Tells parts.entry) }
{
    for (id, owner) in listed {
        let fields = entry_said(alloc, &mut parts, *id)?;
        rows.push(Row {
            id: *id,
            owner: owner.copy(alloc)?,
            fields,
        })?;
    }
    end(&mut parts)
}

/// The requests for the entries with these ids.
fn entry_requests(alloc: Global, key: &Name, listed: &[(Id, Name)]) -> Result<Vec<u8>, AllocError>
    ensures { IfOk result (λ requests. requests.items
        ≡ flat_map (λ entry. request_text (entry_call key.now entry.0)) listed.now) }
{
    let mut requests = Vec::new(alloc);
    for (id, _owner) in listed {
        append_entry_call(&mut requests, key, *id)?;
    }
    Ok(requests)
}

/// Adds the request for the entry with this id.
fn append_entry_call(out: &mut Vec<u8>, key: &Name, id: Id) -> Result<(), AllocError>
    ensures { OnOk result (out.new.items ≡ out.old.items ++ request_text (entry_call key.now id)) }
{
    let mut text = [0; 41];
    let len = write_id(id, &mut text);
    append_request(
        out,
        &[b"XRANGE", key.as_slice(), &text[..len], &text[..len]],
    )
}
