//! Entries that are pending for the dead are read by ranges, if they lie close.
ghost use Rattle.std.specs.Prelude.{◌≡◌, ◌++◌, ◌∷◌, ◌+◌, ◌-◌, ◌<◌, ◌≤◌, [], ℕ, List, codes, is_some, length, not};
ghost use Rattle.std.specs.Prelude.{IfErr, IfOk, IsTrue, OnOk, if◌then◌else◌, map, slice_index_or, take, true};
ghost use Rattle.std.specs.List.{AllByRecursion, list_all, list_any};
ghost use Rattle.sr_ids.specs.{is_below};
ghost use Rattle.sr_peer.specs.{request_text};
ghost use Rattle.sr_live.specs.declared.looked.Row.{Row};
ghost use Rattle.sr_live.specs.Looking.{Exchange, LooksEntries, Talks, listed_as, range_call};
ghost use Rattle.sr_live.specs.Reading.{BreaksOff};
ghost use Rattle.sr_live.specs.Said.{IsTold, Listed, SaysRange};
ghost use Rattle.sr_live.specs.Said.{fields_at as at, is_between as between, reaches as reach};
ghost use Rattle.sr_live.specs.steps.Listing.{Finds};
ghost use Rattle.sr_live.specs.steps.Misread.{Tells};

use crate::entries::Found;
use crate::fault::{LiveCall, LiveFault};
use crate::listing::is_before;
use crate::looked::{Asked, Row};
use crate::looking::{request_of, understood};
use crate::said::{Misread, entries_said};
use itoa::Buffer;
use sr_bytes::{Fields, Name};
use sr_ids::{Id, write_id};
use sr_peer::{Parts, Peer, ask};
use std::alloc::{AllocError, Global};

/// How many entries are read at a time at first, and again after long ones.
const FIRST_TOGETHER: u64 = 32;

/// How many are read at a time at most.
const MOST_TOGETHER: u64 = 256;

/// How many bytes a reply has at least that keeps the next one from being for twice as many entries.
const LONG: usize = 1 << 20;

/// How entries are read.
#[derive(Clone, Copy)]
pub(crate) struct Pace {
    /// How many at a time.
    pub(crate) together: u64,
    /// How many are read one by one before a range is tried again.
    pub(crate) singly: u64,
}

impl Pace {
    /// A few at a time, by a range.
    pub(crate) fn first() -> Pace {
        Pace {
            together: FIRST_TOGETHER,
            singly: 0,
        }
    }

    /// After so many were read one by one.
    pub(crate) fn after_single(self, count: u64) -> Pace {
        Pace {
            together: FIRST_TOGETHER,
            singly: self.singly.saturating_sub(count),
        }
    }

    /// After a reply of so many bytes: for twice as many entries, if it was short.
    fn after_reply(self, bytes: usize) -> Pace {
        if bytes >= LONG {
            return Pace::first();
        }
        Pace {
            together: self.together.saturating_mul(2).min(MOST_TOGETHER),
            singly: self.singly,
        }
    }

    /// After a range that lists so many entries and tells of so many of those that are wanted. If it lists more than
    /// two and a half times as many, as many are read one by one as it listed in vain.
    fn after_range(self, listed: usize, told: usize) -> Pace {
        let (listed, told) = (listed as u64, told as u64);
        if listed.saturating_mul(2) <= told.saturating_mul(5) {
            return self;
        }
        Pace {
            together: FIRST_TOGETHER,
            singly: listed.saturating_sub(told),
        }
    }
}

/// What a call of XRANGE asks for.
#[derive(Clone, Copy)]
struct Range {
    /// The first id.
    first: Id,
    /// The last one.
    last: Id,
    /// How many entries are listed at most.
    count: u64,
}

/// Looks up the fields of the first of these entries by a range, no more stranded ones than are wanted, and answers of
/// how many entries it tells.
pub(crate) fn look_range<P: Peer>(
    peer: &mut P,
    alloc: Global,
    asked: &Asked,
    listed: &[(Id, Name)],
    found: &mut Found,
) -> Result<usize, LiveFault>
    requires listed { 0 < length listed.now }
    requires some { 0 < found.old.wanted }
    ensures some { IfOk result (λ count. (0 < count) × (count ≤ length listed.now)) }
    ensures ok { IfOk result (λ count. (talk : List Exchange) × (more : List Row)
        × Talks (P.sent peer.old) (P.got peer.old) (P.sent peer.new) (P.got peer.new) talk
        × LooksEntries asked.now.key more talk × (map listed_as more ≡ take count listed.now)
        × (found.new.rows.items ≡ found.old.rows.items ++ more)
        × Finds found.old.wanted more found.new.wanted) }
    ensures err { IfErr result (BreaksOff (P.sent peer.old) (P.got peer.old) (P.sent peer.new) (P.got peer.new)) }
{
    let range = Range {
        first: listed[0].0,
        last: listed[listed.len() - 1].0,
        count: found.wanted.min(listed.len() as u64),
    };
    let request = range_request(alloc, &asked.key, range)?;
    match ask(peer, alloc, request.as_slice(), 1) {
        Ok(answers) => {
            found.pace = found.pace.after_reply(answers.text().len());
            let told = rows_told(alloc, answers.parts(), range, listed, found);
            understood(LiveCall::Entry, told)
        }
        Err(fault) => Err(LiveFault::Peer(fault)),
    }
}

/// The request for a range.
fn range_request(alloc: Global, key: &Name, range: Range) -> Result<Vec<u8>, AllocError>
    ensures { IfOk result (λ request. request.items
        ≡ request_text (range_call key.now range.first range.last range.count)) }
{
    let mut first = [0; 41];
    let first_len = write_id(range.first, &mut first);
    let mut last = [0; 41];
    let last_len = write_id(range.last, &mut last);
    let mut count = Buffer::new();
    range_words(
        alloc,
        key,
        &first[..first_len],
        &last[..last_len],
        count.format(range.count).as_bytes(),
    )
}

/// The request for a range of these words.
fn range_words(
    alloc: Global,
    key: &Name,
    first: &[u8],
    last: &[u8],
    count: &[u8],
) -> Result<Vec<u8>, AllocError>
    ensures { IfOk result (λ request. request.items ≡ request_text (codes "XRANGE" ∷ key.now ∷ first.now ∷ last.now
        ∷ codes "COUNT" ∷ count.now ∷ [])) }
{
    request_of(
        alloc,
        &[b"XRANGE", key.as_slice(), first, last, b"COUNT", count],
    )
}

/// Adds those first ones of the rows of which the reply to a range tells, one at least, and answers how many they are.
fn rows_told(
    alloc: Global,
    parts: Parts<'_>,
    range: Range,
    listed: &[(Id, Name)],
    found: &mut Found,
) -> Result<usize, Misread>
    requires { 0 < found.old.wanted }
    ensures some { IfOk result (λ count. (0 < count) × (count ≤ length listed.now)) }
    ensures told { IfOk result (λ count. (entries : List Listed) × (more : List Row)
        × SaysRange range.first range.last range.count parts.entry entries
        × AllByRecursion (IsTold range.first range.last range.count entries) more
        × (map listed_as more ≡ take count listed.now) × (found.new.rows.items ≡ found.old.rows.items ++ more)
        × Finds found.old.wanted more found.new.wanted) }
    ensures err { IfErr result (Tells parts.entry) }
{
    let entries = entries_said(alloc, parts)?;
    if !are_of(range, entries.as_slice()) {
        return Err(Misread::Shape);
    }
    let told = push_told(alloc, range, entries.as_slice(), listed, found)?;
    // A range begins at the first of the rows, so it tells of that one at least.
    if told == 0 {
        return Err(Misread::Shape);
    }
    found.pace = found.pace.after_range(entries.len(), told);
    Ok(told)
}

/// Whether XRANGE can list these entries: they are in the range, in order, and no more than were asked for.
fn are_of(range: Range, entries: &[(Id, Fields)]) -> bool
    ensures few { IsTrue result → length entries.now ≤ range.count }
    ensures inside { IsTrue result
        → list_all (λ (entry : Listed). between range.first range.last entry.0) entries.now ≡ true }
    ensures rising { IsTrue result → (k : ℕ) → (d : Listed) → k + 1 < length entries.now
        → is_below (slice_index_or entries.now k d).0 (slice_index_or entries.now (k + 1) d).0 ≡ true }
{
    entries.len() as u64 <= range.count && are_inside(range, entries) && are_rising(entries)
}

/// Whether all of them are in the range.
fn are_inside(range: Range, entries: &[(Id, Fields)]) -> bool
    ensures { result ≡ list_all (λ (entry : Listed). between range.first range.last entry.0) entries.now }
{
    entries.iter().all(|entry| is_between(range, entry.0))
}

/// Whether each of them comes after the one before it.
fn are_rising(entries: &[(Id, Fields)]) -> bool
    ensures { IsTrue result → (k : ℕ) → (d : Listed) → k + 1 < length entries.now
        → is_below (slice_index_or entries.now k d).0 (slice_index_or entries.now (k + 1) d).0 ≡ true }
{
    for at in 1..entries.len() {
        if !is_before(entries[at - 1].0, entries[at].0) {
            return false;
        }
    }
    true
}

/// Whether the id is one of the range.
fn is_between(range: Range, id: Id) -> bool
    ensures { result ≡ between range.first range.last id }
{
    !is_before(id, range.first) && !is_before(range.last, id)
}

/// Whether the entries of a range tell what the stream has at this id.
fn reaches(range: Range, entries: &[(Id, Fields)], id: Id) -> bool
    ensures { result ≡ reach range.first range.last range.count entries.now id }
{
    is_between(range, id) && ((entries.len() as u64) < range.count || are_up_to(entries, id))
}

/// Whether one of the entries does not come before this id.
fn are_up_to(entries: &[(Id, Fields)], id: Id) -> bool
    ensures { result ≡ list_any (λ (entry : Listed). not (is_below entry.0 id)) entries.now }
{
    entries.iter().any(|entry| !is_before(entry.0, id))
}

/// Adds those first ones of the rows of which the entries of a range tell, until as many as are wanted are stranded,
/// and answers how many they are.
fn push_told(
    alloc: Global,
    range: Range,
    entries: &[(Id, Fields)],
    listed: &[(Id, Name)],
    found: &mut Found,
) -> Result<usize, AllocError>
    requires { 0 < found.old.wanted }
    ensures few { IfOk result (λ count. count ≤ length listed.now) }
    ensures told { IfOk result (λ count. (more : List Row)
        × AllByRecursion (IsTold range.first range.last range.count entries.now) more
        × (map listed_as more ≡ take count listed.now) × (found.new.rows.items ≡ found.old.rows.items ++ more)
        × Finds found.old.wanted more found.new.wanted) }
{
    for at in 0..listed.len() {
        if found.wanted == 0 || !reaches(range, entries, listed[at].0) {
            return Ok(at);
        }
        push_row(alloc, entries, &listed[at], found)?;
    }
    Ok(listed.len())
}

/// Adds a row as these entries have it.
fn push_row(
    alloc: Global,
    entries: &[(Id, Fields)],
    one: &(Id, Name),
    found: &mut Found,
) -> Result<(), AllocError>
    requires { 0 < found.old.wanted }
    ensures { OnOk result ((row : Row) × (listed_as row ≡ one.now) × (row.fields ≡ at one.now.0 entries.now)
        × (found.new.rows.items ≡ found.old.rows.items ++ row ∷ [])
        × Finds found.old.wanted (row ∷ []) found.new.wanted) }
{
    let fields = fields_at(alloc, entries, one.0)?;
    found.wanted = left_after(found.wanted, &fields);
    found.rows.push(Row {
        id: one.0,
        owner: one.1.copy(alloc)?,
        fields,
    })?;
    Ok(())
}

/// How many stranded entries are wanted after one with these fields.
fn left_after(wanted: u64, fields: &Option<Fields>) -> u64
    ensures { result ≡ (if is_some fields.now then wanted - 1 else wanted) }
{
    if fields.is_some() {
        wanted.saturating_sub(1)
    } else {
        wanted
    }
}

/// The fields of the entry with this id, if one of these has it.
fn fields_at(alloc: Global, entries: &[(Id, Fields)], id: Id) -> Result<Option<Fields>, AllocError>
    ensures { IfOk result (λ fields. fields ≡ at id entries.now) }
{
    for (other, fields) in entries {
        if *other == id {
            return Ok(Some(fields.copy(alloc)?));
        }
    }
    Ok(None)
}
