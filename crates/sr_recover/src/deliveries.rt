//! How often the pending entries of a group were delivered.
use crate::errors::{call_text, told};
use crate::fault::{Fault, peer_fault};
use crate::wire::Wire;
use sr_bytes::Name;
use sr_live::{Asked, LiveCall};
use sr_peer::{Part, Parts, append_header, append_number, append_word, ask};
use std::alloc::{AllocError, Global};

/// How many entries one call of XPENDING lists.
const PAGE: usize = 1000;

/// How many calls are made at most.
const MAX_PAGES: usize = 100;

/// How many entries that were delivered too often are told at most.
const MAX_TOLD: usize = 20;

/// A row of XPENDING: the id of an entry, whom it is pending for, and how often it was delivered.
#[derive(Drop)]
pub(crate) struct Delivered {
    pub(crate) id: Vec<u8>,
    pub(crate) owner: Name,
    pub(crate) count: u64,
}

/// The entries of the dead that were delivered more often than is asked for, and so are left where they are.
#[derive(Drop)]
pub(crate) struct GivenUp {
    /// How often an entry is delivered at most.
    pub(crate) most: u64,
    /// How many they are, among the first 100,000 that are pending for each dead consumer.
    pub(crate) all: u64,
    /// The first of them.
    pub(crate) first: Vec<Delivered>,
}

/// What a page is asked of.
#[derive(Clone, Copy)]
struct Sought<'a> {
    asked: &'a Asked,
    /// One consumer alone, and those entries that may be moved by how long they have been idle; or the whole group.
    consumer: Option<&'a Name>,
}

/// The highest delivery count among what is pending for each consumer that has any, of the first 100,000 by id.
///
/// Source: Redis documentation, command XPENDING.
pub(crate) fn look_deliveries(
    wire: &mut Wire,
    alloc: Global,
    asked: &Asked,
) -> Result<Vec<(Name, u64)>, Fault> {
    let sought = Sought {
        asked,
        consumer: None,
    };
    let mut highest = Vec::new(alloc);
    let mut start = Vec::from_slice(alloc, b"-")?;
    for _ in 0..MAX_PAGES {
        let page = look_page(wire, alloc, sought, start.as_slice())?;
        for row in &page {
            add_row(&mut highest, alloc, row)?;
        }
        match next_start(alloc, page.as_slice())? {
            Some(next) => start = next,
            None => break,
        }
    }
    Ok(highest)
}

/// The entries of the dead that were delivered more often than is asked for. `None` if nothing is asked for.
///
/// Source: Redis documentation, command XPENDING.
pub(crate) fn look_given_up(
    wire: &mut Wire,
    alloc: Global,
    asked: &Asked,
) -> Result<Option<GivenUp>, Fault> {
    let Some(most) = asked.claimable.most_deliveries else {
        return Ok(None);
    };
    let mut found = GivenUp {
        most,
        all: 0,
        first: Vec::new(alloc),
    };
    for name in &asked.dead {
        let sought = Sought {
            asked,
            consumer: Some(name),
        };
        look_given_up_of(wire, alloc, sought, &mut found)?;
    }
    Ok(Some(found))
}

/// Adds those of one consumer.
fn look_given_up_of(
    wire: &mut Wire,
    alloc: Global,
    sought: Sought<'_>,
    found: &mut GivenUp,
) -> Result<(), Fault> {
    let mut start = Vec::from_slice(alloc, b"-")?;
    for _ in 0..MAX_PAGES {
        let page = look_page(wire, alloc, sought, start.as_slice())?;
        let next = next_start(alloc, page.as_slice())?;
        for row in page {
            if row.count > found.most {
                found.all = found.all.saturating_add(1);
                if found.first.len() < MAX_TOLD {
                    found.first.push(row)?;
                }
            }
        }
        match next {
            Some(next) => start = next,
            None => break,
        }
    }
    Ok(())
}

/// Looks up a page from this start on.
fn look_page(
    wire: &mut Wire,
    alloc: Global,
    sought: Sought<'_>,
    start: &[u8],
) -> Result<Vec<Delivered>, Fault> {
    let request = page_request(alloc, sought, start)?;
    let answers = match ask(wire, alloc, request.as_slice(), 1) {
        Ok(answers) => answers,
        Err(fault) => return Err(peer_fault(fault)),
    };
    let mut parts = answers.parts();
    let count = match parts.next() {
        Some(Part::Array(count)) => count,
        Some(Part::Error(text)) => {
            return Err(told(alloc, LiveCall::Pending, wire.script(), text));
        }
        _ => return Err(Fault::Shape(call_text(LiveCall::Pending))),
    };
    let mut page = Vec::new(alloc);
    for _ in 0..count {
        let Some(row) = next_row(alloc, &mut parts)? else {
            return Err(Fault::Shape(call_text(LiveCall::Pending)));
        };
        page.push(row)?;
    }
    Ok(page)
}

/// The request for a page of what is pending.
fn page_request(alloc: Global, sought: Sought<'_>, start: &[u8]) -> Result<Vec<u8>, AllocError> {
    let asked = sought.asked;
    let mut request = Vec::new(alloc);
    append_header(&mut request, if sought.consumer.is_some() { 9 } else { 6 })?;
    append_word(&mut request, b"XPENDING")?;
    append_word(&mut request, asked.key.as_slice())?;
    append_word(&mut request, asked.group.as_slice())?;
    if sought.consumer.is_some() {
        append_word(&mut request, b"IDLE")?;
        append_number(&mut request, asked.claimable.idle)?;
    }
    append_word(&mut request, start)?;
    append_word(&mut request, b"+")?;
    append_number(&mut request, PAGE as u64)?;
    if let Some(name) = sought.consumer {
        append_word(&mut request, name.as_slice())?;
    }
    Ok(request)
}

/// The start of the page behind this one, if there may be more.
fn next_start(alloc: Global, page: &[Delivered]) -> Result<Option<Vec<u8>>, AllocError> {
    let Some(last) = page.last() else {
        return Ok(None);
    };
    if page.len() < PAGE {
        return Ok(None);
    }
    let mut start = Vec::from_slice(alloc, b"(")?;
    start.extend_from_slice(last.id.as_slice())?;
    Ok(Some(start))
}

/// The next row, if these parts are one.
fn next_row(alloc: Global, parts: &mut Parts<'_>) -> Result<Option<Delivered>, AllocError> {
    let Some(Part::Array(4)) = parts.next() else {
        return Ok(None);
    };
    let id = parts.next();
    let owner = parts.next();
    let _idle = parts.next();
    match (id, owner, parts.next()) {
        (Some(Part::Bulk(id)), Some(Part::Bulk(owner)), Some(Part::Int(count))) if count >= 0 => {
            Ok(Some(Delivered {
                id: Vec::from_slice(alloc, id)?,
                owner: Name::new(Vec::from_slice(alloc, owner)?),
                count: count as u64,
            }))
        }
        _ => Ok(None),
    }
}

/// Counts a row for its consumer.
fn add_row(
    highest: &mut Vec<(Name, u64)>,
    alloc: Global,
    row: &Delivered,
) -> Result<(), AllocError> {
    for place in 0..highest.len() {
        if highest[place].0 == row.owner {
            highest[place].1 = highest[place].1.max(row.count);
            return Ok(());
        }
    }
    highest.push((row.owner.copy(alloc)?, row.count))?;
    Ok(())
}
