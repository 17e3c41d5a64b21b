//! What would help: one more place where a place has a price, and room for entries of which there are too many.
use crate::fault::Fault;
use crate::print::{print_name, print_number, say};
use sr_bytes::Name;
use sr_plan::Verdict;
use sr_policy::{Rates, Snapshot};
use std::alloc::{AllocError, Global};
use std::io::Write;

/// Notes where one more place would save most, if a place has a price; and without a plan, who could take the entries
/// for which there are too few places.
pub(crate) fn print_advice<W: Write>(
    out: &mut W,
    alloc: Global,
    verdict: &Verdict,
) -> Result<(), Fault> {
    if verdict.total().is_some() {
        return print_saving(out, alloc, verdict);
    }
    let takers = takers_of(alloc, verdict)?;
    print_takers(out, alloc, verdict.snapshot(), takers.as_slice())
}

/// Notes the greatest price: one more place there saves no more than that.
fn print_saving<W: Write>(out: &mut W, alloc: Global, verdict: &Verdict) -> Result<(), Fault> {
    let Some(mut prices) = verdict.prices() else {
        return Ok(());
    };
    let mut most = 0;
    let mut place: Option<(&Name, &'static str)> = None;
    for _ in 0..prices.len() {
        let Some((name, own)) = prices.next() else {
            break;
        };
        for (tier, price) in own.iter().enumerate() {
            if *price > most {
                most = *price;
                place = Some((name, place_text(tier == 0 && own.len() > 1)));
            }
        }
    }
    let Some((name, text)) = place else {
        return Ok(());
    };
    say(out, text.as_bytes())?;
    print_name(out, alloc, name.as_slice())?;
    print_number(out, b" would save up to ", most)?;
    say(out, b"\n")
}

/// What a place is, if it is without a fee where others have one, and if not.
fn place_text(is_free: bool) -> &'static str {
    if is_free {
        "note: one more place without a fee at "
    } else {
        "note: one more place at "
    }
}

/// For each live consumer whether it may take one of the entries for which there are too few places.
fn takers_of(alloc: Global, verdict: &Verdict) -> Result<Vec<bool>, AllocError> {
    let snapshot = verdict.snapshot();
    let mut takers = Vec::with_capacity(alloc, snapshot.live().len())?;
    for _consumer in snapshot.live() {
        takers.push(false)?;
    }
    let Some(mut ids) = verdict.shortage() else {
        return Ok(takers);
    };
    let mut next = ids.next();
    for entry in snapshot.stranded() {
        if next == Some(entry.id) {
            next = ids.next();
            add_takers(&mut takers, rates_for(snapshot, &entry.class));
        }
    }
    Ok(takers)
}

/// The rates for a class, if the snapshot has some.
fn rates_for<'a>(snapshot: &'a Snapshot, class: &Name) -> Option<&'a Rates> {
    for (name, rates) in snapshot.rates() {
        if *name == *class {
            return Some(rates);
        }
    }
    None
}

/// Adds those that have a rate.
fn add_takers(takers: &mut Vec<bool>, rates: Option<&Rates>) {
    let Some(rates) = rates else {
        return;
    };
    for (place, rate) in rates.as_slice().iter().enumerate() {
        if rate.is_some() && place < takers.len() {
            takers[place] = true;
        }
    }
}

/// Notes who may take the entries, and what room each has.
fn print_takers<W: Write>(
    out: &mut W,
    alloc: Global,
    snapshot: &Snapshot,
    takers: &[bool],
) -> Result<(), Fault> {
    let mut before = b"note: these may go to ".as_slice();
    for (consumer, takes) in snapshot.live().iter().zip(takers) {
        if *takes {
            say(out, before)?;
            print_name(out, alloc, consumer.name.as_slice())?;
            print_number(out, b" (room ", consumer.room())?;
            say(out, b")")?;
            before = b", ".as_slice();
        }
    }
    if takers.contains(&true) {
        return say(out, b"\n");
    }
    say(out, b"note: nobody who is live may take these\n")
}
