//! A problem and its reply as `plan_check` reads them.
use crate::fault::Fault;
use crate::print::{print_id, print_name, print_number, say};
use sr_bytes::Name;
use sr_plan::Verdict;
use sr_policy::{Live, Rates, Snapshot};
use sr_resp::append_reply;
use std::alloc::Global;
use std::io::Write;

/// Prints the lines of the problem, a line `reply`, and the reply as RESP2 spells it.
pub(crate) fn print_check<W: Write>(
    out: &mut W,
    alloc: Global,
    verdict: &Verdict,
    applied: bool,
) -> Result<(), Fault> {
    let snapshot = verdict.snapshot();
    print_entries(out, alloc, snapshot)?;
    for consumer in snapshot.live() {
        print_consumer(out, alloc, consumer)?;
    }
    for (class, rates) in snapshot.rates() {
        print_rates(out, alloc, class, rates, snapshot.live())?;
    }
    say(out, b"reply\n")?;
    let reply = verdict.reply(alloc, applied)?;
    let mut text = Vec::new(alloc);
    append_reply(&mut text, &reply)?;
    say(out, text.as_slice())
}

/// Prints a line for each stranded entry, and for each that is gone.
fn print_entries<W: Write>(out: &mut W, alloc: Global, snapshot: &Snapshot) -> Result<(), Fault> {
    for entry in snapshot.stranded() {
        say(out, b"entry ")?;
        print_id(out, entry.id)?;
        say(out, b" ")?;
        print_name(out, alloc, entry.class.as_slice())?;
        print_number(out, b" ", entry.weight)?;
        say(out, b"\n")?;
    }
    for (id, _owner) in snapshot.gone() {
        say(out, b"gone ")?;
        print_id(out, *id)?;
        say(out, b"\n")?;
    }
    Ok(())
}

/// Prints the line of a live consumer.
fn print_consumer<W: Write>(out: &mut W, alloc: Global, consumer: &Live) -> Result<(), Fault> {
    say(out, b"consumer ")?;
    print_name(out, alloc, consumer.name.as_slice())?;
    print_number(out, b" ", consumer.free_room())?;
    if let Some((_soft, fee)) = consumer.tier {
        let more = consumer.room().saturating_sub(consumer.free_room());
        print_number(out, b" ", more)?;
        print_number(out, b" ", fee)?;
    }
    say(out, b"\n")
}

/// Prints a line for each consumer that may take the class.
fn print_rates<W: Write>(
    out: &mut W,
    alloc: Global,
    class: &Name,
    rates: &Rates,
    live: &[Live],
) -> Result<(), Fault> {
    for (consumer, rate) in live.iter().zip(rates.as_slice()) {
        if let Some(number) = rate {
            say(out, b"rate ")?;
            print_name(out, alloc, class.as_slice())?;
            say(out, b" ")?;
            print_name(out, alloc, consumer.name.as_slice())?;
            print_number(out, b" ", *number)?;
            say(out, b"\n")?;
        }
    }
    Ok(())
}
