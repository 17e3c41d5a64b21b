//! A plan as a table that a person reads.
use crate::fault::Fault;
use crate::table::{Row, print_table};
use itoa::Buffer;
use sr_bytes::Name;
use sr_ids::{Id, write_id};
use sr_plan::Verdict;
use sr_policy::{Live, Snapshot};
use std::alloc::{AllocError, Global};
use std::io::Write;

/// What a consumer gets by a plan.
#[derive(Clone, Copy)]
pub(crate) struct Share {
    /// How many entries.
    pub(crate) entries: u64,
    /// What they cost, the fees beyond a soft limit with them.
    pub(crate) cost: u64,
}

/// How many entries that are gone are printed at most.
const MAX_GONE: usize = 20;

/// Prints a plan with its prices, or that there is none, and how many entries are gone, of which it prints the first.
pub(crate) fn print_plan<W: Write>(
    out: &mut W,
    alloc: Global,
    verdict: &Verdict,
) -> Result<(), Fault> {
    match verdict.total() {
        Some(total) => print_shares(out, alloc, verdict, total)?,
        None => print_shortage(out, verdict)?,
    }
    print_gone(out, alloc, verdict.gone())
}

/// Prints how many entries are gone, and the first of them, which no plan moves.
pub(crate) fn print_gone<W: Write>(
    out: &mut W,
    alloc: Global,
    gone: &[(Id, Name)],
) -> Result<(), Fault> {
    if gone.is_empty() {
        return Ok(());
    }
    print_number(out, b"gone: ", gone.len() as u64)?;
    say(out, b"\n")?;
    for (id, owner) in gone.iter().take(MAX_GONE) {
        say(out, b"gone ")?;
        print_id(out, *id)?;
        say(out, b" of ")?;
        print_name(out, alloc, owner.as_slice())?;
        say(out, b"\n")?;
    }
    Ok(())
}

/// Prints what each live consumer gets, at which prices, and the total.
fn print_shares<W: Write>(
    out: &mut W,
    alloc: Global,
    verdict: &Verdict,
    total: u64,
) -> Result<(), Fault> {
    let Some(mut prices) = verdict.prices() else {
        return Ok(());
    };
    let live = verdict.snapshot().live();
    let is_tiered = live.iter().any(|consumer| consumer.tier.is_some());
    let mut rows = Vec::new(alloc);
    rows.push(head(alloc, is_tiered)?)?;
    let mut entries: u64 = 0;
    for (place, consumer) in live.iter().enumerate() {
        let share = share_of(verdict, consumer, place);
        let own = match prices.next() {
            Some((_name, own)) => own,
            None => &[],
        };
        rows.push(row_of(alloc, consumer, share, own, is_tiered)?)?;
        entries = entries.saturating_add(share.entries);
    }
    rows.push(foot(alloc, entries, total)?)?;
    print_table(out, alloc, rows.as_slice())
}

/// The words above the columns. The last price is that of the places beyond the soft limit.
fn head(alloc: Global, is_tiered: bool) -> Result<Row, AllocError> {
    let mut row = Row::new(alloc);
    row.push_text(b"consumer")?;
    row.push_text(b"entries")?;
    row.push_text(b"cost")?;
    row.push_text(b"price")?;
    if is_tiered {
        row.push_text(b"beyond")?;
    }
    Ok(row)
}

/// What a consumer gets, and its prices.
fn row_of(
    alloc: Global,
    consumer: &Live,
    share: Share,
    prices: &[u64],
    is_tiered: bool,
) -> Result<Row, AllocError> {
    let mut row = Row::new(alloc);
    row.push_name(consumer.name.as_slice())?;
    row.push_number(share.entries)?;
    row.push_number(share.cost)?;
    row.push_option(prices.get(0).copied())?;
    if is_tiered {
        row.push_option(prices.get(1).copied())?;
    }
    Ok(row)
}

/// How many entries are moved, and at what cost.
fn foot(alloc: Global, entries: u64, total: u64) -> Result<Row, AllocError> {
    let mut row = Row::new(alloc);
    row.push_text(b"total")?;
    row.push_number(entries)?;
    row.push_number(total)?;
    Ok(row)
}

/// Whether the consumer with this number is given entries.
pub(crate) fn receives(verdict: &Verdict, consumer: &Live, place: usize) -> bool {
    share_of(verdict, consumer, place).entries > 0
}

/// What the consumer with this number gets, and what that costs.
pub(crate) fn share_of(verdict: &Verdict, consumer: &Live, place: usize) -> Share {
    let mut share = Share {
        entries: 0,
        cost: 0,
    };
    let Some(mut moves) = verdict.moves() else {
        return share;
    };
    let snapshot = verdict.snapshot();
    for entry in snapshot.stranded() {
        let Some((_id, name)) = moves.next() else {
            return share;
        };
        if *name == consumer.name {
            let cost = rate_for(snapshot, &entry.class, place).saturating_mul(entry.weight);
            let fee = fee_of(consumer, share.entries);
            share.cost = share.cost.saturating_add(cost).saturating_add(fee);
            share.entries = share.entries.saturating_add(1);
        }
    }
    share
}

/// The rate of the consumer with this number for a class.
fn rate_for(snapshot: &Snapshot, class: &Name, place: usize) -> u64 {
    for (name, rates) in snapshot.rates() {
        if *name == *class {
            return rates.as_slice().get(place).copied().flatten().unwrap_or(0);
        }
    }
    0
}

/// The fee of the consumer's next entry, if it gets so many before.
fn fee_of(consumer: &Live, before: u64) -> u64 {
    match consumer.tier {
        Some((_soft, fee)) if before >= consumer.free_room() => fee,
        _ => 0,
    }
}

/// Prints the entries for which there are too few places.
fn print_shortage<W: Write>(out: &mut W, verdict: &Verdict) -> Result<(), Fault> {
    say(out, b"none: too few places for\n")?;
    let Some(mut ids) = verdict.shortage() else {
        return Ok(());
    };
    for _ in 0..ids.len() {
        let Some(id) = ids.next() else {
            break;
        };
        print_id(out, id)?;
        say(out, b"\n")?;
    }
    Ok(())
}

/// Prints that the plan was carried out.
pub(crate) fn print_done<W: Write>(out: &mut W, claimed: u64, gap: u64) -> Result<(), Fault> {
    print_number(out, b"done, claimed ", claimed)?;
    print_number(out, b", gap ", gap)?;
    say(out, b"\n")
}

/// Prints that a step was carried out: how many entries were claimed, at which gap, and what they cost.
pub(crate) fn print_step<W: Write>(out: &mut W, done: (u64, u64), cost: u64) -> Result<(), Fault> {
    let (claimed, gap) = done;
    print_number(out, b"done, claimed ", claimed)?;
    print_number(out, b", gap ", gap)?;
    print_number(out, b", cost ", cost)?;
    say(out, b"\n")
}

/// Notes that one plan for all might be cheaper.
pub(crate) fn print_sum<W: Write>(out: &mut W) -> Result<(), Fault> {
    say(
        out,
        b"note: all is moved in steps, and together they may cost more than one plan would\n",
    )
}

/// Notes that no places can be left free.
pub(crate) fn print_spare<W: Write>(out: &mut W, spare: u64) -> Result<(), Fault> {
    print_number(out, b"note: too few places with --spare ", spare)?;
    say(out, b", so it is planned without it\n")
}

/// Prints what was not as it had been looked up.
pub(crate) fn print_stale<W: Write>(
    out: &mut W,
    alloc: Global,
    what: &[u8],
    of: &[u8],
) -> Result<(), Fault> {
    say(out, b"stale: ")?;
    print_name(out, alloc, what)?;
    say(out, b" ")?;
    print_name(out, alloc, of)?;
    say(out, b", nothing was changed\n")
}

/// Prints a number behind a text.
pub(crate) fn print_number<W: Write>(out: &mut W, before: &[u8], n: u64) -> Result<(), Fault> {
    let mut buffer = Buffer::new();
    say(out, before)?;
    say(out, buffer.format(n).as_bytes())
}

/// Prints an id.
pub(crate) fn print_id<W: Write>(out: &mut W, id: Id) -> Result<(), Fault> {
    let mut text = [0; 41];
    let len = write_id(id, &mut text);
    say(out, &text[..len])
}

/// Prints a name.
pub(crate) fn print_name<W: Write>(out: &mut W, alloc: Global, name: &[u8]) -> Result<(), Fault> {
    let mut text = Vec::new(alloc);
    push_name(&mut text, name)?;
    say(out, text.as_slice())
}

/// Adds a name: as it is if it is one word of printable ASCII, and else in double quotes, as redis-cli prints it.
pub(crate) fn push_name(text: &mut Vec<u8>, name: &[u8]) -> Result<(), AllocError> {
    if !name.is_empty() && name.iter().all(|byte| is_plain(*byte)) {
        text.extend_from_slice(name)?;
        return Ok(());
    }
    text.push(b'"')?;
    for byte in name {
        push_quoted(text, *byte)?;
    }
    text.push(b'"')?;
    Ok(())
}

/// Whether a byte stands for itself in a word without quotes.
fn is_plain(byte: u8) -> bool {
    byte > b' ' && byte < 127 && byte != b'"' && byte != b'\\' && byte != b'#'
}

/// Adds a byte of a name in quotes.
fn push_quoted(text: &mut Vec<u8>, byte: u8) -> Result<(), AllocError> {
    const DIGITS: &[u8; 16] = b"0123456789abcdef";
    match byte {
        b'"' => text.extend_from_slice(b"\\\"")?,
        b'\\' => text.extend_from_slice(b"\\\\")?,
        b' '..=b'~' => text.push(byte)?,
        _ => text.extend_from_slice(&[
            b'\\',
            b'x',
            DIGITS[(byte / 16) as usize],
            DIGITS[(byte % 16) as usize],
        ])?,
    }
    Ok(())
}

/// Prints bytes.
pub(crate) fn say<W: Write>(out: &mut W, text: &[u8]) -> Result<(), Fault> {
    match out.write_all(text) {
        Ok(()) => Ok(()),
        Err(_) => Err(Fault::Output),
    }
}
