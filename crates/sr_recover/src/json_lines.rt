//! What is printed for programs: JSON, an object a line for each plan, and an array for the board.
use crate::action::{Status, status_of};
use crate::board::Held;
use crate::deliveries::GivenUp;
use crate::fault::Fault;
use crate::notes::Notes;
use crate::print::{print_sum, say, share_of};
use crate::watch_print::Turn;
use serde_json::{Map, Value, json, push, put};
use sr_bytes::Name;
use sr_ids::{Id, write_id};
use sr_live::{Asked, Ran};
use sr_plan::Verdict;
use std::alloc::{AllocError, Global};
use std::io::Write;

/// The members of an object, in the order of their names.
pub(crate) type Members = Map<String, Value>;

/// Prints a plan, or that there is none.
pub(crate) fn print_plan_line<W: Write>(
    out: &mut W,
    alloc: Global,
    notes: Notes<'_>,
    verdict: &Verdict,
) -> Result<(), Fault> {
    let members = members_of(alloc, notes.asked, notes.given_up, verdict)?;
    print_line(out, alloc, &Value::Object(members))
}

/// A step of a run, which without --all has one.
#[derive(Clone, Copy)]
pub(crate) struct Step {
    /// How many came before.
    pub(crate) number: u64,
    pub(crate) is_last: bool,
    /// How many times it was planned.
    pub(crate) tries: u64,
}

/// Prints what came of a plan, and before the first one the notes.
pub(crate) fn print_ran_line(
    rt: &HostRuntime,
    notes: Notes<'_>,
    ran: &Ran,
    step: Step,
) -> Result<(), Fault> {
    let planned = match ran {
        Ran::Done { planned, .. } => Some(planned),
        Ran::Impossible(planned) => Some(planned),
        Ran::Stale { .. } => None,
    };
    if step.number == 0 {
        if let Some(planned) = planned {
            notes.print(&mut rt.stderr(), rt.alloc(), planned)?;
        }
        if !step.is_last {
            print_sum(&mut rt.stderr())?;
        }
    }
    if step.number > 0 && is_empty(ran) {
        return Ok(());
    }
    let mut members = members_of_ran(rt.alloc(), notes.asked, notes.given_up, ran)?;
    put(&mut members, rt.alloc(), "tries", Value::from(step.tries))?;
    print_line(&mut rt.stdout(), rt.alloc(), &Value::Object(members))
}

/// Whether a plan was carried out that moves nothing.
fn is_empty(ran: &Ran) -> bool {
    match ran {
        Ran::Done { claimed, .. } => *claimed == 0,
        Ran::Impossible(_) | Ran::Stale { .. } => false,
    }
}

/// What is told of a plan that was made and sent.
fn members_of_ran(
    alloc: Global,
    asked: &Asked,
    given_up: &Option<GivenUp>,
    ran: &Ran,
) -> Result<Members, AllocError> {
    match ran {
        Ran::Done {
            planned,
            claimed,
            gap,
        } => {
            let mut members = members_of(alloc, asked, given_up, &planned.verdict)?;
            put(&mut members, alloc, "claimed", Value::from(*claimed))?;
            put(&mut members, alloc, "gap", Value::from(*gap))?;
            Ok(members)
        }
        Ran::Impossible(planned) => members_of(alloc, asked, given_up, &planned.verdict),
        Ran::Stale { what, of } => {
            let mut members = begun_of(alloc, asked, Status::Stale)?;
            put(&mut members, alloc, "stale", text_of(alloc, what)?)?;
            put(&mut members, alloc, "of", text_of(alloc, of)?)?;
            Ok(members)
        }
    }
}

/// What is told of each plan: the status, and of whom.
fn begun_of(alloc: Global, asked: &Asked, status: Status) -> Result<Members, AllocError> {
    let mut dead = Vec::new(alloc);
    for name in &asked.dead {
        push(&mut dead, text_of(alloc, name)?)?;
    }
    let mut members = begun(alloc, &asked.key, &asked.group, status.code())?;
    put(&mut members, alloc, "dead", Value::Array(dead))?;
    Ok(members)
}

/// What is told of all that is done at a group: the status, and of which one.
fn begun(alloc: Global, key: &Name, group: &Name, code: u8) -> Result<Members, AllocError> {
    let mut members = Map::new(alloc);
    put(&mut members, alloc, "status", Value::from(code))?;
    put(&mut members, alloc, "key", text_of(alloc, key)?)?;
    put(&mut members, alloc, "group", text_of(alloc, group)?)?;
    Ok(members)
}

/// What is told of a turn of `watch` in which somebody was dead.
pub(crate) fn members_of_turn(alloc: Global, turn: &Turn) -> Result<Members, AllocError> {
    let mut members = members_of_ran(alloc, &turn.asked, &None, &turn.ran)?;
    put(&mut members, alloc, "tries", Value::from(turn.tries))?;
    put(&mut members, alloc, "ms", Value::from(turn.millis))?;
    Ok(members)
}

/// What is told of a turn of `watch` that had a fault.
pub(crate) fn members_of_fault(
    alloc: Global,
    key: &Name,
    group: &Name,
    fault: &Fault,
) -> Result<Members, AllocError> {
    let mut members = begun(alloc, key, group, fault.code())?;
    put_fault(&mut members, alloc, fault)?;
    Ok(members)
}

/// What is told of Redis: that it is away, and by which fault; or that it is back.
pub(crate) fn members_of_redis(
    alloc: Global,
    fault: Option<&Fault>,
) -> Result<Members, AllocError> {
    let mut members = Map::new(alloc);
    let Some(fault) = fault else {
        put_text(&mut members, alloc, "redis", "back")?;
        return Ok(members);
    };
    put_text(&mut members, alloc, "redis", "away")?;
    put_fault(&mut members, alloc, fault)?;
    Ok(members)
}

/// Adds what a fault is to the user.
fn put_fault(members: &mut Members, alloc: Global, fault: &Fault) -> Result<(), AllocError> {
    let text = format!(in alloc; "{fault}")?;
    put_text(members, alloc, "fault", text.as_str())
}

/// Adds a member with this text.
fn put_text(
    members: &mut Members,
    alloc: Global,
    name: &'static str,
    text: &str,
) -> Result<(), AllocError> {
    let text = String::from_str(alloc, text)?;
    put(members, alloc, name, Value::String(text))
}

/// What is told of a plan: who gets what at which prices, or for which entries there are too few places.
fn members_of(
    alloc: Global,
    asked: &Asked,
    given_up: &Option<GivenUp>,
    verdict: &Verdict,
) -> Result<Members, AllocError> {
    let mut members = begun_of(alloc, asked, status_of(verdict))?;
    let (consumers, entries) = consumers_of(alloc, verdict)?;
    let gone = verdict.gone().len() as u64;
    put(&mut members, alloc, "consumers", Value::Array(consumers))?;
    put(&mut members, alloc, "entries", Value::from(entries))?;
    put(&mut members, alloc, "gone", Value::from(gone))?;
    if let Some(given_up) = given_up {
        put(
            &mut members,
            alloc,
            "given_up",
            given_up_of(alloc, given_up)?,
        )?;
    }
    put(&mut members, alloc, "total", Value::from(verdict.total()))?;
    if let Some(short) = short_of(alloc, verdict)? {
        put(&mut members, alloc, "short", short)?;
    }
    Ok(members)
}

/// How many entries were delivered too often, and the first of them.
fn given_up_of(alloc: Global, given_up: &GivenUp) -> Result<Value, AllocError> {
    let mut first = Vec::new(alloc);
    for entry in &given_up.first {
        let id = Value::String(String::from_utf8_lossy(alloc, entry.id.as_slice())?);
        let owner = text_of(alloc, &entry.owner)?;
        push(
            &mut first,
            json!(in alloc; { "id": id, "name": owner, "delivered": entry.count })?,
        )?;
    }
    json!(in alloc; { "entries": given_up.all, "first": (Value::Array(first)) })
}

/// What each live consumer gets, and how many entries they get together.
fn consumers_of(alloc: Global, verdict: &Verdict) -> Result<(Vec<Value>, u64), AllocError> {
    let mut rows = Vec::new(alloc);
    let mut entries: u64 = 0;
    let Some(mut prices) = verdict.prices() else {
        return Ok((rows, entries));
    };
    for (place, consumer) in verdict.snapshot().live().iter().enumerate() {
        let share = share_of(verdict, consumer, place);
        let own = match prices.next() {
            Some((_name, own)) => own,
            None => &[],
        };
        let name = text_of(alloc, &consumer.name)?;
        let row = json!(in alloc; {
            "name": name,
            "entries": share.entries,
            "cost": share.cost,
            "price": own.get(0).copied(),
            "beyond": own.get(1).copied()
        })?;
        push(&mut rows, row)?;
        entries = entries.saturating_add(share.entries);
    }
    Ok((rows, entries))
}

/// The ids of the entries for which there are too few places, if there are such.
fn short_of(alloc: Global, verdict: &Verdict) -> Result<Option<Value>, AllocError> {
    let Some(mut ids) = verdict.shortage() else {
        return Ok(None);
    };
    let mut short = Vec::new(alloc);
    for _ in 0..ids.len() {
        let Some(id) = ids.next() else {
            break;
        };
        push(&mut short, id_of(alloc, id)?)?;
    }
    Ok(Some(Value::Array(short)))
}

/// Prints what each consumer has.
pub(crate) fn print_board_line<W: Write>(
    out: &mut W,
    alloc: Global,
    board: &[Held<'_>],
) -> Result<(), Fault> {
    let mut rows = Vec::new(alloc);
    for held in board {
        push(&mut rows, row_of(alloc, *held)?)?;
    }
    print_line(out, alloc, &Value::Array(rows))
}

/// What one consumer has.
fn row_of(alloc: Global, held: Held<'_>) -> Result<Value, AllocError> {
    let name = text_of(alloc, held.name)?;
    json!(in alloc; {
        "name": name,
        "pending": held.pending,
        "limit": held.limit,
        "soft": held.soft,
        "room": held.room(),
        "idle": held.idle,
        "delivered": held.delivered
    })
}

/// A name as text, in which each sequence of bytes that is not UTF-8 is U+FFFD.
fn text_of(alloc: Global, name: &Name) -> Result<Value, AllocError> {
    Ok(Value::String(String::from_utf8_lossy(alloc, name.as_slice())?))
}

/// An id as text.
fn id_of(alloc: Global, id: Id) -> Result<Value, AllocError> {
    let mut text = [0; 41];
    let len = write_id(id, &mut text);
    Ok(Value::String(String::from_utf8_lossy(alloc, &text[..len])?))
}

/// Prints an object of `watch`, with the time.
pub(crate) fn print_at<W: Write>(
    out: &mut W,
    alloc: Global,
    time: u64,
    members: Members,
) -> Result<(), Fault> {
    let mut members = members;
    put(&mut members, alloc, "time", Value::from(time))?;
    print_line(out, alloc, &Value::Object(members))
}

/// Prints a value and a line end, by one write.
fn print_line<W: Write>(out: &mut W, alloc: Global, value: &Value) -> Result<(), Fault> {
    let mut line = value.to_string(alloc)?;
    line.push('\n')?;
    say(out, line.as_bytes())
}
