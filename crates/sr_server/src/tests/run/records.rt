// The records of a book that seats use are those of a book that is driven by the same events.
use super::rows::{Line, event_of};
use sr_book::{Answer, Book, BookFault, Event, Out, Record};
use sr_policy::{Policy, Snapshot};
use std::alloc::{AllocError, Global};
use std::hash::RandomState;
use std::mem;
use std::test::Fail;

/// Drives a book by a list of events, and keeps the last snapshot that one gives. A refused event is passed over, but
/// not one that is refused memory.
fn drive(
    alloc: Global,
    book: &mut Book,
    events: Vec<(u64, Event)>,
    snapshot: &mut Option<Snapshot>,
) -> Result<(), AllocError> {
    for answer in book.drive(alloc, events)? {
        match answer {
            Ok(answer) if answer.settled => keep(answer, snapshot),
            Ok(_) | Err(BookFault::Memory) => return Err(AllocError),
            Err(_) => {}
        }
    }
    Ok(())
}

/// Keeps the snapshot of an answer.
pub(super) fn keep(answer: Answer, snapshot: &mut Option<Snapshot>) {
    if let Out::Snap(taken) = answer.out {
        *snapshot = Some(taken);
    }
}

/// Drives a book by the events of lines, all in one list, or in two if there is a verdict, since it is made of a
/// snapshot that the first gives.
fn drive_all(
    alloc: Global,
    book: &mut Book,
    lines: &[Line],
    snapshot: &mut Option<Snapshot>,
) -> Result<(), Fail> {
    let mut events = Vec::new(alloc);
    for (moment, session, line, said) in lines {
        if *line == "conclude" {
            drive(
                alloc,
                book,
                mem::replace(&mut events, Vec::new(alloc)),
                snapshot,
            )?;
        }
        if !is_look(line, said) {
            events.push((*moment, event_of(alloc, *session, line, snapshot)?))?;
        }
    }
    Ok(drive(alloc, book, events, snapshot)?)
}

/// Whether a line is no event.
fn is_look(line: &str, said: &str) -> bool {
    line == "letter" || line == "compact" || said == "false"
}

/// Whether two records are of the same act. Snapshots and conclusions are so by what they reply.
fn same_act(alloc: Global, one: &Record, other: &Record) -> Result<bool, AllocError> {
    let same_call = match (one.call(alloc)?, one.session()) {
        (Some(call), Some(session)) => other.is_call(session, &call),
        _ => true,
    };
    Ok(same_call && one.kind() == other.kind() && one.session() == other.session())
}

/// Whether two records are the same.
fn same_record(alloc: Global, one: &Record, other: &Record) -> Result<bool, AllocError> {
    let same = one.index == other.index
        && one.moment == other.moment
        && one.replies.as_slice() == other.replies.as_slice();
    Ok(same_act(alloc, one, other)? && same)
}

/// Whether two lists of records are the same.
fn same_records(alloc: Global, one: &[Record], other: &[Record]) -> Result<bool, AllocError> {
    for (left, right) in one.iter().zip(other) {
        if !same_record(alloc, left, right)? {
            return Ok(false);
        }
    }
    Ok(one.len() == other.len())
}

/// The last snapshot that the events of lines give, if no verdict was made of it. The book is dropped here alone.
pub(crate) fn snapshot_of(
    alloc: Global,
    book: Book,
    lines: &[Line],
) -> Result<Option<Snapshot>, Fail> {
    let mut book = book;
    let mut snapshot = None;
    let driven = drive_all(alloc, &mut book, lines, &mut snapshot);
    drop(book);
    match driven {
        Ok(()) => Ok(snapshot),
        Err(fail) => Err(fail),
    }
}

/// The book after the events of lines.
pub(super) fn driven(alloc: Global, book: Book, lines: &[Line]) -> Result<Book, Fail> {
    let mut book = book;
    match drive_all(alloc, &mut book, lines, &mut None) {
        Ok(()) => Ok(book),
        Err(fail) => Err(fail),
    }
}

/// Whether a closed book has the records of one that is driven by the events of lines, but for those up to its last
/// checkpoint, and counts as many events. The driven book is dropped here alone.
pub(super) fn are_driven(
    alloc: Global,
    book: Book,
    lines: &[Line],
    closed: &Book,
) -> Result<bool, Fail> {
    let mut book = book;
    let driven = drive_all(alloc, &mut book, lines, &mut None);
    let same_count = book.events() == closed.events();
    let same = match book.records().get(closed.base().index as usize..) {
        Some(records) => same_records(alloc, records, closed.records()),
        None => Ok(false),
    };
    drop(book);
    driven?;
    Ok(same? && same_count)
}

/// Whether each of these events has a record then. Refused memory for the list, the book is to have none.
fn is_driven_whole(
    alloc: Global,
    book: &mut Book,
    events: Vec<(u64, Event)>,
) -> Result<bool, AllocError> {
    let count = events.len();
    let Ok(answers) = book.drive(alloc, events) else {
        return if book.records().is_empty() {
            Err(AllocError)
        } else {
            Ok(false)
        };
    };
    for answer in answers {
        if let Err(BookFault::Memory) = answer {
            return Err(AllocError);
        }
    }
    Ok(book.records().len() == count)
}

#[test]
fn a_list_is_driven_whole_or_not_at_all(rt: HostRuntime) -> Result<(), Fail> {
    let alloc = rt.alloc();
    let mut events = Vec::new(alloc);
    events.push((10, Event::Join))?;
    events.push((10, Event::Leave { session: 1 }))?;
    let mut book = Book::new(alloc, Policy::empty(alloc), RandomState::new(&rt)?);
    let whole = is_driven_whole(alloc, &mut book, events);
    drop(book);
    assert!(rt; whole?);
    Ok(())
}
