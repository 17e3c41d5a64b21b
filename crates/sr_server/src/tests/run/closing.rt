// Rows over a book behind a lock, and how their runs end. Each call of it is one of a held book, whose contract tells
// what comes of it.
ghost use Rattle.std.specs.Prelude.{◌≡◌};

use super::records::{are_driven, driven};
use super::rows::{
    CHECKPOINT, DEADLINE, OPENED, READERS, RECOVERY, Row, SCRIPTS, TWO_SEATS, Transcript, WAITED,
    play,
};
use super::{TWO, book_under};
use sr_book::{Book, Out};
use sr_resp::Reply;
use sr_run::{CloseFault, Closed, Seat, Shared, Unclosed, open};
use std::alloc::Global;
use std::marker::Brand;
use std::mem;
use std::process::Abort;
use std::random::RandomSource;
use std::sync::Wait;
use std::sync::ledger::{Blank, Ledger};
use std::test::Fail;

/// What is altered of what a run was told.
#[derive(Clone, Copy, Drop)]
enum Altered {
    Nothing,
    /// This receipt has index 0, which names no record.
    Unnumbered(usize),
    /// A seat is missing.
    Seat,
    /// This receipt has another outcome, `:7`.
    Outcome(usize),
    /// This receipt has the index of record 3, which is another's.
    Index(usize),
    /// The first letter is session 2's, and not session 1's.
    Addressee,
}

/// What the altered has in its place.
#[derive(Drop)]
struct Spare {
    out: Out,
    index: u64,
}

/// Alters what was told, or, the second time, puts it back.
fn alter(told: &mut Transcript, spare: &mut Spare, altered: Altered) {
    match altered {
        Altered::Nothing | Altered::Seat => {}
        Altered::Outcome(at) => {
            if let Some(receipt) = told.receipts.get_mut(at) {
                mem::swap(&mut receipt.out, &mut spare.out);
            }
        }
        Altered::Index(at) | Altered::Unnumbered(at) => {
            if let Some(receipt) = told.receipts.get_mut(at) {
                mem::swap(&mut receipt.index, &mut spare.index);
            }
        }
        Altered::Addressee => {
            if let Some(letter) = told.letters.first_mut() {
                letter.session ^= 3;
            }
        }
    }
}

/// Takes a seat away, if one is to be missing.
fn missing<L: Ledger>(seats: &mut Vec<Seat<L>>, altered: Altered) -> Option<Seat<L>> {
    match altered {
        Altered::Seat => seats.pop(),
        _ => None,
    }
}

/// Closes a run with what was told, altered. If it is refused so, what was handed back is closed with all that was
/// told.
fn close<L: Ledger>(
    alloc: Global,
    shared: Shared<L>,
    mut seats: Vec<Seat<L>>,
    told: &mut Transcript,
    altered: Altered,
) -> Result<(Option<CloseFault>, Closed), Fail> {
    let mut spare = Spare {
        out: Out::Reply(Reply::int(alloc, 7)),
        index: match altered {
            Altered::Unnumbered(_) => 0,
            _ => 3,
        },
    };
    alter(told, &mut spare, altered);
    let seat = missing(&mut seats, altered);
    match shared.close(alloc, seats, &told.receipts, &told.letters) {
        Ok(closed) => Ok((None, closed)),
        Err(unclosed) => {
            alter(told, &mut spare, altered);
            let fault = unclosed.fault;
            let closed = close_again(alloc, unclosed, seat, told)?;
            Ok((Some(fault), closed))
        }
    }
}

/// Closes a run that was not closed, with the seat that was missing.
fn close_again<L: Ledger>(
    alloc: Global,
    unclosed: Unclosed<L>,
    seat: Option<Seat<L>>,
    told: &Transcript,
) -> Result<Closed, Fail> {
    let (shared, mut seats) = unclosed.reopened();
    if let Some(seat) = seat {
        seats.push(seat)?;
    }
    match shared.close(alloc, seats, &told.receipts, &told.letters) {
        Ok(closed) => Ok(closed),
        Err(_unclosed) => Err(Fail::new("not closed")),
    }
}

/// Plays a row behind a lock, and closes it.
fn play_shared<L: Ledger, R: AllocGlobal + Abort + Wait>(
    rt: &R,
    shared: Shared<L>,
    mut seats: Vec<Seat<L>>,
    told: &mut Transcript,
    row: Row,
    altered: Altered,
) -> Result<(Option<CloseFault>, Closed), Fail> {
    match play(rt, &shared, seats.as_mut_slice(), told, row.lines) {
        Ok(()) => close(rt.alloc(), shared, seats, told, altered),
        Err(fail) => Err(fail),
    }
}

/// The book of a row before it is opened.
fn book_before(rt: &(impl AllocGlobal + RandomSource), row: Row) -> Result<Book, Fail> {
    driven(rt.alloc(), book_under(rt, TWO)?, row.before)
}

/// Whether a run that was closed has the events and the records of its row.
fn is_of_row(
    rt: &(impl AllocGlobal + RandomSource),
    closed: &Closed,
    row: Row,
) -> Result<bool, Fail> {
    let book = book_before(rt, row)?;
    let same = are_driven(rt.alloc(), book, row.lines, &closed.book)?;
    Ok(same && closed.acts == row.acts && closed.skipped == row.skipped)
}

/// Fails the test unless a row behind a lock, closed with this altered, has this fault, and then its events and
/// records.
fn closes_by<L: Ledger, R: AllocGlobal + Abort + RandomSource + Wait>(
    rt: &R,
    blank: Blank,
    row: Row,
    altered: Altered,
    want: Option<CloseFault>,
) -> Result<(), Fail>
    requires name { blank.name ≡ L.name }
    requires whole { blank.parts ≡ L.parts }
    requires parts { blank.parts ≡ 2 }
{
    let (shared, seats) = open::<L>(rt.alloc(), book_before(rt, row)?, 2, blank)?;
    let mut told = Transcript::new(rt.alloc());
    let (fault, closed) = play_shared(rt, shared, seats, &mut told, row, altered)?;
    let is_right = is_of_row(rt, &closed, row)?;
    assert!(rt; is_right && fault == want);
    Ok(())
}

fn closes<R: AllocGlobal + Abort + RandomSource + Wait>(
    rt: &R,
    row: Row,
    altered: Altered,
    want: Option<CloseFault>,
) -> Result<(), Fail> {
    closes_by::<Brand, R>(rt, Blank::new(2), row, altered, want)
}

#[test]
fn readers_are_served_in_the_order_in_which_they_blocked(rt: HostRuntime) -> Result<(), Fail> {
    closes(&rt, READERS, Altered::Nothing, None)
}

#[test]
fn a_deadline_is_reached_at_its_moment(rt: HostRuntime) -> Result<(), Fail> {
    closes(&rt, DEADLINE, Altered::Nothing, None)
}

#[test]
fn a_recovery_takes_the_cheapest_plan_of_two(rt: HostRuntime) -> Result<(), Fail> {
    closes(&rt, RECOVERY, Altered::Nothing, None)
}

#[test]
fn an_entry_of_one_session_is_read_by_another_at_its_own_seat(rt: HostRuntime) -> Result<(), Fail> {
    closes(&rt, TWO_SEATS, Altered::Nothing, None)
}

/// A run, what is altered of what was told in it, and what the close says then, if it is refused.
const CLOSINGS: &[(Row, Altered, Option<CloseFault>)] = &[
    (OPENED, Altered::Nothing, None),
    (READERS, Altered::Seat, Some(CloseFault::Short)),
    (
        READERS,
        Altered::Outcome(1),
        Some(CloseFault::Mismatch { at: 1 }),
    ),
    (
        READERS,
        Altered::Addressee,
        Some(CloseFault::Stray { at: 0 }),
    ),
    (
        SCRIPTS,
        Altered::Outcome(3),
        Some(CloseFault::Mismatch { at: 3 }),
    ),
    (
        SCRIPTS,
        Altered::Index(2),
        Some(CloseFault::Strange { at: 2 }),
    ),
];

/// The same of runs with checkpoints: what is skipped is not compared, what comes after is, and index 0 is not skipped.
const CHECKPOINTS: &[(Row, Altered, Option<CloseFault>)] = &[
    (CHECKPOINT, Altered::Nothing, None),
    (CHECKPOINT, Altered::Outcome(0), None),
    (
        CHECKPOINT,
        Altered::Outcome(1),
        Some(CloseFault::Mismatch { at: 1 }),
    ),
    (
        CHECKPOINT,
        Altered::Unnumbered(0),
        Some(CloseFault::Strange { at: 0 }),
    ),
    (WAITED, Altered::Nothing, None),
];

#[test]
fn a_run_is_closed_with_what_was_told_and_nothing_else(rt: HostRuntime) -> Result<(), Fail> {
    for (row, altered, fault) in CLOSINGS {
        closes(&rt, *row, *altered, *fault)?;
    }
    Ok(())
}

#[test]
fn what_is_before_a_checkpoint_is_skipped_and_nothing_else_changes(
    rt: HostRuntime,
) -> Result<(), Fail> {
    for (row, altered, fault) in CHECKPOINTS {
        closes(&rt, *row, *altered, *fault)?;
    }
    Ok(())
}
