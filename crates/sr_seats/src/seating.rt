ghost use Rattle.std.specs.Prelude.{◌≡◌, ◌↔◌, ◌⊎◌, ◌+◌, ◌*◌, ◌^◌, ◌<◌, ◌≤◌, IfOk, length};
ghost use Rattle.std.specs.Result.{IsErrOf};
ghost use Rattle.sr_book.specs.Records.{events_of};
ghost use Rattle.sr_seats.specs.Held.{new_seats};

use crate::{Held, HoldFault, Seat};
use sr_book::Book;
use std::alloc::{AllocError, Global};
use std::sync::ledger;
use std::sync::ledger::{Blank, Ledger};

/// Holds a book for this many seats, from 1 to 65. Refused, it drops the book.
pub fn hold<L: Ledger>(
    alloc: Global,
    book: Book,
    n: usize,
    blank: Blank,
) -> Result<(Held<L>, Vec<Seat<L>>), HoldFault>
    requires name { blank.name ≡ L.name }
    requires whole { blank.parts ≡ L.parts }
    requires parts { 0 < n → n ≤ 65 → blank.parts ≡ n }
    ensures count { IsErrOf result HoldFault.Count ↔ ((n ≡ 0) ⊎ (65 < n)) }
    ensures held { IfOk result (λ made. made.0 ≡
        record { book = book; before = events_of book; made = 0 }) }
    ensures seats { IfOk result (λ made. made.1.items ≡ new_seats (events_of book) n) }
{
    if n == 0 || n > 65 {
        return Err(HoldFault::Count);
    }
    let before = book.events();
    let Ok((made, seats)) = seats_of::<L>(alloc, n, before, blank) else {
        return Err(HoldFault::Memory);
    };
    Ok((Held::new(book, before, n as u64, made), seats))
}

/// A ledger of the events that were there before, and this many seats that have made and seen nothing.
fn seats_of<L: Ledger>(
    alloc: Global,
    n: usize,
    before: u64,
    blank: Blank,
) -> Result<(ledger::Book<L>, Vec<Seat<L>>), AllocError>
    requires name { blank.name ≡ L.name }
    requires whole { blank.parts ≡ L.parts }
    requires parts { blank.parts ≡ n }
    requires some { 0 < n }
    ensures total { IfOk result (λ made. made.0.total ≡ before) }
    ensures seats { IfOk result (λ made. made.1.items ≡ new_seats before n) }
{
    let mut seats = Vec::with_capacity(alloc, n)?;
    let (mut made, mut rest) = blank.open::<L>();
    made.add(&mut rest, before);
    for number in 0..n {
        let part = part_before(number, before);
        let share = rest.split_off(1, part);
        seats.push_reserved(Seat::new(number as u64, part, share));
    }
    Ok((made, seats))
}

/// How many of the events that were there before the seat with this number stands for: the first for all, the others
/// for none.
fn part_before(number: usize, before: u64) -> u64
    ensures first { number ≡ 0 → result ≡ before }
    ensures others { 0 < number → result ≡ 0 }
{
    if number == 0 { before } else { 0 }
}
