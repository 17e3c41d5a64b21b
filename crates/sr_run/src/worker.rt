ghost use Rattle.std.specs.Prelude.{◌≡◌, ◌+◌, ◌≤◌, [], IfErr, IfOk, OnOk, length, vec_capacity, vec_len};
ghost use Rattle.sr_run.specs.Shared.{HasMade, RefusesEvent};
ghost use Rattle.sr_run.specs.Worked.{IsWorked};

use crate::Shared;
use sr_args::Call;
use sr_book::Event;
use sr_seats::{Receipt, Seat, SeatFault};
use sr_session::{Clock, Gate};
use std::alloc::Global;
use std::sync::Wait;
use std::sync::ledger::Ledger;

/// Joins, makes the calls of a script in order, and leaves. An event that is refused ends that: the session, if it is
/// open, leaves, and the fault is told.
pub(crate) fn work<L: Ledger, C: Clock, G: Gate, R: Wait>(
    rt: &R,
    alloc: Global,
    shared: &Shared<L>,
    seat: &mut Seat<L>,
    script: &[Call],
    clock: &C,
    gate: &G,
    receipts: &mut Vec<Receipt>,
) -> Result<(), SeatFault>
    requires empty { receipts.old.items ≡ [] }
    requires room { length script.now ≤ vec_capacity receipts.old }
    ensures receipts { OnOk result (IsWorked seat.old.number script.now receipts.new.items) }
    ensures share { OnOk result (seat.new.share ≡ seat.old.share + length script.now + 2) }
    ensures before { OnOk result (seat.new.before ≡ seat.old.before) }
    ensures told { IfErr result RefusesEvent }
{
    // A session has the number of the record in which it joined.
    let session = make(rt, alloc, shared, seat, clock.now(), Event::Join)?;
    let called = call_all(
        rt, alloc, shared, seat, session, script, clock, gate, receipts,
    );
    let leave = Event::Leave { session };
    let left = make(rt, alloc, shared, seat, clock.now(), leave);
    called?;
    left?;
    Ok(())
}

/// Carries out an event of a seat, and tells the index of its record. An event that is refused is dropped.
fn make<L: Ledger, R: Wait>(
    rt: &R,
    alloc: Global,
    shared: &Shared<L>,
    seat: &mut Seat<L>,
    told: u64,
    event: Event,
) -> Result<u64, SeatFault>
    ensures ok { IfOk result (λ index. HasMade index seat.old seat.new) }
    ensures told { IfErr result RefusesEvent }
{
    match shared.act(rt, alloc, seat, told, event) {
        Ok(answer) => Ok(answer.index),
        Err(refused) => Err(refused.fault),
    }
}

/// Makes the calls of a script in order, up to one that is refused. Before each the gate is passed, outside the lock.
#[tactic(auto, using(crate::proofs::WorkedLemmas::made_number, crate::proofs::WorkedLemmas::made_share))]
fn call_all<L: Ledger, C: Clock, G: Gate, R: Wait>(
    rt: &R,
    alloc: Global,
    shared: &Shared<L>,
    seat: &mut Seat<L>,
    session: u64,
    script: &[Call],
    clock: &C,
    gate: &G,
    receipts: &mut Vec<Receipt>,
) -> Result<(), SeatFault>
    requires empty { receipts.old.items ≡ [] }
    requires room { length script.now ≤ vec_capacity receipts.old }
    ensures receipts { OnOk result (IsWorked seat.old.number script.now receipts.new.items) }
    ensures share { OnOk result (seat.new.share ≡ seat.old.share + length script.now) }
    ensures before { OnOk result (seat.new.before ≡ seat.old.before) }
    ensures told { IfErr result RefusesEvent }
{
    for call in script {
        gate.before_call(session);
        let receipt = shared.exchange(rt, alloc, seat, clock.now(), session, call)?;
        receipts.push_reserved(receipt);
    }
    Ok(())
}
