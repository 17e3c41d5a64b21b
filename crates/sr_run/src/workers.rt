ghost use Rattle.std.specs.Prelude.{◌≡◌, ◌≢◌, ◌⊎◌, ◌↔◌, ◌<◌, ◌≤◌, IfErr, IfOk, length, map, sum, vec_len};
ghost use Rattle.std.specs.Result.{IsErrOf};
ghost use Rattle.std.specs.List.{flat_map};
ghost use Rattle.sr_run.specs.Worked.{HasNotRun, HasRun};
ghost use Rattle.sr_book.specs.Records.{events_of};

use crate::crew::{Crew, Finished, run_crew};
use crate::{RunFault, open};
use sr_args::Call;
use sr_book::Book;
use sr_policy::Policy;
use sr_seats::{Closed, Receipt};
use sr_session::{Clock, Gate};
use std::alloc::{AllocError, Global};
use std::hash::RandomState;
use std::marker::{Brand, Send, Sync};
use std::sync::Wait;
use std::sync::ledger::{Blank, Ledger};
use std::thread::Threads;

/// Scripts that were run.
#[derive(Drop)]
pub struct Ran {
    /// The closed run.
    pub closed: Closed,
    /// The receipts of each script.
    pub receipts: Vec<Vec<Receipt>>,
}

/// Runs from 1 to 64 scripts over a new book, and closes it with all receipts, each compared with its record. Each
/// script has a worker in a thread of its own, which joins, makes the calls of the script in order, and leaves. Which
/// worker's event comes first is not said.
///
/// Moments are the clock's. Before each call its worker passes the gate, outside the lock. A worker to which an event
/// is refused stops there and leaves, and the others go on.
pub fn run_workers<C: Clock + Sync, G: Gate + Sync, R: Threads + Wait + Sync>(
    rt: &R,
    alloc: Global,
    scripts: Vec<Vec<Call>>,
    policy: Policy,
    clock: &C,
    gate: &G,
    hasher: RandomState,
) -> Result<Ran, RunFault>
    ensures count { IsErrOf result RunFault.Count ↔ ((vec_len scripts ≡ 0) ⊎ (64 < vec_len scripts)) }
    ensures ok { IfOk result (λ ran. HasRun (map (λ script. script.items) scripts.items)
        (map (λ receipts. receipts.items) ran.receipts.items) ran.closed.book ran.closed.acts ran.closed.skipped) }
    ensures err { IfErr result (HasNotRun (map (λ script. script.items) scripts.items)) }
{
    let count = scripts.len();
    if count == 0 || count > 64 {
        return Err(RunFault::Count);
    }
    let book = Book::new(alloc, policy, hasher);
    run_over::<Brand, C, G, R>(
        rt,
        alloc,
        scripts,
        book,
        clock,
        gate,
        Blank::new(count as u64),
    )
}

/// Runs scripts over a book, with a ledger for their seats.
fn run_over<L: Ledger + Send + Sync, C: Clock + Sync, G: Gate + Sync, R: Threads + Wait + Sync>(
    rt: &R,
    alloc: Global,
    scripts: Vec<Vec<Call>>,
    book: Book,
    clock: &C,
    gate: &G,
    blank: Blank,
) -> Result<Ran, RunFault>
    requires name { blank.name ≡ L.name }
    requires whole { blank.parts ≡ L.parts }
    requires parts { blank.parts ≡ vec_len scripts }
    requires some { 0 < vec_len scripts }
    requires few { vec_len scripts ≤ 64 }
    requires fresh { events_of book ≡ 0 }
    ensures ok { IfOk result (λ ran. HasRun (map (λ script. script.items) scripts.items)
        (map (λ receipts. receipts.items) ran.receipts.items) ran.closed.book ran.closed.acts ran.closed.skipped) }
    ensures err { IfErr result (HasNotRun (map (λ script. script.items) scripts.items)) }
    ensures counted { IfErr result (λ fault. fault ≢ RunFault.Count) }
{
    let Ok(sizes) = sizes_of(alloc, scripts.as_slice()) else {
        return Err(RunFault::Memory);
    };
    let Ok((shared, seats)) = open::<L>(alloc, book, scripts.len(), blank) else {
        return Err(RunFault::Memory);
    };
    let Finished { seats, receipts } = run_crew(
        rt,
        alloc,
        &shared,
        Crew::new(seats, scripts),
        clock,
        gate,
    )?;
    let closed = match shared.close(alloc, seats, receipts.as_slice(), &[]) {
        Ok(closed) => closed,
        Err(refused) => return Err(RunFault::Close(refused.fault)),
    };
    // A worker that makes a checkpoint leaves receipts that nothing can be compared with.
    if closed.skipped > 0 {
        return Err(RunFault::Skipped(closed.skipped));
    }
    match by_script(alloc, sizes.as_slice(), receipts) {
        Ok(receipts) => Ok(Ran { closed, receipts }),
        Err(AllocError) => Err(RunFault::Memory),
    }
}

/// How many calls each script has.
fn sizes_of(alloc: Global, scripts: &[Vec<Call>]) -> Result<Vec<usize>, AllocError>
    ensures { IfOk result (λ sizes. sizes.items ≡ map (λ script. length script.items) scripts.now) }
{
    let mut sizes = Vec::with_capacity(alloc, scripts.len())?;
    for script in scripts {
        sizes.push_reserved(script.len());
    }
    Ok(sizes)
}

/// The receipts script by script, each with this many.
fn by_script(
    alloc: Global,
    sizes: &[usize],
    receipts: Vec<Receipt>,
) -> Result<Vec<Vec<Receipt>>, AllocError>
    requires { vec_len receipts ≡ sum sizes.now }
    ensures sizes { IfOk result (λ groups. map (λ group. length group.items) groups.items ≡ sizes.now) }
    ensures same { IfOk result (λ groups. flat_map (λ group. group.items) groups.items ≡ receipts.items) }
{
    let mut rest = receipts;
    let mut groups = Vec::with_capacity(alloc, sizes.len())?;
    for size in sizes {
        let others = rest.split_off(*size)?;
        groups.push_reserved(rest);
        rest = others;
    }
    Ok(groups)
}
