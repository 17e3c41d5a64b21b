ghost use Rattle.std.specs.Prelude.{◌≡◌, ◌+◌, ◌++◌, ◌<◌, ◌≤◌, IfOk, MatchResult, length, map, vec_len};
ghost use Rattle.std.specs.Thread.{IsSend, IsSync};
ghost use Rattle.sr_run.specs.Crews.{AreHalves, AreTogether, HasNotWorked, HasWorked, first_of, joined};
ghost use Rattle.sr_seats.specs.{new_seats};

use crate::worker::work;
use crate::{RunFault, Shared};
use sr_args::Call;
use sr_seats::{Receipt, Seat};
use sr_session::{Clock, Gate};
use std::alloc::{AllocError, Global};
use std::marker::{Model, Send, Sync};
use std::snapshot::Snapshot;
use std::sync::Wait;
use std::sync::ledger::Ledger;
use std::thread;
use std::thread::{Promise, Threads};

/// Workers that have not begun: a seat and a script for each.
#[derive(Drop)]
pub(crate) struct Crew<L: Ledger> {
    first: u64,
    seats: Vec<Seat<L>>,
    scripts: Vec<Vec<Call>>,
}

impl<L: Ledger> Model for Crew<L> {
    ghost use Rattle.std.specs.Prelude.{map};
    ghost use Rattle.sr_run.specs.Crews.{CrewState, IsCrew};

    ghost Value = { CrewState };

    ghost view = { λ c. record { first = c.first; scripts = map (λ script. script.items) c.scripts.items } };

    ghost invariant = { λ c. IsCrew c.first c.seats.items (map (λ script. script.items) c.scripts.items) };
}

/// What is left of workers that are done.
#[derive(Drop)]
pub(crate) struct Finished<L: Ledger> {
    /// Their seats.
    pub(crate) seats: Vec<Seat<L>>,
    /// The receipts of the first, then those of the second, and so on.
    pub(crate) receipts: Vec<Receipt>,
}

impl<L: Ledger> Crew<L> {
    /// The workers with these seats, which have done and seen nothing, and these scripts.
    pub(crate) fn new(seats: Vec<Seat<L>>, scripts: Vec<Vec<Call>>) -> Crew<L>
        requires seats { seats.items ≡ new_seats 0 (vec_len scripts) }
        requires few { vec_len scripts ≤ 64 }
        ensures first { result.first ≡ 0 }
        ensures scripts { result.scripts ≡ map (λ script. script.items) scripts.items }
    {
        Crew {
            first: 0,
            seats,
            scripts,
        }
    }

    /// How many there are.
    fn len(&self) -> usize
        ensures { result ≡ length self.now.scripts }
    {
        self.scripts.len()
    }

    /// The first half of them and the others.
    #[tactic(auto, using(crate::proofs::WorkedLemmas::halves_are_whole))]
    fn halves(self) -> Result<(Crew<L>, Crew<L>), AllocError>
        requires { 1 < length self.scripts }
        ensures whole { IfOk result (λ halves. self ≡ joined halves.0 halves.1) }
        ensures apart { IfOk result (λ halves. AreHalves halves.0 halves.1) }
    {
        let Crew {
            first,
            mut seats,
            mut scripts,
        } = self;
        let half = scripts.len() / 2;
        let others = seats.split_off(half)?;
        let theirs = scripts.split_off(half)?;
        let front = Crew {
            first,
            seats,
            scripts,
        };
        let back = Crew {
            first: first + half as u64,
            seats: others,
            scripts: theirs,
        };
        Ok((front, back))
    }
}

impl<L: Ledger> Finished<L> {
    /// These and others that were told apart from them.
    fn with(self, others: Finished<L>) -> Result<Finished<L>, AllocError>
        ensures seats { IfOk result (λ all. all.seats.items ≡ self.seats.items ++ others.seats.items) }
        ensures receipts { IfOk result (λ all. all.receipts.items ≡ self.receipts.items ++ others.receipts.items) }
    {
        let Finished {
            mut seats,
            mut receipts,
        } = self;
        let Finished {
            seats: mut other_seats,
            receipts: mut other_receipts,
        } = others;
        seats.append(&mut other_seats)?;
        receipts.append(&mut other_receipts)?;
        Ok(Finished { seats, receipts })
    }
}

/// What the thread of a crew hands back.
#[derive(Drop)]
struct Work<L: Ledger>(Snapshot<Crew<L>>);

impl<L: Ledger> Promise<Result<Finished<L>, RunFault>> for Work<L> {
    ghost use Rattle.std.specs.Prelude.{MatchResult};
    ghost use Rattle.sr_run.specs.Crews.{HasNotWorked, HasWorked};

    ghost kept_by = { λ p r. MatchResult r
        (λ finished. HasWorked p.0.value finished.seats.items finished.receipts.items)
        (HasNotWorked p.0.value) };
}

/// Has a crew work, each of it in a thread of its own.
#[cycle(threads)]
pub(crate) fn run_crew<
    L: Ledger + Send + Sync,
    C: Clock + Sync,
    G: Gate + Sync,
    R: Threads + Wait + Sync,
>(
    rt: &R,
    alloc: Global,
    shared: &Shared<L>,
    crew: Crew<L>,
    clock: &C,
    gate: &G,
) -> Result<Finished<L>, RunFault>
    requires { 0 < length crew.scripts }
    ensures { MatchResult result
        (λ finished. HasWorked crew finished.seats.items finished.receipts.items)
        (HasNotWorked crew) }
{
    if crew.len() == 1 {
        return run_one(rt, alloc, shared, crew, clock, gate);
    }
    let Ok((front, back)) = crew.halves() else {
        return Err(RunFault::Memory);
    };
    thread::scope(
        thread::scope_env(),
        rt,
        |scope| -> Result<Finished<L>, RunFault>
            requires { IsSync R.row × IsSync C.row × IsSync G.row × IsSend L.row × IsSync L.row × AreHalves front back }
            ensures { MatchResult result
                (λ finished. HasWorked (joined front back) finished.seats.items finished.receipts.items)
                (HasNotWorked (joined front back)) }
        {
            let promise = Work(Snapshot::of(&front));
            let theirs = move || -> Result<Finished<L>, RunFault>
                requires { IsSync R.row × IsSync C.row × IsSync G.row × IsSend L.row × IsSync L.row
                    × (0 < length front.scripts) }
                ensures { MatchResult result
                    (λ finished. HasWorked front finished.seats.items finished.receipts.items)
                    (HasNotWorked front) }
            { run_crew(rt, alloc, shared, front, clock, gate) };
            let Ok(child) = scope.spawn_with(promise, theirs) else {
                return Err(RunFault::Thread);
            };
            let own = run_crew(rt, alloc, shared, back, clock, gate);
            together(child.join(rt), own)
        },
    )
}

/// Has a crew of one work.
fn run_one<L: Ledger, C: Clock, G: Gate, R: Wait>(
    rt: &R,
    alloc: Global,
    shared: &Shared<L>,
    crew: Crew<L>,
    clock: &C,
    gate: &G,
) -> Result<Finished<L>, RunFault>
    requires { length crew.scripts ≡ 1 }
    ensures { MatchResult result
        (λ finished. HasWorked crew finished.seats.items finished.receipts.items)
        (HasNotWorked crew) }
{
    let Crew {
        first,
        mut seats,
        mut scripts,
    } = crew;
    let (Some(mut seat), Some(script)) = (seats.pop(), scripts.pop()) else {
        unreachable!()
    };
    let Ok(mut receipts) = Vec::with_capacity(alloc, script.len()) else {
        return Err(RunFault::Memory);
    };
    match work(
        rt,
        alloc,
        shared,
        &mut seat,
        script.as_slice(),
        clock,
        gate,
        &mut receipts,
    ) {
        Ok(()) => {
            seats.push_reserved(seat);
            Ok(Finished { seats, receipts })
        }
        Err(fault) => Err(RunFault::Worker {
            at: first as usize,
            fault,
        }),
    }
}

/// What came of a crew, by what came of its halves.
fn together<L: Ledger>(
    front: Result<Finished<L>, RunFault>,
    back: Result<Finished<L>, RunFault>,
) -> Result<Finished<L>, RunFault>
    ensures { AreTogether (λ finished. finished.seats.items) (λ finished. finished.receipts.items) front back result }
{
    match front {
        Ok(one) => match one.with(back?) {
            Ok(all) => Ok(all),
            Err(AllocError) => Err(RunFault::Memory),
        },
        Err(fault) => match back {
            Ok(_two) => Err(fault),
            Err(other) => Err(first_of(fault, other)),
        },
    }
}

/// The fault of a crew whose halves have one each: a thread that could not be started, or else that of the first half.
fn first_of(fault: RunFault, other: RunFault) -> RunFault
    ensures { result ≡ first_of fault other }
{
    match other {
        RunFault::Thread => RunFault::Thread,
        RunFault::Count
        | RunFault::Memory
        | RunFault::Worker { .. }
        | RunFault::Close(_)
        | RunFault::Skipped(_) => fault,
    }
}
