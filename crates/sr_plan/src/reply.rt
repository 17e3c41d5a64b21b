ghost use Rattle.std.specs.Prelude.{◌≡◌, ◌++◌, ◌<◌, ◌^◌, Bool, pos, All, length, map, IfOk, OnOk};
ghost use Rattle.std.specs.List.{flat_map};
ghost use Rattle.sr_transport.specs.Certificate.{IsShortage};
ghost use Rattle.sr_transport.specs.Solved.{IsBest};
ghost use Rattle.sr_policy.specs.{problem_of};
ghost use Rattle.sr_resp.specs.{array_of, integer};
ghost use Rattle.sr_check.specs.{AreTold, id_answer, move_answer, price_answer, share_answer, plan_word};
ghost use Rattle.sr_check.specs.{reached_from, verdict_answer};
ghost use Rattle.sr_plan.specs.Verdict.{best, short};

use crate::moves::{Moves, Shortage};
use crate::prices::Prices;
use sr_bytes::Name;
use sr_ids::{Id, write_id};
use sr_policy::{Snapshot, problem};
use sr_resp::{Draft, Reply};
use sr_transport::{Problem, is_reached, places};
use std::alloc::{AllocError, Global};

/// The reply of a plan: the word, the total, the moves, the prices, and the ids of the entries that are gone.
pub(crate) fn plan_reply(
    alloc: Global,
    snapshot: &Snapshot,
    assign: &[usize],
    prices: &[u64],
    total: u64,
    applied: bool,
) -> Result<Reply, AllocError>
    requires best { IsBest (problem_of snapshot.now) assign.now prices.now total }
    requires told { AreTold prices.now }
    ensures { IfOk result (λ reply. reply ≡ verdict_answer snapshot.now (best assign.now prices.now total) applied) }
{
    let live = snapshot.live();
    let moves = Moves::new(snapshot.stranded(), assign, live);
    let word = Reply::short(alloc, word_of(applied));
    let cost = number_reply(alloc, total);
    let moves = moves_reply(alloc, moves)?;
    let prices = prices_reply(alloc, Prices::new(live, prices))?;
    let gone = gone_reply(alloc, snapshot.gone())?;
    Reply::array(alloc, [word, cost, moves, prices, gone])
}

/// The reply of a shortage: the ids of its entries, the rooms of the consumers that some of them are allowed, and the
/// number of places at these.
pub(crate) fn shortage_reply(
    alloc: Global,
    snapshot: &Snapshot,
    set: &[usize],
) -> Result<Reply, AllocError>
    requires { IsShortage (problem_of snapshot.now) set.now }
    ensures { IfOk result (λ reply. (applied : Bool) → reply ≡ verdict_answer snapshot.now (short set.now) applied) }
{
    let problem = problem(alloc, snapshot)?;
    let word = Reply::short(alloc, b"none");
    let ids = ids_reply(alloc, Shortage::new(set, snapshot.stranded()))?;
    let rooms = rooms_reply(alloc, snapshot, &problem, set)?;
    let places = number_reply(alloc, places(&problem, set));
    Reply::array(alloc, [word, ids, rooms, places])
}

/// A number as an integer. Takes no memory.
fn number_reply(alloc: Global, n: u64) -> Reply
    requires { n < 2 ^ 63 }
    ensures { result ≡ integer (pos n) }
{
    Reply::int(alloc, n as i64)
}

/// Whether the plan was carried out, as a word.
fn word_of(applied: bool) -> &'static [u8]
    ensures { result.now ≡ plan_word applied }
{
    if applied { b"done" } else { b"plan" }
}

/// Moves as an array, each of them an array of an id and the consumer's name.
fn moves_reply(alloc: Global, mut moves: Moves<'_>) -> Result<Reply, AllocError>
    ensures { IfOk result (λ reply. reply ≡ array_of (map move_answer moves.entry)) }
{
    let mut draft = Draft::array(alloc, moves.len());
    while let Some((id, consumer)) = moves.next() {
        draft.header(2)?;
        write_bulk_id(&mut draft, id)?;
        draft.bulk(consumer.as_slice())?;
    }
    Ok(draft.finish())
}

/// The ids of a shortage as an array.
fn ids_reply(alloc: Global, mut shortage: Shortage<'_>) -> Result<Reply, AllocError>
    ensures { IfOk result (λ reply. reply ≡ array_of (map id_answer shortage.entry)) }
{
    let mut draft = Draft::array(alloc, shortage.len());
    while let Some(id) = shortage.next() {
        write_bulk_id(&mut draft, id)?;
    }
    Ok(draft.finish())
}

/// The ids of the entries that are gone as an array.
fn gone_reply(alloc: Global, gone: &[(Id, Name)]) -> Result<Reply, AllocError>
    ensures { IfOk result (λ reply. reply ≡ array_of (map (λ pair. id_answer pair.0) gone.now)) }
{
    let mut draft = Draft::array(alloc, gone.len());
    for (id, _) in gone {
        write_bulk_id(&mut draft, *id)?;
    }
    Ok(draft.finish())
}

/// The prices of the live consumers as an array, each of them an array of a name and the prices of its tiers.
fn prices_reply(alloc: Global, mut prices: Prices<'_>) -> Result<Reply, AllocError>
    requires { All (λ own. AreTold own.1) prices }
    ensures { IfOk result (λ reply. reply ≡ array_of (map price_answer prices.entry)) }
{
    let mut draft = Draft::array(alloc, prices.len());
    while let Some((consumer, own)) = prices.next() {
        draft.header(own.len() + 1)?;
        draft.bulk(consumer.as_slice())?;
        write_prices(&mut draft, own)?;
    }
    Ok(draft.finish())
}

/// Adds prices to a draft, each as an integer.
fn write_prices(draft: &mut Draft, prices: &[u64]) -> Result<(), AllocError>
    requires { AreTold prices.now }
    ensures { OnOk result (draft.new ≡ draft.old ++ flat_map (λ price. integer (pos price)) prices.now) }
{
    for price in prices {
        draft.int(*price as i64)?;
    }
    Ok(())
}

/// The rooms of the consumers that some entry of the set is allowed, as an array.
fn rooms_reply(
    alloc: Global,
    snapshot: &Snapshot,
    problem: &Problem,
    set: &[usize],
) -> Result<Reply, AllocError>
    requires problem { problem.now ≡ problem_of snapshot.now }
    requires entries { All (λ i. i < problem.now.entries) set.now }
    ensures { IfOk result (λ reply. reply
        ≡ array_of (map share_answer (reached_from problem.now set.now 0 snapshot.now.live))) }
{
    snapshot.sound();
    let live = snapshot.live();
    let mut reply = Reply::empty_array(alloc);
    for (number, consumer) in live.iter().enumerate() {
        if is_reached(problem, set, number) {
            reply.push(share_reply(alloc, &consumer.name, consumer.room())?)?;
        }
    }
    Ok(reply)
}

/// A consumer's name and a number, as an array.
fn share_reply(alloc: Global, consumer: &Name, n: u64) -> Result<Reply, AllocError>
    requires { n < 2 ^ 63 }
    ensures { IfOk result (λ reply. reply ≡ share_answer (consumer.now, n)) }
{
    let name = Reply::bulk(alloc, consumer.copy(alloc)?);
    Reply::array(alloc, [name, number_reply(alloc, n)])
}

/// Adds an id to a draft, as a bulk string.
fn write_bulk_id(draft: &mut Draft, id: Id) -> Result<(), AllocError>
    ensures { OnOk result (draft.new ≡ draft.old ++ id_answer id) }
{
    let mut text = [0; 41];
    let len = write_id(id, &mut text);
    draft.bulk(&text[..len])
}
