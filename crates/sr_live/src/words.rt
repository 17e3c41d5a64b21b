ghost use Rattle.std.specs.Prelude.{◌≡◌, ◌++◌, ◌∷◌, [], IfOk, OnOk, length, decimal, drop};
ghost use Rattle.std.specs.Prelude.{map, option_map, slice_index_or};
ghost use Rattle.std.specs.List.{flat_map};
ghost use Rattle.sr_ids.specs.{spelling};
ghost use Rattle.sr_live.specs.Words.{dead_words, ids_to, live_words, last_word, lives_words};
ghost use Rattle.sr_live.specs.Words.{most_word, row_words, rows_of, soft_word, words_for};

use crate::looked::{Claimable, Row};
use itoa::Buffer;
use sr_bytes::Name;
use sr_ids::{Id, write_id};
use sr_plan::{Moves, Prices, Verdict};
use sr_policy::Live;
use std::alloc::{AllocError, Global};

/// What a plan may be carried out within.
#[derive(Clone, Copy)]
pub struct Limits {
    /// By how much it may cost more than a cheapest one.
    pub within: u64,
    /// The last entry that it moves, if it moves the first ones alone: what is behind it is not compared.
    pub last: Option<Id>,
    /// Which entries may be moved.
    pub claimable: Claimable,
    /// How many entries had been removed from the stream: if as many are then, none was meanwhile.
    pub removed: u64,
}

/// The words behind the key with which Redis is asked to carry out the plan of a verdict. `None` for a shortage.
///
/// `live` are the live consumers with their own limits, and `rows` are the entries that are pending for the dead, as
/// they were looked up.
///
/// Source: Redis documentation, command EVAL.
pub fn script_words(
    alloc: Global,
    verdict: &Verdict,
    live: &[Live],
    rows: &[Row],
    limits: Limits,
) -> Result<Option<Vec<Name>>, AllocError>
    ensures { IfOk result (λ words. option_map (λ list. list.items) words
        ≡ words_for verdict.now.snapshot.group limits.within (last_word limits.last) limits.claimable limits.removed
        rows.now live.now verdict.now.snapshot verdict.now.answer) }
{
    let Some(prices) = verdict.prices() else {
        return Ok(None);
    };
    let Some(moves) = verdict.moves() else {
        return Ok(None);
    };
    let snapshot = verdict.snapshot();
    let moves = list_of(alloc, moves)?;
    let mut words = Vec::new(alloc);
    push_asked(&mut words, alloc, snapshot.group(), limits)?;
    push_number(&mut words, alloc, snapshot.dead().len() as u64)?;
    push_dead(&mut words, alloc, snapshot.dead(), rows)?;
    push_number(&mut words, alloc, live.len() as u64)?;
    push_lives(&mut words, alloc, moves.as_slice(), live, prices)?;
    Ok(Some(words))
}

/// Adds the group, by how much the plan may cost more, up to which id is compared, which entries may be moved, and how
/// many had been removed.
fn push_asked(
    words: &mut Vec<Name>,
    alloc: Global,
    group: &Name,
    limits: Limits,
) -> Result<(), AllocError>
    ensures { OnOk result (words.new.items
        ≡ words.old.items ++ group.now ∷ decimal limits.within ∷ last_word limits.last ∷ decimal limits.claimable.idle
        ∷ most_word limits.claimable.most_deliveries ∷ decimal limits.removed ∷ []) }
{
    words.push(group.copy(alloc)?)?;
    push_number(words, alloc, limits.within)?;
    push_last(words, alloc, limits.last)?;
    push_number(words, alloc, limits.claimable.idle)?;
    push_most(words, alloc, limits.claimable.most_deliveries)?;
    push_number(words, alloc, limits.removed)
}

/// Adds the id, or `+` if there is none.
fn push_last(words: &mut Vec<Name>, alloc: Global, last: Option<Id>) -> Result<(), AllocError>
    ensures { OnOk result (words.new.items ≡ words.old.items ++ last_word last ∷ []) }
{
    match last {
        Some(id) => push_id(words, alloc, id),
        None => push_text(words, alloc, b"+"),
    }
}

/// Adds the number, or `-` if there is none.
fn push_most(words: &mut Vec<Name>, alloc: Global, most: Option<u64>) -> Result<(), AllocError>
    ensures { OnOk result (words.new.items ≡ words.old.items ++ most_word most ∷ []) }
{
    match most {
        Some(most) => push_number(words, alloc, most),
        None => push_text(words, alloc, b"-"),
    }
}

/// Adds the dead, each with the entries that are pending for it.
fn push_dead(
    words: &mut Vec<Name>,
    alloc: Global,
    dead: &[Name],
    rows: &[Row],
) -> Result<(), AllocError>
    ensures { OnOk result (words.new.items ≡ words.old.items ++ flat_map (dead_words rows.now) dead.now) }
{
    for name in dead {
        push_one_dead(words, alloc, name, rows)?;
    }
    Ok(())
}

/// Adds a dead consumer, with the entries that are pending for it.
fn push_one_dead(
    words: &mut Vec<Name>,
    alloc: Global,
    name: &Name,
    rows: &[Row],
) -> Result<(), AllocError>
    ensures { OnOk result (words.new.items ≡ words.old.items ++ dead_words rows.now name.now) }
{
    words.push(name.copy(alloc)?)?;
    push_number(words, alloc, count_of(rows, name))?;
    push_rows(words, alloc, name, rows)
}

/// How many of the entries are pending for the consumer.
fn count_of(rows: &[Row], name: &Name) -> u64
    ensures { result ≡ length (rows_of name.now rows.now) }
{
    rows.iter().filter(|row| *name == row.owner).count() as u64
}

/// Adds the entries that are pending for the consumer, each with whether it is in the stream.
fn push_rows(
    words: &mut Vec<Name>,
    alloc: Global,
    name: &Name,
    rows: &[Row],
) -> Result<(), AllocError>
    ensures { OnOk result (words.new.items ≡ words.old.items ++ flat_map row_words (rows_of name.now rows.now)) }
{
    for row in rows {
        if *name == row.owner {
            push_row(words, alloc, row)?;
        }
    }
    Ok(())
}

/// Adds an entry that is pending for a dead consumer.
fn push_row(words: &mut Vec<Name>, alloc: Global, row: &Row) -> Result<(), AllocError>
    ensures { OnOk result (words.new.items ≡ words.old.items ++ row_words row.now) }
{
    push_id(words, alloc, row.id)?;
    let is_there: &[u8] = if row.fields.is_some() { b"1" } else { b"0" };
    push_text(words, alloc, is_there)
}

/// The moves as a list.
pub(crate) fn list_of<'a>(
    alloc: Global,
    mut moves: Moves<'a>,
) -> Result<Vec<(Id, &'a Name)>, AllocError>
    ensures { IfOk result (λ list. map (λ move. (move.0, move.1.now)) list.items ≡ moves.entry) }
{
    let mut list = Vec::with_capacity(alloc, moves.len())?;
    while let Some(one) = moves.next() {
        list.push(one)?;
    }
    Ok(list)
}

/// Adds the live consumers, each with the entries that it gets.
fn push_lives(
    words: &mut Vec<Name>,
    alloc: Global,
    moves: &[(Id, &Name)],
    live: &[Live],
    mut prices: Prices<'_>,
) -> Result<(), AllocError>
    ensures { OnOk result (words.new.items
        ≡ words.old.items ++ lives_words (map (λ move. (move.0, move.1.now)) moves.now) live.now prices.entry) }
{
    for consumer in live {
        let ids = ids_for(alloc, moves, &consumer.name)?;
        let own = next_prices(&mut prices);
        push_live(words, alloc, consumer, ids.as_slice(), own)?;
    }
    Ok(())
}

/// The prices of the next consumer, which then is read.
pub(crate) fn next_prices<'a>(prices: &mut Prices<'a>) -> &'a [u64]
    ensures value { result.now ≡ (slice_index_or prices.old 0 ([], [])).1 }
    ensures left { prices.new ≡ drop 1 prices.old }
{
    match prices.next() {
        Some((_name, own)) => own,
        None => &[],
    }
}

/// The entries that the consumer gets.
fn ids_for(alloc: Global, moves: &[(Id, &Name)], name: &Name) -> Result<Vec<Id>, AllocError>
    ensures { IfOk result (λ ids. ids.items ≡ ids_to (map (λ move. (move.0, move.1.now)) moves.now) name.now) }
{
    let mut ids = Vec::new(alloc);
    for (id, consumer) in moves {
        if *name == **consumer {
            ids.push(*id)?;
        }
    }
    Ok(ids)
}

/// Adds a live consumer, with the entries that it gets.
fn push_live(
    words: &mut Vec<Name>,
    alloc: Global,
    consumer: &Live,
    ids: &[Id],
    prices: &[u64],
) -> Result<(), AllocError>
    ensures { OnOk result (words.new.items ≡ words.old.items ++ live_words consumer.now ids.now prices.now) }
{
    words.push(consumer.name.copy(alloc)?)?;
    push_number(words, alloc, consumer.limit)?;
    push_soft(words, alloc, consumer.tier)?;
    let given = ids.len() as u64;
    push_number(words, alloc, given)?;
    push_number(words, alloc, given.min(consumer.free_room()))?;
    push_number(words, alloc, prices.get(0).copied().unwrap_or(0))?;
    push_number(words, alloc, prices.get(1).copied().unwrap_or(0))?;
    push_ids(words, alloc, ids)
}

/// Adds the soft limit, or `-` if there is none.
fn push_soft(
    words: &mut Vec<Name>,
    alloc: Global,
    tier: Option<(u64, u64)>,
) -> Result<(), AllocError>
    ensures { OnOk result (words.new.items ≡ words.old.items ++ soft_word tier ∷ []) }
{
    match tier {
        Some((soft, _fee)) => push_number(words, alloc, soft),
        None => push_text(words, alloc, b"-"),
    }
}

/// Adds the ids.
fn push_ids(words: &mut Vec<Name>, alloc: Global, ids: &[Id]) -> Result<(), AllocError>
    ensures { OnOk result (words.new.items ≡ words.old.items ++ map spelling ids.now) }
{
    for id in ids {
        push_id(words, alloc, *id)?;
    }
    Ok(())
}

/// Adds an id.
fn push_id(words: &mut Vec<Name>, alloc: Global, id: Id) -> Result<(), AllocError>
    ensures { OnOk result (words.new.items ≡ words.old.items ++ spelling id ∷ []) }
{
    let mut text = [0; 41];
    let len = write_id(id, &mut text);
    push_text(words, alloc, &text[..len])
}

/// Adds a number, in decimal digits.
fn push_number(words: &mut Vec<Name>, alloc: Global, number: u64) -> Result<(), AllocError>
    ensures { OnOk result (words.new.items ≡ words.old.items ++ decimal number ∷ []) }
{
    let mut buffer = Buffer::new();
    push_text(words, alloc, buffer.format(number).as_bytes())
}

/// Adds a word of these bytes.
fn push_text(words: &mut Vec<Name>, alloc: Global, text: &[u8]) -> Result<(), AllocError>
    ensures { OnOk result (words.new.items ≡ words.old.items ++ text.now ∷ []) }
{
    words.push(Name::new(Vec::from_slice(alloc, text)?))?;
    Ok(())
}
