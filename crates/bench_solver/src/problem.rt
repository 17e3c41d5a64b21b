//! A problem in words: how many entries and consumers it has, the tiers of each consumer, and for each entry its cost
//! at each consumer, `-` where it is not allowed. The tiers of a consumer are one word: its room, or `FIRST+NEXT@FEE`
//! for two.
use sr_transport::{Problem, Tier};
use std::alloc::Global;
use std::io;
use std::str::SplitWhitespace;

/// The problem that these words write.
pub(crate) fn read_problem(alloc: Global, mut words: SplitWhitespace) -> io::Result<Problem> {
    let entries = next_number(&mut words)? as usize;
    let consumers = next_number(&mut words)? as usize;
    let mut tiers = Vec::new(alloc);
    for consumer in 0..consumers {
        add_tiers(&mut tiers, consumer, words.next().unwrap_or(""))?;
    }
    let mut costs = Vec::new(alloc);
    for word in words {
        costs.push(if word == "-" {
            None
        } else {
            Some(number(word)?)
        })?;
    }
    match Problem::new(tiers, consumers, entries, costs) {
        Some(problem) => Ok(problem),
        None => Err(io::Error::other("the problem is not within the limits")),
    }
}

/// Adds the tiers of a consumer that a word writes.
fn add_tiers(tiers: &mut Vec<Tier>, consumer: usize, word: &str) -> io::Result<()> {
    let (room, next) = match word.split_once('+') {
        Some((room, next)) => (room, Some(next)),
        None => (word, None),
    };
    let room = number(room)?;
    tiers.push(Tier {
        consumer,
        room,
        fee: 0,
    })?;
    let Some(next) = next else {
        return Ok(());
    };
    let Some((room, fee)) = next.split_once('@') else {
        return Err(io::Error::other("a fee is expected"));
    };
    tiers.push(Tier {
        consumer,
        room: number(room)?,
        fee: number(fee)?,
    })?;
    Ok(())
}

/// The number that the next word writes.
pub(crate) fn next_number(words: &mut SplitWhitespace) -> io::Result<u64> {
    number(words.next().unwrap_or(""))
}

/// The number that a word writes.
fn number(word: &str) -> io::Result<u64> {
    match word.parse() {
        Ok(number) => Ok(number),
        Err(_error) => Err(io::Error::other("a number is expected")),
    }
}
