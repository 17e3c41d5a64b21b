//! A problem, read line by line, and the snapshot that it describes.
ghost use Rattle.std.specs.Prelude.{ℕ, ◌^◌, ◌<◌, ◌≤◌, IfOk, IsErrOf, IfErr, ◌≡◌};
ghost use Rattle.sr_bytes.specs.{IsDecimal};
ghost use Rattle.sr_ids.specs.declared.id.Id as ids;
ghost use Rattle.sr_ids.specs.{SpellsId};

use crate::fault::Fault;
use crate::words::{MOST_DIGITS, words_of};
use sr_bytes::{Name, read_decimal};
use sr_ids::{Id, parse_strict};
use sr_policy::{Live, Rates, Snapshot, Stranded};
use std::alloc::{AllocError, Global};
use std::collections::{BTreeMap, BTreeSet};

// The greatest numbers of a snapshot, as crates/sr_policy/specs/Bounds.antt has them.
const MAX_ENTRIES: usize = 4096;

const MAX_CONSUMERS: usize = 64;

const MAX_CLASSES: usize = 1025;

const MAX_WEIGHT: u64 = 1 << 20;

const MAX_ROOM: u64 = 1_000_000_000;

const MAX_RATE: u64 = 1 << 20;

const MAX_FEE: u64 = 1 << 40;

/// A live consumer, but for its name.
#[derive(Drop)]
struct Consumer {
    /// How many more entries it may get without a fee.
    room: u64,
    /// How many it may get beyond these, and the fee of each, if it has a second tier.
    next: Option<(u64, u64)>,
    /// What a unit of weight costs, for each class that it may take.
    rates: BTreeMap<Vec<u8>, u64>,
}

/// The lines of a problem so far. All entries are those of one dead consumer, which has the empty name.
#[derive(Drop)]
pub(crate) struct Problem {
    stranded: BTreeMap<Id, Stranded>,
    gone: BTreeMap<Id, Name>,
    consumers: BTreeMap<Vec<u8>, Consumer>,
    /// The classes of the stranded entries.
    classes: BTreeSet<Vec<u8>>,
}

impl Problem {
    /// A problem of no lines. Takes no memory.
    pub(crate) fn new(alloc: Global) -> Problem {
        Problem {
            stranded: BTreeMap::new(alloc),
            gone: BTreeMap::new(alloc),
            consumers: BTreeMap::new(alloc),
            classes: BTreeSet::new(alloc),
        }
    }

    /// Adds what a line says, without the line end. After an `Err` nothing is known of the problem.
    pub(crate) fn add_line(&mut self, alloc: Global, line: &[u8]) -> Result<(), Fault> {
        if line.trim_ascii_start().starts_with(b"#") {
            return Ok(());
        }
        let words = words_of(alloc, line)?;
        self.add_words(alloc, words.as_slice())?;
        if self.stranded.len() > MAX_ENTRIES
            || self.classes.len() > MAX_CLASSES
            || self.consumers.len() > MAX_CONSUMERS
        {
            return Err(Fault::Many);
        }
        Ok(())
    }

    /// Adds what the words of a line say.
    fn add_words(&mut self, alloc: Global, words: &[Vec<u8>]) -> Result<(), Fault> {
        let Some((form, operands)) = words.split_first() else {
            return Ok(());
        };
        let form = form.as_slice();
        if form == b"entry".as_slice() {
            self.add_entry(alloc, operands)
        } else if form == b"gone".as_slice() {
            self.add_gone(alloc, operands)
        } else if form == b"consumer".as_slice() {
            self.add_consumer(alloc, operands)
        } else if form == b"rate".as_slice() {
            self.add_rate(operands)
        } else {
            Err(Fault::Form)
        }
    }

    /// Adds a stranded entry: its id, its class and its weight.
    fn add_entry(&mut self, alloc: Global, operands: &[Vec<u8>]) -> Result<(), Fault> {
        let [id, class, weight] = operands else {
            return Err(Fault::Form);
        };
        let id = id_of(id.as_slice())?;
        let weight = number_within(weight.as_slice(), 1, MAX_WEIGHT)?;
        let entry = Stranded {
            id,
            class: Name::new(class.clone()?),
            owner: Name::new(Vec::new(alloc)),
            weight,
        };
        insert_new(&mut self.stranded, id, entry)?;
        self.classes.insert(class.clone()?)?;
        Ok(())
    }

    /// Adds an entry that is no longer in the stream: its id.
    fn add_gone(&mut self, alloc: Global, operands: &[Vec<u8>]) -> Result<(), Fault> {
        let [id] = operands else {
            return Err(Fault::Form);
        };
        let id = id_of(id.as_slice())?;
        insert_new(&mut self.gone, id, Name::new(Vec::new(alloc)))
    }

    /// Adds a live consumer: its name and its room, and, if it has a second tier, the room and the fee of this.
    fn add_consumer(&mut self, alloc: Global, operands: &[Vec<u8>]) -> Result<(), Fault> {
        let (name, room, next) = match operands {
            [name, room] => (name, room, None),
            [name, room, more, fee] => (name, room, Some((more.as_slice(), fee.as_slice()))),
            _ => return Err(Fault::Form),
        };
        let room = number_within(room.as_slice(), 0, MAX_ROOM)?;
        let next = match next {
            Some((more, fee)) => Some(tier_of(more, fee, MAX_ROOM - room)?),
            None => None,
        };
        let consumer = Consumer {
            room,
            next,
            rates: BTreeMap::new(alloc),
        };
        insert_new(&mut self.consumers, name.clone()?, consumer)
    }

    /// Adds what a unit of weight of a class costs at a consumer that a line before has named.
    fn add_rate(&mut self, operands: &[Vec<u8>]) -> Result<(), Fault> {
        let [class, consumer, rate] = operands else {
            return Err(Fault::Form);
        };
        let rate = number_within(rate.as_slice(), 0, MAX_RATE)?;
        let consumer = self.consumers.get_mut(consumer).ok_or(Fault::Consumer)?;
        insert_new(&mut consumer.rates, class.clone()?, rate)
    }

    /// The snapshot of the problem. Its key, its group and the one dead consumer have the empty name: no check looks at
    /// them.
    ///
    /// Nothing is pending for a consumer, so that its limit is its room, and its soft limit that of its first tier.
    pub(crate) fn snapshot(self, alloc: Global) -> Result<Option<Snapshot>, AllocError> {
        let Problem {
            stranded,
            gone,
            consumers,
            classes,
        } = self;
        let rates = rates_of(alloc, &classes, &consumers)?;
        let live = live_of(alloc, &consumers)?;
        let stranded = stranded.into_values().collect(alloc)?;
        let gone = gone.into_iter().collect(alloc)?;
        let mut dead = Vec::with_capacity(alloc, 1)?;
        dead.push_reserved(Name::new(Vec::new(alloc)));
        Ok(Snapshot::new(
            Name::new(Vec::new(alloc)),
            Name::new(Vec::new(alloc)),
            dead,
            stranded,
            gone,
            live,
            rates,
        ))
    }
}

/// Inserts a value whose key no line before has given.
fn insert_new<K: Ord + Drop, V: Drop>(
    map: &mut BTreeMap<K, V>,
    key: K,
    value: V,
) -> Result<(), Fault> {
    match map.insert(key, value)? {
        None => Ok(()),
        Some(_) => Err(Fault::Twice),
    }
}

/// The live consumers, in byte order of their names.
fn live_of(
    alloc: Global,
    consumers: &BTreeMap<Vec<u8>, Consumer>,
) -> Result<Vec<Live>, AllocError> {
    let mut live = Vec::new(alloc);
    for (name, consumer) in consumers {
        let (more, tier) = match consumer.next {
            Some((more, fee)) => (more, Some((consumer.room, fee))),
            None => (0, None),
        };
        live.push(Live {
            name: Name::new(name.clone()?),
            limit: consumer.room.saturating_add(more),
            pending: 0,
            tier,
        })?;
    }
    Ok(live)
}

/// Each class and its rates at the consumers, in byte order of their names.
fn rates_of(
    alloc: Global,
    classes: &BTreeSet<Vec<u8>>,
    consumers: &BTreeMap<Vec<u8>, Consumer>,
) -> Result<Vec<(Name, Rates)>, AllocError> {
    let mut table = Vec::new(alloc);
    for class in classes {
        let mut rates = Vec::new(alloc);
        for consumer in consumers.values() {
            rates.push(consumer.rates.get(class).copied())?;
        }
        table.push((Name::new(class.clone()?), Rates::new(rates)))?;
    }
    Ok(table)
}

/// The room, which is at most this, and the fee of a second tier that two words write.
fn tier_of(room: &[u8], fee: &[u8], most: u64) -> Result<(u64, u64), Fault> {
    let room = number_within(room, 0, most)?;
    let fee = number_within(fee, 0, MAX_FEE)?;
    Ok((room, fee))
}

/// The id that a word spells.
fn id_of(word: &[u8]) -> Result<Id, Fault>
    ensures ok { IfOk result (SpellsId 0 word.now) }
    ensures err { IfErr result (λ _. (id : ids.Id) → SpellsId 0 word.now id → ⊥) }
{
    parse_strict(word).ok_or(Fault::Id)
}

/// The number that a word writes, if it is within these bounds.
fn number_within(word: &[u8], least: u64, most: u64) -> Result<u64, Fault>
    ensures ok { IfOk result (λ n. IsDecimal 20 word.now n × (least ≤ n) × (n ≤ most)) }
    ensures err { IfErr result (λ _. (n : ℕ) → n < 2 ^ 64 → IsDecimal 20 word.now n → least ≤ n → n ≤ most → ⊥) }
{
    let Some(number) = read_decimal(word, MOST_DIGITS) else {
        return Err(Fault::Number);
    };
    if number < least || number > most {
        return Err(Fault::Range);
    }
    Ok(number)
}
