//! Which value of a policy file is the first for which it is refused, and on which line it is.
use crate::fault::{Fault, text_of};
use itoa::Buffer;
use sr_policy::PolicyFault;
use std::alloc::{AllocError, Global};
use toml::{Table, Value};

/// The keys that a policy may have.
const KEYS: [&str; 6] = ["version", "class_field", "limits", "rates", "soft", "fees"];

/// The greatest numbers, and how many consumers and classes there may be (docs/POLICY.md).
const MAX_LIMIT: i64 = 1_000_000_000;

const MAX_RATE: i64 = 1 << 20;

const MAX_FEE: i64 = 1 << 40;

pub(crate) const MAX_CONSUMERS: usize = 64;

const MAX_CLASSES: usize = 1024;

const INTEGER: &str = "it has to be an integer";

const TABLE: &str = "it has to be a table";

const NO_LIMIT: &str = "the consumer has no limit";

/// A value of a policy file, by the keys that lead to it, and what is wrong with it.
#[derive(Clone, Copy)]
struct Culprit<'a> {
    keys: [Option<&'a str>; 3],
    why: &'static str,
}

impl<'a> Culprit<'a> {
    fn at(key: &'a str, why: &'static str) -> Culprit<'a> {
        Culprit {
            keys: [Some(key), None, None],
            why,
        }
    }

    fn within(table: &'a str, key: &'a str, why: &'static str) -> Culprit<'a> {
        Culprit {
            keys: [Some(table), Some(key), None],
            why,
        }
    }

    fn of_class(class: &'a str, consumer: &'a str, why: &'static str) -> Culprit<'a> {
        Culprit {
            keys: [Some("rates"), Some(class), Some(consumer)],
            why,
        }
    }

    /// Whether a file has a value at these keys.
    fn is_in(&self, file: &Table) -> bool {
        let [first, second, third] = self.keys;
        let mut value = match first {
            Some(key) => file.get(key),
            None => None,
        };
        for key in [second, third] {
            if let Some(key) = key {
                value = match value.and_then(|value| value.as_table()) {
                    Some(table) => table.get(key),
                    None => None,
                };
            }
        }
        value.is_some()
    }
}

/// What is wrong with a policy that was refused for this reason. Lines are those of the file that it was made from.
pub(crate) fn policy_fault(alloc: Global, fault: PolicyFault, text: &str, file: &str) -> Fault {
    match blame(alloc, fault, text, file) {
        Ok(line) => Fault::Policy(line),
        Err(_) => Fault::Memory,
    }
}

/// The reason, the value and its line.
fn blame(alloc: Global, fault: PolicyFault, text: &str, file: &str) -> Result<String, AllocError> {
    let mut said = String::from_str(
        alloc,
        match fault {
            PolicyFault::Toml => "not TOML",
            PolicyFault::Shape => "wrong shape",
            PolicyFault::Range => "a value is out of its range",
            PolicyFault::Memory => return Err(AllocError),
        },
    )?;
    match toml::table_from_str(alloc, text) {
        Err(error) => {
            if let Some(span) = error.span() {
                push_line(&mut said, line_at(text.as_bytes(), span.start))?;
            }
        }
        Ok(table) => {
            if let Some(culprit) = culprit_of(&table) {
                push_culprit(&mut said, alloc, file, &culprit)?;
            }
        }
    }
    Ok(said)
}

/// Adds the keys that lead to a value, its line if the file has it, and what is wrong with it.
fn push_culprit(
    said: &mut String,
    alloc: Global,
    file: &str,
    culprit: &Culprit<'_>,
) -> Result<(), AllocError> {
    let mut before = ": ";
    for key in culprit.keys {
        if let Some(key) = key {
            said.push_str(before)?;
            said.push_str(text_of(alloc, key.as_bytes())?.as_str())?;
            before = ".";
        }
    }
    if let Some(line) = line_of(alloc, file.as_bytes(), culprit)? {
        push_line(said, line)?;
    }
    said.push_str(": ")?;
    said.push_str(culprit.why)
}

/// Adds the number of a line.
fn push_line(said: &mut String, line: usize) -> Result<(), AllocError> {
    let mut buffer = Buffer::new();
    said.push_str(", line ")?;
    said.push_str(buffer.format(line))
}

/// The line, from 1, of the byte at this place.
fn line_at(text: &[u8], place: usize) -> usize {
    let mut line = 1_usize;
    for byte in text.iter().take(place) {
        if *byte == b'\n' {
            line = line.saturating_add(1);
        }
    }
    line
}

/// The first line of the value, if a file has it: of the fronts of the text that are documents, the line behind the
/// longest one without the value.
fn line_of(alloc: Global, text: &[u8], culprit: &Culprit<'_>) -> Result<Option<usize>, AllocError> {
    let ends = line_ends(alloc, text)?;
    let mut least = 0_usize;
    let mut most = ends.len();
    for _ in 0..usize::BITS {
        if least >= most {
            break;
        }
        let middle = least + (most - least) / 2;
        if is_in_front(alloc, text, ends.as_slice().get(middle..), culprit)? {
            most = middle;
        } else {
            least = middle.saturating_add(1);
        }
    }
    if most >= ends.len() {
        return Ok(None);
    }
    Ok(Some(most.saturating_add(1)))
}

/// Whether the first of the fronts with these ends that is a document has the value.
fn is_in_front(
    alloc: Global,
    text: &[u8],
    ends: Option<&[usize]>,
    culprit: &Culprit<'_>,
) -> Result<bool, AllocError> {
    let Some(ends) = ends else {
        return Ok(false);
    };
    for end in ends {
        let Some(front) = text.get(..*end) else {
            continue;
        };
        match toml::table_from_slice(alloc, front) {
            Ok(file) => return Ok(culprit.is_in(&file)),
            Err(error) if error.is_memory() => return Err(AllocError),
            Err(_) => {}
        }
    }
    Ok(false)
}

/// Where each line of a text ends.
fn line_ends(alloc: Global, text: &[u8]) -> Result<Vec<usize>, AllocError> {
    let mut ends = Vec::new(alloc);
    for (place, byte) in text.iter().enumerate() {
        if *byte == b'\n' {
            ends.push(place.saturating_add(1))?;
        }
    }
    ends.push(text.len())?;
    Ok(ends)
}

/// The first value for which a file is refused: its shape is judged before the range of any number.
fn culprit_of(file: &Table) -> Option<Culprit<'_>> {
    unknown_key(file)
        .or_else(|| wrong_kind(file))
        .or_else(|| rate_without_limit(file))
        .or_else(|| wrong_tier(file))
        .or_else(|| wrong_version(file))
        .or_else(|| number_out_of_range(file))
}

/// A key that no policy has.
fn unknown_key(file: &Table) -> Option<Culprit<'_>> {
    for (key, _value) in file.iter() {
        if !KEYS.iter().any(|known| *known == key.as_str()) {
            return Some(Culprit::at(key.as_str(), "a policy has no such key"));
        }
    }
    None
}

/// A value of another kind than its key has.
fn wrong_kind(file: &Table) -> Option<Culprit<'_>> {
    if file.get("version").is_some_and(|value| !value.is_integer()) {
        return Some(Culprit::at("version", INTEGER));
    }
    if file.get("class_field").is_some_and(|value| !value.is_str()) {
        return Some(Culprit::at("class_field", "it has to be a text"));
    }
    for name in ["limits", "soft", "fees"] {
        if let Some(value) = file.get(name) {
            if let Some(culprit) = no_number_table(name, value) {
                return Some(culprit);
            }
        }
    }
    wrong_rates(file.get("rates")?)
}

/// What a value has that is no table of integers.
fn no_number_table<'a>(name: &'static str, value: &'a Value) -> Option<Culprit<'a>> {
    let Some(table) = value.as_table() else {
        return Some(Culprit::at(name, TABLE));
    };
    for (key, value) in table.iter() {
        if !value.is_integer() {
            return Some(Culprit::within(name, key.as_str(), INTEGER));
        }
    }
    None
}

/// What a value has that is no table of tables of integers.
fn wrong_rates(value: &Value) -> Option<Culprit<'_>> {
    let Some(classes) = value.as_table() else {
        return Some(Culprit::at("rates", TABLE));
    };
    for (class, value) in classes.iter() {
        let Some(rates) = value.as_table() else {
            return Some(Culprit::within("rates", class.as_str(), TABLE));
        };
        for (consumer, value) in rates.iter() {
            if !value.is_integer() {
                return Some(Culprit::of_class(class.as_str(), consumer.as_str(), INTEGER));
            }
        }
    }
    None
}

/// A rate for a consumer without a limit.
fn rate_without_limit(file: &Table) -> Option<Culprit<'_>> {
    let classes = table_in(file, "rates")?;
    for (class, value) in classes.iter() {
        if let Some(rates) = value.as_table() {
            for (consumer, _value) in rates.iter() {
                if number_in(file, "limits", consumer.as_str()).is_none() {
                    return Some(Culprit::of_class(class.as_str(), consumer.as_str(), NO_LIMIT));
                }
            }
        }
    }
    None
}

/// A soft limit or a fee that may not stand there.
fn wrong_tier(file: &Table) -> Option<Culprit<'_>> {
    if file.get("version").and_then(|version| version.as_integer()) != Some(2) {
        let name = if file.get("soft").is_some() {
            "soft"
        } else {
            "fees"
        };
        file.get(name)?;
        return Some(Culprit::at(name, "it has to stand in a file of version 2"));
    }
    lacking(file, "soft", "fees", "the consumer has no fee")
        .or_else(|| lacking(file, "soft", "limits", NO_LIMIT))
        .or_else(|| lacking(file, "fees", "soft", "the consumer has no soft limit"))
}

/// A consumer in one table and not in another.
fn lacking<'a>(
    file: &'a Table,
    name: &'static str,
    other: &str,
    why: &'static str,
) -> Option<Culprit<'a>> {
    for (consumer, _value) in table_in(file, name)?.iter() {
        if number_in(file, other, consumer.as_str()).is_none() {
            return Some(Culprit::within(name, consumer.as_str(), why));
        }
    }
    None
}

/// A version that is not known.
fn wrong_version(file: &Table) -> Option<Culprit<'_>> {
    match file.get("version")?.as_integer() {
        Some(1 | 2) => None,
        _ => Some(Culprit::at("version", "it has to be 1 or 2")),
    }
}

/// A number that is too great or below 0, or a table with too many consumers or classes.
fn number_out_of_range(file: &Table) -> Option<Culprit<'_>> {
    if let Some(limits) = table_in(file, "limits") {
        if limits.len() > MAX_CONSUMERS {
            return Some(Culprit::at("limits", "there are more than 64 consumers"));
        }
        if let Some(consumer) = beyond(limits, MAX_LIMIT) {
            return Some(Culprit::within("limits", consumer, "it has to be 0 to 1000000000"));
        }
    }
    if let Some(culprit) = rate_out_of_range(file) {
        return Some(culprit);
    }
    if let Some(consumer) = soft_out_of_range(file) {
        return Some(Culprit::within("soft", consumer, "it has to be 0 to the consumer's limit"));
    }
    let consumer = beyond(table_in(file, "fees")?, MAX_FEE)?;
    Some(Culprit::within("fees", consumer, "it has to be 0 to 2^40"))
}

/// A rate that is too great or below 0, or too many classes.
fn rate_out_of_range(file: &Table) -> Option<Culprit<'_>> {
    let classes = table_in(file, "rates")?;
    if classes.len() > MAX_CLASSES {
        return Some(Culprit::at("rates", "there are more than 1024 classes"));
    }
    for (class, value) in classes.iter() {
        if let Some(rates) = value.as_table() {
            if let Some(consumer) = beyond(rates, MAX_RATE) {
                return Some(Culprit::of_class(
                    class.as_str(),
                    consumer,
                    "it has to be 0 to 1048576",
                ));
            }
        }
    }
    None
}

/// A consumer whose soft limit is below 0 or above its limit.
fn soft_out_of_range(file: &Table) -> Option<&str> {
    for (consumer, value) in table_in(file, "soft")?.iter() {
        let limit = number_in(file, "limits", consumer.as_str()).unwrap_or(0);
        if value.as_integer().is_none_or(|n| n < 0 || n > limit) {
            return Some(consumer.as_str());
        }
    }
    None
}

/// The first key of a table whose number is below 0 or above the greatest.
fn beyond(table: &Table, most: i64) -> Option<&str> {
    for (key, value) in table.iter() {
        if value.as_integer().is_none_or(|n| n < 0 || n > most) {
            return Some(key.as_str());
        }
    }
    None
}

/// The table at a key, if it holds one.
fn table_in<'a>(file: &'a Table, key: &str) -> Option<&'a Table> {
    file.get(key)?.as_table()
}

/// The number of a consumer in the table at a key.
fn number_in(file: &Table, key: &str, consumer: &str) -> Option<i64> {
    table_in(file, key)?.get(consumer)?.as_integer()
}
