//! A policy file, and names in it that end in `*`: each stands for the consumers of a group with that beginning.
use crate::blame::{MAX_CONSUMERS, policy_fault};
use crate::fault::{Fault, unreadable};
use crate::print::say;
use crate::wire::Wire;
use sr_bytes::Name;
use sr_live::{Asked, key_for, look_idles};
use sr_policy::Policy;
use std::alloc::{AllocError, Global};
use std::fs;
use std::io::Write;
use toml::{Table, Value};

/// What ends a name that stands for others.
const STAR: char = '*';

/// A policy, and the text that says it.
#[derive(Drop)]
pub(crate) struct PolicyText {
    pub(crate) policy: Policy,
    pub(crate) text: String,
}

impl PolicyText {
    /// What a file holds, which has to be a policy as it is written.
    pub(crate) fn read(rt: &HostRuntime, path: &str) -> Result<PolicyText, Fault> {
        let text = match fs::read_to_string(rt, path) {
            Ok(text) => text,
            Err(error) => return Err(unreadable(rt.alloc(), "policy", path, error)),
        };
        match Policy::read(rt.alloc(), text.as_str()) {
            Ok(policy) => Ok(PolicyText { policy, text }),
            Err(fault) => Err(policy_fault(rt.alloc(), fault, text.as_str(), text.as_str())),
        }
    }

    /// Whether a name stands for others.
    pub(crate) fn has_stars(&self) -> bool {
        self.policy
            .consumers()
            .iter()
            .any(|name| name.as_slice().ends_with(b"*"))
    }

    /// What it is for a group: each name that ends in `*` is replaced by those that it stands for, as the group has
    /// them now. `None` if there is no such name.
    pub(crate) fn for_group(
        &self,
        wire: &mut Wire,
        alloc: Global,
        asked: &Asked,
    ) -> Result<Option<PolicyText>, Fault> {
        if !self.has_stars() {
            return Ok(None);
        }
        let looked = look_idles(wire, alloc, &asked.key, &asked.group);
        let idles = wire.told(alloc, looked)?;
        let text = expanded_text(alloc, self.text.as_str(), asked, idles.as_slice())?;
        match Policy::read(alloc, text.as_str()) {
            Ok(policy) => Ok(Some(PolicyText { policy, text })),
            Err(fault) => Err(policy_fault(alloc, fault, text.as_str(), self.text.as_str())),
        }
    }
}

/// Notes that a name may stand for consumers that are gone.
pub(crate) fn print_stars<W: Write>(out: &mut W) -> Result<(), Fault> {
    say(
        out,
        b"note: without --seen-within a name that ends in * stands for consumers that are gone, too\n",
    )
}

/// The text of a policy in which whole names alone have numbers, of one that was read.
fn expanded_text(
    alloc: Global,
    text: &str,
    asked: &Asked,
    idles: &[(Name, u64)],
) -> Result<String, Fault> {
    let Ok(file) = toml::table_from_str(alloc, text) else {
        return Err(Fault::Memory);
    };
    text_for(alloc, &file, asked, idles)
}

/// The text of the policy that such a file is for the group.
fn text_for<'a>(
    alloc: Global,
    file: &'a Table,
    asked: &Asked,
    idles: &'a [(Name, u64)],
) -> Result<String, Fault> {
    let names = match file.get("limits").and_then(|limits| limits.as_table()) {
        Some(limits) => names_of(alloc, limits, asked, idles)?,
        None => Vec::new(alloc),
    };
    if names.len() > MAX_CONSUMERS {
        return Err(too_many(alloc, names.len()));
    }
    let expanded = expanded_file(alloc, file, names.as_slice())?;
    match toml::table_to_string(alloc, &expanded) {
        Ok(text) => Ok(text),
        Err(_) => Err(Fault::Memory),
    }
}

/// What it is to the user that a policy is for more consumers than it may have.
fn too_many(alloc: Global, count: usize) -> Fault {
    match format!(in alloc; "it is for {count} live consumers, and may be for 64 at most") {
        Ok(line) => Fault::Policy(line),
        Err(_) => Fault::Memory,
    }
}

/// The whole names for which a policy with these limits is, each once: those that it has, and of the group those for
/// which another one stands. None is dead, and those of the group have been seen in the time that is asked for.
fn names_of<'a>(
    alloc: Global,
    limits: &'a Table,
    asked: &Asked,
    idles: &'a [(Name, u64)],
) -> Result<Vec<&'a str>, AllocError> {
    let mut names = Vec::new(alloc);
    for (name, _limit) in limits.iter() {
        if !name.as_str().ends_with(STAR) && !is_dead(asked, name.as_bytes()) {
            names.push(name.as_str())?;
        }
    }
    let keys = keys_of(alloc, limits)?;
    for (name, idle) in idles {
        if is_seen(asked, *idle) && !is_dead(asked, name.as_slice()) {
            if let Some(name) = stood_for(limits, keys.as_slice(), name) {
                names.push(name)?;
            }
        }
    }
    Ok(names)
}

/// Whether the name is that of a dead consumer.
fn is_dead(asked: &Asked, name: &[u8]) -> bool {
    asked.dead.iter().any(|dead| dead.as_slice() == name)
}

/// Whether a consumer that has been idle for so many milliseconds has been seen in the time that is asked for.
fn is_seen(asked: &Asked, idle: u64) -> bool {
    match asked.seen_within {
        Some(most) => idle <= most,
        None => true,
    }
}

/// The name as a text, if one that ends in `*` stands for it.
fn stood_for<'a>(limits: &Table, keys: &[&[u8]], name: &'a Name) -> Option<&'a str> {
    let Ok(text) = str::from_utf8(name.as_slice()) else {
        return None;
    };
    if limits.contains_key(text) && !text.ends_with(STAR) {
        return None;
    }
    key_for(keys, text.as_bytes())?;
    Some(text)
}

/// The names in a table, in its order.
fn keys_of(alloc: Global, numbers: &Table) -> Result<Vec<&[u8]>, AllocError> {
    let mut keys = Vec::new(alloc);
    for (name, _number) in numbers.iter() {
        keys.push(name.as_bytes())?;
    }
    Ok(keys)
}

/// The number of a consumer: that of the name, among those of the table, that is for it.
fn number_for<'a>(numbers: &'a Table, keys: &[&[u8]], consumer: &str) -> Option<&'a Value> {
    let at = key_for(keys, consumer.as_bytes())?;
    for (place, (_name, number)) in numbers.iter().enumerate() {
        if place == at {
            return Some(number);
        }
    }
    None
}

/// A policy file in which just these names have numbers.
fn expanded_file(alloc: Global, file: &Table, names: &[&str]) -> Result<Table, AllocError> {
    let mut expanded = Table::new(alloc);
    for (key, value) in file.iter() {
        let value = match value {
            Value::Table(classes) if key.as_str() == "rates" => {
                Value::Table(expanded_classes(alloc, classes, names)?)
            }
            Value::Table(numbers) => Value::Table(expanded_numbers(alloc, numbers, names)?),
            other => other.clone()?,
        };
        drop(expanded.insert(key.clone()?, value)?);
    }
    Ok(expanded)
}

/// The rates of each class for these names.
fn expanded_classes(alloc: Global, classes: &Table, names: &[&str]) -> Result<Table, AllocError> {
    let mut expanded = Table::new(alloc);
    for (class, value) in classes.iter() {
        if let Some(rates) = value.as_table() {
            let rates = expanded_numbers(alloc, rates, names)?;
            drop(expanded.insert(class.clone()?, Value::Table(rates))?);
        }
    }
    Ok(expanded)
}

/// The numbers of those of these names that have one.
fn expanded_numbers(alloc: Global, numbers: &Table, names: &[&str]) -> Result<Table, AllocError> {
    let mut expanded = Table::new(alloc);
    let keys = keys_of(alloc, numbers)?;
    for name in names {
        if let Some(number) = number_for(numbers, keys.as_slice(), name) {
            drop(expanded.insert(String::from_str(alloc, name)?, number.clone()?)?);
        }
    }
    Ok(expanded)
}
