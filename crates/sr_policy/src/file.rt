ghost use Rattle.std.specs.Prelude.{◌≡◌, Ok, Err, IfOk, IfErr, map, true};
ghost use Rattle.toml.specs.View.{table_view};
ghost use Rattle.sr_bytes.specs.{AreInOrder, ComesBefore};
ghost use Rattle.sr_policy.specs.File.{is_in_range as is_file_in_range, meaning_of_file};
ghost use Rattle.sr_policy.specs.File.{numbers_of as numbers_in, rates_of as rates_in_table, rules_of as rules_of_file};
ghost use Rattle.sr_policy.specs.File.{table_at as table_in};

use crate::Policy;
use crate::numbers::{Numbers, numbers_of};
use crate::policy::Parts;
use crate::range::is_in_range;
use crate::shape::has_shape;
use crate::table::{name_of, table_at, text_at};
use sr_bytes::Name;
use std::alloc::{AllocError, Global};
use toml::Table;

/// Why a text is not a policy.
#[derive(Clone, Copy, Debug, PartialEq, Eq)]
pub enum PolicyFault {
    /// It is not a TOML document.
    Toml,
    /// It has another key, a value of another kind, or a rate for a consumer without a limit; or it has soft limits or
    /// fees, and is not of version 2, or they are not for the same consumers, each with a limit.
    Shape,
    /// A number is out of its range, or there are too many consumers or classes.
    Range,
    /// Memory was refused. The rest was not judged.
    Memory,
}

impl Policy {
    ghost use Rattle.std.specs.Prelude.{◌≡◌, ◌≢◌, Ok, Err, IfOk, IfErr};
    ghost use Rattle.sr_policy.specs.File.{meaning_of};

    /// Reads a policy file.
    pub fn read(alloc: Global, text: &str) -> Result<Policy, PolicyFault>
        ensures ok { IfOk result (λ policy. meaning_of text.now ≡ Ok policy) }
        ensures err { IfErr result (λ fault. fault ≢ PolicyFault.Memory → meaning_of text.now ≡ Err fault) }
    {
        let file = match toml::table_from_str(alloc, text) {
            Ok(file) => file,
            Err(error) if error.is_memory() => return Err(PolicyFault::Memory),
            Err(_) => return Err(PolicyFault::Toml),
        };
        judge(&file)?;
        match policy_of(alloc, &file) {
            Ok(policy) => Ok(policy),
            Err(_) => Err(PolicyFault::Memory),
        }
    }
}

/// Whether a file has the shape of a policy, and then whether its numbers are in range.
fn judge(file: &Table) -> Result<(), PolicyFault>
    ensures ok { IfOk result (λ _. is_file_in_range (table_view file.now) ≡ true) }
    ensures meant { IfOk result (λ _.
        meaning_of_file (table_view file.now) ≡ Ok (rules_of_file (table_view file.now))) }
    ensures err { IfErr result (λ fault. meaning_of_file (table_view file.now) ≡ Err fault) }
{
    if !has_shape(file) {
        return Err(PolicyFault::Shape);
    }
    if !is_in_range(file) {
        return Err(PolicyFault::Range);
    }
    Ok(())
}

/// The policy of a file that has the shape of one and is in range.
fn policy_of(alloc: Global, file: &Table) -> Result<Policy, AllocError>
    requires { is_file_in_range (table_view file.now) ≡ true }
    ensures { IfOk result (λ policy. policy ≡ rules_of_file (table_view file.now)) }
{
    let class_field = match text_at(file, "class_field") {
        Some(text) => Some(name_of(alloc, text)?),
        None => None,
    };
    let parts = Parts {
        class_field,
        limits: numbers_at(alloc, file, "limits")?,
        rates: rates_at(alloc, file, "rates")?,
        soft: numbers_at(alloc, file, "soft")?,
        fees: numbers_at(alloc, file, "fees")?,
    };
    Policy::of(alloc, parts)
}

/// The numbers of the table at a key: none if it is missing.
fn numbers_at(alloc: Global, file: &Table, key: &str) -> Result<Numbers, AllocError>
    ensures value { IfOk result (λ numbers. numbers ≡ numbers_in (table_in key.now (table_view file.now))) }
    ensures order { IfOk result (λ numbers. AreInOrder ComesBefore (map (λ pair. pair.0) numbers)) }
{
    match table_at(file, key) {
        Some(numbers) => numbers_of(alloc, numbers),
        None => Ok(Numbers::none(alloc)),
    }
}

/// The rates of each class in the table at a key: none if it is missing.
fn rates_at(alloc: Global, file: &Table, key: &str) -> Result<Vec<(Name, Numbers)>, AllocError>
    ensures value { IfOk result (λ rates. rates.items ≡ rates_in_table (table_in key.now (table_view file.now))) }
    ensures order { IfOk result (λ rates. AreInOrder ComesBefore (map (λ class. class.0) rates.items)) }
{
    match table_at(file, key) {
        Some(classes) => rates_of(alloc, classes),
        None => Ok(Vec::new(alloc)),
    }
}

/// The rates of each class.
fn rates_of(alloc: Global, classes: &Table) -> Result<Vec<(Name, Numbers)>, AllocError>
    ensures value { IfOk result (λ rates. rates.items ≡ rates_in_table (table_view classes.now)) }
    ensures order { IfOk result (λ rates. AreInOrder ComesBefore (map (λ class. class.0) rates.items)) }
{
    let mut rates = Vec::with_capacity(alloc, classes.len())?;
    for (class, value) in classes.iter() {
        let numbers = match value.as_table() {
            Some(numbers) => numbers_of(alloc, numbers)?,
            None => Numbers::none(alloc),
        };
        rates.push((name_of(alloc, class.as_str())?, numbers))?;
    }
    Ok(rates)
}
