//! Whether the numbers of a file are in range.
ghost use Rattle.std.specs.Prelude.{◌≡◌, ◌^◌, length, true};
ghost use Rattle.std.specs.Option.{option_map_or};
ghost use Rattle.toml.specs.Data.{as_table};
ghost use Rattle.toml.specs.View.{view, table_view};
ghost use Rattle.sr_policy.specs.File as spec;

use crate::bounds::{MAX_CLASSES, MAX_CONSUMERS, MAX_FEE, MAX_LIMIT, MAX_RATE};
use crate::table::{natural_of, table_at, value_at};
use toml::{Table, Value};

/// Whether the version is known, there are not too many consumers and classes, and each limit, rate, soft limit and fee
/// is in its range.
pub(crate) fn is_in_range(file: &Table) -> bool
    ensures { result ≡ spec.is_in_range (table_view file.now) }
{
    value_at(file, "version").is_none_or(|version| is_between(version, 1, 2))
        && len_at(file, "limits") <= MAX_CONSUMERS
        && len_at(file, "rates") <= MAX_CLASSES
        && are_limits_small(file)
        && are_rates_small(file)
        && are_soft_limits_small(file)
        && are_fees_small(file)
}

/// How many keys the table at a key has.
#[tactic(auto, using(crate::proofs::FileLemmas::length_pairs))]
fn len_at(file: &Table, key: &str) -> usize
    ensures { result ≡ length (spec.pairs_of (spec.table_at key.now (table_view file.now))) }
{
    match table_at(file, key) {
        Some(table) => table.len(),
        None => 0,
    }
}

/// Whether each limit is in range.
fn are_limits_small(file: &Table) -> bool
    ensures { result ≡ spec.are_up_to 1000000000 (spec.limits_in (table_view file.now)) }
{
    match table_at(file, "limits") {
        Some(limits) => are_up_to(limits, MAX_LIMIT),
        None => true,
    }
}

/// Whether each rate is in range.
fn are_rates_small(file: &Table) -> bool
    ensures { result ≡ spec.are_all_up_to (2 ^ 20) (spec.rates_in (table_view file.now)) }
{
    match table_at(file, "rates") {
        Some(classes) => are_all_up_to(classes, MAX_RATE),
        None => true,
    }
}

/// Whether each soft limit is in range: at most the limit of its consumer.
fn are_soft_limits_small(file: &Table) -> bool
    ensures { result ≡ spec.are_soft (spec.limits_in (table_view file.now)) (spec.soft_in (table_view file.now)) }
{
    match table_at(file, "soft") {
        Some(soft) => are_up_to_limits(file, soft),
        None => true,
    }
}

/// Whether each number of a table is at most the limit of its consumer.
fn are_up_to_limits(file: &Table, soft: &Table) -> bool
    ensures { result ≡ spec.are_soft (spec.limits_in (table_view file.now)) (table_view soft.now) }
{
    for (consumer, value) in soft.iter() {
        if !is_between(value, 0, limit_at(file, consumer.as_str())) {
            return false;
        }
    }
    true
}

/// The limit of a consumer, or 0 if the file has none that is a number from 0.
fn limit_at(file: &Table, consumer: &str) -> u64
    ensures { result ≡ spec.limit_in (spec.limits_in (table_view file.now)) consumer.now }
{
    let Some(limits) = table_at(file, "limits") else {
        return 0;
    };
    match value_at(limits, consumer) {
        Some(limit) => natural_of(limit).unwrap_or(0),
        None => 0,
    }
}

/// Whether each fee is in range.
fn are_fees_small(file: &Table) -> bool
    ensures { result ≡ spec.are_up_to (2 ^ 40) (spec.fees_in (table_view file.now)) }
{
    match table_at(file, "fees") {
        Some(fees) => are_up_to(fees, MAX_FEE),
        None => true,
    }
}

/// Whether each number of each table is at most `most`.
fn are_all_up_to(classes: &Table, most: u64) -> bool
    ensures { result ≡ spec.are_all_up_to most (table_view classes.now) }
{
    for (_class, value) in classes.iter() {
        if !is_up_to(value, most) {
            return false;
        }
    }
    true
}

/// Whether each number of a value that is a table is at most `most`.
fn is_up_to(value: &Value, most: u64) -> bool
    ensures { result ≡ option_map_or (spec.are_up_to most) (as_table (view value.now)) true }
{
    match value.as_table() {
        Some(numbers) => are_up_to(numbers, most),
        None => true,
    }
}

/// Whether each number of a table is at most `most`.
fn are_up_to(numbers: &Table, most: u64) -> bool
    ensures { result ≡ spec.are_up_to most (table_view numbers.now) }
{
    for (_key, value) in numbers.iter() {
        if !is_between(value, 0, most) {
            return false;
        }
    }
    true
}

/// Whether a value is an integer from `least` to `most`.
pub(crate) fn is_between(value: &Value, least: u64, most: u64) -> bool
    ensures { result ≡ spec.is_between least most (view value.now) }
{
    match natural_of(value) {
        Some(n) => least <= n && n <= most,
        None => false,
    }
}
