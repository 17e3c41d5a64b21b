//! Whether a file has the shape of a policy.
ghost use Rattle.std.specs.Prelude.{◌&&◌, ◌≡◌, is_some, true};
ghost use Rattle.std.specs.List.{list_all};
ghost use Rattle.std.specs.Option.{option_map_or};
ghost use Rattle.toml.specs.Data.{as_table, get_member};
ghost use Rattle.toml.specs.View.{view, table_view};
ghost use Rattle.sr_policy.specs.File as spec;

use crate::range::is_between;
use crate::table::{table_at, value_at};
use toml::{Table, Value};

/// Whether a file has no other keys, each value of its kind, no rate for a consumer without a limit, and soft limits
/// and fees for the same consumers, in version 2 alone.
pub(crate) fn has_shape(file: &Table) -> bool
    ensures { result ≡ spec.has_shape (table_view file.now) }
{
    has_known_keys(file) && has_kinds(file) && are_all_limited(file) && are_tiers(file)
}

/// Whether a file has no other keys than those of a policy.
fn has_known_keys(file: &Table) -> bool
    ensures { result ≡ list_all (λ pair. spec.is_known_key pair.0) (spec.pairs_of (table_view file.now)) }
{
    for (key, _value) in file.iter() {
        if !is_known_key(key.as_str()) {
            return false;
        }
    }
    true
}

/// Whether a policy file may have the key.
fn is_known_key(key: &str) -> bool
    ensures { result ≡ spec.is_known_key key.now }
{
    key == "version"
        || key == "class_field"
        || key == "limits"
        || key == "rates"
        || key == "soft"
        || key == "fees"
}

/// Whether each value is of its kind.
fn has_kinds(file: &Table) -> bool
    ensures { result ≡ spec.has_kinds (table_view file.now) }
{
    is_integer_at(file, "version")
        && is_text_at(file, "class_field")
        && is_number_table_at(file, "limits")
        && is_rate_table_at(file, "rates")
        && is_number_table_at(file, "soft")
        && is_number_table_at(file, "fees")
}

/// Whether the value at a key is an integer, or the key is missing.
fn is_integer_at(file: &Table, key: &str) -> bool
    ensures { result ≡ spec.is_kind_at key.now spec.is_integer (table_view file.now) }
{
    match value_at(file, key) {
        Some(value) => value.is_integer(),
        None => true,
    }
}

/// Whether the value at a key is text, or the key is missing.
fn is_text_at(file: &Table, key: &str) -> bool
    ensures { result ≡ spec.is_kind_at key.now spec.is_text (table_view file.now) }
{
    match value_at(file, key) {
        Some(value) => value.is_str(),
        None => true,
    }
}

/// Whether the value at a key is a table of integers, or the key is missing.
fn is_number_table_at(file: &Table, key: &str) -> bool
    ensures { result ≡ spec.is_kind_at key.now spec.is_number_table (table_view file.now) }
{
    match value_at(file, key) {
        Some(value) => is_number_table(value),
        None => true,
    }
}

/// Whether the value at a key is a table of tables of integers, or the key is missing.
fn is_rate_table_at(file: &Table, key: &str) -> bool
    ensures { result ≡ spec.is_kind_at key.now spec.is_rate_table (table_view file.now) }
{
    match value_at(file, key) {
        Some(value) => is_rate_table(value),
        None => true,
    }
}

/// Whether a value is a table of integers.
fn is_number_table(value: &Value) -> bool
    ensures { result ≡ spec.is_number_table (view value.now) }
{
    match value.as_table() {
        Some(numbers) => are_integers(numbers),
        None => false,
    }
}

/// Whether each value of a table is an integer.
fn are_integers(numbers: &Table) -> bool
    ensures { result ≡ spec.are_integers (table_view numbers.now) }
{
    for (_key, value) in numbers.iter() {
        if !value.is_integer() {
            return false;
        }
    }
    true
}

/// Whether a value is a table of tables of integers.
fn is_rate_table(value: &Value) -> bool
    ensures { result ≡ spec.is_rate_table (view value.now) }
{
    match value.as_table() {
        Some(classes) => are_number_tables(classes),
        None => false,
    }
}

/// Whether each value of a table is a table of integers.
fn are_number_tables(classes: &Table) -> bool
    ensures { result ≡ spec.are_number_tables (table_view classes.now) }
{
    for (_class, value) in classes.iter() {
        if !is_number_table(value) {
            return false;
        }
    }
    true
}

/// Whether every consumer that has a rate has a limit.
fn are_all_limited(file: &Table) -> bool
    ensures { result
        ≡ spec.are_all_limited (spec.limits_in (table_view file.now)) (spec.rates_in (table_view file.now)) }
{
    match table_at(file, "rates") {
        Some(classes) => are_classes_limited(file, classes),
        None => true,
    }
}

/// The same for the rates of these classes.
fn are_classes_limited(file: &Table, classes: &Table) -> bool
    ensures { result ≡ spec.are_all_limited (spec.limits_in (table_view file.now)) (table_view classes.now) }
{
    for (_class, value) in classes.iter() {
        if !is_limited(file, value) {
            return false;
        }
    }
    true
}

/// The same for the rates of one class.
fn is_limited(file: &Table, value: &Value) -> bool
    ensures { result
        ≡ option_map_or (spec.are_limited (spec.limits_in (table_view file.now))) (as_table (view value.now)) true }
{
    match value.as_table() {
        Some(rates) => are_limited(file, rates),
        None => true,
    }
}

/// Whether each key of a table is that of a limit of the file.
fn are_limited(file: &Table, rates: &Table) -> bool
    ensures { result ≡ spec.are_limited (spec.limits_in (table_view file.now)) (table_view rates.now) }
{
    are_keys_at(file, "limits", rates)
}

/// Whether each key of a table is one of the table that the file has at `key`.
fn are_keys_at(file: &Table, key: &str, table: &Table) -> bool
    ensures { result ≡ spec.are_limited (spec.table_at key.now (table_view file.now)) (table_view table.now) }
{
    for (consumer, _value) in table.iter() {
        if !has_key_at(file, key, consumer.as_str()) {
            return false;
        }
    }
    true
}

/// Whether the table that the file has at `key` has this consumer.
fn has_key_at(file: &Table, key: &str, consumer: &str) -> bool
    ensures { result ≡ is_some (get_member consumer.now (spec.table_at key.now (table_view file.now))) }
{
    match table_at(file, key) {
        Some(table) => value_at(table, consumer).is_some(),
        None => false,
    }
}

/// Whether a file has soft limits and fees in version 2 alone, for the same consumers, which have limits.
fn are_tiers(file: &Table) -> bool
    ensures { result ≡ spec.are_tiers (table_view file.now) }
{
    (is_of_version_2(file) || has_no_tiers(file)) && are_same_consumers(file)
}

/// Whether a file has neither soft limits nor fees.
fn has_no_tiers(file: &Table) -> bool
    ensures { result ≡ spec.has_no_tiers (table_view file.now) }
{
    value_at(file, "soft").is_none() && value_at(file, "fees").is_none()
}

/// Whether a file says that it is of version 2.
fn is_of_version_2(file: &Table) -> bool
    ensures { result ≡ spec.is_of_version_2 (table_view file.now) }
{
    match value_at(file, "version") {
        Some(version) => is_between(version, 2, 2),
        None => false,
    }
}

/// Whether the consumers of two tables are the same, and each of them has a limit.
fn are_same_consumers(file: &Table) -> bool
    ensures { result ≡ (spec.are_limited (spec.fees_in (table_view file.now)) (spec.soft_in (table_view file.now))
        && spec.are_limited (spec.soft_in (table_view file.now)) (spec.fees_in (table_view file.now))
        && spec.are_limited (spec.limits_in (table_view file.now)) (spec.soft_in (table_view file.now))) }
{
    are_all_keys_at(file, "fees", "soft")
        && are_all_keys_at(file, "soft", "fees")
        && are_all_keys_at(file, "limits", "soft")
}

/// Whether each key of the table at one key of a file is one of the table at another.
fn are_all_keys_at(file: &Table, key: &str, other: &str) -> bool
    ensures { result ≡ spec.are_limited (spec.table_at key.now (table_view file.now))
        (spec.table_at other.now (table_view file.now)) }
{
    match table_at(file, other) {
        Some(table) => are_keys_at(file, key, table),
        None => true,
    }
}
