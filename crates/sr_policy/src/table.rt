//! What a policy file has at a key, and what a value of it says.
ghost use Rattle.std.specs.Prelude.{◌≡◌, IfOk, option_map, option_and_then};
ghost use Rattle.toml.specs.Data.{get_member, as_table, as_str};
ghost use Rattle.toml.specs.View.{view, table_view};
ghost use Rattle.sr_policy.specs.File.{natural_of as natural_in};

use sr_bytes::Name;
use std::alloc::{AllocError, Global};
use toml::{Table, Value};

/// The value at a key.
#[tactic(auto, using(toml::proofs::Views::table_get))]
pub(crate) fn value_at<'a>(table: &'a Table, key: &str) -> Option<&'a Value>
    ensures { option_map (λ value. view value.now) result ≡ get_member key.now (table_view table.now) }
{
    table.get(key)
}

/// The table at a key, if it holds one.
pub(crate) fn table_at<'a>(table: &'a Table, key: &str) -> Option<&'a Table>
    ensures { option_map (λ t. table_view t.now) result
        ≡ option_and_then as_table (get_member key.now (table_view table.now)) }
{
    match value_at(table, key) {
        Some(value) => value.as_table(),
        None => None,
    }
}

/// The text at a key, if it holds one.
pub(crate) fn text_at<'a>(table: &'a Table, key: &str) -> Option<&'a str>
    ensures { option_map (λ text. text.now) result
        ≡ option_and_then as_str (get_member key.now (table_view table.now)) }
{
    match value_at(table, key) {
        Some(value) => value.as_str(),
        None => None,
    }
}

/// The number that a value is, if it is an integer that is not below 0.
pub(crate) fn natural_of(value: &Value) -> Option<u64>
    ensures { result ≡ natural_in (view value.now) }
{
    match value.as_integer() {
        Some(n) => u64::try_from(n).ok(),
        None => None,
    }
}

/// A name of these bytes.
pub(crate) fn name_of(alloc: Global, text: &str) -> Result<Name, AllocError>
    ensures { IfOk result (λ name. name ≡ text.now) }
{
    Ok(Name::new(Vec::from_slice(alloc, text.as_bytes())?))
}
