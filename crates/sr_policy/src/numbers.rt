ghost use Rattle.std.specs.Prelude.{◌≡◌, ◌≤◌, ◌<◌, IfOk, IfSome, length, option_and_then, option_map, map, slice_get};
ghost use Rattle.toml.specs.View.{table_view};
ghost use Rattle.sr_bytes.specs.{AreInOrder, ComesBefore};
ghost use Rattle.sr_policy.specs.Rules.{value_at};
ghost use Rattle.sr_policy.specs.File.{numbers_of as numbers_in};
ghost use Rattle.sr_policy.specs.steps.Search.{IsPlace};

use crate::order::is_before;
use crate::table::{name_of, natural_of};
use sr_bytes::Name;
use std::alloc::{AllocError, Global};
use std::marker::Model;
use toml::Table;

/// Numbers by name, in byte order: the limits of consumers, their soft limits or fees, or their rates for a class.
#[derive(Drop)]
pub(crate) struct Numbers {
    pairs: Vec<(Name, u64)>,
}

impl Model for Numbers {
    ghost use Rattle.std.specs.Prelude.{List, ℕ, map};
    ghost use Rattle.sr_bytes.specs.{AreInOrder, ComesBefore};

    ghost Value = { List (List ℕ × ℕ) };

    ghost view = { λ n. n.pairs.items };

    ghost invariant = { λ n. AreInOrder ComesBefore (map (λ pair. pair.0) n.pairs.items) };
}

impl Numbers {
    ghost use Rattle.std.specs.Prelude.{◌≡◌, []};
    ghost use Rattle.sr_policy.specs.Rules.{value_at};

    /// No numbers. It takes no memory.
    pub(crate) fn none(alloc: Global) -> Numbers
        ensures { result ≡ [] }
    {
        Numbers {
            pairs: Vec::new(alloc),
        }
    }

    /// The names with their numbers, in their order.
    pub(crate) fn as_slice(&self) -> &[(Name, u64)]
        ensures { result.now ≡ self.now }
    {
        self.pairs.as_slice()
    }

    /// The number of the first pair with this name.
    pub(crate) fn get(&self, name: &Name) -> Option<u64>
        ensures { result ≡ value_at name.now self.now }
    {
        found(self.pairs.as_slice(), name).copied()
    }
}

/// What the first of the pairs with this name holds, found by binary search.
pub(crate) fn found<'a, V>(pairs: &'a [(Name, V)], name: &Name) -> Option<&'a V>
    requires { AreInOrder ComesBefore (map (λ pair. pair.0) pairs.now) }
    ensures { option_map (λ value. value.now) result ≡ value_at name.now pairs.now }
{
    let place = place_of(pairs, name)?;
    Some(&pairs[place].1)
}

/// Where the pair with this name stands, if there is one, found by binary search.
pub(crate) fn place_of<V>(pairs: &[(Name, V)], name: &Name) -> Option<usize>
    requires { AreInOrder ComesBefore (map (λ pair. pair.0) pairs.now) }
    ensures bound { IfSome result (λ place. place < length pairs.now) }
    ensures value { value_at name.now pairs.now
        ≡ option_and_then (λ place. option_map (λ pair. pair.1) (slice_get pairs.now place)) result }
{
    let place = place_for(pairs, name);
    let (other, _) = pairs.get(place)?;
    if name == other { Some(place) } else { None }
}

/// How many of the pairs have names that come before this one, found by binary search.
fn place_for<V>(pairs: &[(Name, V)], name: &Name) -> usize
    requires { AreInOrder ComesBefore (map (λ pair. pair.0) pairs.now) }
    ensures bound { result ≤ length pairs.now }
    ensures place { IsPlace (λ pair. pair.0) name.now pairs.now result }
{
    pairs.partition_point(|pair| is_before(&pair.0, name))
}

/// The numbers of a table of a file, by key.
pub(crate) fn numbers_of(alloc: Global, table: &Table) -> Result<Numbers, AllocError>
    ensures value { IfOk result (λ numbers. numbers ≡ numbers_in (table_view table.now)) }
    ensures order { IfOk result (λ numbers. AreInOrder ComesBefore (map (λ pair. pair.0) numbers)) }
{
    let mut pairs = Vec::with_capacity(alloc, table.len())?;
    for (key, value) in table.iter() {
        pairs.push((
            name_of(alloc, key.as_str())?,
            natural_of(value).unwrap_or(0),
        ))?;
    }
    Ok(Numbers { pairs })
}

/// The names of some numbers, in their order.
pub(crate) fn names_of(alloc: Global, pairs: &[(Name, u64)]) -> Result<Vec<Name>, AllocError>
    ensures { IfOk result (λ names. names.items ≡ map (λ pair. pair.0) pairs.now) }
{
    let mut names = Vec::with_capacity(alloc, pairs.len())?;
    for (name, _) in pairs {
        names.push(name.copy(alloc)?)?;
    }
    Ok(names)
}
