//! Whether parts make a snapshot.
ghost use Rattle.std.specs.Prelude.{◌≡◌, ◌↔◌, ◌≤◌, length, IsTrue, IfSome, All};
ghost use Rattle.sr_ids.specs.{IsBelow};
ghost use Rattle.sr_policy.specs.Bounds.{most_limit};
ghost use Rattle.sr_policy.specs.Snapshot as spec;
ghost use Rattle.sr_policy.specs.steps.Search.{IsPlace};

use crate::bounds::{
    MAX_CLASSES, MAX_CONSUMERS, MAX_FEE, MAX_LIMIT, MAX_RATE, MAX_STRANDED, MAX_WEIGHT,
};
use crate::live::Live;
use crate::order::is_before;
use crate::rates::Rates;
use crate::snapshot::Parts;
use crate::stranded::Stranded;
use sr_bytes::Name;
use sr_ids::Id;

/// Whether the parts are in order and within their bounds, and every owner is dead.
pub(crate) fn is_snapshot(parts: &Parts) -> bool
    ensures { IsTrue result ↔ spec.IsSnapshot parts.now }
{
    are_ids_in_order(parts)
        && are_names_in_order(parts)
        && are_owners_dead(parts)
        && is_within_bounds(parts)
}

/// Whether ids rise.
fn are_ids_in_order(parts: &Parts) -> bool
    ensures { IsTrue result ↔ spec.AreIdsInOrder parts.now }
{
    are_entries_rising(parts.stranded.as_slice()) && are_gone_rising(parts.gone.as_slice())
}

/// Whether names rise.
fn are_names_in_order(parts: &Parts) -> bool
    ensures { IsTrue result ↔ spec.AreNamesInOrder parts.now }
{
    are_names_rising(parts.dead.as_slice())
        && are_live_rising(parts.live.as_slice())
        && are_classes_rising(parts.rates.as_slice())
}

/// Whether an id is below another.
fn is_below(a: Id, b: Id) -> bool
    ensures { IsTrue result ↔ IsBelow a b }
{
    a.ms < b.ms || (a.ms == b.ms && a.seq < b.seq)
}

fn are_names_rising(names: &[Name]) -> bool
    ensures { IsTrue result ↔ spec.AreInOrder spec.ComesBefore names.now }
{
    names.windows(2).all(|pair| pair[0].comes_before(&pair[1]))
}

fn are_entries_rising(entries: &[Stranded]) -> bool
    ensures { IsTrue result ↔ spec.AreInOrder (λ a b. IsBelow a.id b.id) entries.now }
{
    entries
        .windows(2)
        .all(|pair| is_below(pair[0].id, pair[1].id))
}

fn are_gone_rising(entries: &[(Id, Name)]) -> bool
    ensures { IsTrue result ↔ spec.AreInOrder (λ a b. IsBelow a.0 b.0) entries.now }
{
    entries
        .windows(2)
        .all(|pair| is_below(pair[0].0, pair[1].0))
}

fn are_live_rising(live: &[Live]) -> bool
    ensures { IsTrue result ↔ spec.AreInOrder (λ a b. spec.ComesBefore a.name b.name) live.now }
{
    live.windows(2)
        .all(|pair| pair[0].name.comes_before(&pair[1].name))
}

fn are_classes_rising(classes: &[(Name, Rates)]) -> bool
    ensures { IsTrue result ↔ spec.AreInOrder (λ a b. spec.ComesBefore a.0 b.0) classes.now }
{
    classes
        .windows(2)
        .all(|pair| pair[0].0.comes_before(&pair[1].0))
}

/// Whether every owner is dead.
fn are_owners_dead(parts: &Parts) -> bool
    requires { spec.AreInOrder spec.ComesBefore parts.now.dead }
    ensures { IsTrue result ↔ spec.AreOwnersDead parts.now }
{
    are_stranded_owners(parts.dead.as_slice(), parts.stranded.as_slice())
        && are_gone_owners(parts.dead.as_slice(), parts.gone.as_slice())
}

/// Whether each stranded entry has one of the names as its owner.
fn are_stranded_owners(names: &[Name], entries: &[Stranded]) -> bool
    requires { spec.AreInOrder spec.ComesBefore names.now }
    ensures { IsTrue result ↔ All (λ entry. IsTrue (spec.is_among names.now entry.owner)) entries.now }
{
    entries.iter().all(|entry| is_among(names, &entry.owner))
}

/// Whether each gone entry has one of the names as its owner.
fn are_gone_owners(names: &[Name], entries: &[(Id, Name)]) -> bool
    requires { spec.AreInOrder spec.ComesBefore names.now }
    ensures { IsTrue result ↔ All (λ entry. IsTrue (spec.is_among names.now entry.1)) entries.now }
{
    entries.iter().all(|entry| is_among(names, &entry.1))
}

/// Whether a name is one of the names, found by binary search.
fn is_among(names: &[Name], name: &Name) -> bool
    requires { spec.AreInOrder spec.ComesBefore names.now }
    ensures { result ≡ spec.is_among names.now name.now }
{
    match names.get(place_for(names, name)) {
        Some(other) => other == name,
        None => false,
    }
}

/// How many of the names come before this one, found by binary search.
fn place_for(names: &[Name], name: &Name) -> usize
    requires { spec.AreInOrder spec.ComesBefore names.now }
    ensures bound { result ≤ length names.now }
    ensures place { IsPlace (λ other. other) name.now names.now result }
{
    names.partition_point(|other| is_before(other, name))
}

/// Whether no list is too long and no number too great.
fn is_within_bounds(parts: &Parts) -> bool
    ensures { IsTrue result ↔ spec.IsWithinBounds parts.now }
{
    parts.stranded.len() <= MAX_STRANDED
        && parts.live.len() <= MAX_CONSUMERS
        && parts.rates.len() <= MAX_CLASSES + 1
        && are_weights(parts.stranded.as_slice())
        && are_limits(parts.live.as_slice())
        && are_tiers(parts.live.as_slice())
        && are_class_rates(parts.live.len(), parts.rates.as_slice())
}

/// Whether the weight of each entry is in range.
fn are_weights(entries: &[Stranded]) -> bool
    ensures { IsTrue result ↔ All (λ entry. spec.IsWeight entry.weight) entries.now }
{
    entries.iter().all(|entry| is_weight(entry.weight))
}

/// Whether no limit is too great.
fn are_limits(live: &[Live]) -> bool
    ensures { IsTrue result ↔ All (λ consumer. consumer.limit ≤ most_limit) live.now }
{
    live.iter().all(|consumer| consumer.limit <= MAX_LIMIT)
}

/// Whether no soft limit is above its consumer's limit, and no fee too great.
fn are_tiers(live: &[Live]) -> bool
    ensures { IsTrue result ↔ All (λ consumer. IfSome consumer.tier (spec.IsTier consumer.limit)) live.now }
{
    live.iter().all(|consumer| consumer
        .tier
        .is_none_or(|tier| is_tier(consumer.limit, tier)))
}

/// Whether a soft limit is not above a limit, and its fee is not too great.
fn is_tier(limit: u64, tier: (u64, u64)) -> bool
    ensures { IsTrue result ↔ spec.IsTier limit tier }
{
    tier.0 <= limit && tier.1 <= MAX_FEE
}

/// Whether each class has rates, one for each consumer.
fn are_class_rates(consumers: usize, classes: &[(Name, Rates)]) -> bool
    ensures { IsTrue result ↔ All (λ class. spec.AreRates consumers class.1) classes.now }
{
    classes
        .iter()
        .all(|class| are_rates(consumers, class.1.as_slice()))
}

/// Whether a number is the weight of an entry.
fn is_weight(weight: u64) -> bool
    ensures { IsTrue result ↔ spec.IsWeight weight }
{
    1 <= weight && weight <= MAX_WEIGHT
}

/// Whether these are rates of a class, one for each consumer.
fn are_rates(consumers: usize, rates: &[Option<u64>]) -> bool
    ensures { IsTrue result ↔ spec.AreRates consumers rates.now }
{
    rates.len() == consumers && rates.iter().all(|rate| rate.is_none_or(|n| n <= MAX_RATE))
}
