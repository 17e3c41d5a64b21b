//! Whether tiers are those of consumers: one or two for each, one after the other.
ghost use Rattle.std.specs.Prelude.{◌≡◌, ℕ, ◌<◌, ◌≤◌, ◌↔◌, length, IsTrue};
ghost use Rattle.sr_transport.specs.Problem.{AreTiers, HasFirst, IsOneOfTwo, first_in, tier_at};

use crate::problem::Tier;

/// Whether each consumer has one or two tiers, one after the other, in the order of the consumers, and the first
/// without a fee.
pub(crate) fn are_tiers(tiers: &[Tier], consumers: usize) -> bool
    ensures { IsTrue result ↔ AreTiers consumers tiers.now }
{
    have_first(tiers, consumers) && are_near(tiers, consumers)
}

/// Whether each consumer has a first tier.
fn have_first(tiers: &[Tier], consumers: usize) -> bool
    ensures { IsTrue result ↔ ((c : ℕ) → c < consumers → HasFirst tiers.now c) }
{
    for consumer in 0..consumers {
        if !has_first(tiers, consumer) {
            return false;
        }
    }
    true
}

/// Whether a consumer has a first tier, which is without a fee.
fn has_first(tiers: &[Tier], consumer: usize) -> bool
    ensures { IsTrue result ↔ HasFirst tiers.now consumer }
{
    match tiers.get(first_in(tiers, consumer)) {
        Some(tier) => tier.consumer == consumer && tier.fee == 0,
        None => false,
    }
}

/// Whether each tier is the first of a consumer or the next one.
fn are_near(tiers: &[Tier], consumers: usize) -> bool
    ensures { IsTrue result ↔ ((t : ℕ) → t < length tiers.now → IsOneOfTwo consumers tiers.now t) }
{
    for (number, tier) in tiers.iter().enumerate() {
        if !is_one_of_two(tiers, consumers, number, *tier) {
            return false;
        }
    }
    true
}

/// Whether the tier with this number is the first of a consumer or the next one.
fn is_one_of_two(tiers: &[Tier], consumers: usize, number: usize, tier: Tier) -> bool
    requires { tier_at tiers.now number ≡ tier }
    ensures { IsTrue result ↔ IsOneOfTwo consumers tiers.now number }
{
    let first = first_in(tiers, tier.consumer);
    tier.consumer < consumers && (number == first || number == first + 1)
}

/// Where the tiers of a consumer begin: how many tiers are those of consumers before it.
pub(crate) fn first_in(tiers: &[Tier], consumer: usize) -> usize
    ensures value { result ≡ first_in tiers.now consumer }
    ensures within { result ≤ length tiers.now }
{
    tiers.iter().filter(|tier| tier.consumer < consumer).count()
}
