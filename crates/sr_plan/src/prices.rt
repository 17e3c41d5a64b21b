ghost use Rattle.std.specs.Prelude.{◌≡◌, ◌∷◌, [], ◌+◌, length, IfSome, IfNone};
ghost use Rattle.sr_check.specs.PlanAnswer.{prices_by};
ghost use Rattle.sr_plan.specs.steps.Moves.{ArePrices};

use sr_bytes::Name;
use sr_policy::Live;
use std::marker::Model;

/// The prices of a plan that are still to be read: each live consumer with those of its one or two tiers.
#[derive(Drop)]
pub struct Prices<'a> {
    live: &'a [Live],
    prices: &'a [u64],
}

impl<'a> Model for Prices<'a> {
    ghost use Rattle.std.specs.Prelude.{List, ℕ};
    ghost use Rattle.sr_check.specs.PlanAnswer.{prices_by};
    ghost use Rattle.sr_plan.specs.steps.Moves.{ArePrices};

    ghost Value = { List (List ℕ × List ℕ) };

    ghost view = { λ p. prices_by p.live.now p.prices.now };

    ghost invariant = { λ p. ArePrices p.live.now p.prices.now };
}

impl<'a> Prices<'a> {
    /// The prices of these consumers, one for each tier.
    pub(crate) fn new(live: &'a [Live], prices: &'a [u64]) -> Prices<'a>
        requires { ArePrices live.now prices.now }
        ensures { result ≡ prices_by live.now prices.now }
    {
        Prices { live, prices }
    }

    /// How many consumers are left.
    pub fn len(&self) -> usize
        ensures { result ≡ length self.now }
    {
        self.live.len()
    }

    /// The next consumer, which is then read: its name, and the prices of its tiers.
    pub fn next(&mut self) -> Option<(&'a Name, &'a [u64])>
        ensures some { IfSome result (λ own. self.old ≡ (own.0.now, own.1.now) ∷ self.new) }
        ensures none { IfNone result (self.old ≡ []) }
        ensures same { IfNone result (self.new ≡ []) }
        ensures shorter { IfSome result (λ _. length self.new + 1 ≡ length self.old) }
    {
        let (consumer, live) = self.live.split_first()?;
        let (own, prices) = self.prices.split_at(consumer.tiers());
        self.live = live;
        self.prices = prices;
        Some((&consumer.name, own))
    }
}
