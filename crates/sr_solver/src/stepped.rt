//! Problems over consumers that have some places without a fee, and further ones at a fee each.
use crate::costs::Costs;

/// What the places of a consumer cost beyond the costs of entries: the first ones nothing, each further one the fee.
#[derive(Clone, Copy)]
pub struct Step {
    /// How many places are without a fee.
    pub first: u64,
    /// What each place beyond them costs.
    pub fee: u64,
}

impl Step {
    ghost use Rattle.std.specs.Prelude.{◌≡◌};
    ghost use Rattle.sr_solver.specs.Steps.{fee_after};

    /// What the next place costs, if `load` entries have the others.
    pub fn fee_after(self, load: u64) -> u64
        ensures { result ≡ fee_after self load }
    {
        if load < self.first { 0 } else { self.fee }
    }
}

/// An answer to a problem with steps.
#[derive(Drop)]
pub enum Answer {
    /// Entry i goes to consumer `assign[i]`; the price of each consumer shows that no other assignment is cheaper.
    Placed {
        assign: Vec<usize>,
        prices: Vec<u64>,
    },
    /// There are too few places for these entries, which rise.
    Short {
        set: Vec<usize>,
    },
}

/// A transportation problem whose costs rise by a step: each consumer has a room, and of its places only the first
/// ones are without a fee.
#[derive(Drop)]
pub struct Stepped<'a> {
    /// The whole room of each consumer, and the costs without fees.
    pub columns: Costs<'a>,
    /// The step of each consumer.
    pub steps: &'a [Step],
}

impl<'a> Stepped<'a> {
    ghost use Rattle.std.specs.Prelude.{◌≡◌, ◌+◌, ◌<◌, ◌≤◌, ◌↔◌, length, IfSome, IfNone, IsTrue};
    ghost use Rattle.sr_transport.specs.{consumers};
    ghost use Rattle.sr_transport.specs.plain.Problem.{room_of};
    ghost use Rattle.sr_solver.specs.Steps.{next_fee, IsVacant};

    /// How far a price is below the fee of the next place of a consumer with `load` entries; `None` if it is full.
    pub fn gap(&self, consumer: usize, load: u64, price: u64) -> Option<u64>
        requires consumer { consumer < consumers self.now.columns }
        requires steps { length self.now.steps.now ≡ consumers self.now.columns }
        requires level { load < room_of self.now.columns consumer
            → price ≤ next_fee self.now.steps.now consumer load }
        ensures some { IfSome result (λ gap. (load < room_of self.now.columns consumer)
            × (gap + price ≡ next_fee self.now.steps.now consumer load)) }
        ensures none { IfNone result (room_of self.now.columns consumer ≤ load) }
    {
        if self.columns.room(consumer) <= load {
            return None;
        }
        Some(self.steps[consumer].fee_after(load) - price)
    }

    /// Whether a consumer with `load` entries has a place that costs its price.
    pub fn is_vacant(&self, consumer: usize, load: u64, price: u64) -> bool
        requires consumer { consumer < consumers self.now.columns }
        requires steps { length self.now.steps.now ≡ consumers self.now.columns }
        ensures { IsTrue result ↔ IsVacant self.now.columns self.now.steps.now consumer load price }
    {
        load < self.columns.room(consumer) && self.steps[consumer].fee_after(load) == price
    }
}
