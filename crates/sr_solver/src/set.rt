//! Sets of consumers.

/// How many consumers a set has room for.
pub const MAX_CONSUMERS: usize = 64;

/// Some of the consumers: a bit for each.
#[derive(Clone, Copy)]
pub struct ConsumerSet {
    /// The bit of consumer c is 2^c.
    pub bits: u64,
}

impl ConsumerSet {
    ghost use Rattle.std.specs.Prelude.{◌≡◌, ℕ, ◌<◌, ◌↔◌, ◌⊎◌, IfSome, IfNone, IsTrue};
    ghost use Rattle.sr_transport.specs.Limits.{most_consumers};
    ghost use Rattle.sr_solver.specs.Sets.{IsIn, IsAmong, IsWith, IsWithout};

    /// No consumer.
    pub fn none() -> ConsumerSet
        ensures { (c : ℕ) → IsIn result c → ⊥ }
    {
        ConsumerSet { bits: 0 }
    }

    /// These, and this one.
    pub fn with(self, consumer: usize) -> ConsumerSet
        requires { consumer < most_consumers }
        ensures { IsWith consumer self result }
    {
        ConsumerSet {
            bits: self.bits | (1 << consumer),
        }
    }

    /// These but for this one.
    pub fn without(self, consumer: usize) -> ConsumerSet
        requires { consumer < most_consumers }
        ensures { IsWithout consumer self result }
    {
        ConsumerSet {
            bits: self.bits & !(1 << consumer),
        }
    }

    /// These and those.
    pub fn and(self, others: ConsumerSet) -> ConsumerSet
        ensures { (c : ℕ) → IsIn result c ↔ (IsIn self c ⊎ IsIn others c) }
    {
        ConsumerSet {
            bits: self.bits | others.bits,
        }
    }

    /// These but for those.
    pub fn minus(self, others: ConsumerSet) -> ConsumerSet
        ensures { (c : ℕ) → IsIn result c ↔ (IsIn self c × (IsIn others c → ⊥)) }
    {
        ConsumerSet {
            bits: self.bits & !others.bits,
        }
    }

    /// Whether those have each of these.
    pub fn is_within(self, others: ConsumerSet) -> bool
        ensures { IsTrue result ↔ IsAmong self others }
    {
        self.bits & !others.bits == 0
    }

    /// Whether this one is among them.
    pub fn has(self, consumer: usize) -> bool
        requires { consumer < most_consumers }
        ensures { IsTrue result ↔ IsIn self consumer }
    {
        (self.bits >> consumer) & 1 == 1
    }

    /// One of them, if there is any.
    pub fn first(self) -> Option<usize>
        ensures some { IfSome result (IsIn self) }
        ensures none { IfNone result ((c : ℕ) → IsIn self c → ⊥) }
    {
        if self.bits == 0 {
            return None;
        }
        Some(self.bits.trailing_zeros() as usize)
    }
}
