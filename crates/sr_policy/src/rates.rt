ghost use Rattle.std.specs.Prelude.{◌≡◌, ◌↔◌, IsTrue, nat_eq};
ghost use Rattle.std.specs.Cmp.Lexicographic.{pointwise};
ghost use Rattle.std.specs.Cmp.Rules.{comparing};
ghost use Rattle.std.specs.Option.{option_eq};
ghost use Rattle.std.proofs.Common.{rules};

use std::marker::Model;

/// The rate of each live consumer for a class, `None` for one that may not take it.
#[derive(Drop)]
pub struct Rates {
    list: Vec<Option<u64>>,
}

impl Model for Rates {
    ghost use Rattle.std.specs.Prelude.{List, ℕ, Option};

    ghost Value = { List (Option ℕ) };

    ghost view = { λ r. r.list.items };
}

impl Rates {
    /// These rates, in the order of the consumers. It takes no memory.
    pub fn new(list: Vec<Option<u64>>) -> Rates
        ensures { result ≡ list.items }
    {
        Rates { list }
    }

    /// The rates.
    pub fn as_slice(&self) -> &[Option<u64>]
        ensures { result.now ≡ self.now }
    {
        self.list.as_slice()
    }
}

impl PartialEq for Rates {
    ghost eq = { pointwise (option_eq nat_eq) };

    ghost laws = { Prim.search (comparing, rules) };

    fn eq(&self, other: &Rates) -> bool
        ensures value { result ≡ pointwise (option_eq nat_eq) self.now other.now }
        ensures exact { IsTrue result ↔ (self.now ≡ other.now) }
    {
        self.as_slice() == other.as_slice()
    }
}

impl Eq for Rates {
    ghost laws = { Prim.search (comparing, rules) };
}
