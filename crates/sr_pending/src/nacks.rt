ghost use Rattle.std.specs.Prelude.{◌≡◌, [], ◌∷◌, IfSome, IfNone};
ghost use Rattle.sr_pending.specs.Pending.{first_of};
ghost use Rattle.sr_pending.specs.steps.Slots.{AreTaken, nacks_at};

use crate::Nack;
use crate::run::Run;
use crate::slots::entry;
use slab::Slab;
use std::marker::Model;

/// Pending entries in rising order, looked at where they lie.
#[derive(Drop)]
pub struct Nacks<'a> {
    listed: Listed<'a>,
    left: Option<u64>,
}

impl<'a> Model for Nacks<'a> {
    ghost use Rattle.std.specs.Prelude.{List};
    ghost use Rattle.sr_pending.specs.declared.nack.Nack.{Nack};
    ghost use Rattle.sr_pending.specs.Pending.{first_of};

    ghost Value = { List Nack };

    ghost view = { λ n. first_of n.left n.listed };
}

impl<'a> Nacks<'a> {
    /// At most `count` of the entries in these slots, each of which has one.
    pub(crate) fn new(slab: &'a Slab<Nack>, slots: Run<'a, usize>, count: Option<u64>) -> Nacks<'a>
        requires { AreTaken slab.now slots }
        ensures { result ≡ first_of count (nacks_at slab.now slots.entry) }
    {
        Nacks {
            listed: Listed { slab, slots },
            left: count,
        }
    }

    /// The next entry. None if there is no other.
    pub fn next(&mut self) -> Option<&'a Nack>
        ensures some { IfSome result (λ nack. self.old ≡ nack.now ∷ self.new) }
        ensures none { IfNone result (self.old ≡ []) }
        ensures ended { IfNone result (self.new ≡ []) }
    {
        match self.left {
            None => self.listed.next(),
            Some(0) => None,
            Some(n) => {
                self.left = Some(n - 1);
                self.listed.next()
            }
        }
    }

    /// The same entries, to be looked at a second time.
    pub fn again(&self) -> Nacks<'a>
        ensures { result ≡ self.now }
    {
        Nacks {
            listed: self.listed.again(),
            left: self.left,
        }
    }
}

/// The entries in these slots.
#[derive(Drop)]
struct Listed<'a> {
    slab: &'a Slab<Nack>,
    slots: Run<'a, usize>,
}

impl<'a> Model for Listed<'a> {
    ghost use Rattle.std.specs.Prelude.{List};
    ghost use Rattle.sr_pending.specs.declared.nack.Nack.{Nack};
    ghost use Rattle.sr_pending.specs.steps.Slots.{AreTaken, nacks_at};

    ghost Value = { List Nack };

    ghost view = { λ l. nacks_at l.slab.now l.slots };

    ghost invariant = { λ l. AreTaken l.slab.now l.slots };
}

impl<'a> Listed<'a> {
    /// The next entry. None if there is no other.
    fn next(&mut self) -> Option<&'a Nack>
        ensures some { IfSome result (λ nack. self.old ≡ nack.now ∷ self.new) }
        ensures none { IfNone result (self.old ≡ []) }
        ensures ended { IfNone result (self.new ≡ []) }
    {
        let slot = *self.slots.next()?;
        Some(entry(self.slab, slot))
    }

    /// The same entries once more.
    fn again(&self) -> Listed<'a>
        ensures { result ≡ self.now }
    {
        Listed {
            slab: self.slab,
            slots: self.slots.again(),
        }
    }
}
