ghost use Rattle.std.specs.Prelude.{◌≡◌, ◌+◌};
ghost use Rattle.sr_seats.specs.Held.{seen_by};

use std::marker::Model;
use std::sync::ledger;
use std::sync::ledger::{Ledger, Share};

/// One of the hands that use a held book. It counts the events that it made, and keeps the greatest index that it has
/// seen.
#[derive(Drop)]
pub struct Seat<L: Ledger> {
    number: u64,
    /// How many events it stands for that were there before.
    before: u64,
    /// Its part of the ledger: those, and what it made.
    share: Share<L>,
    front: u64,
}

impl<L: Ledger> Model for Seat<L> {
    ghost use Rattle.std.specs.Prelude.{◌≡◌, ◌-◌, ◌≤◌};
    ghost use Rattle.sr_seats.specs.Held.{SeatState};

    ghost Value = { SeatState };

    ghost view = { λ s. record
        { number = s.number; before = s.before; share = s.share.amount - s.before; front = s.front } };

    ghost invariant = { λ s. (s.share.parts ≡ 1) × (s.before ≤ s.share.amount) };
}

impl<L: Ledger> Seat<L> {
    /// A seat that has made and seen nothing, with its part of the ledger.
    pub(crate) fn new(number: u64, before: u64, share: Share<L>) -> Seat<L>
        requires part { share.parts ≡ 1 }
        requires unused { share.amount ≡ before }
        ensures { result ≡ record { number = number; before = before; share = 0; front = 0 } }
    {
        Seat {
            number,
            before,
            share,
            front: 0,
        }
    }

    /// Its number.
    pub fn number(&self) -> u64
        ensures { result ≡ self.now.number }
    {
        self.number
    }

    /// How many events it stands for that were there before.
    pub(crate) fn before(&self) -> u64
        ensures { result ≡ self.now.before }
    {
        self.before
    }

    /// The greatest index that it has seen.
    pub fn front(&self) -> u64
        ensures { result ≡ self.now.front }
    {
        self.front
    }

    /// Sees the record with this index.
    pub(crate) fn see(&mut self, index: u64)
        ensures { self.new ≡ seen_by index self.old }
    {
        self.front = self.front.max(index);
    }

    /// Counts an event that it made, and has seen its record, which has this index.
    pub(crate) fn count(&mut self, made: &mut ledger::Book<L>, index: u64)
        ensures seat { self.new ≡ record {
          number = self.old.number;
          before = self.old.before;
          share = self.old.share + 1;
          front = index;
        } }
        ensures total { made.new.total ≡ made.old.total + 1 }
    {
        made.add(&mut self.share, 1);
        self.front = index;
    }

    /// Its part of the ledger.
    pub(crate) fn into_share(self) -> Share<L>
        ensures part { result.parts ≡ 1 }
        ensures amount { result.amount ≡ self.before + self.share }
    {
        let Seat {
            number: _,
            before: _,
            share,
            front: _,
        } = self;
        share
    }
}
