ghost use Rattle.std.specs.Prelude.{◌≡◌, ◌∷◌, [], ◌<◌, ◌+◌, All, length, map, IfSome, IfNone};
ghost use Rattle.std.specs.List.{zip};
ghost use Rattle.sr_plan.specs.Verdict.{name_at, id_at};

use sr_bytes::Name;
use sr_ids::Id;
use sr_policy::{Live, Stranded};
use std::marker::Model;

/// The moves of a plan that are still to be read: each stranded entry with the consumer that it goes to, by id.
#[derive(Drop)]
pub struct Moves<'a> {
    stranded: &'a [Stranded],
    assign: &'a [usize],
    live: &'a [Live],
}

impl<'a> Model for Moves<'a> {
    ghost use Rattle.std.specs.Prelude.{◌≡◌, ◌<◌, List, ℕ, All, length, map};
    ghost use Rattle.std.specs.List.{zip};
    ghost use Rattle.sr_ids.specs.declared.id.Id as ids;
    ghost use Rattle.sr_plan.specs.Verdict.{name_at};
    ghost use Rattle.sr_plan.specs.steps.Moves.{AreMoves};

    ghost Value = { List (ids.Id × List ℕ) };

    ghost view = { λ m. zip (map (λ entry. entry.id) m.stranded.now) (map (name_at m.live.now) m.assign.now) };

    ghost invariant = { λ m. AreMoves m.stranded.now m.assign.now m.live.now };
}

impl<'a> Moves<'a> {
    /// The moves of these entries, each to the live consumer with its number.
    pub(crate) fn new(stranded: &'a [Stranded], assign: &'a [usize], live: &'a [Live]) -> Moves<'a>
        requires each { length assign.now ≡ length stranded.now }
        requires consumers { All (λ c. c < length live.now) assign.now }
        ensures { result ≡ zip (map (λ entry. entry.id) stranded.now) (map (name_at live.now) assign.now) }
    {
        Moves {
            stranded,
            assign,
            live,
        }
    }

    /// How many moves are left.
    pub fn len(&self) -> usize
        ensures { result ≡ length self.now }
    {
        self.stranded.len()
    }

    /// The next move, which is then read: the entry's id, and the consumer that it goes to.
    pub fn next(&mut self) -> Option<(Id, &'a Name)>
        ensures some { IfSome result (λ move. self.old ≡ (move.0, move.1.now) ∷ self.new) }
        ensures none { IfNone result (self.old ≡ []) }
        ensures same { IfNone result (self.new ≡ []) }
        ensures shorter { IfSome result (λ _. length self.new + 1 ≡ length self.old) }
    {
        let (entry, stranded) = self.stranded.split_first()?;
        let (number, assign) = self.assign.split_first()?;
        let consumer = &self.live[*number];
        self.stranded = stranded;
        self.assign = assign;
        Some((entry.id, &consumer.name))
    }
}

/// The ids of the entries of a shortage that are still to be read, in their order.
#[derive(Drop)]
pub struct Shortage<'a> {
    set: &'a [usize],
    stranded: &'a [Stranded],
}

impl<'a> Model for Shortage<'a> {
    ghost use Rattle.std.specs.Prelude.{◌<◌, List, All, length, map};
    ghost use Rattle.sr_ids.specs.declared.id.Id as ids;
    ghost use Rattle.sr_plan.specs.Verdict.{id_at};

    ghost Value = { List ids.Id };

    ghost view = { λ s. map (id_at s.stranded.now) s.set.now };

    ghost invariant = { λ s. All (λ i. i < length s.stranded.now) s.set.now };
}

impl<'a> Shortage<'a> {
    /// The ids of the stranded entries with these numbers.
    pub(crate) fn new(set: &'a [usize], stranded: &'a [Stranded]) -> Shortage<'a>
        requires { All (λ i. i < length stranded.now) set.now }
        ensures { result ≡ map (id_at stranded.now) set.now }
    {
        Shortage { set, stranded }
    }

    /// How many entries are left.
    pub fn len(&self) -> usize
        ensures { result ≡ length self.now }
    {
        self.set.len()
    }

    /// The id of the next entry, which is then read.
    pub fn next(&mut self) -> Option<Id>
        ensures some { IfSome result (λ id. self.old ≡ id ∷ self.new) }
        ensures none { IfNone result (self.old ≡ []) }
        ensures same { IfNone result (self.new ≡ []) }
        ensures shorter { IfSome result (λ _. length self.new + 1 ≡ length self.old) }
    {
        let (number, set) = self.set.split_first()?;
        let entry = &self.stranded[*number];
        self.set = set;
        Some(entry.id)
    }
}
