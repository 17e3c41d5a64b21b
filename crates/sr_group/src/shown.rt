ghost use Rattle.std.specs.Prelude.{◌≡◌, [], ◌∷◌};
ghost use Rattle.sr_group.specs.Shown.{listed_of};

use sr_bytes::Name;
use sr_ids::Id;
use sr_pending::Nack;
use std::marker::Model;

/// An entry that a call shows.
#[derive(Clone, Copy)]
pub struct Listed {
    pub id: Id,
    /// Whether the stream has it.
    pub found: bool,
}

/// What a call does to a pending entry.
#[derive(Drop)]
pub(crate) enum Act {
    /// It is pending for its owner, whoever had it before.
    Give(Nack),
    /// It was delivered to its owner once more.
    Touch { id: Id, time: u64, count: u64 },
    /// It is pending no longer, since the stream has it no longer.
    Forget(Id),
    /// It stays as it is, and is listed.
    Only(Listed),
}

/// What a call of a consumer replies, and what it will change in its group. `Group::show` changes it.
#[derive(Drop)]
pub struct Shown {
    pub(crate) consumer: Name,
    pub(crate) moment: u64,
    pub(crate) last: Id,
    pub(crate) acts: Vec<Act>,
}

impl Model for Shown {
    ghost use Rattle.sr_group.specs.Shown.{ShownState};
    ghost use Rattle.sr_group.specs.steps.Showing.{IsShowable};

    ghost Value = { ShownState };

    ghost view = { λ s. record { consumer = s.consumer; moment = s.moment; last = s.last; acts = s.acts.items } };

    ghost invariant = { λ s. IsShowable
        (record { consumer = s.consumer; moment = s.moment; last = s.last; acts = s.acts.items }) };
}

impl Shown {
    ghost use Rattle.std.specs.Prelude.{◌≡◌};
    ghost use Rattle.sr_group.specs.Shown.{listed_of};

    /// What it lists, in order.
    pub fn listed(&self) -> ListedIter<'_>
        ensures { result ≡ listed_of self.now.acts }
    {
        ListedIter {
            rest: self.acts.as_slice(),
        }
    }
}

/// The entries that a call shows, in order.
#[derive(Drop)]
pub struct ListedIter<'a> {
    rest: &'a [Act],
}

impl<'a> Model for ListedIter<'a> {
    ghost use Rattle.std.specs.Prelude.{List};
    ghost use Rattle.sr_group.specs.declared.shown.Listed.{Listed};
    ghost use Rattle.sr_group.specs.Shown.{listed_of};

    ghost Value = { List Listed };

    ghost view = { λ l. listed_of l.rest.now };
}

impl<'a> ListedIter<'a> {
    ghost use Rattle.std.specs.Prelude.{◌≡◌, [], ◌∷◌, length, IfSome, IfNone};

    /// How many entries are left.
    pub fn len(&self) -> usize
        ensures { result ≡ length self.now }
    {
        self.rest.len()
    }

    /// The next entry. None if there is no other.
    pub fn next(&mut self) -> Option<Listed>
        ensures some { IfSome result (λ listed. self.old ≡ listed ∷ self.new) }
        ensures none { IfNone result (self.old ≡ []) }
        ensures ended { IfNone result (self.new ≡ []) }
    {
        let (act, rest) = self.rest.split_first()?;
        self.rest = rest;
        Some(listed_by(act))
    }
}

/// What an act lists.
fn listed_by(act: &Act) -> Listed
    ensures { listed_of (act.now ∷ []) ≡ result ∷ [] }
{
    match act {
        Act::Give(nack) => Listed {
            id: nack.id,
            found: true,
        },
        Act::Touch { id, .. } => Listed {
            id: *id,
            found: true,
        },
        Act::Forget(id) => Listed {
            id: *id,
            found: false,
        },
        Act::Only(listed) => *listed,
    }
}

/// What a scan of pending entries found.
#[derive(Drop)]
pub struct Scan {
    pub shown: Shown,
    /// The first pending id behind the scanned ones, or 0-0.
    pub next: Id,
}
