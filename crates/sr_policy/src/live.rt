use crate::room::places_left;
use sr_bytes::Name;

/// A consumer that may get entries: the policy names it, and it is not dead.
#[derive(PartialEq, Eq, Drop)]
pub struct Live {
    /// Its name.
    pub name: Name,
    /// How many entries it may have pending.
    pub limit: u64,
    /// How many entries are pending for it.
    pub pending: u64,
    /// Its soft limit, and the fee of each entry beyond it, if it has one.
    pub tier: Option<(u64, u64)>,
}

impl Live {
    ghost use Rattle.std.specs.Prelude.{◌≡◌};
    ghost use Rattle.sr_policy.specs.Problem.{free_room, room_at, tier_count};

    /// How many more entries it may get.
    pub fn room(&self) -> u64
        ensures { result ≡ room_at self.now }
    {
        places_left(self.limit, self.pending)
    }

    /// How many tiers its room has: two with a soft limit, and else one.
    pub fn tiers(&self) -> usize
        ensures { result ≡ tier_count self.now }
    {
        if self.tier.is_some() { 2 } else { 1 }
    }

    /// How many of them without a fee.
    pub fn free_room(&self) -> u64
        ensures { result ≡ free_room self.now }
    {
        match self.tier {
            Some((soft, _fee)) => soft.saturating_sub(self.pending),
            None => self.room(),
        }
    }
}
