ghost use Rattle.std.specs.Prelude.{◌≡◌};
ghost use Rattle.sr_policy.specs.Snapshot.{places_left as room};

/// How many more entries may become pending for a consumer with this limit: none if it has more than that already.
pub fn places_left(limit: u64, pending: u64) -> u64
    ensures { result ≡ room limit pending }
{
    limit.saturating_sub(pending)
}
