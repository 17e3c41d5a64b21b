ghost use Rattle.std.specs.Prelude.{ℕ, List};
ghost use Rattle.sr_entries.specs.declared.entry.Entry as entries;
ghost use Rattle.sr_pending.specs.declared.nack.Nack as nacks;
ghost use Rattle.sr_group.specs.Claim.{IsScanned, scanned};
ghost use Rattle.sr_group.specs.declared.claim.Claim as claims;

/// Law: XAUTOCLAIM looks at pending entries up to the one with which it has taken as many as are wanted, or until it
/// has looked at ten times as many. Calling this has no effect.
///
/// Source: Redis documentation, command XAUTOCLAIM.
pub fn scans_go_no_farther()
    ensures { (claim : claims.Claim) (claimer : List ℕ) (moment : ℕ) (entries : List entries.Entry) (count : ℕ)
        (found : List nacks.Nack) → IsScanned claim claimer moment entries count found
        (scanned claim claimer moment entries count found) }
{}
