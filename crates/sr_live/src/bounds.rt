ghost use Rattle.std.specs.Prelude.{◌≡◌, ◌↔◌, ◌+◌, ◌≤◌, ℕ, List};
ghost use Rattle.sr_transport.specs.Assignment.{IsAssignment, total_of};
ghost use Rattle.sr_policy.specs.{SnapshotState, problem_of};
ghost use Rattle.sr_policy.specs.Snapshot.{IsSnapshot};
ghost use Rattle.sr_check.specs.{IsShown, best};
ghost use Rattle.sr_check.specs.PlanAnswer.{moves_of, prices_by};
ghost use Rattle.sr_live.specs.Bounds.{Fits, HaveRoom, IsSameWork, free_loads, gap_of};
ghost use Rattle.sr_live.specs.Near.{AreNear};
ghost use Rattle.sr_live.specs.Spare.{with_spare, worth_of};

/// Law: while the work is the same and as many entries of each consumer are without a fee, a plan stays a cheapest one,
/// shown by the same prices, exactly if each consumer that is given something has room for it and each tier with a
/// price is still filled. Calling this has no effect.
pub fn still_cheapest()
    ensures { (old now : SnapshotState) (assign prices : List ℕ) (total : ℕ) → IsSnapshot old
        → IsSameWork old now → free_loads assign 0 old.live ≡ free_loads assign 0 now.live
        → IsShown (problem_of old) (best assign prices total)
        → ((HaveRoom assign 0 now.live × (gap_of now assign prices ≡ 0))
        ↔ IsShown (problem_of now) (best assign prices total)) }
{}

/// Law: a cheapest plan that fits a later moment can be carried out then at the same total, and no plan at that moment
/// is cheaper by more than the gap. Calling this has no effect.
pub fn at_most_worse()
    ensures { (old now : SnapshotState) (assign prices : List ℕ) (total : ℕ)
        → IsShown (problem_of old) (best assign prices total) → Fits old now assign
        → IsAssignment (problem_of now) assign × (total ≡ total_of (problem_of now) assign)
        × ((other : List ℕ) → IsAssignment (problem_of now) other
        → total ≤ total_of (problem_of now) other + gap_of now assign prices) }
{}

/// Law: a plan within lower limits fits the limits as they are. Calling this has no effect.
pub fn fits_with_spare()
    ensures { (spare : ℕ) (shown : SnapshotState) (assign prices : List ℕ) (total : ℕ)
        → IsSnapshot (with_spare spare shown)
        → IsShown (problem_of (with_spare spare shown)) (best assign prices total)
        → Fits (with_spare spare shown) shown assign }
{}

/// Law: such a plan has room, at a gap of at most what the free places may come to be worth, while no consumer has more
/// entries more or fewer than places were left free. Calling this has no effect.
pub fn holds_while_near()
    ensures { (spare : ℕ) (old now : SnapshotState) (assign prices : List ℕ) (total : ℕ)
        → IsSnapshot (with_spare spare old)
        → IsShown (problem_of (with_spare spare old)) (best assign prices total)
        → AreNear spare old.live now.live
        → HaveRoom assign 0 now.live × (gap_of now assign prices
        ≤ worth_of spare (moves_of (with_spare spare old) assign) old.live
        (prices_by (with_spare spare old).live prices)) }
{}
