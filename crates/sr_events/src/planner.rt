ghost use Rattle.std.specs.Prelude.{◌≡◌, None, false};

use sr_hub::{Job, Planned};

/// Whoever makes the plans that take long.
pub trait Planner {
    /// Has a plan made, of which `planned` tells once it is made. Answers whether it will be.
    fn plan(&mut self, job: Job) -> bool;

    /// Whether a plan is made for a session, and was not told yet.
    fn is_planning(&self, session: u64) -> bool;

    /// Whether as many plans are wanted as may be at a time.
    fn is_busy(&self) -> bool;

    /// What came of a job, if there is one that is done and was not told yet.
    fn planned(&mut self) -> Option<Planned>;
}

/// Nobody: the loop makes each plan itself.
#[derive(Debug, Drop)]
pub struct NoPlanner;

impl Planner for NoPlanner {
    fn plan(&mut self, _job: Job) -> bool
        ensures { result ≡ false }
    {
        false
    }

    fn is_planning(&self, _session: u64) -> bool
        ensures { result ≡ false }
    {
        false
    }

    fn is_busy(&self) -> bool
        ensures { result ≡ false }
    {
        false
    }

    fn planned(&mut self) -> Option<Planned>
        ensures { result ≡ None }
    {
        None
    }
}
