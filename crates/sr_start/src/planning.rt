//! The plans of a loop, made by a thread beside it.
ghost use Rattle.std.specs.Prelude.{◌≡◌, ◌≤◌, ◌++◌, ◌∷◌, ◌==◌, ◌↔◌, [], length, not, filter, false};
ghost use Rattle.std.specs.Prelude.{Contains, IfSome, IsNone, IsTrue};

use crossbeam_channel::{Receiver, Sender, bounded};
use mio::Waker;
use sr_events::Planner;
use sr_hub::{Job, Planned};
use sr_plan::Verdict;
use std::alloc::{AllocError, Global};
use std::sync::Wait;

/// How many plans may be wanted at a time: one is made, and others are there when it is done. Each takes a copy of its
/// snapshot.
const MOST_JOBS: usize = 4;

/// Whoever has plans made by another thread. No call waits for one.
#[derive(Drop)]
pub(crate) struct ThreadPlanner<'a, R: Wait> {
    rt: &'a R,
    jobs: Sender<Job>,
    made: Receiver<Planned>,
    /// The sessions whose plans are wanted and were not told yet. There are at most `MOST_JOBS`, and each channel has
    /// room for as many: so no send waits.
    sessions: Vec<u64>,
    ghost few: { length sessions.items ≤ 4 },
}

/// What that thread takes jobs from, where it puts the plans, and whom it wakes then.
#[derive(Drop)]
pub(crate) struct Plans {
    jobs: Receiver<Job>,
    made: Sender<Planned>,
    waker: Waker,
}

/// Both ends: that of the loop, and that of the thread which makes its plans and wakes it.
pub(crate) fn planner<'a, R: Wait>(
    rt: &'a R,
    alloc: Global,
    waker: Waker,
) -> Result<(ThreadPlanner<'a, R>, Plans), AllocError> {
    let (jobs, wanted) = bounded(alloc, MOST_JOBS)?;
    let (done, made) = bounded(alloc, MOST_JOBS)?;
    let planner = ThreadPlanner {
        rt,
        jobs,
        made,
        sessions: Vec::with_capacity(alloc, MOST_JOBS)?,
    };
    let plans = Plans {
        jobs: wanted,
        made: done,
        waker,
    };
    Ok((planner, plans))
}

impl<'a, R: Wait> Planner for ThreadPlanner<'a, R> {
    fn plan(&mut self, job: Job) -> bool
        ensures some { IsTrue result → self.new.sessions.items ≡ self.old.sessions.items ++ job.session ∷ [] }
        ensures none { result ≡ false → self.new.sessions.items ≡ self.old.sessions.items }
        ensures full { 4 ≤ length self.old.sessions.items → result ≡ false }
    {
        if self.sessions.len() >= MOST_JOBS || self.sessions.push(job.session).is_err() {
            return false;
        }
        if self.jobs.send(self.rt, job).is_ok() {
            return true;
        }
        // The thread is gone.
        let _ = self.sessions.pop();
        false
    }

    fn is_planning(&self, session: u64) -> bool
        ensures { IsTrue result ↔ Contains self.now.sessions.items session }
    {
        self.sessions.contains(&session)
    }

    fn is_busy(&self) -> bool
        ensures { IsTrue result ↔ (4 ≤ length self.now.sessions.items) }
    {
        MOST_JOBS <= self.sessions.len()
    }

    /// While the thread is putting a further plan there, this may tell of none although one is there. The thread wakes
    /// the loop after each, so that it asks again.
    fn planned(&mut self) -> Option<Planned>
        ensures some { IfSome result (λ planned. self.new.sessions.items
            ≡ filter (λ session. not (session == planned.session)) self.old.sessions.items) }
        ensures none { IsNone result → self.new.sessions.items ≡ self.old.sessions.items }
    {
        let Ok(planned) = self.made.try_recv(self.rt) else {
            return None;
        };
        let told = planned.session;
        self.sessions.retain(|session| *session != told);
        Some(planned)
    }
}

/// Makes plans, one after another, until the loop is over.
pub(crate) fn make_plans<R: Wait>(rt: &R, alloc: Global, plans: Plans) {
    let Plans { jobs, made, waker } = plans;
    for job in jobs.iter(rt) {
        if made.send(rt, plan_of(alloc, job)).is_err() {
            return;
        }
        // Without it the loop hears of the plan when it is woken next.
        let _ = waker.wake();
    }
}

/// What comes of a job.
fn plan_of(alloc: Global, job: Job) -> Planned {
    let Job {
        token,
        session,
        snapshot,
    } = job;
    let verdict = match Verdict::make(alloc, snapshot) {
        Ok(verdict) => Some(verdict),
        Err(AllocError) => None,
    };
    Planned {
        token,
        session,
        verdict,
    }
}
