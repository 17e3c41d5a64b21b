ghost use Rattle.std.specs.Prelude.{◌≡◌, ◌-◌, ◌^◌, min};
ghost use Rattle.std.specs.Duration.{as_nanos};
ghost use Rattle.sr_start.specs.Moment.{any_moment};

use sr_session::Clock;
use std::rt;
use std::sync::atomic::{AtomicU64, Ordering};
use std::time::Duration;

/// The system's clock, which does not stand still when that is set back. It tells 0 if it cannot be read.
///
/// It tells the time that has passed, and beside it the most by which the system's time was ever ahead of that. So it
/// goes forward with the system's clock, and where that is behind what was told, it goes on by the time that passes.
/// Threads share one.
#[derive(Drop)]
pub struct SystemClock<'a, R> {
    rt: &'a R,
    /// By how many nanoseconds the system's time was ahead of the time that had passed, at most.
    ahead: AtomicU64,
}

impl<'a, R> SystemClock<'a, R> {
    /// The clock of the system.
    pub fn new(rt: &'a R) -> SystemClock<'a, R> {
        SystemClock {
            rt,
            ahead: AtomicU64::new(0),
        }
    }
}

impl<'a, R: rt::Clock> Clock for SystemClock<'a, R> {
    ghost may_tell = { λ _. any_moment };

    fn now(&self) -> u64 {
        // The system's time is read first: what passes between the two readings then never counts as being ahead.
        let system = self.rt.since_1970().map_or(0, nanoseconds);
        let passed = self.rt.monotonic().map_or(0, nanoseconds);
        let now = system.saturating_sub(passed);
        let ahead = self.ahead.fetch_max(now, Ordering::SeqCst).max(now);
        if system == 0 && ahead == 0 {
            return 0;
        }
        passed.saturating_add(ahead) / NANOSECONDS
    }
}

/// How many nanoseconds a millisecond has.
const NANOSECONDS: u64 = 1_000_000;

/// The nanoseconds of a time. A number beyond `u64` is its greatest.
fn nanoseconds(time: Duration) -> u64
    ensures { result ≡ min (as_nanos time) (2 ^ 64 - 1) }
{
    u64::try_from(time.as_nanos()).unwrap_or(u64::MAX)
}
