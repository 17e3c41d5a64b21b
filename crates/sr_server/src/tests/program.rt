// The tests of `sr_start` that no program can show: the line of each fault, since not each can be brought about, and
// what the clock tells. What the program makes of its command line, of addresses, and of readers and writers that fail
// is in tests/program.py.
use sr_start::{Fault, SystemClock, report};
use std::alloc::Global;
use std::io::{self, Error, ErrorKind};
use std::rt::Clock;
use std::sync::atomic::{AtomicU64, Ordering};
use std::time::Duration;

mod limits;
mod sockets;

/// How the program ends, and the line that it writes then.
const LINES: &[(Result<(), Fault>, &str)] = &[
    (Ok(()), ""),
    (Err(Fault::StartMemory), "start: out of memory\n"),
    (Err(Fault::NoRandomSource), "start: no random source\n"),
    (Err(Fault::NoThread), "start: no thread\n"),
    (Err(Fault::PolicyUnreadable), "policy: cannot read\n"),
    (Err(Fault::PolicyNotToml), "policy: not TOML\n"),
    (Err(Fault::PolicyShape), "policy: wrong shape\n"),
    (Err(Fault::PolicyRange), "policy: value out of range\n"),
    (Err(Fault::PolicyMemory), "policy: out of memory\n"),
    (Err(Fault::Bind), "listen: cannot bind\n"),
    (Err(Fault::Accept), "listen: accept fault\n"),
    (Err(Fault::Protocol), "session: protocol error\n"),
    (Err(Fault::Read), "session: read fault\n"),
    (Err(Fault::Write), "session: write fault\n"),
    (Err(Fault::Turns), "session: too many reads\n"),
    (Err(Fault::SessionMemory), "session: out of memory\n"),
    (Err(Fault::Desk), "session: desk fault\n"),
];

/// Whether this line is written at such an end.
fn is_said(alloc: Global, ended: Result<(), Fault>, line: &str) -> bool {
    let mut err = Vec::new(alloc);
    let _status = report(&mut err, ended);
    err.as_slice() == line.as_bytes()
}

#[test]
fn ends_have_their_lines(rt: HostRuntime) {
    for (ended, line) in LINES {
        assert!(rt; is_said(rt.alloc(), *ended, line), "at {ended:?}");
    }
}

/// A clock that tells this time or fails.
#[derive(Drop)]
struct StillClock {
    time: Option<Duration>,
}

impl Clock for StillClock {
    fn monotonic(&self) -> io::Result<Duration> {
        self.since_1970()
    }

    fn since_1970(&self) -> io::Result<Duration> {
        self.time.ok_or(Error::from(ErrorKind::Unsupported))
    }
}

#[test]
fn clock_tells_milliseconds(rt: HostRuntime) {
    let rows = [
        (
            Some(Duration::new(1_526_919_030, 474_999_999)),
            1_526_919_030_474,
        ),
        (Some(Duration::ZERO), 0),
        (None, 0),
    ];
    for (time, want) in rows {
        let told = sr_session::Clock::now(&SystemClock::new(&StillClock { time }));
        assert_eq!(rt; told, want);
    }
}

/// A clock whose times are set, in milliseconds.
#[derive(Drop)]
struct SetClock {
    system: AtomicU64,
    passed: AtomicU64,
}

impl Clock for SetClock {
    fn monotonic(&self) -> io::Result<Duration> {
        Ok(Duration::from_millis(self.passed.load(Ordering::SeqCst)))
    }

    fn since_1970(&self) -> io::Result<Duration> {
        Ok(Duration::from_millis(self.system.load(Ordering::SeqCst)))
    }
}

#[test]
fn a_clock_that_is_set_back_goes_on(rt: HostRuntime) {
    let set = SetClock {
        system: AtomicU64::new(0),
        passed: AtomicU64::new(0),
    };
    let clock = SystemClock::new(&set);
    // The system's time, the time that has passed, and what is told: from the third row on it is set back, then ahead,
    // and back again.
    let rows = [
        (1_000, 10, 1_000),
        (1_100, 110, 1_100),
        (500, 120, 1_110),
        (600, 220, 1_210),
        (2_000, 230, 2_000),
        (700, 240, 2_010),
        (5, 250, 2_020),
    ];
    for (system, passed, want) in rows {
        set.system.store(system, Ordering::SeqCst);
        set.passed.store(passed, Ordering::SeqCst);
        assert_eq!(rt; sr_session::Clock::now(&clock), want, "at {passed}");
    }
}
