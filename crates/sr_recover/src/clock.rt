//! The time, as far as it can be read.
use std::rt::Clock;

/// The milliseconds of a clock that is never set.
pub(crate) fn millis(rt: &HostRuntime) -> u64 {
    match rt.monotonic() {
        Ok(time) => u64::try_from(time.as_millis()).unwrap_or(u64::MAX),
        Err(_) => 0,
    }
}

/// The seconds since 1970, by the system's clock; 0 if it cannot be read.
pub(crate) fn seconds(rt: &HostRuntime) -> u64 {
    match rt.since_1970() {
        Ok(time) => time.as_secs(),
        Err(_) => 0,
    }
}
