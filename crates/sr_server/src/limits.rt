//! What the system lets the process have.

/// Where Linux tells a process its limits.
pub(crate) const LIMITS: &str = "/proc/self/limits";

/// How many files a process may have open at a time, as a text of its limits tells it (proc_pid_limits(5)): the first
/// number of its line, the soft limit. None if it has no such line, or no number there.
pub(crate) fn most_files(limits: &str) -> Option<u64> {
    for line in limits.lines() {
        if let Some(rest) = line.strip_prefix("Max open files") {
            return match rest.split_whitespace().next()?.parse::<u64>() {
                Ok(most) => Some(most),
                Err(_) => None,
            };
        }
    }
    None
}
