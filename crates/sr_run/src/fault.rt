use sr_seats::{CloseFault, SeatFault};

/// Why scripts were not run to their ends. A thread that could not be started comes before a worker, and a worker
/// before the closing.
#[derive(Clone, Copy, Debug, PartialEq, Eq)]
pub enum RunFault {
    /// The number of scripts is not from 1 to 64.
    Count,
    /// A failed allocation outside of the events: the rest was not judged.
    Memory,
    /// The first script, counted from 0, of which an event was refused, and why that was.
    Worker { at: usize, fault: SeatFault },
    /// All events were carried out, and the run was not closed.
    Close(CloseFault),
    /// All events were carried out, and the run was closed, but not compared with this many of its receipts: their
    /// records are kept no longer.
    Skipped(u64),
    /// A thread could not be started.
    Thread,
}
