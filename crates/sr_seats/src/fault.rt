use sr_book::Event;

/// Why a seat's call was not carried out. The first that holds is told: regress, no session, busy or idle, full,
/// memory.
#[derive(Clone, Copy, Debug, PartialEq, Eq)]
pub enum SeatFault {
    /// The last index of the book, which is below one that the seat has seen.
    Regress { index: u64 },
    /// The session is not open.
    NoSession,
    /// The session waits.
    Busy,
    /// No index is left for a record.
    Full,
    /// A failed allocation.
    Memory,
    /// The session neither waits nor has a letter.
    Idle,
}

/// An event that was not carried out, and why.
#[derive(Drop)]
pub struct ActFault {
    /// Why it was not.
    pub fault: SeatFault,
    /// The event.
    pub event: Event,
}

/// Why a book was not held.
#[derive(Clone, Copy, Debug, PartialEq, Eq)]
pub enum HoldFault {
    /// The number of seats is not from 1 to 65.
    Count,
    /// A failed allocation.
    Memory,
}

/// Why a run was not closed. The first that holds is told: short; then receipt by receipt, in their order, strange or
/// else mismatch; then letter by letter stray.
#[derive(Clone, Copy, Debug, PartialEq, Eq)]
pub enum CloseFault {
    /// A seat is missing.
    Short,
    /// A receipt, counted from 0, of a record that there is not, that an earlier receipt has, or that does not come
    /// after those of its seat's earlier receipts.
    Strange { at: usize },
    /// A receipt, counted from 0, of another session, call or outcome than its record.
    Mismatch { at: usize },
    /// A letter, counted from 0, whose record is not there or holds no such reply to its session.
    Stray { at: usize },
    /// A failed allocation: the rest was not judged.
    Memory,
}
