use crate::{BookFault, Event, Out};
use sr_resp::Reply;

/// What an event was answered.
#[derive(Drop)]
pub struct Answer {
    /// The index of its record.
    pub index: u64,
    /// What came of it.
    pub out: Out,
    /// Whether no waiting read has an answer now. If not, memory or an index was refused; the next event tries again.
    pub settled: bool,
}

/// An event that was refused, and why.
#[derive(Drop)]
pub struct StepFault {
    /// Why it was refused.
    pub fault: BookFault,
    /// The event.
    pub event: Event,
}

/// What a session was given while it waited.
#[derive(Drop)]
pub struct Letter {
    /// The index of the record that gave it.
    pub index: u64,
    /// The session.
    pub session: u64,
    /// The reply.
    pub reply: Reply,
}

/// How a session stands.
#[derive(Clone, Copy)]
pub enum Status {
    /// It is not open.
    Closed,
    /// It is open, does not wait and has no letter.
    Idle,
    /// A read of it waits.
    Waiting,
    /// It was given something while it waited, and had no event since.
    Letter,
}
