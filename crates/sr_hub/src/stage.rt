use crate::shelf::KeptSnapshot;
use sr_args::Names;
use sr_bytes::Name;

/// What RECOVER.PLAN or RECOVER.RUN asks for.
#[derive(Drop)]
pub struct Recovery {
    /// Whether its plan is carried out.
    pub apply: bool,
    /// How many rounds it may make. One it may always.
    pub tries: u64,
    /// The key of the stream.
    pub key: Name,
    /// The name of the group.
    pub group: Name,
    /// The consumers that are dead, as they were named.
    pub dead: Names,
}

/// A recovery between two of its rounds.
#[derive(Drop)]
pub struct Judging {
    /// Whether its plan is carried out.
    pub apply: bool,
    /// How many rounds it may make after the next one.
    pub later: u64,
    /// The snapshot on which the next verdict is to be made.
    pub snapshot: KeptSnapshot,
}

/// What a connection is doing.
#[derive(Drop)]
pub enum Stage {
    /// It can take the next request.
    Idle,
    /// Its call waits, or was given its reply while it waited.
    Waiting,
    /// It asks for a recovery, which is not begun yet.
    Asks(Box<Recovery>),
    /// A verdict is wanted for its recovery.
    Judges(Judging),
    /// Its bytes are not requests, and it was told so.
    Broken,
    /// Memory was refused for its bytes or for a reply: it gets no more replies.
    CutOff,
}
