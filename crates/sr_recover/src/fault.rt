//! What went wrong. Its text is the line on standard error.
use crate::errors::{call_text, told};
use sr_live::{LiveCall, LiveFault};
use sr_peer::PeerFault;
use std::alloc::{AllocError, AllocFailed, Global};
use std::io;
use std::io::ErrorKind;
use thiserror::Error;

#[derive(Debug, Drop, Error)]
pub(crate) enum Fault {
    #[error("error: out of memory")]
    Memory,
    #[error("error: the command line is not UTF-8")]
    Words,
    #[error("error: {0}")]
    Asked(&'static str),
    #[error("error: {0}: {1}")]
    Named(&'static str, &'static str),
    #[error("{0}")]
    Usage(String),
    #[error("help")]
    Help(String),
    #[error("error: cannot open /dev/null, which replaces a standard stream that is closed: {0}")]
    Standard(String),
    #[error("{0}: cannot read the file {1}: {2}")]
    Unreadable(&'static str, String, String),
    #[error("{0}: cannot write the file {1}: {2}")]
    Unwritable(&'static str, String, String),
    #[error("policy: {0}")]
    Policy(String),
    #[error("redis: cannot find the host {0}: {1}. Is its name right?")]
    Host(String, String),
    #[error("redis: cannot connect to {0}: {1}{2}")]
    Connect(String, String, &'static str),
    #[error("redis: the user's name or the password is refused: {0}")]
    Auth(String),
    #[error("sentinel {0}")]
    Sentinel(String),
    #[error("redis: moved from node to node too often")]
    Moves,
    #[error("redis: the key is on another node: {0}")]
    Moved(String),
    #[error("redis: the key is on another node, whose name is not a host and a port: {0}. See CLUSTER NODES")]
    Node(String),
    #[error("redis: {0} is answered with an error: {1}{2}")]
    ErrorReply(&'static str, String, &'static str),
    #[error("redis: {0} is answered with a reply of another shape")]
    Shape(&'static str),
    #[error("redis: {0}")]
    Peer(&'static str),
    #[error("redis: a reply is too long")]
    TooLong,
    #[error("redis: the plan was sent, and what came of it is not known: {0}. Plan again to see what is left")]
    Unknown(&'static str),
    #[error("redis: the plan was sent, and what came of it is not known: {0}. Plan again to see what is left")]
    UnknownError(String),
    #[error("group: too many entries: 100,000 are looked at at most, and without --at-most 4,096 may be stranded")]
    TooMany,
    #[error("group: too few places with --spare")]
    NoSpare,
    #[error("group: it changed while it was looked at: try again")]
    Changed,
    #[error("output: a write failed")]
    Output,
    #[error("output: a write failed, and the plan was carried out")]
    OutputOfDone,
}

impl Fault {
    /// The status that the program ends with.
    pub(crate) fn code(&self) -> u8 {
        match self {
            Fault::Help(_) => 0,
            Fault::Words | Fault::Asked(_) | Fault::Named(..) | Fault::Usage(_) => 2,
            Fault::Unwritable(..) => 2,
            Fault::Changed => 4,
            Fault::Unknown(_) | Fault::UnknownError(..) => 5,
            _ => 1,
        }
    }
}

impl From<AllocError> for Fault {
    fn from(_: AllocError) -> Fault {
        Fault::Memory
    }
}

impl<T: Drop> From<AllocFailed<T>> for Fault {
    fn from(_: AllocFailed<T>) -> Fault {
        Fault::Memory
    }
}

/// What it is to the user that no file could take the place of a standard one that is closed.
pub(crate) fn standard_fault(alloc: Global, error: io::Error) -> Fault {
    match why(alloc, &error) {
        Ok(why) => Fault::Standard(why),
        Err(_) => Fault::Memory,
    }
}

/// What it is to the user that a file at this path cannot be read.
pub(crate) fn unreadable(alloc: Global, what: &'static str, path: &str, error: io::Error) -> Fault {
    match told_of_file(alloc, path, error) {
        Ok((path, why)) => Fault::Unreadable(what, path, why),
        Err(fault) => fault,
    }
}

/// What it is to the user that a file at this path cannot be written.
pub(crate) fn unwritable(alloc: Global, what: &'static str, path: &str, error: io::Error) -> Fault {
    match told_of_file(alloc, path, error) {
        Ok((path, why)) => Fault::Unwritable(what, path, why),
        Err(fault) => fault,
    }
}

/// What is told of a file: its path, and why it cannot be used.
fn told_of_file(alloc: Global, path: &str, error: io::Error) -> Result<(String, String), Fault> {
    if error.kind() == ErrorKind::OutOfMemory {
        return Err(Fault::Memory);
    }
    let why = why(alloc, &error)?;
    Ok((text_of(alloc, path.as_bytes())?, why))
}

/// Why the system refused something, in its words.
pub(crate) fn why(alloc: Global, error: &io::Error) -> Result<String, AllocError> {
    format!(in alloc; "{error}")
}

/// What a fault of a live plan is to the user. The last script was called by this word.
pub(crate) fn live_fault(alloc: Global, fault: LiveFault, script: &'static str) -> Fault {
    match fault {
        LiveFault::Memory => Fault::Memory,
        LiveFault::Peer(fault) => peer_fault(fault),
        LiveFault::ErrorReply(call, text) => told(alloc, call, script, text.as_slice()),
        // A script that was answered so may have run.
        LiveFault::Shape(LiveCall::Script) => Fault::Unknown("the answer has another shape"),
        LiveFault::Shape(call) => Fault::Shape(call_text(call)),
        LiveFault::TooMany => Fault::TooMany,
        LiveFault::Changed => Fault::Changed,
        LiveFault::Unfit => Fault::Unknown("the answer does not fit the plan"),
        LiveFault::Unknown(fault) => Fault::Unknown(peer_text(fault)),
    }
}

/// What a fault of the connection is to the user.
pub(crate) fn peer_fault(fault: PeerFault) -> Fault {
    match fault {
        PeerFault::Memory => Fault::Memory,
        PeerFault::TooLong => Fault::TooLong,
        _ => Fault::Peer(peer_text(fault)),
    }
}

/// What happened to the connection.
pub(crate) fn peer_text(fault: PeerFault) -> &'static str {
    match fault {
        PeerFault::Memory => "out of memory",
        PeerFault::Closed => "it closed the connection",
        PeerFault::Silent => "no answer in time (--timeout)",
        PeerFault::Failed => "a read or a write failed",
        PeerFault::Malformed => "what it sends is no reply of RESP2",
        PeerFault::TooLong => "a reply is too long",
    }
}

/// The bytes as text: each byte that is not of ASCII's printable ones as `?`.
pub(crate) fn text_of(alloc: Global, bytes: &[u8]) -> Result<String, AllocError> {
    let mut text = String::new(alloc);
    for byte in bytes {
        let shown = if *byte >= b' ' && *byte < 127 {
            *byte
        } else {
            b'?'
        };
        text.push(shown as char)?;
    }
    Ok(text)
}
