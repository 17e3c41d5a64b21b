//! The lines that answer the lines of the input.
use sr_book::BookFault;
use sr_hub::{Hub, TakeFault};
use std::alloc::{AllocError, Global};

/// A line of this text.
pub(crate) fn line_of(alloc: Global, text: &str) -> Result<String, AllocError> {
    format!(in alloc; "{text}\n")
}

/// The line for bytes, in hexadecimal digits after this word, or `-` for none.
pub(crate) fn bytes_line(alloc: Global, word: &str, bytes: &[u8]) -> Result<String, AllocError> {
    if bytes.is_empty() {
        return format!(in alloc; "{word} -\n");
    }
    let digits = hex::encode(alloc, bytes)?;
    format!(in alloc; "{word} {digits}\n")
}

/// The line for what a hub was asked that can be refused.
pub(crate) fn done_line(alloc: Global, done: Result<(), BookFault>) -> Result<String, AllocError> {
    match done {
        Ok(()) => line_of(alloc, "ok"),
        Err(fault) => line_of(alloc, fault_text(fault)),
    }
}

/// The line for how the connections stand, of which each has a token below this number.
///
/// Each has its token, the letter L if it was given its letter or V if a verdict is wanted, and what is to be sent.
pub(crate) fn look_line(alloc: Global, hub: &Hub, tokens: usize) -> Result<String, AllocError> {
    let mut line = String::from_str(alloc, "look")?;
    for token in 0..tokens {
        if let Some(bytes) = hub.unsent(token) {
            let digits = hex::encode(alloc, bytes)?;
            let mark = mark_of(hub, token);
            write!(line, " {token}{mark}={digits}")?;
        }
    }
    line_of(alloc, line.as_str())
}

/// Whether the connection has a letter or wants a verdict.
fn mark_of(hub: &Hub, token: usize) -> &'static str {
    if hub.has_letter(token) {
        "L"
    } else if hub.wants_verdict(token).is_some() {
        "V"
    } else {
        ""
    }
}

/// The line for the tokens below this number whose connections were given their letter.
pub(crate) fn letters_line(alloc: Global, hub: &Hub, tokens: usize) -> Result<String, AllocError> {
    let mut line = String::from_str(alloc, "letters")?;
    for token in 0..tokens {
        if hub.has_letter(token) {
            write!(line, " {token}")?;
        }
    }
    line_of(alloc, line.as_str())
}

/// The text for why the hub refused something.
pub(crate) fn fault_text(fault: BookFault) -> &'static str {
    match fault {
        BookFault::Memory => "fault Memory",
        BookFault::Busy => "fault Busy",
        BookFault::Full => "fault Full",
        BookFault::NoSession => "fault NoSession",
    }
}

/// The text for what came of a piece.
pub(crate) fn taken_text(taken: Result<(), TakeFault>) -> &'static str {
    match taken {
        Ok(()) => "ok",
        Err(TakeFault::Gone) => "fault Gone",
        Err(TakeFault::Ended) => "fault Ended",
        Err(TakeFault::Memory) => "fault Memory",
    }
}
