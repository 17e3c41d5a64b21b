//! The RESP2 replies of another server, read as they arrive, and requests spelled to it.
#![tactic(auto)]

mod answers;
mod first;
mod line;
mod number;
mod part;
mod peer;
mod reply_parts;
mod request;
#[cfg(test)]
mod tests;

pub use answers::{Answers, MOST_BYTES, TakeFault};
pub use part::Part;
pub use peer::{Peer, PeerFault, ask};
pub use reply_parts::Parts;
pub use request::{append_header, append_number, append_word, requests_are_read};
