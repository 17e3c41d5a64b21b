//! One book, and the connections of an event loop: each gets the replies that the book's records address to its
//! session.
#![tactic(auto)]

mod answering;
mod bookkeeping;
mod connection;
mod copy;
mod hub;
mod keeper;
mod laws;
mod letters;
mod past;
mod placed;
mod plans;
mod rounds;
mod serve;
mod shelf;
mod sockets;
mod stage;
mod unsent;
mod usage;
mod watch;

pub use connection::Connection;
pub use hub::{Hub, TakeFault};
pub use keeper::Habits;
pub use laws::lines_pass;
pub use serve::serve_sockets;
pub use sockets::{Heard, Job, Planned, Sockets};
pub use stage::{Judging, Recovery, Stage};
