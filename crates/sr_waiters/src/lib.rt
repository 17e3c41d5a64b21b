//! Reads that wait for entries, in the order in which they blocked.
#![tactic(auto)]

mod index;
mod queue;
mod waiters;

pub use waiters::Waiters;
