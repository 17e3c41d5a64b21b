//! A book that several hands use, one at a time: each counts what it made, and none is shown less than it has seen.
#![tactic(auto)]

mod audit;
mod closing;
mod fault;
mod held;
mod receipt;
mod seat;
mod seating;

pub use closing::Closed;
pub use fault::{ActFault, CloseFault, HoldFault, SeatFault};
pub use held::Held;
pub use receipt::Receipt;
pub use seat::Seat;
pub use seating::hold;
