//! A held book behind a lock: seats in threads of their own, a desk at a seat, and workers that run scripts.
#![tactic(auto)]

mod crew;
mod desk;
mod fault;
mod past;
mod peer;
mod shared;
mod waiting;
mod worker;
mod workers;

pub use desk::SeatDesk;
pub use fault::RunFault;
pub use shared::{Shared, Unclosed, open};
pub use sr_seats::{ActFault, CloseFault, Closed, Held, HoldFault, Receipt, Seat, SeatFault, hold};
pub use workers::{Ran, run_workers};
