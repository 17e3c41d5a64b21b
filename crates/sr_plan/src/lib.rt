//! The verdict on a snapshot: a cheapest plan with prices that show it, or a shortage that shows that there is none.
#![tactic(auto)]

mod batch;
mod batches;
mod calls;
mod moves;
mod prices;
mod reply;
mod verdict;

pub use batch::Batch;
pub use moves::{Moves, Shortage};
pub use prices::Prices;
pub use verdict::Verdict;
