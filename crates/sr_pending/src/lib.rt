//! The pending entries of a consumer group by rising id: put, moved to another owner, found, listed and removed.
#![tactic(auto)]

mod blocks;
mod closed_blocks;
mod edit;
mod firsts;
mod held;
mod nack;
mod nacks;
mod owned;
mod owner;
mod pending;
mod room;
mod run;
mod search;
mod slots;

pub use nack::Nack;
pub use nacks::Nacks;
pub use owner::Owner;
pub use pending::Pending;
