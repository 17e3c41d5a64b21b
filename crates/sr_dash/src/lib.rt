//! The board of a consumer group: a line for each consumer of the group or of the policy.
#![tactic(auto)]

mod line;
mod names;
mod text;
mod write;

pub use text::board;
