//! A consumer group: what was delivered last, its consumers, and the entries that are pending for them.
#![tactic(auto)]

mod claim;
mod consumer;
mod consumers;
mod deliver;
mod group;
mod laws;
mod listing;
mod moving;
mod scan;
mod show;
mod shown;

pub use claim::{Claim, ClaimTime};
pub use consumer::Consumer;
pub use group::Group;
pub use laws::scans_go_no_farther;
pub use listing::{Idle, Summary};
pub use moving::Move;
pub use shown::{Listed, ListedIter, Scan, Shown};
