//! Plans for the groups of another Redis: what its replies say of a group, the snapshot that they give, the words that
//! ask it to carry out a plan, if the group is still as the snapshot shows it, and the rounds in which this is done.
#![tactic(auto)]

mod bounds;
mod conclusion;
mod consumers;
mod dead;
mod entries;
mod fault;
mod listing;
mod looked;
mod looking;
mod ranges;
mod rounds;
mod said;
mod script;
mod server;
mod snapshot;
mod spare;
mod stars;
mod words;

pub use bounds::{at_most_worse, fits_with_spare, holds_while_near, still_cheapest};
pub use conclusion::{Concluded, conclude};
pub use consumers::{look_idles, look_numbers};
pub use dead::find_dead;
pub use fault::{LiveCall, LiveFault};
pub use looked::{Asked, Claimable, Looked, Row};
pub use looking::look;
pub use rounds::{Planned, Ran, Terms, plan, run};
pub use server::shows_as_the_server;
pub use snapshot::{SnapshotFault, is_seen, number_in, snapshot_of};
pub use stars::key_for;
pub use words::{Limits, script_words};
