//! One stream: entries added with ids that rise, listed, deleted and trimmed.
#![tactic(auto)]

mod fault;
mod groups;
mod laws;
mod named;
mod places;
mod stream;

pub use fault::{AddFault, GivenFault, GroupFault};
pub use laws::given_ids;
pub use named::NamedGroup;
pub use stream::Stream;
