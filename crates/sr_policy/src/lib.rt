//! Who may take a dead consumer's entries, and at what cost: the policy that an operator writes, the snapshot of a
//! group under it, and the transportation problem of that snapshot.
#![tactic(auto)]

mod bounds;
mod costs;
mod equal;
mod file;
mod live;
mod numbers;
mod order;
mod policy;
mod range;
mod rates;
mod room;
mod rows;
mod shape;
mod snapshot;
mod snapshot_rules;
mod stranded;
mod table;
mod weight;

pub use costs::problem;
pub use file::PolicyFault;
pub use live::Live;
pub use order::is_before;
pub use policy::Policy;
pub use rates::Rates;
pub use room::places_left;
pub use snapshot::Snapshot;
pub use stranded::Stranded;
pub use weight::weight_of;
