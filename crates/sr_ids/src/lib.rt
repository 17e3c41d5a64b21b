//! Entry ids: parsed from the words of a command, generated for new entries, and printed as in replies.
#![tactic(auto)]

mod id;
mod ids;
mod next;
mod parse;
mod spec;
mod write;

pub use id::Id;
pub use ids::Ids;
pub use next::{IdFault, next_auto, next_in, succ};
pub use parse::{one_reading, parse_end, parse_spec, parse_start, parse_strict};
pub use spec::Spec;
pub use write::write_id;
