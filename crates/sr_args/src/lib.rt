//! Commands: the words of a request read as the command that they write.
#![tactic(auto)]

mod call;
pub mod commands;
mod fault;
mod name;
mod names;
mod number;
mod options;
mod read;
mod reads;
mod same;
mod streams;
mod table;
mod value;

pub use call::{Call, Command, Position, Trim, TrimBy};
pub use commands::{PendingAsked, TimeAsked};
pub use fault::CallFault;
pub(crate) use name::{Measure, OptionName, Sign};
pub use names::Names;
pub(crate) use number::CountRange;
pub use read::{one_answer, read_call};
pub use reads::{ReadAsked, Streams};
pub(crate) use table::CommandName;
