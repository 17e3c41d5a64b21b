//! The command line of the server: its options as they are written, and what they ask for.
#![tactic(auto)]

mod command;
mod numbers;
mod options;
mod request;
mod way;

pub use command::{UsageFault, request_of};
pub use options::{Options, read_options};
pub use request::{Listening, Request};
pub use way::{Looping, Way, Working};
