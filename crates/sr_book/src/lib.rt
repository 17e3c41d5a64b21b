//! The one-thread server, event by event, and the book of what happened to it.
#![tactic(auto)]

mod answer;
mod book;
mod checkpoint;
mod conclude;
mod due;
mod effect;
mod event;
mod kept;
mod machine;
mod record;
mod replies;
mod sent;
mod sessions;
mod watched;

pub use answer::{Answer, Letter, Status, StepFault};
pub use book::Book;
pub use checkpoint::Base;
pub use effect::{Acted, Served};
pub use event::{Act, BookFault, Event, Kind, Out};
pub use machine::Machine;
pub use record::Record;
pub use sent::Sent;
