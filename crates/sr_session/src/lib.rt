//! One connection: the requests of its bytes, each answered in turn.
#![tactic(auto)]

mod calling;
mod clock;
mod desk;
mod gate;
mod laws;
mod recovery;
mod replies;
mod request;
mod run;
mod source;

pub use calling::answer;
pub use clock::Clock;
pub use desk::{Desk, DeskFault, PlainDesk};
pub use gate::{Gate, NoGate};
pub use laws::replies_are_recorded;
pub use replies::empty;
pub use request::code_of_fault;
pub use run::{End, Ended, feed, run_session};
pub use source::{ReadFailed, ReadFrom, Source};
