//! The server as a function of its command line, files, network, reader and writers: the status that it ends with. And
//! the serving of a listener's connections over one book: each from one of several threads, while a timer answers the
//! reads that have waited for long enough, or all by one loop.
#![tactic(auto)]

mod clock;
mod counting;
mod fault;
mod limits;
mod listen;
mod load;
mod looping;
mod network;
mod opening;
mod planning;
mod program;
mod serving;
mod status;
mod text_files;

pub use clock::SystemClock;
pub use fault::{Fault, outcome};
pub use listen::{KEEPS_ALL, WARNING};
pub use looping::{LoopServing, Polled, serve_loop};
pub use network::{Begun, Bound, ListenFault, Network};
pub use program::start;
pub use serving::{ServeFault, Serving, serve, serve_begun};
pub use status::report;
pub use text_files::{TextFault, TextFiles};
