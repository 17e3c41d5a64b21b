//! The sockets of an event loop over one listener: it polls them by epoll, and tells the loop one thing at a time.
#![tactic(auto)]

mod acceptor;
mod connections;
mod key;
mod planner;
mod ring;
mod slot;
mod sockets;
mod stream;

pub use acceptor::{LISTENERS_OWN, is_listeners_own};
pub use key::WAKER;
pub use planner::{NoPlanner, Planner};
pub use sockets::EventSockets;
pub use stream::{Listener, Stream};
