ghost use Rattle.std.specs.Prelude.{◌≤◌};
ghost use Rattle.sr_options.specs.Ways.{threads_of};

use crate::way::Way;
use std::net::SocketAddr;

/// What the command line asks for.
#[derive(Clone, Copy)]
pub enum Request<'a> {
    /// One session over standard input and output.
    Stdio,
    /// A server for connections.
    Listen(Listening<'a>),
}

/// Serving the connections that come to an address.
#[derive(Clone, Copy)]
pub struct Listening<'a> {
    /// The address to listen at.
    pub address: SocketAddr,
    /// The address as it was given.
    pub text: &'a str,
    /// How the connections are served.
    pub way: Way,
    /// How many records are kept: if there are more, a checkpoint is made. None: all of them.
    pub keep: Option<u64>,
    ghost in_range: { (1 ≤ threads_of way) × (threads_of way ≤ 64) },
}
