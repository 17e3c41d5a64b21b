ghost use Rattle.std.specs.Prelude.{◌≡◌, ◌≤◌, ℕ, Bool, IsTrue, Option, IfOk, IfErr};
ghost use Rattle.std.specs.declared.net.socket_addr.SocketAddr.{SocketAddr};
ghost use Rattle.sr_book.specs.{BookState};
ghost use Rattle.sr_options.specs.{threads_of};
ghost use Rattle.sr_options.specs.declared.way.Way.{Way};
ghost use Rattle.sr_start.specs.declared.network.ListenFault.{ListenFault};
ghost use Rattle.sr_start.specs.declared.serving.ServeFault.{ServeFault};

use crate::serving::ServeFault;
use sr_book::Book;
use sr_options::Way;
use std::net::SocketAddr;
use std::snapshot::Snapshot;

/// Why there is nothing that listens.
#[derive(Clone, Copy, Debug, PartialEq, Eq)]
pub enum ListenFault {
    /// The address cannot be bound.
    Bind,
    /// A failed allocation.
    Memory,
}

/// What serves connections, whose threads stand, and what it was begun with.
#[derive(Drop)]
pub struct Begun<S: Drop> {
    /// Serves connections.
    pub server: S,
    /// The address that it listens at.
    pub address: SocketAddr,
    /// How it serves them.
    pub way: Way,
    /// How many records it keeps, if not all of them.
    pub keep: Option<u64>,
    /// The book that it was begun with.
    pub book: Snapshot<Book>,
}

/// What listens, and the address that it listens at.
#[derive(Drop)]
pub struct Bound<L: Drop> {
    /// Accepts connections.
    pub listener: L,
    /// The address that was asked for.
    pub address: SocketAddr,
}

/// Where connections come from.
pub trait Network {
    /// Accepts connections.
    type Listener: Drop;

    /// Serves connections.
    type Server: Drop;

    /// Whether this may be how many files the process may have open at a time, as far as it is known.
    ghost may_open: { Option ℕ → Bool };

    /// Whether listening at an address may be refused for this cause.
    ghost may_refuse: { SocketAddr → ListenFault → Bool };

    /// Whether serving at an address in this way, with so many records kept and from this book on, may not begin for
    /// this cause.
    ghost may_not_begin: { SocketAddr → Way → Option ℕ → BookState → ServeFault → Bool };

    /// Whether serving that has begun so may end in this way.
    ghost may_end: { SocketAddr → Way → Option ℕ → BookState → ServeFault → Bool };

    /// How many files the process may have open at a time, those of connections among them. None: it is not known.
    fn most_files(&self) -> Option<u64>
        ensures { IsTrue (may_open result) };

    /// Listens at an address, for connections that will be served in this way.
    fn listen(
        &mut self,
        address: SocketAddr,
        way: Way,
    ) -> Result<Bound<Self::Listener>, ListenFault>
        ensures ok { IfOk result (λ bound. bound.address ≡ address) }
        ensures err { IfErr result (λ fault. IsTrue (may_refuse address fault)) };

    /// Begins to serve the connections that come, in the way for which it listens, over one book, which keeps `keep`
    /// records, or all of them. When it answers, the threads stand.
    fn begin(
        &mut self,
        bound: Bound<Self::Listener>,
        book: Book,
        way: Way,
        keep: Option<u64>,
    ) -> Result<Begun<Self::Server>, ServeFault>
        requires way { (1 ≤ threads_of way) × (threads_of way ≤ 64) }
        ensures address { IfOk result (λ begun. begun.address ≡ bound.address) }
        ensures way { IfOk result (λ begun. begun.way ≡ way) }
        ensures keep { IfOk result (λ begun. begun.keep ≡ keep) }
        ensures book { IfOk result (λ begun. begun.book.value ≡ book) }
        ensures err { IfErr result (λ fault. IsTrue (may_not_begin bound.address way keep book fault)) };

    /// Serves until no further connection can be accepted, and answers why that ended.
    fn end(&mut self, begun: Begun<Self::Server>) -> ServeFault
        ensures { IsTrue (may_end begun.address begun.way begun.keep begun.book.value result) };
}
