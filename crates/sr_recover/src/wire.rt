//! A connection to Redis.
ghost use Rattle.std.specs.Prelude.{None};
ghost use Rattle.sr_peer.specs.Exchange.{IsOfConnection};

use crate::errors::advice_for;
use crate::fault::{Fault, live_fault, peer_fault, text_of, why};
use crate::place::Place;
use sr_live::LiveFault;
use sr_peer::{Part, Peer, PeerFault, append_header, append_number, append_word, ask};
use std::alloc::{AllocError, Global};
use std::io::{Error, ErrorKind, Read, Write};
use std::mem;
use std::net::{SocketAddr, TcpStream, ToSocketAddrs};
use std::os::unix::net::UnixStream;
use std::time::Duration;

/// How many bytes one read takes at most.
const PIECE: usize = 16_384;

/// The lines of a request on which its first two words are.
const FIRST: usize = 2;

const SECOND: usize = 4;

/// What carries the bytes.
#[derive(Drop)]
enum Stream {
    Port(TcpStream),
    Socket(UnixStream),
}

/// A connection, on which an answer may take so long.
#[derive(Drop)]
pub(crate) struct Wire {
    stream: Stream,
    /// Whether the last request was an EVAL.
    is_eval: bool,
    /// How many snapshots were begun: a round begins with one.
    rounds: u64,
}

impl Wire {
    /// A connection on which nothing was sent.
    fn new(stream: Stream) -> Wire {
        Wire {
            stream,
            is_eval: false,
            rounds: 0,
        }
    }

    /// How many rounds were begun since this was last asked.
    pub(crate) fn take_rounds(&mut self) -> u64 {
        mem::replace(&mut self.rounds, 0)
    }

    /// The word by which a script was called, if it was by the last request.
    pub(crate) fn script(&self) -> &'static str {
        if self.is_eval { "EVAL" } else { "EVALSHA" }
    }

    /// What came of a look-up or a run on this connection, with what its fault is to the user.
    pub(crate) fn told<T>(&self, alloc: Global, made: Result<T, LiveFault>) -> Result<T, Fault> {
        match made {
            Ok(value) => Ok(value),
            Err(fault) => Err(live_fault(alloc, fault, self.script())),
        }
    }
}

impl Peer for Wire {
    ghost sent = { λ _. None };

    ghost got = { λ _. None };

    fn send(&mut self, bytes: &[u8]) -> Result<(), PeerFault> {
        self.is_eval = word_at(bytes, FIRST) == Some(b"EVAL");
        if word_at(bytes, FIRST) == Some(b"XINFO") && word_at(bytes, SECOND) == Some(b"STREAM") {
            self.rounds = self.rounds.saturating_add(1);
        }
        let written = match &mut self.stream {
            Stream::Port(stream) => stream.write_all(bytes),
            Stream::Socket(stream) => stream.write_all(bytes),
        };
        match written {
            Ok(()) => Ok(()),
            Err(error) => Err(fault_of(error.kind())),
        }
    }

    fn receive(&mut self, alloc: Global) -> Result<Vec<u8>, PeerFault> {
        let mut buffer = [0; PIECE];
        let read = match &mut self.stream {
            Stream::Port(stream) => stream.read(&mut buffer),
            Stream::Socket(stream) => stream.read(&mut buffer),
        };
        match read {
            Ok(0) => Err(PeerFault::Closed),
            Ok(count) => match Vec::from_slice(alloc, &buffer[..count]) {
                Ok(bytes) => Ok(bytes),
                Err(_) => Err(PeerFault::Memory),
            },
            Err(error) => Err(fault_of(error.kind())),
        }
    }
}

/// The word on a line of a request, if it has no line end.
fn word_at(request: &[u8], line: usize) -> Option<&[u8]> {
    let mut lines = request.split(|byte| *byte == b'\n');
    lines.nth(line)?.strip_suffix(b"\r")
}

/// Why a read or a write did not succeed.
fn fault_of(kind: ErrorKind) -> PeerFault
    ensures { IsOfConnection result }
{
    match kind {
        ErrorKind::OutOfMemory => PeerFault::Memory,
        ErrorKind::WouldBlock | ErrorKind::TimedOut => PeerFault::Silent,
        _ => PeerFault::Failed,
    }
}

/// Connects to a place.
pub(crate) fn connect(rt: &HostRuntime, place: &Place, timeout: u64) -> Result<Wire, Fault> {
    let limit = Duration::from_millis(timeout);
    match place {
        Place::Port(host, port) => connect_to_host(rt, place, (host.as_str(), *port), limit),
        Place::Socket(path) => match connect_to_socket(rt, path.as_str(), limit) {
            Ok(wire) => Ok(wire),
            Err(error) => Err(connect_fault(rt.alloc(), place, error)),
        },
    }
}

/// Connects to one of the addresses that a host and a port stand for.
fn connect_to_host(
    rt: &HostRuntime,
    place: &Place,
    named: (&str, u16),
    limit: Duration,
) -> Result<Wire, Fault> {
    let addresses = match named.to_socket_addrs(rt) {
        Ok(addresses) => addresses,
        Err(error) => return Err(host_fault(rt.alloc(), named.0, error)),
    };
    let mut refused = Error::from(ErrorKind::AddrNotAvailable);
    for address in addresses {
        match connect_to(rt, address, limit) {
            Ok(wire) => return Ok(wire),
            Err(error) => refused = error,
        }
    }
    Err(connect_fault(rt.alloc(), place, refused))
}

/// A connection to an address, on which a read and a write may take so long, as the connecting may.
fn connect_to(rt: &HostRuntime, address: SocketAddr, limit: Duration) -> Result<Wire, Error> {
    let stream = TcpStream::connect_timeout(rt, &address, limit)?;
    stream.set_read_timeout(Some(limit))?;
    stream.set_write_timeout(Some(limit))?;
    let _ = stream.set_nodelay(true);
    Ok(Wire::new(Stream::Port(stream)))
}

/// A connection to a socket, on which a read and a write may take so long. Connecting waits only if Redis has left
/// hundreds of others waiting.
fn connect_to_socket(rt: &HostRuntime, path: &str, limit: Duration) -> Result<Wire, Error> {
    let stream = UnixStream::connect(rt, path)?;
    stream.set_read_timeout(Some(limit))?;
    stream.set_write_timeout(Some(limit))?;
    Ok(Wire::new(Stream::Socket(stream)))
}

/// What it is to the user that a host has no address.
fn host_fault(alloc: Global, host: &str, error: Error) -> Fault {
    if error.kind() == ErrorKind::OutOfMemory {
        return Fault::Memory;
    }
    match (text_of(alloc, host.as_bytes()), why(alloc, &error)) {
        (Ok(host), Ok(why)) => Fault::Host(host, why),
        _ => Fault::Memory,
    }
}

/// What it is to the user that there is no connection.
fn connect_fault(alloc: Global, place: &Place, error: Error) -> Fault {
    let advice = match place {
        Place::Port(..) => advice_on(error.kind()),
        Place::Socket(_) => ". Is Redis running there, and is this its unixsocket?",
    };
    match (place.shown(alloc), why(alloc, &error)) {
        (Ok(place), Ok(why)) => Fault::Connect(place, why, advice),
        _ => Fault::Memory,
    }
}

/// What the user can do if there is no connection to a port.
fn advice_on(kind: ErrorKind) -> &'static str {
    match kind {
        ErrorKind::ConnectionRefused => ". Is Redis running there, and is this its port?",
        ErrorKind::TimedOut => ". Is a firewall in between? --timeout MS is how long it waits",
        _ => ". Can it be reached from here?",
    }
}

/// Tells Redis who asks. Without a password nothing is sent.
pub(crate) fn authenticate(
    wire: &mut Wire,
    alloc: Global,
    user: Option<&str>,
    password: Option<&[u8]>,
) -> Result<(), Fault> {
    let Some(password) = password else {
        return Ok(());
    };
    let request = auth_request(alloc, user, password)?;
    match refusal(wire, alloc, request.as_slice(), "AUTH")? {
        None => Ok(()),
        Some(text) => match advice_for(text.as_bytes()) {
            "" => Err(Fault::Auth(untold(alloc, text)?)),
            advice => Err(Fault::ErrorReply("AUTH", text, advice)),
        },
    }
}

/// What may be shown of the text with which AUTH is refused: a server that does not know the command may repeat the
/// password in it.
fn untold(alloc: Global, text: String) -> Result<String, AllocError> {
    if text.as_bytes().starts_with(b"ERR unknown") {
        return String::from_str(alloc, "it does not know AUTH");
    }
    Ok(text)
}

/// Chooses the database. The first one is chosen without being asked for.
pub(crate) fn select(wire: &mut Wire, alloc: Global, database: u64) -> Result<(), Fault> {
    if database == 0 {
        return Ok(());
    }
    let mut request = Vec::new(alloc);
    append_header(&mut request, 2)?;
    append_word(&mut request, b"SELECT")?;
    append_number(&mut request, database)?;
    match refusal(wire, alloc, request.as_slice(), "SELECT")? {
        None => Ok(()),
        Some(text) => {
            let advice = advice_for(text.as_bytes());
            Err(Fault::ErrorReply("SELECT", text, advice))
        }
    }
}

/// Why a request is refused, to which the reply is OK if it is not.
fn refusal(
    wire: &mut Wire,
    alloc: Global,
    request: &[u8],
    call: &'static str,
) -> Result<Option<String>, Fault> {
    let answers = match ask(wire, alloc, request, 1) {
        Ok(answers) => answers,
        Err(fault) => return Err(peer_fault(fault)),
    };
    match answers.parts().next() {
        Some(Part::Simple(b"OK")) => Ok(None),
        Some(Part::Error(text)) => Ok(Some(text_of(alloc, text)?)),
        _ => Err(Fault::Shape(call)),
    }
}

/// The request that tells who asks.
fn auth_request(alloc: Global, user: Option<&str>, password: &[u8]) -> Result<Vec<u8>, AllocError> {
    let mut request = Vec::new(alloc);
    append_header(&mut request, if user.is_some() { 3 } else { 2 })?;
    append_word(&mut request, b"AUTH")?;
    if let Some(name) = user {
        append_word(&mut request, name.as_bytes())?;
    }
    append_word(&mut request, password)?;
    Ok(request)
}
