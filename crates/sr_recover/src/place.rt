//! Where Redis listens: at a port of a host, or at a socket of this machine.
use crate::fault::{Fault, text_of};
use std::alloc::{AllocError, Global};
use std::net::Ipv6Addr;

/// How many bytes the path of a socket has at most.
const MAX_PATH: usize = 107;

/// Where Redis listens.
#[derive(Clone, Drop)]
pub(crate) enum Place {
    /// A host, by its name or its IP address, and a port of it.
    Port(String, u16),
    /// The path of a socket.
    Socket(String),
}

impl Place {
    /// The place as it is written, an IPv6 address in brackets.
    pub(crate) fn shown(&self, alloc: Global) -> Result<String, AllocError> {
        match self {
            Place::Port(host, port) => {
                let name = text_of(alloc, host.as_bytes())?;
                if host.as_str().contains(':') {
                    format!(in alloc; "[{name}]:{port}")
                } else {
                    format!(in alloc; "{name}:{port}")
                }
            }
            Place::Socket(path) => {
                let path = text_of(alloc, path.as_bytes())?;
                format!(in alloc; "unix:{path}")
            }
        }
    }
}

/// The host and the port that the value of an option names, or of a variable of the environment; and this port if it
/// may be missing. What is wrong with a value is said without it, since it may have a password.
pub(crate) fn read_port(
    alloc: Global,
    source: &'static str,
    text: &str,
    missing: Option<u16>,
) -> Result<Place, Fault> {
    let (host, port) = host_and_port(text);
    let port = port_of(source, port, missing)?;
    let host = without_brackets(source, host)?;
    if host.is_empty() {
        return Err(Fault::Named(
            source,
            "the host is missing: a host and a port, as 127.0.0.1:6379",
        ));
    }
    Ok(Place::Port(String::from_str(alloc, host)?, port))
}

/// A host, and what comes after its colon if it has one.
fn host_and_port(text: &str) -> (&str, Option<&str>) {
    match text.rsplit_once(':') {
        Some((host, port)) if !port.ends_with(']') => (host, Some(port)),
        _ => (text, None),
    }
}

/// The number of a port.
fn port_of(source: &'static str, port: Option<&str>, missing: Option<u16>) -> Result<u16, Fault> {
    let text = match (port, missing) {
        (Some(text), _) => text,
        (None, Some(port)) => return Ok(port),
        (None, None) => "",
    };
    if text.is_empty() {
        return Err(Fault::Named(
            source,
            "the port is missing: a host and a port, as 127.0.0.1:6379",
        ));
    }
    match text.parse::<u16>() {
        Ok(port) if port > 0 => Ok(port),
        _ => Err(Fault::Named(source, "the port has to be a number from 1 to 65535")),
    }
}

/// A host without the brackets around an IPv6 address.
fn without_brackets<'a>(source: &'static str, host: &'a str) -> Result<&'a str, Fault> {
    if let Some(inner) = host.strip_prefix('[') {
        if let Some(inner) = inner.strip_suffix(']') {
            return Ok(inner);
        }
    }
    if host.contains(':') && host.parse::<Ipv6Addr>().is_err() {
        return Err(Fault::Named(source, "an IPv6 address and a port, as [::1]:6379"));
    }
    Ok(host)
}

/// The socket with this path.
pub(crate) fn read_socket(alloc: Global, source: &'static str, path: &str) -> Result<Place, Fault> {
    if path.is_empty() || path.len() > MAX_PATH {
        return Err(Fault::Named(source, "the path after unix: has to have 1 to 107 bytes"));
    }
    let is_url = path.starts_with("//") && !path.starts_with("///");
    if is_url || path.contains('?') {
        return Err(Fault::Named(
            source,
            "a path alone comes after unix:, as unix:/run/redis.sock",
        ));
    }
    Ok(Place::Socket(String::from_str(alloc, path)?))
}

/// Where a node is that the node at a place names. One that does not know its hosts names a port alone, and an IPv6
/// address has no brackets.
pub(crate) fn place_named(alloc: Global, asked: &Place, named: &str) -> Result<Place, Fault> {
    if let Some((host, port)) = named.rsplit_once(':') {
        if let Ok(port) = port.parse::<u16>() {
            let host = match asked {
                _ if !host.is_empty() => host,
                Place::Port(host, _) => host.as_str(),
                Place::Socket(_) => "127.0.0.1",
            };
            return Ok(Place::Port(String::from_str(alloc, host)?, port));
        }
    }
    Err(Fault::Node(String::from_str(alloc, named)?))
}
