//! What --redis or REDIS_URL says: HOST:PORT, a URL, or the path of a socket.
use crate::fault::Fault;
use crate::place::{Place, read_port, read_socket};
use percent_encoding::{DecodeError, percent_decode};
use std::alloc::Global;

/// The port of a URL that names none.
const PORT: u16 = 6379;

/// The greatest number of a database.
pub(crate) const MAX_DATABASE: u64 = 1_000_000_000;

/// Where Redis is, and what a URL says beside that.
#[derive(Drop)]
pub(crate) struct Target {
    pub(crate) place: Place,
    pub(crate) user: Option<String>,
    pub(crate) password: Option<String>,
    pub(crate) database: Option<u64>,
}

impl Target {
    /// A place alone.
    pub(crate) fn at(place: Place) -> Target {
        Target {
            place,
            user: None,
            password: None,
            database: None,
        }
    }
}

/// What the value of an option says, or of a variable of the environment. What is wrong with it is said without it,
/// since it may have a password.
pub(crate) fn read_target(
    alloc: Global,
    source: &'static str,
    text: &str,
) -> Result<Target, Fault> {
    if let Some(rest) = text.strip_prefix("redis://") {
        return read_url(alloc, source, rest);
    }
    if let Some(path) = text.strip_prefix("unix:") {
        return Ok(Target::at(read_socket(alloc, source, path)?));
    }
    if text.starts_with("rediss://") {
        return Err(Fault::Named(
            source,
            "there is no TLS: put stunnel before Redis (docs/OPERATIONS.md)",
        ));
    }
    if text.contains('/') || text.contains('@') {
        return Err(Fault::Named(
            source,
            "it has to be HOST:PORT, redis://USER@HOST:PORT/DB or unix:PATH",
        ));
    }
    Ok(Target::at(read_port(alloc, source, text, None)?))
}

/// What a URL says after `redis://`: `user:password@host:port/db`, in which only the host is needed.
///
/// Source: RFC 3986, sections 3.2 and 2.1; the `redis` scheme of IANA's registry.
fn read_url(alloc: Global, source: &'static str, rest: &str) -> Result<Target, Fault> {
    if rest.contains('?') || rest.contains('#') {
        return Err(Fault::Named(
            source,
            "a URL has no ? and no # here: the database is its path, as redis://localhost:6379/3",
        ));
    }
    let (authority, path) = rest.split_once('/').unwrap_or((rest, ""));
    let (login, address) = authority.rsplit_once('@').unwrap_or(("", authority));
    let (user, password) = login.split_once(':').unwrap_or((login, ""));
    Ok(Target {
        place: read_port(alloc, source, address, Some(PORT))?,
        user: unescaped(alloc, source, user)?,
        password: unescaped(alloc, source, password)?,
        database: database_of(source, path)?,
    })
}

/// A part of a URL, with its escapes read, unless it is empty.
fn unescaped(alloc: Global, source: &'static str, part: &str) -> Result<Option<String>, Fault> {
    if part.is_empty() {
        return Ok(None);
    }
    match percent_decode(part.as_bytes()).decode_utf8(alloc) {
        Ok(text) => Ok(Some(text.into_owned(alloc)?)),
        Err(DecodeError::OutOfMemory) => Err(Fault::Memory),
        Err(_) => Err(Fault::Named(source, "an escape in it is not UTF-8")),
    }
}

/// The database that the path of a URL names.
fn database_of(source: &'static str, path: &str) -> Result<Option<u64>, Fault> {
    if path.is_empty() {
        return Ok(None);
    }
    match path.parse::<u64>() {
        Ok(number) if number <= MAX_DATABASE => Ok(Some(number)),
        _ => Err(Fault::Named(
            source,
            "the database has to be a number, as redis://localhost:6379/3",
        )),
    }
}
