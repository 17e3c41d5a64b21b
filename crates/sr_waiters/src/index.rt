//! Which sessions wait for a key, in the order in which they blocked. A key for which none waits takes no memory.
ghost use Rattle.std.specs.Prelude.{◌≡◌, [], map, IsTrue, OnOk};
ghost use Rattle.std.specs.Map.{keys_of};
ghost use Rattle.sr_args.specs.{AreDifferent};
ghost use Rattle.sr_waiters.specs.Waiters as reads;
ghost use Rattle.sr_waiters.specs.Index.{Gives, changed, sessions_by, with_session, without};

use crate::queue::Queue;
use sr_args::Call;
use sr_bytes::Name;
use std::alloc::{AllocError, Global};
use std::collections::HashMap;
use std::hash::RandomState;

/// The sessions that wait for each key.
pub(crate) type Index = HashMap<Name, Queue<()>, RandomState>;

/// Whether a read asks the stream at a key.
pub(crate) fn asks(call: &Call, key: &Name) -> bool
    ensures { result ≡ reads.asks key.now call.now }
{
    match call {
        Call::Xread(read) => has_key(read.streams.as_slice(), key),
        Call::Xreadgroup(read) => has_key(read.streams.as_slice(), key),
        _ => false,
    }
}

/// Whether one of the streams has the key.
fn has_key<X>(streams: &[(Name, X)], key: &Name) -> bool
    ensures { result ≡ reads.has_key key.now streams.now }
{
    streams.iter().any(|stream| stream.0 == *key)
}

/// Puts the session of a read in an index that has each read. Answers whether it has each read then: not if memory is
/// refused.
pub(crate) fn put_if_indexed(
    index: &mut Index,
    alloc: Global,
    indexed: bool,
    call: &Call,
    session: u64,
) -> bool
    ensures { IsTrue result → IsTrue indexed × ((key : reads.Key) → sessions_by index.new key
        ≡ changed (with_session session) (reads.asks key call.now) (sessions_by index.old key)) }
{
    if !indexed {
        return false;
    }
    match put_read(index, alloc, call, session) {
        Ok(()) => true,
        Err(AllocError) => false,
    }
}

/// Puts the session of a read last in the queue of each key that it asks. An `Err` leaves some of them without it.
pub(crate) fn put_read(
    index: &mut Index,
    alloc: Global,
    call: &Call,
    session: u64,
) -> Result<(), AllocError>
    ensures { OnOk result ((key : reads.Key) → sessions_by index.new key
        ≡ changed (with_session session) (reads.asks key call.now) (sessions_by index.old key)) }
{
    match call {
        Call::Xread(read) => put_all(index, alloc, read.streams.as_slice(), session),
        Call::Xreadgroup(read) => put_all(index, alloc, read.streams.as_slice(), session),
        _ => Ok(()),
    }
}

/// Puts a session last in the queues of these keys. An `Err` leaves some of them without it.
fn put_all<X>(
    index: &mut Index,
    alloc: Global,
    streams: &[(Name, X)],
    session: u64,
) -> Result<(), AllocError>
    requires { AreDifferent (map (λ stream. stream.0) streams.now) }
    ensures { OnOk result ((key : reads.Key) → sessions_by index.new key
        ≡ changed (with_session session) (reads.has_key key streams.now) (sessions_by index.old key)) }
{
    for stream in streams {
        put(index, alloc, &stream.0, session)?;
    }
    Ok(())
}

/// Puts a session last in the queue of a key.
fn put(index: &mut Index, alloc: Global, key: &Name, session: u64) -> Result<(), AllocError>
    ensures { OnOk result (Gives key.now (with_session session (sessions_by index.old key.now)) index.old index.new) }
{
    if index.contains_key(key) {
        return add(index, key, session);
    }
    let mut sessions = Queue::new(alloc, *index.hasher());
    put_last(&mut sessions, session)?;
    index.insert(key.copy(alloc)?, sessions)?;
    Ok(())
}

/// Puts a session last in the queue of a key that has one.
fn add(index: &mut Index, key: &Name, session: u64) -> Result<(), AllocError>
    ensures { OnOk result (Gives key.now (with_session session (sessions_by index.old key.now)) index.old index.new) }
{
    match index.get_mut(key) {
        Some(sessions) => put_last(sessions, session),
        None => Err(AllocError),
    }
}

/// Puts a session last in a queue, also if it is in it.
fn put_last(sessions: &mut Queue<()>, session: u64) -> Result<(), AllocError>
    ensures { OnOk result (keys_of sessions.new.entries ≡ with_session session (keys_of sessions.old.entries)) }
{
    sessions.reserve(1)?;
    drop(sessions.remove(session));
    sessions.push(session, ());
    Ok(())
}

/// Takes the session of a read from the queue of each key that it asks, and drops the queues that are empty then.
pub(crate) fn take_read(index: &mut Index, call: &Call, session: u64)
    ensures { (key : reads.Key) → sessions_by index.new key
        ≡ changed (without session) (reads.asks key call.now) (sessions_by index.old key) }
{
    match call {
        Call::Xread(read) => take_all(index, read.streams.as_slice(), session),
        Call::Xreadgroup(read) => take_all(index, read.streams.as_slice(), session),
        _ => {}
    }
}

/// Takes a session from the queues of these keys, and drops those that are empty then.
fn take_all<X>(index: &mut Index, streams: &[(Name, X)], session: u64)
    requires { AreDifferent (map (λ stream. stream.0) streams.now) }
    ensures { (key : reads.Key) → sessions_by index.new key
        ≡ changed (without session) (reads.has_key key streams.now) (sessions_by index.old key) }
{
    for stream in streams {
        take(index, &stream.0, session);
    }
}

/// Takes a session from the queue of a key, and drops the queue if it is empty then.
fn take(index: &mut Index, key: &Name, session: u64)
    ensures { Gives key.now (without session (sessions_by index.old key.now)) index.old index.new }
{
    if remove(index, key, session) {
        drop_empty(index, key);
    }
}

/// Takes a session from the queue of a key. Answers whether it is empty then.
fn remove(index: &mut Index, key: &Name, session: u64) -> bool
    ensures gives { Gives key.now (without session (sessions_by index.old key.now)) index.old index.new }
    ensures empty { IsTrue result → sessions_by index.new key.now ≡ [] }
{
    match index.get_mut(key) {
        None => false,
        Some(sessions) => {
            drop(sessions.remove(session));
            sessions.is_empty()
        }
    }
}

/// Drops the queue of a key, in which no session is.
fn drop_empty(index: &mut Index, key: &Name)
    requires { sessions_by index.old key.now ≡ [] }
    ensures { Gives key.now (sessions_by index.old key.now) index.old index.new }
{
    drop(index.remove(key));
}
