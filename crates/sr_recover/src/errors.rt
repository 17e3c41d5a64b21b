//! Errors that Redis replies: where the key is, what the user can do, and after which nothing was carried out.
use crate::fault::{Fault, text_of};
use sr_live::LiveCall;
use std::alloc::{AllocError, Global};

/// What an error of Redis, from 7.0 on, or of Valkey begins with, in reply to a script, if nothing was carried out. Any
/// other one, as a proxy may reply in place of Redis, says nothing of that.
const WITHOUT_A_WRITE: &[&[u8]] = &[
    // it has not begun to run the script
    b"NOSCRIPT",
    b"MOVED",
    b"ASK",
    b"TRYAGAIN",
    b"CLUSTERDOWN",
    b"MASTERDOWN",
    b"LOADING",
    b"BUSY",
    b"NOAUTH",
    b"NOPERM",
    b"DENIED",
    b"ERR max number of clients reached",
    b"ERR unknown command",
    b"ERR wrong number of arguments for",
    // a script gets these at its first write, or never: after one they are not asked for any more
    b"READONLY",
    b"NOREPLICAS",
    b"MISCONF",
    b"OOM",
    // the script looks at the key before it writes
    b"WRONGTYPE",
    // A user may not do what the script does: the first in Redis 7.0, the second from 7.2 on and in Valkey. Its only
    // command that changes anything is XCLAIM, which comes after all others, each time with the same key. Whether it is
    // allowed depends on the user, the command and the key, and no rights change while a script runs: so the first
    // XCLAIM is refused, or none is.
    b"ERR The user executing the script",
    b"ERR ACL failure in script:",
];

const RIGHT: &str = " (the user lacks a right: docs/LIVE.md has the line for ACL SETUSER)";

const LATER: &str = " (the key is being moved to another node: try again later)";

/// What an error that Redis replies to a call is to the user. A script is called by this word.
pub(crate) fn told(alloc: Global, call: LiveCall, script: &'static str, text: &[u8]) -> Fault {
    let is_known = call != LiveCall::Script || is_without_write(text);
    let said = if is_known {
        told_of_known(alloc, call, script, text)
    } else {
        told_of_unknown(alloc, script, text)
    };
    match said {
        Ok(fault) => fault,
        Err(_) if is_known => Fault::Memory,
        Err(_) => Fault::Unknown("out of memory"),
    }
}

/// What an error is after which nothing was carried out.
fn told_of_known(
    alloc: Global,
    call: LiveCall,
    script: &'static str,
    text: &[u8],
) -> Result<Fault, AllocError> {
    if let Some(node) = node_in(text) {
        return Ok(Fault::Moved(text_of(alloc, node)?));
    }
    let by = if call == LiveCall::Script {
        script
    } else {
        call_text(call)
    };
    Ok(Fault::ErrorReply(by, text_of(alloc, text)?, advice_for(text)))
}

/// What an error is after which a script may have been carried out.
fn told_of_unknown(alloc: Global, script: &'static str, text: &[u8]) -> Result<Fault, AllocError> {
    let said = text_of(alloc, text)?;
    Ok(Fault::UnknownError(format!(in alloc; "{script} is answered with an error: {said}")?))
}

/// The node that the key has moved to.
fn node_in(text: &[u8]) -> Option<&[u8]> {
    let mut words = text.strip_prefix(b"MOVED ")?.split(|byte| *byte == b' ');
    words.next()?;
    words.next()
}

/// Whether nothing was carried out of a script to which this error is the reply.
fn is_without_write(text: &[u8]) -> bool {
    WITHOUT_A_WRITE.iter().any(|start| begins_with(text, start))
}

/// Whether a text begins with these words.
fn begins_with(text: &[u8], words: &[u8]) -> bool {
    match text.strip_prefix(words) {
        Some(rest) => rest.is_empty() || rest[0] == b' ',
        None => false,
    }
}

/// The name of a call that is no script.
pub(crate) fn call_text(call: LiveCall) -> &'static str {
    match call {
        LiveCall::Stream => "XINFO STREAM",
        LiveCall::Consumers => "XINFO CONSUMERS",
        LiveCall::Pending => "XPENDING",
        LiveCall::Entry => "XRANGE",
        LiveCall::Script => "EVALSHA",
    }
}

/// What the user can do about an error of Redis.
pub(crate) fn advice_for(text: &[u8]) -> &'static str {
    for (start, advice) in ADVICE {
        if begins_with(text, start) {
            return advice;
        }
    }
    ""
}

/// What errors begin with, and what to do.
const ADVICE: &[(&[u8], &str)] = &[
    (b"NOAUTH", " (give a password: --password-file FILE)"),
    (b"NOPERM", RIGHT),
    (b"ERR The user executing the script", RIGHT),
    (b"ERR ACL failure in script:", RIGHT),
    (b"NOGROUP", " (look for its name: XINFO GROUPS)"),
    (b"ERR no such key", " (look for its name: SCAN)"),
    (b"WRONGTYPE", " (the key does not hold a stream: see TYPE)"),
    (b"LOADING", " (it reads its data: try again later)"),
    (
        b"BUSY",
        " (another script is running: try again later, or end it with SCRIPT KILL)",
    ),
    (
        b"ERR max number of clients reached",
        " (it has no room for another client: try again later, or raise maxclients)",
    ),
    (
        b"DENIED",
        " (it takes no connection from other machines: see protected-mode)",
    ),
    (b"READONLY", " (a replica: name its primary)"),
    (
        b"MASTERDOWN",
        " (a replica that has lost its primary: name the primary)",
    ),
    (
        b"NOREPLICAS",
        " (too few replicas are connected, so it takes no writes: see min-replicas-to-write)",
    ),
    (
        b"MISCONF",
        " (it cannot save its data, so it takes no writes: see its log)",
    ),
    (b"OOM", " (its memory is full: see maxmemory)"),
    (b"ASK", LATER),
    (b"TRYAGAIN", LATER),
    (
        b"CLUSTERDOWN",
        " (the cluster does not serve: see CLUSTER INFO)",
    ),
];
