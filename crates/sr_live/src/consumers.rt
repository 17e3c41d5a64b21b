//! The consumers of a group are looked up: how many entries are pending for each, and for how long each has been idle.
ghost use Rattle.std.specs.Prelude.{◌≡◌, ◌∷◌, [], List, IfErr, IfOk};
ghost use Rattle.sr_peer.specs.Reply as wire;
ghost use Rattle.sr_peer.specs.{request_text};
ghost use Rattle.sr_live.specs.Looking.{Exchange, LooksIdle, LooksLive, Talks, consumers_call, numbers_call};
ghost use Rattle.sr_live.specs.Reading.{BreaksOff};
ghost use Rattle.sr_live.specs.Said.{SaysIdle, SaysNumbers};

use crate::fault::{LiveCall, LiveFault};
use crate::looked::Asked;
use crate::looking::{request_of, understood};
use crate::said::{idles_said, numbers_said};
use sr_bytes::Name;
use sr_peer::{Peer, ask};
use std::alloc::{AllocError, Global};

/// Looks up for how long each consumer has been idle, if that is asked for, and then how many entries are pending.
pub(crate) fn look_live<P: Peer>(
    peer: &mut P,
    alloc: Global,
    asked: &Asked,
) -> Result<(Vec<(Name, u64)>, Vec<(Name, u64)>), LiveFault>
    ensures ok { IfOk result (λ live. (talk : List Exchange)
        × Talks (P.sent peer.old) (P.got peer.old) (P.sent peer.new) (P.got peer.new) talk
        × LooksLive asked.now.key asked.now.group asked.now.seen_within talk live.0.items live.1.items) }
    ensures err { IfErr result (BreaksOff (P.sent peer.old) (P.got peer.old) (P.sent peer.new) (P.got peer.new)) }
{
    let idles = look_seen(peer, alloc, asked)?;
    let numbers = look_numbers(peer, alloc, &asked.key, &asked.group)?;
    Ok((idles, numbers))
}

/// Looks up for how long each consumer has been idle, if that is asked for.
fn look_seen<P: Peer>(
    peer: &mut P,
    alloc: Global,
    asked: &Asked,
) -> Result<Vec<(Name, u64)>, LiveFault>
    ensures ok { IfOk result (λ idles. (talk : List Exchange)
        × Talks (P.sent peer.old) (P.got peer.old) (P.sent peer.new) (P.got peer.new) talk
        × LooksIdle asked.now.key asked.now.group asked.now.seen_within talk idles.items) }
    ensures err { IfErr result (BreaksOff (P.sent peer.old) (P.got peer.old) (P.sent peer.new) (P.got peer.new)) }
{
    match asked.seen_within {
        Some(_within) => look_idles(peer, alloc, &asked.key, &asked.group),
        None => Ok(Vec::new(alloc)),
    }
}

/// Looks up how many entries are pending for each consumer of a group that has any.
///
/// Source: Redis documentation, command XPENDING.
pub fn look_numbers<P: Peer>(
    peer: &mut P,
    alloc: Global,
    key: &Name,
    group: &Name,
) -> Result<Vec<(Name, u64)>, LiveFault>
    ensures ok { IfOk result (λ numbers. (parts : List wire.Part)
        × Talks (P.sent peer.old) (P.got peer.old) (P.sent peer.new) (P.got peer.new)
        ((numbers_call key.now group.now, parts) ∷ [])
        × SaysNumbers parts numbers.items) }
    ensures err { IfErr result (BreaksOff (P.sent peer.old) (P.got peer.old) (P.sent peer.new) (P.got peer.new)) }
{
    let request = numbers_request(alloc, key, group)?;
    match ask(peer, alloc, request.as_slice(), 1) {
        Ok(answers) => understood(LiveCall::Pending, numbers_said(alloc, answers.parts())),
        Err(fault) => Err(LiveFault::Peer(fault)),
    }
}

/// The request for how many entries of a group are pending.
fn numbers_request(alloc: Global, key: &Name, group: &Name) -> Result<Vec<u8>, AllocError>
    ensures { IfOk result (λ request. request.items ≡ request_text (numbers_call key.now group.now)) }
{
    request_of(alloc, &[b"XPENDING", key.as_slice(), group.as_slice()])
}

/// Looks up for how many milliseconds each consumer of a group has been idle.
///
/// Source: Redis documentation, command XINFO CONSUMERS.
pub fn look_idles<P: Peer>(
    peer: &mut P,
    alloc: Global,
    key: &Name,
    group: &Name,
) -> Result<Vec<(Name, u64)>, LiveFault>
    ensures ok { IfOk result (λ idles. (parts : List wire.Part)
        × Talks (P.sent peer.old) (P.got peer.old) (P.sent peer.new) (P.got peer.new)
        ((consumers_call key.now group.now, parts) ∷ [])
        × SaysIdle parts idles.items) }
    ensures err { IfErr result (BreaksOff (P.sent peer.old) (P.got peer.old) (P.sent peer.new) (P.got peer.new)) }
{
    let request = consumers_request(alloc, key, group)?;
    match ask(peer, alloc, request.as_slice(), 1) {
        Ok(answers) => understood(LiveCall::Consumers, idles_said(alloc, answers.parts())),
        Err(fault) => Err(LiveFault::Peer(fault)),
    }
}

/// The request for the consumers of a group.
fn consumers_request(alloc: Global, key: &Name, group: &Name) -> Result<Vec<u8>, AllocError>
    ensures { IfOk result (λ request. request.items ≡ request_text (consumers_call key.now group.now)) }
{
    request_of(
        alloc,
        &[b"XINFO", b"CONSUMERS", key.as_slice(), group.as_slice()],
    )
}
