//! The dead of a group are found: whoever was not seen for some time, if an entry that is pending for it has been idle
//! for as long.
ghost use Rattle.std.specs.Prelude.{◌≡◌, ◌++◌, ◌∷◌, [], List, IfErr, IfOk};
ghost use Rattle.sr_peer.specs.Reply as wire;
ghost use Rattle.sr_peer.specs.{request_text};
ghost use Rattle.sr_live.specs.Dead.{FindsDead, FindsEach, LooksOld, name_of_dead, old_call, old_words};
ghost use Rattle.sr_live.specs.Looking.{Exchange, Talks};
ghost use Rattle.sr_live.specs.Reading.{BreaksOff};
ghost use Rattle.sr_live.specs.Said.{Delivered, SaysPending};

use crate::consumers::{look_idles, look_numbers};
use crate::fault::{LiveCall, LiveFault};
use crate::looking::{request_of, understood};
use crate::said::pending_said;
use crate::snapshot::number_for;
use itoa::Buffer;
use sr_bytes::Name;
use sr_ids::Id;
use sr_peer::{Peer, ask};
use std::alloc::{AllocError, Global};

/// Finds the consumers of a group that are dead, in the order in which Redis lists them: each that has been idle for
/// at least `after` milliseconds, and for which entries are pending that have been idle for as long.
///
/// It asks for all consumers, for how many entries are pending for each, and then for one entry of each that has been
/// idle for so long and has any. Between the calls the group may change.
///
/// Source: Redis documentation, commands XINFO CONSUMERS and XPENDING.
pub fn find_dead<P: Peer>(
    peer: &mut P,
    alloc: Global,
    key: &Name,
    group: &Name,
    after: u64,
) -> Result<Vec<Name>, LiveFault>
    ensures ok { IfOk result (λ dead. (talk : List Exchange)
        × Talks (P.sent peer.old) (P.got peer.old) (P.sent peer.new) (P.got peer.new) talk
        × FindsDead key.now group.now after talk dead.items) }
    ensures err { IfErr result (BreaksOff (P.sent peer.old) (P.got peer.old) (P.sent peer.new) (P.got peer.new)) }
{
    let idles = look_idles(peer, alloc, key, group)?;
    let numbers = look_numbers(peer, alloc, key, group)?;
    let sought = Sought {
        key,
        group,
        after,
        numbers: numbers.as_slice(),
    };
    find_each(peer, alloc, &sought, idles.as_slice())
}

/// Of which group the dead are sought, and how long they have been idle.
#[derive(Drop)]
struct Sought<'a> {
    key: &'a Name,
    group: &'a Name,
    /// In milliseconds, at least.
    after: u64,
    /// How many entries are pending for each consumer that has any.
    numbers: &'a [(Name, u64)],
}

/// Finds those of the consumers that are dead, each with its idle time in milliseconds.
fn find_each<P: Peer>(
    peer: &mut P,
    alloc: Global,
    sought: &Sought<'_>,
    consumers: &[(Name, u64)],
) -> Result<Vec<Name>, LiveFault>
    ensures ok { IfOk result (λ dead. (talk : List Exchange)
        × Talks (P.sent peer.old) (P.got peer.old) (P.sent peer.new) (P.got peer.new) talk
        × FindsEach sought.now.key.now sought.now.group.now sought.now.after sought.now.numbers.now consumers.now talk
        dead.items) }
    ensures err { IfErr result (BreaksOff (P.sent peer.old) (P.got peer.old) (P.sent peer.new) (P.got peer.new)) }
{
    let mut dead = Vec::new(alloc);
    for one in consumers {
        push_dead(&mut dead, peer, alloc, sought, one)?;
    }
    Ok(dead)
}

/// Adds the consumer, if it is dead.
fn push_dead<P: Peer>(
    dead: &mut Vec<Name>,
    peer: &mut P,
    alloc: Global,
    sought: &Sought<'_>,
    one: &(Name, u64),
) -> Result<(), LiveFault>
    ensures ok { IfOk result (λ _. (talk : List Exchange) × (old : List Delivered)
        × Talks (P.sent peer.old) (P.got peer.old) (P.sent peer.new) (P.got peer.new) talk
        × LooksOld sought.now.key.now sought.now.group.now sought.now.after sought.now.numbers.now one.now old talk
        × (dead.new.items ≡ dead.old.items ++ name_of_dead sought.now.after one.now old)) }
    ensures err { IfErr result (BreaksOff (P.sent peer.old) (P.got peer.old) (P.sent peer.new) (P.got peer.new)) }
{
    if one.1 < sought.after {
        return Ok(());
    }
    if number_for(sought.numbers, &one.0) == 0 {
        return Ok(());
    }
    let old = look_old(peer, alloc, sought, &one.0)?;
    if old.is_empty() {
        return Ok(());
    }
    dead.push(one.0.copy(alloc)?)?;
    Ok(())
}

/// Looks up the first entry that is pending for a consumer and has been idle for so long, if there is one.
fn look_old<P: Peer>(
    peer: &mut P,
    alloc: Global,
    sought: &Sought<'_>,
    name: &Name,
) -> Result<Vec<(Id, u64)>, LiveFault>
    ensures ok { IfOk result (λ old. (parts : List wire.Part)
        × Talks (P.sent peer.old) (P.got peer.old) (P.sent peer.new) (P.got peer.new)
        ((old_call sought.now.key.now sought.now.group.now sought.now.after name.now, parts) ∷ [])
        × SaysPending parts name.now old.items) }
    ensures err { IfErr result (BreaksOff (P.sent peer.old) (P.got peer.old) (P.sent peer.new) (P.got peer.new)) }
{
    let mut after = Buffer::new();
    let request = old_request(alloc, sought, name, after.format(sought.after).as_bytes())?;
    match ask(peer, alloc, request.as_slice(), 1) {
        Ok(answers) => understood(
            LiveCall::Pending,
            pending_said(alloc, answers.parts(), name),
        ),
        Err(fault) => Err(LiveFault::Peer(fault)),
    }
}

/// The request for an entry that is pending for a consumer and has been idle for so long.
fn old_request(
    alloc: Global,
    sought: &Sought<'_>,
    name: &Name,
    after: &[u8],
) -> Result<Vec<u8>, AllocError>
    ensures { IfOk result (λ request. request.items
        ≡ request_text (old_words sought.now.key.now sought.now.group.now after.now name.now)) }
{
    request_of(
        alloc,
        &[
            b"XPENDING",
            sought.key.as_slice(),
            sought.group.as_slice(),
            b"IDLE",
            after,
            b"-",
            b"+",
            b"1",
            name.as_slice(),
        ],
    )
}
