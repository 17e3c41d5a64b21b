//! The event loop: what the network does is told to the hub, and what the hub has for a connection is written to it.
ghost use Rattle.std.specs.Prelude.{List};
ghost use Rattle.sr_book.specs.{Recorded};
ghost use Rattle.sr_hub.specs.Heard.{GoOnAs};
ghost use Rattle.sr_hub.specs.Lines.{state_of};
ghost use Rattle.sr_hub.specs.Traffic.{AreServed, Traffic};
ghost use Rattle.sr_hub.specs.steps.Serving.{Keeps, Releases, Serves, TakesOn, loop_of};

use crate::keeper::{Habits, Keeper};
use crate::plans::{begin, go_on_with_recoveries, judge};
use crate::watch::unsent_len;
use crate::{Heard, Hub, Sockets};
use sr_session::Clock;
use std::alloc::Global;

/// How many bytes are read at a time.
const PIECE: usize = 16 * 1024;

/// Serves these sockets until nothing will come again, at most as many turns as the habits say.
///
/// Whatever comes in whatever order, each connection is given the replies that the book's records address to its
/// session, in order, and each byte of them once; one that was closed was given them from the first on. Each record
/// that is added has a moment that the clock may tell, or that of the last record before.
///
/// A plan for few pairs of an entry and a consumer is made in the loop, so that it is never stale; others are made
/// elsewhere if the sockets have it so.
pub fn serve_sockets<S: Sockets, C: Clock>(
    alloc: Global,
    hub: &mut Hub,
    sockets: &mut S,
    clock: &C,
    habits: Habits,
)
    ensures served { (records : List Recorded) (traffic : Traffic) → S.may_have sockets.old traffic
        → AreServed records traffic (state_of hub.old)
        → GoOnAs (C.may_tell clock.now) hub.old.book.server.last records (S.may_have sockets.new) (state_of hub.new) }
{
    let mut buffer = [0; PIECE];
    let mut keeper = Keeper::new(alloc, clock, habits);
    for _turn in 0..habits.turns {
        if !hear(hub, sockets, &mut keeper, &mut buffer) {
            return;
        }
        settle(hub, sockets, &mut keeper);
    }
}

/// Waits for what comes next, and does what it asks for. Answers whether more may come.
fn hear<S: Sockets, C: Clock>(
    hub: &mut Hub,
    sockets: &mut S,
    keeper: &mut Keeper<'_, C>,
    buffer: &mut [u8],
) -> bool
    ensures { Serves (loop_of (state_of hub.old) (S.may_have sockets.old) (C.may_tell keeper.old.clock))
        (loop_of (state_of hub.new) (S.may_have sockets.new) (C.may_tell keeper.new.clock)) }
{
    let wait = keeper.patience(hub, !sockets.is_busy());
    let heard = sockets.next(buffer, wait);
    keeper.hears(heard);
    match heard {
        Heard::Came => admit(hub, sockets, keeper),
        Heard::Bytes { token, count } => {
            take(hub, keeper, token, &buffer[..count]);
            attend(hub, sockets, keeper, token);
        }
        Heard::Room { token } => attend(hub, sockets, keeper, token),
        Heard::Over { token } => dismiss(hub, sockets, keeper, token),
        Heard::Planned => keeper.note_planned(true),
        Heard::Nothing => {}
        Heard::End => return false,
    }
    true
}

/// A connection came: gives it a token, turns it away if there is no place for it, or refuses it if memory is lacking.
fn admit<S: Sockets, C: Clock>(hub: &mut Hub, sockets: &mut S, keeper: &mut Keeper<'_, C>)
    ensures { Serves (loop_of (state_of hub.old) (S.may_have sockets.old) (C.may_tell keeper.old.clock))
        (loop_of (state_of hub.new) (S.may_have sockets.new) (C.may_tell keeper.new.clock)) }
{
    if keeper.is_full() {
        sockets.turn_away();
        return;
    }
    if keeper.reserve().is_err() {
        sockets.refuse();
        return;
    }
    match hub.connect(keeper.alloc, keeper.now()) {
        Ok(token) => {
            keeper.comes(hub, token);
            sockets.name(token)
        }
        Err(_) => sockets.refuse(),
    }
}

/// Takes the next bytes of a connection, or cuts it off if unanswered requests hold too much with them.
fn take<C: Clock>(hub: &mut Hub, keeper: &mut Keeper<'_, C>, token: usize, piece: &[u8])
    ensures { TakesOn token piece.now (C.may_tell keeper.old.clock) (state_of hub.old)
        (C.may_tell keeper.new.clock) (state_of hub.new) }
{
    keeper.hears_of(token);
    if keeper
        .watch
        .exceeds(hub, token, piece.len(), keeper.habits.unfinished)
    {
        hub.pass_over(token);
        return;
    }
    let before = unsent_len(hub, token);
    let _taken = hub.take(keeper.alloc, token, keeper.now(), piece);
    keeper.weighs(piece.len() as u64);
    keeper.weighs(added(before, unsent_len(hub, token)));
}

/// How many bytes came to those that are to be sent.
pub(crate) fn added(before: usize, after: usize) -> u64 {
    after.saturating_sub(before) as u64
}

/// A connection is over, or was before and its session could not leave: a recovery of it that is not concluded is given
/// up.
fn dismiss<S: Sockets, C: Clock>(
    hub: &mut Hub,
    sockets: &mut S,
    keeper: &mut Keeper<'_, C>,
    token: usize,
)
    ensures { Serves (loop_of (state_of hub.old) (S.may_have sockets.old) (C.may_tell keeper.old.clock))
        (loop_of (state_of hub.new) (S.may_have sockets.new) (C.may_tell keeper.new.clock)) }
{
    sockets.close(token);
    release(hub, keeper, token);
}

/// Has the session of a connection leave whose socket is closed. If that is refused, it is tried again later.
fn release<C: Clock>(hub: &mut Hub, keeper: &mut Keeper<'_, C>, token: usize)
    ensures { Releases token (C.may_tell keeper.old.clock) (state_of hub.old)
        (C.may_tell keeper.new.clock) (state_of hub.new) }
{
    let session = hub.session(token);
    let left = hub.close(keeper.alloc, token, keeper.now()).is_ok();
    keeper.goes(token, session, left);
}

/// Goes on with a connection as far as it goes, writes what there is for it, and closes it if it is at its end and
/// nothing is left to write. One that was put off waits for its turn.
pub(crate) fn attend<S: Sockets, C: Clock>(
    hub: &mut Hub,
    sockets: &mut S,
    keeper: &mut Keeper<'_, C>,
    token: usize,
)
    ensures { Serves (loop_of (state_of hub.old) (S.may_have sockets.old) (C.may_tell keeper.old.clock))
        (loop_of (state_of hub.new) (S.may_have sockets.new) (C.may_tell keeper.new.clock)) }
{
    if keeper.watch.is_later(token) {
        return;
    }
    advance(hub, sockets, keeper, token);
    close_if_over(hub, sockets, keeper, token);
}

/// Closes a connection if it is at its end and nothing is left to write. Otherwise notes what it holds, and whether it
/// is to be read.
fn close_if_over<S: Sockets, C: Clock>(
    hub: &mut Hub,
    sockets: &mut S,
    keeper: &mut Keeper<'_, C>,
    token: usize,
)
    ensures { Serves (loop_of (state_of hub.old) (S.may_have sockets.old) (C.may_tell keeper.old.clock))
        (loop_of (state_of hub.new) (S.may_have sockets.new) (C.may_tell keeper.new.clock)) }
{
    if hub.is_over(token) {
        dismiss(hub, sockets, keeper, token);
        return;
    }
    if let Some(held) = keeper.looks_at(hub, token) {
        sockets.hold(token, held);
    }
}

/// Makes the plans that a connection wants, writes what there is for it and goes on with it, as long as all is written
/// and its turn is not long.
fn advance<S: Sockets, C: Clock>(
    hub: &mut Hub,
    sockets: &mut S,
    keeper: &mut Keeper<'_, C>,
    token: usize,
)
    ensures { Serves (loop_of (state_of hub.old) (S.may_have sockets.old) (C.may_tell keeper.old.clock))
        (loop_of (state_of hub.new) (S.may_have sockets.new) (C.may_tell keeper.new.clock)) }
{
    for _round in 0..u64::MAX {
        if !go_on(hub, sockets, keeper, token) {
            return;
        }
        if keeper.puts_off(token) {
            return;
        }
    }
}

/// Makes the plan that a connection wants, or writes what there is for it. Then begins the recovery that it asks for,
/// or goes on with it if all was written and requests are left. Answers whether it did one of these.
fn go_on<S: Sockets, C: Clock>(
    hub: &mut Hub,
    sockets: &mut S,
    keeper: &mut Keeper<'_, C>,
    token: usize,
) -> bool
    ensures { Serves (loop_of (state_of hub.old) (S.may_have sockets.old) (C.may_tell keeper.old.clock))
        (loop_of (state_of hub.new) (S.may_have sockets.new) (C.may_tell keeper.new.clock)) }
{
    if judge(hub, sockets, keeper, token) {
        return true;
    }
    let written = write_some(hub, sockets, keeper, token);
    if hub.asks_recovery(token) {
        return begin(hub, sockets, keeper, token);
    }
    if !written || !hub.has_stopped(token) {
        return false;
    }
    further(hub, keeper, token)
}

/// Goes on with a connection at the book, and counts what it is to be sent. Answers whether there is such a connection.
pub(crate) fn further<C: Clock>(hub: &mut Hub, keeper: &mut Keeper<'_, C>, token: usize) -> bool
    ensures { Keeps (C.may_tell keeper.old.clock) (state_of hub.old) (C.may_tell keeper.new.clock) (state_of hub.new) }
{
    let before = unsent_len(hub, token);
    let there = hub.go_on(keeper.alloc, token, keeper.now());
    keeper.weighs(added(before, unsent_len(hub, token)));
    there
}

/// Writes what there is for a connection. Answers whether there was something, and all of it was written.
fn write_some<S: Sockets, C: Clock>(
    hub: &mut Hub,
    sockets: &mut S,
    keeper: &mut Keeper<'_, C>,
    token: usize,
) -> bool
    ensures { Serves (loop_of (state_of hub.old) (S.may_have sockets.old) (C.may_tell keeper.old.clock))
        (loop_of (state_of hub.new) (S.may_have sockets.new) (C.may_tell keeper.new.clock)) }
{
    let Some(bytes) = hub.unsent(token) else {
        return false;
    };
    let length = bytes.len();
    if length == 0 {
        return false;
    }
    let count = sockets.write(token, bytes);
    hub.sent(token, count);
    keeper.sends(token, count);
    count == length
}

/// Answers the reads whose deadline is reached, goes on with recoveries, serves connections that have a letter, goes on
/// with one that was put off, and drops old records.
fn settle<S: Sockets, C: Clock>(hub: &mut Hub, sockets: &mut S, keeper: &mut Keeper<'_, C>)
    ensures { Serves (loop_of (state_of hub.old) (S.may_have sockets.old) (C.may_tell keeper.old.clock))
        (loop_of (state_of hub.new) (S.may_have sockets.new) (C.may_tell keeper.new.clock)) }
{
    tick(hub, keeper);
    go_on_with_recoveries(hub, sockets, keeper);
    hand_letters(hub, sockets, keeper);
    // Before others go on, who have the book make records that are not looked at yet.
    keeper.forget(hub);
    look_after(hub, sockets, keeper);
}

/// Goes on with one connection that was put off, and looks at all of them if that was not done for a while.
fn look_after<S: Sockets, C: Clock>(hub: &mut Hub, sockets: &mut S, keeper: &mut Keeper<'_, C>)
    ensures { Serves (loop_of (state_of hub.old) (S.may_have sockets.old) (C.may_tell keeper.old.clock))
        (loop_of (state_of hub.new) (S.may_have sockets.new) (C.may_tell keeper.new.clock)) }
{
    resume(hub, sockets, keeper);
    sweep(hub, sockets, keeper);
}

/// Answers the reads whose deadline is reached, if that was not looked at for a while.
fn tick<C: Clock>(hub: &mut Hub, keeper: &mut Keeper<'_, C>)
    ensures { Keeps (C.may_tell keeper.old.clock) (state_of hub.old) (C.may_tell keeper.new.clock) (state_of hub.new) }
{
    if keeper.is_tick() {
        // One that is refused is made up for by the next.
        let _due = hub.tick(keeper.alloc, keeper.now());
        keeper.rests(hub.book().due(u64::MAX));
    }
}

/// Goes on with connections that were given their replies while they waited, and writes to them: with the others later,
/// if that takes long.
fn hand_letters<S: Sockets, C: Clock>(hub: &mut Hub, sockets: &mut S, keeper: &mut Keeper<'_, C>)
    ensures { Serves (loop_of (state_of hub.old) (S.may_have sockets.old) (C.may_tell keeper.old.clock))
        (loop_of (state_of hub.new) (S.may_have sockets.new) (C.may_tell keeper.new.clock)) }
{
    for _letter in 0..u64::MAX {
        let Some(token) = keeper.next_lettered(hub) else {
            return;
        };
        hand(hub, sockets, keeper, token);
        if keeper.is_long() {
            return;
        }
    }
}

/// Hands a connection its reply, and goes on with it.
fn hand<S: Sockets, C: Clock>(
    hub: &mut Hub,
    sockets: &mut S,
    keeper: &mut Keeper<'_, C>,
    token: usize,
)
    ensures { Serves (loop_of (state_of hub.old) (S.may_have sockets.old) (C.may_tell keeper.old.clock))
        (loop_of (state_of hub.new) (S.may_have sockets.new) (C.may_tell keeper.new.clock)) }
{
    further(hub, keeper, token);
    keeper.hears_of(token);
    attend(hub, sockets, keeper, token);
}

/// Goes on with the connection that was put off first, if one was and others had their share.
fn resume<S: Sockets, C: Clock>(hub: &mut Hub, sockets: &mut S, keeper: &mut Keeper<'_, C>)
    ensures { Serves (loop_of (state_of hub.old) (S.may_have sockets.old) (C.may_tell keeper.old.clock))
        (loop_of (state_of hub.new) (S.may_have sockets.new) (C.may_tell keeper.new.clock)) }
{
    if !keeper.may_resume() {
        return;
    }
    if let Some(token) = keeper.goes_on() {
        attend(hub, sockets, keeper, token);
    }
}

/// Looks at all connections, if that was not done for a while.
fn sweep<S: Sockets, C: Clock>(hub: &mut Hub, sockets: &mut S, keeper: &mut Keeper<'_, C>)
    ensures { Serves (loop_of (state_of hub.old) (S.may_have sockets.old) (C.may_tell keeper.old.clock))
        (loop_of (state_of hub.new) (S.may_have sockets.new) (C.may_tell keeper.new.clock)) }
{
    if !keeper.is_sweep() {
        return;
    }
    for token in 0..hub.tokens() {
        look_at(hub, sockets, keeper, token);
    }
}

/// Looks at one connection: whether it was closed and its session could not leave, it has a letter, or it has been idle
/// for too long.
fn look_at<S: Sockets, C: Clock>(
    hub: &mut Hub,
    sockets: &mut S,
    keeper: &mut Keeper<'_, C>,
    token: usize,
)
    ensures { Serves (loop_of (state_of hub.old) (S.may_have sockets.old) (C.may_tell keeper.old.clock))
        (loop_of (state_of hub.new) (S.may_have sockets.new) (C.may_tell keeper.new.clock)) }
{
    if keeper.watch.is_over(token) {
        dismiss(hub, sockets, keeper, token);
    } else if hub.has_letter(token) {
        hand(hub, sockets, keeper, token);
    } else if keeper.gives_up(hub, token) {
        dismiss(hub, sockets, keeper, token);
    }
}
