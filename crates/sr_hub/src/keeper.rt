ghost use Rattle.std.specs.Prelude.{◌≡◌, ◌<◌, ℕ, Bool};
ghost use Rattle.sr_book.specs.Records.{last_index};
ghost use Rattle.sr_hub.specs.Lines.{IsLettered, state_of};
ghost use Rattle.sr_hub.specs.steps.Serving.{Keeps};

use crate::past::{Bounds, Past};
use crate::watch::{Watch, has_unsent};
use crate::{Heard, Hub};
use sr_session::Clock;
use std::alloc::{AllocError, Global};
use std::collections::VecDeque;
use std::marker::Model;

/// While a read with a deadline waits, its deadline is looked at this often, in milliseconds.
const TICK: u64 = 10;

/// How often all connections are looked at, in milliseconds.
const SWEEP: u64 = 1_000;

/// After how long all connections are looked at again if some have been idle for too long, in milliseconds: what they
/// sent while the loop did something else is read by then.
const AGAIN: u64 = 100;

/// After how long others have their turn while a connection has more to be answered, in milliseconds.
const LONG: u64 = 5;

/// A connection that was put off goes on once others had this many times as long as the last long turn took.
const SHARE: u64 = 2;

/// How many records are let go between two looks at the clock: one with a verdict takes long.
const FEW: usize = 8;

/// If others came meanwhile it goes on before only if nothing comes for this long, in milliseconds: who was answered
/// needs a moment to ask again.
const PAUSE: u64 = 1;

/// Within which bounds a loop keeps what it serves.
#[derive(Clone, Copy)]
pub struct Habits {
    /// How many connections are served at a time, with those that are over and whose session could not leave yet.
    /// Further ones are turned away.
    pub connections: usize,
    /// How many records are kept: if there are more, a checkpoint is made. None: all of them.
    pub keep: Option<u64>,
    /// About how many bytes they take at most: if they take more, a checkpoint is made too. Requests and replies are
    /// counted by their bytes, verdicts by what they are of, and each record by some more.
    pub keep_bytes: u64,
    /// A connection that does not wait is closed once no byte of it was read or written for this many milliseconds.
    /// None: never.
    pub idle: Option<u64>,
    /// The same for one whose read waits.
    pub idle_waiting: Option<u64>,
    /// How many bytes requests that are not answered yet may hold together, not counting the first 16 KiB of each
    /// connection. A connection that sends more is closed.
    pub unfinished: u64,
    /// After how many turns the loop ends.
    pub turns: u64,
}

/// What a loop needs from turn to turn beside its hub and its sockets.
#[derive(Drop)]
pub(crate) struct Keeper<'a, C: Clock> {
    pub(crate) alloc: Global,
    pub(crate) clock: &'a C,
    pub(crate) habits: Habits,
    pub(crate) watch: Watch,
    /// What the clock told last.
    moment: u64,
    /// When deadlines were looked at last, and when all connections were.
    ticked: u64,
    swept: u64,
    /// Whether some connections were idle for too long then, and are looked at again soon.
    idles: bool,
    /// Whether nothing came since then, and no read with a deadline waits.
    quiet: bool,
    /// Whether something came since the last long turn.
    others: bool,
    /// Whether the sockets were asked last to wait as long as who was put off has to wait at least.
    paused: bool,
    /// Whether nothing came then.
    still: bool,
    /// When the turn of a connection began.
    began: u64,
    /// When the last long turn ended, and how long it took.
    ended: u64,
    took: u64,
    /// Connections that had a long turn and have more to be answered.
    later: VecDeque<usize>,
    /// Connections that wait until their recoveries can be begun, or their plans be made elsewhere.
    wanting: VecDeque<usize>,
    /// Whether plans may be there that were made elsewhere.
    planned: bool,
    past: Past,
}

impl<'a, C: Clock> Model for Keeper<'a, C> {
    ghost use Rattle.std.specs.Prelude.{IsTrue};
    ghost use Rattle.sr_hub.specs.steps.Serving.{KeeperState};

    ghost Value = { KeeperState C };

    ghost view = { λ k. record { clock = k.clock.now; later = k.later.items } };

    ghost invariant = { λ k. IsTrue (C.may_tell k.clock.now k.moment) };
}

impl<'a, C: Clock> Keeper<'a, C> {
    ghost use Rattle.std.specs.Prelude.{◌≡◌, ℕ, Bool, IsTrue, [], ◌∷◌, ◌++◌, true, false, IfSome, IfNone};

    /// That of a loop which begins.
    pub(crate) fn new(alloc: Global, clock: &'a C, habits: Habits) -> Keeper<'a, C>
        ensures { result.clock ≡ clock.now }
    {
        Keeper {
            alloc,
            clock,
            habits,
            watch: Watch::new(alloc),
            moment: clock.now(),
            ticked: 0,
            swept: 0,
            idles: false,
            quiet: false,
            others: false,
            paused: false,
            still: false,
            began: 0,
            ended: 0,
            took: 0,
            later: VecDeque::new(alloc),
            wanting: VecDeque::new(alloc),
            planned: false,
            past: Past::new(alloc),
        }
    }

    /// Whether there is no place for a further connection.
    pub(crate) fn is_full(&self) -> bool {
        self.watch.len() >= self.habits.connections
    }

    /// What the clock told last.
    pub(crate) fn now(&self) -> u64
        ensures { IsTrue (C.may_tell self.now.clock result) }
    {
        self.moment
    }

    /// Looks at the clock.
    pub(crate) fn looks_up(&mut self)
        ensures { self.new ≡ self.old }
    {
        self.moment = self.clock.now();
    }

    /// How long the loop may wait for what comes next, in milliseconds: not at all while something is left to be done,
    /// and not long while a connection was put off. `place` says whether a further plan may be made elsewhere.
    pub(crate) fn patience(&mut self, hub: &Hub, place: bool) -> Option<u64>
        ensures { self.new ≡ self.old }
    {
        let wait = if self.has_more(hub) {
            0
        } else if self.has_put_off(place) {
            if self.others { PAUSE } else { 0 }
        } else if self.quiet && !self.idles {
            SWEEP
        } else {
            TICK
        };
        self.paused = wait >= PAUSE || !self.others;
        Some(wait)
    }

    /// Whether something is left to be done at once: letters, or records to let go of.
    fn has_more(&self, hub: &Hub) -> bool {
        self.watch.is_behind(hub.book()) || self.past.has_dropped()
    }

    /// Whether something is left to be done once others had their share: of a connection that was put off, or of a
    /// recovery.
    fn has_put_off(&self, place: bool) -> bool {
        !self.later.is_empty() || self.planned || (place && !self.wanting.is_empty())
    }

    /// This came just now.
    pub(crate) fn hears(&mut self, heard: Heard)
        ensures { self.new ≡ self.old }
    {
        self.begins();
        self.still = heard == Heard::Nothing && self.paused;
        if heard != Heard::Nothing {
            self.quiet = false;
            self.others |= heard != Heard::Planned;
        }
    }

    /// The turn of a connection begins.
    pub(crate) fn begins(&mut self)
        ensures { self.new ≡ self.old }
    {
        self.looks_up();
        self.began = self.moment;
    }

    /// Whether a turn is long that began when the last one did.
    pub(crate) fn is_long(&self) -> bool {
        self.clock.now().saturating_sub(self.began) >= LONG
    }

    /// Whether a connection that has more to be answered goes on later, since its turn is long already. If memory is
    /// refused for that it goes on now.
    pub(crate) fn puts_off(&mut self, token: usize) -> bool
        ensures clock { self.new.clock ≡ self.old.clock }
        ensures later { result ≡ true → self.new.later ≡ self.old.later ++ token ∷ [] }
        ensures now { result ≡ false → self.new.later ≡ self.old.later }
    {
        let now = self.clock.now();
        let took = now.saturating_sub(self.began);
        if took < LONG || self.later.push_back(token).is_err() {
            return false;
        }
        self.watch.note_later(token, true);
        self.pauses(now, took);
        true
    }

    /// Something of a recovery was done since this moment. If it took a while others have their share of the time now.
    pub(crate) fn tires(&mut self, since: u64)
        ensures { self.new ≡ self.old }
    {
        let now = self.clock.now();
        let took = now.saturating_sub(since);
        if took > 0 {
            self.pauses(now, took);
        }
    }

    /// What took so long ended now: others have their share of the time.
    fn pauses(&mut self, now: u64, took: u64)
        ensures { self.new ≡ self.old }
    {
        self.ended = now;
        self.took = took;
        self.others = false;
        self.still = false;
    }

    /// Whether what takes long may go on: nobody else comes, or others had their share of the time.
    pub(crate) fn may_resume(&self) -> bool {
        self.still || self.moment.saturating_sub(self.ended) >= self.took.saturating_mul(SHARE)
    }

    /// A connection that goes on now since it was put off, the one that has waited longest.
    pub(crate) fn goes_on(&mut self) -> Option<usize>
        ensures clock { self.new.clock ≡ self.old.clock }
        ensures some { IfSome result (λ token. self.old.later ≡ token ∷ self.new.later) }
        ensures none { IfNone result (self.old.later ≡ []) }
    {
        let token = self.later.pop_front()?;
        self.begins();
        self.watch.note_later(token, false);
        Some(token)
    }

    /// Whether a connection may begin a recovery that asks for one now: none waits for that, and others had their share
    /// of the time.
    pub(crate) fn may_begin(&self) -> bool {
        self.wanting.is_empty() && self.may_resume()
    }

    /// Has a connection wait until its recovery can be begun, or its plan be made elsewhere. Answers whether it does:
    /// not if memory is refused.
    pub(crate) fn waits_for_plan(&mut self, token: usize) -> bool
        ensures { self.new ≡ self.old }
    {
        if self.watch.is_wanting(token) {
            return true;
        }
        if self.wanting.push_back(token).is_err() {
            return false;
        }
        self.watch.note_wanting(token, true);
        true
    }

    /// The connection that has waited longest for that. It waits no longer.
    pub(crate) fn wants_plan(&mut self) -> Option<usize>
        ensures { self.new ≡ self.old }
    {
        let token = self.wanting.pop_front()?;
        self.begins();
        self.watch.note_wanting(token, false);
        Some(token)
    }

    /// Notes whether plans may be there that were made elsewhere.
    pub(crate) fn note_planned(&mut self, planned: bool)
        ensures { self.new ≡ self.old }
    {
        self.planned = planned;
    }

    /// Whether plans may be there that were made elsewhere.
    pub(crate) fn expects_plans(&self) -> bool {
        self.planned
    }

    /// Whether a connection is not to be read now: something is left to be done of what it asked for, or it does not
    /// read its replies while requests that are not answered yet hold much.
    fn holds_back(&self, hub: &Hub, token: usize) -> bool {
        self.is_underway(hub, token)
            || (self.watch.total() > self.habits.unfinished / 2 && has_unsent(hub, token))
    }

    /// Whether something is left to be done of what a connection asked for: it was put off, or its recovery is not
    /// concluded.
    fn is_underway(&self, hub: &Hub, token: usize) -> bool {
        self.watch.is_later(token) || hub.asks_recovery(token) || hub.wants_verdict(token).is_some()
    }

    /// Whether deadlines are to be looked at: not since a while.
    pub(crate) fn is_tick(&mut self) -> bool
        ensures { self.new ≡ self.old }
    {
        let due = self.moment.saturating_sub(self.ticked) >= TICK;
        if due {
            self.ticked = self.moment;
        }
        due
    }

    /// Deadlines were looked at, and reads with one may wait on.
    pub(crate) fn rests(&mut self, waits: bool)
        ensures { self.new ≡ self.old }
    {
        self.quiet = !waits;
    }

    /// Whether all connections are to be looked at: not since a while.
    pub(crate) fn is_sweep(&mut self) -> bool
        ensures { self.new ≡ self.old }
    {
        let often = if self.idles { AGAIN } else { SWEEP };
        let due = self.moment.saturating_sub(self.swept) >= often;
        if due {
            self.swept = self.moment;
            self.idles = false;
        }
        due
    }

    /// Whether a connection is to be closed: it has been idle for too long, and was at the last look.
    pub(crate) fn gives_up(&mut self, hub: &Hub, token: usize) -> bool
        ensures { self.new ≡ self.old }
    {
        let idle = self.is_idle(hub, token);
        self.idles |= idle;
        self.watch.note_idle(token, idle)
    }

    /// Bytes of a connection were read or written, or it is given a reply for which it waited.
    pub(crate) fn hears_of(&mut self, token: usize)
        ensures { self.new ≡ self.old }
    {
        self.watch.hears(token, self.moment);
    }

    /// Whether a connection has been idle for too long. One is not while something is left to be done of what it asked
    /// for.
    fn is_idle(&self, hub: &Hub, token: usize) -> bool {
        if hub.session(token).is_none() || self.is_underway(hub, token) {
            return false;
        }
        let (most, since) = match hub.quiet_since(token) {
            Some(since) => (self.habits.idle, since),
            None => (self.habits.idle_waiting, 0),
        };
        match most {
            Some(most) => self
                .moment
                .saturating_sub(since.max(self.watch.heard(token)))
                >= most,
            None => false,
        }
    }

    /// So many bytes were written to a connection.
    pub(crate) fn sends(&mut self, token: usize, count: usize)
        ensures { self.new ≡ self.old }
    {
        if count > 0 {
            self.hears_of(token);
        }
    }

    /// Makes room to note one more connection.
    pub(crate) fn reserve(&mut self) -> Result<(), AllocError>
        ensures { self.new ≡ self.old }
    {
        self.watch.reserve()
    }

    /// A connection came to this token, and has the latest session.
    pub(crate) fn comes(&mut self, hub: &Hub, token: usize)
        ensures { self.new ≡ self.old }
    {
        self.watch.comes(hub, token);
    }

    /// The session of a connection left, or its leave was refused and is made up for later.
    pub(crate) fn goes(&mut self, token: usize, session: Option<u64>, left: bool)
        ensures { self.new ≡ self.old }
    {
        if left {
            self.watch.goes(session);
        } else {
            self.watch.note_over(token, true);
        }
    }

    /// Notes what a connection holds. Answers whether it is not to be read now, if that is new to the sockets.
    pub(crate) fn looks_at(&mut self, hub: &Hub, token: usize) -> Option<bool>
        ensures { self.new ≡ self.old }
    {
        self.watch.look_at(hub, token);
        let held = self.holds_back(hub, token);
        if self.watch.note_held(token, held) {
            Some(held)
        } else {
            None
        }
    }

    /// The next connection that was given its reply while it waited, if there is one that was not looked at yet.
    pub(crate) fn next_lettered(&mut self, hub: &Hub) -> Option<usize>
        ensures same { self.new ≡ self.old }
        ensures lettered { IfSome result (IsLettered (state_of hub.now)) }
    {
        self.watch.next_lettered(hub)
    }

    /// Bytes came or are to be sent, or a verdict is made: records say as many more.
    pub(crate) fn weighs(&mut self, bytes: u64)
        ensures { self.new ≡ self.old }
    {
        self.past.says(bytes);
    }

    /// Lets go of a part of the records that are kept no longer, and makes a checkpoint if the book keeps too many and
    /// each of them was looked at.
    pub(crate) fn forget(&mut self, hub: &mut Hub)
        ensures same { self.new ≡ self.old }
        ensures keeps { (may_tell : ℕ → Bool) → Keeps may_tell (state_of hub.old) may_tell (state_of hub.new) }
    {
        let Some(records) = self.habits.keep else {
            return;
        };
        let bytes = self.habits.keep_bytes;
        let bounds = Bounds { records, bytes };
        forget_seen(&mut self.past, &self.watch, self.clock, hub, bounds);
    }
}

/// The same, within these bounds. While a record is there that was not looked at, nothing is let go of.
fn forget_seen<C: Clock>(past: &mut Past, watch: &Watch, clock: &C, hub: &mut Hub, bounds: Bounds)
    ensures seen { watch.now.looked < last_index hub.old.book → hub.new ≡ hub.old }
    ensures keeps { (may_tell : ℕ → Bool) → Keeps may_tell (state_of hub.old) may_tell (state_of hub.new) }
{
    if watch.is_behind(hub.book()) {
        return;
    }
    let part = past.part(hub, bounds);
    lets_go(past, clock, part);
    past.cut(hub, bounds);
}

/// Lets go of so many of the records that are kept no longer, unless that takes long.
fn lets_go<C: Clock>(past: &mut Past, clock: &C, part: usize) {
    if !past.has_dropped() {
        return;
    }
    let since = clock.now();
    for _ in 0..part / FEW {
        past.lets_go(FEW);
        if clock.now().saturating_sub(since) >= LONG {
            return;
        }
    }
}
