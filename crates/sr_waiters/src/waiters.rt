ghost use Rattle.std.specs.Prelude.{◌≡◌, ℕ, Bool, IfOk, IsTrue, false};
ghost use Rattle.std.specs.Map.{keys_of};
ghost use Rattle.sr_args.specs.declared.call.Call as calls;
ghost use Rattle.sr_waiters.specs.Calls.{ComputesTest};
ghost use Rattle.sr_waiters.specs.Index.{IsIndexed, reads_of, sessions_by};
ghost use Rattle.sr_waiters.specs.Layout.{NoneIsDueBefore, shown_reads};
ghost use Rattle.sr_waiters.specs.Waiters.{AreOnce, first_that, is_reached, session_of};

use crate::index::{Index, asks, put_if_indexed, put_read, take_read};
use crate::queue::Queue;
use sr_args::Call;
use sr_bytes::Name;
use std::alloc::{AllocError, Global};
use std::collections::HashMap;
use std::hash::RandomState;
use std::marker::Model;

/// A call that waits, and when it is answered whatever is there.
#[derive(Drop)]
struct Blocked {
    call: Call,
    deadline: Option<u64>,
}

impl Blocked {
    ghost use Rattle.std.specs.Prelude.{◌≡◌};
    ghost use Rattle.sr_waiters.specs.Waiters.{is_reached};

    /// Whether the deadline is reached.
    fn is_due(&self, moment: u64) -> bool
        ensures { result ≡ is_reached self.now.deadline moment }
    {
        is_reached(self.deadline, moment)
    }
}

/// Reads that wait for entries, in the order in which they blocked, each session once.
pub struct Waiters {
    reads: Queue<Blocked>,
    index: Index,
    /// Whether the index has each read: not if memory for it was refused when the last one joined.
    indexed: bool,
    /// No read is due before this moment. None: no read is due ever.
    soonest: Option<u64>,
}

// A function of its own, so that a caller that lets go of one is proved without looking at its parts.
impl Drop for Waiters {
    fn drop(self) {
        let Waiters {
            reads: _,
            index: _,
            indexed: _,
            soonest: _,
        } = self;
    }
}

impl Model for Waiters {
    ghost use Rattle.std.specs.Prelude.{nat_eq, IsTrue};
    ghost use Rattle.std.specs.List.{IsDistinct};
    ghost use Rattle.std.specs.Map.{keys_of};
    ghost use Rattle.sr_waiters.specs.Waiters.{WaitersState};
    ghost use Rattle.sr_waiters.specs.Index.{IsIndexed};
    ghost use Rattle.sr_waiters.specs.Layout.{NoneIsDueBefore, shown_reads};

    ghost Value = { WaitersState };

    ghost view = { λ w. record { list = shown_reads w.reads.entries; room = w.reads.room } };

    ghost invariant = { λ w. IsDistinct nat_eq (keys_of w.reads.entries)
        × (IsTrue w.indexed → IsIndexed w.index (shown_reads w.reads.entries))
        × NoneIsDueBefore w.soonest (shown_reads w.reads.entries) };
}

impl Waiters {
    ghost use Rattle.std.specs.Prelude.{◌≡◌, ◌+◌, ◌<◌, ◌≤◌, ◌++◌, ◌&&◌, [], ◌∷◌, Bool, false, IfOk, OnOk, OnErr};
    ghost use Rattle.std.specs.Prelude.{length, slice_get};
    ghost use Rattle.std.specs.List.{list_any};
    ghost use Rattle.std.specs.Option.{option_copied};
    ghost use Rattle.sr_args.specs.declared.call.Call as calls;
    ghost use Rattle.sr_waiters.specs.Calls.{ComputesTest};
    ghost use Rattle.sr_waiters.specs.Waiters.{AreOnce, asks, has_session, is_due, due_at, first_that, without_session};
    ghost use Rattle.sr_waiters.specs.Waiters.{call_of, read_of, session_of};

    /// No reads. Takes no memory.
    pub fn new(alloc: Global, hasher: RandomState) -> Waiters
        ensures { result.list ≡ [] }
    {
        Waiters {
            reads: Queue::new(alloc, hasher),
            index: HashMap::with_hasher(alloc, hasher),
            indexed: true,
            soonest: None,
        }
    }

    /// How many reads wait.
    pub fn len(&self) -> usize
        ensures { result ≡ length self.now.list }
    {
        self.reads.len()
    }

    /// Makes room for more reads, the only step of a `join` that can fail.
    pub fn reserve(&mut self, additional: usize) -> Result<(), AllocError>
        ensures list { self.new.list ≡ self.old.list }
        ensures room { OnOk result (additional ≤ self.new.room) }
        ensures keeps { self.old.room ≤ self.new.room }
        ensures full { OnErr result (self.old.room < additional) }
    {
        self.reads.reserve(additional)
    }

    /// The read goes last. It needs no memory: if memory for the index is refused, the reads do without it until the
    /// next one joins.
    #[tactic(auto, using(crate::proofs::ReadLemmas::shown_joined))]
    pub fn join(&mut self, session: u64, call: Call, deadline: Option<u64>)
        requires room { 0 < self.old.room }
        requires absent { has_session session self.old.list ≡ false }
        ensures list { self.new.list ≡
            self.old.list ++ record { session = session; call = call; deadline = deadline } ∷ [] }
        ensures room { self.old.room ≤ self.new.room + 1 }
    {
        let alloc = *self.reads.allocator();
        let indexed = index_again(&mut self.index, alloc, self.indexed, &self.reads);
        self.indexed = put_if_indexed(&mut self.index, alloc, indexed, &call, session);
        self.soonest = earlier(self.soonest, deadline);
        let read = Blocked { call, deadline };
        self.reads.push(session, read);
    }

    /// Takes the session's read away, and answers whether it waited. Takes no memory.
    #[tactic(auto, using(crate::proofs::ReadLemmas::has_session_shown, crate::proofs::ReadLemmas::shown_left))]
    pub fn leave(&mut self, session: u64) -> bool
        ensures there { result ≡ has_session session self.old.list }
        ensures list { self.new.list ≡ without_session session self.old.list }
        ensures room { self.old.room ≤ self.new.room }
    {
        match self.reads.remove(session) {
            None => false,
            Some(read) => {
                take_read(&mut self.index, &read.call, session);
                drop(read);
                true
            }
        }
    }

    /// Whether the session waits.
    #[tactic(auto, using(crate::proofs::ReadLemmas::has_session_shown))]
    pub fn has(&self, session: u64) -> bool
        ensures { result ≡ has_session session self.now.list }
    {
        self.reads.contains(session)
    }

    /// The call that the session waits with.
    #[tactic(auto, using(crate::proofs::ReadLemmas::call_of_shown))]
    pub fn call_of(&self, session: u64) -> Option<&Call>
        ensures { option_copied result ≡ call_of (read_of session self.now.list) }
    {
        match self.reads.get(session) {
            None => None,
            Some(read) => Some(&read.call),
        }
    }

    /// The session of the first read, in order of blocking, whose call passes the test.
    ///
    /// The clause is for each test that the closure computes. After `|call| keys.is_ready(call)` it is the one that the
    /// clause of `is_ready` says.
    #[tactic(auto, using(crate::proofs::ReadLemmas::search_by_call))]
    pub fn first_where<F: Fn(&Call) -> bool>(&self, passes: F) -> Option<u64>
        requires { F.IsAlwaysCallable passes }
        ensures { (test : calls.Call → Bool) → ComputesTest F.Fn test passes
            → result ≡ session_of (first_that test self.now.list) }
    {
        for (session, read) in self.reads.iter() {
            if passes(&read.call) {
                return Some(*session);
            }
        }
        None
    }

    /// The session of the first read, in order of blocking, that asks the stream at the key and whose call passes the
    /// test. It looks at no read of other keys.
    ///
    /// The clause is for each test that the closure computes, as that of `first_where` is.
    pub fn first_at<F: Fn(&Call) -> bool>(&self, key: &Name, passes: F) -> Option<u64>
        requires { F.IsAlwaysCallable passes }
        ensures { (test : calls.Call → Bool) → ComputesTest F.Fn test passes
            → result ≡ session_of (first_that (λ call. asks key.now call && test call) self.now.list) }
    {
        if self.reads.is_empty() {
            return None;
        }
        if self.indexed {
            return first_by_index(&self.reads, &self.index, key, passes);
        }
        self.first_where(|call| asks(call, key) && passes(call))
    }

    /// Whether the deadline of a read is reached.
    #[tactic(auto, using(crate::proofs::ReadLemmas::is_some_first_due))]
    pub fn due(&self, moment: u64) -> bool
        ensures { result ≡ list_any (is_due moment) self.now.list }
    {
        self.first_due(moment).is_some()
    }

    /// The session of the first read whose deadline is reached.
    #[tactic(auto, using(crate::proofs::ReadLemmas::search_by_deadline))]
    pub fn first_due(&self, moment: u64) -> Option<u64>
        ensures { result ≡ session_of (slice_get (due_at moment self.now.list) 0) }
    {
        if !is_reached(self.soonest, moment) {
            return None;
        }
        for (session, read) in self.reads.iter() {
            if read.is_due(moment) {
                return Some(*session);
            }
        }
        None
    }

    /// Finds out anew when the next read may be due, if one may be at this moment. Until then `due` and `first_due`
    /// look at none. What contracts see stays as it is. Takes no memory.
    pub fn look(&mut self, moment: u64)
        ensures { self.new ≡ self.old }
    {
        if is_reached(self.soonest, moment) {
            self.soonest = soonest_of(&self.reads);
        }
    }

    /// A second list of the same reads.
    #[tactic(auto, using(crate::proofs::CopyLemmas::copies_reads))]
    pub fn copy(&self, alloc: Global) -> Result<Waiters, AllocError>
        ensures { IfOk result (λ copy. copy.list ≡ self.now.list) }
    {
        let mut copy = Waiters::new(alloc, *self.reads.hasher());
        copy.reserve(self.len())?;
        for (session, read) in self.reads.iter() {
            let call = read.call.copy(alloc)?;
            copy.join(*session, call, read.deadline);
        }
        Ok(copy)
    }

    /// Law: each session waits once at most. Calling this has no effect.
    #[tactic(auto, using(crate::proofs::ReadLemmas::once_shown))]
    pub fn once(&self)
        ensures { AreOnce self.now.list }
    {
        let _ = &self.reads;
    }
}

/// Whether a deadline is reached.
fn is_reached(deadline: Option<u64>, moment: u64) -> bool
    ensures { result ≡ is_reached deadline moment }
{
    match deadline {
        None => false,
        Some(deadline) => deadline <= moment,
    }
}

/// The earlier of two deadlines.
fn earlier(a: Option<u64>, b: Option<u64>) -> Option<u64>
    ensures a { (moment : ℕ) → is_reached result moment ≡ false → is_reached a moment ≡ false }
    ensures b { (moment : ℕ) → is_reached result moment ≡ false → is_reached b moment ≡ false }
{
    match (a, b) {
        (None, b) => b,
        (a, None) => a,
        (Some(a), Some(b)) => Some(if a <= b { a } else { b }),
    }
}

/// The earliest deadline of these reads.
fn soonest_of(reads: &Queue<Blocked>) -> Option<u64>
    ensures { NoneIsDueBefore result (shown_reads reads.now.entries) }
{
    let mut soonest = None;
    for (_, read) in reads.iter() {
        soonest = earlier(soonest, read.deadline);
    }
    soonest
}

/// Makes the index of these reads anew if it has not each of them. Answers whether it has: not if memory is refused.
fn index_again(index: &mut Index, alloc: Global, indexed: bool, reads: &Queue<Blocked>) -> bool
    requires once { AreOnce (shown_reads reads.now.entries) }
    requires indexed { IsTrue indexed → IsIndexed index.old (shown_reads reads.now.entries) }
    ensures { IsTrue result → IsIndexed index.new (shown_reads reads.now.entries) }
{
    if indexed {
        return true;
    }
    match index_of(alloc, reads) {
        Ok(anew) => {
            *index = anew;
            true
        }
        Err(AllocError) => false,
    }
}

/// An index of these reads.
fn index_of(alloc: Global, reads: &Queue<Blocked>) -> Result<Index, AllocError>
    requires { AreOnce (shown_reads reads.now.entries) }
    ensures { IfOk result (λ index. IsIndexed index (shown_reads reads.now.entries)) }
{
    let mut index = HashMap::with_hasher(alloc, *reads.hasher());
    for (session, read) in reads.iter() {
        put_read(&mut index, alloc, &read.call, *session)?;
    }
    Ok(index)
}

/// The first session of the key, as the index has them, that waits with a call that passes the test.
fn first_by_index<F: Fn(&Call) -> bool>(
    reads: &Queue<Blocked>,
    index: &Index,
    key: &Name,
    passes: F,
) -> Option<u64>
    requires { F.IsAlwaysCallable passes }
    ensures { (test : calls.Call → Bool) → ComputesTest F.Fn test passes
        → result ≡ session_of
        (first_that test (reads_of (sessions_by index.now key.now) (shown_reads reads.now.entries))) }
{
    match index.get(key) {
        None => None,
        Some(sessions) => first_among(reads, sessions, passes),
    }
}

/// The first of these sessions that waits with a call that passes the test.
fn first_among<F: Fn(&Call) -> bool>(
    reads: &Queue<Blocked>,
    sessions: &Queue<()>,
    passes: F,
) -> Option<u64>
    requires { F.IsAlwaysCallable passes }
    ensures { (test : calls.Call → Bool) → ComputesTest F.Fn test passes
        → result ≡ session_of
        (first_that test (reads_of (keys_of sessions.now.entries) (shown_reads reads.now.entries))) }
{
    for (session, _) in sessions.iter() {
        if let Some(found) = reads.get(*session) {
            if passes(&found.call) {
                return Some(*session);
            }
        }
    }
    None
}
