use sr_plan::Verdict;
use sr_policy::Snapshot;

/// What the network did next.
#[derive(Clone, Copy, Debug, PartialEq, Eq)]
pub enum Heard {
    /// A connection came. It has no token yet.
    Came,
    /// The next bytes of a connection: this many, at the front of the buffer.
    Bytes { token: usize, count: usize },
    /// A connection can be written to again.
    Room { token: usize },
    /// A connection is over.
    Over { token: usize },
    /// A plan was made elsewhere.
    Planned,
    /// Nothing, for as long as was asked for.
    Nothing,
    /// Nothing will ever come again.
    End,
}

/// A snapshot on which a verdict is wanted, and the connection that wants it.
#[derive(Drop)]
pub struct Job {
    /// The connection's token.
    pub token: usize,
    /// Its session: a later connection can have the same token.
    pub session: u64,
    /// What is to be judged.
    pub snapshot: Snapshot,
}

/// What came of a job.
#[derive(Drop)]
pub struct Planned {
    /// The token that the job had.
    pub token: usize,
    /// The session that it had.
    pub session: u64,
    /// The verdict; `None` if memory was lacking for it.
    pub verdict: Option<Verdict>,
}

/// What an event loop has outside of it: sockets, each at the token that it was given, and whoever makes the plans
/// that take long.
pub trait Sockets {
    ghost use Rattle.std.specs.Prelude.{◌≤◌, length, take};
    ghost use Rattle.sr_hub.specs.Heard.{count_of, passed_by};
    ghost use Rattle.sr_hub.specs.Traffic.{Traffic, closes, gives, names};

    /// Whether this may have passed through them: which connections are open, the bytes that were handed out of each
    /// and those that were written to it, and the same of each that was closed. Of sockets that a system holds, no
    /// clause can say more than that it may.
    ghost may_have: { Self → Traffic → Type 0 };

    /// Waits for what comes next, at most this many milliseconds, or for as long as nothing comes.
    fn next(&mut self, buffer: &mut [u8], wait: Option<u64>) -> Heard
        ensures bound { count_of result ≤ length buffer.new }
        ensures bytes { (traffic : Traffic) → may_have self.old traffic
            → may_have self.new (passed_by result buffer.new traffic) };

    /// The connection that came last has this token from now on.
    fn name(&mut self, token: usize)
        ensures { (traffic : Traffic) → may_have self.old traffic → may_have self.new (names token traffic) };

    /// Tells the client of the connection that came last that there is no place for it, and closes the connection.
    fn turn_away(&mut self)
        ensures { (traffic : Traffic) → may_have self.old traffic → may_have self.new traffic };

    /// Closes the connection that came last.
    fn refuse(&mut self)
        ensures { (traffic : Traffic) → may_have self.old traffic → may_have self.new traffic };

    /// Writes some of these bytes, from the first on, and answers how many: none if there is no room for them, or no
    /// such connection.
    fn write(&mut self, token: usize, bytes: &[u8]) -> usize
        ensures bound { result ≤ length bytes.now }
        ensures bytes { (traffic : Traffic) → may_have self.old traffic
            → may_have self.new (gives token (take result bytes.now) traffic) };

    /// Reads no bytes of a connection from now on, or reads them again: what it sends waits outside meanwhile. That it
    /// is over is told all the same, but not that its client will send no more.
    fn hold(&mut self, token: usize, held: bool)
        ensures { (traffic : Traffic) → may_have self.old traffic → may_have self.new traffic };

    /// Closes a connection, if there is one.
    fn close(&mut self, token: usize)
        ensures { (traffic : Traffic) → may_have self.old traffic → may_have self.new (closes token traffic) };

    /// Has a plan made elsewhere, of which `planned` tells once it is made. Answers whether it will be: if not, the
    /// loop makes it itself.
    fn plan(&mut self, job: Job) -> bool
        ensures { (traffic : Traffic) → may_have self.old traffic → may_have self.new traffic };

    /// Whether a plan is made elsewhere for a session, and was not told yet.
    fn is_planning(&self, session: u64) -> bool;

    /// Whether as many plans are wanted elsewhere as may be at a time.
    fn is_busy(&self) -> bool;

    /// What came of a job, if there is one that is done and was not told yet.
    fn planned(&mut self) -> Option<Planned>
        ensures { (traffic : Traffic) → may_have self.old traffic → may_have self.new traffic };
}
