ghost use Rattle.std.specs.Prelude.{◌≤◌, unwrap_or};

/// How the connections that come are served.
#[derive(Clone, Copy)]
pub enum Way {
    /// By threads, each of which serves one connection at a time.
    Workers(Working),
    /// By one loop, for all of them.
    Loop(Looping),
}

/// What threads serve.
#[derive(Clone, Copy)]
pub struct Working {
    /// How many there are, and so how many connections are served at a time.
    pub workers: usize,
    /// About this many bytes the kept records take at most: beyond them a checkpoint is made, if any is made at all.
    pub keep_bytes: u64,
    ghost recorded: { (1 ≤ keep_bytes) × (keep_bytes ≤ 1000000000000) },
}

/// What one loop serves.
#[derive(Clone, Copy)]
pub struct Looping {
    /// At most this many connections at a time.
    pub connections: usize,
    /// Seconds without a byte read or written after which one is closed, unless its read waits. None: never.
    pub idle: Option<u64>,
    /// Seconds without a byte read or written after which one is closed whose read waits. None: never.
    pub idle_waiting: Option<u64>,
    /// At most this many bytes of requests that are not answered yet, those of all connections together.
    pub unfinished: u64,
    /// About this many bytes the kept records take at most: beyond them a checkpoint is made, if any is made at all.
    pub keep_bytes: u64,
    ghost connected: { (1 ≤ connections) × (connections ≤ 10000) },
    ghost paused: { unwrap_or idle 0 ≤ 86400 },
    ghost waited: { unwrap_or idle_waiting 0 ≤ 86400 },
    ghost held: { (1 ≤ unfinished) × (unfinished ≤ 1000000000000) },
    ghost recorded: { (1 ≤ keep_bytes) × (keep_bytes ≤ 1000000000000) },
}
