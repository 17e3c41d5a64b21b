//! The numbers of the command line, each in its range.
ghost use Rattle.std.specs.Prelude.{◌≡◌, ◌≤◌, ℕ, Option, option_map, IfErr, IfOk, IfSome, IsNone};
ghost use Rattle.sr_options.specs.Command.{IsFaultOf};
ghost use Rattle.sr_options.specs.Numbers.{IsConnections, IsIdle, IsKeep, IsKeepBytes, IsNumber, IsUnfinished};
ghost use Rattle.sr_options.specs.Numbers.{IsWorkers};
ghost use Rattle.sr_options.specs.Options.{asked_of};
ghost use Rattle.sr_options.specs.steps.Read.{AreRead};

use crate::command::UsageFault;
use crate::options::Options;

/// The most threads that serve connections, and how many do without `--workers`.
const MOST_WORKERS: u64 = 64;

/// The most records that may be kept.
const MOST_KEPT: u64 = 1_000_000_000;

/// The most connections that one loop serves.
const MOST_CONNECTIONS: u64 = 10_000;

/// The most seconds without a byte after which a connection is closed: a day.
const MOST_SECONDS: u64 = 86_400;

/// The most bytes that requests which are not answered yet may hold together, and that kept records may take.
const MOST_BYTES: u64 = 1_000_000_000_000;

/// How many bytes requests may hold without `--unfinished`.
const UNFINISHED: u64 = 1 << 30;

/// About how many bytes kept records take at most without `--keep-bytes`.
const KEEP_BYTES: u64 = 1 << 26;

/// The numbers that the options give, or what stands for those that are not there.
#[derive(Clone, Copy)]
pub(crate) struct Numbers {
    /// How many threads serve connections, unless a loop does.
    pub(crate) workers: usize,
    /// How many records are kept. None: all of them.
    pub(crate) keep: Option<u64>,
    /// How many connections a loop serves. None: there is no loop.
    pub(crate) connections: Option<usize>,
    /// After how many seconds without a byte a connection is closed, unless its read waits. None: never.
    pub(crate) idle: Option<u64>,
    /// How many bytes the requests that are not answered yet may hold together.
    pub(crate) unfinished: u64,
    /// About how many bytes the records take at most that are kept.
    pub(crate) keep_bytes: u64,
    /// After how many seconds without a byte a connection is closed whose read waits. None: never.
    pub(crate) idle_waiting: Option<u64>,
}

/// The numbers of the options, or the first that is out of its range.
pub(crate) fn numbers_of(options: &Options<'_>) -> Result<Numbers, UsageFault>
    ensures ok { IfOk result (AreRead (asked_of options.now)) }
    ensures fault { IfErr result (IsFaultOf (asked_of options.now)) }
{
    let Some(workers) = workers_of(options.workers) else {
        return Err(UsageFault::Workers);
    };
    let Some(keep) = keep_of(options.keep) else {
        return Err(UsageFault::Keep);
    };
    let Some(connections) = connections_of(options.connections) else {
        return Err(UsageFault::Connections);
    };
    let Some(idle) = idle_of(options.idle) else {
        return Err(UsageFault::Idle);
    };
    let Some(unfinished) = unfinished_of(options.unfinished) else {
        return Err(UsageFault::Unfinished);
    };
    let Some(keep_bytes) = keep_bytes_of(options.keep_bytes) else {
        return Err(UsageFault::KeepBytes);
    };
    let Some(idle_waiting) = idle_of(options.idle_waiting) else {
        return Err(UsageFault::IdleWaiting);
    };
    Ok(Numbers {
        workers,
        keep,
        connections,
        idle,
        unfinished,
        keep_bytes,
        idle_waiting,
    })
}

/// How many threads serve connections. None if the text is no number for it.
fn workers_of(text: Option<&str>) -> Option<usize>
    ensures some { IfSome result (IsWorkers (option_map (λ text. text.now) text.entry)) }
    ensures none { IsNone result → (number : ℕ) → ¬ (IsWorkers (option_map (λ text. text.now) text.entry) number) }
{
    match text {
        None => Some(MOST_WORKERS as usize),
        Some(text) => match number_in(text, 1, MOST_WORKERS) {
            Some(number) => Some(number as usize),
            None => None,
        },
    }
}

/// How many records are kept, if that is bounded. None if the text is no number for it.
fn keep_of(text: Option<&str>) -> Option<Option<u64>>
    ensures some { IfSome result (IsKeep (option_map (λ text. text.now) text.entry)) }
    ensures none { IsNone result → (keep : Option ℕ) → ¬ (IsKeep (option_map (λ text. text.now) text.entry) keep) }
{
    match text {
        None => Some(None),
        Some(text) => match number_in(text, 1, MOST_KEPT) {
            Some(number) => Some(Some(number)),
            None => None,
        },
    }
}

/// How many connections a loop serves, if there is one. None if the text is no number for it.
fn connections_of(text: Option<&str>) -> Option<Option<usize>>
    ensures some { IfSome result (IsConnections (option_map (λ text. text.now) text.entry)) }
    ensures none { IsNone result → (connections : Option ℕ)
        → ¬ (IsConnections (option_map (λ text. text.now) text.entry) connections) }
{
    match text {
        None => Some(None),
        Some(text) => match number_in(text, 1, MOST_CONNECTIONS) {
            Some(number) => Some(Some(number as usize)),
            None => None,
        },
    }
}

/// After how many seconds without a byte a connection is closed, if it ever is. None if the text is no number for it.
fn idle_of(text: Option<&str>) -> Option<Option<u64>>
    ensures some { IfSome result (IsIdle (option_map (λ text. text.now) text.entry)) }
    ensures none { IsNone result → (idle : Option ℕ) → ¬ (IsIdle (option_map (λ text. text.now) text.entry) idle) }
{
    match text {
        None => Some(None),
        Some(text) => match number_in(text, 0, MOST_SECONDS) {
            Some(0) => Some(None),
            Some(number) => Some(Some(number)),
            None => None,
        },
    }
}

/// How many bytes requests may hold that are not answered yet. None if the text is no number for it.
fn unfinished_of(text: Option<&str>) -> Option<u64>
    ensures some { IfSome result (IsUnfinished (option_map (λ text. text.now) text.entry)) }
    ensures none { IsNone result → (number : ℕ) → ¬ (IsUnfinished (option_map (λ text. text.now) text.entry) number) }
{
    match text {
        None => Some(UNFINISHED),
        Some(text) => number_in(text, 1, MOST_BYTES),
    }
}

/// About how many bytes kept records take at most. None if the text is no number for it.
fn keep_bytes_of(text: Option<&str>) -> Option<u64>
    ensures some { IfSome result (IsKeepBytes (option_map (λ text. text.now) text.entry)) }
    ensures none { IsNone result → (number : ℕ) → ¬ (IsKeepBytes (option_map (λ text. text.now) text.entry) number) }
{
    match text {
        None => Some(KEEP_BYTES),
        Some(text) => number_in(text, 1, MOST_BYTES),
    }
}

/// The number that a text is, from `least` to `most`. None if it is no such number.
fn number_in(text: &str, least: u64, most: u64) -> Option<u64>
    ensures some { IfSome result (IsNumber least most text.now) }
    ensures none { IsNone result → (number : ℕ) → ¬ (IsNumber least most text.now number) }
{
    match text.parse::<u64>() {
        Ok(number) if number >= least && number <= most => Some(number),
        _ => None,
    }
}
