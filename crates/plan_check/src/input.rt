//! An input, split into a problem and a reply, and what the reply is worth.
ghost use Rattle.std.specs.Prelude.{◌≡◌, ◌≢◌, ◌⊎◌, ◌++◌, ◌∷◌, [], All, IfOk};
ghost use Rattle.plan_check.specs.Found.{IsFound};

use crate::fault::Fault;
use crate::finding::Finding;
use crate::problem::Problem;
use crate::terminal::bytes_of;
use crate::words::{number_before, split_once};
use sr_check::{Reason, Verified, accepts};
use sr_policy::Snapshot;
use std::alloc::{AllocError, Global};

/// The bytes of a shortage before the number of its entries.
const SHORTAGE: &[u8] = b"*4\r\n$4\r\nnone\r\n*";

/// What is found of an input: the lines of a problem, a line `reply`, and a reply to the end.
pub(crate) fn judge(alloc: Global, input: &[u8]) -> Result<Finding, AllocError> {
    let mut problem = Problem::new(alloc);
    let mut left = input;
    for number in 1..u64::MAX {
        if left.is_empty() {
            break;
        }
        let (line, after) = first_line(left);
        if line.trim_ascii() == b"reply".as_slice() {
            return judge_reply(alloc, problem, after);
        }
        match problem.add_line(alloc, line) {
            Ok(()) => left = after,
            Err(Fault::Memory) => return Err(AllocError),
            Err(fault) => return Ok(Finding::Line { number, fault }),
        }
    }
    Ok(Finding::NoReply)
}

/// The line at the front of some bytes, without its end, and the bytes after it.
fn first_line(bytes: &[u8]) -> (&[u8], &[u8])
    ensures whole { (bytes.now ≡ result.0.now ++ 10 ∷ result.1.now)
        ⊎ ((bytes.now ≡ result.0.now) × (result.1.now ≡ [])) }
    ensures one { All (λ byte. byte ≢ 10) result.0.now }
{
    match split_once(bytes, b'\n') {
        Some(parts) => parts,
        None => (bytes, b"".as_slice()),
    }
}

/// What is found of a reply, as the server sends it or as redis-cli prints it.
fn judge_reply(alloc: Global, problem: Problem, reply: &[u8]) -> Result<Finding, AllocError> {
    let Some(snapshot) = problem.snapshot(alloc)? else {
        return Ok(Finding::Unfit);
    };
    if reply.starts_with(b"-") || reply.trim_ascii_start().starts_with(b"(error)") {
        return Ok(Finding::Refused);
    }
    if reply.starts_with(b"*") {
        return worth(alloc, &snapshot, reply);
    }
    match bytes_of(alloc, reply) {
        Ok(bytes) => worth(alloc, &snapshot, bytes.as_slice()),
        Err(Fault::Memory) => Err(AllocError),
        Err(_) => Ok(Finding::Wrong {
            reason: Reason::Form,
        }),
    }
}

/// What the bytes of a reply are worth for a snapshot.
fn worth(alloc: Global, snapshot: &Snapshot, reply: &[u8]) -> Result<Finding, AllocError>
    ensures { IfOk result (IsFound snapshot.now reply.now) }
{
    Ok(match accepts(alloc, snapshot, reply)? {
        Verified::Cheapest { done: _, total } => Finding::Cheapest { total },
        Verified::Impossible { places } => Finding::Impossible {
            places,
            entries: entries_of_shortage(reply),
        },
        Verified::Wrong { reason } => Finding::Wrong { reason },
    })
}

/// How many entries a reply says that a shortage has, or 0 if it is none.
fn entries_of_shortage(reply: &[u8]) -> u64 {
    let Some(rest) = reply.strip_prefix(SHORTAGE) else {
        return 0;
    };
    match number_before(rest, b'\r') {
        Some((number, _)) => number,
        None => 0,
    }
}
