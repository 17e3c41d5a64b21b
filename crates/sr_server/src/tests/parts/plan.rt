// What no clause says and no program shows: that the calls of a plan are made, worked by hand, and whether a plan that
// is checked was carried out. What verdicts are replied as is in tests/commands/recover.run.session, and what replies
// are worth in tests/plan_check.py.
use crate::tests::run::records::snapshot_of;
use crate::tests::run::rows::Line;
use crate::tests::run::{TWO, book_under};
use sr_args::commands::Xclaim;
use sr_args::{Call, TimeAsked};
use sr_book::Book;
use sr_bytes::Name;
use sr_check::{Reason, Verified, accepts};
use sr_ids::Id;
use sr_plan::Verdict;
use sr_policy::Snapshot;
use std::alloc::{AllocError, Global};
use std::test::Fail;

/// D dies with an entry of each class.
const STRANDED: &[Line] = &[
    (10, 0, "join", ""),
    (10, 1, "XGROUP CREATE s g $ MKSTREAM", ""),
    (10, 1, "XADD s 1-1 c x", ""),
    (10, 1, "XADD s 2-1 c y", ""),
    (10, 1, "XREADGROUP GROUP g D STREAMS s >", ""),
    (10, 1, "RECOVER.RUN s g DEAD D", ""),
];

/// The reply of the plan with 1-1 at B and 2-1 at A.
const PLANNED: &str =
    "*5\r\n$4\r\nplan\r\n:6\r\n*2\r\n*2\r\n$3\r\n1-1\r\n$1\r\nB\r\n*2\r\n$3\r\n2-1\r\n$1\r\nA\r\n*2\r\n*2\r\n$1\r\nA\r\n:2\r\n*2\r\n$1\r\nB\r\n:0\r\n*0\r\n";

/// The same with other prices, and carried out.
const DONE: &str =
    "*5\r\n$4\r\ndone\r\n:6\r\n*2\r\n*2\r\n$3\r\n1-1\r\n$1\r\nB\r\n*2\r\n$3\r\n2-1\r\n$1\r\nA\r\n*2\r\n*2\r\n$1\r\nA\r\n:198\r\n*2\r\n$1\r\nB\r\n:0\r\n*0\r\n";

/// Whether a name is this text.
fn is(name: &Name, text: &str) -> bool {
    name.as_slice() == text.as_bytes()
}

/// Whether a call claims the entry with this moment for a consumer, at once and with JUSTID.
fn is_claim(call: &Call, name: &str, ms: u64) -> bool {
    match call {
        Call::Xclaim(
            Xclaim {
                key,
                group,
                consumer,
                least_idle: 0,
                ids,
                time: TimeAsked::Now,
                count: None,
                just_ids: true,
            },
        ) => is(key, "s")
            && is(group, "g")
            && is(consumer, name)
            && ids.as_slice() == [Id { ms, seq: 1 }].as_slice(),
        _ => false,
    }
}

/// Whether a verdict is carried out by one call for each consumer, in byte order.
fn has_right_calls(alloc: Global, verdict: &Verdict) -> Result<bool, AllocError> {
    let calls = verdict.claim_calls(alloc)?;
    Ok(match calls.as_slice() {
        [first, second] => is_claim(first, "A", 2) && is_claim(second, "B", 1),
        _ => false,
    })
}

/// Whether a checker tells a plan from one that was carried out, and both from what is no reply.
fn are_told_apart(alloc: Global, snapshot: &Snapshot) -> Result<bool, AllocError> {
    let planned = accepts(alloc, snapshot, PLANNED.as_bytes())?;
    let done = accepts(alloc, snapshot, DONE.as_bytes())?;
    let no_reply = accepts(alloc, snapshot, b"\r\n")?;
    Ok(
        planned
            == Verified::Cheapest {
                done: false,
                total: 6,
            }
            && done
                == Verified::Cheapest {
                    done: true,
                    total: 6,
                }
            && no_reply
                == Verified::Wrong {
                    reason: Reason::Form,
                },
    )
}

/// Whether a verdict has the calls of that plan, and is on a snapshot for which its reply is right.
fn is_right(alloc: Global, verdict: &Verdict) -> Result<bool, AllocError> {
    Ok(has_right_calls(alloc, verdict)? && are_told_apart(alloc, verdict.snapshot())?)
}

/// Whether the verdict on 1-1 of class x and 2-1 of class y is right, of which A and B could take one each.
fn two_entries_go_where_both_cost_least(alloc: Global, book: Book) -> Result<bool, Fail> {
    match snapshot_of(alloc, book, STRANDED)? {
        Some(snapshot) => Ok(is_right(alloc, &Verdict::make(alloc, snapshot)?)?),
        None => Ok(false),
    }
}

#[test]
fn a_plan_has_the_calls_that_were_worked_out(rt: HostRuntime) -> Result<(), Fail> {
    let is_right = two_entries_go_where_both_cost_least(rt.alloc(), book_under(&rt, TWO)?)?;
    assert!(rt; is_right);
    Ok(())
}
