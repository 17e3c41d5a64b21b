ghost use Rattle.std.specs.Prelude.{◌≡◌, ◌+◌, ◌<◌, ◌≤◌, ◌++◌, [], ◌∷◌, IfSome, IfNone, length, map, vec_len};
ghost use Rattle.std.specs.Prelude.{vec_capacity};
ghost use Rattle.sr_resp.specs.Reply.{null_array};
ghost use Rattle.sr_waiters.specs.{AreOnce, due_at, not_due_at};
ghost use Rattle.sr_book.specs.Server.{with_nothing};
ghost use Rattle.sr_book.specs.Taken.{TakesDue};

use crate::sessions::{GivenReply, Sessions};
use sr_resp::Reply;
use sr_waiters::Waiters;
use std::alloc::Global;

/// Answers each read whose deadline is reached by the null array, in order of blocking. Takes no memory: `sent` has
/// room.
pub(crate) fn answer_due(
    alloc: Global,
    index: u64,
    moment: u64,
    sessions: &mut Sessions,
    waiters: &mut Waiters,
    sent: &mut Vec<(u64, Reply)>,
)
    requires once { AreOnce waiters.old.list }
    requires room { vec_len sent.old + length waiters.old.list ≤ vec_capacity sent.old }
    ensures sessions { sessions.new ≡ with_nothing index (due_at moment waiters.old.list) sessions.old }
    ensures waiting { waiters.new.list ≡ not_due_at moment waiters.old.list }
    ensures sent { sent.new.items ≡
        sent.old.items ++ map (λ read. (read.session, null_array)) (due_at moment waiters.old.list) }
{
    while let Some(session) = take_due(moment, waiters) {
        let letter = GivenReply {
            index,
            reply: Reply::no_array(alloc),
        };
        sessions.set_letter(session, Some(letter));
        sent.push_reserved((session, Reply::no_array(alloc)));
    }
}

/// Takes the first read whose deadline is reached away, and answers its session.
#[tactic(auto, using(crate::proofs::DueLemmas::none_due, crate::proofs::DueLemmas::takes_due))]
fn take_due(moment: u64, waiters: &mut Waiters) -> Option<u64>
    requires { AreOnce waiters.old.list }
    ensures some { IfSome result (λ session. TakesDue moment session waiters.old.list waiters.new.list) }
    ensures none { IfNone result (due_at moment waiters.old.list ≡ []) }
    ensures stay { IfNone result (waiters.new.list ≡ waiters.old.list) }
{
    match waiters.first_due(moment) {
        None => None,
        Some(session) => {
            let _there = waiters.leave(session);
            Some(session)
        }
    }
}
