ghost use Rattle.std.specs.Prelude.{◌≡◌, ◌<◌, false};
ghost use Rattle.sr_waiters.specs.{has_session};
ghost use Rattle.sr_book.specs.Concluded.{out_of, sent_by, waiting_after};

use crate::{Acted, Out, Sent};
use sr_space::Outcome;
use sr_waiters::Waiters;

/// Sends the reply to a session's call, or has its read wait. Takes no memory: there is room for a read.
pub(crate) fn conclude(session: u64, outcome: Outcome, waiters: &mut Waiters) -> Acted
    requires idle { has_session session waiters.old.list ≡ false }
    requires place { 0 < waiters.old.room }
    ensures out { result.out ≡ out_of outcome }
    ensures waiting { waiters.new.list ≡ waiting_after session outcome waiters.old.list }
    ensures sent { result.sent ≡ sent_by session outcome }
{
    match outcome {
        Outcome::Reply { send, keep } => Acted {
            out: Out::Reply(send),
            sent: Sent::one(session, keep),
        },
        Outcome::Blocked { call, deadline } => {
            waiters.join(session, call, deadline);
            Acted {
                out: Out::Blocked,
                sent: Sent::nobody(),
            }
        }
    }
}
