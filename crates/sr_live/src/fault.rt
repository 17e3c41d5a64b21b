ghost use Rattle.std.specs.Prelude.{◌≡◌};
ghost use Rattle.sr_live.specs.declared.fault.LiveFault.TheVariants.{Memory};

use sr_bytes::Name;
use sr_peer::PeerFault;
use std::alloc::{AllocError, AllocFailed};

/// A call that is made of Redis.
#[derive(Clone, Copy, Debug, PartialEq, Eq)]
pub enum LiveCall {
    /// XINFO STREAM.
    Stream,
    /// XINFO CONSUMERS.
    Consumers,
    /// XPENDING.
    Pending,
    /// XRANGE.
    Entry,
    /// EVALSHA or EVAL.
    Script,
}

/// Why a group was not looked up, or a plan was not made or carried out.
#[derive(Drop)]
pub enum LiveFault {
    /// A failed allocation.
    Memory,
    /// Redis was not reached, or what it sent is no reply.
    Peer(PeerFault),
    /// Redis replied an error: its text, without the `-`.
    ErrorReply(LiveCall, Name),
    /// Redis replied something else than the call's page says.
    Shape(LiveCall),
    /// More entries are pending for the dead than are looked up, or more are stranded than a snapshot may have.
    TooMany,
    /// What was looked up is of no one moment.
    Changed,
    /// The script was sent, at least in part, and no answer came: the plan may have been carried out.
    Unknown(PeerFault),
    /// The script answered that it carried out something else than the plan: fewer or more entries, or at a gap above
    /// what was asked for.
    Unfit,
}

impl From<AllocError> for LiveFault {
    ghost from_gives = { λ _ fault. fault ≡ Memory };

    fn from(_: AllocError) -> LiveFault {
        LiveFault::Memory
    }
}

impl<T: Drop> From<AllocFailed<T>> for LiveFault {
    ghost from_gives = { λ _ fault. fault ≡ Memory };

    fn from(_: AllocFailed<T>) -> LiveFault {
        LiveFault::Memory
    }
}
