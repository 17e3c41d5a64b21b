ghost use Rattle.std.specs.Prelude.{◌≡◌, ◌^◌, ◌<◌, pos, IfOk};
ghost use Rattle.sr_resp.specs.{integer, error_reply};

use sr_resp::{ErrCode, Reply};
use std::alloc::{AllocError, Global};
use std::marker::Model;

/// The reply to a command, made twice before the effect: one to send, and an equal one for the record of the command.
#[derive(Drop)]
pub struct Answered {
    send: Reply,
    keep: Reply,
}

impl Model for Answered {
    ghost use Rattle.std.specs.Prelude.{◌≡◌};
    ghost use Rattle.sr_resp.specs.{ReplyParts};

    ghost Value = { ReplyParts };

    ghost view = { λ a. a.send };

    ghost invariant = { λ a. a.keep ≡ a.send };
}

impl Answered {
    ghost use Rattle.std.specs.Prelude.{◌≡◌};

    /// A reply and an equal one. It takes no memory.
    pub(crate) fn of(send: Reply, keep: Reply) -> Answered
        requires { keep ≡ send }
        ensures { result ≡ send }
    {
        Answered { send, keep }
    }

    /// The reply to send, and the one to keep. It takes no memory.
    pub fn into_replies(self) -> (Reply, Reply)
        ensures send { result.0 ≡ self }
        ensures keep { result.1 ≡ self }
    {
        let Answered { send, keep } = self;
        (send, keep)
    }
}

/// A reply, twice.
pub(crate) fn replied(alloc: Global, reply: Reply) -> Result<Answered, AllocError>
    ensures { IfOk result (λ answered. answered ≡ reply) }
{
    let keep = reply.copy(alloc)?;
    Ok(Answered::of(reply, keep))
}

/// A number as the reply, twice. It takes no memory.
pub(crate) fn numbered(alloc: Global, n: u64) -> Answered
    requires { n < 2 ^ 63 }
    ensures { result ≡ integer (pos n) }
{
    Answered::of(Reply::int(alloc, n as i64), Reply::int(alloc, n as i64))
}

/// An error as the reply, twice. It takes no memory.
pub(crate) fn refused(alloc: Global, code: ErrCode) -> Answered
    ensures { result ≡ error_reply code }
{
    Answered::of(Reply::error(alloc, code), Reply::error(alloc, code))
}
