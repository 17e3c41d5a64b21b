ghost use Rattle.std.specs.Prelude.{◌≡◌, IfOk};
ghost use Rattle.sr_space.specs.commands.Ping.{ping};

use crate::Answered;
use crate::outcome::replied;
use sr_bytes::Name;
use sr_resp::{Reply, Word};
use std::alloc::{AllocError, Global};

/// PONG, or the message.
///
/// Source: Redis documentation, command PING.
pub(crate) fn answer_ping(alloc: Global, message: &Option<Name>) -> Result<Answered, AllocError>
    ensures { IfOk result (λ outcome. outcome ≡ ping message.now) }
{
    match message {
        None => replied(alloc, Reply::simple(alloc, Word::Pong)),
        Some(message) => replied(alloc, Reply::bulk(alloc, message.copy(alloc)?)),
    }
}
