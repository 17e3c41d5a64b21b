ghost use Rattle.std.specs.Prelude.{◌≡◌, ◌↔◌, IsTrue, IfOk};
ghost use Rattle.sr_args.specs.commands.Ping as ping_form;
ghost use Rattle.sr_args.specs.steps.Gives.{Gives};

use crate::names::copy_name;
use crate::same::same_name;
use crate::table::Row;
use crate::value::copy_word;
use crate::{Call, CallFault};
use sr_bytes::{Name, Unread};
use std::alloc::{AllocError, Global};

/// What the table says of PING.
pub(crate) const ROW: Row = Row {
    first: b"PING",
    second: None,
    fewest: 1,
    most: Some(2),
};

/// PING, with the message to send back.
///
/// Source: Redis documentation, command PING.
#[derive(Drop)]
pub struct Ping {
    pub message: Option<Name>,
}

impl Ping {
    /// A copy with the same parts.
    pub(crate) fn copy(&self, alloc: Global) -> Result<Ping, AllocError>
        ensures { IfOk result (λ copy. copy ≡ self.now) }
    {
        let message = copy_name(alloc, &self.message)?;
        Ok(Ping { message })
    }

    /// Whether the other has the same parts.
    pub(crate) fn equals(&self, other: &Ping) -> bool
        ensures { IsTrue result ↔ (self.now ≡ other.now) }
    {
        same_name(&self.message, &other.message)
    }
}

/// `PING [message]`
pub(crate) fn read_ping(alloc: Global, mut words: Unread<'_>) -> Result<Call, CallFault>
    ensures { Gives ping_form.form ping_form.call words.entry result }
{
    let Some(message) = words.next() else {
        return Ok(Call::Ping(Ping { message: None }));
    };
    if let Some(_) = words.next() {
        return Err(CallFault::Syntax);
    }
    let message = copy_word(alloc, message)?;
    Ok(Call::Ping(Ping {
        message: Some(message),
    }))
}
