ghost use Rattle.std.specs.Prelude.{◌≡◌, ◌↔◌, IsTrue, IfOk};
ghost use Rattle.sr_args.specs.commands.Xlen as xlen_form;
ghost use Rattle.sr_args.specs.steps.Gives.{Gives};

use crate::commands::named::read_key;
use crate::table::Row;
use crate::{Call, CallFault};
use sr_bytes::{Name, Unread};
use std::alloc::{AllocError, Global};

/// What the table says of XLEN.
pub(crate) const ROW: Row = Row {
    first: b"XLEN",
    second: None,
    fewest: 2,
    most: Some(2),
};

/// XLEN: how many entries the stream at a key has.
///
/// Source: Redis documentation, command XLEN.
#[derive(Drop)]
pub struct Xlen {
    pub key: Name,
}

impl Xlen {
    /// A copy with the same parts.
    pub(crate) fn copy(&self, alloc: Global) -> Result<Xlen, AllocError>
        ensures { IfOk result (λ copy. copy ≡ self.now) }
    {
        let key = self.key.copy(alloc)?;
        Ok(Xlen { key })
    }

    /// Whether the other has the same parts.
    pub(crate) fn equals(&self, other: &Xlen) -> bool
        ensures { IsTrue result ↔ (self.now ≡ other.now) }
    {
        self.key == other.key
    }
}

/// `XLEN key`
pub(crate) fn read_xlen(alloc: Global, words: Unread<'_>) -> Result<Call, CallFault>
    ensures { Gives xlen_form.form xlen_form.call words.entry result }
{
    let key = read_key(alloc, words)?;
    Ok(Call::Xlen(Xlen { key }))
}
