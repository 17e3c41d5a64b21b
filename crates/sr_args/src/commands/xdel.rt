ghost use Rattle.std.specs.Prelude.{◌≡◌, ◌↔◌, IsTrue, IfOk};
ghost use Rattle.sr_args.specs.commands.Xdel as xdel_form;
ghost use Rattle.sr_args.specs.steps.Gives.{Gives};

use crate::same::same_ids;
use crate::table::Row;
use crate::value::{are_ids, copy_ids, copy_word};
use crate::{Call, CallFault};
use sr_bytes::{Name, Unread};
use sr_ids::Ids;
use std::alloc::{AllocError, Global};

/// What the table says of XDEL.
pub(crate) const ROW: Row = Row {
    first: b"XDEL",
    second: None,
    fewest: 3,
    most: None,
};

/// XDEL: the entries with these ids go.
///
/// Source: Redis documentation, command XDEL.
#[derive(Drop)]
pub struct Xdel {
    pub key: Name,
    pub ids: Ids,
}

impl Xdel {
    /// A copy with the same parts.
    pub(crate) fn copy(&self, alloc: Global) -> Result<Xdel, AllocError>
        ensures { IfOk result (λ copy. copy ≡ self.now) }
    {
        let key = self.key.copy(alloc)?;
        let ids = self.ids.copy(alloc)?;
        Ok(Xdel { key, ids })
    }

    /// Whether the other has the same parts.
    pub(crate) fn equals(&self, other: &Xdel) -> bool
        ensures { IsTrue result ↔ (self.now ≡ other.now) }
    {
        self.key == other.key && same_ids(&self.ids, &other.ids)
    }
}

/// `XDEL key id [id ..]`
pub(crate) fn read_xdel(alloc: Global, mut words: Unread<'_>) -> Result<Call, CallFault>
    ensures { Gives xdel_form.form xdel_form.call words.entry result }
{
    let Some(key) = words.next() else {
        return Err(CallFault::Syntax);
    };
    if words.is_empty() {
        return Err(CallFault::Syntax);
    }
    if !are_ids(words.again()) {
        return Err(CallFault::BadId);
    }
    let ids = copy_ids(alloc, words)?;
    let key = copy_word(alloc, key)?;
    Ok(Call::Xdel(Xdel { key, ids }))
}
