ghost use Rattle.std.specs.Prelude.{◌≡◌, ◌↔◌, IsTrue, IfOk};
ghost use Rattle.sr_args.specs.commands.Xack as xack_form;
ghost use Rattle.sr_args.specs.steps.Gives.{Gives};

use crate::same::same_ids;
use crate::table::Row;
use crate::value::{are_ids, copy_ids, copy_word};
use crate::{Call, CallFault};
use sr_bytes::{Name, Unread};
use sr_ids::Ids;
use std::alloc::{AllocError, Global};

/// What the table says of XACK.
pub(crate) const ROW: Row = Row {
    first: b"XACK",
    second: None,
    fewest: 4,
    most: None,
};

/// XACK: the entries with these ids are no longer pending.
///
/// Source: Redis documentation, command XACK.
#[derive(Drop)]
pub struct Xack {
    pub key: Name,
    pub group: Name,
    pub ids: Ids,
}

impl Xack {
    /// A copy with the same parts.
    pub fn copy(&self, alloc: Global) -> Result<Xack, AllocError>
        ensures { IfOk result (λ copy. copy ≡ self.now) }
    {
        let key = self.key.copy(alloc)?;
        let group = self.group.copy(alloc)?;
        let ids = self.ids.copy(alloc)?;
        Ok(Xack { key, group, ids })
    }

    /// Whether the other has the same parts.
    pub fn equals(&self, other: &Xack) -> bool
        ensures { IsTrue result ↔ (self.now ≡ other.now) }
    {
        self.key == other.key && self.group == other.group && same_ids(&self.ids, &other.ids)
    }
}

/// `XACK key group id [id ..]`
pub(crate) fn read_xack(alloc: Global, mut words: Unread<'_>) -> Result<Call, CallFault>
    ensures { Gives xack_form.form xack_form.call words.entry result }
{
    let Some(key) = words.next() else {
        return Err(CallFault::Syntax);
    };
    let Some(group) = words.next() else {
        return Err(CallFault::Syntax);
    };
    if words.is_empty() {
        return Err(CallFault::Syntax);
    }
    if !are_ids(words.again()) {
        return Err(CallFault::BadId);
    }
    let ids = copy_ids(alloc, words)?;
    let key = copy_word(alloc, key)?;
    let group = copy_word(alloc, group)?;
    Ok(Call::Xack(Xack { key, group, ids }))
}
