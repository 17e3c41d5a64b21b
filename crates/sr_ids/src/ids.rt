ghost use Rattle.std.specs.Prelude.{◌≡◌, IfOk};

use crate::Id;
use std::alloc::{AllocError, Global};
use std::marker::Model;

/// A list of ids, in the order in which they were written.
#[derive(Drop)]
pub struct Ids {
    list: Vec<Id>,
}

impl Model for Ids {
    ghost use Rattle.std.specs.Prelude.{List};
    ghost use Rattle.sr_ids.specs.declared.id.Id as ids;

    ghost Value = { List ids.Id };

    ghost view = { λ i. i.list.items };
}

impl Ids {
    /// A list of these ids. Takes no memory.
    pub fn new(list: Vec<Id>) -> Ids
        ensures { result ≡ list.items }
    {
        Ids { list }
    }

    /// The ids.
    pub fn as_slice(&self) -> &[Id]
        ensures { result.now ≡ self.now }
    {
        self.list.as_slice()
    }

    /// A copy with the same ids.
    pub fn copy(&self, alloc: Global) -> Result<Ids, AllocError>
        ensures { IfOk result (λ copy. copy ≡ self.now) }
    {
        let list = Vec::from_slice(alloc, self.as_slice())?;
        Ok(Ids::new(list))
    }
}
