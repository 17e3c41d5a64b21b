ghost use Rattle.std.specs.Prelude.{◌≡◌, ◌↔◌, IsTrue, IfOk};

use sr_bytes::Name;
use std::alloc::{AllocError, Global};
use std::marker::Model;
use std::sync::Arc;

/// The name of a consumer, which the entries that it has share: a copy takes no memory.
#[derive(Drop)]
pub struct Owner {
    name: Arc<Name>,
}

impl Model for Owner {
    ghost use Rattle.std.specs.Prelude.{List, ℕ};
    ghost use Rattle.std.specs.Arc.{arc_value};

    ghost Value = { List ℕ };

    ghost view = { λ o. arc_value o.name };
}

impl Owner {
    /// The consumer of this name.
    pub fn new(alloc: Global, name: &Name) -> Result<Owner, AllocError>
        ensures { IfOk result (λ owner. owner ≡ name.now) }
    {
        let name = Arc::new(alloc, name.copy(alloc)?)?;
        Ok(Owner { name })
    }

    /// Its name.
    pub fn name(&self) -> &Name
        ensures { result.now ≡ self.now }
    {
        &self.name
    }

    /// The same consumer once more. It takes no memory. No clause says when an `Err` comes: the code gives one if there
    /// are as many copies as can be counted.
    pub fn copy(&self) -> Result<Owner, AllocError>
        ensures { IfOk result (λ owner. owner ≡ self.now) }
    {
        let name = Arc::try_clone(&self.name)?;
        Ok(Owner { name })
    }

    /// Whether this is its name.
    pub fn is(&self, name: &Name) -> bool
        ensures { IsTrue result ↔ (self.now ≡ name.now) }
    {
        *self.name() == *name
    }
}
