ghost use Rattle.std.specs.Prelude.{◌≡◌, IfOk};

use sr_bytes::Name;
use std::alloc::{AllocError, Global};

/// A consumer of a group.
///
/// Source: Redis documentation, command XINFO CONSUMERS.
#[derive(Drop)]
pub struct Consumer {
    /// Its name in the group.
    pub name: Name,
    /// When it was seen last, in milliseconds since 1970.
    pub seen: u64,
}

impl Consumer {
    /// A second one with the same contents.
    fn copy(&self, alloc: Global) -> Result<Consumer, AllocError>
        ensures { IfOk result (λ consumer. consumer ≡ self.now) }
    {
        Ok(Consumer {
            name: self.name.copy(alloc)?,
            seen: self.seen,
        })
    }
}

/// Copies of the consumers.
pub(crate) fn copies(alloc: Global, consumers: &[Consumer]) -> Result<Vec<Consumer>, AllocError>
    ensures { IfOk result (λ v. v.items ≡ consumers.now) }
{
    let mut list = Vec::with_capacity(alloc, consumers.len())?;
    for consumer in consumers {
        list.push(consumer.copy(alloc)?)?;
    }
    Ok(list)
}
