ghost use Rattle.std.specs.Prelude.{◌≡◌, IfOk};

use crate::Owner;
use sr_ids::Id;
use std::alloc::AllocError;

/// An entry that was delivered to a consumer and is not acknowledged yet.
///
/// Source: Redis documentation, command XPENDING, "Extended form".
#[derive(Drop)]
pub struct Nack {
    /// The id of the entry.
    pub id: Id,
    /// The consumer that it was delivered to last.
    pub owner: Owner,
    /// When it was delivered last, in milliseconds since 1970.
    pub time: u64,
    /// How many times it was delivered.
    pub count: u64,
}

impl Nack {
    /// A second one with the same contents. It takes no memory.
    pub fn copy(&self) -> Result<Nack, AllocError>
        ensures { IfOk result (λ nack. nack ≡ self.now) }
    {
        Ok(Nack {
            id: self.id,
            owner: self.owner.copy()?,
            time: self.time,
            count: self.count,
        })
    }
}
