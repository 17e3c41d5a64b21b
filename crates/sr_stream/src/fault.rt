ghost use Rattle.std.specs.Prelude.{◌≡◌};
ghost use Rattle.sr_stream.specs.declared.fault.AddFault.TheVariants.{Memory};
ghost use Rattle.sr_stream.specs.declared.fault.GroupFault.TheVariants as group_fault;

use std::alloc::AllocError;

/// Why a stream gives no id.
///
/// Source: Redis documentation, command XADD.
#[derive(Clone, Copy, Debug, PartialEq, Eq)]
pub enum GivenFault {
    /// The last id of the stream is the greatest of all.
    Exhausted,
    /// The id asked for is not above the last one of the stream.
    Small,
}

/// Why an entry is not added. Of several reasons the first in this order is answered.
///
/// Source: Redis documentation, command XADD.
#[derive(Clone, Copy, Debug, PartialEq, Eq)]
pub enum AddFault {
    /// The last id of the stream is the greatest of all.
    Exhausted,
    /// The id asked for is not above the last one of the stream.
    Small,
    /// Memory was refused.
    Memory,
}

impl From<AllocError> for AddFault {
    ghost from_gives = { λ _ fault. fault ≡ Memory };

    fn from(_error: AllocError) -> AddFault {
        AddFault::Memory
    }
}

/// Why a group is not made. Of several reasons the first in this order is answered.
///
/// Source: Redis documentation, command XGROUP CREATE.
#[derive(Clone, Copy, Debug, PartialEq, Eq)]
pub enum GroupFault {
    /// A group has this name.
    Busy,
    /// Memory was refused.
    Memory,
}

impl From<AllocError> for GroupFault {
    ghost from_gives = { λ _ fault. fault ≡ group_fault.Memory };

    fn from(_error: AllocError) -> GroupFault {
        GroupFault::Memory
    }
}
