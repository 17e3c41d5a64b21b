ghost use Rattle.std.specs.Prelude.{◌≡◌};
ghost use Rattle.sr_args.specs.declared.fault.CallFault.TheVariants.{Memory};

use std::alloc::AllocError;

/// Why words are not a command. Of several reasons the first in this order is answered.
#[derive(Clone, Copy, Debug, PartialEq, Eq)]
pub enum CallFault {
    /// No command has this name.
    Unknown,
    /// The command takes more words, or fewer, or its name is cut short.
    Arity,
    /// The words do not fit the command's form.
    Syntax,
    /// A word in the place of a number is not one, or is out of its range.
    Number,
    /// A word in the place of an id is not one.
    BadId,
    /// Memory ran out. The words are a command.
    Memory,
}

impl From<AllocError> for CallFault {
    ghost from_gives = { λ _ fault. fault ≡ Memory };

    fn from(_error: AllocError) -> CallFault {
        CallFault::Memory
    }
}
