ghost use Rattle.std.specs.Prelude.{◌≡◌};
ghost use Rattle.std.specs.Option.{option_copied};
ghost use Rattle.sr_space.specs.{shown_of};
ghost use Rattle.sr_space.specs.commands.Xlen.{xlen};

use crate::Answered;
use crate::outcome::numbered;
use sr_stream::Stream;
use std::alloc::Global;

/// XLEN of the stream at a key, if the key is there. It takes no memory.
pub(crate) fn count_entries(alloc: Global, stream: Option<&Stream>) -> Answered
    ensures { result ≡ xlen (shown_of (option_copied stream.entry)) }
{
    let entries = match stream {
        Some(stream) => stream.entries().len(),
        None => 0,
    };
    numbered(alloc, entries as u64)
}
