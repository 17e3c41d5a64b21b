//! The command line, as the system hands it on. What its words ask for is read by `sr_options`.
ghost use Rattle.std.specs.Prelude.{◌≡◌, ◌≢◌};
ghost use Rattle.std.specs.IoError.{error_kind};

use sr_start::{Fault, report};
use std::env;
use std::io::{self, Error, ErrorKind, Write};
use std::rt::Env;

/// The status where the command line is refused.
const REFUSED: u8 = 2;

/// The words of the command line, the program's name first.
pub(crate) fn words(rt: &(impl Env + AllocGlobal)) -> io::Result<Vec<String>> {
    Ok(env::args(rt)?.collect(rt.alloc())?)
}

/// Says why there are no words, and answers the status: 1 if memory was refused for them, and otherwise, since they are
/// not UTF-8, as for any command line that is refused.
pub(crate) fn refuse_words<E: Write>(err: &mut E, error: Error) -> u8
    ensures memory { error_kind error ≡ ErrorKind.OutOfMemory → result ≡ 1 }
    ensures refused { error_kind error ≢ ErrorKind.OutOfMemory → result ≡ 2 }
{
    if error.kind() == ErrorKind::OutOfMemory {
        return report(err, Err(Fault::StartMemory));
    }
    let _ = writeln!(err, "error: the command line is not UTF-8");
    REFUSED
}
