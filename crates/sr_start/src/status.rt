ghost use Rattle.std.specs.Prelude.{◌≡◌, ◌≢◌, ◌⊎◌};
ghost use Rattle.clap.specs.Words.{kind_of};
ghost use Rattle.sr_start.specs.Fault.{status_of};

use crate::fault::Fault;
use crate::limits::OWN_FILES;
use clap::Error;
use clap::error::ErrorKind;
use sr_options::UsageFault;
use std::io::Write;

/// The status where the command line is refused.
const REFUSED: u8 = 2;

/// Says what went wrong, if anything, and answers the status.
pub fn report<E: Write>(err: &mut E, ended: Result<(), Fault>) -> u8
    ensures { result ≡ status_of ended }
{
    match ended {
        Ok(()) => 0,
        Err(fault) => {
            let _ = writeln!(err, "{fault}");
            1
        }
    }
}

/// Says why the command line is refused, and answers the status.
pub(crate) fn refuse<E: Write>(err: &mut E, error: &Error) -> u8
    ensures status { (result ≡ 1) ⊎ (result ≡ 2) }
    ensures memory { kind_of error.now ≡ ErrorKind.OutOfMemory → result ≡ 1 }
    ensures refused { kind_of error.now ≢ ErrorKind.OutOfMemory → result ≡ 2 }
{
    if error.kind() == ErrorKind::OutOfMemory {
        return report(err, Err(Fault::StartMemory));
    }
    let _ = write!(err, "{error}");
    REFUSED
}

/// Says why the options ask for nothing that the program can do, and answers the status.
pub(crate) fn refuse_usage<E: Write>(err: &mut E, fault: UsageFault) -> u8
    ensures { result ≡ 2 }
{
    let _ = writeln!(err, "error: {fault}\n\nFor more information, try '--help'.");
    REFUSED
}

/// Says that the process may open only this many files, too few for the connections that are asked for, and answers the
/// status.
pub(crate) fn refuse_files<E: Write>(err: &mut E, most: u64) -> u8
    ensures { result ≡ 2 }
{
    let _ = writeln!(
        err,
        "error: --connections: this process may open {most} files, of which {OWN_FILES} are its own"
    );
    REFUSED
}
