//! Standard input, output and error. `sr_server` has the same.
use std::fs::{File, OpenOptions};
use std::io::Result;
use std::os::fd::{AsRawFd, IntoRawFd};

/// What takes the place of one that is closed.
const NOWHERE: &str = "/dev/null";

/// The descriptors of output and error are from 1 to this one.
const ERRORS: i32 = 2;

/// Takes those of the descriptors 0 to 2 that are closed, until the program ends. A socket would get the lowest of
/// them, and with it what the program prints.
///
/// A read from one that was closed fails all the same, and so does a write to one: each is open for the other alone.
pub(crate) fn take_standard(rt: &HostRuntime) -> Result<()> {
    keep_up_to(0, OpenOptions::new().write(true).open(rt, NOWHERE)?);
    for _ in 0..ERRORS {
        if !keep_up_to(ERRORS, File::open(rt, NOWHERE)?) {
            break;
        }
    }
    Ok(())
}

/// Keeps the file open until the program ends, if its descriptor is at most `last`, and closes it if not.
fn keep_up_to(last: i32, file: File) -> bool {
    let is_kept = file.as_raw_fd() <= last;
    if is_kept {
        let _ = file.into_raw_fd();
    }
    is_kept
}
