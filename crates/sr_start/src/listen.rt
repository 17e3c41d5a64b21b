ghost use Rattle.std.specs.Prelude.{◌≡◌, ℕ, List, false, true, option_map, OnOk, OnErr};
ghost use Rattle.std.specs.Io.KnownBytes.{Appends};
ghost use Rattle.sr_start.specs.Files.{HasFiles};
ghost use Rattle.sr_start.specs.Listening.{Listens, fault_of_listening, fault_of_serving, line_of};

use crate::fault::Fault;
use crate::network::{ListenFault, Network};
use crate::opening::open_book;
use crate::serving::ServeFault;
use crate::text_files::TextFiles;
use sr_options::Listening;
use sr_resp::{SendFault, Sink, send_all};
use std::io::Write;
use std::net::SocketAddr;
use std::random::RandomSource;

/// Serves the connections that come to an address, and answers why that ended.
///
/// Once its threads stand, it says so to `writer`. If clients of other machines may come, it warns of that at `err`,
/// and if all records are kept it says so there.
pub(crate) fn listen<R, F, N, O, E>(
    rt: &R,
    files: &mut F,
    network: &mut N,
    policy: Option<&str>,
    asked: &Listening<'_>,
    writer: &mut O,
    err: &mut E,
) -> Fault
where
    R: AllocGlobal + RandomSource,
    F: TextFiles,
    N: Network,
    O: Sink,
    E: Write,
    requires unwritten { O.failed writer.old ≡ false }
    requires files { HasFiles N.may_open asked.now.way }
    ensures listened { (written : List ℕ)
        × Appends (O.contents writer.old) (O.contents writer.new) written
        × Listens (F.may_hold files.old) N.may_open N.may_refuse N.may_not_begin N.may_end
        (option_map (λ path. path.now) policy.entry)
        asked.now.text.now asked.now.address asked.now.way asked.now.keep written (O.failed writer.new) result }
{
    let book = match open_book(rt, files, policy) {
        Ok(book) => book,
        Err(fault) => return fault,
    };
    match network.listen(asked.address, asked.way) {
        Ok(bound) => match network.begin(bound, book, asked.way, asked.keep) {
            Ok(begun) => {
                warn(err, asked.address);
                note(err, asked.keep);
                let _ = announce(writer, asked.text);
                serving_fault(network.end(begun))
            }
            Err(fault) => serving_fault(fault),
        },
        Err(fault) => listening_fault(fault),
    }
}

/// Says at which address the program listens.
fn announce<O: Sink>(writer: &mut O, address: &str) -> Result<(), SendFault>
    requires unwritten { O.failed writer.old ≡ false }
    ensures ok { OnOk result (Appends (O.contents writer.old) (O.contents writer.new) (line_of address.now)) }
    ensures err { OnErr result ((written : List ℕ) × Appends (O.contents writer.old) (O.contents writer.new) written) }
    ensures failed { OnErr result (O.failed writer.new ≡ true) }
{
    send_all(writer, b"listening on ")?;
    send_all(writer, address.as_bytes())?;
    send_all(writer, b"\n")
}

/// Warns of an address that clients of other machines may reach.
fn warn<E: Write>(err: &mut E, address: SocketAddr) {
    if !address.ip().is_loopback() {
        let _ = err.write_all(WARNING.as_bytes());
    }
}

/// Says that memory grows, if all records are kept.
fn note<E: Write>(err: &mut E, keep: Option<u64>) {
    if keep.is_none() {
        let _ = err.write_all(KEEPS_ALL.as_bytes());
    }
}

/// What is said if all records are kept.
pub const KEEPS_ALL: &str =
    "note: all records are kept, so memory grows with each request; --keep N lets go of them\n";

/// What is said of an address that other machines may reach.
pub const WARNING: &str =
    "warning: there is no access control: any client that reaches this address can read, add and delete every entry\n";

/// What the program says of an address that it cannot listen at.
fn listening_fault(fault: ListenFault) -> Fault
    ensures { result ≡ fault_of_listening fault }
{
    match fault {
        ListenFault::Bind => Fault::Bind,
        ListenFault::Memory => Fault::StartMemory,
    }
}

/// What the program says when serving came to its end.
fn serving_fault(fault: ServeFault) -> Fault
    ensures { result ≡ fault_of_serving fault }
{
    match fault {
        ServeFault::Accept => Fault::Accept,
        ServeFault::Memory => Fault::StartMemory,
        ServeFault::Thread => Fault::NoThread,
    }
}
