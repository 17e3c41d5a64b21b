ghost use Rattle.std.specs.Prelude.{◌≡◌, ◌≢◌, ◌≤◌, ◌↔◌, ◌⊎◌, ℕ, List, ◌∷◌, map, true, false, Option, option_map};
ghost use Rattle.std.specs.Prelude.{Result, IsOk, IfErr, IsErrOf};
ghost use Rattle.std.specs.Io.KnownBytes.{Appends, Consumes};
ghost use Rattle.sr_start.specs.Fault.{Serves, Runs, is_of_session, status_of};
ghost use Rattle.sr_start.specs.Moment.{any_moment};
ghost use Rattle.sr_book.specs.Records.{empty_book};
ghost use Rattle.sr_policy.specs.Rules.{Rules};
ghost use Rattle.std.specs.declared.net.socket_addr.SocketAddr.{SocketAddr};
ghost use Rattle.sr_options.specs.{AsksForNothing, AsksForStdio, AsksToListen};
ghost use Rattle.sr_options.specs.Command.{AsksForAddress};
ghost use Rattle.sr_start.specs.Files.{LacksFiles};
ghost use Rattle.sr_start.specs.Listening.{Listens};
ghost use Rattle.sr_options.specs.Options.{AreOnce, Flag, asked_by, word_of};
ghost use Rattle.sr_options.specs.declared.way.Way.{Way};

use crate::clock::SystemClock;
use crate::fault::{Fault, outcome};
use crate::limits::too_few_files;
use crate::listen::listen;
use crate::network::Network;
use crate::opening::open_book;
use crate::serving::TURNS;
use crate::status::{refuse, refuse_files, refuse_usage, report};
use crate::text_files::TextFiles;
use sr_book::Book;
use sr_options::{Request, read_options, request_of};
use sr_resp::Sink;
use sr_session::{Clock, NoGate, PlainDesk, Source, run_session};
use std::alloc::Global;
use std::convert::AsStr;
use std::io::Write;
use std::random::RandomSource;
use std::rt;

/// Whether a read may wait: nobody else could answer it over standard input and output.
const BLOCKING: bool = false;

/// Runs the program: reads the command line, whose first word is the program's name, and the policy file that it names,
/// and serves one connection, or those that come to an address, by workers or by a loop (`--connections N`), and then
/// keeps all records, or makes checkpoints (`--keep N`).
///
/// Answers the status that it ends with. What is said besides the replies and the line for the address goes to `err`.
pub fn start<R, S, F, N, I, O, E>(
    rt: &R,
    words: &[S],
    files: &mut F,
    network: &mut N,
    reader: &mut I,
    writer: &mut O,
    err: &mut E,
) -> u8
where
    R: AllocGlobal + rt::Clock + RandomSource,
    S: AsStr,
    F: TextFiles,
    N: Network,
    I: Source,
    O: Sink,
    E: Write,
    requires unread { (I.ended reader.old ≡ false) × (I.failed reader.old ≡ false) }
    requires unwritten { O.failed writer.old ≡ false }

    // --stdio: what was taken from the reader and written to the writer, and the status for it
    ensures served { (name : List ℕ) (flags : List Flag) → map S.text words.now ≡ name ∷ map word_of flags
        → AreOnce flags
        → AsksForStdio (asked_by flags)
        → (taken written : List ℕ)
        × Consumes (I.remaining reader.old) (I.remaining reader.new) taken
        × Appends (O.contents writer.old) (O.contents writer.new) written
        × (outcome : Result (Unit {0}) Fault)
        × Runs any_moment (F.may_hold files.old) (asked_by flags).policy taken written outcome
        × (result ≡ status_of outcome)
        × (network.new ≡ network.old)
        × (IfErr outcome (λ fault. is_of_session fault ≡ false → (reader.new ≡ reader.old) × (writer.new ≡ writer.old)))
        × (IsErrOf outcome Fault.NoRandomSource → files.new ≡ files.old) }

    // --listen: what was asked of the network, and what became of it
    ensures listened { (name : List ℕ) (flags : List Flag) → map S.text words.now ≡ name ∷ map word_of flags
        → AreOnce flags
        → AsksForAddress (asked_by flags)
        → result ≢ 2
        → (text : List ℕ) × (address : SocketAddr) × (way : Way) × (keep : Option ℕ)
        × AsksToListen (asked_by flags) text address way keep
        × (written : List ℕ)
        × Appends (O.contents writer.old) (O.contents writer.new) written
        × (fault : Fault)
        × Listens (F.may_hold files.old) N.may_open N.may_refuse N.may_not_begin N.may_end (asked_by flags).policy text
        address way keep
        written (O.failed writer.new) fault
        × (result ≡ 1)
        × (reader.new ≡ reader.old) }

    // --listen with status 2: a loop for more connections than the process may open files. If it may open as many, the
    // status is 1: `Listens` says so
    ensures files { (name : List ℕ) (flags : List Flag) → map S.text words.now ≡ name ∷ map word_of flags
        → AreOnce flags
        → AsksForAddress (asked_by flags)
        → result ≡ 2
        → (text : List ℕ) × (address : SocketAddr) × (way : Way) × (keep : Option ℕ)
        × AsksToListen (asked_by flags) text address way keep
        × LacksFiles N.may_open way }

    // both of these or neither, no address and port, a number out of its range, or what does not go together: no file
    // is read, and nothing is read or written
    ensures both { (name : List ℕ) (flags : List Flag) → map S.text words.now ≡ name ∷ map word_of flags → AreOnce flags
        → AsksForNothing (asked_by flags)
        → (1 ≤ result) × (files.new ≡ files.old) × (network.new ≡ network.old) × (reader.new ≡ reader.old)
        × (writer.new ≡ writer.old) }

    // whatever the command line: status 0 exactly if the reader came to its end, and 1 if a read or a write failed
    ensures ok { (result ≡ 0) ↔ (I.ended reader.new ≡ true) }
    ensures failed { (I.failed reader.new ≡ true) ⊎ (O.failed writer.new ≡ true) → result ≡ 1 }

    // status 2: no file is read, nothing is asked of the network, and nothing is read or written
    ensures refused { result ≡ 2
        → (files.new ≡ files.old) × (network.new ≡ network.old) × (reader.new ≡ reader.old)
        × (writer.new ≡ writer.old) }
{
    let options = match read_options(rt.alloc(), words) {
        Ok(options) => options,
        Err(error) => return refuse(err, &error),
    };
    match request_of(&options) {
        Ok(Request::Stdio) => report(err, connect(rt, files, options.policy, reader, writer)),
        Ok(Request::Listen(asked)) => match too_few_files(network, asked.way) {
            Some(most) => refuse_files(err, most),
            None => {
                let fault = listen(rt, files, network, options.policy, &asked, writer, err);
                report(err, Err(fault))
            }
        },
        Err(fault) => refuse_usage(err, fault),
    }
}

/// Opens the book, and serves the connection of a reader and a writer, with the system's clock.
fn connect<R, F, I, O>(
    rt: &R,
    files: &mut F,
    policy: Option<&str>,
    reader: &mut I,
    writer: &mut O,
) -> Result<(), Fault>
where
    R: AllocGlobal + rt::Clock + RandomSource,
    F: TextFiles,
    I: Source,
    O: Sink,
    requires unread { (I.ended reader.old ≡ false) × (I.failed reader.old ≡ false) }
    requires unwritten { O.failed writer.old ≡ false }
    ensures served { (taken written : List ℕ)
        × Consumes (I.remaining reader.old) (I.remaining reader.new) taken
        × Appends (O.contents writer.old) (O.contents writer.new) written
        × Runs any_moment (F.may_hold files.old) (option_map (λ path. path.now) policy.entry) taken written result }
    ensures ok { IsOk result ↔ (I.ended reader.new ≡ true) }
    ensures read { IsErrOf result Fault.Read ↔ (I.failed reader.new ≡ true) }
    ensures write { IsErrOf result Fault.Write ↔ (O.failed writer.new ≡ true) }
    ensures refused { IfErr result (λ fault. is_of_session fault ≡ false → (reader.new ≡ reader.old)
        × (writer.new ≡ writer.old)) }
    ensures random { IsErrOf result Fault.NoRandomSource → files.new ≡ files.old }
{
    match open_book(rt, files, policy) {
        Ok(mut book) => {
            let clock = SystemClock::new(rt);
            serve_session(rt.alloc(), &mut book, &clock, reader, writer)
        }
        Err(fault) => Err(fault),
    }
}

/// Serves one connection to its end.
fn serve_session<C: Clock, I: Source, O: Sink>(
    alloc: Global,
    book: &mut Book,
    clock: &C,
    reader: &mut I,
    writer: &mut O,
) -> Result<(), Fault>
    requires unread { (I.ended reader.old ≡ false) × (I.failed reader.old ≡ false) }
    requires unwritten { O.failed writer.old ≡ false }

    // what was taken from the reader, and written to the writer
    ensures served { (taken written : List ℕ)
        × Consumes (I.remaining reader.old) (I.remaining reader.new) taken
        × Appends (O.contents writer.old) (O.contents writer.new) written
        × ((rules : Rules) → book.old ≡ empty_book rules → Serves (C.may_tell clock.now) rules taken written result) }

    // each outcome has its cause, and no cause is passed over
    ensures ok { IsOk result ↔ (I.ended reader.new ≡ true) }
    ensures read { IsErrOf result Fault.Read ↔ (I.failed reader.new ≡ true) }
    ensures write { IsErrOf result Fault.Write ↔ (O.failed writer.new ≡ true) }
    ensures session { IfErr result (λ fault. is_of_session fault ≡ true) }
{
    let mut desk = PlainDesk::new(book);
    let ended = run_session(
        alloc, reader, writer, &mut desk, clock, &NoGate, BLOCKING, TURNS,
    );
    outcome(ended.end)
}
