ghost use Rattle.std.specs.Prelude.{◌≡◌, ◌≤◌, false, IfErr, IfOk, IfSome, IsNone, OnErr};
ghost use Rattle.sr_options.specs.Command.{AsksFor, AsksForNothing, IsFaultOf, IsReadable, IsWay};
ghost use Rattle.sr_options.specs.Options.{asked_of};
ghost use Rattle.sr_options.specs.Ways.{threads_of};
ghost use Rattle.sr_options.specs.steps.Read.{AreRead, GoTogether};

use crate::numbers::{Numbers, numbers_of};
use crate::options::Options;
use crate::request::{Listening, Request};
use crate::way::{Looping, Way, Working};
use std::net::SocketAddr;
use thiserror::Error;

/// Why the options ask for nothing that the program can do. Its text is for the user.
#[derive(Clone, Copy, Debug, PartialEq, Eq, Error)]
pub enum UsageFault {
    /// The number of workers is none from 1 to 64.
    #[error("--workers takes a number from 1 to 64")]
    Workers,
    /// The number of records that are kept is none from 1 to 1,000,000,000.
    #[error("--keep takes a number from 1 to 1000000000")]
    Keep,
    /// The number of connections is none from 1 to 10,000.
    #[error("--connections takes a number from 1 to 10000")]
    Connections,
    /// The number of seconds is none from 0 to 86,400.
    #[error("--idle takes a number from 0 to 86400")]
    Idle,
    /// The number of bytes is none from 1 to 1,000,000,000,000.
    #[error("--unfinished takes a number from 1 to 1000000000000")]
    Unfinished,
    /// The number of bytes that kept records take is none from 1 to 1,000,000,000,000.
    #[error("--keep-bytes takes a number from 1 to 1000000000000")]
    KeepBytes,
    /// The number of seconds of a read that waits is none from 0 to 86,400.
    #[error("--idle-waiting takes a number from 0 to 86400")]
    IdleWaiting,
    /// What is to be listened at is not an address and a port.
    #[error("--listen takes an address and a port, as 127.0.0.1:6379 or [::1]:6379")]
    Address,
    /// Neither a session nor a server is asked for, or both.
    #[error("exactly one of --stdio and --listen is needed")]
    Mode,
    /// Records are to be kept for one session alone.
    #[error("--keep needs --listen")]
    KeepAlone,
    /// A loop is to serve one session alone.
    #[error("--connections needs --listen")]
    ConnectionsAlone,
    /// A loop and workers are to serve.
    #[error("--connections and --workers exclude each other")]
    ConnectionsBeside,
    /// Connections are to be closed that no loop serves.
    #[error("--idle needs --connections")]
    IdleAlone,
    /// Requests are to be bounded that no loop reads.
    #[error("--unfinished needs --connections")]
    UnfinishedAlone,
    /// The bytes of records are to be bounded all of which are kept.
    #[error("--keep-bytes needs --keep")]
    KeepBytesAlone,
    /// Connections whose reads wait are to be closed that no loop serves.
    #[error("--idle-waiting needs --connections")]
    IdleWaitingAlone,
}

/// What the options ask for.
pub fn request_of<'a>(options: &Options<'a>) -> Result<Request<'a>, UsageFault>
    ensures ok { IfOk result (AsksFor (asked_of options.now)) }
    ensures err { OnErr result (AsksForNothing (asked_of options.now)) }
    ensures fault { IfErr result (IsFaultOf (asked_of options.now)) }
{
    let numbers = match numbers_of(options) {
        Ok(numbers) => numbers,
        Err(fault) => return Err(fault),
    };
    match (options.stdio, options.listen) {
        (true, None) => match clash_of(options) {
            None => Ok(Request::Stdio),
            Some(fault) => Err(fault),
        },
        (false, Some(text)) => match text.parse::<SocketAddr>() {
            Ok(address) => match clash_of(options) {
                None => Ok(Request::Listen(Listening {
                    address,
                    text,
                    way: way_of(options, numbers),
                    keep: numbers.keep,
                })),
                Some(fault) => Err(fault),
            },
            Err(_) => Err(UsageFault::Address),
        },
        _ => Err(UsageFault::Mode),
    }
}

/// The first two options that do not go together, if there are any.
fn clash_of(options: &Options<'_>) -> Option<UsageFault>
    ensures some { IsReadable (asked_of options.now) → IfSome result (IsFaultOf (asked_of options.now)) }
    ensures none { IsNone result → GoTogether (asked_of options.now) }
{
    if options.stdio && options.keep.is_some() {
        return Some(UsageFault::KeepAlone);
    }
    match options.connections {
        Some(_) if options.stdio => Some(UsageFault::ConnectionsAlone),
        Some(_) if options.workers.is_some() => Some(UsageFault::ConnectionsBeside),
        Some(_) if options.keep.is_some() => None,
        Some(_) if options.keep_bytes.is_some() => Some(UsageFault::KeepBytesAlone),
        Some(_) => None,
        None if options.idle.is_some() => Some(UsageFault::IdleAlone),
        None if options.unfinished.is_some() => Some(UsageFault::UnfinishedAlone),
        None if options.keep_bytes.is_some() && options.keep.is_none() => {
            Some(UsageFault::KeepBytesAlone)
        }
        None if options.idle_waiting.is_some() => Some(UsageFault::IdleWaitingAlone),
        None => None,
    }
}

/// How connections are to be served.
fn way_of(options: &Options<'_>, numbers: Numbers) -> Way
    requires read { AreRead (asked_of options.now) numbers }
    requires together { GoTogether (asked_of options.now) }
    requires at_address { options.now.stdio ≡ false }
    ensures way { IsWay (asked_of options.now) result }
    ensures range { (1 ≤ threads_of result) × (threads_of result ≤ 64) }
{
    match numbers.connections {
        None => Way::Workers(Working {
            workers: numbers.workers,
            keep_bytes: numbers.keep_bytes,
        }),
        Some(connections) => Way::Loop(Looping {
            connections,
            idle: numbers.idle,
            idle_waiting: numbers.idle_waiting,
            unfinished: numbers.unfinished,
            keep_bytes: numbers.keep_bytes,
        }),
    }
}
