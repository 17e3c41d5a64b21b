ghost use Rattle.std.specs.Prelude.{◌≡◌, ◌<◌, ℕ, List, Option, length, IfErr, IfOk, IsErrOf, OnOk, OnErr};
ghost use Rattle.std.specs.Io.KnownBytes.{Appends};
ghost use Rattle.sr_peer.specs.Arriving.{AreWhole, CannotBecome, Outgrows};
ghost use Rattle.sr_peer.specs.Exchange.{IsOfConnection, SendsPart};

use crate::{Answers, TakeFault};
use std::alloc::Global;

/// Why another server did not answer.
#[derive(Clone, Copy, Debug, PartialEq, Eq)]
pub enum PeerFault {
    /// An allocation failed.
    Memory,
    /// It closed the connection.
    Closed,
    /// Nothing came in time.
    Silent,
    /// A read or a write failed.
    Failed,
    /// It sent something else than the replies that were awaited.
    Malformed,
    /// Its replies are too long.
    TooLong,
}

/// Another server, as a stream of bytes to it and one from it.
pub trait Peer {
    /// Every byte that was sent to it, if that is known.
    ghost sent: { Self → Option (List ℕ) };

    /// Every byte that has come from it, if that is known.
    ghost got: { Self → Option (List ℕ) };

    /// Sends all of the bytes. After an `Err` it is not known how many of them were sent.
    fn send(&mut self, bytes: &[u8]) -> Result<(), PeerFault>
        ensures ok { OnOk result (Appends (sent self.old) (sent self.new) bytes.now) }
        ensures err { OnErr result (SendsPart (sent self.old) (sent self.new) bytes.now) }
        ensures got { got self.new ≡ got self.old }
        ensures fault { IfErr result IsOfConnection };

    /// Waits for the next bytes, one or more.
    fn receive(&mut self, alloc: Global) -> Result<Vec<u8>, PeerFault>
        ensures some { IfOk result (λ bytes. 0 < length bytes.items) }
        ensures ok { IfOk result (λ bytes. Appends (got self.old) (got self.new) bytes.items) }
        ensures err { OnErr result (got self.new ≡ got self.old) }
        ensures sent { sent self.new ≡ sent self.old }
        ensures fault { IfErr result IsOfConnection };
}

/// Sends requests, which ask for this many replies, and reads the replies.
///
/// After an `Err` some of the replies may still be on their way, so do not ask this peer again.
///
/// Source: RESP2 protocol specification, "Request-Response model".
pub fn ask<P: Peer>(
    peer: &mut P,
    alloc: Global,
    requests: &[u8],
    count: usize,
) -> Result<Answers, PeerFault>
    ensures sent { OnOk result (Appends (P.sent peer.old) (P.sent peer.new) requests.now) }
    ensures err { OnErr result (SendsPart (P.sent peer.old) (P.sent peer.new) requests.now) }
    ensures got { IfOk result (λ answers. Appends (P.got peer.old) (P.got peer.new) answers.text) }
    ensures count { IfOk result (λ answers. answers.count ≡ count) }
    ensures whole { IfOk result (λ answers. AreWhole answers.count answers.text) }
    ensures malformed { IsErrOf result PeerFault.Malformed
        → (come : List ℕ) × Appends (P.got peer.old) (P.got peer.new) come × CannotBecome count come }
    ensures too_long { IsErrOf result PeerFault.TooLong
        → (come : List ℕ) × Appends (P.got peer.old) (P.got peer.new) come × Outgrows count come }
{
    peer.send(requests)?;
    let mut answers = Answers::new(alloc, count);
    while !answers.are_whole() {
        let piece = peer.receive(alloc)?;
        match answers.take(piece.as_slice()) {
            Ok(()) => {}
            Err(TakeFault::Memory) => return Err(PeerFault::Memory),
            Err(TakeFault::Malformed) => return Err(PeerFault::Malformed),
            Err(TakeFault::TooLong) => return Err(PeerFault::TooLong),
        }
    }
    Ok(answers)
}
