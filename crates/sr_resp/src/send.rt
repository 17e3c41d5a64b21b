ghost use Rattle.std.specs.Prelude.{◌≡◌, ℕ, ◌<◌, ◌≤◌, List, Option, Bool, true, false, length, take, IfOk, IfErr};
ghost use Rattle.std.specs.Prelude.{OnOk, OnErr};
ghost use Rattle.std.specs.Io.KnownBytes.{Appends, WriteAppends};

use std::io::{ErrorKind, Write};

/// A write failed, or took none of the bytes.
#[derive(Clone, Copy, Debug, PartialEq, Eq)]
pub struct WriteFailed;

/// Where replies go.
pub trait Sink {
    /// The bytes that it got, where they are known.
    ghost contents: { Self → Option (List ℕ) };

    /// Whether a write failed.
    ghost failed: { Self → Bool };

    /// Writes some of the bytes, at least one if there are any, and answers how many. After a failed write there is no
    /// other.
    fn write(&mut self, bytes: &[u8]) -> Result<usize, WriteFailed>
        requires { failed self.old ≡ false }
        ensures bound { IfOk result (λ count. count ≤ length bytes.now) }
        ensures some { IfOk result (λ count. 0 < length bytes.now → 0 < count) }
        ensures bytes { WriteAppends (contents self.old) (contents self.new) result bytes.now }
        ensures ok { OnOk result (failed self.new ≡ failed self.old) }
        ensures err { OnErr result (failed self.new ≡ true) };
}

/// The bytes go to a writer. An interrupted write is tried again; a write of 0 bytes is a failed one.
#[derive(Drop)]
pub struct WriteTo<W: Write + Drop> {
    writer: W,
    failed: bool,
}

impl<W: Write + Drop> WriteTo<W> {
    /// A sink into this writer.
    pub fn new(writer: W) -> WriteTo<W>
        ensures bytes { ⟦<WriteTo<W> as Sink>⟧.contents result ≡ W.contents writer }
        ensures fresh { ⟦<WriteTo<W> as Sink>⟧.failed result ≡ false }
    {
        WriteTo {
            writer,
            failed: false,
        }
    }
}

impl<W: Write + Drop> Sink for WriteTo<W> {
    ghost contents = { λ s. W.contents s.writer };

    ghost failed = { λ s. s.failed };

    fn write(&mut self, bytes: &[u8]) -> Result<usize, WriteFailed> {
        for _ in 0..u64::MAX {
            match self.writer.write(bytes) {
                Ok(count) if count > 0 || bytes.is_empty() => return Ok(count),
                Err(fault) if fault.kind() == ErrorKind::Interrupted => {}
                _ => break,
            }
        }
        self.failed = true;
        Err(WriteFailed)
    }
}

/// The sink failed: it got the first `sent` bytes.
#[derive(Clone, Copy, Debug, PartialEq, Eq)]
pub struct SendFault {
    pub sent: usize,
}

/// Writes all of the bytes, to a sink that has not failed. Once a write fails, it writes no more.
pub fn send_all<W: Sink>(sink: &mut W, bytes: &[u8]) -> Result<(), SendFault>
    requires { W.failed sink.old ≡ false }
    ensures ok { OnOk result (Appends (W.contents sink.old) (W.contents sink.new) bytes.now) }
    ensures err { IfErr result (λ fault. (fault.sent < length bytes.now)
        × Appends (W.contents sink.old) (W.contents sink.new) (take fault.sent bytes.now)) }
    ensures sound { OnOk result (W.failed sink.new ≡ W.failed sink.old) }
    ensures failed { OnErr result (W.failed sink.new ≡ true) }
{
    let mut sent = 0;
    while sent < bytes.len() {
        match sink.write(&bytes[sent..]) {
            Ok(count) => sent += count,
            Err(WriteFailed) => return Err(SendFault { sent }),
        }
    }
    Ok(())
}
