ghost use Rattle.std.specs.Prelude.{◌≡◌, ℕ, List, Option, Some, None, IfOk};
ghost use Rattle.std.specs.Io.{ReadsAtMost, WritesAtMost};
ghost use Rattle.sr_events.specs.Bytes.{IsUnused, after};

use mio::event::Source;
use mio::net::{TcpListener, TcpStream};
use mio::{Interest, Registry, Token};
use std::io::{Read, Result, Write};

/// A connection whose reads and writes answer `WouldBlock` where they would wait.
pub trait Stream: Drop {
    /// The bytes that were read from it since it came, if they are known: of a socket of the system they are not.
    ghost gave: { Self → Option (List ℕ) };

    /// The bytes that were written to it since it came, if they are known.
    ghost got: { Self → Option (List ℕ) };

    /// Has it polled under this token, for bytes and for room.
    fn register(&mut self, registry: &Registry, token: Token) -> Result<()>
        ensures bytes { (gave self.new ≡ gave self.old) × (got self.new ≡ got self.old) };

    /// Reads its next bytes to the front of the buffer, and answers how many.
    fn read(&mut self, buffer: &mut [u8]) -> Result<usize>
        ensures bound { ReadsAtMost result buffer.new }
        ensures gave { gave self.new ≡ after result buffer.new (gave self.old) }
        ensures got { got self.new ≡ got self.old };

    /// Writes some of these bytes, from the first on, and answers how many.
    fn write(&mut self, bytes: &[u8]) -> Result<usize>
        ensures bound { WritesAtMost result bytes.now }
        ensures gave { gave self.new ≡ gave self.old }
        ensures got { got self.new ≡ after result bytes.now (got self.old) };
}

impl Stream for TcpStream {
    ghost gave = { λ _. None };

    ghost got = { λ _. None };

    fn register(&mut self, registry: &Registry, token: Token) -> Result<()> {
        registry.register(self, token, Interest::READABLE | Interest::WRITABLE)
    }

    fn read(&mut self, buffer: &mut [u8]) -> Result<usize> {
        Read::read(self, buffer)
    }

    fn write(&mut self, bytes: &[u8]) -> Result<usize> {
        Write::write(self, bytes)
    }
}

/// A listener whose accepts answer `WouldBlock` where they would wait.
pub trait Listener: Source + Drop {
    type Stream: Stream;

    /// The next connection that came.
    fn accept(&mut self) -> Result<Self::Stream>
        ensures { IfOk result (λ stream. IsUnused (Self.Stream.gave stream) (Self.Stream.got stream)) };
}

impl Listener for TcpListener {
    type Stream = TcpStream;

    fn accept(&mut self) -> Result<TcpStream> {
        let (stream, _) = TcpListener::accept(self)?;
        // Without it replies may come late, and nothing else changes.
        let _ = stream.set_nodelay(true);
        Ok(stream)
    }
}
