ghost use Rattle.std.specs.Prelude.{◌≡◌, ℕ, ◌≤◌, ◌<◌, List, Option, None, Bool, true, false, length, IfOk, OnOk, OnErr};
ghost use Rattle.std.specs.Io.KnownBytes.{ReadConsumes};
ghost use Rattle.sr_session.specs.Source.{CountsReads};

use std::io::{ErrorKind, Read};

/// A read failed.
#[derive(Clone, Copy, Debug, PartialEq, Eq)]
pub struct ReadFailed;

/// Where a session's bytes come from.
pub trait Source {
    /// The bytes that it will give from here on, if they are known.
    ghost remaining: { Self → Option (List ℕ) };

    /// Whether it came to its end.
    ghost ended: { Self → Bool };

    /// Whether a read failed.
    ghost failed: { Self → Bool };

    /// How many reads there were, if that is known.
    ghost reads: { Self → Option ℕ };

    /// Reads some bytes to the front of `buffer`, and answers how many. It is 0 only at the end of the source, or if
    /// the buffer has no room. After the end, or a failed read, there is no other.
    fn read(&mut self, buffer: &mut [u8]) -> Result<usize, ReadFailed>
        requires open { ended self.old ≡ false }
        requires sound { failed self.old ≡ false }
        requires piece { length buffer.old ≤ 4096 }
        ensures bound { IfOk result (λ count. count ≤ length buffer.new) }
        ensures bytes { ReadConsumes (remaining self.old) (remaining self.new) result buffer.new }
        ensures end { IfOk result (λ count. count ≡ 0 → 0 < length buffer.new → ended self.new ≡ true) }
        ensures more { IfOk result (λ count. 0 < count → ended self.new ≡ ended self.old) }
        ensures count { CountsReads (reads self.old) (reads self.new) 1 }
        ensures ok { OnOk result (failed self.new ≡ failed self.old) }
        ensures err { OnErr result (failed self.new ≡ true) }
        ensures err_end { OnErr result (ended self.new ≡ ended self.old) };
}

/// The bytes of a reader. An interrupted read is tried again.
#[derive(Drop)]
pub struct ReadFrom<R: Read> {
    reader: R,
    ended: bool,
    failed: bool,
}

impl<R: Read> ReadFrom<R> {
    /// The bytes that this reader gives.
    pub fn new(reader: R) -> ReadFrom<R>
        ensures bytes { ⟦<ReadFrom<R> as Source>⟧.remaining result ≡ R.remaining reader }
        ensures fresh { (⟦<ReadFrom<R> as Source>⟧.ended result ≡ false)
            × (⟦<ReadFrom<R> as Source>⟧.failed result ≡ false) }
    {
        ReadFrom {
            reader,
            ended: false,
            failed: false,
        }
    }
}

impl<R: Read> Source for ReadFrom<R> {
    ghost remaining = { λ s. R.remaining s.reader };

    ghost ended = { λ s. s.ended };

    ghost failed = { λ s. s.failed };

    ghost reads = { λ _. None };

    fn read(&mut self, buffer: &mut [u8]) -> Result<usize, ReadFailed> {
        for _ in 0..u64::MAX {
            match self.reader.read(buffer) {
                Ok(count) => {
                    if count == 0 {
                        self.ended = true;
                    }
                    return Ok(count);
                }
                Err(error) if error.kind() == ErrorKind::Interrupted => {}
                Err(_) => break,
            }
        }
        self.failed = true;
        Err(ReadFailed)
    }
}
