//! A reader and a writer of a session whose bytes are counted: the records of its book say as many.
ghost use Rattle.std.specs.Prelude.{◌≡◌};

use sr_resp::{Sink, WriteFailed};
use sr_run::Shared;
use sr_session::{ReadFailed, Source};
use std::sync::ledger::Ledger;

/// What is read for a shared book, and counted.
#[derive(Drop)]
pub(crate) struct CountedSource<'a, L: Ledger, S: Source + Drop> {
    source: S,
    shared: &'a Shared<L>,
}

impl<'a, L: Ledger, S: Source + Drop> CountedSource<'a, L, S> {
    /// What this source gives.
    pub(crate) fn new(shared: &'a Shared<L>, source: S) -> CountedSource<'a, L, S>
        ensures { result.source ≡ source }
    {
        CountedSource { source, shared }
    }
}

impl<L: Ledger, S: Source + Drop> Source for CountedSource<'_, L, S> {
    ghost remaining = { λ c. S.remaining c.source };

    ghost ended = { λ c. S.ended c.source };

    ghost failed = { λ c. S.failed c.source };

    ghost reads = { λ c. S.reads c.source };

    fn read(&mut self, buffer: &mut [u8]) -> Result<usize, ReadFailed> {
        let result = self.source.read(buffer);
        if let Ok(count) = result {
            self.shared.says(count as u64);
        }
        result
    }
}

/// What is written for a shared book, and counted before that: a client that does not read may hold it up.
#[derive(Drop)]
pub(crate) struct CountedSink<'a, L: Ledger, S: Sink + Drop> {
    sink: S,
    shared: &'a Shared<L>,
    /// How many bytes of those that come next were counted already.
    counted: usize,
}

impl<'a, L: Ledger, S: Sink + Drop> CountedSink<'a, L, S> {
    /// What this sink gets.
    pub(crate) fn new(shared: &'a Shared<L>, sink: S) -> CountedSink<'a, L, S>
        ensures { result.sink ≡ sink }
    {
        CountedSink {
            sink,
            shared,
            counted: 0,
        }
    }
}

impl<L: Ledger, S: Sink + Drop> Sink for CountedSink<'_, L, S> {
    ghost contents = { λ c. S.contents c.sink };

    ghost failed = { λ c. S.failed c.sink };

    fn write(&mut self, bytes: &[u8]) -> Result<usize, WriteFailed> {
        self.shared
            .says(bytes.len().saturating_sub(self.counted) as u64);
        let result = self.sink.write(bytes);
        let sent = result.unwrap_or(0);
        self.counted = bytes.len().saturating_sub(sent);
        result
    }
}
