//! The snapshot of a recovery, in a block of its own: what a connection does is small then, whichever it is.
ghost use Rattle.std.specs.Prelude.{◌≡◌};

use sr_policy::Snapshot;
use std::alloc::{AllocError, Global};
use std::marker::Model;

/// A block for one snapshot.
#[derive(Drop)]
pub(crate) struct Shelf {
    block: Box<Option<Snapshot>>,
}

impl Shelf {
    /// One with nothing on it. An `Err` says that memory is lacking.
    pub(crate) fn new(alloc: Global) -> Result<Shelf, AllocError> {
        let block = Box::new(alloc, None)?;
        Ok(Shelf { block })
    }

    /// Keeps a snapshot in its block. Takes no memory.
    pub(crate) fn keep(self, snapshot: Snapshot) -> KeptSnapshot
        ensures { result ≡ snapshot }
    {
        let Shelf { mut block } = self;
        Box::replace(&mut block, Some(snapshot));
        KeptSnapshot { block }
    }
}

/// A snapshot that is kept in a block.
pub struct KeptSnapshot {
    block: Box<Option<Snapshot>>,
}

// A function of its own, so that a caller that lets go of one is proved without looking at its parts.
impl Drop for KeptSnapshot {
    fn drop(self) {
        let KeptSnapshot { block: _ } = self;
    }
}

impl Model for KeptSnapshot {
    ghost use Rattle.std.specs.Prelude.{IsSome};
    ghost use Rattle.sr_policy.specs.{SnapshotState};
    ghost use Rattle.sr_hub.specs.steps.Shelf.{shown_in};

    ghost Value = { SnapshotState };

    ghost view = { λ k. shown_in k.block.value };

    ghost invariant = { λ k. IsSome k.block.value };
}

impl KeptSnapshot {
    /// The snapshot.
    pub(crate) fn as_snapshot(&self) -> &Snapshot
        ensures { result.now ≡ self.now }
    {
        match self.block.as_ref() {
            Some(snapshot) => snapshot,
            None => unreachable!(),
        }
    }

    /// Takes the snapshot out of its block, in which another can be kept. Takes no memory.
    pub(crate) fn take_out(self) -> (Snapshot, Shelf)
        ensures { result.0 ≡ self }
    {
        let KeptSnapshot { mut block } = self;
        match Box::replace(&mut block, None) {
            Some(snapshot) => (snapshot, Shelf { block }),
            None => unreachable!(),
        }
    }
}
