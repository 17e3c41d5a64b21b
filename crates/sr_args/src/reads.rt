ghost use Rattle.std.specs.Prelude.{◌≡◌, map, IfOk};
ghost use Rattle.sr_args.specs.Different.{AreDifferent};

use sr_bytes::Name;
use sr_ids::Id;
use std::alloc::{AllocError, Global};
use std::marker::Model;

/// Which entries of a stream a consumer of a group reads.
///
/// Source: Redis documentation, command XREADGROUP.
#[derive(Clone, Copy, PartialEq, Eq)]
pub enum ReadAsked {
    /// `>`: those that the group has not delivered yet.
    New,
    /// Its own pending entries above this id.
    PendingAfter(Id),
}

/// Streams by their keys, each named once, with what is read of each.
#[derive(Drop)]
pub struct Streams<P> {
    list: Vec<(Name, P)>,
}

impl<P> Model for Streams<P> {
    ghost use Rattle.std.specs.Prelude.{ℕ, List, map};
    ghost use Rattle.sr_args.specs.Different.{AreDifferent};

    ghost Value = { List (List ℕ × P) };

    ghost view = { λ s. s.list.items };

    ghost invariant = { λ s. AreDifferent (map (λ stream. stream.0) s.list.items) };
}

impl<P> Streams<P> {
    /// These streams. Takes no memory.
    pub fn new(list: Vec<(Name, P)>) -> Streams<P>
        requires { AreDifferent (map (λ stream. stream.0) list.items) }
        ensures { result ≡ list.items }
    {
        Streams { list }
    }

    /// The streams, in the order in which they are named.
    pub fn as_slice(&self) -> &[(Name, P)]
        ensures value { result.now ≡ self.now }
        ensures once { AreDifferent (map (λ stream. stream.0) self.now) }
    {
        self.list.as_slice()
    }
}

impl<P: Copy> Streams<P> {
    /// A copy with the same streams.
    pub fn copy(&self, alloc: Global) -> Result<Streams<P>, AllocError>
        ensures { IfOk result (λ copy. copy ≡ self.now) }
    {
        let list = copies(alloc, self.as_slice())?;
        Ok(Streams::new(list))
    }
}

/// Copies of the streams.
fn copies<P: Copy>(alloc: Global, streams: &[(Name, P)]) -> Result<Vec<(Name, P)>, AllocError>
    ensures { IfOk result (λ list. list.items ≡ streams.now) }
{
    let mut list = Vec::with_capacity(alloc, streams.len())?;
    for stream in streams {
        let key = stream.0.copy(alloc)?;
        list.push((key, stream.1))?;
    }
    Ok(list)
}
