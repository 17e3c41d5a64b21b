ghost use Rattle.std.specs.Prelude.{◌≡◌, None};

use crate::Answered;
use sr_stream::Stream;
use std::alloc::{AllocError, Global};

/// What a command makes at a missing key.
#[derive(Drop)]
pub(crate) struct Made {
    /// The stream for the key, if the command makes the key.
    pub(crate) stream: Option<Stream>,
    pub(crate) outcome: Answered,
}

/// A command that changes the stream at one key.
pub(crate) trait Touch {
    ghost use Rattle.std.specs.Prelude.{◌≡◌, Option, Some, None, OnOk, OnErr, IfOk};
    ghost use Rattle.sr_stream.specs.{StreamState};
    ghost use Rattle.sr_space.specs.Keys.{shown_of};
    ghost use Rattle.sr_space.specs.Touched.{Touched, left_of};

    /// What the command does to the stream, or without one.
    ghost touches: { Self → Option StreamState → Touched };

    /// Carries the command out on a stream. After an `Err` the stream shows what it showed.
    fn at_stream(&self, alloc: Global, stream: &mut Stream) -> Result<Answered, AllocError>
        ensures stream { OnOk result
            (stream.new.shown ≡ left_of stream.old.shown (touches self.now (Some stream.old.shown)).written) }
        ensures outcome { IfOk result (λ outcome. outcome ≡ (touches self.now (Some stream.old.shown)).outcome) }
        ensures err { OnErr result (stream.new.shown ≡ stream.old.shown) };

    /// Carries the command out at a missing key.
    fn at_missing(&self, alloc: Global) -> Result<Made, AllocError>
        ensures stream { IfOk result (λ made.
            shown_of made.stream ≡ (touches self.now None).written) }
        ensures outcome { IfOk result (λ made. made.outcome ≡ (touches self.now None).outcome) };
}

/// An outcome that makes no key.
pub(crate) fn unmade(outcome: Answered) -> Made
    ensures stream { result.stream ≡ None }
    ensures outcome { result.outcome ≡ outcome }
{
    Made {
        stream: None,
        outcome,
    }
}
