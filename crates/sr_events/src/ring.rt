ghost use Rattle.std.specs.Prelude.{◌≡◌, ◌&&◌, [], ◌∷◌, length, not, if◌then◌else◌, IfOk, IfSome, IfNone};
ghost use Rattle.std.specs.Prelude.{false, true, nat_lt, slice_index_or, slice_set};
ghost use Rattle.sr_events.specs.Turns.{turns, with_first_turn, with_turn};

use circular_buffer::HeapCircularBuffer;
use std::alloc::{AllocError, Global};
use std::marker::Model;

/// The connections that have a turn, each at most once, in the order in which they come.
#[derive(Drop)]
pub(crate) struct Ring {
    tokens: HeapCircularBuffer<usize>,
    /// For each token whether it has a turn.
    waits: Vec<bool>,
}

impl Model for Ring {
    ghost use Rattle.std.specs.Prelude.{vec_len};
    ghost use Rattle.sr_events.specs.Turns.{Turns, turns};
    ghost use Rattle.sr_events.specs.steps.Ring.{IsRing};

    ghost Value = { Turns };

    ghost view = { λ ring. turns ring.tokens.items (vec_len ring.waits) };

    ghost invariant = { λ ring. IsRing ring.tokens ring.waits.items };
}

impl Ring {
    /// A ring for the tokens below `most`, of which none has a turn.
    pub fn new(alloc: Global, most: usize) -> Result<Ring, AllocError>
        ensures { IfOk result (λ ring. ring ≡ turns [] most) }
    {
        Ok(Ring {
            tokens: HeapCircularBuffer::with_capacity(alloc, most)?,
            waits: Vec::from_elem(alloc, false, most)?,
        })
    }

    /// How many tokens have a turn.
    pub fn len(&self) -> usize
        ensures { result ≡ length self.now.tokens }
    {
        self.tokens.len()
    }

    /// Gives a token a turn after all others. One that has a turn keeps its own.
    pub fn push(&mut self, token: usize)
        ensures { self.new ≡ with_turn token self.old }
    {
        if begin_to_wait(&mut self.waits, token) {
            let _ = self.tokens.push_back(token);
        }
    }

    /// Gives a token a turn before all others. One that has a turn keeps its own.
    pub fn push_front(&mut self, token: usize)
        ensures { self.new ≡ with_first_turn token self.old }
    {
        if begin_to_wait(&mut self.waits, token) {
            let _ = self.tokens.push_front(token);
        }
    }

    /// The token whose turn it is.
    pub fn pop(&mut self) -> Option<usize>
        ensures some { IfSome result (λ token. self.old ≡ turns (token ∷ self.new.tokens) self.new.most) }
        ensures none { IfNone result ((self.old.tokens ≡ []) × (self.new ≡ self.old)) }
    {
        let token = self.tokens.pop_front()?;
        self.waits[token] = false;
        Some(token)
    }
}

/// Notes that a token has a turn. Answers whether it is one of those that there are, and had none.
fn begin_to_wait(waits: &mut Vec<bool>, token: usize) -> bool
    ensures value { result ≡
        (nat_lt token (length waits.old.items) && not (slice_index_or waits.old.items token false)) }
    ensures flags { waits.new.items ≡ (if result then slice_set waits.old.items token true else waits.old.items) }
{
    if token < waits.len() && !waits[token] {
        waits[token] = true;
        return true;
    }
    false
}
