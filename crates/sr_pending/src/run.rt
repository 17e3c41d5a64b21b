ghost use Rattle.std.specs.Prelude.{◌≡◌, [], ◌∷◌, IfSome, IfNone, drop};
ghost use Rattle.std.specs.VecDeque.Iter.{deque_iter_rest};

use std::collections::VecDeque;
use std::collections::vec_deque::Iter;
use std::marker::Model;

/// Elements of a list in blocks one after another, looked at where they lie.
#[derive(Drop)]
pub(crate) struct Run<'a, T> {
    /// What is left of the block that it is in.
    pub(crate) first: Iter<'a, T>,
    /// The blocks behind that.
    pub(crate) middle: Iter<'a, VecDeque<T>>,
    /// What it takes of the block behind those.
    pub(crate) last: Iter<'a, T>,
}

impl<'a, T> Model for Run<'a, T> {
    ghost use Rattle.std.specs.Prelude.{List, ◌++◌};
    ghost use Rattle.std.specs.VecDeque.Iter.{deque_iter_rest};
    ghost use Rattle.sr_pending.specs.steps.Blocks.{held_in};

    ghost Value = { List T };

    ghost view = { λ r. deque_iter_rest r.first ++ held_in (deque_iter_rest r.middle) ++ deque_iter_rest r.last };
}

impl<'a, T> Run<'a, T> {
    /// The next element. None if there is no other.
    pub(crate) fn next(&mut self) -> Option<&'a T>
        ensures some { IfSome result (λ x. self.old ≡ x.now ∷ self.new) }
        ensures none { IfNone result (self.old ≡ []) }
        ensures ended { IfNone result (self.new ≡ []) }
    {
        loop {
            if let Some(value) = self.first.next() {
                return Some(value);
            }
            match self.middle.next() {
                Some(block) => self.first = block.iter(),
                None => return self.last.next(),
            }
        }
    }

    /// Leaves out the next element.
    pub(crate) fn skip(&mut self)
        ensures { self.new ≡ drop 1 self.old }
    {
        if let Some(_) = self.next() {}
    }

    /// The same elements once more.
    pub(crate) fn again(&self) -> Run<'a, T>
        ensures { result ≡ self.now }
    {
        Run {
            first: copied(&self.first),
            middle: copied(&self.middle),
            last: copied(&self.last),
        }
    }
}

/// The same elements once more.
fn copied<'a, T>(rest: &Iter<'a, T>) -> Iter<'a, T>
    ensures { deque_iter_rest result ≡ deque_iter_rest rest.now }
{
    match rest.clone() {
        Ok(rest) => rest,
        Err(_) => unreachable!(),
    }
}
