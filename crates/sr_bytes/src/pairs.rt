ghost use Rattle.std.specs.Prelude.{◌≡◌, ◌∷◌, [], ◌<◌, ◌+◌, ◌*◌, ◌^◌, List, length, IfSome, IfNone};
ghost use Rattle.sr_bytes.specs.Packed.{IsPacked, IsPacked-prop, Pair, Packs, pairs_of};

use crate::packed::first_string;
use std::marker::Model;

/// Fields with their values where they lie, to be looked at in turn.
#[derive(Drop)]
pub struct Pairs<'a> {
    left: &'a [u8],
    ghost pairs: { IsPacked left.now } by { IsPacked-prop left.now },
}

impl<'a> Model for Pairs<'a> {
    ghost use Rattle.std.specs.Prelude.{List, ℕ};
    ghost use Rattle.sr_bytes.specs.Packed.{pairs_of};

    ghost Value = { List (List ℕ × List ℕ) };

    ghost view = { λ p. pairs_of p.left.now p.pairs };
}

impl<'a> Pairs<'a> {
    /// The pairs that the bytes pack.
    pub(crate) fn new(text: &'a [u8]) -> Pairs<'a>
        requires { IsPacked text.now }
        ensures { (is : IsPacked text.now) → result ≡ pairs_of text.now is }
    {
        Pairs { left: text }
    }

    /// The pairs that the bytes pack, as `Fields::packed` gives them.
    pub fn of(text: &'a [u8]) -> Pairs<'a>
        requires { IsPacked text.now }
        ensures { (pairs : List Pair) → Packs text.now pairs → result ≡ pairs }
    {
        Pairs::new(text)
    }

    /// The next field and its value, which then are looked at.
    pub fn next(&mut self) -> Option<(&'a [u8], &'a [u8])>
        ensures some { IfSome result (λ pair. self.old ≡ (pair.0.now, pair.1.now) ∷ self.new) }
        ensures none { IfNone result (self.old ≡ []) }
        ensures same { IfNone result (self.new ≡ []) }
        ensures shorter { IfSome result (λ _. length self.new + 1 ≡ length self.old) }
    {
        if self.left.is_empty() {
            return None;
        }
        let (field, behind) = first_string(self.left);
        let (value, left) = first_string(behind);
        self.left = left;
        Some((field, value))
    }

    /// The same pairs, to be looked at a second time.
    pub fn again(&self) -> Pairs<'a>
        ensures same { result ≡ self.now }
        ensures few { 2 * length self.now < 2 ^ 64 }
    {
        Pairs { left: self.left }
    }

    /// How many pairs are left. It counts them.
    pub fn len(&self) -> usize
        ensures value { result ≡ length self.now }
        ensures few { 2 * result < 2 ^ 64 }
    {
        let mut rest = self.again();
        let mut count = 0;
        while let Some(_) = rest.next() {
            count += 1;
        }
        count
    }
}
