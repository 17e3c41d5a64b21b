ghost use Rattle.std.specs.Prelude.{◌≡◌, ℕ, List, ◌+◌, ◌∷◌, [], ◌↔◌, length, IfSome, IfNone, IsTrue};
ghost use Rattle.sr_bytes.specs.PackedWords.{IsPackedWords, IsPackedWords-prop, PacksWords, words_of};

use crate::packed::first_string;
use std::marker::Model;

/// The words of a request that are still to be read, from the first to the last.
#[derive(Drop)]
pub struct Unread<'a> {
    left: &'a [u8],
    count: usize,
    ghost words: { IsPackedWords left.now } by { IsPackedWords-prop left.now },
}

impl<'a> Model for Unread<'a> {
    ghost use Rattle.std.specs.Prelude.{◌≡◌, List, ℕ, length};
    ghost use Rattle.sr_bytes.specs.PackedWords.{words_of};

    ghost Value = { List (List ℕ) };

    ghost view = { λ u. words_of u.left.now u.words };

    ghost invariant = { λ u. u.count ≡ length (words_of u.left.now u.words) };
}

impl<'a> Unread<'a> {
    /// The words that the bytes pack, of which there are `count`.
    pub(crate) fn new(text: &'a [u8], count: usize) -> Unread<'a>
        requires packed { IsPackedWords text.now }
        requires counted { (is : IsPackedWords text.now) → count ≡ length (words_of text.now is) }
        ensures { (is : IsPackedWords text.now) → result ≡ words_of text.now is }
    {
        Unread { left: text, count }
    }

    /// How many words are left.
    pub fn len(&self) -> usize
        ensures { result ≡ length self.now }
    {
        self.count
    }

    /// Whether no word is left.
    pub fn is_empty(&self) -> bool
        ensures { IsTrue result ↔ (self.now ≡ []) }
    {
        self.count == 0
    }

    /// The next word, which is then read.
    pub fn next(&mut self) -> Option<&'a [u8]>
        ensures some { IfSome result (λ word. self.old ≡ word.now ∷ self.new) }
        ensures none { IfNone result (self.old ≡ []) }
        ensures same { IfNone result (self.new ≡ []) }
        ensures shorter { IfSome result (λ _. length self.new + 1 ≡ length self.old) }
    {
        if self.count == 0 {
            return None;
        }
        let (word, left) = first_string(self.left);
        self.left = left;
        self.count -= 1;
        Some(word)
    }

    /// The next word, which stays to be read.
    pub fn peek(&self) -> Option<&'a [u8]>
        ensures some { IfSome result (λ word. (rest : List (List ℕ)) × (self.now ≡ word.now ∷ rest)) }
        ensures none { IfNone result (self.now ≡ []) }
    {
        if self.count == 0 {
            return None;
        }
        let (word, _) = first_string(self.left);
        Some(word)
    }

    /// The bytes that pack them. It takes no memory.
    pub(crate) fn packed(&self) -> &'a [u8]
        ensures { PacksWords result.now self.now }
    {
        self.left
    }

    /// The same words, to be read a second time.
    pub fn again(&self) -> Unread<'a>
        ensures { result ≡ self.now }
    {
        Unread {
            left: self.left,
            count: self.count,
        }
    }
}
