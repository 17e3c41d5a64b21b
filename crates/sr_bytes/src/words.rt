ghost use Rattle.std.specs.Prelude.{◌≡◌, ◌∷◌, ◌++◌, [], ◌<◌, ◌^◌, length, OnOk, OnErr, IfOk};
ghost use Rattle.sr_bytes.specs.Packed.{packed_string};
ghost use Rattle.sr_bytes.specs.PackedWords.{IsPackedWords, IsPackedWords-prop};

use crate::Unread;
use crate::packed::append_string;
use std::alloc::{AllocError, Global};
use std::marker::Model;

/// Words in one run of bytes, in the order in which they were written: a request.
///
/// Each is kept behind its length, which takes one byte, or nine if it is 255 or more.
///
/// Source: RESP2 protocol specification, "Sending commands to a Redis server".
#[derive(Drop)]
pub struct Words {
    text: Vec<u8>,
    count: usize,
    ghost words: { IsPackedWords text.items } by { IsPackedWords-prop text.items },
}

impl Model for Words {
    ghost use Rattle.std.specs.Prelude.{◌≡◌, List, ℕ, length};
    ghost use Rattle.sr_bytes.specs.PackedWords.{words_of};

    ghost Value = { List (List ℕ) };

    ghost view = { λ w. words_of w.text.items w.words };

    ghost invariant = { λ w. w.count ≡ length (words_of w.text.items w.words) };
}

impl Words {
    /// No words. Takes no memory.
    pub fn new(alloc: Global) -> Words
        ensures { result ≡ [] }
    {
        Words {
            text: Vec::new(alloc),
            count: 0,
        }
    }

    /// No words, with room for this many bytes: those of all words together, as `packed_len` tells them.
    pub fn with_room(alloc: Global, bytes: usize) -> Result<Words, AllocError>
        ensures { IfOk result (λ words. words ≡ []) }
    {
        Ok(Words {
            text: Vec::with_capacity(alloc, bytes)?,
            count: 0,
        })
    }

    /// Adds a word at the end. An `Err` leaves the words as they were.
    pub fn add(&mut self, word: &[u8]) -> Result<(), AllocError>
        ensures ok { OnOk result (self.new ≡ self.old ++ word.now ∷ []) }
        ensures err { OnErr result (self.new ≡ self.old) }
    {
        append_word(&mut self.text, word)?;
        self.count += 1;
        Ok(())
    }

    /// How many words there are.
    pub fn len(&self) -> usize
        ensures { result ≡ length self.now }
    {
        self.count
    }

    /// The words, to be read in turn.
    pub fn unread(&self) -> Unread<'_>
        ensures { result ≡ self.now }
    {
        Unread::new(self.text.as_slice(), self.count)
    }
}

/// Appends a word. An `Err` leaves the bytes as they were.
fn append_word(out: &mut Vec<u8>, word: &[u8]) -> Result<(), AllocError>
    ensures ok { OnOk result (out.new.items ≡ out.old.items ++ packed_string word.now) }
    ensures err { OnErr result (out.new.items ≡ out.old.items) }
    ensures short { length word.now < 2 ^ 64 }
{
    let start = out.len();
    if append_string(out, word).is_err() {
        out.truncate(start);
        return Err(AllocError);
    }
    Ok(())
}
