ghost use Rattle.std.specs.Prelude.{◌≡◌, ◌∷◌, ◌++◌, [], ◌<◌, ◌^◌, ◌%◌, List, ℕ, length, OnOk, OnErr, IfOk};
ghost use Rattle.sr_bytes.specs.Packed.{IsPacked, IsPacked-prop, Packs, packed_pair};
ghost use Rattle.sr_bytes.specs.PackedWords.{paired};

use crate::packed::append_string;
use crate::{Pairs, Unread};
use std::alloc::{AllocError, Global};
use std::marker::Model;

/// The fields of an entry, each with its value, in the order in which they were written.
///
/// They are kept in one run of bytes: each string behind its length, which takes one byte, or nine if it is 255 or
/// more.
///
/// Source: Redis documentation, "Streams", section "Streams basics".
#[derive(Drop)]
pub struct Fields {
    text: Vec<u8>,
    ghost pairs: { IsPacked text.items } by { IsPacked-prop text.items },
}

impl Model for Fields {
    ghost use Rattle.std.specs.Prelude.{List, ℕ};
    ghost use Rattle.sr_bytes.specs.Packed.{pairs_of};

    ghost Value = { List (List ℕ × List ℕ) };

    ghost view = { λ f. pairs_of f.text.items f.pairs };
}

impl Fields {
    /// No fields. Takes no memory.
    pub fn new(alloc: Global) -> Fields
        ensures { result ≡ [] }
    {
        Fields {
            text: Vec::new(alloc),
        }
    }

    /// No fields, with room for this many bytes: those of all strings together, as `packed_len` tells them.
    pub fn with_room(alloc: Global, bytes: usize) -> Result<Fields, AllocError>
        ensures { IfOk result (λ fields. fields ≡ []) }
    {
        Ok(Fields {
            text: Vec::with_capacity(alloc, bytes)?,
        })
    }

    /// The fields and values that words are, two by two: an even number of words. It copies their bytes in one piece.
    pub fn of_words(alloc: Global, words: Unread<'_>) -> Result<Fields, AllocError>
        requires { length words % 2 ≡ 0 }
        ensures { IfOk result (λ fields. fields ≡ paired words.entry) }
    {
        Ok(Fields {
            text: Vec::from_slice(alloc, words.packed())?,
        })
    }

    /// Adds a field with its value at the end. An `Err` leaves the fields as they were.
    pub fn add(&mut self, field: &[u8], value: &[u8]) -> Result<(), AllocError>
        ensures ok { OnOk result (self.new ≡ self.old ++ (field.now, value.now) ∷ []) }
        ensures err { OnErr result (self.new ≡ self.old) }
    {
        append_pair(&mut self.text, field, value)?;
        Ok(())
    }

    /// The fields and their values, to be looked at in turn.
    pub fn pairs(&self) -> Pairs<'_>
        ensures { result ≡ self.now }
    {
        Pairs::new(self.text.as_slice())
    }

    /// The bytes that pack them, as `Pairs::of` reads them. It takes no memory.
    pub fn packed(&self) -> &[u8]
        ensures { Packs result.now self.now }
    {
        self.text.as_slice()
    }

    /// A copy with the same fields and values.
    pub fn copy(&self, alloc: Global) -> Result<Fields, AllocError>
        ensures { IfOk result (λ f. f ≡ self.now) }
    {
        Ok(Fields {
            text: Vec::from_slice(alloc, self.text.as_slice())?,
        })
    }
}

/// Appends a field and its value. An `Err` leaves the bytes as they were.
fn append_pair(out: &mut Vec<u8>, field: &[u8], value: &[u8]) -> Result<(), AllocError>
    ensures ok { OnOk result (out.new.items ≡ out.old.items ++ packed_pair (field.now, value.now)) }
    ensures err { OnErr result (out.new.items ≡ out.old.items) }
    ensures short { (length field.now < 2 ^ 64) × (length value.now < 2 ^ 64) }
{
    let start = out.len();
    if append_string(out, field).is_err() || append_string(out, value).is_err() {
        out.truncate(start);
        return Err(AllocError);
    }
    Ok(())
}
