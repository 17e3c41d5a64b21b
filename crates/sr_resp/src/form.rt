ghost use Rattle.std.specs.Prelude.{◌≡◌, IfOk};

use crate::bytes::Bytes;
use crate::piece::Piece;
use crate::{Draft, ErrCode, Word};
use std::alloc::{AllocError, Global};

/// What a reply is: one part, or an array. Only the bytes of a long bulk string and an array take memory.
#[derive(Drop)]
pub(crate) enum Form {
    /// A simple string.
    Simple(Word),
    /// An error.
    Error(ErrCode),
    /// An integer.
    Int(i64),
    /// A bulk string.
    Bulk(Bytes),
    /// The null bulk string.
    NullBulk,
    /// The null array.
    NullArray,
    /// An array.
    Array(Draft),
}

impl Form {
    ghost use Rattle.std.specs.Prelude.{◌≡◌, ◌↔◌, ◌∷◌, List, IsTrue, IfOk};
    ghost use Rattle.sr_resp.specs.Reply.{Part, items_of};
    ghost use Rattle.sr_resp.specs.Spelled.{Spells};
    ghost use Rattle.sr_resp.specs.steps.Decoding.{AreSpelledReplies};
    ghost use Rattle.sr_resp.specs.steps.Forms.{parts_of_form};
    ghost use Rattle.sr_resp.specs.steps.Pieces.{part_of, AreHeldAs};

    /// This part, followed by the items that the text spells. It copies the bytes: only more than 23 of a bulk string,
    /// and the items, take memory.
    pub(crate) fn read(alloc: Global, first: Piece<'_>, items: &[u8]) -> Result<Form, AllocError>
        requires { AreSpelledReplies (items_of (part_of first)) items.now }
        ensures { (parts : List Part) → Spells items.now parts
            → IfOk result (λ form. parts_of_form form ≡ part_of first.entry ∷ parts) }
    {
        Ok(match first {
            Piece::Simple(word) => Form::Simple(word),
            Piece::Error(code) => Form::Error(code),
            Piece::Int(n) => Form::Int(n),
            Piece::Bulk(bytes) => Form::Bulk(Bytes::of(alloc, bytes)?),
            Piece::NullBulk => Form::NullBulk,
            Piece::NullArray => Form::NullArray,
            Piece::Array(count) => Form::Array(Draft::read(alloc, count, items)?),
        })
    }

    /// The first part with its bytes lent, and the text of the others. An id is written to the front of `spelled`.
    pub(crate) fn split<'a>(&'a self, spelled: &'a mut [u8; 41]) -> (Piece<'a>, &'a [u8])
        ensures { AreHeldAs (parts_of_form self.now) (part_of result.0) result.1.now }
    {
        match self {
            Form::Simple(word) => (Piece::Simple(*word), b""),
            Form::Error(code) => (Piece::Error(*code), b""),
            Form::Int(n) => (Piece::Int(*n), b""),
            Form::Bulk(bytes) => (Piece::Bulk(bytes.as_slice(spelled)), b""),
            Form::NullBulk => (Piece::NullBulk, b""),
            Form::NullArray => (Piece::NullArray, b""),
            Form::Array(draft) => draft.split(),
        }
    }

    /// A copy.
    pub(crate) fn copy(&self, alloc: Global) -> Result<Form, AllocError>
        ensures { IfOk result (λ form. form ≡ self.now) }
    {
        Ok(match self {
            Form::Simple(word) => Form::Simple(*word),
            Form::Error(code) => Form::Error(*code),
            Form::Int(n) => Form::Int(*n),
            Form::Bulk(bytes) => Form::Bulk(bytes.copy(alloc)?),
            Form::NullBulk => Form::NullBulk,
            Form::NullArray => Form::NullArray,
            Form::Array(draft) => Form::Array(draft.copy(alloc)?),
        })
    }

    /// Whether both have the same parts.
    pub(crate) fn is_same(&self, other: &Form) -> bool
        ensures { IsTrue result ↔ (parts_of_form self.now ≡ parts_of_form other.now) }
    {
        let mut spelled = [0; 41];
        let mut other_spelled = [0; 41];
        let (first, items) = self.split(&mut spelled);
        let (other_first, other_items) = other.split(&mut other_spelled);
        first == other_first && items == other_items
    }
}
