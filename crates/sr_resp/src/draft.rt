ghost use Rattle.std.specs.Prelude.{◌≡◌, ◌∷◌, [], ◌++◌, ◌+◌, ℕ, List, IfOk, OnOk, OnErr};
ghost use Rattle.sr_resp.specs.Reply.{Part, Array, IsReply, bulk_string, integer, null_string, null_array};
ghost use Rattle.sr_resp.specs.Reply.{array_header};
ghost use Rattle.sr_resp.specs.Spelled.{Spells, IsSpelled};
ghost use Rattle.sr_resp.specs.steps.OneSpelling.{IsSpelled-prop};
ghost use Rattle.sr_resp.specs.steps.Pieces.{part_of, AreHeldAs};

use crate::Reply;
use crate::encoding::append_piece;
use crate::piece::Piece;
use std::alloc::{AllocError, Global};
use std::marker::Model;

/// An array that is written part by part: the headers of arrays, and their items after them.
///
/// Its own header is kept as a number, and the parts after it as their text, so that it fills one buffer.
///
/// Source: RESP2 protocol specification, "RESP protocol description".
pub struct Draft {
    items: usize,
    rest: Vec<u8>,
    ghost others: { IsSpelled rest.items } by { IsSpelled-prop rest.items },
}

// A function of its own, so that a caller that lets go of one is proved without looking at its parts.
impl Drop for Draft {
    fn drop(self) {
        let Draft { items: _, rest: _ } = self;
    }
}

impl Model for Draft {
    ghost use Rattle.std.specs.Prelude.{List, ◌∷◌};
    ghost use Rattle.sr_resp.specs.Reply.{Part, Array};
    ghost use Rattle.sr_resp.specs.Spelled.{parts_of};

    ghost Value = { List Part };

    ghost view = { λ d. Array d.items ∷ parts_of d.rest.items d.others };
}

impl Draft {
    /// A draft that begins with the header of an array. Takes no memory.
    pub fn array(alloc: Global, items: usize) -> Draft
        ensures { result ≡ array_header items }
    {
        Draft {
            items,
            rest: Vec::new(alloc),
        }
    }

    /// The same with room for this many bytes of the spelling of its items.
    pub fn with_room(alloc: Global, items: usize, bytes: usize) -> Result<Draft, AllocError>
        ensures { IfOk result (λ draft. draft ≡ array_header items) }
    {
        Ok(Draft {
            items,
            rest: Vec::with_capacity(alloc, bytes)?,
        })
    }

    /// A draft of the header of an array, followed by the parts that the bytes spell. It copies the bytes.
    pub(crate) fn read(alloc: Global, items: usize, others: &[u8]) -> Result<Draft, AllocError>
        requires { IsSpelled others.now }
        ensures { (parts : List Part) → Spells others.now parts → IfOk result (λ draft. draft ≡ Array items ∷ parts) }
    {
        Ok(Draft {
            items,
            rest: Vec::from_slice(alloc, others)?,
        })
    }

    /// Adds the header of an array.
    pub fn header(&mut self, items: usize) -> Result<(), AllocError>
        ensures ok { OnOk result (self.new ≡ self.old ++ array_header items) }
        ensures err { OnErr result (self.new ≡ self.old) }
    {
        self.add(Piece::Array(items))
    }

    /// Adds a bulk string of these bytes.
    pub fn bulk(&mut self, bytes: &[u8]) -> Result<(), AllocError>
        ensures ok { OnOk result (self.new ≡ self.old ++ bulk_string bytes.now) }
        ensures err { OnErr result (self.new ≡ self.old) }
    {
        self.add(Piece::Bulk(bytes))
    }

    /// Adds an integer.
    pub fn int(&mut self, n: i64) -> Result<(), AllocError>
        ensures ok { OnOk result (self.new ≡ self.old ++ integer n) }
        ensures err { OnErr result (self.new ≡ self.old) }
    {
        self.add(Piece::Int(n))
    }

    /// Adds the null bulk string.
    pub fn null_bulk(&mut self) -> Result<(), AllocError>
        ensures ok { OnOk result (self.new ≡ self.old ++ null_string) }
        ensures err { OnErr result (self.new ≡ self.old) }
    {
        self.add(Piece::NullBulk)
    }

    /// Adds the null array.
    pub fn no_array(&mut self) -> Result<(), AllocError>
        ensures ok { OnOk result (self.new ≡ self.old ++ null_array) }
        ensures err { OnErr result (self.new ≡ self.old) }
    {
        self.add(Piece::NullArray)
    }

    /// The reply that has been written. Takes no memory.
    pub fn finish(self) -> Reply
        requires { IsReply self }
        ensures { result ≡ self }
    {
        Reply::of(self)
    }

    fn add(&mut self, piece: Piece<'_>) -> Result<(), AllocError>
        ensures ok { OnOk result (self.new ≡ self.old ++ part_of piece.entry ∷ []) }
        ensures err { OnErr result (self.new ≡ self.old) }
    {
        append_piece(&mut self.rest, piece)?;
        Ok(())
    }

    /// Adds a reply as one item more of the array. An `Err` leaves the array as it was.
    pub(crate) fn push(&mut self, item: &Reply) -> Result<(), AllocError>
        requires { IsReply self.old }
        ensures ok { OnOk result ((items : ℕ) (others : List Part) → self.old ≡ Array items ∷ others
            → self.new ≡ Array (items + 1) ∷ others ++ item.now) }
        ensures err { OnErr result (self.new ≡ self.old) }
        ensures one { IsReply self.new }
    {
        item.append_to(&mut self.rest)?;
        self.items += 1;
        Ok(())
    }

    /// The header, and the text of the parts after it.
    pub(crate) fn split(&self) -> (Piece<'_>, &[u8])
        ensures { AreHeldAs self.now (part_of result.0) result.1.now }
    {
        (Piece::Array(self.items), self.rest.as_slice())
    }

    /// A copy of this draft.
    pub(crate) fn copy(&self, alloc: Global) -> Result<Draft, AllocError>
        ensures { IfOk result (λ d. d ≡ self.now) }
    {
        Draft::read(alloc, self.items, self.rest.as_slice())
    }
}
