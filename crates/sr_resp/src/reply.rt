ghost use Rattle.std.specs.Prelude.{◌≡◌, ◌↔◌, ◌∷◌, [], ◌++◌, List, IsTrue, IfOk, OnOk, OnErr};
ghost use Rattle.sr_resp.specs.Equality.{same_reply, same_reply-equivalence, same_reply-partial_equivalence};

use crate::bytes::Bytes;
use crate::encoding::append_parts;
use crate::form::Form;
use crate::piece::Piece;
use crate::{Draft, ErrCode, Word};
use itoa::Buffer;
use sr_bytes::Name;
use sr_ids::Id;
use std::alloc::{AllocError, Global};
use std::marker::Model;

/// A reply: a simple string, an error, an integer, a bulk string, a null, or an array of replies.
///
/// An array is kept as its header and the text of its items, so that one of a thousand entries is one buffer.
///
/// Source: RESP2 protocol specification, "RESP protocol description".
pub struct Reply {
    form: Form,
}

// A function of its own, so that a caller that lets go of one is proved without looking at its parts.
impl Drop for Reply {
    fn drop(self) {
        let Reply { form: _ } = self;
    }
}

impl Model for Reply {
    ghost use Rattle.std.specs.Prelude.{List};
    ghost use Rattle.sr_resp.specs.Reply.{Part, IsReply};
    ghost use Rattle.sr_resp.specs.steps.Forms.{parts_of_form};

    ghost Value = { List Part };

    ghost view = { λ r. parts_of_form r.form };

    ghost invariant = { λ r. IsReply (parts_of_form r.form) };
}

impl Reply {
    ghost use Rattle.std.specs.Prelude.{◌≡◌, ◌≤◌, ◌∷◌, [], ◌++◌, List, decimal, length, IfOk, OnOk, OnErr};
    ghost use Rattle.sr_ids.specs.Spelling.{spelling};
    ghost use Rattle.sr_resp.specs.Reply.{Part, ReplyParts, IsReply, IsArray, items_of, simple_string, error_reply};
    ghost use Rattle.sr_resp.specs.Reply.{integer, bulk_string, null_string, null_array, array_of, reply_text};
    ghost use Rattle.sr_resp.specs.Spelled.{AreSpellable, Spells};
    ghost use Rattle.sr_resp.specs.steps.Decoding.{AreSpelledReplies};
    ghost use Rattle.sr_resp.specs.steps.Pieces.{part_of};

    /// A simple string. Takes no memory.
    pub fn simple(_alloc: Global, word: Word) -> Reply
        ensures { result ≡ simple_string word }
    {
        Reply {
            form: Form::Simple(word),
        }
    }

    /// An error. Takes no memory.
    pub fn error(_alloc: Global, code: ErrCode) -> Reply
        ensures { result ≡ error_reply code }
    {
        Reply {
            form: Form::Error(code),
        }
    }

    /// An integer. Takes no memory.
    pub fn int(_alloc: Global, n: i64) -> Reply
        ensures { result ≡ integer n }
    {
        Reply { form: Form::Int(n) }
    }

    /// A bulk string of these bytes. Takes no memory.
    pub fn bulk(_alloc: Global, bytes: Name) -> Reply
        ensures { result ≡ bulk_string bytes }
    {
        Reply {
            form: Form::Bulk(Bytes::long(bytes)),
        }
    }

    /// An entry id as a bulk string. Takes no memory.
    pub fn id(_alloc: Global, id: Id) -> Reply
        ensures { result ≡ bulk_string (spelling id) }
    {
        Reply {
            form: Form::Bulk(Bytes::id(id)),
        }
    }

    /// A bulk string of at most 23 bytes. Takes no memory.
    pub fn short(_alloc: Global, bytes: &[u8]) -> Reply
        requires { length bytes.now ≤ 23 }
        ensures { result ≡ bulk_string bytes.now }
    {
        Reply {
            form: Form::Bulk(Bytes::short(bytes)),
        }
    }

    /// A number as a bulk string of its decimal digits. Takes no memory.
    pub fn decimal(alloc: Global, n: u64) -> Reply
        ensures { result ≡ bulk_string (decimal n) }
    {
        let mut buffer = Buffer::new();
        Reply::short(alloc, buffer.format(n).as_bytes())
    }

    /// The null bulk string. Takes no memory.
    pub fn null_bulk(_alloc: Global) -> Reply
        ensures { result ≡ null_string }
    {
        Reply {
            form: Form::NullBulk,
        }
    }

    /// The null array. Takes no memory.
    pub fn no_array(_alloc: Global) -> Reply
        ensures { result ≡ null_array }
    {
        Reply {
            form: Form::NullArray,
        }
    }

    /// An array without items, to which `push` adds. Takes no memory.
    pub fn empty_array(alloc: Global) -> Reply
        ensures { result ≡ array_of [] }
    {
        Reply {
            form: Form::Array(Draft::array(alloc, 0)),
        }
    }

    /// An array of these items. An `Err` drops them.
    pub fn array<const N: usize>(alloc: Global, items: [Reply; N]) -> Result<Reply, AllocError>
        requires { N ≤ 64 }
        ensures { IfOk result (λ r. r ≡ array_of items.entry) }
    {
        let mut array = Reply::empty_array(alloc);
        for item in items {
            array.push(item)?;
        }
        Ok(array)
    }

    /// Adds an item at the end of an array. An `Err` drops the item and leaves the array as it was.
    pub fn push(&mut self, item: Reply) -> Result<(), AllocError>
        requires array { IsArray self.old }
        ensures ok { OnOk result ((items : List ReplyParts) → self.old ≡ array_of items
            → self.new ≡ array_of (items ++ item ∷ [])) }
        ensures err { OnErr result (self.new ≡ self.old) }
    {
        match &mut self.form {
            Form::Array(draft) => draft.push(&item),
            _ => Ok(()),
        }
    }

    /// A copy of this reply.
    pub fn copy(&self, alloc: Global) -> Result<Reply, AllocError>
        ensures { IfOk result (λ r. r ≡ self.now) }
    {
        Ok(Reply {
            form: self.form.copy(alloc)?,
        })
    }

    /// The reply that a draft has become.
    pub(crate) fn of(draft: Draft) -> Reply
        requires { IsReply draft }
        ensures { result ≡ draft }
    {
        Reply {
            form: Form::Array(draft),
        }
    }

    /// The reply of this part and the items that the text spells. It copies the bytes.
    pub(crate) fn read(alloc: Global, first: Piece<'_>, items: &[u8]) -> Result<Reply, AllocError>
        requires { AreSpelledReplies (items_of (part_of first)) items.now }
        ensures { (parts : List Part) → Spells items.now parts
            → IfOk result (λ reply. reply ≡ part_of first.entry ∷ parts) }
    {
        Ok(Reply {
            form: Form::read(alloc, first, items)?,
        })
    }

    /// Appends the spelling to `out`. An `Err` leaves `out` as it was.
    pub(crate) fn append_to(&self, out: &mut Vec<u8>) -> Result<(), AllocError>
        ensures ok { OnOk result (out.new.items ≡ out.old.items ++ reply_text self.now) }
        ensures err { OnErr result (out.new.items ≡ out.old.items) }
        ensures fit { AreSpellable self.now }
        ensures one { IsReply self.now }
    {
        let mut spelled = [0; 41];
        let (first, items) = self.form.split(&mut spelled);
        append_parts(out, first, items)
    }
}

impl PartialEq for Reply {
    ghost eq = { same_reply };

    ghost laws = { same_reply-partial_equivalence };

    fn eq(&self, other: &Reply) -> bool
        ensures value { result ≡ same_reply self.now other.now }
        ensures exact { IsTrue result ↔ (self.now ≡ other.now) }
    {
        self.form.is_same(&other.form)
    }
}

impl Eq for Reply {
    ghost laws = { same_reply-equivalence };
}
