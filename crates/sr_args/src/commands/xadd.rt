ghost use Rattle.std.specs.Prelude.{◌≡◌, ◌%◌, length, List, IfSome, IfNone, IfOk, ◌↔◌, IsTrue};
ghost use Rattle.sr_bytes.specs.PackedWords.{paired};
ghost use Rattle.sr_args.specs.Form.{Reading, Reads};
ghost use Rattle.sr_args.specs.Options.{Written};
ghost use Rattle.sr_args.specs.commands.Xadd as xadd_form;
ghost use Rattle.sr_args.specs.steps.Gives.{Gives};
ghost use Rattle.sr_args.specs.steps.Options.{AreJudged};

use crate::name::{Choice, OptionSet};
use crate::options::{ValueFault, read_options};
use crate::same::{same_fields, same_spec, same_trim_asked};
use crate::table::Row;
use crate::value::copy_word;
use crate::{Call, CallFault, Trim};
use sr_bytes::{Fields, Name, Unread};
use sr_ids::{Spec, parse_spec};
use std::alloc::{AllocError, Global};

/// What the table says of XADD.
pub(crate) const ROW: Row = Row {
    first: b"XADD",
    second: None,
    fewest: 5,
    most: None,
};

/// XADD: an entry for the stream at a key.
///
/// Source: Redis documentation, command XADD.
#[derive(Drop)]
pub struct Xadd {
    pub key: Name,
    /// Whether a missing key is made: not with NOMKSTREAM.
    pub make: bool,
    /// How the stream is trimmed after it.
    pub trim: Option<Trim>,
    pub id: Spec,
    pub fields: Fields,
}

impl Xadd {
    /// A copy with the same parts.
    pub fn copy(&self, alloc: Global) -> Result<Xadd, AllocError>
        ensures { IfOk result (λ copy. copy ≡ self.now) }
    {
        let key = self.key.copy(alloc)?;
        let fields = self.fields.copy(alloc)?;
        Ok(Xadd {
            key,
            make: self.make,
            trim: self.trim,
            id: self.id,
            fields,
        })
    }

    /// Whether the other has the same parts.
    pub fn equals(&self, other: &Xadd) -> bool
        ensures { IsTrue result ↔ (self.now ≡ other.now) }
    {
        self.key == other.key
            && self.make == other.make
            && same_trim_asked(self.trim, other.trim)
            && same_spec(self.id, other.id)
            && same_fields(&self.fields, &other.fields)
    }
}

/// The words of XADD, in their places, and what its options ask for.
#[derive(Drop)]
struct XaddWords<'a> {
    key: &'a [u8],
    judged: Result<Choice, ValueFault>,
    id: &'a [u8],
    /// Each field with its value, at least one.
    fields: Unread<'a>,
}

/// `XADD key [NOMKSTREAM] [MAXLEN|MINID [=|~] bound [LIMIT number]] id field value [field value ..]`
pub(crate) fn read_xadd(alloc: Global, words: Unread<'_>) -> Result<Call, CallFault>
    ensures { Gives xadd_form.form xadd_form.call words.entry result }
{
    let Some(read) = xadd_words(words) else {
        return Err(CallFault::Syntax);
    };
    let choice = read.judged?;
    let Some(id) = parse_spec(read.id) else {
        return Err(CallFault::BadId);
    };
    let key = copy_word(alloc, read.key)?;
    let fields = Fields::of_words(alloc, read.fields)?;
    Ok(Call::Xadd(Xadd {
        key,
        make: choice.add_makes,
        trim: choice.trim,
        id,
        fields,
    }))
}

/// The words of XADD: the key, options in any order, the id, and fields with their values.
fn xadd_words(mut words: Unread<'_>) -> Option<XaddWords<'_>>
    ensures found { IfSome result (λ read. (written : List Written) × AreJudged written read.judged
        × Reads xadd_form.form words.entry (read.key.now, (written, (read.id.now, paired read.fields)))) }
    ensures even { IfSome result (λ read. length read.fields % 2 ≡ 0) }
    ensures none { IfNone result ((reading : Reading xadd_form.form) →
        Reads xadd_form.form words.entry reading → ⊥) }
{
    let key = words.next()?;
    let judged = read_options(OptionSet::Xadd, &mut words)?;
    let id = words.next()?;
    if words.is_empty() || words.len() % 2 != 0 {
        return None;
    }
    Some(XaddWords {
        key,
        judged,
        id,
        fields: words,
    })
}
