ghost use Rattle.std.specs.Prelude.{IfSome, IfNone, ◌≡◌, ◌↔◌, IsTrue, IfOk};
ghost use Rattle.sr_args.specs.declared.name.Measure as measures;
ghost use Rattle.sr_args.specs.Name.{IsSameName, option_text};
ghost use Rattle.sr_args.specs.Form.{Reading, Reads};
ghost use Rattle.sr_args.specs.commands.Xtrim as xtrim_form;
ghost use Rattle.sr_args.specs.steps.Gives.{Gives};
ghost use Rattle.sr_args.specs.steps.Options.{trim_reading};

use crate::name::option_named;
use crate::options::{TrimWords, read_trim, trim_words};
use crate::same::same_trim;
use crate::table::Row;
use crate::value::copy_word;
use crate::{Call, CallFault, Measure, OptionName, Trim};
use sr_bytes::{Name, Unread};
use std::alloc::{AllocError, Global};

/// What the table says of XTRIM.
pub(crate) const ROW: Row = Row {
    first: b"XTRIM",
    second: None,
    fewest: 4,
    most: Some(7),
};

/// XTRIM: the oldest entries go.
///
/// Source: Redis documentation, command XTRIM.
#[derive(Drop)]
pub struct Xtrim {
    pub key: Name,
    pub trim: Trim,
}

impl Xtrim {
    /// A copy with the same parts.
    pub(crate) fn copy(&self, alloc: Global) -> Result<Xtrim, AllocError>
        ensures { IfOk result (λ copy. copy ≡ self.now) }
    {
        let key = self.key.copy(alloc)?;
        Ok(Xtrim {
            key,
            trim: self.trim,
        })
    }

    /// Whether the other has the same parts.
    pub(crate) fn equals(&self, other: &Xtrim) -> bool
        ensures { IsTrue result ↔ (self.now ≡ other.now) }
    {
        self.key == other.key && same_trim(self.trim, other.trim)
    }
}

/// The words of XTRIM, in their places.
#[derive(Clone, Copy)]
struct XtrimWords<'a> {
    key: &'a [u8],
    trim: TrimWords<'a>,
}

/// `XTRIM key MAXLEN|MINID [=|~] bound [LIMIT number]`
pub(crate) fn read_xtrim(alloc: Global, words: Unread<'_>) -> Result<Call, CallFault>
    ensures { Gives xtrim_form.form xtrim_form.call words.entry result }
{
    let Some(read) = xtrim_words(words) else {
        return Err(CallFault::Syntax);
    };
    let trim = read_trim(read.trim)?;
    let key = copy_word(alloc, read.key)?;
    Ok(Call::Xtrim(Xtrim { key, trim }))
}

/// The words of XTRIM: the key, and a trim.
fn xtrim_words(mut words: Unread<'_>) -> Option<XtrimWords<'_>>
    ensures found { IfSome result (λ read. Reads xtrim_form.form words.entry (read.key.now, trim_reading read.trim)) }
    ensures none { IfNone result ((reading : Reading xtrim_form.form) →
        Reads xtrim_form.form words.entry reading → ⊥) }
{
    let key = words.next()?;
    let by = measure_named(words.next()?)?;
    let trim = trim_words(by, &mut words)?;
    if !words.is_empty() {
        return None;
    }
    Some(XtrimWords { key, trim })
}

/// The measure of the trim that a word begins.
fn measure_named(word: &[u8]) -> Option<Measure>
    ensures found { IfSome result (λ measure. IsSameName word.now (option_text (OptionName.Trim measure))) }
    ensures none { IfNone result ((measure : measures.Measure) →
        IsSameName word.now (option_text (OptionName.Trim measure)) → ⊥) }
{
    match option_named(word)? {
        OptionName::Trim(by) => Some(by),
        _ => None,
    }
}
