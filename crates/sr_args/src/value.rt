ghost use Rattle.std.specs.Prelude.{◌≡◌, ◌↔◌, ◌≤◌, length, map, take, IsTrue, IfOk, IfSome, IfNone};
ghost use Rattle.std.specs.Option.{option_copied};
ghost use Rattle.sr_args.specs.FormWord.{strict_id, spelled, HasIds, Range};
ghost use Rattle.sr_args.specs.Form.{AreIds, IsNamedFirst, named_places};
ghost use Rattle.sr_args.specs.Position.{SpellsPosition, SpellsRead};
ghost use Rattle.sr_args.specs.declared.call.Position as positions;
ghost use Rattle.sr_args.specs.declared.reads.ReadAsked as reads;
ghost use Rattle.sr_args.specs.steps.Numbers.{IsAnyWord, IsPastNumber};
ghost use Rattle.sr_args.specs.steps.Options.{Begins, BeginsNone};

use crate::name::is_named;
use crate::{OptionName, Position, ReadAsked};
use sr_bytes::{Name, Unread};
use sr_ids::{Ids, parse_strict};
use std::alloc::{AllocError, Global};

/// A copy of a word.
pub(crate) fn copy_word(alloc: Global, word: &[u8]) -> Result<Name, AllocError>
    ensures { IfOk result (λ copy. copy ≡ word.now) }
{
    Ok(Name::new(Vec::from_slice(alloc, word)?))
}

/// `[option number]`: the word of the number, if the next word names the option.
pub(crate) fn number_word<'a>(name: OptionName, words: &mut Unread<'a>) -> Option<Option<&'a [u8]>>
    ensures found { IfSome result (λ read. (range : Range) →
        Begins (named_places name range) IsAnyWord (IsNamedFirst name) words.old (option_copied read) words.new) }
    ensures none { IfNone result ((range : Range) →
        BeginsNone (named_places name range) IsAnyWord (IsNamedFirst name) words.old) }
    ensures past { IfSome result (λ read. IsPastNumber name (option_copied read) words.new) }
    ensures shorter { IfSome result (λ _. length words.new ≤ length words.old) }
{
    let Some(word) = words.peek() else {
        return Some(None);
    };
    if !is_named(word, name) {
        return Some(None);
    }
    words.next()?;
    words.next().map(Some)
}

/// From where a stream is read, by a word of XGROUP or of XREAD.
pub(crate) fn read_position(word: &[u8]) -> Option<Position>
    ensures found { IfSome result (SpellsPosition word.now) }
    ensures none { IfNone result ((from : positions.Position) → SpellsPosition word.now from → ⊥) }
{
    if word == b"$".as_slice() {
        return Some(Position::Last);
    }
    Some(Position::At(parse_strict(word)?))
}

/// Which entries of a stream a consumer of a group reads, by a word of XREADGROUP.
pub(crate) fn read_asked(word: &[u8]) -> Option<ReadAsked>
    ensures found { IfSome result (SpellsRead word.now) }
    ensures none { IfNone result ((asked : reads.ReadAsked) → SpellsRead word.now asked → ⊥) }
{
    if word == b">".as_slice() {
        return Some(ReadAsked::New);
    }
    Some(ReadAsked::PendingAfter(parse_strict(word)?))
}

/// Whether each word spells an id.
pub(crate) fn are_ids(words: Unread<'_>) -> bool
    ensures { IsTrue result ↔ HasIds (map (spelled strict_id) words.entry) }
{
    let many = words.len();
    are_first_ids(words, many)
}

/// Whether each of the first words spells an id.
pub(crate) fn are_first_ids(mut words: Unread<'_>, many: usize) -> bool
    ensures { IsTrue result ↔ HasIds (map (spelled strict_id) (take many words.entry)) }
{
    let mut left = many;
    while left > 0 {
        let Some(word) = words.next() else {
            return true;
        };
        if parse_strict(word).is_none() {
            return false;
        }
        left -= 1;
    }
    true
}

/// The ids that words spell, each of which spells one.
pub(crate) fn copy_ids(alloc: Global, words: Unread<'_>) -> Result<Ids, AllocError>
    requires { HasIds (map (spelled strict_id) words) }
    ensures { IfOk result (AreIds strict_id words.entry) }
{
    let many = words.len();
    copy_first_ids(alloc, words, many)
}

/// The ids that the first words spell, each of which spells one.
pub(crate) fn copy_first_ids(
    alloc: Global,
    mut words: Unread<'_>,
    many: usize,
) -> Result<Ids, AllocError>
    requires { HasIds (map (spelled strict_id) (take many words)) }
    ensures { IfOk result (AreIds strict_id (take many words.entry)) }
{
    let mut ids = Vec::with_capacity(alloc, many)?;
    let mut left = many;
    while left > 0 {
        let Some(word) = words.next() else {
            break;
        };
        let id = parse_strict(word).unwrap();
        ids.push(id)?;
        left -= 1;
    }
    Ok(Ids::new(ids))
}
