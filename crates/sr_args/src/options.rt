ghost use Rattle.std.specs.Prelude.{◌≡◌, ◌+◌, ◌<◌, ◌≤◌, ◌++◌, ℕ, List, [], ◌∷◌};
ghost use Rattle.std.specs.Prelude.{length, Option, IfSome, IfNone, Result, Err, true, false};
ghost use Rattle.std.specs.Option.{option_copied, option_or};
ghost use Rattle.sr_args.specs.declared.name.OptionName as names;
ghost use Rattle.sr_args.specs.Name.{IsSameName, is_of, option_text};
ghost use Rattle.sr_args.specs.FormWord.{Word};
ghost use Rattle.sr_args.specs.Options as written;
ghost use Rattle.sr_args.specs.Options.{Written, operand_places, IsUnnamed, IsLimit, group_in_one};
ghost use Rattle.sr_args.specs.steps.Options.{BeginsNoOptions, EndsOptions, AreJudged, IsJudged, GivesTrim};
ghost use Rattle.sr_args.specs.steps.Options.{Begins, BeginsNone, IsAny, IsLimitOf, IsOptionEnd, IsOptionNamed};
ghost use Rattle.sr_args.specs.steps.Options.{IsSigned};
ghost use Rattle.sr_args.specs.steps.Options.{GivesBound, IsTrimBy, IsTrimEnd, IsUnlimitedAfter, fault_of};
ghost use Rattle.sr_args.specs.steps.Options.{index_of};
ghost use Rattle.sr_args.specs.steps.Options.{signed_places, trim_operands, trim_reading, written_of};
ghost use Rattle.sr_args.specs.steps.Options.{named_by, IsGiven};

use crate::name::{
    Choice, FLAGS, Flag, NUMBERED, Numbered, OptionSet, has_option, nothing, option_named,
    sign_named, with_flag, with_number,
};
use crate::number::{read_count, read_nat};
use crate::value::number_word;
use crate::{CallFault, CountRange, Measure, OptionName, Sign, Trim, TrimBy};
use sr_bytes::Unread;
use sr_ids::parse_strict;

/// What an option is. MAXLEN and MINID are both a trim.
#[derive(Clone, Copy)]
pub(crate) enum OptionKind {
    Flag(Flag),
    Numbered(Numbered),
    Count,
    Group,
    Trim,
}

/// How many kinds of options there are.
const KINDS: usize = 3 + FLAGS + NUMBERED;

/// The words of a trim, in the places of its form.
#[derive(Clone, Copy)]
pub(crate) struct TrimWords<'a> {
    by: Measure,
    sign: Option<Sign>,
    bound: &'a [u8],
    limit: Option<&'a [u8]>,
}

/// The words of a group and a consumer of it.
#[derive(Clone, Copy)]
pub(crate) struct GroupWords<'a> {
    pub(crate) group: &'a [u8],
    pub(crate) consumer: &'a [u8],
}

/// The words of an option, in the places of its form.
#[derive(Clone, Copy)]
pub(crate) enum OptionWords<'a> {
    Flag(Flag),
    Numbered(Numbered, &'a [u8]),
    Count(CountRange, &'a [u8]),
    Group(GroupWords<'a>),
    Trim(TrimWords<'a>),
}

/// What is wrong with the words of options that fit their form.
#[derive(Clone, Copy)]
pub(crate) enum ValueFault {
    /// A word in the place of a number is none, or one out of its range.
    Number,
    /// A word in the place of an id is none.
    BadId,
}

/// What the words of options say.
#[derive(Clone, Copy)]
pub(crate) struct Given<'a> {
    /// What they ask for, or the first fault of their words.
    pub(crate) judged: Result<Choice, ValueFault>,
    /// The group and the consumer that they name, if they do.
    pub(crate) group: Option<GroupWords<'a>>,
}

impl From<ValueFault> for CallFault {
    ghost from_gives = { λ value fault. fault ≡ fault_of value };

    fn from(fault: ValueFault) -> CallFault {
        match fault {
            ValueFault::Number => CallFault::Number,
            ValueFault::BadId => CallFault::BadId,
        }
    }
}

/// Reads the options of a set up to the first word that names none of them, and what they ask for.
///
/// `None` if these words fit no options. What they ask for is judged while they are read, and the fault is kept: a word
/// that is no number comes before one that is no id, and both come after every fault of the form.
pub(crate) fn read_options(
    set: OptionSet,
    words: &mut Unread<'_>,
) -> Option<Result<Choice, ValueFault>>
    ensures found { IfSome result (λ judged. (written : List Written) ×
        EndsOptions set words.old written words.new × AreJudged written judged) }
    ensures none { IfNone result (BeginsNoOptions set words.old) }
{
    Some(read_given(set, words)?.judged)
}

/// Reads the options of a set as `read_options` does, and keeps the group and the consumer that they name.
pub(crate) fn read_given<'a>(set: OptionSet, words: &mut Unread<'a>) -> Option<Given<'a>>
    ensures found { IfSome result (λ given. (written : List Written) ×
        EndsOptions set words.old written words.new × IsGiven written given) }
    ensures none { IfNone result (BeginsNoOptions set words.old) }
{
    let mut seen = [false; KINDS];
    let mut judged = Ok(nothing());
    let mut group = None;
    while let Some(name) = next_name(set, words) {
        let option = operand_words(set, name, words)?;
        let kind = index_of_kind(kind_of(option));
        if seen[kind] {
            return None;
        }
        seen[kind] = true;
        judged = judge_next(judged, option);
        group = first_group(group, option);
    }
    Some(Given { judged, group })
}

/// The group and the consumer that options name, with one option more.
fn first_group<'a>(group: Option<GroupWords<'a>>, option: OptionWords<'a>) -> Option<GroupWords<'a>>
    ensures { named_by result ≡ option_or (named_by group.entry) (group_in_one (written_of option.entry)) }
{
    if let Some(words) = group {
        return Some(words);
    }
    match option {
        OptionWords::Group(words) => Some(words),
        OptionWords::Flag(_)
        | OptionWords::Numbered(_, _)
        | OptionWords::Count(_, _)
        | OptionWords::Trim(_) => None,
    }
}

/// The name of an option of the set, if it is the next word, which is then read.
fn next_name(set: OptionSet, words: &mut Unread<'_>) -> Option<OptionName>
    ensures of_set { IfSome result (λ name. is_of set name ≡ true) }
    ensures found { IfSome result (λ name. (word : Word) ×
        (words.old ≡ word ∷ words.new) × IsSameName word (option_text name)) }
    ensures shorter { IfSome result (λ _. length words.new + 1 ≡ length words.old) }
    ensures none { IfNone result ((word : Word) (rest : List Word) →
        words.old ≡ word ∷ rest → IsUnnamed set word) }
    ensures same { IfNone result (words.new ≡ words.old) }
{
    let name = option_named(words.peek()?)?;
    if !has_option(set, name) {
        return None;
    }
    words.next()?;
    Some(name)
}

/// Which numbers COUNT takes in the set.
fn count_range(set: OptionSet) -> CountRange
    ensures { result ≡ written.count_range set }
{
    match set {
        OptionSet::Range
        | OptionSet::Xadd
        | OptionSet::XgroupCreate
        | OptionSet::Xclaim
        | OptionSet::Xread
        | OptionSet::Xreadgroup => CountRange::Any,
        OptionSet::Xautoclaim => CountRange::FromOne,
    }
}

/// The words that follow the name of an option of the set.
fn operand_words<'a>(
    set: OptionSet,
    name: OptionName,
    words: &mut Unread<'a>,
) -> Option<OptionWords<'a>>
    ensures found { IfSome result (λ read.
        Begins operand_places (IsOptionNamed set name) IsOptionEnd words.old (written_of read) words.new) }
    ensures none { IfNone result (BeginsNone operand_places (IsOptionNamed set name) IsOptionEnd words.old) }
    ensures shorter { IfSome result (λ _. length words.new ≤ length words.old) }
{
    match name {
        OptionName::Flag(flag) => Some(OptionWords::Flag(flag)),
        OptionName::Numbered(which) => Some(OptionWords::Numbered(which, words.next()?)),
        OptionName::Count => Some(OptionWords::Count(count_range(set), words.next()?)),
        OptionName::Group => Some(OptionWords::Group(group_words(words)?)),
        OptionName::Trim(by) => Some(OptionWords::Trim(trim_words(by, words)?)),
        OptionName::Limit
        | OptionName::Force
        | OptionName::LastId
        | OptionName::Streams
        | OptionName::Tries
        | OptionName::Dead => None,
    }
}

/// `group consumer`
fn group_words<'a>(words: &mut Unread<'a>) -> Option<GroupWords<'a>>
    ensures found { IfSome result (λ read. words.old ≡ read.group.now ∷ read.consumer.now ∷ words.new) }
    ensures none { IfNone result ((group consumer : Word) (rest : List Word) →
        words.old ≡ group ∷ consumer ∷ rest → ⊥) }
{
    let group = words.next()?;
    let consumer = words.next()?;
    Some(GroupWords { group, consumer })
}

/// The words of a trim that follow the name of its measure: `[=|~] bound [LIMIT number]`
pub(crate) fn trim_words<'a>(by: Measure, words: &mut Unread<'a>) -> Option<TrimWords<'a>>
    ensures found { IfSome result (λ read.
        Begins trim_operands (IsTrimBy by) IsTrimEnd words.old (trim_reading read) words.new) }
    ensures none { IfNone result (BeginsNone trim_operands (IsTrimBy by) IsTrimEnd words.old) }
    ensures shorter { IfSome result (λ _. length words.new ≤ length words.old) }
{
    let (sign, bound) = signed_word(by, words)?;
    let limit = limit_word(sign, words)?;
    Some(TrimWords {
        by,
        sign,
        bound,
        limit,
    })
}

/// `[=|~] bound`
fn signed_word<'a>(by: Measure, words: &mut Unread<'a>) -> Option<(Option<Sign>, &'a [u8])>
    ensures found { IfSome result (λ read.
        Begins (signed_places by) IsSigned IsAny words.old (read.0, read.1.now) words.new) }
    ensures none { IfNone result (BeginsNone (signed_places by) IsSigned IsAny words.old) }
    ensures shorter { IfSome result (λ _. length words.new ≤ length words.old) }
{
    let first = words.next()?;
    let Some(sign) = sign_named(first) else {
        return Some((None, first));
    };
    let bound = words.next()?;
    Some((Some(sign), bound))
}

/// `[LIMIT number]`, which goes with `~` alone
fn limit_word<'a>(sign: Option<Sign>, words: &mut Unread<'a>) -> Option<Option<&'a [u8]>>
    ensures found { IfSome result (λ read.
        Begins written.limit_places (IsLimitOf sign) IsUnlimitedAfter words.old (option_copied read) words.new) }
    ensures none { IfNone result (BeginsNone written.limit_places (IsLimitOf sign) IsUnlimitedAfter words.old) }
    ensures shorter { IfSome result (λ _. length words.new ≤ length words.old) }
{
    let Some(word) = number_word(OptionName::Limit, words)? else {
        return Some(None);
    };
    let Some(Sign::Nearly) = sign else {
        return None;
    };
    Some(Some(word))
}

/// Whether the word names an option of the set.
pub(crate) fn names_option(set: OptionSet, word: &[u8]) -> bool
    ensures yes { result ≡ true → (name : names.OptionName) × (is_of set name ≡ true) ×
        IsSameName word.now (option_text name) }
    ensures no { result ≡ false → IsUnnamed set word.now }
{
    match option_named(word) {
        None => false,
        Some(name) => has_option(set, name),
    }
}

/// What an option is.
fn kind_of(option: OptionWords<'_>) -> OptionKind
    ensures { result ≡ written.kind (written_of option.entry) }
{
    match option {
        OptionWords::Flag(flag) => OptionKind::Flag(flag),
        OptionWords::Numbered(which, _) => OptionKind::Numbered(which),
        OptionWords::Count(_, _) => OptionKind::Count,
        OptionWords::Group(_) => OptionKind::Group,
        OptionWords::Trim(_) => OptionKind::Trim,
    }
}

/// The place of a kind among the kinds.
fn index_of_kind(kind: OptionKind) -> usize
    ensures value { result ≡ index_of kind }
    ensures within { result < KINDS }
{
    match kind {
        OptionKind::Count => 0,
        OptionKind::Group => 1,
        OptionKind::Trim => 2,
        OptionKind::Flag(flag) => 3 + flag as usize,
        OptionKind::Numbered(which) => 3 + FLAGS + which as usize,
    }
}

/// What options ask for with one more, or the first fault: a number that is none comes before an id that is none.
fn judge_next(
    judged: Result<Choice, ValueFault>,
    option: OptionWords<'_>,
) -> Result<Choice, ValueFault>
    ensures { (options : List Written) →
        AreJudged options judged → AreJudged (options ++ written_of option.entry ∷ []) result }
{
    match judged {
        Ok(choice) => judge(choice, option),
        Err(fault) => Err(worse(fault, option)),
    }
}

/// The first fault of options with one more, if those before it have this one.
fn worse(fault: ValueFault, option: OptionWords<'_>) -> ValueFault
    ensures { (options : List Written) →
        AreJudged options (Err fault) → AreJudged (options ++ written_of option.entry ∷ []) (Err result) }
{
    match fault {
        ValueFault::Number => ValueFault::Number,
        ValueFault::BadId => match judge(nothing(), option) {
            Ok(_) => ValueFault::BadId,
            Err(fault) => fault,
        },
    }
}

/// What is asked for after an option, or the fault of its words.
fn judge(choice: Choice, option: OptionWords<'_>) -> Result<Choice, ValueFault>
    ensures { IsJudged (written_of option.entry) choice result }
{
    match option {
        OptionWords::Flag(flag) => Ok(with_flag(choice, flag)),
        OptionWords::Numbered(which, word) => match read_nat(word) {
            None => Err(ValueFault::Number),
            Some(number) => Ok(with_number(choice, which, number)),
        },
        OptionWords::Count(range, most) => match read_count(range, most) {
            None => Err(ValueFault::Number),
            Some(count) => Ok(Choice {
                count: Some(count),
                ..choice
            }),
        },
        OptionWords::Group(_) => Ok(choice),
        OptionWords::Trim(words) => match read_trim(words) {
            Err(fault) => Err(fault),
            Ok(trim) => Ok(Choice {
                trim: Some(trim),
                ..choice
            }),
        },
    }
}

/// The trim that words write. A number in it that is none comes before an id that is none.
pub(crate) fn read_trim(words: TrimWords<'_>) -> Result<Trim, ValueFault>
    ensures { GivesTrim (trim_reading words.entry) result }
{
    let limit = read_limit(words.limit).ok_or(ValueFault::Number)?;
    let by = read_bound(words.by, words.bound)?;
    Ok(Trim { by, limit })
}

/// The limit of a trim: 0, which is no limit, if it is left out.
fn read_limit(word: Option<&[u8]>) -> Option<u64>
    ensures found { IfSome result (IsLimit (option_copied word.entry)) }
    ensures none { IfNone result ((n : ℕ) → IsLimit (option_copied word.entry) n → ⊥) }
{
    match word {
        None => Some(0),
        Some(word) => read_nat(word),
    }
}

/// The bound of a trim by this measure.
fn read_bound(by: Measure, word: &[u8]) -> Result<TrimBy, ValueFault>
    ensures { GivesBound by word.now result }
{
    match by {
        Measure::MaxLen => {
            let length = read_nat(word).ok_or(ValueFault::Number)?;
            Ok(TrimBy::MaxLen(length))
        }
        Measure::MinId => {
            let id = parse_strict(word).ok_or(ValueFault::BadId)?;
            Ok(TrimBy::MinId(id))
        }
    }
}
