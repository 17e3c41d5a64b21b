ghost use Rattle.std.specs.Prelude.{◌≡◌, ◌≢◌, IfSome, IfNone, true, false};
ghost use Rattle.sr_args.specs.declared.name.OptionName as options;
ghost use Rattle.sr_args.specs.declared.name.Sign as signs;
ghost use Rattle.sr_args.specs.Name as named;
ghost use Rattle.sr_args.specs.Name.{IsSameName, is_of, option_text, sign_text};

use crate::{TimeAsked, Trim};

/// The options of commands, by name. Names ignore ASCII case.
#[derive(Clone, Copy)]
pub(crate) enum OptionName {
    /// How many entries are wanted at most.
    Count,
    /// An option without a word.
    Flag(Flag),
    /// An option with one number.
    Numbered(Numbered),
    /// How a stream is trimmed.
    Trim(Measure),
    /// How many entries a trim removes at most.
    Limit,
    /// For which consumer of which group streams are read.
    Group,
    /// Entries that are not pending are claimed too: not supported.
    Force,
    /// The last id delivered to the group: not supported.
    LastId,
    /// Keys follow, and then an id for each. It is an option of no command, and its name has a place of its own.
    Streams,
    /// How many rounds a recovery makes at most.
    Tries,
    /// The dead consumers follow. Its name has a place of its own.
    Dead,
}

/// The options without a word.
#[derive(Clone, Copy)]
pub(crate) enum Flag {
    /// A missing key is not made.
    NoMkStream,
    /// A missing key is made.
    MkStream,
    /// Ids are replied, and not entries.
    JustId,
    /// New entries are delivered as acknowledged.
    NoAck,
}

/// How many options have no word.
pub(crate) const FLAGS: usize = 4;

/// The options with one number.
#[derive(Clone, Copy)]
pub(crate) enum Numbered {
    /// For how long a claimed entry counts as idle.
    Idle,
    /// Since when a claimed entry counts as idle.
    Time,
    /// How often a claimed entry counts as delivered.
    RetryCount,
    /// For how long a read waits for an entry.
    Block,
}

/// How many options have one number.
pub(crate) const NUMBERED: usize = 4;

/// By what a trim measures.
#[derive(Clone, Copy)]
pub(crate) enum Measure {
    /// By the number of entries that it leaves.
    MaxLen,
    /// By the id below which entries go.
    MinId,
}

/// The sign before the bound of a trim.
#[derive(Clone, Copy)]
pub(crate) enum Sign {
    /// `=`
    Exact,
    /// `~`
    Nearly,
}

/// The options in the order in which a word is looked up.
const OPTIONS: [OptionName; 18] = [
    OptionName::Count,
    OptionName::Flag(Flag::NoMkStream),
    OptionName::Trim(Measure::MaxLen),
    OptionName::Trim(Measure::MinId),
    OptionName::Limit,
    OptionName::Flag(Flag::MkStream),
    OptionName::Flag(Flag::JustId),
    OptionName::Numbered(Numbered::Idle),
    OptionName::Numbered(Numbered::Time),
    OptionName::Numbered(Numbered::RetryCount),
    OptionName::Group,
    OptionName::Flag(Flag::NoAck),
    OptionName::Numbered(Numbered::Block),
    OptionName::Force,
    OptionName::LastId,
    OptionName::Streams,
    OptionName::Tries,
    OptionName::Dead,
];

/// The name of an option.
fn name_of(option: OptionName) -> &'static [u8]
    ensures { result.now ≡ option_text option }
{
    match option {
        OptionName::Flag(Flag::NoMkStream) => b"NOMKSTREAM",
        OptionName::Flag(Flag::MkStream) => b"MKSTREAM",
        OptionName::Flag(Flag::JustId) => b"JUSTID",
        OptionName::Flag(Flag::NoAck) => b"NOACK",
        OptionName::Numbered(Numbered::Idle) => b"IDLE",
        OptionName::Numbered(Numbered::Time) => b"TIME",
        OptionName::Numbered(Numbered::RetryCount) => b"RETRYCOUNT",
        OptionName::Numbered(Numbered::Block) => b"BLOCK",
        OptionName::Count => b"COUNT",
        OptionName::Trim(Measure::MaxLen) => b"MAXLEN",
        OptionName::Trim(Measure::MinId) => b"MINID",
        OptionName::Limit => b"LIMIT",
        OptionName::Group => b"GROUP",
        OptionName::Force => b"FORCE",
        OptionName::LastId => b"LASTID",
        OptionName::Streams => b"STREAMS",
        OptionName::Tries => b"TRIES",
        OptionName::Dead => b"DEAD",
    }
}

/// The option that a word names.
pub(crate) fn option_named(word: &[u8]) -> Option<OptionName>
    ensures found { IfSome result (λ option. IsSameName word.now (option_text option)) }
    ensures none { IfNone result ((option : options.OptionName) → IsSameName word.now (option_text option) → ⊥) }
{
    for option in &OPTIONS {
        if is_named(word, *option) {
            return Some(*option);
        }
    }
    None
}

/// Whether the word names the option.
pub(crate) fn is_named(word: &[u8], option: OptionName) -> bool
    ensures yes { result ≡ true → IsSameName word.now (option_text option) }
    ensures no { result ≡ false → IsSameName word.now (option_text option) → ⊥ }
{
    word.eq_ignore_ascii_case(name_of(option))
}

/// The sign that a word is.
pub(crate) fn sign_named(word: &[u8]) -> Option<Sign>
    ensures found { IfSome result (λ sign. word.now ≡ sign_text sign) }
    ensures none { IfNone result ((sign : signs.Sign) → word.now ≢ sign_text sign) }
{
    match word {
        b"=" => Some(Sign::Exact),
        b"~" => Some(Sign::Nearly),
        _ => None,
    }
}

/// The options that stand in one place of a command's form, in any order and each once at most.
#[derive(Clone, Copy)]
pub(crate) enum OptionSet {
    /// Those of XRANGE and XREVRANGE.
    Range,
    /// Those of XADD.
    Xadd,
    /// That of XGROUP CREATE.
    XgroupCreate,
    /// Those of XAUTOCLAIM.
    Xautoclaim,
    /// Those of XCLAIM.
    Xclaim,
    /// Those of XREAD.
    Xread,
    /// Those of XREADGROUP.
    Xreadgroup,
}

/// Whether the name stands in the set.
pub(crate) fn has_option(set: OptionSet, name: OptionName) -> bool
    ensures { result ≡ is_of set name }
{
    match set {
        OptionSet::Range => match name {
            OptionName::Count => true,
            _ => false,
        },
        OptionSet::Xadd => match name {
            OptionName::Flag(Flag::NoMkStream)
            | OptionName::Trim(Measure::MaxLen | Measure::MinId)
            | OptionName::Limit => true,
            _ => false,
        },
        OptionSet::XgroupCreate => match name {
            OptionName::Flag(Flag::MkStream) => true,
            _ => false,
        },
        OptionSet::Xautoclaim => match name {
            OptionName::Count | OptionName::Flag(Flag::JustId) => true,
            _ => false,
        },
        OptionSet::Xclaim => match name {
            OptionName::Numbered(Numbered::Idle | Numbered::Time | Numbered::RetryCount)
            | OptionName::Flag(Flag::JustId) => true,
            _ => false,
        },
        OptionSet::Xread => match name {
            OptionName::Count | OptionName::Numbered(Numbered::Block) => true,
            _ => false,
        },
        OptionSet::Xreadgroup => match name {
            OptionName::Count
            | OptionName::Numbered(Numbered::Block)
            | OptionName::Group
            | OptionName::Flag(Flag::NoAck) => true,
            _ => false,
        },
    }
}

/// What options ask for.
#[derive(Clone, Copy)]
pub(crate) struct Choice {
    /// Whether XADD makes a missing key: not with NOMKSTREAM.
    pub(crate) add_makes: bool,
    /// Whether XGROUP CREATE makes a missing key: only with MKSTREAM.
    pub(crate) create_makes: bool,
    pub(crate) trim: Option<Trim>,
    pub(crate) count: Option<i64>,
    /// Whether ids are replied, and not entries.
    pub(crate) just_ids: bool,
    /// When a claimed entry counts as delivered.
    pub(crate) time: TimeAsked,
    /// How often a claimed entry counts as delivered.
    pub(crate) delivered: Option<u64>,
    /// Whether XREADGROUP delivers new entries as acknowledged: only with NOACK.
    pub(crate) no_ack: bool,
    /// How many milliseconds a read waits for an entry, if it waits: 0 is without end.
    pub(crate) block: Option<u64>,
}

/// What is asked for if no option is written.
pub(crate) fn nothing() -> Choice
    ensures { result ≡ named.nothing }
{
    Choice {
        add_makes: true,
        create_makes: false,
        trim: None,
        count: None,
        just_ids: false,
        time: TimeAsked::Now,
        delivered: None,
        no_ack: false,
        block: None,
    }
}

/// What is asked for after an option without a word.
pub(crate) fn with_flag(choice: Choice, flag: Flag) -> Choice
    ensures { result ≡ named.with_flag flag choice }
{
    match flag {
        Flag::NoMkStream => Choice {
            add_makes: false,
            ..choice
        },
        Flag::MkStream => Choice {
            create_makes: true,
            ..choice
        },
        Flag::JustId => Choice {
            just_ids: true,
            ..choice
        },
        Flag::NoAck => Choice {
            no_ack: true,
            ..choice
        },
    }
}

/// What is asked for after an option with this number.
pub(crate) fn with_number(choice: Choice, option: Numbered, number: u64) -> Choice
    ensures { result ≡ named.with_number option number choice }
{
    match option {
        Numbered::Idle => Choice {
            time: TimeAsked::Idle(number),
            ..choice
        },
        Numbered::Time => Choice {
            time: TimeAsked::At(number),
            ..choice
        },
        Numbered::RetryCount => Choice {
            delivered: Some(number),
            ..choice
        },
        Numbered::Block => Choice {
            block: Some(number),
            ..choice
        },
    }
}
