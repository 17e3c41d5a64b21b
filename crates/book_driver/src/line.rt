//! Lines, read as what they ask for.
use hex::FromHexError;
use sr_args::{Call, CallFault, Command, Names, read_call};
use sr_bytes::{Name, Words, read_decimal};
use sr_policy::{Policy, PolicyFault};
use std::alloc::{AllocError, Global};
use std::str::{self, Split};

/// How many digits a number has at most: as many as the greatest one of 64 bits.
const MOST_DIGITS: usize = 20;

/// What a line asks for.
///
/// `told` is a moment in milliseconds since 1970. A session is named by the place of its join line, from 0.
#[derive(Drop)]
pub(crate) enum Ask {
    /// A new book, with this policy, takes the place of the one that there was.
    NewBook {
        policy: Policy,
    },
    /// A session opens.
    Join {
        told: u64,
    },
    /// A session does something.
    Session {
        told: u64,
        place: usize,
        action: Action,
    },
    /// Reads whose deadline is reached are answered.
    Expire {
        told: u64,
    },
    /// Whether a deadline is reached.
    Due {
        told: u64,
    },
    /// What a session was given while it waited.
    Collect {
        place: usize,
    },
    /// How a session stands.
    Status {
        place: usize,
    },
    /// The records since the last checkpoint.
    Records,
    /// A checkpoint.
    Checkpoint,
    /// What the book says of the records up to the last checkpoint.
    Base,
}

/// What a session does.
#[derive(Drop)]
pub(crate) enum Action {
    /// It calls.
    Call { call: Call },
    /// It asks for the board of a group.
    Board { key: Name, group: Name },
    /// It asks for a snapshot of a group with these consumers dead.
    Snapshot { key: Name, group: Name, dead: Names },
    /// It concludes the verdict on the snapshot that it got last, if it has not yet.
    Conclude { apply: bool, last: bool },
    /// It closes.
    Leave,
}

/// Why a line asks for nothing.
#[derive(Clone, Copy)]
pub(crate) enum LineFault {
    /// It has none of the forms.
    Form,
    /// It has the form of a call, but its words are not a command.
    Refused(CallFault),
    /// A failed allocation.
    Memory,
}

impl From<AllocError> for LineFault {
    fn from(_error: AllocError) -> LineFault {
        LineFault::Memory
    }
}

/// What a line asks for, without the line end.
pub(crate) fn read_line(alloc: Global, line: &[u8]) -> Result<Ask, LineFault> {
    let Ok(text) = str::from_utf8(line) else {
        return Err(LineFault::Form);
    };
    let mut parts = text.split(' ');
    let ask = read_form(alloc, &mut parts)?;
    match parts.next() {
        None => Ok(ask),
        Some(_) => Err(LineFault::Form),
    }
}

/// What a line asks for, by its first parts. Those that its form does not need are left.
fn read_form(alloc: Global, parts: &mut Split<'_, char>) -> Result<Ask, LineFault> {
    let Some(form) = parts.next() else {
        return Err(LineFault::Form);
    };
    match form {
        "policy" => return read_policy(alloc, parts),
        "records" => return Ok(Ask::Records),
        "checkpoint" => return Ok(Ask::Checkpoint),
        "base" => return Ok(Ask::Base),
        _ => {}
    }
    let number = read_number(parts)?;
    Ok(match form {
        "join" => Ask::Join { told: number },
        "expire" => Ask::Expire { told: number },
        "due" => Ask::Due { told: number },
        "collect" => Ask::Collect {
            place: place_of(number)?,
        },
        "status" => Ask::Status {
            place: place_of(number)?,
        },
        _ => Ask::Session {
            told: number,
            place: place_of(read_number(parts)?)?,
            action: read_action(alloc, form, parts)?,
        },
    })
}

/// What a session does in a line of this form.
fn read_action(
    alloc: Global,
    form: &str,
    parts: &mut Split<'_, char>,
) -> Result<Action, LineFault> {
    match form {
        "call" => call_of(alloc, &read_words(alloc, parts)?),
        "board" => Ok(Action::Board {
            key: read_name(alloc, parts)?,
            group: read_name(alloc, parts)?,
        }),
        "snapshot" => read_snapshot(alloc, parts),
        "conclude" => Ok(Action::Conclude {
            apply: read_flag(parts)?,
            last: read_flag(parts)?,
        }),
        "leave" => Ok(Action::Leave),
        _ => Err(LineFault::Form),
    }
}

/// A new book: its policy is the empty one, or that of a file with these bytes.
fn read_policy(alloc: Global, parts: &mut Split<'_, char>) -> Result<Ask, LineFault> {
    let Some(part) = parts.next() else {
        return Err(LineFault::Form);
    };
    let bytes = read_word(alloc, part)?;
    let Ok(text) = str::from_utf8(bytes.as_slice()) else {
        return Err(LineFault::Form);
    };
    match Policy::read(alloc, text) {
        Ok(policy) => Ok(Ask::NewBook { policy }),
        Err(PolicyFault::Memory) => Err(LineFault::Memory),
        Err(PolicyFault::Toml | PolicyFault::Shape | PolicyFault::Range) => Err(LineFault::Form),
    }
}

/// A snapshot: its key, its group, and the names of the dead.
fn read_snapshot(alloc: Global, parts: &mut Split<'_, char>) -> Result<Action, LineFault> {
    Ok(Action::Snapshot {
        key: read_name(alloc, parts)?,
        group: read_name(alloc, parts)?,
        dead: read_names(alloc, parts)?,
    })
}

/// The names that the rest of a line has, each a part of its own.
fn read_names(alloc: Global, parts: &mut Split<'_, char>) -> Result<Names, LineFault> {
    let mut names = Vec::new(alloc);
    for part in parts {
        names.reserve(1)?;
        names.push_reserved(Name::new(read_word(alloc, part)?));
    }
    Ok(Names::new(names))
}

/// The name that the next part has.
fn read_name(alloc: Global, parts: &mut Split<'_, char>) -> Result<Name, LineFault> {
    let Some(part) = parts.next() else {
        return Err(LineFault::Form);
    };
    Ok(Name::new(read_word(alloc, part)?))
}

/// Yes or no, as 1 or 0.
fn read_flag(parts: &mut Split<'_, char>) -> Result<bool, LineFault> {
    match parts.next() {
        Some("0") => Ok(false),
        Some("1") => Ok(true),
        Some(_) | None => Err(LineFault::Form),
    }
}

/// The call of these words, which are at least one.
fn call_of(alloc: Global, words: &Words) -> Result<Action, LineFault> {
    if words.len() == 0 {
        return Err(LineFault::Form);
    }
    match read_call(alloc, words) {
        Ok(Command::Call(call)) => Ok(Action::Call { call }),
        Ok(Command::Board { .. } | Command::Recover { .. }) => Err(LineFault::Form),
        Err(CallFault::Memory) => Err(LineFault::Memory),
        Err(fault) => Err(LineFault::Refused(fault)),
    }
}

/// The words that the rest of a line has, each a part of its own.
fn read_words(alloc: Global, parts: &mut Split<'_, char>) -> Result<Words, LineFault> {
    let mut words = Words::new(alloc);
    for part in parts {
        let word = read_word(alloc, part)?;
        words.add(word.as_slice())?;
    }
    Ok(words)
}

/// The bytes that a part has as hexadecimal digits, or none for `-`.
fn read_word(alloc: Global, part: &str) -> Result<Vec<u8>, LineFault> {
    match part {
        "" => Err(LineFault::Form),
        "-" => Ok(Vec::new(alloc)),
        digits => match hex::decode(alloc, digits) {
            Ok(bytes) => Ok(bytes),
            Err(FromHexError::OutOfMemory) => Err(LineFault::Memory),
            Err(_) => Err(LineFault::Form),
        },
    }
}

/// The place of the session that this ordinal names, from 1.
fn place_of(ordinal: u64) -> Result<usize, LineFault> {
    match ordinal.checked_sub(1) {
        Some(place) => Ok(place as usize),
        None => Err(LineFault::Form),
    }
}

/// The number that the next part has as decimal digits.
fn read_number(parts: &mut Split<'_, char>) -> Result<u64, LineFault> {
    let Some(digits) = parts.next() else {
        return Err(LineFault::Form);
    };
    read_decimal(digits.as_bytes(), MOST_DIGITS).ok_or(LineFault::Form)
}
