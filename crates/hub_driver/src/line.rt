//! Lines, read as what they ask for.
use hex::FromHexError;
use sr_bytes::read_decimal;
use sr_policy::{Policy, PolicyFault};
use std::alloc::{AllocError, Global};
use std::str::{self, Split};

/// How many digits a number has at most: as many as the greatest one of 64 bits.
const MOST_DIGITS: usize = 20;

/// What a line asks for. A moment is in milliseconds since 1970.
#[derive(Drop)]
pub(crate) enum Ask {
    /// A new hub, whose book has this policy, takes the place of the one that there was.
    NewHub { policy: Policy },
    /// A connection comes.
    Connect { moment: u64 },
    /// Reads whose deadline is reached are answered.
    Tick { moment: u64 },
    /// A checkpoint, if more than this many records are kept.
    Compact { keep: u64 },
    /// Something is done with a connection.
    Of { token: usize, deed: Deed },
    /// The tokens of connections that were given their letter.
    Letters,
    /// How all connections stand.
    Look,
    /// How many records the book has.
    Book,
}

/// What is done with a connection.
#[derive(Drop)]
pub(crate) enum Deed {
    /// It goes on.
    Go { moment: u64 },
    /// A verdict on the snapshot that it wants one on is made and concluded.
    Judge { moment: u64 },
    /// Its verdict is concluded as if memory was lacking for it.
    Lack { moment: u64 },
    /// It is over.
    Close { moment: u64 },
    /// It sent these bytes.
    Take { moment: u64, piece: Vec<u8> },
    /// At most this many bytes are sent to it.
    Sent { count: u64 },
    /// The bytes that are to be sent to it.
    Unsent,
}

/// Why a line asks for nothing.
#[derive(Clone, Copy)]
pub(crate) enum LineFault {
    /// It has none of the forms.
    Form,
    /// A failed allocation.
    Memory,
}

impl From<AllocError> for LineFault {
    fn from(_error: AllocError) -> LineFault {
        LineFault::Memory
    }
}

/// What a line asks for, without the line end.
pub(crate) fn read_line(alloc: Global, line: &[u8]) -> Result<Ask, LineFault> {
    let Ok(text) = str::from_utf8(line) else {
        return Err(LineFault::Form);
    };
    let mut parts = text.split(' ');
    let ask = read_form(alloc, &mut parts)?;
    match parts.next() {
        None => Ok(ask),
        Some(_) => Err(LineFault::Form),
    }
}

/// What a line asks for, by its first parts. Those that its form does not need are left.
fn read_form(alloc: Global, parts: &mut Split<'_, char>) -> Result<Ask, LineFault> {
    let Some(form) = parts.next() else {
        return Err(LineFault::Form);
    };
    match form {
        "policy" => return read_policy(alloc, parts),
        "letters" => return Ok(Ask::Letters),
        "look" => return Ok(Ask::Look),
        "book" => return Ok(Ask::Book),
        _ => {}
    }
    let number = read_number(parts)?;
    Ok(match form {
        "connect" => Ask::Connect { moment: number },
        "tick" => Ask::Tick { moment: number },
        "compact" => Ask::Compact { keep: number },
        _ => Ask::Of {
            token: number as usize,
            deed: read_deed(alloc, form, parts)?,
        },
    })
}

/// What a line of this form does with a connection.
fn read_deed(alloc: Global, form: &str, parts: &mut Split<'_, char>) -> Result<Deed, LineFault> {
    if form == "unsent" {
        return Ok(Deed::Unsent);
    }
    let number = read_number(parts)?;
    match form {
        "go" => Ok(Deed::Go { moment: number }),
        "judge" => Ok(Deed::Judge { moment: number }),
        "lack" => Ok(Deed::Lack { moment: number }),
        "close" => Ok(Deed::Close { moment: number }),
        "sent" => Ok(Deed::Sent { count: number }),
        "take" => Ok(Deed::Take {
            moment: number,
            piece: read_bytes(alloc, parts)?,
        }),
        _ => Err(LineFault::Form),
    }
}

/// A new hub: its policy is the empty one, or that of a file with these bytes.
fn read_policy(alloc: Global, parts: &mut Split<'_, char>) -> Result<Ask, LineFault> {
    let bytes = read_bytes(alloc, parts)?;
    let Ok(text) = str::from_utf8(bytes.as_slice()) else {
        return Err(LineFault::Form);
    };
    match Policy::read(alloc, text) {
        Ok(policy) => Ok(Ask::NewHub { policy }),
        Err(PolicyFault::Memory) => Err(LineFault::Memory),
        Err(PolicyFault::Toml | PolicyFault::Shape | PolicyFault::Range) => Err(LineFault::Form),
    }
}

/// The bytes that the next part has as hexadecimal digits, or none for `-`.
fn read_bytes(alloc: Global, parts: &mut Split<'_, char>) -> Result<Vec<u8>, LineFault> {
    match parts.next() {
        None | Some("") => Err(LineFault::Form),
        Some("-") => Ok(Vec::new(alloc)),
        Some(digits) => match hex::decode(alloc, digits) {
            Ok(bytes) => Ok(bytes),
            Err(FromHexError::OutOfMemory) => Err(LineFault::Memory),
            Err(_) => Err(LineFault::Form),
        },
    }
}

/// The number that the next part has as decimal digits.
fn read_number(parts: &mut Split<'_, char>) -> Result<u64, LineFault> {
    let Some(digits) = parts.next() else {
        return Err(LineFault::Form);
    };
    read_decimal(digits.as_bytes(), MOST_DIGITS).ok_or(LineFault::Form)
}
