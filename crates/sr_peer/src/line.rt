ghost use Rattle.std.specs.Prelude.{◌≡◌, ◌↔◌, IfNone, IfSome, IsTrue};
ghost use Rattle.sr_peer.specs.Reply.{IsOneLine, IsText};
ghost use Rattle.sr_peer.specs.steps.Lines.{Says, SaysNothing, BeginsLine, BeginsNumber};

use crate::Part;
use crate::number::{integer_of, number_of};

/// What the first line of a part says.
#[derive(Clone, Copy)]
pub(crate) enum Header<'a> {
    /// All of the part.
    Part(Part<'a>),
    /// How many bytes a bulk string has, which come after the line.
    Length(usize),
}

/// The most bytes of a simple string or an error.
const MOST_TEXT: usize = 65_536;

/// What a line after this mark says. `None` if it is not the line of a part.
pub(crate) fn header_of(mark: u8, line: &[u8]) -> Option<Header<'_>>
    ensures found { IfSome result (Says mark line.now) }
    ensures none { IfNone result (SaysNothing mark line.now) }
{
    match mark {
        b'+' => Some(Header::Part(Part::Simple(text_of(line)?))),
        b'-' => Some(Header::Part(Part::Error(text_of(line)?))),
        b':' => Some(Header::Part(Part::Int(integer_of(line)?))),
        b'$' => string_header(line),
        b'*' => array_header(line),
        _ => None,
    }
}

/// The length of a bulk string, or the null bulk string.
fn string_header(line: &[u8]) -> Option<Header<'_>>
    ensures found { IfSome result (Says 36 line.now) }
    ensures none { IfNone result (SaysNothing 36 line.now) }
{
    match line {
        b"-1" => Some(Header::Part(Part::NullBulk)),
        _ => Some(Header::Length(number_of(line)?)),
    }
}

/// The header of an array, or the null array.
fn array_header(line: &[u8]) -> Option<Header<'_>>
    ensures found { IfSome result (Says 42 line.now) }
    ensures none { IfNone result (SaysNothing 42 line.now) }
{
    match line {
        b"-1" => Some(Header::Part(Part::NullArray)),
        _ => Some(Header::Part(Part::Array(number_of(line)?))),
    }
}

/// The same text, if it is of one line and not too long.
fn text_of(text: &[u8]) -> Option<&[u8]>
    ensures found { IfSome result (λ same. (same.now ≡ text.now) × IsText same.now) }
    ensures none { IfNone result (IsText text.now → ⊥) }
{
    if text.len() > MOST_TEXT || ends_line(text) {
        return None;
    }
    Some(text)
}

/// Whether a byte of the text ends a line.
fn ends_line(text: &[u8]) -> bool
    ensures { IsTrue result ↔ (IsOneLine text.now → ⊥) }
{
    text.iter().any(|byte| *byte == b'\r' || *byte == b'\n')
}

/// Whether the line of a part with this mark may begin with these bytes.
pub(crate) fn begins_line(mark: u8, front: &[u8]) -> bool
    ensures { IsTrue result ↔ BeginsLine mark front.now }
{
    header_of(mark, front).is_some() || begins_number(mark, front)
}

/// Whether the mark is that of a number, and no more than a sign has come of it.
fn begins_number(mark: u8, front: &[u8]) -> bool
    ensures { IsTrue result ↔ BeginsNumber mark front.now }
{
    match mark {
        b':' | b'$' | b'*' => matches!(front, [] | [b'-']),
        _ => false,
    }
}
