ghost use Rattle.std.specs.Prelude.{◌≡◌, ◌∷◌, ◌++◌, ℕ, List, decimal};
ghost use Rattle.sr_resp.specs.steps.Decoding.{IsLine};
ghost use Rattle.sr_peer.specs.steps.Lines.{Ends};
ghost use Rattle.sr_peer.specs.steps.Reading.{BeginsWith};

use crate::Part;
use crate::line::{Header, begins_line, header_of};

/// What some bytes begin with.
#[derive(Clone, Copy)]
pub(crate) enum Front<'a> {
    /// A whole part, and the bytes after it.
    Whole(Part<'a>, &'a [u8]),
    /// The beginning of a part, which needs this many bytes more at least.
    Begun(usize),
    /// Bytes that no part begins with.
    Wrong,
}

/// The part at the front of some bytes, or how far it has come.
pub(crate) fn first_part(bytes: &[u8]) -> Front<'_>
    ensures { BeginsWith bytes.now result }
{
    let Some((mark, text)) = bytes.split_first() else {
        return Front::Begun(1);
    };
    match text.iter().position(|byte| *byte == b'\r') {
        Some(end) => {
            let (line, rest) = text.split_at(end);
            part_of_line(*mark, line, rest)
        }
        None => begun_part(*mark, text),
    }
}

/// A part whose line has come as far as this.
fn begun_part(mark: u8, text: &[u8]) -> Front<'static>
    requires { IsLine text.now }
    ensures { BeginsWith (mark ∷ text.now) result }
{
    if begins_line(mark, text) {
        Front::Begun(1)
    } else {
        Front::Wrong
    }
}

/// The part with this mark and this line. The rest begins with the carriage return after the line.
fn part_of_line<'a>(mark: u8, line: &'a [u8], rest: &'a [u8]) -> Front<'a>
    requires line { IsLine line.now }
    requires ended { (after : List ℕ) × (rest.now ≡ 13 ∷ after) }
    ensures { BeginsWith (mark ∷ line.now ++ rest.now) result }
{
    let Some(header) = header_of(mark, line) else {
        return Front::Wrong;
    };
    match end_of(rest) {
        End::Whole(after) => match header {
            Header::Part(part) => Front::Whole(part, after),
            Header::Length(len) => string_of(after, len),
        },
        End::Begun(least) => Front::Begun(least),
        End::Wrong => Front::Wrong,
    }
}

/// The bulk string of this many bytes, which come after its line.
fn string_of(bytes: &[u8], len: usize) -> Front<'_>
    ensures { BeginsWith (36 ∷ decimal len ++ 13 ∷ 10 ∷ bytes.now) result }
{
    if bytes.len() < len {
        return Front::Begun((len - bytes.len()).saturating_add(2));
    }
    let (string, rest) = bytes.split_at(len);
    match end_of(rest) {
        End::Whole(after) => Front::Whole(Part::Bulk(string), after),
        End::Begun(least) => Front::Begun(least),
        End::Wrong => Front::Wrong,
    }
}

/// What bytes are of the end of a line.
#[derive(Clone, Copy)]
enum End<'a> {
    /// They begin with it, and these come after it.
    Whole(&'a [u8]),
    /// They are its beginning, and this many are missing.
    Begun(usize),
    /// Neither.
    Wrong,
}

/// The end of a line at the front of some bytes.
fn end_of(bytes: &[u8]) -> End<'_>
    ensures { Ends bytes.now result }
{
    match bytes {
        [] => End::Begun(2),
        [b'\r'] => End::Begun(1),
        [b'\r', b'\n', after @ ..] => End::Whole(after),
        _ => End::Wrong,
    }
}
