ghost use Rattle.std.specs.Prelude.{◌≡◌, ◌++◌, IfOk, OnOk, OnErr};
ghost use Rattle.std.specs.Io.{StartsWith};
ghost use Rattle.sr_resp.specs.Reply.{line_end, part_text, reply_text};
ghost use Rattle.sr_resp.specs.Spelled.{IsSpellable};
ghost use Rattle.sr_resp.specs.steps.OneSpelling.{mark, line};
ghost use Rattle.sr_resp.specs.steps.Pieces.{part_of};

use crate::Reply;
use crate::piece::Piece;
use itoa::Buffer;
use std::alloc::{AllocError, Global};

/// Appends the spelling of a reply to `out`. An `Err` leaves `out` as it was.
///
/// Source: RESP2 protocol specification, "RESP protocol description".
pub fn append_reply(out: &mut Vec<u8>, reply: &Reply) -> Result<(), AllocError>
    ensures ok { OnOk result (out.new.items ≡ out.old.items ++ reply_text reply.now) }
    ensures err { OnErr result (out.new.items ≡ out.old.items) }
{
    reply.append_to(out)
}

/// The spelling of a reply.
///
/// Source: RESP2 protocol specification, "RESP protocol description".
pub fn encode(alloc: Global, reply: &Reply) -> Result<Vec<u8>, AllocError>
    ensures { IfOk result (λ text. text.items ≡ reply_text reply.now) }
{
    let mut text = Vec::new(alloc);
    append_reply(&mut text, reply)?;
    Ok(text)
}

/// Appends the spelling of one part. An `Err` leaves `out` as it was.
pub(crate) fn append_piece(out: &mut Vec<u8>, piece: Piece<'_>) -> Result<(), AllocError>
    ensures ok { OnOk result (out.new.items ≡ out.old.items ++ part_text (part_of piece.entry)) }
    ensures err { OnErr result (out.new.items ≡ out.old.items) }
    ensures fit { IsSpellable (part_of piece.entry) }
{
    let start = out.len();
    let appended = begin_piece(out, piece);
    if appended.is_err() {
        out.truncate(start);
    }
    appended
}

/// Appends the spelling of a first part, and then a text. An `Err` leaves `out` as it was.
pub(crate) fn append_parts(
    out: &mut Vec<u8>,
    first: Piece<'_>,
    rest: &[u8],
) -> Result<(), AllocError>
    ensures ok { OnOk result (out.new.items ≡ out.old.items ++ part_text (part_of first.entry) ++ rest.now) }
    ensures err { OnErr result (out.new.items ≡ out.old.items) }
    ensures fit { IsSpellable (part_of first.entry) }
{
    let start = out.len();
    append_piece(out, first)?;
    let appended = out.extend_from_slice(rest);
    if appended.is_err() {
        out.truncate(start);
    }
    appended
}

/// Appends the spelling of one part. An `Err` may leave some of it in `out`.
fn begin_piece(out: &mut Vec<u8>, piece: Piece<'_>) -> Result<(), AllocError>
    ensures ok { OnOk result (out.new.items ≡ out.old.items ++ part_text (part_of piece.entry)) }
    ensures err { OnErr result (StartsWith out.new.items out.old.items) }
    ensures fit { IsSpellable (part_of piece.entry) }
{
    let mut digits = Buffer::new();
    append_line(out, &[mark_of(piece)], line_of(piece, &mut digits))?;
    match piece {
        Piece::Bulk(bytes) => append_line(out, b"", bytes),
        _ => Ok(()),
    }
}

/// The mark that a part begins with.
fn mark_of(piece: Piece<'_>) -> u8
    ensures { result ≡ mark (part_of piece.entry) }
{
    match piece {
        Piece::Simple(_) => b'+',
        Piece::Error(_) => b'-',
        Piece::Int(_) => b':',
        Piece::Bulk(_) | Piece::NullBulk => b'$',
        Piece::Array(_) | Piece::NullArray => b'*',
    }
}

/// The line after it. The digits of a number are written into the buffer.
fn line_of<'a>(piece: Piece<'a>, digits: &'a mut Buffer) -> &'a [u8]
    ensures is { result.now ≡ line (part_of piece.entry) }
    ensures fit { IsSpellable (part_of piece.entry) }
{
    match piece {
        Piece::Simple(word) => word.text().as_bytes(),
        Piece::Error(code) => code.text().as_bytes(),
        Piece::Int(n) => digits.format(n).as_bytes(),
        Piece::Bulk(bytes) => digits.format(bytes.len()).as_bytes(),
        Piece::NullBulk | Piece::NullArray => b"-1",
        Piece::Array(items) => digits.format(items).as_bytes(),
    }
}

/// Appends a line: its mark, its text and the line end. An `Err` may leave some of it in `out`.
fn append_line(out: &mut Vec<u8>, mark: &[u8], text: &[u8]) -> Result<(), AllocError>
    ensures ok { OnOk result (out.new.items ≡ out.old.items ++ mark.now ++ text.now ++ line_end) }
    ensures err { OnErr result (StartsWith out.new.items out.old.items) }
{
    out.extend_from_slice(mark)?;
    out.extend_from_slice(text)?;
    out.extend_from_slice(b"\r\n")
}
