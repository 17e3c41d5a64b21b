//! A reply read back from its bytes.
ghost use Rattle.std.specs.Prelude.{◌≡◌, ◌≢◌, ◌↔◌, ◌^◌, ◌<◌, ◌++◌, ◌∷◌, ℕ, ℤ, List, decimal, length, IsTrue, IfSome};
ghost use Rattle.std.specs.Prelude.{IfNone, IfOk, Some};
ghost use Rattle.std.specs.Fmt.{signed_decimal};
ghost use lib.Signed.{mag};
ghost use Rattle.sr_resp.specs.Code.{error_text, word_text};
ghost use Rattle.sr_resp.specs.Reply.{ReplyParts, Part, IsReply, items_of, reply_text};
ghost use Rattle.sr_resp.specs.Spelled.{AreSpellable};
ghost use Rattle.sr_resp.specs.steps.Decoding.{HasLine, HasForm, HasPart, AreSpelledReplies};
ghost use Rattle.sr_resp.specs.steps.Pieces.{part_of};

use crate::piece::Piece;
use crate::{ErrCode, Reply, Word};
use itoa::Buffer;
use sr_bytes::read_decimal;
use std::alloc::{AllocError, Global};

/// Each error that a reply may be.
const EACH_ERROR: [ErrCode; 16] = [
    ErrCode::Unknown,
    ErrCode::Arity,
    ErrCode::Syntax,
    ErrCode::Number,
    ErrCode::BadId,
    ErrCode::Protocol,
    ErrCode::IdZero,
    ErrCode::IdSmall,
    ErrCode::Exhausted,
    ErrCode::NoKey,
    ErrCode::NoGroup,
    ErrCode::BusyGroup,
    ErrCode::Memory,
    ErrCode::Full,
    ErrCode::Stale,
    ErrCode::TooMany,
];

/// The reply that these bytes spell, if they spell one reply and nothing more.
///
/// `None` for any other bytes, also for a number with leading zeros or an error text that this server does not send.
///
/// Source: RESP2 protocol specification, "RESP protocol description".
pub fn decode(alloc: Global, bytes: &[u8]) -> Result<Option<Reply>, AllocError>
    ensures found { IfOk result (λ found. IfSome found (λ reply. reply_text reply ≡ bytes.now)) }
    // a spellable reply is read back from its text
    ensures back { (reply : ReplyParts) → IsReply reply → AreSpellable reply → reply_text reply ≡ bytes.now
        → IfOk result (λ found. found ≡ Some reply) }
    // nothing else is read
    ensures none { IfOk result (λ found. IfNone found
        ((reply : ReplyParts) → IsReply reply → AreSpellable reply → reply_text reply ≢ bytes.now)) }
{
    let Some((piece, others)) = first_piece(bytes) else {
        return Ok(None);
    };
    if !are_replies(others, items_after(piece)) {
        return Ok(None);
    }
    Ok(Some(Reply::read(alloc, piece, others)?))
}

/// Whether these bytes spell this many replies, one after another, and nothing more.
fn are_replies(bytes: &[u8], n: usize) -> bool
    ensures { IsTrue result ↔ AreSpelledReplies n bytes.now }
{
    let mut left = bytes;
    let mut due = n;
    while due > 0 {
        // Each of them takes a byte at least.
        if due > left.len() {
            return false;
        }
        let Some((piece, after)) = first_piece(left) else {
            return false;
        };
        due = (due - 1).saturating_add(items_after(piece));
        left = after;
    }
    left.is_empty()
}

/// How many replies have to follow a part: the items of an array.
fn items_after(piece: Piece<'_>) -> usize
    ensures { result ≡ items_of (part_of piece.entry) }
{
    match piece {
        Piece::Array(items) => items,
        _ => 0,
    }
}

/// The part at the front of some bytes, and the bytes after it.
fn first_piece(bytes: &[u8]) -> Option<(Piece<'_>, &[u8])>
    ensures found { IfSome result (λ found. HasPart bytes.now (part_of found.0) found.1.now) }
    ensures none { IfNone result ((part : Part) (after : List ℕ) → HasPart bytes.now part after → ⊥) }
{
    let (mark, text) = bytes.split_first()?;
    let (line, after) = first_line(text)?;
    piece_of(*mark, line, after)
}

/// The part with this mark and this line, and the bytes after it. The bytes of a bulk string come after the line.
fn piece_of<'a>(mark: u8, line: &'a [u8], after: &'a [u8]) -> Option<(Piece<'a>, &'a [u8])>
    ensures found { IfSome result (λ found. HasForm mark line.now after.now (part_of found.0) found.1.now) }
    ensures none { IfNone result ((part : Part) (others : List ℕ) → HasForm mark line.now after.now part others → ⊥) }
{
    match mark {
        b'+' => Some((Piece::Simple(word_of(line)?), after)),
        b'-' => Some((Piece::Error(error_of(line)?), after)),
        b':' => Some((Piece::Int(integer_of(line)?), after)),
        b'$' => string_of(line, after),
        b'*' => Some((header_of(line)?, after)),
        _ => None,
    }
}

/// The bulk string with this line, or the null bulk string, and the bytes after it.
fn string_of<'a>(line: &'a [u8], after: &'a [u8]) -> Option<(Piece<'a>, &'a [u8])>
    ensures found { IfSome result (λ found. HasForm 36 line.now after.now (part_of found.0) found.1.now) }
    ensures none { IfNone result ((part : Part) (others : List ℕ) → HasForm 36 line.now after.now part others → ⊥) }
{
    match line {
        b"-1" => Some((Piece::NullBulk, after)),
        _ => {
            let (string, others) = front(after, number_of(line)?)?;
            Some((Piece::Bulk(string), others))
        }
    }
}

/// The header of an array with this line, or the null array.
fn header_of(line: &[u8]) -> Option<Piece<'_>>
    ensures found { IfSome result (λ found. (others : List ℕ) → HasForm 42 line.now others (part_of found) others) }
    ensures none { IfNone result ((part : Part) (after others : List ℕ) → HasForm 42 line.now after part others → ⊥) }
{
    match line {
        b"-1" => Some(Piece::NullArray),
        _ => Some(Piece::Array(number_of(line)?)),
    }
}

/// The line at the front of some bytes, and the bytes after its end.
fn first_line(bytes: &[u8]) -> Option<(&[u8], &[u8])>
    ensures found { IfSome result (λ found. HasLine bytes.now found.0.now found.1.now) }
    ensures none { IfNone result ((line after : List ℕ) → HasLine bytes.now line after → ⊥) }
{
    let end = bytes.iter().position(|byte| *byte == b'\r')?;
    let (line, text) = bytes.split_at(end);
    Some((line, text.strip_prefix(b"\r\n")?))
}

/// This many bytes at the front of others, and the bytes after the line end that follows them.
fn front(bytes: &[u8], len: usize) -> Option<(&[u8], &[u8])>
    ensures found { IfSome result (λ found.
        (length found.0.now ≡ len) × (bytes.now ≡ found.0.now ++ 13 ∷ 10 ∷ found.1.now)) }
    ensures none { IfNone result ((string after : List ℕ) → length string ≡ len
        → bytes.now ≡ string ++ 13 ∷ 10 ∷ after → ⊥) }
{
    if len > bytes.len() {
        return None;
    }
    let (string, text) = bytes.split_at(len);
    Some((string, text.strip_prefix(b"\r\n")?))
}

/// The simple string with this text.
fn word_of(text: &[u8]) -> Option<Word>
    ensures found { IfSome result (λ word. word_text word ≡ text.now) }
    ensures none { IfNone result ((word : Word) → word_text word ≢ text.now) }
{
    match text {
        b"OK" => Some(Word::Ok),
        b"PONG" => Some(Word::Pong),
        _ => None,
    }
}

/// The error with this text.
fn error_of(text: &[u8]) -> Option<ErrCode>
    ensures found { IfSome result (λ code. error_text code ≡ text.now) }
    ensures none { IfNone result ((code : ErrCode) → error_text code ≢ text.now) }
{
    for code in &EACH_ERROR {
        if code.text().as_bytes() == text {
            return Some(*code);
        }
    }
    None
}

/// The number that these digits write, with no leading zero.
fn number_of(digits: &[u8]) -> Option<usize>
    ensures found { IfSome result (λ n. decimal n ≡ digits.now) }
    ensures none { IfNone result ((n : ℕ) → n < 2 ^ 64 → decimal n ≢ digits.now) }
{
    let n = read_decimal(digits, 20)?;
    let mut own = Buffer::new();
    if own.format(n).as_bytes() == digits {
        Some(n as usize)
    } else {
        None
    }
}

/// The integer that these bytes write, with no leading zero, and no sign but a `-` before a number above 0.
fn integer_of(text: &[u8]) -> Option<i64>
    ensures found { IfSome result (λ n. signed_decimal n ≡ text.now) }
    ensures none { IfNone result ((n : ℤ) → mag n < 2 ^ 63 → signed_decimal n ≢ text.now) }
{
    match text {
        [b'-', digits @ ..] => {
            let above = number_of(digits)?.checked_sub(1)?;
            if above > i64::MAX as usize {
                return None;
            }
            Some(-1 - above as i64)
        }
        _ => {
            let n = number_of(text)?;
            if n > i64::MAX as usize {
                return None;
            }
            Some(n as i64)
        }
    }
}
