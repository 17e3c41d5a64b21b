//! The words of a line, as they are or in double quotes, as redis-cli takes and prints them.
ghost use Rattle.std.specs.Prelude.{◌≡◌, ◌≢◌, ◌++◌, ◌∷◌, ◌<◌, ℕ, List, [], All};
ghost use Rattle.std.specs.Prelude.{Some, IsSome, IfSome, IfNone, IfOk, SomeIff};
ghost use Rattle.std.specs.Char.{digit_value, is_ascii_whitespace};
ghost use Rattle.plan_check.specs.Words.{HasByte, HasQuoted, HasWord, escaped as escaped_by};

use crate::fault::Fault;
use sr_bytes::read_decimal;
use std::alloc::Global;

/// How many digits a number has at most: as many as the greatest one of 64 bits.
pub(crate) const MOST_DIGITS: usize = 20;

/// The words of a line: runs of bytes between blanks, or quoted ones.
pub(crate) fn words_of(alloc: Global, line: &[u8]) -> Result<Vec<Vec<u8>>, Fault> {
    let mut words = Vec::new(alloc);
    let mut left = line.trim_ascii();
    for _ in 0..line.len() {
        if left.is_empty() {
            break;
        }
        let (word, after) = first_word(alloc, left)?;
        words.push(word)?;
        left = after.trim_ascii_start();
    }
    Ok(words)
}

/// The word at the front of a text that begins with no blank, and the bytes after it.
fn first_word(alloc: Global, text: &[u8]) -> Result<(Vec<u8>, &[u8]), Fault>
    ensures { IfOk result (λ read. HasWord text.now read.0.items read.1.now) }
{
    match text.strip_prefix(b"\"") {
        Some(quoted) => {
            let (word, after) = quoted_word(alloc, quoted)?;
            if after.first().is_some_and(|byte| !is_blank(*byte)) {
                return Err(Fault::Quotes);
            }
            Ok((word, after))
        }
        None => {
            let end = text.iter().position(|byte| is_blank(*byte));
            let (word, after) = text.split_at(end.unwrap_or(text.len()));
            Ok((Vec::from_slice(alloc, word)?, after))
        }
    }
}

/// The word that a text spells up to its closing quotes, and the bytes after these.
pub(crate) fn quoted_word(alloc: Global, text: &[u8]) -> Result<(Vec<u8>, &[u8]), Fault>
    ensures { IfOk result (λ read. HasQuoted text.now read.0.items read.1.now) }
{
    let mut word = Vec::new(alloc);
    let mut left = text;
    for _ in 0..text.len() {
        let Some((byte, after)) = first_byte(left) else {
            break;
        };
        word.push(byte)?;
        left = after;
    }
    match left.strip_prefix(b"\"") {
        Some(after) => Ok((word, after)),
        None => Err(Fault::Quotes),
    }
}

/// The byte at the front of a quoted text, and the bytes after its spelling. `None` at the closing quotes and at no
/// byte.
fn first_byte(text: &[u8]) -> Option<(u8, &[u8])>
    ensures found { IfSome result (λ read. HasByte text.now read.0 read.1.now) }
    ensures none { IfNone result ((byte : ℕ) (after : List ℕ) → HasByte text.now byte after → ⊥) }
{
    match text {
        [b'\\', b'x', high, low, after @ ..] => {
            let high = digit_of(*high)?;
            let low = digit_of(*low)?;
            Some((high * 16 + low, after))
        }
        [b'\\', mark, after @ ..] => Some((escaped(*mark)?, after)),
        [b'"' | b'\\', ..] | [] => None,
        [byte, after @ ..] => Some((*byte, after)),
    }
}

/// The byte that a backslash and this one spell.
fn escaped(mark: u8) -> Option<u8>
    ensures { result ≡ escaped_by mark }
{
    match mark {
        b'"' | b'\\' => Some(mark),
        b'n' => Some(b'\n'),
        b'r' => Some(b'\r'),
        b't' => Some(b'\t'),
        b'a' => Some(7),
        b'b' => Some(8),
        _ => None,
    }
}

/// The value of a hexadecimal digit.
fn digit_of(byte: u8) -> Option<u8>
    ensures { SomeIff result (digit_value byte < 16) (digit_value byte) }
{
    let value = char::from(byte).to_digit(16)?;
    Some(value as u8)
}

/// Whether a byte parts words.
fn is_blank(byte: u8) -> bool
    ensures { result ≡ is_ascii_whitespace byte }
{
    byte.is_ascii_whitespace()
}

/// The bytes before the first `mark`, and those after it. `None` if there is no `mark`.
pub(crate) fn split_once(bytes: &[u8], mark: u8) -> Option<(&[u8], &[u8])>
    ensures found { IfSome result (λ parts.
        (bytes.now ≡ parts.0.now ++ mark ∷ parts.1.now) × All (λ byte. byte ≢ mark) parts.0.now) }
    ensures none { IfNone result (All (λ byte. byte ≢ mark) bytes.now) }
{
    let end = bytes.iter().position(|byte| *byte == mark)?;
    Some((&bytes[..end], &bytes[end + 1..]))
}

/// The number written before the first `mark`, and the bytes after it.
pub(crate) fn number_before(bytes: &[u8], mark: u8) -> Option<(u64, &[u8])> {
    let (digits, after) = split_once(bytes, mark)?;
    Some((read_decimal(digits, MOST_DIGITS)?, after))
}
