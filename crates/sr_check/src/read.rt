//! The parts of a reply, read from the front of its bytes.
ghost use Rattle.std.specs.Prelude.{◌≡◌, ◌≢◌, ◌^◌, ◌<◌, ◌++◌, ◌∷◌, ℕ, List, decimal, length, pos, IfSome, IfNone};
ghost use Rattle.sr_resp.specs.{Bulk};
ghost use Rattle.sr_resp.specs.Reply.{Int, Array};
ghost use Rattle.sr_resp.specs.steps.Decoding.{HasLine, HasPart};
ghost use Rattle.sr_check.specs.steps.Read.{HasNumber};

use itoa::Buffer;
use sr_bytes::read_decimal;

/// The header of an array at the front of some bytes: its number of items, and the bytes after it.
pub(crate) fn header(bytes: &[u8]) -> Option<(u64, &[u8])>
    ensures found { IfSome result (λ found. HasPart bytes.now (Array found.0) found.1.now) }
    ensures none { IfNone result ((n : ℕ) (after : List ℕ) → HasPart bytes.now (Array n) after → ⊥) }
{
    marked(bytes, b'*')
}

/// The integer at the front of some bytes, if it is at least 0, and the bytes after it.
pub(crate) fn integer(bytes: &[u8]) -> Option<(u64, &[u8])>
    ensures found { IfSome result (λ found. HasPart bytes.now (Int (pos found.0)) found.1.now) }
    ensures none { IfNone result ((n : ℕ) (after : List ℕ) → HasPart bytes.now (Int (pos n)) after → ⊥) }
{
    let (n, after) = marked(bytes, b':')?;
    if n > i64::MAX as u64 {
        return None;
    }
    Some((n, after))
}

/// The bulk string at the front of some bytes, and the bytes after it.
pub(crate) fn bulk(bytes: &[u8]) -> Option<(&[u8], &[u8])>
    ensures found { IfSome result (λ found. HasPart bytes.now (Bulk found.0.now) found.1.now) }
    ensures none { IfNone result ((string after : List ℕ) → HasPart bytes.now (Bulk string) after → ⊥) }
{
    let (len, after) = marked(bytes, b'$')?;
    front(after, len as usize)
}

/// The number in the line at the front of some bytes, if the line begins with this mark, and the bytes after the line.
fn marked(bytes: &[u8], mark: u8) -> Option<(u64, &[u8])>
    ensures found { IfSome result (λ found. HasNumber bytes.now mark found.0 found.1.now) }
    ensures none { IfNone result ((n : ℕ) (after : List ℕ) → HasNumber bytes.now mark n after → ⊥) }
{
    let (first, text) = bytes.split_first()?;
    if *first != mark {
        return None;
    }
    let (line, after) = first_line(text)?;
    let n = number_of(line)?;
    Some((n, after))
}

/// The line at the front of some bytes, and the bytes after its end.
fn first_line(bytes: &[u8]) -> Option<(&[u8], &[u8])>
    ensures found { IfSome result (λ found. HasLine bytes.now found.0.now found.1.now) }
    ensures none { IfNone result ((line after : List ℕ) → HasLine bytes.now line after → ⊥) }
{
    let end = bytes.iter().position(|byte| *byte == b'\r')?;
    let (line, text) = bytes.split_at(end);
    Some((line, text.strip_prefix(b"\r\n")?))
}

/// The number that these digits write, with no leading zero.
fn number_of(digits: &[u8]) -> Option<u64>
    ensures found { IfSome result (λ n. decimal n ≡ digits.now) }
    ensures none { IfNone result ((n : ℕ) → n < 2 ^ 64 → decimal n ≢ digits.now) }
{
    let n = read_decimal(digits, 20)?;
    let mut own = Buffer::new();
    if own.format(n).as_bytes() == digits {
        Some(n)
    } else {
        None
    }
}

/// This many bytes at the front of others, and the bytes after the line end that follows them.
fn front(bytes: &[u8], len: usize) -> Option<(&[u8], &[u8])>
    ensures found { IfSome result (λ found.
        (length found.0.now ≡ len) × (bytes.now ≡ found.0.now ++ 13 ∷ 10 ∷ found.1.now)) }
    ensures none { IfNone result ((string after : List ℕ) → length string ≡ len
        → bytes.now ≡ string ++ 13 ∷ 10 ∷ after → ⊥) }
{
    if len > bytes.len() {
        return None;
    }
    let (string, text) = bytes.split_at(len);
    Some((string, text.strip_prefix(b"\r\n")?))
}
