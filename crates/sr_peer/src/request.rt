ghost use Rattle.std.specs.Prelude.{◌≡◌, ◌<◌, ◌≤◌, ◌++◌, ℕ, List, All, OnOk, OnErr, length, decimal, sum_by};
ghost use Rattle.std.specs.Io.{StartsWith};
ghost use Rattle.sr_resp.specs.Reply.{line_end};
ghost use Rattle.sr_resp.specs.Request.{IsRequest};
ghost use Rattle.sr_peer.specs.Reply.{Array, Bulk, part_text, request_text};

use itoa::Buffer;
use std::alloc::AllocError;

/// Appends the header of a request with this many words, which have to follow.
///
/// Source: RESP2 protocol specification, "Sending commands to a Redis server", "Arrays".
pub fn append_header(out: &mut Vec<u8>, words: usize) -> Result<(), AllocError>
    ensures ok { OnOk result (out.new.items ≡ out.old.items ++ part_text (Array words)) }
    ensures err { OnErr result (out.new.items ≡ out.old.items) }
{
    let mut digits = Buffer::new();
    append_line(out, b"*", digits.format(words).as_bytes())
}

/// Appends a word of a request.
///
/// Source: RESP2 protocol specification, "Sending commands to a Redis server", "Bulk strings".
pub fn append_word(out: &mut Vec<u8>, word: &[u8]) -> Result<(), AllocError>
    ensures ok { OnOk result (out.new.items ≡ out.old.items ++ part_text (Bulk word.now)) }
    ensures err { OnErr result (out.new.items ≡ out.old.items) }
{
    let start = out.len();
    let mut digits = Buffer::new();
    append_line(out, b"$", digits.format(word.len()).as_bytes())?;
    let appended = append_line(out, b"", word);
    if appended.is_err() {
        out.truncate(start);
    }
    appended
}

/// Appends a word of a request that is a number in decimal digits.
///
/// Source: RESP2 protocol specification, "Sending commands to a Redis server", "Bulk strings".
pub fn append_number(out: &mut Vec<u8>, number: u64) -> Result<(), AllocError>
    ensures ok { OnOk result (out.new.items ≡ out.old.items ++ part_text (Bulk (decimal number))) }
    ensures err { OnErr result (out.new.items ≡ out.old.items) }
{
    let mut digits = Buffer::new();
    append_word(out, digits.format(number).as_bytes())
}

/// Appends a line: its mark, its text and the line end.
fn append_line(out: &mut Vec<u8>, mark: &[u8], text: &[u8]) -> Result<(), AllocError>
    ensures ok { OnOk result (out.new.items ≡ out.old.items ++ mark.now ++ text.now ++ line_end) }
    ensures err { OnErr result (out.new.items ≡ out.old.items) }
{
    let start = out.len();
    let appended = begin_line(out, mark, text);
    if appended.is_err() {
        out.truncate(start);
    }
    appended
}

/// Appends a line: its mark, its text and the line end. An `Err` may leave some of it in `out`.
fn begin_line(out: &mut Vec<u8>, mark: &[u8], text: &[u8]) -> Result<(), AllocError>
    ensures ok { OnOk result (out.new.items ≡ out.old.items ++ mark.now ++ text.now ++ line_end) }
    ensures err { OnErr result (StartsWith out.new.items out.old.items) }
{
    out.extend_from_slice(mark)?;
    out.extend_from_slice(text)?;
    out.extend_from_slice(b"\r\n")
}

/// Law: what is spelled here is a request as `sr_resp` reads it, if it is within that crate's limits. Calling this has
/// no effect.
pub fn requests_are_read()
    ensures { (words : List (List ℕ)) → 0 < length words → length words ≤ 4096
        → sum_by length words ≤ 16777216 → All (λ word. length word ≤ 1048576) words
        → IsRequest (request_text words) words }
{}
