ghost use Rattle.std.specs.Prelude.{◌≡◌, ◌++◌, ◌<◌, ◌^◌, List, ℕ, length, min, OnOk, OnErr};
ghost use Rattle.std.specs.Io.{StartsWith};
ghost use Rattle.sr_bytes.specs.Packed.{packed_string};

use std::alloc::AllocError;

/// How many bytes a string takes behind its length, as a field, a value or a word; a number beyond `usize` is its
/// greatest.
pub fn packed_len(string: &[u8]) -> usize
    ensures { result ≡ min (length (packed_string string.now)) 0xffff_ffff_ffff_ffff }
{
    let len = string.len();
    len.saturating_add(if len < 255 { 1 } else { 9 })
}

/// Appends a string behind its length. An `Err` may leave some of it in `out`.
pub(crate) fn append_string(out: &mut Vec<u8>, bytes: &[u8]) -> Result<(), AllocError>
    ensures ok { OnOk result (out.new.items ≡ out.old.items ++ packed_string bytes.now) }
    ensures err { OnErr result (StartsWith out.new.items out.old.items) }
    ensures short { length bytes.now < 2 ^ 64 }
{
    let len = bytes.len();
    if len < 255 {
        out.push(len as u8)?;
    } else {
        out.push(255)?;
        out.extend_from_slice(&(len as u64).to_le_bytes())?;
    }
    out.extend_from_slice(bytes)
}

/// The string at the front, and the bytes behind it.
pub(crate) fn first_string(text: &[u8]) -> (&[u8], &[u8])
    requires { (string : List ℕ) × (behind : List ℕ) × (length string < 2 ^ 64)
        × (text.now ≡ packed_string string ++ behind) }
    ensures { (string behind : List ℕ) → length string < 2 ^ 64 → text.now ≡ packed_string string ++ behind
        → (result.0.now ≡ string) × (result.1.now ≡ behind) }
{
    if text[0] < 255 {
        text[1..].split_at(text[0] as usize)
    } else {
        let len = u64::from_le_bytes([
            text[1], text[2], text[3], text[4], text[5], text[6], text[7], text[8],
        ]);
        text[9..].split_at(len as usize)
    }
}
