//! The columns of a line: a name on the left of its column, and texts on the right of theirs.
ghost use Rattle.std.specs.Prelude.{◌≡◌, ◌++◌, ◌∷◌, ◌<◌, ◌≤◌, OnOk, replicate};
ghost use Rattle.std.specs.List.{list_all};
ghost use Rattle.sr_dash.specs.Board as boards;

use itoa::Buffer;
use std::alloc::AllocError;

/// How many bytes the column of the names has.
const NAME_WIDTH: usize = 20;

/// What columns are filled up from: as many spaces as the widest one has bytes.
const SPACES: [u8; 20] = [b' '; 20];

/// Writes a name on the left of its column. A longer one is not cut.
pub(crate) fn write_name(out: &mut Vec<u8>, name: &[u8]) -> Result<(), AllocError>
    ensures { OnOk result (out.new.items ≡ out.old.items ++ boards.on_the_left 20 (boards.escaped name.now)) }
{
    let start = out.len();
    write_escaped(out, name)?;
    let width = out.len() - start;
    write_spaces(out, NAME_WIDTH.saturating_sub(width))
}

/// Writes a space and a column with a number, or with `-` if there is none.
pub(crate) fn write_number(
    out: &mut Vec<u8>,
    width: usize,
    number: Option<u64>,
) -> Result<(), AllocError>
    requires { width < 20 }
    ensures { OnOk result (out.new.items ≡ out.old.items ++ 0x20 ∷ boards.on_the_right width (boards.cell number)) }
{
    let mut digits = Buffer::new();
    match number {
        Some(number) => write_right(out, width, digits.format(number).as_bytes()),
        None => write_right(out, width, b"-"),
    }
}

/// Writes a space and a text on the right of its column.
fn write_right(out: &mut Vec<u8>, width: usize, text: &[u8]) -> Result<(), AllocError>
    requires { width < 20 }
    ensures { OnOk result (out.new.items ≡ out.old.items ++ 0x20 ∷ boards.on_the_right width text.now) }
{
    write_spaces(out, width.saturating_sub(text.len()) + 1)?;
    out.extend_from_slice(text)
}

/// Writes this many spaces at once: at most as many as the widest column has bytes.
fn write_spaces(out: &mut Vec<u8>, count: usize) -> Result<(), AllocError>
    requires { count ≤ 20 }
    ensures { OnOk result (out.new.items ≡ out.old.items ++ replicate count 0x20) }
{
    out.extend_from_slice(&SPACES[..count])
}

/// Writes the bytes of a name, escaped: at once if each is plain.
fn write_escaped(out: &mut Vec<u8>, name: &[u8]) -> Result<(), AllocError>
    ensures { OnOk result (out.new.items ≡ out.old.items ++ boards.escaped name.now) }
{
    if are_plain(name) {
        return out.extend_from_slice(name);
    }
    for byte in name {
        write_byte(out, *byte)?;
    }
    Ok(())
}

/// Writes a byte of a name: itself if it is plain, or else `\x` and its two hexadecimal digits.
fn write_byte(out: &mut Vec<u8>, byte: u8) -> Result<(), AllocError>
    ensures { OnOk result (out.new.items ≡ out.old.items ++ boards.escaped_byte byte) }
{
    if is_plain(byte) {
        out.push(byte)?;
    } else {
        out.extend_from_slice(&[b'\\', b'x', hex_digit(byte / 16), hex_digit(byte % 16)])?;
    }
    Ok(())
}

/// Whether each byte is printable, and neither a space nor a backslash.
fn are_plain(bytes: &[u8]) -> bool
    ensures { result ≡ list_all boards.is_plain bytes.now }
{
    bytes.iter().all(|byte| is_plain(*byte))
}

/// Whether a byte is printable, and neither a space nor a backslash.
fn is_plain(byte: u8) -> bool
    ensures { result ≡ boards.is_plain byte }
{
    byte > b' ' && byte < 0x7f && byte != b'\\'
}

/// The hexadecimal digit of a number below 16, in lower case.
fn hex_digit(n: u8) -> u8
    requires { n < 16 }
    ensures { result ≡ boards.hex_digit n }
{
    if n < 10 { b'0' + n } else { b'a' - 10 + n }
}
