ghost use Rattle.std.specs.Prelude.{◌≡◌, ◌≢◌, ◌^◌, ◌<◌, ℕ, ℤ, decimal, IfNone, IfSome};
ghost use Rattle.std.specs.Fmt.{signed_decimal};
ghost use lib.Signed.{mag};

use itoa::Buffer;
use sr_bytes::read_decimal;

/// The number that these digits write, with no leading zero.
pub(crate) fn number_of(digits: &[u8]) -> Option<usize>
    ensures found { IfSome result (λ n. decimal n ≡ digits.now) }
    ensures none { IfNone result ((n : ℕ) → n < 2 ^ 64 → decimal n ≢ digits.now) }
{
    let n = read_decimal(digits, 20)?;
    let mut own = Buffer::new();
    if own.format(n).as_bytes() == digits {
        Some(n as usize)
    } else {
        None
    }
}

/// The integer that these bytes write, with no leading zero, and no sign but a `-` before a number above 0.
pub(crate) fn integer_of(text: &[u8]) -> Option<i64>
    ensures found { IfSome result (λ n. signed_decimal n ≡ text.now) }
    ensures none { IfNone result ((n : ℤ) → mag n < 2 ^ 63 → signed_decimal n ≢ text.now) }
{
    match text {
        [b'-', digits @ ..] => {
            let above = number_of(digits)?.checked_sub(1)?;
            if above > i64::MAX as usize {
                return None;
            }
            Some(-1 - above as i64)
        }
        _ => {
            let n = number_of(text)?;
            if n > i64::MAX as usize {
                return None;
            }
            Some(n as i64)
        }
    }
}
