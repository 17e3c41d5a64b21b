ghost use Rattle.std.specs.Prelude.{ℕ, ◌^◌, ◌<◌, IfSome, IfNone};
ghost use Rattle.sr_bytes.specs.Decimal.{IsDecimal};

/// The number that these bytes write in 1 to `most` decimal digits, leading zeros allowed.
///
/// `None` if the bytes are not such digits, or if the number does not fit 64 bits.
pub fn read_decimal(digits: &[u8], most: usize) -> Option<u64>
    ensures found { IfSome result (IsDecimal most digits.now) }
    ensures none { IfNone result ((n : ℕ) → n < 2 ^ 64 → IsDecimal most digits.now n → ⊥) }
{
    if digits.is_empty() || digits.len() > most {
        return None;
    }
    let mut n: u64 = 0;
    for digit in digits {
        let value = char::from(*digit).to_digit(10)?;
        n = n.checked_mul(10)?.checked_add(u64::from(value))?;
    }
    Some(n)
}
