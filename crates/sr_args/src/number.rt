ghost use Rattle.std.specs.Prelude.{ℕ, ℤ, IfSome, IfNone};
ghost use Rattle.sr_args.specs.Number.{IsInt, IsNat, IsFromOne, IsTries, IsCount};

use sr_bytes::read_decimal;

/// How many rounds a recovery may make at most.
const MAX_TRIES: u64 = 16;

/// Which numbers COUNT takes.
#[derive(Clone, Copy)]
pub(crate) enum CountRange {
    /// Any of 64 bits with a sign.
    Any,
    /// Those from 1 on.
    FromOne,
}

/// The number that a word writes in 1 to 19 digits, after a `-` if it is below 0.
///
/// `None` if the word does not write one, or if it does not fit 64 bits with a sign.
pub(crate) fn read_int(word: &[u8]) -> Option<i64>
    ensures found { IfSome result (IsInt word.now) }
    ensures none { IfNone result ((z : ℤ) → IsInt word.now z → ⊥) }
{
    match word {
        [b'-', digits @ ..] => 0i64.checked_sub_unsigned(read_decimal(digits, 19)?),
        _ => i64::try_from(read_decimal(word, 19)?).ok(),
    }
}

/// The number that a word writes, if it is not below 0.
pub(crate) fn read_nat(word: &[u8]) -> Option<u64>
    ensures found { IfSome result (IsNat word.now) }
    ensures none { IfNone result ((n : ℕ) → IsNat word.now n → ⊥) }
{
    u64::try_from(read_int(word)?).ok()
}

/// The number that a word writes, if it is 1 or more.
fn read_from_one(word: &[u8]) -> Option<i64>
    ensures found { IfSome result (IsFromOne word.now) }
    ensures none { IfNone result ((z : ℤ) → IsFromOne word.now z → ⊥) }
{
    let number = read_int(word)?;
    if number < 1 {
        return None;
    }
    Some(number)
}

/// The number of rounds that a word writes: from 1 to 16.
pub(crate) fn read_tries(word: &[u8]) -> Option<u64>
    ensures found { IfSome result (IsTries word.now) }
    ensures none { IfNone result ((n : ℕ) → IsTries word.now n → ⊥) }
{
    let number = read_nat(word)?;
    if number < 1 || number > MAX_TRIES {
        return None;
    }
    Some(number)
}

/// The number that a word writes for COUNT.
pub(crate) fn read_count(range: CountRange, word: &[u8]) -> Option<i64>
    ensures found { IfSome result (IsCount range word.now) }
    ensures none { IfNone result ((z : ℤ) → IsCount range word.now z → ⊥) }
{
    match range {
        CountRange::Any => read_int(word),
        CountRange::FromOne => read_from_one(word),
    }
}
