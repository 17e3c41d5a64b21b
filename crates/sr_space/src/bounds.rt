ghost use Rattle.std.specs.Prelude.{◌≡◌, ◌^◌, ◌<◌};
ghost use Rattle.sr_space.specs.Bounds as bounds;

/// The number, or the greatest one of 63 bits if it is above that: so a moment or a count is read.
pub(crate) fn in_63_bits(n: u64) -> u64
    ensures value { result ≡ bounds.in_63_bits n }
    ensures bound { result < 2 ^ 63 }
{
    n.min(i64::MAX as u64)
}
