ghost use Rattle.std.specs.Prelude.{◌≡◌};
ghost use Rattle.sr_policy.specs.Rules.{weight_of as weight};

use crate::bounds::MAX_WEIGHT;
use sr_bytes::Pairs;

/// The weight of an entry with these fields: how many bytes its fields and values have, but at least 1 and at most
/// 2^20. It takes no memory.
pub fn weight_of(mut fields: Pairs<'_>) -> u64
    ensures { result ≡ weight fields.entry }
{
    let mut size: u64 = 0;
    while let Some((field, value)) = fields.next() {
        let more = (field.len() as u64).saturating_add(value.len() as u64);
        size = size.saturating_add(more).min(MAX_WEIGHT);
    }
    size.max(1)
}
