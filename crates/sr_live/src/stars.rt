//! Names with a star: which name of a policy is for a consumer.
ghost use Rattle.std.specs.Prelude.{◌≡◌, ◌+◌, ◌<◌, length, map, true, IsTrue};
ghost use Rattle.sr_live.specs.Stars.{IsFor, IsLongest, StandsFor, key_at};

/// The number of the name that is for a consumer, among the names of a table of a policy: its own; or, if none is, the
/// longest one that ends in `*` and stands for it, since its name begins with what is before the star. `None` if none
/// does.
///
/// Source: docs/POLICY.md.
pub fn key_for(keys: &[&[u8]], consumer: &[u8]) -> Option<usize>
    ensures { IsFor (map (λ key. key.now) keys.now) consumer.now result }
{
    let mut found = None;
    for at in 0..keys.len() {
        if keys[at] == consumer {
            return Some(at);
        }
        found = longer(keys, consumer, found, at);
    }
    found
}

/// The longest name of those up to this one that stands for the consumer, if the other is the longest before it.
fn longer(keys: &[&[u8]], consumer: &[u8], found: Option<usize>, at: usize) -> Option<usize>
    requires within { at < length keys.now }
    ensures { IsLongest (map (λ key. key.now) keys.now) consumer.now at found
        → IsLongest (map (λ key. key.now) keys.now) consumer.now (at + 1) result }
{
    if !stands_for(keys[at], consumer) {
        return found;
    }
    match found {
        Some(before) if before < at && keys[before].len() >= keys[at].len() => Some(before),
        _ => Some(at),
    }
}

/// Whether the name ends in a star, and the consumer's begins with what is before it.
fn stands_for(key: &[u8], consumer: &[u8]) -> bool
    ensures yes { IsTrue result → StandsFor key.now consumer.now }
    ensures no { StandsFor key.now consumer.now → result ≡ true }
{
    match key.strip_suffix(b"*") {
        Some(start) => consumer.starts_with(start),
        None => false,
    }
}
