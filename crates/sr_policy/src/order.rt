ghost use Rattle.std.specs.Prelude.{◌≡◌};
ghost use Rattle.sr_bytes.specs.{comes_before};

use sr_bytes::Name;

/// Whether a name comes before another in byte order, as `Name::comes_before` answers. It goes byte by byte, which
/// takes less for names of a few bytes, as those of classes and consumers mostly are.
pub fn is_before(name: &Name, other: &Name) -> bool
    ensures { result ≡ comes_before name.now other.now }
{
    are_before(name.as_slice(), other.as_slice())
}

/// Whether bytes come before others.
fn are_before(bytes: &[u8], others: &[u8]) -> bool
    ensures { result ≡ comes_before bytes.now others.now }
{
    for (place, byte) in bytes.iter().enumerate() {
        let Some(other) = others.get(place) else {
            return false;
        };
        if *byte != *other {
            return *byte < *other;
        }
    }
    bytes.len() < others.len()
}
