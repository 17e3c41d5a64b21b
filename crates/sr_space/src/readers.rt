//! Which keys a waiting read asks, and which calls are reads.
ghost use Rattle.std.specs.Prelude.{◌≡◌};
ghost use Rattle.sr_space.specs.Readers as readers;

use sr_args::Call;
use sr_bytes::Name;

/// Whether a waiting read asks the stream at a key. Takes no memory.
pub fn asks(read: &Call, key: &Name) -> bool
    ensures { result ≡ readers.asks key.now read.now }
{
    match read {
        Call::Xread(read) => has_key(read.streams.as_slice(), key),
        Call::Xreadgroup(read) => has_key(read.streams.as_slice(), key),
        _ => true,
    }
}

/// Whether one of the streams has the key.
fn has_key<X>(streams: &[(Name, X)], key: &Name) -> bool
    ensures { result ≡ readers.has_key key.now streams.now }
{
    streams.iter().any(|stream| stream.0 == *key)
}

/// Whether a call is a read of streams. Takes no memory.
pub fn is_read(call: &Call) -> bool
    ensures { result ≡ readers.is_read call.now }
{
    matches!(call, Call::Xread(_) | Call::Xreadgroup(_))
}
