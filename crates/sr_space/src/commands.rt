ghost use Rattle.std.specs.Prelude.{◌≡◌};
ghost use Rattle.std.specs.Option.{option_copied};
ghost use Rattle.sr_space.specs.Effect as spec;

pub(crate) mod ping;
pub(crate) mod xack;
pub(crate) mod xadd;
pub(crate) mod xclaim;
pub(crate) mod xdel;
pub(crate) mod xgroup;
pub(crate) mod xinfo;
pub(crate) mod xlen;
pub(crate) mod xpending;
pub(crate) mod xrange;
pub(crate) mod xread;
pub(crate) mod xreadgroup;
pub(crate) mod xtrim;

use sr_args::Call;
use sr_bytes::Name;

/// The key of a call that names one and no other. Takes no memory.
pub fn key_of(call: &Call) -> Option<&Name>
    ensures { option_copied result ≡ spec.key_of call.now }
{
    match call {
        Call::Ping(_) => None,
        Call::Xadd(call) => Some(&call.key),
        Call::Xtrim(call) => Some(&call.key),
        Call::Xdel(call) => Some(&call.key),
        Call::Xlen(call) => Some(&call.key),
        Call::Xrange(call) => Some(&call.key),
        Call::Xrevrange(call) => Some(&call.key),
        Call::Xack(call) => Some(&call.key),
        Call::XgroupCreate(call) => Some(&call.key),
        Call::XgroupSetId(call) => Some(&call.key),
        Call::XgroupDestroy(call) => Some(&call.key),
        Call::XgroupCreateConsumer(call) => Some(&call.key),
        Call::XgroupDelConsumer(call) => Some(&call.key),
        Call::XinfoStream(call) => Some(&call.key),
        Call::XinfoGroups(call) => Some(&call.key),
        Call::XinfoConsumers(call) => Some(&call.key),
        Call::Xautoclaim(call) => Some(&call.key),
        Call::Xclaim(call) => Some(&call.key),
        Call::Xpending(call) => Some(&call.key),
        Call::Xread(call) => only_key(call.streams.as_slice()),
        Call::Xreadgroup(call) => only_key(call.streams.as_slice()),
    }
}

/// The key of the only stream.
fn only_key<X>(streams: &[(Name, X)]) -> Option<&Name>
    ensures { option_copied result ≡ spec.only_key streams.now }
{
    match streams {
        [stream] => Some(&stream.0),
        _ => None,
    }
}
