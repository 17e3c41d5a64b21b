ghost use Rattle.std.specs.Prelude.{◌≡◌, IsSome, IsNone};
ghost use Rattle.sr_start.specs.Files.{HasFiles, LacksFiles};

use crate::network::Network;
use sr_options::Way;

/// How many files the program keeps for itself, beside those of the connections: standard input, output and error, the
/// listener, the poll and its waker, and a connection that is turned away are among them.
pub(crate) const OWN_FILES: u64 = 16;

/// How many files the process may open, if these are too few for this way of serving.
pub(crate) fn too_few_files<N: Network>(network: &N, way: Way) -> Option<u64>
    ensures some { IsSome result → LacksFiles N.may_open way }
    ensures none { IsNone result → HasFiles N.may_open way }
{
    match way {
        Way::Workers(_) => None,
        Way::Loop(looping) => match network.most_files() {
            Some(most) if most < looping.connections as u64 + OWN_FILES => Some(most),
            _ => None,
        },
    }
}
