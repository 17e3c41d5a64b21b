ghost use Rattle.std.specs.Prelude.{◌≡◌, ◌≤◌, take, drop};
ghost use Rattle.sr_ids.specs.Spelling.{SpellsId, spelling};

use crate::Id;
use itoa::Buffer;

/// Writes the spelling of an id to the front of `out`, and returns its length.
///
/// Replies use this spelling: both parts, and no leading zeros. `parse_strict` reads it back.
///
/// Source: Redis documentation, "Streams", section "Entry IDs".
pub fn write_id(id: Id, out: &mut [u8; 41]) -> usize
    ensures short { result ≤ 41 }
    ensures text { take result out.new ≡ spelling id }
    ensures rest { drop result out.new ≡ drop result out.old }
    ensures read_back { SpellsId 0 (take result out.new) id }
{
    let mut buffer = Buffer::new();
    let ms = buffer.format(id.ms).as_bytes();
    let mut buffer = Buffer::new();
    let seq = buffer.format(id.seq).as_bytes();
    let dash = ms.len();
    let len = dash + 1 + seq.len();
    out[..dash].copy_from_slice(ms);
    out[dash] = b'-';
    out[dash + 1..len].copy_from_slice(seq);
    len
}
