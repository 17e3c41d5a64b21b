//! Parts of a reply that are known before they are read.
ghost use Rattle.std.specs.Prelude.{◌^◌, ◌<◌, ℕ, List, pos, IfSome, IfNone};
ghost use Rattle.sr_ids.specs.{IsId};
ghost use Rattle.sr_resp.specs.Reply.{array_header, bulk_string, integer as integer_answer};
ghost use Rattle.sr_check.specs.PlanReply.{id_answer, share_answer};
ghost use Rattle.sr_check.specs.steps.Read.{Begins, gone_ids};

use crate::read::{bulk, header, integer};
use sr_bytes::Name;
use sr_ids::{Id, write_id};

/// The bytes after the header of an array with this many items, if some bytes begin with it.
pub(crate) fn after_header(bytes: &[u8], items: usize) -> Option<&[u8]>
    ensures found { IfSome result (λ after. Begins bytes.now (array_header items) after.now) }
    ensures none { IfNone result ((after : List ℕ) → Begins bytes.now (array_header items) after → ⊥) }
{
    let (n, after) = header(bytes)?;
    if n == items as u64 { Some(after) } else { None }
}

/// The bytes after this integer, if some bytes begin with it.
pub(crate) fn after_integer(bytes: &[u8], n: u64) -> Option<&[u8]>
    requires { n < 2 ^ 63 }
    ensures found { IfSome result (λ after. Begins bytes.now (integer_answer (pos n)) after.now) }
    ensures none { IfNone result ((after : List ℕ) → Begins bytes.now (integer_answer (pos n)) after → ⊥) }
{
    let (read, after) = integer(bytes)?;
    if read == n { Some(after) } else { None }
}

/// The bytes after a bulk string of these bytes, if some bytes begin with it.
pub(crate) fn after_bulk<'a>(bytes: &'a [u8], string: &[u8]) -> Option<&'a [u8]>
    ensures found { IfSome result (λ after. Begins bytes.now (bulk_string string.now) after.now) }
    ensures none { IfNone result ((after : List ℕ) → Begins bytes.now (bulk_string string.now) after → ⊥) }
{
    let (read, after) = bulk(bytes)?;
    if read == string { Some(after) } else { None }
}

/// The bytes after the spelling of an id as a bulk string, if some bytes begin with it.
pub(crate) fn after_id(bytes: &[u8], id: Id) -> Option<&[u8]>
    ensures found { IfSome result (λ after. Begins bytes.now (id_answer id) after.now) }
    ensures none { IfNone result ((after : List ℕ) → Begins bytes.now (id_answer id) after → ⊥) }
    ensures valid { IsId id }
{
    let mut text = [0; 41];
    let len = write_id(id, &mut text);
    after_bulk(bytes, &text[..len])
}

/// The bytes after a consumer's name and a number, if some bytes begin with an array of them.
pub(crate) fn after_share<'a>(bytes: &'a [u8], name: &Name, n: u64) -> Option<&'a [u8]>
    requires { n < 2 ^ 63 }
    ensures found { IfSome result (λ after. Begins bytes.now (share_answer (name.now, n)) after.now) }
    ensures none { IfNone result ((after : List ℕ) → Begins bytes.now (share_answer (name.now, n)) after → ⊥) }
{
    let items = after_header(bytes, 2)?;
    let number = after_bulk(items, name.as_slice())?;
    after_integer(number, n)
}

/// The bytes after an array of the ids of entries, if some bytes begin with it.
pub(crate) fn after_ids<'a>(bytes: &'a [u8], entries: &[(Id, Name)]) -> Option<&'a [u8]>
    ensures found { IfSome result (λ after. Begins bytes.now (gone_ids entries.now) after.now) }
    ensures none { IfNone result ((after : List ℕ) → Begins bytes.now (gone_ids entries.now) after → ⊥) }
{
    let mut left = after_header(bytes, entries.len())?;
    for (id, _) in entries {
        left = after_id(left, *id)?;
    }
    Some(left)
}
