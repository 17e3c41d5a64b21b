ghost use Rattle.std.specs.Prelude.{◌≡◌, ◌^◌, ◌<◌, ◌++◌, pos, length, map, reverse, IfOk, OnOk};
ghost use Rattle.std.specs.List.{flat_map};
ghost use Rattle.sr_ids.specs.{spelling};
ghost use Rattle.sr_resp.specs.{array_header, array_of, bulk_string, integer};
ghost use Rattle.sr_space.specs.EntryReply.{entry_answer, pairs_answer};

use sr_bytes::Pairs;
use sr_entries::{EntryRef, Span};
use sr_ids::{Id, write_id};
use sr_resp::{Draft, Reply};
use std::alloc::{AllocError, Global};

/// The room that is made for an entry beforehand, in bytes: enough for one short field. More is taken as it is needed.
const USUAL_ENTRY: usize = 64;

/// The id as a bulk string. Takes no memory.
pub(crate) fn id_reply(alloc: Global, id: Id) -> Reply
    ensures { result ≡ bulk_string (spelling id) }
{
    Reply::id(alloc, id)
}

/// The number as an integer. Takes no memory.
pub(crate) fn number_reply(alloc: Global, n: u64) -> Reply
    requires { n < 2 ^ 63 }
    ensures { result ≡ integer (pos n) }
{
    Reply::int(alloc, n as i64)
}

/// Entries as an array of them, in the order in which they lie.
pub(crate) fn entries_reply(alloc: Global, mut entries: Span<'_>) -> Result<Reply, AllocError>
    ensures { IfOk result (λ reply. reply ≡ array_of (map entry_answer entries.entry)) }
{
    let mut draft = draft_for(alloc, &entries)?;
    while let Some(entry) = entries.next() {
        write_entry(&mut draft, &entry)?;
    }
    Ok(draft.finish())
}

/// Entries as an array of them, the last first.
pub(crate) fn newest_first_reply(alloc: Global, mut entries: Span<'_>) -> Result<Reply, AllocError>
    ensures { IfOk result (λ reply. reply ≡ array_of (map entry_answer (reverse entries.entry))) }
{
    let mut draft = draft_for(alloc, &entries)?;
    while let Some(entry) = entries.next_back() {
        write_entry(&mut draft, &entry)?;
    }
    Ok(draft.finish())
}

/// An entry as an array of its id and its fields with their values.
pub(crate) fn entry_reply(alloc: Global, entry: &EntryRef<'_>) -> Result<Reply, AllocError>
    ensures { IfOk result (λ reply. reply ≡ entry_answer entry.now) }
{
    let fields = fields_reply(alloc, entry)?;
    Reply::array(alloc, [id_reply(alloc, entry.id()), fields])
}

/// The fields of an entry with their values, as one array.
fn fields_reply(alloc: Global, entry: &EntryRef<'_>) -> Result<Reply, AllocError>
    ensures { IfOk result (λ reply. reply ≡ pairs_answer entry.now.fields) }
{
    let pairs = entry.fields();
    let mut draft = Draft::array(alloc, 2 * pairs.len());
    write_pairs(&mut draft, pairs)?;
    Ok(draft.finish())
}

/// The header of an array of these entries, with room for them.
fn draft_for(alloc: Global, entries: &Span<'_>) -> Result<Draft, AllocError>
    ensures { IfOk result (λ draft. draft ≡ array_header (length entries.now)) }
{
    let room = entries.len().saturating_mul(USUAL_ENTRY);
    Draft::with_room(alloc, entries.len(), room)
}

/// Adds an entry to a draft as an array of its id and its fields with their values.
fn write_entry(draft: &mut Draft, entry: &EntryRef<'_>) -> Result<(), AllocError>
    ensures { OnOk result (draft.new ≡ draft.old ++ entry_answer entry.now) }
{
    let mut text = [0; 41];
    let len = write_id(entry.id(), &mut text);
    let pairs = entry.fields();
    draft.header(2)?;
    draft.bulk(&text[..len])?;
    draft.header(2 * pairs.len())?;
    write_pairs(draft, pairs)
}

/// Adds fields to a draft, each followed by its value.
fn write_pairs(draft: &mut Draft, mut pairs: Pairs<'_>) -> Result<(), AllocError>
    ensures { OnOk result (draft.new
        ≡ draft.old ++ flat_map (λ pair. bulk_string pair.0 ++ bulk_string pair.1) pairs.entry) }
{
    while let Some((field, value)) = pairs.next() {
        draft.bulk(field)?;
        draft.bulk(value)?;
    }
    Ok(())
}
