//! What the replies of Redis say of a group.
ghost use Rattle.std.specs.Prelude.{◌≡◌, ◌+◌, ◌++◌, ◌∷◌, ◌*◌, [], ℕ, List, pos, codes, decimal, length, option_map};
ghost use Rattle.std.specs.Prelude.{IfErr, IfOk, IfSome, OnOk};
ghost use Rattle.sr_ids.specs.{SpellsId};
ghost use Rattle.sr_policy.specs.Rules.{value_at};
ghost use Rattle.sr_peer.specs.Reply as wire;
ghost use Rattle.sr_peer.specs.{Array, Bulk, Int, part_of};
ghost use Rattle.sr_peer.specs.Reply.{items_of};
ghost use Rattle.sr_live.specs.Conclusion.{SaysConcluded};
ghost use Rattle.sr_live.specs.declared.said.Misread.TheVariants.{Memory};
ghost use Rattle.sr_live.specs.steps.Misread.{Conclude, ConcludeAfter, HaveInteger, HaveItems, HaveNatural, HaveText};
ghost use Rattle.sr_live.specs.steps.Misread.{IsMisread, IsUnlike, Tells, TellsNone};
ghost use Rattle.sr_live.specs.Said.{AreEntries, IsEntry, IsFront, IsPendingRow, SaysConsumer, SaysEntry, SaysIdle};
ghost use Rattle.sr_live.specs.Said.{SaysNumbers, SaysPending, SaysRemoved, consumer_parts, fields_parts, number_parts};
ghost use Rattle.sr_live.specs.Said.{pairs_parts};

use crate::conclusion::Concluded;
use itoa::Buffer;
use sr_bytes::{Fields, Name, read_decimal};
use sr_ids::{Id, parse_strict};
use sr_peer::{Part, Parts};
use std::alloc::{AllocError, AllocFailed, Global};

/// Why a reply says nothing.
#[derive(Drop)]
pub(crate) enum Misread {
    /// A failed allocation.
    Memory,
    /// It is an error, with this text.
    ErrorReply(Name),
    /// It has another shape.
    Shape,
}

impl From<AllocError> for Misread {
    ghost from_gives = { λ _ misread. misread ≡ Memory };

    fn from(_: AllocError) -> Misread {
        Misread::Memory
    }
}

impl<T: Drop> From<AllocFailed<T>> for Misread {
    ghost from_gives = { λ _ misread. misread ≡ Memory };

    fn from(_: AllocFailed<T>) -> Misread {
        Misread::Memory
    }
}

/// How many entries are pending for each consumer that has any, as XPENDING replies of a whole group.
///
/// Source: Redis documentation, command XPENDING.
pub(crate) fn numbers_said(alloc: Global, mut parts: Parts<'_>) -> Result<Vec<(Name, u64)>, Misread>
    ensures ok { IfOk result (λ numbers. SaysNumbers parts.entry numbers.items) }
    ensures err { IfErr result (Tells parts.entry) }
{
    let count = front_said(alloc, &mut parts)?;
    let mut numbers = Vec::new(alloc);
    for _ in 0..count {
        numbers.push(number_said(alloc, &mut parts)?)?;
    }
    end(&mut parts)?;
    Ok(numbers)
}

/// How many consumers follow what is said of the whole group.
fn front_said(alloc: Global, parts: &mut Parts<'_>) -> Result<usize, Misread>
    ensures ok { IfOk result (λ count. (front : List wire.Part) × IsFront front count
        × (parts.old ≡ front ++ parts.new)) }
    ensures err { IfErr result (Tells parts.old) }
{
    if header(alloc, parts)? != 4 {
        return Err(Misread::Shape);
    }
    integer(parts)?;
    match parts.next() {
        Some(Part::Bulk(_least)) => {
            string(parts)?;
            header(alloc, parts)
        }
        Some(Part::NullBulk) => none_said(parts),
        _ => Err(Misread::Shape),
    }
}

/// No greatest id either, and no consumers.
fn none_said(parts: &mut Parts<'_>) -> Result<usize, Misread>
    ensures ok { IfOk result (λ count. (count ≡ 0) × (parts.old ≡ wire.NullBulk ∷ wire.NullArray ∷ parts.new)) }
    ensures err { IfErr result TellsNone }
{
    let greatest = parts.next();
    match (greatest, parts.next()) {
        (Some(Part::NullBulk), Some(Part::NullArray)) => Ok(0),
        _ => Err(Misread::Shape),
    }
}

/// The name of the next consumer, and how many entries are pending for it.
fn number_said(alloc: Global, parts: &mut Parts<'_>) -> Result<(Name, u64), Misread>
    ensures ok { IfOk result (λ number. parts.old ≡ number_parts number ++ parts.new) }
    ensures err { IfErr result (Tells parts.old) }
{
    if header(alloc, parts)? != 2 {
        return Err(Misread::Shape);
    }
    let name = name_of(alloc, string(parts)?)?;
    match written(string(parts)?) {
        Some(number) => Ok((name, number)),
        None => Err(Misread::Shape),
    }
}

/// The number that these digits write, with no leading zero.
fn written(digits: &[u8]) -> Option<u64>
    ensures { IfSome result (λ n. decimal n ≡ digits.now) }
{
    let n = read_decimal(digits, 20)?;
    let mut own = Buffer::new();
    if own.format(n).as_bytes() == digits {
        Some(n)
    } else {
        None
    }
}

/// For how many milliseconds each consumer has been idle, as XINFO CONSUMERS replies.
///
/// Source: Redis documentation, command XINFO CONSUMERS.
pub(crate) fn idles_said(alloc: Global, mut parts: Parts<'_>) -> Result<Vec<(Name, u64)>, Misread>
    ensures ok { IfOk result (λ idles. SaysIdle parts.entry idles.items) }
    ensures err { IfErr result (Tells parts.entry) }
{
    let count = header(alloc, &mut parts)?;
    let mut idles = Vec::new(alloc);
    for _ in 0..count {
        idles.push(consumer_said(alloc, &mut parts)?)?;
    }
    end(&mut parts)?;
    Ok(idles)
}

/// The name of the next consumer, and for how long it has been idle.
fn consumer_said(alloc: Global, parts: &mut Parts<'_>) -> Result<(Name, u64), Misread>
    ensures ok { IfOk result (λ consumer. (fields : List (List ℕ × wire.Part)) × SaysConsumer fields consumer
        × (parts.old ≡ consumer_parts fields ++ parts.new)) }
    ensures err { IfErr result (Tells parts.old) }
{
    let places = header(alloc, parts)?;
    if places % 2 != 0 {
        return Err(Misread::Shape);
    }
    let found = fields_found(parts, places / 2)?;
    match (found.name, found.idle) {
        (Some(Part::Bulk(name)), Some(Part::Int(idle))) => idle_of(name_of(alloc, name)?, idle),
        _ => Err(Misread::Shape),
    }
}

/// The consumer with this idle time, if that is not below 0.
fn idle_of(name: Name, idle: i64) -> Result<(Name, u64), Misread>
    ensures ok { IfOk result (λ consumer. (consumer.0 ≡ name) × (pos consumer.1 ≡ idle)) }
    ensures err { IfErr result TellsNone }
{
    if idle < 0 {
        return Err(Misread::Shape);
    }
    Ok((name, idle as u64))
}

/// What the fields of a consumer say, as far as they are asked for.
#[derive(Drop)]
struct Found<'a> {
    /// The value of `name`.
    name: Option<Part<'a>>,
    /// The value of `idle`.
    idle: Option<Part<'a>>,
}

/// What the next fields say, which are so many.
fn fields_found<'a>(parts: &mut Parts<'a>, count: usize) -> Result<Found<'a>, Misread>
    ensures ok { IfOk result (λ found. (fields : List (List ℕ × wire.Part)) × (length fields ≡ count)
        × (option_map part_of found.name ≡ value_at (codes "name") fields)
        × (option_map part_of found.idle ≡ value_at (codes "idle") fields)
        × (parts.old ≡ fields_parts fields ++ parts.new)) }
    ensures err { IfErr result TellsNone }
{
    let mut found = Found {
        name: None,
        idle: None,
    };
    for _ in 0..count {
        let (field, value) = field_said(parts)?;
        found = with_field(found, field, value);
    }
    Ok(found)
}

/// What is found with one more field: the first of a name counts.
fn with_field<'a>(found: Found<'a>, field: &[u8], value: Part<'a>) -> Found<'a>
    ensures name { (fields : List (List ℕ × wire.Part))
        → option_map part_of found.entry.name ≡ value_at (codes "name") fields
        → option_map part_of result.name
        ≡ value_at (codes "name") (fields ++ (field.now, part_of value.entry) ∷ []) }
    ensures idle { (fields : List (List ℕ × wire.Part))
        → option_map part_of found.entry.idle ≡ value_at (codes "idle") fields
        → option_map part_of result.idle
        ≡ value_at (codes "idle") (fields ++ (field.now, part_of value.entry) ∷ []) }
{
    Found {
        name: first_of(found.name, b"name", field, value),
        idle: first_of(found.idle, b"idle", field, value),
    }
}

/// The value of the first field with this name: the one before, if there is one, or else the value of this field, if it
/// has the name.
fn first_of<'a>(
    before: Option<Part<'a>>,
    name: &[u8],
    field: &[u8],
    value: Part<'a>,
) -> Option<Part<'a>>
    ensures { (fields : List (List ℕ × wire.Part)) → option_map part_of before.entry ≡ value_at name.now fields
        → option_map part_of result ≡ value_at name.now (fields ++ (field.now, part_of value.entry) ∷ []) }
{
    if name == field {
        before.or(Some(value))
    } else {
        before
    }
}

/// The next field with its value, which is one part.
fn field_said<'a>(parts: &mut Parts<'a>) -> Result<(&'a [u8], Part<'a>), Misread>
    ensures ok { IfOk result (λ field. parts.old ≡ Bulk field.0.now ∷ part_of field.1 ∷ parts.new) }
    ensures err { IfErr result TellsNone }
{
    let field = string(parts)?;
    match parts.next() {
        Some(value) => Ok((field, value)),
        None => Err(Misread::Shape),
    }
}

/// What the fields of a stream say, as far as they are asked for.
#[derive(Drop)]
struct Counts<'a> {
    /// The value of `length`.
    kept: Option<Part<'a>>,
    /// The value of `entries-added`.
    added: Option<Part<'a>>,
}

/// How many entries were removed from a stream since it was made, as XINFO STREAM replies. What comes after the two
/// fields that count is not read.
///
/// Source: Redis documentation, command XINFO STREAM.
pub(crate) fn removed_said(alloc: Global, mut parts: Parts<'_>) -> Result<u64, Misread>
    ensures ok { IfOk result (SaysRemoved parts.entry) }
    ensures err { IfErr result (Tells parts.entry) }
{
    let places = header(alloc, &mut parts)?;
    let mut counts = Counts {
        kept: None,
        added: None,
    };
    for _ in 0..places / 2 {
        let (field, value) = plain_said(&mut parts)?;
        counts = with_count(counts, field, value);
        if let (Some(Part::Int(kept)), Some(Part::Int(added))) = (counts.kept, counts.added) {
            return difference(kept, added);
        }
    }
    Err(Misread::Shape)
}

/// The next field with its value, which has no items.
fn plain_said<'a>(parts: &mut Parts<'a>) -> Result<(&'a [u8], Part<'a>), Misread>
    ensures next { IfOk result (λ field. parts.old ≡ Bulk field.0.now ∷ part_of field.1 ∷ parts.new) }
    ensures plain { IfOk result (λ field. items_of (part_of field.1) ≡ 0) }
    ensures err { IfErr result TellsNone }
{
    let (field, value) = field_said(parts)?;
    match value {
        Part::Array(_) => Err(Misread::Shape),
        _ => Ok((field, value)),
    }
}

/// What is found with one more field: the first of a name counts.
fn with_count<'a>(counts: Counts<'a>, field: &[u8], value: Part<'a>) -> Counts<'a>
    ensures kept { (fields : List (List ℕ × wire.Part))
        → option_map part_of counts.entry.kept ≡ value_at (codes "length") fields
        → option_map part_of result.kept ≡ value_at (codes "length") (fields ++ (field.now, part_of value.entry) ∷ []) }
    ensures added { (fields : List (List ℕ × wire.Part))
        → option_map part_of counts.entry.added ≡ value_at (codes "entries-added") fields
        → option_map part_of result.added
        ≡ value_at (codes "entries-added") (fields ++ (field.now, part_of value.entry) ∷ []) }
{
    Counts {
        kept: first_of(counts.kept, b"length", field, value),
        added: first_of(counts.added, b"entries-added", field, value),
    }
}

/// How many more were added than there are.
fn difference(kept: i64, added: i64) -> Result<u64, Misread>
    ensures ok { IfOk result (λ removed. (there : ℕ) × (all : ℕ) × (pos there ≡ kept) × (pos all ≡ added)
        × (there + removed ≡ all)) }
    ensures err { IfErr result TellsNone }
{
    if kept < 0 || added < kept {
        return Err(Misread::Shape);
    }
    Ok((added - kept) as u64)
}

/// The entries that are pending for the owner, as XPENDING replies with a consumer, each with how often it has been
/// delivered.
///
/// Source: Redis documentation, command XPENDING.
pub(crate) fn pending_said(
    alloc: Global,
    mut parts: Parts<'_>,
    owner: &Name,
) -> Result<Vec<(Id, u64)>, Misread>
    ensures ok { IfOk result (λ entries. SaysPending parts.entry owner.now entries.items) }
    ensures err { IfErr result (Tells parts.entry) }
{
    let count = header(alloc, &mut parts)?;
    let mut entries = Vec::new(alloc);
    for _ in 0..count {
        entries.push(row_said(alloc, &mut parts, owner)?)?;
    }
    end(&mut parts)?;
    Ok(entries)
}

/// The next entry that is pending, if it is for the owner: its id, and how often it has been delivered.
fn row_said(alloc: Global, parts: &mut Parts<'_>, owner: &Name) -> Result<(Id, u64), Misread>
    ensures ok { IfOk result (λ entry. (front : List wire.Part) × IsPendingRow front entry owner.now
        × (parts.old ≡ front ++ parts.new)) }
    ensures err { IfErr result (Tells parts.old) }
{
    if header(alloc, parts)? != 4 {
        return Err(Misread::Shape);
    }
    let id = id_said(parts)?;
    if string(parts)? != owner.as_slice() {
        return Err(Misread::Shape);
    }
    integer(parts)?;
    let deliveries = natural(parts)?;
    Ok((id, deliveries))
}

/// The fields of the entry with this id, as XRANGE from it to it replies. `None` if there is none.
///
/// Source: Redis documentation, command XRANGE.
pub(crate) fn entry_said(
    alloc: Global,
    parts: &mut Parts<'_>,
    id: Id,
) -> Result<Option<Fields>, Misread>
    ensures ok { IfOk result (λ fields. (front : List wire.Part) × SaysEntry front id fields
        × (parts.old ≡ front ++ parts.new)) }
    ensures err { IfErr result (Tells parts.old) }
{
    match header(alloc, parts)? {
        0 => Ok(None),
        1 => Ok(Some(fields_said(alloc, parts, id)?)),
        _ => Err(Misread::Shape),
    }
}

/// The fields of the next entry, if it has this id.
fn fields_said(alloc: Global, parts: &mut Parts<'_>, id: Id) -> Result<Fields, Misread>
    ensures ok { IfOk result (λ fields. (text : List ℕ) × SpellsId 0 text id
        × (parts.old ≡ Array 2 ∷ Bulk text ∷ Array (2 * length fields) ∷ pairs_parts fields ++ parts.new)) }
    ensures err { IfErr result (Tells parts.old) }
{
    let (found, fields) = listed_said(alloc, parts)?;
    if found != id {
        return Err(Misread::Shape);
    }
    Ok(fields)
}

/// The entries that XRANGE lists, each with its fields.
///
/// Source: Redis documentation, command XRANGE.
pub(crate) fn entries_said(
    alloc: Global,
    mut parts: Parts<'_>,
) -> Result<Vec<(Id, Fields)>, Misread>
    ensures ok { IfOk result (λ entries. (body : List wire.Part) × AreEntries body entries.items
        × (parts.entry ≡ Array (length entries.items) ∷ body)) }
    ensures err { IfErr result (Tells parts.entry) }
{
    let count = header(alloc, &mut parts)?;
    let mut entries = Vec::new(alloc);
    for _ in 0..count {
        entries.push(listed_said(alloc, &mut parts)?)?;
    }
    end(&mut parts)?;
    Ok(entries)
}

/// The next entry, with its fields.
fn listed_said(alloc: Global, parts: &mut Parts<'_>) -> Result<(Id, Fields), Misread>
    ensures ok { IfOk result (λ entry. (front : List wire.Part) × IsEntry front entry
        × (parts.old ≡ front ++ parts.new)) }
    ensures err { IfErr result (Tells parts.old) }
{
    if header(alloc, parts)? != 2 {
        return Err(Misread::Shape);
    }
    let id = id_said(parts)?;
    let places = header(alloc, parts)?;
    if places % 2 != 0 {
        return Err(Misread::Shape);
    }
    Ok((id, pairs_said(alloc, parts, places / 2)?))
}

/// The next fields with their values, which are so many.
fn pairs_said(alloc: Global, parts: &mut Parts<'_>, count: usize) -> Result<Fields, Misread>
    ensures ok { IfOk result (λ fields. (length fields ≡ count) × (parts.old ≡ pairs_parts fields ++ parts.new)) }
    ensures err { IfErr result TellsNone }
{
    let mut fields = Fields::new(alloc);
    for _ in 0..count {
        let field = string(parts)?;
        let value = string(parts)?;
        fields.add(field, value)?;
    }
    Ok(fields)
}

/// The number of items of the next array.
fn header(alloc: Global, parts: &mut Parts<'_>) -> Result<usize, Misread>
    ensures ok { IfOk result (λ count. parts.old ≡ Array count ∷ parts.new) }
    ensures err { IfErr result (IsMisread (HaveItems parts.old) parts.old) }
    ensures told { IfErr result (Tells parts.old) }
{
    match parts.next() {
        Some(Part::Array(count)) => Ok(count),
        Some(Part::Error(text)) => Err(Misread::ErrorReply(name_of(alloc, text)?)),
        _ => Err(Misread::Shape),
    }
}

/// The next bulk string.
fn string<'a>(parts: &mut Parts<'a>) -> Result<&'a [u8], Misread>
    ensures ok { IfOk result (λ text. parts.old ≡ Bulk text.now ∷ parts.new) }
    ensures err { IfErr result (IsUnlike (HaveText parts.old)) }
{
    match parts.next() {
        Some(Part::Bulk(text)) => Ok(text),
        _ => Err(Misread::Shape),
    }
}

/// The next integer.
fn integer(parts: &mut Parts<'_>) -> Result<i64, Misread>
    ensures ok { IfOk result (λ number. parts.old ≡ Int number ∷ parts.new) }
    ensures err { IfErr result (IsUnlike (HaveInteger parts.old)) }
{
    match parts.next() {
        Some(Part::Int(number)) => Ok(number),
        _ => Err(Misread::Shape),
    }
}

/// The next id.
fn id_said(parts: &mut Parts<'_>) -> Result<Id, Misread>
    ensures ok { IfOk result (λ id. (text : List ℕ) × SpellsId 0 text id × (parts.old ≡ Bulk text ∷ parts.new)) }
    ensures err { IfErr result TellsNone }
{
    match parse_strict(string(parts)?) {
        Some(id) => Ok(id),
        None => Err(Misread::Shape),
    }
}

/// A name of these bytes.
fn name_of(alloc: Global, text: &[u8]) -> Result<Name, AllocError>
    ensures { IfOk result (λ name. name ≡ text.now) }
{
    Ok(Name::new(Vec::from_slice(alloc, text)?))
}

/// Nothing is left.
pub(crate) fn end(parts: &mut Parts<'_>) -> Result<(), Misread>
    ensures ok { OnOk result (parts.old ≡ []) }
    ensures err { IfErr result (IsUnlike (parts.old ≡ [])) }
{
    match parts.next() {
        None => Ok(()),
        Some(_) => Err(Misread::Shape),
    }
}

/// What came of a script, as it replies.
///
/// Source: docs/LIVE.md.
pub(crate) fn conclusion_said(alloc: Global, mut parts: Parts<'_>) -> Result<Concluded, Misread>
    ensures ok { IfOk result (SaysConcluded parts.entry) }
    ensures err { IfErr result (IsMisread (Conclude parts.entry) parts.entry) }
{
    if header(alloc, &mut parts)? != 3 {
        return Err(Misread::Shape);
    }
    let word = string(&mut parts)?;
    if word == b"done".as_slice() {
        return done_said(&mut parts);
    }
    if word == b"stale".as_slice() {
        return stale_said(alloc, &mut parts);
    }
    Err(Misread::Shape)
}

/// How many entries were claimed, and the gap.
fn done_said(parts: &mut Parts<'_>) -> Result<Concluded, Misread>
    ensures ok { IfOk result (λ said. SaysConcluded (Array 3 ∷ Bulk (codes "done") ∷ parts.old) said) }
    ensures err { IfErr result (IsUnlike (ConcludeAfter (codes "done") parts.old)) }
{
    let claimed = natural(parts)?;
    let gap = natural(parts)?;
    end(parts)?;
    Ok(Concluded::Done { claimed, gap })
}

/// What is not as it was looked up, and of what.
fn stale_said(alloc: Global, parts: &mut Parts<'_>) -> Result<Concluded, Misread>
    ensures ok { IfOk result (λ said. SaysConcluded (Array 3 ∷ Bulk (codes "stale") ∷ parts.old) said) }
    ensures err { IfErr result (IsUnlike (ConcludeAfter (codes "stale") parts.old)) }
{
    let what = name_of(alloc, string(parts)?)?;
    let of = name_of(alloc, string(parts)?)?;
    end(parts)?;
    Ok(Concluded::Stale { what, of })
}

/// The next integer, if it is not below 0.
fn natural(parts: &mut Parts<'_>) -> Result<u64, Misread>
    ensures ok { IfOk result (λ number. parts.old ≡ Int (pos number) ∷ parts.new) }
    ensures err { IfErr result (IsUnlike (HaveNatural parts.old)) }
{
    let number = integer(parts)?;
    if number < 0 {
        return Err(Misread::Shape);
    }
    Ok(number as u64)
}
