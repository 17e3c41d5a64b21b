ghost use Rattle.std.specs.Prelude.{◌≡◌, ℕ, List, IfSome, IfNone};
ghost use Rattle.sr_ids.specs.declared.id.Id as ids;
ghost use Rattle.sr_ids.specs.declared.spec.Spec as specs;
ghost use Rattle.sr_ids.specs.Spec.{IsSpec};
ghost use Rattle.sr_ids.specs.Spelling.{SpellsId, IsStart, IsEnd};

use crate::next::{id_before, succ};
use crate::{Id, Spec};
use sr_bytes::read_decimal;

const LEAST: Id = Id { ms: 0, seq: 0 };

const GREATEST: Id = Id {
    ms: u64::MAX,
    seq: u64::MAX,
};

/// The id that a word spells, as XADD takes it: `ms-seq`, or `ms` for the sequence number 0.
///
/// Each part has 1 to 20 decimal digits, leading zeros allowed, and fits 64 bits.
///
/// Source: Redis documentation, "Streams", section "Entry IDs".
pub fn parse_strict(text: &[u8]) -> Option<Id>
    ensures found { IfSome result (SpellsId 0 text.now) }
    ensures none { IfNone result ((id : ids.Id) → SpellsId 0 text.now id → ⊥) }
{
    parse_written(text, 0)
}

/// The id that a word of XADD asks for: `*`, `ms-*`, or an id as `parse_strict` takes it.
///
/// Source: Redis documentation, command XADD, "Specifying a Stream ID as an argument".
pub fn parse_spec(text: &[u8]) -> Option<Spec>
    ensures found { IfSome result (IsSpec text.now) }
    ensures none { IfNone result ((spec : specs.Spec) → IsSpec text.now spec → ⊥) }
{
    if text == b"*".as_slice() {
        return Some(Spec::Auto);
    }
    match text.strip_suffix(b"-*") {
        Some(digits) => Some(Spec::Ms(read_decimal(digits, 20)?)),
        None => Some(Spec::Written(parse_strict(text)?)),
    }
}

/// The first id of the range that starts at this word: `-`, `+`, an id, or `(` and an id that the range leaves out.
///
/// `(` and the greatest id is not a start, and neither is `(-` or `(+`.
///
/// Source: Redis documentation, command XRANGE.
pub fn parse_start(text: &[u8]) -> Option<Id>
    ensures found { IfSome result (IsStart text.now) }
    ensures none { IfNone result ((id : ids.Id) → IsStart text.now id → ⊥) }
{
    match text {
        b"-" => Some(LEAST),
        b"+" => Some(GREATEST),
        [b'(', digits @ ..] => succ(parse_written(digits, 0)?),
        _ => parse_written(text, 0),
    }
}

/// The last id of the range that ends at this word: `-`, `+`, an id, or `(` and an id that the range leaves out.
///
/// `ms` alone means the last id of that millisecond. `(` and 0-0 is not an end, and neither is `(-` or `(+`.
///
/// Source: Redis documentation, command XRANGE.
pub fn parse_end(text: &[u8]) -> Option<Id>
    ensures found { IfSome result (IsEnd text.now) }
    ensures none { IfNone result ((id : ids.Id) → IsEnd text.now id → ⊥) }
{
    match text {
        b"-" => Some(LEAST),
        b"+" => Some(GREATEST),
        [b'(', digits @ ..] => id_before(parse_written(digits, u64::MAX)?),
        _ => parse_written(text, u64::MAX),
    }
}

/// The id that the text spells. A missing sequence number is `missing`.
fn parse_written(text: &[u8], missing: u64) -> Option<Id>
    ensures found { IfSome result (SpellsId missing text.now) }
    ensures none { IfNone result ((id : ids.Id) → SpellsId missing text.now id → ⊥) }
{
    match text.iter().position(|byte| *byte == b'-') {
        None => {
            let ms = read_decimal(text, 20)?;
            Some(Id { ms, seq: missing })
        }
        Some(dash) => {
            let ms = read_decimal(&text[..dash], 20)?;
            let seq = read_decimal(&text[dash + 1..], 20)?;
            Some(Id { ms, seq })
        }
    }
}

/// Law: a text spells at most one id, and has at most one meaning as a start, as an end and in XADD. Calling this has
/// no effect.
pub fn one_reading()
    ensures written { (missing : ℕ) (text : List ℕ) (a b : ids.Id) →
        SpellsId missing text a → SpellsId missing text b → a ≡ b }
    ensures start { (text : List ℕ) (a b : ids.Id) → IsStart text a → IsStart text b → a ≡ b }
    ensures end { (text : List ℕ) (a b : ids.Id) → IsEnd text a → IsEnd text b → a ≡ b }
    ensures spec { (text : List ℕ) (a b : specs.Spec) → IsSpec text a → IsSpec text b → a ≡ b }
{}
