//! Whether two parts of calls are the same.
ghost use Rattle.std.specs.Prelude.{◌≡◌, ◌↔◌, IsTrue};

use crate::{Position, ReadAsked, Streams, Trim};
use sr_bytes::{Fields, Name, Pairs};
use sr_ids::{Id, Ids, Spec};

/// Whether two names are the same, or neither is there.
pub(crate) fn same_name(a: &Option<Name>, b: &Option<Name>) -> bool
    ensures { IsTrue result ↔ (a.now ≡ b.now) }
{
    match (a, b) {
        (Some(a), Some(b)) => a == b,
        (None, None) => true,
        _ => false,
    }
}

/// Whether two counts are the same, or neither is there.
pub(crate) fn same_count(a: Option<i64>, b: Option<i64>) -> bool
    ensures { IsTrue result ↔ (a ≡ b) }
{
    a == b
}

/// Whether two numbers are the same, or neither is there.
pub(crate) fn same_number(a: Option<u64>, b: Option<u64>) -> bool
    ensures { IsTrue result ↔ (a ≡ b) }
{
    a == b
}

/// Whether two ids are the same.
pub(crate) fn same_id(a: Id, b: Id) -> bool
    ensures { IsTrue result ↔ (a ≡ b) }
{
    a == b
}

/// Whether two trims are the same.
pub(crate) fn same_trim(a: Trim, b: Trim) -> bool
    ensures { IsTrue result ↔ (a ≡ b) }
{
    a == b
}

/// Whether two trims are the same, or neither is there.
pub(crate) fn same_trim_asked(a: Option<Trim>, b: Option<Trim>) -> bool
    ensures { IsTrue result ↔ (a ≡ b) }
{
    a == b
}

/// Whether two positions are the same.
pub(crate) fn same_position(a: Position, b: Position) -> bool
    ensures { IsTrue result ↔ (a ≡ b) }
{
    a == b
}

/// Whether the same id is asked for.
pub(crate) fn same_spec(a: Spec, b: Spec) -> bool
    ensures { IsTrue result ↔ (a ≡ b) }
{
    a == b
}

/// Whether two lists of ids are the same.
pub(crate) fn same_ids(a: &Ids, b: &Ids) -> bool
    ensures { IsTrue result ↔ (a.now ≡ b.now) }
{
    a.as_slice() == b.as_slice()
}

/// Whether the fields and their values are the same, in the same order.
pub(crate) fn same_fields(a: &Fields, b: &Fields) -> bool
    ensures { IsTrue result ↔ (a.now ≡ b.now) }
{
    same_pairs(a.pairs(), b.pairs())
}

/// Whether the same fields and values are left, in the same order.
fn same_pairs(mut left: Pairs<'_>, mut right: Pairs<'_>) -> bool
    ensures { IsTrue result ↔ (left ≡ right) }
{
    while let Some((field, value)) = left.next() {
        let Some((other_field, other_value)) = right.next() else {
            return false;
        };
        if !same_bytes(field, other_field) || !same_bytes(value, other_value) {
            return false;
        }
    }
    right.next().is_none()
}

/// Whether two runs of bytes are the same.
fn same_bytes(a: &[u8], b: &[u8]) -> bool
    ensures { IsTrue result ↔ (a.now ≡ b.now) }
{
    a == b
}

/// Whether the same is read of the same streams, in the same order.
pub(crate) fn same_streams(a: &Streams<Position>, b: &Streams<Position>) -> bool
    ensures { IsTrue result ↔ (a.now ≡ b.now) }
{
    a.as_slice() == b.as_slice()
}

/// Whether a consumer reads the same of the same streams, in the same order.
pub(crate) fn same_group_streams(a: &Streams<ReadAsked>, b: &Streams<ReadAsked>) -> bool
    ensures { IsTrue result ↔ (a.now ≡ b.now) }
{
    a.as_slice() == b.as_slice()
}

impl Streams<Position> {
    /// Whether the same is read of the same streams, in the same order.
    pub fn equals(&self, other: &Streams<Position>) -> bool
        ensures { IsTrue result ↔ (self.now ≡ other.now) }
    {
        same_streams(self, other)
    }
}

impl Streams<ReadAsked> {
    /// Whether a consumer reads the same of the same streams, in the same order.
    pub fn equals(&self, other: &Streams<ReadAsked>) -> bool
        ensures { IsTrue result ↔ (self.now ≡ other.now) }
    {
        same_group_streams(self, other)
    }
}
