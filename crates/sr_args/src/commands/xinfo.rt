ghost use Rattle.std.specs.Prelude.{◌≡◌, ◌↔◌, IsTrue, IfOk};
ghost use Rattle.sr_args.specs.commands.XinfoConsumers as consumers_form;
ghost use Rattle.sr_args.specs.commands.XinfoGroups as groups_form;
ghost use Rattle.sr_args.specs.commands.XinfoStream as stream_form;
ghost use Rattle.sr_args.specs.steps.Gives.{Gives};

use crate::commands::named::{read_group, read_key};
use crate::table::Row;
use crate::{Call, CallFault};
use sr_bytes::{Name, Unread};
use std::alloc::{AllocError, Global};

/// What the table says of XINFO STREAM.
pub(crate) const STREAM_ROW: Row = Row {
    first: b"XINFO",
    second: Some(b"STREAM"),
    fewest: 3,
    most: Some(3),
};

/// XINFO STREAM: what is known of the stream at a key.
///
/// Source: Redis documentation, command XINFO STREAM.
#[derive(Drop)]
pub struct XinfoStream {
    pub key: Name,
}

impl XinfoStream {
    /// A copy with the same parts.
    pub(crate) fn copy(&self, alloc: Global) -> Result<XinfoStream, AllocError>
        ensures { IfOk result (λ copy. copy ≡ self.now) }
    {
        let key = self.key.copy(alloc)?;
        Ok(XinfoStream { key })
    }

    /// Whether the other has the same parts.
    pub(crate) fn equals(&self, other: &XinfoStream) -> bool
        ensures { IsTrue result ↔ (self.now ≡ other.now) }
    {
        self.key == other.key
    }
}

/// What the table says of XINFO GROUPS.
pub(crate) const GROUPS_ROW: Row = Row {
    first: b"XINFO",
    second: Some(b"GROUPS"),
    fewest: 3,
    most: Some(3),
};

/// XINFO GROUPS: its consumer groups.
///
/// Source: Redis documentation, command XINFO GROUPS.
#[derive(Drop)]
pub struct XinfoGroups {
    pub key: Name,
}

impl XinfoGroups {
    /// A copy with the same parts.
    pub(crate) fn copy(&self, alloc: Global) -> Result<XinfoGroups, AllocError>
        ensures { IfOk result (λ copy. copy ≡ self.now) }
    {
        let key = self.key.copy(alloc)?;
        Ok(XinfoGroups { key })
    }

    /// Whether the other has the same parts.
    pub(crate) fn equals(&self, other: &XinfoGroups) -> bool
        ensures { IsTrue result ↔ (self.now ≡ other.now) }
    {
        self.key == other.key
    }
}

/// What the table says of XINFO CONSUMERS.
pub(crate) const CONSUMERS_ROW: Row = Row {
    first: b"XINFO",
    second: Some(b"CONSUMERS"),
    fewest: 4,
    most: Some(4),
};

/// XINFO CONSUMERS: the consumers of a group.
///
/// Source: Redis documentation, command XINFO CONSUMERS.
#[derive(Drop)]
pub struct XinfoConsumers {
    pub key: Name,
    pub group: Name,
}

impl XinfoConsumers {
    /// A copy with the same parts.
    pub(crate) fn copy(&self, alloc: Global) -> Result<XinfoConsumers, AllocError>
        ensures { IfOk result (λ copy. copy ≡ self.now) }
    {
        let key = self.key.copy(alloc)?;
        let group = self.group.copy(alloc)?;
        Ok(XinfoConsumers { key, group })
    }

    /// Whether the other has the same parts.
    pub(crate) fn equals(&self, other: &XinfoConsumers) -> bool
        ensures { IsTrue result ↔ (self.now ≡ other.now) }
    {
        self.key == other.key && self.group == other.group
    }
}

/// `XINFO STREAM key`
pub(crate) fn read_xinfo_stream(alloc: Global, words: Unread<'_>) -> Result<Call, CallFault>
    ensures { Gives stream_form.form stream_form.call words.entry result }
{
    let key = read_key(alloc, words)?;
    Ok(Call::XinfoStream(XinfoStream { key }))
}

/// `XINFO GROUPS key`
pub(crate) fn read_xinfo_groups(alloc: Global, words: Unread<'_>) -> Result<Call, CallFault>
    ensures { Gives groups_form.form groups_form.call words.entry result }
{
    let key = read_key(alloc, words)?;
    Ok(Call::XinfoGroups(XinfoGroups { key }))
}

/// `XINFO CONSUMERS key group`
pub(crate) fn read_xinfo_consumers(alloc: Global, words: Unread<'_>) -> Result<Call, CallFault>
    ensures { Gives consumers_form.form consumers_form.call words.entry result }
{
    let named = read_group(alloc, words)?;
    Ok(Call::XinfoConsumers(XinfoConsumers {
        key: named.key,
        group: named.group,
    }))
}
