ghost use Rattle.std.specs.Prelude.{◌≡◌, List, IfSome, IfNone, ◌↔◌, IsTrue, IfOk};
ghost use Rattle.sr_args.specs.Form.{Reading, Reads};
ghost use Rattle.sr_args.specs.Options.{Written};
ghost use Rattle.sr_args.specs.commands.XgroupCreate as create_form;
ghost use Rattle.sr_args.specs.commands.XgroupCreateConsumer as create_consumer_form;
ghost use Rattle.sr_args.specs.commands.XgroupDelConsumer as del_consumer_form;
ghost use Rattle.sr_args.specs.commands.XgroupDestroy as destroy_form;
ghost use Rattle.sr_args.specs.commands.XgroupSetId as set_id_form;
ghost use Rattle.sr_args.specs.steps.Gives.{Gives};
ghost use Rattle.sr_args.specs.steps.Options.{AreJudged};

use crate::commands::named::{read_consumer, read_group};
use crate::name::{Choice, OptionSet};
use crate::options::{ValueFault, read_options};
use crate::same::same_position;
use crate::table::Row;
use crate::value::{copy_word, read_position};
use crate::{Call, CallFault, Position};
use sr_bytes::{Name, Unread};
use std::alloc::{AllocError, Global};

/// What the table says of XGROUP CREATE.
pub(crate) const CREATE_ROW: Row = Row {
    first: b"XGROUP",
    second: Some(b"CREATE"),
    fewest: 5,
    most: Some(6),
};

/// XGROUP CREATE: a consumer group for the stream at a key.
///
/// Source: Redis documentation, command XGROUP CREATE.
#[derive(Drop)]
pub struct XgroupCreate {
    pub key: Name,
    pub group: Name,
    pub from: Position,
    /// Whether a missing key is made: only with MKSTREAM.
    pub make: bool,
}

impl XgroupCreate {
    /// A copy with the same parts.
    pub(crate) fn copy(&self, alloc: Global) -> Result<XgroupCreate, AllocError>
        ensures { IfOk result (λ copy. copy ≡ self.now) }
    {
        let key = self.key.copy(alloc)?;
        let group = self.group.copy(alloc)?;
        Ok(XgroupCreate {
            key,
            group,
            from: self.from,
            make: self.make,
        })
    }

    /// Whether the other has the same parts.
    pub(crate) fn equals(&self, other: &XgroupCreate) -> bool
        ensures { IsTrue result ↔ (self.now ≡ other.now) }
    {
        self.key == other.key
            && self.group == other.group
            && same_position(self.from, other.from)
            && self.make == other.make
    }
}

/// What the table says of XGROUP SETID.
pub(crate) const SET_ID_ROW: Row = Row {
    first: b"XGROUP",
    second: Some(b"SETID"),
    fewest: 5,
    most: Some(5),
};

/// XGROUP SETID: from where a consumer group reads on.
///
/// Source: Redis documentation, command XGROUP SETID.
#[derive(Drop)]
pub struct XgroupSetId {
    pub key: Name,
    pub group: Name,
    pub from: Position,
}

impl XgroupSetId {
    /// A copy with the same parts.
    pub(crate) fn copy(&self, alloc: Global) -> Result<XgroupSetId, AllocError>
        ensures { IfOk result (λ copy. copy ≡ self.now) }
    {
        let key = self.key.copy(alloc)?;
        let group = self.group.copy(alloc)?;
        Ok(XgroupSetId {
            key,
            group,
            from: self.from,
        })
    }

    /// Whether the other has the same parts.
    pub(crate) fn equals(&self, other: &XgroupSetId) -> bool
        ensures { IsTrue result ↔ (self.now ≡ other.now) }
    {
        self.key == other.key && self.group == other.group && same_position(self.from, other.from)
    }
}

/// What the table says of XGROUP DESTROY.
pub(crate) const DESTROY_ROW: Row = Row {
    first: b"XGROUP",
    second: Some(b"DESTROY"),
    fewest: 4,
    most: Some(4),
};

/// XGROUP DESTROY: a consumer group goes.
///
/// Source: Redis documentation, command XGROUP DESTROY.
#[derive(Drop)]
pub struct XgroupDestroy {
    pub key: Name,
    pub group: Name,
}

impl XgroupDestroy {
    /// A copy with the same parts.
    pub(crate) fn copy(&self, alloc: Global) -> Result<XgroupDestroy, AllocError>
        ensures { IfOk result (λ copy. copy ≡ self.now) }
    {
        let key = self.key.copy(alloc)?;
        let group = self.group.copy(alloc)?;
        Ok(XgroupDestroy { key, group })
    }

    /// Whether the other has the same parts.
    pub(crate) fn equals(&self, other: &XgroupDestroy) -> bool
        ensures { IsTrue result ↔ (self.now ≡ other.now) }
    {
        self.key == other.key && self.group == other.group
    }
}

/// What the table says of XGROUP CREATECONSUMER.
pub(crate) const CREATE_CONSUMER_ROW: Row = Row {
    first: b"XGROUP",
    second: Some(b"CREATECONSUMER"),
    fewest: 5,
    most: Some(5),
};

/// XGROUP CREATECONSUMER: a consumer in a group.
///
/// Source: Redis documentation, command XGROUP CREATECONSUMER.
#[derive(Drop)]
pub struct XgroupCreateConsumer {
    pub key: Name,
    pub group: Name,
    pub consumer: Name,
}

impl XgroupCreateConsumer {
    /// A copy with the same parts.
    pub(crate) fn copy(&self, alloc: Global) -> Result<XgroupCreateConsumer, AllocError>
        ensures { IfOk result (λ copy. copy ≡ self.now) }
    {
        let key = self.key.copy(alloc)?;
        let group = self.group.copy(alloc)?;
        let consumer = self.consumer.copy(alloc)?;
        Ok(XgroupCreateConsumer {
            key,
            group,
            consumer,
        })
    }

    /// Whether the other has the same parts.
    pub(crate) fn equals(&self, other: &XgroupCreateConsumer) -> bool
        ensures { IsTrue result ↔ (self.now ≡ other.now) }
    {
        self.key == other.key && self.group == other.group && self.consumer == other.consumer
    }
}

/// What the table says of XGROUP DELCONSUMER.
pub(crate) const DEL_CONSUMER_ROW: Row = Row {
    first: b"XGROUP",
    second: Some(b"DELCONSUMER"),
    fewest: 5,
    most: Some(5),
};

/// XGROUP DELCONSUMER: a consumer goes, with what is pending for it.
///
/// Source: Redis documentation, command XGROUP DELCONSUMER.
#[derive(Drop)]
pub struct XgroupDelConsumer {
    pub key: Name,
    pub group: Name,
    pub consumer: Name,
}

impl XgroupDelConsumer {
    /// A copy with the same parts.
    pub(crate) fn copy(&self, alloc: Global) -> Result<XgroupDelConsumer, AllocError>
        ensures { IfOk result (λ copy. copy ≡ self.now) }
    {
        let key = self.key.copy(alloc)?;
        let group = self.group.copy(alloc)?;
        let consumer = self.consumer.copy(alloc)?;
        Ok(XgroupDelConsumer {
            key,
            group,
            consumer,
        })
    }

    /// Whether the other has the same parts.
    pub(crate) fn equals(&self, other: &XgroupDelConsumer) -> bool
        ensures { IsTrue result ↔ (self.now ≡ other.now) }
    {
        self.key == other.key && self.group == other.group && self.consumer == other.consumer
    }
}

/// The words of XGROUP CREATE, in their places, and what its option asks for.
#[derive(Clone, Copy)]
struct CreateWords<'a> {
    key: &'a [u8],
    group: &'a [u8],
    from: &'a [u8],
    judged: Result<Choice, ValueFault>,
}

/// `XGROUP CREATE key group id [MKSTREAM]`
pub(crate) fn read_xgroup_create(alloc: Global, words: Unread<'_>) -> Result<Call, CallFault>
    ensures { Gives create_form.form create_form.call words.entry result }
{
    let Some(read) = create_words(words) else {
        return Err(CallFault::Syntax);
    };
    let choice = read.judged?;
    let Some(from) = read_position(read.from) else {
        return Err(CallFault::BadId);
    };
    let key = copy_word(alloc, read.key)?;
    let group = copy_word(alloc, read.group)?;
    Ok(Call::XgroupCreate(XgroupCreate {
        key,
        group,
        from,
        make: choice.create_makes,
    }))
}

/// The words of XGROUP CREATE: the key, the group, an id, and MKSTREAM or nothing.
fn create_words(mut words: Unread<'_>) -> Option<CreateWords<'_>>
    ensures found { IfSome result (λ read. (written : List Written) × AreJudged written read.judged
        × Reads create_form.form words.entry (read.key.now, (read.group.now, (read.from.now, (written, tt))))) }
    ensures none { IfNone result ((reading : Reading create_form.form) →
        Reads create_form.form words.entry reading → ⊥) }
{
    let key = words.next()?;
    let group = words.next()?;
    let from = words.next()?;
    let judged = read_options(OptionSet::XgroupCreate, &mut words)?;
    if let Some(_) = words.next() {
        return None;
    }
    Some(CreateWords {
        key,
        group,
        from,
        judged,
    })
}

/// `XGROUP SETID key group id`
pub(crate) fn read_xgroup_set_id(alloc: Global, mut words: Unread<'_>) -> Result<Call, CallFault>
    ensures { Gives set_id_form.form set_id_form.call words.entry result }
{
    let Some(key) = words.next() else {
        return Err(CallFault::Syntax);
    };
    let Some(group) = words.next() else {
        return Err(CallFault::Syntax);
    };
    let Some(from) = words.next() else {
        return Err(CallFault::Syntax);
    };
    if let Some(_) = words.next() {
        return Err(CallFault::Syntax);
    }
    let Some(from) = read_position(from) else {
        return Err(CallFault::BadId);
    };
    let key = copy_word(alloc, key)?;
    let group = copy_word(alloc, group)?;
    Ok(Call::XgroupSetId(XgroupSetId { key, group, from }))
}

/// `XGROUP DESTROY key group`
pub(crate) fn read_xgroup_destroy(alloc: Global, words: Unread<'_>) -> Result<Call, CallFault>
    ensures { Gives destroy_form.form destroy_form.call words.entry result }
{
    let named = read_group(alloc, words)?;
    Ok(Call::XgroupDestroy(XgroupDestroy {
        key: named.key,
        group: named.group,
    }))
}

/// `XGROUP CREATECONSUMER key group consumer`
pub(crate) fn read_xgroup_create_consumer(
    alloc: Global,
    words: Unread<'_>,
) -> Result<Call, CallFault>
    ensures { Gives create_consumer_form.form create_consumer_form.call words.entry result }
{
    let named = read_consumer(alloc, words)?;
    Ok(Call::XgroupCreateConsumer(XgroupCreateConsumer {
        key: named.key,
        group: named.group,
        consumer: named.consumer,
    }))
}

/// `XGROUP DELCONSUMER key group consumer`
pub(crate) fn read_xgroup_del_consumer(alloc: Global, words: Unread<'_>) -> Result<Call, CallFault>
    ensures { Gives del_consumer_form.form del_consumer_form.call words.entry result }
{
    let named = read_consumer(alloc, words)?;
    Ok(Call::XgroupDelConsumer(XgroupDelConsumer {
        key: named.key,
        group: named.group,
        consumer: named.consumer,
    }))
}
