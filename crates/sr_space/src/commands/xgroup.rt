ghost use Rattle.std.specs.Prelude.{◌≡◌, OnOk, OnErr, IfOk};
ghost use Rattle.sr_resp.specs.declared.code.Word.TheVariants as words;
ghost use Rattle.sr_resp.specs.Reply.{simple_string};
ghost use Rattle.sr_space.specs.Bounds as bounds;
ghost use Rattle.sr_space.specs.Touched.{left_of};
ghost use Rattle.sr_space.specs.commands.Xgroup.{consumer_made, consumer_removed, id_of as position_of, made_in};
ghost use Rattle.sr_space.specs.commands.Xgroup.{xgroup_create, xgroup_destroy, xgroup_set_id, yes_or_no};

use crate::Answered;
use crate::bounds::in_63_bits;
use crate::grouped::TouchGroup;
use crate::outcome::{numbered, refused};
use crate::touch::{Made, Touch, unmade};
use sr_args::Position;
use sr_bytes::Name;
use sr_entries::Entries;
use sr_group::Group;
use sr_ids::Id;
use sr_resp::{ErrCode, Reply, Word};
use sr_stream::{GroupFault, Stream};
use std::alloc::{AllocError, Global};

/// XGROUP CREATE at a key.
#[derive(Clone, Copy)]
pub(crate) struct CreateGroup<'a> {
    pub(crate) group: &'a Name,
    pub(crate) from: Position,
    pub(crate) make: bool,
}

impl Touch for CreateGroup<'_> {
    ghost touches = { λ command. xgroup_create command.group.now command.from command.make };

    fn at_stream(&self, alloc: Global, stream: &mut Stream) -> Result<Answered, AllocError> {
        create(alloc, stream, self.group, self.from)
    }

    fn at_missing(&self, alloc: Global) -> Result<Made, AllocError> {
        if !self.make {
            return Ok(unmade(refused(alloc, ErrCode::NoKey)));
        }
        let mut stream = Stream::new(alloc);
        let outcome = create(alloc, &mut stream, self.group, self.from)?;
        Ok(Made {
            stream: Some(stream),
            outcome,
        })
    }
}

/// XGROUP SETID at a key. It takes no memory.
#[derive(Clone, Copy)]
pub(crate) struct SetGroupId<'a> {
    pub(crate) group: &'a Name,
    pub(crate) from: Position,
}

impl Touch for SetGroupId<'_> {
    ghost touches = { λ command. xgroup_set_id command.group.now command.from };

    fn at_stream(&self, alloc: Global, stream: &mut Stream) -> Result<Answered, AllocError> {
        let id = id_of(self.from, stream);
        if stream.set_group_id(self.group, id) {
            Ok(done(alloc))
        } else {
            Ok(refused(alloc, ErrCode::NoGroup))
        }
    }

    fn at_missing(&self, alloc: Global) -> Result<Made, AllocError> {
        Ok(unmade(refused(alloc, ErrCode::NoKey)))
    }
}

/// XGROUP DESTROY at a key. It takes no memory.
#[derive(Clone, Copy)]
pub(crate) struct DestroyGroup<'a> {
    pub(crate) group: &'a Name,
}

impl Touch for DestroyGroup<'_> {
    ghost touches = { λ command. xgroup_destroy command.group.now };

    fn at_stream(&self, alloc: Global, stream: &mut Stream) -> Result<Answered, AllocError> {
        let was_there = stream.destroy_group(self.group);
        Ok(answered(alloc, was_there))
    }

    fn at_missing(&self, alloc: Global) -> Result<Made, AllocError> {
        Ok(unmade(refused(alloc, ErrCode::NoKey)))
    }
}

/// XGROUP CREATECONSUMER in a group.
#[derive(Clone, Copy)]
pub(crate) struct CreateConsumer<'a> {
    pub(crate) moment: u64,
    pub(crate) consumer: &'a Name,
}

impl TouchGroup for CreateConsumer<'_> {
    ghost regroups = { λ command. consumer_made (bounds.in_63_bits command.moment) command.consumer.now };

    fn at_group(
        &self,
        alloc: Global,
        _entries: &Entries,
        group: &mut Group,
    ) -> Result<Answered, AllocError> {
        let made = group.add_consumer(alloc, self.consumer, in_63_bits(self.moment))?;
        Ok(answered(alloc, made))
    }
}

/// XGROUP DELCONSUMER in a group. It takes no memory.
#[derive(Clone, Copy)]
pub(crate) struct DeleteConsumer<'a> {
    pub(crate) consumer: &'a Name,
}

impl TouchGroup for DeleteConsumer<'_> {
    ghost regroups = { λ command. consumer_removed command.consumer.now };

    fn at_group(
        &self,
        alloc: Global,
        _entries: &Entries,
        group: &mut Group,
    ) -> Result<Answered, AllocError> {
        let pending = group.del_consumer(self.consumer);
        Ok(numbered(alloc, pending))
    }
}

/// Makes a group of a stream, unless it has one of this name.
fn create(
    alloc: Global,
    stream: &mut Stream,
    group: &Name,
    from: Position,
) -> Result<Answered, AllocError>
    ensures stream { OnOk result (stream.new.shown
        ≡ left_of stream.old.shown (made_in group.now from stream.old.shown).written) }
    ensures outcome { IfOk result (λ outcome. outcome ≡ (made_in group.now from stream.old.shown).outcome) }
    ensures err { OnErr result (stream.new.shown ≡ stream.old.shown) }
{
    let last = id_of(from, stream);
    match stream.create_group(alloc, group, last) {
        Ok(()) => Ok(done(alloc)),
        Err(GroupFault::Busy) => Ok(refused(alloc, ErrCode::BusyGroup)),
        Err(GroupFault::Memory) => Err(AllocError),
    }
}

/// The id of a position in a stream.
fn id_of(from: Position, stream: &Stream) -> Id
    ensures { result ≡ position_of from stream.now.shown }
{
    match from {
        Position::Last => stream.last_id(),
        Position::At(id) => id,
    }
}

/// OK as the reply, twice. It takes no memory.
fn done(alloc: Global) -> Answered
    ensures { result ≡ simple_string words.Ok }
{
    Answered::of(
        Reply::simple(alloc, Word::Ok),
        Reply::simple(alloc, Word::Ok),
    )
}

/// 1 for yes and 0 for no as the reply, twice. It takes no memory.
fn answered(alloc: Global, yes: bool) -> Answered
    ensures { result ≡ yes_or_no yes }
{
    if yes {
        numbered(alloc, 1)
    } else {
        numbered(alloc, 0)
    }
}
