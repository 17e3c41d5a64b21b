ghost use Rattle.std.specs.Prelude.{◌≡◌};
ghost use Rattle.sr_space.specs.Grouped.{for_missing_group, for_missing_key, in_group};

use crate::Answered;
use crate::outcome::{numbered, refused};
use crate::touch::{Made, Touch, unmade};
use sr_bytes::Name;
use sr_entries::Entries;
use sr_group::Group;
use sr_resp::ErrCode;
use sr_stream::Stream;
use std::alloc::{AllocError, Global};

/// What is replied where there is no such key, or no such group.
#[derive(Clone, Copy)]
pub(crate) enum Missing {
    /// 0 for both.
    Zero,
    /// NOGROUP for both.
    NoGroup,
    /// That there is no such key, and NOGROUP for a group.
    NoKey,
}

/// A command that changes one consumer group.
pub(crate) trait TouchGroup {
    ghost use Rattle.std.specs.Prelude.{◌≡◌, List, OnOk, OnErr, IfOk};
    ghost use Rattle.sr_entries.specs.declared.entry.Entry.{Entry};
    ghost use Rattle.sr_group.specs.{GroupState};
    ghost use Rattle.sr_space.specs.Grouped.{Regrouped, group_left};

    /// What the command does to the group, beside the entries of its stream.
    ghost regroups: { Self → List Entry → GroupState → Regrouped };

    /// Carries the command out on a group. After an `Err` the group shows what it showed.
    fn at_group(
        &self,
        alloc: Global,
        entries: &Entries,
        group: &mut Group,
    ) -> Result<Answered, AllocError>
        ensures group { OnOk result (group.new.shown
            ≡ group_left group.old.shown (regroups self.now entries.now.entries group.old.shown).written) }
        ensures outcome { IfOk result (λ outcome.
            outcome ≡ (regroups self.now entries.now.entries group.old.shown).outcome) }
        ensures err { OnErr result (group.new.shown ≡ group.old.shown) };
}

/// A command on the group of this name, at a key.
#[derive(Drop)]
pub(crate) struct InGroup<'a, T> {
    pub(crate) name: &'a Name,
    pub(crate) missing: Missing,
    pub(crate) command: T,
}

impl<'a, T: TouchGroup> Touch for InGroup<'a, T> {
    ghost touches = { λ c. in_group c.missing (T.regroups c.command) c.name.now };

    fn at_stream(&self, alloc: Global, stream: &mut Stream) -> Result<Answered, AllocError> {
        if !stream.has_group(self.name) {
            return Ok(without_group(alloc, self.missing));
        }
        stream.sound();
        let (entries, group) = stream.entries_and_group(self.name);
        self.command.at_group(alloc, entries, group)
    }

    fn at_missing(&self, alloc: Global) -> Result<Made, AllocError> {
        Ok(unmade(without_key(alloc, self.missing)))
    }
}

/// The reply where there is no such key. It takes no memory.
fn without_key(alloc: Global, missing: Missing) -> Answered
    ensures { result ≡ for_missing_key missing }
{
    match missing {
        Missing::Zero => numbered(alloc, 0),
        Missing::NoGroup => refused(alloc, ErrCode::NoGroup),
        Missing::NoKey => refused(alloc, ErrCode::NoKey),
    }
}

/// The reply where the key has no such group. It takes no memory.
fn without_group(alloc: Global, missing: Missing) -> Answered
    ensures { result ≡ for_missing_group missing }
{
    match missing {
        Missing::Zero => numbered(alloc, 0),
        Missing::NoGroup | Missing::NoKey => refused(alloc, ErrCode::NoGroup),
    }
}
