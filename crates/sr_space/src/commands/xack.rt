ghost use Rattle.sr_space.specs.commands.Xack.{acknowledged};

use crate::Answered;
use crate::grouped::TouchGroup;
use crate::outcome::numbered;
use sr_entries::Entries;
use sr_group::Group;
use sr_ids::Id;
use std::alloc::{AllocError, Global};

/// XACK in a group. It takes no memory.
#[derive(Clone, Copy)]
pub(crate) struct Acknowledge<'a> {
    pub(crate) ids: &'a [Id],
}

impl TouchGroup for Acknowledge<'_> {
    ghost regroups = { λ command. acknowledged command.ids.now };

    fn at_group(
        &self,
        alloc: Global,
        _entries: &Entries,
        group: &mut Group,
    ) -> Result<Answered, AllocError> {
        let pending = group.ack(self.ids);
        Ok(numbered(alloc, pending))
    }
}
