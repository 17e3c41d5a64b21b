use sr_bytes::Name;
use sr_group::Group;
use sr_ids::Id;
use std::alloc::{AllocError, Global};
use std::marker::Model;

/// A consumer group under its name.
///
/// Both are kept in a block of their own, so that a list of very many groups moves one address for each of them when a
/// group comes or goes.
///
/// Source: Redis documentation, command XINFO GROUPS.
#[derive(Drop)]
pub struct NamedGroup {
    parts: Box<Parts>,
}

/// A name, and the group of this name.
#[derive(Drop)]
struct Parts {
    name: Name,
    group: Group,
}

impl Model for NamedGroup {
    ghost use Rattle.std.specs.Prelude.{ℕ, List};
    ghost use Rattle.sr_group.specs.{KeptGroup};

    ghost Value = { List ℕ × KeptGroup };

    ghost view = { λ n. (n.parts.value.name, n.parts.value.group) };
}

impl NamedGroup {
    ghost use Rattle.std.specs.Prelude.{◌≡◌, IfOk};
    ghost use Rattle.std.specs.Borrow.{sem};
    ghost use Rattle.sr_group.specs.{new_group};
    ghost use Rattle.sr_stream.specs.LendingNamed.{LendsGroup};

    /// A group of this name that has delivered what lies up to this id.
    pub(crate) fn make(alloc: Global, name: &Name, last: Id) -> Result<NamedGroup, AllocError>
        ensures name { IfOk result (λ named. named.0 ≡ name.now) }
        ensures group { IfOk result (λ named. named.1.shown ≡ new_group last) }
    {
        let name = name.copy(alloc)?;
        let group = Group::new(alloc, last);
        NamedGroup::of(alloc, name, group)
    }

    /// The group under this name.
    fn of(alloc: Global, name: Name, group: Group) -> Result<NamedGroup, AllocError>
        ensures { IfOk result (λ named. named ≡ (name, group)) }
    {
        let parts = Box::new(alloc, Parts { name, group })?;
        Ok(NamedGroup { parts })
    }

    /// Its name.
    pub fn name(&self) -> &Name
        ensures { result.now ≡ self.now.0 }
    {
        &self.parts.as_ref().name
    }

    /// The group.
    pub fn group(&self) -> &Group
        ensures { result.now ≡ self.now.1 }
    {
        &self.parts.as_ref().group
    }

    /// The group, to be changed.
    pub(crate) fn group_mut(&mut self) -> &mut Group
        ensures* writes_back { sem 𝓛 (LendsGroup self.entry result) }
        ensures value { result.now ≡ self.old.1 }
    {
        let parts = self.parts.as_mut();
        &mut parts.group
    }

    /// A second one that shows the same.
    pub(crate) fn copy(&self, alloc: Global) -> Result<NamedGroup, AllocError>
        ensures name { IfOk result (λ named. named.0 ≡ self.now.0) }
        ensures group { IfOk result (λ named. named.1.shown ≡ self.now.1.shown) }
    {
        let name = self.name().copy(alloc)?;
        let group = self.group().copy(alloc)?;
        NamedGroup::of(alloc, name, group)
    }
}
