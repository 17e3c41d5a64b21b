use crate::places::{place_of, put, remove_at};
use crate::{GroupFault, NamedGroup, Stream};
use sr_bytes::Name;
use sr_entries::Entries;
use sr_group::Group;
use sr_ids::Id;
use std::alloc::Global;

impl Stream {
    ghost use Rattle.std.specs.Prelude.{◌≡◌, ◌↔◌, IsTrue, is_some, Some, false, IfSome, IfNone, OnOk, OnErr, IsErrOf};
    ghost use Rattle.std.specs.Borrow.{sem};
    ghost use Rattle.std.specs.Option.{option_map, option_copied, option_copied_mut};
    ghost use Rattle.sr_group.specs.{new_group};
    ghost use Rattle.sr_stream.specs.Groups as by_name;
    ghost use Rattle.sr_stream.specs.Groups.{group_with, shown_groups, with_group, without_group, with_last};
    ghost use Rattle.sr_stream.specs.Stream.{with_groups};
    ghost use Rattle.sr_stream.specs.steps.Places.{IsPlace};
    ghost use Rattle.sr_stream.specs.Lending.{LendsGroup, LendsGroupBeside};

    /// The place of the group of this name.
    fn place(&self, name: &Name) -> Option<usize>
        ensures found { IfSome result (IsPlace name.now self.now.groups) }
        ensures none { IfNone result (by_name.has_group name.now self.now.shown.groups ≡ false) }
        ensures there { is_some result ≡ by_name.has_group name.now self.now.shown.groups }
    {
        place_of(self.groups.as_slice(), name)
    }

    /// Whether there is a group of this name.
    pub fn has_group(&self, name: &Name) -> bool
        ensures { result ≡ by_name.has_group name.now self.now.shown.groups }
    {
        self.place(name).is_some()
    }

    /// The group of this name.
    pub fn group(&self, name: &Name) -> Option<&Group>
        ensures { option_map (λ g. g.shown) (option_copied result) ≡ group_with name.now self.now.shown.groups }
    {
        let place = self.place(name)?;
        Some(self.groups[place].group())
    }

    /// The groups, in byte order of their names.
    pub fn groups(&self) -> &[NamedGroup]
        ensures value { result.now ≡ self.now.groups }
        ensures shown { shown_groups result.now ≡ self.now.shown.groups }
    {
        self.groups.as_slice()
    }

    /// The group of this name, to be changed. The stream ends with what is written through it, and is as it was if
    /// there is no such group.
    pub fn group_mut(&mut self, name: &Name) -> Option<&mut Group>
        ensures* writes_back { sem 𝓛 (LendsGroup self.entry name.now result) }
        ensures value { option_copied_mut result ≡ group_with name.now self.old.groups }
        ensures shown { option_map (λ g. g.shown) (option_copied_mut result)
            ≡ group_with name.now self.old.shown.groups }
        ensures there { is_some result ≡ by_name.has_group name.now self.old.shown.groups }
    {
        match self.place(name) {
            Some(place) => {
                let named = &mut self.groups[place];
                Some(named.group_mut())
            }
            None => None,
        }
    }

    /// The stream's entries, and beside them its group of this name, to be changed: what is delivered to a group is
    /// read from the entries. The stream ends with what is written through the group.
    pub fn entries_and_group(&mut self, name: &Name) -> (&Entries, &mut Group)
        requires there { IsTrue (by_name.has_group name.now self.old.shown.groups) }
        ensures* writes_back { sem 𝓛 (LendsGroupBeside self.entry name.now result) }
        ensures entries { result.0.now.entries ≡ self.old.shown.entries }
        ensures value { Some result.1.now ≡ group_with name.now self.old.groups }
        ensures shown { Some result.1.now.shown ≡ group_with name.now self.old.shown.groups }
    {
        match self.place(name) {
            Some(place) => {
                let entries = &self.entries;
                let named = &mut self.groups[place];
                (entries, named.group_mut())
            }
            None => unreachable!(),
        }
    }

    /// Makes a group that has delivered what lies up to this id.
    ///
    /// Source: Redis documentation, command XGROUP CREATE.
    pub fn create_group(&mut self, alloc: Global, name: &Name, last: Id) -> Result<(), GroupFault>
        ensures shown { OnOk result (self.new.shown ≡
            with_groups (with_group name.now (new_group last) self.old.shown.groups) self.old.shown) }
        ensures busy { IsErrOf result GroupFault.Busy ↔ IsTrue (by_name.has_group name.now self.old.shown.groups) }
        ensures err { OnErr result (self.new.shown ≡ self.old.shown) }
        ensures room { self.new.room ≡ self.old.room }
    {
        if self.has_group(name) {
            return Err(GroupFault::Busy);
        }
        let named = NamedGroup::make(alloc, name, last)?;
        self.groups.reserve(1)?;
        put(&mut self.groups, named);
        Ok(())
    }

    /// The group has delivered what lies up to this id, and answers whether it is there. Takes no memory.
    ///
    /// Source: Redis documentation, command XGROUP SETID.
    pub fn set_group_id(&mut self, name: &Name, id: Id) -> bool
        ensures there { result ≡ by_name.has_group name.now self.old.shown.groups }
        ensures shown { self.new.shown ≡ with_groups (with_last name.now id self.old.shown.groups) self.old.shown }
        ensures room { self.new.room ≡ self.old.room }
    {
        let _ = &self.groups;
        match self.group_mut(name) {
            Some(group) => {
                group.set_id(id);
                true
            }
            None => false,
        }
    }

    /// Removes the group, and answers whether it was there. Takes no memory.
    ///
    /// Source: Redis documentation, command XGROUP DESTROY.
    pub fn destroy_group(&mut self, name: &Name) -> bool
        ensures there { result ≡ by_name.has_group name.now self.old.shown.groups }
        ensures shown { self.new.shown ≡ with_groups (without_group name.now self.old.shown.groups) self.old.shown }
        ensures room { self.new.room ≡ self.old.room }
    {
        match self.place(name) {
            Some(place) => {
                remove_at(&mut self.groups, name, place);
                true
            }
            None => false,
        }
    }
}
