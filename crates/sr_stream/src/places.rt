ghost use Rattle.std.specs.Prelude.{◌≡◌, ◌+◌, ◌<◌, ◌≤◌, IsTrue, true, false, IfSome, IfNone, IfOk, OnOk, vec_len};
ghost use Rattle.std.specs.Prelude.{vec_capacity};
ghost use Rattle.std.specs.List.{insert};
ghost use Rattle.sr_stream.specs.Groups.{AreInOrder, has_group, shown_groups, with_group, without_group};
ghost use Rattle.sr_stream.specs.steps.Places.{IsPlace, before};

use crate::NamedGroup;
use sr_bytes::Name;
use std::alloc::{AllocError, Global};

/// How many groups come before the name, found by binary search.
fn count_before(groups: &[NamedGroup], name: &Name) -> usize
    requires { AreInOrder groups.now }
    ensures { result ≡ before name.now groups.now }
{
    groups.partition_point(|named| named.name().comes_before(name))
}

/// The place of the group with this name.
pub(crate) fn place_of(groups: &[NamedGroup], name: &Name) -> Option<usize>
    requires { AreInOrder groups.now }
    ensures found { IfSome result (IsPlace name.now groups.now) }
    ensures none { IfNone result (has_group name.now groups.now ≡ false) }
{
    let place = count_before(groups, name);
    match groups.get(place) {
        None => None,
        Some(named) => {
            if *named.name() == *name {
                Some(place)
            } else {
                None
            }
        }
    }
}

/// Puts a group that is not there to its place, in memory that is spare.
pub(crate) fn put(groups: &mut Vec<NamedGroup>, named: NamedGroup)
    requires order { AreInOrder groups.old.items }
    requires missing { has_group named.0 groups.old.items ≡ false }
    requires spare { vec_len groups.old < vec_capacity groups.old }
    ensures { groups.new.items ≡ with_group named.0 named.1 groups.old.items }
{
    let place = count_before(groups.as_slice(), named.name());
    insert_at(groups, place, named);
}

/// Puts the group at this place, in memory that is spare.
fn insert_at(groups: &mut Vec<NamedGroup>, place: usize, named: NamedGroup)
    requires place { place ≤ vec_len groups.old }
    requires spare { vec_len groups.old < vec_capacity groups.old }
    ensures { groups.new.items ≡ insert groups.old.items place named }
{
    match groups.insert(place, named) {
        Ok(()) => {}
        Err(_) => unreachable!(),
    }
}

/// Removes the group at this place.
pub(crate) fn remove_at(groups: &mut Vec<NamedGroup>, name: &Name, place: usize)
    requires order { AreInOrder groups.old.items }
    requires place { IsPlace name.now groups.old.items place }
    ensures { groups.new.items ≡ without_group name.now groups.old.items }
{
    drop(groups.remove(place));
}

/// Groups that show the same.
pub(crate) fn copies(alloc: Global, groups: &[NamedGroup]) -> Result<Vec<NamedGroup>, AllocError>
    ensures { IfOk result (λ v. shown_groups v.items ≡ shown_groups groups.now) }
{
    let mut list = Vec::with_capacity(alloc, groups.len())?;
    for named in groups {
        list.push(named.copy(alloc)?)?;
    }
    Ok(list)
}
