//! Names in byte order, each once.
ghost use Rattle.std.specs.Prelude.{◌≡◌, ◌≤◌, IsTrue, ◌↔◌, IfOk, OnOk, length, map, vec_len};
ghost use Rattle.std.specs.List.{insert};
ghost use Rattle.sr_bytes.specs.{AreInOrder, ComesBefore};
ghost use Rattle.sr_policy.specs.Snapshot.{is_among as among};
ghost use Rattle.sr_bytes.specs.{with_name};
ghost use Rattle.sr_space.specs.Snap.{in_order};
ghost use Rattle.sr_space.specs.steps.Snapping.{count_before};

use sr_bytes::Name;
use sr_policy::{Stranded, is_before};
use std::alloc::{AllocError, Global};

/// Whether a name is one of the names.
pub(super) fn is_among(names: &[Name], name: &Name) -> bool
    ensures { result ≡ among names.now name.now }
{
    names.iter().any(|other| *other == *name)
}

/// Whether a name is one of names in byte order, found by binary search.
pub(super) fn is_listed(names: &[Name], name: &Name) -> bool
    requires { AreInOrder ComesBefore names.now }
    ensures { result ≡ among names.now name.now }
{
    is_at(names, place_for(names, name), name)
}

/// Copies of the names in byte order, each once: the dead consumers as a snapshot has them.
///
/// Source: docs/RECOVERY.md.
pub fn names_in_order(alloc: Global, names: &[Name]) -> Result<Vec<Name>, AllocError>
    ensures { IfOk result (λ list. list.items ≡ in_order names.now) }
{
    let mut list = copies_of(alloc, names)?;
    put_in_order(&mut list);
    Ok(list)
}

/// Copies of the names.
fn copies_of(alloc: Global, names: &[Name]) -> Result<Vec<Name>, AllocError>
    ensures { IfOk result (λ list. list.items ≡ names.now) }
{
    let mut list = Vec::with_capacity(alloc, names.len())?;
    for name in names {
        list.push(name.copy(alloc)?)?;
    }
    Ok(list)
}

/// Puts the names in byte order, each once. It takes no memory. For names that are so already, as the dead consumers of
/// a snapshot are, this is one pass.
fn put_in_order(names: &mut Vec<Name>)
    ensures { names.new.items ≡ in_order names.old.items }
{
    if are_in_order(names.as_slice()) {
        return;
    }
    names.sort_unstable_by(|a, b| a.as_slice().cmp(&b.as_slice()));
    names.dedup();
}

/// Whether the names are in byte order, each once.
fn are_in_order(names: &[Name]) -> bool
    ensures { IsTrue result ↔ AreInOrder ComesBefore names.now }
{
    names.windows(2).all(|pair| pair[0].comes_before(&pair[1]))
}

/// The classes of the entries in byte order, each once.
pub(super) fn classes_of(alloc: Global, entries: &[Stranded]) -> Result<Vec<Name>, AllocError>
    ensures { IfOk result (λ list. list.items ≡ in_order (map (λ entry. entry.class) entries.now)) }
{
    let mut list = Vec::new(alloc);
    for place in (0..entries.len()).rev() {
        add_name(&mut list, alloc, &entries[place].class)?;
    }
    Ok(list)
}

/// Adds a copy of the name at its place among names in byte order, unless it is there.
fn add_name(names: &mut Vec<Name>, alloc: Global, name: &Name) -> Result<(), AllocError>
    requires { AreInOrder ComesBefore names.old.items }
    ensures { OnOk result (names.new.items ≡ with_name name.now names.old.items) }
{
    let place = place_for(names.as_slice(), name);
    if is_at(names.as_slice(), place, name) {
        return Ok(());
    }
    let name = name.copy(alloc)?;
    put_at(names, place, name)
}

/// How many names come before this one, found by binary search.
fn place_for(names: &[Name], name: &Name) -> usize
    requires { AreInOrder ComesBefore names.now }
    ensures value { result ≡ count_before name.now names.now }
    ensures bound { result ≤ length names.now }
{
    names.partition_point(|other| is_before(other, name))
}

/// Whether the name is at its place.
fn is_at(names: &[Name], place: usize, name: &Name) -> bool
    requires order { AreInOrder ComesBefore names.now }
    requires place { place ≡ count_before name.now names.now }
    ensures { result ≡ among names.now name.now }
{
    match names.get(place) {
        None => false,
        Some(other) => *other == *name,
    }
}

/// Puts the name at this place.
fn put_at(names: &mut Vec<Name>, place: usize, name: Name) -> Result<(), AllocError>
    requires { place ≤ vec_len names.old }
    ensures { OnOk result (names.new.items ≡ insert names.old.items place name) }
{
    names.insert(place, name)?;
    Ok(())
}
