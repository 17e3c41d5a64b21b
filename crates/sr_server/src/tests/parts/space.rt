// What no program does and no clause says: that keys are copied while there is memory, with the groups at them.
use sr_args::commands::XgroupCreate;
use sr_args::{Call, Position};
use sr_bytes::Name;
use sr_space::Space;
use std::alloc::{AllocError, Global};
use std::hash::RandomState;
use std::test::Fail;

/// XGROUP CREATE, with MKSTREAM, of a group at a key of the same name.
fn creating(key: Name, group: Name) -> Call {
    Call::XgroupCreate(XgroupCreate {
        key,
        group,
        from: Position::Last,
        make: true,
    })
}

/// Whether a copy has the group of this name at the key of this name.
fn has_copied(space: &Space, alloc: Global, name: &Name) -> Result<bool, AllocError> {
    let copy = space.copy(alloc)?;
    Ok(copy.group(name, name).is_some())
}

/// Carries out a command, and looks for its group in a copy.
fn is_copied(
    space: &mut Space,
    alloc: Global,
    call: &Call,
    name: &Name,
) -> Result<bool, AllocError> {
    drop(space.at_once(alloc, 0, call)?);
    has_copied(space, alloc, name)
}

#[test]
fn a_group_is_copied_with_its_key(rt: HostRuntime) -> Result<(), Fail> {
    let name = Name::new(Vec::from_slice(rt.alloc(), b"g")?);
    let call = creating(name.copy(rt.alloc())?, name.copy(rt.alloc())?);
    let mut space = Space::new(rt.alloc(), RandomState::new(&rt)?);
    let copied = is_copied(&mut space, rt.alloc(), &call, &name)?;
    assert!(rt; copied);
    Ok(())
}
