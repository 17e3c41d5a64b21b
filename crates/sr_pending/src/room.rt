ghost use Rattle.std.specs.Prelude.{◌≡◌, ◌+◌, ◌^◌, ◌<◌, ◌≤◌, OnOk, OnErr, IfSome, IfNone};
ghost use Rattle.std.specs.Vec.{vec_len};
ghost use Rattle.sr_pending.specs.Pending.{Releases, UsesRoom, room_left};
ghost use Rattle.sr_pending.specs.steps.Room.{AddsRoom, IsRoomAt, rooms_in_all};

use sr_bytes::Name;
use std::alloc::{AllocError, Global};

/// For how many more entries of an owner there is room.
#[derive(Drop)]
pub(crate) struct Room {
    pub(crate) owner: Name,
    pub(crate) left: usize,
}

/// For how many more entries of this owner there is room.
pub(crate) fn room_for(rooms: &[Room], owner: &Name) -> usize
    requires { rooms_in_all rooms.now < 2 ^ 63 }
    ensures { result ≡ room_left owner.now rooms.now }
{
    let mut all = 0usize;
    for room in rooms {
        if room.owner == *owner {
            all += room.left;
        }
    }
    all
}

/// For how many more entries there is room, whoever owns them.
pub(crate) fn in_all(rooms: &[Room]) -> usize
    requires { rooms_in_all rooms.now < 2 ^ 63 }
    ensures { result ≡ rooms_in_all rooms.now }
{
    let mut all = 0usize;
    for room in rooms {
        all += room.left;
    }
    all
}

/// The place of a room of this owner's that is not used up.
fn place_of_room(rooms: &[Room], owner: &Name) -> Option<usize>
    ensures found { IfSome result (IsRoomAt owner.now rooms.now) }
    ensures none { IfNone result (room_left owner.now rooms.now ≡ 0) }
{
    for (place, room) in rooms.iter().enumerate() {
        if room.left > 0 && room.owner == *owner {
            return Some(place);
        }
    }
    None
}

/// Uses one place of this owner's room.
pub(crate) fn use_room(rooms: &mut Vec<Room>, owner: &Name)
    requires { 0 < room_left owner.now rooms.old.items }
    ensures used { UsesRoom owner.now rooms.old.items rooms.new.items }
    ensures in_all { rooms_in_all rooms.new.items + 1 ≡ rooms_in_all rooms.old.items }
{
    if let Some(place) = place_of_room(rooms.as_slice(), owner) {
        if rooms[place].left == 1 {
            drop(rooms.remove(place));
        } else {
            rooms[place].left -= 1;
        }
    }
}

/// Takes `n` places from this owner's room.
pub(crate) fn take_room(rooms: &mut Vec<Room>, owner: &Name, n: usize)
    requires { n ≤ room_left owner.now rooms.old.items }
    ensures taken { Releases owner.now n rooms.old.items rooms.new.items }
    ensures in_all { rooms_in_all rooms.new.items ≤ rooms_in_all rooms.old.items }
{
    let mut left = n;
    while left > 0 {
        use_room(rooms, owner);
        left -= 1;
    }
}

/// Adds to this owner's room.
pub(crate) fn add_room(
    rooms: &mut Vec<Room>,
    alloc: Global,
    owner: &Name,
    more: usize,
) -> Result<(), AllocError>
    requires { rooms_in_all rooms.old.items + more < 2 ^ 63 }
    ensures ok { OnOk result (AddsRoom owner.now more rooms.old.items rooms.new.items) }
    ensures err { OnErr result (rooms.new.items ≡ rooms.old.items) }
{
    match place_of_room(rooms.as_slice(), owner) {
        Some(place) => {
            rooms[place].left += more;
        }
        None => {
            let owner = owner.copy(alloc)?;
            rooms.push(Room { owner, left: more })?;
        }
    }
    Ok(())
}
