ghost use Rattle.std.specs.Prelude.{◌≡◌, ◌<◌, List, [], ◌∷◌};
ghost use Rattle.std.specs.List.{All};
ghost use Rattle.sr_pending.specs.{AreRising, IsCountable, room_left, with_nack};
ghost use Rattle.sr_pending.specs.Pending.{UsesRoom};
ghost use Rattle.sr_group.specs.declared.shown.Act as declared;
ghost use Rattle.sr_group.specs.Shown.{after_acts};
ghost use Rattle.sr_group.specs.steps.Showing.{HaveRoom};

use crate::Group;
use crate::consumers::see;
use crate::shown::{Act, Shown};
use sr_pending::{Nack, Pending};

impl Group {
    ghost use Rattle.std.specs.Prelude.{◌≡◌};
    ghost use Rattle.sr_group.specs.Shown.{HasRoomFor, after_showing};

    /// Changes the group as a call has shown, in the room that it made. Takes no memory.
    pub fn show(&mut self, shown: Shown)
        requires { HasRoomFor shown self.old }
        ensures { self.new.shown ≡ after_showing shown self.old.shown }
    {
        let Shown {
            consumer,
            moment,
            last,
            acts,
        } = shown;
        apply_all(&mut self.pending, acts);
        see(&mut self.consumers, consumer, moment);
        self.last = last;
    }
}

/// Does the acts one after the other.
fn apply_all(pending: &mut Pending, acts: Vec<Act>)
    requires { HaveRoom acts.items pending.old.rooms }
    ensures nacks { pending.new.nacks ≡ after_acts acts.items pending.old.nacks }
    ensures rising { AreRising pending.new.nacks }
    ensures countable { All IsCountable pending.new.nacks }
{
    for act in acts {
        apply(pending, act);
    }
    pending.sound();
}

/// Does an act.
fn apply(pending: &mut Pending, act: Act)
    requires { HaveRoom (act ∷ []) pending.old.rooms }
    ensures nacks { pending.new.nacks ≡ after_acts (act ∷ []) pending.old.nacks }
    ensures rooms { (acts : List declared.Act) → HaveRoom (act ∷ acts) pending.old.rooms
        → HaveRoom acts pending.new.rooms }
{
    match act {
        Act::Give(nack) => give(pending, nack),
        Act::Touch { id, time, count } => pending.touch(id, time, count),
        Act::Forget(id) => {
            pending.remove(id);
        }
        Act::Only(_listed) => {}
    }
}

/// The entry is pending for its owner, whoever had it before.
pub(crate) fn give(pending: &mut Pending, nack: Nack)
    requires countable { IsCountable nack }
    requires room { 0 < room_left nack.owner pending.old.rooms }
    ensures nacks { pending.new.nacks ≡ with_nack nack pending.old.nacks }
    ensures rooms { UsesRoom nack.owner pending.old.rooms pending.new.rooms }
{
    pending.sound();
    if pending.contains(nack.id) {
        pending.move_to(nack.id, nack.owner, nack.time, nack.count);
    } else {
        pending.put(nack);
    }
}
