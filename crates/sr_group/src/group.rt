ghost use Rattle.std.specs.Prelude.{◌≡◌};
ghost use Rattle.sr_group.specs.Group.{without_ids};

use crate::Consumer;
use crate::consumer::copies;
use crate::consumers::{is_there, remove, see};
use sr_bytes::Name;
use sr_ids::Id;
use sr_pending::Pending;
use std::alloc::{AllocError, Global};
use std::marker::Model;

/// A consumer group of a stream.
///
/// A call that delivers, shows or claims entries makes all its growths first and answers a `Shown`, and leaves what the
/// group shows as it was; `show` then makes the change, and takes no memory. So a command that reads several groups
/// changes none of them until all have their growths.
///
/// Source: Redis documentation, "Streams", section "Consumer groups".
pub struct Group {
    pub(crate) last: Id,
    /// By name, in byte order.
    pub(crate) consumers: Vec<Consumer>,
    pub(crate) pending: Pending,
}

// A function of its own, so that a caller that lets go of one is proved without looking at its parts.
impl Drop for Group {
    fn drop(self) {
        let Group {
            last: _,
            consumers: _,
            pending: _,
        } = self;
    }
}

impl Model for Group {
    ghost use Rattle.std.specs.Prelude.{◌-◌, vec_len, vec_capacity};
    ghost use Rattle.sr_group.specs.Group.{KeptGroup, IsGroup};

    ghost Value = { KeptGroup };

    ghost view = { λ g. record {
      shown = record { last = g.last; consumers = g.consumers.items; nacks = g.pending.nacks };
      rooms = g.pending.rooms;
      places = vec_capacity g.consumers - vec_len g.consumers;
    } };

    ghost invariant = { λ g. IsGroup
        (record { last = g.last; consumers = g.consumers.items; nacks = g.pending.nacks }) };
}

impl Group {
    ghost use Rattle.std.specs.Prelude.{◌≡◌, ◌<◌, ◌^◌, length, not, IfOk, OnOk, OnErr};
    ghost use Rattle.sr_pending.specs.{owned_by};
    ghost use Rattle.sr_pending.specs.Pending.{without_owner};
    ghost use Rattle.sr_group.specs.Group.{IsGroup, has_consumer, made_at, new_group, with_ids, without_consumer};
    ghost use Rattle.sr_group.specs.Group.{without_ids};

    /// A group that has delivered what lies up to this id, to nobody. Takes no memory.
    ///
    /// Source: Redis documentation, command XGROUP CREATE.
    pub fn new(alloc: Global, last: Id) -> Group
        ensures { result.shown ≡ new_group last }
    {
        let consumers = Vec::new(alloc);
        let pending = Pending::new(alloc);
        Group {
            last,
            consumers,
            pending,
        }
    }

    /// The id that was delivered last.
    pub fn last_id(&self) -> Id
        ensures { result ≡ self.now.shown.last }
    {
        self.last
    }

    /// The consumers, in byte order of their names.
    pub fn consumers(&self) -> &[Consumer]
        ensures { result.now ≡ self.now.shown.consumers }
    {
        self.consumers.as_slice()
    }

    /// Law: the consumers are in order, once each, and own what is pending. Calling this has no effect.
    pub fn sound(&self)
        ensures { IsGroup self.now.shown }
    {
        let _ = &self.pending;
    }

    /// Sets the id that was delivered last. The pending entries stay. Takes no memory.
    ///
    /// Source: Redis documentation, command XGROUP SETID.
    pub fn set_id(&mut self, id: Id)
        ensures { self.new.shown ≡ record self.old.shown { last = id } }
    {
        self.last = id;
    }
    /// Removes the pending entries with these ids, and answers how many there were. Takes no memory.
    ///
    /// Source: Redis documentation, command XACK.
    pub fn ack(&mut self, ids: &[Id]) -> u64
        ensures shown { self.new.shown ≡ record self.old.shown { nacks = without_ids ids.now self.old.shown.nacks } }
        ensures count { result ≡ length (with_ids ids.now self.old.shown.nacks) }
        ensures bound { result < 2 ^ 63 }
    {
        let before = self.pending.len();
        remove_all(&mut self.pending, ids);
        (before - self.pending.len()) as u64
    }

    /// Makes a consumer, unless it is there, and answers whether it did. A consumer that was there was seen when it was
    /// seen before.
    ///
    /// Source: Redis documentation, command XGROUP CREATECONSUMER.
    pub fn add_consumer(
        &mut self,
        alloc: Global,
        name: &Name,
        moment: u64,
    ) -> Result<bool, AllocError>
        requires { moment < 2 ^ 63 }
        ensures shown { OnOk result
            (self.new.shown ≡ record self.old.shown { consumers = made_at name.now moment self.old.shown.consumers }) }
        ensures made { IfOk result (λ made. made ≡ not (has_consumer name.now self.old.shown.consumers)) }
        ensures err { OnErr result (self.new.shown ≡ self.old.shown) }
    {
        if is_there(self.consumers.as_slice(), name) {
            return Ok(false);
        }
        let name = name.copy(alloc)?;
        self.consumers.reserve(1)?;
        see(&mut self.consumers, name, moment);
        Ok(true)
    }

    /// Removes a consumer with its pending entries, and answers how many they were. Takes no memory.
    ///
    /// Source: Redis documentation, command XGROUP DELCONSUMER.
    pub fn del_consumer(&mut self, name: &Name) -> u64
        ensures shown { self.new.shown ≡ record {
          last = self.old.shown.last;
          consumers = without_consumer name.now self.old.shown.consumers;
          nacks = without_owner name.now self.old.shown.nacks;
        } }
        ensures count { result ≡ length (owned_by name.now self.old.shown.nacks) }
        ensures bound { result < 2 ^ 63 }
    {
        let owned = self.pending.drop_owner(name);
        remove(&mut self.consumers, name);
        owned
    }

    /// A second group that shows the same.
    pub fn copy(&self, alloc: Global) -> Result<Group, AllocError>
        ensures { IfOk result (λ group. group.shown ≡ self.now.shown) }
    {
        let consumers = copies(alloc, self.consumers.as_slice())?;
        let pending = self.pending.copy(alloc)?;
        let last = self.last;
        Ok(Group {
            last,
            consumers,
            pending,
        })
    }
}

/// Removes the entries with these ids.
fn remove_all(pending: &mut Pending, ids: &[Id])
    ensures { pending.new.nacks ≡ without_ids ids.now pending.old.nacks }
{
    for id in ids {
        pending.remove(*id);
    }
}
