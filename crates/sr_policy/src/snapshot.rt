use crate::live::Live;
use crate::rates::Rates;
use crate::snapshot_rules::is_snapshot;
use crate::stranded::Stranded;
use sr_bytes::Name;
use sr_ids::Id;
use std::marker::Model;

/// The parts of a snapshot, before they are judged.
#[derive(Drop)]
pub(crate) struct Parts {
    pub(crate) key: Name,
    pub(crate) group: Name,
    pub(crate) dead: Vec<Name>,
    pub(crate) stranded: Vec<Stranded>,
    pub(crate) gone: Vec<(Id, Name)>,
    pub(crate) live: Vec<Live>,
    pub(crate) rates: Vec<(Name, Rates)>,
}

impl Model for Parts {
    ghost use Rattle.sr_policy.specs.Snapshot.{SnapshotState};

    ghost Value = { SnapshotState };

    ghost view = { λ p. record {
      key = p.key;
      group = p.group;
      dead = p.dead.items;
      stranded = p.stranded.items;
      gone = p.gone.items;
      live = p.live.items;
      rates = p.rates.items;
    } };
}

/// A snapshot of a group: which entries are stranded with its dead consumers, and which consumers could take them.
///
/// It holds no times and no counts, so that two snapshots are the same unless something that a plan rests on changed.
pub struct Snapshot {
    parts: Parts,
}

// A function of its own, so that a caller that lets go of one is proved without looking at its parts.
impl Drop for Snapshot {
    fn drop(self) {
        let Snapshot { parts: _ } = self;
    }
}

impl Model for Snapshot {
    ghost use Rattle.sr_policy.specs.Snapshot.{SnapshotState, IsSnapshot};

    ghost Value = { SnapshotState };

    ghost view = { λ s. s.parts };

    ghost invariant = { λ s. IsSnapshot s.parts };
}

impl Snapshot {
    ghost use Rattle.std.specs.Prelude.{◌≡◌, ◌↔◌, IsSome, IfSome};
    ghost use Rattle.sr_policy.specs.Snapshot.{IsSnapshot};

    /// The snapshot of these parts: the key and the group, the dead consumers, the stranded entries, the entries that
    /// are pending for the dead and no longer in the stream, the live consumers, and for each class their rates.
    ///
    /// `None` if a list is not in order or too long, a number is out of its range, or an owner is not dead.
    pub fn new(
        key: Name,
        group: Name,
        dead: Vec<Name>,
        stranded: Vec<Stranded>,
        gone: Vec<(Id, Name)>,
        live: Vec<Live>,
        rates: Vec<(Name, Rates)>,
    ) -> Option<Snapshot>
        ensures within { IsSome result ↔ IsSnapshot (record {
          key = key;
          group = group;
          dead = dead.items;
          stranded = stranded.items;
          gone = gone.items;
          live = live.items;
          rates = rates.items;
        }) }
        ensures value { IfSome result (λ s. s ≡ record {
          key = key;
          group = group;
          dead = dead.items;
          stranded = stranded.items;
          gone = gone.items;
          live = live.items;
          rates = rates.items;
        }) }
    {
        let parts = Parts {
            key,
            group,
            dead,
            stranded,
            gone,
            live,
            rates,
        };
        if !is_snapshot(&parts) {
            return None;
        }
        Some(Snapshot { parts })
    }

    /// The snapshot of parts that are known to make one. They are not judged once more.
    pub fn of(
        key: Name,
        group: Name,
        dead: Vec<Name>,
        stranded: Vec<Stranded>,
        gone: Vec<(Id, Name)>,
        live: Vec<Live>,
        rates: Vec<(Name, Rates)>,
    ) -> Snapshot
        requires { IsSnapshot (record {
          key = key;
          group = group;
          dead = dead.items;
          stranded = stranded.items;
          gone = gone.items;
          live = live.items;
          rates = rates.items;
        }) }
        ensures { result ≡ record {
          key = key;
          group = group;
          dead = dead.items;
          stranded = stranded.items;
          gone = gone.items;
          live = live.items;
          rates = rates.items;
        } }
    {
        Snapshot {
            parts: Parts {
                key,
                group,
                dead,
                stranded,
                gone,
                live,
                rates,
            },
        }
    }

    /// The key of the stream.
    pub fn key(&self) -> &Name
        ensures { result.now ≡ self.now.key }
    {
        &self.parts.key
    }

    /// The name of the group.
    pub fn group(&self) -> &Name
        ensures { result.now ≡ self.now.group }
    {
        &self.parts.group
    }

    /// The names of the dead consumers, in byte order.
    pub fn dead(&self) -> &[Name]
        ensures { result.now ≡ self.now.dead }
    {
        self.parts.dead.as_slice()
    }

    /// The stranded entries, by id.
    pub fn stranded(&self) -> &[Stranded]
        ensures { result.now ≡ self.now.stranded }
    {
        self.parts.stranded.as_slice()
    }

    /// The entries that are pending for the dead and no longer in the stream, by id, each with its owner.
    pub fn gone(&self) -> &[(Id, Name)]
        ensures { result.now ≡ self.now.gone }
    {
        self.parts.gone.as_slice()
    }

    /// The live consumers, in byte order of their names.
    pub fn live(&self) -> &[Live]
        ensures { result.now ≡ self.now.live }
    {
        self.parts.live.as_slice()
    }

    /// For each class that occurs, in byte order, the rates of the live consumers.
    pub fn rates(&self) -> &[(Name, Rates)]
        ensures { result.now ≡ self.now.rates }
    {
        self.parts.rates.as_slice()
    }

    /// Law: a snapshot is in order and within its bounds, and its owners are dead. Calling this has no effect.
    pub fn sound(&self)
        ensures { IsSnapshot self.now }
    {
        let _ = &self.parts;
    }
}
