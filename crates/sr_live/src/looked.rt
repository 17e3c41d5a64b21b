use sr_bytes::{Fields, Name};
use sr_ids::Id;

/// Of which group a plan is asked, and whose entries it gives to others.
#[derive(Drop)]
pub struct Asked {
    /// The key of the stream.
    pub key: Name,
    /// The name of the group.
    pub group: Name,
    /// The consumers that are dead, in byte order, each once.
    pub dead: Vec<Name>,
    /// Which of the entries that are pending for them may be moved. The others are left with the dead.
    pub claimable: Claimable,
    /// For how many milliseconds a consumer of the group may have been idle, or it is given nothing. `None`: any
    /// consumer of the policy that is not dead is given entries.
    pub seen_within: Option<u64>,
    /// How many places of each live consumer the plan leaves free.
    pub spare: u64,
    /// How many entries are read at a time at most, one or more: few of long ones.
    pub together: u64,
}

/// Which entries may be moved.
#[derive(Clone, Copy)]
pub struct Claimable {
    /// For how many milliseconds an entry has been idle at least.
    pub idle: u64,
    /// How often it has been delivered at most. `None`: any number of times.
    pub most_deliveries: Option<u64>,
}

/// An entry that is pending for a dead consumer.
#[derive(Drop)]
pub struct Row {
    /// Its id.
    pub id: Id,
    /// The consumer that it is pending for.
    pub owner: Name,
    /// Its fields, if it is still in the stream.
    pub fields: Option<Fields>,
}

/// What was looked up of a group.
///
/// Source: Redis documentation, commands XINFO STREAM, XINFO CONSUMERS, XPENDING and XRANGE.
#[derive(Drop)]
pub struct Looked {
    /// Each consumer of the group, with for how many milliseconds it has been idle. Empty if that is not asked for.
    pub idles: Vec<(Name, u64)>,
    /// Each consumer of the group that has pending entries, with how many.
    pub numbers: Vec<(Name, u64)>,
    /// The entries that are pending for the dead, by id.
    pub rows: Vec<Row>,
    /// The last of them, if those behind it were left out.
    pub last: Option<Id>,
    /// How many entries had been removed from the stream since it was made, before any entry was read.
    pub removed: u64,
}
