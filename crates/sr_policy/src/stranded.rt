use sr_bytes::Name;
use sr_ids::Id;

/// A stranded entry: it is pending for a dead consumer, and still in the stream.
#[derive(PartialEq, Eq, Drop)]
pub struct Stranded {
    /// Its id.
    pub id: Id,
    /// The dead consumer that it is pending for.
    pub owner: Name,
    /// Its weight, from 1 to 2^20.
    pub weight: u64,
    /// Its class.
    pub class: Name,
}
