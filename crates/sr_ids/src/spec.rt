use crate::Id;

/// Which id is asked for when an entry is added.
///
/// Source: Redis documentation, command XADD, "Specifying a Stream ID as an argument".
#[derive(Clone, Copy, PartialEq, Eq)]
pub enum Spec {
    /// `*`: an id that the server chooses by its clock.
    Auto,
    /// `ms-*`: the next id in this millisecond.
    Ms(u64),
    /// `ms-seq`, or `ms` alone: this id.
    Written(Id),
}
