//! The allowed pairs of a problem in which few are allowed.

/// A consumer that an entry is allowed, and what it costs there.
#[derive(Clone, Copy)]
pub struct Pair {
    pub consumer: usize,
    pub cost: u64,
}

/// An entry with the consumers that it is allowed, which rise.
#[derive(Clone, Copy)]
pub struct Row<'a> {
    /// The number of the entry.
    pub number: usize,
    pub pairs: &'a [Pair],
}
