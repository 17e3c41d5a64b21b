//! Why a text has no meaning.
use std::alloc::{AllocError, AllocFailed};

/// Why a line of a problem, or a reply that redis-cli printed, has no meaning.
#[derive(Clone, Copy)]
pub(crate) enum Fault {
    /// It has none of the forms.
    Form,
    /// Its quotes are not those of a word.
    Quotes,
    /// A word in the place of a number is not one of 64 bits.
    Number,
    /// A number is out of its range.
    Range,
    /// A word in the place of an id is not one.
    Id,
    /// No line before names the consumer.
    Consumer,
    /// A line before is about the same entry, consumer or pair.
    Twice,
    /// There are too many entries, consumers or classes.
    Many,
    /// A failed allocation.
    Memory,
}

impl From<AllocError> for Fault {
    fn from(_error: AllocError) -> Fault {
        Fault::Memory
    }
}

impl<T: Drop> From<AllocFailed<T>> for Fault {
    fn from(_error: AllocFailed<T>) -> Fault {
        Fault::Memory
    }
}
