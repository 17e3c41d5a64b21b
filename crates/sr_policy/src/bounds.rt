//! The greatest numbers of a policy and of a snapshot.

/// How many consumers a policy has at most.
pub(crate) const MAX_CONSUMERS: usize = 64;

/// How many tables of rates a policy has at most.
pub(crate) const MAX_CLASSES: usize = 1024;

/// The greatest limit of a consumer.
pub(crate) const MAX_LIMIT: u64 = 1_000_000_000;

/// The greatest rate.
pub(crate) const MAX_RATE: u64 = 1 << 20;

/// The greatest fee of an entry beyond a soft limit.
pub(crate) const MAX_FEE: u64 = 1 << 40;

/// The greatest weight of an entry.
pub(crate) const MAX_WEIGHT: u64 = 1 << 20;

/// How many stranded entries a snapshot has at most.
pub(crate) const MAX_STRANDED: usize = 4096;
