//! What each consumer of a group has, and what the policy allows it.
use crate::fault::Fault;
use crate::table::{Row, print_table};
use sr_bytes::Name;
use sr_live::number_in;
use sr_policy::Policy;
use std::alloc::{AllocError, Global};
use std::io::Write;

/// What was looked up of the consumers of a group.
#[derive(Drop)]
pub(crate) struct Board {
    /// For how many milliseconds each has been idle.
    pub(crate) idles: Vec<(Name, u64)>,
    /// How many entries are pending for each that has any.
    pub(crate) numbers: Vec<(Name, u64)>,
    /// The highest delivery count among these.
    pub(crate) deliveries: Vec<(Name, u64)>,
}

/// What a consumer has.
#[derive(Clone, Copy)]
pub(crate) struct Held<'a> {
    pub(crate) name: &'a Name,
    /// How many entries are pending for it.
    pub(crate) pending: u64,
    /// Its limit and its soft limit, if the policy sets them.
    pub(crate) limit: Option<u64>,
    pub(crate) soft: Option<u64>,
    /// For how many milliseconds it has been idle, if the group has it.
    pub(crate) idle: Option<u64>,
    /// The highest delivery count of what is pending for it, if anything is.
    pub(crate) delivered: Option<u64>,
}

impl Held<'_> {
    /// How many entries it may still have, if it has a limit.
    pub(crate) fn room(&self) -> Option<u64> {
        self.limit.map(|most| most.saturating_sub(self.pending))
    }
}

/// What each consumer has: those of the group as Redis lists them, and then those of the policy that it does not have.
pub(crate) fn board_of<'a>(
    alloc: Global,
    policy: &'a Policy,
    board: &'a Board,
) -> Result<Vec<Held<'a>>, AllocError> {
    let mut rows = Vec::new(alloc);
    for (name, idle) in &board.idles {
        rows.push(held_by(policy, board, name, Some(*idle)))?;
    }
    for name in policy.consumers() {
        if number_in(board.idles.as_slice(), name).is_none() {
            rows.push(held_by(policy, board, name, None))?;
        }
    }
    Ok(rows)
}

/// What one consumer has, which has been idle for so long if the group has it.
fn held_by<'a>(policy: &Policy, board: &Board, name: &'a Name, idle: Option<u64>) -> Held<'a> {
    Held {
        name,
        pending: number_in(board.numbers.as_slice(), name).unwrap_or(0),
        limit: policy.limit(name),
        soft: policy.tier(name).map(|tier| tier.0),
        idle,
        delivered: number_in(board.deliveries.as_slice(), name),
    }
}

/// Prints a table of it.
pub(crate) fn print_board<W: Write>(
    out: &mut W,
    alloc: Global,
    board: &[Held<'_>],
) -> Result<(), Fault> {
    let mut rows = Vec::new(alloc);
    rows.push(head(alloc)?)?;
    for held in board {
        rows.push(row_of(alloc, *held)?)?;
    }
    print_table(out, alloc, rows.as_slice())
}

/// The words above the columns.
fn head(alloc: Global) -> Result<Row, AllocError> {
    let mut row = Row::new(alloc);
    row.push_text(b"consumer")?;
    row.push_text(b"pending")?;
    row.push_text(b"limit")?;
    row.push_text(b"soft")?;
    row.push_text(b"room")?;
    row.push_text(b"idle")?;
    row.push_text(b"delivered")?;
    Ok(row)
}

/// A row: `-` where the policy sets no limit, for the idle time if the group does not have the consumer, and for the
/// delivery count if nothing is pending for it.
fn row_of(alloc: Global, held: Held<'_>) -> Result<Row, AllocError> {
    let mut row = Row::new(alloc);
    row.push_name(held.name.as_slice())?;
    row.push_number(held.pending)?;
    row.push_option(held.limit)?;
    row.push_option(held.soft)?;
    row.push_option(held.room())?;
    row.push_option(held.idle)?;
    row.push_option(held.delivered)?;
    Ok(row)
}
