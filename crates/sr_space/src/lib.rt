//! The keys of a server with their streams, and what each command does to them.
#![tactic(auto)]

mod blocking;
mod bounds;
mod commands;
mod commit;
mod grouped;
mod laws;
mod outcome;
mod readers;
mod reply;
mod snap;
mod space;
mod touch;

pub use blocking::Outcome;
pub use commands::key_of;
pub use laws::{
    errors_change_nothing, keys_stay, moments_find_the_same, noack_keeps_pending,
    nothing_is_the_null_array, one_stream_changes, others_find_the_same, reads_leave_nothing,
    streams_are_read_apart, streams_stay_sound, waiting_finds_nothing, waiting_leaves_the_same,
};
pub use outcome::Answered;
pub use readers::{asks, is_read};
pub use snap::{SnapFault, names_in_order, rates_by_class};
pub use space::Space;
