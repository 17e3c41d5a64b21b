//! A checker of recovery plans, which trusts nothing of the server that made them.
#![tactic(auto)]

mod expect;
mod plan;
mod read;
mod shortage;
mod verified;

pub use verified::{Reason, Verified, accepts};
