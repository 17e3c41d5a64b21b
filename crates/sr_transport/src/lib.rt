//! The transportation problem: entries, consumers with room in one or two tiers, and a cost for each allowed pair; and
//! checkers of the cheapest assignment and of a shortage.
#![tactic(auto)]

mod certificate;
mod given;
mod problem;
mod solved;
mod tiers;

pub use certificate::{check_prices, check_shortage, is_reached, places};
pub use problem::{MAX_CHARGE, MAX_COST, Problem, Tier};
pub use solved::{Solved, check, total};
