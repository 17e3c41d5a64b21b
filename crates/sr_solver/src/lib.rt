//! A solver of the transportation problem: a cheapest assignment with prices that show it, or a shortage.
//!
//! Source: the method of successive shortest paths (R. G. Busacker, P. J. Gowen, 1961; J. Edmonds, R. M. Karp, 1972).
#![tactic(auto)]

mod costs;
mod crowd;
mod front;
mod groups;
mod label;
mod members;
mod order;
mod pairs;
mod path;
mod placement;
mod placing;
mod sample;
mod search;
mod set;
mod shortage;
mod solution;
mod stepped;
mod table;
mod taker;
mod tiered;
mod wanted;

pub use tiered::solve;
