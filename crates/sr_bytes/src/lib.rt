//! What every crate of the server shares: byte strings, fields with their values, the words of a request, and decimal
//! numbers.
#![tactic(auto)]

mod decimal;
mod fields;
mod name;
mod packed;
mod pairs;
mod unread;
mod words;

pub use decimal::read_decimal;
pub use fields::Fields;
pub use name::Name;
pub use packed::packed_len;
pub use pairs::Pairs;
pub use unread::Unread;
pub use words::Words;
