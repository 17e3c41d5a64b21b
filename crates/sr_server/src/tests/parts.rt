// The tests of the crates below `sr_book`: what no clause of those crates says, and no program shows.
mod decoding;
mod plan;
mod reading;
mod replies;
mod solving;
mod space;
mod stream;
mod transport;
mod waiters;
