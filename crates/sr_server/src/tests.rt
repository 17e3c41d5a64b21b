//! The tests of the other crates, which have none of their own: what no clause says and no program shows. A crate that
//! has tests is proved twice, and each crate of tests reads all that is below it: so they are in the highest one.
mod parts;
mod program;
mod run;
mod session;
