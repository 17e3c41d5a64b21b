// The tests of `sr_seats` and `sr_run`: what no clause says, that calls succeed while there is memory, and histories
// that were worked out by hand.
use sr_args::{Call, Command, read_call};
use sr_book::Book;
use sr_bytes::Words;
use sr_policy::Policy;
use std::alloc::Global;
use std::hash::RandomState;
use std::random::RandomSource;
use std::test::Fail;

mod closing;
mod desks;
pub(crate) mod records;
pub(crate) mod rows;
mod workers;

/// Two consumers with one place each: A takes both classes, and B the class y at a hundred times its rate.
pub(crate) const TWO: &str = "class_field = \"c\"
[limits]
A = 1
B = 1
[rates.x]
A = 1
B = 2
[rates.y]
A = 1
B = 100
";

/// How often a flag is looked at that another thread should set. Then it is given up.
pub(crate) const LOOKS: u32 = 16_777_216;

/// The command that a line is.
fn command(alloc: Global, line: &str) -> Result<Command, Fail> {
    let mut words = Words::new(alloc);
    for word in line.split(' ') {
        words.add(word.as_bytes())?;
    }
    if words.len() == 0 {
        return Err(Fail::new("no words"));
    }
    Ok(read_call(alloc, &words)?)
}

/// The call that a line is.
fn call(alloc: Global, line: &str) -> Result<Call, Fail> {
    match command(alloc, line)? {
        Command::Call(call) => Ok(call),
        Command::Board { .. } | Command::Recover { .. } => Err(Fail::new("no call")),
    }
}

/// A book under a policy.
pub(crate) fn book_under(
    rt: &(impl AllocGlobal + RandomSource),
    policy: &str,
) -> Result<Book, Fail> {
    let policy = Policy::read(rt.alloc(), policy)?;
    Ok(Book::new(rt.alloc(), policy, RandomState::new(rt)?))
}
