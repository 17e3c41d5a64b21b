//! What is found of an input, and how it is printed.
ghost use Rattle.std.specs.Prelude.{◌≡◌};
ghost use Rattle.plan_check.specs.Found.{status_for};

use crate::fault::Fault;
use sr_check::Reason;
use std::fmt;

/// What is found of an input.
#[derive(Clone, Copy)]
pub(crate) enum Finding {
    /// The reply shows that no plan costs less than its own, which costs this.
    Cheapest { total: u64 },
    /// The reply shows that these entries have only these places, so that there is no plan.
    Impossible { places: u64, entries: u64 },
    /// The reply shows neither.
    Wrong { reason: Reason },
    /// The reply is an error.
    Refused,
    /// A line of the problem has no meaning. Lines are counted from 1.
    Line { number: u64, fault: Fault },
    /// There is no line `reply`.
    NoReply,
    /// The lines of the problem make no snapshot.
    Unfit,
}

/// The status that the program ends with: 0 if the reply is right.
pub(crate) fn status_of(finding: &Finding) -> u8
    ensures { result ≡ status_for finding.now }
{
    match finding {
        Finding::Cheapest { .. } | Finding::Impossible { .. } => 0,
        Finding::Wrong { .. }
        | Finding::Refused
        | Finding::Line { .. }
        | Finding::NoReply
        | Finding::Unfit => 1,
    }
}

impl fmt::Display for Finding {
    fn fmt<W: fmt::Write>(&self, f: &mut fmt::Formatter<W>) -> fmt::Result {
        let text = match self {
            Finding::Cheapest { total } => return write!(f, "cheapest, total {total}"),
            Finding::Impossible { places, entries } => {
                let place = if *places == 1 {
                    " place for "
                } else {
                    " places for "
                };
                let entry = if *entries == 1 { " entry" } else { " entries" };
                return write!(f, "impossible, {places}{place}{entries}{entry}");
            }
            Finding::Line { number, fault } => {
                return write!(f, "line {number}: {}", fault_text(*fault));
            }
            Finding::Wrong { reason } => reason_text(*reason),
            Finding::Refused => "wrong: the reply is an error",
            Finding::NoReply => "no line `reply`",
            Finding::Unfit => "no snapshot has these entries and consumers",
        };
        f.write_str(text)
    }
}

/// What is wrong with a reply, as a sentence.
fn reason_text(reason: Reason) -> &'static str {
    match reason {
        Reason::Form => "wrong: the reply is neither a plan nor a shortage",
        Reason::Entries => {
            "wrong: the entries of the reply, or those that it calls gone, are not those of the problem"
        }
        Reason::Consumers => "wrong: a name in the reply is not that of a consumer in its place",
        Reason::Prices => {
            "wrong: the prices do not show that the plan is allowed, costs the total, and costs least"
        }
        Reason::Places => {
            "wrong: the entries of the shortage have enough places, or not the places that the reply says"
        }
    }
}

/// What is wrong with a line of the problem.
fn fault_text(fault: Fault) -> &'static str {
    match fault {
        Fault::Form => {
            "not an `entry`, `gone`, `consumer` or `rate` with its words, nor `reply`"
        }
        Fault::Quotes => "not closed quotes around a word, or an unknown escape in them",
        Fault::Number => "not a number",
        Fault::Range => "a number out of range",
        Fault::Id => "not an id",
        Fault::Consumer => "no such consumer above",
        Fault::Twice => "there is such a line already",
        Fault::Many => "too many entries, consumers or classes",
        Fault::Memory => "out of memory",
    }
}
