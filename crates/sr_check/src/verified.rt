ghost use Rattle.std.specs.Prelude.{◌≡◌, ◌++◌, codes, ℕ, List, IfOk, IfSome, IfNone};
ghost use Rattle.sr_resp.specs.{array_header, bulk_string};
ghost use Rattle.sr_check.specs.PlanReply.{plan_word};
ghost use Rattle.sr_check.specs.Verified.{IsVerified};
ghost use Rattle.sr_check.specs.steps.Read.{Begins};

use crate::expect::{after_bulk, after_header};
use crate::plan::plan_of;
use crate::shortage::shortage_of;
use sr_policy::{Snapshot, problem};
use sr_transport::{Solved, check, check_shortage, places};
use std::alloc::{AllocError, Global};

/// What is wrong with a reply. The first that is found is told.
#[derive(Clone, Copy, PartialEq, Eq)]
pub enum Reason {
    /// It is not of the form of a plan or of a shortage.
    Form,
    /// Its entries are not the stranded ones, each once and by id, or the ids that it calls gone are not those.
    Entries,
    /// A name is not that of a live consumer in its place.
    Consumers,
    /// The total is not the sum of the costs, or the prices do not show that no assignment costs less.
    Prices,
    /// The entries of the shortage have places enough, or rooms or places are not theirs.
    Places,
}

/// What a reply is found to be.
#[derive(Clone, Copy, PartialEq, Eq)]
pub enum Verified {
    /// A plan with prices that show that no assignment costs less, and what it costs. `done` where it was carried out.
    Cheapest { done: bool, total: u64 },
    /// A shortage: its entries are more than these places, so that no assignment exists.
    Impossible { places: u64 },
    /// Neither.
    Wrong { reason: Reason },
}

/// What the bytes of a reply to RECOVER.PLAN or RECOVER.RUN are worth for a snapshot.
///
/// Source: docs/RECOVERY.md.
pub fn accepts(alloc: Global, snapshot: &Snapshot, reply: &[u8]) -> Result<Verified, AllocError>
    ensures { IfOk result (IsVerified snapshot.now reply.now) }
{
    if let Some(plan) = after_word(reply, 5, b"plan") {
        return plan_worth(alloc, snapshot, plan, false);
    }
    if let Some(plan) = after_word(reply, 5, b"done") {
        return plan_worth(alloc, snapshot, plan, true);
    }
    if let Some(shortage) = after_word(reply, 4, b"none") {
        return shortage_worth(alloc, snapshot, shortage);
    }
    Ok(Verified::Wrong {
        reason: Reason::Form,
    })
}

/// What a plan is worth, from the bytes after its word.
fn plan_worth(
    alloc: Global,
    snapshot: &Snapshot,
    bytes: &[u8],
    done: bool,
) -> Result<Verified, AllocError>
    ensures { (reply : List ℕ) → Begins reply (array_header 5 ++ bulk_string (plan_word done)) bytes.now
        → IfOk result (IsVerified snapshot.now reply) }
{
    snapshot.sound();
    let problem = problem(alloc, snapshot)?;
    let plan = match plan_of(alloc, snapshot, bytes)? {
        Ok(plan) => plan,
        Err(reason) => return Ok(Verified::Wrong { reason }),
    };
    let total = plan.total;
    let solved = Solved::Best {
        assign: plan.assign,
        prices: plan.prices,
        total,
    };
    if !check(&problem, &solved) {
        return Ok(Verified::Wrong {
            reason: Reason::Prices,
        });
    }
    Ok(Verified::Cheapest { done, total })
}

/// What a shortage is worth, from the bytes after its word.
fn shortage_worth(alloc: Global, snapshot: &Snapshot, bytes: &[u8]) -> Result<Verified, AllocError>
    ensures { (reply : List ℕ) → Begins reply (array_header 4 ++ bulk_string (codes "none")) bytes.now
        → IfOk result (IsVerified snapshot.now reply) }
{
    let problem = problem(alloc, snapshot)?;
    let set = match shortage_of(alloc, snapshot, &problem, bytes)? {
        Ok(set) => set,
        Err(reason) => return Ok(Verified::Wrong { reason }),
    };
    if !check_shortage(&problem, set.as_slice()) {
        return Ok(Verified::Wrong {
            reason: Reason::Places,
        });
    }
    Ok(Verified::Impossible {
        places: places(&problem, set.as_slice()),
    })
}

/// The bytes after the header of an array of this many items and this word, if some bytes begin with them.
fn after_word<'a>(bytes: &'a [u8], items: usize, word: &[u8]) -> Option<&'a [u8]>
    ensures found { IfSome result (λ after. Begins bytes.now (array_header items ++ bulk_string word.now) after.now) }
    ensures none { IfNone result ((after : List ℕ)
        → Begins bytes.now (array_header items ++ bulk_string word.now) after → ⊥) }
{
    let text = after_header(bytes, items)?;
    after_bulk(text, word)
}
