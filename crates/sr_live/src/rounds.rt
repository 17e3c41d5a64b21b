//! Plans for a group of another Redis, and their being carried out there.
ghost use Rattle.std.specs.Prelude.{◌≡◌, List, Some, IfErr, IfOk, OnErr};
ghost use Rattle.sr_live.specs.declared.fault.LiveFault.TheVariants.{Unfit};
ghost use Rattle.sr_live.specs.declared.rounds.Ran.TheVariants.{Done};
ghost use Rattle.sr_live.specs.Looking.{Exchange, Talks};
ghost use Rattle.sr_live.specs.Reading.{BreaksOff, HasOnlyRead};
ghost use Rattle.sr_live.specs.Rounds.{FitsPlan, HasBroken, HasFailed, HasMade, HasNoPlan, HasRun, IsJudged, IsPlanned};
ghost use Rattle.sr_live.specs.Rounds.{within_of};

use crate::conclusion::{Concluded, conclude};
use crate::fault::LiveFault;
use crate::looked::{Asked, Looked};
use crate::looking::look;
use crate::snapshot::{SnapshotFault, live_consumers, snapshot_of};
use crate::spare::worth_left;
use crate::words::{Limits, script_words};
use sr_bytes::Name;
use sr_peer::Peer;
use sr_plan::Verdict;
use sr_policy::{Live, Policy};
use std::alloc::{AllocError, Global};

/// How a plan is made and carried out.
#[derive(Clone, Copy)]
pub struct Terms {
    /// How many rounds are made at most.
    pub tries: u64,
    /// By how much the plan may cost more than a cheapest one.
    pub within: u64,
    /// How many of the stranded entries are moved at most: the first by id.
    pub at_most: Option<u64>,
}

/// A verdict on what was looked up of a group.
#[derive(Drop)]
pub struct Planned {
    /// What was looked up.
    pub looked: Looked,
    /// The live consumers, with their own limits.
    pub live: Vec<Live>,
    /// A cheapest plan within lower limits, or a shortage there.
    pub verdict: Verdict,
    /// What the free places come to be worth at most, if each live consumer acknowledges as many entries as places were
    /// to be left free.
    pub worth: u64,
}

/// What came of the rounds.
#[derive(Drop)]
pub enum Ran {
    /// A plan was carried out.
    Done {
        planned: Planned,
        /// How many entries were claimed.
        claimed: u64,
        /// No plan of that moment costs less by more than this.
        gap: u64,
    },
    /// No plan exists. Nothing was changed.
    Impossible(Planned),
    /// The group changed in each round. Nothing was changed.
    Stale {
        /// What was not as it had been looked up, in the last round.
        what: Name,
        /// Of what: a consumer, an id, or a number.
        of: Name,
    },
}

/// Looks a group up and judges it: a cheapest plan with its prices, or a shortage. Nothing is changed.
///
/// Source: docs/LIVE.md.
pub fn plan<P: Peer>(
    peer: &mut P,
    alloc: Global,
    policy: &Policy,
    asked: &Asked,
    at_most: Option<u64>,
) -> Result<Planned, LiveFault>
    // the rows, as far as `at_most` asks for them, were looked up by these calls, and the verdict is of these
    ensures ok { IfOk result (λ planned. (talk : List Exchange)
        × Talks (P.sent peer.old) (P.got peer.old) (P.sent peer.new) (P.got peer.new) talk
        × IsPlanned policy.now asked.now at_most talk planned) }
    ensures err { OnErr result (HasOnlyRead (P.sent peer.old) (P.sent peer.new)) }
    ensures fault { IfErr result (HasNoPlan policy.now asked.now at_most (P.sent peer.old) (P.got peer.old)
        (P.sent peer.new) (P.got peer.new)) }
{
    judged(peer, alloc, policy, asked, at_most)?.ok_or(LiveFault::Changed)
}

/// Looks a group up and judges it. `None` if what was looked up is of no one moment.
fn judged<P: Peer>(
    peer: &mut P,
    alloc: Global,
    policy: &Policy,
    asked: &Asked,
    at_most: Option<u64>,
) -> Result<Option<Planned>, LiveFault>
    ensures ok { IfOk result (λ judged. (talk : List Exchange)
        × Talks (P.sent peer.old) (P.got peer.old) (P.sent peer.new) (P.got peer.new) talk
        × IsJudged policy.now asked.now at_most talk judged) }
    ensures err { IfErr result (BreaksOff (P.sent peer.old) (P.got peer.old) (P.sent peer.new) (P.got peer.new)) }
{
    let looked = look(peer, alloc, asked, at_most)?;
    let live = live_consumers(alloc, policy, asked, &looked)?;
    let snapshot = match snapshot_of(alloc, policy, asked, &looked) {
        Ok(snapshot) => snapshot,
        Err(SnapshotFault::Memory) => return Err(LiveFault::Memory),
        Err(SnapshotFault::TooMany) => return Err(LiveFault::TooMany),
        Err(SnapshotFault::Changed) => return Ok(None),
    };
    let verdict = Verdict::make(alloc, snapshot)?;
    let worth = worth_left(alloc, &verdict, live.as_slice(), asked.spare)?;
    Ok(Some(Planned {
        looked,
        live,
        verdict,
        worth,
    }))
}

/// Makes plans and has Redis carry one out, in as many rounds as it takes, and at most `tries`.
///
/// Source: docs/LIVE.md.
pub fn run<P: Peer>(
    peer: &mut P,
    alloc: Global,
    policy: &Policy,
    asked: &Asked,
    terms: Terms,
) -> Result<Ran, LiveFault>
    ensures ok { IfOk result (HasRun policy.now asked.now terms (P.sent peer.old) (P.got peer.old)
        (P.sent peer.new) (P.got peer.new)) }
    // `Unknown` comes exactly if a script was sent whose answer is not known
    ensures err { IfErr result (HasFailed policy.now asked.now terms (P.sent peer.old) (P.got peer.old)
        (P.sent peer.new) (P.got peer.new)) }
{
    let mut ran = Err(LiveFault::Changed);
    for _tried in 0..terms.tries {
        ran = match round(peer, alloc, policy, asked, terms)? {
            None => Err(LiveFault::Changed),
            Some(Ran::Stale { what, of }) => Ok(Ran::Stale { what, of }),
            Some(Ran::Impossible(planned)) => return Ok(Ran::Impossible(planned)),
            Some(
                Ran::Done {
                    planned,
                    claimed,
                    gap,
                },
            ) => {
                return Ok(Ran::Done {
                    planned,
                    claimed,
                    gap,
                });
            }
        };
    }
    ran
}

/// One round. `None` if what was looked up is of no one moment.
fn round<P: Peer>(
    peer: &mut P,
    alloc: Global,
    policy: &Policy,
    asked: &Asked,
    terms: Terms,
) -> Result<Option<Ran>, LiveFault>
    ensures ok { IfOk result (λ ran. (talk : List Exchange)
        × Talks (P.sent peer.old) (P.got peer.old) (P.sent peer.new) (P.got peer.new) talk
        × HasMade policy.now asked.now terms talk ran) }
    ensures err { IfErr result (HasBroken policy.now asked.now terms (P.sent peer.old) (P.got peer.old)
        (P.sent peer.new) (P.got peer.new)) }
{
    let Some(planned) = judged(peer, alloc, policy, asked, terms.at_most)? else {
        return Ok(None);
    };
    let limits = Limits {
        within: allowed(terms, &planned),
        last: planned.looked.last,
        claimable: asked.claimable,
        removed: planned.looked.removed,
    };
    let rows = planned.looked.rows.as_slice();
    let live = planned.live.as_slice();
    let Some(words) = script_words(alloc, &planned.verdict, live, rows, limits)? else {
        return Ok(Some(Ran::Impossible(planned)));
    };
    match conclude(peer, alloc, &asked.key, words.as_slice())? {
        Concluded::Done { claimed, gap } => done(terms, planned, claimed, gap),
        Concluded::Stale { what, of } => Ok(Some(Ran::Stale { what, of })),
    }
}

/// The gap at which a plan may be carried out.
fn allowed(terms: Terms, planned: &Planned) -> u64
    ensures { result ≡ within_of terms planned.now }
{
    terms.within.saturating_add(planned.worth)
}

/// A plan that was carried out, if what the script answers fits it.
fn done(terms: Terms, planned: Planned, claimed: u64, gap: u64) -> Result<Option<Ran>, LiveFault>
    ensures ok { IfOk result (λ ran. (ran ≡ Some (Done planned claimed gap)) × FitsPlan terms planned claimed gap) }
    ensures err { IfErr result (λ fault. (fault ≡ Unfit) × (FitsPlan terms planned claimed gap → ⊥)) }
{
    let all = planned.verdict.snapshot().stranded().len() as u64;
    if claimed != all || gap > allowed(terms, &planned) {
        return Err(LiveFault::Unfit);
    }
    Ok(Some(Ran::Done {
        planned,
        claimed,
        gap,
    }))
}
