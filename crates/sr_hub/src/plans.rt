//! The plans of recoveries in an event loop: a small one is made at once, others by whoever makes them beside the loop.
ghost use Rattle.std.specs.Prelude.{◌≡◌, IfSome};
ghost use Rattle.sr_hub.specs.Lines.{state_of};
ghost use Rattle.sr_hub.specs.steps.Serving.{Keeps, Serves, loop_of};

use crate::copy::copy_of;
use crate::keeper::Keeper;
use crate::past::weight_of;
use crate::serve::{added, attend, further};
use crate::watch::unsent_len;
use crate::{Hub, Job, Planned, Sockets};
use sr_plan::Verdict;
use sr_policy::Snapshot;
use sr_session::Clock;
use std::alloc::Global;

/// A plan for at most this many pairs of an entry and a consumer is made in the loop.
const SMALL: usize = 16_384;

/// Makes the plan that a connection wants, if it wants one, and concludes it; or has it made elsewhere. Answers whether
/// it was concluded.
pub(crate) fn judge<S: Sockets, C: Clock>(
    hub: &mut Hub,
    sockets: &mut S,
    keeper: &mut Keeper<'_, C>,
    token: usize,
) -> bool
    ensures { Serves (loop_of (state_of hub.old) (S.may_have sockets.old) (C.may_tell keeper.old.clock))
        (loop_of (state_of hub.new) (S.may_have sockets.new) (C.may_tell keeper.new.clock)) }
{
    let Some(wanted) = hub.wants_verdict(token) else {
        return false;
    };
    if is_large(wanted) {
        return judge_large(hub, sockets, keeper, token);
    }
    make_plan(hub, keeper, token)
}

/// The same for a plan that takes long.
fn judge_large<S: Sockets, C: Clock>(
    hub: &mut Hub,
    sockets: &mut S,
    keeper: &mut Keeper<'_, C>,
    token: usize,
) -> bool
    ensures { Serves (loop_of (state_of hub.old) (S.may_have sockets.old) (C.may_tell keeper.old.clock))
        (loop_of (state_of hub.new) (S.may_have sockets.new) (C.may_tell keeper.new.clock)) }
{
    if hand_over(hub, sockets, keeper, token) {
        return false;
    }
    make_plan(hub, keeper, token)
}

/// Makes the plan that a connection wants, if it wants one, and concludes it. Answers whether it did.
fn make_plan<C: Clock>(hub: &mut Hub, keeper: &mut Keeper<'_, C>, token: usize) -> bool
    ensures { Keeps (C.may_tell keeper.old.clock) (state_of hub.old) (C.may_tell keeper.new.clock) (state_of hub.new) }
{
    let Some(wanted) = hub.wants_verdict(token) else {
        return false;
    };
    keeper.weighs(weight_of(wanted));
    let before = unsent_len(hub, token);
    let done = hub.judge(keeper.alloc, token, keeper.now());
    keeper.weighs(added(before, unsent_len(hub, token)));
    keeper.looks_up();
    done
}

/// Whether a plan is for many pairs of an entry and a consumer.
fn is_large(wanted: &Snapshot) -> bool {
    wanted.stranded().len().saturating_mul(wanted.live().len()) > SMALL
}

/// Has the plan that a connection wants made elsewhere, if it is not already, or once there is a place for it. Answers
/// whether it will be made there.
fn hand_over<S: Sockets, C: Clock>(
    hub: &Hub,
    sockets: &mut S,
    keeper: &mut Keeper<'_, C>,
    token: usize,
) -> bool
    ensures { Serves (loop_of (state_of hub.now) (S.may_have sockets.old) (C.may_tell keeper.old.clock))
        (loop_of (state_of hub.now) (S.may_have sockets.new) (C.may_tell keeper.new.clock)) }
{
    let (Some(session), Some(wanted)) = (hub.session(token), hub.wants_verdict(token)) else {
        return false;
    };
    if sockets.is_planning(session) {
        return true;
    }
    if sockets.is_busy() {
        return keeper.waits_for_plan(token);
    }
    let Some(snapshot) = copy_of(keeper.alloc, wanted) else {
        return false;
    };
    sockets.plan(Job {
        token,
        session,
        snapshot,
    })
}

/// Begins the recovery that a connection asks for, if none waits for that and others had their share of the time. Else
/// it waits. Answers whether the connection goes on now.
pub(crate) fn begin<S: Sockets, C: Clock>(
    hub: &mut Hub,
    sockets: &mut S,
    keeper: &mut Keeper<'_, C>,
    token: usize,
) -> bool
    ensures { Serves (loop_of (state_of hub.old) (S.may_have sockets.old) (C.may_tell keeper.old.clock))
        (loop_of (state_of hub.new) (S.may_have sockets.new) (C.may_tell keeper.new.clock)) }
{
    if (sockets.is_busy() || !keeper.may_begin()) && keeper.waits_for_plan(token) {
        return false;
    }
    begin_now(hub, sockets, keeper, token);
    hub.wants_verdict(token).is_none()
}

/// Begins the recovery that a connection asks for, if it asks for one, and makes the plan that it wants then, or has it
/// made elsewhere.
fn begin_now<S: Sockets, C: Clock>(
    hub: &mut Hub,
    sockets: &mut S,
    keeper: &mut Keeper<'_, C>,
    token: usize,
)
    ensures { Serves (loop_of (state_of hub.old) (S.may_have sockets.old) (C.may_tell keeper.old.clock))
        (loop_of (state_of hub.new) (S.may_have sockets.new) (C.may_tell keeper.new.clock)) }
{
    if !hub.asks_recovery(token) {
        return;
    }
    keeper.looks_up();
    let since = keeper.now();
    further(hub, keeper, token);
    judge(hub, sockets, keeper, token);
    keeper.tires(since);
}

/// Goes on with one recovery whose plan was made elsewhere, and with one that waits for a place.
pub(crate) fn go_on_with_recoveries<S: Sockets, C: Clock>(
    hub: &mut Hub,
    sockets: &mut S,
    keeper: &mut Keeper<'_, C>,
)
    ensures { Serves (loop_of (state_of hub.old) (S.may_have sockets.old) (C.may_tell keeper.old.clock))
        (loop_of (state_of hub.new) (S.may_have sockets.new) (C.may_tell keeper.new.clock)) }
{
    conclude_planned(hub, sockets, keeper);
    give_place(hub, sockets, keeper);
}

/// Concludes one plan that was made elsewhere, if there is one and others had their share of the time, and goes on with
/// its connection.
fn conclude_planned<S: Sockets, C: Clock>(
    hub: &mut Hub,
    sockets: &mut S,
    keeper: &mut Keeper<'_, C>,
)
    ensures { Serves (loop_of (state_of hub.old) (S.may_have sockets.old) (C.may_tell keeper.old.clock))
        (loop_of (state_of hub.new) (S.may_have sockets.new) (C.may_tell keeper.new.clock)) }
{
    if !keeper.expects_plans() || !keeper.may_resume() {
        return;
    }
    let Some(planned) = sockets.planned() else {
        keeper.note_planned(false);
        return;
    };
    let token = planned.token;
    keeper.begins();
    let since = keeper.now();
    conclude(hub, keeper, planned);
    keeper.tires(since);
    keeper.hears_of(token);
    attend(hub, sockets, keeper, token);
}

/// Goes on with the connection that has waited longest until its recovery can be begun, or its plan be made elsewhere,
/// if there is a place for that and others had their share of the time.
fn give_place<S: Sockets, C: Clock>(hub: &mut Hub, sockets: &mut S, keeper: &mut Keeper<'_, C>)
    ensures { Serves (loop_of (state_of hub.old) (S.may_have sockets.old) (C.may_tell keeper.old.clock))
        (loop_of (state_of hub.new) (S.may_have sockets.new) (C.may_tell keeper.new.clock)) }
{
    if sockets.is_busy() || !keeper.may_resume() {
        return;
    }
    let Some(token) = keeper.wants_plan() else {
        return;
    };
    begin_now(hub, sockets, keeper, token);
    attend(hub, sockets, keeper, token);
}

/// Concludes a plan that was made elsewhere, if its connection is still there.
fn conclude<C: Clock>(hub: &mut Hub, keeper: &mut Keeper<'_, C>, planned: Planned)
    ensures { Keeps (C.may_tell keeper.old.clock) (state_of hub.old) (C.may_tell keeper.new.clock) (state_of hub.new) }
{
    let Planned {
        token,
        session,
        verdict,
    } = planned;
    if hub.session(token) != Some(session) {
        return;
    }
    match hub.wants_verdict(token) {
        None => {}
        Some(wanted) => {
            keeper.weighs(weight_of(wanted));
            let before = unsent_len(hub, token);
            let verdict = verdict_on(wanted, verdict);
            hub.conclude(keeper.alloc, token, keeper.now(), verdict);
            keeper.weighs(added(before, unsent_len(hub, token)));
        }
    }
}

/// The verdict, if it is one on this snapshot.
fn verdict_on(wanted: &Snapshot, verdict: Option<Verdict>) -> Option<Verdict>
    ensures { IfSome result (λ judged. judged.snapshot ≡ wanted.now) }
{
    let verdict = verdict?;
    if *verdict.snapshot() == *wanted {
        Some(verdict)
    } else {
        None
    }
}
