//! The line of one consumer, and the lines of some.
ghost use Rattle.std.specs.Prelude.{◌≡◌, ◌++◌, OnOk, length, option_map};
ghost use Rattle.sr_group.specs.Group.{oldest_of};
ghost use Rattle.sr_pending.specs.{owned_by};
ghost use Rattle.sr_policy.specs.Rules.{has_tiers};
ghost use Rattle.sr_policy.specs.Snapshot.{places_left as room};
ghost use Rattle.sr_dash.specs.Board as boards;
ghost use Rattle.sr_dash.specs.steps.Names.{lines_of};

use crate::write::{write_name, write_number};
use sr_bytes::Name;
use sr_group::Group;
use sr_policy::{Policy, places_left};
use std::alloc::AllocError;

/// How many bytes the columns of counts have: pending, limit, room and soft.
const COUNT_WIDTH: usize = 8;

/// How many bytes the columns of milliseconds have: oldest and idle.
const TIME_WIDTH: usize = 12;

/// How many bytes the column of fees has.
const FEE_WIDTH: usize = 14;

/// What a board shows: a group at a moment, under a policy. It is wide if the policy gives a consumer a soft limit.
#[derive(Drop)]
pub(crate) struct View<'a> {
    pub(crate) group: &'a Group,
    pub(crate) moment: u64,
    pub(crate) policy: &'a Policy,
    pub(crate) wide: bool,
}

/// Writes the line of each of these names.
pub(crate) fn write_lines(
    out: &mut Vec<u8>,
    view: &View<'_>,
    names: &[Name],
) -> Result<(), AllocError>
    requires { view.now.wide ≡ has_tiers view.now.policy.now }
    ensures { OnOk result (out.new.items
        ≡ out.old.items ++ lines_of view.now.group.now.shown view.now.moment view.now.policy.now names.now) }
{
    for name in names {
        write_line(out, view, name, view.group.seen(name))?;
    }
    Ok(())
}

/// Writes the line of the consumer with this name, with this time at which it was seen last, or with none.
pub(crate) fn write_line(
    out: &mut Vec<u8>,
    view: &View<'_>,
    name: &Name,
    seen: Option<u64>,
) -> Result<(), AllocError>
    requires { view.now.wide ≡ has_tiers view.now.policy.now }
    ensures { OnOk result (out.new.items ≡ out.old.items ++ boards.line view.now.wide
        (record (boards.row_of view.now.group.now.shown view.now.moment view.now.policy.now name.now)
        { idle = option_map (boards.since view.now.moment) seen })) }
{
    let pending = view.group.pending().count_of(name) as u64;
    let limit = view.policy.limit(name);
    let oldest = since(view.moment, oldest(view.group, name, pending));
    let idle = since(view.moment, seen);
    write_name(out, name.as_slice())?;
    write_number(out, COUNT_WIDTH, Some(pending))?;
    write_number(out, COUNT_WIDTH, limit)?;
    write_number(out, COUNT_WIDTH, room_under(limit, pending))?;
    write_number(out, TIME_WIDTH, oldest)?;
    write_number(out, TIME_WIDTH, idle)?;
    write_tier(out, view.wide, view.policy.tier(name))?;
    out.push(b'\n')?;
    Ok(())
}

/// When the oldest of a consumer's pending entries was delivered, of which there are this many. If there are none, it
/// looks for none.
fn oldest(group: &Group, name: &Name, pending: u64) -> Option<u64>
    requires { pending ≡ length (owned_by name.now group.now.shown.nacks) }
    ensures { result ≡ oldest_of (owned_by name.now group.now.shown.nacks) }
{
    if pending == 0 {
        return None;
    }
    group.oldest(name)
}

/// Writes the columns of a soft limit and its fee, if the board is wide.
fn write_tier(out: &mut Vec<u8>, wide: bool, tier: Option<(u64, u64)>) -> Result<(), AllocError>
    ensures { OnOk result (out.new.items ≡ out.old.items ++ boards.columns (boards.tier_cells wide
        (boards.cell (option_map (λ tier. tier.0) tier)) (boards.cell (option_map (λ tier. tier.1) tier)))) }
{
    if !wide {
        return Ok(());
    }
    write_number(out, COUNT_WIDTH, tier.map(|(soft, _fee)| soft))?;
    write_number(out, FEE_WIDTH, tier.map(|(_soft, fee)| fee))
}

/// How many more entries may become pending under a limit, if there is one.
fn room_under(limit: Option<u64>, pending: u64) -> Option<u64>
    ensures { result ≡ option_map (λ limit. room limit pending) limit }
{
    match limit {
        Some(limit) => Some(places_left(limit, pending)),
        None => None,
    }
}

/// How long before the moment a time was, if there is one: 0 if it is to come.
fn since(moment: u64, time: Option<u64>) -> Option<u64>
    ensures { result ≡ option_map (boards.since moment) time }
{
    match time {
        Some(time) => Some(moment.saturating_sub(time)),
        None => None,
    }
}
