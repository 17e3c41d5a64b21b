//! The board from its heading to its last line.
ghost use Rattle.std.specs.Prelude.{◌≡◌, ◌++◌, IfOk, OnOk};
ghost use Rattle.sr_policy.specs.Rules.{has_tiers};
ghost use Rattle.sr_dash.specs.Board as boards;
ghost use Rattle.sr_dash.specs.steps.Names.{lines_of};

use crate::line::{View, write_line, write_lines};
use crate::names::{names_after, names_before};
use sr_group::Group;
use sr_policy::Policy;
use std::alloc::{AllocError, Global};

/// The names of the columns.
const HEADING: &[u8; 74] =
    b"consumer              pending    limit     room       oldest         idle\n";

/// The names of the columns of a wide board.
const WIDE_HEADING: &[u8; 98] =
    b"consumer              pending    limit     room       oldest         idle     soft            fee\n";

/// The board of a group at a moment, in milliseconds since 1970, as text: a heading, and a line for each consumer of
/// the group or of the policy, in byte order of their names. Under a policy that gives a consumer a soft limit it has
/// two columns more.
///
/// Source: docs/COMMANDS.md, RECOVER.BOARD.
pub fn board(
    alloc: Global,
    group: &Group,
    moment: u64,
    policy: &Policy,
) -> Result<Vec<u8>, AllocError>
    ensures { IfOk result (λ text. text.items ≡ boards.board group.now.shown moment policy.now) }
{
    let view = View {
        group,
        moment,
        policy,
        wide: policy.has_tiers(),
    };
    let heading = heading(view.wide);
    let consumers = group.consumers().len();
    let lines = policy.consumers().len().saturating_add(consumers);
    let usual = lines.saturating_add(1).saturating_mul(heading.len());
    let mut text = Vec::with_capacity(alloc, usual)?;
    text.extend_from_slice(heading)?;
    write_rows(&mut text, &view)?;
    Ok(text)
}

/// The names of the columns.
fn heading(wide: bool) -> &'static [u8]
    ensures { result.now ≡ boards.heading wide }
{
    if wide { WIDE_HEADING } else { HEADING }
}

/// Writes the line of each consumer of the group or of the policy.
fn write_rows(out: &mut Vec<u8>, view: &View<'_>) -> Result<(), AllocError>
    requires { view.now.wide ≡ has_tiers view.now.policy.now }
    ensures { OnOk result (out.new.items
        ≡ out.old.items ++ lines_of view.now.group.now.shown view.now.moment view.now.policy.now
        (boards.names_on view.now.group.now.shown view.now.policy.now)) }
{
    view.group.sound();
    let mut named = view.policy.consumers();
    for consumer in view.group.consumers() {
        let before = names_before(named, &consumer.name);
        write_lines(out, view, before)?;
        write_line(out, view, &consumer.name, Some(consumer.seen))?;
        named = names_after(named, &consumer.name);
    }
    write_lines(out, view, named)
}
