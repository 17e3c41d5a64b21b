//! What the program does.
use crate::advice::print_advice;
use crate::board::{Board, board_of, print_board};
use crate::check::print_check;
use crate::clock::millis;
use crate::deliveries::{look_deliveries, look_given_up};
use crate::fault::Fault;
use crate::json_lines::{Step, print_board_line, print_plan_line, print_ran_line};
use crate::metrics::{Counts, MetricsFile, metrics_text};
use crate::names::{PolicyText, print_stars};
use crate::notes::{Notes, look_members};
use crate::options::{Action, Options};
use crate::place::{Place, place_named};
use crate::print::{
    print_done, print_gone, print_plan, print_spare, print_stale, print_step, print_sum, say,
};
use crate::reach::{Reach, read_reach};
use crate::watch::{Watcher, watch_groups};
use crate::wire::Wire;
use sr_bytes::Name;
use sr_live::{
    Asked, Claimable, LiveFault, Planned, Ran, Terms, look_idles, look_numbers, plan, run,
};
use sr_plan::Verdict;
use sr_policy::Policy;
use sr_space::names_in_order;
use std::alloc::{AllocError, Global};

/// How many entries a plan may have.
const MOST: u64 = 4096;

/// How many steps are made at most.
const MAX_STEPS: u64 = 1_000_000;

/// How many times the key may have moved to another node.
const MAX_MOVES: usize = 16;

/// How many entries are read at a time at most.
const TOGETHER: u64 = 256;

/// How many are read at a time at most after a reply that was too long.
const FEWER_TOGETHER: u64 = 16;

/// How many times fewer are read at a time, until it is one.
const MAX_SHORTER: usize = 5;

/// How many times it is begun at most: at each node, with each number of entries at a time, and without spare places.
pub(crate) const MAX_ATTEMPTS: usize = MAX_MOVES + MAX_SHORTER + 2;

/// How it ended.
#[derive(Clone, Copy, PartialEq, Eq)]
pub(crate) enum Status {
    /// There is a plan, it was carried out, or the board was shown.
    Done,
    /// No plan exists.
    Impossible,
    /// The group changed at each try.
    Stale,
    /// One turn of `watch` was made: the greatest of the statuses at its groups, which were told.
    Watched(u8),
}

impl Status {
    /// The status that the program ends with.
    pub(crate) fn code(self) -> u8 {
        match self {
            Status::Done => 0,
            Status::Impossible => 3,
            Status::Stale => 4,
            Status::Watched(code) => code,
        }
    }
}

/// Does what is asked for, at the node that has the key.
pub(crate) fn act(rt: &HostRuntime, options: &Options<'_>) -> Result<Status, Fault> {
    let reach = read_reach(rt, options)?;
    let policy = PolicyText::read(rt, options.policy)?;
    if options.action == Action::Judge {
        return Ok(Status::Done);
    }
    let file = match options.metrics {
        Some(path) => Some(MetricsFile::new(rt, path)?),
        None => None,
    };
    if let Some(watching) = &options.watching {
        let watcher = Watcher {
            rt,
            options,
            watching,
            policy: &policy,
            reach: &reach,
        };
        return watch_groups(&watcher, file);
    }
    let task = Task {
        rt,
        options,
        written: &policy,
    };
    let began = millis(rt);
    let mut counts = Counts::new(rt.alloc(), options.key, options.group)?;
    let ended = act_somewhere(task, &reach, &mut counts);
    if let Some(file) = file {
        counts.end_run(rt, code_of(&ended), began);
        write_counts(rt, file, &counts);
    }
    ended
}

/// What is done, whichever node has the key.
#[derive(Clone, Copy)]
struct Task<'a> {
    rt: &'a HostRuntime,
    options: &'a Options<'a>,
    /// The policy, as it is written.
    written: &'a PolicyText,
}

/// The status that the program ends with.
fn code_of(ended: &Result<Status, Fault>) -> u8 {
    match ended {
        Ok(status) => status.code(),
        Err(fault) => fault.code(),
    }
}

/// Writes what was done. If that fails it is told, and nothing else comes of it.
fn write_counts(rt: &HostRuntime, file: MetricsFile<'_>, counts: &Counts) {
    let mut file = file;
    if let Some(fault) = file.write(rt, metrics_text(rt.alloc(), &[counts])) {
        let _ = eprintln!(rt; "{fault}");
    }
}

/// Does what is asked for, at whichever node has the key.
fn act_somewhere(task: Task<'_>, reach: &Reach<'_>, counts: &mut Counts) -> Result<Status, Fault> {
    let rt = task.rt;
    let mut asked = asked(rt.alloc(), task.options)?;
    let makes_plans = task.options.makes_plans();
    if makes_plans && asked.seen_within.is_none() && task.written.has_stars() {
        print_stars(&mut rt.stderr())?;
    }
    let mut place = reach.node(rt)?;
    let mut moves = 0;
    for _ in 0..MAX_ATTEMPTS {
        let mut wire = reach.connect(rt, &place)?;
        match act_at(task, &asked, &mut wire, counts) {
            Err(Fault::NoSpare) if asked.spare > 0 => {
                print_spare(&mut rt.stderr(), asked.spare)?;
                asked.spare = 0;
            }
            Err(fault) => go_on(rt.alloc(), fault, &mut place, &mut asked, &mut moves)?,
            ended => return ended,
        }
    }
    Err(Fault::Moves)
}

/// What is done otherwise after a fault: at the node that it names, or with fewer entries at a time. Any other fault
/// is passed on.
pub(crate) fn go_on(
    alloc: Global,
    fault: Fault,
    place: &mut Place,
    asked: &mut Asked,
    moves: &mut usize,
) -> Result<(), Fault> {
    match fault {
        Fault::Moved(to) => {
            if *moves >= MAX_MOVES {
                return Err(Fault::Moves);
            }
            *moves = moves.saturating_add(1);
            *place = place_named(alloc, place, to.as_str())?;
            Ok(())
        }
        // The rest of the reply may still come, so the next look-up has a connection of its own.
        Fault::TooLong if asked.together > 1 => {
            asked.together = (asked.together / 2).min(FEWER_TOGETHER);
            Ok(())
        }
        fault => Err(fault),
    }
}

/// Does what is asked for, at this node.
fn act_at(
    task: Task<'_>,
    asked: &Asked,
    wire: &mut Wire,
    counts: &mut Counts,
) -> Result<Status, Fault> {
    let Task {
        rt,
        options,
        written,
    } = task;
    let expanded = written.for_group(wire, rt.alloc(), asked)?;
    let PolicyText { policy, text } = match &expanded {
        Some(expanded) => expanded,
        None => written,
    };
    match options.action {
        Action::Judge => Ok(Status::Done),
        Action::Policy => {
            say(&mut rt.stdout(), text.as_bytes())?;
            Ok(Status::Done)
        }
        Action::Board => show_board(rt, options, policy, asked, wire),
        Action::Plan | Action::Run => make_plans(task, policy, asked, wire, counts),
    }
}

/// Makes a plan, and has it carried out if that is asked for. Who is in the group is looked up before: a plan that is
/// carried out makes the consumers that it gives entries.
fn make_plans(
    task: Task<'_>,
    policy: &Policy,
    asked: &Asked,
    wire: &mut Wire,
    counts: &mut Counts,
) -> Result<Status, Fault> {
    let looked = look_members(wire, task.rt.alloc(), policy, asked);
    let members = wire.told(task.rt.alloc(), looked)?;
    let given_up = look_given_up(wire, task.rt.alloc(), asked)?;
    let notes = Notes {
        policy,
        asked,
        members: &members,
        given_up: &given_up,
    };
    if task.options.action == Action::Run {
        carry_out(task, notes, wire, counts)
    } else {
        show_plan(task, notes, wire)
    }
}

/// Shows what each consumer has.
fn show_board(
    rt: &HostRuntime,
    options: &Options<'_>,
    policy: &Policy,
    asked: &Asked,
    wire: &mut Wire,
) -> Result<Status, Fault> {
    let looked = look_board(wire, rt.alloc(), asked);
    let (idles, numbers) = wire.told(rt.alloc(), looked)?;
    let board = Board {
        idles,
        numbers,
        deliveries: look_deliveries(wire, rt.alloc(), asked)?,
    };
    let rows = board_of(rt.alloc(), policy, &board)?;
    if options.json {
        print_board_line(&mut rt.stdout(), rt.alloc(), rows.as_slice())?;
    } else {
        print_board(&mut rt.stdout(), rt.alloc(), rows.as_slice())?;
    }
    Ok(Status::Done)
}

/// The consumers of the group, each with its idle time, and how many entries are pending for each that has any.
fn look_board(
    wire: &mut Wire,
    alloc: Global,
    asked: &Asked,
) -> Result<(Vec<(Name, u64)>, Vec<(Name, u64)>), LiveFault> {
    let idles = look_idles(wire, alloc, &asked.key, &asked.group)?;
    let numbers = look_numbers(wire, alloc, &asked.key, &asked.group)?;
    Ok((idles, numbers))
}

/// Makes a plan, and prints it.
fn show_plan(task: Task<'_>, notes: Notes<'_>, wire: &mut Wire) -> Result<Status, Fault> {
    let Task { rt, options, .. } = task;
    let Notes { policy, asked, .. } = notes;
    let made = plan(wire, rt.alloc(), policy, asked, options.at_most);
    let planned = wire.told(rt.alloc(), made)?;
    see_spare(asked, &planned)?;
    print_planned(rt, options, notes, &planned, false)?;
    Ok(status_of(&planned.verdict))
}

/// Prints a plan, or that there is none.
fn print_planned(
    rt: &HostRuntime,
    options: &Options<'_>,
    notes: Notes<'_>,
    planned: &Planned,
    done: bool,
) -> Result<(), Fault> {
    notes.print(&mut rt.stderr(), rt.alloc(), planned)?;
    let mut out = rt.stdout();
    if options.check {
        print_check(&mut out, rt.alloc(), &planned.verdict, done)?;
    } else if options.json {
        print_plan_line(&mut out, rt.alloc(), notes, &planned.verdict)?;
    } else {
        print_plan(&mut out, rt.alloc(), &planned.verdict)?;
        // it is no fault if this cannot be told
        let _ = print_advice(&mut rt.stderr(), rt.alloc(), &planned.verdict);
    }
    Ok(())
}

/// How it ends with this verdict, if nothing goes wrong.
pub(crate) fn status_of(verdict: &Verdict) -> Status {
    if verdict.total().is_some() {
        Status::Done
    } else {
        Status::Impossible
    }
}

/// How it ends with a plan of which this came, if nothing goes wrong.
pub(crate) fn status_of_ran(ran: &Ran) -> Status {
    match ran {
        Ran::Done { .. } => Status::Done,
        Ran::Impossible(_) => Status::Impossible,
        Ran::Stale { .. } => Status::Stale,
    }
}

/// What came of printing this. If a write fails after a plan was carried out, the fault says so.
pub(crate) fn printed_of(ran: &Ran, printed: Result<(), Fault>) -> Result<(), Fault> {
    match printed {
        Err(Fault::Output | Fault::Memory) if is_done(ran) => Err(Fault::OutputOfDone),
        printed => printed,
    }
}

/// Whether a plan was carried out.
fn is_done(ran: &Ran) -> bool {
    match ran {
        Ran::Done { .. } => true,
        Ran::Impossible(_) | Ran::Stale { .. } => false,
    }
}

/// Makes a plan, and has Redis carry it out; with --all again and again, until nothing is left.
fn carry_out(
    task: Task<'_>,
    notes: Notes<'_>,
    wire: &mut Wire,
    counts: &mut Counts,
) -> Result<Status, Fault> {
    let Task { rt, options, .. } = task;
    let Notes { policy, asked, .. } = notes;
    let terms = Terms {
        tries: options.tries,
        within: options.within,
        at_most: most_of(options),
    };
    for step in 0..MAX_STEPS {
        let made = run(wire, rt.alloc(), policy, asked, terms);
        let ran = wire.told(rt.alloc(), made)?;
        counts.add_claimed(&ran);
        if let Ran::Impossible(planned) = &ran {
            see_spare(asked, planned)?;
        }
        let is_last = is_last(options, &ran);
        let printed = if options.json {
            let step = Step {
                number: step,
                is_last,
                tries: wire.take_rounds(),
            };
            print_ran_line(rt, notes, &ran, step)
        } else {
            print_ran(rt, options, notes, step, &ran)
        };
        printed_of(&ran, printed)?;
        if is_last {
            return Ok(status_of_ran(&ran));
        }
    }
    Ok(Status::Done)
}

/// Refuses a shortage while places are to be left free: there may be enough of them in all.
pub(crate) fn see_spare(asked: &Asked, planned: &Planned) -> Result<(), Fault> {
    if asked.spare > 0 && planned.verdict.total().is_none() {
        return Err(Fault::NoSpare);
    }
    Ok(())
}

/// How many entries a plan has at most.
fn most_of(options: &Options<'_>) -> Option<u64> {
    match options.at_most {
        None if options.all => Some(MOST),
        at_most => at_most,
    }
}

/// Whether nothing is left to do: without --all, if a step was not carried out, or if none came after its entries.
fn is_last(options: &Options<'_>, ran: &Ran) -> bool {
    match ran {
        Ran::Done { planned, .. } => !options.all || planned.looked.last.is_none(),
        _ => true,
    }
}

/// Prints what came of a plan.
fn print_ran(
    rt: &HostRuntime,
    options: &Options<'_>,
    notes: Notes<'_>,
    step: u64,
    ran: &Ran,
) -> Result<(), Fault> {
    match ran {
        Ran::Done {
            planned,
            claimed,
            gap,
        } => {
            let done = (*claimed, *gap);
            if options.all {
                print_carried_on(rt, notes, planned, done, step)
            } else {
                print_carried_out(rt, options, notes, planned, done)
            }
        }
        Ran::Impossible(planned) => print_planned(rt, options, notes, planned, false),
        Ran::Stale { what, of } => {
            print_stale(&mut rt.stdout(), rt.alloc(), what.as_slice(), of.as_slice())
        }
    }
}

/// Prints a step of --all that was carried out.
fn print_carried_on(
    rt: &HostRuntime,
    notes: Notes<'_>,
    planned: &Planned,
    done: (u64, u64),
    step: u64,
) -> Result<(), Fault> {
    if step == 0 {
        notes.print(&mut rt.stderr(), rt.alloc(), planned)?;
    }
    if step == 0 || done.0 > 0 {
        print_step(&mut rt.stdout(), done, planned.verdict.total().unwrap_or(0))?;
    }
    if planned.looked.last.is_none() {
        print_gone(&mut rt.stdout(), rt.alloc(), planned.verdict.gone())?;
    } else if step == 0 {
        print_sum(&mut rt.stderr())?;
    }
    Ok(())
}

/// Prints a plan that was carried out: how many entries were claimed, and at which gap.
fn print_carried_out(
    rt: &HostRuntime,
    options: &Options<'_>,
    notes: Notes<'_>,
    planned: &Planned,
    done: (u64, u64),
) -> Result<(), Fault> {
    let (claimed, gap) = done;
    print_planned(rt, options, notes, planned, true)?;
    if !options.check {
        print_done(&mut rt.stdout(), claimed, gap)?;
    }
    Ok(())
}

/// Of which group a plan is asked.
fn asked(alloc: Global, options: &Options<'_>) -> Result<Asked, Fault> {
    let mut dead = Vec::new(alloc);
    for name in &options.dead {
        dead.push(name_of(alloc, name)?)?;
    }
    let key = name_of(alloc, options.key)?;
    let group = name_of(alloc, options.group)?;
    let dead = names_in_order(alloc, dead.as_slice())?;
    Ok(asked_by(options, key, group, dead))
}

/// What the options ask of a group in which these are dead.
pub(crate) fn asked_by(options: &Options<'_>, key: Name, group: Name, dead: Vec<Name>) -> Asked {
    Asked {
        key,
        group,
        dead,
        claimable: claimable(options),
        seen_within: options.seen_within,
        spare: options.spare,
        together: TOGETHER,
    }
}

/// Which entries of the dead may be moved.
fn claimable(options: &Options<'_>) -> Claimable {
    Claimable {
        idle: options.idle_over,
        most_deliveries: options.given_up_after,
    }
}

/// The text as a name.
pub(crate) fn name_of(alloc: Global, text: &str) -> Result<Name, AllocError> {
    Ok(Name::new(Vec::from_slice(alloc, text.as_bytes())?))
}
