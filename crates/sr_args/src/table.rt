ghost use Rattle.std.specs.Prelude.{◌≡◌, ◌↔◌, ◌∷◌, IsTrue, List};
ghost use Rattle.std.specs.Option.{option_copied};
ghost use Rattle.sr_args.specs.Table.{IsCounted};
ghost use Rattle.sr_args.specs.commands.{row_of, form_of, command_of};
ghost use Rattle.sr_args.specs.declared.call.Call as calls;
ghost use Rattle.sr_args.specs.Form.{Form, Values};
ghost use Rattle.sr_args.specs.FormWord.{Word};
ghost use Rattle.sr_args.specs.steps.Gives.{Gives};
ghost use Rattle.sr_args.specs.steps.Names.{shown, IsMatch, IsFound, IsFoundAmong};

use crate::commands::{
    ping, recover, xack, xadd, xautoclaim, xclaim, xdel, xgroup, xinfo, xlen, xpending, xrange,
    xread, xreadgroup, xtrim,
};
use crate::{Call, CallFault, Command};
use sr_bytes::Unread;
use std::alloc::Global;

/// The commands, by name. Names ignore ASCII case.
///
/// Source: Redis documentation, the page of each command.
#[derive(Clone, Copy)]
pub(crate) enum CommandName {
    Ping,
    Xadd,
    Xtrim,
    Xdel,
    Xlen,
    Xrange,
    Xrevrange,
    Xack,
    XgroupCreate,
    XgroupSetId,
    XgroupDestroy,
    XgroupCreateConsumer,
    XgroupDelConsumer,
    XinfoStream,
    XinfoGroups,
    XinfoConsumers,
    Xautoclaim,
    Xclaim,
    Xpending,
    Xread,
    Xreadgroup,
    RecoverPlan,
    RecoverRun,
    RecoverBoard,
}

/// The commands in the order in which a request's words are looked up.
const COMMANDS: [CommandName; 24] = [
    CommandName::Ping,
    CommandName::Xadd,
    CommandName::Xtrim,
    CommandName::Xdel,
    CommandName::Xlen,
    CommandName::Xrange,
    CommandName::Xrevrange,
    CommandName::Xack,
    CommandName::XgroupCreate,
    CommandName::XgroupSetId,
    CommandName::XgroupDestroy,
    CommandName::XgroupCreateConsumer,
    CommandName::XgroupDelConsumer,
    CommandName::XinfoStream,
    CommandName::XinfoGroups,
    CommandName::XinfoConsumers,
    CommandName::Xautoclaim,
    CommandName::Xclaim,
    CommandName::Xpending,
    CommandName::Xread,
    CommandName::Xreadgroup,
    CommandName::RecoverPlan,
    CommandName::RecoverRun,
    CommandName::RecoverBoard,
];

/// What the table says of a command.
#[derive(Clone, Copy)]
pub(crate) struct Row {
    /// The first word of its name.
    pub(crate) first: &'static [u8],
    /// The second word of a name of two.
    pub(crate) second: Option<&'static [u8]>,
    /// The fewest words that it takes, its name counted.
    pub(crate) fewest: usize,
    /// The most words that it takes, if there is a bound.
    pub(crate) most: Option<usize>,
}

/// The table: the row of each command, in the order in which the commands are declared.
const ROWS: &[Row] = &[
    ping::ROW,
    xadd::ROW,
    xtrim::ROW,
    xdel::ROW,
    xlen::ROW,
    xrange::XRANGE_ROW,
    xrange::XREVRANGE_ROW,
    xack::ROW,
    xgroup::CREATE_ROW,
    xgroup::SET_ID_ROW,
    xgroup::DESTROY_ROW,
    xgroup::CREATE_CONSUMER_ROW,
    xgroup::DEL_CONSUMER_ROW,
    xinfo::STREAM_ROW,
    xinfo::GROUPS_ROW,
    xinfo::CONSUMERS_ROW,
    xautoclaim::ROW,
    xclaim::ROW,
    xpending::ROW,
    xread::ROW,
    xreadgroup::ROW,
    recover::PLAN_ROW,
    recover::RUN_ROW,
    recover::BOARD_ROW,
];

/// How words meet a name.
#[derive(Drop)]
enum NameMatch<'a> {
    /// They begin with it, and these words follow.
    Named(Unread<'a>),
    /// They are its first word alone, and it has two.
    Cut,
    /// They do not begin with it.
    Other,
}

/// Which command words name.
#[derive(Drop)]
pub(crate) enum Found<'a> {
    /// This one, and these words follow its name.
    Command(CommandName, Unread<'a>),
    /// The first word of a command's name, and nothing more.
    HalfNamed,
    /// No command.
    Unknown,
}

/// The row of a command.
fn row_of(command: CommandName) -> Row
    ensures { shown result ≡ row_of command }
{
    ROWS[command as usize]
}

/// How a first word, and those after it, meet the name of a row.
fn name_match<'a>(row: &Row, word: &[u8], rest: &Unread<'a>) -> NameMatch<'a>
    ensures { IsMatch (shown row.now).name (word.now ∷ rest.now) result }
{
    if !word.eq_ignore_ascii_case(row.first) {
        return NameMatch::Other;
    }
    let mut words = rest.again();
    let Some(second) = row.second else {
        return NameMatch::Named(words);
    };
    let Some(word) = words.next() else {
        return NameMatch::Cut;
    };
    if !word.eq_ignore_ascii_case(second) {
        return NameMatch::Other;
    }
    NameMatch::Named(words)
}

/// Which command words name, and the words after its name.
pub(crate) fn find_command<'a>(words: &Unread<'a>) -> Found<'a>
    ensures { IsFound words.now result }
{
    let mut rest = words.again();
    let Some(word) = rest.next() else {
        return Found::Unknown;
    };
    find_among(&COMMANDS, word, &rest)
}

/// Which of these commands a first word names, and those after it.
fn find_among<'a>(commands: &[CommandName], word: &[u8], rest: &Unread<'a>) -> Found<'a>
    ensures { IsFoundAmong commands.now (word.now ∷ rest.now) result }
{
    for command in commands {
        match name_match(&row_of(*command), word, rest) {
            NameMatch::Named(operands) => return Found::Command(*command, operands),
            NameMatch::Cut => return Found::HalfNamed,
            NameMatch::Other => {}
        }
    }
    Found::Unknown
}

/// Whether a command takes that many words, its name counted.
pub(crate) fn is_counted(command: CommandName, words: usize) -> bool
    ensures { IsTrue result ↔ IsCounted command words }
{
    let row = row_of(command);
    if words < row.fewest {
        return false;
    }
    row.most.is_none_or(|most| words <= most)
}

/// The command that the words after its name write.
pub(crate) fn read_operands(
    alloc: Global,
    command: CommandName,
    operands: Unread<'_>,
) -> Result<Command, CallFault>
    ensures { Gives (form_of command) (command_of command) operands.entry result }
{
    match command {
        CommandName::Ping => asked(ping::read_ping(alloc, operands)),
        CommandName::Xadd => asked(xadd::read_xadd(alloc, operands)),
        CommandName::Xtrim => asked(xtrim::read_xtrim(alloc, operands)),
        CommandName::Xdel => asked(xdel::read_xdel(alloc, operands)),
        CommandName::Xlen => asked(xlen::read_xlen(alloc, operands)),
        CommandName::Xrange => asked(xrange::read_xrange(alloc, operands)),
        CommandName::Xrevrange => asked(xrange::read_xrevrange(alloc, operands)),
        CommandName::Xack => asked(xack::read_xack(alloc, operands)),
        CommandName::XgroupCreate => asked(xgroup::read_xgroup_create(alloc, operands)),
        CommandName::XgroupSetId => asked(xgroup::read_xgroup_set_id(alloc, operands)),
        CommandName::XgroupDestroy => asked(xgroup::read_xgroup_destroy(alloc, operands)),
        CommandName::XgroupCreateConsumer => asked(xgroup::read_xgroup_create_consumer(
            alloc, operands,
        )),
        CommandName::XgroupDelConsumer => asked(xgroup::read_xgroup_del_consumer(alloc, operands)),
        CommandName::XinfoStream => asked(xinfo::read_xinfo_stream(alloc, operands)),
        CommandName::XinfoGroups => asked(xinfo::read_xinfo_groups(alloc, operands)),
        CommandName::XinfoConsumers => asked(xinfo::read_xinfo_consumers(alloc, operands)),
        CommandName::Xautoclaim => asked(xautoclaim::read_xautoclaim(alloc, operands)),
        CommandName::Xclaim => asked(xclaim::read_xclaim(alloc, operands)),
        CommandName::Xpending => asked(xpending::read_xpending(alloc, operands)),
        CommandName::Xread => asked(xread::read_xread(alloc, operands)),
        CommandName::Xreadgroup => asked(xreadgroup::read_xreadgroup(alloc, operands)),
        CommandName::RecoverPlan => recover::read_recover_plan(alloc, operands),
        CommandName::RecoverRun => recover::read_recover_run(alloc, operands),
        CommandName::RecoverBoard => recover::read_recover_board(alloc, operands),
    }
}

/// The command that is a call, if its words are one.
fn asked(read: Result<Call, CallFault>) -> Result<Command, CallFault>
    ensures { (form : Form) (call : Values form → calls.Call) (words : List Word) → Gives form call words read →
        Gives form (λ values. Command.Call (call values)) words result }
{
    let call = read?;
    Ok(Command::Call(call))
}
