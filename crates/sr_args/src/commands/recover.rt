ghost use Rattle.std.specs.Prelude.{◌≡◌, ℕ, Option, IfOk, IfSome, IfNone};
ghost use Rattle.std.specs.Option.{option_copied};
ghost use Rattle.sr_args.specs.Form.{Reading, Reads};
ghost use Rattle.sr_args.specs.commands.RecoverBoard as board_form;
ghost use Rattle.sr_args.specs.commands.RecoverPlan as plan_form;
ghost use Rattle.sr_args.specs.commands.RecoverRun as run_form;
ghost use Rattle.sr_args.specs.steps.Gives.{Gives};
ghost use Rattle.sr_args.specs.steps.Rounds.{dead_form, dead_of, rounds_form, rounds_of, IsMaybeTries};

use crate::commands::named::read_group;
use crate::name::is_named;
use crate::number::read_tries;
use crate::table::Row;
use crate::value::{copy_word, number_word};
use crate::{CallFault, Command, Names, OptionName};
use sr_bytes::Unread;
use std::alloc::{AllocError, Global};

/// What the table says of RECOVER.PLAN.
pub(crate) const PLAN_ROW: Row = Row {
    first: b"RECOVER.PLAN",
    second: None,
    fewest: 5,
    most: None,
};

/// What the table says of RECOVER.RUN.
pub(crate) const RUN_ROW: Row = Row {
    first: b"RECOVER.RUN",
    second: None,
    fewest: 5,
    most: None,
};

/// What the table says of RECOVER.BOARD.
pub(crate) const BOARD_ROW: Row = Row {
    first: b"RECOVER.BOARD",
    second: None,
    fewest: 3,
    most: Some(3),
};

/// How many rounds a recovery makes at most if TRIES does not say.
const USUAL_TRIES: u64 = 3;

/// How many rounds a recovery makes at most, and which consumers are dead.
#[derive(Drop)]
struct Rounds {
    tries: u64,
    dead: Names,
}

/// The words of these, in their places.
#[derive(Drop)]
struct RoundsWords<'a> {
    tries: Option<&'a [u8]>,
    dead: Unread<'a>,
}

/// `RECOVER.BOARD key group`
pub(crate) fn read_recover_board(alloc: Global, words: Unread<'_>) -> Result<Command, CallFault>
    ensures { Gives board_form.form board_form.command words.entry result }
{
    let named = read_group(alloc, words)?;
    Ok(Command::Board {
        key: named.key,
        group: named.group,
    })
}

/// `RECOVER.PLAN key group DEAD consumer [consumer ..]`
pub(crate) fn read_recover_plan(alloc: Global, mut words: Unread<'_>) -> Result<Command, CallFault>
    ensures { Gives plan_form.form plan_form.command words.entry result }
{
    let Some(key) = words.next() else {
        return Err(CallFault::Syntax);
    };
    let Some(group) = words.next() else {
        return Err(CallFault::Syntax);
    };
    let dead = read_dead(alloc, words)?;
    let key = copy_word(alloc, key)?;
    let group = copy_word(alloc, group)?;
    Ok(Command::Recover {
        apply: false,
        tries: USUAL_TRIES,
        key,
        group,
        dead,
    })
}

/// `RECOVER.RUN key group [TRIES number] DEAD consumer [consumer ..]`
pub(crate) fn read_recover_run(alloc: Global, mut words: Unread<'_>) -> Result<Command, CallFault>
    ensures { Gives run_form.form run_form.command words.entry result }
{
    let Some(key) = words.next() else {
        return Err(CallFault::Syntax);
    };
    let Some(group) = words.next() else {
        return Err(CallFault::Syntax);
    };
    let rounds = read_rounds(alloc, words)?;
    let key = copy_word(alloc, key)?;
    let group = copy_word(alloc, group)?;
    Ok(Command::Recover {
        apply: true,
        tries: rounds.tries,
        key,
        group,
        dead: rounds.dead,
    })
}

/// `[TRIES number] DEAD consumer [consumer ..]`
fn read_rounds(alloc: Global, words: Unread<'_>) -> Result<Rounds, CallFault>
    ensures { Gives rounds_form rounds_of words.entry result }
{
    let Some(read) = rounds_words(words) else {
        return Err(CallFault::Syntax);
    };
    let Some(tries) = read_maybe_tries(read.tries) else {
        return Err(CallFault::Number);
    };
    let dead = copy_words(alloc, read.dead)?;
    Ok(Rounds {
        tries: tries.unwrap_or(USUAL_TRIES),
        dead,
    })
}

/// `DEAD consumer [consumer ..]`
fn read_dead(alloc: Global, words: Unread<'_>) -> Result<Names, CallFault>
    ensures { Gives dead_form dead_of words.entry result }
{
    let Some(dead) = dead_words(words) else {
        return Err(CallFault::Syntax);
    };
    let dead = copy_words(alloc, dead)?;
    Ok(dead)
}

/// The word of the number after TRIES or nothing, and the dead consumers.
fn rounds_words(mut words: Unread<'_>) -> Option<RoundsWords<'_>>
    ensures found { IfSome result (λ read. Reads rounds_form words.entry (option_copied read.tries, read.dead)) }
    ensures none { IfNone result ((reading : Reading rounds_form) → Reads rounds_form words.entry reading → ⊥) }
{
    let tries = number_word(OptionName::Tries, &mut words)?;
    let dead = dead_words(words)?;
    Some(RoundsWords { tries, dead })
}

/// The words after DEAD, which is the next one. There is at least one.
fn dead_words(mut words: Unread<'_>) -> Option<Unread<'_>>
    ensures found { IfSome result (λ dead. Reads dead_form words.entry dead) }
    ensures none { IfNone result ((reading : Reading dead_form) → Reads dead_form words.entry reading → ⊥) }
{
    if !is_named(words.next()?, OptionName::Dead) {
        return None;
    }
    if words.is_empty() {
        return None;
    }
    Some(words)
}

/// The number of rounds that a word writes, if there is a word.
fn read_maybe_tries(word: Option<&[u8]>) -> Option<Option<u64>>
    ensures found { IfSome result (IsMaybeTries (option_copied word.entry)) }
    ensures none { IfNone result ((n : Option ℕ) → IsMaybeTries (option_copied word.entry) n → ⊥) }
{
    match word {
        None => Some(None),
        Some(word) => Some(Some(read_tries(word)?)),
    }
}

/// Copies of words, in their order.
fn copy_words(alloc: Global, mut words: Unread<'_>) -> Result<Names, AllocError>
    ensures { IfOk result (λ copies. copies ≡ words.entry) }
{
    let mut list = Vec::with_capacity(alloc, words.len())?;
    while let Some(word) = words.next() {
        list.push(copy_word(alloc, word)?)?;
    }
    Ok(Names::new(list))
}
