ghost use Rattle.std.specs.Prelude.{◌≡◌, ◌≢◌, ℕ, ◌<◌, ◌⊎◌, List, length, Result, Err, IfOk, IfErr};
ghost use Rattle.sr_args.specs.declared.call.Command as declared;
ghost use Rattle.sr_args.specs.declared.fault.CallFault as faults;
ghost use Rattle.sr_args.specs.Command.{IsCommand, Refuses, Answers};

use crate::table::{Found, find_command, is_counted, read_operands};
use crate::{CallFault, Command};
use sr_bytes::Words;
use std::alloc::Global;

/// The command that the words of a request write.
///
/// The first words name the command. Of several faults the first is answered, in the order of `CallFault`.
///
/// Source: Redis documentation, the page of each command.
pub fn read_call(alloc: Global, words: &Words) -> Result<Command, CallFault>
    requires { 0 < length words.now }
    ensures ok { IfOk result (λ command. IsCommand words.now command) }
    ensures err { IfErr result (Refuses words.now) }
    // the one right answer, unless memory runs out
    ensures only { (answer : Result declared.Command faults.CallFault) → answer ≢ Err CallFault.Memory →
        Answers words.now answer → (result ≡ answer) ⊎ (result ≡ Err CallFault.Memory) }
{
    match find_command(&words.unread()) {
        Found::Unknown => Err(CallFault::Unknown),
        Found::HalfNamed => Err(CallFault::Arity),
        Found::Command(command, operands) => {
            if !is_counted(command, words.len()) {
                return Err(CallFault::Arity);
            }
            read_operands(alloc, command, operands)
        }
    }
}

/// Words have one right answer: two right answers are equal, unless one of them is for memory that ran out.
pub fn one_answer()
    ensures { (words : List (List ℕ)) (a b : Result declared.Command faults.CallFault) →
        a ≢ Err CallFault.Memory → b ≢ Err CallFault.Memory → Answers words a → Answers words b → a ≡ b }
{}
