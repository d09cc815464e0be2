//! The program's arguments, and the program itself.
ghost use Rattle.std.specs.Prelude.{◌≢◌, ◌≤◌, map, string_bytes, IfOk, IfErr};
ghost use Rattle.std.specs.Process.{exit_status};
ghost use Rattle.lexdfa_lib.specs.Options.{options, names};
ghost use Rattle.lexdfa_lib.specs.Command.{IsCommand, IsArgumentsError};

use std::alloc::Global;
use std::process::ExitCode;
use std::rt::{Env, Files};
use tokens_lib::{ArgumentsError, Command, command_of, run_program};

// Needs tokens_lib::command_of: command, error.
pub fn asked_for(alloc: Global, words: &[String]) -> Result<Command<'_>, ArgumentsError<'_>>
    ensures command { IfOk result (λ command.
        IsCommand (options (map string_bytes words.now)) (names (map string_bytes words.now))
        command) }
    ensures error { IfErr result (λ e. e ≢ ArgumentsError.OutOfMemory
        → IsArgumentsError (options (map string_bytes words.now))
        (names (map string_bytes words.now)) e) }
{
    command_of(alloc, words)
}

// The program itself, called from another `main`.
// Needs tokens_lib::run_program: status.
pub fn as_the_program<R: Env + Files + Input + Print + Eprint + AllocGlobal>(rt: &R) -> ExitCode
    ensures { exit_status result ≤ 6 }
{
    run_program(rt)
}
