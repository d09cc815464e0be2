//! The statuses and the lines that a program ends with.
ghost use Rattle.std.specs.Prelude.{◌≡◌, ◌≢◌, ◌≤◌, ◌++◌, ℕ, List, length, IfOk, IfErr, OnOk, OnErr, string_bytes};
ghost use Rattle.std.specs.IoError.{error_kind};
ghost use Rattle.std.specs.Process.{exit_status};
ghost use Rattle.lexdfa_lib.specs.Ending.{ending_status, ending_message};
ghost use Rattle.lexdfa_lib.specs.Printed.{line_of};
ghost use Rattle.lexdfa_lib.specs.Run.{AreLines};
ghost use Rattle.lexdfa_lib.specs.Status.{outcome_status, error_status};
ghost use Rattle.lexdfa_lib.specs.Streams.{AtEnd, Reads};

use lexdfa_lib::{
    Ending, Failure, Outcome, Reader, RunError, Source, Watched, Word, Writer, clash_line, flushed,
    outcome_line, run_and_flush, run_program, without_arguments,
};
use std::alloc::{AllocError, Global};
use std::io::{self, Eprint, ErrorKind, Write};
use std::process::ExitCode;
use std::rt::Env;

// Needs lexdfa_lib::Outcome::status: status.
// Needs lexdfa_lib::RunError::status: status.
/// The exit status for the result of a run.
pub fn status_of(found: &Result<Outcome, RunError>) -> u8
    ensures outcome { IfOk found.now (λ outcome. result ≡ outcome_status outcome) }
    ensures error { IfErr found.now (λ error. result ≡ error_status error) }
{
    match found {
        Ok(outcome) => outcome.status(),
        Err(error) => error.status(),
    }
}

// Needs lexdfa_lib::Ending::of: status, message.
/// The exit status of a program, and how long its message is.
pub fn status_and_message(found: &Result<Outcome, Failure>) -> (u8, usize)
    ensures status { result.0 ≡ ending_status found.now }
    ensures message { result.1 ≡ length (ending_message found.now) }
{
    let Ending { status, message } = Ending::of(found);
    (status, message.len())
}

// Needs lexdfa_lib::outcome_line: line.
/// A text, followed by the line of an outcome.
///
/// # Errors
///
/// `AllocError` if a request for memory was refused.
pub fn with_line(alloc: Global, mut text: String, outcome: &Outcome) -> Result<String, AllocError>
    ensures line { IfOk result (λ whole. string_bytes whole
        ≡ string_bytes text ++ line_of outcome.now) }
{
    let line = outcome_line(alloc, outcome)?;
    text.push_str(line.as_str())?;
    Ok(text)
}

// Needs lexdfa_lib::clash_line: line.
/// The line of a clash of the first two terminals.
///
/// # Errors
///
/// `AllocError` if a request for memory was refused.
pub fn first_two_clash(alloc: Global, word: &Word) -> Result<String, AllocError>
    ensures line { IfOk result (λ line. string_bytes line
        ≡ line_of (Outcome.Ambiguous 1 0 word.now)) }
{
    clash_line(alloc, 1, 0, word)
}

// Needs lexdfa_lib::without_arguments: memory, usage.
// Needs lexdfa_lib::status_of: status.
/// The status of a program whose arguments can't be read.
pub fn status_without_arguments(error: &io::Error) -> u8
    ensures memory { error_kind error.now ≡ ErrorKind.OutOfMemory → result ≡ 5 }
    ensures usage { error_kind error.now ≢ ErrorKind.OutOfMemory → result ≡ 4 }
{
    lexdfa_lib::status_of(&Err(without_arguments(error)))
}

// Needs lexdfa_lib::flushed: ok, same, write.
/// The status after the flush of what was written.
pub fn status_after(status: u8, flush: &io::Result<()>) -> u8
    ensures ok { OnOk flush.now (result ≡ status) }
    ensures write { OnErr flush.now (result ≡ 6) }
{
    match flushed(status, flush) {
        Ok(status) => status,
        Err(failure) => lexdfa_lib::status_of(&Err(failure)),
    }
}

// Needs lexdfa_lib::run_and_flush: answer, usage.
/// The outcome for a text, or for its front if not all of it is cut.
///
/// # Errors
///
/// The status of the failure: 5 or 6.
pub fn outcome_for<I: Source, W: Write + Drop>(
    alloc: Global,
    all: bool,
    reader: &mut Reader<I>,
    text: &str,
    writer: W,
) -> Result<Outcome, u8>
    ensures outcome { IfOk result (λ outcome. (bytes : List ℕ)
        × (Reads reader.old reader.new (record { bytes = bytes; end = AtEnd })
        × ((written : List ℕ) × AreLines all text.now bytes outcome written))) }
    ensures status { IfErr result (λ status. 5 ≤ status) }
{
    match run_and_flush(alloc, all, reader, text, Writer::new(Watched::new(writer))) {
        Ok(outcome) => Ok(outcome),
        Err(failure) => Err(lexdfa_lib::status_of(&Err(failure))),
    }
}

// Needs lexdfa_lib::run_program: status.
/// The program itself, called from another `main`.
pub fn as_the_program<R: Env + Input + Print + Eprint + AllocGlobal>(rt: &R) -> ExitCode
    ensures { exit_status result ≤ 6 }
{
    run_program(rt)
}
