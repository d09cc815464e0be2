//! The program `lexdfa`: its arguments, a flush after the last line, what it says if it fails, and its exit status.
ghost use Rattle.std.specs.Prelude.{◌≡◌, ◌≢◌, ◌↔◌, ◌≤◌, IsOk, IfOk, IfErr};
ghost use Rattle.std.specs.IoError.{error_kind};
ghost use Rattle.std.specs.Process.{exit_status};
ghost use Rattle.lexdfa_lib.specs.Ending.{ending_status, ending_message};
ghost use Rattle.lexdfa_lib.specs.Run.{AreLines, Answers};
ghost use Rattle.lexdfa_lib.specs.Streams.{Stream, IsTold};

use crate::answer::run_over;
use crate::command_line::arguments;
use crate::ending::{Ending, Failure};
use crate::error::RunError;
use crate::files::ErrorStream;
use crate::outcome::Outcome;
use crate::streams::{Reader, Source, Watched, Writer};
use std::alloc::Global;
use std::env;
use std::io::{self, Eprint, ErrorKind, Write};
use std::process::ExitCode;
use std::rt::Env;

/// What an error of `std::env::args` is: out of memory, or an argument that isn't UTF-8.
pub fn without_arguments(error: &io::Error) -> Failure
    ensures memory { error_kind error.now ≡ ErrorKind.OutOfMemory
        → result ≡ Failure.Run RunError.OutOfMemory }
    ensures usage { error_kind error.now ≢ ErrorKind.OutOfMemory → result ≡ Failure.Usage }
{
    match error.kind() {
        ErrorKind::OutOfMemory => Failure::Run(RunError::OutOfMemory),
        _ => Failure::Usage,
    }
}

/// What a program has found, unless the flush after its last line has failed.
///
/// # Errors
///
/// A failed flush is a failed write.
pub fn flushed<T: Drop>(found: T, flush: &io::Result<()>) -> Result<T, Failure>
    ensures ok { IsOk result ↔ IsOk flush.now }
    ensures same { IfOk result (λ value. value ≡ found) }
    ensures write { IfErr result (λ e. e ≡ Failure.Run RunError.Write) }
{
    match flush {
        Ok(()) => Ok(found),
        Err(_) => Err(Failure::Run(RunError::Write)),
    }
}

/// `run_all`, or `run` if not all of the text is to be cut, and a flush after the last line.
///
/// # Errors
///
/// As `run`; a failed flush is a failed write.
pub fn run_and_flush<I: Source, W: Write + Drop>(
    alloc: Global,
    all: bool,
    reader: &mut Reader<I>,
    text: &str,
    mut writer: Writer<Watched<W>>,
) -> Result<Outcome, Failure>
    ensures answer { IfOk result (λ outcome. (taken : Stream) × Answers (AreLines all text.now)
        reader.old reader.new writer taken outcome) }
    ensures usage { IfErr result (λ e. e ≢ Failure.Usage) }
{
    match run_over(alloc, all, reader, text, &mut writer) {
        Ok(outcome) => flushed(outcome, &writer.into_sink().into_inner().flush()),
        Err(error) => Err(Failure::Run(error)),
    }
}

fn answer(rt: &(impl Env + Input + Print + AllocGlobal)) -> Result<Outcome, Failure> {
    let args = env::args(rt).map_err(|error| without_arguments(&error))?;
    let Ok(words) = args.skip(1).collect::<Vec<String>>(rt.alloc()) else {
        return Err(Failure::Run(RunError::OutOfMemory));
    };
    let (all, text) = arguments(&words).ok_or(Failure::Usage)?;
    let mut reader = Reader::new(Watched::new(rt.reader()));
    let writer = Writer::new(Watched::new(io::writer(rt)));
    run_and_flush(rt.alloc(), all, &mut reader, text, writer)
}

// Says why there is no outcome, if there is none, and returns the exit status.
fn finish<W: Write + Drop>(found: &Result<Outcome, Failure>, err: &mut Writer<Watched<W>>) -> u8
    ensures status { result ≡ ending_status found.now }
    ensures said { IsTold err.old (ending_message found.now) err.new }
    ensures bound { result ≤ 6 }
{
    let Ending { status, message } = Ending::of(found);
    // If writing to standard error fails, the exit status still reports the error.
    let _ = err.tell(message);
    status
}

/// Does what the arguments say (`arguments`): reads terminals from standard input, and writes the lines of `run` or of `run_all` to
/// standard output. Errors are explained on standard error, and the exit status is that of `status_of`.
pub fn run_program<R: Env + Input + Print + Eprint + AllocGlobal>(rt: &R) -> ExitCode
    ensures status { exit_status result ≤ 6 }
{
    let mut err = Writer::new(Watched::new(ErrorStream { rt }));
    ExitCode::from(finish(&answer(rt), &mut err))
}
