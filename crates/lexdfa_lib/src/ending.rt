//! How a program ends: its status, and the line of `lexdfa` on standard error.
ghost use Rattle.std.specs.Prelude.{◌≡◌, Result, Err};
ghost use Rattle.lexdfa_lib.specs.Ending.{ending_status, ending_message};

use crate::error::RunError;
use crate::outcome::Outcome;

/// Why the program has no outcome.
///
/// ```
/// use lexdfa_lib::{Failure, status_of};
///
/// let status = status_of(&Err(Failure::Usage)); // 4
/// ```
#[derive(Drop)]
pub enum Failure {
    /// The program does not take these arguments.
    Usage,
    /// The run ended without an outcome, or the flush after it failed.
    Run(RunError),
}

/// How the program `lexdfa` ends.
///
/// ```
/// use lexdfa_lib::{Ending, Outcome};
///
/// let ending = Ending::of(&Ok(Outcome::NoMatch));
/// let status = ending.status; // 1
/// ```
#[derive(Drop)]
pub struct Ending {
    /// The exit status.
    pub status: u8,
    /// The line for standard error, with its line feed. It is empty if there is an outcome.
    pub message: &'static str,
}

/// The exit status of a program with this result: the status of the outcome or of the error, or 4 for wrong arguments.
pub fn status_of(found: &Result<Outcome, Failure>) -> u8
    ensures status { result ≡ ending_status found.now }
{
    match found {
        Ok(outcome) => outcome.status(),
        Err(Failure::Usage) => 4,
        Err(Failure::Run(error)) => error.status(),
    }
}

impl Ending {
    /// How the program `lexdfa` ends with this result. There is a message only if there is no outcome.
    pub fn of(found: &Result<Outcome, Failure>) -> Ending
        ensures status { result.status ≡ ending_status found.now }
        ensures message { result.message.now ≡ ending_message found.now }
    {
        let message = match found {
            Ok(_) => "",
            Err(Failure::Usage) => "lexdfa: usage: lexdfa [--all] TEXT\n",
            Err(Failure::Run(error)) => error_message(error),
        };
        Ending {
            status: status_of(found),
            message,
        }
    }
}

fn error_message(error: &RunError) -> &'static str
    ensures { result.now ≡ ending_message (Err (Failure.Run error.now)) }
{
    match error {
        RunError::OutOfMemory => "lexdfa: out of memory\n",
        RunError::Read => "lexdfa: read failed\n",
        RunError::Write => "lexdfa: write failed\n",
    }
}
