//! What is said of progress on standard error.
ghost use Rattle.std.specs.Prelude.{◌≡◌, string_bytes, IfOk};
ghost use Rattle.pieces_lib.specs.Progress.{number_text, reading_text, total_said};

use lexdfa_lib::Verbosity;
use std::alloc::{AllocError, Global};

/// The line that says that a file of rules is read; nothing without progress.
///
/// # Errors
///
/// `AllocError` if a request for memory was refused.
pub fn reading_message(
    alloc: Global,
    verbosity: Verbosity,
    rules: &str,
) -> Result<String, AllocError>
    ensures message { IfOk result (λ message.
        string_bytes message ≡ reading_text verbosity rules.now) }
{
    match verbosity {
        Verbosity::Progress => format!(in alloc; "tokens: reading {rules}\n"),
        Verbosity::Quiet | Verbosity::Warnings => Ok(String::new(alloc)),
    }
}

/// How many files there are, if each is told before it is read.
pub(crate) fn total_said(verbosity: Verbosity, count: usize) -> Option<usize>
    ensures total { result ≡ total_said verbosity count }
{
    match verbosity {
        Verbosity::Progress => (count > 1).then_some(count),
        Verbosity::Quiet | Verbosity::Warnings => None,
    }
}

/// The line that says which of the files is read; nothing without their number.
///
/// # Errors
///
/// `AllocError` if a request for memory was refused.
pub(crate) fn number_message(
    alloc: Global,
    total: Option<usize>,
    number: usize,
    file: &str,
) -> Result<String, AllocError>
    ensures message { IfOk result (λ message.
        string_bytes message ≡ number_text total number file.now) }
{
    match total {
        Some(total) => format!(in alloc; "tokens: {file} ({number} of {total})\n"),
        None => Ok(String::new(alloc)),
    }
}
