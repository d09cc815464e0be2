//! The lines of a file.
ghost use Rattle.std.specs.Prelude.{◌≡◌, ◌≤◌, ◌-◌, ℕ, List, ◌++◌, length, take, IfOk, IfErr};
ghost use Rattle.std.specs.Str.{IsUtf8};
ghost use Rattle.bajofeki_rules.specs.Position.{position_of};
ghost use Rattle.lalrpop_rule_file.specs.RuleFile.{IsTextLine, LineSays, without_return as without_return_of};
ghost use Rattle.lalrpop_rule_file.specs.Internal.Values.{KeepsPlaces, said_of};
ghost use Rattle.lalrpop_rule_file.specs.Internal.Lines.{IsErrorOfLine};

use crate::error::{LineFault, RuleFileError};
use crate::line::said_by;
use crate::stop::Unread;
use crate::written::Said;
use bajofeki_rules::Position;
use std::alloc::Global;

/// What a line of a file says, and its text without the carriage return at its end.
#[derive(Drop)]
pub(crate) struct FileLine<'text> {
    pub content: &'text str,
    pub said: Said<'text>,
}

// The line without the carriage return at its end.
fn without_return(line: &str) -> &str
    ensures { result.now ≡ without_return_of line.now }
{
    match line.strip_suffix('\r') {
        Some(before) => before,
        None => line,
    }
}

/// The column in which the rest of a line begins.
pub(crate) fn column_of(line: &str, rest: &str) -> usize
    requires { (front : List ℕ) × (line.now ≡ front ++ rest.now) }
    ensures { result ≡ (position_of line.now (length line.now - length rest.now)).column }
{
    Position::of(line, line.len() - rest.len()).column
}

// The column after the first `at` bytes; 1 if they aren't UTF-8.
fn column_behind(bytes: &[u8], at: usize) -> usize
    requires at { at ≤ length bytes.now }
    ensures { IsUtf8 (take at bytes.now) → result ≡ (position_of bytes.now at).column }
{
    match str::from_utf8(&bytes[..at]) {
        Ok(front) => column_of(front, ""),
        Err(_) => 1,
    }
}

// The text of the line with this number.
fn text_of(number: usize, line: &[u8]) -> Result<&str, RuleFileError>
    ensures utf8 { IfOk result (λ _. IsUtf8 line.now) }
    ensures text { IfOk result (λ text. text.now ≡ line.now) }
    ensures error { IfErr result (λ e. IsErrorOfLine number line.now e) }
{
    match str::from_utf8(line) {
        Ok(text) => Ok(text),
        Err(error) => Err(RuleFileError::BadLine {
            line: number,
            column: column_behind(line, error.valid_up_to()),
            fault: LineFault::NotUtf8,
        }),
    }
}

// The same without the carriage return at its end, where there is no other.
fn content_of(number: usize, line: &[u8]) -> Result<&str, RuleFileError>
    ensures text { IfOk result (λ _. IsTextLine line.now) }
    ensures content { IfOk result (λ content. content.now ≡ without_return_of line.now) }
    ensures error { IfErr result (λ e. IsErrorOfLine number line.now e) }
{
    let content = without_return(text_of(number, line)?);
    match content.find('\r') {
        Some(at) => Err(RuleFileError::BadLine {
            line: number,
            column: column_of(content, &content[at..]),
            fault: LineFault::CarriageReturn,
        }),
        None => Ok(content),
    }
}

/// What the line with this number says.
pub(crate) fn read_line<'text>(
    alloc: Global,
    number: usize,
    line: &'text [u8],
) -> Result<FileLine<'text>, RuleFileError>
    ensures says { IfOk result (λ m. LineSays line.now (said_of m.said)) }
    ensures content { IfOk result (λ m. m.content.now ≡ without_return_of line.now) }
    ensures kept { IfOk result (λ m. KeepsPlaces m.content.now m.said) }
    ensures error { IfErr result (λ e. IsErrorOfLine number line.now e) }
{
    let content = content_of(number, line)?;
    match said_by(alloc, content) {
        Ok(said) => Ok(FileLine { content, said }),
        Err(Unread::Stopped(stop)) => Err(RuleFileError::BadLine {
            line: number,
            column: column_of(content, stop.rest),
            fault: stop.fault,
        }),
        Err(Unread::OutOfMemory) => Err(RuleFileError::OutOfMemory),
    }
}
