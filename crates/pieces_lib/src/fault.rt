//! The messages for a place where nothing matches, for a text that ends in a mode that has one below it, and for a file that
//! can't be read to its end.
ghost use Rattle.std.specs.Prelude.{◌≡◌, ◌++◌, codes, string_bytes, IfOk, OnOk};
ghost use Rattle.reports_lib.specs.Answer.{about};
ghost use Rattle.pieces_lib.specs.TextAnswer.{fault_text, found_told, open_text, place_in};

use crate::cut_end::Found;
use lalrpop_lexer::{Position, push_escaped_char};
use reports_lib::{about, push_byte};
use std::alloc::{AllocError, Global};

/// The line that says that a file couldn't be read to its end.
///
/// # Errors
///
/// `AllocError` if a request for memory was refused.
pub(crate) fn unread_message(alloc: Global, file: &str) -> Result<String, AllocError>
    ensures message { IfOk result (λ message.
        string_bytes message ≡ about file.now (codes "read failed")) }
{
    about(alloc, file, "read failed")
}

// How a message about a place begins.
fn placed(alloc: Global, file: &str, place: Position) -> Result<String, AllocError>
    ensures { IfOk result (λ message.
        string_bytes message ≡ codes "tokens: " ++ place_in file.now place) }
{
    let Position { line, column } = place;
    format!(in alloc; "tokens: {file}:{line}:{column}: ")
}

// Appends what was found where no rule matches.
fn push_found(text: &mut String, found: Found) -> Result<(), AllocError>
    ensures told { OnOk result (string_bytes text.new ≡ string_bytes text.old ++ found_told found) }
{
    match found {
        Found::Character(c) => push_escaped_char(text, c),
        Found::Byte(byte) => push_byte(text, byte),
    }
}

/// The line that says where no rule matches, so that the text couldn't be cut further, and shows what was found there: a
/// character, or a byte as `\xff`.
///
/// # Errors
///
/// `AllocError` if a request for memory was refused.
pub(crate) fn fault_message(
    alloc: Global,
    file: &str,
    place: Position,
    found: Found,
) -> Result<String, AllocError>
    ensures message { IfOk result (λ message.
        string_bytes message ≡ fault_text file.now place (found_told found)) }
{
    let mut message = placed(alloc, file, place)?;
    message.push_str("no rule matches \"")?;
    push_found(&mut message, found)?;
    message.push_str("\"\n")?;
    Ok(message)
}

/// The line that says in which mode the text ends, and where that mode was entered.
///
/// # Errors
///
/// `AllocError` if a request for memory was refused.
pub(crate) fn open_message(
    alloc: Global,
    mode: &str,
    file: &str,
    place: Position,
) -> Result<String, AllocError>
    ensures message { IfOk result (λ message.
        string_bytes message ≡ open_text mode.now file.now place) }
{
    let mut message = placed(alloc, file, place)?;
    message.push_str("the text ends in mode ")?;
    message.push_str(mode)?;
    message.push_str(", which was entered here\n")?;
    Ok(message)
}
