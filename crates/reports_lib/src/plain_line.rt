//! The line of a piece in plain text.
ghost use Rattle.std.specs.Prelude.{◌≡◌, ◌++◌, codes, flat_map, option_map, string_bytes, unwrap_or, OnOk};
ghost use Rattle.reports_lib.specs.PieceLines.{byte_told, file_text, plain_line, slice_told};

use crate::numbers::push_numbers;
use crate::shown::Shown;
use lalrpop_lexer::{Position, push_escaped_char, push_quoted};
use std::alloc::{AllocError, Global};
use std::fmt::Write;
use std::str;

fn push_file(lines: &mut Vec<u8>, file: Option<&str>) -> Result<(), AllocError>
    ensures { OnOk result (lines.new.items
        ≡ lines.old.items ++ file_text (option_map (λ f. f.now) file.entry)) }
{
    if let Some(file) = file {
        lines.extend_from_slice(file.as_bytes())?;
        lines.push(b':')?;
    }
    Ok(())
}

// What stands for the name: a fault has `!`.
fn name_or_mark<'name>(name: Option<&'name str>) -> &'name str
    ensures { result.now ≡ unwrap_or (option_map (λ n. n.now) name.entry) (codes "!") }
{
    match name {
        Some(name) => name,
        None => "!",
    }
}

/// Appends a byte of text that isn't UTF-8: an ASCII character as it is shown in quotes, another byte in hexadecimal, such as `\xff`.
///
/// # Errors
///
/// `AllocError` if a request for memory was refused.
pub fn push_byte(text: &mut String, byte: u8) -> Result<(), AllocError>
    ensures told { OnOk result (string_bytes text.new ≡ string_bytes text.old ++ byte_told byte) }
{
    if byte.is_ascii() {
        return push_escaped_char(text, char::from(byte));
    }
    write!(text, "\\x{byte:x}")
}

// Appends a slice that isn't UTF-8 in double quotes, byte by byte.
fn push_bytes(alloc: Global, lines: &mut Vec<u8>, slice: &[u8]) -> Result<(), AllocError>
    ensures { OnOk result (lines.new.items
        ≡ lines.old.items ++ (codes "\"" ++ (flat_map byte_told slice.now ++ codes "\""))) }
{
    let mut text = String::from_str(alloc, "\"")?;
    for byte in slice {
        push_byte(&mut text, *byte)?;
    }
    text.push_str("\"")?;
    lines.extend_from_slice(text.as_bytes())
}

// Appends the slice in double quotes.
fn push_slice(alloc: Global, lines: &mut Vec<u8>, slice: &[u8]) -> Result<(), AllocError>
    ensures { OnOk result (lines.new.items ≡ lines.old.items ++ slice_told slice.now) }
{
    match str::from_utf8(slice) {
        Ok(text) => push_quoted(alloc, lines, text),
        Err(_) => push_bytes(alloc, lines, slice),
    }
}

/// Appends the line of a piece. What isn't UTF-8 in it is written in hexadecimal, such as `\xff`.
///
/// # Errors
///
/// `AllocError` if a request for memory was refused.
pub fn push_plain(
    alloc: Global,
    lines: &mut Vec<u8>,
    file: Option<&str>,
    position: Position,
    shown: &Shown<'_, '_, '_>,
) -> Result<(), AllocError>
    ensures { OnOk result (lines.new.items ≡ lines.old.items
        ++ plain_line (option_map (λ f. f.now) file.entry) position
        (option_map (λ n. n.now) shown.now.name) shown.now.slice.now) }
{
    push_file(lines, file)?;
    push_numbers(lines, position.line, b':', position.column, b' ')?;
    lines.extend_from_slice(name_or_mark(shown.name).as_bytes())?;
    lines.push(b' ')?;
    push_slice(alloc, lines, shown.slice)?;
    lines.push(b'\n')?;
    Ok(())
}
