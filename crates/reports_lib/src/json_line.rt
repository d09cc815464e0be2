//! The line of a piece as a JSON object, and members of any object.
ghost use Rattle.std.specs.Prelude.{◌≡◌, ◌+◌, ◌≤◌, ◌∷◌, [], ◌++◌, codes, length, option_map, IfOk, OnOk};
ghost use Rattle.std.specs.Str.Lossy.{utf8_lossy};
ghost use Rattle.json.specs.Print.{print};
ghost use Rattle.json.specs.Token.{begin_object, end_object, key, string};
ghost use Rattle.reports_lib.specs.PieceLines.{number_member, string_member, file_member, rule_member, mode_member, object_of, json_line, escaped};

use crate::escaped::escape_from;
use crate::shown::Shown;
use json::Writer;
use lalrpop_lexer::Position;
use std::alloc::{AllocError, Global};
use std::{mem, str};

/// Writes a member whose value is a number.
///
/// # Errors
///
/// `AllocError` if a request for memory was refused.
pub fn write_number(writer: &mut Writer, name: &str, number: usize) -> Result<(), AllocError>
    ensures tokens { OnOk result (writer.new.tokens
        ≡ writer.old.tokens ++ number_member name.now number) }
    ensures before { writer.new.before ≡ writer.old.before }
{
    writer.key(name)?;
    writer.u64(number as u64)
}

/// Writes a member whose value is a string.
///
/// # Errors
///
/// `AllocError` if a request for memory was refused.
pub fn write_string(writer: &mut Writer, name: &str, text: &str) -> Result<(), AllocError>
    ensures tokens { OnOk result (writer.new.tokens
        ≡ writer.old.tokens ++ string_member name.now text.now) }
    ensures before { writer.new.before ≡ writer.old.before }
{
    writer.key(name)?;
    writer.string(text)
}

fn write_file(writer: &mut Writer, file: Option<&str>) -> Result<(), AllocError>
    ensures tokens { OnOk result (writer.new.tokens
        ≡ writer.old.tokens ++ file_member (option_map (λ f. f.now) file.entry)) }
    ensures before { writer.new.before ≡ writer.old.before }
{
    match file {
        Some(file) => write_string(writer, "file", file),
        None => Ok(()),
    }
}

fn write_rule(writer: &mut Writer, name: Option<&str>) -> Result<(), AllocError>
    ensures tokens { OnOk result (writer.new.tokens
        ≡ writer.old.tokens ++ rule_member (option_map (λ n. n.now) name.entry)) }
    ensures before { writer.new.before ≡ writer.old.before }
{
    match name {
        Some(name) => write_string(writer, "rule", name),
        None => {
            writer.key("rule")?;
            writer.null()
        }
    }
}

/// Writes the member `mode`, if the mode is named.
///
/// # Errors
///
/// `AllocError` if a request for memory was refused.
pub fn write_mode(writer: &mut Writer, mode: Option<&str>) -> Result<(), AllocError>
    ensures tokens { OnOk result (writer.new.tokens
        ≡ writer.old.tokens ++ mode_member (option_map (λ m. m.now) mode.entry)) }
    ensures before { writer.new.before ≡ writer.old.before }
{
    match mode {
        Some(mode) => write_string(writer, "mode", mode),
        None => Ok(()),
    }
}

// Where the piece begins and ends.
fn write_places(
    writer: &mut Writer,
    position: Position,
    start: usize,
    end: usize,
) -> Result<(), AllocError>
    ensures tokens { OnOk result (writer.new.tokens ≡ writer.old.tokens
        ++ (number_member (codes "line") position.line ++ (number_member (codes "column") position.column
        ++ (number_member (codes "start") start ++ number_member (codes "end") end)))) }
    ensures before { writer.new.before ≡ writer.old.before }
{
    write_number(writer, "line", position.line)?;
    write_number(writer, "column", position.column)?;
    write_number(writer, "start", start)?;
    write_number(writer, "end", end)
}

// Writes the slice. U+FFFD stands for what isn't UTF-8 in it.
fn write_slice(alloc: Global, writer: &mut Writer, slice: &[u8]) -> Result<(), AllocError>
    ensures tokens { OnOk result (writer.new.tokens
        ≡ writer.old.tokens ++ string_member (codes "text") (utf8_lossy slice.now)) }
    ensures before { writer.new.before ≡ writer.old.before }
{
    match str::from_utf8(slice) {
        Ok(text) => write_string(writer, "text", text),
        Err(_) => {
            let text = String::from_utf8_lossy(alloc, slice)?;
            write_string(writer, "text", &text)
        }
    }
}

fn write_object(
    alloc: Global,
    writer: &mut Writer,
    file: Option<&str>,
    position: Position,
    shown: &Shown<'_, '_, '_>,
) -> Result<(), AllocError>
    requires fits { shown.now.start + length shown.now.slice.now ≤ usize.MAX }
    ensures tokens { OnOk result (writer.new.tokens ≡ writer.old.tokens
        ++ object_of (option_map (λ f. f.now) file.entry) position shown.now.start
        (option_map (λ n. n.now) shown.now.name) (option_map (λ m. m.now) shown.now.mode)
        shown.now.slice.now) }
    ensures before { writer.new.before ≡ writer.old.before }
{
    writer.begin_object()?;
    write_file(writer, file)?;
    write_places(
        writer,
        position,
        shown.start,
        shown.start + shown.slice.len(),
    )?;
    write_rule(writer, shown.name)?;
    write_mode(writer, shown.mode)?;
    write_slice(alloc, writer, shown.slice)?;
    writer.end_object()
}

/// Appends the line of a piece. U+FFFD stands for what isn't UTF-8 in it, and characters that aren't seen are escaped.
///
/// # Errors
///
/// `AllocError` if a request for memory was refused.
pub fn push_json(
    alloc: Global,
    lines: &mut Vec<u8>,
    file: Option<&str>,
    position: Position,
    shown: &Shown<'_, '_, '_>,
) -> Result<(), AllocError>
    requires fits { shown.now.start + length shown.now.slice.now ≤ usize.MAX }
    ensures { OnOk result (lines.new.items ≡ lines.old.items
        ++ json_line (option_map (λ f. f.now) file.entry) position shown.now.start
        (option_map (λ n. n.now) shown.now.name) (option_map (λ m. m.now) shown.now.mode)
        shown.now.slice.now) }
{
    let start = lines.len();
    let mut writer = Writer::new(mem::replace(lines, Vec::new(alloc)));
    write_object(alloc, &mut writer, file, position, shown)?;
    let mut all = writer.into_inner();
    escape_from(alloc, &mut all, start)?;
    all.push(b'\n')?;
    *lines = all;
    Ok(())
}

/// An object that is begun, on a line of its own.
///
/// # Errors
///
/// `AllocError` if a request for memory was refused.
pub fn begun_object(alloc: Global) -> Result<Writer, AllocError>
    ensures tokens { IfOk result (λ writer. writer.tokens ≡ begin_object ∷ []) }
    ensures before { IfOk result (λ writer. writer.before ≡ []) }
{
    let mut writer = Writer::new(Vec::new(alloc));
    writer.begin_object()?;
    Ok(writer)
}

/// Ends the object and its line. Characters that aren't seen are escaped.
///
/// # Errors
///
/// `AllocError` if a request for memory was refused.
pub fn ended_line(alloc: Global, mut writer: Writer) -> Result<Vec<u8>, AllocError>
    ensures { IfOk result (λ line. line.items
        ≡ escaped (writer.before ++ print (writer.tokens ++ end_object ∷ [])) ++ codes "\n") }
{
    writer.end_object()?;
    let mut line = writer.into_inner();
    escape_from(alloc, &mut line, 0)?;
    line.push(b'\n')?;
    Ok(line)
}
