//! A line of a file, as messages show it.
ghost use Rattle.std.specs.Prelude.{◌≡◌, ◌-◌, ◌++◌, [], map, take, drop, length, chars, option_map, unwrap_or, slice_get, string_bytes, IfOk};
ghost use Rattle.std.specs.Str.{encode_utf8_all};
ghost use Rattle.bajofeki_rules.specs.Lines.{lines};
ghost use Rattle.lalrpop_rule_file.specs.RuleFile.{without_return as without_return_of};
ghost use Rattle.reports_lib.specs.ShownLine.{dots, first_shown, numbered, pointed, pointed_from, shown, sign, signs_at};

use bajofeki_rules::split_line;
use lalrpop_lexer::is_unseen;
use std::alloc::{AllocError, Global};
use unicode_width::UnicodeWidthStr;

// The most signs of a line that are shown.
const MOST_SHOWN: usize = 160;

// At most this many of a long line stand before the place.
const BEFORE: usize = 100;

// The line with this number, from 1, or an empty one if there are fewer.
fn line_at(bytes: &[u8], number: usize) -> &[u8]
    ensures { result.now ≡ unwrap_or (slice_get (lines bytes.now) (number - 1)) [] }
{
    let mut rest = bytes;
    for passed in 0..number.saturating_sub(1) {
        match split_line(rest) {
            Some((_, after)) => rest = after,
            None => return &[],
        }
    }
    match split_line(rest) {
        Some((line, _)) => line,
        None => &[],
    }
}

// The line without the carriage return at its end.
fn without_return(line: &str) -> &str
    ensures { result.now ≡ without_return_of line.now }
{
    match line.strip_suffix('\r') {
        Some(before) => before,
        None => line,
    }
}

// What is shown for a character, so that none can steer a terminal.
fn sign(c: char) -> char
    ensures { result ≡ sign c }
{
    if c == '\t' {
        ' '
    } else if is_unseen(c) {
        '\u{fffd}'
    } else {
        c
    }
}

fn signs_of(alloc: Global, text: &str) -> Result<Vec<char>, AllocError>
    ensures { IfOk result (λ signs. signs.items ≡ map sign (chars text.now)) }
{
    let mut signs = Vec::new(alloc);
    for c in text.chars() {
        signs.push(sign(c))?;
    }
    Ok(signs)
}

// The signs of the line with this number; None if it isn't UTF-8.
fn signs_at(alloc: Global, bytes: &[u8], number: usize) -> Result<Option<Vec<char>>, AllocError>
    ensures { IfOk result (λ signs.
        option_map (λ s. s.items) signs ≡ signs_at (lines bytes.now) number) }
{
    match str::from_utf8(line_at(bytes, number)) {
        Ok(text) => Ok(Some(signs_of(alloc, without_return(text))?)),
        Err(_) => Ok(None),
    }
}

// The signs from the first one up to the end, which may lie beyond the last.
fn between(signs: &[char], first: usize, end: usize) -> &[char]
    ensures { result.now ≡ drop first (take end signs.now) }
{
    let front = &signs[..end.min(signs.len())];
    &front[first.min(front.len())..]
}

// The signs, after dots if any are left out before them.
fn after_dots(alloc: Global, before: usize, signs: &[char]) -> Result<String, AllocError>
    ensures { IfOk result (λ text.
        string_bytes text ≡ encode_utf8_all (dots before ++ signs.now)) }
{
    let mut text = String::new(alloc);
    if before > 0 {
        text.push('…')?;
    }
    for c in signs {
        text.push(*c)?;
    }
    Ok(text)
}

// What is shown of the signs, where this many before them are left out.
fn shown(alloc: Global, before: usize, signs: &[char]) -> Result<String, AllocError>
    ensures { IfOk result (λ text. string_bytes text ≡ shown before signs.now) }
{
    let mut text = after_dots(alloc, before, between(signs, 0, MOST_SHOWN))?;
    if signs.len() > MOST_SHOWN {
        text.push('…')?;
    }
    Ok(text)
}

// The first sign of a line that is shown.
fn first_shown(count: usize, place: usize) -> usize
    ensures { result ≡ first_shown count place }
{
    if count > MOST_SHOWN {
        place.saturating_sub(BEFORE)
    } else {
        0
    }
}

fn pointed_from(
    alloc: Global,
    first: usize,
    signs: &[char],
    place: usize,
) -> Result<String, AllocError>
    ensures { IfOk result (λ text. string_bytes text ≡ pointed_from first signs.now place) }
{
    let line = shown(alloc, first, between(signs, first, signs.len()))?;
    let before = after_dots(alloc, first, between(signs, first, place))?;
    let blanks = " ".repeat(alloc, before.as_str().width())?;
    format!(in alloc; "    {line}\n    {blanks}^\n")
}

/// The line with this number, and below it a caret under this column, both from 1; nothing if the line isn't UTF-8.
///
/// # Errors
///
/// `AllocError` if a request for memory was refused.
pub(crate) fn pointed(
    alloc: Global,
    bytes: &[u8],
    number: usize,
    column: usize,
) -> Result<String, AllocError>
    ensures pointed { IfOk result (λ text.
        string_bytes text ≡ pointed (signs_at (lines bytes.now) number) (column - 1)) }
{
    let place = column.saturating_sub(1);
    match signs_at(alloc, bytes, number)? {
        Some(signs) => pointed_from(alloc, first_shown(signs.len(), place), &signs, place),
        None => Ok(String::new(alloc)),
    }
}

// The beginning of the line with this number.
fn beginning(alloc: Global, bytes: &[u8], number: usize) -> Result<String, AllocError>
    ensures { IfOk result (λ text. string_bytes text
        ≡ unwrap_or (option_map (shown 0) (signs_at (lines bytes.now) number)) []) }
{
    match signs_at(alloc, bytes, number)? {
        Some(signs) => shown(alloc, 0, &signs),
        None => Ok(String::new(alloc)),
    }
}

/// The line with this number, from 1, after the number.
///
/// # Errors
///
/// `AllocError` if a request for memory was refused.
pub(crate) fn numbered(alloc: Global, bytes: &[u8], number: usize) -> Result<String, AllocError>
    ensures numbered { IfOk result (λ text. string_bytes text ≡ numbered (lines bytes.now) number) }
{
    let line = beginning(alloc, bytes, number)?;
    format!(in alloc; "    {number}: {line}\n")
}
