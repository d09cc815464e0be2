//! Lines of JSON without characters that aren't seen.
ghost use Rattle.std.specs.Prelude.{◌≡◌, ◌<◌, ◌≤◌, ◌++◌, true, length, take, drop, OnOk};
ghost use Rattle.std.specs.Char.Escape.{hex_digit_at};
ghost use Rattle.std.specs.List.{list_all};
ghost use Rattle.reports_lib.specs.Internal.SeenBytes.{is_seen_in_ascii};
ghost use Rattle.reports_lib.specs.PieceLines.{escaped, json_told, unit_told};

use bajofeki_rules::is_unseen;
use std::alloc::{AllocError, Global};
use std::str;

// Whether all are characters of ASCII that are seen, as in most lines. Without a branch for each byte many are tested at once.
fn are_seen(bytes: &[u8]) -> bool
    ensures { result ≡ list_all is_seen_in_ascii bytes.now }
{
    let mut seen = true;
    for byte in bytes {
        seen = seen & matches!(*byte, b' '..=b'~');
    }
    seen
}

// Whether all characters are seen.
fn all_seen(text: &str) -> bool
    ensures { result ≡ true → escaped text.now ≡ text.now }
{
    for c in text.chars() {
        if is_unseen(c) {
            return false;
        }
    }
    true
}

// Whether nothing of what is printed has to be escaped.
fn is_as_escaped(printed: &[u8]) -> bool
    ensures { result ≡ true → escaped printed.now ≡ printed.now }
{
    if are_seen(printed) {
        return true;
    }
    match str::from_utf8(printed) {
        Ok(text) => all_seen(text),
        Err(_) => false,
    }
}

// The hexadecimal digit of a unit of UTF-16 at the place that is worth this much.
fn hex_digit_at(place: u16, unit: u16) -> u8
    requires { 0 < place }
    ensures { result ≡ hex_digit_at place unit }
{
    let digit = (unit / place % 16) as u8;
    if digit < 10 {
        b'0' + digit
    } else {
        b'a' - 10 + digit
    }
}

// Appends the escape of a unit of UTF-16.
fn push_unit(line: &mut Vec<u8>, unit: u16) -> Result<(), AllocError>
    ensures { OnOk result (line.new.items ≡ line.old.items ++ unit_told unit) }
{
    line.extend_from_slice(&[
        b'\\',
        b'u',
        hex_digit_at(4096, unit),
        hex_digit_at(256, unit),
        hex_digit_at(16, unit),
        hex_digit_at(1, unit),
    ])
}

// Appends the character, escaped if it isn't seen.
fn push_told(line: &mut Vec<u8>, c: char) -> Result<(), AllocError>
    ensures { OnOk result (line.new.items ≡ line.old.items ++ json_told c) }
{
    if !is_unseen(c) {
        let mut room = [0; 4];
        return line.extend_from_slice(c.encode_utf8(&mut room).as_bytes());
    }
    let mut room = [0; 2];
    let units = &*c.encode_utf16(&mut room);
    for unit in units {
        push_unit(line, *unit)?;
    }
    Ok(())
}

/// Escapes each character after the first `start` bytes that isn't seen. U+FFFD stands for what isn't UTF-8 there.
///
/// # Errors
///
/// `AllocError` if a request for memory was refused.
pub(crate) fn escape_from(alloc: Global, line: &mut Vec<u8>, start: usize) -> Result<(), AllocError>
    requires within { start ≤ length line.old.items }
    ensures { OnOk result (line.new.items
        ≡ take start line.old.items ++ escaped (drop start line.old.items)) }
{
    if is_as_escaped(&line[start..]) {
        return Ok(());
    }
    let text = String::from_utf8_lossy(alloc, &line[start..])?;
    line.truncate(start);
    for c in text.chars() {
        push_told(line, c)?;
    }
    Ok(())
}
