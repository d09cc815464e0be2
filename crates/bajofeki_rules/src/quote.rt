//! A slice or a word in quotes.
ghost use Rattle.std.specs.Prelude.{◌≡◌, ◌++◌, true, false, Some, encode_utf8, option_map, string_bytes, IfOk, OnOk};
ghost use Rattle.std.specs.Fmt.{WritesOnOk};
ghost use Rattle.bajofeki_rules.specs.Quoted.{is_unseen, short_escape, told, quoted, value_told, quoted_word};

use crate::runs::{LANES, plain_run};
use std::alloc::{AllocError, Global};
use std::fmt::{self, Display, Formatter, Write};
use unicode::properties::{GeneralCategory, is_default_ignorable_code_point};

// The escape of a character, if it has a short one.
fn short_escape(c: char) -> Option<&'static str>
    ensures { option_map (λ escape. escape.now) result ≡ short_escape c }
{
    match c {
        '"' => Some("\\\""),
        '\\' => Some("\\\\"),
        '\n' => Some("\\n"),
        '\r' => Some("\\r"),
        '\t' => Some("\\t"),
        _ => None,
    }
}

/// Whether the character isn't seen: a control character, a separator of lines or paragraphs, one that Unicode lets be shown as
/// nothing, such as a soft hyphen, a joiner, a mark of direction, a tag or a variation selector, or one that it hasn't assigned.
pub fn is_unseen(c: char) -> bool
    ensures { result ≡ is_unseen c }
{
    // Most characters are ASCII, and need no table.
    if c.is_ascii() {
        return c.is_control();
    }
    c.is_control()
        || matches!(c, '\u{2028}' | '\u{2029}')
        || is_default_ignorable_code_point(c)
        || GeneralCategory::for_char(c) == GeneralCategory::Unassigned
}

pub fn push_escaped_char(text: &mut String, c: char) -> Result<(), AllocError>
    ensures { OnOk result (string_bytes text.new ≡ string_bytes text.old ++ told c) }
{
    if let Some(escape) = short_escape(c) {
        return text.push_str(escape);
    }
    if is_unseen(c) {
        let number = u32::from(c);
        return write!(text, "\\u{{{number:x}}}");
    }
    text.push(c)
}

// Whether the character is written as it is.
fn is_plain(c: char) -> bool
    ensures plain { result ≡ true → told c ≡ encode_utf8 c }
{
    c != '"' && c != '\\' && !is_unseen(c)
}

// Appends the character, escaped if it has to be.
fn push_told(alloc: Global, bytes: &mut Vec<u8>, c: char) -> Result<(), AllocError>
    ensures { OnOk result (bytes.new.items ≡ bytes.old.items ++ told c) }
{
    if let Some(escape) = short_escape(c) {
        return bytes.extend_from_slice(escape.as_bytes());
    }
    let mut text = String::new(alloc);
    push_escaped_char(&mut text, c)?;
    bytes.extend_from_slice(text.as_bytes())
}

// Room for a short slice and two quotes.
const SHORT: usize = LANES + 2;

// Appends the slice in quotes, if it is short and all of its characters are written as they are. Returns whether it did.
fn push_short(bytes: &mut Vec<u8>, slice: &str) -> Result<bool, AllocError>
    ensures quoted { IfOk result (λ done. done ≡ true
        → bytes.new.items ≡ bytes.old.items ++ quoted slice.now) }
    ensures same { IfOk result (λ done. done ≡ false → bytes.new.items ≡ bytes.old.items) }
{
    let len = slice.len();
    if len > LANES {
        return Ok(false);
    }
    let mut text = [b'"'; SHORT];
    text[1..len + 1].copy_from_slice(slice.as_bytes());
    if plain_run(&text, 1) < len {
        return Ok(false);
    }
    bytes.extend_from_slice(&text[..len + 2])?;
    Ok(true)
}

// Appends the slice in quotes, character by character.
fn push_characters(alloc: Global, bytes: &mut Vec<u8>, slice: &str) -> Result<(), AllocError>
    ensures quoted { OnOk result (bytes.new.items ≡ bytes.old.items ++ quoted slice.now) }
{
    bytes.push(b'"')?;
    // Where the characters begin that are not yet appended: all are written as they are.
    let mut from = 0usize;
    for (at, c) in slice.char_indices() {
        if !is_plain(c) {
            bytes.extend_from_slice(&slice.as_bytes()[from..at])?;
            push_told(alloc, bytes, c)?;
            from = at + c.len_utf8();
        }
    }
    bytes.extend_from_slice(&slice.as_bytes()[from..])?;
    bytes.push(b'"')?;
    Ok(())
}

/// Appends the slice in double quotes. Quotes, backslashes and characters that aren't seen are escaped with a backslash.
///
/// # Errors
///
/// `AllocError` if a request for memory was refused.
pub fn push_quoted(alloc: Global, bytes: &mut Vec<u8>, slice: &str) -> Result<(), AllocError>
    ensures quoted { OnOk result (bytes.new.items ≡ bytes.old.items ++ quoted slice.now) }
{
    if push_short(bytes, slice)? {
        return Ok(());
    }
    push_characters(alloc, bytes, slice)
}

/// The slice in double quotes, as `push_quoted` appends it.
///
/// # Errors
///
/// `AllocError` if a request for memory was refused.
pub fn quoted(alloc: Global, slice: &str) -> Result<String, AllocError>
    ensures quoted { IfOk result (λ text. string_bytes text ≡ quoted slice.now) }
{
    let mut text = String::from_str(alloc, "\"")?;
    for c in slice.chars() {
        push_escaped_char(&mut text, c)?;
    }
    text.push_str("\"")?;
    Ok(text)
}

// Writes a value of a word in quotes.
fn write_value<W: Write>(f: &mut Formatter<W>, value: u32) -> fmt::Result
    ensures { WritesOnOk W.write_str_gives f.old result (value_told value) f.new }
{
    let Some(c) = char::from_u32(value) else {
        return write!(f, "\\u{{{value:x}}}");
    };
    if let Some(escape) = short_escape(c) {
        return f.write_str(escape);
    }
    if is_unseen(c) {
        return write!(f, "\\u{{{value:x}}}");
    }
    f.write_char(c)
}

/// A word as messages show it: in double quotes. Characters are escaped as in a slice (`quoted`), and values that aren't characters
/// are written as `\u{..}`.
///
/// ```
/// use bajofeki_rules::ShownWord;
///
/// let shown = format!(in alloc; "{}", ShownWord(&[97, 10, 0xd800]))?; // "a\n\u{d800}"
/// ```
#[derive(Clone, Copy, Debug)]
pub struct ShownWord<'word>(pub &'word [u32]);

impl<'word> Display for ShownWord<'word> {
    ghost output = { λ word. Some (quoted_word word.0.now) };

    fn fmt<W: Write>(&self, f: &mut Formatter<W>) -> fmt::Result {
        f.write_str("\"")?;
        for value in self.0 {
            write_value(f, *value)?;
        }
        f.write_str("\"")
    }
}
