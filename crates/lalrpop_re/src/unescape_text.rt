//! Texts with escapes, as patterns have them.
ghost use Rattle.std.specs.Prelude.{◌≡◌, ◌↔◌, ◌<◌, ◌≤◌, ℕ, List, IfOk, IfErr, OnOk, string_bytes};
ghost use Rattle.std.specs.Str.{chars};
ghost use Rattle.lalrpop_re.specs.Unescaped.{Unescapes};
ghost use Rattle.lalrpop_re.specs.Refusal.{SaysNoText, PointsInto};
ghost use Rattle.lalrpop_re.specs.Internal.Views.{text, unread, Gives};
ghost use Rattle.lalrpop_re.specs.Internal.Characters.{character_at};

use crate::bracket::{Primary, parse_primary};
use crate::cursor::{Cursor, error_at};
use crate::error::{RegexError, SyntaxKind};
use crate::escape_sequence::EscapedPart;
use crate::parser::byte_offset;
use std::alloc::Global;

/// The text that `s` says: each escape stands for its character, as `\n`, `\\`, `\"`, `\x41` and `\u{41}` do in a pattern,
/// and every other character for itself.
///
/// # Errors
///
/// `RegexError::Syntax` if an escape isn't one of a pattern or doesn't stand for a character, with the kind and the position
/// in bytes that `parse_regex` reports. For the escape of a set or of an assertion, and for a digit, that is
/// `EscapeUnrecognized` at the backslash. `RegexError::OutOfMemory` if a request for memory was refused.
///
/// ```
/// use lalrpop_lexer::lexer::re::unescape;
///
/// let lines = unescape(alloc, "one\\ntwo")?; // `one`, a line feed and `two`
/// ```
pub fn unescape(alloc: Global, s: &str) -> Result<String, RegexError>
    ensures text { IfOk result (λ r. Unescapes (chars s.now) (chars (string_bytes r))) }
    ensures only { IfOk result (λ r.
        (other : List ℕ) → Unescapes (chars s.now) other → other ≡ chars (string_bytes r)) }
    ensures none { IfErr result (SaysNoText (chars s.now)) }
    ensures position { IfErr result (PointsInto s.now) }
{
    let mut cursor = Cursor::new(alloc, s, false)?;
    match parse_characters(&mut cursor) {
        Ok(text) => Ok(text),
        Err(RegexError::Syntax { position, kind }) => {
            let position = byte_offset(s, position);
            let kind = kind_in_text(kind);
            Err(RegexError::Syntax { position, kind })
        }
        Err(RegexError::OutOfMemory) => Err(RegexError::OutOfMemory),
    }
}

// A text has no groups, so that nothing in it is taken for a reference to one.
fn kind_in_text(kind: SyntaxKind) -> SyntaxKind {
    match kind {
        SyntaxKind::UnsupportedBackreference => SyntaxKind::EscapeUnrecognized,
        other => other,
    }
}

// Reads all characters and escapes to the end. A refusal's position counts characters.
fn parse_characters(cursor: &mut Cursor) -> Result<String, RegexError>
    ensures value { IfOk result (λ r.
        (cs : List ℕ) → Unescapes (text cursor.old) cs ↔ (cs ≡ chars (string_bytes r))) }
    ensures none { IfErr result (SaysNoText (text cursor.old)) }
{
    let mut said = String::new(cursor.alloc());
    while !cursor.rest().is_empty() {
        let c = parse_character(cursor)?;
        said.push(c)?;
    }
    Ok(said)
}

// Reads a character that stands for itself, or the escape of one.
fn parse_character(cursor: &mut Cursor) -> Result<char, RegexError>
    ensures value { Gives (λ c. (c, text cursor.new)) result (character_at (text cursor.old)) }
    ensures moves { OnOk result (unread cursor.new < unread cursor.old) }
{
    let Primary { part, position } = parse_primary(cursor)?;
    match part {
        EscapedPart::Character(c) => Ok(c),
        EscapedPart::Set { .. } => {
            return Err(error_at(position, SyntaxKind::EscapeUnrecognized));
        }
        EscapedPart::Assertion(_) => {
            return Err(error_at(position, SyntaxKind::EscapeUnrecognized));
        }
    }
}
