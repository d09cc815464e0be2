//! Places in a text, as line and column.
ghost use Rattle.std.specs.Prelude.{◌≡◌, ◌≤◌, ◌+◌, ◌++◌, ◌↔◌, ◌⊎◌, IfNone, IfSome, IsSome};
ghost use Rattle.std.specs.Str.{IsCharBoundary, chars};
ghost use Rattle.bajofeki_rules.specs.Position.{Fits, byte_place, moved, place_after, place_behind, position_of};

use lalrpop_lexer::{Position, Positions};

// Needs lalrpop_lexer::Position::of: position.
/// The line of an offset in bytes.
pub fn line_at(text: &str, offset: usize) -> usize
    requires boundary { IsCharBoundary text.now offset }
    ensures line { result ≡ (position_of text.now offset).line }
{
    Position::of(text, offset).line
}

// Needs lalrpop_lexer::Position::get: boundary, position.
/// The line of an offset in bytes, or `None` if the offset has none.
pub fn line_if_any(text: &str, offset: usize) -> Option<usize>
    ensures some { IsSome result ↔ IsCharBoundary text.now offset }
    ensures line { IfSome result (λ line. line ≡ (position_of text.now offset).line) }
{
    match Position::get(text, offset) {
        Some(position) => Some(position.line),
        None => None,
    }
}

// Needs lalrpop_lexer::Positions::new: start.
// Needs lalrpop_lexer::Positions::at: position, walked.
/// Where a slice of the text begins and where it ends.
pub fn both_ends(text: &str, from: usize, to: usize) -> (Position, Position)
    requires from_boundary { IsCharBoundary text.now from }
    requires to_boundary { IsCharBoundary text.now to }
    requires ascending { from ≤ to }
    ensures begins { result.0 ≡ position_of text.now from }
    ensures ends { result.1 ≡ position_of text.now to }
{
    let mut places = Positions::new(text);
    let begins = places.at(from);
    let ends = places.at(to);
    (begins, ends)
}

// Needs lalrpop_lexer::Position::after: place, fits.
// The place after the text, if its numbers fit.
fn behind(place: Position, text: &str) -> Position
    requires fits { Fits (place_after place text.now) }
    ensures place { result ≡ place_after place text.now }
{
    match place.after(text) {
        Some(end) => end,
        None => unreachable!(),
    }
}

/// Where the second of two texts ends that follow one another. Its numbers fit, since no text has 2^63 bytes.
pub fn behind_both(first: &str, second: &str) -> Position
    ensures place { result ≡ place_behind (chars (first.now ++ second.now)) }
{
    let begin = Position { line: 1, column: 1 };
    behind(behind(begin, first), second)
}

// Needs lalrpop_lexer::Position::after_bytes: place, fits.
/// The line after bytes that begin at a place, if both numbers of the place after them fit.
pub fn line_after(place: Position, bytes: &[u8]) -> Option<usize>
    ensures some { IsSome result ↔ Fits (moved place (byte_place bytes.now)) }
    ensures line { IfSome result (λ line. line ≡ (moved place (byte_place bytes.now)).line) }
{
    match place.after_bytes(bytes) {
        Some(end) => Some(end.line),
        None => None,
    }
}

// Needs lalrpop_lexer::Position::then: place, fits.
/// The place of an offset that is counted from an earlier one, or `None` if one of them has none.
pub fn place_in_part(text: &str, begin: usize, at: usize) -> Option<Position>
    ensures place { IfSome result (λ p. p ≡ position_of text.now (begin + at)) }
    ensures none { IfNone result (¬ IsCharBoundary text.now begin
        ⊎ ¬ IsCharBoundary text.now (begin + at)) }
{
    let first = Position::get(text, begin)?;
    first.then(Position::get(&text[begin..], at)?)
}
