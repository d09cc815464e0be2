//! Places in a text, as line and column.

ghost use Rattle.std.specs.Prelude.{◌≡◌, ℕ, ◌≤◌, ◌<◌, ◌↔◌, true, length, slice_index, IfSome, IsSome};
ghost use Rattle.std.specs.Str.{IsCharBoundary};
ghost use Rattle.bajofeki_rules.specs.Position.{Fits, byte_place, moved, place_after, position_of};
ghost use Rattle.bajofeki_rules.specs.Internal.ByteRuns.{IsInLine};
ghost use Rattle.bajofeki_rules.specs.Internal.Places.{next_place, place_after_byte};

use crate::runs::{LANES, line_run};
use lalrpop_hir::is_start;
use std::marker::Model;

/// A place in a text: its line and its column, both from 1. A line feed ends its line.
///
/// ```
/// use bajofeki_rules::Position;
///
/// let place = Position::get("a\nbc", 3); // `Some` of line 2, column 2
/// ```
#[derive(Clone, Copy, Debug, PartialEq, Eq, PartialOrd, Ord)]
pub struct Position {
    /// One more than the number of line feeds before the place.
    pub line: usize,
    /// One more than the number of characters between the last line feed before the place and the place itself. If there
    /// is no such line feed, characters are counted from the beginning of the text.
    pub column: usize,
}

impl Position {
    /// The place of a byte offset in the text. For many offsets, use `Positions`.
    pub fn of(text: &str, offset: usize) -> Position
        requires boundary { IsCharBoundary text.now offset }
        ensures position { result ≡ position_of text.now offset }
    {
        Positions::new(text).at(offset)
    }

    /// The place of a byte offset in the text, or `None` if the offset is past the end or inside a character.
    pub fn get(text: &str, offset: usize) -> Option<Position>
        ensures boundary { IsSome result ↔ IsCharBoundary text.now offset }
        ensures position { IfSome result (λ p. p ≡ position_of text.now offset) }
    {
        if text.is_char_boundary(offset) {
            Some(Position::of(text, offset))
        } else {
            None
        }
    }

    /// The place that lies at `next` in a text, if the text begins at this place. `None` if one of its numbers is too large.
    ///
    /// ```
    /// let block = Position { line: 7, column: 3 };
    /// let place = block.then(Position { line: 1, column: 5 }); // `Some` of line 7, column 7
    /// ```
    pub fn then(self, next: Position) -> Option<Position>
        ensures place { IfSome result (λ p. p ≡ moved self next) }
        ensures fits { IsSome result ↔ Fits (moved self next) }
    {
        if next.line == 1 {
            let column = self.column.checked_add(next.column.saturating_sub(1))?;
            return Some(Position {
                line: self.line,
                column,
            });
        }
        let line = self.line.checked_add(next.line.saturating_sub(1))?;
        Some(Position {
            line,
            column: next.column,
        })
    }

    /// The place after the text, if the text begins at this place. `None` if one of its numbers is too large.
    pub fn after(self, text: &str) -> Option<Position>
        ensures place { IfSome result (λ p. p ≡ place_after self text.now) }
        ensures fits { IsSome result ↔ Fits (place_after self text.now) }
    {
        self.after_bytes(text.as_bytes())
    }

    /// The place after the bytes, if they begin at this place; they needn't be UTF-8. `None` if one of its numbers is too large.
    ///
    /// ```
    /// let block = Position { line: 7, column: 3 };
    /// let place = block.after_bytes(b"ab\n\xff"); // `Some` of line 8, column 2
    /// ```
    pub fn after_bytes(self, bytes: &[u8]) -> Option<Position>
        ensures place { IfSome result (λ p. p ≡ moved self (byte_place bytes.now)) }
        ensures fits { IsSome result ↔ Fits (moved self (byte_place bytes.now)) }
    {
        self.then(byte_place(bytes))
    }

    // The place after one more byte: one with which no character begins changes nothing.
    #[inline(always)]
    fn next_byte(self, byte: u8) -> Position
        requires line { self.line < usize.MAX }
        requires column { self.column < usize.MAX }
        ensures next { result ≡ place_after_byte self byte }
    {
        if byte == b'\n' {
            Position {
                line: self.line + 1,
                column: 1,
            }
        } else {
            Position {
                line: self.line,
                column: self.column + is_start(byte) as usize,
            }
        }
    }

    // The place after this character.
    fn next(self, c: char) -> Position
        requires line { self.line < usize.MAX }
        requires column { self.column < usize.MAX }
        ensures next { result ≡ next_place self c }
    {
        if c == '\n' {
            Position {
                line: self.line + 1,
                column: 1,
            }
        } else {
            Position {
                line: self.line,
                column: self.column + 1,
            }
        }
    }
}

// The place after bytes.
#[tactic(auto, using(crate::proofs::BytePlaces::byte_further))]
fn byte_place(bytes: &[u8]) -> Position
    ensures place { result ≡ byte_place bytes.now }
{
    let mut place = Position { line: 1, column: 1 };
    for byte in bytes {
        place = place.next_byte(*byte);
    }
    place
}

// The place of an offset, found character by character from the place of an earlier one.
fn walk(text: &str, from: usize, position: Position, to: usize) -> Position
    requires from { IsCharBoundary text.now from }
    requires to { IsCharBoundary text.now to }
    requires ascending { from ≤ to }
    requires position { position ≡ position_of text.now from }
    ensures { result ≡ position_of text.now to }
{
    let mut place = position;
    for c in text[from..to].chars() {
        place = place.next(c);
    }
    place
}

// Whether the bytes from one place to another are few, and are characters of ASCII other than line feeds. Most tokens of a line
// are so near to each other.
#[inline(always)]
fn are_in_line(text: &str, from: usize, to: usize) -> bool
    requires ascending { from ≤ to }
    requires within { from ≤ length text.now }
    ensures { result ≡ true → (k : ℕ) → from ≤ k → k < to → IsInLine (slice_index text.now k) }
{
    text.len() - from >= LANES && line_run(text.as_bytes(), from) >= to - from
}

// The place of an offset, found from the place of an earlier one.
#[inline(always)]
fn place_from(text: &str, from: usize, position: Position, to: usize) -> Position
    requires from { IsCharBoundary text.now from }
    requires to { IsCharBoundary text.now to }
    requires ascending { from ≤ to }
    requires position { position ≡ position_of text.now from }
    ensures { result ≡ position_of text.now to }
{
    if !are_in_line(text, from, to) {
        return walk(text, from, position, to);
    }
    let column = position.column + (to - from);
    Position {
        line: position.line,
        column,
    }
}

/// The places of ascending offsets in a text, found in one pass over it.
///
/// ```
/// use bajofeki_rules::Positions;
///
/// let mut positions = Positions::new("a\nbc");
/// let first = positions.at(0); // line 1, column 1
/// let third = positions.at(3); // line 2, column 2
/// ```
#[derive(Debug, Drop)]
pub struct Positions<'text> {
    text: &'text str,
    // How much of the text has been passed, in bytes, and the place there.
    offset: usize,
    position: Position,
}

impl<'text> Model for Positions<'text> {
    ghost use Rattle.std.specs.Prelude.{◌≡◌};
    ghost use Rattle.std.specs.Str.{IsUtf8, IsCharBoundary};
    ghost use Rattle.bajofeki_rules.specs.Position.{Counted, position_of};

    ghost Value = { Counted };

    ghost view = { λ p. record { text = p.text.now; offset = p.offset } };

    ghost invariant = { λ p. IsUtf8 p.text.now × IsCharBoundary p.text.now p.offset
        × (p.position ≡ position_of p.text.now p.offset) };
}

impl<'text> Positions<'text> {
    /// Starts at the beginning of the text.
    pub fn new(text: &'text str) -> Positions<'text>
        ensures start { result ≡ record { text = text.now; offset = 0 } }
    {
        Positions {
            text,
            offset: 0,
            position: Position { line: 1, column: 1 },
        }
    }

    /// The place of a byte offset, which must not be less than the offset of the last call.
    pub fn at(&mut self, offset: usize) -> Position
        requires boundary { IsCharBoundary self.old.text offset }
        requires ascending { self.old.offset ≤ offset }
        ensures position { result ≡ position_of self.old.text offset }
        ensures walked { self.new ≡ record self.old { offset = offset } }
    {
        let position = place_from(self.text, self.offset, self.position, offset);
        self.offset = offset;
        self.position = position;
        position
    }
}
