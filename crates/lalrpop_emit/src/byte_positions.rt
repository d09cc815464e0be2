//! Places in a text of bytes, as line and column.
ghost use Rattle.std.specs.Prelude.{◌≡◌, min, length};
ghost use Rattle.std.specs.Str.{IsUtf8, IsCharBoundary};
ghost use Rattle.bajofeki_rules.specs.Position.{position_of};
ghost use Rattle.lalrpop_emit.specs.BytePositions.{byte_position_of};

use crate::driver::move_on;

/// A place in a text of bytes. Lines and columns count from 1, and a line feed ends its line.
///
/// ```
/// use lalrpop_emit::{BytePosition, byte_position};
///
/// let BytePosition { line, column, .. } = byte_position("a\nbé c".as_bytes(), 5); // line 2, column 3
/// ```
#[derive(Clone, Copy, Debug, PartialEq, Eq)]
pub struct BytePosition {
    /// The offset in bytes.
    pub at: usize,
    /// One more than the number of line feeds before the place.
    pub line: usize,
    /// One more than the number of characters that begin between the last line feed before the place and the place itself. A
    /// byte that can't stand in a character, as 0xFF, counts as one.
    pub column: usize,
}

/// The place of a byte offset in the text, as an emitted lexer finds it. If the offset is past the end, the end's place.
///
/// ```
/// use lalrpop_emit::byte_position;
///
/// let place = byte_position("a\nbé c".as_bytes(), 6); // line 2, column 4
/// ```
pub fn byte_position(text: &[u8], at: usize) -> BytePosition
    ensures position { result ≡ byte_position_of text.now (min at (length text.now)) }
    ensures text { IsUtf8 text.now → IsCharBoundary text.now at
        → (result.line ≡ (position_of text.now at).line)
        × (result.column ≡ (position_of text.now at).column) }
{
    let mut position = BytePosition {
        at: 0,
        line: 1,
        column: 1,
    };
    move_on(text, &mut position, at);
    position
}
