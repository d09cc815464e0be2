//! Places in a text, as line and column.
ghost use Rattle.std.specs.Prelude.{◌≡◌};
ghost use Rattle.bajofeki_c.specs.Place.{place_in};

use lalrpop_emit::byte_position;

/// A place in a text. Lines and columns count from 1, and a line feed ends its line.
#[repr(C)]
#[derive(Copy, Clone)]
pub struct Place {
    /// The offset in bytes, at most the length of the text.
    pub at: usize,
    /// One more than the number of line feeds before it.
    pub line: usize,
    /// One more than the number of characters that begin between the last line feed before it and the place itself. A byte that
    /// can't stand in a character, as 0xFF, counts as one.
    pub column: usize,
}

/// The place of an offset in bytes.
pub fn place_of(text: &[u8], at: usize) -> Place
    ensures place { result ≡ place_in text.now at }
{
    let place = byte_position(text, at);
    Place {
        at: place.at,
        line: place.line,
        column: place.column,
    }
}
