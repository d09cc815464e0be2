//! The pieces of a text that is cut to its end.

ghost use Rattle.std.specs.Prelude.{◌≡◌};
ghost use Rattle.lalrpop_rules.specs.Pieces.{slice_of, start_of};

use lalrpop_lexer::Token;

/// A piece of a text.
///
/// ```
/// use lalrpop_rules::Piece;
///
/// match piece {
///     Piece::Token(token) => println!(rt; "{:?}", token.slice)?,
///     Piece::Skipped(_) => {}
///     Piece::Fault { start, slice } => println!(rt; "byte {start}: {slice:?}")?,
/// }
/// ```
#[derive(Clone, Copy, Debug, PartialEq, Eq)]
pub enum Piece<'text> {
    /// A token.
    Token(Token<'text>),
    /// A token of a pattern that is skipped.
    Skipped(Token<'text>),
    /// One or more characters at none of which a pattern matches. After them a pattern matches, or the text ends.
    Fault {
        /// Where they begin in the text, in bytes.
        start: usize,
        /// The characters.
        slice: &'text str,
    },
}

impl<'text> Piece<'text> {
    /// The piece of the text. It isn't empty.
    pub fn slice(&self) -> &'text str
        ensures slice { result.now ≡ slice_of self.now }
    {
        match self {
            Piece::Token(token) | Piece::Skipped(token) => token.slice,
            Piece::Fault { start: _, slice } => slice,
        }
    }

    /// Where the piece begins in the text, in bytes.
    pub fn start(&self) -> usize
        ensures start { result ≡ start_of self.now }
    {
        match self {
            Piece::Token(token) | Piece::Skipped(token) => token.start,
            Piece::Fault { start, slice: _ } => *start,
        }
    }
}
