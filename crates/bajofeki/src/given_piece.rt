//! A piece of a text that comes in chunks.

ghost use Rattle.std.specs.Prelude.{◌≡◌};
ghost use Rattle.bajofeki.specs.Given.{piece_of};

use lalrpop_lexer::Token;
use lalrpop_lexer::lexer::dfa::NfaIndex;
use lalrpop_rules::Piece;

/// A piece of a text that comes in chunks. `Stream::slice` has its part of the text.
///
/// ```
/// while let Some(piece) = chunks.next_piece()? {
///     let slice = String::from_utf8_lossy(alloc, chunks.slice())?; // a token's slice is UTF-8, a fault's needn't be
///     match piece.with_slice(&slice) {
///         Piece::Token(token) => println!(rt; "{:?}", token.slice)?,
///         Piece::Skipped(_) => {}
///         Piece::Fault { start, slice } => println!(rt; "byte {start}: {slice:?}")?,
///     }
/// }
/// ```
#[derive(Clone, Copy, Debug, PartialEq, Eq)]
pub struct GivenPiece {
    /// The index of the rule of a token, as `NfaIndex::new` takes it; none in a fault.
    pub rule: Option<usize>,
    /// Whether that rule is skipped. False in a fault.
    pub is_skipped: bool,
    /// Where the piece begins in the text, in bytes.
    pub start: usize,
}

impl GivenPiece {
    /// The piece with this slice of the text, as a text that isn't cut into chunks has it.
    pub fn with_slice<'text>(&self, slice: &'text str) -> Piece<'text>
        ensures piece { result ≡ piece_of self.now slice.entry }
    {
        let index = match self.rule {
            Some(rule) => NfaIndex::new(rule),
            None => {
                return Piece::Fault {
                    start: self.start,
                    slice,
                };
            }
        };
        let token = Token {
            index,
            slice,
            start: self.start,
        };
        if self.is_skipped {
            return Piece::Skipped(token);
        }
        Piece::Token(token)
    }
}
