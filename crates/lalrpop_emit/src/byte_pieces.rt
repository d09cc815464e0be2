//! The pieces of a text of bytes.
ghost use Rattle.std.specs.Prelude.{IfOk};
ghost use Rattle.lalrpop_rules.specs.Modes.{ModeRules};
ghost use Rattle.lalrpop_emit.specs.BytePieces.{AreBytePieces};
ghost use Rattle.lalrpop_emit.specs.NumberedRules.{AreNumbersOf};

use crate::byte_cutter::{ByteCutter, TooDeep};
use crate::numbered_piece::NumberedPiece;
use crate::numbers::LexerNumbers;
use std::alloc::{AllocError, Global};

/// The pieces of a text of bytes, from its beginning on.
///
/// ```
/// use lalrpop_emit::{BytePieces, LexerNumbers};
///
/// let numbers = LexerNumbers::new(alloc, &rules)?;
/// let BytePieces { pieces, is_whole } = numbers.pieces(alloc, b"if x")?; // `if`, a space and `x`, and `true`
/// ```
#[derive(Debug, Drop)]
pub struct BytePieces {
    /// The pieces, one after another.
    pub pieces: Vec<NumberedPiece>,
    /// Whether they reach the end of the text. Otherwise the next token would put a mode on top of more than 1024 others.
    pub is_whole: bool,
}

/// The pieces of the text, one after another.
///
/// # Errors
///
/// `AllocError` if a request for memory was refused.
pub(crate) fn all_pieces(
    alloc: Global,
    numbers: &LexerNumbers,
    text: &[u8],
) -> Result<BytePieces, AllocError>
    ensures pieces { IfOk result (λ all. (r : ModeRules) → AreNumbersOf r numbers.now
        → AreBytePieces r numbers.now.kinds 1024 text.now all.pieces.items all.is_whole) }
{
    let mut cutter = ByteCutter::new(alloc, numbers, text.len())?;
    let mut pieces = Vec::new(alloc);
    'pieces: loop {
        match cutter.next_piece(numbers, text) {
            Ok(Some(piece)) => pieces.push(piece)?,
            Ok(None) => {
                return Ok(BytePieces {
                    pieces,
                    is_whole: true,
                });
            }
            Err(TooDeep) => {
                return Ok(BytePieces {
                    pieces,
                    is_whole: false,
                });
            }
        }
    }
}
