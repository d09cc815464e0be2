//! A text cut on, into an array.
ghost use Rattle.std.specs.Prelude.{◌≡◌};
ghost use Rattle.lalrpop_emit.specs.ByteCut.{IsCutOf};
ghost use Rattle.bajofeki_c.specs.Cut.{GoesOn, IsCutOn, IsFilled, told as told_piece};

use crate::cutting::Cutting;
use crate::held::{BuiltLexer, Held};
use crate::rules::is_skipped;
use lalrpop_emit::{ByteCutter, NumberedPiece, TooDeep};

/// A piece of a text. Places and lengths are in bytes.
#[repr(C)]
#[derive(Copy, Clone)]
pub struct Piece {
    /// 0: a token. 1: a token of a rule that is skipped. 2: a fault, which is bytes at none of which a rule matches.
    pub kind: u32,
    /// The number of its rule; 0 of a fault.
    pub rule: usize,
    /// Where it begins.
    pub start: usize,
    /// How long it is.
    pub length: usize,
}

/// How far a text was cut.
#[repr(C)]
#[derive(Copy, Clone)]
pub struct Cut {
    /// 0: to its end. 2: the array is full, and text is left. 4: the next token would put a mode on top of more than 1024 others.
    /// 9: there is no lexer or no cut.
    pub code: u32,
    /// How many pieces were written.
    pub count: usize,
    /// Where the next piece begins after them, in bytes.
    pub end: usize,
}

fn told(skips: &[bool], piece: &NumberedPiece) -> Piece
    ensures told { result ≡ told_piece skips.now piece.now }
{
    let kind = match piece.kind {
        Some(_) => if is_skipped(skips, piece.rule) { 1 } else { 0 },
        None => 2,
    };
    Piece {
        kind,
        rule: piece.rule,
        start: piece.start,
        length: piece.length,
    }
}

// Cuts on until the array is full or no further piece comes.
fn fill(lexer: &BuiltLexer, cutter: &mut ByteCutter, text: &[u8], out: &mut [Piece]) -> Cut
    requires cut { IsCutOf lexer.now.numbers text.now cutter.old }
    ensures cut { IsCutOf lexer.now.numbers text.now cutter.new }
    ensures filled { IsFilled lexer.now text.now cutter.old out.old result out.new cutter.new }
{
    let mut count = 0;
    'filling: while count < out.len() {
        match cutter.next_piece(&lexer.numbers, text) {
            Ok(Some(piece)) => {
                out[count] = told(lexer.rules.skips(), &piece);
                count += 1;
            }
            Ok(None) => {
                return Cut {
                    code: 0,
                    count,
                    end: cutter.place(),
                };
            }
            Err(TooDeep) => {
                return Cut {
                    code: 4,
                    count,
                    end: cutter.place(),
                };
            }
        }
    }
    let end = cutter.place();
    let code = if end < text.len() { 2 } else { 0 };
    Cut { code, count, end }
}

/// Cuts the text on from where the cut stands, and writes the pieces, as many as the array has room for.
pub fn cut_on(held: &Held, cutting: &mut Cutting, text: &[u8], out: &mut [Piece]) -> Cut
    requires cut { GoesOn held.now text.now cutting.old }
    ensures cut { IsCutOn held.now text.now cutting.old out.old result out.new cutting.new }
    ensures goes_on { GoesOn held.now text.now cutting.new }
{
    match (&held.made, &mut cutting.cutter) {
        (Ok(lexer), Ok(cutter)) => fill(lexer, cutter, text, out),
        (Ok(_), Err(_)) | (Err(_), Ok(_)) | (Err(_), Err(_)) => Cut {
            code: 9,
            count: 0,
            end: 0,
        },
    }
}
