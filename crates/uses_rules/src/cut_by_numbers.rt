//! Cuts bytes by a lexer in numbers, as its source files in C and in Rust do.
ghost use Rattle.std.specs.Prelude.{◌≡◌, ℕ, List, length, drop, map, string_bytes, true, IfOk, IfSome, OnOk};
ghost use Rattle.std.specs.Str.{IsCharBoundary};
ghost use Rattle.bajofeki_rules.specs.Position.{position_of};
ghost use Rattle.lalrpop_emit.specs.ByteCut.{IsCutOf, place_of};
ghost use Rattle.lalrpop_emit.specs.BytePieces.{AreBytePieces, IsModePiece, numbered};
ghost use Rattle.lalrpop_emit.specs.BytePositions.{byte_position_of};
ghost use Rattle.lalrpop_emit.specs.CSource.{c_file};
ghost use Rattle.lalrpop_emit.specs.EmitErrors.{HasTooLarge};
ghost use Rattle.lalrpop_emit.specs.RustSource.{rust_file};
ghost use Rattle.lalrpop_emit.specs.Names.{IsIdentifier, kinds_of};
ghost use Rattle.lalrpop_emit.specs.NumberedRules.{AreNumbersOf, AreSameInFile, IsStorable, NumberedRules};
ghost use Rattle.lalrpop_emit.specs.declared.numbered_piece.NumberedPiece.{NumberedPiece};
ghost use Rattle.lalrpop_rules.specs.Modes.{ArePiecesFrom, ModeRules};
ghost use Rattle.bajofeki_rules.specs.Stack.{Stack, start};
ghost use Rattle.lalrpop_rules.specs.declared.piece.Piece.{Piece};

use lalrpop_emit::{
    ByteCutter, BytePieces, BytePosition, EmitError, LexerNumbers, NumberedPiece, TooDeep,
    byte_position, c_source, rust_source,
};
use lalrpop_rules::RuleLexer;
use std::alloc::{AllocError, Global};

// Needs lalrpop_emit::LexerNumbers::new: numbers, exact; lalrpop_emit::LexerNumbers::pieces: of_rules, whole.
/// The pieces of a text by the numbers of a lexer. If there are all, they are those of the text by the rules. There are none if the
/// automaton of some mode is too large for a table.
pub fn pieces_by_numbers(
    alloc: Global,
    rules: &RuleLexer,
    text: &str,
) -> Result<BytePieces, EmitError>
    ensures same { IfOk result (λ all. all.is_whole ≡ true → (xs : List Piece) (end : Stack)
        → ArePiecesFrom rules.now text.now 0 start xs end
        → all.pieces.items ≡ map (numbered (kinds_of rules.now.names)) xs) }
    ensures small { OnOk result (¬ HasTooLarge rules.now) }
{
    let numbers = LexerNumbers::new(alloc, rules)?;
    let all = numbers.pieces(alloc, text.as_bytes())?;
    Ok(all)
}

// Needs lalrpop_emit::ByteCutter::new: place, stack, cut.
// Needs lalrpop_emit::ByteCutter::next_piece: cut, gives, some, too_deep.
/// How many pieces a text has, none of which is kept, and whether they reach its end.
///
/// # Errors
///
/// `AllocError` if a request for memory was refused.
pub fn piece_count(
    alloc: Global,
    numbers: &LexerNumbers,
    text: &[u8],
) -> Result<(usize, bool), AllocError>
    ensures count { IfOk result (λ counted. (r : ModeRules) → AreNumbersOf r numbers.now
        → (pieces : List NumberedPiece)
        × (AreBytePieces r numbers.now.kinds 1024 text.now pieces counted.1
        × (counted.0 ≡ length pieces))) }
{
    let mut cutter = ByteCutter::new(alloc, numbers, text.len())?;
    let mut count = 0;
    'pieces: loop {
        match cutter.next_piece(numbers, text) {
            Ok(Some(_)) => count += 1,
            Ok(None) => return Ok((count, true)),
            Err(TooDeep) => return Ok((count, false)),
        }
    }
}

// Needs lalrpop_emit::ByteCutter::restart: place, stack, cut.
/// The first piece of another text, by a cutter that has cut one, also where more memory was refused.
///
/// # Errors
///
/// `TooDeep` if the piece puts more than 1024 modes on top of the first.
pub fn first_of_another(
    numbers: &LexerNumbers,
    cutter: &mut ByteCutter,
    text: &[u8],
) -> Result<Option<NumberedPiece>, TooDeep>
    requires cut { (n : NumberedRules) × ((before : List ℕ) × IsCutOf n before cutter.old) }
    ensures first { IfOk result (λ first. IfSome first (λ piece. (r : ModeRules)
        → AreNumbersOf r numbers.now
        → IsModePiece r numbers.now.kinds text.now 0 start piece)) }
{
    let _ = cutter.restart(numbers, text.len());
    cutter.next_piece(numbers, text)
}

// Needs lalrpop_emit::ByteCutter::place: place.
/// What is left of the text.
pub fn rest<'text>(cutter: &ByteCutter, numbers: &LexerNumbers, text: &'text [u8]) -> &'text [u8]
    requires cut { IsCutOf numbers.now text.now cutter.now }
    ensures rest { result.now ≡ drop (place_of cutter.now) text.now }
{
    &text[cutter.place()..]
}

// Needs lalrpop_emit::c_source: only.
/// The source file of a lexer in C. Of no lexer whose tables run ahead otherwise is it the file.
pub fn c_source_of_ahead_tables(
    alloc: Global,
    numbers: &LexerNumbers,
    prefix: &str,
) -> Result<String, EmitError>
    ensures of_these_ahead_tables { IfOk result (λ source. (p : List ℕ) (r : NumberedRules)
        → IsIdentifier p → IsStorable r → string_bytes source ≡ c_file p r
        → r.ahead ≡ numbers.now.ahead) }
{
    c_source(alloc, numbers, prefix)
}

// Needs lalrpop_emit::rust_source: only.
/// The source file of a lexer in Rust. Of no lexer whose tables run ahead otherwise is it the file.
pub fn rust_source_of_ahead_tables(
    alloc: Global,
    numbers: &LexerNumbers,
) -> Result<String, EmitError>
    ensures of_these_ahead_tables { IfOk result (λ source. (r : NumberedRules)
        → IsStorable r → string_bytes source ≡ rust_file r
        → r.ahead ≡ numbers.now.ahead) }
{
    rust_source(alloc, numbers)
}

// Needs lalrpop_emit::byte_position: position.
/// The end of the bytes as a place.
pub fn end_of_bytes(text: &[u8]) -> BytePosition
    ensures end { result ≡ byte_position_of text.now (length text.now) }
{
    byte_position(text, text.len())
}

// Needs lalrpop_emit::byte_position: text.
/// The column of an offset in a text.
pub fn column_by_bytes(text: &str, at: usize) -> usize
    requires boundary { IsCharBoundary text.now at }
    ensures column { result ≡ (position_of text.now at).column }
{
    byte_position(text.as_bytes(), at).column
}
