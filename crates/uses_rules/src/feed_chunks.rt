//! A text comes in chunks, and is put together again from its pieces.
ghost use Rattle.std.specs.Prelude.{◌≡◌, ◌++◌, ◌⊎◌, List, ℕ, [], true, false, length, take, slice_get, Some, IfOk, OnOk, OnErr, IfSome, IfNone};
ghost use Rattle.std.specs.Borrow.{Bor};
ghost use Rattle.bajofeki.specs.Chunked.{Came, IsHeldBack, BeginsFault, MayBegin};
ghost use Rattle.lalrpop_rules.specs.Modes.{ArePiecesFrom, ModeRules, trees_in};
ghost use Rattle.lalrpop_rules.specs.Found.{MatchesAt};
ghost use Rattle.bajofeki_rules.specs.Stack.{Stack, start};
ghost use Rattle.lalrpop_rules.specs.Pieces.{joined};
ghost use Rattle.lalrpop_rules.specs.declared.piece.Piece.{Piece as PieceValue};
ghost use Rattle.lalrpop_rules.specs.declared.piece.Piece.TheVariants.{Fault};

use bajofeki::{EditError, GivenPiece, Stream};
use lalrpop_rules::{Piece, RuleLexer};
use std::alloc::Global;

// Needs bajofeki::Stream::is_ended: ended; bajofeki::Stream::feed: fed, refused.
/// Whether a chunk came: not if the text has ended, or memory was refused.
pub fn feed_if_open(chunks: &mut Stream<'_>, chunk: &[u8]) -> bool
    ensures came { result ≡ true
        → chunks.new ≡ record chunks.old { last = []; rest = chunks.old.rest ++ chunk.now } }
    ensures same { result ≡ false → chunks.new ≡ chunks.old }
{
    if chunks.is_ended() {
        return false;
    }
    chunks.feed(chunk).is_ok()
}

// Needs bajofeki::Stream::next_piece: gives; bajofeki::Stream::slice: slice.
// Appends the pieces that no later chunk can change.
fn take_pieces(chunks: &mut Stream<'_>, whole: &mut Vec<u8>) -> Result<(), EditError>
    ensures taken { OnOk result ((r : ModeRules) (text : List ℕ) (xs : List PieceValue)
        → Came r text xs chunks.old → whole.old.items ≡ joined xs
        → (ys : List PieceValue) × (Came r text ys chunks.new
        × (whole.new.items ≡ joined ys))) }
    ensures held { OnOk result (IsHeldBack chunks.new) }
    ensures ended { OnOk result (chunks.new.is_ended ≡ chunks.old.is_ended) }
{
    'pieces: loop {
        match chunks.next_piece()? {
            Some(_) => whole.extend_from_slice(chunks.slice())?,
            None => return Ok(()),
        }
    }
}

// Needs bajofeki::Stream::next_piece: gives, fault.
/// The rule of the next piece, if that is skipped. A fault isn't.
pub fn skipped_next(chunks: &mut Stream<'_>) -> Result<Option<usize>, EditError>
    ensures refused { OnErr result (chunks.new ≡ chunks.old) }
{
    match chunks.next_piece()? {
        Some(piece) if piece.is_skipped => match piece.rule {
            Some(rule) => Ok(Some(rule)),
            None => unreachable!(),
        },
        _ => Ok(None),
    }
}

// Needs bajofeki::GivenPiece::with_slice: piece.
/// Where a piece begins that was given, and how many bytes its slice has.
pub fn place_of(piece: &GivenPiece, slice: &str) -> (usize, usize)
    ensures place { result.0 ≡ piece.now.start }
    ensures size { result.1 ≡ length slice.now }
{
    match piece.with_slice(slice) {
        Piece::Token(token) | Piece::Skipped(token) => (token.start, token.slice.len()),
        Piece::Fault { start, slice } => (start, slice.len()),
    }
}

// Needs bajofeki::Stream::mode: mode; bajofeki::Stream::rest: rest.
// Needs bajofeki::Stream::begins_fault: yes, no.
/// The mode in which some rule may match what is left, and what is left. None if nothing is, or if a fault begins there.
pub fn match_to_come<'text>(chunks: &'text Stream<'_>) -> Option<(usize, &'text [u8])>
    ensures may { IfSome result (λ m. MatchesAt (trees_in chunks.now.rules m.0) m.1.now 0
        ⊎ MayBegin (trees_in chunks.now.rules m.0) m.1.now) }
    ensures none { IfNone result ((chunks.now.rest ≡ []) ⊎ BeginsFault chunks.now) }
{
    let rest = chunks.rest();
    if rest.is_empty() || chunks.begins_fault() {
        return None;
    }
    Some((chunks.mode(), rest))
}

// Needs bajofeki::Stream::new: nothing; bajofeki::Stream::feed: fed.
// Needs bajofeki::Stream::finish: ended.
/// A text that comes in two chunks, put together again from its pieces.
///
/// # Errors
///
/// `OutOfMemory`, or `TooLarge` for a text of 2^64 bytes.
pub fn put_together(
    alloc: Global,
    lexer: &RuleLexer,
    front: &[u8],
    back: &[u8],
) -> Result<Vec<u8>, EditError>
    ensures whole { IfOk result (λ whole. whole.items ≡ front.now ++ back.now) }
    ensures pieces { IfOk result (λ whole. (xs : List PieceValue) × ((end : Stack)
        × (ArePiecesFrom lexer.now (front.now ++ back.now) 0 start xs end
        × (whole.items ≡ joined xs)))) }
{
    let mut chunks = Stream::new(alloc, lexer);
    let mut whole = Vec::new(alloc);
    chunks.feed(front)?;
    take_pieces(&mut chunks, &mut whole)?;
    chunks.feed(back)?;
    chunks.finish();
    take_pieces(&mut chunks, &mut whole)?;
    Ok(whole)
}

// Needs bajofeki::Stream::new: nothing; bajofeki::Stream::feed: fed; bajofeki::Stream::begins_fault: yes.
/// The pieces that are given before the rest of a text has come begin those of the whole text, whatever the rest is. Also says whether
/// a fault begins after them.
///
/// # Errors
///
/// `OutOfMemory`, or `TooLarge` for a text of 2^64 bytes.
pub fn first_pieces(
    alloc: Global,
    lexer: &RuleLexer,
    front: &[u8],
) -> Result<(Vec<u8>, bool), EditError>
    ensures begins { IfOk result (λ first. (back : List ℕ) (ys : List PieceValue) (end : Stack)
        → ArePiecesFrom lexer.now (front.now ++ back) 0 start ys end
        → (n : ℕ) × (first.0.items ≡ joined (take n ys))) }
    ensures fault { IfOk result (λ first. first.1 ≡ true
        → (back : List ℕ) (ys : List PieceValue) (end : Stack)
        → ArePiecesFrom lexer.now (front.now ++ back) 0 start ys end
        → (n : ℕ) × ((slice : Bor (List ℕ))
        × (slice_get ys n ≡ Some (Fault (length first.0.items) slice)))) }
{
    let mut chunks = Stream::new(alloc, lexer);
    let mut first = Vec::new(alloc);
    chunks.feed(front)?;
    take_pieces(&mut chunks, &mut first)?;
    Ok((first, chunks.begins_fault()))
}
