//! A text is edited, and its pieces with it.
ghost use Rattle.std.specs.Prelude.{◌≡◌, ◌≤◌, ◌<◌, ◌+◌, ◌++◌, ◌⊎◌, ℕ, List, length, count_by, take, drop, slice_get, Some, true, IfOk, OnOk, OnErr, IfErr, IfSome, IfNone};
ghost use Rattle.std.specs.Str.{IsCharBoundary};
ghost use Rattle.bajofeki.specs.Lexed.{ArePiecesOf, MeetAt, ReadsTo, holds_byte};
ghost use Rattle.lalrpop_rules.specs.Modes.{trees_in};
ghost use Rattle.lalrpop_rules.specs.Pieces.{AreSame, slice_of, start_of};
ghost use Rattle.lalrpop_rules.specs.declared.piece.Piece.{Piece as PieceValue};

use bajofeki::{Change, Document, EditError};
use lalrpop_rules::{Piece, RuleLexer};
use std::alloc::{AllocError, Global};
use std::ops::Range;

// Needs bajofeki::Document::edit: edited, range, refused, error.
/// Puts bytes into a text.
///
/// # Errors
///
/// `NoBoundary` only if no character begins there, and the text doesn't end there. After an error the text is as it was.
pub fn insert(
    alloc: Global,
    lexed: &mut Document<'_>,
    at: usize,
    new: &str,
) -> Result<(), EditError>
    ensures inserted { OnOk result (lexed.new.text
        ≡ take at lexed.old.text ++ (new.now ++ drop at lexed.old.text)) }
    ensures boundary { OnOk result (IsCharBoundary lexed.old.text at) }
    ensures refused { IfErr result (λ error. error ≡ EditError.NoBoundary
        → ¬ IsCharBoundary lexed.old.text at) }
    ensures same { OnErr result (lexed.new ≡ lexed.old) }
{
    lexed.edit(alloc, at..at, new)?;
    Ok(())
}

// Needs bajofeki::Document::new: error.
/// Whether a text can't be held, however much memory there is.
pub fn is_too_large(alloc: Global, lexer: &RuleLexer, text: &str) -> bool
    ensures large { result ≡ true
        → (4294967295 ≤ length text.now) ⊎ (4294967295 ≤ length lexer.now.trees) }
{
    match Document::new(alloc, lexer, text) {
        Ok(_) | Err(EditError::OutOfMemory) => false,
        Err(EditError::TooLarge) => true,
        // A text begins with a whole character.
        Err(EditError::NoBoundary) => unreachable!(),
    }
}

// Needs bajofeki::Document::edit: change, earliest, first.
/// Edits a text, and says which of its pieces stay at its front, how many after these are gone, and how many came. Where old and new
/// pieces meet right after those at the front, none are gone and none came. Where the first piece that is cut anew ends before the
/// range, all from some place in it, or right after it, up to the range begins a word that some rule matches.
///
/// # Errors
///
/// What is wrong with the edit.
pub fn cut_no_further(
    alloc: Global,
    lexed: &mut Document<'_>,
    range: Range<usize>,
    new: &str,
) -> Result<Change, EditError>
    ensures kept { IfOk result (λ c. (xs ys : List PieceValue) → ArePiecesOf lexed.old xs
        → ArePiecesOf lexed.new ys → AreSame (take c.first xs) (take c.first ys)) }
    ensures count { IfOk result (λ c. (xs ys : List PieceValue) → ArePiecesOf lexed.old xs
        → ArePiecesOf lexed.new ys → length ys + c.removed ≡ length xs + c.inserted) }
    ensures none { IfOk result (λ c. (xs ys : List PieceValue) → ArePiecesOf lexed.old xs
        → ArePiecesOf lexed.new ys
        → MeetAt lexed.old.rules.actions range.start range.end (length new.now) xs ys
        c.first c.first
        → (c.removed ≡ 0) × (c.inserted ≡ 0)) }
    ensures word { IfOk result (λ c. (xs : List PieceValue) → ArePiecesOf lexed.old xs
        → (x : PieceValue) → slice_get xs c.first ≡ Some x
        → start_of x + length (slice_of x) < range.start
        → (mode at : ℕ) × ((start_of x ≤ at) × (at ≤ start_of x + length (slice_of x))
        × ReadsTo (trees_in lexed.old.rules mode) lexed.old.text at range.start)) }
{
    let change = lexed.edit(alloc, range, new)?;
    Ok(change)
}

// Needs bajofeki::Document::lexer: rules.
// Needs bajofeki::Document::text: text.
/// The same text, cut anew.
///
/// # Errors
///
/// `OutOfMemory`; it isn't too large.
pub fn cut_again<'rules>(
    alloc: Global,
    lexed: &Document<'rules>,
) -> Result<Document<'rules>, EditError>
    ensures same { IfOk result (λ other. other ≡ lexed.now) }
{
    Document::new(alloc, lexed.lexer(), lexed.text())
}

// Needs bajofeki::Document::piece_at: piece, none.
/// How many bytes the piece has that holds the byte at a place. Each byte of the text is held by one.
pub fn length_at(lexed: &Document<'_>, at: usize) -> usize
    ensures some { at < length lexed.now.text → 0 < result }
{
    match lexed.piece_at(at) {
        Some(piece) => piece.slice().len(),
        None => 0,
    }
}

// Needs bajofeki::Document::pieces: pieces.
/// How many pieces hold a byte of the range.
///
/// # Errors
///
/// `AllocError` if a request for memory was refused.
pub fn count_between(
    alloc: Global,
    lexed: &Document<'_>,
    range: Range<usize>,
) -> Result<usize, AllocError>
    ensures count { IfOk result (λ n. (xs : List PieceValue) × (ArePiecesOf lexed.now xs
        × (count_by (holds_byte range.start range.end) xs ≡ n))) }
{
    let pieces = lexed.pieces(alloc, range)?;
    Ok(pieces.len())
}

// Needs bajofeki::Document::pieces: pieces, exist.
/// The pieces of a text. It has them, whether there is memory for them or not.
///
/// # Errors
///
/// `AllocError` if a request for memory was refused.
pub fn piece_list<'text>(
    alloc: Global,
    lexed: &'text Document<'_>,
) -> Result<Vec<Piece<'text>>, AllocError>
    ensures all { IfOk result (λ pieces. ArePiecesOf lexed.now pieces.items) }
    ensures exist { (xs : List PieceValue) × ArePiecesOf lexed.now xs }
{
    lexed.pieces(alloc, 0..lexed.text().len())
}

// Needs bajofeki::EditError::from: ghost from_gives.
/// A place in a list of its own.
///
/// # Errors
///
/// `OutOfMemory`.
pub fn one_place(alloc: Global, place: usize) -> Result<Vec<usize>, EditError>
    ensures memory { IfErr result (λ error. error ≡ EditError.OutOfMemory) }
{
    let mut places = Vec::with_capacity(alloc, 1)?;
    places.push(place)?;
    Ok(places)
}

// Needs bajofeki::Document::position: boundary, position; bajofeki::Document::offset: some, none.
/// The offset of the line and column of an offset: itself. `None` if no character begins there, and the text doesn't end there.
pub fn back_again(lexed: &Document<'_>, at: usize) -> Option<usize>
    ensures same { IfSome result (λ n. n ≡ at) }
    ensures none { IfNone result (¬ IsCharBoundary lexed.now.text at) }
{
    // What is known of the text.
    let _text = lexed.text();
    lexed.offset(lexed.position(at)?)
}
