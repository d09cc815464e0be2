//! The pieces of a text that hold a byte, or a byte of a range.

ghost use Rattle.std.specs.Prelude.{◌≡◌, ℕ, ◌+◌, ◌≤◌, [], ◌∷◌, length, take, IfSome, IfNone, IfOk, OnOk};
ghost use Rattle.std.specs.Str.{IsCharBoundary};
ghost use Rattle.lalrpop_rules.specs.Pieces.{IsSame};
ghost use Rattle.bajofeki.specs.Lexed.{ArePiecesIn};
ghost use Rattle.bajofeki.specs.Internal.Blocks.{AreBlocksOf, IsBlockAt, IsPieceAt, size_in, sizes};
ghost use Rattle.bajofeki.specs.Internal.KeptPieces.{AddsHolding, item_at, items_from};

use crate::block::Block;
use crate::kept::{FAULT, Kept};
use lalrpop_lexer::Token;
use lalrpop_lexer::lexer::dfa::NfaIndex;
use lalrpop_rules::{Piece, RuleLexer};
use std::alloc::{AllocError, Global};
use std::ops::Range;

// The piece of the text at this place of which this is kept.
pub(crate) fn piece_of<'text>(
    lexer: &RuleLexer,
    text: &'text str,
    at: usize,
    piece: &Kept,
) -> Piece<'text>
    requires begins { IsCharBoundary text.now at }
    requires ends { IsCharBoundary text.now (at + piece.now.size) }
    ensures piece { IsSame result (item_at lexer.now.skips text.now at piece.now) }
{
    let slice = &text[at..at + piece.size as usize];
    if piece.rule == FAULT {
        return Piece::Fault { start: at, slice };
    }
    let index = NfaIndex::new(piece.rule as usize);
    let is_skipped = lexer.is_skipped(index);
    let token = Token {
        index,
        slice,
        start: at,
    };
    if is_skipped {
        return Piece::Skipped(token);
    }
    Piece::Token(token)
}

// The block that holds the byte, and where it begins.
fn find_block(blocks: &[Block], at: usize) -> Option<(&Block, usize)>
    ensures found { IfSome result (λ f. IsBlockAt blocks.now f.0.now f.1 at) }
    ensures none { IfNone result (size_in blocks.now ≤ at) }
{
    let mut begins = 0;
    for block in blocks {
        if at - begins < block.size {
            return Some((block, begins));
        }
        begins += block.size;
    }
    None
}

// What is kept of the piece that holds the byte, and where it begins. The first one begins at `start`, not after the byte.
fn find_piece(pieces: &[Kept], start: usize, at: usize) -> Option<(Kept, usize)>
    requires order { start ≤ at }
    ensures found { IfSome result (λ f. IsPieceAt pieces.now start f.0 f.1 at) }
    ensures none { IfNone result (start + sizes pieces.now ≤ at) }
{
    let mut begins = start;
    for piece in pieces {
        let size = piece.size as usize;
        if at - begins < size {
            return Some((*piece, begins));
        }
        begins += size;
    }
    None
}

/// The piece of the text that holds the byte, if these are its blocks.
pub(crate) fn piece_holding<'text>(
    lexer: &RuleLexer,
    text: &'text str,
    blocks: &[Block],
    at: usize,
) -> Option<Piece<'text>>
    requires blocks { AreBlocksOf lexer.now text.now blocks.now }
    ensures piece { IfSome result (λ x.
        ArePiecesIn (record { rules = lexer.now; text = text.now }) at (at + 1) (x ∷ [])) }
    ensures none { IfNone result (length text.now ≤ at) }
{
    let (block, start) = find_block(blocks, at)?;
    let (piece, start) = find_piece(&block.pieces, start, at)?;
    Some(piece_of(lexer, text, start, &piece))
}

// Adds the piece of the text at this place of which this is kept, if it holds a byte of the range.
fn push_holding<'text>(
    lexer: &RuleLexer,
    text: &'text str,
    at: usize,
    piece: &Kept,
    range: &Range<usize>,
    items: &mut Vec<Piece<'text>>,
) -> Result<(), AllocError>
    requires begins { IsCharBoundary text.now at }
    requires ends { IsCharBoundary text.now (at + piece.now.size) }
    ensures items { OnOk result (AddsHolding range.now.start range.now.end
        items.old.items items.new.items (item_at lexer.now.skips text.now at piece.now ∷ [])) }
{
    if range.start.max(at) >= range.end.min(at + piece.size as usize) {
        return Ok(());
    }
    if items.push(piece_of(lexer, text, at, piece)).is_err() {
        return Err(AllocError);
    }
    Ok(())
}

// Adds the pieces of the block that hold a byte of the range. The block begins at this place.
fn push_all_holding<'text>(
    lexer: &RuleLexer,
    text: &'text str,
    at: usize,
    block: &Block,
    range: &Range<usize>,
    items: &mut Vec<Piece<'text>>,
) -> Result<(), AllocError>
    requires size { block.now.size ≡ sizes block.now.pieces.items }
    requires boundaries { (n : ℕ)
        → IsCharBoundary text.now (at + sizes (take n block.now.pieces.items)) }
    ensures items { OnOk result (AddsHolding range.now.start range.now.end items.old.items
        items.new.items (items_from lexer.now.skips text.now at block.now.pieces.items)) }
{
    // In a block that holds none of those bytes no piece is looked at.
    if range.start.max(at) >= range.end.min(at + block.size) {
        return Ok(());
    }
    let mut begins = at;
    for piece in &block.pieces {
        push_holding(lexer, text, begins, piece, range, items)?;
        begins += piece.size as usize;
    }
    Ok(())
}

/// The pieces of the text that hold a byte of the range, if these are its blocks.
pub(crate) fn pieces_holding<'text>(
    alloc: Global,
    lexer: &RuleLexer,
    text: &'text str,
    blocks: &[Block],
    range: &Range<usize>,
) -> Result<Vec<Piece<'text>>, AllocError>
    requires blocks { AreBlocksOf lexer.now text.now blocks.now }
    ensures pieces { IfOk result (λ v. ArePiecesIn
        (record { rules = lexer.now; text = text.now }) range.now.start range.now.end v.items) }
{
    let mut items = Vec::new(alloc);
    let mut begins = 0;
    for block in blocks {
        push_all_holding(lexer, text, begins, block, range, &mut items)?;
        begins += block.size;
    }
    Ok(items)
}
