//! The pieces of a text in blocks, so that an edit touches few of them.

ghost use Rattle.std.specs.Prelude.{◌≡◌, ℕ, ◌+◌, ◌^◌, ◌<◌, ◌≤◌, [], List, length, take, drop, IfOk, OnOk};
ghost use Rattle.std.specs.Str.{IsCharBoundary};
ghost use Rattle.bajofeki_rules.specs.Position.{position_of};
ghost use Rattle.bajofeki.specs.Internal.Kept.{AreWithin};
ghost use Rattle.bajofeki.specs.Internal.Blocks.{pieces_in, sizes, after_pieces, IsMarked, AreMarked};
ghost use Rattle.bajofeki.specs.Internal.BlockPlaces.{IsCounted, AreCounted};

use crate::kept::Kept;
use crate::place::{Place, pass};
use lalrpop_lexer::Position;
use lalrpop_rules::{ModeStack, RuleLexer};
use std::alloc::{AllocError, Global};

// The most pieces of a block; or as many as there are modes on the stack where it begins, if those are more: so the stacks
// of the blocks don't take much more memory than the pieces.
const MOST: usize = 256;

// Some pieces of a text, one after another.
#[derive(Drop)]
pub(crate) struct Block {
    // The stack of modes where it begins.
    pub(crate) stack: ModeStack,
    pub(crate) pieces: Vec<Kept>,
    // How many bytes they have.
    pub(crate) size: usize,
    // How many bytes from its beginning on its pieces depend on at most.
    pub(crate) reach: usize,
    // Where it ends, if its first character is at line 1 and column 1.
    pub(crate) end: Position,
}

// Passes the pieces, which begin at the place. Returns how many bytes from there on they depend on at most.
fn pass_all(lexer: &RuleLexer, pieces: &[Kept], place: &mut Place) -> Result<usize, AllocError>
    requires fits { place.old.at + sizes pieces.now < 2 ^ 63 }
    ensures at { OnOk result (place.new.at ≡ place.old.at + sizes pieces.now) }
    ensures stack { OnOk result
        (place.new.stack ≡ after_pieces lexer.now pieces.now place.old.stack) }
    ensures within { IfOk result (λ reach. AreWithin reach 0 pieces.now) }
    ensures least { IfOk result (λ reach. (n : ℕ) → AreWithin n 0 pieces.now → reach ≤ n) }
{
    let start = place.at;
    let mut reach = 0usize;
    for piece in pieces {
        reach = reach.max(place.at - start + piece.reach());
        pass(lexer, piece, place)?;
    }
    Ok(reach)
}

// Where a text ends.
fn end_of(text: &str) -> Position
    ensures end { result ≡ position_of text.now (length text.now) }
{
    match (Position { line: 1, column: 1 }).after(text) {
        Some(end) => end,
        // No text has 2^63 bytes.
        None => unreachable!(),
    }
}

// The block of these pieces of the text, which begin at the place: from then on that is after them.
fn block_of(
    alloc: Global,
    lexer: &RuleLexer,
    text: &str,
    pieces: &[Kept],
    place: &mut Place,
) -> Result<Block, AllocError>
    requires fits { place.old.at + sizes pieces.now < 2 ^ 63 }
    requires begins { IsCharBoundary text.now place.old.at }
    requires ends { IsCharBoundary text.now (place.old.at + sizes pieces.now) }
    ensures at { OnOk result (place.new.at ≡ place.old.at + sizes pieces.now) }
    ensures stack { OnOk result
        (place.new.stack ≡ after_pieces lexer.now pieces.now place.old.stack) }
    ensures marked { IfOk result (λ b. IsMarked place.old.stack b) }
    ensures pieces { IfOk result (λ b. b.pieces.items ≡ pieces.now) }
    ensures counted { IfOk result (λ b. IsCounted (drop place.old.at text.now) b) }
{
    let start = place.at;
    let stack = place.stack.clone()?;
    let reach = pass_all(lexer, pieces, place)?;
    let kept = Vec::from_slice(alloc, pieces)?;
    Ok(Block {
        stack,
        pieces: kept,
        size: place.at - start,
        reach,
        end: end_of(&text[start..place.at]),
    })
}

// How many of the pieces that are left the next block has, if it may have `most`. The last two blocks share theirs, so that
// neither is small.
fn share(left: usize, most: usize) -> usize
    requires left { 0 < left }
    requires most { 0 < most }
    ensures some { 0 < result }
    ensures within { result ≤ left }
{
    if left <= most {
        left
    } else if left - most < most {
        left / 2
    } else {
        most
    }
}

// The blocks of these pieces of the text, which begin at the place: from then on that is after them.
pub(crate) fn blocks_of(
    alloc: Global,
    lexer: &RuleLexer,
    text: &str,
    pieces: &[Kept],
    place: &mut Place,
) -> Result<Vec<Block>, AllocError>
    requires fits { place.old.at + sizes pieces.now < 2 ^ 63 }
    requires boundaries { (n : ℕ)
        → IsCharBoundary text.now (place.old.at + sizes (take n pieces.now)) }
    ensures marked { IfOk result (λ bs. AreMarked lexer.now place.old.stack bs.items) }
    ensures pieces { IfOk result (λ bs. pieces_in bs.items ≡ pieces.now) }
    ensures counted { IfOk result (λ bs. AreCounted (drop place.old.at text.now) bs.items) }
{
    let mut blocks = Vec::new(alloc);
    let mut from = 0;
    while from < pieces.len() {
        let most = place.stack.depth().max(MOST);
        let to = from + share(pieces.len() - from, most);
        let block = block_of(alloc, lexer, text, &pieces[from..to], place)?;
        blocks.push(block)?;
        from = to;
    }
    Ok(blocks)
}
