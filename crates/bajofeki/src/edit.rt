//! The pieces of a text of which a stretch was replaced.

ghost use Rattle.std.specs.Prelude.{◌≡◌, ℕ, ◌+◌, ◌^◌, ◌<◌, ◌≤◌, ◌⊎◌, [], List, ◌++◌, length, take, drop, slice_get, Some, IfOk, OnOk, OnErr, IfErr};
ghost use Rattle.std.specs.Str.{IsCharBoundary};
ghost use Rattle.bajofeki_rules.specs.Stack.{Stack, start};
ghost use Rattle.lalrpop_rules.specs.Modes.{ModeRules};
ghost use Rattle.bajofeki.specs.Internal.Kept.{AreWithin, reach_of};
ghost use Rattle.bajofeki.specs.declared.block.Block.{Block as BlockValue};
ghost use Rattle.bajofeki.specs.declared.kept.Kept.{Kept as KeptValue};
ghost use Rattle.bajofeki.specs.Internal.Cutting.{IsCutError};
ghost use Rattle.bajofeki.specs.Internal.Blocks.{pieces_in, pieces_at, sizes, after_pieces, AreBlocks, AreMarked, IsSpot};
ghost use Rattle.bajofeki.specs.Internal.BlockPlaces.{AreCounted, AreSameAround};
ghost use Rattle.bajofeki.specs.Internal.Starting.{IsFirst, IsStart};
ghost use Rattle.bajofeki.specs.Internal.Changing.{IsOld, IsKeptChange};
ghost use Rattle.bajofeki.specs.Internal.Least.{IsLeastChange};
ghost use Rattle.bajofeki.specs.Costs.{IsPaidFor};

use crate::block::{Block, blocks_of};
use crate::change::Change;
use crate::cutter::Cutter;
use crate::error::EditError;
use crate::kept::Kept;
use crate::meet::{Cut, Edit, Old, Spot, cut_to_meet};
use crate::place::{Place, pass};
use lalrpop_hir::Steps;
use lalrpop_rules::{ModeStack, RuleLexer};
use std::alloc::{AllocError, Global};

// Where the pieces are cut anew from.
#[derive(Drop)]
struct Start {
    spot: Spot,
    // Where the block of the spot begins.
    begin: Place,
    // Where the spot is.
    place: Place,
}

// The place in front of the first block of which something depends on what lies from `from` on, or else of the last block; and where
// that block begins in the text.
fn first_reaching(blocks: &[Block], from: usize) -> (Spot, usize)
    requires marked { (r : ModeRules) × ((s : Stack) × AreMarked r s blocks.now) }
    requires count { length (pieces_in blocks.now) < 2 ^ 63 }
    requires size { sizes (pieces_in blocks.now) < 2 ^ 63 }
    requires from { from < 2 ^ 63 }
    ensures first { IsFirst blocks.now from result.0 result.1 }
    ensures stops { (b : BlockValue) → slice_get blocks.now result.0.block ≡ Some b
        → result.0.block + 1 < length blocks.now → from < result.1 + b.reach }
{
    let mut spot = Spot {
        block: 0,
        piece: 0,
        count: 0,
    };
    let mut at = 0;
    while spot.block + 1 < blocks.len() {
        let block = &blocks[spot.block];
        if block.reach > from.saturating_sub(at) {
            break;
        }
        at += block.size;
        spot.count += block.pieces.len();
        spot.block += 1;
    }
    (spot, at)
}

// Passes the pieces up to the first one that depends on something from the place `from` on. Returns how many they are.
fn keep_front(
    lexer: &RuleLexer,
    pieces: &[Kept],
    from: usize,
    place: &mut Place,
) -> Result<usize, AllocError>
    requires fits { place.old.at + sizes pieces.now < 2 ^ 63 }
    ensures count { IfOk result (λ n. n ≤ length pieces.now) }
    ensures at { IfOk result (λ n. place.new.at ≡ place.old.at + sizes (take n pieces.now)) }
    ensures stack { IfOk result (λ n.
        place.new.stack ≡ after_pieces lexer.now (take n pieces.now) place.old.stack) }
    ensures within { IfOk result (λ n. AreWithin from place.old.at (take n pieces.now)) }
    ensures first { IfOk result (λ n. (k : KeptValue)
        → slice_get pieces.now n ≡ Some k → from < place.new.at + reach_of k) }
{
    let mut count = 0;
    while count < pieces.len() {
        let piece = pieces[count];
        if place.at + piece.reach() > from {
            break;
        }
        pass(lexer, &piece, place)?;
        count += 1;
    }
    Ok(count)
}

// Where the pieces are cut anew from, if nothing before the place `from` was replaced.
fn start_of(
    alloc: Global,
    lexer: &RuleLexer,
    blocks: &[Block],
    from: usize,
) -> Result<Start, AllocError>
    requires marked { AreMarked lexer.now start blocks.now }
    requires count { length (pieces_in blocks.now) < 2 ^ 63 }
    requires size { sizes (pieces_in blocks.now) < 2 ^ 63 }
    requires from { from < 2 ^ 63 }
    ensures start { IfOk result (λ s. IsStart lexer.now blocks.now from s) }
{
    let (mut spot, at) = first_reaching(blocks, from);
    if spot.block >= blocks.len() {
        // There are no pieces.
        let begin = Place {
            at,
            stack: ModeStack::new(alloc),
        };
        let place = begin.clone()?;
        return Ok(Start { spot, begin, place });
    }
    let block = &blocks[spot.block];
    let begin = Place {
        at,
        stack: block.stack.clone()?,
    };
    let mut place = begin.clone()?;
    let piece = keep_front(lexer, &block.pieces, from, &mut place)?;
    spot.piece = piece;
    spot.count += piece;
    Ok(Start { spot, begin, place })
}

// The pieces of the block with this number; none, if there is no such block.
fn pieces_of(blocks: &[Block], number: usize) -> &[Kept]
    ensures pieces { result.now ≡ pieces_at blocks.now number }
{
    if number < blocks.len() {
        return &blocks[number].pieces;
    }
    &[]
}

// The pieces of the blocks that change: those of the first block in front of the one spot, those that were cut, and those of the
// last block after the other spot.
fn joined_pieces(
    alloc: Global,
    blocks: &[Block],
    first: &Spot,
    cut: &[Kept],
    last: &Spot,
) -> Result<Vec<Kept>, AllocError>
    requires first { first.now.piece ≤ length (pieces_at blocks.now first.now.block) }
    requires last { last.now.piece ≤ length (pieces_at blocks.now last.now.block) }
    ensures pieces { IfOk result (λ v. v.items
        ≡ take first.now.piece (pieces_at blocks.now first.now.block)
        ++ (cut.now ++ drop last.now.piece (pieces_at blocks.now last.now.block))) }
{
    let front = pieces_of(blocks, first.block);
    let behind = pieces_of(blocks, last.block);
    let mut pieces = Vec::from_slice(alloc, &front[..first.piece])?;
    pieces.extend_from_slice(cut)?;
    pieces.extend_from_slice(&behind[last.piece..])?;
    Ok(pieces)
}

// Puts blocks in the place of those from the one number to the other. On an error nothing has changed.
fn put_blocks(
    blocks: &mut Vec<Block>,
    from: usize,
    to: usize,
    made: Vec<Block>,
) -> Result<(), AllocError>
    requires order { from ≤ to }
    requires within { to ≤ length blocks.old.items }
    ensures items { OnOk result (blocks.new.items
        ≡ take from blocks.old.items ++ (made.items ++ drop to blocks.old.items)) }
    ensures refused { OnErr result (blocks.new.items ≡ blocks.old.items) }
{
    blocks.splice(from..to, made)?;
    Ok(())
}

// Puts the pieces of the text that were cut in the place of those from the one spot to the other. The block of the first spot begins
// at `begin`. On an error nothing has changed.
fn put_pieces(
    alloc: Global,
    lexer: &RuleLexer,
    text: &str,
    blocks: &mut Vec<Block>,
    first: &Spot,
    begin: &mut Place,
    cut: &[Kept],
    last: &Spot,
) -> Result<(), AllocError>
    requires marked { AreMarked lexer.now start blocks.old.items }
    requires first { IsSpot blocks.old.items first.now.block first.now.piece first.now.count }
    requires last { IsSpot blocks.old.items last.now.block last.now.piece last.now.count }
    requires order { first.now.block ≤ last.now.block }
    requires at { begin.old.at ≡ sizes (pieces_in (take first.now.block blocks.old.items)) }
    requires stack { begin.old.stack
        ≡ after_pieces lexer.now (pieces_in (take first.now.block blocks.old.items)) start }
    requires fits { sizes (take first.now.count (pieces_in blocks.old.items)
        ++ (cut.now ++ drop last.now.count (pieces_in blocks.old.items))) < 2 ^ 63 }
    requires boundaries { (n : ℕ) → IsCharBoundary text.now
        (sizes (take n (take first.now.count (pieces_in blocks.old.items)
        ++ (cut.now ++ drop last.now.count (pieces_in blocks.old.items))))) }
    requires met { (last.now.block ≡ length blocks.old.items)
        ⊎ (after_pieces lexer.now (take first.now.count (pieces_in blocks.old.items) ++ cut.now) start
        ≡ after_pieces lexer.now (take last.now.count (pieces_in blocks.old.items)) start) }
    ensures marked { OnOk result (AreMarked lexer.now start blocks.new.items) }
    ensures pieces { OnOk result (pieces_in blocks.new.items
        ≡ take first.now.count (pieces_in blocks.old.items)
        ++ (cut.now ++ drop last.now.count (pieces_in blocks.old.items))) }
    ensures counted { OnOk result ((before : List ℕ) → AreCounted before blocks.old.items
        → AreSameAround before text.now (sizes (take first.now.count (pieces_in blocks.old.items)))
        (sizes (take last.now.count (pieces_in blocks.old.items)))
        (sizes (take first.now.count (pieces_in blocks.old.items) ++ cut.now))
        → AreCounted text.now blocks.new.items) }
    ensures refused { OnErr result (blocks.new.items ≡ blocks.old.items) }
{
    let pieces = joined_pieces(alloc, blocks, first, cut, last)?;
    let made = blocks_of(alloc, lexer, text, &pieces, begin)?;
    let to = if last.block < blocks.len() {
        last.block + 1
    } else {
        blocks.len()
    };
    put_blocks(blocks, first.block, to, made)
}

/// Cuts anew what an edit changed of the pieces of a text: the text is the new one, and the blocks those of the old one, of which the
/// bytes from `from` to `to` gave way to `size` others. It begins at the first piece that depends on something from `from` on, and
/// ends where an old piece begins after `to`, in the same modes.
///
/// # Errors
///
/// The text is too large, or there are too many rules, or a request for memory was refused. Then the blocks are as they were.
pub(crate) fn cut_anew(
    alloc: Global,
    lexer: &RuleLexer,
    text: &str,
    blocks: &mut Vec<Block>,
    from: usize,
    to: usize,
    size: usize,
    steps: &mut Steps,
) -> Result<Change, EditError>
    requires old { (before : List ℕ) × ((t : Stack)
        × IsOld lexer.now blocks.old.items text.now from to size before t) }
    ensures blocks { OnOk result ((u : Stack)
        × AreBlocks lexer.now text.now 0 start blocks.new.items (length text.now) u) }
    ensures counted { OnOk result (AreCounted text.now blocks.new.items) }
    ensures change { IfOk result (λ c. (before : List ℕ) (t : Stack)
        → IsOld lexer.now blocks.old.items text.now from to size before t
        → IsKeptChange lexer.now before text.now
        (pieces_in blocks.old.items) (pieces_in blocks.new.items) c) }
    ensures least { IfOk result (λ c.
        IsLeastChange lexer.now (record { from = from; to = to; size = size })
        (pieces_in blocks.old.items) (pieces_in blocks.new.items) c) }
    ensures cost { IfOk result (λ c. IsPaidFor (record { rules = lexer.now; text = text.now }) c
        steps.old steps.new) }
    ensures never_falls { steps.old ≤ steps.new }
    ensures refused { OnErr result (blocks.new.items ≡ blocks.old.items) }
    ensures error { IfErr result (λ e. IsCutError lexer.now text.now e) }
{
    // What is known of the modes.
    let _modes = lexer.modes();
    let mut first = start_of(alloc, lexer, blocks, from)?;
    let edit = Edit { from, to, size };
    let mut old = Old {
        spot: first.spot,
        place: first.place.clone()?,
    };
    let mut cut = Cut {
        pieces: Vec::new(alloc),
        place: first.place.clone()?,
    };
    let mut cutter = Cutter::new(alloc, lexer)?;
    cut_to_meet(
        lexer,
        &mut cutter,
        text,
        blocks,
        &edit,
        &mut old,
        &mut cut,
        steps,
    )?;
    // What isn't noted may be read again and again.
    if !cutter.memo.is_whole {
        return Err(EditError::OutOfMemory);
    }
    let spot = first.spot;
    put_pieces(
        alloc,
        lexer,
        text,
        blocks,
        &spot,
        &mut first.begin,
        &cut.pieces,
        &old.spot,
    )?;
    Ok(Change {
        first: spot.count,
        removed: old.spot.count - spot.count,
        inserted: cut.pieces.len(),
        start: first.place.at,
        old_end: old.place.at,
        new_end: cut.place.at,
    })
}
