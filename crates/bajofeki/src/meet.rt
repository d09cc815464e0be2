//! Cutting until the old pieces are met.

ghost use Rattle.std.specs.Prelude.{◌≡◌, ℕ, ◌+◌, ◌^◌, ◌<◌, ◌≤◌, ◌⊎◌, List, [], length, take, drop, slice_get, Some, true, false, IfSome, IfOk, OnOk, IfNone, IfErr};
ghost use Rattle.std.specs.Str.{IsCharBoundary};
ghost use Rattle.bajofeki_rules.specs.Stack.{Stack};
ghost use Rattle.lalrpop_rules.specs.Modes.{EachMode};
ghost use Rattle.bajofeki.specs.Internal.Kept.{KeptUpTo};
ghost use Rattle.bajofeki.specs.Internal.Cutting.{IsCutError};
ghost use Rattle.bajofeki.specs.Internal.Noted.{IsCutter};
ghost use Rattle.bajofeki.specs.Internal.Blocks.{pieces_in, sizes, IsSpot};
ghost use Rattle.bajofeki.specs.Internal.Meeting.{new_place, IsOldPlace, AreOld, IsTurn, AreMetAfter};
ghost use Rattle.bajofeki.specs.Internal.Paying.{IsCutPaid};

use crate::block::Block;
use crate::cutter::Cutter;
use crate::error::EditError;
use crate::kept::Kept;
use crate::place::{Place, cut_piece, pass};
use lalrpop_hir::Steps;
use lalrpop_rules::RuleLexer;
use std::alloc::AllocError;

// A place among the pieces of blocks.
#[derive(Clone, Copy)]
pub(crate) struct Spot {
    // How many blocks lie in front of it,
    pub(crate) block: usize,
    // and how many pieces of the next block.
    pub(crate) piece: usize,
    // How many pieces these are in all.
    pub(crate) count: usize,
}

// A place among the old pieces, and where it is in the old text.
#[derive(Drop)]
pub(crate) struct Old {
    pub(crate) spot: Spot,
    pub(crate) place: Place,
}

// What was cut: the pieces, and the place after them.
#[derive(Drop)]
pub(crate) struct Cut {
    pub(crate) pieces: Vec<Kept>,
    pub(crate) place: Place,
}

// An edit: the bytes from `from` to `to` of the old text gave way to `size` others.
#[derive(Clone, Copy)]
pub(crate) struct Edit {
    pub(crate) from: usize,
    pub(crate) to: usize,
    pub(crate) size: usize,
}

// The next piece after the spot, which passes it; or `None` if no piece is left.
fn next_piece(blocks: &[Block], spot: &mut Spot) -> Option<Kept>
    requires spot { IsSpot blocks.now spot.old.block spot.old.piece spot.old.count }
    requires fits { length (pieces_in blocks.now) < 2 ^ 63 }
    ensures spot { IsSpot blocks.now spot.new.block spot.new.piece spot.new.count }
    ensures block { spot.old.block ≤ spot.new.block }
    ensures some { IfSome result (λ k. (spot.new.count ≡ spot.old.count + 1)
        × (slice_get (pieces_in blocks.now) spot.old.count ≡ Some k)) }
    ensures none { IfNone result ((spot.new.count ≡ spot.old.count)
        × (spot.new.block ≡ length blocks.now)) }
{
    while spot.block < blocks.len() {
        let pieces = &blocks[spot.block].pieces;
        if spot.piece < pieces.len() {
            let piece = pieces[spot.piece];
            spot.piece += 1;
            spot.count += 1;
            return Some(piece);
        }
        spot.block += 1;
        spot.piece = 0;
    }
    None
}

// Passes the next old piece. Returns whether one was left.
fn pass_next(lexer: &RuleLexer, blocks: &[Block], old: &mut Old) -> Result<bool, AllocError>
    requires old { IsOldPlace lexer.now blocks.now old.old }
    requires count { length (pieces_in blocks.now) < 2 ^ 63 }
    requires size { sizes (pieces_in blocks.now) < 2 ^ 63 }
    ensures old { OnOk result (IsOldPlace lexer.now blocks.now old.new) }
    ensures block { OnOk result (old.old.spot.block ≤ old.new.spot.block) }
    ensures some { IfOk result (λ some. some ≡ true
        → (old.new.spot.count ≡ old.old.spot.count + 1)
        × (old.old.spot.count < length (pieces_in blocks.now))) }
    ensures none { IfOk result (λ some. some ≡ false
        → (old.new.spot.count ≡ old.old.spot.count)
        × (old.new.spot.block ≡ length blocks.now)) }
{
    match next_piece(blocks, &mut old.spot) {
        Some(piece) => {
            pass(lexer, &piece, &mut old.place)?;
            Ok(true)
        }
        None => Ok(false),
    }
}

// What is to be done next.
enum Turn {
    // Nothing: the old pieces are met.
    Meet,
    // The next piece is to be cut.
    CutOn,
    // The next old piece is to be passed.
    PassOn,
}

// What is to be done where the text is cut at the one place, and the old one is at the other. The text ends at `end`.
fn next_turn(edit: &Edit, end: usize, old: &Place, cut: &Place) -> Turn
    requires fits { edit.now.to ≤ old.now.at → new_place edit.now old.now.at < 2 ^ 64 }
    ensures turn { IsTurn edit.now end old.now cut.now result }
{
    if old.at < edit.to {
        return Turn::PassOn;
    }
    let at = edit.from + edit.size + (old.at - edit.to);
    if at == cut.at && old.stack == cut.stack {
        return Turn::Meet;
    }
    if at >= cut.at && cut.at < end {
        return Turn::CutOn;
    }
    Turn::PassOn
}

/// Cuts the text until an old place after what was replaced is met, with the same stack; or else the end of the text. Nothing
/// is cut yet.
///
/// # Errors
///
/// The text is too large, or there are too many rules, or a request for memory was refused.
pub(crate) fn cut_to_meet(
    lexer: &RuleLexer,
    cutter: &mut Cutter<'_>,
    text: &str,
    blocks: &[Block],
    edit: &Edit,
    old: &mut Old,
    cut: &mut Cut,
    steps: &mut Steps,
) -> Result<(), EditError>
    requires old { IsOldPlace lexer.now blocks.now old.old }
    requires pieces { AreOld lexer.now text.now edit.now (pieces_in blocks.now) }
    requires count { length (pieces_in blocks.now) < 2 ^ 63 }
    requires size { sizes (pieces_in blocks.now) < 2 ^ 63 }
    requires none { cut.old.pieces.items ≡ [] }
    requires cutter { IsCutter lexer.now cutter.old cut.old.place.at
        (drop cut.old.place.at text.now) }
    requires boundary { IsCharBoundary text.now cut.old.place.at }
    requires there { EachMode (λ m. m < lexer.now.modes) cut.old.place.stack }
    ensures old { OnOk result (IsOldPlace lexer.now blocks.now old.new) }
    ensures block { OnOk result (old.old.spot.block ≤ old.new.spot.block) }
    ensures count { OnOk result (old.old.spot.count ≤ old.new.spot.count) }
    ensures cut { OnOk result (KeptUpTo lexer.now text.now
        cut.old.place.at cut.old.place.stack
        cut.new.pieces.items
        cut.new.place.at cut.new.place.stack) }
    ensures behind { OnOk result ((t : Stack) × KeptUpTo lexer.now text.now
        cut.new.place.at cut.new.place.stack
        (drop old.new.spot.count (pieces_in blocks.now))
        (length text.now) t) }
    ensures replaced { OnOk result (edit.now.to ≤ old.new.place.at) }
    ensures place { OnOk result (new_place edit.now old.new.place.at ≡ cut.new.place.at) }
    ensures met { OnOk result ((old.new.spot.block ≡ length blocks.now)
        ⊎ (old.new.place.stack ≡ cut.new.place.stack)) }
    ensures first { OnOk result ((i j : ℕ) → old.old.spot.count ≤ i → i ≤ old.new.spot.count
        → j ≤ length cut.new.pieces.items
        → AreMetAfter lexer.now edit.now (pieces_in blocks.now)
        cut.old.place.at cut.old.place.stack cut.new.pieces.items i j
        → (i ≡ old.new.spot.count) × (j ≡ length cut.new.pieces.items)) }
    ensures walkers { cutter.new.walkers.items ≡ cutter.old.walkers.items }
    ensures paid { OnOk result (cutter.new.memo.is_whole ≡ true → (news : List (ℕ × (ℕ × ℕ)))
        × ((far : ℕ) × IsCutPaid lexer.now cutter.new text.now cut.old.place cut.new.place
        steps.old steps.new news far)) }
    ensures never_falls { steps.old ≤ steps.new }
    ensures error { IfErr result (λ e. IsCutError lexer.now text.now e) }
{
    'cut: loop {
        match next_turn(edit, text.len(), &old.place, &cut.place) {
            Turn::Meet => return Ok(()),
            Turn::CutOn => {
                let piece = cut_piece(lexer, cutter, text, &mut cut.place, steps)?;
                cut.pieces.push(piece)?;
            }
            Turn::PassOn => {
                if !pass_next(lexer, blocks, old)? {
                    return Ok(());
                }
            }
        }
    }
}
