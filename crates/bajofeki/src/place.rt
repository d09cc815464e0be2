//! A place in a text that is cut, with the stack of modes there.

ghost use Rattle.std.specs.Prelude.{◌≡◌, ℕ, ◌+◌, ◌^◌, ◌<◌, ◌≤◌, List, length, drop, true, IfOk, IfErr, OnOk, OnErr};
ghost use Rattle.std.specs.Str.{IsCharBoundary};
ghost use Rattle.lalrpop_rules.specs.Modes.{EachMode};
ghost use Rattle.bajofeki.specs.Internal.Kept.{IsKept, after_kept};
ghost use Rattle.bajofeki.specs.Internal.Cutting.{IsCutError};
ghost use Rattle.bajofeki.specs.Internal.Noted.{IsCutter, IsKnown};
ghost use Rattle.bajofeki.specs.Internal.Paying.{IsPiecePaid};

use crate::cutter::Cutter;
use crate::error::EditError;
use crate::front::{front_piece, kept_of};
use crate::kept::{FAULT, Kept};
use lalrpop_dfa::NfaIndex;
use lalrpop_hir::Steps;
use lalrpop_rules::{ModeStack, RuleLexer};
use std::alloc::AllocError;

// Where the next piece begins, and the stack of modes there.
#[derive(Drop)]
pub(crate) struct Place {
    pub(crate) at: usize,
    pub(crate) stack: ModeStack,
}

impl Clone for Place {
    ghost is_clone = { λ place copy. copy ≡ place };

    fn clone(&self) -> Result<Place, AllocError> {
        Ok(Place {
            at: self.at,
            stack: self.stack.clone()?,
        })
    }
}

/// Passes the piece, which begins at the place: from then on the place is after it. No text has 2^64 bytes.
///
/// # Errors
///
/// `AllocError` if a request for memory was refused. Then the place is as it was.
pub(crate) fn pass(lexer: &RuleLexer, piece: &Kept, place: &mut Place) -> Result<(), AllocError>
    ensures at { OnOk result (place.old.at + piece.now.size < 2 ^ 64
        → place.new.at ≡ place.old.at + piece.now.size) }
    ensures stack { OnOk result
        (place.new.stack ≡ after_kept lexer.now piece.now place.old.stack) }
    ensures there { OnOk result (EachMode (λ m. m < lexer.now.modes) place.old.stack
        → EachMode (λ m. m < lexer.now.modes) place.new.stack) }
    ensures refused { OnErr result (place.new ≡ place.old) }
{
    if piece.rule != FAULT {
        let index = NfaIndex::new(piece.rule as usize);
        place.stack.act_all(lexer.actions(index))?;
    }
    place.at = place.at.saturating_add(piece.size as usize);
    Ok(())
}

/// Cuts the piece at the place, before the end of the text, and passes it.
///
/// # Errors
///
/// The text is too large, or there are too many rules, or a request for memory was refused.
pub(crate) fn cut_piece(
    lexer: &RuleLexer,
    cutter: &mut Cutter<'_>,
    text: &str,
    place: &mut Place,
    steps: &mut Steps,
) -> Result<Kept, EditError>
    requires cutter { IsCutter lexer.now cutter.old place.old.at (drop place.old.at text.now) }
    requires boundary { IsCharBoundary text.now place.old.at }
    requires within { place.old.at < length text.now }
    requires there { EachMode (λ m. m < lexer.now.modes) place.old.stack }
    ensures kept { IfOk result (λ k.
        IsKept lexer.now place.old.stack.mode (drop place.old.at text.now) k) }
    ensures some { IfOk result (λ k. 0 < k.size) }
    ensures at { IfOk result (λ k. place.new.at ≡ place.old.at + k.size) }
    ensures stack { IfOk result (λ k.
        place.new.stack ≡ after_kept lexer.now k place.old.stack) }
    ensures boundary { OnOk result (IsCharBoundary text.now place.new.at) }
    ensures there { OnOk result (EachMode (λ m. m < lexer.now.modes) place.new.stack) }
    ensures cutter { OnOk result
        (IsCutter lexer.now cutter.new place.new.at (drop place.new.at text.now)) }
    ensures walkers { cutter.new.walkers.items ≡ cutter.old.walkers.items }
    ensures stays { (m p e : ℕ) → IsKnown cutter.old.memo m p e → IsKnown cutter.new.memo m p e }
    ensures whole { cutter.new.memo.is_whole ≡ true → cutter.old.memo.is_whole ≡ true }
    ensures paid { OnOk result (cutter.new.memo.is_whole ≡ true → (news : List (ℕ × (ℕ × ℕ)))
        × ((far : ℕ) × IsPiecePaid lexer.now cutter.old cutter.new text.now place.old place.new
        steps.old steps.new news far)) }
    ensures never_falls { steps.old ≤ steps.new }
    ensures error { IfErr result (λ e. IsCutError lexer.now text.now e) }
{
    let mode = place.stack.top();
    let front = front_piece(
        lexer.lexer(mode),
        &cutter.walkers[mode],
        &mut cutter.memo,
        mode,
        place.at,
        &text[place.at..],
        steps,
    );
    match kept_of(&front) {
        Some(piece) => {
            pass(lexer, &piece, place)?;
            Ok(piece)
        }
        None => Err(EditError::TooLarge),
    }
}
