//! The pieces of a whole text.

ghost use Rattle.std.specs.Prelude.{◌≡◌, ◌+◌, ◌++◌, ◌<◌, ℕ, List, [], length, drop, slice_get, Some, IfSome, IfNone, IfOk, IfErr, OnOk};
ghost use Rattle.std.specs.Char.{encode_utf8};
ghost use Rattle.std.specs.Str.{IsCharBoundary};
ghost use Rattle.lalrpop_dfa.specs.Dfa.{Row};
ghost use Rattle.bajofeki_rules.specs.Stack.{Stack, start};
ghost use Rattle.lalrpop_rules.specs.Modes.{EachMode};
ghost use Rattle.bajofeki.specs.Internal.Ahead.{IsFirst, IsKeptOf, LeadOnAfter};
ghost use Rattle.bajofeki.specs.Internal.BlockPlaces.{AreCounted};
ghost use Rattle.bajofeki.specs.Internal.Blocks.{AreBlocksOf, pieces_in};
ghost use Rattle.bajofeki.specs.Internal.Cutting.{IsCutError};
ghost use Rattle.bajofeki.specs.Internal.Kept.{IsKept, KeptUpTo, after_kept};
ghost use Rattle.bajofeki.specs.Internal.Noted.{IsCutter};

use crate::block::{Block, blocks_of};
use crate::cutter::Cutter;
use crate::error::EditError;
use crate::found_ahead::FoundAhead;
use crate::front::{Front, kept_of};
use crate::kept::Kept;
use crate::parts::FrontPiece;
use crate::place::{Place, cut_piece, pass};
use lalrpop_hir::Steps;
use lalrpop_rules::{ModeStack, RuleLexer};
use std::alloc::Global;

// How many bytes the first character of the text has.
#[inline(always)]
fn first_size(text: &str) -> Option<usize>
    ensures { IfSome result (λ n. (c : ℕ) × ((rest : List ℕ) × ((text.now ≡ encode_utf8 c ++ rest)
        × (n ≡ length (encode_utf8 c))))) }
{
    match text.chars().next() {
        Some(c) => Some(c.len_utf8()),
        None => None,
    }
}

// The token at the front of the text, if it is found ahead.
#[inline(always)]
fn found_token(
    lexer: &RuleLexer,
    mode: usize,
    ahead: &mut FoundAhead,
    text: &str,
) -> Option<FrontPiece>
    requires there { mode < lexer.now.modes }
    requires ahead { LeadOnAfter lexer.now mode text.now 0 ahead.old }
    ensures first { IfSome result (λ f. (d : List Row) → slice_get lexer.now.automata mode ≡ Some d
        → IsFirst d text.now f ahead.new) }
    ensures none { IfNone result (ahead.new.ends ≡ []) }
{
    match ahead.next() {
        Some(piece) => Some(piece),
        None => ahead.first_of(lexer, mode, text),
    }
}

// What is kept of the token at the front of the text, which the character after it settles. `None` if a number is too great, or no
// character is there: then the tokens after it are forgotten.
fn kept_token(ahead: &mut FoundAhead, text: &str, token: FrontPiece) -> Option<Kept>
    requires boundary { IsCharBoundary text.now token.size }
    ensures kept { IfSome result (IsKeptOf text.now token) }
    ensures ahead { IfSome result (λ k. ahead.new ≡ ahead.old) }
    ensures none { IfNone result (ahead.new.ends ≡ []) }
{
    let kept = match first_size(&text[token.size..]) {
        Some(next) => kept_of(&Front {
            rule: token.rule,
            size: token.size,
            reach: token.size + next,
            void: 0,
        }),
        None => None,
    };
    if kept.is_none() {
        ahead.forget();
    }
    kept
}

// What is kept of the token at the front of the text, if it is found ahead.
fn found_kept(lexer: &RuleLexer, mode: usize, ahead: &mut FoundAhead, text: &str) -> Option<Kept>
    requires there { mode < lexer.now.modes }
    requires ahead { LeadOnAfter lexer.now mode text.now 0 ahead.old }
    ensures kept { IfSome result (IsKept lexer.now mode text.now) }
    ensures some { IfSome result (λ k. 0 < k.size) }
    ensures boundary { IfSome result (λ k. IsCharBoundary text.now k.size) }
    ensures ahead { IfSome result (λ k. LeadOnAfter lexer.now mode text.now k.size ahead.new) }
    ensures none { IfNone result (ahead.new.ends ≡ []) }
{
    // What is known of the automaton.
    let _dense = lexer.lexer(mode).dense();
    match found_token(lexer, mode, ahead, text) {
        Some(token) => kept_token(ahead, text, token),
        None => None,
    }
}

// Cuts the piece at the place, before the end of the text, and passes it.
fn next_kept(
    lexer: &RuleLexer,
    cutter: &mut Cutter<'_>,
    ahead: &mut FoundAhead,
    text: &str,
    place: &mut Place,
) -> Result<Kept, EditError>
    requires cutter { IsCutter lexer.now cutter.old place.old.at (drop place.old.at text.now) }
    requires boundary { IsCharBoundary text.now place.old.at }
    requires within { place.old.at < length text.now }
    requires there { EachMode (λ m. m < lexer.now.modes) place.old.stack }
    requires ahead { LeadOnAfter lexer.now place.old.stack.mode (drop place.old.at text.now) 0
        ahead.old }
    ensures kept { IfOk result (IsKept lexer.now place.old.stack.mode (drop place.old.at text.now)) }
    ensures some { IfOk result (λ k. 0 < k.size) }
    ensures at { IfOk result (λ k. place.new.at ≡ place.old.at + k.size) }
    ensures stack { IfOk result (λ k. place.new.stack ≡ after_kept lexer.now k place.old.stack) }
    ensures boundary { OnOk result (IsCharBoundary text.now place.new.at) }
    ensures there { OnOk result (EachMode (λ m. m < lexer.now.modes) place.new.stack) }
    ensures cutter { OnOk result
        (IsCutter lexer.now cutter.new place.new.at (drop place.new.at text.now)) }
    ensures ahead { OnOk result
        (LeadOnAfter lexer.now place.new.stack.mode (drop place.new.at text.now) 0 ahead.new) }
    ensures error { IfErr result (λ e. IsCutError lexer.now text.now e) }
{
    let mode = place.stack.top();
    if let Some(piece) = found_kept(lexer, mode, ahead, &text[place.at..]) {
        pass(lexer, &piece, place)?;
        ahead.pass(piece.size as usize, place.stack.top() == mode);
        return Ok(piece);
    }
    let piece = cut_piece(lexer, cutter, text, place, &mut Steps::new())?;
    ahead.pass(piece.size as usize, true);
    Ok(piece)
}

// What is kept of the pieces of the text.
fn kept_pieces(alloc: Global, lexer: &RuleLexer, text: &str) -> Result<Vec<Kept>, EditError>
    ensures pieces { IfOk result (λ v. (t : Stack)
        × KeptUpTo lexer.now text.now 0 start v.items (length text.now) t) }
    ensures error { IfErr result (λ e. IsCutError lexer.now text.now e) }
{
    // What is known of the modes.
    let _modes = lexer.modes();
    let mut pieces = Vec::new(alloc);
    let mut cutter = Cutter::new(alloc, lexer)?;
    let mut ahead = FoundAhead::new();
    let mut place = Place {
        at: 0,
        stack: ModeStack::new(alloc),
    };
    'cutting: while place.at < text.len() {
        let piece = next_kept(lexer, &mut cutter, &mut ahead, text, &mut place)?;
        pieces.push(piece)?;
    }
    // What isn't noted may be read again and again.
    if !cutter.memo.is_whole {
        return Err(EditError::OutOfMemory);
    }
    Ok(pieces)
}

/// The blocks of a text, and how many pieces they have.
#[derive(Drop)]
pub(crate) struct Whole {
    pub(crate) blocks: Vec<Block>,
    pub(crate) count: usize,
}

/// The blocks of the text.
///
/// # Errors
///
/// The text is too large, or there are too many rules, or a request for memory was refused.
pub(crate) fn whole_blocks(alloc: Global, lexer: &RuleLexer, text: &str) -> Result<Whole, EditError>
    ensures blocks { IfOk result (λ w. AreBlocksOf lexer.now text.now w.blocks.items) }
    ensures count { IfOk result (λ w. w.count ≡ length (pieces_in w.blocks.items)) }
    ensures counted { IfOk result (λ w. AreCounted text.now w.blocks.items) }
    ensures error { IfErr result (λ e. IsCutError lexer.now text.now e) }
{
    let pieces = kept_pieces(alloc, lexer, text)?;
    let mut begin = Place {
        at: 0,
        stack: ModeStack::new(alloc),
    };
    let blocks = blocks_of(alloc, lexer, text, &pieces, &mut begin)?;
    let count = pieces.len();
    Ok(Whole { blocks, count })
}
