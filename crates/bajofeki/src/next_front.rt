//! The piece at the front of bytes, by the quickest way that settles it.

ghost use Rattle.std.specs.Prelude.{◌≡◌, ◌<◌, ◌+◌, ◌^◌, [], length, true, false, IfSome, IfNone, IfOk, OnErr};
ghost use Rattle.lalrpop_rules.specs.Modes.{trees_in};
ghost use Rattle.bajofeki.specs.Chunked.{IsOpenIn};
ghost use Rattle.bajofeki.specs.Internal.Ahead.{AreFound, AreFoundAfter, LeadOnAfter};
ghost use Rattle.bajofeki.specs.Internal.Held.{IsHeld};
ghost use Rattle.bajofeki.specs.Internal.Noted.{IsCutter};
ghost use Rattle.bajofeki.specs.Internal.Parts.{IsGiven, IsPart, Tells, text_in};
ghost use Rattle.bajofeki.specs.declared.parts.Told.TheVariants.{Whole};

use crate::cutter::{Cutter, keep_cutter};
use crate::found_ahead::FoundAhead;
use crate::held_run::HeldRun;
use crate::parts::{FrontPiece, Part, final_front};
use lalrpop_hir::Steps;
use lalrpop_lexer::Lexer;
use lalrpop_rules::RuleLexer;
use std::alloc::{AllocError, Global};

// How many bytes a run for one token reads, if it keeps no notes.
const LIMIT: usize = 64;

// The token at the front of the text, if the characters that begin in its first bytes settle it.
#[inline(always)]
fn settled_token(lexer: &Lexer, text: &str) -> Option<FrontPiece>
    ensures told { IfSome result (λ f. Tells lexer.now.trees lexer.now.precedences text.now false
        (Whole f)) }
{
    let dense = lexer.dense();
    match dense.longest_within(text, LIMIT, &mut Steps::new()) {
        Some(found) => match found.longest {
            Some((index, slice)) if slice.len() + found.past < text.len() => Some(FrontPiece {
                rule: Some(index),
                size: slice.len(),
            }),
            _ => None,
        },
        None => None,
    }
}

// The token at the front of the text, if it is settled with no notes.
fn quick_token(
    lexer: &RuleLexer,
    mode: usize,
    ahead: &mut FoundAhead,
    text: &str,
) -> Option<FrontPiece>
    requires there { mode < lexer.now.modes }
    requires none { ahead.old.ends ≡ [] }
    ensures told { IfSome result (λ f. Tells (trees_in lexer.now mode) lexer.now.precedences text.now
        false (Whole f)) }
    ensures found { IfSome result (λ f. LeadOnAfter lexer.now mode text.now f.size ahead.new) }
    ensures none { IfNone result (ahead.new.ends ≡ []) }
{
    let own = lexer.lexer(mode);
    // What is known of the automaton.
    let _dense = own.dense();
    if let Some(piece) = ahead.first_of(lexer, mode, text) {
        return Some(piece);
    }
    if !ahead.may_read(LIMIT) {
        return None;
    }
    match settled_token(own, text) {
        Some(piece) => Some(piece),
        None => {
            ahead.spend(LIMIT.min(text.len()));
            None
        }
    }
}

// The same of bytes whose text is this part, if it is at their front and no run is held.
fn quick_front(
    lexer: &RuleLexer,
    mode: usize,
    held: &Option<HeldRun<'_>>,
    ahead: &mut FoundAhead,
    part: &Part,
    bytes: &[u8],
    is_ended: bool,
) -> Option<FrontPiece>
    requires there { mode < lexer.now.modes }
    requires none { ahead.old.ends ≡ [] }
    requires part { IsPart (trees_in lexer.now mode) bytes.now part.now }
    ensures given { IfSome result (IsGiven (trees_in lexer.now mode) lexer.now.precedences bytes.now
        is_ended part.now) }
    ensures found { IfSome result (λ f. AreFoundAfter lexer.now mode bytes.now part.now f.size
        ahead.new) }
    ensures none { IfNone result (ahead.new.ends ≡ []) }
{
    if part.from > 0 || held.is_some() {
        return None;
    }
    quick_token(lexer, mode, ahead, part.text(bytes))
}

// The piece that `next_front` gives where no token is found ahead.
#[inline(never)]
fn sought_front<'a>(
    alloc: Global,
    lexer: &'a RuleLexer,
    kept: &mut Option<Cutter<'a>>,
    held: &mut Option<HeldRun<'a>>,
    ahead: &mut FoundAhead,
    part: &mut Part,
    mode: usize,
    at: usize,
    bytes: &[u8],
    is_ended: bool,
) -> Result<Option<FrontPiece>, AllocError>
    requires there { mode < lexer.now.modes }
    requires none { ahead.old.ends ≡ [] }
    requires part { IsPart (trees_in lexer.now mode) bytes.now part.old }
    requires cutter { IfSome kept.old (λ c. IsCutter lexer.now c (at + part.old.from)
        (text_in bytes.now part.old)) }
    requires run { IfSome held.old (IsHeld lexer.now mode (text_in bytes.now part.old)) }
    requires fits { at + length bytes.now < 2 ^ 64 }
    ensures given { IfOk result (λ found. IfSome found (IsGiven (trees_in lexer.now mode)
        lexer.now.precedences bytes.now is_ended part.new)) }
    ensures empty { IfOk result (λ found. IfNone found (is_ended ≡ true → bytes.now ≡ [])) }
    ensures held { IfOk result (λ found. IfNone found
        (is_ended ≡ false → IsOpenIn (trees_in lexer.now mode) bytes.now)) }
    ensures found { IfOk result (λ found. IfSome found (λ f.
        AreFoundAfter lexer.now mode bytes.now part.new f.size ahead.new)) }
    ensures none { IfOk result (λ found. IfNone found (ahead.new.ends ≡ [])) }
    ensures refused { OnErr result (ahead.new.ends ≡ []) }
    ensures part { IsPart (trees_in lexer.now mode) bytes.now part.new }
    ensures cutter { IfSome kept.new (λ c. IsCutter lexer.now c (at + part.new.from)
        (text_in bytes.now part.new)) }
    ensures run { IfSome held.new (IsHeld lexer.now mode (text_in bytes.now part.new)) }
{
    if let Some(piece) = quick_front(lexer, mode, held, ahead, part, bytes, is_ended) {
        return Ok(Some(piece));
    }
    keep_cutter(alloc, kept, lexer)?;
    Ok(final_front(alloc, lexer, kept, held, part, mode, at, bytes, is_ended))
}

/// The piece at the front of bytes, the first at the byte `at` of a longer text, if no more of them can change it. The part is of these
/// bytes, and the cutter, the run that is held and the tokens that are found ahead are of its text; so they are afterwards, but for
/// the tokens: those lead on after the piece.
///
/// # Errors
///
/// `AllocError` if a request for memory was refused.
#[inline(always)]
pub(crate) fn next_front<'a>(
    alloc: Global,
    lexer: &'a RuleLexer,
    kept: &mut Option<Cutter<'a>>,
    held: &mut Option<HeldRun<'a>>,
    ahead: &mut FoundAhead,
    part: &mut Part,
    mode: usize,
    at: usize,
    bytes: &[u8],
    is_ended: bool,
) -> Result<Option<FrontPiece>, AllocError>
    requires there { mode < lexer.now.modes }
    requires found { AreFound lexer.now mode bytes.now part.old ahead.old }
    requires part { IsPart (trees_in lexer.now mode) bytes.now part.old }
    requires cutter { IfSome kept.old (λ c. IsCutter lexer.now c (at + part.old.from)
        (text_in bytes.now part.old)) }
    requires run { IfSome held.old (IsHeld lexer.now mode (text_in bytes.now part.old)) }
    requires fits { at + length bytes.now < 2 ^ 64 }
    ensures given { IfOk result (λ found. IfSome found (IsGiven (trees_in lexer.now mode)
        lexer.now.precedences bytes.now is_ended part.new)) }
    ensures empty { IfOk result (λ found. IfNone found (is_ended ≡ true → bytes.now ≡ [])) }
    ensures held { IfOk result (λ found. IfNone found
        (is_ended ≡ false → IsOpenIn (trees_in lexer.now mode) bytes.now)) }
    ensures found { IfOk result (λ found. IfSome found (λ f.
        AreFoundAfter lexer.now mode bytes.now part.new f.size ahead.new)) }
    ensures none { IfOk result (λ found. IfNone found (ahead.new.ends ≡ [])) }
    ensures refused { OnErr result (ahead.new.ends ≡ []) }
    ensures part { IsPart (trees_in lexer.now mode) bytes.now part.new }
    ensures cutter { IfSome kept.new (λ c. IsCutter lexer.now c (at + part.new.from)
        (text_in bytes.now part.new)) }
    ensures run { IfSome held.new (IsHeld lexer.now mode (text_in bytes.now part.new)) }
{
    // What is known of the automaton.
    let _dense = lexer.lexer(mode).dense();
    match ahead.next() {
        Some(piece) => Ok(Some(piece)),
        None => sought_front(
            alloc, lexer, kept, held, ahead, part, mode, at, bytes, is_ended,
        ),
    }
}
