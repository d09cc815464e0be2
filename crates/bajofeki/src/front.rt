//! The piece at the front of a text, and what it depends on.

ghost use Rattle.std.specs.Prelude.{◌≡◌, ◌≢◌, ◌+◌, ◌^◌, ◌<◌, ◌≤◌, ◌⊎◌, ◌==◌, if◌then◌else◌, ℕ, List, Some, None, length, true, IfSome, IfNone, IsSomeAnd};
ghost use Rattle.std.specs.Str.{IsCharBoundary};
ghost use Rattle.lalrpop_hir.specs.Tree.{Tree};
ghost use Rattle.lalrpop_dfa.specs.Dfa.{Row, RecognizesAll};
ghost use Rattle.lalrpop_dfa.specs.Lookahead.{IsTrim};
ghost use Rattle.bajofeki.specs.Internal.Reach.{AreAlike};
ghost use Rattle.bajofeki.specs.Internal.Parts.{IsVoidTo};
ghost use Rattle.bajofeki.specs.Internal.Kept.{IsFront, IsReadFor, rule_of, reach_of};
ghost use Rattle.bajofeki.specs.Internal.Walking.{IsRight, IsWalkerOf};
ghost use Rattle.bajofeki.specs.Internal.Noted.{IsKnown, IsNoted, IsSound};
ghost use Rattle.bajofeki.specs.Internal.Paying.{IsFrontPaid};
ghost use Rattle.bajofeki.specs.Chunked.{IsOpen};

use crate::kept::{FAULT, Kept};
use crate::memo::Memo;
use crate::run::longest_settled;
use crate::walker::Walker;
use lalrpop_dfa::NfaIndex;
use lalrpop_hir::Steps;
use lalrpop_lexer::Lexer;

// The piece at the front of a text: its rule, none in a fault; how many bytes it has; how many bytes from its beginning on it
// depends on; and at how many bytes of a fault nothing matches, whatever comes after the text.
#[derive(Clone, Copy)]
pub(crate) struct Front {
    pub(crate) rule: Option<NfaIndex>,
    pub(crate) size: usize,
    pub(crate) reach: usize,
    pub(crate) void: usize,
}

// The place, if what was read up to there lies in a text of this size; else the place so far.
fn void_up_to(place: usize, reach: usize, size: usize, void: usize) -> usize
    ensures { ((reach ≤ size) × (result ≡ place)) ⊎ (result ≡ void) }
{
    if reach <= size { place } else { void }
}

// The piece at the front of a text that is cut by the patterns of an automaton, along which the walker goes. The text begins at the
// byte `at` of a longer one, which the memo is for.
#[inline(never)]
fn front_by(
    walker: &Walker<'_>,
    memo: &mut Memo,
    mode: usize,
    at: usize,
    rest: &str,
    steps: &mut Steps,
) -> Front
    requires right { IsRight walker.now }
    requires some { 0 < length rest.now }
    requires fits { at + length rest.now < 2 ^ 64 }
    requires sound { IsSound walker.now memo.old mode at rest.now }
    ensures front { (d : List Row) (ts : List Tree) (ps : List ℕ) → IsWalkerOf walker.now d
        → RecognizesAll d ts ps → (other : List ℕ) → AreAlike result.reach rest.now other
        → (slice : List ℕ)
        × ((length slice ≡ result.size) × IsFront ts ps other result.rule slice) }
    ensures some { 0 < result.size }
    ensures size { result.size ≤ result.reach }
    ensures within { result.reach ≤ length rest.now + 1 }
    ensures boundary { IsCharBoundary rest.now result.size }
    ensures held { length rest.now < result.reach → (d : List Row) (ts : List Tree) (ps : List ℕ)
        → IsWalkerOf walker.now d → IsTrim d → RecognizesAll d ts ps → IsOpen ts rest.now }
    ensures void { (d : List Row) (ts : List Tree) (ps : List ℕ) → IsWalkerOf walker.now d
        → RecognizesAll d ts ps → IsVoidTo ts rest.now result.void }
    ensures sound { IsSound walker.now memo.new mode at rest.now }
    ensures others { (m p e n : ℕ) → m ≢ mode → IsNoted memo.new m p e n
        → IsNoted memo.old m p e n }
    ensures stays { (m p e : ℕ) → IsKnown memo.old m p e → IsKnown memo.new m p e }
    ensures whole { memo.new.is_whole ≡ true → memo.old.is_whole ≡ true }
    ensures reads { (d : List Row) (ts : List Tree) (ps : List ℕ) → IsWalkerOf walker.now d
        → IsTrim d
        → RecognizesAll d ts ps → IsReadFor ts rest.now result.rule result.size result.reach }
    ensures paid { memo.new.is_whole ≡ true → (d : List Row) (ts : List Tree) (ps : List ℕ)
        → IsWalkerOf walker.now d → IsTrim d → RecognizesAll d ts ps
        → (news : List (ℕ × (ℕ × ℕ)))
        × ((far : ℕ) × IsFrontPaid walker.now ts ps memo.old memo.new mode at
        rest.now result steps.old steps.new news far) }
    ensures never_falls { steps.old ≤ steps.new }
{
    let mut reach = 0usize;
    let mut void = 0usize;
    for (offset, c) in rest.char_indices() {
        let found = longest_settled(walker, memo, mode, at + offset, &rest[offset..], steps);
        if let Some((index, slice)) = found.longest {
            // That something matches here ends a fault; a longer match would end it too.
            if offset > 0 {
                return Front {
                    rule: None,
                    size: offset,
                    reach: reach.max(offset + slice.len()),
                    void,
                };
            }
            return Front {
                rule: Some(index),
                size: slice.len(),
                reach: found.reach,
                void: 0,
            };
        }
        reach = reach.max(offset + found.reach);
        void = void_up_to(offset + c.len_utf8(), reach, rest.len(), void);
    }
    Front {
        rule: None,
        size: rest.len(),
        reach: rest.len() + 1,
        void,
    }
}

/// The piece at the front of a text that isn't empty. It begins at the byte `at` of a longer one, which the memo is for.
pub(crate) fn front_piece(
    lexer: &Lexer,
    walker: &Walker<'_>,
    memo: &mut Memo,
    mode: usize,
    at: usize,
    rest: &str,
    steps: &mut Steps,
) -> Front
    requires right { IsRight walker.now }
    requires same { IsWalkerOf walker.now lexer.now.automaton }
    requires some { 0 < length rest.now }
    requires fits { at + length rest.now < 2 ^ 64 }
    requires sound { IsSound walker.now memo.old mode at rest.now }
    ensures front { (other : List ℕ) → AreAlike result.reach rest.now other → (slice : List ℕ)
        × ((length slice ≡ result.size)
        × IsFront lexer.now.trees lexer.now.precedences other result.rule slice) }
    ensures some { 0 < result.size }
    ensures size { result.size ≤ result.reach }
    ensures within { result.reach ≤ length rest.now + 1 }
    ensures boundary { IsCharBoundary rest.now result.size }
    ensures held { length rest.now < result.reach → IsOpen lexer.now.trees rest.now }
    ensures void { IsVoidTo lexer.now.trees rest.now result.void }
    ensures sound { IsSound walker.now memo.new mode at rest.now }
    ensures others { (m p e n : ℕ) → m ≢ mode → IsNoted memo.new m p e n
        → IsNoted memo.old m p e n }
    ensures stays { (m p e : ℕ) → IsKnown memo.old m p e → IsKnown memo.new m p e }
    ensures whole { memo.new.is_whole ≡ true → memo.old.is_whole ≡ true }
    ensures reads { IsReadFor lexer.now.trees rest.now result.rule result.size result.reach }
    ensures paid { memo.new.is_whole ≡ true → (news : List (ℕ × (ℕ × ℕ))) × ((far : ℕ)
        × IsFrontPaid walker.now lexer.now.trees lexer.now.precedences memo.old memo.new mode at
        rest.now result steps.old steps.new news far) }
    ensures never_falls { steps.old ≤ steps.new }
{
    // What is known of the automaton.
    let _dense = lexer.dense();
    front_by(walker, memo, mode, at, rest, steps)
}

// The number that is kept of a rule. `None` if it is too great.
fn rule_number(rule: Option<NfaIndex>) -> Option<u32>
    ensures some { IfSome result (λ n. (if n == 4294967295 then None else Some n) ≡ rule) }
    ensures none { IfNone result (IsSomeAnd rule (λ i. 4294967295 ≤ i)) }
{
    match rule {
        Some(index) => {
            let number = u32::try_from(index.index()).ok()?;
            if number == FAULT { None } else { Some(number) }
        }
        None => Some(FAULT),
    }
}

/// What is kept of the piece. `None` if a number is too great.
pub(crate) fn kept_of(front: &Front) -> Option<Kept>
    requires size { front.now.size ≤ front.now.reach }
    ensures some { IfSome result (λ k. (rule_of k ≡ front.now.rule) × (k.size ≡ front.now.size)
        × (reach_of k ≡ front.now.reach)) }
    ensures none { IfNone result ((4294967296 ≤ front.now.reach)
        ⊎ IsSomeAnd front.now.rule (λ i. 4294967295 ≤ i)) }
{
    Some(Kept {
        rule: rule_number(front.rule)?,
        size: u32::try_from(front.size).ok()?,
        past: u32::try_from(front.reach - front.size).ok()?,
    })
}
