//! The piece at the front of the rest of a text.

ghost use Rattle.std.specs.Prelude.{◌≡◌, ◌+◌, ◌<◌, ◌↔◌, ℕ, List, IsTrue, IfNone, None, length, drop};
ghost use Rattle.lalrpop_hir.specs.Tree.{Tree};
ghost use Rattle.lalrpop_hir.specs.Tokens.{IsToken};
ghost use Rattle.lalrpop_lexer.specs.Matching.{rest_of};
ghost use Rattle.lalrpop_rules.specs.Pieces.{IsPiece, IsFault, IsSkipped, slice_of};
ghost use Rattle.lalrpop_rules.specs.Internal.CutToEnd.{IsPaid};
ghost use Rattle.lalrpop_rules.specs.Internal.Finding.{memo_of, ForRules, IsSomeText, IsAtFront, IsMatchOf, IsWaiting, IsPassing, Passes};

use crate::piece::Piece;
use lalrpop_lexer::lexer::dfa::NfaIndex;
use lalrpop_lexer::lexer::nfa::Steps;
use lalrpop_lexer::{LinearMatches, Token};

/// Whether the rule with this index is skipped.
#[inline(always)]
pub(crate) fn is_skipped(skips: &[bool], index: NfaIndex) -> bool
    ensures skipped { IsTrue result ↔ IsSkipped skips.now index }
{
    match skips.get(index.index()) {
        Some(skipped) => *skipped,
        None => false,
    }
}

/// The piece that a token is, skipped or not.
#[inline(always)]
pub(crate) fn piece_of<'text>(
    skips: &[bool],
    index: NfaIndex,
    slice: &'text str,
    start: usize,
) -> Piece<'text>
    ensures piece { (ts : List Tree) (ps text : List ℕ) (at : ℕ)
        → IsToken ts ps text at (record { index = index; slice = slice.entry; start = start })
        → IsPiece ts ps skips.now text at result }
    ensures slice { slice_of result ≡ slice.now }
{
    let is_skipped = is_skipped(skips, index);
    let token = Token {
        index,
        slice,
        start,
    };
    if is_skipped {
        return Piece::Skipped(token);
    }
    Piece::Token(token)
}

/// The match at the front of the rest: from then on the rest begins after it. If there is none, the first character is passed.
#[inline(always)]
pub(crate) fn next_or_pass<'text>(
    matches: &mut LinearMatches<'text>,
    steps: &mut Steps,
) -> Option<(NfaIndex, &'text str)>
    requires some { IsSomeText (rest_of matches.old) }
    ensures answer { IsMatchOf matches.old.automaton (rest_of matches.old) result }
    ensures passes { Passes matches.old matches.new result }
    ensures paid { IsPaid steps.old (memo_of matches.old) steps.new (memo_of matches.new) }
{
    match matches.next_match(steps) {
        Some(found) => Some(found),
        None => {
            matches.pass_char();
            None
        }
    }
}

/// The fault that begins at byte `at`, and the match after it, unless the text ends there. Its first character is passed already.
#[inline(never)]
pub(crate) fn pass_fault<'text>(
    text: &'text str,
    at: usize,
    matches: &mut LinearMatches<'text>,
    steps: &mut Steps,
) -> (&'text str, Option<(NfaIndex, &'text str)>)
    requires passing { IsPassing text.now at matches.old }
    requires some { at < matches.old.at }
    ensures fault { ForRules matches.old.automaton
        (λ ts _. IsFault ts (drop at text.now) result.0.now) }
    ensures waiting { IsWaiting text.now (at + length result.0.now) result.1 matches.new }
    ensures same { matches.new.automaton ≡ matches.old.automaton }
    ensures paid { IsPaid steps.old (memo_of matches.old) steps.new (memo_of matches.new) }
{
    'passing: loop {
        let end = matches.offset();
        if end == text.len() {
            return (&text[at..], None);
        }
        if let Some(found) = next_or_pass(matches, steps) {
            return (&text[at..end], Some(found));
        }
    }
}

/// The match that is kept, or else the one at the front of the rest. If there is none, the first character is passed.
#[inline(always)]
pub(crate) fn take_or_find<'text>(
    kept: &mut Option<(NfaIndex, &'text str)>,
    matches: &mut LinearMatches<'text>,
    steps: &mut Steps,
) -> Option<(NfaIndex, &'text str)>
    requires some { IfNone kept.old (IsSomeText (rest_of matches.old)) }
    ensures front { (text : List ℕ) (at : ℕ)
        → IsWaiting text at kept.old matches.old
        → IsAtFront text at result kept.new matches.new }
    ensures taken { kept.new ≡ None }
    ensures same { matches.new.automaton ≡ matches.old.automaton }
    ensures paid { IsPaid steps.old (memo_of matches.old) steps.new (memo_of matches.new) }
{
    match kept {
        Some(_) => kept.take(),
        None => next_or_pass(matches, steps),
    }
}
