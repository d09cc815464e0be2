//! The longest matches of a text, one after another.

ghost use Rattle.std.specs.Prelude.{◌≡◌, ◌≢◌, ℕ, ◌+◌, ◌*◌, ◌≤◌, ◌++◌, [], drop, length, List, IfOk, IfSome, IfNone};
ghost use Rattle.std.specs.Option.{option_map};
ghost use Rattle.std.specs.Char.{encode_utf8};
ghost use Rattle.std.specs.Str.{chars, IsCharBoundary};
ghost use Rattle.lalrpop_hir.specs.Longest.{IsLongest};
ghost use Rattle.lalrpop_hir.specs.Prefix.{IsPrefix};
ghost use Rattle.lalrpop_hir.specs.Tree.{Tree};
ghost use Rattle.lalrpop_lexer.specs.Matching.{characters_of, open_states, rest_of};
ghost use Rattle.lalrpop_dfa.specs.Dfa.{Recognizes};

use lalrpop_dense::DenseDfa;
use lalrpop_dfa::NfaIndex;
use lalrpop_hir::Steps;
use lalrpop_lexer::LinearMatches;
use std::alloc::{AllocError, Global};

// Needs lalrpop_lexer::LinearMatches::new: start.
// Needs lalrpop_lexer::LinearMatches::rest: rest.
/// Before the first match the rest is the whole text.
///
/// # Errors
///
/// `AllocError` if a request for memory was refused.
pub fn rest_at_first<'text>(
    alloc: Global,
    dense: &'text DenseDfa,
    text: &'text str,
) -> Result<&'text str, AllocError>
    ensures { IfOk result (λ rest. rest.now ≡ text.now) }
{
    let matches = LinearMatches::new(alloc, dense, text)?;
    Ok(matches.rest())
}

// Needs lalrpop_lexer::LinearMatches::next_match: answer, prefix, goes_on, stays.
// Needs lalrpop_lexer::LinearMatches::offset: offset.
/// The next match, whatever trees the automaton recognizes, and where the rest then begins.
pub fn find_next<'text>(
    matches: &mut LinearMatches<'text>,
) -> (Option<(NfaIndex, &'text str)>, usize)
    ensures answer { (ts : List Tree) (ps : List ℕ) → Recognizes matches.old.automaton ts ps
        → IsLongest ts ps (rest_of matches.old) (option_map (λ m. (m.0, m.1.now)) result.0) }
    ensures prefix { IfSome result.0 (λ m.
        IsPrefix m.1.now (rest_of matches.old) × (m.1.now ≢ [])) }
    ensures goes_on { matches.old.at ≤ result.1 }
{
    let found = matches.next_match(&mut Steps::new());
    (found, matches.offset())
}

// Needs lalrpop_lexer::LinearMatches::pass_char: first, passes, end.
/// Passes over the first character of the rest. The rest then begins after it. `None` if nothing is left of the text.
pub fn pass_first(matches: &mut LinearMatches) -> Option<char>
    ensures first { IfSome result (λ c. rest_of matches.old
        ≡ encode_utf8 c ++ drop (matches.old.at + length (encode_utf8 c)) matches.old.text) }
    ensures end { IfNone result (rest_of matches.old ≡ []) }
    ensures same { IfNone result (matches.new ≡ matches.old) }
{
    matches.pass_char()
}

// Needs lalrpop_lexer::LinearMatches::pass_to: passes, never_falls, paid.
/// What is left of the text from a place on. No more steps are counted than were to spare.
pub fn rest_from<'text>(
    matches: &mut LinearMatches<'text>,
    at: usize,
    steps: &mut Steps,
) -> &'text str
    requires behind { matches.old.at ≤ at }
    requires boundary { IsCharBoundary matches.old.text at }
    ensures rest { result.now ≡ drop at matches.old.text }
    ensures grows { steps.old ≤ steps.new }
    ensures few { steps.new ≤ steps.old + matches.old.spare }
{
    matches.pass_to(at, steps);
    matches.rest()
}

// Needs lalrpop_lexer::LinearMatches::new: spare.
// Needs lalrpop_lexer::LinearMatches::next_match: paid, never_falls, read.
/// The first match of the text, and what it costs.
///
/// # Errors
///
/// `AllocError` if a request for memory was refused.
pub fn find_first<'text>(
    alloc: Global,
    dense: &'text DenseDfa,
    text: &'text str,
    steps: &mut Steps,
) -> Result<Option<(NfaIndex, &'text str)>, AllocError>
    ensures cost { IfOk result (λ found. steps.new
        ≤ steps.old + characters_of (option_map (λ m. m.1.now) found)
        + length (chars text.now) + length text.now
        + open_states dense.now * (length text.now + 64) + 64) }
    ensures never_falls { steps.old ≤ steps.new }
    ensures read { IfOk result (λ found.
        steps.old + characters_of (option_map (λ m. m.1.now) found) ≤ steps.new) }
{
    let mut matches = LinearMatches::new(alloc, dense, text)?;
    Ok(matches.next_match(steps))
}
