//! A whole text, cut in the way whose cost has a bound; and its longest matches.

ghost use Rattle.std.specs.Prelude.{◌≡◌, ℕ, ◌+◌, ◌*◌, ◌≤◌, ◌⊎◌, [], IsSome, None, length, true, Option, IfOk, OnErr};
ghost use Rattle.std.specs.Option.{option_map};
ghost use Rattle.std.specs.Str.{chars};
ghost use Rattle.lalrpop_hir.specs.Clash.{NoClash};
ghost use Rattle.lalrpop_hir.specs.Longest.{IsLongest};
ghost use Rattle.lalrpop_lexer.specs.Matching.{characters_of, open_states};
ghost use Rattle.lalrpop_lexer.specs.Lookahead.{IsLookahead};
ghost use Rattle.lalrpop_lexer.specs.Winners.{Matched};
ghost use Rattle.lalrpop_lexer.specs.Cutting.{rest_of, most_steps};
ghost use Rattle.lalrpop_lexer.specs.Rules.{IsBuiltFrom};

use lalrpop_dfa::NfaIndex;
use lalrpop_hir::Steps;
use lalrpop_lexer::{Lexer, Tokens};
use std::alloc::{AllocError, Global};

// Needs lalrpop_lexer::Lexer::tokens: cost.
// Needs lalrpop_lexer::Tokens::next: ghost next_gives, ghost remaining.
/// Cuts the whole text.
///
/// # Errors
///
/// `AllocError` if a request for memory was refused.
pub fn cut_to_the_end<'text>(
    alloc: Global,
    lexer: &'text Lexer,
    text: &'text str,
) -> Result<Tokens<'text>, AllocError>
    ensures all { IfOk result (λ s. (s.is_over ≡ true) ⊎ (rest_of s ≡ [])) }
    ensures cost { IfOk result (λ s. (found : Option ℕ)
        × (IsLookahead (Matched lexer.now.trees) found
        × (s.steps ≤ most_steps lexer.now.automaton text.now found))) }
{
    let mut items = lexer.tokens(alloc, text)?;
    while let Some(_) = items.next() {}
    Ok(items)
}

// Needs lalrpop_lexer::Lexer::tokens: start, memo, built, refused, no_clash.
/// Before the first token all of the text is left, and it is the lexer's automaton that cuts it. No word is ambiguous.
///
/// # Errors
///
/// `AllocError` if a request for memory was refused.
pub fn begin<'text>(
    alloc: Global,
    lexer: &'text Lexer,
    text: &'text str,
) -> Result<Tokens<'text>, AllocError>
    ensures whole { IfOk result (λ s. rest_of s ≡ text.now) }
    ensures built { IfOk result (λ s.
        IsBuiltFrom lexer.now.trees lexer.now.precedences s.automaton) }
    ensures unread { IfOk result (λ s. s.steps ≡ 0) }
    ensures memo { IfOk result (λ s. IsSome s.spare → IsLookahead (Matched lexer.now.trees) None) }
    ensures refused { OnErr result (IsLookahead (Matched lexer.now.trees) None) }
    ensures no_clash { NoClash lexer.now.trees lexer.now.precedences }
{
    lexer.tokens(alloc, text)
}

// Needs lalrpop_lexer::Lexer::matches: start, built, spare, no_clash.
/// The first match of the text, and what it costs. No word is ambiguous.
///
/// # Errors
///
/// `AllocError` if a request for memory was refused.
pub fn find_first<'text>(
    alloc: Global,
    lexer: &'text Lexer,
    text: &'text str,
    steps: &mut Steps,
) -> Result<Option<(NfaIndex, &'text str)>, AllocError>
    ensures longest { IfOk result (λ found.
        IsLongest lexer.now.trees lexer.now.precedences text.now
        (option_map (λ m. (m.0, m.1.now)) found)) }
    ensures cost { IfOk result (λ found. steps.new
        ≤ steps.old + characters_of (option_map (λ m. m.1.now) found)
        + length (chars text.now) + length text.now
        + open_states lexer.now.automaton * (length text.now + 64) + 64) }
    ensures no_clash { NoClash lexer.now.trees lexer.now.precedences }
{
    let mut matches = lexer.matches(alloc, text)?;
    Ok(matches.next_match(steps))
}
