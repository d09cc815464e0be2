//! An automaton cuts a text into tokens.
ghost use Rattle.std.specs.Prelude.{◌≡◌, ℕ, ◌++◌, ◌∷◌, [], List, Ok, Err, map, length, IfOk, IfErr, IfSome};
ghost use Rattle.std.specs.Borrow.{Bor};
ghost use Rattle.lalrpop_lexer.specs.Tree.{Tree};
ghost use Rattle.lalrpop_lexer.specs.Tokens.{AreItems};
ghost use Rattle.lalrpop_lexer.specs.Dfa.{Recognizes};

use lalrpop_lexer::lexer::dfa::Dfa;
use lalrpop_lexer::{TokenFault, tokens};

// Needs lalrpop_lexer::tokens: items, count.
// Needs lalrpop_lexer::Tokens::next: ghost next_gives, ghost remaining.
/// How many tokens the whole text is.
///
/// # Errors
///
/// The first place where no pattern matches.
pub fn item_count(dfa: &Dfa, text: &str) -> Result<usize, TokenFault>
    ensures all { IfOk result (λ n. (ts : List Tree) (ps : List ℕ) → Recognizes dfa.now ts ps
        → (tokens : List (ℕ × Bor (List ℕ)))
        × (AreItems ts ps text.now 0 (map Ok tokens) × (n ≡ length tokens))) }
    ensures fault { IfErr result (λ fault. (ts : List Tree) (ps : List ℕ)
        → Recognizes dfa.now ts ps → (tokens : List (ℕ × Bor (List ℕ)))
        × AreItems ts ps text.now 0 (map Ok tokens ++ Err fault ∷ [])) }
{
    let mut count = 0;
    let mut items = tokens(dfa, text);
    while let Some(item) = items.next() {
        match item {
            Ok(_) => count += 1,
            Err(fault) => return Err(fault),
        }
    }
    Ok(count)
}

// Needs lalrpop_lexer::tokens: start.
// Needs lalrpop_lexer::Tokens::rest: rest.
/// Before the first token the rest is the whole text.
pub fn rest_at_first<'text>(dfa: &'text Dfa, text: &'text str) -> &'text str
    ensures whole { result.now ≡ text.now }
{
    tokens(dfa, text).rest()
}

// Needs lalrpop_lexer::tokens: parts.
// Needs lalrpop_lexer::Tokens::next: ghost next_gives.
/// The first token's slice and what follows it.
pub fn cut_once<'text>(dfa: &'text Dfa, text: &'text str) -> Option<(&'text str, &'text str)>
    ensures parts { IfSome result (λ m. text.now ≡ m.0.now ++ m.1.now) }
{
    let mut items = tokens(dfa, text);
    match items.next() {
        Some(Ok(found)) => Some((found.1, items.rest())),
        _ => None,
    }
}
