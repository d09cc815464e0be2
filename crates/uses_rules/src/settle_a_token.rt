//! How far a token depends on its text.

ghost use Rattle.std.specs.Prelude.{◌≡◌, ◌++◌, ℕ, List, Some, None, true, IfSome};
ghost use Rattle.bajofeki.specs.Lexed.{BeginsLonger};
ghost use Rattle.lalrpop_lexer.specs.Longest.{IsLongest};

use bajofeki::SettledToken;
use lalrpop_lexer::{Lexer, Token};
use std::alloc::Global;

// Needs bajofeki::SettledToken::of: token, settled, within.
/// The token at the front of a text, if it's the same whatever comes after the text.
pub fn final_token<'text>(alloc: Global, lexer: &Lexer, text: &'text str) -> Option<Token<'text>>
    ensures stays { IfSome result (λ token. (more : List ℕ)
        → IsLongest lexer.now.trees lexer.now.precedences (text.now ++ more)
        (Some (token.index, token.slice.now))) }
{
    let found = SettledToken::of(alloc, lexer, text);
    if found.reach > text.len() {
        return None;
    }
    found.token
}

// Needs bajofeki::SettledToken::of: none, least.
/// Whether no token begins a text, but all of it begins one.
pub fn is_begun(alloc: Global, lexer: &Lexer, text: &str) -> bool
    ensures begun { result ≡ true → BeginsLonger lexer.now.trees text.now }
    ensures none { result ≡ true
        → IsLongest lexer.now.trees lexer.now.precedences text.now None }
{
    let found = SettledToken::of(alloc, lexer, text);
    match found.token {
        Some(_) => false,
        None => found.reach > text.len(),
    }
}
