//! A lexer cuts a text into tokens.
ghost use Rattle.std.specs.Prelude.{◌≡◌, ℕ, ◌++◌, ◌∷◌, [], List, Some, None, Ok, Err, map, length, IfOk, IfErr, IfSome, IfNone, false};
ghost use Rattle.std.specs.Borrow.{Bor};
ghost use Rattle.lalrpop_lexer.specs.Cutting.{with_places};
ghost use Rattle.lalrpop_lexer.specs.Tokens.{IsToken, AreTokens};
ghost use Rattle.lalrpop_lexer.specs.Longest.{IsLongest};
ghost use Rattle.lalrpop_lexer.specs.declared.Token.{Token as TokenValue};

use lalrpop_lexer::{Lexer, TokenFault, Tokens};
use std::alloc::{AllocError, Global};

// Needs lalrpop_lexer::Lexer::token: token, none.
/// The pattern and the length of the token at the front of a text, if there is one.
pub fn front(lexer: &Lexer, text: &str) -> Option<(usize, usize)>
    ensures token { IfSome result (λ m. (token : TokenValue)
        × (IsToken lexer.now.trees lexer.now.precedences text.now 0 token
        × (m ≡ (token.index, length token.slice.now)))) }
    ensures none { IfNone result (IsLongest lexer.now.trees lexer.now.precedences text.now None) }
{
    match lexer.token(text) {
        Some(token) => Some((token.index.index(), token.slice.len())),
        None => None,
    }
}

// Needs lalrpop_lexer::Lexer::tokens: tokens, count.
// Needs lalrpop_lexer::Tokens::next: ghost next_gives, ghost remaining.
/// How many tokens the whole text is, or the first place where no pattern matches.
///
/// # Errors
///
/// `AllocError` if a request for memory was refused.
pub fn token_count(
    alloc: Global,
    lexer: &Lexer,
    text: &str,
) -> Result<Result<usize, TokenFault>, AllocError>
    ensures all { IfOk result (λ found. IfOk found (λ n. (tokens : List (ℕ × Bor (List ℕ)))
        × (AreTokens lexer.now.trees lexer.now.precedences text.now 0
        (with_places 0 (map Ok tokens)) × (n ≡ length tokens)))) }
    ensures fault { IfOk result (λ found. IfErr found (λ fault. (tokens : List (ℕ × Bor (List ℕ)))
        × AreTokens lexer.now.trees lexer.now.precedences text.now 0
        (with_places 0 (map Ok tokens ++ Err fault ∷ [])))) }
{
    let mut count = 0;
    let mut items = lexer.tokens(alloc, text)?;
    while let Some(item) = items.next() {
        match item {
            Ok(_) => count += 1,
            Err(fault) => return Ok(Err(fault)),
        }
    }
    Ok(Ok(count))
}

// Needs lalrpop_lexer::Tokens::offset: offset, boundary.
/// The rest, cut off the text where it begins.
///
/// # Errors
///
/// `AllocError` if a request for memory was refused.
pub fn cut_where_the_rest_begins<'text>(
    alloc: Global,
    lexer: &'text Lexer,
    text: &'text str,
) -> Result<&'text str, AllocError>
    ensures whole { IfOk result (λ rest. rest.now ≡ text.now) }
{
    let items = lexer.tokens(alloc, text)?;
    Ok(&text[items.offset()..])
}

// Needs lalrpop_lexer::Lexer::tokens: parts.
// Needs lalrpop_lexer::Tokens::next: ghost next_gives.
/// The first token's slice and what follows it.
///
/// # Errors
///
/// `AllocError` if a request for memory was refused.
pub fn cut_once<'text>(
    alloc: Global,
    lexer: &'text Lexer,
    text: &'text str,
) -> Result<Option<(&'text str, &'text str)>, AllocError>
    ensures parts { IfOk result (λ found. IfSome found (λ m. text.now ≡ m.0.now ++ m.1.now)) }
{
    let mut tokens = lexer.tokens(alloc, text)?;
    match tokens.next() {
        Some(Ok(found)) => Ok(Some((found.1, tokens.rest()))),
        _ => Ok(None),
    }
}

// Needs lalrpop_lexer::Tokens::next: ghost next_gives.
/// Whether something comes after the end of the tokens: never.
pub fn comes_after_the_end(tokens: &mut Tokens<'_>) -> bool
    ensures never { result ≡ false }
{
    if tokens.next().is_some() {
        return false;
    }
    tokens.next().is_some()
}
