//! What follows for tokens from the laws for callers of rules, which the proofs here cite.
ghost use Rattle.std.specs.Prelude.{◌≡◌, ◌<◌, ℕ, List, Ok, Some, IfOk, IfSome, slice_get, slice_index};
ghost use Rattle.std.specs.Iterator.{Drains};
ghost use Rattle.std.specs.Str.{chars};
ghost use Rattle.lalrpop_hir.specs.Tokens.{Item, IsToken};
ghost use Rattle.lalrpop_hir.specs.Winners.{TreeMatches};
ghost use Rattle.lalrpop_hir.specs.declared.token.Token.{Token as TokenValue};
ghost use Rattle.lalrpop_lexer.specs.Cutting.{GivesItem, with_places};

use lalrpop_lexer::{Lexer, Token, Tokens};
use std::alloc::{AllocError, Global};

/// The token at the front of the text. No stronger pattern matches as much.
pub fn strongest_at_front<'text>(lexer: &Lexer, text: &'text str) -> Option<Token<'text>>
    ensures strongest { IfSome result (λ token. (j : ℕ)
        → slice_index lexer.now.precedences token.index < slice_index lexer.now.precedences j
        → ¬ TreeMatches lexer.now.trees (chars token.slice.now) j) }
{
    lexer.token(text)
}

/// The tokens of the text, each the one at its place.
///
/// # Errors
///
/// `AllocError` if a request for memory was refused.
pub fn tokens_at_their_places<'text>(
    alloc: Global,
    lexer: &'text Lexer,
    text: &'text str,
) -> Result<Tokens<'text>, AllocError>
    ensures each { IfOk result (λ tokens. (xs : List Item) (i : ℕ) (token : TokenValue)
        → Drains GivesItem tokens xs → slice_get (with_places 0 xs) i ≡ Some (Ok token)
        → IsToken lexer.now.trees lexer.now.precedences text.now token.start token) }
{
    lexer.tokens(alloc, text)
}
