//! Writes tokens so that they are cut again.
ghost use Rattle.std.specs.Prelude.{◌≡◌, ◌∷◌, ◌++◌, [], ℕ, List, map, not, true, ◌==◌, IfOk, IfErr, string_bytes};
ghost use Rattle.std.specs.List.{filter};
ghost use Rattle.lalrpop_hir.specs.Tokens.{AreTokens};
ghost use Rattle.lalrpop_lexer.specs.Joined.{IsJoinError, plain};
ghost use Rattle.lalrpop_lexer.specs.Neighbours.{IsWhole, placed, text_of};

use lalrpop_lexer::{JoinError, Lexer, Neighbours, Token};
use std::alloc::Global;

// Needs lalrpop_lexer::Neighbours::can_follow: answer.
/// Whether two tokens can be written one right after the other: if so, just these two are cut from both texts.
pub fn can_touch(neighbours: &Neighbours<'_>, first: &Token<'_>, second: &Token<'_>) -> bool
    ensures two { result ≡ true
        → IsWhole neighbours.now.trees neighbours.now.precedences (plain first.now)
        → IsWhole neighbours.now.trees neighbours.now.precedences (plain second.now)
        → AreTokens neighbours.now.trees neighbours.now.precedences
        (text_of (plain first.now ∷ plain second.now ∷ [])) 0
        (placed 0 (plain first.now ∷ plain second.now ∷ [])) }
{
    neighbours.can_follow(first.index, second.index)
}

// Needs lalrpop_lexer::Lexer::neighbours: lexer.
// Needs lalrpop_lexer::Neighbours::joined: text, error.
/// The text of some tokens. Those cut from it are the given ones and separators.
///
/// # Errors
///
/// As of `joined`.
pub fn written(
    alloc: Global,
    lexer: &Lexer,
    tokens: &[Token<'_>],
    separator: &Token<'_>,
) -> Result<String, JoinError>
    ensures cut_back { IfOk result (λ text. (ys : List (ℕ × List ℕ))
        × (AreTokens lexer.now.trees lexer.now.precedences (string_bytes text) 0 (placed 0 ys)
        × (filter (λ y. not (y.0 == separator.now.index)) ys
        ≡ filter (λ y. not (y.0 == separator.now.index)) (map plain tokens.now)))) }
    ensures error { IfErr result (IsJoinError lexer.now.trees lexer.now.precedences
        (plain separator.now) (map plain tokens.now)) }
{
    let neighbours = lexer.neighbours(alloc)?;
    neighbours.joined(alloc, tokens, separator)
}

// Needs lalrpop_lexer::Neighbours::joined: can.
/// Whether the tokens can be written with this separator.
///
/// # Errors
///
/// `OutOfMemory` if a request for memory was refused.
pub fn can_be_written(
    alloc: Global,
    neighbours: &Neighbours<'_>,
    tokens: &[Token<'_>],
    separator: &Token<'_>,
) -> Result<bool, JoinError>
    ensures separator { IfOk result (λ can. can ≡ true
        → IsWhole neighbours.now.trees neighbours.now.precedences (plain separator.now)) }
    ensures memory { IfErr result (λ e. e ≡ JoinError.OutOfMemory) }
{
    match neighbours.joined(alloc, tokens, separator) {
        Ok(_) => Ok(true),
        Err(JoinError::OutOfMemory) => Err(JoinError::OutOfMemory),
        Err(_) => Ok(false),
    }
}
