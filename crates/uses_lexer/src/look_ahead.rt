//! How far a lexer looks ahead.

ghost use Rattle.std.specs.Prelude.{◌≡◌, ◌≢◌, ℕ, ◌+◌, ◌<◌, ◌↔◌, ◌++◌, [], List, Some, None, length, true, false, IfOk, IfNone};
ghost use Rattle.lalrpop_lexer.specs.Lookahead.{LooksAtMost, StaysOpenEver};
ghost use Rattle.lalrpop_lexer.specs.Winners.{IsOnlyStrongest, Matched};
ghost use Rattle.lalrpop_lexer.specs.Witness.{IsOpenMatch, IsWitness};

use lalrpop_dfa::Witness;
use lalrpop_lexer::Lexer;
use std::alloc::{AllocError, Global};

// Needs lalrpop_lexer::Lexer::lookahead: answer.
/// How many characters to read past a match, and whether those settle each match: none of the patterns then matches a word that
/// begins with a match and that many characters, and one more, that brought no match. Where nothing limits their number it is
/// `otherwise`.
pub fn to_read(lexer: &Lexer, otherwise: usize) -> (usize, bool)
    ensures settled { result.1 ≡ true → (v x z : List ℕ) → v ≢ [] → Matched lexer.now.trees v
        → length x ≡ result.0 + 1
        → ((u y : List ℕ) → x ≡ u ++ y → u ≢ [] → ¬ Matched lexer.now.trees (v ++ u))
        → ¬ Matched lexer.now.trees ((v ++ x) ++ z) }
{
    match lexer.lookahead() {
        Some(number) => (number, true),
        None => (otherwise, false),
    }
}

// Needs lalrpop_lexer::Lexer::unbounded_patterns: same_length, each.
/// Whether some token of this pattern can stay open for ever.
///
/// # Errors
///
/// `AllocError` if a request for memory was refused.
pub fn stays_open(alloc: Global, lexer: &Lexer, number: usize) -> Result<bool, AllocError>
    requires { number < length lexer.now.trees }
    ensures { IfOk result (λ stays. (stays ≡ true) ↔ StaysOpenEver (Matched lexer.now.trees)
        (λ w. IsOnlyStrongest lexer.now.trees lexer.now.precedences w number)) }
{
    let found = lexer.unbounded_patterns(alloc)?;
    Ok(found[number])
}

// Needs lalrpop_lexer::Lexer::lookahead_witness: least, none.
/// Whether some match is left open by this many characters.
///
/// # Errors
///
/// `AllocError` if a request for memory was refused.
pub fn is_left_open(alloc: Global, lexer: &Lexer, count: usize) -> Result<bool, AllocError>
    ensures is_open { IfOk result (λ left. left ≡ true
        → (v x : List ℕ) × IsWitness (Matched lexer.now.trees) count v x) }
    ensures is_closed { IfOk result (λ left. left ≡ false
        → (v x : List ℕ) → ¬ IsOpenMatch (Matched lexer.now.trees) count v x) }
{
    match lexer.lookahead_witness(alloc, count)? {
        Some(_) => Ok(true),
        None => Ok(false),
    }
}

// Needs lalrpop_lexer::Lexer::lookahead: answer, words.
/// What makes the lexer look ahead as far as it does or, where nothing limits how far, `otherwise` characters. `None` only if no
/// match is left open by a character after it.
///
/// # Errors
///
/// `AllocError` if a request for memory was refused.
pub fn farthest(
    alloc: Global,
    lexer: &Lexer,
    otherwise: usize,
) -> Result<Option<Witness>, AllocError>
    ensures none { IfOk result (λ found.
        IfNone found (LooksAtMost (Matched lexer.now.trees) 0)) }
{
    match lexer.lookahead() {
        Some(number) => lexer.lookahead_witness(alloc, number),
        None => lexer.lookahead_witness(alloc, otherwise),
    }
}
