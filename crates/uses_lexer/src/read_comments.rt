//! Patterns up to the first end, as of a comment.
ghost use Rattle.std.specs.Prelude.{◌≡◌, ◌≢◌, ℕ, ◌≤◌, ◌↔◌, List, [], All, None, length, chars, codes, true, IfOk};
ghost use Rattle.lalrpop_re.specs.Fault.{fault};
ghost use Rattle.lalrpop_re.specs.Language.{Matches};
ghost use Rattle.lalrpop_re.specs.Runs.{IsScalar};
ghost use Rattle.lalrpop_re.specs.UpTo.{IsFromTo};

use lalrpop_lexer::lexer::re::Regex;
use lalrpop_re::{FromToError, from_to};
use std::alloc::{AllocError, Global};

// Needs lalrpop_re::from_to: tree, only, no_fault.
/// The pattern of a block comment. Each text from `/*` up to the first `*/` is a word of it, and no other list of values is; it can be
/// compiled.
///
/// # Errors
///
/// `AllocError` if a request for memory was refused.
pub fn block_comment(alloc: Global) -> Result<Regex, AllocError>
    ensures words { IfOk result (λ tree. (w : List ℕ) → All IsScalar w
        → Matches tree w ↔ IsFromTo (chars (codes "/*")) (chars (codes "*/")) w) }
    ensures only { IfOk result (λ tree. (w : List ℕ) → Matches tree w
        → IsFromTo (chars (codes "/*")) (chars (codes "*/")) w) }
    ensures compiled { IfOk result (λ tree. fault tree ≡ None) }
{
    match from_to(alloc, "/*", "*/") {
        Ok(tree) => Ok(tree),
        Err(_) => Err(AllocError),
    }
}

// Needs lalrpop_re::from_to: empty, long.
/// Whether `to` is an end that a pattern can have.
pub fn can_end(alloc: Global, to: &str) -> bool
    ensures some { result ≡ true → to.now ≢ [] }
    ensures short { result ≡ true → length (chars to.now) ≤ 64 }
{
    match from_to(alloc, "", to) {
        Err(FromToError::EmptyEnd | FromToError::LongEnd) => false,
        _ => true,
    }
}
