//! The pattern from a beginning up to the first end.
ghost use Rattle.std.specs.Prelude.{◌≡◌, ◌≢◌, ℕ, ◌<◌, ◌≤◌, ◌↔◌, List, [], length, All, IfOk, OnOk, Err, None};
ghost use Rattle.std.specs.Str.{chars};
ghost use Rattle.lalrpop_hir.specs.Language.{Matches};
ghost use Rattle.lalrpop_hir.specs.Fault.{fault};
ghost use Rattle.lalrpop_hir.specs.Runs.{IsScalar};
ghost use Rattle.lalrpop_re.specs.UpTo.{IsFromTo};
ghost use Rattle.lalrpop_re.specs.declared.from_to_error.FromToError.TheVariants.{EmptyEnd, LongEnd};

use crate::elimination::tree_of;
use crate::from_to_error::FromToError;
use crate::search::automaton;
use lalrpop_hir::{Regex, char_count};
use std::alloc::Global;

/// The greatest number of characters of an end.
pub const LONGEST_END: usize = 64;

// The characters of an end.
fn end_of(alloc: Global, to: &str) -> Result<Vec<char>, FromToError>
    ensures end { IfOk result (λ end. end.items ≡ chars to.now) }
    ensures some { OnOk result (to.now ≢ []) }
    ensures few { OnOk result (length (chars to.now) ≤ 64) }
    ensures empty { (result ≡ Err EmptyEnd) ↔ (to.now ≡ []) }
    ensures long { (result ≡ Err LongEnd) ↔ (64 < length (chars to.now)) }
{
    if to.is_empty() {
        return Err(FromToError::EmptyEnd);
    }
    if char_count(to) > LONGEST_END {
        return Err(FromToError::LongEnd);
    }
    let end = to.chars().collect(alloc)?;
    Ok(end)
}

/// The pattern of the words that begin with `from` and end with the first `to` behind it. `from` may be empty. The two don't
/// overlap: `/*/` is no word from `/*` to `*/`.
///
/// ```
/// use lalrpop_re::from_to;
///
/// let comment = from_to(alloc, "<!--", "-->")?;
/// ```
///
/// # Errors
///
/// `FromToError::EmptyEnd` if `to` is empty, `FromToError::LongEnd` if it has more than 64 characters, and
/// `FromToError::OutOfMemory` if a request for memory was refused.
pub fn from_to(alloc: Global, from: &str, to: &str) -> Result<Regex, FromToError>
    ensures tree { IfOk result (λ tree. (w : List ℕ) → All IsScalar w
        → Matches tree w ↔ IsFromTo (chars from.now) (chars to.now) w) }
    ensures only { IfOk result (λ tree. (w : List ℕ) → Matches tree w
        → IsFromTo (chars from.now) (chars to.now) w) }
    ensures no_fault { IfOk result (λ tree. fault tree ≡ None) }
    ensures empty { (result ≡ Err EmptyEnd) ↔ (to.now ≡ []) }
    ensures long { (result ≡ Err LongEnd) ↔ (64 < length (chars to.now)) }
{
    let end = end_of(alloc, to)?;
    let edges = automaton(alloc, from, &end)?;
    let tree = tree_of(alloc, edges, end.len())?;
    Ok(tree)
}
