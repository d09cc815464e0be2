//! Patterns, parsed from text.
ghost use Rattle.std.specs.Prelude.{◌≡◌, ℕ, List, take, IfOk, IfErr, IfSome};
ghost use Rattle.std.specs.Str.{chars, IsCharBoundary};
ghost use Rattle.lalrpop_hir.specs.Tree.{Tree};
ghost use Rattle.lalrpop_re.specs.Pattern.{Pattern};
ghost use Rattle.lalrpop_re.specs.Refusal.{HasNoTree};

use lalrpop_re::{Hir, RegexError, parse_regex};
use std::alloc::Global;

/// The only tree of a pattern. A pattern that is refused for its syntax has none.
// Needs lalrpop_re::parse_regex: tree, only, none.
pub fn tree_of(alloc: Global, pattern: &str) -> Result<Hir, RegexError>
    ensures tree { IfOk result (λ t. Pattern (chars pattern.now) t) }
    ensures only { IfOk result (λ t. (u : Tree) → Pattern (chars pattern.now) u → u ≡ t) }
    ensures none { IfErr result (HasNoTree (chars pattern.now)) }
{
    parse_regex(alloc, pattern)
}

/// The part of a pattern before its fault, if it has one.
// Needs lalrpop_re::parse_regex: position.
pub fn in_front_of_fault(alloc: Global, pattern: &str) -> Option<&str>
    ensures { IfSome result (λ front. (n : ℕ) × IsCharBoundary pattern.now n
        × (front.now ≡ take n pattern.now)) }
{
    match parse_regex(alloc, pattern) {
        Err(RegexError::Syntax { position, .. }) => Some(&pattern[..position]),
        _ => None,
    }
}
