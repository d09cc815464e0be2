//! The tree of a literal text.
ghost use Rattle.std.specs.Prelude.{◌≡◌, ◌↔◌, ℕ, List, IfOk, IfErr};
ghost use Rattle.std.specs.Str.{chars};
ghost use Rattle.lalrpop_hir.specs.Parts.{of_text};
ghost use Rattle.lalrpop_hir.specs.Language.{Matches};

use crate::error::RegexError;
use lalrpop_hir::{Hir, Regex};
use std::alloc::Global;

/// The tree that matches only the text `s`, in which no character is special. It is the tree that
/// `Hir::literal` makes.
///
/// # Errors
///
/// `RegexError::OutOfMemory` if a request for memory was refused, and no other error.
pub fn parse_literal(alloc: Global, s: &str) -> Result<Regex, RegexError>
    ensures tree { IfOk result (λ t. t ≡ of_text s.now) }
    ensures matches { IfOk result (λ t. (w : List ℕ) → Matches t w ↔ (w ≡ chars s.now)) }
    ensures memory { IfErr result (λ e. e ≡ RegexError.OutOfMemory) }
{
    match Hir::literal(alloc, s) {
        Ok(hir) => Ok(hir),
        Err(_) => Err(RegexError::OutOfMemory),
    }
}
