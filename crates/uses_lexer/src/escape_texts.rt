//! Patterns that match a text as it is.
ghost use Rattle.std.specs.Prelude.{◌≡◌, ◌↔◌, ℕ, List, IfOk, IfErr, string_bytes};
ghost use Rattle.std.specs.Str.{chars};
ghost use Rattle.lalrpop_hir.specs.Language.{Matches};
ghost use Rattle.lalrpop_hir.specs.Parts.{of_text};
ghost use Rattle.lalrpop_re.specs.Escaped.{escaped};

use lalrpop_re::{Hir, RegexError, escape, parse_literal, parse_regex};
use std::alloc::Global;

/// The text as a pattern, with a backslash before each character that may have a special meaning.
// Needs lalrpop_re::escape: text.
pub fn quoted(alloc: Global, text: &str) -> Result<String, RegexError>
    ensures { IfOk result (λ p. chars (string_bytes p) ≡ escaped (chars text.now)) }
{
    escape(alloc, text)
}

/// The tree of the escaped text, which matches only the text. Only memory can be refused.
// Needs lalrpop_re::escape: tree, memory.
// Needs lalrpop_re::parse_regex: only, none.
pub fn tree_of_quoted(alloc: Global, text: &str) -> Result<Hir, RegexError>
    ensures matches { IfOk result (λ t. (w : List ℕ) → Matches t w ↔ (w ≡ chars text.now)) }
    ensures memory { IfErr result (λ e. e ≡ RegexError.OutOfMemory) }
{
    let pattern = escape(alloc, text)?;
    parse_regex(alloc, pattern.as_str())
}

/// The tree of the text itself, which matches only the text. Only memory can be refused.
// Needs lalrpop_re::parse_literal: tree, matches, memory.
pub fn tree_of_text(alloc: Global, text: &str) -> Result<Hir, RegexError>
    ensures tree { IfOk result (λ t. t ≡ of_text text.now) }
    ensures matches { IfOk result (λ t. (w : List ℕ) → Matches t w ↔ (w ≡ chars text.now)) }
    ensures memory { IfErr result (λ e. e ≡ RegexError.OutOfMemory) }
{
    parse_literal(alloc, text)
}
