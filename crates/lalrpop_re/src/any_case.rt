//! The tree of a text in upper or lower case.
ghost use Rattle.std.specs.Prelude.{◌≡◌, ◌↔◌, ℕ, List, None, IfOk, IfErr};
ghost use Rattle.std.specs.Str.{chars};
ghost use Rattle.lalrpop_hir.specs.Language.{Matches};
ghost use Rattle.lalrpop_hir.specs.Fault.{fault};
ghost use Rattle.lalrpop_re.specs.AnyCase.{SameButForCase};

use crate::error::RegexError;
use crate::flags::Flags;
use crate::sets::tree_of_character;
use lalrpop_hir::{Hir, Regex};
use std::alloc::Global;

/// The tree that matches the texts that are `s` but for case, in which no character is special. They have as many
/// characters as `s`, and each shares a simple case folding with that at its place in `s`.
///
/// # Errors
///
/// `RegexError::OutOfMemory` if a request for memory was refused, and no other error.
///
/// ```
/// use lalrpop_lexer::lexer::re::parse_any_case;
///
/// let select = parse_any_case(alloc, "select")?; // matches `select`, `SELECT` and `Select`
/// ```
pub fn parse_any_case(alloc: Global, s: &str) -> Result<Regex, RegexError>
    ensures matches { IfOk result (λ t.
        (w : List ℕ) → Matches t w ↔ SameButForCase (chars s.now) w) }
    ensures no_fault { IfOk result (λ t. fault t ≡ None) }
    ensures memory { IfErr result (λ e. e ≡ RegexError.OutOfMemory) }
{
    let flags = Flags {
        case_insensitive: true,
        dot_matches_new_line: false,
        multi_line: false,
        swap_greed: false,
    };
    let mut trees = Vec::new(alloc);
    for c in s.chars() {
        trees.push(tree_of_character(alloc, flags, c)?)?;
    }
    Ok(Hir::concat(trees))
}
