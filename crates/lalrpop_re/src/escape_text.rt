//! Patterns that match one given text.
ghost use Rattle.std.specs.Prelude.{◌≡◌, ◌↔◌, ◌++◌, ◌∷◌, [], ℕ, List, IfOk, IfErr, OnOk, string_bytes, encode_utf8_all};
ghost use Rattle.std.specs.Str.{chars};
ghost use Rattle.lalrpop_hir.specs.Tree.{Tree};
ghost use Rattle.lalrpop_hir.specs.Language.{Matches};
ghost use Rattle.lalrpop_re.specs.Pattern.{Pattern};
ghost use Rattle.lalrpop_re.specs.Escaped.{is_escaped, escaped};

use crate::error::RegexError;
use std::alloc::{AllocError, Global};

// The characters that are special, in brackets or outside, and others that are special in other dialects.
const ESCAPED: [char; 18] = [
    '\\', '.', '+', '*', '?', '(', ')', '|', '[', ']', '{', '}', '^', '$', '#', '&', '-', '~',
];

/// The pattern that matches only the text `s`: its characters, with a backslash before each that may be special.
///
/// # Errors
///
/// `RegexError::OutOfMemory` if a request for memory was refused, and no other error.
pub fn escape(alloc: Global, s: &str) -> Result<String, RegexError>
    ensures text { IfOk result (λ p. chars (string_bytes p) ≡ escaped (chars s.now)) }
    ensures tree { IfOk result (λ p. (t : Tree) × Pattern (chars (string_bytes p)) t
        × ((w : List ℕ) → Matches t w ↔ (w ≡ chars s.now))) }
    ensures memory { IfErr result (λ e. e ≡ RegexError.OutOfMemory) }
{
    let mut pattern = String::new(alloc);
    for c in s.chars() {
        push_escaped(&mut pattern, c)?;
    }
    Ok(pattern)
}

fn push_escaped(pattern: &mut String, c: char) -> Result<(), AllocError>
    ensures { OnOk result (string_bytes pattern.new
        ≡ string_bytes pattern.old ++ encode_utf8_all (escaped (c ∷ []))) }
{
    if !is_escaped(c) {
        return pattern.push(c);
    }
    pattern.push('\\')?;
    pattern.push(c)
}

fn is_escaped(c: char) -> bool
    ensures { result ≡ is_escaped c }
{
    ESCAPED.contains(&c)
}
