//! The parts of a line: a precedence, a letter and a text.
ghost use Rattle.std.specs.Prelude.{◌≡◌, ◌≢◌, ◌==◌, ℕ, ◌<◌, List, [], ◌∷◌, ◌++◌, length, position, codes, IfSome, IfNone};
ghost use Rattle.std.specs.Char.{is_ascii_digit};
ghost use Rattle.std.specs.List.{list_all};
ghost use Rattle.lalrpop_lexer.specs.Line.{letter, IsLine};
ghost use Rattle.bajofeki_rules.specs.Precedence.{IsPrecedence};

use crate::form::Form;

// Enough for every `usize`, padded with zeros if it is shorter.
const MAX_DIGITS: usize = 20;

// Whether every character is a decimal digit.
fn has_digits_alone(text: &str) -> bool
    ensures { result ≡ list_all is_ascii_digit text.now }
{
    text.bytes().all(|byte| byte.is_ascii_digit())
}

// The value of 1 to 20 decimal digits, if it fits a `usize`.
fn precedence_of(digits: &str) -> Option<usize>
    ensures some { IfSome result (λ n. IsPrecedence digits.now n) }
    ensures none { IfNone result ((n : ℕ) → ¬ IsPrecedence digits.now n) }
{
    // `parse` alone would accept a sign and any number of leading zeros.
    if digits.len() > MAX_DIGITS || !has_digits_alone(digits) {
        return None;
    }
    digits.parse().ok()
}

// The form and the text of `l TEXT` or `r PATTERN`.
fn form_of(rest: &str) -> Option<(Form, &str)>
    ensures some { IfSome result (λ m. rest.now ≡ letter m.0 ++ (codes " " ++ m.1.now)) }
    ensures none { IfNone result ((form : Form) (text : List ℕ)
        → rest.now ≢ letter form ++ (codes " " ++ text)) }
{
    if let Some(text) = rest.strip_prefix("l ") {
        return Some((Form::Literal, text));
    }
    let text = rest.strip_prefix("r ")?;
    Some((Form::Pattern, text))
}

/// The precedence, the form and the text of a line `P l TEXT` or `P r PATTERN`; None if the line is bad.
pub fn line_parts(line: &[u8]) -> Option<(usize, Form, &str)>
    ensures some { IfSome result (λ m. IsLine line.now m.0 m.1 m.2.now) }
    ensures none { IfNone result
        ((n : ℕ) (form : Form) (text : List ℕ) → ¬ IsLine line.now n form text) }
{
    let line = str::from_utf8(line).ok()?;
    let (digits, rest) = line.split_once(' ')?;
    let (form, text) = form_of(rest)?;
    let precedence = precedence_of(digits)?;
    Some((precedence, form, text))
}
