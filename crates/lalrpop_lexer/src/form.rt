//! Parsing a text, as a literal or as a pattern.
ghost use Rattle.std.specs.Prelude.{◌≡◌, ◌≢◌, IfOk, IfErr};
ghost use Rattle.std.specs.Str.{chars};
ghost use Rattle.lalrpop_re.specs.Refusal.{HasNoTree, PointsInto};
ghost use Rattle.lalrpop_lexer.specs.Spelled.{Spells};

use lalrpop_re::{Regex, RegexError, parse_literal, parse_regex};
use std::alloc::Global;

/// How a text is to be read.
///
/// ```
/// use lalrpop_lexer::lexer::dfa::Precedence;
/// use lalrpop_lexer::{Form, Lexer};
///
/// let patterns = [(Precedence(1), Form::Literal, "*"), (Precedence(0), Form::Pattern, "[a-z]+")];
/// let lexer = Lexer::from_patterns(alloc, &patterns)?;
/// ```
#[derive(Clone, Copy, Debug, PartialEq, Eq)]
pub enum Form {
    /// As it is: no character has a special meaning.
    Literal,
    /// As a pattern.
    Pattern,
}

// Parses a text into its tree.
pub(crate) fn tree_of(alloc: Global, form: Form, text: &str) -> Result<Regex, RegexError>
    ensures tree { IfOk result (λ t. Spells form text.now t) }
    ensures pattern { IfErr result (λ e. e ≢ RegexError.OutOfMemory → form ≡ Form.Pattern) }
    ensures none { IfErr result (HasNoTree (chars text.now)) }
    ensures position { IfErr result (PointsInto text.now) }
{
    match form {
        Form::Literal => parse_literal(alloc, text),
        Form::Pattern => parse_regex(alloc, text),
    }
}
