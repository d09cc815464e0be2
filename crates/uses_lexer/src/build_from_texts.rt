//! A lexer is built from the texts of its patterns, and one error type covers all that can fail.
ghost use Rattle.std.specs.Prelude.{◌≡◌, ◌∷◌, [], IfOk, IfErr};
ghost use Rattle.std.specs.Str.{chars};
ghost use Rattle.lalrpop_lexer.specs.Clash.{NoClash};
ghost use Rattle.lalrpop_lexer.specs.LexerErrors.{of_regex, of_construction};
ghost use Rattle.lalrpop_lexer.specs.Parts.{of_text};
ghost use Rattle.lalrpop_lexer.specs.Pattern.{Pattern};
ghost use Rattle.lalrpop_lexer.specs.Report.{NoFault};
ghost use Rattle.lalrpop_lexer.specs.Spelled.{IsLexerError};
ghost use Rattle.lalrpop_lexer.specs.Tree.{Tree};

use lalrpop_lexer::lexer::dfa::{DfaConstructionError, Precedence};
use lalrpop_lexer::lexer::re::RegexError;
use lalrpop_lexer::{Form, Lexer, LexerError};
use std::alloc::Global;

// Needs lalrpop_lexer::Lexer::from_patterns: trees, precedences, no_fault, no_clash, error.
/// A lexer of a keyword and of names: what both match is the keyword.
///
/// # Errors
///
/// As `from_patterns`.
pub fn keyword_and_pattern(alloc: Global, keyword: &str, names: &str) -> Result<Lexer, LexerError>
    ensures trees { IfOk result (λ lexer. (t : Tree)
        × ((lexer.trees ≡ of_text keyword.now ∷ t ∷ []) × Pattern (chars names.now) t)) }
    ensures precedences { IfOk result (λ lexer. lexer.precedences ≡ 1 ∷ 0 ∷ []) }
    ensures no_fault { IfOk result (λ lexer. NoFault lexer.trees) }
    ensures no_clash { IfOk result (λ lexer. NoClash lexer.trees lexer.precedences) }
    ensures error { IfErr result (λ e. IsLexerError
        ((Form.Literal, keyword.now) ∷ (Form.Pattern, names.now) ∷ []) (1 ∷ 0 ∷ []) e) }
{
    let patterns = [
        (Precedence(1), Form::Literal, keyword),
        (Precedence(0), Form::Pattern, names),
    ];
    Lexer::from_patterns(alloc, &patterns)
}

// Needs lalrpop_lexer::LexerError::from: ghost from_gives.
/// An error of the parser.
pub fn not_read(error: RegexError) -> LexerError
    ensures error { result ≡ of_regex error }
{
    LexerError::from(error)
}

// Needs lalrpop_lexer::LexerError::from: ghost from_gives.
/// An error of the construction.
pub fn not_built(error: DfaConstructionError) -> LexerError
    ensures error { result ≡ of_construction error }
{
    LexerError::from(error)
}

// Needs lalrpop_lexer::LexerError::from: ghost from_gives.
/// A precedence in a list of its own.
///
/// # Errors
///
/// Out of memory.
pub fn one_precedence(alloc: Global, strength: usize) -> Result<Vec<Precedence>, LexerError>
    ensures memory { IfErr result (λ e. e ≡ LexerError.OutOfMemory) }
{
    let mut all = Vec::with_capacity(alloc, 1)?;
    all.push(Precedence(strength))?;
    Ok(all)
}
