//! A lexer built from the texts of its patterns.
ghost use Rattle.std.specs.Prelude.{◌≡◌, map, IfOk, IfErr};
ghost use Rattle.lalrpop_hir.specs.Clash.{NoClash};
ghost use Rattle.lalrpop_hir.specs.Report.{NoFault};
ghost use Rattle.lalrpop_lexer.specs.Spelled.{AreSpelled, IsLexerError, texts_of};

use crate::error::LexerError;
use crate::form::{Form, tree_of};
use crate::lexer::Lexer;
use lalrpop_build::Precedence;
use lalrpop_re::{Regex, RegexError};
use std::alloc::{AllocError, Global};

// The trees of all patterns, or the first text that does not parse.
fn trees_of(alloc: Global, patterns: &[(Precedence, Form, &str)]) -> Result<Vec<Regex>, LexerError>
    ensures trees { IfOk result (λ trees. AreSpelled (texts_of patterns.now) trees.items) }
    ensures error { IfErr result (λ e.
        IsLexerError (texts_of patterns.now) (map (λ p. p.0.0) patterns.now) e) }
{
    let mut trees = Vec::new(alloc);
    for pattern in patterns {
        match tree_of(alloc, pattern.1, pattern.2) {
            Ok(tree) => trees.push(tree)?,
            Err(RegexError::Syntax { position, kind }) => {
                return Err(LexerError::NotParsed {
                    pattern: trees.len(),
                    position,
                    kind,
                });
            }
            Err(RegexError::OutOfMemory) => return Err(LexerError::OutOfMemory),
        }
    }
    Ok(trees)
}

// Their precedences.
fn precedences_of(
    alloc: Global,
    patterns: &[(Precedence, Form, &str)],
) -> Result<Vec<Precedence>, AllocError>
    ensures precedences { IfOk result (λ all.
        map (λ p. p.0) all.items ≡ map (λ p. p.0.0) patterns.now) }
{
    let mut all = Vec::new(alloc);
    for pattern in patterns {
        all.push(pattern.0)?;
    }
    Ok(all)
}

impl Lexer {
    /// Builds the lexer of these patterns. Each is a precedence, a form, which says whether the text is a literal or a pattern,
    /// and the text.
    ///
    /// # Errors
    ///
    /// The first text that does not parse, as `NotParsed`; otherwise the first pattern that can't be compiled; otherwise the
    /// shortest, then least, word with two or more strongest patterns, and the last two of those; or out of memory.
    pub fn from_patterns(
        alloc: Global,
        patterns: &[(Precedence, Form, &str)],
    ) -> Result<Lexer, LexerError>
        ensures trees { IfOk result (λ lexer. AreSpelled (texts_of patterns.now) lexer.trees) }
        ensures precedences { IfOk result (λ lexer.
            lexer.precedences ≡ map (λ p. p.0.0) patterns.now) }
        ensures no_fault { IfOk result (λ lexer. NoFault lexer.trees) }
        ensures no_clash { IfOk result (λ lexer. NoClash lexer.trees lexer.precedences) }
        ensures error { IfErr result (λ e.
            IsLexerError (texts_of patterns.now) (map (λ p. p.0.0) patterns.now) e) }
    {
        let trees = trees_of(alloc, patterns)?;
        let precedences = precedences_of(alloc, patterns)?;
        match Lexer::new(alloc, trees, precedences) {
            Ok(lexer) => Ok(lexer),
            Err(error) => Err(LexerError::from(error)),
        }
    }
}
