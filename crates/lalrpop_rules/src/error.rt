//! Why rules with modes can't be made into a lexer.
ghost use Rattle.std.specs.Prelude.{◌≡◌};
ghost use Rattle.lalrpop_rules.specs.RulesErrors.{of_texts};
ghost use Rattle.lalrpop_rules.specs.declared.error.RulesError.TheVariants.{OutOfMemory};

use crate::text_error::TextError;
use lalrpop_lexer::ShownWord;
use lalrpop_lexer::lexer::nfa::NfaConstructionError;
use lalrpop_lexer::lexer::re::SyntaxKind;
use lalrpop_re::FromToError;
use std::alloc::{AllocError, AllocFailed};
use thiserror::Error;

/// Why rules with modes can't be made into a lexer. Rules and modes are numbered from 0.
///
/// ```
/// use lalrpop_rules::{ModeRule, Rule, RuleLexer, RulesError};
///
/// let rules = [ModeRule { rule: Rule::literal("A", "a"), modes: &[2], actions: &[] }];
/// let missing = match RuleLexer::with_modes(alloc, &rules, &["INITIAL"]) {
///     Err(RulesError::NoSuchMode { rule, mode }) => Some((rule, mode)), // (0, 2)
///     _ => None,
/// };
/// ```
#[derive(Debug, Drop, Error)]
pub enum RulesError {
    /// This rule names a mode that isn't there.
    #[error("rule {rule} names mode {mode}, which isn't there")]
    NoSuchMode {
        rule: usize,
        mode: usize,
    },
    /// The text of this rule does not parse: `kind` says why, and `position` where, as an offset in bytes.
    #[error("the text of rule {rule} does not parse: {kind:?} at byte {position}")]
    NotParsed {
        rule: usize,
        position: usize,
        kind: SyntaxKind,
    },
    /// The end of this rule's text is empty or has more than 64 characters.
    #[error("the text of rule {rule} has no tree: {error}")]
    BadEnd {
        rule: usize,
        error: FromToError,
    },
    /// This rule can't be compiled.
    #[error("rule {rule} can't be compiled: {error:?}")]
    NotCompiled {
        rule: usize,
        error: NfaConstructionError,
    },
    /// Some word has strongest rules of more than one kind in this mode: `word` is the shortest, then least, such word, and
    /// `rule` and `other` are the first rules of two such kinds in the mode: `rule` has the greatest index, and `other` the
    /// second greatest.
    #[error("in mode {mode} rules {other} and {rule} clash on {shown}", shown = ShownWord(.word))]
    Clash {
        mode: usize,
        rule: usize,
        other: usize,
        word: Vec<u32>,
    },
    /// A request for memory was refused.
    #[error("out of memory")]
    OutOfMemory,
}

impl From<TextError> for RulesError {
    ghost from_gives = { λ error e. e ≡ of_texts error };

    fn from(error: TextError) -> RulesError {
        match error {
            TextError::NotParsed {
                rule,
                position,
                kind,
            } => RulesError::NotParsed {
                rule,
                position,
                kind,
            },
            TextError::BadEnd { rule, error } => RulesError::BadEnd { rule, error },
            TextError::NotCompiled { rule, error } => RulesError::NotCompiled { rule, error },
            TextError::OutOfMemory => RulesError::OutOfMemory,
        }
    }
}

impl From<AllocError> for RulesError {
    ghost from_gives = { λ _ e. e ≡ OutOfMemory };

    fn from(_error: AllocError) -> RulesError {
        RulesError::OutOfMemory
    }
}

impl<T: Drop> From<AllocFailed<T>> for RulesError {
    ghost from_gives = { λ _ e. e ≡ OutOfMemory };

    fn from(_error: AllocFailed<T>) -> RulesError {
        RulesError::OutOfMemory
    }
}
