//! Why a lexer can't be built.
ghost use Rattle.std.specs.Prelude.{◌≡◌};
ghost use Rattle.lalrpop_lexer.specs.LexerErrors.{of_regex, of_construction};
ghost use Rattle.lalrpop_lexer.specs.declared.error.LexerError.TheVariants.{OutOfMemory};

use bajofeki_rules::ShownWord;
use lalrpop_build::DfaConstructionError;
use lalrpop_nfa::NfaConstructionError;
use lalrpop_re::{RegexError, SyntaxKind};
use std::alloc::{AllocError, AllocFailed};
use thiserror::Error;

/// Why a lexer can't be built: one type for errors in parsing patterns and in building their automaton, and for running
/// out of memory. Patterns are numbered from 0.
///
/// ```
/// use lalrpop_lexer::lexer::dfa::Precedence;
/// use lalrpop_lexer::{Form, Lexer, LexerError};
///
/// let place = match Lexer::from_patterns(alloc, &[(Precedence(0), Form::Pattern, "a)")]) {
///     Err(LexerError::NotParsed { pattern, position, .. }) => Some((pattern, position)), // (0, 1)
///     _ => None,
/// };
/// ```
#[derive(Debug, Drop, Error)]
pub enum LexerError {
    /// A pattern that isn't in a list does not parse: `kind` says why, and `position` where, as an offset in bytes.
    #[error("a pattern does not parse: {kind:?} at byte {position}")]
    Syntax {
        position: usize,
        kind: SyntaxKind,
    },
    /// The text of a pattern in a list does not parse: `pattern` is its index, and the rest is as in `Syntax`.
    #[error("the text of pattern {pattern} does not parse: {kind:?} at byte {position}")]
    NotParsed {
        pattern: usize,
        position: usize,
        kind: SyntaxKind,
    },
    /// This pattern can't be compiled.
    #[error("pattern {pattern} can't be compiled: {error:?}")]
    NotCompiled {
        pattern: usize,
        error: NfaConstructionError,
    },
    /// Some word has more than one strongest pattern: `word` is the shortest, then least, such word, `pattern` the greatest
    /// index of its strongest patterns, and `other` the second greatest.
    #[error("patterns {other} and {pattern} clash on {shown}", shown = ShownWord(.word))]
    Clash {
        pattern: usize,
        other: usize,
        word: Vec<u32>,
    },
    /// A request for memory was refused.
    #[error("out of memory")]
    OutOfMemory,
}

impl From<RegexError> for LexerError {
    ghost from_gives = { λ error e. e ≡ of_regex error };

    fn from(error: RegexError) -> LexerError {
        match error {
            RegexError::Syntax { position, kind } => LexerError::Syntax { position, kind },
            RegexError::OutOfMemory => LexerError::OutOfMemory,
        }
    }
}

impl From<DfaConstructionError> for LexerError {
    ghost from_gives = { λ error e. e ≡ of_construction error };

    fn from(error: DfaConstructionError) -> LexerError {
        match error {
            DfaConstructionError::NfaConstructionError { index, error } => {
                LexerError::NotCompiled {
                    pattern: index.index(),
                    error,
                }
            }
            DfaConstructionError::Ambiguity {
                match0,
                match1,
                word,
            } => LexerError::Clash {
                pattern: match0.index(),
                other: match1.index(),
                word,
            },
            DfaConstructionError::OutOfMemory => LexerError::OutOfMemory,
        }
    }
}

impl From<AllocError> for LexerError {
    ghost from_gives = { λ _ e. e ≡ OutOfMemory };

    fn from(_error: AllocError) -> LexerError {
        LexerError::OutOfMemory
    }
}

impl<T: Drop> From<AllocFailed<T>> for LexerError {
    ghost from_gives = { λ _ e. e ≡ OutOfMemory };

    fn from(_error: AllocFailed<T>) -> LexerError {
        LexerError::OutOfMemory
    }
}
