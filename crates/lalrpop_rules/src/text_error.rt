//! Why rules have no trees.
ghost use Rattle.std.specs.Prelude.{◌≡◌};
ghost use Rattle.lalrpop_rules.specs.declared.text_error.TextError.TheVariants.{OutOfMemory};

use lalrpop_lexer::lexer::nfa::NfaConstructionError;
use lalrpop_lexer::lexer::re::SyntaxKind;
use lalrpop_re::FromToError;
use std::alloc::{AllocError, AllocFailed};
use thiserror::Error;

/// Why rules have no trees, or trees that can't be compiled. Rules are numbered from 0.
#[derive(Debug, Drop, Error)]
pub(crate) enum TextError {
    /// The text of this rule does not parse: `kind` says why, and `position` where, as an offset in bytes.
    #[error("the text of rule {rule} does not parse: {kind:?} at byte {position}")]
    NotParsed {
        rule: usize,
        position: usize,
        kind: SyntaxKind,
    },
    /// The end of this rule's text is empty or has more than 64 characters.
    #[error("the text of rule {rule} has no tree: {error}")]
    BadEnd {
        rule: usize,
        error: FromToError,
    },
    /// This rule can't be compiled.
    #[error("rule {rule} can't be compiled: {error:?}")]
    NotCompiled {
        rule: usize,
        error: NfaConstructionError,
    },
    /// A request for memory was refused.
    #[error("out of memory")]
    OutOfMemory,
}

impl From<AllocError> for TextError {
    ghost from_gives = { λ _ e. e ≡ OutOfMemory };

    fn from(_error: AllocError) -> TextError {
        TextError::OutOfMemory
    }
}

impl<T: Drop> From<AllocFailed<T>> for TextError {
    ghost from_gives = { λ _ e. e ≡ OutOfMemory };

    fn from(_error: AllocFailed<T>) -> TextError {
        TextError::OutOfMemory
    }
}
