//! Why a pattern or a list of patterns has no automaton.
use crate::nfa_index::NfaIndex;
use std::alloc::{AllocError, AllocFailed};
use thiserror::Error;

/// Why a pattern was not compiled.
///
/// ```
/// use lalrpop_lexer::lexer::nfa::{Nfa, NfaConstructionError};
/// use lalrpop_lexer::lexer::re::parse_regex;
///
/// let lazy = parse_regex(alloc, "a*?")?;
/// let is_lazy = matches!(Nfa::from_re(alloc, &lazy), Err(NfaConstructionError::NonGreedy)); // true
/// ```
#[derive(Clone, Copy, Debug, PartialEq, Eq, Error)]
pub enum NfaConstructionError {
    /// The pattern has a named group.
    #[error("NamedCaptures")]
    NamedCaptures,
    /// The pattern has a lazy repetition.
    #[error("NonGreedy")]
    NonGreedy,
    /// The pattern has a look-around.
    #[error("LookAround")]
    LookAround,
    /// Never reported: byte classes are compiled like other classes.
    #[error("ByteRegex")]
    ByteRegex,
    /// A request for memory was refused.
    #[error("OutOfMemory")]
    OutOfMemory,
}

impl<T: Drop> From<AllocFailed<T>> for NfaConstructionError {
    ghost use Rattle.std.specs.Prelude.{◌≡◌};
    ghost use Rattle.lalrpop_hir.specs.declared.error.NfaConstructionError.TheVariants.{OutOfMemory};

    ghost from_gives = { λ _ e. e ≡ OutOfMemory };

    fn from(_error: AllocFailed<T>) -> NfaConstructionError {
        NfaConstructionError::OutOfMemory
    }
}

impl From<AllocError> for NfaConstructionError {
    ghost use Rattle.std.specs.Prelude.{◌≡◌};
    ghost use Rattle.lalrpop_hir.specs.declared.error.NfaConstructionError.TheVariants.{OutOfMemory};

    ghost from_gives = { λ _ e. e ≡ OutOfMemory };

    fn from(_error: AllocError) -> NfaConstructionError {
        NfaConstructionError::OutOfMemory
    }
}

/// Why no automaton was built.
///
/// ```
/// use lalrpop_lexer::lexer::dfa::{DfaConstructionError, Precedence, build_dfa};
/// use lalrpop_lexer::lexer::re::parse_regex;
///
/// // Both patterns match "a", and neither is stronger.
/// let regexs = vec![in alloc; parse_regex(alloc, "a|b")?, parse_regex(alloc, "[a-z]")?]?;
/// let found = build_dfa(alloc, &regexs, &[Precedence(0), Precedence(0)]);
/// let is_ambiguous = matches!(found, Err(DfaConstructionError::Ambiguity { .. })); // true
/// ```
#[derive(Debug, Drop, Error)]
pub enum DfaConstructionError {
    /// The pattern at this index was not compiled.
    #[error("NfaConstructionError")]
    NfaConstructionError {
        index: NfaIndex,
        error: NfaConstructionError,
    },
    /// Two patterns are the strongest on some word. `word` is the least such word; `match0` is the greatest index of the
    /// strongest patterns on it, and `match1` the second greatest.
    #[error("Ambiguity")]
    Ambiguity {
        match0: NfaIndex,
        match1: NfaIndex,
        word: Vec<u32>,
    },
    /// A request for memory was refused.
    #[error("OutOfMemory")]
    OutOfMemory,
}

impl<T: Drop> From<AllocFailed<T>> for DfaConstructionError {
    ghost use Rattle.std.specs.Prelude.{◌≡◌};
    ghost use Rattle.lalrpop_hir.specs.declared.error.DfaConstructionError.TheVariants.{OutOfMemory};

    ghost from_gives = { λ _ error. error ≡ OutOfMemory };

    fn from(_refused: AllocFailed<T>) -> DfaConstructionError {
        DfaConstructionError::OutOfMemory
    }
}

impl From<AllocError> for DfaConstructionError {
    ghost use Rattle.std.specs.Prelude.{◌≡◌};
    ghost use Rattle.lalrpop_hir.specs.declared.error.DfaConstructionError.TheVariants.{OutOfMemory};

    ghost from_gives = { λ refused error. error ≡ OutOfMemory };

    fn from(_refused: AllocError) -> DfaConstructionError {
        DfaConstructionError::OutOfMemory
    }
}
