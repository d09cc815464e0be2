//! Why a lexer can't be written as a source file.
ghost use Rattle.std.specs.Prelude.{◌≡◌};
ghost use Rattle.lalrpop_emit.specs.declared.error.EmitError.TheVariants.{OutOfMemory};

use std::alloc::{AllocError, AllocFailed};
use thiserror::Error;

/// Why a lexer can't be written as a source file. Rules are numbered from 0.
///
/// ```
/// use lalrpop_emit::{EmitError, LexerNumbers};
///
/// let bad = match LexerNumbers::new(alloc, &rules) {
///     Err(EmitError::BadName { rule }) => Some(rule), // 1, if the names are `IF` and `ELSE IF`
///     _ => None,
/// };
/// ```
#[derive(Debug, Drop, Error)]
pub enum EmitError {
    /// There are no rules.
    #[error("there are no rules")]
    NoRules,
    /// The name of this rule is empty, or not all of it is ASCII letters, digits and `_`.
    #[error("the name of rule {rule} isn't made of letters, digits and `_`")]
    BadName { rule: usize },
    /// There are more or fewer skips than names.
    #[error("there aren't as many skips as names")]
    SkipCount,
    /// The automaton of a mode has a pattern with this index, and there are fewer names.
    #[error("pattern {pattern} has no name")]
    NoName { pattern: usize },
    /// There are 65,536 rules or more.
    #[error("there are too many rules")]
    TooManyRules,
    /// There are 65,536 modes or more.
    #[error("there are too many modes")]
    TooManyModes,
    /// The rules have too many actions: with one more for each rule, they are 2^32 or more.
    #[error("there are too many actions")]
    TooManyActions,
    /// The name of this kind can't be a variant of an enum in Rust: it begins with a digit, or is `_`, `self`, `super`, `crate`
    /// or `Self`. Kinds are numbered from 0, in the order in which their names first come.
    #[error("the name of kind {kind} can't be a variant of an enum in Rust")]
    BadVariant { kind: usize },
    /// The prefix isn't an identifier: ASCII letters, digits and `_`, and no digit first.
    #[error("the prefix isn't an identifier")]
    BadPrefix,
    /// The automaton of a mode is too large for a table: it tells more than 255 characters apart; or a table with a row for
    /// each state, and in the row a cell for each such character and 131 more, would have more than 2^27 cells.
    #[error("the automaton of a mode has no table")]
    NoTable,
    /// A request for memory was refused.
    #[error("out of memory")]
    OutOfMemory,
}

impl From<AllocError> for EmitError {
    ghost from_gives = { λ _ e. e ≡ OutOfMemory };

    fn from(_error: AllocError) -> EmitError {
        EmitError::OutOfMemory
    }
}

impl<T: Drop> From<AllocFailed<T>> for EmitError {
    ghost from_gives = { λ _ e. e ≡ OutOfMemory };

    fn from(_error: AllocFailed<T>) -> EmitError {
        EmitError::OutOfMemory
    }
}
