//! Why a text does not parse as a pattern, and where.
ghost use Rattle.std.specs.Prelude.{◌≡◌};
ghost use Rattle.lalrpop_re.specs.declared.error.RegexError.TheVariants.{OutOfMemory};

use std::alloc::{AllocError, AllocFailed};
use thiserror::Error;

/// What is wrong with the text of a pattern.
///
/// ```
/// use lalrpop_lexer::lexer::re::{RegexError, SyntaxKind, parse_regex};
///
/// let is_open = match parse_regex(alloc, "(a") {
///     Err(RegexError::Syntax { kind, .. }) => kind == SyntaxKind::UnclosedGroup, // true
///     _ => false,
/// };
/// ```
#[derive(Clone, Copy, Debug, PartialEq, Eq)]
pub enum SyntaxKind {
    /// A `(` without its `)`.
    UnclosedGroup,
    /// A `)` without its `(`.
    UnopenedGroup,
    /// A `[` without its `]`.
    UnclosedClass,
    /// A range in brackets whose start is above its end.
    ClassRangeInvalid,
    /// A range in brackets whose end is not a single character.
    ClassRangeLiteral,
    /// An escape that is not allowed in brackets.
    ClassEscapeInvalid,
    /// The text ends inside an escape.
    EscapeUnexpectedEof,
    /// A backslash before a character that it can't escape.
    EscapeUnrecognized,
    /// An escape by a hexadecimal number that is malformed or names no character.
    EscapeHex,
    /// An escape that names an unknown set of characters.
    UnicodeSetUnknown,
    /// An operator of repetition with nothing before it.
    RepetitionMissing,
    /// Counts in braces that are malformed, too great or in the wrong order.
    RepetitionCount,
    /// A flag that is unknown, missing or written twice.
    Flag,
    /// The name of a group that is malformed, missing or used twice.
    GroupName,
    /// A look-ahead or look-behind, which patterns don't have.
    UnsupportedLookAround,
    /// A back-reference to a group, which patterns don't have.
    UnsupportedBackreference,
    /// Groups, brackets and repetitions are nested too deeply.
    NestLimitExceeded,
    /// A `{NAME}` that is the name of no part, in a pattern that may have parts.
    PartUnknown,
    /// A part where a flag is on.
    PartUnderFlag,
    /// The name of a part that is none, or isn't followed by its `}`.
    PartName,
}

/// Why a text was not read into a tree.
///
/// ```
/// use lalrpop_lexer::lexer::re::{RegexError, parse_regex};
///
/// let place = match parse_regex(alloc, "a)") {
///     Err(RegexError::Syntax { position, .. }) => Some(position), // Some(1)
///     _ => None,
/// };
/// ```
#[derive(Debug, Drop, Error)]
pub enum RegexError {
    /// The text does not parse: `kind` says why, and `position` where, as an offset in bytes.
    #[error("Syntax")]
    Syntax { position: usize, kind: SyntaxKind },
    /// A request for memory was refused.
    #[error("OutOfMemory")]
    OutOfMemory,
}

impl From<AllocError> for RegexError {
    ghost from_gives = { λ _ e. e ≡ OutOfMemory };

    fn from(_error: AllocError) -> RegexError {
        RegexError::OutOfMemory
    }
}

impl<T: Drop> From<AllocFailed<T>> for RegexError {
    ghost from_gives = { λ _ e. e ≡ OutOfMemory };

    fn from(_error: AllocFailed<T>) -> RegexError {
        RegexError::OutOfMemory
    }
}
