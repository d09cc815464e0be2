//! Why a pattern from a beginning up to an end was not made.
ghost use Rattle.std.specs.Prelude.{◌≡◌};
ghost use Rattle.lalrpop_re.specs.declared.from_to_error.FromToError.TheVariants.{OutOfMemory};

use std::alloc::AllocError;
use thiserror::Error;

/// Why a pattern from a beginning up to an end was not made.
///
/// ```
/// use lalrpop_re::{FromToError, from_to};
///
/// let is_empty = matches!(from_to(alloc, "#", ""), Err(FromToError::EmptyEnd)); // true
/// ```
#[derive(Clone, Copy, Debug, PartialEq, Eq, Error)]
pub enum FromToError {
    /// The end is empty.
    #[error("the end is empty")]
    EmptyEnd,
    /// The end has more than 64 characters.
    #[error("the end has more than 64 characters")]
    LongEnd,
    /// A request for memory was refused.
    #[error("OutOfMemory")]
    OutOfMemory,
}

impl From<AllocError> for FromToError {
    ghost from_gives = { λ _ e. e ≡ OutOfMemory };

    fn from(_error: AllocError) -> FromToError {
        FromToError::OutOfMemory
    }
}
