//! Why a text can't be edited.
ghost use Rattle.std.specs.Prelude.{◌≡◌};
ghost use Rattle.bajofeki.specs.declared.error.EditError.TheVariants.{OutOfMemory};

use std::alloc::{AllocError, AllocFailed};
use thiserror::Error;

/// Why a text can't be edited. Nothing has changed then.
///
/// ```
/// use bajofeki::EditError;
///
/// let is_inside = matches!(text.edit(alloc, 1..1, "x"), Err(EditError::NoBoundary)); // true for "ä"
/// ```
#[derive(Clone, Copy, Debug, PartialEq, Eq, Drop, Error)]
pub enum EditError {
    /// The range isn't one of whole characters of the text: it begins after its end, or begins or ends inside a character or
    /// past the end of the text.
    #[error("the range isn't one of whole characters of the text")]
    NoBoundary,
    /// The text would have 4,294,967,295 bytes or more, or there are as many rules. Of a text in chunks: 2^64 bytes have come.
    #[error("the text would be too large")]
    TooLarge,
    /// A request for memory was refused.
    #[error("out of memory")]
    OutOfMemory,
}

impl From<AllocError> for EditError {
    ghost from_gives = { λ _ e. e ≡ OutOfMemory };

    fn from(_error: AllocError) -> EditError {
        EditError::OutOfMemory
    }
}

impl<T: Drop> From<AllocFailed<T>> for EditError {
    ghost from_gives = { λ _ e. e ≡ OutOfMemory };

    fn from(_error: AllocFailed<T>) -> EditError {
        EditError::OutOfMemory
    }
}
