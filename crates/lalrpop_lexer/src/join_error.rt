//! Why tokens have no text from which they are cut again.
ghost use Rattle.std.specs.Prelude.{◌≡◌};
ghost use Rattle.lalrpop_lexer.specs.declared.join_error.JoinError.TheVariants.{OutOfMemory};

use std::alloc::AllocError;
use thiserror::Error;

/// Why tokens can't be joined to a text from which just they are cut. Tokens are numbered from 0.
///
/// ```
/// use lalrpop_lexer::JoinError;
///
/// let place = match neighbours.joined(alloc, &tokens, &space) {
///     Err(JoinError::NotAToken { at } | JoinError::Inseparable { at }) => Some(at),
///     _ => None,
/// };
/// ```
#[derive(Clone, Copy, Debug, PartialEq, Eq, Error)]
pub enum JoinError {
    /// From the text of this token another one is cut, or more than one, or none.
    #[error("token {at} is not what is cut from its text")]
    NotAToken { at: usize },
    /// The same of the separator.
    #[error("the separator is not what is cut from its text")]
    NotASeparator,
    /// The token after this one may not stand right after it, and the separator may not stand between the two.
    #[error("token {at} can't be kept apart from the next one")]
    Inseparable { at: usize },
    /// A request for memory was refused.
    #[error("out of memory")]
    OutOfMemory,
}

impl From<AllocError> for JoinError {
    ghost from_gives = { λ _ e. e ≡ OutOfMemory };

    fn from(_error: AllocError) -> JoinError {
        JoinError::OutOfMemory
    }
}
