//! What can go wrong in a run.
ghost use Rattle.std.specs.Prelude.{◌≡◌};
ghost use Rattle.lexdfa_lib.specs.Status.{error_status};
ghost use Rattle.lexdfa_lib.specs.declared.error.RunError.TheVariants.{OutOfMemory};

use std::alloc::AllocError;
use thiserror::Error;

/// Why a run ended without an outcome.
///
/// ```
/// use lexdfa_lib::RunError;
///
/// let status = RunError::Read.status(); // 6
/// ```
#[derive(Debug, Drop, Error)]
pub enum RunError {
    /// A request for memory was refused.
    #[error("OutOfMemory")]
    OutOfMemory,
    /// The reader failed.
    #[error("Read")]
    Read,
    /// The writer failed.
    #[error("Write")]
    Write,
}

impl RunError {
    /// The exit status: 5 for out of memory, 6 for a reader or a writer that failed.
    pub fn status(&self) -> u8
        ensures status { result ≡ error_status self.now }
    {
        match self {
            RunError::OutOfMemory => 5,
            RunError::Read => 6,
            RunError::Write => 6,
        }
    }
}

impl From<AllocError> for RunError {
    ghost from_gives = { λ _ e. e ≡ OutOfMemory };

    fn from(_error: AllocError) -> RunError {
        RunError::OutOfMemory
    }
}
