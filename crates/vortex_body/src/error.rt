//! Why a body could not be read.

ghost use Rattle.std.specs.Prelude.{◌≡◌};
ghost use Rattle.vortex_body.specs.declared.error.BodyError.TheVariants.{OutOfMemory};

use std::alloc::{AllocError, AllocFailed};
use thiserror::Error;

/// Why a body could not be read.
#[derive(Clone, Copy, Debug, PartialEq, Eq, Error)]
pub enum BodyError {
    /// The bytes are no body within the limits.
    #[error("malformed body")]
    Malformed,
    #[error("out of memory")]
    OutOfMemory,
}

impl From<AllocError> for BodyError {
    ghost from_gives = { λ _ e. e ≡ OutOfMemory };

    fn from(_error: AllocError) -> BodyError {
        BodyError::OutOfMemory
    }
}

impl<T: Drop> From<AllocFailed<T>> for BodyError {
    ghost from_gives = { λ _ e. e ≡ OutOfMemory };

    fn from(_error: AllocFailed<T>) -> BodyError {
        BodyError::OutOfMemory
    }
}
