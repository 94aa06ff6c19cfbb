//! Why a flat buffer could not be read or laid out.

ghost use Rattle.std.specs.Prelude.{◌≡◌};
ghost use Rattle.vortex_flat.specs.declared.error.FlatError.TheVariants.{OutOfMemory};

use std::alloc::{AllocError, AllocFailed};
use thiserror::Error;

/// Why a flat buffer could not be read or laid out.
#[derive(Clone, Copy, Debug, PartialEq, Eq, Error)]
pub enum FlatError {
    /// What was asked for does not lie in the buffer, or breaks a rule of the format.
    #[error("outside the buffer")]
    Outside,
    /// What is to be laid out passes the largest size that an offset or a table can have.
    #[error("too long to be laid out")]
    TooLong,
    #[error("out of memory")]
    OutOfMemory,
}

impl FlatError {
    ghost use Rattle.vortex_flat.specs.ErrorNumber.{error_number};

    /// The number of the error.
    pub fn number(&self) -> u8
        ensures { result ≡ error_number self.now }
    {
        match self {
            FlatError::Outside => 1,
            FlatError::TooLong => 2,
            FlatError::OutOfMemory => 3,
        }
    }
}

impl From<AllocError> for FlatError {
    ghost from_gives = { λ _ e. e ≡ OutOfMemory };

    fn from(_e: AllocError) -> FlatError {
        FlatError::OutOfMemory
    }
}

impl<T: Drop> From<AllocFailed<T>> for FlatError {
    ghost from_gives = { λ _ e. e ≡ OutOfMemory };

    fn from(_e: AllocFailed<T>) -> FlatError {
        FlatError::OutOfMemory
    }
}
