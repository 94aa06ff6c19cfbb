//! Why a mask could not be made.
ghost use Rattle.std.specs.Prelude.{◌≡◌};
ghost use Rattle.vortex_mask.specs.declared.error.MaskError.TheVariants.{OutOfMemory};

use std::alloc::{AllocError, AllocFailed};
use thiserror::Error;

/// Why a mask could not be made.
#[derive(Clone, Copy, Debug, PartialEq, Eq, Error)]
pub enum MaskError {
    #[error("out of memory")]
    OutOfMemory,
}

impl From<AllocError> for MaskError {
    ghost from_gives = { λ _ e. e ≡ OutOfMemory };

    fn from(_error: AllocError) -> MaskError {
        MaskError::OutOfMemory
    }
}

impl<T: Drop> From<AllocFailed<T>> for MaskError {
    ghost from_gives = { λ _ e. e ≡ OutOfMemory };

    fn from(_error: AllocFailed<T>) -> MaskError {
        MaskError::OutOfMemory
    }
}
