//! Why a buffer could not be made.
ghost use Rattle.std.specs.Prelude.{◌≡◌};
ghost use Rattle.vortex_buffer.specs.declared.error.BufferError.TheVariants.{OutOfMemory};
ghost use Rattle.vortex_buffer.specs.ErrorNumber.{error_number};

use std::alloc::{AllocError, AllocFailed};
use thiserror::Error;

/// Why a buffer could not be made.
#[derive(Clone, Copy, Debug, PartialEq, Eq, Error)]
pub enum BufferError {
    #[error("the bytes are not UTF-8")]
    NotUtf8,
    #[error("out of memory")]
    OutOfMemory,
}

impl BufferError {
    /// The number of the error, from 1 in the order of the variants.
    pub fn number(&self) -> u8
        ensures { result ≡ error_number self.now }
    {
        match self {
            BufferError::NotUtf8 => 1,
            BufferError::OutOfMemory => 2,
        }
    }
}

impl From<AllocError> for BufferError {
    ghost from_gives = { λ _ e. e ≡ OutOfMemory };

    fn from(_error: AllocError) -> BufferError {
        BufferError::OutOfMemory
    }
}

impl<T: Drop> From<AllocFailed<T>> for BufferError {
    ghost from_gives = { λ _ e. e ≡ OutOfMemory };

    fn from(_error: AllocFailed<T>) -> BufferError {
        BufferError::OutOfMemory
    }
}
