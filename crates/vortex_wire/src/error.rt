//! Why bytes could not be read or written.

ghost use Rattle.std.specs.Prelude.{◌≡◌};
ghost use Rattle.vortex_wire.specs.declared.error.WireError.TheVariants.{OutOfMemory};

use std::alloc::{AllocError, AllocFailed};
use thiserror::Error;

/// Why bytes could not be read or written.
#[derive(Clone, Copy, Debug, PartialEq, Eq, Error)]
pub enum WireError {
    /// The bytes stand for nothing.
    #[error("malformed message")]
    Malformed,
    /// Lack of memory.
    #[error("out of memory")]
    OutOfMemory,
}

impl WireError {
    ghost use Rattle.vortex_wire.specs.ErrorNumber.{error_number};

    /// The number of the error, which stays the same in later versions.
    pub fn number(&self) -> u8
        ensures { result ≡ error_number self.now }
    {
        match self {
            WireError::Malformed => 1,
            WireError::OutOfMemory => 2,
        }
    }
}

impl From<AllocError> for WireError {
    ghost from_gives = { λ _ e. e ≡ OutOfMemory };

    fn from(_e: AllocError) -> WireError {
        WireError::OutOfMemory
    }
}

impl<T: Drop> From<AllocFailed<T>> for WireError {
    ghost from_gives = { λ _ e. e ≡ OutOfMemory };

    fn from(_e: AllocFailed<T>) -> WireError {
        WireError::OutOfMemory
    }
}
