ghost use Rattle.std.specs.Prelude.{◌≡◌};
ghost use Rattle.vortex_select.specs.ErrorNumber.{error_number};
ghost use Rattle.vortex_select.specs.declared.error.SelectError.TheVariants.{OutOfMemory};

use std::alloc::{AllocError, AllocFailed};
use thiserror::Error;

/// Why a selection failed.
#[derive(Clone, Copy, Debug, PartialEq, Eq, Error)]
pub enum SelectError {
    #[error("a read failed")]
    ReadFault,
    #[error("a write failed")]
    WriteFault,
    #[error("too many reads")]
    ReadLimit,
    #[error("out of memory")]
    OutOfMemory,
    /// The input is no stream of one column of 64 signed bits, never null, in primitive arrays
    /// (docs/FORMATS.md).
    #[error("not a stream of the form that is built so far")]
    Unbuilt,
}

impl SelectError {
    /// The number under which documents list the error.
    pub fn number(self) -> u8
        ensures { result ≡ error_number self }
    {
        match self {
            SelectError::ReadFault => 1,
            SelectError::WriteFault => 2,
            SelectError::ReadLimit => 3,
            SelectError::OutOfMemory => 13,
            SelectError::Unbuilt => 14,
        }
    }
}

impl From<AllocError> for SelectError {
    ghost from_gives = { λ _ e. e ≡ OutOfMemory };

    fn from(_e: AllocError) -> SelectError {
        SelectError::OutOfMemory
    }
}

impl<T: Drop> From<AllocFailed<T>> for SelectError {
    ghost from_gives = { λ _ e. e ≡ OutOfMemory };

    fn from(_e: AllocFailed<T>) -> SelectError {
        SelectError::OutOfMemory
    }
}
