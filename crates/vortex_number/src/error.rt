//! What a call on values can refuse.
ghost use Rattle.std.specs.Prelude.{◌≡◌};
ghost use Rattle.vortex_number.specs.declared.error.ValueError.TheVariants.{OutOfMemory};
ghost use Rattle.vortex_number.specs.ErrorNumber.{error_number};

use std::alloc::{AllocError, AllocFailed};
use thiserror::Error;

#[derive(Clone, Copy, Debug, PartialEq, Eq, Error)]
pub enum ValueError {
    #[error("the number is out of range")]
    OutOfRange,
    #[error("the length of the bytes is not the width of the number")]
    BadLength,
    #[error("out of memory")]
    OutOfMemory,
}

impl ValueError {
    /// The number of the error, from 1 in the order of the variants.
    pub fn number(&self) -> u8
        ensures { result ≡ error_number self.now }
    {
        match self {
            ValueError::OutOfRange => 1,
            ValueError::BadLength => 2,
            ValueError::OutOfMemory => 3,
        }
    }
}

impl From<AllocError> for ValueError {
    ghost from_gives = { λ _ e. e ≡ OutOfMemory };

    fn from(_error: AllocError) -> ValueError {
        ValueError::OutOfMemory
    }
}

impl<T: Drop> From<AllocFailed<T>> for ValueError {
    ghost from_gives = { λ _ e. e ≡ OutOfMemory };

    fn from(_error: AllocFailed<T>) -> ValueError {
        ValueError::OutOfMemory
    }
}
