//! Why there is no such dictionary.

ghost use Rattle.std.specs.Prelude.{◌≡◌};
ghost use Rattle.vortex_codes.specs.declared.error.DictError.TheVariants.{OutOfMemory};

use std::alloc::{AllocError, AllocFailed};
use thiserror::Error;

/// Why there is no such dictionary.
#[derive(Clone, Copy, Debug, PartialEq, Eq, Error)]
pub enum DictError {
    /// Arrays of this encoding are not made into dictionaries.
    #[error("cannot encode such an array")]
    CannotEncode,
    /// A type is another than the one that is wanted.
    #[error("types differ")]
    TypeMismatch,
    /// Not every row was encoded.
    #[error("encoded {encoded} of {rows} rows")]
    NotAll {
        /// How many rows have a code.
        encoded: usize,
        /// How many rows there are.
        rows: usize,
    },
    /// A row has no value of the type that is asked for.
    #[error("row {row} cannot be cast")]
    CastRefused {
        /// The first such row.
        row: usize,
    },
    /// The bytes of the values would pass 4,294,967,295.
    #[error("the dictionary is too large")]
    TooLarge,
    /// Memory ran out.
    #[error("out of memory")]
    OutOfMemory,
}

impl DictError {
    ghost use Rattle.vortex_codes.specs.ErrorNumber.{error_number};

    /// The number of the error, which stays the same in later versions.
    pub fn number(&self) -> u8
        ensures { result ≡ error_number self.now }
    {
        match self {
            DictError::CannotEncode => 1,
            DictError::TypeMismatch => 2,
            DictError::NotAll {
                encoded: _,
                rows: _,
            } => 3,
            DictError::CastRefused { row: _ } => 4,
            DictError::TooLarge => 5,
            DictError::OutOfMemory => 6,
        }
    }
}

impl From<AllocError> for DictError {
    ghost from_gives = { λ _ e. e ≡ OutOfMemory };

    fn from(_e: AllocError) -> DictError {
        DictError::OutOfMemory
    }
}

impl<T: Drop> From<AllocFailed<T>> for DictError {
    ghost from_gives = { λ _ e. e ≡ OutOfMemory };

    fn from(_e: AllocFailed<T>) -> DictError {
        DictError::OutOfMemory
    }
}
