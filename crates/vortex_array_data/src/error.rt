//! Why an array could not be made or read.

ghost use Rattle.std.specs.Prelude.{◌≡◌};
ghost use Rattle.vortex_array_data.specs.declared.error.ArrayError.TheVariants.{OutOfMemory};

use std::alloc::{AllocError, AllocFailed};
use thiserror::Error;
use vortex_leaves::LeafError;

/// Why an array could not be made or read.
#[derive(Clone, Copy, Debug, PartialEq, Eq, Error)]
pub enum ArrayError {
    /// The bytes are no array of the type.
    #[error("malformed array")]
    Malformed,
    /// A part has another type than its place wants, or a null stands under a type that is not
    /// nullable.
    #[error("type mismatch")]
    TypeMismatch,
    /// Lengths or offsets do not go together.
    #[error("length mismatch")]
    LengthMismatch,
    /// There would be more than 4,294,967,295 rows, bytes or elements.
    #[error("too large")]
    TooLarge,
    /// Codes of a dictionary are no numbers without a sign.
    #[error("codes are not unsigned")]
    CodesNotUnsigned,
    /// A code is no place among the values.
    #[error("code {code} in row {row} is not below {values}")]
    CodeOutOfRange { row: u64, code: u64, values: u64 },
    /// A row can not be cast.
    #[error("row {row} can not be cast")]
    CastRefused { row: u64 },
    #[error("out of memory")]
    OutOfMemory,
}

impl ArrayError {
    ghost use Rattle.vortex_array_data.specs.ErrorNumber.{error_number};

    /// The number of the error, which stays the same in later versions.
    pub fn number(&self) -> u8
        ensures { result ≡ error_number self.now }
    {
        match self {
            ArrayError::Malformed => 1,
            ArrayError::TypeMismatch => 2,
            ArrayError::LengthMismatch => 3,
            ArrayError::TooLarge => 4,
            ArrayError::CodesNotUnsigned => 5,
            ArrayError::CodeOutOfRange {
                row: _,
                code: _,
                values: _,
            } => 6,
            ArrayError::CastRefused { row: _ } => 7,
            ArrayError::OutOfMemory => 8,
        }
    }
}

impl From<AllocError> for ArrayError {
    ghost from_gives = { λ _ e. e ≡ OutOfMemory };

    fn from(_error: AllocError) -> ArrayError {
        ArrayError::OutOfMemory
    }
}

impl<T: Drop> From<AllocFailed<T>> for ArrayError {
    ghost from_gives = { λ _ e. e ≡ OutOfMemory };

    fn from(_error: AllocFailed<T>) -> ArrayError {
        ArrayError::OutOfMemory
    }
}

impl From<LeafError> for ArrayError {
    ghost use Rattle.vortex_array_data.specs.Answers.{array_error_of};

    ghost from_gives = { λ e f. f ≡ array_error_of e };

    fn from(error: LeafError) -> ArrayError {
        match error {
            LeafError::Malformed => ArrayError::Malformed,
            LeafError::OutOfMemory => ArrayError::OutOfMemory,
        }
    }
}
