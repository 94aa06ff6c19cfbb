//! Why a call on scalars was refused.

ghost use Rattle.std.specs.Prelude.{◌≡◌};
ghost use Rattle.vortex_scalar_value.specs.declared.error.ScalarError.TheVariants.{OutOfMemory};

use std::alloc::{AllocError, AllocFailed};
use thiserror::Error;
use vortex_wire::WireError;

/// Why a call on scalars was refused.
#[derive(Clone, Copy, Debug, PartialEq, Eq, Error)]
pub enum ScalarError {
    /// The value does not fit the type.
    #[error("value does not fit the type")]
    DoesNotFit,
    /// The scalar is of another type.
    #[error("wrong type")]
    WrongType,
    /// The scalar is null.
    #[error("scalar is null")]
    IsNull,
    /// A null is cast to a type that is not nullable.
    #[error("null cast to a type that is not nullable")]
    CastNull,
    /// There is no cast between these kinds of types.
    #[error("no cast between these types")]
    CastKind,
    /// A number is not in the range of the target.
    #[error("number out of the range of the cast")]
    CastRange,
    /// A list is not as long as the target asks.
    #[error("list of another length")]
    CastLength,
    /// A struct has not as many fields as the target.
    #[error("other number of fields")]
    CastFields,
    /// A struct has no field of this name.
    #[error("no such field")]
    FieldNotFound,
    /// The bytes stand for nothing.
    #[error("malformed message")]
    Malformed,
    /// A number is not in range.
    #[error("number out of range")]
    OutOfRange,
    /// Lack of memory.
    #[error("out of memory")]
    OutOfMemory,
    /// What is to be written is not within the limits.
    #[error("too large to be written")]
    TooLarge,
}

impl ScalarError {
    ghost use Rattle.vortex_scalar_value.specs.ErrorNumber.{error_number};

    /// The number of the error, which stays the same in later versions.
    pub fn number(&self) -> u8
        ensures { result ≡ error_number self.now }
    {
        match self {
            ScalarError::DoesNotFit => 1,
            ScalarError::WrongType => 2,
            ScalarError::IsNull => 3,
            ScalarError::CastNull => 4,
            ScalarError::CastKind => 5,
            ScalarError::CastRange => 6,
            ScalarError::CastLength => 7,
            ScalarError::CastFields => 8,
            ScalarError::FieldNotFound => 9,
            ScalarError::Malformed => 10,
            ScalarError::OutOfRange => 11,
            ScalarError::OutOfMemory => 12,
            ScalarError::TooLarge => 13,
        }
    }
}

impl From<AllocError> for ScalarError {
    ghost from_gives = { λ _ e. e ≡ OutOfMemory };

    fn from(_e: AllocError) -> ScalarError {
        ScalarError::OutOfMemory
    }
}

impl<T: Drop> From<AllocFailed<T>> for ScalarError {
    ghost from_gives = { λ _ e. e ≡ OutOfMemory };

    fn from(_e: AllocFailed<T>) -> ScalarError {
        ScalarError::OutOfMemory
    }
}

impl From<WireError> for ScalarError {
    ghost use Rattle.vortex_scalar_value.specs.ErrorNumber.{of_wire};

    ghost from_gives = { λ wire e. e ≡ of_wire wire };

    fn from(error: WireError) -> ScalarError {
        match error {
            WireError::Malformed => ScalarError::Malformed,
            WireError::OutOfMemory => ScalarError::OutOfMemory,
        }
    }
}
