//! Why there is no such type.

ghost use Rattle.std.specs.Prelude.{◌≡◌};
ghost use Rattle.vortex_names.specs.declared.error.DTypeError.TheVariants.{OutOfMemory};

use std::alloc::{AllocError, AllocFailed};
use thiserror::Error;

/// Why there is no such type, or no such part of it.
#[derive(Clone, Copy, Debug, PartialEq, Eq, Error)]
pub enum DTypeError {
    /// A decimal has no digit.
    #[error("decimal precision is 0")]
    PrecisionZero,
    /// A decimal has more digits than 76.
    #[error("decimal precision is above 76")]
    PrecisionTooLarge,
    /// A decimal has more digits than 76 behind the point.
    #[error("decimal scale is above 76")]
    ScaleTooLarge,
    /// A decimal has more digits behind the point than digits.
    #[error("decimal scale is above the precision")]
    ScaleAbovePrecision,
    /// There are not as many names as types.
    #[error("numbers of names and types differ")]
    LengthMismatch,
    /// An extension is stored as an extension.
    #[error("an extension is stored as an extension")]
    ExtensionStorage,
    /// No field has this name.
    #[error("no such field")]
    FieldNotFound,
    /// No field has this index.
    #[error("field index out of bounds")]
    IndexOutOfBounds,
    /// Two fields have one name.
    #[error("duplicate field name")]
    DuplicateName,
    /// The type is no struct.
    #[error("not a struct")]
    NotAStruct,
    /// The selector is no name.
    #[error("not a field name")]
    NotAName,
    /// The type is no primitive type.
    #[error("not a primitive type")]
    NotPrimitive,
    /// The type is no decimal type.
    #[error("not a decimal type")]
    NotDecimal,
    /// The mask selects the root alone.
    #[error("the mask is exactly the root")]
    ExactRoot,
    /// The mask selects all, so it has no first field.
    #[error("the mask has no starting field")]
    AllMask,
    /// The bytes stand for no type.
    #[error("malformed type")]
    Malformed,
    /// The type is outside the limits.
    #[error("the type is too large")]
    TooLarge,
    /// Lack of memory.
    #[error("out of memory")]
    OutOfMemory,
}

impl DTypeError {
    ghost use Rattle.vortex_names.specs.ErrorNumber.{error_number};

    /// The number of the error, which stays the same in later versions.
    pub fn number(&self) -> u8
        ensures { result ≡ error_number self.now }
    {
        match self {
            DTypeError::PrecisionZero => 1,
            DTypeError::PrecisionTooLarge => 2,
            DTypeError::ScaleTooLarge => 3,
            DTypeError::ScaleAbovePrecision => 4,
            DTypeError::LengthMismatch => 5,
            DTypeError::ExtensionStorage => 6,
            DTypeError::FieldNotFound => 7,
            DTypeError::IndexOutOfBounds => 8,
            DTypeError::DuplicateName => 9,
            DTypeError::NotAStruct => 10,
            DTypeError::NotAName => 11,
            DTypeError::NotPrimitive => 12,
            DTypeError::NotDecimal => 13,
            DTypeError::ExactRoot => 14,
            DTypeError::AllMask => 15,
            DTypeError::Malformed => 16,
            DTypeError::TooLarge => 17,
            DTypeError::OutOfMemory => 18,
        }
    }
}

impl From<AllocError> for DTypeError {
    ghost from_gives = { λ _ e. e ≡ OutOfMemory };

    fn from(_e: AllocError) -> DTypeError {
        DTypeError::OutOfMemory
    }
}

impl<T: Drop> From<AllocFailed<T>> for DTypeError {
    ghost from_gives = { λ _ e. e ≡ OutOfMemory };

    fn from(_e: AllocFailed<T>) -> DTypeError {
        DTypeError::OutOfMemory
    }
}
