//! Why there is no such time, or no such JSON.

ghost use Rattle.std.specs.Prelude.{◌≡◌};
ghost use Rattle.vortex_time.specs.declared.error.TemporalError.TheVariants.{OutOfMemory};

use std::alloc::{AllocError, AllocFailed};
use thiserror::Error;

/// Why there is no such time, no such metadata of times, or nothing that a JSON value stands for.
#[derive(Clone, Copy, Debug, PartialEq, Eq, Error)]
pub enum TemporalError {
    /// The extension type has no metadata.
    #[error("the extension type has no metadata")]
    MissingMetadata,
    /// The extension type is none of times, dates and timestamps.
    #[error("not a temporal type")]
    NotTemporal,
    /// The metadata ends before its last part.
    #[error("the metadata is too short")]
    ShortMetadata,
    /// The tag of the unit is above 4.
    #[error("no such unit of time")]
    BadUnit,
    /// The name of the zone is not UTF-8.
    #[error("the name of the time zone is not UTF-8")]
    BadZone,
    /// The name of the zone has more than 65,535 bytes.
    #[error("the name of the time zone is too long")]
    ZoneTooLong,
    /// The type has no values in this unit.
    #[error("the type does not allow this unit of time")]
    UnitNotAllowed,
    /// A timestamp with a zone wants one to be handed in.
    #[error("a time zone is needed")]
    ZoneNeeded,
    /// The number is outside the range of times of its type.
    #[error("the time is out of range")]
    OutOfRange,
    /// The JSON value stands for nothing.
    #[error("malformed JSON")]
    BadJson,
    /// Lack of memory.
    #[error("out of memory")]
    OutOfMemory,
}

impl TemporalError {
    ghost use Rattle.vortex_time.specs.ErrorNumber.{error_number};

    /// The number of the error, which stays the same in later versions.
    pub fn number(&self) -> u8
        ensures { result ≡ error_number self.now }
    {
        match self {
            TemporalError::MissingMetadata => 1,
            TemporalError::NotTemporal => 2,
            TemporalError::ShortMetadata => 3,
            TemporalError::BadUnit => 4,
            TemporalError::BadZone => 5,
            TemporalError::ZoneTooLong => 6,
            TemporalError::UnitNotAllowed => 7,
            TemporalError::ZoneNeeded => 8,
            TemporalError::OutOfRange => 9,
            TemporalError::BadJson => 10,
            TemporalError::OutOfMemory => 11,
        }
    }
}

impl From<AllocError> for TemporalError {
    ghost from_gives = { λ _ e. e ≡ OutOfMemory };

    fn from(_e: AllocError) -> TemporalError {
        TemporalError::OutOfMemory
    }
}

impl<T: Drop> From<AllocFailed<T>> for TemporalError {
    ghost from_gives = { λ _ e. e ≡ OutOfMemory };

    fn from(_e: AllocFailed<T>) -> TemporalError {
        TemporalError::OutOfMemory
    }
}
