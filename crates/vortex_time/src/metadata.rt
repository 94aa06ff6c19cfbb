//! The metadata of the types of times.

ghost use Rattle.std.specs.Prelude.{◌≡◌, IfOk, IsOkUnless};
ghost use Rattle.std.specs.Option.{option_copied};
ghost use Rattle.vortex_time.specs.Answers.{Answers};
ghost use Rattle.vortex_time.specs.Metadata.{metadata_of, unit_in, zone_in, written_metadata};
ghost use Rattle.vortex_time.specs.Terms.{metadata_term};

use crate::borrowed::{BorrowedMetadata, read};
use crate::error::TemporalError;
use crate::unit::TimeUnit;
use std::alloc::Global;
use vortex_names::ExtMetadata;
use vortex_types::ExtDType;

/// The metadata of a type of times.
#[derive(Debug, Drop, PartialEq, Eq)]
pub enum TemporalMetadata {
    /// Times of day, so many units after midnight.
    Time(TimeUnit),
    /// Dates, so many units after 1970-01-01.
    Date(TimeUnit),
    /// So many units after 1970-01-01T00:00:00 in no zone, or after the Unix epoch, which is shown
    /// in the zone of this name.
    Timestamp(TimeUnit, Option<String>),
}

impl TemporalMetadata {
    /// The unit in which the rows are counted.
    pub fn time_unit(&self) -> TimeUnit
        ensures { result ≡ unit_in (metadata_term self.now) }
    {
        match self {
            TemporalMetadata::Time(unit)
            | TemporalMetadata::Date(unit)
            | TemporalMetadata::Timestamp(unit, _) => *unit,
        }
    }

    /// The name of the zone of a timestamp, if it has one.
    pub fn time_zone(&self) -> Option<&str>
        ensures { option_copied result ≡ zone_in (metadata_term self.now) }
    {
        match self {
            TemporalMetadata::Timestamp(_, Some(zone)) => Some(zone.as_str()),
            _ => None,
        }
    }

    /// What the metadata of an extension type says. Refused is, in this order: no metadata
    /// (MissingMetadata), another id (NotTemporal), no byte (ShortMetadata), a tag above 4
    /// (BadUnit) and, of a timestamp, a zone that is not whole (ShortMetadata) or not UTF-8
    /// (BadZone). Bytes behind these are ignored.
    pub fn try_from_ext(alloc: Global, ext: &ExtDType) -> Result<TemporalMetadata, TemporalError>
        ensures { Answers metadata_term result (metadata_of ext.now.id ext.now.metadata) }
    {
        let metadata = match ext.metadata() {
            Some(metadata) => Some(metadata.as_slice()),
            None => None,
        };
        match read(ext.id().as_str(), metadata)? {
            BorrowedMetadata::Time(unit) => Ok(TemporalMetadata::Time(unit)),
            BorrowedMetadata::Date(unit) => Ok(TemporalMetadata::Date(unit)),
            BorrowedMetadata::Timestamp(unit, None) => Ok(TemporalMetadata::Timestamp(unit, None)),
            BorrowedMetadata::Timestamp(unit, Some(zone)) => {
                let zone = String::from_str(alloc, zone)?;
                Ok(TemporalMetadata::Timestamp(unit, Some(zone)))
            }
        }
    }

    /// Equal metadata. OutOfMemory alone is refused.
    pub fn try_clone(&self, alloc: Global) -> Result<TemporalMetadata, TemporalError>
        ensures metadata { IfOk result (λ m. metadata_term m ≡ metadata_term self.now) }
        ensures memory { IsOkUnless result TemporalError.OutOfMemory }
    {
        match self {
            TemporalMetadata::Time(unit) => Ok(TemporalMetadata::Time(*unit)),
            TemporalMetadata::Date(unit) => Ok(TemporalMetadata::Date(*unit)),
            TemporalMetadata::Timestamp(unit, None) => Ok(TemporalMetadata::Timestamp(*unit, None)),
            TemporalMetadata::Timestamp(unit, Some(zone)) => {
                let zone = String::from_str(alloc, zone.as_str())?;
                Ok(TemporalMetadata::Timestamp(*unit, Some(zone)))
            }
        }
    }

    /// The metadata as bytes: the tag of the unit and, of a timestamp, the length of its zone in
    /// two bytes, the lowest first, and its name. ZoneTooLong above 65,535 bytes of it.
    pub fn to_ext_metadata(&self, alloc: Global) -> Result<ExtMetadata, TemporalError>
        ensures { Answers (λ m. m) result (written_metadata (metadata_term self.now)) }
    {
        match self {
            TemporalMetadata::Time(unit) | TemporalMetadata::Date(unit) => {
                kept(alloc, &[unit.tag()])
            }
            TemporalMetadata::Timestamp(unit, None) => kept(alloc, &[unit.tag(), 0, 0]),
            TemporalMetadata::Timestamp(unit, Some(zone)) => {
                let zone = zone.as_bytes();
                if zone.len() > 65_535 {
                    return Err(TemporalError::ZoneTooLong);
                }
                let [low, high] = (zone.len() as u16).to_le_bytes();
                let mut bytes = Vec::from_slice(alloc, &[unit.tag(), low, high])?;
                bytes.extend_from_slice(zone)?;
                kept(alloc, bytes.as_slice())
            }
        }
    }
}

fn kept(alloc: Global, bytes: &[u8]) -> Result<ExtMetadata, TemporalError>
    ensures { Answers (λ m. m) result (Ok bytes.now) }
{
    match ExtMetadata::from_slice(alloc, bytes) {
        Ok(metadata) => Ok(metadata),
        Err(_) => Err(TemporalError::OutOfMemory),
    }
}
