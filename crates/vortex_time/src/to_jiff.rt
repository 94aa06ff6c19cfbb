//! Values of types of times.

ghost use Rattle.std.specs.Prelude.{◌≡◌, option_map};
ghost use Rattle.std.specs.Option.{option_copied};
ghost use Rattle.std.specs.Result.{result_map_both};
ghost use Rattle.jiff.specs.Words.{plain_zone};
ghost use Rattle.vortex_time.specs.Jiff.{jiff_moment, civil_moment};
ghost use Rattle.vortex_time.specs.Moments.{moment_of, unzoned_of};
ghost use Rattle.vortex_time.specs.Terms.{metadata_term};

use crate::borrowed::{BorrowedMetadata, read};
use crate::error::TemporalError;
use crate::metadata::TemporalMetadata;
use crate::moments::{date_of, datetime_of, time_of, zoned_of};
use crate::values::{CivilJiff, TemporalJiff};
use jiff::tz::TimeZone;
use std::alloc::Global;

impl TemporalMetadata {
    /// The time that a number is: so many units after midnight, 1970-01-01, 1970-01-01T00:00:00
    /// or the Unix epoch. A date in milliseconds drops what is less than a day toward zero.
    ///
    /// Refused is, in this order: days of a time or a timestamp, and other units than days and
    /// milliseconds of a date (UnitNotAllowed); a timestamp with a zone to which none is handed
    /// (ZoneNeeded), which is not compared with the name; and a time outside the day, a date
    /// outside the years -9999 to 9999, or an instant outside those of `jiff` (OutOfRange).
    pub fn to_jiff<'a>(
        &self,
        _alloc: Global,
        v: i64,
        zone: Option<&TimeZone<'a>>,
    ) -> Result<TemporalJiff<'a>, TemporalError>
        ensures { result_map_both jiff_moment (λ e. e) result
            ≡ moment_of (metadata_term self.now) v (option_map (λ z. plain_zone z.now) zone.entry) }
    {
        match self {
            TemporalMetadata::Time(unit) => Ok(TemporalJiff::Time(time_of(*unit, v)?)),
            TemporalMetadata::Date(unit) => Ok(TemporalJiff::Date(date_of(*unit, v)?)),
            TemporalMetadata::Timestamp(unit, None) => {
                Ok(TemporalJiff::Unzoned(datetime_of(*unit, v)?))
            }
            TemporalMetadata::Timestamp(unit, Some(_)) => {
                Ok(TemporalJiff::Zoned(zoned_of(*unit, v, zone)?))
            }
        }
    }

    /// The time that a number is under the extension of this id and metadata, which it reads as
    /// [`TemporalMetadata::try_from_ext`] does, without memory. It refuses what that refuses, then
    /// a timestamp with a zone (ZoneNeeded), then what [`TemporalMetadata::to_jiff`] refuses.
    pub fn unzoned(id: &str, metadata: Option<&[u8]>, v: i64) -> Result<CivilJiff, TemporalError>
        ensures { result_map_both civil_moment (λ e. e) result
            ≡ unzoned_of id.now (option_copied metadata.entry) v }
    {
        match read(id, metadata)? {
            BorrowedMetadata::Time(unit) => Ok(CivilJiff::Time(time_of(unit, v)?)),
            BorrowedMetadata::Date(unit) => Ok(CivilJiff::Date(date_of(unit, v)?)),
            BorrowedMetadata::Timestamp(unit, None) => {
                Ok(CivilJiff::Unzoned(datetime_of(unit, v)?))
            }
            BorrowedMetadata::Timestamp(_, Some(_)) => Err(TemporalError::ZoneNeeded),
        }
    }
}
