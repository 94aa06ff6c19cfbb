//! Numbers as times, dates and timestamps.

ghost use Rattle.std.specs.Prelude.{◌≡◌, pos, int_div, if◌then◌else◌, Some, None, Ok, Err};
ghost use Rattle.std.specs.Option.{option_map};
ghost use Rattle.std.specs.Result.{result_map_both};
ghost use Rattle.jiff.specs.Words.{epoch_day, signed_nanos, plain_zone};
ghost use Rattle.vortex_time.specs.Jiff.{time_moment, date_moment, datetime_moment, zoned_moment};
ghost use Rattle.vortex_time.specs.Metadata as metadata;
ghost use Rattle.vortex_time.specs.Moments.{clock, day, civil, zoned, held, moment_of, is_clock};
ghost use Rattle.vortex_time.specs.Moments.{is_day, is_instant, instant_in, civil_day, is_clock_unit};
ghost use Rattle.vortex_time.specs.Units.{nanos_of};

use crate::error::TemporalError;
use crate::unit::TimeUnit;
use jiff::civil::{Date, DateTime, Time};
use jiff::tz::TimeZone;
use jiff::{SignedDuration, Timestamp, Zoned};

// So many units as a length of time.
fn duration(unit: TimeUnit, v: i64) -> Result<SignedDuration, TemporalError>
    ensures { result_map_both signed_nanos (λ e. e) result
        ≡ (if is_clock_unit unit then Ok (nanos_of unit v) else Err TemporalError.UnitNotAllowed) }
{
    match unit {
        TimeUnit::Nanoseconds => Ok(SignedDuration::from_nanos(v)),
        TimeUnit::Microseconds => Ok(SignedDuration::from_micros(v)),
        TimeUnit::Milliseconds => Ok(SignedDuration::from_millis(v)),
        TimeUnit::Seconds => Ok(SignedDuration::from_secs(v)),
        TimeUnit::Days => Err(TemporalError::UnitNotAllowed),
    }
}

// The time of day so long after midnight.
fn time_after(length: SignedDuration) -> Result<Time, TemporalError>
    ensures { result_map_both time_moment (λ e. e) result
        ≡ held (is_clock (signed_nanos length)) (clock (signed_nanos length)) }
{
    match Time::midnight().checked_add(length) {
        Ok(time) => Ok(time),
        Err(_) => Err(TemporalError::OutOfRange),
    }
}

// The date with a time so long after 1970-01-01T00:00:00.
fn datetime_after(length: SignedDuration) -> Result<DateTime, TemporalError>
    ensures { result_map_both datetime_moment (λ e. e) result
        ≡ held (is_day (civil_day (signed_nanos length))) (civil (signed_nanos length)) }
{
    match epoch().at(0, 0, 0, 0).checked_add(length) {
        Ok(both) => Ok(both),
        Err(_) => Err(TemporalError::OutOfRange),
    }
}

// The instant so long after the Unix epoch, in a zone.
fn instant_after<'a>(
    length: SignedDuration,
    zone: &TimeZone<'a>,
) -> Result<Zoned<'a>, TemporalError>
    ensures { result_map_both zoned_moment (λ e. e) result
        ≡ held (is_instant (signed_nanos length)) (zoned (signed_nanos length) (plain_zone zone.now)) }
{
    match Timestamp::from_duration(length) {
        Ok(instant) => Ok(Zoned::new(instant, *zone)),
        Err(_) => Err(TemporalError::OutOfRange),
    }
}

// 1970-01-01.
fn epoch() -> Date
    ensures { epoch_day result ≡ pos 0 }
{
    Date::constant(1970, 1, 1)
}

// The date so many days after 1970-01-01.
fn date_after(days: i64) -> Result<Date, TemporalError>
    ensures { result_map_both date_moment (λ e. e) result ≡ held (is_day days) (day days) }
{
    let span = TimeUnit::Days.to_jiff_span(days)?;
    match epoch().checked_add(span) {
        Ok(date) => Ok(date),
        Err(_) => Err(TemporalError::OutOfRange),
    }
}

// The whole days in so many milliseconds, toward zero.
fn whole_days(milliseconds: i64) -> i64
    ensures { result ≡ int_div milliseconds (pos 86_400_000) }
{
    milliseconds / 86_400_000
}

// The time of day that a number is.
pub(crate) fn time_of(unit: TimeUnit, v: i64) -> Result<Time, TemporalError>
    ensures { result_map_both time_moment (λ e. e) result
        ≡ moment_of (metadata.time unit) v None }
{
    time_after(duration(unit, v)?)
}

// The date that a number is.
pub(crate) fn date_of(unit: TimeUnit, v: i64) -> Result<Date, TemporalError>
    ensures { result_map_both date_moment (λ e. e) result
        ≡ moment_of (metadata.date unit) v None }
{
    match unit {
        TimeUnit::Days => date_after(v),
        TimeUnit::Milliseconds => date_after(whole_days(v)),
        _ => Err(TemporalError::UnitNotAllowed),
    }
}

// The date with a time that a number is.
pub(crate) fn datetime_of(unit: TimeUnit, v: i64) -> Result<DateTime, TemporalError>
    ensures { result_map_both datetime_moment (λ e. e) result
        ≡ moment_of (metadata.timestamp unit None) v None }
{
    datetime_after(duration(unit, v)?)
}

// The instant that a number is, in the zone that is handed in.
pub(crate) fn zoned_of<'a>(
    unit: TimeUnit,
    v: i64,
    zone: Option<&TimeZone<'a>>,
) -> Result<Zoned<'a>, TemporalError>
    ensures { result_map_both zoned_moment (λ e. e) result
        ≡ (if is_clock_unit unit then instant_in unit v (option_map (λ z. plain_zone z.now) zone.entry)
        else Err TemporalError.UnitNotAllowed) }
{
    let length = duration(unit, v)?;
    match zone {
        Some(zone) => instant_after(length, zone),
        None => Err(TemporalError::ZoneNeeded),
    }
}
