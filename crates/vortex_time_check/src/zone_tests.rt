//! Metadata with zones, as it is written, and values in zones.

use jiff::Timestamp;
use jiff::tz::TimeZone;
use std::alloc::Global;
use vortex_names::{ExtID, ExtMetadata, Nullability};
use vortex_number::PType;
use vortex_time::{TIMESTAMP_ID, TemporalError, TemporalMetadata, TimeUnit};
use vortex_types::{DType, ExtDType};

/// A name of so many letters.
fn name(alloc: Global, length: usize) -> Option<String> {
    let mut text = String::new(alloc);
    for _ in 0..length {
        text.push('a').ok()?;
    }
    Some(text)
}

/// The bytes of a timestamp in milliseconds whose zone has so many letters.
fn written(alloc: Global, length: usize) -> Result<ExtMetadata, TemporalError> {
    match name(alloc, length) {
        Some(zone) => {
            TemporalMetadata::Timestamp(TimeUnit::Milliseconds, Some(zone)).to_ext_metadata(alloc)
        }
        None => Err(TemporalError::OutOfMemory),
    }
}

/// The number of bytes that are written for it and the three first, or none and the error.
fn start(alloc: Global, length: usize) -> [usize; 4] {
    match written(alloc, length) {
        Ok(metadata) => match metadata.as_slice() {
            [unit, low, high, rest @ ..] => {
                [
                    3 + rest.len(),
                    *unit as usize,
                    *low as usize,
                    *high as usize,
                ]
            }
            _ => [0; 4],
        },
        Err(error) => [0, 0, 0, error.number() as usize],
    }
}

/// How long the zone is that is read again, where there is one.
fn read_again(alloc: Global, length: usize) -> Option<Option<usize>> {
    let id = ExtID::from_text(alloc, TIMESTAMP_ID).ok()?;
    let metadata = written(alloc, length).ok()?;
    let storage = DType::Primitive(PType::I64, Nullability::NonNullable);
    let ext = ExtDType::try_new(alloc, id, storage, Some(metadata)).ok()?;
    let read = TemporalMetadata::try_from_ext(alloc, &ext).ok()?;
    match read.time_zone() {
        Some(zone) => Some(Some(zone.len())),
        None => Some(None),
    }
}

#[test]
fn zones_are_written_and_read(rt: HostRuntime) {
    assert_eq!(rt; start(rt.alloc(), 0), [3, 2, 0, 0]);
    assert_eq!(rt; start(rt.alloc(), 1), [4, 2, 1, 0]);
    assert_eq!(rt; start(rt.alloc(), 258), [261, 2, 2, 1]);
    assert_eq!(rt; start(rt.alloc(), 65_535), [65_538, 2, 255, 255]);
    assert_eq!(rt; start(rt.alloc(), 65_536), [0, 0, 0, 6]);
    assert_eq!(rt; read_again(rt.alloc(), 0), Some(None));
    assert_eq!(rt; read_again(rt.alloc(), 1), Some(Some(1)));
    assert_eq!(rt; read_again(rt.alloc(), 65_535), Some(Some(65_535)));
}

/// A timestamp that names a zone.
fn stamp(alloc: Global, unit: TimeUnit) -> Option<TemporalMetadata> {
    let zone = String::from_str(alloc, "UTC").ok()?;
    Some(TemporalMetadata::Timestamp(unit, Some(zone)))
}

/// Whether a number prints so in a zone.
fn shows(alloc: Global, unit: TimeUnit, v: i64, zone: &TimeZone<'_>, text: &str) -> bool {
    let Some(metadata) = stamp(alloc, unit) else {
        return false;
    };
    match metadata.to_jiff(alloc, v, Some(zone)) {
        Ok(value) => match format!(in alloc; "{value}") {
            Ok(shown) => shown.as_str() == text,
            Err(_) => false,
        },
        Err(_) => false,
    }
}

/// The number of the refusal of a number, with or without UTC, or 0.
fn refusal(alloc: Global, unit: TimeUnit, v: i64, handed: bool) -> u8 {
    let Some(metadata) = stamp(alloc, unit) else {
        return 255;
    };
    let utc = TimeZone::UTC;
    let zone = if handed { Some(&utc) } else { None };
    match metadata.to_jiff(alloc, v, zone) {
        Ok(_) => 0,
        Err(error) => error.number(),
    }
}

#[test]
fn instants_in_zones(rt: HostRuntime) {
    let utc = TimeZone::UTC;
    let start = "1970-01-01T00:00:00+00:00[UTC]";
    assert!(rt; shows(rt.alloc(), TimeUnit::Seconds, 0, &utc, start));
    let before = "1969-12-31T23:59:59.999999999+00:00[UTC]";
    assert!(rt; shows(rt.alloc(), TimeUnit::Nanoseconds, -1, &utc, before));
    assert_eq!(rt; refusal(rt.alloc(), TimeUnit::Seconds, 0, false), 8);
    assert_eq!(rt; refusal(rt.alloc(), TimeUnit::Days, 0, false), 7);
    assert_eq!(rt; refusal(rt.alloc(), TimeUnit::Days, 0, true), 7);
    assert_eq!(rt;
        refusal(rt.alloc(), TimeUnit::Seconds, 253_402_207_200, true),
        0
    );
    assert_eq!(rt;
        refusal(rt.alloc(), TimeUnit::Seconds, 253_402_207_201, true),
        9
    );
    assert_eq!(rt;
        refusal(rt.alloc(), TimeUnit::Seconds, -377_705_023_201, true),
        0
    );
    assert_eq!(rt;
        refusal(rt.alloc(), TimeUnit::Seconds, -377_705_023_202, true),
        9
    );
    assert_eq!(rt;
        refusal(
            rt.alloc(),
            TimeUnit::Microseconds,
            253_402_207_200_999_999,
            true
        ),
        0
    );
    assert_eq!(rt; refusal(rt.alloc(), TimeUnit::Seconds, i64::MAX, false), 8);
    assert_eq!(rt; Timestamp::MAX.as_second(), 253_402_207_200);
    assert_eq!(rt; Timestamp::MAX.as_nanosecond(), 253_402_207_200_999_999_999);
    assert_eq!(rt;
        Timestamp::MIN.as_nanosecond(),
        -377_705_023_201_000_000_000
    );
    assert_eq!(rt; Timestamp::MIN.as_second(), -377_705_023_201);
}

/// Whether the Unix epoch prints so in the zone of this rule.
fn epoch_shows(alloc: Global, rule: &str, text: &str) -> bool {
    match TimeZone::posix(rule) {
        Ok(zone) => shows(alloc, TimeUnit::Milliseconds, 0, &zone, text),
        Err(_) => false,
    }
}

#[test]
fn the_epoch_west_of_greenwich(rt: HostRuntime) {
    let text = "1969-12-31T19:00:00-05:00[-05:00]";
    assert!(rt; epoch_shows(rt.alloc(), "EST5EDT,M3.2.0,M11.1.0", text));
}

/// Whether a number of a type that names no zone prints so. A zone is handed, which is ignored.
fn plain_shows(alloc: Global, of: TemporalMetadata, v: i64, text: &str) -> bool {
    let utc = TimeZone::UTC;
    match of.to_jiff(alloc, v, Some(&utc)) {
        Ok(value) => match format!(in alloc; "{value}") {
            Ok(shown) => shown.as_str() == text,
            Err(_) => false,
        },
        Err(_) => false,
    }
}

fn date_shows(alloc: Global, unit: TimeUnit, v: i64, text: &str) -> bool {
    plain_shows(alloc, TemporalMetadata::Date(unit), v, text)
}

fn time_shows(alloc: Global, unit: TimeUnit, v: i64, text: &str) -> bool {
    plain_shows(alloc, TemporalMetadata::Time(unit), v, text)
}

fn stamp_shows(alloc: Global, unit: TimeUnit, v: i64, text: &str) -> bool {
    plain_shows(alloc, TemporalMetadata::Timestamp(unit, None), v, text)
}

/// The number of the refusal of a date, or 0.
fn date_refusal(alloc: Global, unit: TimeUnit, v: i64) -> u8 {
    match TemporalMetadata::Date(unit).to_jiff(alloc, v, None) {
        Ok(_) => 0,
        Err(error) => error.number(),
    }
}

#[test]
fn others_ask_no_zone(rt: HostRuntime) {
    assert!(rt; date_shows(rt.alloc(), TimeUnit::Days, 25, "1970-01-26"));
    assert!(rt; date_shows(rt.alloc(), TimeUnit::Days, 2_932_896, "9999-12-31"));
    assert!(rt; date_shows(rt.alloc(), TimeUnit::Milliseconds, -1, "1970-01-01"));
    assert!(rt; time_shows(rt.alloc(), TimeUnit::Seconds, 205, "00:03:25"));
    assert!(rt; stamp_shows(rt.alloc(), TimeUnit::Seconds, 0, "1970-01-01T00:00:00"));
    assert_eq!(rt; date_refusal(rt.alloc(), TimeUnit::Days, 2_932_897), 9);
    assert_eq!(rt; date_refusal(rt.alloc(), TimeUnit::Days, -4_371_588), 9);
    assert_eq!(rt; date_refusal(rt.alloc(), TimeUnit::Seconds, 0), 7);
}
