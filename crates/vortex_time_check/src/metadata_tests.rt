//! Units, and metadata as it is read.

use jiff::Span;
use std::alloc::Global;
use std::cmp::Ordering;
use vortex_names::{ExtID, ExtMetadata, Nullability};
use vortex_number::PType;
use vortex_time::{
    DATE_ID, TIME_ID, TIMESTAMP_ID, TemporalError, TemporalMetadata, TimeUnit, is_temporal_ext_type,
};
use vortex_types::{DType, ExtDType};

/// The type of this id and metadata, stored as whole numbers.
fn ext(alloc: Global, id: &str, metadata: Option<&[u8]>) -> Option<ExtDType> {
    let id = ExtID::from_text(alloc, id).ok()?;
    let metadata = match metadata {
        Some(bytes) => Some(ExtMetadata::from_slice(alloc, bytes).ok()?),
        None => None,
    };
    let storage = DType::Primitive(PType::I64, Nullability::Nullable);
    ExtDType::try_new(alloc, id, storage, metadata).ok()
}

/// What the metadata of such a type says.
fn read(
    alloc: Global,
    id: &str,
    metadata: Option<&[u8]>,
) -> Result<TemporalMetadata, TemporalError> {
    match ext(alloc, id, metadata) {
        Some(ext) => TemporalMetadata::try_from_ext(alloc, &ext),
        None => Err(TemporalError::OutOfMemory),
    }
}

/// The number of its refusal, or 0.
fn refusal(alloc: Global, id: &str, metadata: Option<&[u8]>) -> u8 {
    match read(alloc, id, metadata) {
        Ok(_) => 0,
        Err(error) => error.number(),
    }
}

/// Whether these bytes of a timestamp say this unit and this zone.
fn is_stamp(alloc: Global, bytes: &[u8], unit: TimeUnit, zone: Option<&str>) -> bool {
    match read(alloc, TIMESTAMP_ID, Some(bytes)) {
        Ok(metadata) => metadata.time_unit() == unit && metadata.time_zone() == zone,
        Err(_) => false,
    }
}

/// The tag of the unit that these bytes of a time or a date say.
fn tag(alloc: Global, id: &str, bytes: &[u8]) -> Option<u8> {
    let metadata = read(alloc, id, Some(bytes)).ok()?;
    if metadata.time_zone().is_some() {
        return None;
    }
    Some(metadata.time_unit().tag())
}

fn is_temporal(alloc: Global, id: &str) -> Option<bool> {
    let id = ExtID::from_text(alloc, id).ok()?;
    Some(is_temporal_ext_type(&id))
}

#[test]
fn refusals_come_in_order(rt: HostRuntime) {
    assert_eq!(rt; refusal(rt.alloc(), DATE_ID, None), 1);
    assert_eq!(rt; refusal(rt.alloc(), "x", None), 1);
    assert_eq!(rt; refusal(rt.alloc(), "x", Some(&[4])), 2);
    assert_eq!(rt; refusal(rt.alloc(), "x", Some(&[])), 2);
    assert_eq!(rt; refusal(rt.alloc(), DATE_ID, Some(&[])), 3);
    assert_eq!(rt; refusal(rt.alloc(), DATE_ID, Some(&[5])), 4);
    assert_eq!(rt; refusal(rt.alloc(), TIMESTAMP_ID, Some(&[5])), 4);
    assert_eq!(rt; refusal(rt.alloc(), TIMESTAMP_ID, Some(&[4, 1])), 3);
    assert_eq!(rt; refusal(rt.alloc(), TIMESTAMP_ID, Some(&[2, 3, 0, 85])), 3);
    assert_eq!(rt; refusal(rt.alloc(), TIMESTAMP_ID, Some(&[2, 2, 0, 255])), 3);
    assert_eq!(rt; refusal(rt.alloc(), TIMESTAMP_ID, Some(&[2, 1, 0, 255])), 5);
    assert_eq!(rt; refusal(rt.alloc(), TIMESTAMP_ID, Some(&[5, 1, 0, 255])), 4);
    assert_eq!(rt; refusal(rt.alloc(), TIME_ID, Some(&[5])), 4);
}

#[test]
fn errors_have_numbers(rt: HostRuntime) {
    assert_eq!(rt; TemporalError::BadJson.number(), 10);
    assert_eq!(rt; TemporalError::OutOfMemory.number(), 11);
}

#[test]
fn metadata_is_read(rt: HostRuntime) {
    assert_eq!(rt; tag(rt.alloc(), TIME_ID, &[0, 9]), Some(0));
    assert_eq!(rt; tag(rt.alloc(), DATE_ID, &[4]), Some(4));
    assert_eq!(rt; tag(rt.alloc(), DATE_ID, &[5]), None);
    assert!(rt; is_stamp(rt.alloc(), &[3, 0, 0, 9], TimeUnit::Seconds, None));
    assert!(rt;
        is_stamp(
            rt.alloc(),
            &[2, 1, 0, 90],
            TimeUnit::Milliseconds,
            Some("Z")
        )
    );
    assert!(rt;
        is_stamp(
            rt.alloc(),
            &[1, 1, 0, 90, 255],
            TimeUnit::Microseconds,
            Some("Z")
        )
    );
    assert!(rt;
        !is_stamp(
            rt.alloc(),
            &[1, 0, 1, 90, 255],
            TimeUnit::Microseconds,
            Some("Z")
        )
    );
}

#[test]
fn three_ids_are_temporal(rt: HostRuntime) {
    assert_eq!(rt; is_temporal(rt.alloc(), "vortex.time"), Some(true));
    assert_eq!(rt; is_temporal(rt.alloc(), "vortex.date"), Some(true));
    assert_eq!(rt; is_temporal(rt.alloc(), "vortex.timestamp"), Some(true));
    assert_eq!(rt; is_temporal(rt.alloc(), "vortex.timestamps"), Some(false));
    assert_eq!(rt; is_temporal(rt.alloc(), ""), Some(false));
}

/// Whether a unit prints so.
fn prints(alloc: Global, unit: TimeUnit, text: &str) -> bool {
    match format!(in alloc; "{unit}") {
        Ok(shown) => shown.as_str() == text,
        Err(_) => false,
    }
}

/// The number of the error of a tag, or 0.
fn tag_error(tag: u8) -> u8 {
    match TimeUnit::try_from_u8(tag) {
        Ok(_) => 0,
        Err(error) => error.number(),
    }
}

#[test]
fn units_have_tags_and_texts(rt: HostRuntime) {
    assert!(rt; prints(rt.alloc(), TimeUnit::Nanoseconds, "ns"));
    assert!(rt; prints(rt.alloc(), TimeUnit::Microseconds, "µs"));
    assert!(rt; prints(rt.alloc(), TimeUnit::Milliseconds, "ms"));
    assert!(rt; prints(rt.alloc(), TimeUnit::Seconds, "s"));
    assert!(rt; prints(rt.alloc(), TimeUnit::Days, "days"));
    assert_eq!(rt; tag_error(4), 0);
    assert_eq!(rt; tag_error(5), 4);
    assert_eq!(rt; TimeUnit::Milliseconds.tag(), 2);
}

#[test]
fn longer_units_are_greater(rt: HostRuntime) {
    assert!(rt; TimeUnit::Nanoseconds < TimeUnit::Microseconds);
    assert!(rt; TimeUnit::Microseconds < TimeUnit::Milliseconds);
    assert!(rt; TimeUnit::Milliseconds < TimeUnit::Seconds);
    assert!(rt; TimeUnit::Seconds < TimeUnit::Days);
    assert_eq!(rt;
        TimeUnit::Days.cmp(&TimeUnit::Nanoseconds),
        Ordering::Greater
    );
    assert_eq!(rt; TimeUnit::Seconds.cmp(&TimeUnit::Seconds), Ordering::Equal);
}

/// Whether what these bytes of an id say is equal to its copy, and has this zone.
fn is_copied(alloc: Global, id: &str, bytes: &[u8], zone: Option<&str>) -> bool {
    match read(alloc, id, Some(bytes)) {
        Ok(metadata) => match metadata.try_clone(alloc) {
            Ok(copy) => copy == metadata && copy.time_zone() == zone,
            Err(_) => false,
        },
        Err(_) => false,
    }
}

#[test]
fn copies_are_equal(rt: HostRuntime) {
    assert!(rt; is_copied(rt.alloc(), TIME_ID, &[1], None));
    assert!(rt; is_copied(rt.alloc(), DATE_ID, &[4], None));
    assert!(rt; is_copied(rt.alloc(), TIMESTAMP_ID, &[3, 0, 0], None));
    assert!(rt; is_copied(rt.alloc(), TIMESTAMP_ID, &[2, 1, 0, 90], Some("Z")));
}

/// The seconds, the days, the nanoseconds, the microseconds and the milliseconds of a span of so
/// many units.
fn parts(unit: TimeUnit, v: i64) -> Option<[i64; 5]> {
    let span: Span = unit.to_jiff_span(v).ok()?;
    Some([
        span.get_seconds(),
        span.get_days() as i64,
        span.get_nanoseconds(),
        span.get_microseconds(),
        span.get_milliseconds(),
    ])
}

#[test]
fn spans_have_limits(rt: HostRuntime) {
    assert_eq!(rt;
        parts(TimeUnit::Days, 5_000_000),
        Some([0, 5_000_000, 0, 0, 0])
    );
    assert_eq!(rt; parts(TimeUnit::Days, 5_000_001), None);
    assert_eq!(rt;
        parts(TimeUnit::Days, -5_000_000),
        Some([0, -5_000_000, 0, 0, 0])
    );
    assert_eq!(rt; parts(TimeUnit::Days, -5_000_001), None);
    assert_eq!(rt;
        parts(TimeUnit::Seconds, 400_000_000_000),
        Some([400_000_000_000, 0, 0, 0, 0])
    );
    assert_eq!(rt; parts(TimeUnit::Seconds, 400_000_000_001), None);
    assert_eq!(rt; parts(TimeUnit::Milliseconds, -400_000_000_000_001), None);
    assert_eq!(rt;
        parts(TimeUnit::Milliseconds, -400_000_000_000_000),
        Some([0, 0, 0, 0, -400_000_000_000_000])
    );
    assert_eq!(rt;
        parts(TimeUnit::Microseconds, 400_000_000_000_000_000),
        Some([0, 0, 0, 400_000_000_000_000_000, 0])
    );
    assert_eq!(rt;
        parts(TimeUnit::Nanoseconds, 9_000_000_000_000_000_000),
        Some([0, 0, 9_000_000_000_000_000_000, 0, 0])
    );
    assert_eq!(rt;
        parts(TimeUnit::Microseconds, 400_000_000_000_000_001),
        None
    );
    assert_eq!(rt;
        parts(TimeUnit::Nanoseconds, 9_000_000_000_000_000_001),
        None
    );
    assert_eq!(rt; parts(TimeUnit::Nanoseconds, i64::MIN), None);
    assert_eq!(rt; parts(TimeUnit::Nanoseconds, -7), Some([0, 0, -7, 0, 0]));
}
