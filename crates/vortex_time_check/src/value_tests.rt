//! Values in no zone, at both ends of each range.

use std::alloc::Global;
use vortex_time::{DATE_ID, TIME_ID, TIMESTAMP_ID, TemporalMetadata};

/// Whether a number under this id and metadata prints so.
fn shows(alloc: Global, id: &str, metadata: &[u8], v: i64, text: &str) -> bool {
    match TemporalMetadata::unzoned(id, Some(metadata), v) {
        Ok(value) => match format!(in alloc; "{value}") {
            Ok(shown) => shown.as_str() == text,
            Err(_) => false,
        },
        Err(_) => false,
    }
}

/// The number of the refusal of a number under this id and metadata, or 0.
fn refusal(id: &str, metadata: Option<&[u8]>, v: i64) -> u8 {
    match TemporalMetadata::unzoned(id, metadata, v) {
        Ok(_) => 0,
        Err(error) => error.number(),
    }
}

#[test]
fn times_end_at_midnight(rt: HostRuntime) {
    let last = "23:59:59.999999999";
    assert!(rt; shows(rt.alloc(), TIME_ID, &[0], 86_399_999_999_999, last));
    assert!(rt; shows(rt.alloc(), TIME_ID, &[1], 86_399_999_999, "23:59:59.999999"));
    assert!(rt; shows(rt.alloc(), TIME_ID, &[2], 86_399_999, "23:59:59.999"));
    assert!(rt; shows(rt.alloc(), TIME_ID, &[3], 86_399, "23:59:59"));
    assert!(rt; shows(rt.alloc(), TIME_ID, &[3], 205, "00:03:25"));
    assert!(rt; shows(rt.alloc(), TIME_ID, &[0], 0, "00:00:00"));
    assert_eq!(rt; refusal(TIME_ID, Some(&[0]), 86_400_000_000_000), 9);
    assert_eq!(rt; refusal(TIME_ID, Some(&[1]), 86_400_000_000), 9);
    assert_eq!(rt; refusal(TIME_ID, Some(&[2]), 86_400_000), 9);
    assert_eq!(rt; refusal(TIME_ID, Some(&[3]), 86_400), 9);
    assert_eq!(rt; refusal(TIME_ID, Some(&[0]), -1), 9);
    assert_eq!(rt; refusal(TIME_ID, Some(&[3]), i64::MAX), 9);
    assert_eq!(rt; refusal(TIME_ID, Some(&[4]), 0), 7);
}

#[test]
fn dates_end_with_the_years(rt: HostRuntime) {
    assert!(rt; shows(rt.alloc(), DATE_ID, &[4], 25, "1970-01-26"));
    assert!(rt; shows(rt.alloc(), DATE_ID, &[4], 365, "1971-01-01"));
    assert!(rt; shows(rt.alloc(), DATE_ID, &[4], -1, "1969-12-31"));
    assert!(rt; shows(rt.alloc(), DATE_ID, &[4], 2_932_896, "9999-12-31"));
    assert!(rt; shows(rt.alloc(), DATE_ID, &[4], -4_371_587, "-009999-01-01"));
    assert_eq!(rt; refusal(DATE_ID, Some(&[4]), 2_932_897), 9);
    assert_eq!(rt; refusal(DATE_ID, Some(&[4]), -4_371_588), 9);
    assert_eq!(rt; refusal(DATE_ID, Some(&[4]), i64::MIN), 9);
    assert!(rt; shows(rt.alloc(), DATE_ID, &[2], -1, "1970-01-01"));
    assert!(rt; shows(rt.alloc(), DATE_ID, &[2], 86_399_999, "1970-01-01"));
    assert!(rt; shows(rt.alloc(), DATE_ID, &[2], -86_400_000, "1969-12-31"));
    assert!(rt; shows(rt.alloc(), DATE_ID, &[2], 253_402_300_799_999, "9999-12-31"));
    assert_eq!(rt; refusal(DATE_ID, Some(&[2]), 253_402_300_800_000), 9);
    assert_eq!(rt; refusal(DATE_ID, Some(&[3]), 0), 7);
    assert_eq!(rt; refusal(DATE_ID, Some(&[0]), 0), 7);
    assert_eq!(rt; refusal(DATE_ID, Some(&[1]), 0), 7);
    assert_eq!(rt; refusal(DATE_ID, Some(&[3]), i64::MAX), 7);
}

#[test]
fn timestamps_in_no_zone(rt: HostRuntime) {
    let before = "1969-12-31T23:59:59.999999999";
    assert!(rt; shows(rt.alloc(), TIMESTAMP_ID, &[0, 0, 0], -1, before));
    assert!(rt;
        shows(
            rt.alloc(),
            TIMESTAMP_ID,
            &[1, 0, 0],
            -1,
            "1969-12-31T23:59:59.999999"
        )
    );
    assert!(rt;
        shows(
            rt.alloc(),
            TIMESTAMP_ID,
            &[2, 0, 0],
            -1,
            "1969-12-31T23:59:59.999"
        )
    );
    assert!(rt;
        shows(
            rt.alloc(),
            TIMESTAMP_ID,
            &[3, 0, 0],
            -1,
            "1969-12-31T23:59:59"
        )
    );
    let last = "9999-12-31T23:59:59";
    assert!(rt; shows(rt.alloc(), TIMESTAMP_ID, &[3, 0, 0], 253_402_300_799, last));
    assert!(rt;
        shows(
            rt.alloc(),
            TIMESTAMP_ID,
            &[1, 0, 0],
            253_402_300_799_999_999,
            "9999-12-31T23:59:59.999999"
        )
    );
    let first = "-009999-01-01T00:00:00";
    assert!(rt;
        shows(
            rt.alloc(),
            TIMESTAMP_ID,
            &[3, 0, 0],
            -377_705_116_800,
            first
        )
    );
    assert_eq!(rt; refusal(TIMESTAMP_ID, Some(&[3, 0, 0]), 253_402_300_800), 9);
    assert_eq!(rt;
        refusal(TIMESTAMP_ID, Some(&[3, 0, 0]), -377_705_116_801),
        9
    );
    assert_eq!(rt; refusal(TIMESTAMP_ID, Some(&[4, 0, 0]), 0), 7);
}

#[test]
fn unzoned_refuses_as_reading_does(rt: HostRuntime) {
    assert_eq!(rt; refusal(DATE_ID, None, 0), 1);
    assert_eq!(rt; refusal("x", Some(&[4]), 0), 2);
    assert_eq!(rt; refusal(TIMESTAMP_ID, Some(&[]), 0), 3);
    assert_eq!(rt; refusal(TIMESTAMP_ID, Some(&[5]), 0), 4);
    assert_eq!(rt; refusal(TIMESTAMP_ID, Some(&[3, 1]), 0), 3);
    assert_eq!(rt; refusal(TIMESTAMP_ID, Some(&[3, 1, 0, 255]), 0), 5);
    assert_eq!(rt; refusal(TIMESTAMP_ID, Some(&[3, 1, 0, 90]), 0), 8);
    assert_eq!(rt; refusal(TIMESTAMP_ID, Some(&[4, 1, 0, 90]), 0), 8);
    assert_eq!(rt; refusal(TIMESTAMP_ID, Some(&[3, 0, 0, 90]), 0), 0);
}
