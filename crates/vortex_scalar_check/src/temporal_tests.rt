//! Texts of scalars of times, dates and timestamps, worked out by hand.

use std::alloc::Global;
use std::rc::Rc;
use std::test::*;
use vortex_names::{DecimalDType, ExtID, ExtMetadata, Nullability};
use vortex_scalar::{Scalar, ScalarValue};
use vortex_types::{DType, ExtDType};
use vortex_value::{DecimalValue, PType, PValue};

const MAY: Nullability = Nullability::Nullable;

const DATE: &str = "vortex.date";

const TIME: &str = "vortex.time";

const STAMP: &str = "vortex.timestamp";

/// The extension type of this id and metadata over a storage.
fn over(alloc: Global, id: &str, metadata: Option<&[u8]>, storage: DType) -> Option<DType> {
    let id = ExtID::from_text(alloc, id).ok()?;
    let metadata = match metadata {
        Some(bytes) => Some(ExtMetadata::from_slice(alloc, bytes).ok()?),
        None => None,
    };
    let ext = ExtDType::try_new(alloc, id, storage, metadata).ok()?;
    Some(DType::Extension(Rc::new(alloc, ext).ok()?))
}

/// Whether the scalar of a type and a value prints so.
fn is_printed(alloc: Global, dtype: Option<DType>, value: ScalarValue, want: &str) -> bool {
    match dtype {
        Some(dtype) => match Scalar::try_new(dtype, value) {
            Ok(scalar) => is_text(alloc, &scalar, want),
            Err(_) => false,
        },
        None => false,
    }
}

fn is_text(alloc: Global, scalar: &Scalar, want: &str) -> bool {
    match format!(in alloc; "{scalar}") {
        Ok(text) => text.as_str() == want,
        Err(_) => false,
    }
}

/// Whether a number of 64 bits under this id and metadata prints so.
fn shows(alloc: Global, id: &str, metadata: &[u8], number: i64, want: &str) -> bool {
    let dtype = over(alloc, id, Some(metadata), DType::Primitive(PType::I64, MAY));
    is_printed(
        alloc,
        dtype,
        ScalarValue::from_pvalue(PValue::I64(number)),
        want,
    )
}

/// Whether null under this id and metadata prints so.
fn null_shows(alloc: Global, id: &str, metadata: Option<&[u8]>, want: &str) -> bool {
    let dtype = over(alloc, id, metadata, DType::Primitive(PType::I64, MAY));
    is_printed(alloc, dtype, ScalarValue::null(), want)
}

#[test]
fn dates_are_printed(rt: HostRuntime) {
    assert!(rt; shows(rt.alloc(), DATE, &[4], 365, "1971-01-01"));
    assert!(rt; shows(rt.alloc(), DATE, &[4, 9], -1, "1969-12-31"));
    assert!(rt; shows(rt.alloc(), DATE, &[4], 2_932_896, "9999-12-31"));
    assert!(rt; shows(rt.alloc(), DATE, &[4], 2_932_897, "vortex.date(2932897i64)"));
    assert!(rt; shows(rt.alloc(), DATE, &[4], -4_371_587, "-009999-01-01"));
    assert!(rt;
        shows(
            rt.alloc(),
            DATE,
            &[4],
            -4_371_588,
            "vortex.date(-4371588i64)"
        )
    );
    assert!(rt; shows(rt.alloc(), DATE, &[2], -1, "1970-01-01"));
    assert!(rt; shows(rt.alloc(), DATE, &[2], -86_400_000, "1969-12-31"));
    assert!(rt; shows(rt.alloc(), DATE, &[3], 0, "vortex.date(0i64)"));
    assert!(rt; shows(rt.alloc(), DATE, &[5], 0, "vortex.date(0i64)"));
    assert!(rt; shows(rt.alloc(), DATE, &[], 0, "vortex.date(0i64)"));
}

#[test]
fn times_are_printed(rt: HostRuntime) {
    assert!(rt; shows(rt.alloc(), TIME, &[3], 205, "00:03:25"));
    assert!(rt; shows(rt.alloc(), TIME, &[3], 86_399, "23:59:59"));
    assert!(rt; shows(rt.alloc(), TIME, &[3], 86_400, "vortex.time(86400i64)"));
    assert!(rt; shows(rt.alloc(), TIME, &[3], -1, "vortex.time(-1i64)"));
    assert!(rt; shows(rt.alloc(), TIME, &[4], 0, "vortex.time(0i64)"));
    let last = "23:59:59.999999999";
    assert!(rt; shows(rt.alloc(), TIME, &[0], 86_399_999_999_999, last));
}

#[test]
fn timestamps_are_printed(rt: HostRuntime) {
    assert!(rt; shows(rt.alloc(), STAMP, &[3, 0, 0], 0, "1970-01-01T00:00:00"));
    assert!(rt; shows(rt.alloc(), STAMP, &[2, 0, 0], -1, "1969-12-31T23:59:59.999"));
    let zone = &[3, 3, 0, 85, 84, 67];
    assert!(rt; shows(rt.alloc(), STAMP, zone, 0, "vortex.timestamp(0i64)"));
    assert!(rt; shows(rt.alloc(), STAMP, &[3], 0, "vortex.timestamp(0i64)"));
    let after = "vortex.timestamp(253402300800i64)";
    assert!(rt; shows(rt.alloc(), STAMP, &[3, 0, 0], 253_402_300_800, after));
    assert!(rt; shows(rt.alloc(), "x", &[4], 365, "x(365i64)"));
}

#[test]
fn nulls_are_printed(rt: HostRuntime) {
    assert!(rt; null_shows(rt.alloc(), DATE, Some(&[4]), "null"));
    assert!(rt; null_shows(rt.alloc(), DATE, Some(&[3]), "null"));
    assert!(rt; null_shows(rt.alloc(), DATE, None, "vortex.date(null)"));
    assert!(rt; null_shows(rt.alloc(), DATE, Some(&[5]), "vortex.date(null)"));
    assert!(rt; null_shows(rt.alloc(), TIME, Some(&[]), "vortex.time(null)"));
    assert!(rt; null_shows(rt.alloc(), STAMP, Some(&[3, 3, 0, 85, 84, 67]), "null"));
    let stored = "vortex.timestamp(null)";
    assert!(rt; null_shows(rt.alloc(), STAMP, Some(&[3, 3, 0, 85, 84]), stored));
    assert!(rt; null_shows(rt.alloc(), STAMP, Some(&[3, 1, 0, 255]), stored));
    assert!(rt; null_shows(rt.alloc(), "x", Some(&[4]), "x(null)"));
}

/// Dates in days.
fn date_type(alloc: Global) -> Option<DType> {
    over(alloc, DATE, Some(&[4]), DType::Primitive(PType::I64, MAY))
}

/// Whether a value under dates in days over another storage prints so.
fn date_shows(alloc: Global, storage: DType, value: ScalarValue, want: &str) -> bool {
    is_printed(alloc, over(alloc, DATE, Some(&[4]), storage), value, want)
}

#[test]
fn storages_are_whole_numbers(rt: HostRuntime) {
    let small = ScalarValue::from_pvalue(PValue::U16(365));
    assert!(rt;
        date_shows(
            rt.alloc(),
            DType::Primitive(PType::I32, MAY),
            small,
            "1971-01-01"
        )
    );
    let wide = ScalarValue::from_pvalue(PValue::U64(9_223_372_036_854_775_808));
    let want = "vortex.date(9223372036854775808u64)";
    assert!(rt; date_shows(rt.alloc(), DType::Primitive(PType::U64, MAY), wide, want));
    let truth = ScalarValue::from_bool(true);
    assert!(rt; date_shows(rt.alloc(), DType::Bool(MAY), truth, "vortex.date(true)"));
    assert!(rt; date_shows(rt.alloc(), DType::Bool(MAY), ScalarValue::null(), "null"));
    assert!(rt; date_shows(rt.alloc(), DType::Null, ScalarValue::null(), "null"));
    let five = ScalarValue::from_decimal(DecimalValue::I8(5));
    let decimal = DType::Decimal(DecimalDType::new(3, 0), MAY);
    let want = "vortex.date(decimal8(5, precision=3, scale=0))";
    assert!(rt; date_shows(rt.alloc(), decimal, five, want));
    assert!(rt; date_shows(rt.alloc(), DType::Utf8(MAY), ScalarValue::null(), "null"));
}

/// The list of a date, null and a date that there is not.
fn three(alloc: Global) -> Option<ScalarValue> {
    let mut values = Vec::new(alloc);
    values
        .push(ScalarValue::from_pvalue(PValue::I64(365)))
        .ok()?;
    values.push(ScalarValue::null()).ok()?;
    values
        .push(ScalarValue::from_pvalue(PValue::I64(2_932_897)))
        .ok()?;
    ScalarValue::from_list(alloc, values).ok()
}

/// Whether it prints so as a list of dates in days.
fn list_shows(alloc: Global, want: &str) -> bool {
    let dates = match date_type(alloc) {
        Some(dates) => DType::list(alloc, dates, MAY).ok(),
        None => None,
    };
    match three(alloc) {
        Some(value) => is_printed(alloc, dates, value, want),
        None => false,
    }
}

/// Whether it prints so as a struct of three such dates.
fn struct_shows(alloc: Global, want: &str) -> bool {
    match (three(alloc), three_dates(alloc)) {
        (Some(value), Some(dtype)) => is_printed(alloc, Some(dtype), value, want),
        _ => false,
    }
}

fn three_dates(alloc: Global) -> Option<DType> {
    let fields = [
        ("a", date_type(alloc)?),
        ("b", date_type(alloc)?),
        ("c", date_type(alloc)?),
    ];
    DType::struct_(alloc, &fields, MAY).ok()
}

#[test]
fn inner_dates_are_printed(rt: HostRuntime) {
    let list = "[1971-01-01, null, vortex.date(2932897i64)]";
    assert!(rt; list_shows(rt.alloc(), list));
    let fields = "{a: 1971-01-01, b: null, c: vortex.date(2932897i64)}";
    assert!(rt; struct_shows(rt.alloc(), fields));
}
