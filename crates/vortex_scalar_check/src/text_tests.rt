//! Sizes, defaults, numbers with the same bits, and texts of scalars and of values.

use std::alloc::Global;
use std::fmt;
use std::rc::Rc;
use std::test::*;
use vortex_names::{DTypeError, DecimalDType, ExtID, Nullability};
use vortex_scalar::{Scalar, ScalarError, ScalarValue};
use vortex_types::{DType, Element, ExtDType};
use vortex_value::{DecimalValue, PType, PValue};

const NOT: Nullability = Nullability::NonNullable;

const MAY: Nullability = Nullability::Nullable;

fn one_and_text(alloc: Global, text: &str) -> Result<ScalarValue, ScalarError> {
    let mut values = Vec::new(alloc);
    values.push(ScalarValue::from_pvalue(PValue::I32(1)))?;
    values.push(ScalarValue::from_text(alloc, text)?)?;
    ScalarValue::from_list(alloc, values)
}

fn struct_type(alloc: Global) -> Result<DType, DTypeError> {
    let fields = [
        ("a", DType::from_ptype(PType::I32)),
        ("b", DType::Utf8(NOT)),
    ];
    DType::struct_(alloc, &fields, MAY)
}

fn pair_of_bytes(alloc: Global) -> Result<DType, DTypeError> {
    let element = Element::new(alloc, DType::bytes())?;
    Ok(DType::FixedSizeList(element, 2, NOT))
}

fn ext_type(alloc: Global) -> Result<DType, DTypeError> {
    let id = ExtID::from_text(alloc, "id")?;
    let ext = ExtDType::try_new(alloc, id, DType::Bool(MAY), None)?;
    Ok(DType::Extension(Rc::new(alloc, ext)?))
}

/// The scalar of what is made.
fn made(
    dtype: Result<DType, DTypeError>,
    value: Result<ScalarValue, ScalarError>,
) -> Option<Scalar> {
    match (dtype, value) {
        (Ok(dtype), Ok(value)) => Scalar::try_new(dtype, value).ok(),
        _ => None,
    }
}

/// Whether it is printed so.
fn shows<T: fmt::Display>(alloc: Global, shown: &T, want: &str) -> bool {
    match format!(in alloc; "{shown}") {
        Ok(text) => text.as_str() == want,
        Err(_) => false,
    }
}

/// Whether the scalar is there, takes so many bytes and is printed so.
fn is_seen(alloc: Global, scalar: Option<Scalar>, size: usize, want: &str) -> bool {
    match &scalar {
        Some(scalar) => scalar.nbytes() == Some(size) && shows(alloc, scalar, want),
        None => false,
    }
}

#[test]
fn scalars_are_sized_and_printed(rt: HostRuntime) {
    let alloc = rt.alloc();
    let both = made(struct_type(alloc), one_and_text(alloc, "ab"));
    assert!(rt; is_seen(alloc, both, 6, "{a: 1i32, b: \"ab\"}"));
    let null = made(struct_type(alloc), Ok(ScalarValue::null()));
    assert!(rt; is_seen(alloc, null, 0, "null"));
    let ten = made(
        Ok(DType::Binary(NOT)),
        ScalarValue::from_bytes(alloc, &[10]),
    );
    assert!(rt; is_seen(alloc, ten, 1, "\"a\""));
    let null = made(ext_type(alloc), Ok(ScalarValue::null()));
    assert!(rt; is_seen(alloc, null, 1, "id(null)"));
    let dtype = DecimalDType::new(10, 2);
    let five = Scalar::decimal(DecimalValue::I32(5), dtype, NOT);
    let want = "decimal32(5, precision=10, scale=2)";
    assert!(rt; is_seen(alloc, Some(five), 16, want));
}

/// Whether the default of a type is printed so.
fn is_default(alloc: Global, dtype: Result<DType, DTypeError>, size: usize, want: &str) -> bool {
    match dtype {
        Ok(dtype) => is_seen(alloc, Scalar::default_value(alloc, dtype).ok(), size, want),
        Err(_) => false,
    }
}

#[test]
fn defaults_are_made(rt: HostRuntime) {
    let alloc = rt.alloc();
    assert!(rt; is_default(alloc, pair_of_bytes(alloc), 2, "fixed_size<2>[0u8, 0u8]"));
    assert!(rt; is_default(alloc, struct_type(alloc), 0, "null"));
    assert!(rt; is_default(alloc, Ok(DType::Utf8(NOT)), 0, "\"\""));
}

#[test]
fn numbers_keep_their_bits(rt: HostRuntime) {
    let alloc = rt.alloc();
    let below = Scalar::primitive(-1i8, NOT);
    let cast = below.reinterpret_cast(alloc, PType::U8).ok();
    assert!(rt; is_seen(alloc, cast, 1, "255u8"));
}

#[test]
fn views_are_printed(rt: HostRuntime) {
    let alloc = rt.alloc();
    assert!(rt; shows(alloc, &Scalar::bool(true, NOT).as_bool(), "true"));
    assert!(rt; shows(alloc, &Scalar::primitive(5i32, NOT).as_primitive(), "5i32"));
}

/// Whether the value is there and is printed so.
fn value_shows(alloc: Global, value: Result<ScalarValue, ScalarError>, want: &str) -> bool {
    match &value {
        Ok(value) => shows(alloc, value, want),
        Err(_) => false,
    }
}

#[test]
fn values_are_printed(rt: HostRuntime) {
    let alloc = rt.alloc();
    let five = ScalarValue::from_decimal(DecimalValue::I8(5));
    assert!(rt; value_shows(alloc, Ok(five), "decimal8(5)"));
    assert!(rt; value_shows(alloc, one_and_text(alloc, "ab"), "[1i32,\"ab\"]"));
    let eleven = ScalarValue::from_bytes(alloc, b"abcdefghijk");
    assert!(rt; value_shows(alloc, eleven, "6162636465..6768696a6b"));
    let long = ScalarValue::from_text(alloc, "äbcdefghijö");
    assert!(rt; value_shows(alloc, long, "\"äbcde..ghijö\""));
    let ten = ScalarValue::from_text(alloc, "äbcdefghiö");
    assert!(rt; value_shows(alloc, ten, "\"äbcdefghiö\""));
}
