//! Scalars as messages: bytes written by hand, and what is refused.

use std::alloc::Global;
use std::rc::Rc;
use std::test::*;
use vortex_names::{DTypeError, DecimalDType, ExtID, FieldNames, Nullability};
use vortex_scalar::{Scalar, ScalarError, ScalarValue};
use vortex_types::{DType, ExtDType, FieldDType, StructFields};
use vortex_value::{DecimalValue, PType, PValue};

const NOT: Nullability = Nullability::NonNullable;

const MAY: Nullability = Nullability::Nullable;

fn int(number: i64) -> ScalarValue {
    ScalarValue::from_pvalue(PValue::I64(number))
}

/// The number of the error of reading, 0 where a scalar is read.
fn fault(alloc: Global, bytes: &[u8]) -> u8 {
    match Scalar::from_proto(alloc, bytes) {
        Ok(_) => 0,
        Err(error) => error.number(),
    }
}

/// Whether this scalar is read, of the same type.
fn is_read(alloc: Global, scalar: &Scalar, bytes: &[u8]) -> bool {
    match Scalar::from_proto(alloc, bytes) {
        Ok(found) => found == *scalar && found.dtype() == scalar.dtype(),
        Err(_) => false,
    }
}

/// Whether the scalar is written as these bytes.
fn is_written(alloc: Global, scalar: &Scalar, bytes: &[u8]) -> bool {
    match scalar.to_proto(alloc) {
        Ok(message) => message.as_slice() == bytes,
        Err(_) => false,
    }
}

/// Whether the scalar of what is made is read from these bytes, and whether it is written as them.
fn stands(
    alloc: Global,
    dtype: Result<DType, DTypeError>,
    value: Result<ScalarValue, ScalarError>,
    bytes: &[u8],
) -> (bool, bool) {
    match (dtype, value) {
        (Ok(dtype), Ok(value)) => match Scalar::try_new(dtype, value) {
            Ok(scalar) => (
                is_read(alloc, &scalar, bytes),
                is_written(alloc, &scalar, bytes),
            ),
            Err(_) => (false, false),
        },
        _ => (false, false),
    }
}

#[test]
fn a_number_is_a_message(rt: HostRuntime) {
    let alloc = rt.alloc();
    let dtype = DType::from_ptype(PType::I32);
    let bytes = [0x0a, 0x04, 0x1a, 0x02, 0x08, 0x06, 0x12, 0x02, 0x18, 0x05];
    assert_eq!(rt; stands(alloc, Ok(dtype), Ok(int(-3)), &bytes), (true, true));
    let dtype = DType::from_ptype(PType::I32);
    let turned = [0x12, 0x02, 0x18, 0x05, 0x0a, 0x04, 0x1a, 0x02, 0x08, 0x06];
    assert_eq!(rt;
        stands(alloc, Ok(dtype), Ok(int(-3)), &turned),
        (true, false)
    );
}

#[test]
fn broken_messages_are_refused(rt: HostRuntime) {
    let alloc = rt.alloc();
    let null = [0x0a, 0x04, 0x1a, 0x02, 0x08, 0x06, 0x12, 0x02, 0x08, 0x00];
    assert_eq!(rt; fault(alloc, &null), 1);
    assert_eq!(rt; fault(alloc, &null[..6]), 10);
    assert_eq!(rt; fault(alloc, &null[6..]), 10);
    assert_eq!(rt; fault(alloc, &null[..9]), 10);
    let twice = [
        0x0a, 0x04, 0x1a, 0x02, 0x08, 0x06, 0x12, 0x02, 0x18, 0x05, 0x12, 0x02, 0x18, 0x05,
    ];
    assert_eq!(rt; fault(alloc, &twice), 10);
    let two_types = [
        0x0a, 0x04, 0x1a, 0x02, 0x08, 0x06, 0x0a, 0x04, 0x1a, 0x02, 0x08, 0x06, 0x12, 0x02, 0x18,
        0x05,
    ];
    assert_eq!(rt; fault(alloc, &two_types), 10);
    let no_kind = [0x0a, 0x04, 0x1a, 0x02, 0x08, 0x08, 0x12, 0x02, 0x08, 0x00];
    assert_eq!(rt; fault(alloc, &no_kind), 10);
    let no_value = [0x0a, 0x04, 0x1a, 0x02, 0x08, 0x06, 0x12, 0x00];
    assert_eq!(rt; fault(alloc, &no_value), 10);
}

fn hundredths() -> DType {
    DType::Decimal(DecimalDType::new(10, 2), NOT)
}

#[test]
fn decimals_are_bytes(rt: HostRuntime) {
    let alloc = rt.alloc();
    let one = [
        0x0a, 0x06, 0x22, 0x04, 0x08, 0x0a, 0x10, 0x02, 0x12, 0x03, 0x42, 0x01, 0xff,
    ];
    let value = ScalarValue::from_decimal(DecimalValue::I8(-1));
    assert_eq!(rt;
        stands(alloc, Ok(hundredths()), Ok(value), &one),
        (true, true)
    );
    let three = [
        0x0a, 0x06, 0x22, 0x04, 0x08, 0x0a, 0x10, 0x02, 0x12, 0x05, 0x42, 0x03, 0xff, 0xff, 0xff,
    ];
    assert_eq!(rt; fault(alloc, &three), 1);
    let sixteen = [
        0x0a, 0x06, 0x22, 0x04, 0x08, 0x0a, 0x10, 0x02, 0x12, 0x12, 0x42, 0x10, 0xff, 0xff, 0xff,
        0xff, 0xff, 0xff, 0xff, 0xff, 0xff, 0xff, 0xff, 0xff, 0xff, 0xff, 0xff, 0xff,
    ];
    let value = ScalarValue::from_decimal(DecimalValue::I8(-1));
    assert_eq!(rt;
        stands(alloc, Ok(hundredths()), Ok(value), &sixteen),
        (true, false)
    );
}

#[test]
fn texts_may_stand_as_bytes(rt: HostRuntime) {
    let alloc = rt.alloc();
    let text = [0x0a, 0x02, 0x2a, 0x00, 0x12, 0x03, 0x3a, 0x01, 0x61];
    let value = ScalarValue::from_text(alloc, "a");
    assert_eq!(rt;
        stands(alloc, Ok(DType::Utf8(NOT)), value, &text),
        (true, true)
    );
    let bytes = [0x0a, 0x02, 0x2a, 0x00, 0x12, 0x03, 0x42, 0x01, 0x61];
    let value = ScalarValue::from_text(alloc, "a");
    assert_eq!(rt;
        stands(alloc, Ok(DType::Utf8(NOT)), value, &bytes),
        (true, false)
    );
    let broken = [0x0a, 0x02, 0x2a, 0x00, 0x12, 0x03, 0x42, 0x01, 0xff];
    assert_eq!(rt; fault(alloc, &broken), 1);
}

/// A nullable extension of bytes.
fn extension(alloc: Global) -> Result<DType, DTypeError> {
    let id = ExtID::from_text(alloc, "x")?;
    let ext = ExtDType::try_new(alloc, id, DType::Binary(MAY), None)?;
    Ok(DType::Extension(Rc::new(alloc, ext)?))
}

/// A struct of a 16-bit number and a text.
fn two_fields(alloc: Global) -> Result<DType, DTypeError> {
    let names = FieldNames::from_texts(alloc, &["a", "b"])?;
    let dtypes = vec![in alloc;
        FieldDType::from_ptype(PType::I16),
        FieldDType::from_dtype(DType::Utf8(NOT)),
    ]?;
    let fields = StructFields::from_fields(alloc, names, dtypes)?;
    Ok(DType::Struct(fields, NOT))
}

/// One and a text.
fn two_values(alloc: Global) -> Result<ScalarValue, ScalarError> {
    let text = ScalarValue::from_text(alloc, "b")?;
    let values = vec![in alloc; int(1), text]?;
    ScalarValue::from_list(alloc, values)
}

#[test]
fn nested_scalars_are_messages(rt: HostRuntime) {
    let alloc = rt.alloc();
    let null = [
        0x0a, 0x0b, 0x4a, 0x09, 0x0a, 0x01, 0x78, 0x12, 0x04, 0x32, 0x02, 0x08, 0x01, 0x12, 0x02,
        0x08, 0x00,
    ];
    assert_eq!(rt;
        stands(alloc, extension(alloc), Ok(ScalarValue::null()), &null),
        (true, true)
    );
    let fields = [
        0x0a, 0x12, 0x3a, 0x10, 0x0a, 0x01, 0x61, 0x0a, 0x01, 0x62, 0x12, 0x04, 0x1a, 0x02, 0x08,
        0x05, 0x12, 0x02, 0x2a, 0x00, 0x12, 0x0b, 0x4a, 0x09, 0x0a, 0x02, 0x18, 0x02, 0x0a, 0x03,
        0x3a, 0x01, 0x62,
    ];
    assert_eq!(rt;
        stands(alloc, two_fields(alloc), two_values(alloc), &fields),
        (true, true)
    );
}

/// Null, of a type that has so many levels, written: the number of the error, or 0.
fn nested_fault(alloc: Global, levels: usize) -> Result<u8, DTypeError> {
    let mut dtype = DType::Null;
    for _ in 1..levels {
        dtype = DType::list(alloc, dtype, MAY)?;
    }
    Ok(write_fault(alloc, dtype))
}

/// The number of the error of writing null, or 0.
fn write_fault(alloc: Global, dtype: DType) -> u8 {
    match Scalar::try_new(dtype, ScalarValue::null()) {
        Ok(scalar) => match scalar.to_proto(alloc) {
            Ok(_) => 0,
            Err(error) => error.number(),
        },
        Err(error) => error.number(),
    }
}

#[test]
fn deep_types_are_not_written(rt: HostRuntime) {
    let alloc = rt.alloc();
    assert_eq!(rt; nested_fault(alloc, 64), Ok(0));
    assert_eq!(rt; nested_fault(alloc, 65), Ok(13));
}
