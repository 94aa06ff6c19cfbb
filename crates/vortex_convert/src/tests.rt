//! Conversions both ways, null, another type, and a number that is no length.

use crate::*;
use std::alloc::Global;
use std::test::*;
use vortex_buffer::{BufferError, BufferString, ByteBuffer};
use vortex_names::{DTypeError, FieldNames, Nullability};
use vortex_scalar::{Scalar, ScalarValue};
use vortex_types::{DType, FieldDType, StructFields};
use vortex_value::{DecimalValue, PType};

const MAY: Nullability = Nullability::Nullable;

fn null_of(ptype: PType) -> Scalar {
    Scalar::null(DType::Primitive(ptype, MAY))
}

#[test]
fn numbers_are_read_by_kind(rt: HostRuntime) {
    let below = from_native(-1i8);
    let null = null_of(PType::I8);
    assert!(rt; to_i8(&below) == Ok(-1));
    assert!(rt; to_i16(&below) == Err(ScalarError::WrongType));
    assert!(rt; to_usize(&below) == Err(ScalarError::OutOfRange));
    assert!(rt; to_usize_opt(&from_native(7u16)) == Ok(Some(7)));
    assert!(rt; to_u64(&from_usize(9)) == Ok(9));
    assert!(rt; to_i8(&null) == Err(ScalarError::IsNull));
    assert!(rt; to_i8_opt(&null) == Ok(None));
    assert!(rt; to_usize(&null) == Err(ScalarError::IsNull));
    assert!(rt; to_u8_opt(&null) == Err(ScalarError::WrongType));
}

#[test]
fn other_values_are_read(rt: HostRuntime) {
    let number = from_native(5u32);
    assert!(rt; to_bool(&from_bool(true)) == Ok(true));
    assert!(rt; to_bool_opt(&Scalar::null(DType::Bool(MAY))) == Ok(None));
    assert!(rt; to_bool(&number) == Err(ScalarError::WrongType));
    assert!(rt;
        to_decimal(&from_decimal_value(DecimalValue::I16(-300))) == Ok(DecimalValue::I16(-300))
    );
    assert!(rt; to_decimal_opt(&number) == Err(ScalarError::WrongType));
}

/// The precision of the decimal, and how many digits stand behind its point.
fn decimal_of(value: DecimalValue) -> Option<(u8, i8)> {
    match from_decimal_value(value).dtype() {
        DType::Decimal(decimal, _) => Some((decimal.precision(), decimal.scale())),
        _ => None,
    }
}

#[test]
fn decimals_have_the_precision_of_their_width(rt: HostRuntime) {
    assert!(rt; decimal_of(DecimalValue::I8(1)) == Some((3, 0)));
    assert!(rt; decimal_of(DecimalValue::I16(1)) == Some((5, 0)));
    assert!(rt; decimal_of(DecimalValue::I32(1)) == Some((10, 0)));
    assert!(rt; decimal_of(DecimalValue::I64(1)) == Some((19, 0)));
    assert!(rt; decimal_of(DecimalValue::I128(1)) == Some((38, 0)));
}

/// Whether the text of a scalar is this one, copied and shared.
fn has_text(alloc: Global, scalar: Result<Scalar, ScalarError>, want: &str) -> bool {
    let scalar = match scalar {
        Ok(scalar) => scalar,
        Err(_) => return false,
    };
    match (to_text(alloc, &scalar), to_buffer_string(alloc, &scalar)) {
        (Ok(copied), Ok(shared)) => copied.as_str() == want && shared.as_str() == want,
        _ => false,
    }
}

/// Whether the bytes of a scalar are these.
fn has_bytes(alloc: Global, scalar: Result<Scalar, ScalarError>, want: &[u8]) -> bool {
    match scalar {
        Ok(scalar) => match to_bytes(alloc, &scalar) {
            Ok(bytes) => bytes.as_slice() == want,
            Err(_) => false,
        },
        Err(_) => false,
    }
}

/// Why the scalar is no length.
fn no_length(scalar: Result<Scalar, ScalarError>) -> Option<ScalarError> {
    match scalar {
        Ok(scalar) => to_usize(&scalar).err(),
        Err(_) => None,
    }
}

#[test]
fn texts_and_bytes_are_read(rt: HostRuntime) {
    let alloc = rt.alloc();
    assert!(rt; has_text(alloc, from_text(alloc, "aß"), "aß"));
    assert!(rt; !has_text(alloc, from_bytes(alloc, b"a"), "a"));
    assert!(rt; has_bytes(alloc, from_bytes(alloc, &[0, 255]), &[0, 255]));
    assert!(rt; !has_bytes(alloc, from_text(alloc, "a"), b"a"));
    assert!(rt; no_length(from_text(alloc, "a")) == Some(ScalarError::WrongType));
}

/// A struct with one field, which holds null alone.
fn struct_of_null(alloc: Global) -> Result<DType, DTypeError> {
    let names = FieldNames::from_texts(alloc, &["a"])?;
    let dtypes = vec![in alloc; FieldDType::from_dtype(DType::Null)]?;
    Ok(DType::Struct(StructFields::from_fields(alloc, names, dtypes)?, MAY))
}

/// What a scalar of this type and null inside a list is as nothing.
fn unit_of(alloc: Global, dtype: Result<DType, DTypeError>) -> Option<Result<(), ScalarError>> {
    let values = vec![in alloc; ScalarValue::null()].ok()?;
    let value = ScalarValue::from_list(alloc, values).ok()?;
    let scalar = Scalar::try_new(dtype.ok()?, value).ok()?;
    Some(to_unit(&scalar))
}

#[test]
fn null_is_nothing(rt: HostRuntime) {
    let alloc = rt.alloc();
    assert!(rt; to_unit(&null_of(PType::I32)) == Ok(()));
    assert!(rt; to_unit(&from_native(0i32)) == Err(ScalarError::WrongType));
    assert!(rt; unit_of(alloc, struct_of_null(alloc)) == Some(Err(ScalarError::WrongType)));
}

/// The value of the scalar of a value.
fn there_and_back<T: NativeScalar>(alloc: Global, value: T) -> Result<T, ScalarError> {
    T::from_scalar(alloc, &value.into_scalar(alloc)?)
}

/// Two numbers, or one and null.
fn two(alloc: Global, second: Option<u8>) -> Result<Vec<Option<u8>>, ScalarError> {
    Ok(vec![in alloc; Some(1), second]?)
}

/// Whether one and this are what comes back.
fn come_back(alloc: Global, second: Option<u8>) -> bool {
    match two(alloc, second) {
        Ok(values) => match there_and_back(alloc, values) {
            Ok(values) => values.as_slice() == [Some(1), second].as_slice(),
            Err(_) => false,
        },
        Err(_) => false,
    }
}

/// Whether a list of one and this is read as these numbers, or why not.
fn numbers_of(alloc: Global, second: Option<u8>, want: &[u8]) -> Result<bool, ScalarError> {
    let scalar = from_vec(alloc, two(alloc, second)?)?;
    let numbers = to_list::<u8>(alloc, &scalar)?;
    Ok(numbers.as_slice() == want)
}

/// How many elements the list of a list of one and two has, and the second of them.
fn elements_of(alloc: Global) -> Result<(usize, Option<Option<u8>>), ScalarError> {
    let scalar = from_vec(alloc, vec![in alloc; 1u8, 2]?)?;
    let numbers = to_list_opt::<Option<u8>>(alloc, &scalar)?;
    match numbers {
        Some(numbers) => Ok((numbers.len(), numbers.get(1).copied())),
        None => Ok((0, None)),
    }
}

#[test]
fn lists_are_read(rt: HostRuntime) {
    let alloc = rt.alloc();
    assert!(rt; come_back(alloc, Some(2)));
    assert!(rt; come_back(alloc, None));
    assert!(rt; numbers_of(alloc, Some(2), &[1, 2]) == Ok(true));
    assert!(rt; numbers_of(alloc, None, &[1]) == Err(ScalarError::IsNull));
    assert!(rt; elements_of(alloc) == Ok((2, Some(Some(2)))));
}

#[test]
fn values_come_back(rt: HostRuntime) {
    let alloc = rt.alloc();
    assert!(rt; there_and_back(alloc, 1u8) == Ok(1));
    assert!(rt; there_and_back(alloc, 2u16) == Ok(2));
    assert!(rt; there_and_back(alloc, 3u32) == Ok(3));
    assert!(rt; there_and_back(alloc, 4u64) == Ok(4));
    assert!(rt; there_and_back(alloc, -1i8) == Ok(-1));
    assert!(rt; there_and_back(alloc, -2i16) == Ok(-2));
    assert!(rt; there_and_back(alloc, -3i32) == Ok(-3));
    assert!(rt; there_and_back(alloc, -4i64) == Ok(-4));
    assert!(rt; there_and_back(alloc, false) == Ok(false));
    assert!(rt; there_and_back(alloc, Some(true)) == Ok(Some(true)));
    assert!(rt; there_and_back::<Option<u8>>(alloc, None) == Ok(None));
}

/// Whether a copied text comes back.
fn copied_comes_back(alloc: Global, text: &str) -> Result<bool, ScalarError> {
    let back = there_and_back(alloc, String::from_str(alloc, text)?)?;
    Ok(back.as_str() == text)
}

/// Whether a shared text comes back.
fn shared_comes_back(
    alloc: Global,
    made: Result<BufferString, BufferError>,
    text: &str,
) -> Option<bool> {
    match there_and_back(alloc, made.ok()?) {
        Ok(back) => Some(back.as_str() == text),
        Err(_) => None,
    }
}

/// Whether shared bytes come back.
fn bytes_come_back(
    alloc: Global,
    made: Result<ByteBuffer, BufferError>,
    bytes: &[u8],
) -> Option<bool> {
    match there_and_back(alloc, made.ok()?) {
        Ok(back) => Some(back.as_slice() == bytes),
        Err(_) => None,
    }
}

#[test]
fn owned_texts_come_back(rt: HostRuntime) {
    let alloc = rt.alloc();
    let text = BufferString::from_text(alloc, "aß");
    let bytes = ByteBuffer::from_slice(alloc, &[0, 255]);
    assert!(rt; copied_comes_back(alloc, "aß") == Ok(true));
    assert!(rt; shared_comes_back(alloc, text, "aß") == Some(true));
    assert!(rt; bytes_come_back(alloc, bytes, &[0, 255]) == Some(true));
}

/// The truth value in the scalar that the trait makes.
fn truth_by_trait(alloc: Global, value: bool) -> Option<bool> {
    to_bool(&value.into_scalar(alloc).ok()?).ok()
}

/// The number in the scalar that the trait makes of one that may be null.
fn number_by_trait(alloc: Global, value: Option<u8>) -> Option<Option<u8>> {
    to_u8_opt(&value.into_scalar(alloc).ok()?).ok()
}

#[test]
fn the_trait_keeps_values(rt: HostRuntime) {
    let alloc = rt.alloc();
    assert!(rt; truth_by_trait(alloc, true) == Some(true));
    assert!(rt; number_by_trait(alloc, Some(5)) == Some(Some(5)));
    assert!(rt; number_by_trait(alloc, None) == Some(None));
    assert!(rt; Option::<u8>::from_scalar(alloc, &from_native(5u8)) == Ok(Some(5)));
    assert!(rt; bool::from_scalar(alloc, &from_bool(true)) == Ok(true));
}
