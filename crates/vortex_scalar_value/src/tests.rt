use super::*;
use std::alloc::Global;
use std::test::*;
use vortex_value::{DecimalValue, PValue};
use vortex_wire::put_bytes;

/// Whether the message of the value is these bytes.
fn writes(alloc: Global, value: &ScalarValue, bytes: &[u8]) -> bool {
    match value.to_protobytes(alloc) {
        Ok(message) => message.as_slice() == bytes,
        Err(_) => false,
    }
}

/// The number of the error of reading, 0 where a value is read.
fn fault(alloc: Global, bytes: &[u8]) -> u8 {
    match ScalarValue::from_protobytes(alloc, bytes) {
        Ok(_) => 0,
        Err(error) => error.number(),
    }
}

/// Whether null is read.
fn is_null(alloc: Global, bytes: &[u8]) -> bool {
    match ScalarValue::from_protobytes(alloc, bytes) {
        Ok(value) => value.is_null(),
        Err(_) => false,
    }
}

/// The number that is read.
fn number(alloc: Global, bytes: &[u8]) -> Option<i128> {
    match ScalarValue::from_protobytes(alloc, bytes) {
        Ok(value) => match value.value_ref() {
            ValueRef::Primitive(number) => Some(number.as_i128()),
            _ => None,
        },
        Err(_) => None,
    }
}

/// How many bytes, characters or values are read, and of which: 1 for bytes, 2 for a text, 3 for a
/// list.
fn count(alloc: Global, bytes: &[u8]) -> (u8, usize) {
    match ScalarValue::from_protobytes(alloc, bytes) {
        Ok(value) => match value.value_ref() {
            ValueRef::Buffer(buffer) => (1, buffer.len()),
            ValueRef::BufferString(text) => (2, text.len()),
            ValueRef::List(values) => (3, values.len()),
            _ => (0, 0),
        },
        Err(_) => (0, 0),
    }
}

/// Whether a list of so many nulls is written as these bytes.
fn list_writes(alloc: Global, nulls: usize, bytes: &[u8]) -> bool {
    let mut values = Vec::new(alloc);
    for _ in 0..nulls {
        if values.push(ScalarValue::null()).is_err() {
            return false;
        }
    }
    match ScalarValue::from_list(alloc, values) {
        Ok(list) => writes(alloc, &list, bytes),
        Err(_) => false,
    }
}

/// Whether a text is written as these bytes.
fn text_writes(alloc: Global, text: &str, bytes: &[u8]) -> bool {
    match ScalarValue::from_text(alloc, text) {
        Ok(value) => writes(alloc, &value, bytes),
        Err(_) => false,
    }
}

/// Null within so many lists of one value.
fn nested(alloc: Global, lists: usize) -> Result<ScalarValue, ScalarError> {
    let mut value = ScalarValue::null();
    for _ in 0..lists {
        let mut values = Vec::new(alloc);
        values.push(value)?;
        value = ScalarValue::from_list(alloc, values)?;
    }
    Ok(value)
}

/// The message of it.
fn nested_message(alloc: Global, lists: usize) -> Result<Vec<u8>, ScalarError> {
    let mut message = Vec::new(alloc);
    message.extend_from_slice(&[0x08, 0x00])?;
    for _ in 0..lists {
        let mut values = Vec::new(alloc);
        put_bytes(&mut values, 1, message.as_slice())?;
        let mut list = Vec::new(alloc);
        put_bytes(&mut list, 9, values.as_slice())?;
        message = list;
    }
    Ok(message)
}

/// The numbers of the errors of writing and of reading null within so many lists.
fn nested_faults(alloc: Global, lists: usize) -> Result<(u8, u8), ScalarError> {
    let value = nested(alloc, lists)?;
    let message = nested_message(alloc, lists)?;
    let written = match value.to_protobytes(alloc) {
        Ok(_) => 0,
        Err(error) => error.number(),
    };
    Ok((written, fault(alloc, message.as_slice())))
}

#[test]
fn members_are_written(rt: HostRuntime) {
    let alloc = rt.alloc();
    assert!(rt; writes(alloc, &ScalarValue::null(), &[0x08, 0x00]));
    assert!(rt; writes(alloc, &ScalarValue::from_bool(true), &[0x10, 0x01]));
    assert!(rt;
        writes(
            alloc,
            &ScalarValue::from_pvalue(PValue::I32(-3)),
            &[0x18, 0x05]
        )
    );
    assert!(rt;
        writes(
            alloc,
            &ScalarValue::from_pvalue(PValue::U8(5)),
            &[0x20, 0x05]
        )
    );
    let decimal = ScalarValue::from_decimal(DecimalValue::I16(-2));
    assert!(rt; writes(alloc, &decimal, &[0x42, 0x02, 0xFE, 0xFF]));
    assert!(rt; text_writes(alloc, "a", &[0x3A, 0x01, 0x61]));
    assert!(rt; list_writes(alloc, 0, &[0x4A, 0x00]));
    assert!(rt; list_writes(alloc, 1, &[0x4A, 0x04, 0x0A, 0x02, 0x08, 0x00]));
}

#[test]
fn members_are_read(rt: HostRuntime) {
    let alloc = rt.alloc();
    assert!(rt; is_null(alloc, &[0x08, 0x07]), "any varint");
    assert!(rt;
        is_null(alloc, &[0x58, 0x01, 0x08, 0x00]),
        "field 11 is skipped"
    );
    assert_eq!(rt; number(alloc, &[0x18, 0x05]), Some(-3));
    assert_eq!(rt; number(alloc, &[0x20, 0x05]), Some(5));
    assert_eq!(rt; count(alloc, &[0x42, 0x02, 0xFE, 0xFF]), (1, 2));
    assert_eq!(rt; count(alloc, &[0x3A, 0x01, 0x61]), (2, 1));
    assert_eq!(rt; count(alloc, &[0x4A, 0x00]), (3, 0));
    assert_eq!(rt; count(alloc, &[0x4A, 0x04, 0x0A, 0x02, 0x08, 0x00]), (3, 1));
}

#[test]
fn refused_messages(rt: HostRuntime) {
    let alloc = rt.alloc();
    assert_eq!(rt; fault(alloc, &[]), 10, "no member");
    assert_eq!(rt; fault(alloc, &[0x2D, 0, 0, 0, 0]), 10, "a float of 32 bits");
    assert_eq!(rt;
        fault(alloc, &[0x31, 0, 0, 0, 0, 0, 0, 0, 0]),
        10,
        "a float of 64 bits"
    );
    assert_eq!(rt; fault(alloc, &[0x50, 0x00]), 10, "a float of 16 bits");
    assert_eq!(rt; fault(alloc, &[0x3A, 0x01, 0xFF]), 10, "not UTF-8");
    assert_eq!(rt; fault(alloc, &[0x08, 0x00, 0x10, 0x01]), 10, "two members");
    assert_eq!(rt; fault(alloc, &[0x10, 0x00, 0x10, 0x01]), 10, "one twice");
    assert_eq!(rt;
        fault(alloc, &[0x4A, 0x02, 0x0A, 0x00]),
        10,
        "a list of no value"
    );
    assert_eq!(rt;
        fault(alloc, &[0x4A, 0x02, 0x08, 0x00]),
        10,
        "a list of a varint"
    );
}

#[test]
fn levels(rt: HostRuntime) {
    let alloc = rt.alloc();
    assert_eq!(rt; nested_faults(alloc, 127), Ok((0, 0)));
    assert_eq!(rt; nested_faults(alloc, 128), Ok((13, 10)));
}

#[test]
fn errors_have_their_numbers(rt: HostRuntime) {
    let errors = [
        ScalarError::DoesNotFit,
        ScalarError::WrongType,
        ScalarError::IsNull,
        ScalarError::CastNull,
        ScalarError::CastKind,
        ScalarError::CastRange,
        ScalarError::CastLength,
        ScalarError::CastFields,
        ScalarError::FieldNotFound,
        ScalarError::Malformed,
        ScalarError::OutOfRange,
        ScalarError::OutOfMemory,
        ScalarError::TooLarge,
    ];
    for (i, error) in errors.iter().enumerate() {
        assert_eq!(rt; error.number() as usize, i + 1);
    }
}
