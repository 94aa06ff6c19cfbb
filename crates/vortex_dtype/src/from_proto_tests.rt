use super::*;
use std::alloc::Global;
use std::test::*;
use vortex_wire::{WireError, put_bytes};

const NOT: Nullability = Nullability::NonNullable;

const MAY: Nullability = Nullability::Nullable;

/// Whether the bytes are read as this type.
fn is_read(alloc: Global, bytes: &[u8], dtype: &DType) -> bool {
    match DType::from_proto(alloc, bytes) {
        Ok(read) => read == *dtype,
        Err(_) => false,
    }
}

/// The place of the first bytes that are read otherwise.
fn first_otherwise(alloc: Global, table: &[(DType, &[u8])]) -> Option<usize> {
    for (i, (dtype, bytes)) in table.iter().enumerate() {
        if !is_read(alloc, bytes, dtype) {
            return Some(i);
        }
    }
    None
}

fn is_refused(alloc: Global, bytes: &[u8]) -> bool {
    match DType::from_proto(alloc, bytes) {
        Ok(_) => false,
        Err(error) => error == DTypeError::Malformed,
    }
}

/// The place of the first bytes that are not refused.
fn first_taken(alloc: Global, table: &[&[u8]]) -> Option<usize> {
    for (i, bytes) in table.iter().enumerate() {
        if !is_refused(alloc, bytes) {
            return Some(i);
        }
    }
    None
}

fn decimal(precision: u8, scale: i8) -> DType {
    match DecimalDType::try_new(precision, scale) {
        Ok(decimal) => DType::Decimal(decimal, NOT),
        Err(_) => DType::Null,
    }
}

#[test]
fn messages_are_read(rt: HostRuntime) {
    let lowest: [u8; 15] = [
        0x22, 0x0D, 0x08, 0x03, 0x10, 0x80, 0xFF, 0xFF, 0xFF, 0xFF, 0xFF, 0xFF, 0xFF, 0xFF, 0x01,
    ];
    let table: [(DType, &[u8]); 11] = [
        (DType::Null, &[0x0A, 0x00]),
        (DType::from_ptype(PType::I32), &[0x1A, 0x02, 0x08, 0x06]),
        (DType::Primitive(PType::U8, MAY), &[0x1A, 0x02, 0x10, 0x01]),
        // Of a number that is given twice the last counts.
        (
            DType::from_ptype(PType::U16),
            &[0x1A, 0x04, 0x08, 0x06, 0x08, 0x01],
        ),
        // A flag is set where it is not 0.
        (DType::Bool(MAY), &[0x12, 0x02, 0x08, 0x02]),
        (DType::Utf8(NOT), &[0x2A, 0x00]),
        (DType::Binary(NOT), &[0x32, 0x02, 0x08, 0x00]),
        (decimal(3, -128), &lowest),
        (decimal(76, 0), &[0x22, 0x02, 0x08, 0x4C]),
        // Fields of other numbers are skipped.
        (DType::Null, &[0x5A, 0x00, 0x0A, 0x00]),
        (DType::Null, &[0x0A, 0x02, 0x08, 0x05]),
    ];
    assert_eq!(rt; first_otherwise(rt.alloc(), &table), None);
}

#[test]
fn messages_are_refused(rt: HostRuntime) {
    let low: [u8; 15] = [
        0x22, 0x0D, 0x08, 0x03, 0x10, 0xFF, 0xFE, 0xFF, 0xFF, 0xFF, 0xFF, 0xFF, 0xFF, 0xFF, 0x01,
    ];
    let table: [&[u8]; 20] = [
        // No member, two of them, one twice, and one that is no message.
        &[],
        &[0x0A, 0x00, 0x12, 0x00],
        &[0x0A, 0x00, 0x0A, 0x00],
        &[0x08, 0x00],
        // Wire type 3, also inside.
        &[0x0B],
        &[0x0A, 0x01, 0x0B],
        // A field that is cut off.
        &[0x0A, 0x01],
        // Kinds of whole numbers 8 and 300.
        &[0x1A, 0x02, 0x08, 0x08],
        &[0x1A, 0x03, 0x08, 0xAC, 0x02],
        // Precisions 77 and 0, scale 4 of precision 3, and scale -129.
        &[0x22, 0x02, 0x08, 0x4D],
        &[0x22, 0x00],
        &[0x22, 0x04, 0x08, 0x03, 0x10, 0x04],
        &low,
        // An element that is missing, given twice, and none itself.
        &[0x42, 0x00],
        &[0x42, 0x08, 0x0A, 0x02, 0x0A, 0x00, 0x0A, 0x02, 0x0A, 0x00],
        &[0x42, 0x02, 0x0A, 0x00],
        // A name without a type, and one that is no text.
        &[0x3A, 0x03, 0x0A, 0x01, 0x61],
        &[0x3A, 0x07, 0x0A, 0x01, 0xFF, 0x12, 0x02, 0x0A, 0x00],
        // An extension whose id is no text, and one that is stored as one.
        &[0x4A, 0x07, 0x0A, 0x01, 0xFF, 0x12, 0x02, 0x0A, 0x00],
        &[0x4A, 0x08, 0x12, 0x06, 0x4A, 0x04, 0x12, 0x02, 0x0A, 0x00],
    ];
    assert_eq!(rt; first_taken(rt.alloc(), &table), None);
}

/// Whether the text of the type of these bytes is this one.
fn has_text(alloc: Global, bytes: &[u8], text: &str) -> bool {
    match DType::from_proto(alloc, bytes) {
        Ok(dtype) => match format!(in alloc; "{dtype}") {
            Ok(printed) => printed.as_str() == text,
            Err(_) => false,
        },
        Err(_) => false,
    }
}

#[test]
fn messages_of_parts_are_read(rt: HostRuntime) {
    let alloc = rt.alloc();
    // Names and types may come in any order.
    let mixed = [
        0x3A, 0x10, 0x0A, 0x01, 0x61, 0x12, 0x02, 0x0A, 0x00, 0x12, 0x02, 0x12, 0x00, 0x0A, 0x01,
        0x62, 0x18, 0x01,
    ];
    assert!(rt; has_text(alloc, &mixed, "{a=null, b=bool}?"));
    let list = [0x42, 0x06, 0x10, 0x01, 0x0A, 0x02, 0x0A, 0x00];
    assert!(rt; has_text(alloc, &list, "list(null)?"));
    let fixed = [0x52, 0x06, 0x0A, 0x02, 0x1A, 0x00, 0x10, 0x02];
    assert!(rt; has_text(alloc, &fixed, "fixed_size_list(u8)[2]"));
    let extension = [0x4A, 0x07, 0x0A, 0x01, 0x78, 0x12, 0x02, 0x0A, 0x00];
    assert!(rt; has_text(alloc, &extension, "ext(x, null)?"));
}

#[test]
fn the_last_of_several_counts(rt: HostRuntime) {
    let alloc = rt.alloc();
    let ids = [
        0x4A, 0x0A, 0x0A, 0x01, 0x78, 0x0A, 0x01, 0x79, 0x12, 0x02, 0x0A, 0x00,
    ];
    assert!(rt; has_text(alloc, &ids, "ext(y, null)?"));
    let metadata = [
        0x4A, 0x0D, 0x0A, 0x01, 0x78, 0x12, 0x02, 0x0A, 0x00, 0x1A, 0x01, 0x07, 0x1A, 0x01, 0x08,
    ];
    assert!(rt; has_text(alloc, &metadata, "ext(x, null, [8])?"));
    // A flag looks at the whole varint, here 2^32.
    assert!(rt;
        has_text(
            alloc,
            &[0x12, 0x06, 0x08, 0x80, 0x80, 0x80, 0x80, 0x10],
            "bool?"
        )
    );
    // An earlier text must be a text too.
    let damaged = [
        0x4A, 0x0A, 0x0A, 0x01, 0xFF, 0x0A, 0x01, 0x79, 0x12, 0x02, 0x0A, 0x00,
    ];
    assert!(rt; is_refused(alloc, &damaged));
}

/// The message of a type of lists, of so many levels.
fn nested(alloc: Global, levels: usize) -> Result<Vec<u8>, WireError> {
    let mut message = Vec::new(alloc);
    put_bytes(&mut message, 1, &[])?;
    for _ in 1..levels {
        let mut body = Vec::new(alloc);
        put_bytes(&mut body, 1, &message)?;
        let mut around = Vec::new(alloc);
        put_bytes(&mut around, 8, &body)?;
        message = around;
    }
    Ok(message)
}

/// Whether a type of so many levels is read.
fn takes_levels(alloc: Global, levels: usize) -> bool {
    match nested(alloc, levels) {
        Ok(message) => DType::from_proto(alloc, &message).is_ok(),
        Err(_) => false,
    }
}

#[test]
fn levels_of_messages(rt: HostRuntime) {
    assert!(rt; takes_levels(rt.alloc(), 64));
    assert!(rt; !takes_levels(rt.alloc(), 65));
}

/// Whether the text of the path of these bytes is this one.
fn path_has_text(alloc: Global, bytes: &[u8], text: &str) -> bool {
    match FieldPath::from_proto(alloc, bytes) {
        Ok(path) => match format!(in alloc; "{path}") {
            Ok(printed) => printed.as_str() == text,
            Err(_) => false,
        },
        Err(_) => false,
    }
}

fn path_is_refused(alloc: Global, bytes: &[u8]) -> bool {
    match FieldPath::from_proto(alloc, bytes) {
        Ok(_) => false,
        Err(error) => error == DTypeError::Malformed,
    }
}

#[test]
fn paths_are_read(rt: HostRuntime) {
    let alloc = rt.alloc();
    assert!(rt; path_has_text(alloc, &[], ""));
    assert!(rt; path_has_text(alloc, &[0x0A, 0x03, 0x0A, 0x01, 0x61], "$a"));
    let two = [0x0A, 0x03, 0x0A, 0x01, 0x61, 0x0A, 0x02, 0x0A, 0x00];
    assert!(rt; path_has_text(alloc, &two, "$a.$"));
    // A step without a name, with two, with a number, and with a name that is no text.
    assert!(rt; path_is_refused(alloc, &[0x0A, 0x00]));
    let names = [0x0A, 0x06, 0x0A, 0x01, 0x61, 0x0A, 0x01, 0x62];
    assert!(rt; path_is_refused(alloc, &names));
    assert!(rt; path_is_refused(alloc, &[0x0A, 0x02, 0x08, 0x01]));
    assert!(rt; path_is_refused(alloc, &[0x0A, 0x03, 0x0A, 0x01, 0xFF]));
}
