use super::*;
use std::alloc::Global;
use std::rc::Rc;
use std::test::*;

const NOT: Nullability = Nullability::NonNullable;

const MAY: Nullability = Nullability::Nullable;

/// Whether the bytes are read as the type.
fn is_read(alloc: Global, dtype: &DType, bytes: &[u8]) -> bool {
    match DType::from_proto(alloc, bytes) {
        Ok(read) => read == *dtype,
        Err(_) => false,
    }
}

/// Whether the type is written as these bytes, and read from them.
fn is_written(alloc: Global, dtype: &DType, bytes: &[u8]) -> bool {
    match dtype.to_proto(alloc) {
        Ok(message) => message.as_slice() == bytes && is_read(alloc, dtype, bytes),
        Err(_) => false,
    }
}

/// Whether there is a type, and it is written as these bytes and read from them.
fn writes(alloc: Global, dtype: Result<DType, DTypeError>, bytes: &[u8]) -> bool {
    match dtype {
        Ok(dtype) => is_written(alloc, &dtype, bytes),
        Err(_) => false,
    }
}

/// The place of the first type that is written otherwise.
fn first_wrong(alloc: Global, table: &[(DType, &[u8])]) -> Option<usize> {
    for (i, (dtype, bytes)) in table.iter().enumerate() {
        if !is_written(alloc, dtype, bytes) {
            return Some(i);
        }
    }
    None
}

fn decimal(precision: u8, scale: i8, nullability: Nullability) -> DType {
    match DecimalDType::try_new(precision, scale) {
        Ok(decimal) => DType::Decimal(decimal, nullability),
        Err(_) => DType::Null,
    }
}

#[test]
fn plain_messages(rt: HostRuntime) {
    let lowest: [u8; 15] = [
        0x22, 0x0D, 0x08, 0x03, 0x10, 0x80, 0xFF, 0xFF, 0xFF, 0xFF, 0xFF, 0xFF, 0xFF, 0xFF, 0x01,
    ];
    let table: [(DType, &[u8]); 10] = [
        (DType::Null, &[0x0A, 0x00]),
        (DType::Bool(MAY), &[0x12, 0x02, 0x08, 0x01]),
        (DType::from_ptype(PType::I32), &[0x1A, 0x02, 0x08, 0x06]),
        (DType::Primitive(PType::U8, MAY), &[0x1A, 0x02, 0x10, 0x01]),
        (DType::BYTES, &[0x1A, 0x00]),
        (decimal(3, -128, NOT), &lowest),
        (
            decimal(10, 2, MAY),
            &[0x22, 0x06, 0x08, 0x0A, 0x10, 0x02, 0x18, 0x01],
        ),
        (DType::Utf8(NOT), &[0x2A, 0x00]),
        (DType::Binary(MAY), &[0x32, 0x02, 0x08, 0x01]),
        (DType::Struct(StructFields::empty(), NOT), &[0x3A, 0x00]),
    ];
    assert_eq!(rt; first_wrong(rt.alloc(), &table), None);
}

fn one_field(alloc: Global) -> Result<DType, DTypeError> {
    let names = FieldNames::from_texts(alloc, &["a"])?;
    let dtypes = vec![in alloc; FieldDType::from_ptype(PType::I32)]?;
    let fields = StructFields::from_fields(alloc, names, dtypes)?;
    Ok(DType::Struct(fields, NOT))
}

/// Two fields of one name.
fn two_fields(alloc: Global) -> Result<DType, DTypeError> {
    let names = FieldNames::from_texts(alloc, &["a", "a"])?;
    let null = FieldDType::from_dtype(DType::Null);
    let truth = FieldDType::from_dtype(DType::Bool(NOT));
    let dtypes = vec![in alloc; null, truth]?;
    let fields = StructFields::from_fields(alloc, names, dtypes)?;
    Ok(DType::Struct(fields, MAY))
}

fn bytes_of_size(alloc: Global, size: u32) -> Result<DType, DTypeError> {
    let element = Element::new(alloc, DType::BYTES)?;
    Ok(DType::FixedSizeList(element, size, NOT))
}

fn extension(alloc: Global, metadata: Option<ExtMetadata>) -> Result<DType, DTypeError> {
    let id = ExtID::from_text(alloc, "x")?;
    let ext = ExtDType::try_new(alloc, id, DType::Null, metadata)?;
    Ok(DType::Extension(Rc::new(alloc, ext)?))
}

fn with_metadata(alloc: Global, bytes: &[u8]) -> Result<DType, DTypeError> {
    let metadata = ExtMetadata::from_slice(alloc, bytes)?;
    extension(alloc, Some(metadata))
}

#[test]
fn messages_of_parts(rt: HostRuntime) {
    let alloc = rt.alloc();
    let one = [
        0x3A, 0x09, 0x0A, 0x01, 0x61, 0x12, 0x04, 0x1A, 0x02, 0x08, 0x06,
    ];
    assert!(rt; writes(alloc, one_field(alloc), &one));
    let two = [
        0x3A, 0x10, 0x0A, 0x01, 0x61, 0x0A, 0x01, 0x61, 0x12, 0x02, 0x0A, 0x00, 0x12, 0x02, 0x12,
        0x00, 0x18, 0x01,
    ];
    assert!(rt; writes(alloc, two_fields(alloc), &two));
    let list = [0x42, 0x06, 0x0A, 0x02, 0x0A, 0x00, 0x10, 0x01];
    assert!(rt; writes(alloc, DType::list(alloc, DType::Null, MAY), &list));
    let fixed = [0x52, 0x06, 0x0A, 0x02, 0x1A, 0x00, 0x10, 0x02];
    assert!(rt; writes(alloc, bytes_of_size(alloc, 2), &fixed));
    let none = [0x52, 0x04, 0x0A, 0x02, 0x1A, 0x00];
    assert!(rt; writes(alloc, bytes_of_size(alloc, 0), &none));
}

#[test]
fn messages_of_extensions(rt: HostRuntime) {
    let alloc = rt.alloc();
    let absent = [0x4A, 0x07, 0x0A, 0x01, 0x78, 0x12, 0x02, 0x0A, 0x00];
    assert!(rt; writes(alloc, extension(alloc, None), &absent));
    let empty = [
        0x4A, 0x09, 0x0A, 0x01, 0x78, 0x12, 0x02, 0x0A, 0x00, 0x1A, 0x00,
    ];
    assert!(rt; writes(alloc, with_metadata(alloc, &[]), &empty));
    let seven = [
        0x4A, 0x0A, 0x0A, 0x01, 0x78, 0x12, 0x02, 0x0A, 0x00, 0x1A, 0x01, 0x07,
    ];
    assert!(rt; writes(alloc, with_metadata(alloc, &[7]), &seven));
}

/// A list in a list and so on, which has so many levels.
fn nested(alloc: Global, levels: usize) -> Result<DType, DTypeError> {
    let mut dtype = DType::Null;
    for _ in 1..levels {
        dtype = DType::list(alloc, dtype, NOT)?;
    }
    Ok(dtype)
}

/// How long the message of so many levels is.
fn nested_len(alloc: Global, levels: usize) -> Result<usize, DTypeError> {
    let message = nested(alloc, levels)?.to_proto(alloc)?;
    Ok(message.len())
}

#[test]
fn limits_of_messages(rt: HostRuntime) {
    let alloc = rt.alloc();
    assert_eq!(rt; nested_len(alloc, 2), Ok(6));
    assert!(rt; nested_len(alloc, 64).is_ok());
    assert_eq!(rt; nested_len(alloc, 65), Err(DTypeError::TooLarge));
}
