use std::test::Fail;
use vortex_flat::*;

/// A message that announces a type, without its length of four bytes: its header, and its body, a
/// 32-bit integer.
const HEADER: [u8; 64] = [
    24, 0, 0, 0, 0, 0, 0, 0, 12, 0, 22, 0, 20, 0, 21, 0, 16, 0, 8, 0, 0, 0, 0, 0, 16, 0, 0, 0, 0,
    0, 0, 0, 48, 0, 0, 0, 0, 0, 0, 0, 16, 0, 0, 0, 0, 3, 0, 0, 4, 0, 4, 0, 0, 0, 0, 0, 8, 0, 0, 0,
    0, 0, 0, 0,
];

const BODY: [u8; 48] = [
    16, 0, 0, 0, 0, 0, 0, 0, 8, 0, 9, 0, 8, 0, 4, 0, 8, 0, 0, 0, 20, 0, 0, 0, 3, 0, 0, 0, 0, 0, 0,
    0, 8, 0, 6, 0, 4, 0, 5, 0, 8, 0, 0, 0, 6, 0, 0, 0,
];

/// A table with one field, the text "hi", which ends the buffer.
const TEXT: [u8; 27] = [
    12, 0, 0, 0, 6, 0, 8, 0, 4, 0, 0, 0, 8, 0, 0, 0, 4, 0, 0, 0, 2, 0, 0, 0, 104, 105, 0,
];

fn header_of(bytes: &[u8]) -> Result<(Option<u8>, Option<u64>, usize), FlatError> {
    let message = root(bytes)?;
    message.law();
    let inner = message.field_table(2)?.ok_or(FlatError::TooLong)?;
    Ok((message.field_u8(1)?, message.field_u64(3)?, inner.place()))
}

fn kind_of(bytes: &[u8]) -> Result<[Option<u8>; 4], FlatError> {
    let outer = root(bytes)?;
    let inner = outer.field_table(1)?.ok_or(FlatError::TooLong)?;
    Ok([
        outer.field_u8(0)?,
        inner.field_u8(0)?,
        inner.field_u8(1)?,
        inner.field_u8(2)?,
    ])
}

fn text_of(bytes: &[u8]) -> Result<Option<&str>, FlatError> {
    root(bytes)?.field_str(0)
}

#[test]
fn reads_a_message(rt: HostRuntime) {
    assert_eq!(rt; header_of(&HEADER), Ok((Some(3), Some(48), 56)));
    assert_eq!(rt; kind_of(&BODY), Ok([Some(3), Some(6), Some(0), None]));
}

#[test]
fn truncations(rt: HostRuntime) {
    for end in 0..HEADER.len() {
        let whole = header_of(&HEADER[..end]) == header_of(&HEADER);
        assert_eq!(rt; whole, end >= 60, "at {end}");
    }
    for end in 0..46 {
        assert_eq!(rt; kind_of(&BODY[..end]), Err(FlatError::Outside), "at {end}");
    }
}

#[test]
fn hostile_bytes(rt: HostRuntime) {
    let outside = Err(FlatError::Outside);
    assert_eq!(rt; text_of(&TEXT), Ok(Some("hi")));
    // the size of the vtable, the inline size, the entry, the table's distance, the offset, the
    // count, the bytes
    for (at, byte, want) in [
        (4, 5, outside),
        (4, 0, outside),
        (4, 4, Ok(None)),
        (4, 24, outside),
        (6, 3, outside),
        (6, 7, outside),
        (6, 16, outside),
        (8, 0, Ok(None)),
        (8, 3, outside),
        (8, 5, outside),
        (12, 13, outside),
        (15, 128, outside),
        (16, 8, outside),
        (19, 255, outside),
        (20, 1, Ok(Some("h"))),
        (20, 3, Ok(Some("hi\0"))),
        (20, 4, outside),
        (24, 255, outside),
        (26, 255, Ok(Some("hi"))),
    ] {
        let mut bytes = TEXT;
        if let Some(place) = bytes.get_mut(at) {
            *place = byte;
        }
        assert_eq!(rt; text_of(&bytes), want, "{byte} at {at}");
    }
}

#[test]
fn a_vtable_after_its_table(rt: HostRuntime) -> Result<(), Fail> {
    let bytes = [
        4, 0, 0, 0, 0xF8, 0xFF, 0xFF, 0xFF, 254, 0, 0, 0, 6, 0, 8, 0, 4, 0,
    ];
    let table = root(&bytes)?;
    assert_eq!(rt; table.field_u32(0)?, Some(254));
    assert_eq!(rt; table.field_u16(0)?, Some(254));
    assert_eq!(rt; table.field_i8(0)?, Some(-2));
    assert_eq!(rt;
        Table::at(&bytes, usize::MAX).err(),
        Some(FlatError::Outside)
    );
    Ok(())
}

#[test]
fn vectors(rt: HostRuntime) -> Result<(), Fail> {
    let mut bytes = TEXT;
    let table = root(&bytes)?;
    assert_eq!(rt; table.field_bytes(0)?, Some([104, 105].as_slice()));
    let letters = table.field_vector(0, 1)?.ok_or("a vector")?;
    letters.law();
    assert_eq!(rt; letters.len(), 2);
    assert!(rt; !letters.is_empty());
    assert!(rt; table.field_vector(0, 4).is_err());
    for (k, count) in [(0, 2), (1, 0)] {
        assert_eq!(rt;
            table.field_vector_or_empty(k, 1)?.len(),
            count,
            "field {k}"
        );
    }
    bytes[20] = 255;
    bytes[21] = 255;
    bytes[22] = 255;
    bytes[23] = 255;
    for width in [1, 4, 8] {
        assert!(rt; root(&bytes)?.field_vector(0, width).is_err());
    }
    Ok(())
}

#[test]
fn errors(rt: HostRuntime) {
    for (error, number) in [
        (FlatError::Outside, 1),
        (FlatError::TooLong, 2),
        (FlatError::OutOfMemory, 3),
    ] {
        assert_eq!(rt; error.number(), number);
    }
}
