use super::*;
use std::alloc::Global;
use std::test::*;

#[test]
fn varints(rt: HostRuntime) -> Result<(), Fail> {
    let max = [0xFF, 0xFF, 0xFF, 0xFF, 0xFF, 0xFF, 0xFF, 0xFF, 0xFF, 0x01];
    let table: [(u64, &[u8]); 6] = [
        (0, &[0]),
        (127, &[0x7F]),
        (128, &[0x80, 0x01]),
        (300, &[0xAC, 0x02]),
        (1 << 32, &[0x80, 0x80, 0x80, 0x80, 0x10]),
        (u64::MAX, &max),
    ];
    for (v, bytes) in table {
        let mut out = Vec::new(rt.alloc());
        put_varint(&mut out, v)?;
        assert_eq!(rt; out.as_slice(), bytes, "the varint of {v}");
        let mut message = Vec::new(rt.alloc());
        put_varint_field(&mut message, 1, v)?;
        assert_eq!(rt; message.len(), out.len() + 1);
        assert_eq!(rt; number_in(&message), Some(v));
    }
    Ok(())
}

/// The varint of a message of one field, after its key.
fn number_in(b: &[u8]) -> Option<u64> {
    match Fields::new(b).next_field() {
        Some(
            Ok(
                WireField {
                    number: 1,
                    value: WireValue::Varint(n),
                },
            ),
        ) => Some(n),
        _ => None,
    }
}

#[test]
fn long_varints(rt: HostRuntime) {
    let most: [u8; 11] = [8, 255, 255, 255, 255, 255, 255, 255, 255, 255, 1];
    let above: [u8; 11] = [8, 128, 128, 128, 128, 128, 128, 128, 128, 128, 2];
    let high: [u8; 11] = [8, 128, 128, 128, 128, 128, 128, 128, 128, 128, 1];
    let padded: [u8; 11] = [8, 129, 128, 128, 128, 128, 128, 128, 128, 128, 0];
    let eleven: [u8; 12] = [8, 129, 128, 128, 128, 128, 128, 128, 128, 128, 128, 0];
    assert_eq!(rt; number_in(&most), Some(u64::MAX));
    assert_eq!(rt; number_in(&above), None, "2 to the 64");
    assert_eq!(rt; number_in(&high), Some(1 << 63));
    assert_eq!(rt; number_in(&padded), Some(1), "no need to be shortest");
    assert_eq!(rt; number_in(&eleven), None, "eleven bytes");
}

#[test]
fn refused_keys(rt: HostRuntime) -> Result<(), Fail> {
    let table: [&[u8]; 7] = [
        &[0x0B],
        &[0x0C],
        &[0x0E, 0],
        &[0x0F, 0],
        &[0, 0],
        &[0x80, 0x80, 0x80, 0x80, 0x10, 0],
        &[0x0A, 2, 97],
    ];
    for bytes in table {
        let mut fields = Fields::new(bytes);
        let error = fields
            .next_field()
            .ok_or("an answer")?
            .err()
            .ok_or("a refusal")?;
        assert_eq!(rt; error, WireError::Malformed, "at {bytes:?}");
        assert!(rt; fields.next_field().is_none());
    }
    Ok(())
}

/// One field of each wire type, and where each ends.
const MESSAGE: [u8; 21] = [
    0x08, 0x96, 0x01, 0x11, 1, 0, 0, 0, 0, 0, 0, 128, 0x1A, 2, 97, 98, 0x25, 4, 0, 0, 64,
];

const ENDS: [usize; 5] = [0, 3, 12, 16, 21];

#[test]
fn wire_types(rt: HostRuntime) -> Result<(), Fail> {
    let mut fields = Fields::new(&MESSAGE);
    let wanted = [
        WireField {
            number: 1,
            value: WireValue::Varint(150),
        },
        WireField {
            number: 2,
            value: WireValue::Eight((1 << 63) + 1),
        },
        WireField {
            number: 3,
            value: WireValue::Bytes(b"ab"),
        },
        WireField {
            number: 4,
            value: WireValue::Four((1 << 30) + 4),
        },
    ];
    for field in wanted {
        let read = fields.next_field().ok_or("a field")??;
        assert_eq!(rt; read.number, field.number);
        assert!(rt; read.value == field.value, "field {}", field.number);
    }
    assert!(rt; fields.next_field().is_none());
    Ok(())
}

#[test]
fn truncations(rt: HostRuntime) {
    for len in 0..MESSAGE.len() + 1 {
        let mut fields = Fields::new(&MESSAGE[..len]);
        let mut whole = true;
        while let Some(field) = fields.next_field() {
            whole = field.is_ok();
        }
        assert_eq!(rt; whole, ENDS.contains(&len), "at {len}");
    }
}

#[test]
fn only_fields(rt: HostRuntime) -> Result<(), Fail> {
    let two = [0x08, 1, 0x12, 1, 97];
    assert!(rt; only_field(&two, 3, 9)?.is_none());
    let second = only_field(&two, 2, 9)?.ok_or("a field")?;
    assert_eq!(rt; second.number, 2);
    assert!(rt; second.value == WireValue::Bytes(b"a"));
    assert!(rt; only_field(&two, 1, 2).is_err());
    assert!(rt; only_field(&two[..4], 3, 9).is_err());
    assert_eq!(rt; singular_varint(&two, 1)?, Some(1));
    assert_eq!(rt; singular_u32(&two, 3)?, 0);
    Ok(())
}

#[test]
fn written_bytes(rt: HostRuntime) -> Result<(), Fail> {
    let mut out = Vec::new(rt.alloc());
    put_bytes(&mut out, 3, b"ab")?;
    put_bytes(&mut out, 536_870_911, b"")?;
    let wanted: [u8; 10] = [0x1A, 2, 97, 98, 0xFA, 0xFF, 0xFF, 0xFF, 0x0F, 0];
    assert_eq!(rt; out.as_slice(), wanted.as_slice());
    Ok(())
}

#[test]
fn dict_metadata(rt: HostRuntime) -> Result<(), Fail> {
    let record = DictMetadata {
        values_len: 4_294_967_295,
        codes_ptype: 3,
        is_nullable_codes: None,
    };
    let bytes: [u8; 8] = [0x08, 0xFF, 0xFF, 0xFF, 0xFF, 0x0F, 0x10, 0x03];
    assert_eq!(rt; record.write(rt.alloc())?.as_slice(), bytes.as_slice());
    assert_eq!(rt; DictMetadata::read(&bytes)?, record);

    let table: [(&[u8], u32, u32, Option<bool>); 6] = [
        (&[], 0, 0, None),
        (&[0x18, 0], 0, 0, Some(false)),
        (&[0x18, 2], 0, 0, Some(true)),
        (&[0x10, 3, 0x08, 1, 0x08, 2], 2, 3, None),
        (&[0x22, 1, 7, 0x08, 1], 1, 0, None),
        (&[0x10, 0x85, 0x80, 0x80, 0x80, 0x10], 0, 5, None),
    ];
    for (bytes, values_len, codes_ptype, is_nullable_codes) in table {
        let wanted = DictMetadata {
            values_len,
            codes_ptype,
            is_nullable_codes,
        };
        assert_eq!(rt; DictMetadata::read(bytes)?, wanted, "at {bytes:?}");
        let written = wanted.write(rt.alloc())?;
        assert_eq!(rt; DictMetadata::read(&written)?, wanted, "from {written:?}");
    }
    let refused: [&[u8]; 4] = [&[0x0A, 0], &[0x1D, 0, 0, 0, 0], &[0x08], &[0x08, 1, 0x0B]];
    for bytes in refused {
        assert_eq!(rt;
            DictMetadata::read(bytes),
            Err(WireError::Malformed),
            "at {bytes:?}"
        );
    }
    Ok(())
}

#[test]
fn decimal_and_list_metadata(rt: HostRuntime) -> Result<(), Fail> {
    let decimal = DecimalMetadata { value_type: 4 };
    assert_eq!(rt;
        decimal.write(rt.alloc())?.as_slice(),
        [0x08, 0x04].as_slice()
    );
    assert_eq!(rt; DecimalMetadata::read(&[0x08, 0x04])?, decimal);

    let list = ListMetadata { elements: 0 };
    assert!(rt; list.write(rt.alloc())?.is_empty());
    let low: [u8; 6] = [0x08, 0x80, 0x80, 0x80, 0x80, 0x10];
    assert_eq!(rt;
        ListMetadata::read(&low)?,
        list,
        "the low 32 bits of 2 to the 32"
    );
    Ok(())
}

#[test]
fn errors(rt: HostRuntime) -> Result<(), Fail> {
    let table = [
        (WireError::Malformed, 1, "malformed message"),
        (WireError::OutOfMemory, 2, "out of memory"),
    ];
    for (error, number, text) in table {
        assert_eq!(rt; error.number(), number);
        assert_eq!(rt; format!(in rt.alloc(); "{error}")?.as_str(), text);
    }
    Ok(())
}

/// A number, and before it a message that holds a text, a flag and a signed number.
fn from_the_end(alloc: Global) -> Result<Vec<u8>, WireError> {
    let number = Backward::new(alloc).with_varint_field(2, 300)?;
    let before = number.len();
    let signed = number.with_signed_field(5, -2)?;
    let flag = signed.with_flag_field(4, true)?;
    let text = flag.with_text_field(1, "a")?;
    Ok(text.with_header(3, before)?.finish())
}

/// What is left out, and then bytes and a varint without a key.
fn left_out(alloc: Global) -> Result<Vec<u8>, WireError> {
    let text = Backward::new(alloc).with_text_field(1, "")?;
    let flag = text.with_flag_field(2, false)?;
    let number = flag.with_singular_field(3, 0)?;
    let field = number.with_bytes_field(4, &[])?;
    let bytes = field.with_bytes(&[7, 8])?;
    Ok(bytes.with_varint(300)?.finish())
}

/// Whether these are the bytes.
fn has_bytes(written: Result<Vec<u8>, WireError>, bytes: &[u8]) -> bool {
    match written {
        Ok(written) => written.as_slice() == bytes,
        Err(_) => false,
    }
}

#[test]
fn written_from_the_end(rt: HostRuntime) {
    let alloc = rt.alloc();
    let message: [u8; 21] = [
        0x1A, 0x10, 0x0A, 0x01, 0x61, 0x20, 0x01, 0x28, 0xFE, 0xFF, 0xFF, 0xFF, 0xFF, 0xFF, 0xFF,
        0xFF, 0xFF, 0x01, 0x10, 0xAC, 0x02,
    ];
    assert!(rt; has_bytes(from_the_end(alloc), &message));
    assert!(rt; has_bytes(left_out(alloc), &[0xAC, 0x02, 7, 8, 0x22, 0x00]));
}
