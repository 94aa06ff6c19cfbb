//! One happy path of each call, the limits of each width, and each generic item through its bound.
use crate::{PType, ToBytes, TryFromBytes, ValueError, WholeNumber};
use std::alloc::{AllocError, AllocFailed, Global};
use std::cmp::Ordering;
use std::fmt::Display;
use std::hash::{DefaultHasher, Hash, Hasher};
use std::test::Fail;

fn writes<T: ToBytes>(alloc: Global, value: &T, want: &[u8]) -> Result<bool, ValueError> {
    let mut out = Vec::new(alloc);
    value.push_le(&mut out)?;
    Ok(out.as_slice() == want)
}

fn read<T: TryFromBytes + WholeNumber>(bytes: &[u8]) -> Result<i128, ValueError> {
    let value = T::try_from_le_bytes(bytes)?;
    Ok(value.to_i128())
}

fn shows<T: Display>(alloc: Global, value: &T, want: &str) -> Result<bool, AllocError> {
    let text = format!(in alloc; "{value}")?;
    Ok(text.as_str() == want)
}

fn partial_order<T: PartialOrd>(a: &T, b: &T) -> Option<Ordering> {
    a.partial_cmp(b)
}

fn hash_of<T: Hash>(x: &T) -> u64 {
    let mut state = DefaultHasher::new();
    x.hash(&mut state);
    state.finish()
}

fn error_from<C: Into<ValueError>>(cause: C) -> ValueError {
    cause.into()
}

#[test]
fn bytes_are_written_lowest_first(rt: HostRuntime) -> Result<(), Fail> {
    let alloc = rt.alloc();
    assert!(rt; writes(alloc, &5u8, &[5])?);
    assert!(rt; writes(alloc, &258u16, &[2, 1])?);
    assert!(rt; writes(alloc, &258u32, &[2, 1, 0, 0])?);
    assert!(rt; writes(alloc, &258u64, &[2, 1, 0, 0, 0, 0, 0, 0])?);
    assert!(rt; writes(alloc, &-2i8, &[254])?);
    assert!(rt; writes(alloc, &-2i16, &[254, 255])?);
    Ok(())
}

#[test]
fn signed_bytes_are_written_lowest_first(rt: HostRuntime) -> Result<(), Fail> {
    let alloc = rt.alloc();
    assert!(rt; writes(alloc, &-2i32, &[254, 255, 255, 255])?);
    assert!(rt; writes(alloc, &1i64, &[1, 0, 0, 0, 0, 0, 0, 0])?);
    assert!(rt;
        writes(
            alloc,
            &1i128,
            &[1, 0, 0, 0, 0, 0, 0, 0, 0, 0, 0, 0, 0, 0, 0, 0]
        )?
    );
    Ok(())
}

#[test]
fn bytes_are_read_lowest_first(rt: HostRuntime) {
    assert_eq!(rt; read::<u8>(&[255]), Ok(255));
    assert_eq!(rt; read::<u16>(&[2, 1]), Ok(258));
    assert_eq!(rt; read::<u32>(&[2, 1, 0, 0]), Ok(258));
    assert_eq!(rt; read::<u64>(&[2, 1, 0, 0, 0, 0, 0, 0]), Ok(258));
    assert_eq!(rt; read::<i8>(&[255]), Ok(-1));
    assert_eq!(rt; read::<i16>(&[254, 255]), Ok(-2));
    assert_eq!(rt; read::<i32>(&[0, 0, 0, 128]), Ok(-2147483648));
    assert_eq!(rt; read::<i64>(&[1, 0, 0, 0, 0, 0, 0, 0]), Ok(1));
    assert_eq!(rt; read::<i128>(&[254; 15]), Err(ValueError::BadLength));
    assert_eq!(rt; read::<i128>(&[255; 16]), Ok(-1));
    assert_eq!(rt; read::<u32>(&[1, 2, 3]), Err(ValueError::BadLength));
}

#[test]
fn kinds(rt: HostRuntime) {
    let table = [
        (PType::U8, 1, 255, PType::U8, PType::I8),
        (PType::U16, 2, 65535, PType::U16, PType::I16),
        (PType::U32, 4, 4294967295, PType::U32, PType::I32),
        (PType::U64, 8, 18446744073709551615, PType::U64, PType::I64),
        (PType::I8, 1, 127, PType::U8, PType::I8),
        (PType::I16, 2, 32767, PType::U16, PType::I16),
        (PType::I32, 4, 2147483647, PType::U32, PType::I32),
        (PType::I64, 8, 9223372036854775807, PType::U64, PType::I64),
    ];
    for (kind, width, greatest, unsigned, signed) in table {
        assert_eq!(rt; PType::from_number(kind.number() as u32), Some(kind));
        assert_eq!(rt;
            (kind.byte_width(), kind.max_value_as_u64()),
            (width, greatest)
        );
        assert_eq!(rt; (kind.to_unsigned(), kind.to_signed()), (unsigned, signed));
    }
    assert_eq!(rt; PType::from_number(8), None);
    assert_eq!(rt; PType::I16.bit_width(), 16);
}

#[test]
fn kinds_have_texts_and_an_order(rt: HostRuntime) -> Result<(), Fail> {
    assert!(rt; PType::U8.is_unsigned_int() && PType::I8.is_signed_int());
    assert!(rt; PType::U8.is_int() && !PType::U8.is_float());
    assert!(rt; shows(rt.alloc(), &PType::U8, "u8")?);
    assert!(rt; shows(rt.alloc(), &PType::I64, "i64")?);
    assert_eq!(rt;
        partial_order(&PType::U64, &PType::I8),
        Some(Ordering::Less)
    );
    assert!(rt; hash_of(&PType::U64) != hash_of(&PType::I8));
    Ok(())
}

#[test]
fn errors(rt: HostRuntime) -> Result<(), Fail> {
    assert_eq!(rt; ValueError::OutOfRange.number(), 1);
    assert_eq!(rt; ValueError::BadLength.number(), 2);
    assert_eq!(rt; error_from(AllocError).number(), 3);
    assert_eq!(rt; error_from(AllocFailed { value: 7u8 }).number(), 3);
    for (error, text) in [
        (ValueError::OutOfRange, "the number is out of range"),
        (
            ValueError::BadLength,
            "the length of the bytes is not the width of the number",
        ),
        (ValueError::OutOfMemory, "out of memory"),
    ] {
        assert!(rt; shows(rt.alloc(), &error, text)?, "{text}");
    }
    Ok(())
}
