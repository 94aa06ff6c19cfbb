use super::*;
use std::alloc::Global;
use std::hash::{FoldHasher, Hash, Hasher};
use std::test::Fail;
use vortex_number::PType;

/// The same number for every key.
#[derive(Drop)]
struct OneHash;

impl KeyHash for OneHash {
    ghost hash_of = { λ s key. 0 };

    fn hash(&self, _key: Option<&[u8]>) -> u64 {
        0
    }
}

/// hello, null, world, hello, null, again, world, null
const TEXTS: &[u8] = b"helloworldhelloagainworld";

const TEXT_ENDS: &[u32] = &[0, 5, 5, 10, 15, 15, 20, 25, 25];

const TEXT_VALIDITY: &[bool] = &[true, false, true, true, false, true, true, false];

/// The codes of these rows and the keys in one buffer are as they are told.
fn texts_are_encoded<H: KeyHash>(
    alloc: Global,
    encoder: &mut BytesDictEncoder<u8, H>,
) -> Result<bool, DictError> {
    let Some(rows) = BytesRows::try_new(TEXTS, TEXT_ENDS, Some(TEXT_VALIDITY)) else {
        return Ok(false);
    };
    let codes = encoder.encode(alloc, &rows)?;
    let values = encoder.values();
    Ok(
        codes.as_slice() == [0u8, 1, 2, 0, 1, 3, 2, 1].as_slice()
            && values.bytes == b"helloworldagain".as_slice()
            && values.offsets == [0u32, 5, 5, 10, 15].as_slice()
            && values.null == Some(1),
    )
}

#[test]
fn texts_by_both_hashes(rt: HostRuntime) -> Result<(), Fail> {
    let mut encoder = BytesDictEncoder::<u8, BytesHash>::new(rt.alloc(), &UNCONSTRAINED)?;
    assert!(rt; texts_are_encoded(rt.alloc(), &mut encoder)?);
    let mut encoder = BytesDictEncoder::<u8, OneHash>::with_hash(
        rt.alloc(),
        &UNCONSTRAINED,
        OneHash,
    )?;
    assert!(rt; texts_are_encoded(rt.alloc(), &mut encoder)?);
    assert!(rt; !encoder.is_empty());
    assert_eq!(rt; encoder.len(), 4);
    Ok(())
}

/// The codes of these rows are these, under these limits.
fn codes_are(
    alloc: Global,
    limits: &DictConstraints,
    rows: &BytesRows<'_>,
    wanted: &[u8],
) -> Result<bool, DictError> {
    let mut encoder = BytesDictEncoder::<u8, BytesHash>::new(alloc, limits)?;
    let codes = encoder.encode(alloc, rows)?;
    Ok(codes.as_slice() == wanted)
}

fn limit(max_bytes: usize, max_len: usize) -> DictConstraints {
    DictConstraints { max_bytes, max_len }
}

/// A value counts 16, and its length where that is above 12.
#[test]
fn limits_of_bytes(rt: HostRuntime) -> Result<(), Fail> {
    let two = BytesRows::try_new(b"aaaaaaaaaaaab", [0u32, 12, 13].as_slice(), None).ok_or("none")?;
    assert!(rt; codes_are(rt.alloc(), &limit(20, usize::MAX), &two, &[0])?);
    assert!(rt; codes_are(rt.alloc(), &limit(32, usize::MAX), &two, &[0, 1])?);
    assert!(rt; codes_are(rt.alloc(), &limit(32, 1), &two, &[0])?);
    Ok(())
}

#[test]
fn limits_of_long_bytes(rt: HostRuntime) -> Result<(), Fail> {
    let long = BytesRows::try_new(b"aaaaaaaaaaaaab", [0u32, 13, 14].as_slice(), None).ok_or(
        "none",
    )?;
    assert!(rt; codes_are(rt.alloc(), &limit(28, usize::MAX), &long, &[])?);
    assert!(rt; codes_are(rt.alloc(), &limit(29, usize::MAX), &long, &[0])?);
    assert!(rt; codes_are(rt.alloc(), &limit(45, usize::MAX), &long, &[0, 1])?);
    Ok(())
}

/// A null counts 16 beside a text, and is a value of the number that there may be.
#[test]
fn limits_beside_null(rt: HostRuntime) -> Result<(), Fail> {
    let first = Some([false, true].as_slice());
    let rows = BytesRows::try_new(b"a", [0u32, 0, 1].as_slice(), first).ok_or("none")?;
    assert!(rt; codes_are(rt.alloc(), &limit(31, usize::MAX), &rows, &[0])?);
    assert!(rt; codes_are(rt.alloc(), &limit(32, usize::MAX), &rows, &[0, 1])?);
    let second = Some([true, false].as_slice());
    let rows = BytesRows::try_new(b"a", [0u32, 1, 1].as_slice(), second).ok_or("none")?;
    assert!(rt; codes_are(rt.alloc(), &limit(usize::MAX, 1), &rows, &[0])?);
    Ok(())
}

/// So many texts of two bytes.
fn short_texts(alloc: Global, count: u16) -> Result<(Vec<u8>, Vec<u32>), DictError> {
    let mut bytes = Vec::new(alloc);
    let mut offsets = Vec::new(alloc);
    offsets.push(0u32)?;
    for n in 0..count {
        bytes.push((n / 256) as u8)?;
        bytes.push((n % 256) as u8)?;
        offsets.push(2 * u32::from(n) + 2)?;
    }
    Ok((bytes, offsets))
}

/// How many rows have codes of a byte.
fn short_codes(alloc: Global, rows: &BytesRows<'_>) -> Result<usize, DictError> {
    let mut encoder = BytesDictEncoder::<u8, BytesHash>::new(alloc, &UNCONSTRAINED)?;
    Ok(encoder.encode(alloc, rows)?.len())
}

/// The place of the last of 257 values is no number of a byte.
#[test]
fn more_texts_than_codes(rt: HostRuntime) -> Result<(), Fail> {
    let (bytes, offsets) = short_texts(rt.alloc(), 257)?;
    let rows = BytesRows::try_new(bytes.as_slice(), offsets.as_slice(), None).ok_or("none")?;
    assert_eq!(rt; rows.len(), 257);
    assert_eq!(rt; short_codes(rt.alloc(), &rows)?, 256);
    Ok(())
}

#[test]
fn no_values(rt: HostRuntime) -> Result<(), Fail> {
    let encoder = BytesDictEncoder::<u8, BytesHash>::new(rt.alloc(), &UNCONSTRAINED)?;
    let values = encoder.values();
    assert!(rt; values.bytes.is_empty());
    assert_eq!(rt; values.offsets, [0u32].as_slice());
    assert_eq!(rt; values.null, None);
    let numbers = PrimitiveDictEncoder::<i32, u8>::new(rt.alloc(), &UNCONSTRAINED);
    assert!(rt; numbers.values().is_empty());
    Ok(())
}

/// Without limits all rows have codes.
#[test]
fn whole_columns(rt: HostRuntime) -> Result<(), Fail> {
    let texts = BytesRows::try_new(TEXTS, TEXT_ENDS, Some(TEXT_VALIDITY)).ok_or("none")?;
    let (encoder, codes) = encode_all_bytes(rt.alloc(), &texts)?;
    assert_eq!(rt; codes.as_slice(), [0u64, 1, 2, 0, 1, 3, 2, 1].as_slice());
    assert_eq!(rt; encoder.len(), 4);
    Ok(())
}

#[test]
fn whole_columns_of_numbers(rt: HostRuntime) -> Result<(), Fail> {
    let numbers = PrimitiveRows::try_new([7i64, -1, 7].as_slice(), None).ok_or("none")?;
    let (encoder, codes) = encode_all_numbers(rt.alloc(), &numbers)?;
    assert_eq!(rt; codes.as_slice(), [0u64, 1, 0].as_slice());
    assert_eq!(rt; encoder.values(), [Some(7i64), Some(-1)].as_slice());
    Ok(())
}

/// An empty text and null are two values, and null is not tested against the bytes.
#[test]
fn empty_text_and_null(rt: HostRuntime) -> Result<(), Fail> {
    let limits = DictConstraints {
        max_bytes: 16,
        max_len: usize::MAX,
    };
    let mut encoder = BytesDictEncoder::<u8, BytesHash>::new(rt.alloc(), &limits)?;
    let rows = BytesRows::try_new(
        b"",
        [0u32, 0, 0, 0].as_slice(),
        Some([true, false, true].as_slice()),
    )
    .ok_or("no rows")?;
    assert_eq!(rt;
        encoder.encode(rt.alloc(), &rows)?.as_slice(),
        [0u8, 1, 0].as_slice()
    );
    Ok(())
}

const NO_NUMBERS: &[u64] = &[];

#[test]
fn rows_in_slices(rt: HostRuntime) -> Result<(), Fail> {
    assert!(rt; BytesRows::try_new(b"ab", [].as_slice(), None).is_none());
    assert!(rt; BytesRows::try_new(b"ab", [0u32, 3].as_slice(), None).is_none());
    assert!(rt; BytesRows::try_new(b"ab", [2u32, 1].as_slice(), None).is_none());
    assert!(rt; BytesRows::try_new(b"ab", [0u32, 1].as_slice(), Some([].as_slice())).is_none());
    let rows = BytesRows::try_new(b"abc", [1u32, 2].as_slice(), None).ok_or("no rows")?;
    assert!(rt; !rows.is_empty());
    assert!(rt; PrimitiveRows::try_new([1i32].as_slice(), Some([].as_slice())).is_none());
    let rows = PrimitiveRows::try_new(NO_NUMBERS, None).ok_or("no rows")?;
    assert!(rt; rows.is_empty());
    Ok(())
}

/// Values and codes of whole numbers are these.
fn numbers_are(
    alloc: Global,
    limits: &DictConstraints,
    rows: &PrimitiveRows<'_, i32>,
    values: &[Option<i32>],
    codes: &[u16],
) -> Result<bool, DictError> {
    let mut encoder = PrimitiveDictEncoder::<i32, u16>::new(alloc, limits);
    let got = encoder.encode(alloc, rows)?;
    Ok(got.as_slice() == codes && encoder.values() == values)
}

#[test]
fn whole_numbers(rt: HostRuntime) -> Result<(), Fail> {
    let rows = PrimitiveRows::try_new([1i32, 1, 3, 3, 3].as_slice(), None).ok_or("no rows")?;
    assert!(rt;
        numbers_are(
            rt.alloc(),
            &UNCONSTRAINED,
            &rows,
            &[Some(1), Some(3)],
            &[0, 0, 1, 1, 1]
        )?
    );
    let values = [1i32, 1, 0, 3, 3, 0, 3, 0];
    let validity = [true, true, false, true, true, false, true, false];
    let rows = PrimitiveRows::try_new(values.as_slice(), Some(validity.as_slice())).ok_or(
        "no rows",
    )?;
    assert!(rt;
        numbers_are(
            rt.alloc(),
            &UNCONSTRAINED,
            &rows,
            &[Some(1), None, Some(3)],
            &[0, 0, 1, 2, 2, 1, 2, 1]
        )?
    );
    let rows = PrimitiveRows::try_new([1i32, 2, 1, 3, 1].as_slice(), None).ok_or("no rows")?;
    let two = DictConstraints {
        max_bytes: usize::MAX,
        max_len: 2,
    };
    assert!(rt; numbers_are(rt.alloc(), &two, &rows, &[Some(1), Some(2)], &[0, 1, 0])?);
    let eleven = DictConstraints {
        max_bytes: 11,
        max_len: usize::MAX,
    };
    assert!(rt; numbers_are(rt.alloc(), &eleven, &rows, &[Some(1), Some(2)], &[0, 1, 0])?);
    Ok(())
}

/// A null takes as many bytes as a number.
#[test]
fn number_limits_beside_null(rt: HostRuntime) -> Result<(), Fail> {
    let validity = Some([true, false].as_slice());
    let rows = PrimitiveRows::try_new([1i32, 0].as_slice(), validity).ok_or("none")?;
    assert!(rt; numbers_are(rt.alloc(), &limit(4, usize::MAX), &rows, &[Some(1)], &[0])?);
    assert!(rt;
        numbers_are(
            rt.alloc(),
            &limit(8, usize::MAX),
            &rows,
            &[Some(1), None],
            &[0, 1]
        )?
    );
    Ok(())
}

/// Whether the code types without limits are these, without null and with it.
fn code_types_are<T: NativeValue>(without: PType, with: PType) -> bool {
    primitive_code_type::<T>(false, &UNCONSTRAINED) == without
        && primitive_code_type::<T>(true, &UNCONSTRAINED) == with
}

/// A null beside all numbers of up to 32 bits wants the next type.
#[test]
fn code_types(rt: HostRuntime) -> Result<(), Fail> {
    assert!(rt; code_types_are::<u8>(PType::U8, PType::U16));
    assert!(rt; code_types_are::<i8>(PType::U8, PType::U16));
    assert!(rt; code_types_are::<u16>(PType::U16, PType::U32));
    assert!(rt; code_types_are::<i16>(PType::U16, PType::U32));
    assert!(rt; code_types_are::<u32>(PType::U32, PType::U64));
    assert!(rt; code_types_are::<i32>(PType::U32, PType::U64));
    assert!(rt; code_types_are::<u64>(PType::U64, PType::U64));
    assert!(rt; code_types_are::<i64>(PType::U64, PType::U64));
    Ok(())
}

/// The numbers from 0 to 255, and then null.
fn bytes_and_null(alloc: Global) -> Result<(Vec<u8>, Vec<bool>), DictError> {
    let mut values = Vec::new(alloc);
    let mut validity = Vec::new(alloc);
    for value in 0u8..=255 {
        values.push(value)?;
        validity.push(true)?;
    }
    values.push(0)?;
    validity.push(false)?;
    Ok((values, validity))
}

/// All values of a byte and null: with codes of a byte, null has none.
#[test]
fn all_bytes_and_null(rt: HostRuntime) -> Result<(), Fail> {
    let (values, validity) = bytes_and_null(rt.alloc())?;
    let rows = PrimitiveRows::try_new(values.as_slice(), Some(validity.as_slice())).ok_or(
        "no rows",
    )?;
    let mut wide = PrimitiveDictEncoder::<u8, u16>::new(rt.alloc(), &UNCONSTRAINED);
    let codes = wide.encode(rt.alloc(), &rows)?;
    assert_eq!(rt; codes.len(), 257);
    assert!(rt;
        codes
            .iter()
            .enumerate()
            .all(|(i, code)| *code as usize == i)
    );
    assert_eq!(rt; wide.len(), 257);
    let mut narrow = PrimitiveDictEncoder::<u8, u8>::new(rt.alloc(), &UNCONSTRAINED);
    assert_eq!(rt; narrow.encode(rt.alloc(), &rows)?.len(), 256);
    Ok(())
}

/// So many numbers that the integer map has in one class.
fn of_one_class(alloc: Global, count: usize) -> Result<Vec<u64>, DictError> {
    let mut values = Vec::new(alloc);
    for value in 0..2_000_000u64 {
        let mut hasher = FoldHasher::default();
        value.hash(&mut hasher);
        let hash = hasher.finish();
        if (hash ^ (hash >> 32)) & 4095 == 0 && values.len() < count {
            values.push(value)?;
        }
    }
    Ok(values)
}

/// Values of one class are found by their order after the first, and get the codes that others get.
#[test]
fn numbers_that_collide(rt: HostRuntime) -> Result<(), Fail> {
    let values = of_one_class(rt.alloc(), 400)?;
    assert_eq!(rt; values.len(), 400);
    let rows = PrimitiveRows::try_new(values.as_slice(), None).ok_or("no rows")?;
    let mut encoder = PrimitiveDictEncoder::<u64, u32>::new(rt.alloc(), &UNCONSTRAINED);
    for _ in 0..2 {
        let codes = encoder.encode(rt.alloc(), &rows)?;
        assert_eq!(rt; codes.len(), 400);
        assert!(rt;
            codes
                .iter()
                .enumerate()
                .all(|(i, code)| *code as usize == i)
        );
    }
    assert!(rt; !encoder.is_empty());
    Ok(())
}

/// One value more than 16 bits have codes for.
#[test]
fn wide_codes(rt: HostRuntime) -> Result<(), Fail> {
    let mut values = Vec::new(rt.alloc());
    for value in 0..65_537u32 {
        values.push(value)?;
    }
    let rows = PrimitiveRows::try_new(values.as_slice(), None).ok_or("no rows")?;
    let mut encoder = PrimitiveDictEncoder::<u32, u64>::new(rt.alloc(), &UNCONSTRAINED);
    let codes = encoder.encode(rt.alloc(), &rows)?;
    assert!(rt;
        matches!(
            DictCodes::narrowed(rt.alloc(), codes.as_slice())?,
            DictCodes::U32(_)
        )
    );
    Ok(())
}

#[test]
fn narrow_codes(rt: HostRuntime) -> Result<(), Fail> {
    assert!(rt; matches!(DictCodes::narrowed(rt.alloc(), &[])?, DictCodes::U8(_)));
    assert!(rt;
        matches!(
            DictCodes::narrowed(rt.alloc(), &[0, 255])?,
            DictCodes::U8(_)
        )
    );
    assert!(rt;
        matches!(
            DictCodes::narrowed(rt.alloc(), &[256, 0])?,
            DictCodes::U16(_)
        )
    );
    assert!(rt;
        matches!(
            DictCodes::narrowed(rt.alloc(), &[4_294_967_296])?,
            DictCodes::U64(_)
        )
    );
    assert!(rt; matches!(bytes_code_type(&UNCONSTRAINED), PType::U64));
    assert!(rt; matches!(least_code_type(256), PType::U16));
    Ok(())
}
