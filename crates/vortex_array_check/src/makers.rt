//! Arrays that tests are about.

use std::alloc::Global;
use vortex_array::{
    Array, BoolArray, ConstantArray, DecimalArray, ExtArray, FixedSizeListArray, ListArray,
    NullArray, PrimitiveArray, StructArray, VarBinArray,
};
use vortex_buffer::ByteBuffer;
use vortex_mask::{Mask, MaskBuilder};
use vortex_names::{DecimalDType, ExtID, FieldNames, Nullability};
use vortex_number::PType;
use vortex_scalar::Scalar;
use vortex_types::{DType, ExtDType};

/// Each array that tests are about.
#[derive(Clone, Copy)]
pub(crate) enum Kind {
    Bytes,
    NoBytes,
    Masked,
    Truths,
    Words,
    /// So many nulls.
    Nulls(usize),
    /// So many sevens, as a constant.
    Sevens(usize),
    Nested,
    Pairs,
    Records,
    Extensions,
    /// So many texts "ab", as a constant.
    SameTexts(usize),
    /// Two nulls of bytes and of decimals, as constants.
    NullBytes,
    NullDecimals,
    /// What holds constants.
    SameLists,
    SamePairs,
    SameRecords,
    SameExtensions,
    /// Two rows that are each the first of another array, as constants.
    FirstNested,
    FirstPairs,
    FirstRecords,
}

/// The array of the kind.
pub(crate) fn made(alloc: Global, kind: Kind) -> Option<Array> {
    match kind {
        Kind::Bytes => bytes(alloc, &[5, 6]),
        Kind::NoBytes => bytes(alloc, &[]),
        Kind::Masked => masked(alloc, &[5, 6], "01"),
        Kind::Truths => truths(alloc, &[true, false]),
        Kind::Words => words(alloc),
        Kind::Nulls(len) => nulls(alloc, len),
        Kind::Sevens(len) => sevens(alloc, len),
        Kind::Nested => nested(alloc),
        Kind::Pairs => byte_pairs(alloc),
        Kind::Records => records(alloc),
        Kind::Extensions => extensions(alloc, bytes(alloc, &[5])),
        Kind::SameTexts(len) => same_texts(alloc, len),
        Kind::NullBytes => same_nulls(alloc, DType::Binary(MAY)),
        Kind::NullDecimals => null_decimals(alloc),
        Kind::SameLists => same_lists(alloc),
        Kind::SamePairs => pairs(alloc, sevens(alloc, 6)),
        Kind::SameRecords => same_records(alloc),
        Kind::SameExtensions => extensions(alloc, sevens(alloc, 1)),
        Kind::FirstNested => first(alloc, nested(alloc)),
        Kind::FirstPairs => first(alloc, byte_pairs(alloc)),
        Kind::FirstRecords => first(alloc, same_records(alloc)),
    }
}

fn same_texts(alloc: Global, len: usize) -> Option<Array> {
    constant(alloc, Scalar::utf8(alloc, "ab", NOT).ok(), len)
}

/// Two nulls, where the type has any.
fn same_nulls(alloc: Global, dtype: DType) -> Option<Array> {
    if !dtype.is_nullable() {
        return None;
    }
    constant(alloc, Some(Scalar::null(dtype)), 2)
}

fn null_decimals(alloc: Global) -> Option<Array> {
    let dtype = DecimalDType::try_new(3, 1).ok()?;
    same_nulls(alloc, DType::Decimal(dtype, MAY))
}

/// Three lists: ["ab", "ab"], null and [].
fn same_lists(alloc: Global) -> Option<Array> {
    lists(alloc, same_texts(alloc, 3), &[0, 2, 3, 3], "101")
}

fn same_records(alloc: Global) -> Option<Array> {
    structs(alloc, same_lists(alloc), sevens(alloc, 3))
}

/// Two rows that are each the first of an array.
fn first(alloc: Global, array: Option<Array>) -> Option<Array> {
    let array = array?;
    if array.len() == 0 {
        return None;
    }
    constant(alloc, array.scalar_at(alloc, 0).ok(), 2)
}

pub(crate) const NOT: Nullability = Nullability::NonNullable;

pub(crate) const MAY: Nullability = Nullability::Nullable;

/// The mask that is true where the text has a 1.
pub(crate) fn mask(alloc: Global, digits: &str) -> Option<Mask> {
    let mut mask = MaskBuilder::new(alloc);
    for digit in digits.as_bytes() {
        mask.push(*digit == b'1').ok()?;
    }
    mask.finish().ok()
}

pub(crate) fn bytes(alloc: Global, values: &[u8]) -> Option<Array> {
    let array = PrimitiveArray::try_new(alloc, values, NOT, None).ok()?;
    array.into_array(alloc).ok()
}

/// Bytes that are null where the text has no 1.
fn masked(alloc: Global, values: &[u8], digits: &str) -> Option<Array> {
    let mask = mask(alloc, digits)?;
    let array = PrimitiveArray::try_new(alloc, values, MAY, Some(mask)).ok()?;
    array.into_array(alloc).ok()
}

fn truths(alloc: Global, values: &[bool]) -> Option<Array> {
    let array = BoolArray::try_new(alloc, values, NOT, None).ok()?;
    array.into_array(alloc).ok()
}

/// Decimals of 16 bits, of three digits.
pub(crate) fn decimals(alloc: Global, values: &[i16]) -> Option<Array> {
    let dtype = DecimalDType::try_new(3, 1).ok()?;
    let array = DecimalArray::try_new(alloc, values, dtype, NOT, None).ok()?;
    array.into_array(alloc).ok()
}

/// Four texts: "ab", null, "" and "cde".
fn words(alloc: Global) -> Option<Array> {
    let offsets = Vec::from_slice(alloc, &[1, 3, 4, 4, 7]).ok()?;
    let text = ByteBuffer::from_slice(alloc, b"-abxcde").ok()?;
    let mask = mask(alloc, "1011")?;
    let array = VarBinArray::try_new(alloc, offsets, text, DType::Utf8(MAY), Some(mask)).ok()?;
    array.into_array(alloc).ok()
}

fn nulls(alloc: Global, len: usize) -> Option<Array> {
    NullArray::try_new(alloc, len).ok()?.into_array(alloc).ok()
}

/// So many rows of one scalar.
fn constant(alloc: Global, scalar: Option<Scalar>, len: usize) -> Option<Array> {
    let array = ConstantArray::try_new(alloc, scalar?, len).ok()?;
    array.into_array(alloc).ok()
}

fn sevens(alloc: Global, len: usize) -> Option<Array> {
    constant(alloc, Some(Scalar::primitive(7_u8, NOT)), len)
}

/// Lists between offsets, null where the text has no 1.
fn lists(alloc: Global, elements: Option<Array>, offsets: &[u32], digits: &str) -> Option<Array> {
    let offsets = Vec::from_slice(alloc, offsets).ok()?;
    let mask = mask(alloc, digits)?;
    let array = ListArray::try_new(alloc, elements?, offsets, MAY, Some(mask)).ok()?;
    array.into_array(alloc).ok()
}

/// Four lists of lists of bytes, [[1, 2], []], null, [], and [[3]], which has a list of its own.
fn nested(alloc: Global) -> Option<Array> {
    let inner = lists(alloc, bytes(alloc, &[1, 2, 9, 3]), &[0, 2, 2, 3, 4], "1111");
    lists(alloc, inner, &[0, 2, 3, 3, 4], "1011")
}

/// Lists of two elements each, the second of which is null.
fn pairs(alloc: Global, elements: Option<Array>) -> Option<Array> {
    let mask = mask(alloc, "101")?;
    let array = FixedSizeListArray::try_new(alloc, elements?, 2, 3, MAY, Some(mask)).ok()?;
    array.into_array(alloc).ok()
}

/// Three pairs of bytes: (1, 2), null and (5, 6).
fn byte_pairs(alloc: Global) -> Option<Array> {
    pairs(alloc, bytes(alloc, &[1, 2, 3, 4, 5, 6]))
}

/// Structs of two fields, the second of which is null.
fn structs(alloc: Global, a: Option<Array>, b: Option<Array>) -> Option<Array> {
    let mut fields = Vec::new(alloc);
    fields.push(a?).ok()?;
    fields.push(b?).ok()?;
    let names = FieldNames::from_texts(alloc, &["a", "b"]).ok()?;
    let mask = mask(alloc, "101")?;
    let array = StructArray::try_new(alloc, names, fields, 3, MAY, Some(mask)).ok()?;
    array.into_array(alloc).ok()
}

/// Three structs of a byte and a truth value: (null, true), null and (3, false).
fn records(alloc: Global) -> Option<Array> {
    let numbers = masked(alloc, &[1, 2, 3], "011");
    structs(alloc, numbers, truths(alloc, &[true, true, false]))
}

/// Bytes as extensions.
fn extensions(alloc: Global, storage: Option<Array>) -> Option<Array> {
    let id = ExtID::from_text(alloc, "id").ok()?;
    let dtype = ExtDType::try_new(alloc, id, DType::from_ptype(PType::U8), None).ok()?;
    let array = ExtArray::try_new(alloc, dtype, storage?).ok()?;
    array.into_array(alloc).ok()
}
