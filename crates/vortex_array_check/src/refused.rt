//! Which of two causes refuses an array from its rows, and masks over texts.

use crate::makers::{MAY, NOT, bytes, mask};
use std::alloc::Global;
use vortex_array::{
    ArrayError, BoolArray, ConstantArray, ExtArray, FixedSizeListArray, ListArray, NullArray,
    PrimitiveArray, StructArray, VarBinArray,
};
use vortex_buffer::ByteBuffer;
use vortex_names::{ExtID, FieldNames, Nullability};
use vortex_number::PType;
use vortex_scalar::Scalar;
use vortex_types::{DType, ExtDType};

/// The number of the refusal, and 0 where there is none.
fn outcome<A: Drop>(made: Result<A, ArrayError>) -> u8 {
    match made {
        Ok(_) => 0,
        Err(error) => error.number(),
    }
}

fn numbers(alloc: Global, n: Nullability, digits: &str) -> u8 {
    outcome(PrimitiveArray::try_new(alloc, &[1_u8, 2], n, mask(alloc, digits)))
}

fn bools(alloc: Global, digits: &str) -> u8 {
    outcome(BoolArray::try_new(alloc, &[true], NOT, mask(alloc, digits)))
}

/// Pieces of bytes under a mask.
fn pieces(alloc: Global, offsets: &[u32], bytes: &[u8], dtype: DType, digits: &str) -> u8 {
    let (Ok(offsets), Ok(bytes)) = (
        Vec::from_slice(alloc, offsets),
        ByteBuffer::from_slice(alloc, bytes),
    ) else {
        return 99;
    };
    outcome(VarBinArray::try_new(alloc, offsets, bytes, dtype, mask(alloc, digits)))
}

/// Lists of three bytes under a type that is not nullable.
fn lists(alloc: Global, offsets: &[u32], digits: &str) -> u8 {
    let (Some(elements), Ok(offsets)) = (bytes(alloc, &[1, 2, 3]), Vec::from_slice(alloc, offsets))
    else {
        return 99;
    };
    outcome(ListArray::try_new(alloc, elements, offsets, NOT, mask(alloc, digits)))
}

/// Lists of two bytes each, of four bytes, under a type that is not nullable.
fn pairs(alloc: Global, len: usize, digits: &str) -> u8 {
    let valid = mask(alloc, digits);
    match bytes(alloc, &[1, 2, 3, 4]) {
        Some(elements) => {
            outcome(FixedSizeListArray::try_new(alloc, elements, 2, len, NOT, valid))
        }
        None => 99,
    }
}

/// Structs of one field of two bytes.
fn structs(alloc: Global, names: &[&str], len: usize, digits: &str) -> u8 {
    let mut fields = Vec::new(alloc);
    let (Ok(names), Some(field)) = (FieldNames::from_texts(alloc, names), bytes(alloc, &[1, 2]))
    else {
        return 99;
    };
    match fields.push(field) {
        Ok(()) => outcome(StructArray::try_new(
            alloc,
            names,
            fields,
            len,
            NOT,
            mask(alloc, digits),
        )),
        Err(_) => 99,
    }
}

/// A byte as an extension that is stored so, nullable or not.
fn extensions(alloc: Global, n: Nullability) -> u8 {
    let Ok(id) = ExtID::from_text(alloc, "id") else {
        return 99;
    };
    let dtype = ExtDType::try_new(alloc, id, DType::Primitive(PType::U8, n), None);
    match (dtype, bytes(alloc, &[1])) {
        (Ok(dtype), Some(storage)) => outcome(ExtArray::try_new(alloc, dtype, storage)),
        _ => 99,
    }
}

fn ones(alloc: Global, len: usize) -> u8 {
    outcome(ConstantArray::try_new(alloc, Scalar::primitive(1_u8, NOT), len))
}

fn leaves(alloc: Global) -> [u8; 7] {
    [
        bools(alloc, "0"),
        numbers(alloc, NOT, "11"),
        numbers(alloc, NOT, "10"),
        numbers(alloc, NOT, "101"),
        ones(alloc, 4_294_967_295),
        ones(alloc, 4_294_967_296),
        outcome(NullArray::try_new(alloc, 4_294_967_296)),
    ]
}

fn texts(alloc: Global) -> [u8; 6] {
    [
        pieces(alloc, &[0, 1, 2], &[97, 255], DType::Utf8(MAY), "10"),
        pieces(alloc, &[0, 1, 2], &[97, 255], DType::Utf8(MAY), "01"),
        pieces(alloc, &[0, 1], &[255], DType::Utf8(NOT), "11"),
        pieces(alloc, &[0, 2, 1], b"ab", DType::Utf8(NOT), "10"),
        pieces(alloc, &[0, 1], b"a", DType::Null, "1"),
        pieces(alloc, &[], b"", DType::Binary(NOT), ""),
    ]
}

fn nested(alloc: Global) -> [u8; 10] {
    [
        lists(alloc, &[0, 2, 3], "11"),
        lists(alloc, &[0, 2, 4], "10"),
        lists(alloc, &[0, 2, 3], "10"),
        pairs(alloc, 2, "11"),
        pairs(alloc, 3, "101"),
        pairs(alloc, 2, "10"),
        structs(alloc, &["a"], 2, "10"),
        structs(alloc, &["a", "b"], 2, "10"),
        structs(alloc, &["a"], 4_294_967_296, "10"),
        extensions(alloc, MAY),
    ]
}

#[test]
fn rows_are_refused(rt: HostRuntime) {
    let alloc = rt.alloc();
    assert_eq!(rt; leaves(alloc), [2, 0, 2, 3, 0, 4, 4]);
    assert_eq!(rt; texts(alloc), [0, 2, 3, 3, 2, 3]);
    assert_eq!(rt; nested(alloc), [0, 3, 2, 0, 3, 2, 2, 3, 4, 2]);
}
