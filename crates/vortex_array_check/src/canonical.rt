//! Arrays that hold constants, laid out.

use crate::makers::{Kind, made};
use crate::rows::prints;
use std::alloc::Global;
use vortex_array::ToCanonical;

/// An array, the encoding of the same rows without constants, and the rows.
type Row = (Kind, &'static str, &'static str);

const ROWS: [Row; 13] = [
    (Kind::Sevens(3), "vortex.primitive", "7u8;7u8;7u8;"),
    (Kind::Sevens(0), "vortex.primitive", ""),
    (Kind::SameTexts(2), "vortex.varbin", "\"ab\";\"ab\";"),
    (Kind::NullBytes, "vortex.varbin", "null;null;"),
    (Kind::NullDecimals, "vortex.decimal", "null;null;"),
    (Kind::SameLists, "vortex.list", "[\"ab\",\"ab\"];null;[];"),
    (
        Kind::SamePairs,
        "vortex.fixed_size_list",
        "[7u8,7u8];null;[7u8,7u8];",
    ),
    (
        Kind::SameRecords,
        "vortex.struct",
        "[[\"ab\",\"ab\"],7u8];null;[[],7u8];",
    ),
    (Kind::SameExtensions, "vortex.ext", "7u8;"),
    (
        Kind::FirstNested,
        "vortex.list",
        "[[1u8,2u8],[]];[[1u8,2u8],[]];",
    ),
    (
        Kind::FirstPairs,
        "vortex.fixed_size_list",
        "[1u8,2u8];[1u8,2u8];",
    ),
    (
        Kind::FirstRecords,
        "vortex.struct",
        "[[\"ab\",\"ab\"],7u8];[[\"ab\",\"ab\"],7u8];",
    ),
    (Kind::Words, "vortex.varbin", "\"ab\";null;\"\";\"cde\";"),
];

/// Whether the array without constants is called so and has these rows.
fn lays_out(alloc: Global, row: Row) -> bool {
    let (kind, id, want) = row;
    let Some(array) = made(alloc, kind) else {
        return false;
    };
    match array.to_canonical(alloc) {
        Ok(plain) => plain.encoding_id() == id && prints(alloc, &plain, want),
        Err(_) => false,
    }
}

/// The first of these that is not so.
fn first_wrong(alloc: Global, rows: &[Row]) -> Option<usize> {
    for i in 0..rows.len() {
        if !lays_out(alloc, rows[i]) {
            return Some(i);
        }
    }
    None
}

#[test]
fn constants_are_laid_out(rt: HostRuntime) {
    assert_eq!(rt; first_wrong(rt.alloc(), &ROWS), None);
}
