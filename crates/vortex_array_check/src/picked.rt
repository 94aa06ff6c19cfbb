//! Rows of arrays that are made, taken, that a mask keeps, and that are lent.

use crate::makers::{Kind, decimals};
use crate::rows::{Act, Row, first_wrong};
use std::alloc::Global;
use vortex_array::Array;

const MADE: [Row; 12] = [
    (Kind::Bytes, Act::Nothing, "5u8;6u8;"),
    (Kind::NoBytes, Act::Nothing, ""),
    (Kind::Masked, Act::Nothing, "null;6u8;"),
    (Kind::Truths, Act::Nothing, "true;false;"),
    (Kind::Words, Act::Nothing, "\"ab\";null;\"\";\"cde\";"),
    (Kind::Nulls(2), Act::Nothing, "null;null;"),
    (Kind::Sevens(2), Act::Nothing, "7u8;7u8;"),
    (
        Kind::Nested,
        Act::Nothing,
        "[[1u8,2u8],[]];null;[];[[3u8]];",
    ),
    (Kind::Pairs, Act::Nothing, "[1u8,2u8];null;[5u8,6u8];"),
    (Kind::Records, Act::Nothing, "[null,true];null;[3u8,false];"),
    (Kind::Extensions, Act::Nothing, "5u8;"),
    (Kind::Extensions, Act::Storage, "5u8;"),
];

const TAKEN: [Row; 7] = [
    (Kind::Bytes, Act::Take([1, 1, 0]), "6u8;6u8;5u8;"),
    (Kind::Truths, Act::Take([0, 0, 1]), "true;true;false;"),
    (Kind::Words, Act::Take([3, 1, 3]), "\"cde\";null;\"cde\";"),
    (Kind::Sevens(2), Act::Take([1, 1, 0]), "7u8;7u8;7u8;"),
    (
        Kind::Nested,
        Act::Take([2, 0, 0]),
        "[];[[1u8,2u8],[]];[[1u8,2u8],[]];",
    ),
    (Kind::Pairs, Act::Take([2, 1, 1]), "[5u8,6u8];null;null;"),
    (
        Kind::Records,
        Act::Take([2, 0, 1]),
        "[3u8,false];[null,true];null;",
    ),
];

const KEPT: [Row; 12] = [
    (Kind::Masked, Act::Filter("10"), "null;"),
    (Kind::Truths, Act::Filter("01"), "false;"),
    (Kind::Words, Act::Filter("0101"), "null;\"cde\";"),
    (Kind::Sevens(3), Act::Filter("110"), "7u8;7u8;"),
    (Kind::NoBytes, Act::Filter(""), ""),
    (Kind::Nested, Act::Filter("0101"), "null;[[3u8]];"),
    (Kind::Nested, Act::Filter("0000"), ""),
    (Kind::Pairs, Act::Filter("011"), "null;[5u8,6u8];"),
    (Kind::Records, Act::Filter("110"), "[null,true];null;"),
    (Kind::Nested, Act::Slice(2, 4), "[];[[3u8]];"),
    (Kind::Words, Act::Slice(1, 3), "null;\"\";"),
    (Kind::Records, Act::Field(1), "true;true;false;"),
];

#[test]
fn rows_are_made_taken_and_kept(rt: HostRuntime) {
    let alloc = rt.alloc();
    assert_eq!(rt; first_wrong(alloc, &MADE), None);
    assert_eq!(rt; first_wrong(alloc, &TAKEN), None);
    assert_eq!(rt; first_wrong(alloc, &KEPT), None);
}

/// Whether the first rows of both are equal.
fn are_alike(alloc: Global, one: &Array, other: &Array) -> bool {
    if one.len() == 0 || other.len() == 0 {
        return false;
    }
    match (one.scalar_at(alloc, 0), other.scalar_at(alloc, 0)) {
        (Ok(a), Ok(b)) => a == b,
        _ => false,
    }
}

/// The row at place 1 of two decimals.
fn second(alloc: Global, array: Option<Array>) -> Option<Array> {
    let array = array?;
    if array.len() != 2 {
        return None;
    }
    array.take(alloc, &[1]).ok()
}

/// Whether decimals are taken as they were made.
fn takes_decimals(alloc: Global) -> bool {
    match (
        second(alloc, decimals(alloc, &[-1, 999])),
        decimals(alloc, &[999]),
    ) {
        (Some(one), Some(other)) => are_alike(alloc, &one, &other),
        _ => false,
    }
}

#[test]
fn decimals_are_taken(rt: HostRuntime) {
    let alloc = rt.alloc();
    assert!(rt; takes_decimals(alloc));
}
